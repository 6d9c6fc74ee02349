use crate::clearing::clear;
use crate::walking::walk;
use sl_contend::{Contenders, RaiseRule, Scratch};
use sl_types::{Instance, PoolId};

/// Finds the best raises of the pools of rule `Merit`, by counting who would be admitted in each
/// from the greatest merit down. A pool inside another counts for its quota at most.
#[derive(Clone, Copy, Debug, PartialEq, Eq)]
pub struct MeritRule;

impl RaiseRule for MeritRule {
    ghost use Rattle.sl_types.specs.declared.kinds.Rule.TheVariants.{Merit};
    ghost use Rattle.sl_contend.specs.Rule.{HasRule};
    ghost use Rattle.sl_contend.proofs.Lawful.{raise_passes_none, raise_stays_justified, deciding_number, raise_is_local, pool_stays_settled};

    ghost covers = { λ rule. HasRule Merit };

    ghost passes_none = { λ rule. raise_passes_none (HasRule Merit) };

    ghost stays_justified = { λ rule. raise_stays_justified (HasRule Merit) };

    ghost deciding = { λ rule. deciding_number (HasRule Merit) };

    ghost is_local = { λ rule. raise_is_local (HasRule Merit) };

    ghost stays_settled = { λ rule. pool_stays_settled (HasRule Merit) };

    fn best(
        &self,
        instance: &Instance,
        contenders: &Contenders,
        pool: PoolId,
        reads: &[u32],
        scratch: &mut Scratch,
    ) -> u32 {
        let offers = contenders.offers(pool);
        let found = walk(instance, offers, pool, reads, scratch);
        clear(instance, scratch, &offers[..found.looked]);
        found.best
    }
}
