use crate::merit::MeritRule;
use sl_contend::{Contenders, RaiseRule, Scratch};
use sl_flat::{HRule, LRule};
use sl_types::{Instance, PoolId, Rule};

/// Finds the best raise of every pool, by the pool's own rule.
#[derive(Clone, Copy, Debug, PartialEq, Eq)]
pub struct Mixed;

impl RaiseRule for Mixed {
    ghost use Rattle.sl_contend.specs.Rule.{AnyPool};
    ghost use Rattle.sl_contend.proofs.Lawful.{raise_passes_none, raise_stays_justified, deciding_number, raise_is_local, pool_stays_settled};

    ghost covers = { λ rule. AnyPool };

    ghost passes_none = { λ rule. raise_passes_none AnyPool };

    ghost stays_justified = { λ rule. raise_stays_justified AnyPool };

    ghost deciding = { λ rule. deciding_number AnyPool };

    ghost is_local = { λ rule. raise_is_local AnyPool };

    ghost stays_settled = { λ rule. pool_stays_settled AnyPool };

    fn best(
        &self,
        instance: &Instance,
        contenders: &Contenders,
        pool: PoolId,
        reads: &[u32],
        scratch: &mut Scratch,
    ) -> u32 {
        match instance.pool(pool).rule {
            Rule::H => HRule.best(instance, contenders, pool, reads, scratch),
            Rule::L => LRule.best(instance, contenders, pool, reads, scratch),
            Rule::Merit => MeritRule.best(instance, contenders, pool, reads, scratch),
        }
    }
}
