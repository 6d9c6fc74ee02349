use crate::counting::find_passing;
use sl_contend::{Contenders, RaiseRule, Scratch};
use sl_types::{Instance, PoolId};

/// Finds the best raises of the pools of rule `H`, which refuses the tied group that would pass the quota.
#[derive(Clone, Copy, Debug, PartialEq, Eq)]
pub struct HRule;

/// Finds the best raises of the pools of rule `L`, which admits that group where fewer than the quota are
/// above it.
#[derive(Clone, Copy, Debug, PartialEq, Eq)]
pub struct LRule;

impl RaiseRule for HRule {
    ghost use Rattle.sl_types.specs.declared.kinds.Rule.TheVariants.{H};
    ghost use Rattle.sl_contend.specs.Rule.{HasRule};
    ghost use Rattle.sl_contend.proofs.Lawful.{raise_passes_none, raise_stays_justified, deciding_number, raise_is_local, pool_stays_settled};

    ghost covers = { λ rule. HasRule H };

    ghost passes_none = { λ rule. raise_passes_none (HasRule H) };

    ghost stays_justified = { λ rule. raise_stays_justified (HasRule H) };

    ghost deciding = { λ rule. deciding_number (HasRule H) };

    ghost is_local = { λ rule. raise_is_local (HasRule H) };

    ghost stays_settled = { λ rule. pool_stays_settled (HasRule H) };

    fn best(
        &self,
        instance: &Instance,
        contenders: &Contenders,
        pool: PoolId,
        reads: &[u32],
        scratch: &mut Scratch,
    ) -> u32 {
        let _pools = instance.pools();
        match find_passing(instance, contenders, pool, reads) {
            Some(passing) => passing.next + 1,
            None => 0,
        }
    }
}

impl RaiseRule for LRule {
    ghost use Rattle.sl_types.specs.declared.kinds.Rule.TheVariants.{L};
    ghost use Rattle.sl_contend.specs.Rule.{HasRule};
    ghost use Rattle.sl_contend.proofs.Lawful.{raise_passes_none, raise_stays_justified, deciding_number, raise_is_local, pool_stays_settled};

    ghost covers = { λ rule. HasRule L };

    ghost passes_none = { λ rule. raise_passes_none (HasRule L) };

    ghost stays_justified = { λ rule. raise_stays_justified (HasRule L) };

    ghost deciding = { λ rule. deciding_number (HasRule L) };

    ghost is_local = { λ rule. raise_is_local (HasRule L) };

    ghost stays_settled = { λ rule. pool_stays_settled (HasRule L) };

    fn best(
        &self,
        instance: &Instance,
        contenders: &Contenders,
        pool: PoolId,
        reads: &[u32],
        scratch: &mut Scratch,
    ) -> u32 {
        let _pools = instance.pools();
        match find_passing(instance, contenders, pool, reads) {
            Some(passing) if passing.next < passing.last => passing.next + 1,
            Some(passing) => passing.last,
            None => 0,
        }
    }
}
