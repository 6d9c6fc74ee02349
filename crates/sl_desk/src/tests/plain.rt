// A rule that finds the best raise of any pool by halving, over the plain test.
ghost use Rattle.std.specs.Prelude.{◌≡◌, ◌<◌, length, slice_index};
ghost use Rattle.sl_contend.specs.Rule.{IsBest};

use sl_contend::{Contenders, RaiseRule, Scratch};
use sl_laws::plain_justified;
use sl_types::{Instance, MAX_SCORE, PoolId};

#[derive(Clone, Copy)]
pub struct PlainRule;

// The greatest justified raise of a pool at the reads, or 0.
fn greatest(instance: &Instance, reads: &[u32], pool: PoolId) -> u32
    requires sizes { length reads.now ≡ length instance.now.pools }
    requires within { pool.0 < length instance.now.pools }
    ensures { IsBest instance.now (slice_index reads.now) pool.0 result }
{
    let _pools = instance.pools();
    let mut low = 0;
    let mut high = MAX_SCORE + 2;
    while high - low > 1 {
        let middle = low + (high - low) / 2;
        if plain_justified(instance, reads, pool, middle) {
            low = middle;
        } else {
            high = middle;
        }
    }
    low
}

impl RaiseRule for PlainRule {
    ghost use Rattle.sl_contend.specs.Rule.{AnyPool};
    ghost use Rattle.sl_contend.proofs.Lawful.{raise_passes_none, raise_stays_justified, deciding_number, raise_is_local, pool_stays_settled};

    ghost covers = { λ rule. AnyPool };

    ghost passes_none = { λ rule. raise_passes_none AnyPool };

    ghost stays_justified = { λ rule. raise_stays_justified AnyPool };

    ghost deciding = { λ rule. deciding_number AnyPool };

    ghost is_local = { λ rule. raise_is_local AnyPool };

    ghost stays_settled = { λ rule. pool_stays_settled AnyPool };

    fn best(
        &self,
        instance: &Instance,
        _contenders: &Contenders,
        pool: PoolId,
        reads: &[u32],
        _scratch: &mut Scratch,
    ) -> u32 {
        greatest(instance, reads, pool)
    }
}
