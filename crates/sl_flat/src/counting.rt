// Where the offers that count pass the quota of a score pool.
ghost use Rattle.std.specs.Prelude.{◌≡◌, ◌<◌, length, slice_index, IfNone, IfSome};
ghost use Rattle.sl_laws.specs.Laws.{IsScorePool};
ghost use Rattle.sl_contend.specs.Contention.{contention_of};
ghost use Rattle.sl_flat.specs.Counting.{AllFit, IsPassing};

use crate::leading::counts;
use sl_contend::Contenders;
use sl_types::{Instance, PoolId};

// The scores of the last offer within a quota, and of the first past it.
#[derive(Clone, Copy)]
pub struct Passing {
    pub last: u32,
    pub next: u32,
}

// The scores of the last offer that counts within the quota of a score pool, and of the first past it, if so
// many count. The offers are looked at from the greatest score down, and no further than that.
pub fn find_passing(
    instance: &Instance,
    contenders: &Contenders,
    pool: PoolId,
    reads: &[u32],
) -> Option<Passing>
    requires contenders { contenders.now ≡ contention_of instance.now }
    requires sizes { length reads.now ≡ length instance.now.pools }
    requires within { pool.0 < length instance.now.pools }
    requires score { IsScorePool instance.now pool.0 }
    ensures none { IfNone result (AllFit instance.now (slice_index reads.now) pool.0) }
    ensures some { IfSome result (IsPassing instance.now (slice_index reads.now) pool.0) }
{
    let _pools = instance.pools();
    let quota = instance.pool(pool).quota;
    let mut count = 0;
    let mut last = 0;
    for offer in contenders.offers(pool) {
        if counts(instance, reads, pool, *offer) {
            if count == quota {
                return Some(Passing {
                    last,
                    next: offer.score,
                });
            }
            count += 1;
            last = offer.score;
        }
    }
    None
}
