// One offer more in the counters of pools.
ghost use Rattle.std.specs.Prelude.{◌≡◌, ◌<◌, true, length};
ghost use Rattle.sl_types.specs.Market.{lies_in};
ghost use Rattle.sl_nested.specs.Counting.{CountsOneMore, ChangesRound};

use sl_contend::Scratch;
use sl_types::{Instance, PoolId};

// Adds one to the counter of a pool, and to that of each pool round it up to `pool`, but stops at a
// pool whose counter has reached its quota.
pub fn add_outward(instance: &Instance, scratch: &mut Scratch, pool: PoolId, from: PoolId)
    requires size { length scratch.old ≡ length instance.now.pools }
    requires within { from.0 < length instance.now.pools }
    requires inside { lies_in instance.now from.0 pool.0 ≡ true }
    ensures size { length scratch.new ≡ length scratch.old }
    ensures counts { CountsOneMore instance.now pool.0 from.0 scratch.old scratch.new }
    ensures elsewhere { ChangesRound instance.now from.0 scratch.old scratch.new }
{
    let _pools = instance.pools();
    for here in instance.outward(from) {
        let count = scratch.count(here);
        if count >= instance.pool(here).quota {
            return;
        }
        scratch.set_count(here, count + 1);
        if here.0 == pool.0 {
            return;
        }
    }
}
