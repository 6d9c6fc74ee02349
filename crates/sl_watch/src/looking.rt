ghost use Rattle.std.specs.Prelude.{◌≡◌, ◌+◌, ◌≤◌, ◌<◌, length};
ghost use Rattle.sl_types.specs.declared.kinds.TheConstants.{MAX_SCORE};
ghost use Rattle.sl_laws.specs.Limits.{Limits};
ghost use Rattle.sl_laws.specs.Stable.{IsStable};
ghost use Rattle.sl_floor.specs.Floor.{read_view, IsOf, IsIdle, KnowsMore};
ghost use Rattle.sl_floor.specs.Held.{AreLimits, PassNone};
ghost use Rattle.sl_watch.specs.Looking.{Looks, StepsOnLimits};

use sl_floor::{Floor, Seat};
use sl_types::PoolId;

// Reads the limit word of one pool.
#[tactic(auto, using(crate::proofs::Looked::idle_may))]
fn limit_of(floor: &Floor, seat: &mut Seat, pool: usize) -> u32
    requires seat { IsOf floor.now seat.old }
    requires idle { IsIdle seat.old }
    requires within { pool < length floor.now.market.pools }
    ensures seat { seat.new ≡ record seat.old { view = read_view seat.old.view pool result } }
    ensures rises { KnowsMore seat.old seat.new }
    ensures top { result ≤ MAX_SCORE + 1 }
    ensures low { (l : Limits) → IsStable floor.now.market l → result ≤ l pool }
{
    let _pools = floor.pools();
    floor.read(seat, PoolId(pool as u32))
}

/// Reads the limit word of each pool once, in rising order, into a slice that has a number for each pool, in
/// points. The numbers are what the seat knows then: no less than it knew, and above no stable limit. It makes
/// one step on each limit word and none on another, and all else of the seat stays. It takes no memory. The
/// words are read one after another, so other seats may raise some of them meanwhile.
pub fn look(floor: &Floor, seat: &mut Seat, out: &mut [u32])
    requires seat { IsOf floor.now seat.old }
    requires idle { IsIdle seat.old }
    requires out { length out.old ≡ length floor.now.market.pools }
    ensures looks { Looks seat.old seat.new out.new }
    ensures rises { KnowsMore seat.old seat.new }
    ensures steps { StepsOnLimits floor.now.market seat.old.view.steps seat.new.view.steps }
    ensures each { length out.new ≡ length floor.now.market.pools }
    ensures top { AreLimits out.new }
    ensures low { PassNone floor.now.market out.new }
{
    // Each list of the seat has an item for each pool.
    let _full = seat.is_full();
    for pool in 0..out.len() {
        out[pool] = limit_of(floor, seat, pool);
    }
}
