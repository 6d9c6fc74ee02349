// The marks of a settling.
ghost use Rattle.std.specs.Prelude.{◌≡◌, ◌<◌, true, length};
ghost use Rattle.sl_core.specs.State.{is_idle};
ghost use Rattle.sl_core.specs.Machine.{phase_after_raise, fed_pools};
ghost use Rattle.sl_contend.specs.Contention.{fed_by, numbers_of_pools};
ghost use Rattle.sl_floor.specs.Floor.{IsOf};
ghost use Rattle.sl_desk.specs.Seats.{FitsMarket};
ghost use Rattle.sl_desk.specs.Marking.{HasMarkedAll};

use sl_floor::{Floor, Seat};
use sl_types::PoolId;

// Marks the pools that a raised pool feeds, in rising order.
pub fn mark_fed(floor: &Floor, seat: &mut Seat, fed: &[PoolId], pool: PoolId)
    requires of { IsOf floor.now seat.old }
    requires sized { FitsMarket floor.now.market seat.old.view }
    requires fed { numbers_of_pools fed.now ≡ fed_by floor.now.market pool.0 }
    requires phase { seat.old.view.actor.phase ≡ phase_after_raise floor.now.market pool true }
    requires owed { seat.old.view.actor.owed ≡ fed_pools floor.now.market pool.0 }
    ensures marked { HasMarkedAll floor.now.market pool seat.old seat.new }
    ensures idle { is_idle seat.new.view.actor.phase ≡ true }
{
    for at in 0..fed.len() {
        floor.mark(seat, fed[at]);
    }
}
