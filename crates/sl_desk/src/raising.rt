// The raise of a settling.
ghost use Rattle.std.specs.Prelude.{◌≡◌, ◌+◌, ◌<◌, ◌≤◌, true, length, slice_index};
ghost use Rattle.sl_types.specs.declared.kinds.TheConstants.{MAX_SCORE};
ghost use Rattle.sl_core.specs.declared.kinds.Phase.TheVariants.{Ready};
ghost use Rattle.sl_core.specs.State.{is_idle};
ghost use Rattle.sl_contend.specs.Contention.{fed_by, numbers_of_pools};
ghost use Rattle.sl_floor.specs.Floor.{IsOf};
ghost use Rattle.sl_desk.specs.Seats.{FitsMarket};
ghost use Rattle.sl_desk.specs.Raising.{HasLifted, HasRaised};

use crate::marking::mark_fed;
use sl_floor::{Floor, Seat};
use sl_types::PoolId;

// Draws a ticket for the raise that is ready, and raises the word. Tells whether the word rose.
pub fn lift(floor: &Floor, seat: &mut Seat, pool: PoolId, x: u32) -> bool
    requires of { IsOf floor.now seat.old }
    requires sized { FitsMarket floor.now.market seat.old.view }
    requires within { pool.0 < length floor.now.market.pools }
    requires phase { seat.old.view.actor.phase ≡ Ready pool x }
    requires room { length seat.old.log < seat.old.room }
    requires allowance { 0 < seat.old.view.allowance }
    requires above { slice_index seat.old.view.actor.known pool.0 < x }
    requires top { x ≤ MAX_SCORE + 1 }
    ensures { HasLifted floor.now.market pool seat.old seat.new result }
{
    floor.draw(seat, x);
    floor.raise(seat) < x
}

// The same, and where the word rose it marks the pools that the pool feeds.
pub fn raise_to(floor: &Floor, seat: &mut Seat, fed: &[PoolId], pool: PoolId, x: u32)
    requires of { IsOf floor.now seat.old }
    requires sized { FitsMarket floor.now.market seat.old.view }
    requires within { pool.0 < length floor.now.market.pools }
    requires fed { numbers_of_pools fed.now ≡ fed_by floor.now.market pool.0 }
    requires phase { seat.old.view.actor.phase ≡ Ready pool x }
    requires room { length seat.old.log < seat.old.room }
    requires allowance { 0 < seat.old.view.allowance }
    requires above { slice_index seat.old.view.actor.known pool.0 < x }
    requires top { x ≤ MAX_SCORE + 1 }
    ensures raised { HasRaised floor.now.market pool.0 seat.old seat.new }
    ensures idle { is_idle seat.new.view.actor.phase ≡ true }
{
    if lift(floor, seat, pool, x) {
        mark_fed(floor, seat, fed, pool);
    }
}
