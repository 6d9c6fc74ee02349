ghost use Rattle.std.specs.Prelude.{◌≡◌, ◌+◌, ◌<◌, ◌≤◌, length, slice_index};
ghost use Rattle.std.specs.Bool.{OnTrue, OnFalse};
ghost use Rattle.std.specs.Option.{IfSome};
ghost use Rattle.sl_types.specs.declared.kinds.TheConstants.{MAX_SCORE};
ghost use Rattle.sl_core.specs.declared.kinds.Phase.TheVariants.{Working};
ghost use Rattle.sl_core.specs.State.{no_limits, no_pools};
ghost use Rattle.sl_contend.specs.Contention.{contention_of};
ghost use Rattle.sl_contend.specs.Rule.{CoversAll};
ghost use Rattle.sl_contend.specs.Counters.{HasRoomFor};
ghost use Rattle.sl_floor.specs.Floor.{IsOf, IsIdle};
ghost use Rattle.sl_desk.specs.Seats.{FitsMarket, Stepped};
ghost use Rattle.sl_desk.specs.Reading.{after_reads, HasSearched};
ghost use Rattle.sl_desk.specs.Settling.{IsLeft, Settles, Claims, ReadsAll, ClaimsAlone, steps_of};
ghost use Rattle.sl_desk.specs.Desks.{IsFor};

use crate::desk::Desk;
use crate::finding::limit_found;
use crate::raising::raise_to;
use crate::reading::{fit, forget, read_asked};
use sl_contend::{Contenders, RaiseRule, Scratch};
use sl_floor::{Floor, Seat};
use sl_types::{Instance, PoolId};

// Reads what the pool at work asks for, and answers the limit to which it is to be raised, where it
// is. The numbers that were read into are 0 again.
fn search<R: RaiseRule>(
    floor: &Floor,
    seat: &mut Seat,
    scratch: &mut Scratch,
    reads: &mut [u32],
    rule: &R,
    instance: &Instance,
    contenders: &Contenders,
    pool: PoolId,
) -> Option<u32>
    requires of { IsOf floor.now seat.old }
    requires sized { FitsMarket floor.now.market seat.old.view }
    requires within { pool.0 < length instance.now.pools }
    requires phase { seat.old.view.actor.phase ≡ Working pool }
    requires made { seat.old.view.actor.made ≡ no_pools instance.now }
    requires none { seat.old.view.actor.reads ≡ no_limits instance.now }
    requires reads { reads.old ≡ no_limits instance.now }
    requires instance { instance.now ≡ floor.now.market }
    requires contenders { contenders.now ≡ contention_of instance.now }
    requires scratch { HasRoomFor instance.now scratch.old }
    requires covered { R.covers rule.now instance.now pool.0 }
    ensures read { HasSearched floor.now.market pool seat.old seat.new }
    ensures phase { seat.new.view.actor.phase ≡ after_reads pool result }
    ensures above { IfSome result (λ x. slice_index seat.new.view.actor.known pool.0 < x) }
    ensures top { IfSome result (λ x. x ≤ MAX_SCORE + 1) }
    ensures reads { reads.new ≡ no_limits instance.now }
    ensures scratch { HasRoomFor instance.now scratch.new }
{
    let feeds = contenders.feeds(pool);
    read_asked(floor, seat, reads, feeds, pool);
    let limit = limit_found(rule, instance, contenders, scratch, reads, pool);
    forget(reads, feeds, pool);
    limit
}

/// Settles a pool that is left to scan. It claims the pool; where the flag was up it reads the pool
/// and the pools that feed it, and where it can be raised above its effective limit it draws a
/// ticket, raises it, and marks the pools that it feeds. The answer is whether the flag was up. The
/// seat is idle again, has logged one raise at most, and has made no more steps than the pool has
/// feeding and fed pools, and four. It takes no memory. The contenders and the desk were made for the
/// floor's instance, and the rule covers each of its pools.
pub fn settle<R: RaiseRule>(
    floor: &Floor,
    seat: &mut Seat,
    desk: &mut Desk,
    rule: &R,
    instance: &Instance,
    contenders: &Contenders,
    pool: PoolId,
) -> bool
    requires seat { IsOf floor.now seat.old }
    requires idle { IsIdle seat.old }
    requires left { IsLeft seat.old pool.0 }
    requires room { length seat.old.log < seat.old.room }
    requires allowance { 0 < seat.old.view.allowance }
    requires instance { instance.now ≡ floor.now.market }
    requires contenders { contenders.now ≡ contention_of instance.now }
    requires desk { IsFor instance.now desk.old }
    requires covered { CoversAll R.covers rule.now instance.now }
    ensures seat { IsOf floor.now seat.new }
    ensures idle { IsIdle seat.new }
    ensures settles { Settles pool.0 seat.old seat.new }
    ensures steps { Stepped seat.old.view seat.new.view (steps_of instance.now pool.0) }
    ensures claim { Claims instance.now pool.0 seat.old.view seat.new.view }
    ensures alone { OnFalse result (ClaimsAlone pool seat.old seat.new) }
    ensures asked { OnTrue result (ReadsAll instance.now pool.0 seat.old.view seat.new.view) }
    ensures desk { IsFor instance.now desk.new }
    ensures cursor { desk.new.cursor ≡ desk.old.cursor }
{
    fit(floor, seat);
    if !floor.claim(seat, pool) {
        return false;
    }
    let limit = search(
        floor,
        seat,
        &mut desk.scratch,
        &mut desk.reads,
        rule,
        instance,
        contenders,
        pool,
    );
    if let Some(x) = limit {
        raise_to(floor, seat, contenders.fed(pool), pool, x);
    }
    true
}
