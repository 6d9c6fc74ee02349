ghost use Rattle.std.specs.Prelude.{◌≡◌, ◌<◌, ◌≤◌, true, length};
ghost use Rattle.sl_contend.specs.Contention.{contention_of};
ghost use Rattle.sl_contend.specs.Rule.{CoversAll};
ghost use Rattle.sl_floor.specs.Floor.{IsOf, IsIdle, HasNoneLeft};
ghost use Rattle.sl_desk.specs.Seats.{Stepped};
ghost use Rattle.sl_desk.specs.Desks.{IsFor};
ghost use Rattle.sl_desk.specs.Scanning.{number_after};
ghost use Rattle.sl_desk.specs.Settling.{IsLeft, AnyIsLeft, Settles, Claims, steps_of};
ghost use Rattle.sl_desk.specs.Working.{Works, StandsNext};
ghost use Rattle.sl_desk.specs.declared.working.Stop.TheVariants as stop;

use crate::desk::Desk;
use crate::gate::Gate;
use crate::reading::fit;
use crate::scanning::{next_left, number_after};
use crate::settling::settle;
use sl_contend::{Contenders, RaiseRule};
use sl_floor::{Floor, Seat};
use sl_types::{Instance, PoolId};

/// Why a worker stopped.
#[derive(Clone, Copy, Debug, PartialEq, Eq)]
pub enum Stop {
    /// No pool is left to scan for its seat.
    Quiet,
    /// A pool is left, and the log in memory has room for no more entries.
    LogFull,
}

// Settles a pool, and moves the cursor to the next.
fn take_turn<R: RaiseRule>(
    floor: &Floor,
    seat: &mut Seat,
    desk: &mut Desk,
    rule: &R,
    instance: &Instance,
    contenders: &Contenders,
    pool: PoolId,
)
    requires seat { IsOf floor.now seat.old }
    requires idle { IsIdle seat.old }
    requires left { IsLeft seat.old pool.0 }
    requires within { pool.0 < length instance.now.pools }
    requires room { length seat.old.log < seat.old.room }
    requires allowance { 0 < seat.old.view.allowance }
    requires instance { instance.now ≡ floor.now.market }
    requires contenders { contenders.now ≡ contention_of instance.now }
    requires desk { IsFor instance.now desk.old }
    requires covered { CoversAll R.covers rule.now instance.now }
    ensures seat { IsOf floor.now seat.new }
    ensures idle { IsIdle seat.new }
    ensures settles { Settles pool.0 seat.old seat.new }
    ensures steps { Stepped seat.old.view seat.new.view (steps_of instance.now pool.0) }
    ensures claim { Claims instance.now pool.0 seat.old.view seat.new.view }
    ensures desk { IsFor instance.now desk.new }
    ensures cursor { desk.new.cursor ≡ number_after (length instance.now.pools) pool.0 }
{
    let pools = instance.pools() as u32;
    settle(floor, seat, desk, rule, instance, contenders, pool);
    desk.cursor = number_after(pools, pool);
}

/// Goes round the pools left to scan, from the cursor on, and settles one after another. Before
/// each claim it passes the gate. It stops where no pool is left to scan, or where one is and its log
/// is full. The seat is idle again, and the cursor stands at the pool after the last that was claimed.
/// It takes no memory, and always returns.
pub fn work<R: RaiseRule, G: Gate>(
    floor: &Floor,
    seat: &mut Seat,
    desk: &mut Desk,
    rule: &R,
    instance: &Instance,
    contenders: &Contenders,
    gate: &G,
) -> Stop
    requires seat { IsOf floor.now seat.old }
    requires idle { IsIdle seat.old }
    requires allowance { seat.old.room ≤ seat.old.view.allowance }
    requires instance { instance.now ≡ floor.now.market }
    requires contenders { contenders.now ≡ contention_of instance.now }
    requires desk { IsFor instance.now desk.old }
    requires covered { CoversAll R.covers rule.now instance.now }
    ensures seat { IsOf floor.now seat.new }
    ensures idle { IsIdle seat.new }
    ensures works { Works seat.old seat.new }
    ensures quiet { result ≡ stop.Quiet → HasNoneLeft seat.new }
    ensures full { result ≡ stop.LogFull → length seat.new.log ≡ seat.new.room }
    ensures some { result ≡ stop.LogFull → AnyIsLeft seat.new }
    ensures desk { IsFor instance.now desk.new }
    ensures cursor { StandsNext instance.now seat.old seat.new desk.old.cursor desk.new.cursor }
{
    fit(floor, seat);
    let _pools = instance.pools();
    let mut turn: u64 = 0;
    while let Some(pool) = next_left(seat, desk.cursor) {
        fit(floor, seat);
        if seat.is_full() {
            return Stop::LogFull;
        }
        gate.at(desk.worker, turn);
        take_turn(floor, seat, desk, rule, instance, contenders, pool);
        turn += 1;
    }
    Stop::Quiet
}
