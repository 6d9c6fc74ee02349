ghost use Rattle.std.specs.Prelude.{◌≡◌, ◌+◌, ◌<◌, ◌≤◌, length, IfOk};
ghost use Rattle.sl_contend.specs.Contention.{contention_of};
ghost use Rattle.sl_floor.specs.Floor.{IsOf, IsIdle};
ghost use Rattle.sl_desk.specs.Desks.{IsFor};

use self::plain::PlainRule;
use super::*;
use sl_contend::Contenders;
use sl_floor::{Floor, Seat};
use sl_types::{Entry, Instance, Pool, PoolId, ProgId, Rule};
use std::alloc::Global;
use std::process::Abort;
use std::test::Fail;

mod alone;
mod counting;
mod examples;
mod in_turn;
mod plain;

const A: PoolId = PoolId(0);

const B: PoolId = PoolId(1);

// A floor that opens with no raise, and its first seat, whose log has this room.
fn open(
    rt: &impl Abort,
    alloc: Global,
    instance: &Instance,
    contenders: &Contenders,
    room: usize,
) -> Result<(Floor, Seat), Fail>
    ensures market { IfOk result (λ t. t.0.market ≡ instance.now) }
    ensures seat { IfOk result (λ t. IsOf t.0 t.1) }
    ensures idle { IfOk result (λ t. IsIdle t.1) }
{
    assert!(rt; 1 <= room && room <= 65536);
    let _pools = instance.pools();
    Ok(Floor::new(alloc, instance, contenders, &[], room)?)
}

// A worker works until it stops. Its log then has these raises, and is emptied.
fn work_on<G: Gate>(
    rt: &impl Abort,
    floor: &Floor,
    seat: &mut Seat,
    desk: &mut Desk,
    instance: &Instance,
    contenders: &Contenders,
    gate: &G,
    answer: (Stop, &[(PoolId, u32)]),
)
    requires seat { IsOf floor.now seat.old }
    requires idle { IsIdle seat.old }
    requires instance { instance.now ≡ floor.now.market }
    requires contenders { contenders.now ≡ contention_of instance.now }
    requires desk { IsFor instance.now desk.old }
    ensures seat { IsOf floor.now seat.new }
    ensures idle { IsIdle seat.new }
    ensures desk { IsFor instance.now desk.new }
{
    assert!(rt; seat.room() as u64 <= seat.allowance());
    let stop = work(floor, seat, desk, &PlainRule, instance, contenders, gate);
    assert_eq!(rt; stop, answer.0);
    check_log(rt, seat, answer.1);
    floor.clear_log(seat);
}

// The log in memory has these raises, in this order.
fn check_log(rt: &impl Abort, seat: &Seat, raises: &[(PoolId, u32)]) {
    assert_eq!(rt; seat.log().len(), raises.len());
    for at in 0..raises.len() {
        assert!(rt; at < seat.log().len());
        let entry = seat.log()[at];
        assert_eq!(rt; (entry.pool, entry.limit), raises[at]);
    }
}
