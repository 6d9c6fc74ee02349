// Two workers in turn on one thread.
ghost use Rattle.std.specs.Prelude.{◌≡◌};
ghost use Rattle.sl_contend.specs.Contention.{contention_of};
ghost use Rattle.sl_floor.specs.Floor.{IsOf, IsIdle};
ghost use Rattle.sl_desk.specs.Desks.{IsFor};

use super::examples::displaced_twice;
use super::*;
use sl_floor::{Blank, WHOLE_SHARE};

// A worker with its seat and its desk.
#[derive(Drop)]
struct Worker {
    seat: Seat,
    desk: Desk,
}

// It settles the first pool that it has left, where it has one.
fn settle_first(
    rt: &impl Abort,
    floor: &Floor,
    worker: &mut Worker,
    instance: &Instance,
    contenders: &Contenders,
)
    requires seat { IsOf floor.now worker.old.seat }
    requires idle { IsIdle worker.old.seat }
    requires instance { instance.now ≡ floor.now.market }
    requires contenders { contenders.now ≡ contention_of instance.now }
    requires desk { IsFor instance.now worker.old.desk }
    ensures seat { IsOf floor.now worker.new.seat }
    ensures idle { IsIdle worker.new.seat }
    ensures desk { IsFor instance.now worker.new.desk }
{
    let Worker { seat, desk } = worker;
    if let Some(pool) = seat.next_left(A) {
        assert!(rt; !seat.is_full());
        assert!(rt; seat.allowance() > 0);
        settle(floor, seat, desk, &PlainRule, instance, contenders, pool);
    }
}

// The next of a row of numbers in no plain order.
fn shuffle(number: u64) -> u64 {
    number
        .wrapping_mul(6_364_136_223_846_793_005)
        .wrapping_add(1_442_695_040_888_963_407)
}

// Two workers settle pools in turn, a hundred times, in an order that a number decides.
fn settle_in_turn(
    rt: &impl Abort,
    floor: &Floor,
    first: &mut Worker,
    second: &mut Worker,
    instance: &Instance,
    contenders: &Contenders,
    order: u64,
)
    requires seats { IsOf floor.now first.old.seat × IsOf floor.now second.old.seat }
    requires idle { IsIdle first.old.seat × IsIdle second.old.seat }
    requires instance { instance.now ≡ floor.now.market }
    requires contenders { contenders.now ≡ contention_of instance.now }
    requires desks { IsFor instance.now first.old.desk × IsFor instance.now second.old.desk }
    ensures seats { IsOf floor.now first.new.seat × IsOf floor.now second.new.seat }
    ensures idle { IsIdle first.new.seat × IsIdle second.new.seat }
{
    let mut order = order;
    for _ in 0u32..100 {
        order = shuffle(order);
        if order < 1 << 63 {
            settle_first(rt, floor, first, instance, contenders);
        } else {
            settle_first(rt, floor, second, instance, contenders);
        }
    }
}

// The limits of "displaced twice", by two workers who settle its pools in this order.
fn clear_in_turn(rt: &impl Abort, alloc: Global, order: u64) -> Result<[u32; 2], Fail> {
    let instance = displaced_twice(alloc)?;
    assert!(rt; instance.pools() == 2);
    let contenders = Contenders::new(alloc, &instance)?;
    let (floor, mut seat) = open(rt, alloc, &instance, &contenders, 64)?;
    assert!(rt; seat.share() >= 2);
    let other = floor.split(&mut seat, Blank::new(alloc, &instance, 64)?, false);
    let desk = Desk::new(alloc, &instance, &contenders, 0, 2)?;
    let mut first = Worker { seat, desk };
    let desk = Desk::new(alloc, &instance, &contenders, 1, 2)?;
    let mut second = Worker { seat: other, desk };
    settle_in_turn(
        rt,
        &floor,
        &mut first,
        &mut second,
        &instance,
        &contenders,
        order,
    );
    let Worker { mut seat, desk: _ } = first;
    let Worker {
        seat: mut other,
        desk: _,
    } = second;
    floor.clear_log(&mut other);
    let _blank = floor.join(&mut seat, other);
    assert!(rt; !seat.any_left());
    assert!(rt; seat.share() == WHOLE_SHARE);
    let mut words = [0, 0];
    let _receipt = floor.close(seat, &mut words);
    Ok(words)
}

#[test]
fn fifty_orders_reach_the_same_limits(rt: HostRuntime) -> Result<(), Fail> {
    let alloc = rt.alloc();
    for order in 0u64..50 {
        assert_eq!(rt; clear_in_turn(&rt, alloc, order)?, [11, 11]);
    }
    Ok(())
}
