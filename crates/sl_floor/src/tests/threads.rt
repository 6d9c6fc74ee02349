// Two seats in two threads: a floor may be shared, and a seat taken along.
ghost use Rattle.std.specs.Prelude.{◌≡◌, ℕ, ◌<◌, All, [], length, slice_index_or};
ghost use Rattle.sl_floor.specs.Floor.{IsOf, IsIdle};

use super::settling::settle;
use super::*;
use std::thread;
use std::thread::Threads;

// The other of two pools.
fn other_pool(pool: PoolId) -> PoolId
    ensures { result.0 < 2 }
{
    if pool.0 == 0 { B } else { A }
}

// It settles pools until none is left, 40 times at most.
fn work(rt: &impl Abort, instance: &Instance, floor: &Floor, seat: &mut Seat)
    requires seat { IsOf floor.now seat.old }
    requires idle { IsIdle seat.old }
    requires instance { instance.now ≡ floor.now.market }
    requires few { length instance.now.pools ≡ 2 }
    ensures seat { IsOf floor.now seat.new }
    ensures idle { IsIdle seat.new }
{
    for _ in 0u32..40 {
        if let Some(pool) = seat.next_left(A) {
            assert!(rt; pool.0 < 2);
            let _settled = settle(rt, instance, floor, seat, (pool, other_pool(pool)));
        }
    }
}

fn work_all<R: Threads + Abort + Sync>(
    rt: &R,
    instance: &Instance,
    floor: &Floor,
    seats: &mut [Seat],
)
    requires instance { instance.now ≡ floor.now.market }
    requires few { length instance.now.pools ≡ 2 }
    requires seats { All (λ s. IsOf floor.now s × IsIdle s) seats.old }
    ensures count { length seats.new ≡ length seats.old }
    ensures seats { All (λ s. IsOf floor.now s × IsIdle s) seats.new }
{
    let threads = seats.len().max(1);
    thread::for_each_mut(
        rt,
        seats,
        threads,
        &|_: usize, seat: &mut Seat|
            requires { (instance.now ≡ floor.now.market) × (length instance.now.pools ≡ 2)
                × IsOf floor.now seat.old × IsIdle seat.old }
            ensures { IsOf floor.entry.now seat.new × IsIdle seat.new }
        { work(rt, instance, floor, seat) },
    );
}

// The same of two, one after the other in their order.
fn work_both<R: Threads + Abort + Sync>(
    rt: &R,
    instance: &Instance,
    floor: &Floor,
    first: Seat,
    second: Seat,
) -> (Seat, Seat)
    requires instance { instance.now ≡ floor.now.market }
    requires few { length instance.now.pools ≡ 2 }
    requires first { IsOf floor.now first × IsIdle first }
    requires second { IsOf floor.now second × IsIdle second }
    ensures first { IsOf floor.now result.0 × IsIdle result.0 }
    ensures second { IsOf floor.now result.1 × IsIdle result.1 }
{
    let mut seats = [first, second];
    work_all(rt, instance, floor, &mut seats);
    let [first, second] = seats;
    (first, second)
}

// Two threads clear the instance; then its limits are read off the words.
fn clear<R: Threads + Abort + Sync>(
    rt: &R,
    alloc: Global,
    instance: &Instance,
) -> Result<[u32; 2], Fail> {
    assert!(rt; instance.pools() == 2);
    let contenders = Contenders::new(alloc, instance)?;
    let (floor, mut first) = Floor::new(alloc, instance, &contenders, &[], 64)?;
    let second = floor.split(&mut first, Blank::new(alloc, instance, 64)?, false);
    let (mut first, mut second) = work_both(rt, instance, &floor, first, second);
    floor.clear_log(&mut second);
    let _blank = floor.join(&mut first, second);
    Ok(close(rt, floor, first))
}

#[test]
fn two_threads_clear_displaced_twice(rt: HostRuntime) -> Result<(), Fail> {
    let alloc = rt.alloc();
    for _ in 0u32..50 {
        let instance = displaced_twice(alloc)?;
        assert_eq!(rt; clear(&rt, alloc, &instance)?, [11, 11]);
    }
    Ok(())
}
