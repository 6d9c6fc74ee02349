// Worked examples, step by step.
ghost use Rattle.std.specs.Prelude.{◌≡◌, ◌<◌, length};
ghost use Rattle.sl_floor.specs.Floor.{IsOf, IsIdle};

use super::settling::settle;
use super::*;

// A seat claims a pool that it has left.
fn claims(rt: &impl Abort, floor: &Floor, seat: &mut Seat, pool: PoolId, answer: bool)
    requires seat { IsOf floor.now seat.old }
    requires idle { IsIdle seat.old }
    requires within { pool.0 < length floor.now.market.pools }
    ensures { IsOf floor.now seat.new }
{
    assert!(rt; seat.is_left(pool));
    assert_eq!(rt; floor.claim(seat, pool), answer);
    assert!(rt; !seat.is_left(pool));
}

#[test]
fn two_seats_claim_one_pool(rt: HostRuntime) -> Result<(), Fail> {
    let alloc = rt.alloc();
    let instance = crossing_tie(alloc)?;
    assert!(rt; instance.pools() > 0);
    let contenders = Contenders::new(alloc, &instance)?;
    let (floor, mut first) = Floor::new(alloc, &instance, &contenders, &[], 4)?;
    let blank = Blank::new(alloc, &instance, 4)?;
    let mut second = floor.split(&mut first, blank, false);
    claims(&rt, &floor, &mut first, A, true);
    claims(&rt, &floor, &mut second, A, false);
    Ok(())
}

// A seat settles a pool: what it reads of the pool and of the other, and the raise that it makes, with its
// ticket and the word that it finds.
fn settles(
    rt: &impl Abort,
    instance: &Instance,
    floor: &Floor,
    seat: &mut Seat,
    pools: (PoolId, PoolId),
    reads: (u32, u32),
    raise: Option<(u32, u64, u32)>,
)
    requires seat { IsOf floor.now seat.old }
    requires instance { instance.now ≡ floor.now.market }
    requires few { length instance.now.pools ≡ 2 }
    requires idle { IsIdle seat.old }
    requires within { (pools.0.0 < 2) × (pools.1.0 < 2) }
    ensures seat { IsOf floor.now seat.new }
    ensures idle { IsIdle seat.new }
{
    let Some(settled) = settle(rt, instance, floor, seat, pools) else {
        assert!(rt; false);
        return;
    };
    assert!(rt; (settled.own, settled.other) == reads);
    assert!(rt; settled.raise == raise);
}

#[test]
fn one_seat_clears_displaced_twice(rt: HostRuntime) -> Result<(), Fail> {
    let alloc = rt.alloc();
    let instance = displaced_twice(alloc)?;
    assert!(rt; instance.pools() == 2);
    let contenders = Contenders::new(alloc, &instance)?;
    let (floor, mut seat) = Floor::new(alloc, &instance, &contenders, &[], 4)?;
    settles(
        &rt,
        &instance,
        &floor,
        &mut seat,
        (B, A),
        (0, 0),
        Some((10, 0, 0)),
    );
    settles(
        &rt,
        &instance,
        &floor,
        &mut seat,
        (A, B),
        (0, 10),
        Some((11, 1, 0)),
    );
    settles(
        &rt,
        &instance,
        &floor,
        &mut seat,
        (B, A),
        (10, 11),
        Some((11, 2, 10)),
    );
    settles(&rt, &instance, &floor, &mut seat, (A, B), (11, 11), None);
    assert_eq!(rt; close(&rt, floor, seat), [11, 11]);
    Ok(())
}
