// Kept raises, and logs of one entry.
ghost use Rattle.std.specs.Prelude.{◌≡◌, ◌<◌, ◌∷◌, [], length, slice_index};
ghost use Rattle.sl_laws.specs.Limits.{effective_limit};
ghost use Rattle.sl_laws.specs.Raises.{Replays};
ghost use Rattle.sl_floor.specs.Floor.{IsOf, IsIdle};

use super::settling::{justify, settle};
use super::*;
use sl_laws::plain_eff;

// A raise is above its limit at zeros.
fn rise(rt: &impl Abort, instance: &Instance, zeros: &[u32], raise: Raise)
    requires sizes { length zeros.now ≡ length instance.now.pools }
    requires within { raise.pool.0 < length instance.now.pools }
    ensures { effective_limit instance.now (slice_index zeros.now) raise.pool.0 < raise.limit }
{
    assert!(rt; plain_eff(instance, zeros, raise.pool) < raise.limit);
}

// A list may begin with a raise that is justified at zeros, above its limit there.
fn begin(rt: &impl Abort, instance: &Instance, zeros: &[u32], raise: Raise)
    requires few { length instance.now.pools ≡ 2 }
    requires zeros { zeros.now ≡ 0 ∷ 0 ∷ [] }
    requires within { raise.pool.0 < 2 }
    ensures { Replays instance.now (raise ∷ []) }
{
    justify(rt, instance, zeros, raise.pool, raise.limit);
    rise(rt, instance, zeros, raise);
}

#[test]
fn kept_raises_stand_in_the_words(rt: HostRuntime) -> Result<(), Fail> {
    let alloc = rt.alloc();
    let instance = displaced_twice(alloc)?;
    assert!(rt; instance.pools() == 2);
    let raise = Raise { pool: B, limit: 10 };
    begin(&rt, &instance, &[0, 0], raise);
    let contenders = Contenders::new(alloc, &instance)?;
    let (floor, mut seat) = Floor::new(alloc, &instance, &contenders, &[raise], 4)?;
    assert_eq!(rt; seat.known(B), 10);
    assert_eq!(rt; seat.log().len(), 0);
    let settled = settle(&rt, &instance, &floor, &mut seat, (A, B)).expect(&rt, "A is left");
    assert!(rt; settled.raise == Some((11, 1, 0)));
    Ok(())
}

// It settles both pools in turn, and empties its log where it is full.
fn settle_and_empty(
    rt: &impl Abort,
    instance: &Instance,
    floor: &Floor,
    seat: &mut Seat,
    pools: (PoolId, PoolId),
)
    requires seat { IsOf floor.now seat.old }
    requires instance { instance.now ≡ floor.now.market }
    requires few { length instance.now.pools ≡ 2 }
    requires idle { IsIdle seat.old }
    requires within { (pools.0.0 < 2) × (pools.1.0 < 2) }
    ensures seat { IsOf floor.now seat.new }
    ensures idle { IsIdle seat.new }
{
    let _settled = settle(rt, instance, floor, seat, pools);
    assert!(rt; seat.is_full());
    assert_eq!(rt; seat.log().len(), 1);
    floor.clear_log(seat);
    assert!(rt; !seat.is_full());
}

#[test]
fn a_log_of_one_entry_is_emptied(rt: HostRuntime) -> Result<(), Fail> {
    let alloc = rt.alloc();
    let instance = displaced_twice(alloc)?;
    assert!(rt; instance.pools() == 2);
    let contenders = Contenders::new(alloc, &instance)?;
    let (floor, mut seat) = Floor::new(alloc, &instance, &contenders, &[], 1)?;
    settle_and_empty(&rt, &instance, &floor, &mut seat, (B, A));
    settle_and_empty(&rt, &instance, &floor, &mut seat, (A, B));
    settle_and_empty(&rt, &instance, &floor, &mut seat, (B, A));
    assert_eq!(rt; seat.known(A), 11);
    assert_eq!(rt; seat.known(B), 11);
    Ok(())
}
