ghost use Rattle.std.specs.Prelude.{◌≡◌, ◌<◌, ◌∷◌, [], length, slice_index};
ghost use Rattle.sl_laws.specs.Limits.{effective_limit};
ghost use Rattle.sl_laws.specs.Stable.{IsJustified};
ghost use Rattle.sl_laws.specs.Raises.{Replays};
ghost use Rattle.sl_floor.specs.Floor.{IsOf, IsIdle};

use super::*;
use sl_contend::Contenders;
use sl_floor::{Blank, Floor, Seat};
use sl_laws::{plain_eff, plain_justified};
use sl_types::{Entry, Instance, Pool, PoolId, ProgId, Raise, Rule};
use std::alloc::Global;
use std::process::Abort;
use std::test::Fail;

const A: PoolId = PoolId(0);

const B: PoolId = PoolId(1);

fn choice(place: u32, prog: u32, score: u32) -> Entry {
    Entry {
        place,
        prog: ProgId(prog),
        score,
    }
}

// Two pools of one place each; x prefers a, y and z prefer b.
fn displaced_twice(alloc: Global) -> Result<Instance, Fail> {
    let pool = Pool {
        quota: 1,
        parent: None,
        rule: Rule::H,
    };
    let x = vec![in alloc; choice(1, 0, 10), choice(2, 1, 10)]?;
    let y = vec![in alloc; choice(1, 1, 9), choice(2, 0, 12)]?;
    let z = vec![in alloc; choice(1, 1, 11)]?;
    Ok(Instance::new(
        alloc,
        vec![in alloc; pool; 2]?,
        vec![in alloc; A, B]?,
        vec![in alloc; x, y, z]?,
    )?)
}

// A raise that is justified where nothing is raised, and above its limit there.
fn rise(rt: &impl Abort, instance: &Instance, zeros: &[u32], raise: Raise)
    requires sizes { length zeros.now ≡ length instance.now.pools }
    requires within { raise.pool.0 < length instance.now.pools }
    ensures above { effective_limit instance.now (slice_index zeros.now) raise.pool.0
        < raise.limit }
    ensures justified { IsJustified instance.now (slice_index zeros.now) raise.pool.0 raise.limit }
{
    assert!(rt; plain_eff(instance, zeros, raise.pool) < raise.limit);
    assert!(rt; plain_justified(instance, zeros, raise.pool, raise.limit));
}

// So a floor may open with it.
fn begin(rt: &impl Abort, instance: &Instance, zeros: &[u32], raise: Raise)
    requires few { length instance.now.pools ≡ 2 }
    requires zeros { zeros.now ≡ 0 ∷ 0 ∷ [] }
    requires within { raise.pool.0 < 2 }
    ensures { Replays instance.now (raise ∷ []) }
{
    rise(rt, instance, zeros, raise);
}

// The seat finds these limits.
fn sees(rt: &impl Abort, floor: &Floor, seat: &mut Seat, limits: [u32; 2])
    requires seat { IsOf floor.now seat.old }
    requires idle { IsIdle seat.old }
    requires few { length floor.now.market.pools ≡ 2 }
    ensures seat { IsOf floor.now seat.new }
    ensures idle { IsIdle seat.new }
{
    let mut found = [7, 7];
    look(floor, seat, &mut found);
    assert_eq!(rt; found, limits);
    assert_eq!(rt; [seat.known(A), seat.known(B)], limits);
}

#[test]
fn looks_at_a_raised_limit(rt: HostRuntime) -> Result<(), Fail> {
    let alloc = rt.alloc();
    let instance = displaced_twice(alloc)?;
    assert!(rt; instance.pools() == 2);
    let raise = Raise { pool: B, limit: 10 };
    begin(&rt, &instance, &[0, 0], raise);
    let contenders = Contenders::new(alloc, &instance)?;
    let (floor, mut seat) = Floor::new(alloc, &instance, &contenders, &[raise], 4)?;
    let blank = Blank::new(alloc, &instance, 1)?;
    let mut reader = floor.split(&mut seat, blank, true);
    sees(&rt, &floor, &mut reader, [0, 10]);
    sees(&rt, &floor, &mut reader, [0, 10]);
    assert!(rt; !reader.any_left() && seat.any_left());
    Ok(())
}

#[test]
fn looks_at_no_pools(rt: HostRuntime) -> Result<(), Fail> {
    let alloc = rt.alloc();
    let instance = Instance::new(alloc, Vec::new(alloc), Vec::new(alloc), Vec::new(alloc))?;
    assert!(rt; instance.pools() == 0);
    let contenders = Contenders::new(alloc, &instance)?;
    let (floor, mut seat) = Floor::new(alloc, &instance, &contenders, &[], 1)?;
    look(&floor, &mut seat, &mut []);
    Ok(())
}
