ghost use Rattle.std.specs.Prelude.{◌≡◌};

use sl_contend::Contenders;
use sl_nested::Mixed;
use sl_proof::{Replay, Unjust};
use sl_types::{Entry, Instance, Pool, PoolId, ProgId, Raise, Rule};
use std::alloc::Global;
use std::process::Abort;
use std::test::Fail;

const A: PoolId = PoolId(0);

const B: PoolId = PoolId(1);

fn choice(place: u32, prog: u32, score: u32) -> Entry {
    Entry {
        place,
        prog: ProgId(prog),
        score,
    }
}

// Two pools of one place each; x prefers a, y and z prefer b.
fn displaced_twice(alloc: Global) -> Result<Instance, Fail> {
    let pool = Pool {
        quota: 1,
        parent: None,
        rule: Rule::H,
    };
    let x = vec![in alloc; choice(1, 0, 10), choice(2, 1, 10)]?;
    let y = vec![in alloc; choice(1, 1, 9), choice(2, 0, 12)]?;
    let z = vec![in alloc; choice(1, 1, 11)]?;
    Ok(Instance::new(
        alloc,
        vec![in alloc; pool; 2]?,
        vec![in alloc; A, B]?,
        vec![in alloc; x, y, z]?,
    )?)
}

// Adds a raise where that is right, and leaves the limits else.
fn adds(
    rt: &impl Abort,
    instance: &Instance,
    replay: &mut Replay,
    raise: Raise,
    answer: Result<(), Unjust>,
    limits: &[u32],
)
    requires { replay.old.instance ≡ instance.now }
    ensures { replay.new.instance ≡ replay.old.instance }
{
    assert!(rt; (raise.pool.0 as usize) < replay.limits().len());
    assert_eq!(rt; replay.add(&Mixed, raise), answer);
    assert_eq!(rt; replay.limits(), limits);
}

#[test]
fn raises_displaced_twice(rt: HostRuntime) -> Result<(), Fail> {
    let alloc = rt.alloc();
    let instance = displaced_twice(alloc)?;
    let contenders = Contenders::new(alloc, &instance)?;
    let mut replay = Replay::new(alloc, &instance, &contenders)?;
    for (pool, limit, answer, limits) in [
        (B, 11, Err(Unjust), [0, 0]),
        (A, 11, Err(Unjust), [0, 0]),
        (B, 10, Ok(()), [0, 10]),
        (B, 10, Err(Unjust), [0, 10]),
        (A, 11, Ok(()), [11, 10]),
        (B, 11, Ok(()), [11, 11]),
    ] {
        let raise = Raise { pool, limit };
        adds(&rt, &instance, &mut replay, raise, answer, &limits);
    }
    for pool in [A, B] {
        assert!(rt; (pool.0 as usize) < replay.limits().len());
        assert!(rt; replay.settled(&Mixed, pool));
    }
    Ok(())
}
