ghost use Rattle.std.specs.Prelude.{◌≡◌, ◌<◌, length, IfOk};
ghost use Rattle.sl_laws.specs.Raises.{Replays};
ghost use Rattle.sl_contend.specs.Contention.{contention_of};

use self::examples::EXAMPLES;
use super::*;
use sl_contend::Contenders;
use sl_desk::{Gate, OpenGate};
use sl_nested::Mixed;
use sl_proof::Replay;
use sl_types::{Entry, Instance, Pool, PoolId, ProgId, Raise, Rule};
use std::alloc::Global;
use std::process::Abort;
use std::test::Fail;
use std::thread::Threads;

mod examples;
mod meeting;
mod watching;

const A: PoolId = PoolId(0);

const B: PoolId = PoolId(1);

// The raises replay, and reach limits at which each pool is settled.
fn replays(
    rt: &impl Abort,
    alloc: Global,
    instance: &Instance,
    contenders: &Contenders,
    raises: &[Raise],
) -> Result<(), Fail>
    requires { contenders.now ≡ contention_of instance.now }
{
    let mut replay = Replay::new(alloc, instance, contenders)?;
    for raise in raises {
        assert!(rt; (raise.pool.0 as usize) < instance.pools());
        assert!(rt; replay.add(&Mixed, *raise).is_ok());
    }
    for pool in 0..instance.pools() {
        assert!(rt; replay.settled(&Mixed, PoolId(pool as u32)));
    }
    Ok(())
}

// So many workers with logs of this room find the limits, and a list that replays.
fn clears_to<R: Threads + Abort + Sync>(
    rt: &R,
    alloc: Global,
    instance: &Instance,
    workers: u32,
    room: usize,
    limits: &[u32],
) -> Result<(), Fail> {
    assert!(rt; 1 <= workers && workers <= 64);
    assert!(rt; 1 <= room && room <= 65_536);
    let contenders = Contenders::new(alloc, instance)?;
    let cleared = clear(
        rt,
        alloc,
        instance,
        &contenders,
        &[],
        workers,
        room,
        0,
        &OpenGate,
    )?;
    assert_eq!(rt; cleared.limits.as_slice(), limits);
    assert!(rt; cleared.seen.is_empty());
    replays(rt, alloc, instance, &contenders, &cleared.raises)
}

#[test]
fn examples_with_any_workers_and_room(rt: HostRuntime) -> Result<(), Fail> {
    let alloc = rt.alloc();
    for example in &EXAMPLES {
        let instance = example.instance(alloc)?;
        for workers in [1, 2, 3, 16, 64] {
            for room in [1, 2, 65_536] {
                clears_to(&rt, alloc, &instance, workers, room, example.limits)?;
            }
        }
    }
    Ok(())
}

// Logs of one entry take a round for each raise; one worker makes the raises of a clearing with ample room.
#[test]
fn one_entry_logs(rt: HostRuntime) -> Result<(), Fail> {
    let alloc = rt.alloc();
    let instance = EXAMPLES[5].instance(alloc)?;
    let contenders = Contenders::new(alloc, &instance)?;
    let cleared = clear(&rt, alloc, &instance, &contenders, &[], 1, 1, 0, &OpenGate)?;
    let raises = [
        Raise { pool: B, limit: 10 },
        Raise { pool: A, limit: 11 },
        Raise { pool: B, limit: 11 },
    ];
    assert_eq!(rt; cleared.raises.as_slice(), raises.as_slice());
    assert_eq!(rt; cleared.limits.as_slice(), [11, 11].as_slice());
    Ok(())
}

// A list of one raise, which replays.
fn kept_raise(
    rt: &impl Abort,
    alloc: Global,
    instance: &Instance,
    contenders: &Contenders,
    raise: Raise,
) -> Result<[Raise; 1], Fail>
    requires contenders { contenders.now ≡ contention_of instance.now }
    requires within { raise.pool.0 < length instance.now.pools }
    ensures { IfOk result (λ kept. Replays instance.now kept) }
{
    let mut replay = Replay::new(alloc, instance, contenders)?;
    let Ok(()) = replay.add(&Mixed, raise) else {
        panic!(rt; "the raise is unjust");
    };
    Ok([raise])
}

// A clearing that opens with a raise keeps it at the front, and goes on from there.
#[test]
fn kept_raises_stand_at_the_front(rt: HostRuntime) -> Result<(), Fail> {
    let alloc = rt.alloc();
    let instance = EXAMPLES[5].instance(alloc)?;
    let contenders = Contenders::new(alloc, &instance)?;
    assert!(rt; instance.pools() == 2);
    let first = Raise { pool: B, limit: 9 };
    let kept = kept_raise(&rt, alloc, &instance, &contenders, first)?;
    let cleared = clear(
        &rt,
        alloc,
        &instance,
        &contenders,
        &kept,
        3,
        4,
        0,
        &OpenGate,
    )?;
    assert_eq!(rt; cleared.raises[0], first);
    assert_eq!(rt; cleared.limits.as_slice(), [11, 11].as_slice());
    replays(&rt, alloc, &instance, &contenders, &cleared.raises)
}
