// A machine of three actors walks at random, and after each step the parts are looked at by plain functions.
use super::*;
use crate::lists::has_pool;
use sl_laws::{plain_eff, plain_feeds, plain_justified, plain_settled};
use sl_types::{Entry, Logged, Pool, ProgId, Rule};
use std::process::Abort;
use std::test::Fail;

mod parts;
mod round;

use parts::has_parts;
use round::{POOLS, next, small_round};

// What an actor tries next, at a pool that is chosen at random.
fn some_kind(machine: &Machine, state: &mut u64, actor: u32) -> EventKind {
    let pool = PoolId(next(state, POOLS));
    let reads_on = next(state, 4) == 0;
    let waits = next(state, 64) > 0;
    match machine
        .workers
        .get(actor as usize)
        .map(|worker| worker.phase())
    {
        Some(Phase::Ready(_, x)) => EventKind::Draw(x),
        // Others go on meanwhile, and this is no step now.
        Some(Phase::Drawn(_, _)) if waits => EventKind::Claim(pool),
        Some(Phase::Drawn(_, _)) => EventKind::Raise,
        Some(Phase::Owing(_)) => EventKind::Mark(pool),
        Some(Phase::Working(_)) => EventKind::Read(pool),
        _ if reads_on => EventKind::Read(pool),
        _ => EventKind::Claim(pool),
    }
}

// Raises a pool by one point above its effective limit, where that is justified. Whether it was.
fn raise_one(rt: &impl Abort, instance: &Instance, limits: &mut [u32], pool: PoolId) -> bool {
    assert_eq!(rt; limits.len(), instance.pools());
    assert!(rt; (pool.0 as usize) < limits.len());
    let more = plain_eff(instance, limits, pool).saturating_add(1);
    if !plain_justified(instance, limits, pool, more) {
        return false;
    }
    limits[pool.0 as usize] = more;
    true
}

// Does so with each pool in turn. Whether any was raised.
fn raise_each(rt: &impl Abort, instance: &Instance, limits: &mut [u32]) -> bool {
    let mut any = false;
    for number in 0..POOLS {
        if raise_one(rt, instance, limits, PoolId(number)) {
            any = true;
        }
    }
    any
}

// The effective limits of the words are those of a plain loop, which raises pools by one point until none can be.
fn ends_right(rt: &impl Abort, alloc: Global, machine: &Machine) -> Result<(), Fail> {
    let instance = machine.instance;
    let mut limits = vec![in alloc; 0; instance.pools()]?;
    for _ in 0..1_000 {
        if !raise_each(rt, instance, &mut limits) {
            break;
        }
    }
    assert_eq!(rt; limits.len(), instance.pools());
    assert_eq!(rt; machine.limits.len(), instance.pools());
    for number in 0..instance.pools() {
        let pool = PoolId(number as u32);
        let word = plain_eff(instance, &machine.limits, pool);
        assert_eq!(rt; word, plain_eff(instance, &limits, pool));
    }
    Ok(())
}

// Tries steps until the machine is quiet, and answers how many came.
fn walk(rt: &impl Abort, alloc: Global, instance: &Instance, state: &mut u64) -> Result<u32, Fail> {
    let mut machine = Machine::new(alloc, instance, 3)?;
    let mut actor = 0;
    let mut steps = 0u32;
    for _ in 0..20_000 {
        // An actor goes on for a while, so that what the others have read and drawn grows old.
        if next(state, 16) == 0 {
            actor = next(state, 3);
        }
        let kind = some_kind(&machine, state, actor);
        let answer = machine.step(Event { actor, kind });
        assert!(rt; answer != Err(StepError::OutOfMemory));
        if answer.is_ok() {
            steps = steps.saturating_add(1);
            has_parts(rt, alloc, &machine)?;
        }
        if machine.quiet() {
            ends_right(rt, alloc, &machine)?;
            return Ok(steps);
        }
    }
    assert!(rt; machine.quiet());
    Ok(steps)
}

#[test]
fn random_walk(rt: HostRuntime) -> Result<(), Fail> {
    let alloc = rt.alloc();
    let mut state = 7;
    let mut steps = 0u32;
    for _ in 0..200 {
        let instance = small_round(alloc, &mut state)?;
        steps = steps.saturating_add(walk(&rt, alloc, &instance, &mut state)?);
        if steps >= 10_000 {
            break;
        }
    }
    assert!(rt; steps >= 10_000);
    Ok(())
}
