ghost use Rattle.std.specs.Prelude.{◌≡◌, ◌<◌, length};
ghost use Rattle.sl_contend.specs.Contention.{contention_of};
ghost use Rattle.sl_contend.specs.Counters.{HasRoomFor};

use super::*;
use sl_contend::{Contenders, RaiseRule, Scratch};
use sl_laws::plain_justified;
use sl_types::{Entry, Instance, Pool, PoolId, ProgId, Rule};
use std::alloc::Global;
use std::process::Abort;
use std::test::Fail;

mod small_trees;

const R: PoolId = PoolId(0);

const C: PoolId = PoolId(1);

const D: PoolId = PoolId(2);

fn choice(place: u32, prog: u32, score: u32) -> Entry {
    Entry {
        place,
        prog: ProgId(prog),
        score,
    }
}

fn merit_pool(quota: u32, parent: Option<PoolId>) -> Pool {
    Pool {
        quota,
        parent,
        rule: Rule::Merit,
    }
}

// The best raise of a pool by its own rule, found twice in one scratch.
fn best_twice(
    rt: &impl Abort,
    instance: &Instance,
    contenders: &Contenders,
    pool: PoolId,
    reads: &[u32],
    scratch: &mut Scratch,
) -> u32
    requires contenders { contenders.now ≡ contention_of instance.now }
    requires scratch { HasRoomFor instance.now scratch.old }
    requires reads { length reads.now ≡ length instance.now.pools }
    requires within { pool.0 < length instance.now.pools }
    ensures scratch { HasRoomFor instance.now scratch.new }
{
    let best = Mixed.best(instance, contenders, pool, reads, scratch);
    let again = Mixed.best(instance, contenders, pool, reads, scratch);
    assert_eq!(rt; again, best);
    best
}

// Of the raises from 1 to 15, those up to the best alone are justified.
fn justified_to(rt: &impl Abort, instance: &Instance, pool: PoolId, reads: &[u32], best: u32)
    requires sizes { length reads.now ≡ length instance.now.pools }
    requires within { pool.0 < length instance.now.pools }
{
    for x in 1..16 {
        assert_eq!(rt; plain_justified(instance, reads, pool, x), x <= best);
    }
}

// The best raise of a pool, and each raise up to it and none above it is justified.
fn raises_to(
    rt: &impl Abort,
    alloc: Global,
    instance: &Instance,
    pool: PoolId,
    reads: &[u32],
    best: u32,
) -> Result<(), Fail> {
    assert_eq!(rt; reads.len(), instance.pools());
    assert!(rt; (pool.0 as usize) < instance.pools());
    let contenders = Contenders::new(alloc, instance)?;
    let mut scratch = Scratch::new(alloc, instance, &contenders)?;
    let found = best_twice(rt, instance, &contenders, pool, reads, &mut scratch);
    assert_eq!(rt; found, best);
    justified_to(rt, instance, pool, reads, best);
    Ok(())
}

// C, of one place, and D, of two, lie in R, of two; two apply to each of them.
#[test]
fn nested_pools(rt: HostRuntime) -> Result<(), Fail> {
    let alloc = rt.alloc();
    let pools = vec![in alloc;
        merit_pool(2, None),
        merit_pool(1, Some(R)),
        merit_pool(2, Some(R)),
    ]?;
    let mut lists = Vec::new(alloc);
    for (prog, merit) in [(0, 9), (0, 8), (1, 7), (1, 6)] {
        lists.push(vec![in alloc; choice(1, prog, merit)]?)?;
    }
    let instance = Instance::new(alloc, pools, vec![in alloc; C, D]?, lists)?;
    for (reads, pool, best) in [
        ([0, 0, 0], R, 7),
        ([7, 0, 0], C, 9),
        ([7, 9, 0], D, 0),
        ([0, 0, 0], C, 9),
        ([0, 9, 0], D, 6),
        ([0, 9, 6], R, 7),
    ] {
        raises_to(&rt, alloc, &instance, pool, &reads, best)?;
    }
    Ok(())
}

// Sixteen pools of one place, each in the one before it: whoever has the greatest merit fills them all.
#[test]
fn deepest_tree(rt: HostRuntime) -> Result<(), Fail> {
    let alloc = rt.alloc();
    let mut pools = Vec::new(alloc);
    for number in 0..16u32 {
        pools.push(merit_pool(1, number.checked_sub(1).map(PoolId)))?;
    }
    let first = vec![in alloc; choice(1, 0, 3)]?;
    let second = vec![in alloc; choice(1, 0, 5)]?;
    let progs = vec![in alloc; PoolId(15)]?;
    let instance = Instance::new(alloc, pools, progs, vec![in alloc; first, second]?)?;
    for number in 0..16 {
        raises_to(&rt, alloc, &instance, PoolId(number), &[0; 16], 5)?;
    }
    Ok(())
}

fn shared<T: Sync>(_value: &T) {}

// Threads may share a rule.
#[test]
fn shared_by_threads() {
    shared(&MeritRule);
    shared(&Mixed);
}
