ghost use Rattle.std.specs.Prelude.{◌≡◌, ◌<◌, ◌≤◌, length};
ghost use Rattle.sl_contend.specs.Contention.{contention_of};
ghost use Rattle.sl_contend.specs.Counters.{HasRoomFor};

use super::*;
use sl_contend::{Contenders, RaiseRule, Scratch};
use sl_laws::plain_justified;
use sl_types::{Entry, Instance, Pool, PoolId, ProgId, Rule};
use std::alloc::Global;
use std::process::Abort;
use std::test::Fail;

mod quotas;
mod two_faculties;

const A: PoolId = PoolId(0);

const B: PoolId = PoolId(1);

fn choice(place: u32, prog: u32, score: u32) -> Entry {
    Entry {
        place,
        prog: ProgId(prog),
        score,
    }
}

fn pool(quota: u32, rule: Rule) -> Pool {
    Pool {
        quota,
        parent: None,
        rule,
    }
}

// The best raise of a pool, by a rule that covers it.
fn best_by<R: RaiseRule>(
    rule: &R,
    instance: &Instance,
    contenders: &Contenders,
    pool: PoolId,
    reads: &[u32],
    scratch: &mut Scratch,
) -> u32
    requires contenders { contenders.now ≡ contention_of instance.now }
    requires scratch { HasRoomFor instance.now scratch.old }
    requires reads { length reads.now ≡ length instance.now.pools }
    requires within { pool.0 < length instance.now.pools }
    requires covered { R.covers rule.now instance.now pool.0 }
    ensures scratch { HasRoomFor instance.now scratch.new }
{
    rule.best(instance, contenders, pool, reads, scratch)
}

// Of some raises, those up to the best alone are justified.
fn justified_to(
    rt: &impl Abort,
    instance: &Instance,
    pool: PoolId,
    reads: &[u32],
    raises: (u32, u32),
    best: u32,
)
    requires sizes { length reads.now ≡ length instance.now.pools }
    requires within { pool.0 < length instance.now.pools }
    requires some { 1 ≤ raises.0 }
{
    for x in raises.0..raises.1 {
        assert_eq!(rt; plain_justified(instance, reads, pool, x), x <= best);
    }
}

// The best raise of a pool of rule H or L, twice in one scratch.
fn best_twice(
    rt: &impl Abort,
    instance: &Instance,
    contenders: &Contenders,
    pool: PoolId,
    reads: &[u32],
    scratch: &mut Scratch,
) -> u32
    requires contenders { contenders.now ≡ contention_of instance.now }
    requires scratch { HasRoomFor instance.now scratch.old }
    requires reads { length reads.now ≡ length instance.now.pools }
    requires within { pool.0 < length instance.now.pools }
{
    match instance.pool(pool).rule {
        Rule::H => {
            let best = best_by(&HRule, instance, contenders, pool, reads, scratch);
            assert_eq!(rt;
                best_by(&HRule, instance, contenders, pool, reads, scratch),
                best
            );
            best
        }
        Rule::L => {
            let best = best_by(&LRule, instance, contenders, pool, reads, scratch);
            assert_eq!(rt;
                best_by(&LRule, instance, contenders, pool, reads, scratch),
                best
            );
            best
        }
        Rule::Merit => 0,
    }
}

// The best raise of a pool, and each raise up to it and none above it is justified.
fn raises_to(
    rt: &impl Abort,
    alloc: Global,
    instance: &Instance,
    pool: PoolId,
    reads: &[u32],
    best: u32,
) -> Result<(), Fail> {
    assert_eq!(rt; reads.len(), instance.pools());
    assert!(rt; (pool.0 as usize) < instance.pools());
    let contenders = Contenders::new(alloc, instance)?;
    let mut scratch = Scratch::new(alloc, instance, &contenders)?;
    let found = best_twice(rt, instance, &contenders, pool, reads, &mut scratch);
    assert_eq!(rt; found, best);
    justified_to(rt, instance, pool, reads, (1, 16), best);
    justified_to(rt, instance, pool, reads, (446, 455), best);
    Ok(())
}

#[test]
fn crossing_tie(rt: HostRuntime) -> Result<(), Fail> {
    let alloc = rt.alloc();
    for (rule, best) in [(Rule::H, 11), (Rule::L, 10)] {
        let x = vec![in alloc; choice(1, 0, 10)]?;
        let y = vec![in alloc; choice(1, 0, 10)]?;
        let z = vec![in alloc; choice(1, 0, 5)]?;
        let instance = Instance::new(
            alloc,
            vec![in alloc; pool(1, rule)]?,
            vec![in alloc; A]?,
            vec![in alloc; x, y, z]?,
        )?;
        for number in [0, 10, u32::MAX] {
            raises_to(&rt, alloc, &instance, A, &[number], best)?;
        }
    }
    Ok(())
}

// x has two choices in A, of which the second is the better: it counts, and the first doesn't.
#[test]
fn two_programmes_in_one_pool(rt: HostRuntime) -> Result<(), Fail> {
    let alloc = rt.alloc();
    for (quota, by_h, by_l) in [(1, 13, 13), (2, 0, 0)] {
        for (rule, best) in [(Rule::H, by_h), (Rule::L, by_l)] {
            let x = vec![in alloc; choice(1, 0, 10), choice(2, 1, 14)]?;
            let y = vec![in alloc; choice(1, 0, 12)]?;
            let instance = Instance::new(
                alloc,
                vec![in alloc; pool(quota, rule)]?,
                vec![in alloc; A, A]?,
                vec![in alloc; x, y]?,
            )?;
            raises_to(&rt, alloc, &instance, A, &[0], best)?;
        }
    }
    Ok(())
}

#[test]
fn displaced_twice(rt: HostRuntime) -> Result<(), Fail> {
    let alloc = rt.alloc();
    for rule in [Rule::H, Rule::L] {
        let x = vec![in alloc; choice(1, 0, 10), choice(2, 1, 10)]?;
        let y = vec![in alloc; choice(1, 1, 9), choice(2, 0, 12)]?;
        let z = vec![in alloc; choice(1, 1, 11)]?;
        let instance = Instance::new(
            alloc,
            vec![in alloc; pool(1, rule); 2]?,
            vec![in alloc; A, B]?,
            vec![in alloc; x, y, z]?,
        )?;
        for (reads, pool, best) in [
            ([0, 0], A, 0),
            ([0, 0], B, 10),
            ([0, 10], A, 11),
            ([11, 10], B, 11),
            ([11, 11], A, 11),
            ([11, 11], B, 11),
        ] {
            raises_to(&rt, alloc, &instance, pool, &reads, best)?;
        }
    }
    Ok(())
}
