use super::*;
use sl_types::{AppId, Entry, Instance, Pool, PoolId, ProgId, Rule};
use std::alloc::Global;
use std::process::Abort;
use std::test::Fail;

const A: PoolId = PoolId(0);

const B: PoolId = PoolId(1);

fn choice(place: u32, prog: u32, score: u32) -> Entry {
    Entry {
        place,
        prog: ProgId(prog),
        score,
    }
}

// Pools of one place by the rule.
fn pools(alloc: Global, count: usize, rule: Rule) -> Result<Vec<Pool>, Fail> {
    let pool = Pool {
        quota: 1,
        parent: None,
        rule,
    };
    Ok(vec![in alloc; pool; count]?)
}

// The admitted choice of an applicant, by its index.
fn admits(rt: &impl Abort, instance: &Instance, limits: &[u32], app: u32, index: usize) {
    assert_eq!(rt; limits.len(), instance.pools());
    assert!(rt; (app as usize) < instance.applicants());
    assert_eq!(rt; plain_admit(instance, limits, AppId(app)), index);
}

// How many a pool of no tree asks for at a limit, by the limit and by the merits.
fn counts(
    rt: &impl Abort,
    instance: &Instance,
    limits: &[u32],
    pool: PoolId,
    limit: u32,
    wanted: u32,
) {
    assert_eq!(rt; limits.len(), instance.pools());
    assert!(rt; (pool.0 as usize) < instance.pools());
    assert_eq!(rt; plain_count(instance, limits, pool, limit), wanted);
    assert_eq!(rt; plain_weight(instance, limits, pool, limit), wanted);
}

// A raise by one point is justified up to the greatest that is, and the pool is settled where that is no
// more than its limit.
fn justifies_to(rt: &impl Abort, instance: &Instance, limits: &[u32], pool: PoolId, greatest: u32) {
    assert_eq!(rt; limits.len(), instance.pools());
    assert!(rt; (pool.0 as usize) < instance.pools());
    for x in 1..13 {
        assert_eq!(rt; plain_justified(instance, limits, pool, x), x <= greatest);
    }
    let settled = greatest <= plain_eff(instance, limits, pool);
    assert_eq!(rt; plain_settled(instance, limits, pool), settled);
}

#[test]
fn both_prefer_the_first(rt: HostRuntime) -> Result<(), Fail> {
    let alloc = rt.alloc();
    let x = vec![in alloc; choice(1, 0, 10), choice(2, 1, 10)]?;
    let y = vec![in alloc; choice(1, 0, 8), choice(2, 1, 8)]?;
    let z = vec![in alloc; choice(1, 1, 9)]?;
    let instance = Instance::new(
        alloc,
        pools(alloc, 2, Rule::H)?,
        vec![in alloc; A, B]?,
        vec![in alloc; x, y, z]?,
    )?;
    for (app, index) in [(0, 0), (1, 2), (2, 0)] {
        admits(&rt, &instance, &[9, 9], app, index);
    }
    for (limits, pool, greatest) in [
        ([0, 0], A, 9),
        ([0, 0], B, 0),
        ([9, 0], B, 9),
        ([9, 9], A, 9),
        ([9, 9], B, 9),
    ] {
        justifies_to(&rt, &instance, &limits, pool, greatest);
    }
    assert!(rt; plain_feeds(&instance, A, B));
    assert!(rt; !plain_feeds(&instance, B, A));
    Ok(())
}

#[test]
fn crossing_tie(rt: HostRuntime) -> Result<(), Fail> {
    let alloc = rt.alloc();
    for (rule, limit, first) in [(Rule::H, 11, 1), (Rule::L, 10, 0)] {
        let x = vec![in alloc; choice(1, 0, 10)]?;
        let y = vec![in alloc; choice(1, 0, 10)]?;
        let z = vec![in alloc; choice(1, 0, 5)]?;
        let instance = Instance::new(
            alloc,
            pools(alloc, 1, rule)?,
            vec![in alloc; A]?,
            vec![in alloc; x, y, z]?,
        )?;
        for (app, index) in [(0, first), (1, first), (2, 1)] {
            admits(&rt, &instance, &[limit], app, index);
        }
        for number in [0, 5, limit, u32::MAX] {
            justifies_to(&rt, &instance, &[number], A, limit);
        }
    }
    Ok(())
}

#[test]
fn two_programmes_in_one_pool(rt: HostRuntime) -> Result<(), Fail> {
    let alloc = rt.alloc();
    let x = vec![in alloc; choice(1, 0, 10), choice(2, 1, 14)]?;
    let y = vec![in alloc; choice(1, 0, 12)]?;
    let instance = Instance::new(
        alloc,
        pools(alloc, 1, Rule::H)?,
        vec![in alloc; A, A]?,
        vec![in alloc; x, y]?,
    )?;
    for (app, index) in [(0, 1), (1, 1)] {
        admits(&rt, &instance, &[13], app, index);
    }
    for (limit, wanted) in [(12, 2), (13, 1), (14, 1), (15, 0)] {
        counts(&rt, &instance, &[limit], A, limit, wanted);
    }
    assert!(rt; !plain_feeds(&instance, A, A));
    Ok(())
}

#[test]
fn displaced_twice(rt: HostRuntime) -> Result<(), Fail> {
    let alloc = rt.alloc();
    let x = vec![in alloc; choice(1, 0, 10), choice(2, 1, 10)]?;
    let y = vec![in alloc; choice(1, 1, 9), choice(2, 0, 12)]?;
    let z = vec![in alloc; choice(1, 1, 11)]?;
    let instance = Instance::new(
        alloc,
        pools(alloc, 2, Rule::H)?,
        vec![in alloc; A, B]?,
        vec![in alloc; x, y, z]?,
    )?;
    for (app, index) in [(0, 2), (1, 1), (2, 0)] {
        admits(&rt, &instance, &[11, 11], app, index);
    }
    for (limits, pool, greatest) in [
        ([0, 0], A, 0),
        ([0, 0], B, 10),
        ([0, 10], A, 11),
        ([11, 10], B, 11),
        ([11, 11], A, 11),
        ([11, 11], B, 11),
    ] {
        justifies_to(&rt, &instance, &limits, pool, greatest);
    }
    assert!(rt; plain_feeds(&instance, B, A));
    Ok(())
}
