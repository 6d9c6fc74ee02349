use super::*;
use sl_laws::{plain_admit, plain_count};
use sl_types::{AppId, Entry, Instance, Pool, PoolId, ProgId, Rule};
use std::alloc::Global;
use std::test::Fail;

fn choice(place: u32, prog: u32, score: u32) -> Entry {
    Entry {
        place,
        prog: ProgId(prog),
        score,
    }
}

// Pools of one place each, with one programme each.
fn instance(alloc: Global, pools: u32, lists: Vec<Vec<Entry>>) -> Result<Instance, Fail> {
    let pool = Pool {
        quota: 1,
        parent: None,
        rule: Rule::H,
    };
    let mut progs = Vec::new(alloc);
    for number in 0..pools {
        progs.push(PoolId(number))?;
    }
    Ok(Instance::new(alloc, vec![in alloc; pool; pools as usize]?, progs, lists)?)
}

// x prefers a; y and z prefer b; w has no choice.
fn displaced_twice(alloc: Global) -> Result<Instance, Fail> {
    let x = vec![in alloc; choice(1, 0, 10), choice(2, 1, 10)]?;
    let y = vec![in alloc; choice(1, 1, 9), choice(2, 0, 12)]?;
    let z = vec![in alloc; choice(1, 1, 11)]?;
    let w = Vec::new(alloc);
    instance(alloc, 2, vec![in alloc; x, y, z, w]?)
}

#[test]
fn admissions_of_displaced_twice(rt: HostRuntime) -> Result<(), Fail> {
    let alloc = rt.alloc();
    let instance = displaced_twice(alloc)?;
    assert_eq!(rt; instance.pools(), 2);
    assert_eq!(rt; instance.applicants(), 4);
    for (limits, admitted, each) in [
        ([11, 11], [2, 1, 0, 0], [1, 1]),
        ([0, 0], [0, 0, 0, 0], [1, 2]),
        ([0, 10], [0, 1, 0, 0], [2, 1]),
        ([11, 10], [1, 1, 0, 0], [1, 2]),
        ([13, 12], [2, 2, 1, 0], [0, 0]),
    ] {
        let found = admissions(&rt, alloc, &instance, &limits)?;
        assert_eq!(rt; found.as_slice(), admitted.as_slice());
        let found = counts(alloc, &instance, &admitted)?;
        assert_eq!(rt; found.as_slice(), each.as_slice());
    }
    Ok(())
}

const POOLS: u32 = 40;

const APPLICANTS: u32 = 5_000;

// Applicants enough for several threads, with three choices each.
fn many(alloc: Global) -> Result<Instance, Fail> {
    let mut lists = Vec::new(alloc);
    for app in 0..APPLICANTS {
        let mut list = Vec::new(alloc);
        for place in 1..4u32 {
            let prog = (app * 7 + place * 13) % POOLS;
            list.push(choice(place, prog, (app * 31 + place * 17) % 1000))?;
        }
        lists.push(list)?;
    }
    instance(alloc, POOLS, lists)
}

#[test]
fn pieces_are_the_plain_admissions(rt: HostRuntime) -> Result<(), Fail> {
    let alloc = rt.alloc();
    let instance = many(alloc)?;
    let mut limits = Vec::new(alloc);
    for pool in 0..POOLS {
        limits.push(pool * 37 % 1001)?;
    }
    assert_eq!(rt; limits.len(), instance.pools());
    let admitted = admissions(&rt, alloc, &instance, &limits)?;
    assert_eq!(rt; admitted.len(), instance.applicants());
    for number in 0..instance.applicants() {
        let index = plain_admit(&instance, &limits, AppId(number as u32));
        assert_eq!(rt; admitted[number] as usize, index);
    }
    let each = counts(alloc, &instance, &admitted)?;
    assert_eq!(rt; each.len(), instance.pools());
    for number in 0..instance.pools() {
        let count = plain_count(&instance, &limits, PoolId(number as u32), limits[number]);
        assert_eq!(rt; each[number], count);
    }
    Ok(())
}
