// One worker alone.
use super::examples::{
    both_prefer_the_first, displaced_twice, nested_pools, tie, two_programmes_in_one_pool, two_ties,
};
use super::*;

// One worker of so many clears an instance alone, with these raises.
fn clear(
    rt: &impl Abort,
    alloc: Global,
    instance: &Instance,
    part: (u32, u32),
    raises: &[(PoolId, u32)],
) -> Result<(), Fail> {
    assert!(rt; part.0 < part.1 && part.1 <= 64);
    let contenders = Contenders::new(alloc, instance)?;
    let (floor, mut seat) = open(rt, alloc, instance, &contenders, 8)?;
    let mut desk = Desk::new(alloc, instance, &contenders, part.0, part.1)?;
    let answer = (Stop::Quiet, raises);
    work_on(
        rt,
        &floor,
        &mut seat,
        &mut desk,
        instance,
        &contenders,
        &OpenGate,
        answer,
    );
    Ok(())
}

#[test]
fn one_worker_clears_score_pools(rt: HostRuntime) -> Result<(), Fail> {
    let alloc = rt.alloc();
    let instance = both_prefer_the_first(alloc)?;
    clear(&rt, alloc, &instance, (0, 1), &[(A, 9), (B, 9)])?;
    let instance = two_programmes_in_one_pool(alloc)?;
    clear(&rt, alloc, &instance, (0, 1), &[(A, 13)])?;
    let instance = displaced_twice(alloc)?;
    clear(&rt, alloc, &instance, (0, 1), &[(B, 10), (A, 11), (B, 11)])
}

#[test]
fn one_worker_clears_ties_and_a_tree(rt: HostRuntime) -> Result<(), Fail> {
    let alloc = rt.alloc();
    let instance = tie(alloc, Rule::H, 10)?;
    clear(&rt, alloc, &instance, (0, 1), &[(A, 11)])?;
    let instance = tie(alloc, Rule::L, 10)?;
    clear(&rt, alloc, &instance, (0, 1), &[(A, 10)])?;
    let instance = tie(alloc, Rule::H, 1_000_000)?;
    clear(&rt, alloc, &instance, (0, 1), &[(A, 1_000_001)])?;
    let instance = nested_pools(alloc)?;
    clear(&rt, alloc, &instance, (0, 1), &[(A, 7), (B, 9)])
}

// The second of two workers begins at the second pool.
#[test]
fn begins_in_the_middle(rt: HostRuntime) -> Result<(), Fail> {
    let alloc = rt.alloc();
    let instance = two_ties(alloc)?;
    clear(&rt, alloc, &instance, (0, 2), &[(A, 11), (B, 8)])?;
    clear(&rt, alloc, &instance, (1, 2), &[(B, 8), (A, 11)])
}
