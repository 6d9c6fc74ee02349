ghost use Rattle.std.specs.Prelude.{◌≡◌, ◌<◌, length};
ghost use Rattle.sl_contend.specs.Contention.{contention_of};
ghost use Rattle.sl_contend.specs.Counters.{HasRoomFor};

use super::*;

// The next of a row of numbers that look random.
fn next(state: &mut u64, below: u32) -> u32
    requires { 0 < below }
    ensures { result < below }
{
    *state = state
        .wrapping_mul(6364136223846793005)
        .wrapping_add(1442695040888963407);
    ((*state >> 33) % u64::from(below)) as u32
}

// 0 lies round 1 and 2, and 1 round 3; 4 of rule H and 5 of rule L stand alone; 6 lies round 7, and 8 in it.
fn forest(alloc: Global, state: &mut u64) -> Result<Vec<Pool>, Fail> {
    let mut pools = Vec::new(alloc);
    for (rule, parent) in [
        (Rule::Merit, None),
        (Rule::Merit, Some(PoolId(0))),
        (Rule::Merit, Some(PoolId(0))),
        (Rule::Merit, Some(PoolId(1))),
        (Rule::H, None),
        (Rule::L, None),
        (Rule::Merit, Some(PoolId(8))),
        (Rule::Merit, Some(PoolId(6))),
        (Rule::Merit, None),
    ] {
        pools.push(Pool {
            quota: 1 + next(state, 3),
            parent,
            rule,
        })?;
    }
    Ok(pools)
}

fn programmes(alloc: Global, state: &mut u64) -> Result<Vec<PoolId>, Fail> {
    let mut progs = Vec::new(alloc);
    for _ in 0..12 {
        progs.push(PoolId(next(state, 9)))?;
    }
    Ok(progs)
}

// A score in a pool that stands alone, else the applicant's merit in the tree, which no other there has.
fn score(state: &mut u64, pool: PoolId, app: u32) -> u32
    requires { app < 9 }
{
    match pool.0 {
        4 | 5 => next(state, 6),
        0..4 => app * 4 % 9,
        _ => (app * 5 + 3) % 9,
    }
}

// At most six choices of different programmes.
fn list(alloc: Global, state: &mut u64, progs: &[PoolId], app: u32) -> Result<Vec<Entry>, Fail>
    requires { app < 9 }
{
    let mut list = Vec::new(alloc);
    let first = next(state, 12);
    for place in 0..next(state, 7) {
        let prog = (first + place * 5) % 12;
        if let Some(pool) = progs.get(prog as usize) {
            list.push(choice(place + 1, prog, score(state, *pool, app)))?;
        }
    }
    Ok(list)
}

// Nine applicants in two trees and two score pools.
fn small_trees(alloc: Global, state: &mut u64) -> Result<Instance, Fail> {
    let pools = forest(alloc, state)?;
    let progs = programmes(alloc, state)?;
    let mut lists = Vec::new(alloc);
    for app in 0..9 {
        lists.push(list(alloc, state, &progs, app)?)?;
    }
    Ok(Instance::new(alloc, pools, progs, lists)?)
}

// A third of the numbers are below ten, and the others 0.
fn reads(alloc: Global, state: &mut u64) -> Result<Vec<u32>, Fail> {
    let mut reads = Vec::new(alloc);
    for _ in 0..9 {
        let below = if next(state, 3) == 0 { 10 } else { 1 };
        reads.push(next(state, below))?;
    }
    Ok(reads)
}

// Whether some pool has a raise. Each best raise is found twice in one scratch, and each raise up to it and none
// above it is justified.
fn any_raised(
    rt: &impl Abort,
    instance: &Instance,
    contenders: &Contenders,
    reads: &[u32],
    scratch: &mut Scratch,
) -> bool
    requires contenders { contenders.now ≡ contention_of instance.now }
    requires scratch { HasRoomFor instance.now scratch.old }
    requires reads { length reads.now ≡ length instance.now.pools }
{
    let mut any = false;
    for number in 0..instance.pools() {
        let pool = PoolId(number as u32);
        let best = best_twice(rt, instance, contenders, pool, reads, scratch);
        justified_to(rt, instance, pool, reads, best);
        if best > 0 {
            any = true;
        }
    }
    any
}

// Each pool of many small trees is raised as the plain function of the laws says.
#[test]
fn many_small_trees(rt: HostRuntime) -> Result<(), Fail> {
    let alloc = rt.alloc();
    let mut state = 7;
    let mut any = false;
    for _ in 0..150 {
        let instance = small_trees(alloc, &mut state)?;
        let reads = reads(alloc, &mut state)?;
        assert_eq!(rt; reads.len(), instance.pools());
        let contenders = Contenders::new(alloc, &instance)?;
        let mut scratch = Scratch::new(alloc, &instance, &contenders)?;
        if any_raised(&rt, &instance, &contenders, &reads, &mut scratch) {
            any = true;
        }
    }
    assert!(rt; any);
    Ok(())
}
