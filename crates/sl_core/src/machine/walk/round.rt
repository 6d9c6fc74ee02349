// Small rounds that look random.
ghost use Rattle.std.specs.Prelude.{◌<◌};

use super::*;

// How many pools each has.
pub const POOLS: u32 = 6;

// The next of a row of numbers that look random.
pub fn next(state: &mut u64, below: u32) -> u32
    requires { 0 < below }
    ensures { result < below }
{
    *state = state
        .wrapping_mul(6364136223846793005)
        .wrapping_add(1442695040888963407);
    ((*state >> 33) % u64::from(below)) as u32
}

// 0 lies round 1 and 2, and 1 round 3; 4 of rule H and 5 of rule L stand alone.
fn pools(alloc: Global, state: &mut u64) -> Result<Vec<Pool>, Fail> {
    let mut pools = Vec::new(alloc);
    for (rule, parent) in [
        (Rule::Merit, None),
        (Rule::Merit, Some(PoolId(0))),
        (Rule::Merit, Some(PoolId(0))),
        (Rule::Merit, Some(PoolId(1))),
        (Rule::H, None),
        (Rule::L, None),
    ] {
        pools.push(Pool {
            quota: 1 + next(state, 2),
            parent,
            rule,
        })?;
    }
    Ok(pools)
}

// A score in a pool that stands alone, else the applicant's merit, which no other has.
fn score(state: &mut u64, pool: PoolId, app: u32) -> u32
    requires { app < 7 }
{
    match pool.0 {
        4 | 5 => next(state, 6),
        _ => app * 3 % 7,
    }
}

// At most five choices of different programmes.
fn list(alloc: Global, state: &mut u64, progs: &[PoolId], app: u32) -> Result<Vec<Entry>, Fail>
    requires { app < 7 }
{
    let mut list = Vec::new(alloc);
    let first = next(state, 9);
    for place in 0..next(state, 6) {
        let prog = (first + place * 2) % 9;
        if let Some(pool) = progs.get(prog as usize) {
            list.push(Entry {
                place: place + 1,
                prog: ProgId(prog),
                score: score(state, *pool, app),
            })?;
        }
    }
    Ok(list)
}

// Seven applicants, nine programmes, a tree of four pools, and a pool of rule H and of rule L each.
pub fn small_round(alloc: Global, state: &mut u64) -> Result<Instance, Fail> {
    let pools = pools(alloc, state)?;
    let mut progs = Vec::new(alloc);
    for _ in 0..9 {
        progs.push(PoolId(next(state, POOLS)))?;
    }
    let mut lists = Vec::new(alloc);
    for app in 0..7 {
        lists.push(list(alloc, state, &progs, app)?)?;
    }
    Ok(Instance::new(alloc, pools, progs, lists)?)
}
