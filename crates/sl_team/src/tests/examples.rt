// The worked examples, and their least stable limits.
use super::*;

// A pool: its quota, its parent and its rule.
type PoolRow = (u32, Option<PoolId>, Rule);

// An example: its pools, the pool of each programme, for each applicant the programmes and scores in order, and
// the limits.
pub struct Example<'a> {
    pub pools: &'a [PoolRow],
    pub progs: &'a [PoolId],
    pub lists: &'a [&'a [(u32, u32)]],
    pub limits: &'a [u32],
}

const H: PoolRow = (1, None, Rule::H);

const L: PoolRow = (1, None, Rule::L);

// One pool of one place; x and y are tied at the top, and z is below.
const TIE: &[&[(u32, u32)]] = &[&[(0, 10)], &[(0, 10)], &[(0, 5)]];

// Four applicants of a city's usual file: two pools, the first with two places and two programmes.
const USUAL: &[&[(u32, u32)]] = &[
    &[(2, 447), (0, 452)],
    &[(2, 461), (1, 430)],
    &[(0, 452)],
    &[(1, 455), (2, 470)],
];

pub const EXAMPLES: [Example; 9] = [
    // Nobody applies.
    Example {
        pools: &[H],
        progs: &[A],
        lists: &[],
        limits: &[0],
    },
    // Both prefer the first of two pools; a third has the second alone.
    Example {
        pools: &[H, H],
        progs: &[A, B],
        lists: &[&[(0, 10), (1, 10)], &[(0, 8), (1, 8)], &[(1, 9)]],
        limits: &[9, 9],
    },
    Example {
        pools: &[H],
        progs: &[A],
        lists: TIE,
        limits: &[11],
    },
    Example {
        pools: &[L],
        progs: &[A],
        lists: TIE,
        limits: &[10],
    },
    // Two programmes in one pool.
    Example {
        pools: &[H],
        progs: &[A, A],
        lists: &[&[(0, 10), (1, 14)], &[(0, 12)]],
        limits: &[13],
    },
    // Displaced twice.
    Example {
        pools: &[H, H],
        progs: &[A, B],
        lists: &[&[(0, 10), (1, 10)], &[(1, 9), (0, 12)], &[(1, 11)]],
        limits: &[11, 11],
    },
    // Nested pools: two places in all, of which one at most in the first inner pool.
    Example {
        pools: &[
            (2, None, Rule::Merit),
            (1, Some(A), Rule::Merit),
            (2, Some(A), Rule::Merit),
        ],
        progs: &[B, PoolId(2)],
        lists: &[&[(0, 9)], &[(0, 8)], &[(1, 7)], &[(1, 6)]],
        limits: &[7, 9, 7],
    },
    // A usual file, by rule H and by rule L.
    Example {
        pools: &[(2, None, Rule::H), H],
        progs: &[A, A, B],
        lists: USUAL,
        limits: &[453, 448],
    },
    Example {
        pools: &[(2, None, Rule::L), L],
        progs: &[A, A, B],
        lists: USUAL,
        limits: &[452, 448],
    },
];

// Its choices, from place 1 on.
fn choices(alloc: Global, list: &[(u32, u32)]) -> Result<Vec<Entry>, Fail> {
    let mut choices = Vec::new(alloc);
    let mut place = 1u32;
    for &(prog, score) in list {
        choices.push(Entry {
            place,
            prog: ProgId(prog),
            score,
        })?;
        place = place.wrapping_add(1);
    }
    Ok(choices)
}

impl<'a> Example<'a> {
    pub fn instance(&self, alloc: Global) -> Result<Instance, Fail> {
        let mut pools = Vec::new(alloc);
        for &(quota, parent, rule) in self.pools {
            pools.push(Pool {
                quota,
                parent,
                rule,
            })?;
        }
        let mut lists = Vec::new(alloc);
        for list in self.lists {
            lists.push(choices(alloc, list)?)?;
        }
        Ok(Instance::new(alloc, pools, self.progs.to_vec(alloc)?, lists)?)
    }
}
