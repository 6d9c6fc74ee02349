ghost use Rattle.std.specs.Prelude.{◌≡◌, ◌≤◌, ◌<◌, [], ℕ, length, map, position, get_or, nat_le, is_some, false, IfOk, IfSome};
ghost use Rattle.std.specs.List.{list_any};
ghost use Rattle.sl_types.specs.Market.{market_of_pools, is_parent, rule_of};
ghost use Rattle.sl_types.specs.Rules.{has_parent_where, has_parent_out, is_badly_nested};
ghost use Rattle.sl_types.specs.Valid.{first_parent_out, first_in_ring, first_too_deep, first_badly_nested, nesting_fault};
ghost use Rattle.sl_types.specs.Steps.{AreMarked, onward, doubled, leaps};

use crate::{MAX_POOLS, Pool, PoolId, Rule, Unfit};
use std::alloc::{AllocError, Global};

// Where the steps lead from a pool, and from none to none.
fn onward(steps: &[Option<PoolId>], from: Option<PoolId>) -> Option<PoolId>
    ensures { result ≡ onward steps.now from }
{
    match from {
        Some(pool) => match steps.get(pool.0 as usize) {
            Some(next) => *next,
            None => None,
        },
        None => None,
    }
}

// The steps taken twice.
fn doubled(alloc: Global, steps: &[Option<PoolId>]) -> Result<Vec<Option<PoolId>>, AllocError>
    ensures { IfOk result (λ v. v.items ≡ doubled steps.now) }
{
    steps.iter().map(|from| onward(steps, *from)).collect(alloc)
}

// Where a step outwards leads from each pool.
fn parents(alloc: Global, pools: &[Pool]) -> Result<Vec<Option<PoolId>>, AllocError>
    ensures { IfOk result (λ v. v.items ≡ map (λ p. p.parent) pools.now) }
{
    pools.iter().map(|pool| pool.parent).collect(alloc)
}

// Where 2 to the power of `times` steps outwards lead from each pool.
fn leaps(alloc: Global, pools: &[Pool], times: u32) -> Result<Vec<Option<PoolId>>, AllocError>
    ensures { IfOk result (λ v. v.items ≡ leaps times pools.now) }
{
    let mut steps = parents(alloc, pools)?;
    for done in 0..times {
        steps = doubled(alloc, steps.as_slice())?;
    }
    Ok(steps)
}

// Whether some step leads to a pool, for each pool.
fn marks(alloc: Global, steps: &[Option<PoolId>]) -> Result<Vec<bool>, AllocError>
    ensures len { IfOk result (λ v. length v.items ≡ length steps.now) }
    ensures led { IfOk result (λ v. AreMarked steps.now v.items) }
{
    let mut marks = vec![in alloc; false; steps.len()]?;
    for step in steps {
        if let Some(pool) = *step {
            if let Some(mark) = marks.get_mut(pool.0 as usize) {
                *mark = true;
            }
        }
    }
    Ok(marks)
}

fn has_parent_out(pools: usize, pool: &Pool) -> bool
    ensures { result ≡ has_parent_where (λ Q. nat_le pools Q.0) pool.now.parent }
{
    match pool.parent {
        Some(parent) => parent.0 as usize >= pools,
        None => false,
    }
}

/// The index of the first pool whose parent is no pool of the list.
pub fn first_parent_out(pools: &[Pool]) -> Option<usize>
    ensures within { IfSome result (λ i. i < length pools.now) }
    ensures first { result ≡ first_parent_out (market_of_pools pools.now) }
{
    pools
        .iter()
        .position(|pool| has_parent_out(pools.len(), pool))
}

// More than this power of two steps there are no pools.
const RING_LEAPS: u32 = 15;

/// The index of the first pool that is its own ancestor. The time is near-linear whatever the pools' shape.
pub fn first_in_ring(alloc: Global, pools: &[Pool]) -> Result<Option<usize>, AllocError>
    requires { length pools.now ≤ MAX_POOLS }
    ensures within { IfOk result (λ first. IfSome first (λ i. i < length pools.now)) }
    ensures first { IfOk result (λ first. first ≡ first_in_ring (market_of_pools pools.now)) }
{
    // So many steps as there are pools and more end in a ring.
    let steps = leaps(alloc, pools, RING_LEAPS)?;
    let marks = marks(alloc, steps.as_slice())?;
    let first = first_marked(marks.as_slice());
    Ok(first)
}

fn first_marked(marks: &[bool]) -> Option<usize>
    ensures within { IfSome result (λ i. i < length marks.now) }
    ensures first { result ≡ position (λ m. m) marks.now }
{
    marks.iter().position(|mark| *mark)
}

fn first_that_goes_on(steps: &[Option<PoolId>]) -> Option<usize>
    ensures within { IfSome result (λ i. i < length steps.now) }
    ensures first { result ≡ position is_some steps.now }
{
    steps.iter().position(|step| step.is_some())
}

// From a pool that is too deep, sixteen steps lead to a pool.
const DEPTH_LEAPS: u32 = 4;

/// The index of the first pool whose depth is above `MAX_DEPTH`, or that is inside a ring.
pub fn first_too_deep(alloc: Global, pools: &[Pool]) -> Result<Option<usize>, AllocError>
    ensures within { IfOk result (λ first. IfSome first (λ i. i < length pools.now)) }
    ensures first { IfOk result (λ first. first ≡ first_too_deep (market_of_pools pools.now)) }
{
    let steps = leaps(alloc, pools, DEPTH_LEAPS)?;
    let first = first_that_goes_on(steps.as_slice());
    Ok(first)
}

// The rule of a pool, and H for a number that is no pool's.
pub fn rule_at(pools: &[Pool], pool: PoolId) -> Rule
    ensures { result ≡ rule_of (market_of_pools pools.now) pool.0 }
{
    match pools.get(pool.0 as usize) {
        Some(pool) => pool.rule,
        None => Rule::H,
    }
}

fn is_badly_nested(pools: &[Pool], pool: &Pool) -> bool
    ensures { result ≡ is_badly_nested (market_of_pools pools.now) pool.now }
{
    match pool.parent {
        Some(parent) => !(pool.rule == Rule::Merit && rule_at(pools, parent) == Rule::Merit),
        None => false,
    }
}

/// The index of the first pool that has a parent where it or the parent isn't a merit pool.
pub fn first_badly_nested(pools: &[Pool]) -> Option<usize>
    ensures within { IfSome result (λ i. i < length pools.now) }
    ensures first { result ≡ first_badly_nested (market_of_pools pools.now) }
{
    pools.iter().position(|pool| is_badly_nested(pools, pool))
}

/// The first of the rules on parents that fails, over a list of pools: `ParentRange`, `ParentRing`, `TooDeep`
/// or `RuleNesting`.
pub fn nesting_fault(alloc: Global, pools: &[Pool]) -> Result<Option<Unfit>, AllocError>
    requires { length pools.now ≤ MAX_POOLS }
    ensures { IfOk result (λ fault. fault ≡ nesting_fault (market_of_pools pools.now)) }
{
    if let Some(at) = first_parent_out(pools) {
        return Ok(Some(Unfit::ParentRange(PoolId(at as u32))));
    }
    if let Some(at) = first_in_ring(alloc, pools)? {
        return Ok(Some(Unfit::ParentRing(PoolId(at as u32))));
    }
    if let Some(at) = first_too_deep(alloc, pools)? {
        return Ok(Some(Unfit::TooDeep(PoolId(at as u32))));
    }
    let fault = match first_badly_nested(pools) {
        Some(at) => Some(Unfit::RuleNesting(PoolId(at as u32))),
        None => None,
    };
    Ok(fault)
}
