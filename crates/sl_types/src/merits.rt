ghost use Rattle.std.specs.Prelude.{◌≡◌, ◌||◌, ◌+◌, ◌*◌, ◌<◌, ◌≤◌, ◌^◌, [], ℕ, length, map, position, get_or, IfOk, OnOk, IfSome};
ghost use Rattle.std.specs.List.{list_any, range_with_len};
ghost use Rattle.std.specs.HashSet.{contains};
ghost use Rattle.std.specs.Prelude.{nat_eq};
ghost use Rattle.sl_types.specs.Market.{market_of_pools, market_with, pool_at};
ghost use Rattle.sl_types.specs.Trees.{TakesKeys, is_contradicted, parent_or, outermost, tree_of, tree_at, passes, is_other, has_two_scores, merit_key, has_key, is_key_taken};

use crate::nesting::rule_at;
use crate::{Entry, MAX_DEPTH, MAX_SCORE, Pool, PoolId, Rule};
use std::alloc::{AllocError, Global};
use std::collections::HashSet;

// The number of a pool's parent, or its own.
fn parent_or_self(pools: &[Pool], pool: u32) -> u32
    ensures { result ≡ parent_or pool (pool_at (market_of_pools pools.now) pool).parent }
{
    match pools.get(pool as usize) {
        Some(
            Pool {
                parent: Some(parent),
                ..
            },
        ) => parent.0,
        _ => pool,
    }
}

// The outermost pool round a pool, or the pool itself.
fn outermost(pools: &[Pool], pool: u32) -> u32
    ensures { result ≡ outermost pools.now MAX_DEPTH pool }
{
    let mut at = pool;
    for steps in 0..MAX_DEPTH {
        at = parent_or_self(pools, at);
    }
    at
}

// The tree of a merit pool.
fn tree_of(pools: &[Pool], pool: PoolId) -> Option<u32>
    ensures { result ≡ tree_of pools.now pool.0 }
{
    if rule_at(pools, pool) == Rule::Merit {
        Some(outermost(pools, pool.0))
    } else {
        None
    }
}

/// The tree of each programme whose pool is a merit pool, known by its outermost pool.
pub fn trees(
    alloc: Global,
    pools: &[Pool],
    progs: &[PoolId],
) -> Result<Vec<Option<u32>>, AllocError>
    ensures { IfOk result (λ v. v.items ≡ map (λ Q. tree_of pools.now Q.0) progs.now) }
{
    progs
        .iter()
        .map(|pool| tree_of(pools, *pool))
        .collect(alloc)
}

fn tree_at(trees: &[Option<u32>], choice: &Entry) -> Option<u32>
    ensures { result ≡ tree_at trees.now choice.now }
{
    match trees.get(choice.prog.0 as usize) {
        Some(tree) => *tree,
        None => None,
    }
}

// Whether a choice is in a tree with another score.
fn is_other(trees: &[Option<u32>], tree: u32, score: u32, choice: &Entry) -> bool
    ensures { result ≡ is_other trees.now tree score choice.now }
{
    match tree_at(trees, choice) {
        Some(its) => tree == its && score != choice.score,
        None => false,
    }
}

fn has_other(trees: &[Option<u32>], tree: u32, score: u32, choices: &[Entry]) -> bool
    ensures { result ≡ list_any (is_other trees.now tree score) choices.now }
{
    choices.iter().any(|f| is_other(trees, tree, score, f))
}

fn is_contradicted(trees: &[Option<u32>], choice: &Entry, choices: &[Entry]) -> bool
    ensures { result ≡ is_contradicted trees.now choices.now choice.now }
{
    match tree_at(trees, choice) {
        Some(tree) => has_other(trees, tree, choice.score, choices),
        None => false,
    }
}

fn has_two_scores(trees: &[Option<u32>], choices: &[Entry]) -> bool
    ensures { result ≡ has_two_scores trees.now choices.now }
{
    choices.iter().any(|e| is_contradicted(trees, e, choices))
}

pub fn first_with_two_scores(trees: &[Option<u32>], lists: &[Vec<Entry>]) -> Option<usize>
    ensures within { IfSome result (λ i. i < length lists.now) }
    ensures first { result ≡ position (λ l. has_two_scores trees.now l.items) lists.now }
{
    lists
        .iter()
        .position(|list| has_two_scores(trees, list.as_slice()))
}

// One number for a tree and a score.
fn key_of(tree: u32, score: u32) -> u64
    ensures { result ≡ tree * (MAX_SCORE + 1) + score }
{
    u64::from(tree) * (u64::from(MAX_SCORE) + 1) + u64::from(score)
}

// One number for the tree of a choice and the score there.
fn merit_key(trees: &[Option<u32>], choice: &Entry) -> Option<u64>
    ensures { result ≡ merit_key trees.now choice.now }
{
    match tree_at(trees, choice) {
        Some(tree) => Some(key_of(tree, choice.score)),
        None => None,
    }
}

fn is_taken(trees: &[Option<u32>], taken: &HashSet<u64>, choice: &Entry) -> bool
    ensures { result ≡ passes (contains nat_eq taken.now) (merit_key trees.now choice.now) }
{
    match merit_key(trees, choice) {
        Some(key) => taken.contains(&key),
        None => false,
    }
}

fn has_taken(trees: &[Option<u32>], taken: &HashSet<u64>, choices: &[Entry]) -> bool
    ensures { let is_taken = contains nat_eq taken.now in
        result ≡ list_any (λ e. passes is_taken (merit_key trees.now e)) choices.now }
{
    choices.iter().any(|e| is_taken(trees, taken, e))
}

// Takes the keys of an applicant's choices.
fn take_keys(
    trees: &[Option<u32>],
    taken: &mut HashSet<u64>,
    choices: &[Entry],
) -> Result<(), AllocError>
    ensures { let has = contains nat_eq in
        OnOk result (TakesKeys trees.now choices.now (has taken.old) (has taken.new)) }
{
    for choice in choices {
        if let Some(key) = merit_key(trees, choice) {
            taken.insert(key)?;
        }
    }
    Ok(())
}

// How many keys to make room for: one for each applicant, where some programme is in a tree.
fn room_for_keys(trees: &[Option<u32>], lists: &[Vec<Entry>]) -> usize {
    if trees.iter().any(|tree| tree.is_some()) {
        lists.len()
    } else {
        0
    }
}

// The first applicant who has a key of one of lower number.
pub fn first_tied(
    alloc: Global,
    trees: &[Option<u32>],
    lists: &[Vec<Entry>],
) -> Result<Option<usize>, AllocError>
    ensures within { IfOk result (λ first. IfSome first (λ i. i < length lists.now)) }
    ensures first { let rows = (market_with [] [] lists.now).lists in
        let is_tied = is_key_taken trees.now rows in
        IfOk result (λ at. at ≡ position is_tied (range_with_len 0 (length lists.now))) }
{
    let mut taken = HashSet::with_capacity(alloc, room_for_keys(trees, lists))?;
    for at in 0..lists.len() {
        let list = list_at(lists, at);
        if has_taken(trees, &taken, list) {
            return Ok(Some(at));
        }
        take_keys(trees, &mut taken, list)?;
    }
    Ok(None)
}

// The list at a place.
pub fn list_at(lists: &[Vec<Entry>], at: usize) -> &[Entry]
    requires { at < length lists.now }
    ensures { result.now ≡ get_or (market_with [] [] lists.now).lists at [] }
{
    lists[at].as_slice()
}
