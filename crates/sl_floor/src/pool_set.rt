ghost use Rattle.std.specs.Prelude.{◌≡◌, ℕ, ◌+◌, ◌<◌, ◌≤◌, ◌/◌, ◌^◌, true, false, cond, not, ◌&&◌, ◌||◌, length, get_or, set, replicate, IfOk, IfSome, IfNone};
ghost use Rattle.sl_core.specs.Machine.{has_any};
ghost use Rattle.sl_core.specs.Dividing.{either_of};
ghost use Rattle.sl_core.specs.Parts.{once_if};
ghost use Rattle.sl_floor.specs.Sets.{AreDownFrom, IsNextUp};

use crate::bits::{first_from, has_pool_bit, put_pool};
use std::alloc::{AllocError, Global};
use std::marker::Model;

// A set of pools: a bit for each, 64 to a word, and how many are in it. Contracts see a flag for each pool.
#[derive(Drop)]
pub struct PoolSet {
    words: Vec<u64>,
    pools: usize,
    count: usize,
}

impl Model for PoolSet {
    ghost use Rattle.std.specs.Prelude.{◌≡◌, Bool, List, ◌*◌, ◌^◌, ◌<◌, ◌≤◌, length};
    ghost use Rattle.sl_floor.specs.Sets.{flags_in, count_up};

    ghost Value = { List Bool };

    ghost view = { λ s. flags_in s.pools s.words.items };

    ghost invariant = { λ s. (s.pools ≤ 64 * length s.words.items)
        × (length s.words.items < 2 ^ 32) × (s.pools < 2 ^ 32)
        × (s.count ≡ count_up (flags_in s.pools s.words.items)) };
}

// Words for so many pools, each the same.
fn words_of(alloc: Global, pools: usize, word: u64) -> Result<Vec<u64>, AllocError>
    requires { pools < 2 ^ 32 }
    ensures { IfOk result (λ v. v.items ≡ replicate (pools / 64 + 1) word) }
{
    vec![in alloc; word; pools / 64 + 1]
}

// How many are in a set after one of its flags is written.
fn recount(count: usize, was: bool, up: bool) -> usize
    requires { (once_if was ≤ count) × (count ≤ 2 ^ 32) }
    ensures { result + once_if was ≡ count + once_if up }
{
    if was == up {
        count
    } else if up {
        count + 1
    } else {
        count - 1
    }
}

fn is_either(one: bool, other: bool) -> bool
    ensures { result ≡ (one || other) }
{
    one || other
}

fn is_scanned(bare: bool, flag: bool) -> bool
    ensures { result ≡ (not bare && flag) }
{
    !bare && flag
}

impl PoolSet {
    // The set of so many pools.
    pub fn all(alloc: Global, pools: usize) -> Result<PoolSet, AllocError>
        requires { pools < 2 ^ 32 }
        ensures { IfOk result (λ s. s ≡ replicate pools true) }
    {
        let words = words_of(alloc, pools, u64::MAX)?;
        let count = pools;
        Ok(PoolSet {
            words,
            pools,
            count,
        })
    }

    // The empty set, for so many pools.
    pub fn none(alloc: Global, pools: usize) -> Result<PoolSet, AllocError>
        requires { pools < 2 ^ 32 }
        ensures { IfOk result (λ s. s ≡ replicate pools false) }
    {
        let words = words_of(alloc, pools, 0)?;
        let count = 0;
        Ok(PoolSet {
            words,
            pools,
            count,
        })
    }

    // For how many pools it is.
    fn pools(&self) -> usize
        ensures { result ≡ length self.now }
    {
        self.pools
    }

    // Whether a pool is in the set.
    pub fn has(&self, pool: usize) -> bool
        requires { pool < length self.now }
        ensures { result ≡ get_or self.now pool false }
    {
        has_pool_bit(&self.words, pool)
    }

    // Whether any pool is in the set.
    pub fn has_any(&self) -> bool
        ensures { result ≡ has_any self.now }
    {
        self.count > 0
    }

    // The first pool from a number on that is in the set.
    pub fn next_from(&self, from: usize) -> Option<usize>
        ensures some { IfSome result (IsNextUp self.now from) }
        ensures bound { IfSome result (λ pool. pool < 2 ^ 32) }
        ensures none { IfNone result (AreDownFrom self.now from) }
    {
        match first_from(&self.words, from) {
            Some(pool) => { if pool < self.pools { Some(pool) } else { None } }
            None => None,
        }
    }

    // Puts a pool into the set, or takes it out.
    pub fn put(&mut self, pool: usize, up: bool)
        requires { pool < length self.old }
        ensures { self.new ≡ set self.old pool up }
    {
        let was = has_pool_bit(&self.words, pool);
        put_pool(&mut self.words, pool, up);
        self.count = recount(self.count, was, up);
    }

    // Takes in the pools of another set.
    pub fn unite(&mut self, other: &PoolSet)
        requires { length other.now ≡ length self.old }
        ensures { self.new ≡ either_of other.now self.old }
    {
        for at in 0..self.pools() {
            let up = is_either(other.has(at), self.has(at));
            self.put(at, up);
        }
    }

    // Becomes another set, or the empty one.
    pub fn copy_from(&mut self, other: &PoolSet, bare: bool)
        requires { length other.now ≡ length self.old }
        ensures { self.new ≡ cond bare (replicate (length self.old) false) other.now }
    {
        for at in 0..self.pools() {
            let up = is_scanned(bare, other.has(at));
            self.put(at, up);
        }
    }
}
