ghost use Rattle.std.specs.Prelude.{◌≡◌, ◌≤◌, ◌<◌, map, IfOk};
ghost use Rattle.std.specs.List.{range_with_len};
ghost use Rattle.sl_gen.specs.Pools.{parent_of_pool, pool_count, pool_numbered, pool_of_prog};
ghost use Rattle.sl_gen.specs.Pools.{rule_of_pool};

use sl_types::{MAX_APPLICANTS, MAX_POOLS, MAX_PROGRAMMES, Pool, PoolId, Rule};
use std::alloc::{AllocError, Global};

// How many pools so many applicants have.
pub fn pool_count(applicants: u32) -> u32
    requires { applicants ≤ MAX_APPLICANTS }
    ensures { result ≡ pool_count applicants }
{
    8 * (1 + applicants / 400)
}

// The rule of a pool, by its place in its group of eight.
pub fn rule_of_pool(pool: u32) -> Rule
    ensures { result ≡ rule_of_pool pool }
{
    match pool % 8 {
        0 | 1 => Rule::H,
        2 | 3 => Rule::L,
        _ => Rule::Merit,
    }
}

// The pool round a pool, which is one of the same group of eight.
fn parent_of_pool(pool: u32) -> Option<PoolId>
    requires { pool < MAX_POOLS }
    ensures { result ≡ parent_of_pool pool }
{
    let first = pool / 8 * 8;
    match pool % 8 {
        5 | 6 => Some(PoolId(first + 4)),
        7 => Some(PoolId(first + 5)),
        _ => None,
    }
}

fn pool_numbered(pool: u32) -> Pool
    requires { pool < MAX_POOLS }
    ensures { result ≡ pool_numbered pool }
{
    Pool {
        quota: 1 + pool * 29 % 60,
        parent: parent_of_pool(pool),
        rule: rule_of_pool(pool),
    }
}

// So many pools.
pub fn pools(alloc: Global, count: u32) -> Result<Vec<Pool>, AllocError>
    requires { count ≤ MAX_POOLS }
    ensures { IfOk result (λ v. v.items ≡ map pool_numbered (range_with_len 0 count)) }
{
    (0..count).map(|pool| pool_numbered(pool)).collect(alloc)
}

// The pool of each of so many programmes.
pub fn programmes(alloc: Global, count: u32) -> Result<Vec<PoolId>, AllocError>
    requires { count ≤ MAX_PROGRAMMES }
    ensures { IfOk result (λ v. v.items ≡ map pool_of_prog (range_with_len 0 count)) }
{
    (0..count).map(|prog| PoolId(prog / 2)).collect(alloc)
}
