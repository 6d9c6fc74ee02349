ghost use Rattle.std.specs.Prelude.{◌≡◌, ◌<◌, [], length, IfNone, IfSome};
ghost use Rattle.std.specs.Iterator.{YieldsFirstBy, item_count};
ghost use Rattle.sl_types.specs.Market.{parent_of, is_parent};
ghost use Rattle.sl_nesting.specs.Inside.{children_from, IsNextChild};

use sl_types::{Instance, PoolId};
use std::marker::Model;

/// The pools directly inside a pool, in rising order. Contracts see it as the numbers of those that are left.
#[derive(Drop)]
pub struct Children<'a> {
    instance: &'a Instance,
    pool: PoolId,
    next: usize,
}

impl<'a> Model for Children<'a> {
    ghost use Rattle.std.specs.Prelude.{ℕ, List};
    ghost use Rattle.sl_nesting.specs.Inside.{children_from};

    ghost Value = { List ℕ };

    ghost view = { λ s. children_from s.instance.now s.pool.0 s.next };
}

impl<'a> Children<'a> {
    // All pools directly inside a pool.
    pub fn all(instance: &'a Instance, pool: PoolId) -> Children<'a>
        ensures { result ≡ children_from instance.now pool.0 0 }
    {
        Children {
            instance,
            pool,
            next: 0,
        }
    }
}

impl<'a> Iterator for Children<'a> {
    type Item = PoolId;

    ghost next_gives = { YieldsFirstBy (λ Q. Q.0) (λ s. s) };

    ghost remaining = { item_count (λ s. s) };

    fn next(&mut self) -> Option<PoolId> {
        let found = first_child(self.instance, self.pool, self.next);
        self.next = match found {
            Some(child) => child.0 as usize + 1,
            None => self.instance.pools(),
        };
        found
    }
}

fn is_child(instance: &Instance, pool: PoolId, child: usize) -> bool
    requires { child < length instance.now.pools }
    ensures { result ≡ is_parent pool.0 (parent_of instance.now child) }
{
    let _count = instance.pools();
    match instance.pool(PoolId(child as u32)).parent {
        Some(parent) => parent.0 == pool.0,
        None => false,
    }
}

// The first pool directly inside a pool from a number on.
fn first_child(instance: &Instance, pool: PoolId, low: usize) -> Option<PoolId>
    ensures none { IfNone result (children_from instance.now pool.0 low ≡ []) }
    ensures first { IfSome result (IsNextChild instance.now pool.0 low) }
{
    for at in low..instance.pools() {
        if is_child(instance, pool, at) {
            return Some(PoolId(at as u32));
        }
    }
    None
}
