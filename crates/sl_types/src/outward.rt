ghost use Rattle.std.specs.Prelude.{◌≡◌, ◌<◌, length, nat_eq, All};
ghost use Rattle.std.specs.List.{IsDistinct};
ghost use Rattle.std.specs.Iterator.{YieldsFirstBy, item_count};
ghost use Rattle.sl_types.specs.Market.{chain_of};

use crate::{Instance, PoolId};
use std::marker::Model;

/// A pool and the pools round it, from it outwards. Contracts see it as the numbers of those that are left.
#[derive(Drop)]
pub struct Outward<'a> {
    instance: &'a Instance,
    next: Option<PoolId>,
}

impl<'a> Model for Outward<'a> {
    ghost use Rattle.std.specs.Prelude.{◌<◌, ℕ, List, length, IfSome};
    ghost use Rattle.sl_types.specs.Market.{chain_of, outward};

    ghost Value = { List ℕ };

    ghost view = { λ s. outward (chain_of s.instance.now) s.next };

    ghost invariant = { λ s. IfSome s.next (λ Q. Q.0 < length s.instance.now.pools) };
}

impl<'a> Iterator for Outward<'a> {
    type Item = PoolId;

    ghost next_gives = { YieldsFirstBy (λ Q. Q.0) (λ s. s) };

    ghost remaining = { item_count (λ s. s) };

    fn next(&mut self) -> Option<PoolId> {
        // An instance is well formed: the pools round a pool are its parent and those round that.
        let _pools = self.instance.pools();
        match self.next {
            Some(here) => {
                self.next = self.instance.pool(here).parent;
                Some(here)
            }
            None => None,
        }
    }
}

impl Instance {
    /// A pool and the pools round it, from it outwards. It takes no memory.
    pub fn outward(&self, pool: PoolId) -> Outward<'_>
        requires { pool.0 < length self.now.pools }
        ensures pools { result ≡ chain_of self.now pool.0 }
        ensures within { All (λ P. P < length self.now.pools) result }
        ensures once { IsDistinct nat_eq result }
    {
        let _pools = self.pools();
        Outward {
            instance: self,
            next: Some(pool),
        }
    }
}
