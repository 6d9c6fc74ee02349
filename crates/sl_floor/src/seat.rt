ghost use Rattle.std.specs.Prelude.{◌≡◌, ◌<◌, ◌≤◌, ◌==◌, length, slice_index, IfSome, IfNone};
ghost use Rattle.sl_laws.specs.Limits.{Limits};
ghost use Rattle.sl_laws.specs.Stable.{IsStable};
ghost use Rattle.sl_core.specs.State.{has_pool};
ghost use Rattle.sl_core.specs.Machine.{has_any};
ghost use Rattle.sl_floor.specs.declared.shares.TheConstants.{WHOLE_SHARE, FIRST_ALLOWANCE};
ghost use Rattle.sl_floor.specs.Held.{IsSized};
ghost use Rattle.sl_floor.specs.Sets.{AreDownFrom, IsNextUp};

use crate::pool_set::PoolSet;
use crate::view::View;
use sl_types::{Logged, PoolId};
use std::marker::Model;

/// A seat of a floor. Contracts see the machine's actor that it plays, with its phase, its reads and its whole
/// log; its share and its allowance; the number of its table steps on each word; its floor's instance and
/// kept raises; and the log in memory with its room.
#[derive(Drop)]
pub struct Seat {
    pub(crate) token: atomic_table::Seat<(), View>,
    pub(crate) known: Vec<u32>,
    pub(crate) left: PoolSet,
    pub(crate) log: Vec<Logged>,
    pub(crate) room: usize,
    pub(crate) share: u32,
    pub(crate) allowance: u64,
    pub(crate) pool: PoolId,
    pub(crate) limit: u32,
}

impl Model for Seat {
    ghost use Rattle.std.specs.Prelude.{◌≡◌, ◌≤◌, [], length, vec_capacity};
    ghost use Rattle.sl_floor.specs.Floor.{SeatValue};
    ghost use Rattle.sl_floor.specs.Held.{Holds};

    ghost Value = { SeatValue };

    ghost view = { λ s. record {
      table = s.token.table_id;
      id = s.token.id;
      view = s.token.me.0;
      log = s.log.items;
      room = s.room;
    } };

    ghost invariant = { λ s. (s.token.me.1 ≡ [])
        × Holds s.token.me.0 s.known.items s.left s.share s.allowance s.pool s.limit
        × (length s.log.items ≤ s.room) × (s.room ≤ vec_capacity s.log) };
}

impl Seat {
    /// What the seat knows of a pool's limit, in points. It is above no stable limit.
    pub fn known(&self, pool: PoolId) -> u32
        requires { pool.0 < length self.now.view.market.pools }
        ensures known { result ≡ slice_index self.now.view.actor.known pool.0 }
        ensures low { (l : Limits) → IsStable self.now.view.market l → result ≤ l pool.0 }
    {
        self.known[pool.0 as usize]
    }

    /// Whether a pool is left to scan.
    pub fn is_left(&self, pool: PoolId) -> bool
        requires { pool.0 < length self.now.view.market.pools }
        ensures { result ≡ has_pool self.now.view.actor.left pool.0 }
    {
        self.left.has(pool.0 as usize)
    }

    /// Whether any pool is left to scan.
    pub fn any_left(&self) -> bool
        ensures { result ≡ has_any self.now.view.actor.left }
    {
        self.left.has_any()
    }

    /// The first pool from one on that is left to scan. It goes over 64 pools at a time.
    pub fn next_left(&self, from: PoolId) -> Option<PoolId>
        ensures next { IfSome result (λ pool. IsNextUp self.now.view.actor.left from.0 pool.0) }
        ensures within { IfSome result (λ pool. pool.0 < length self.now.view.market.pools) }
        ensures none { IfNone result (AreDownFrom self.now.view.actor.left from.0) }
    {
        let pool = self.left.next_from(from.0 as usize)?;
        Some(PoolId(pool as u32))
    }

    /// The log in memory: the raises since it was emptied, the oldest first.
    pub fn log(&self) -> &[Logged]
        ensures { result.now ≡ self.now.log }
    {
        &self.log
    }

    /// How many entries the log in memory may have.
    pub fn room(&self) -> usize
        ensures { result ≡ self.now.room }
    {
        self.room
    }

    /// Whether the log in memory has room for no more entries. Each list of the seat has an item for each pool.
    pub fn is_full(&self) -> bool
        ensures full { result ≡ (length self.now.log == self.now.room) }
        ensures fits { length self.now.log ≤ self.now.room }
        ensures sized { IsSized self.now.view }
    {
        self.log.len() == self.room
    }

    /// The seat's share of the floor, of 1,048,576.
    pub fn share(&self) -> u32
        ensures share { result ≡ self.now.view.share }
        ensures fits { result ≤ WHOLE_SHARE }
    {
        self.share
    }

    /// How many tickets the seat may still draw.
    pub fn allowance(&self) -> u64
        ensures allowance { result ≡ self.now.view.allowance }
        ensures fits { result ≤ FIRST_ALLOWANCE }
    {
        self.allowance
    }
}
