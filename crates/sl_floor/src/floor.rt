ghost use Rattle.std.specs.Prelude.{◌≡◌, ◌+◌, ◌<◌, ◌≤◌, [], length, IfOk};
ghost use Rattle.sl_types.specs.declared.kinds.TheConstants.{MAX_SCORE, MAX_POOLS};
ghost use Rattle.sl_types.specs.Market.{Market};
ghost use Rattle.sl_laws.specs.Limits.{Limits};
ghost use Rattle.sl_laws.specs.Stable.{IsStable};
ghost use Rattle.sl_laws.specs.Raises.{Replays};
ghost use Rattle.sl_floor.specs.Floor.{flag_place, first_view, read_view, claim_view, mark_view, seat_after_draw, seat_after_raise, IsOf, CanClaim, CanRead, CanDraw, CanRaise, OwesMark, KnowsMore, IsLowInHand};

use crate::opening::{opening_words, reached};
use crate::pool_set::PoolSet;
use crate::rule::{Claim, Cleared, Draw, Mark, Read, Rise};
use crate::seat::Seat;
use crate::shares::{FIRST_ALLOWANCE, WHOLE_SHARE};
use crate::view::{About, View};
use atomic_table::Table;
use sl_contend::Contenders;
use sl_types::{Instance, Logged, OutOfMemory, PoolId, Raise};
use std::alloc::Global;
use std::marker::Model;
use std::snapshot::Snapshot;

/// The words of a clearing that seats in any threads share: the ticket number, and a limit and a flag for
/// each pool. Between any two steps its words and seats are a state of the clearing machine with all parts.
#[derive(Drop)]
pub struct Floor {
    pub(crate) table: Table<(), View, About, Cleared, Global>,
    pub(crate) pools: usize,
}

impl Model for Floor {
    ghost use Rattle.std.specs.Prelude.{◌≡◌, ◌≤◌, length};
    ghost use Rattle.sl_floor.specs.Floor.{FloorValue, word_count};

    ghost Value = { FloorValue };

    ghost view = { λ f. record {
      table = f.table.shared.table_id;
      market = f.table.shared.key.instance.value;
      kept = f.table.shared.key.kept.value.items;
    } };

    ghost invariant = { λ f. (length f.table.shared.key.instance.value.pools ≡ f.pools)
        × (f.table.shared.table_id.words ≡ word_count f.table.shared.key.instance.value)
        × (f.table.shared.table_id.slots ≡ 0) × (f.pools ≤ 20000) };
}

// The word with a pool's flag.
fn flag_place(pools: usize, pool: PoolId) -> usize
    requires { pools ≤ 20000 }
    ensures { (market : Market) → length market.pools ≡ pools → result ≡ flag_place market pool.0 }
{
    pools + 1 + pool.0 as usize
}

impl Floor {
    /// A floor for an instance, and its first seat. It opens with raises that replay: the limit words are what
    /// they reach, in points, the ticket number is how many they are, and all flags are up. The seat is idle,
    /// knows the words, has every pool left to scan, the whole share, and an empty log in memory with this
    /// room, up to 65,536; contracts see the kept raises in its whole log. It refuses for want of memory alone.
    pub fn new(
        alloc: Global,
        instance: &Instance,
        _contenders: &Contenders,
        kept: &[Raise],
        room: usize,
    ) -> Result<(Floor, Seat), OutOfMemory>
        requires kept { Replays instance.now kept.now }
        requires room { (1 ≤ room) × (room ≤ 65536) }
        ensures floor { IfOk result (λ t. (t.0.market ≡ instance.now) × (t.0.kept ≡ kept.now)) }
        ensures table { IfOk result (λ t. t.1.table ≡ t.0.table) }
        ensures seat { IfOk result (λ t. t.1.view ≡ first_view instance.now kept.now) }
        ensures log { IfOk result (λ t. (t.1.log ≡ []) × (t.1.room ≡ room)) }
    {
        let pools = instance.pools();
        let known = reached(alloc, instance, kept)?;
        let words = opening_words(alloc, &known, kept.len() as u64)?;
        let left = PoolSet::all(alloc, pools)?;
        let log = Vec::with_capacity(alloc, room)?;
        let copy = kept.to_vec(alloc)?;
        let about = About {
            instance: Snapshot::of(instance),
            kept: Snapshot::of(&copy),
        };
        let (table, token) = Table::of_words(alloc, words.as_slice(), &about)?;
        let floor = Floor { table, pools };
        let seat = Seat {
            token,
            known,
            left,
            log,
            room,
            share: WHOLE_SHARE,
            allowance: FIRST_ALLOWANCE,
            pool: PoolId(0),
            limit: 0,
        };
        Ok((floor, seat))
    }

    /// For how many pools the floor is: 20,000 at most.
    pub fn pools(&self) -> usize
        ensures pools { result ≡ length self.now.market.pools }
        ensures few { result ≤ MAX_POOLS }
    {
        self.pools
    }

    /// Claims a pool that is left to scan: one swap of its flag to 0. The answer is whether this swap found the
    /// flag up; then the seat is at work on the pool, with no reads, and else it stays idle.
    pub fn claim(&self, seat: &mut Seat, pool: PoolId) -> bool
        requires seat { IsOf self.now seat.old }
        requires may { CanClaim seat.old pool.0 }
        ensures { seat.new ≡ record seat.old { view = claim_view seat.old.view pool result } }
    {
        let shared = &self.table.shared;
        let place = flag_place(self.pools, pool);
        let found = shared.swap::<Claim>(&mut seat.token, place, 0);
        seat.left.put(pool.0 as usize, false);
        seat.pool = pool;
        found != 0
    }

    /// Reads the limit word of a pool, in points: one load. The answer is the word, at least what the seat
    /// knew, and above no stable limit.
    pub fn read(&self, seat: &mut Seat, pool: PoolId) -> u32
        requires seat { IsOf self.now seat.old }
        requires may { CanRead self.now seat.old pool.0 }
        ensures seat { seat.new ≡ record seat.old { view = read_view seat.old.view pool.0 result } }
        ensures rises { KnowsMore seat.old seat.new }
        ensures top { result ≤ MAX_SCORE + 1 }
        ensures low { (l : Limits) → IsStable self.now.market l → result ≤ l pool.0 }
    {
        let shared = &self.table.shared;
        let found = shared.load::<Read>(&mut seat.token, pool.0 as usize + 1) as u32;
        seat.known[pool.0 as usize] = found;
        found
    }

    /// Draws a ticket for the raise that is ready, to x points, and puts the raise into the log: one fetch-add.
    /// The answer is the ticket.
    pub fn draw(&self, seat: &mut Seat, x: u32) -> u64
        requires seat { IsOf self.now seat.old }
        requires may { CanDraw seat.old x }
        requires room { length seat.old.log < seat.old.room }
        requires allowance { 0 < seat.old.view.allowance }
        ensures { seat.new ≡ seat_after_draw seat.old result }
    {
        let shared = &self.table.shared;
        let ticket = shared.fetch_add::<Draw>(&mut seat.token, 0, 1);
        let entry = Logged {
            ticket,
            pool: seat.pool,
            limit: x,
        };
        seat.log.push(entry).unwrap();
        seat.limit = x;
        seat.allowance -= 1;
        ticket
    }

    /// Raises the word of the pool in hand to the limit that was drawn: one fetch-max. The answer is the word
    /// that it found, in points, which the seat's view keeps (`found`). It is above no stable limit.
    pub fn raise(&self, seat: &mut Seat) -> u32
        requires seat { IsOf self.now seat.old }
        requires may { CanRaise seat.old }
        ensures seat { seat.new ≡ seat_after_raise seat.old result }
        ensures rises { KnowsMore seat.old seat.new }
        ensures top { result ≤ MAX_SCORE + 1 }
        ensures low { IsLowInHand self.now.market seat.old result }
    {
        let shared = &self.table.shared;
        let (pool, limit) = (seat.pool, seat.limit);
        let place = pool.0 as usize + 1;
        let found = shared.fetch_max::<Rise>(&mut seat.token, place, limit as u64) as u32;
        seat.known[pool.0 as usize] = found.max(limit);
        found
    }

    /// Marks a pool that is owed: one swap of its flag to 1. The pool joins those left to scan.
    pub fn mark(&self, seat: &mut Seat, pool: PoolId)
        requires seat { IsOf self.now seat.old }
        requires may { OwesMark seat.old pool.0 }
        ensures { seat.new ≡ record seat.old { view = mark_view seat.old.view pool.0 } }
    {
        let shared = &self.table.shared;
        let place = flag_place(self.pools, pool);
        shared.swap::<Mark>(&mut seat.token, place, 1);
        seat.left.put(pool.0 as usize, true);
    }

    /// Empties a seat's log in memory. It is no table step, and what contracts see as the whole log stays.
    pub fn clear_log(&self, seat: &mut Seat)
        requires { IsOf self.now seat.old }
        ensures { seat.new ≡ record seat.old { log = [] } }
    {
        seat.log.clear();
    }
}
