// The end of a floor.
ghost use Rattle.std.specs.Prelude.{◌≡◌, ℕ, ◌+◌, ◌<◌, ◌≤◌, length, slice_index};
ghost use Rattle.std.specs.Slots.{slots_items, slots_len, IsFull};
ghost use Rattle.sl_types.specs.declared.kinds.TheConstants.{MAX_SCORE};
ghost use Rattle.sl_floor.specs.declared.shares.TheConstants.{WHOLE_SHARE};
ghost use Rattle.sl_floor.specs.Floor.{IsOf, IsIdle, HasNoneLeft};
ghost use Rattle.sl_floor.specs.Ending.{IsWholeLog, AreSettled, ReachesLeast, IsProved};

use crate::floor::Floor;
use crate::merging::copy_of;
use crate::seat::Seat;
use atomic_table::Closed;
use std::alloc::Global;
use std::marker::Model;
use std::snapshot::Snapshot;

/// What a floor was closed with, which `Floor::close` alone makes. Contracts see the floor's instance and kept
/// raises, the limit words that were written, and the whole log of the last seat. It takes no memory.
#[derive(Drop)]
pub struct Receipt {
    words: Snapshot<Vec<u32>>,
    seat: Snapshot<Seat>,
}

impl Model for Receipt {
    ghost use Rattle.sl_floor.specs.Ending.{Closing};

    ghost Value = { Closing };

    ghost view = { λ r. record {
      market = r.seat.value.view.market;
      kept = r.seat.value.view.kept;
      words = r.words.value.items;
      log = r.seat.value.view.actor.log;
    } };
}

// Writes the last limit words.
fn write_limits(closed: &Closed<(), Global>, out: &mut [u32])
    requires full { IsFull closed.now.words }
    requires words { length out.old + 1 ≤ slots_len closed.now.words }
    requires low { (k : ℕ) → k < length out.old
        → slice_index (slots_items closed.now.words) (k + 1) ≤ MAX_SCORE + 1 }
    ensures length { length out.new ≡ length out.old }
    ensures each { (k : ℕ) → k < length out.old
        → slice_index out.new k ≡ slice_index (slots_items closed.now.words) (k + 1) }
{
    for at in 0..out.len() {
        out[at] = closed.word(at + 1) as u32;
    }
}

impl Floor {
    /// Closes the floor with an idle seat of the whole share, and writes the last limit words, in points. In
    /// order of ticket the whole log of the seat is a sound list that begins with the kept raises and reaches
    /// these words. Where no pool is left to scan, every pool is settled at them, their effective limits are
    /// the least stable ones, and the list, without the void raises, proves them. It takes no memory.
    pub fn close(self, seat: Seat, out: &mut [u32]) -> Receipt
        requires seat { IsOf self seat }
        requires idle { IsIdle seat }
        requires whole { seat.view.share ≡ WHOLE_SHARE }
        requires out { length out.old ≡ length self.market.pools }
        ensures instance { (result.market ≡ self.market) × (result.kept ≡ self.kept) }
        ensures words { result.words ≡ out.new }
        ensures log { result.log ≡ seat.view.actor.log }
        ensures ordered { IsWholeLog result }
        ensures settled { HasNoneLeft seat → AreSettled result }
        ensures least { HasNoneLeft seat → ReachesLeast result }
        ensures proves { HasNoneLeft seat → IsProved result }
    {
        let shown = Snapshot::of(&seat);
        let Seat {
            token,
            known,
            left: _,
            log: _,
            room: _,
            share: _,
            allowance: _,
            pool: _,
            limit: _,
        } = seat;
        let Floor { table, pools: _ } = self;
        let closed = table.close_with(token);
        write_limits(&closed, out);
        closed.free();
        let known = copy_of(known, out);
        Receipt {
            words: Snapshot::of(&known),
            seat: shown,
        }
    }
}
