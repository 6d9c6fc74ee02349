// A reader of progress, beside the workers of a round.
ghost use denote.Param.Send.{IsSync};
ghost use Rattle.std.specs.Prelude.{◌≡◌, ◌≤◌, ◌<◌, ◌∷◌, ◌++◌, ℕ, true, [], All, length, slice_index_or};
ghost use Rattle.std.specs.List.{HoldsAt};
ghost use Rattle.sl_floor.specs.Floor.{SeatValue, IsOf, IsIdle, HasNoneLeft};
ghost use Rattle.sl_team.specs.Seats.{CanSplit, MayWork, HasWorked};
ghost use Rattle.sl_team.specs.Crew.{IsSplitAt, HasJoined};
ghost use Rattle.sl_team.specs.Watching.{HasWatched, AreSeen, AreLong};

use crate::crew::{Job, Place};
use crate::rounds::work_crew;
use crate::seen::Seen;
use sl_desk::Gate;
use sl_floor::{Blank, Floor, Seat};
use std::thread::{Threads, join_mut};

// A reader at its seat, and what its looks saw.
#[derive(Drop)]
pub struct Reader {
    pub seat: Seat,
    pub seen: Seen,
}

// All looks of a reader, one after another. Before each it passes the gate, with a number above those of the
// workers.
fn watch<G: Gate>(floor: &Floor, seat: &mut Seat, seen: &mut Seen, gate: &G, number: u32)
    requires seat { IsOf floor.now seat.old }
    requires idle { IsIdle seat.old }
    requires long { AreLong floor.now.market seen.old }
    ensures watched { HasWatched floor.now seat.old seat.new }
    ensures seen { AreSeen floor.now.market seen.new }
    ensures count { length seen.new ≡ length seen.old }
{
    // Each list of the seat has an item for each pool.
    let _full = seat.is_full();
    for at in 0..seen.count() {
        gate.at(number, at as u64);
        seen.look_at(at, floor, seat);
    }
}

// The same, by a reader.
fn watch_at<G: Gate>(floor: &Floor, reader: &mut Reader, job: &Job<G>, number: u32)
    requires seat { IsOf floor.now reader.old.seat }
    requires idle { IsIdle reader.old.seat }
    requires long { AreLong floor.now.market reader.old.seen }
    ensures watched { HasWatched floor.now reader.old.seat reader.new.seat }
    ensures seen { AreSeen floor.now.market reader.new.seen }
    ensures count { length reader.new.seen ≡ length reader.old.seen }
{
    let Reader { seat, seen } = reader;
    watch(floor, seat, seen, job.gate, number);
}

// A bare seat for a reader: half of the first seat of the crew.
pub fn seat_reader(floor: &Floor, crew: &mut Vec<Place>, blank: Blank, room: usize) -> Seat
    requires some { 0 < length crew.old.items }
    requires seat { HoldsAt (CanSplit floor.now) crew.old.items 0 }
    requires pools { blank.pools ≡ length floor.now.market.pools }
    requires room { blank.room ≡ room }
    ensures split { IsSplitAt room 0 true crew.old.items (crew.new.items ++ result ∷ []) }
    ensures bare { HasNoneLeft result }
{
    floor.split(&mut crew[0].seat, blank, true)
}

// The seat of a reader, whose log is empty, becomes one with the first of the crew.
pub fn join_reader(floor: &Floor, crew: &mut Vec<Place>, seat: Seat)
    requires some { 0 < length crew.old.items }
    requires first { HoldsAt (IsOf floor.now) crew.old.items 0 }
    requires first_idle { HoldsAt IsIdle crew.old.items 0 }
    requires seat { IsOf floor.now seat }
    requires idle { IsIdle seat }
    requires log { seat.log ≡ [] }
    ensures { HasJoined (crew.old.items ++ seat ∷ []) crew.new.items [] }
{
    floor.join(&mut crew[0].seat, seat);
}

// All workers work until they stop, and the reader makes its looks beside them, in a thread of its own.
pub fn work_and_watch<R: Threads + Sync, G: Gate>(
    rt: &R,
    floor: &Floor,
    crew: &mut Vec<Place>,
    reader: &mut Reader,
    job: &Job<G>,
    number: u32,
)
    requires seats { All (MayWork floor.now) crew.old.items }
    requires job { job.now ≡ floor.now.market }
    requires seat { IsOf floor.now reader.old.seat }
    requires idle { IsIdle reader.old.seat }
    requires long { AreLong floor.now.market reader.old.seen }
    ensures length { length crew.new.items ≡ length crew.old.items }
    ensures each { (i : ℕ) (d : SeatValue) → i < length crew.old.items
        → HasWorked floor.now (slice_index_or crew.old.items i d)
        (slice_index_or crew.new.items i d) }
    ensures watched { HasWatched floor.now reader.old.seat reader.new.seat }
    ensures seen { AreSeen floor.now.market reader.new.seen }
    ensures count { length reader.new.seen ≡ length reader.old.seen }
{
    let mut looks = ||
        requires { IsOf floor.now reader.now.seat × IsIdle reader.now.seat
            × AreLong floor.now.market reader.now.seen }
        ensures { HasWatched floor.entry.now reader.entry.now.seat reader.exit.now.seat
            × AreSeen floor.entry.now.market reader.exit.now.seen
            × (length reader.exit.now.seen ≡ length reader.entry.now.seen) }
    { watch_at(floor, reader, job, number) };
    let mut works = ||
        requires { IsSync R.row × All (MayWork floor.now) crew.now.items
            × (job.now ≡ floor.now.market) }
        ensures { (length crew.exit.now.items ≡ length crew.entry.now.items)
            × ((i : ℕ) (d : SeatValue) → i < length crew.entry.now.items
            → HasWorked floor.entry.now (slice_index_or crew.entry.now.items i d)
            (slice_index_or crew.exit.now.items i d)) }
    { work_crew(rt, floor, crew, job) };
    join_mut(rt, &mut looks, &mut works);
}
