// Rounds of workers, each in a thread of its own.
ghost use Rattle.std.specs.Prelude.{◌≡◌, ◌≤◌, ◌<◌, ◌+◌, ℕ, true, false, All, length, slice_index_or, vec_capacity, OnOk};
ghost use Rattle.sl_types.specs.declared.kinds.TheConstants.{MAX_POOLS};
ghost use Rattle.sl_floor.specs.Floor.{SeatValue};
ghost use Rattle.sl_team.specs.Seats.{MayWork, HasWorked};
ghost use Rattle.sl_team.specs.Crew.{first_has_left};
ghost use Rattle.sl_team.specs.Rounds.{IsBetween, HasRounded};

use crate::crew::{Job, Place, Spare};
use crate::joining::join_all;
use crate::splitting::split_all;
use sl_desk::{Gate, work};
use sl_floor::Floor;
use sl_nested::Mixed;
use sl_types::Logged;
use std::alloc::AllocError;
use std::thread;
use std::thread::Threads;

// A worker works until it stops.
fn work_at<G: Gate>(floor: &Floor, place: &mut Place, job: &Job<G>)
    requires seat { MayWork floor.now place.old }
    requires job { job.now ≡ floor.now.market }
    ensures { HasWorked floor.now place.old place.new }
{
    let Place { seat, desk } = place;
    work(
        floor,
        seat,
        desk,
        &Mixed,
        job.instance,
        job.contenders,
        job.gate,
    );
    // A log has no more than its room.
    let _full = seat.is_full();
}

// All workers work until they stop, with one thread asked for per seat.
fn work_all<R: Threads + Sync, G: Gate>(rt: &R, floor: &Floor, crew: &mut [Place], job: &Job<G>)
    requires seats { All (MayWork floor.now) crew.old }
    requires job { job.now ≡ floor.now.market }
    ensures length { length crew.new ≡ length crew.old }
    ensures each { (i : ℕ) (d : SeatValue) → i < length crew.old
        → HasWorked floor.now (slice_index_or crew.old i d) (slice_index_or crew.new i d) }
{
    let threads = crew.len().max(1);
    thread::for_each_mut(
        rt,
        crew,
        threads,
        &|_: usize, place: &mut Place|
            requires { MayWork floor.now place.old × (job.now ≡ floor.now.market) }
            ensures { HasWorked floor.entry.now place.old place.new }
        { work_at(floor, place, job) },
    );
}

// The same, where the seats are a vector.
pub fn work_crew<R: Threads + Sync, G: Gate>(
    rt: &R,
    floor: &Floor,
    crew: &mut Vec<Place>,
    job: &Job<G>,
)
    requires seats { All (MayWork floor.now) crew.old.items }
    requires job { job.now ≡ floor.now.market }
    ensures length { length crew.new.items ≡ length crew.old.items }
    ensures each { (i : ℕ) (d : SeatValue) → i < length crew.old.items
        → HasWorked floor.now (slice_index_or crew.old.items i d)
        (slice_index_or crew.new.items i d) }
{
    work_all(rt, floor, crew, job);
}

// One round: the one seat is split, all workers work, and all seats are joined again. All room is taken before
// the first claim.
fn one_round<R: Threads + Sync, G: Gate>(
    rt: &R,
    floor: &Floor,
    crew: &mut Vec<Place>,
    spares: &mut Vec<Spare>,
    gathered: &mut Vec<Logged>,
    room: usize,
    job: &Job<G>,
) -> Result<(), AllocError>
    requires state { IsBetween floor.now room gathered.old.items crew.old.items spares.old.items }
    requires left { first_has_left crew.old.items ≡ true }
    requires room { (1 ≤ room) × (room ≤ 65536) }
    requires job { job.now ≡ floor.now.market }
    requires pools { length floor.now.market.pools ≤ MAX_POOLS }
    requires spare_room { length spares.old.items ≤ vec_capacity spares.old }
    ensures state { OnOk result (IsBetween floor.now room gathered.new.items crew.new.items
        spares.new.items) }
    ensures round { OnOk result (HasRounded crew.old.items crew.new.items) }
{
    gathered.reserve((spares.len() + 1) * room)?;
    split_all(floor, crew, spares, room)?;
    work_crew(rt, floor, crew, job);
    join_all(floor, crew, spares, gathered, room);
    Ok(())
}

// Whether the one seat has a pool left to scan.
fn any_left(crew: &[Place]) -> bool
    requires { 0 < length crew.now }
    ensures { result ≡ first_has_left crew.now }
{
    let first = &crew[0];
    first.seat.any_left()
}

// Rounds until no pool is left to scan.
pub fn all_rounds<R: Threads + Sync, G: Gate>(
    rt: &R,
    floor: &Floor,
    crew: &mut Vec<Place>,
    spares: &mut Vec<Spare>,
    gathered: &mut Vec<Logged>,
    room: usize,
    job: &Job<G>,
) -> Result<(), AllocError>
    requires state { IsBetween floor.now room gathered.old.items crew.old.items spares.old.items }
    requires room { (1 ≤ room) × (room ≤ 65536) }
    requires job { job.now ≡ floor.now.market }
    requires pools { length floor.now.market.pools ≤ MAX_POOLS }
    ensures state { OnOk result (IsBetween floor.now room gathered.new.items crew.new.items
        spares.new.items) }
    ensures quiet { OnOk result (first_has_left crew.new.items ≡ false) }
{
    'rounds: while any_left(crew) {
        one_round(rt, floor, crew, spares, gathered, room, job)?;
    }
    Ok(())
}
