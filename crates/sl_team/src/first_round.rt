// The first round, which a reader may watch.
ghost use Rattle.std.specs.Prelude.{◌≡◌, ◌≤◌, ◌<◌, length, vec_capacity, IfOk};
ghost use Rattle.sl_types.specs.declared.kinds.TheConstants.{MAX_POOLS};
ghost use Rattle.sl_floor.specs.declared.shares.TheConstants.{FIRST_ALLOWANCE};
ghost use Rattle.sl_team.specs.Crew.{total_of};
ghost use Rattle.sl_team.specs.Rounds.{IsBetween};
ghost use Rattle.sl_team.specs.Watching.{AreSeen, AreLong};

use crate::crew::{Job, Place, Spare};
use crate::joining::join_all;
use crate::seen::Seen;
use crate::splitting::split_all;
use crate::watching::{Reader, join_reader, seat_reader, work_and_watch};
use sl_desk::Gate;
use sl_floor::{Blank, Floor};
use sl_types::{Logged, OutOfMemory};
use std::alloc::{AllocError, Global};
use std::thread::Threads;

// A round with a reader beside the workers: its seat is split off last, and joined first. All room is taken
// before the first claim.
fn watched_round<R: Threads + Sync, G: Gate>(
    rt: &R,
    floor: &Floor,
    crew: &mut Vec<Place>,
    spares: &mut Vec<Spare>,
    gathered: &mut Vec<Logged>,
    room: usize,
    job: &Job<G>,
    blank: Blank,
    seen: Seen,
) -> Result<Seen, AllocError>
    requires state { IsBetween floor.now room gathered.old.items crew.old.items spares.old.items }
    requires undrawn { total_of crew.old.items ≡ FIRST_ALLOWANCE }
    requires few { length spares.old.items < 64 }
    requires room { (1 ≤ room) × (room ≤ 65536) }
    requires job { job.now ≡ floor.now.market }
    requires pools { length floor.now.market.pools ≤ MAX_POOLS }
    requires spare_room { length spares.old.items ≤ vec_capacity spares.old }
    requires blank { (blank.pools ≡ length floor.now.market.pools) × (blank.room ≡ room) }
    requires long { AreLong floor.now.market seen }
    ensures state { IfOk result (λ _. IsBetween floor.now room gathered.new.items crew.new.items
        spares.new.items) }
    ensures seen { IfOk result (AreSeen floor.now.market) }
    ensures count { IfOk result (λ s. length s ≡ length seen) }
{
    gathered.reserve((spares.len() + 1) * room)?;
    let number = spares.len() as u32 + 1;
    split_all(floor, crew, spares, room)?;
    let seat = seat_reader(floor, crew, blank, room);
    let mut reader = Reader { seat, seen };
    work_and_watch(rt, floor, crew, &mut reader, job, number);
    let Reader { seat, seen } = reader;
    join_reader(floor, crew, seat);
    join_all(floor, crew, spares, gathered, room);
    Ok(seen)
}

// The looks of the first round, and the round with them, where there are looks.
pub fn watch_first<R: Threads + Sync, G: Gate>(
    rt: &R,
    alloc: Global,
    floor: &Floor,
    crew: &mut Vec<Place>,
    spares: &mut Vec<Spare>,
    gathered: &mut Vec<Logged>,
    room: usize,
    looks: u32,
    job: &Job<G>,
) -> Result<Seen, OutOfMemory>
    requires state { IsBetween floor.now room gathered.old.items crew.old.items spares.old.items }
    requires undrawn { total_of crew.old.items ≡ FIRST_ALLOWANCE }
    requires few { length spares.old.items < 64 }
    requires room { (1 ≤ room) × (room ≤ 65536) }
    requires job { job.now ≡ floor.now.market }
    requires pools { length floor.now.market.pools ≤ MAX_POOLS }
    ensures state { IfOk result (λ _. IsBetween floor.now room gathered.new.items crew.new.items
        spares.new.items) }
    ensures seen { IfOk result (AreSeen floor.now.market) }
    ensures count { IfOk result (λ s. length s ≡ looks) }
{
    let seen = Seen::new(alloc, floor.pools(), looks as usize)?;
    if looks == 0 {
        return Ok(seen);
    }
    let blank = Blank::new(alloc, job.instance, room)?;
    let seen = watched_round(rt, floor, crew, spares, gathered, room, job, blank, seen)?;
    Ok(seen)
}
