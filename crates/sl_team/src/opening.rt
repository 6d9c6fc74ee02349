// The workers of a team, before the first round.
ghost use Rattle.std.specs.Prelude.{◌≡◌, ◌≤◌, ◌+◌, ◌∷◌, [], All, length, IfOk};
ghost use Rattle.sl_contend.specs.Contention.{contention_of};
ghost use Rattle.sl_floor.specs.Floor.{FloorValue};
ghost use Rattle.sl_desk.specs.Desks.{IsFor};
ghost use Rattle.sl_team.specs.Seats.{IsSpare};

use crate::crew::{Place, Spare};
use sl_contend::Contenders;
use sl_desk::Desk;
use sl_floor::{Blank, Seat};
use sl_types::{Instance, OutOfMemory};
use std::alloc::Global;

// The workers beside the first, each with its desk and the memory of a seat.
pub fn spares_for(
    alloc: Global,
    instance: &Instance,
    contenders: &Contenders,
    workers: u32,
    room: usize,
) -> Result<Vec<Spare>, OutOfMemory>
    requires contenders { contenders.now ≡ contention_of instance.now }
    requires workers { (1 ≤ workers) × (workers ≤ 64) }
    requires room { (1 ≤ room) × (room ≤ 65536) }
    ensures count { IfOk result (λ v. length v.items + 1 ≡ workers) }
    ensures spares { IfOk result (λ v. (floor : FloorValue) → floor.market ≡ instance.now
        → All (IsSpare floor room) v.items) }
{
    let mut spares = Vec::with_capacity(alloc, workers as usize)?;
    for worker in 1..workers {
        let blank = Blank::new(alloc, instance, room)?;
        let desk = Desk::new(alloc, instance, contenders, worker, workers)?;
        spares.push(Spare { blank, desk }).unwrap();
    }
    Ok(spares)
}

// The first worker at its seat.
pub fn crew_of(alloc: Global, seat: Seat, desk: Desk) -> Result<Vec<Place>, OutOfMemory>
    requires { IsFor seat.view.market desk }
    ensures { IfOk result (λ v. v.items ≡ seat ∷ []) }
{
    let mut crew = Vec::with_capacity(alloc, 1)?;
    crew.push(Place { seat, desk }).unwrap();
    Ok(crew)
}
