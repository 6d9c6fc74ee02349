// All seats become one, and their logs one list.
ghost use Rattle.std.specs.Prelude.{◌≡◌, ◌≤◌, ◌<◌, ◌+◌, ◌*◌, ◌∷◌, ◌++◌, ℕ, List, [], All, length};
ghost use Rattle.std.specs.Prelude.{set, slice_index_or, vec_capacity};
ghost use Rattle.sl_types.specs.declared.kinds.Logged.{Logged};
ghost use Rattle.sl_team.specs.Seats.{IsSpare, cleared};
ghost use Rattle.sl_team.specs.Crew.{AreAtRest, AreBack, HasJoined, first_memory};

use crate::crew::{Place, Spare};
use sl_floor::Floor;
use sl_types::Logged;

// Joins the last seat into the first, and puts its log after what was gathered.
fn join_last(
    floor: &Floor,
    crew: &mut Vec<Place>,
    spares: &mut Vec<Spare>,
    gathered: &mut Vec<Logged>,
    room: usize,
)
    requires two { 1 < length crew.old.items }
    requires crew { AreAtRest floor.now room crew.old.items }
    requires spares { All (IsSpare floor.now room) spares.old.items }
    requires spare_room { length spares.old.items + 1 ≤ vec_capacity spares.old }
    requires log_room { length gathered.old.items + room ≤ vec_capacity gathered.old }
    ensures joined { (more : List Logged) × HasJoined crew.old.items crew.new.items more
        × (gathered.new.items ≡ gathered.old.items ++ more) }
    ensures few { length gathered.new.items ≤ length gathered.old.items + room }
    ensures spares { All (IsSpare floor.now room) spares.new.items }
    ensures count { length spares.new.items ≡ length spares.old.items + 1 }
    ensures spare_capacity { vec_capacity spares.old ≤ vec_capacity spares.new }
    ensures log_capacity { vec_capacity gathered.old ≤ vec_capacity gathered.new }
{
    let Some(place) = crew.pop() else {
        return;
    };
    let Place { mut seat, desk } = place;
    gathered.extend_from_slice(seat.log()).unwrap();
    floor.clear_log(&mut seat);
    let blank = floor.join(&mut crew[0].seat, seat);
    spares.push(Spare { blank, desk }).unwrap();
}

// Moves the log of the first seat after what was gathered.
fn empty_first(floor: &Floor, crew: &mut Vec<Place>, gathered: &mut Vec<Logged>, room: usize)
    requires some { 0 < length crew.old.items }
    requires crew { AreAtRest floor.now room crew.old.items }
    requires log_room { length gathered.old.items + room ≤ vec_capacity gathered.old }
    ensures gathered { gathered.new.items ≡ gathered.old.items ++ first_memory crew.old.items }
    ensures few { length gathered.new.items ≤ length gathered.old.items + room }
    ensures crew { (d : _) → crew.new.items
        ≡ set crew.old.items 0 (cleared (slice_index_or crew.old.items 0 d)) }
    ensures log_capacity { vec_capacity gathered.old ≤ vec_capacity gathered.new }
{
    let first = &mut crew[0];
    gathered.extend_from_slice(first.seat.log()).unwrap();
    floor.clear_log(&mut first.seat);
}

// Joins all seats into the first, and gathers their logs in the order of the joins. There is room for them.
pub fn join_all(
    floor: &Floor,
    crew: &mut Vec<Place>,
    spares: &mut Vec<Spare>,
    gathered: &mut Vec<Logged>,
    room: usize,
)
    requires some { 0 < length crew.old.items }
    requires crew { AreAtRest floor.now room crew.old.items }
    requires spares { All (IsSpare floor.now room) spares.old.items }
    requires spare_room { length spares.old.items + length crew.old.items
        ≤ vec_capacity spares.old + 1 }
    requires log_room { length gathered.old.items + length crew.old.items * room
        ≤ vec_capacity gathered.old }
    ensures one { length crew.new.items ≡ 1 }
    ensures memory { first_memory crew.new.items ≡ [] }
    ensures spares { All (IsSpare floor.now room) spares.new.items }
    ensures count { length spares.new.items + 1 ≡ length spares.old.items + length crew.old.items }
    ensures team { (known : List ℕ) (before : List Logged) (total : ℕ)
        → AreBack floor.now room known (before ++ gathered.old.items) total crew.old.items
        → AreBack floor.now room known (before ++ gathered.new.items) total crew.new.items }
    ensures spare_capacity { vec_capacity spares.old ≤ vec_capacity spares.new }
{
    empty_first(floor, crew, gathered, room);
    for _ in 1..crew.len() {
        join_last(floor, crew, spares, gathered, room);
    }
}
