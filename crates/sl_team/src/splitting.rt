// One seat becomes one for each worker: each seat of a level is split once.
ghost use Rattle.std.specs.Prelude.{◌≡◌, ◌≤◌, ◌<◌, ◌+◌, ◌*◌, ◌⊎◌, ◌/◌, ℕ, false, List, All, length, vec_capacity, OnOk};
ghost use Rattle.std.specs.List.{HoldsAt};
ghost use Rattle.sl_floor.specs.declared.shares.TheConstants.{WHOLE_SHARE};
ghost use Rattle.sl_team.specs.Seats.{CanSplit, HasAtLeast, IsSpare};
ghost use Rattle.sl_team.specs.Crew.{IsFreshTeam, IsSplitAt, total_of};
ghost use Rattle.sl_team.specs.Rounds.{halved};

use crate::crew::{Place, Spare};
use sl_floor::Floor;
use std::alloc::AllocError;

// Levels of splits: enough for 128 seats.
const LEVELS: usize = 7;

// Splits the seat at a place.
fn split_at(
    floor: &Floor,
    crew: &mut Vec<Place>,
    spare: Spare,
    at: usize,
    room: usize,
) -> Result<(), AllocError>
    requires within { at < length crew.old.items }
    requires seat { HoldsAt (CanSplit floor.now) crew.old.items at }
    requires spare { IsSpare floor.now room spare }
    ensures { OnOk result (IsSplitAt room at false crew.old.items crew.new.items) }
{
    let Spare { blank, desk } = spare;
    let seat = floor.split(&mut crew[at].seat, blank, false);
    crew.push(Place { seat, desk })?;
    Ok(())
}

// Splits each seat once, while there are spares.
fn split_each(
    floor: &Floor,
    crew: &mut Vec<Place>,
    spares: &mut Vec<Spare>,
    room: usize,
) -> Result<(), AllocError>
    requires crew { IsFreshTeam floor.now room crew.old.items crew.old.items }
    requires shares { All (HasAtLeast 2 0) crew.old.items }
    requires spares { All (IsSpare floor.now room) spares.old.items }
    ensures crew { OnOk result (IsFreshTeam floor.now room crew.old.items crew.new.items) }
    ensures spares { OnOk result (All (IsSpare floor.now room) spares.new.items) }
    ensures count { OnOk result (length crew.new.items + length spares.new.items
        ≡ length crew.old.items + length spares.old.items) }
    ensures grown { OnOk result ((length spares.new.items ≡ 0)
        ⊎ (2 * length crew.old.items ≤ length crew.new.items)) }
    ensures halves { OnOk result ((share allowance : ℕ)
        → All (HasAtLeast share allowance) crew.old.items
        → All (HasAtLeast (share / 2) (allowance / 2)) crew.new.items) }
    ensures capacity { vec_capacity spares.new ≡ vec_capacity spares.old }
{
    for at in 0..crew.len() {
        let Some(spare) = spares.pop() else {
            return Ok(());
        };
        split_at(floor, crew, spare, at, room)?;
    }
    Ok(())
}

// Splits the first seat until no spare is left.
pub fn split_all(
    floor: &Floor,
    crew: &mut Vec<Place>,
    spares: &mut Vec<Spare>,
    room: usize,
) -> Result<(), AllocError>
    requires crew { IsFreshTeam floor.now room crew.old.items crew.old.items }
    requires one { length crew.old.items ≡ 1 }
    requires spares { All (IsSpare floor.now room) spares.old.items }
    requires few { length spares.old.items < 128 }
    ensures crew { OnOk result (IsFreshTeam floor.now room crew.old.items crew.new.items) }
    ensures count { OnOk result (length crew.new.items ≡ 1 + length spares.old.items) }
    ensures spares { OnOk result (length spares.new.items ≡ 0) }
    ensures allowances { OnOk result (All (HasAtLeast (halved 7 WHOLE_SHARE)
        (halved 7 (total_of crew.old.items))) crew.new.items) }
    ensures capacity { vec_capacity spares.new ≡ vec_capacity spares.old }
{
    for _ in 0..LEVELS {
        split_each(floor, crew, spares, room)?;
    }
    Ok(())
}
