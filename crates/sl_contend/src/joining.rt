// Rows that were made for pieces of a range, joined row by row.
ghost use Rattle.std.specs.Prelude.{◌≡◌, ◌<◌, ◌^◌, ◌++◌, ◌∷◌, [], All, length, IfOk, OnOk};
ghost use Rattle.sl_contend.specs.Pieces.{joined, HoldJoined};
ghost use Rattle.sl_contend.specs.Rows.{AreCut, ArePacked};

use crate::rows::{Rows, row};
use sl_types::PoolId;
use std::alloc::{AllocError, Global};

// Room for the items of all pieces. It is a hint alone: no more items than memory holds are joined.
fn room<T>(pieces: &[Rows<T>]) -> usize {
    let mut room = 0_usize;
    for piece in pieces {
        room = room.saturating_add(piece.items.len());
    }
    room
}

// Adds a pool's row of each piece at the end of the items, and where the next row begins.
fn add_row<T: Copy>(
    rows: &mut Rows<T>,
    count: usize,
    pieces: &[Rows<T>],
    pool: PoolId,
) -> Result<(), AllocError>
    requires cut { All (AreCut count) pieces.now }
    requires within { pool.0 < count }
    ensures items { OnOk result
        (rows.new.items.items ≡ rows.old.items.items ++ joined pieces.now pool.0) }
    ensures starts { OnOk result
        (rows.new.starts.items ≡ rows.old.starts.items ++ length rows.new.items.items ∷ []) }
{
    for piece in pieces {
        rows.items.extend_from_slice(row(piece, count, pool))?;
    }
    rows.starts.push(rows.items.len())?;
    Ok(())
}

// For each pool in turn its rows of all pieces, one after another.
pub fn join_rows<T: Copy>(
    alloc: Global,
    count: usize,
    pieces: &[Rows<T>],
) -> Result<Rows<T>, AllocError>
    requires few { count < 2 ^ 32 }
    requires cut { All (AreCut count) pieces.now }
    ensures cut { IfOk result (AreCut count) }
    ensures packed { IfOk result (λ rows. ArePacked count rows.items.items rows.starts.items) }
    ensures rows { IfOk result (HoldJoined count pieces.now) }
{
    let items = Vec::with_capacity(alloc, room(pieces))?;
    let starts = Vec::with_capacity(alloc, count + 1)?;
    let mut rows = Rows { items, starts };
    rows.starts.push(0)?;
    for number in 0..count {
        add_row(&mut rows, count, pieces, PoolId(number as u32))?;
    }
    Ok(rows)
}
