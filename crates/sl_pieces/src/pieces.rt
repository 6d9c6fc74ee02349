ghost use Rattle.std.specs.Prelude.{◌≡◌, ◌+◌, ◌≤◌, ◌<◌, ◌^◌, IfOk};
ghost use Rattle.sl_pieces.specs.Pieces.{piece_start, AcceptsRanges, AreMade};

use rayon::prelude::*;
use std::alloc::{AllocError, Global};
use std::thread::Threads;

/// How many pieces a range is cut into.
pub const PIECES: usize = 32;

// Where a piece of so many numbers begins. The pieces are as long as can be alike.
fn piece_start(count: usize, piece: usize) -> usize
    requires few { count < 2 ^ 32 }
    requires piece { piece ≤ PIECES }
    ensures { result ≡ piece_start count piece }
{
    piece * count / PIECES
}

/// What is made for each piece of the numbers from 0 up to `count`, in order. A piece is given by its first
/// number and its end.
pub fn make_by_pieces<
    T: Drop + Send,
    F: Fn(usize, usize) -> Result<T, AllocError> + Copy + Send + Sync,
>(rt: &(impl Threads + Sync), alloc: Global, count: usize, make: F) -> Result<Vec<T>, AllocError>
    requires few { count < 2 ^ 32 }
    requires accepts { AcceptsRanges (F.pre make) count }
    ensures { IfOk result (λ v. AreMade (λ i j r. F.post make i j r) count v.items) }
{
    (0..PIECES)
        .into_par_iter()
        .with_min_len(1)
        .map(
            |piece: usize| -> Result<T, AllocError>
                requires { (piece < PIECES) × (count < 2 ^ 32) × AcceptsRanges (F.pre make) count }
                ensures { F.post make (piece_start count piece) (piece_start count (piece + 1)) result }
            { make(piece_start(count, piece), piece_start(count, piece + 1)) },
        )
        .collect::<Result<Vec<T>, AllocError>>(rt, alloc)?
}
