ghost use Rattle.std.specs.Prelude.{◌≡◌, ◌≤◌, ◌<◌, ◌++◌, flat_map, IfOk};
ghost use Rattle.sl_gen.specs.Choices.{lists_between};

use crate::choices::choose;
use sl_pieces::make_by_pieces;
use sl_types::{ChoiceLists, MAX_APPLICANTS, MAX_PROGRAMMES};
use std::alloc::{AllocError, Global};
use std::thread::Threads;

// The lists of the applicants from `first` up to `end`.
fn lists_among(alloc: Global, progs: u32, first: u32, end: u32) -> Result<ChoiceLists, AllocError>
    requires some { 0 < progs }
    requires few { progs ≤ MAX_PROGRAMMES }
    requires order { first ≤ end }
    requires applicants { end ≤ MAX_APPLICANTS }
    ensures { IfOk result (λ lists. lists ≡ lists_between progs first end) }
{
    let applicants = (end - first) as usize;
    let mut lists = ChoiceLists::with_capacity(alloc, applicants, applicants * 4)?;
    let mut choices = Vec::new(alloc);
    for app in first..end {
        choose(&mut choices, progs, app)?;
        lists.push(choices.as_slice())?;
    }
    Ok(lists)
}

// The lists of so many applicants.
pub fn lists(alloc: Global, progs: u32, applicants: u32) -> Result<ChoiceLists, AllocError>
    requires some { 0 < progs }
    requires few { progs ≤ MAX_PROGRAMMES }
    requires applicants { applicants ≤ MAX_APPLICANTS }
    ensures { IfOk result (λ lists. lists ≡ lists_between progs 0 applicants) }
{
    lists_among(alloc, progs, 0, applicants)
}

// The lists of pieces, one after another.
fn join_lists(
    alloc: Global,
    applicants: u32,
    pieces: &[ChoiceLists],
) -> Result<ChoiceLists, AllocError>
    ensures { IfOk result (λ lists. lists ≡ flat_map (λ piece. piece) pieces.now) }
{
    let count = applicants as usize;
    let mut lists = ChoiceLists::with_capacity(alloc, count, count * 4)?;
    for piece in pieces {
        lists.append(piece)?;
    }
    Ok(lists)
}

// The lists of so many applicants, made by pieces of them in parallel.
pub fn lists_in_parallel(
    rt: &(impl Threads + Sync),
    alloc: Global,
    progs: u32,
    applicants: u32,
) -> Result<ChoiceLists, AllocError>
    requires some { 0 < progs }
    requires few { progs ≤ MAX_PROGRAMMES }
    requires applicants { applicants ≤ MAX_APPLICANTS }
    ensures { IfOk result (λ lists. lists ≡ lists_between progs 0 applicants) }
{
    let pieces = make_by_pieces(
        rt,
        alloc,
        applicants as usize,
        |first: usize, end: usize| -> Result<ChoiceLists, AllocError>
            requires { (first ≤ end) × (end ≤ MAX_APPLICANTS) × (0 < progs) × (progs ≤ MAX_PROGRAMMES) }
            ensures { IfOk result (λ lists. lists ≡ lists_between progs first end) }
        { lists_among(alloc, progs, first as u32, end as u32) },
    )?;
    join_lists(alloc, applicants, pieces.as_slice())
}
