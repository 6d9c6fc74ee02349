ghost use Rattle.std.specs.Prelude.{◌≡◌, IfOk, IfErr};
ghost use Rattle.sl_io.specs.Shelf.{KeepsFiles};
ghost use Rattle.sl_run.specs.Words.{clear, tables_in, inputs_in, AreWorkers};
ghost use Rattle.sl_run.specs.Causes.{IsCause};
ghost use Rattle.sl_run.specs.Receipt.{done_with, IsOfFloor};
ghost use Rattle.sl_run.specs.Run.{Performs, LeavesOf};

use crate::failure::Failure;
use crate::files::read_tables;
use crate::outcome::result_of;
use crate::words::Tables;
use sl_desk::Gate;
use sl_doc::doc_text;
use sl_floor::Receipt;
use sl_io::{Shelf, Sink};
use std::alloc::Global;
use std::thread::Threads;

/// Reads the tables, clears with so many workers, and puts the result document. Answers the receipt
/// of the floor.
pub fn clear_to<S: Shelf, O: Sink, G: Gate>(
    rt: &(impl Threads + Sync),
    alloc: Global,
    workers: u32,
    tables: Tables<'_>,
    shelf: &mut S,
    out: &mut O,
    gate: &G,
) -> Result<Receipt, Failure>
    requires { AreWorkers workers }
    ensures carried_out { let command = clear workers (tables_in tables.entry) in
        let by = Performs (S.files shelf.old) command (O.output out.old) (O.output out.new) in
        IfOk result (λ receipt. by (done_with receipt)) }
    ensures floor { IfOk result (IsOfFloor (clear workers (tables_in tables.entry))) }
    ensures left { let command = clear workers (tables_in tables.entry) in
        let same = out.new ≡ out.old in
        IfErr result
        (LeavesOf (S.files shelf.old) command same (O.output out.old) (O.output out.new)) }
    ensures cause { let inputs = inputs_in tables.entry in
        IfErr result (IsCause inputs (S.files shelf.old) (S.files shelf.new)) }
    ensures keeps { KeepsFiles (S.files shelf.old) (S.files shelf.new) }
{
    let named = read_tables(alloc, tables, shelf)?;
    let (doc, receipt) = result_of(rt, alloc, &named, &[], workers, gate)?;
    match doc_text(alloc, &named, tables.letter.rule(), &doc, out) {
        Ok(()) => Ok(receipt),
        Err(error) => Err(Failure::from(error)),
    }
}
