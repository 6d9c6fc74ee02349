ghost use Rattle.std.specs.Prelude.{◌≡◌, ◌≤◌, [], All, length, map, IfOk, IfErr};
ghost use Rattle.sl_io.specs.Shelf.{KeepsFiles};
ghost use Rattle.sl_doc.specs.Document.{IsInRange};
ghost use Rattle.sl_run.specs.declared.words.TheConstants.{MAX_LOOKS};
ghost use Rattle.sl_run.specs.Words.{watch, tables_in, inputs_in, AreWorkers, AreLookCount};
ghost use Rattle.sl_run.specs.Causes.{IsCause};
ghost use Rattle.sl_run.specs.Receipt.{done_with, IsClearedOn, IsOfFloor};
ghost use Rattle.sl_run.specs.Result.{IsResultOf};
ghost use Rattle.sl_run.specs.Run.{Performs, LeavesOf, AreLooks};

use crate::failure::Failure;
use crate::files::read_tables;
use crate::looks::put_watched;
use crate::outcome::LOG_ROOM;
use crate::words::Tables;
use sl_admit::{admissions, counts};
use sl_contend::Contenders;
use sl_desk::Gate;
use sl_doc::Doc;
use sl_floor::Receipt;
use sl_instance::Named;
use sl_io::{Shelf, Sink};
use sl_team::{Cleared, clear};
use sl_types::{Instance, OutOfMemory};
use std::alloc::Global;
use std::thread::Threads;

// Clears an instance with so many workers and looks: its result, a limit for each pool that each look
// saw, and the receipt of the floor.
fn watched_of<G: Gate>(
    rt: &(impl Threads + Sync),
    alloc: Global,
    instance: &Instance,
    looks: u32,
    workers: u32,
    gate: &G,
) -> Result<(Doc, Vec<Vec<u32>>, Receipt), OutOfMemory>
    requires looks { AreLookCount looks }
    requires workers { AreWorkers workers }
    ensures result { IfOk result (λ w. IsResultOf instance.now w.0) }
    ensures looks { IfOk result
        (λ w. AreLooks looks w.0.limits (map (λ v. v.items) w.1.items)) }
    ensures receipt { IfOk result (λ w. IsClearedOn instance.now [] w.0 w.2) }
{
    let contenders = Contenders::new_in_parallel(rt, alloc, instance)?;
    let cleared = clear(
        rt,
        alloc,
        instance,
        &contenders,
        &[],
        workers,
        LOG_ROOM,
        looks,
        gate,
    )?;
    let Cleared {
        limits,
        raises,
        seen,
        receipt,
    } = cleared;
    let admitted = admissions(rt, alloc, instance, &limits)?;
    let counts = counts(alloc, instance, &admitted)?;
    let doc = Doc {
        limits,
        counts,
        admitted,
        raises,
    };
    Ok((doc, seen, receipt))
}

// The same of an instance with codes, in numbers that can be written.
fn watched_result<G: Gate>(
    rt: &(impl Threads + Sync),
    alloc: Global,
    named: &Named,
    looks: u32,
    workers: u32,
    gate: &G,
) -> Result<(Doc, Vec<Vec<u32>>, Receipt), OutOfMemory>
    requires looks { AreLookCount looks }
    requires workers { AreWorkers workers }
    ensures result { IfOk result (λ w. IsResultOf named.now.market w.0) }
    ensures looks { IfOk result
        (λ w. AreLooks looks w.0.limits (map (λ v. v.items) w.1.items)) }
    ensures receipt { IfOk result (λ w. IsClearedOn named.now.market [] w.0 w.2) }
    ensures in_range { IfOk result (λ w. IsInRange named.now w.0) }
    ensures few { IfOk result (λ w. length w.1.items ≤ MAX_LOOKS) }
    ensures long { let pools = length named.now.market.pools in IfOk result
        (λ w. All (λ look. length look ≡ pools) (map (λ v. v.items) w.1.items)) }
{
    let instance = named.instance();
    // An instance is well formed, and has few enough applicants.
    let (_pools, _applicants) = (instance.pools(), instance.applicants());
    watched_of(rt, alloc, instance, looks, workers, gate)
}

/// Reads the tables, clears with so many workers and looks, and puts what the looks saw and then the
/// result document. Answers the receipt of the floor.
pub fn watch_to<S: Shelf, O: Sink, G: Gate>(
    rt: &(impl Threads + Sync),
    alloc: Global,
    looks: u32,
    workers: u32,
    tables: Tables<'_>,
    shelf: &mut S,
    out: &mut O,
    gate: &G,
) -> Result<Receipt, Failure>
    requires looks { AreLookCount looks }
    requires workers { AreWorkers workers }
    ensures carried_out { let command = watch looks workers (tables_in tables.entry) in
        let by = Performs (S.files shelf.old) command (O.output out.old) (O.output out.new) in
        IfOk result (λ receipt. by (done_with receipt)) }
    ensures floor { IfOk result (IsOfFloor (watch looks workers (tables_in tables.entry))) }
    ensures left { let command = watch looks workers (tables_in tables.entry) in
        let same = out.new ≡ out.old in
        IfErr result
        (LeavesOf (S.files shelf.old) command same (O.output out.old) (O.output out.new)) }
    ensures cause { let inputs = inputs_in tables.entry in
        IfErr result (IsCause inputs (S.files shelf.old) (S.files shelf.new)) }
    ensures keeps { KeepsFiles (S.files shelf.old) (S.files shelf.new) }
{
    let named = read_tables(alloc, tables, shelf)?;
    let (doc, seen, receipt) = watched_result(rt, alloc, &named, looks, workers, gate)?;
    match put_watched(alloc, &named, tables.letter.rule(), &doc, &seen, out) {
        Ok(()) => Ok(receipt),
        Err(error) => Err(Failure::from(error)),
    }
}
