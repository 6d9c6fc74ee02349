ghost use Rattle.std.specs.Prelude.{◌≡◌, map, flat_map, IfOk, IfErr, OnOk, OnErr, IsErrOf};
ghost use Rattle.sl_io.specs.Shelf.{Files};
ghost use Rattle.sl_io.specs.Sink.{Takes, TakesPart, RoseIn, KeepsCount};
ghost use Rattle.sl_codes.specs.RecordText.{text_of_record, record_of};
ghost use Rattle.sl_run.specs.Words.{demo, no_inputs, AreApplicants, AreWorkers};
ghost use Rattle.sl_run.specs.Causes.{IsCause};
ghost use Rattle.sl_run.specs.Receipt.{done_with, IsOfFloor};
ghost use Rattle.sl_run.specs.Run.{Performs, LeavesOf};

use crate::failure::Failure;
use crate::outcome::outcome_of;
use crate::summary::summary_records;
use sl_codes::{Field, put_record};
use sl_desk::Gate;
use sl_floor::Receipt;
use sl_gen::generate_in_parallel;
use sl_io::{Sink, WriteError};
use std::alloc::Global;
use std::thread::Threads;

// Puts records one after another, up to the first error.
fn put_records<O: Sink>(
    alloc: Global,
    records: &[[Field; 4]],
    out: &mut O,
) -> Result<(), WriteError>
    ensures text { let text = flat_map text_of_record (map (λ r. record_of r) records.now) in
        OnOk result (Takes (O.output out.old) (O.output out.new) text) }
    ensures part { let text = flat_map text_of_record (map (λ r. record_of r) records.now) in
        OnErr result (TakesPart (O.output out.old) (O.output out.new) text) }
    ensures cause { IsErrOf result WriteError.Fault → RoseIn (O.output out.old) (O.output out.new) }
{
    for record in records {
        put_record(alloc, record, out)?;
    }
    Ok(())
}

/// Clears the generated round of so many applicants with so many workers, and puts its summary.
/// Answers the receipt of the floor.
pub fn demo_to<O: Sink, G: Gate>(
    rt: &(impl Threads + Sync),
    alloc: Global,
    applicants: u32,
    workers: u32,
    out: &mut O,
    gate: &G,
) -> Result<Receipt, Failure>
    requires applicants { AreApplicants applicants }
    requires workers { AreWorkers workers }
    ensures carried_out { (files : Files) → let command = demo applicants workers in
        let by = Performs files command (O.output out.old) (O.output out.new) in
        IfOk result (λ receipt. by (done_with receipt)) }
    ensures floor { IfOk result (IsOfFloor (demo applicants workers)) }
    ensures left { (files : Files) → let command = demo applicants workers in
        let same = out.new ≡ out.old in
        IfErr result (LeavesOf files command same (O.output out.old) (O.output out.new)) }
    ensures cause { (before : Files) (after : Files)
        → IfErr result (IsCause no_inputs before after) }
{
    let instance = generate_in_parallel(rt, alloc, applicants)?;
    let (doc, receipt) = outcome_of(rt, alloc, &instance, &[], workers, gate)?;
    match put_records(alloc, &summary_records(&instance, &doc), out) {
        Ok(()) => Ok(receipt),
        Err(error) => Err(Failure::from(error)),
    }
}
