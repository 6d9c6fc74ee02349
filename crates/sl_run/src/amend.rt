ghost use Rattle.std.specs.Prelude.{◌≡◌, ◌<◌, ◌^◌, None, length, is_some, true, IfOk, IfErr, IfSome};
ghost use Rattle.sl_io.specs.Shelf.{KeepsFiles};
ghost use Rattle.sl_io.specs.Sink.{Takes};
ghost use Rattle.sl_floor.specs.Ending.{IsWholeLog};
ghost use Rattle.sl_doc.specs.Document.{IsInRange};
ghost use Rattle.sl_doc.specs.VerdictText.{NamesWithin};
ghost use Rattle.sl_run.specs.Words.{amend, inputs_of, letter_rule, tables_in, AreWorkers};
ghost use Rattle.sl_run.specs.Causes.{IsCause};
ghost use Rattle.sl_run.specs.Ending.{CanEnd, ending_in, unproved, unproved_line};
ghost use Rattle.sl_run.specs.Receipt.{AnswersReceipt, IsOfFloor};
ghost use Rattle.sl_run.specs.Run.{Performs, LeavesOf, Leaves, Concludes, ConcludesPart};
ghost use Rattle.sl_run.specs.Run.{is_of_output};

use crate::amendments::dismiss;
use crate::check::verdict_on;
use crate::done::Done;
use crate::failure::Failure;
use crate::letter::Letter;
use crate::rework::rework_to;
use crate::round::{Round, read_round};
use crate::words::Tables;
use sl_amend::Amendments;
use sl_check::Verdict;
use sl_codes::push_record;
use sl_desk::Gate;
use sl_doc::{Doc, verdict_fields};
use sl_instance::Named;
use sl_io::{Shelf, Sink};
use sl_types::OutOfMemory;
use std::alloc::Global;
use std::thread::Threads;

// The line on a document that isn't proved.
fn unproved_line(alloc: Global, named: &Named, verdict: &Verdict) -> Result<Vec<u8>, OutOfMemory>
    requires { NamesWithin named.now verdict.now }
    ensures { IfOk result (λ line. line.items ≡ unproved_line named.now verdict.now) }
{
    let mut line = Vec::new(alloc);
    line.extend_from_slice(b"result: ")?;
    push_record(&mut line, &verdict_fields(named, verdict))?;
    Ok(line)
}

// How an amendment ends whose old document has this verdict, which isn't Yes.
fn unproved(alloc: Global, named: &Named, verdict: &Verdict) -> Result<Done, OutOfMemory>
    requires { NamesWithin named.now verdict.now }
    ensures line { IfOk result (λ done. ending_in done ≡ unproved named.now verdict.now) }
    ensures receipt { IfOk result (λ done. done.receipt ≡ None) }
{
    let line = unproved_line(alloc, named, verdict)?;
    Ok(Done {
        status: 1,
        line: Some(line),
        receipt: None,
    })
}

// Concludes a round with amendments, by the verdict on its document.
fn conclude_round<O: Sink, G: Gate>(
    rt: &(impl Threads + Sync),
    alloc: Global,
    named: &Named,
    doc: &Doc,
    amendments: Amendments,
    letter: Letter,
    workers: u32,
    out: &mut O,
    gate: &G,
) -> Result<Done, Failure>
    requires workers { AreWorkers workers }
    requires same { amendments.named ≡ named.now }
    requires in_range { IsInRange named.now doc.now }
    requires few { length doc.now.raises < 2 ^ 32 }
    ensures concluded { let by = Concludes (letter_rule letter) named.now amendments.rows doc.now in
        IfOk result (by (Takes (O.output out.old) (O.output out.new))) }
    ensures whole { IfOk result (λ done. IfSome done.receipt IsWholeLog) }
    ensures unproved { IfOk result (λ done. is_some done.line ≡ true → out.new ≡ out.old) }
    ensures left { let of = ConcludesPart (letter_rule letter) named.now amendments.rows doc.now in
        let part = of (O.output out.old) (O.output out.new) in
        IfErr result (Leaves (out.new ≡ out.old) part (O.output out.old) (O.output out.new)) }
    ensures late { IfErr result (λ failure. is_of_output failure ≡ true) }
{
    match verdict_on(alloc, named, doc) {
        Ok(Verdict::Yes) => {
            let raises = &doc.raises;
            match rework_to(
                rt, alloc, named, amendments, raises, letter, workers, out, gate,
            ) {
                Ok(receipt) => Ok(Done::with_receipt(receipt)),
                Err(failure) => Err(failure),
            }
        }
        Ok(verdict) => {
            dismiss(amendments);
            match unproved(alloc, named, &verdict) {
                Ok(done) => Ok(done),
                Err(_) => Err(Failure::OutOfMemory),
            }
        }
        Err(_) => {
            dismiss(amendments);
            Err(Failure::OutOfMemory)
        }
    }
}

/// Reads a published round and its amendments, and where the old document is proved clears the
/// amended instance from the raises that are kept, and puts its result document.
pub fn amend_to<S: Shelf, O: Sink, G: Gate>(
    rt: &(impl Threads + Sync),
    alloc: Global,
    workers: u32,
    tables: Tables<'_>,
    document: &str,
    amendments: &str,
    shelf: &mut S,
    out: &mut O,
    gate: &G,
) -> Result<Done, Failure>
    requires { AreWorkers workers }
    ensures carried_out { let command = amend workers (tables_in tables.entry) document.now amendments.now in
        IfOk result (Performs (S.files shelf.old) command (O.output out.old) (O.output out.new)) }
    ensures done { let command = amend workers (tables_in tables.entry) document.now amendments.now in
        IfOk result (λ done. CanEnd command (ending_in done)) }
    ensures receipt { let command = amend workers (tables_in tables.entry) document.now amendments.now in
        IfOk result (λ done. AnswersReceipt command done.status done.receipt) }
    ensures floor { let command = amend workers (tables_in tables.entry) document.now amendments.now in
        IfOk result (λ done. IfSome done.receipt (IsOfFloor command)) }
    ensures unproved { IfOk result (λ done. is_some done.line ≡ true → out.new ≡ out.old) }
    ensures left { let command = amend workers (tables_in tables.entry) document.now amendments.now in
        let same = out.new ≡ out.old in
        IfErr result
        (LeavesOf (S.files shelf.old) command same (O.output out.old) (O.output out.new)) }
    ensures cause { let command = amend workers (tables_in tables.entry) document.now amendments.now in
        IfErr result (IsCause (inputs_of command) (S.files shelf.old) (S.files shelf.new)) }
    ensures keeps { KeepsFiles (S.files shelf.old) (S.files shelf.new) }
{
    let Round {
        named,
        doc,
        amendments,
    } = read_round(alloc, tables, document, amendments, shelf)?;
    conclude_round(
        rt,
        alloc,
        &named,
        &doc,
        amendments,
        tables.letter,
        workers,
        out,
        gate,
    )
}
