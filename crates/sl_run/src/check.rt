ghost use Rattle.std.specs.Prelude.{◌≡◌, ◌<◌, ◌^◌, true, length, IfOk, IfErr};
ghost use Rattle.sl_io.specs.Shelf.{KeepsFiles};
ghost use Rattle.sl_check.specs.Verdict.{IsVerdict};
ghost use Rattle.sl_doc.specs.Document.{IsInRange};
ghost use Rattle.sl_doc.specs.VerdictText.{NamesWithin};
ghost use Rattle.sl_run.specs.Words.{check, inputs_of, letter_rule, tables_in};
ghost use Rattle.sl_run.specs.Accepted.{IsTold, AreReadAs};
ghost use Rattle.sl_run.specs.Causes.{IsCause};
ghost use Rattle.sl_run.specs.Ending.{CanEnd, ending_in, status_of_verdict};
ghost use Rattle.sl_run.specs.Receipt.{done_without};
ghost use Rattle.sl_run.specs.Run.{IsJudged, Performs, LeavesOf, is_of_files};

use crate::documents::read_document;
use crate::failure::Failure;
use crate::words::Tables;
use sl_check::{Verdict, check};
use sl_contend::Contenders;
use sl_doc::{Doc, verdict_text};
use sl_instance::Named;
use sl_io::{Shelf, Sink};
use sl_nested::Mixed;
use sl_types::OutOfMemory;
use std::alloc::Global;

/// The verdict on a document of an instance.
pub fn verdict_on(alloc: Global, named: &Named, doc: &Doc) -> Result<Verdict, OutOfMemory>
    requires in_range { IsInRange named.now doc.now }
    requires few { length doc.now.raises < 2 ^ 32 }
    ensures verdict { let d = doc.now in
        IfOk result (IsVerdict named.now.market d.raises d.limits d.admitted d.counts) }
    ensures within { IfOk result (NamesWithin named.now) }
{
    let instance = named.instance();
    let contenders = Contenders::new(alloc, instance)?;
    check(
        alloc,
        &Mixed,
        instance,
        &contenders,
        &doc.raises,
        &doc.limits,
        &doc.admitted,
        &doc.counts,
    )
}

// The verdict on a document that a file holds, over the tables that three files hold.
fn judge<S: Shelf>(
    alloc: Global,
    tables: Tables<'_>,
    document: &str,
    shelf: &mut S,
) -> Result<(Named, Verdict), Failure>
    ensures held { let inputs = inputs_of (check (tables_in tables.entry) document.now) in
        IfOk result (λ r. AreReadAs (S.files shelf.old) inputs r.0) }
    ensures judged { let rule = letter_rule tables.entry.letter in
        let judged = IsJudged (S.files shelf.old) rule document.now in
        IfOk result (λ r. IsTold (S.files shelf.old) → judged r.0 r.1) }
    ensures within { IfOk result (λ r. NamesWithin r.0 r.1) }
    ensures cause { let inputs = inputs_of (check (tables_in tables.entry) document.now) in
        IfErr result (IsCause inputs (S.files shelf.old) (S.files shelf.new)) }
    ensures late { IfErr result (λ failure. is_of_files failure ≡ true) }
    ensures keeps { KeepsFiles (S.files shelf.old) (S.files shelf.new) }
{
    let (named, doc) = read_document(alloc, tables, document, shelf)?;
    match verdict_on(alloc, &named, &doc) {
        Ok(verdict) => Ok((named, verdict)),
        Err(_) => Err(Failure::OutOfMemory),
    }
}

// The status with which a check ends.
fn verdict_status(verdict: Verdict) -> u8
    ensures { result ≡ status_of_verdict verdict }
{
    match verdict {
        Verdict::Yes => 0,
        _ => 1,
    }
}

/// Puts the verdict on a document. Answers the status.
pub fn check_to<S: Shelf, O: Sink>(
    alloc: Global,
    tables: Tables<'_>,
    document: &str,
    shelf: &mut S,
    out: &mut O,
) -> Result<u8, Failure>
    ensures carried_out { let command = check (tables_in tables.entry) document.now in
        let by = Performs (S.files shelf.old) command (O.output out.old) (O.output out.new) in
        IfOk result (λ status. by (done_without status)) }
    ensures done { let command = check (tables_in tables.entry) document.now in
        IfOk result (λ status. CanEnd command (ending_in (done_without status))) }
    ensures left { let command = check (tables_in tables.entry) document.now in
        let same = out.new ≡ out.old in
        IfErr result
        (LeavesOf (S.files shelf.old) command same (O.output out.old) (O.output out.new)) }
    ensures cause { let inputs = inputs_of (check (tables_in tables.entry) document.now) in
        IfErr result (IsCause inputs (S.files shelf.old) (S.files shelf.new)) }
    ensures keeps { KeepsFiles (S.files shelf.old) (S.files shelf.new) }
{
    let (named, verdict) = judge(alloc, tables, document, shelf)?;
    match verdict_text(alloc, &named, &verdict, out) {
        Ok(()) => Ok(verdict_status(verdict)),
        Err(error) => Err(Failure::from(error)),
    }
}
