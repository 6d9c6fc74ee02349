ghost use Rattle.std.specs.Prelude.{◌≡◌, true, Some, IfOk, IfErr};
ghost use Rattle.sl_io.specs.Sink.{Takes};
ghost use Rattle.sl_types.specs.Valid.{IsValid};
ghost use Rattle.sl_laws.specs.Raises.{Replays};
ghost use Rattle.sl_core.specs.Parts.{BeginsWith};
ghost use Rattle.sl_instance.specs.NamedMarket.{IsNamed};
ghost use Rattle.sl_doc.specs.Document.{IsInRange};
ghost use Rattle.sl_run.specs.Words.{letter_rule, AreWorkers};
ghost use Rattle.sl_floor.specs.Ending.{IsWholeLog};
ghost use Rattle.sl_run.specs.Receipt.{IsClearedOn};
ghost use Rattle.sl_run.specs.Result.{IsResultOf};
ghost use Rattle.sl_run.specs.Run.{ReworksTo, ReworksPart, Leaves};
ghost use Rattle.sl_run.specs.Run.{amended_by, kept_of, is_of_output};

use crate::amendments::dismiss;
use crate::failure::Failure;
use crate::letter::Letter;
use crate::outcome::result_of;
use sl_amend::{Amendments, amend};
use sl_desk::Gate;
use sl_doc::{Doc, doc_text};
use sl_floor::Receipt;
use sl_instance::Named;
use sl_io::Sink;
use sl_types::{OutOfMemory, Raise};
use std::alloc::Global;
use std::thread::Threads;

/// An amended instance, its result, and the receipt of the floor on which it was cleared.
#[derive(Drop)]
struct Reworked {
    named: Named,
    doc: Doc,
    receipt: Receipt,
}

// The amended instance, and the raises that are kept. It drops the amendments.
fn amend_by(
    alloc: Global,
    named: &Named,
    amendments: Amendments,
    raises: &[Raise],
) -> Result<(Named, Vec<Raise>), OutOfMemory>
    requires same { amendments.named ≡ named.now }
    requires replays { Replays named.now.market raises.now }
    ensures amended { IfOk result (λ r. r.0 ≡ amended_by named.now amendments.rows) }
    ensures kept { IfOk result (λ r. r.1.items ≡ kept_of named.now amendments.rows raises.now) }
    ensures replays { IfOk result (λ r. Replays r.0.market r.1.items) }
{
    let amended = amend(alloc, named, &amendments, raises);
    dismiss(amendments);
    amended
}

// Amends an instance, and clears it from the raises that are kept.
fn rework<G: Gate>(
    rt: &(impl Threads + Sync),
    alloc: Global,
    named: &Named,
    amendments: Amendments,
    raises: &[Raise],
    workers: u32,
    gate: &G,
) -> Result<Reworked, OutOfMemory>
    requires workers { AreWorkers workers }
    requires same { amendments.named ≡ named.now }
    requires replays { Replays named.now.market raises.now }
    ensures named { IfOk result (λ r. r.named ≡ amended_by named.now amendments.rows) }
    ensures valid { IfOk result (λ r. IsValid r.named.market) }
    ensures coded { IfOk result (λ r. IsNamed r.named) }
    ensures result { IfOk result (λ r. IsResultOf r.named.market r.doc) }
    ensures begins { let kept = kept_of named.now amendments.rows raises.now in
        IfOk result (λ r. BeginsWith kept r.doc.raises) }
    ensures receipt { let kept = kept_of named.now amendments.rows raises.now in
        IfOk result (λ r. IsClearedOn r.named.market kept r.doc r.receipt) }
    ensures in_range { IfOk result (λ r. IsInRange r.named r.doc) }
{
    let (named, kept) = amend_by(alloc, named, amendments, raises)?;
    // An instance is valid, and its codes are codes.
    let _pools = named.instance().pools();
    let (doc, receipt) = result_of(rt, alloc, &named, &kept, workers, gate)?;
    Ok(Reworked {
        named,
        doc,
        receipt,
    })
}

/// Amends an instance, clears it from the raises that are kept, and puts the result document.
/// Answers the receipt of the floor.
pub fn rework_to<O: Sink, G: Gate>(
    rt: &(impl Threads + Sync),
    alloc: Global,
    named: &Named,
    amendments: Amendments,
    raises: &[Raise],
    letter: Letter,
    workers: u32,
    out: &mut O,
    gate: &G,
) -> Result<Receipt, Failure>
    requires workers { AreWorkers workers }
    requires same { amendments.named ≡ named.now }
    requires replays { Replays named.now.market raises.now }
    ensures reworks { let takes = Takes (O.output out.old) (O.output out.new) in
        let to = ReworksTo (letter_rule letter) named.now amendments.rows raises.now in
        IfOk result (λ receipt. to (Some receipt) takes) }
    ensures left { let of = ReworksPart (letter_rule letter) named.now amendments.rows in
        let part = of raises.now (O.output out.old) (O.output out.new) in
        IfErr result (Leaves (out.new ≡ out.old) part (O.output out.old) (O.output out.new)) }
    ensures late { IfErr result (λ failure. is_of_output failure ≡ true) }
    ensures whole { IfOk result IsWholeLog }
{
    let reworked = rework(rt, alloc, named, amendments, raises, workers, gate)?;
    let written = doc_text(alloc, &reworked.named, letter.rule(), &reworked.doc, out);
    match written {
        Ok(()) => Ok(reworked.receipt),
        Err(error) => Err(Failure::from(error)),
    }
}
