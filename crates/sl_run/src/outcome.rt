ghost use Rattle.std.specs.Prelude.{IfOk};
ghost use Rattle.sl_core.specs.Parts.{BeginsWith};
ghost use Rattle.sl_laws.specs.Raises.{Replays};
ghost use Rattle.sl_doc.specs.Document.{IsInRange};
ghost use Rattle.sl_run.specs.Receipt.{IsClearedOn};
ghost use Rattle.sl_run.specs.Result.{IsResultOf};
ghost use Rattle.sl_run.specs.Words.{AreWorkers};

use sl_admit::{admissions, counts};
use sl_contend::Contenders;
use sl_desk::Gate;
use sl_doc::Doc;
use sl_floor::Receipt;
use sl_instance::Named;
use sl_team::{Cleared, clear};
use sl_types::{Instance, OutOfMemory, Raise};
use std::alloc::Global;
use std::thread::Threads;

/// How many entries the log of a worker holds in a round.
pub const LOG_ROOM: usize = 65_536;

/// Clears an instance with so many workers, from kept raises: the least stable limits, raises that
/// begin with these and prove them, the admissions that they make, and the receipt of the floor.
pub fn outcome_of<G: Gate>(
    rt: &(impl Threads + Sync),
    alloc: Global,
    instance: &Instance,
    kept: &[Raise],
    workers: u32,
    gate: &G,
) -> Result<(Doc, Receipt), OutOfMemory>
    requires workers { AreWorkers workers }
    requires kept { Replays instance.now kept.now }
    ensures result { IfOk result (λ r. IsResultOf instance.now r.0) }
    ensures begins { IfOk result (λ r. BeginsWith kept.now r.0.raises) }
    ensures receipt { IfOk result (λ r. IsClearedOn instance.now kept.now r.0 r.1) }
{
    let contenders = Contenders::new_in_parallel(rt, alloc, instance)?;
    let cleared = clear(
        rt,
        alloc,
        instance,
        &contenders,
        kept,
        workers,
        LOG_ROOM,
        0,
        gate,
    )?;
    let Cleared {
        limits,
        raises,
        seen: _,
        receipt,
    } = cleared;
    let admitted = admissions(rt, alloc, instance, &limits)?;
    let counts = counts(alloc, instance, &admitted)?;
    let doc = Doc {
        limits,
        counts,
        admitted,
        raises,
    };
    Ok((doc, receipt))
}

/// The result of an instance, whose numbers are those of a document, and the receipt of the floor.
#[tactic(auto, using(crate::proofs::Ranges::result_in_range))]
pub fn result_of<G: Gate>(
    rt: &(impl Threads + Sync),
    alloc: Global,
    named: &Named,
    kept: &[Raise],
    workers: u32,
    gate: &G,
) -> Result<(Doc, Receipt), OutOfMemory>
    requires workers { AreWorkers workers }
    requires kept { Replays named.now.market kept.now }
    ensures result { IfOk result (λ r. IsResultOf named.now.market r.0) }
    ensures begins { IfOk result (λ r. BeginsWith kept.now r.0.raises) }
    ensures receipt { IfOk result (λ r. IsClearedOn named.now.market kept.now r.0 r.1) }
    ensures in_range { IfOk result (λ r. IsInRange named.now r.0) }
{
    let instance = named.instance();
    // An instance is well formed, and has few enough applicants.
    let (_pools, _applicants) = (instance.pools(), instance.applicants());
    outcome_of(rt, alloc, instance, kept, workers, gate)
}
