ghost use Rattle.std.specs.Prelude.{◌≡◌, ◌⊎◌, ◌↔◌, [], true, is_some, IfOk, IfErr, IfSome, IsErrOf};
ghost use Rattle.sl_io.specs.Shelf.{KeepsFiles};
ghost use Rattle.sl_io.specs.Sink.{RoseIn};
ghost use Rattle.sl_run.specs.Words.{texts_of, command_in, inputs_of, HasRanges};
ghost use Rattle.sl_run.specs.Words.{AreNoCommand, IsAmend, IsDemo, IsJudging};
ghost use Rattle.sl_run.specs.Causes.{IsCause, IsCauseOf, Refuses, Completes};
ghost use Rattle.sl_run.specs.Ending.{CanEnd, IsEnding, EndsWith, ending_in};
ghost use Rattle.sl_run.specs.Receipt.{AnswersReceipt, AnswerReceipt, IsOfFloor, IsOfFloorFor};
ghost use Rattle.sl_run.specs.Run.{Performs, LeavesOf, CarriesOut, BreaksOff};
ghost use Rattle.sl_run.specs.Run.{CanEndBy, Ends, Leaves};

use crate::amend::amend_to;
use crate::check::check_to;
use crate::clear::clear_to;
use crate::demo::demo_to;
use crate::done::Done;
use crate::ended::Ended;
use crate::failure::{Failure, put_line, report};
use crate::table::table_to;
use crate::watch::watch_to;
use crate::words::Command;
use sl_desk::Gate;
use sl_io::{Shelf, Sink};
use std::alloc::Global;
use std::thread::Threads;

// Carries out a command. Answers how it ended.
fn carry_out<S: Shelf, O: Sink, G: Gate>(
    rt: &(impl Threads + Sync),
    alloc: Global,
    command: Command<'_>,
    shelf: &mut S,
    out: &mut O,
    gate: &G,
) -> Result<Done, Failure>
    requires { HasRanges (command_in command) }
    ensures carried_out { let command = command_in command.entry in
        IfOk result (Performs (S.files shelf.old) command (O.output out.old) (O.output out.new)) }
    ensures done { IfOk result (λ done. CanEnd (command_in command.entry) (ending_in done)) }
    ensures receipt { let answers = AnswersReceipt (command_in command.entry) in
        IfOk result (λ done. answers done.status done.receipt) }
    ensures floor { let command = command_in command.entry in
        IfOk result (λ done. IfSome done.receipt (IsOfFloor command)) }
    ensures unproved { IfOk result (λ done. is_some done.line ≡ true → out.new ≡ out.old) }
    ensures left { let command = command_in command.entry in
        let same = out.new ≡ out.old in
        IfErr result
        (LeavesOf (S.files shelf.old) command same (O.output out.old) (O.output out.new)) }
    ensures cause { let inputs = inputs_of (command_in command.entry) in
        IfErr result (IsCause inputs (S.files shelf.old) (S.files shelf.new)) }
    ensures keeps { KeepsFiles (S.files shelf.old) (S.files shelf.new) }
    ensures unread { (inputs_of (command_in command.entry)).files ≡ [] → shelf.new ≡ shelf.old }
{
    match command {
        Command::Clear { workers, tables } => {
            match clear_to(rt, alloc, workers, tables, shelf, out, gate) {
                Ok(receipt) => Ok(Done::with_receipt(receipt)),
                Err(failure) => Err(failure),
            }
        }
        Command::Check { tables, document } => {
            match check_to(alloc, tables, document, shelf, out) {
                Ok(status) => Ok(Done::without_receipt(status)),
                Err(failure) => Err(failure),
            }
        }
        Command::Watch {
            looks,
            workers,
            tables,
        } => match watch_to(rt, alloc, looks, workers, tables, shelf, out, gate) {
            Ok(receipt) => Ok(Done::with_receipt(receipt)),
            Err(failure) => Err(failure),
        },
        Command::Amend {
            workers,
            tables,
            document,
            amendments,
        } => amend_to(
            rt, alloc, workers, tables, document, amendments, shelf, out, gate,
        ),
        Command::Table {
            printed,
            tables,
            amendments,
        } => match table_to(alloc, printed, tables, amendments, shelf, out) {
            Ok(()) => Ok(Done::without_receipt(0)),
            Err(failure) => Err(failure),
        },
        Command::Demo {
            applicants,
            workers,
        } => match demo_to(rt, alloc, applicants, workers, out, gate) {
            Ok(receipt) => Ok(Done::with_receipt(receipt)),
            Err(failure) => Err(failure),
        },
    }
}

// Carries out the command of the words. Answers how it ended.
fn perform<S: Shelf, O: Sink, G: Gate>(
    rt: &(impl Threads + Sync),
    alloc: Global,
    words: &[String],
    shelf: &mut S,
    out: &mut O,
    gate: &G,
) -> Result<Done, Failure>
    ensures carried_out { let texts = texts_of words.now in
        let by = CarriesOut texts (S.files shelf.old) (O.output out.old) (O.output out.new) in
        IfOk result (λ done. by (IsEnding done) done.receipt) }
    ensures done { IfOk result (λ done. CanEndBy (texts_of words.now) (ending_in done)) }
    ensures low { let judging = IsJudging (texts_of words.now) in
        IfOk result (λ done. (done.status ≡ 0) ⊎ ((done.status ≡ 1) × judging)) }
    ensures receipt { let answer = AnswerReceipt (texts_of words.now) in
        IfOk result (λ done. answer done.status done.receipt) }
    ensures floor { let texts = texts_of words.now in
        IfOk result (λ done. IfSome done.receipt (IsOfFloorFor texts)) }
    ensures unproved { IfOk result (λ done. is_some done.line ≡ true → out.new ≡ out.old) }
    ensures left { let texts = texts_of words.now in
        let part = BreaksOff texts (S.files shelf.old) (O.output out.old) (O.output out.new) in
        IfErr result (Leaves (out.new ≡ out.old) part (O.output out.old) (O.output out.new)) }
    ensures cause { let texts = texts_of words.now in
        IfErr result (IsCauseOf texts (S.files shelf.old) (S.files shelf.new)) }
    ensures keeps { KeepsFiles (S.files shelf.old) (S.files shelf.new) }
    ensures unread { IsErrOf result Failure.Words → shelf.new ≡ shelf.old }
    ensures fetchless { IsDemo (texts_of words.now) → shelf.new ≡ shelf.old }
{
    match Command::of(words) {
        Some(command) => carry_out(rt, alloc, command, shelf, out, gate),
        None => Err(Failure::Words),
    }
}

// Puts the line for people, if there is one, and answers the rest.
fn conclude<E: Sink>(done: Done, err: &mut E) -> Ended
    ensures status { result.status ≡ done.status }
    ensures receipt { result.receipt ≡ done.receipt }
    ensures ends { EndsWith done.status (E.output err.old) (E.output err.new) (ending_in done) }
{
    let Done {
        status,
        line,
        receipt,
    } = done;
    if let Some(line) = line {
        put_line(&line, err);
    }
    Ended { status, receipt }
}

/// Carries out a command. `clear R W pools programmes applications`, where R is `H` or `L` and W the
/// number of workers, 1 to 64, reads three tables from `shelf`, finds the least stable limits, and
/// puts the result document to `out`. `check R pools programmes applications result` reads the
/// tables and such a document, and puts the verdict on it. `demo n W` clears the generated round of
/// n applicants, 1 to 500,000, and puts its summary. `watch K R W pools programmes applications` does
/// as `clear` with 1 to 100 looks at the limits while the workers work, and puts first what they
/// saw. `amend R W pools programmes applications
/// result amendments` reads a published round and its amendments, and where the verdict on the old
/// document is Yes clears the amended instance from the raises that no amendment reaches, and puts
/// its result document. `table T pools programmes applications amendments`, where T is `pools` or
/// `applications`, puts the amended table. Each worker passes `gate` before each of its
/// claims, and the reader before each of its looks.
///
/// The status is 0, where a document is judged with the verdict Yes; 1 for another verdict; 2 for
/// other words; 3 for a file that is too long or has a fault; 4 for a file that could not be read; 5
/// where `out` failed; 6 where memory ran out. With a status from 2 on, and with 1 of `amend`, one
/// line goes to `err`. With status 0 of `clear`, `watch`, `amend` and `demo` there is the receipt of
/// the floor on which the instance was cleared, and else none.
pub fn run<S: Shelf, O: Sink, E: Sink, G: Gate>(
    rt: &(impl Threads + Sync),
    alloc: Global,
    words: &[String],
    shelf: &mut S,
    out: &mut O,
    err: &mut E,
    gate: &G,
) -> Ended
    ensures carried_out { let texts = texts_of words.now in
        let ended = EndsWith result.status (E.output err.old) (E.output err.new) in
        (result.status ≡ 0) ⊎ (result.status ≡ 1)
        → CarriesOut texts (S.files shelf.old) (O.output out.old) (O.output out.new) ended
        result.receipt }
    ensures judged { result.status ≡ 1 → IsJudging (texts_of words.now) }

    // When there is a receipt. Whatever the shelf tells, it has a whole log, and is of a floor that
    // opened with no raise but for `amend`.
    ensures receipt { AnswerReceipt (texts_of words.now) result.status result.receipt }
    ensures floor { IfSome result.receipt (IsOfFloorFor (texts_of words.now)) }

    // When each other status comes, with its line, and what it leaves of `out`.
    ensures words { (result.status ≡ 2) ↔ AreNoCommand (texts_of words.now) }
    ensures ended { let texts = texts_of words.now in
        Ends texts (S.files shelf.old) (S.files shelf.new)
        (E.output err.old) (E.output err.new) result.status }
    ensures unwritable { result.status ≡ 5 → RoseIn (O.output out.old) (O.output out.new) }
    ensures broken_off { let texts = texts_of words.now in
        result.status ≡ 5
        → BreaksOff texts (S.files shelf.old) (O.output out.old) (O.output out.new) }
    ensures partly { let texts = texts_of words.now in
        let part = BreaksOff texts (S.files shelf.old) (O.output out.old) (O.output out.new) in
        result.status ≡ 6 → (out.new ≡ out.old) ⊎ part }
    ensures refused { let texts = texts_of words.now in
        Refuses texts (S.files shelf.old) (S.files shelf.new) result.status }
    ensures completed { let texts = texts_of words.now in
        Completes texts (S.files shelf.old) (S.files shelf.new)
        (O.output out.old) (O.output out.new) result.status }
    ensures nothing { let status = result.status in
        (status ≡ 2) ⊎ (status ≡ 3) ⊎ (status ≡ 4) → out.new ≡ out.old }
    ensures unproved { result.status ≡ 1 → IsAmend (texts_of words.now) → out.new ≡ out.old }
    ensures demo { let status = result.status in
        IsDemo (texts_of words.now) → (status ≡ 0) ⊎ (status ≡ 5) ⊎ (status ≡ 6) }

    // What it leaves of the shelf: all files. With other words or those of a demo it fetches none.
    ensures unread { result.status ≡ 2 → shelf.new ≡ shelf.old }
    ensures fetchless { IsDemo (texts_of words.now) → shelf.new ≡ shelf.old }
    ensures keeps { KeepsFiles (S.files shelf.old) (S.files shelf.new) }
{
    match perform(rt, alloc, words, shelf, out, gate) {
        Ok(done) => conclude(done, err),
        Err(failure) => {
            report(failure, err);
            Ended {
                status: failure.status(),
                receipt: None,
            }
        }
    }
}
