//! Clears a round of admissions, amends one, or checks a published result, from the command line.
#![tactic(auto)]

ghost use Rattle.std.specs.Prelude.{◌≡◌, ◌⊎◌, ◌↔◌};
ghost use Rattle.std.specs.Process.{exit_status};
ghost use Rattle.sl_io.specs.Sink.{RoseIn};
ghost use Rattle.sl_run.specs.Run.{CarriesOutUntold, EndsUntold};
ghost use Rattle.sl_run.specs.Words.{texts_of, AreNoCommand, IsAmend, IsDemo, IsJudging};

use sl_desk::OpenGate;
use sl_io::{FileShelf, OutSink, Sink};
use sl_run::run;
use std::process::ExitCode;
use std::rt::{Env, Files};
use std::thread::Threads;
use std::{env, io};

// The words after the program's name.
fn words_after_name<R: Env + AllocGlobal>(rt: &R) -> io::Result<Vec<String>> {
    let mut words = Vec::new(rt.alloc());
    for word in env::args(rt)?.skip(1) {
        words.push(word)?;
    }
    Ok(words)
}

// Carries out a command over the files, and ends with its status. What files hold is told to nobody,
// so the clauses say what is known without that.
fn carry_out<R: Files + AllocGlobal + Threads + Sync, O: Sink, E: Sink>(
    rt: &R,
    words: &[String],
    out: &mut O,
    err: &mut E,
) -> ExitCode
    ensures words { (exit_status result ≡ 2) ↔ AreNoCommand (texts_of words.now) }
    ensures carried_out { let carried_out = CarriesOutUntold (texts_of words.now) in
        exit_status result ≡ 0 → carried_out (O.output out.old) (O.output out.new) }
    ensures judged { exit_status result ≡ 1 → IsJudging (texts_of words.now) }
    ensures unproved { exit_status result ≡ 1 → IsAmend (texts_of words.now) → out.new ≡ out.old }
    ensures nothing { let status = exit_status result in
        (status ≡ 2) ⊎ (status ≡ 3) ⊎ (status ≡ 4) → out.new ≡ out.old }
    ensures demo { let status = exit_status result in
        IsDemo (texts_of words.now) → (status ≡ 0) ⊎ (status ≡ 5) ⊎ (status ≡ 6) }
    ensures unwritable { exit_status result ≡ 5 → RoseIn (O.output out.old) (O.output out.new) }
    ensures ended { let texts = texts_of words.now in
        EndsUntold texts (E.output err.old) (E.output err.new) (exit_status result) }
{
    let mut shelf = FileShelf::new(rt);
    let ended = run(rt, rt.alloc(), words, &mut shelf, out, err, &OpenGate);
    ExitCode::from(ended.status)
}

fn main(rt: HostRuntime) -> ExitCode {
    let words = match words_after_name(&rt) {
        Ok(words) => words,
        Err(error) if error.kind() == io::ErrorKind::OutOfMemory => return ExitCode::from(6),
        // A word that isn't text is no word of a command.
        Err(_) => Vec::new(rt.alloc()),
    };
    let mut out = OutSink::new(rt.stdout());
    let mut err = OutSink::new(rt.stderr());
    carry_out(&rt, &words, &mut out, &mut err)
}
