ghost use Rattle.std.specs.Prelude.{◌≡◌, ◌≤◌, ◌+◌, length, drop, take, OnOk, OnErr, IsErrOf};
ghost use Rattle.std.specs.Io.KnownBytes.{Consumes, IsAtEnd};
ghost use Rattle.sl_io.specs.Shelf.{AppendsFile};
ghost use Rattle.sl_io.specs.Reading.{GivesMoreThan};

use crate::count::raised;
use crate::{FetchError, LONGEST_FILE, Shelf};
use std::fs;
use std::io::Read;
use std::marker::Model;
use std::rt::Files;

/// The files of a runtime. It tells nothing of what they hold, and has one count of faults for all names.
/// Contracts see it as that count.
#[derive(Drop)]
pub struct FileShelf<'a, R: Files> {
    rt: &'a R,
    faults: u64,
}

impl<'a, R: Files> Model for FileShelf<'a, R> {
    ghost use Rattle.std.specs.Prelude.{ℕ};

    ghost Value = { ℕ };

    ghost view = { λ s. s.faults };
}

impl<'a, R: Files> FileShelf<'a, R> {
    /// The files of this runtime, with no fault so far. It takes no memory.
    pub fn new(rt: &'a R) -> FileShelf<'a, R>
        ensures { result ≡ 0 }
    {
        FileShelf { rt, faults: 0 }
    }
}

impl<'a, R: Files> Shelf for FileShelf<'a, R> {
    ghost use Rattle.std.specs.Prelude.{◌≡◌, ◌≤◌, ℕ, List, false, length, drop, IsErrOf, OnOk, OnErr};
    ghost use Rattle.sl_io.specs.Reading.{IsReadToEnd, IsLonger};
    ghost use Rattle.sl_io.specs.Shelf.{AppendsFile, AppendsTold, ToldTooLong, Counts, RoseAt, KeepsFiles, untold};

    ghost files = { untold };

    /// Each error of the file is a fault, one of opening it too.
    fn fetch(&mut self, name: &str, into: &mut Vec<u8>) -> Result<(), FetchError>
        ensures appended { OnOk result (AppendsFile into.old.items into.new.items) }
        ensures told { OnOk result
            (AppendsTold (untold self.old) name.now into.old.items into.new.items) }
        ensures refused { OnErr result (into.new.items ≡ into.old.items) }
        ensures fault { IsErrOf result FetchError.Fault
            → RoseAt (untold self.old) (untold self.new) name.now }
        ensures long { IsErrOf result FetchError.TooLong → ToldTooLong (untold self.old) name.now }
        ensures keeps { KeepsFiles (untold self.old) (untold self.new) }

        // The count rises at a fault alone, and each other answer comes from a file that was opened.
        ensures faults { Counts result self.old self.new }
        ensures read { OnOk result
            (IsReadToEnd R.File.remaining (drop (length into.old.items) into.new.items)) }
        ensures longer { IsErrOf result FetchError.TooLong
            → IsLonger LONGEST_FILE R.File.remaining }
    {
        let Ok(mut file) = fs::open(self.rt, name) else {
            self.faults = raised(self.faults);
            return Err(FetchError::Fault);
        };
        let answer = append_or_restore(&mut file, into);
        if answer == Err(FetchError::Fault) {
            self.faults = raised(self.faults);
        }
        answer
    }
}

// Appends what a reader has left, where a file may be that long. A refusal leaves `into` as it was.
fn append_or_restore<F: Read>(file: &mut F, into: &mut Vec<u8>) -> Result<(), FetchError>
    ensures appended { OnOk result (AppendsFile into.old.items into.new.items) }
    ensures refused { OnErr result (into.new.items ≡ into.old.items) }
    ensures bytes { let appended = drop (length into.old.items) into.new.items in
        OnOk result (Consumes (F.remaining file.old) (F.remaining file.new) appended) }
    ensures whole { OnOk result (IsAtEnd (F.remaining file.new)) }
    ensures long { IsErrOf result FetchError.TooLong
        → GivesMoreThan LONGEST_FILE (F.remaining file.old) (F.remaining file.new) }
{
    let start = into.len();
    let answer = append_all(file, into);
    if answer.is_err() {
        into.truncate(start);
    }
    answer
}

// The same, but a refusal leaves in `into` what was appended before it.
fn append_all<F: Read>(file: &mut F, into: &mut Vec<u8>) -> Result<(), FetchError>
    ensures front { take (length into.old.items) into.new.items ≡ into.old.items }
    ensures short { OnOk result (length into.new.items ≤ length into.old.items + LONGEST_FILE) }
    ensures bytes { let appended = drop (length into.old.items) into.new.items in
        OnOk result (Consumes (F.remaining file.old) (F.remaining file.new) appended) }
    ensures whole { OnOk result (IsAtEnd (F.remaining file.new)) }
    ensures long { IsErrOf result FetchError.TooLong
        → GivesMoreThan LONGEST_FILE (F.remaining file.old) (F.remaining file.new) }
{
    let mut buffer = [0u8; 8192];
    let start = into.len();
    for _turn in 0..LONGEST_FILE + 1 {
        let Ok(count) = file.read(&mut buffer) else {
            return Err(FetchError::Fault);
        };
        if count == 0 {
            return Ok(());
        }
        if count > LONGEST_FILE - (into.len() - start) {
            return Err(FetchError::TooLong);
        }
        into.extend_from_slice(&buffer[..count])?;
    }
    unreachable!()
}
