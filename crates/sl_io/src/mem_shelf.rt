ghost use Rattle.std.specs.Prelude.{◌≡◌, map, nat_eq, string_bytes, option_map};
ghost use Rattle.std.specs.List.{list_any};
ghost use Rattle.sl_io.specs.MemFiles.{file_of, files_of, mem_files};

use crate::count::raised;
use crate::{FetchError, LONGEST_FILE, Shelf};
use std::marker::Model;

/// A shelf in memory, some of whose calls are to fail. It tells its contents.
#[derive(Drop)]
pub struct MemShelf {
    files: Vec<(String, Vec<u8>)>,
    fails: Vec<u64>,
    calls: u64,
    faults: u64,
}

impl Model for MemShelf {
    ghost use Rattle.sl_io.specs.MemFiles.{MemFiles, mem_files};

    ghost Value = { MemFiles };

    ghost view = { λ s. mem_files s.files.items s.fails.items s.calls s.faults };
}

impl MemShelf {
    /// The shelf of these files. Of several with one name the first is the file of that name.
    ///
    /// `fails` has the numbers of the calls of `fetch` that are to fail, counted from 1.
    pub fn new(files: Vec<(String, Vec<u8>)>, fails: Vec<u64>) -> MemShelf
        ensures { result ≡ mem_files files.items fails.items 0 0 }
    {
        MemShelf {
            files,
            fails,
            calls: 0,
            faults: 0,
        }
    }
}

// The first file of this name.
#[tactic(auto, unfolding(crate::specs::MemFiles::file_of))]
fn first_named<'a>(files: &'a [(String, Vec<u8>)], name: &str) -> Option<&'a [u8]>
    ensures { option_map (λ s. s.now) result ≡ file_of (files_of files.now) name.now }
{
    let mut rest = files;
    while let [(key, bytes), after @ ..] = rest {
        if key.as_str() == name {
            return Some(bytes.as_slice());
        }
        rest = after;
    }
    None
}

fn is_to_fail(fails: &[u64], call: u64) -> bool
    ensures { result ≡ list_any (λ n. nat_eq n call) fails.now }
{
    fails.contains(&call)
}

impl Shelf for MemShelf {
    ghost use Rattle.std.specs.Prelude.{◌≡◌, ◌≤◌, ℕ, List, true, IsErrOf, OnOk, OnErr};
    ghost use Rattle.sl_io.specs.Count.{next_count};
    ghost use Rattle.sl_io.specs.MemFiles.{Answers, file_of, fails_next, told};
    ghost use Rattle.sl_io.specs.Shelf.{AppendsFile, AppendsTold, ToldTooLong, Counts, RoseAt, KeepsFiles};

    ghost files = { told };

    /// Numbers the calls from 1, by a count that stays at 2^64 - 1.
    fn fetch(&mut self, name: &str, into: &mut Vec<u8>) -> Result<(), FetchError>
        ensures appended { OnOk result (AppendsFile into.old.items into.new.items) }
        ensures told { OnOk result
            (AppendsTold (told self.old) name.now into.old.items into.new.items) }
        ensures refused { OnErr result (into.new.items ≡ into.old.items) }
        ensures fault { IsErrOf result FetchError.Fault
            → RoseAt (told self.old) (told self.new) name.now }
        ensures long { IsErrOf result FetchError.TooLong → ToldTooLong (told self.old) name.now }
        ensures keeps { KeepsFiles (told self.old) (told self.new) }

        // The exact cause of each refusal, and the whole of what changes.
        ensures exact { Answers (fails_next self.old) (file_of self.old.files name.now) result }
        ensures faults { Counts result self.old.faults self.new.faults }
        ensures calls { self.new.calls ≡ next_count self.old.calls }
        ensures files { self.new.files ≡ self.old.files }
        ensures fails { self.new.fails ≡ self.old.fails }
    {
        self.calls = raised(self.calls);
        if is_to_fail(&self.fails, self.calls) {
            self.faults = raised(self.faults);
            return Err(FetchError::Fault);
        }
        let Some(bytes) = first_named(&self.files, name) else {
            self.faults = raised(self.faults);
            return Err(FetchError::Fault);
        };
        if bytes.len() > LONGEST_FILE {
            return Err(FetchError::TooLong);
        }
        into.extend_from_slice(bytes)?;
        Ok(())
    }
}
