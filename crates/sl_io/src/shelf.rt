ghost use Rattle.std.specs.Prelude.{◌≡◌, OnOk, OnErr, IsErrOf};
ghost use Rattle.sl_io.specs.Shelf.{Files, AppendsFile, AppendsTold, ToldTooLong, RoseAt, KeepsFiles};
ghost use Rattle.sl_io.specs.declared.shelf.FetchError.TheVariants.{OutOfMemory};

use std::alloc::AllocError;

/// The greatest length of a file that is fetched, in bytes.
pub const LONGEST_FILE: usize = 1 << 28;

/// Why a file was not fetched.
#[derive(Clone, Copy, Debug, PartialEq, Eq)]
pub enum FetchError {
    /// The file could not be opened or read.
    Fault,
    /// The file has more than `LONGEST_FILE` bytes.
    TooLong,
    /// There was too little memory for the file.
    OutOfMemory,
}

impl From<AllocError> for FetchError {
    ghost from_gives = { λ _ e. e ≡ OutOfMemory };

    fn from(_refusal: AllocError) -> FetchError {
        FetchError::OutOfMemory
    }
}

/// Files by name, with a count of faults for each name.
pub trait Shelf {
    /// What it tells of its files, and how often a file of each name could not be read. A count never falls,
    /// and stays at 2^64 - 1.
    ghost files: { Self → Files };

    /// Appends the bytes of the file of this name to `into`, which stays as it was where that fails.
    ///
    /// `Fault` comes only where the count of this name rose, and `TooLong` only for a file of more than
    /// `LONGEST_FILE` bytes.
    fn fetch(&mut self, name: &str, into: &mut Vec<u8>) -> Result<(), FetchError>
        ensures appended { OnOk result (AppendsFile into.old.items into.new.items) }
        ensures told { OnOk result
            (AppendsTold (files self.old) name.now into.old.items into.new.items) }
        ensures refused { OnErr result (into.new.items ≡ into.old.items) }

        // When each refusal comes.
        ensures fault { IsErrOf result FetchError.Fault
            → RoseAt (files self.old) (files self.new) name.now }
        ensures long { IsErrOf result FetchError.TooLong → ToldTooLong (files self.old) name.now }

        // What every call leaves.
        ensures keeps { KeepsFiles (files self.old) (files self.new) };
}
