ghost use Rattle.std.specs.Prelude.{◌≡◌, map};
ghost use Rattle.std.specs.List.{concat};
ghost use Rattle.sl_run.specs.Failures.{status_of, line_of};
ghost use Rattle.sl_run.specs.Ending.{Reports};
ghost use Rattle.sl_run.specs.declared.failure.Failure.TheVariants as failed;

use itoa::Buffer;
use sl_codes::{ReadError, Table, TableFault};
use sl_io::{Sink, WriteError};
use sl_types::OutOfMemory;

/// Why a command ended without its result.
#[derive(Clone, Copy, Debug, PartialEq, Eq)]
pub enum Failure {
    /// The words are not those of a command.
    Words,
    /// The file has this fault.
    Refused(TableFault),
    /// The file is longer than a file may be.
    TooLong(Table),
    /// The file could not be read.
    Unreadable(Table),
    /// The result could not be written.
    Unwritable,
    /// Memory ran out.
    OutOfMemory,
}

impl Failure {
    /// The status that the command ends with.
    pub fn status(self) -> u8
        ensures { result ≡ status_of self }
    {
        match self {
            Failure::Words => 2,
            Failure::Refused(_) | Failure::TooLong(_) => 3,
            Failure::Unreadable(_) => 4,
            Failure::Unwritable => 5,
            Failure::OutOfMemory => 6,
        }
    }
}

impl From<ReadError> for Failure {
    ghost use Rattle.sl_run.specs.Failures.{failure_of_read};

    ghost from_gives = { λ error failure. failure ≡ failure_of_read error };

    fn from(error: ReadError) -> Failure {
        match error {
            ReadError::Bad(fault) => Failure::Refused(fault),
            ReadError::OutOfMemory => Failure::OutOfMemory,
        }
    }
}

impl From<WriteError> for Failure {
    ghost use Rattle.sl_run.specs.Failures.{failure_of_write};

    ghost from_gives = { λ error failure. failure ≡ failure_of_write error };

    fn from(error: WriteError) -> Failure {
        match error {
            WriteError::Fault => Failure::Unwritable,
            WriteError::OutOfMemory => Failure::OutOfMemory,
        }
    }
}

impl From<OutOfMemory> for Failure {
    ghost from_gives = { λ _ failure. failure ≡ failed.OutOfMemory };

    fn from(_error: OutOfMemory) -> Failure {
        Failure::OutOfMemory
    }
}

// Puts pieces one after another, up to the first fault.
fn put_all<E: Sink>(pieces: &[&str], err: &mut E)
    ensures { Reports (E.output err.old) (E.output err.new) (concat (map (λ s. s.now) pieces.now)) }
{
    for piece in pieces {
        match err.put(piece.as_bytes()) {
            Ok(()) => {}
            Err(_) => return,
        }
    }
}

/// Puts a line for people. A fault of the sink changes nothing else.
pub fn put_line<E: Sink>(line: &[u8], err: &mut E)
    ensures { Reports (E.output err.old) (E.output err.new) line.now }
{
    match err.put(line) {
        Ok(()) => {}
        Err(_) => {}
    }
}

/// Puts a failure's line for people. A fault of the sink changes nothing else.
pub fn report<E: Sink>(failure: Failure, err: &mut E)
    ensures { Reports (E.output err.old) (E.output err.new) (line_of failure) }
{
    match failure {
        Failure::Words => put_all(&["scorelimits: the words are not a command form\n"], err),
        Failure::Refused(fault) => {
            let mut digits = Buffer::new();
            let at = digits.format(fault.at);
            put_all(
                &[fault.table.word(), ":", at, ": ", fault.cause.name(), "\n"],
                err,
            );
        }
        Failure::TooLong(table) => {
            put_all(&[table.word(), ": longer than 268435456 bytes\n"], err);
        }
        Failure::Unreadable(table) => put_all(&[table.word(), ": cannot be read\n"], err),
        Failure::Unwritable => put_all(&["output: cannot be written\n"], err),
        Failure::OutOfMemory => put_all(&["out of memory\n"], err),
    }
}
