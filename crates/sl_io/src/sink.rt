ghost use Rattle.std.specs.Prelude.{◌≡◌, OnOk, OnErr};
ghost use Rattle.sl_io.specs.Sink.{Output, Takes, TakesPart, RoseIn, KeepsCount};
ghost use Rattle.sl_io.specs.declared.sink.WriteError.TheVariants.{Fault, OutOfMemory};

use std::alloc::AllocError;

/// A sink took no more than a part of a piece.
#[derive(Clone, Copy, Debug, PartialEq, Eq)]
pub struct SinkFault;

/// Why a text was not written.
#[derive(Clone, Copy, Debug, PartialEq, Eq)]
pub enum WriteError {
    /// The sink answered `SinkFault`.
    Fault,
    /// There was too little memory for the text.
    OutOfMemory,
}

impl From<SinkFault> for WriteError {
    ghost from_gives = { λ _ e. e ≡ Fault };

    fn from(_fault: SinkFault) -> WriteError {
        WriteError::Fault
    }
}

impl From<AllocError> for WriteError {
    ghost from_gives = { λ _ e. e ≡ OutOfMemory };

    fn from(_refusal: AllocError) -> WriteError {
        WriteError::OutOfMemory
    }
}

/// Takes bytes, and counts its faults.
pub trait Sink {
    /// The bytes that it took, where it tells them, and how often it could not take a piece. The count never
    /// falls, and stays at 2^64 - 1.
    ghost output: { Self → Output };

    /// Takes the piece, with no memory of its own.
    ///
    /// `SinkFault` comes only where the count of faults rose. It has then taken the first bytes of the
    /// piece, or none. A sink that tells its bytes tells them after each call.
    fn put(&mut self, piece: &[u8]) -> Result<(), SinkFault>
        ensures bytes { OnOk result (Takes (output self.old) (output self.new) piece.now) }
        ensures part { OnErr result (TakesPart (output self.old) (output self.new) piece.now) }
        ensures cause { OnErr result (RoseIn (output self.old) (output self.new)) }
        ensures never_falls { KeepsCount (output self.old) (output self.new) };
}
