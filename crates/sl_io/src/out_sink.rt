ghost use Rattle.std.specs.Prelude.{◌≡◌, OnOk, OnErr};
ghost use Rattle.std.specs.Io.KnownBytes.{Appends};
ghost use Rattle.sl_io.specs.Sink.{AppendsPart};

use crate::count::raised;
use crate::{Sink, SinkFault};
use std::io::Write;

/// A sink over a writer. It tells what its writer tells.
#[derive(Drop)]
pub struct OutSink<W: Write + Drop> {
    inner: W,
    faults: u64,
}

impl<W: Write + Drop> OutSink<W> {
    ghost use Rattle.sl_io.specs.OutSink.{out_writer, out_faults};

    /// A sink over this writer, with no fault so far. It takes no memory.
    pub fn new(inner: W) -> OutSink<W>
        ensures writer { out_writer result ≡ inner }
        ensures faults { out_faults result ≡ 0 }
    {
        OutSink { inner, faults: 0 }
    }
}

impl<W: Write + Drop> Sink for OutSink<W> {
    ghost use Rattle.std.specs.Prelude.{OnOk, OnErr};
    ghost use Rattle.sl_io.specs.OutSink.{out_faults, written};
    ghost use Rattle.sl_io.specs.Sink.{Takes, TakesPart, RoseIn, KeepsCount, Counts};

    ghost output = { written W.contents };

    /// Each error of the writer is a fault, one of its flush too, and so is a write that takes nothing.
    fn put(&mut self, piece: &[u8]) -> Result<(), SinkFault>
        ensures bytes { OnOk result
            (Takes (written W.contents self.old) (written W.contents self.new) piece.now) }
        ensures part { OnErr result
            (TakesPart (written W.contents self.old) (written W.contents self.new) piece.now) }
        ensures cause { OnErr result
            (RoseIn (written W.contents self.old) (written W.contents self.new)) }
        ensures never_falls { KeepsCount
            (written W.contents self.old) (written W.contents self.new) }

        // The count rises at a fault alone.
        ensures faults { Counts result (out_faults self.old) (out_faults self.new) }
    {
        let answer = write_whole(&mut self.inner, piece);
        if answer.is_err() {
            self.faults = raised(self.faults);
        }
        answer
    }
}

// Writes a piece and flushes it.
fn write_whole<W: Write>(to: &mut W, piece: &[u8]) -> Result<(), SinkFault>
    ensures bytes { OnOk result (Appends (W.contents to.old) (W.contents to.new) piece.now) }
    ensures part { OnErr result (AppendsPart (W.contents to.old) (W.contents to.new) piece.now) }
{
    write_pieces(to, piece)?;
    match to.flush() {
        Ok(()) => Ok(()),
        Err(_) => Err(SinkFault),
    }
}

// Writes until all is taken or a write fails or takes nothing. By std's contract `write_all` says nothing
// of the bytes that were taken before an error.
fn write_pieces<W: Write>(to: &mut W, piece: &[u8]) -> Result<(), SinkFault>
    ensures bytes { OnOk result (Appends (W.contents to.old) (W.contents to.new) piece.now) }
    ensures part { OnErr result (AppendsPart (W.contents to.old) (W.contents to.new) piece.now) }
{
    let mut written = 0;
    while written < piece.len() {
        match to.write(&piece[written..]) {
            Ok(0) | Err(_) => return Err(SinkFault),
            Ok(count) => written += count,
        }
    }
    Ok(())
}
