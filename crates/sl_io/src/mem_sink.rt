ghost use Rattle.std.specs.Prelude.{◌≡◌, ◌≤◌, [], length, IfOk};

use crate::count::raised;
use crate::{OutOfMemory, Sink, SinkFault};
use std::alloc::Global;
use std::marker::Model;

/// A sink in memory with a fixed room. It tells its bytes.
#[derive(Drop)]
pub struct MemSink {
    bytes: Vec<u8>,
    room: usize,
    faults: u64,
}

impl Model for MemSink {
    ghost use Rattle.std.specs.Prelude.{◌≤◌, length, vec_capacity};
    ghost use Rattle.sl_io.specs.MemBytes.{MemBytes};

    ghost Value = { MemBytes };

    ghost view = { λ s. record { bytes = s.bytes.items; room = s.room; faults = s.faults } };

    ghost invariant = { λ s. (length s.bytes.items ≤ s.room) × (s.room ≤ vec_capacity s.bytes) };
}

impl MemSink {
    /// An empty sink with room for so many bytes, whose memory is taken here.
    pub fn new(alloc: Global, room: usize) -> Result<MemSink, OutOfMemory>
        ensures { IfOk result (λ s. s ≡ record { bytes = []; room = room; faults = 0 }) }
    {
        Ok(MemSink {
            bytes: Vec::with_capacity(alloc, room)?,
            room,
            faults: 0,
        })
    }

    /// The bytes that it took.
    pub fn bytes(&self) -> &[u8]
        ensures bytes { result.now ≡ self.now.bytes }
        ensures room { length self.now.bytes ≤ self.now.room }
    {
        &self.bytes
    }
}

impl Sink for MemSink {
    ghost use Rattle.std.specs.Prelude.{◌≡◌, ◌≤◌, ◌+◌, ◌-◌, ◌++◌, ◌↔◌, length, take, IsOk, OnOk, OnErr};
    ghost use Rattle.sl_io.specs.MemBytes.{kept};
    ghost use Rattle.sl_io.specs.Sink.{Takes, TakesPart, RoseIn, KeepsCount, Counts};

    ghost output = { kept };

    /// Takes the bytes for which there is room, and answers `SinkFault` where that is not the whole piece.
    fn put(&mut self, piece: &[u8]) -> Result<(), SinkFault>
        ensures bytes { OnOk result (Takes (kept self.old) (kept self.new) piece.now) }
        ensures part { OnErr result (TakesPart (kept self.old) (kept self.new) piece.now) }
        ensures cause { OnErr result (RoseIn (kept self.old) (kept self.new)) }
        ensures never_falls { KeepsCount (kept self.old) (kept self.new) }

        // The exact answer, and the whole of what changes.
        ensures fits { IsOk result ↔ (length self.old.bytes + length piece.now ≤ self.old.room) }
        ensures fills { let left = self.old.room - length self.old.bytes in
            OnErr result (self.new.bytes ≡ self.old.bytes ++ take left piece.now) }
        ensures faults { Counts result self.old.faults self.new.faults }
        ensures room { self.new.room ≡ self.old.room }
    {
        let left = self.room - self.bytes.len();
        if piece.len() <= left {
            self.bytes.extend_from_slice(piece).unwrap();
            return Ok(());
        }
        self.bytes.extend_from_slice(&piece[..left]).unwrap();
        self.faults = raised(self.faults);
        Err(SinkFault)
    }
}
