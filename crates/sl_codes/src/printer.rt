ghost use Rattle.std.specs.Prelude.{◌≡◌, [], OnOk, OnErr, IfErr, IsErrOf, IsOkUnless};
ghost use Rattle.sl_io.specs.Sink.{Takes, TakesPart, RoseIn, KeepsCount};
ghost use Rattle.sl_codes.specs.RecordText.{text_of_record, record_of};
ghost use Rattle.sl_codes.specs.Printing.{PrintsOver, KeepsSink, Prints, BreaksOff, HoldsNothing};

use crate::field_text::{Field, push_record};
use sl_io::{Sink, WriteError};
use std::alloc::Global;

/// How many bytes are held back before they are put to the sink.
const MOST_HELD: usize = 32 * 1024;

/// Prints records to a sink. It holds text back in a buffer, so that the sink is given many bytes at a time:
/// `flush` puts what is left.
#[derive(Drop)]
pub struct Printer<'a, O: Sink> {
    held: &'a mut Vec<u8>,
    out: &'a mut O,
}

impl<'a, O: Sink> Printer<'a, O> {
    /// A printer over this sink that has printed nothing. It empties the buffer, which may have been another
    /// printer's.
    pub fn new(buffer: &'a mut Vec<u8>, out: &'a mut O) -> Printer<'a, O>
        ensures { PrintsOver out.entry result }
    {
        buffer.clear();
        Printer { held: buffer, out }
    }

    // Adds the text of a record to what is held.
    fn hold(&mut self, fields: &[Field]) -> Result<(), WriteError>
        ensures keeps { KeepsSink O.output self.old self.new }
        ensures text { let text = text_of_record (record_of fields.now) in
            OnOk result (Prints O.output self.old self.new text) }
        ensures broken { let text = text_of_record (record_of fields.now) in
            IfErr result (BreaksOff O.output self.old self.new text) }
        ensures lost { OnErr result (HoldsNothing self.new) }
    {
        let added = push_record(self.held, fields);
        if added.is_err() {
            self.held.clear();
        }
        Ok(added?)
    }

    /// Prints a record of these fields. It may be held back, until many bytes are. After an error the sink
    /// took a part of what was held and of the record, and the rest is lost. `Fault` comes only where its
    /// count of faults rose.
    pub fn print(&mut self, fields: &[Field]) -> Result<(), WriteError>
        ensures keeps { KeepsSink O.output self.old self.new }
        ensures text { let text = text_of_record (record_of fields.now) in
            OnOk result (Prints O.output self.old self.new text) }
        ensures broken { let text = text_of_record (record_of fields.now) in
            IfErr result (BreaksOff O.output self.old self.new text) }
        ensures lost { OnErr result (HoldsNothing self.new) }
    {
        self.hold(fields)?;
        if self.held.len() < MOST_HELD {
            return Ok(());
        }
        self.flush()
    }

    /// Puts what is held to the sink. At a fault the sink took a part of it, and the rest is lost.
    pub fn flush(&mut self) -> Result<(), WriteError>
        ensures keeps { KeepsSink O.output self.old self.new }
        ensures text { OnOk result (Prints O.output self.old self.new []) }
        ensures broken { IfErr result (BreaksOff O.output self.old self.new []) }
        ensures nothing_held { HoldsNothing self.new }
        ensures fault { IsOkUnless result WriteError.Fault }
    {
        let put = self.out.put(self.held.as_slice());
        self.held.clear();
        Ok(put?)
    }
}

/// Puts the text of one record to a sink. After an error the sink took the first bytes of the text. `Fault`
/// comes only where its count of faults rose.
pub fn put_record<O: Sink>(alloc: Global, fields: &[Field], out: &mut O) -> Result<(), WriteError>
    ensures text { let text = text_of_record (record_of fields.now) in
        OnOk result (Takes (O.output out.old) (O.output out.new) text) }
    ensures part { let text = text_of_record (record_of fields.now) in
        OnErr result (TakesPart (O.output out.old) (O.output out.new) text) }
    ensures cause { IsErrOf result WriteError.Fault → RoseIn (O.output out.old) (O.output out.new) }
    ensures later { KeepsCount (O.output out.old) (O.output out.new) }
{
    let mut buffer = Vec::new(alloc);
    let mut printer = Printer::new(&mut buffer, out);
    printer.print(fields)?;
    printer.flush()
}
