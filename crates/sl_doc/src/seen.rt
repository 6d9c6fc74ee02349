ghost use Rattle.std.specs.Prelude.{◌≡◌, ◌<◌, length, OnOk, OnErr, IfErr, IsErrOf};
ghost use Rattle.sl_io.specs.Sink.{Takes, TakesPart, RoseIn, KeepsCount};
ghost use Rattle.sl_codes.specs.Printing.{KeepsSink, Prints, BreaksOff};
ghost use Rattle.sl_doc.specs.SeenText.{seen_line, seen_lines};

use crate::texts::pool_code;
use sl_codes::{Field, Printer};
use sl_instance::Named;
use sl_io::{Sink, WriteError};
use sl_types::PoolId;
use std::alloc::Global;

// Prints the record of a pool, where its limit rose since the look before.
fn print_risen<O: Sink>(
    printer: &mut Printer<'_, O>,
    named: &Named,
    look: u32,
    before: &[u32],
    now: &[u32],
    pool: PoolId,
) -> Result<(), WriteError>
    requires within { pool.0 < length named.now.market.pools }
    requires before { length before.now ≡ length named.now.market.pools }
    requires each { length now.now ≡ length named.now.market.pools }
    ensures keeps { KeepsSink O.output printer.old printer.new }
    ensures text { let text = seen_line named.now look before.now now.now pool.0 in
        OnOk result (Prints O.output printer.old printer.new text) }
    ensures broken { let text = seen_line named.now look before.now now.now pool.0 in
        IfErr result (BreaksOff O.output printer.old printer.new text) }
{
    let limit = now[pool.0 as usize];
    if limit <= before[pool.0 as usize] {
        return Ok(());
    }
    printer.print(&[
        Field::Text("seen"),
        Field::Number(u64::from(look)),
        Field::Text(pool_code(named, pool)),
        Field::Number(u64::from(limit)),
    ])
}

// Prints the records of the pools whose limits rose since the look before.
fn print_look<O: Sink>(
    printer: &mut Printer<'_, O>,
    named: &Named,
    look: u32,
    before: &[u32],
    now: &[u32],
) -> Result<(), WriteError>
    requires before { length before.now ≡ length named.now.market.pools }
    requires each { length now.now ≡ length named.now.market.pools }
    ensures keeps { KeepsSink O.output printer.old printer.new }
    ensures text { let text = seen_lines named.now look before.now now.now in
        OnOk result (Prints O.output printer.old printer.new text) }
    ensures broken { let text = seen_lines named.now look before.now now.now in
        IfErr result (BreaksOff O.output printer.old printer.new text) }
{
    for number in 0..named.instance().pools() {
        print_risen(printer, named, look, before, now, PoolId(number as u32))?;
    }
    Ok(())
}

/// Writes what a look saw: a record for each pool, in file order, whose limit `now` is above that of the look
/// before, with the number of the look, the pool's code and its limit in points. Both slices have one limit per
/// pool. After an error the sink took the first bytes of the text. `Fault` comes only where its count of faults
/// rose.
pub fn seen_text<O: Sink>(
    alloc: Global,
    named: &Named,
    look: u32,
    before: &[u32],
    now: &[u32],
    out: &mut O,
) -> Result<(), WriteError>
    requires before { length before.now ≡ length named.now.market.pools }
    requires each { length now.now ≡ length named.now.market.pools }
    ensures text { let text = seen_lines named.now look before.now now.now in
        OnOk result (Takes (O.output out.old) (O.output out.new) text) }
    ensures part { let text = seen_lines named.now look before.now now.now in
        OnErr result (TakesPart (O.output out.old) (O.output out.new) text) }
    ensures cause { IsErrOf result WriteError.Fault → RoseIn (O.output out.old) (O.output out.new) }
    ensures later { KeepsCount (O.output out.old) (O.output out.new) }
{
    let mut buffer = Vec::new(alloc);
    let mut printer = Printer::new(&mut buffer, out);
    print_look(&mut printer, named, look, before, now)?;
    printer.flush()
}
