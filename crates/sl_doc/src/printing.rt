ghost use Rattle.std.specs.Prelude.{◌≡◌, ◌≢◌, ◌<◌, ◌+◌, length, map, flat_map, All, OnOk, OnErr, IfErr, IsErrOf};
ghost use Rattle.sl_io.specs.Sink.{Takes, TakesPart, RoseIn, KeepsCount};
ghost use Rattle.sl_codes.specs.RecordText.{text_of_record};
ghost use Rattle.sl_codes.specs.Printing.{KeepsSink, Prints, BreaksOff};
ghost use Rattle.sl_doc.specs.Document.{IsInRange};
ghost use Rattle.sl_doc.specs.ResultText.{raise_record, limit_records, admit_records, head_records, content_records, result_text};

use crate::doc::Doc;
use crate::record::{print_admit, print_end, print_limit, print_raise};
use crate::texts::letter;
use sl_codes::{Field, Printer};
use sl_instance::Named;
use sl_io::{Sink, WriteError};
use sl_types::{AppId, PoolId, Raise, Rule};
use std::alloc::Global;

// Prints the records of the version and of the rule.
fn print_head<O: Sink>(printer: &mut Printer<'_, O>, rule: Rule) -> Result<(), WriteError>
    ensures keeps { KeepsSink O.output printer.old printer.new }
    ensures text { let text = flat_map text_of_record (head_records rule) in
        OnOk result (Prints O.output printer.old printer.new text) }
    ensures broken { let text = flat_map text_of_record (head_records rule) in
        IfErr result (BreaksOff O.output printer.old printer.new text) }
{
    printer.print(&[
        Field::Text("result"),
        Field::Text("1"),
        Field::Text(""),
        Field::Text(""),
    ])?;
    printer.print(&[
        Field::Text("rule"),
        Field::Text(letter(rule)),
        Field::Text(""),
        Field::Text(""),
    ])
}

// Prints the records of the pools.
fn print_limits<O: Sink>(
    printer: &mut Printer<'_, O>,
    named: &Named,
    doc: &Doc,
) -> Result<(), WriteError>
    requires limits { length doc.now.limits ≡ length named.now.market.pools }
    requires counts { length doc.now.counts ≡ length named.now.market.pools }
    ensures keeps { KeepsSink O.output printer.old printer.new }
    ensures text { let text = flat_map text_of_record (limit_records named.now doc.now) in
        OnOk result (Prints O.output printer.old printer.new text) }
    ensures broken { let text = flat_map text_of_record (limit_records named.now doc.now) in
        IfErr result (BreaksOff O.output printer.old printer.new text) }
{
    for number in 0..named.instance().pools() {
        print_limit(printer, named, doc, PoolId(number as u32))?;
    }
    Ok(())
}

// Prints the records of the applicants.
fn print_admits<O: Sink>(
    printer: &mut Printer<'_, O>,
    named: &Named,
    doc: &Doc,
) -> Result<(), WriteError>
    requires { length doc.now.admitted ≡ length named.now.market.lists }
    ensures keeps { KeepsSink O.output printer.old printer.new }
    ensures text { let text = flat_map text_of_record (admit_records named.now doc.now) in
        OnOk result (Prints O.output printer.old printer.new text) }
    ensures broken { let text = flat_map text_of_record (admit_records named.now doc.now) in
        IfErr result (BreaksOff O.output printer.old printer.new text) }
{
    for number in 0..named.instance().applicants() {
        print_admit(printer, named, doc, AppId(number as u32))?;
    }
    Ok(())
}

// Prints the records of raises.
fn print_raises<O: Sink>(
    printer: &mut Printer<'_, O>,
    named: &Named,
    raises: &[Raise],
) -> Result<(), WriteError>
    requires { All (λ r. r.pool.0 < length named.now.market.pools) raises.now }
    ensures keeps { KeepsSink O.output printer.old printer.new }
    ensures text { let text = flat_map text_of_record (map (raise_record named.now) raises.now) in
        OnOk result (Prints O.output printer.old printer.new text) }
    ensures broken { let text = flat_map text_of_record (map (raise_record named.now) raises.now) in
        IfErr result (BreaksOff O.output printer.old printer.new text) }
{
    for raise in raises {
        print_raise(printer, named, *raise)?;
    }
    Ok(())
}

// Prints the records of the pools, of the applicants and of the raises.
fn print_content<O: Sink>(
    printer: &mut Printer<'_, O>,
    named: &Named,
    doc: &Doc,
) -> Result<(), WriteError>
    requires { IsInRange named.now doc.now }
    ensures keeps { KeepsSink O.output printer.old printer.new }
    ensures text { let text = flat_map text_of_record (content_records named.now doc.now) in
        OnOk result (Prints O.output printer.old printer.new text) }
    ensures broken { let text = flat_map text_of_record (content_records named.now doc.now) in
        IfErr result (BreaksOff O.output printer.old printer.new text) }
{
    print_limits(printer, named, doc)?;
    print_admits(printer, named, doc)?;
    print_raises(printer, named, &doc.raises)
}

// How many records stand before the end.
fn record_count(named: &Named, doc: &Doc) -> usize
    requires { IsInRange named.now doc.now }
    ensures { result ≡ 2 + length (content_records named.now doc.now) }
{
    let instance = named.instance();
    2 + instance.pools() + instance.applicants() + doc.raises.len()
}

// Prints all records of a document.
fn print_doc<O: Sink>(
    printer: &mut Printer<'_, O>,
    named: &Named,
    rule: Rule,
    doc: &Doc,
) -> Result<(), WriteError>
    requires { IsInRange named.now doc.now }
    ensures keeps { KeepsSink O.output printer.old printer.new }
    ensures text { let text = result_text named.now rule doc.now in
        OnOk result (Prints O.output printer.old printer.new text) }
    ensures broken { let text = result_text named.now rule doc.now in
        IfErr result (BreaksOff O.output printer.old printer.new text) }
{
    print_head(printer, rule)?;
    print_content(printer, named, doc)?;
    print_end(printer, record_count(named, doc))
}

/// Writes the text of a result document: the version and the rule, a record for each pool and each applicant
/// in file order, then the raises, and a last one with the number of records before it. Limits are in points.
/// After an error the sink took the first bytes of the text. `Fault` comes only where its count of faults
/// rose.
pub fn doc_text<O: Sink>(
    alloc: Global,
    named: &Named,
    rule: Rule,
    doc: &Doc,
    out: &mut O,
) -> Result<(), WriteError>
    requires in_range { IsInRange named.now doc.now }
    requires letter { rule ≢ Rule.Merit }
    ensures text { let text = result_text named.now rule doc.now in
        OnOk result (Takes (O.output out.old) (O.output out.new) text) }
    ensures part { let text = result_text named.now rule doc.now in
        OnErr result (TakesPart (O.output out.old) (O.output out.new) text) }
    ensures cause { IsErrOf result WriteError.Fault → RoseIn (O.output out.old) (O.output out.new) }
    ensures later { KeepsCount (O.output out.old) (O.output out.new) }
{
    let mut buffer = Vec::new(alloc);
    let mut printer = Printer::new(&mut buffer, out);
    print_doc(&mut printer, named, rule, doc)?;
    printer.flush()
}
