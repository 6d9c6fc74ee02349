ghost use Rattle.std.specs.Prelude.{◌≡◌, ◌<◌, true, length, flat_map, OnOk, OnErr, IfErr, IsErrOf};
ghost use Rattle.sl_io.specs.Sink.{Takes, TakesPart, RoseIn, KeepsCount};
ghost use Rattle.sl_codes.specs.RecordText.{text_of_record};
ghost use Rattle.sl_codes.specs.Printing.{KeepsSink, Prints, BreaksOff};
ghost use Rattle.sl_amend.specs.Tables.{is_written, records_of_applicant, pool_header, application_header, pool_records, application_records, text_of_table};

use crate::table_records::{print_choices, print_pool};
use crate::texts::code_of;
use sl_codes::{Field, Printer, Table};
use sl_instance::Named;
use sl_io::{Sink, WriteError};
use sl_types::{AppId, PoolId};
use std::alloc::Global;

// Prints a record for each pool.
fn print_pools<O: Sink>(printer: &mut Printer<'_, O>, named: &Named) -> Result<(), WriteError>
    ensures keeps { KeepsSink O.output printer.old printer.new }
    ensures text { let text = flat_map text_of_record (pool_records named.now) in
        OnOk result (Prints O.output printer.old printer.new text) }
    ensures broken { let text = flat_map text_of_record (pool_records named.now) in
        IfErr result (BreaksOff O.output printer.old printer.new text) }
{
    for number in 0..named.instance().pools() {
        print_pool(printer, named, PoolId(number as u32))?;
    }
    Ok(())
}

// Prints the records of the choices of an applicant.
fn print_applicant<O: Sink>(
    printer: &mut Printer<'_, O>,
    named: &Named,
    app: AppId,
) -> Result<(), WriteError>
    requires { app.0 < length named.now.market.lists }
    ensures keeps { KeepsSink O.output printer.old printer.new }
    ensures text { let text = flat_map text_of_record (records_of_applicant named.now app.0) in
        OnOk result (Prints O.output printer.old printer.new text) }
    ensures broken { let text = flat_map text_of_record (records_of_applicant named.now app.0) in
        IfErr result (BreaksOff O.output printer.old printer.new text) }
{
    let code = code_of(named.app_codes(), app.0);
    print_choices(
        printer,
        named.prog_codes(),
        code,
        named.instance().list(app),
    )
}

// Prints a record for each choice, by applicant.
fn print_applications<O: Sink>(
    printer: &mut Printer<'_, O>,
    named: &Named,
) -> Result<(), WriteError>
    ensures keeps { KeepsSink O.output printer.old printer.new }
    ensures text { let text = flat_map text_of_record (application_records named.now) in
        OnOk result (Prints O.output printer.old printer.new text) }
    ensures broken { let text = flat_map text_of_record (application_records named.now) in
        IfErr result (BreaksOff O.output printer.old printer.new text) }
{
    for number in 0..named.instance().applicants() {
        print_applicant(printer, named, AppId(number as u32))?;
    }
    Ok(())
}

// Prints the first record of the pool table, and that of the application table.
fn print_pool_header<O: Sink>(printer: &mut Printer<'_, O>) -> Result<(), WriteError>
    ensures keeps { KeepsSink O.output printer.old printer.new }
    ensures text { OnOk result
        (Prints O.output printer.old printer.new (text_of_record pool_header)) }
    ensures broken { IfErr result
        (BreaksOff O.output printer.old printer.new (text_of_record pool_header)) }
{
    printer.print(&[
        Field::Text("pool"),
        Field::Text("quota"),
        Field::Text("parent"),
        Field::Text("kind"),
    ])
}

fn print_application_header<O: Sink>(printer: &mut Printer<'_, O>) -> Result<(), WriteError>
    ensures keeps { KeepsSink O.output printer.old printer.new }
    ensures text { OnOk result
        (Prints O.output printer.old printer.new (text_of_record application_header)) }
    ensures broken { IfErr result
        (BreaksOff O.output printer.old printer.new (text_of_record application_header)) }
{
    printer.print(&[
        Field::Text("applicant"),
        Field::Text("place"),
        Field::Text("programme"),
        Field::Text("score"),
    ])
}

// Prints the pool table, and the application table.
fn print_pool_table<O: Sink>(printer: &mut Printer<'_, O>, named: &Named) -> Result<(), WriteError>
    ensures keeps { KeepsSink O.output printer.old printer.new }
    ensures text { let text = text_of_table named.now Table.Pools in
        OnOk result (Prints O.output printer.old printer.new text) }
    ensures broken { let text = text_of_table named.now Table.Pools in
        IfErr result (BreaksOff O.output printer.old printer.new text) }
{
    print_pool_header(printer)?;
    print_pools(printer, named)
}

fn print_application_table<O: Sink>(
    printer: &mut Printer<'_, O>,
    named: &Named,
) -> Result<(), WriteError>
    ensures keeps { KeepsSink O.output printer.old printer.new }
    ensures text { let text = text_of_table named.now Table.Applications in
        OnOk result (Prints O.output printer.old printer.new text) }
    ensures broken { let text = text_of_table named.now Table.Applications in
        IfErr result (BreaksOff O.output printer.old printer.new text) }
{
    print_application_header(printer)?;
    print_applications(printer, named)
}

// Prints all records of a table.
fn print_table<O: Sink>(
    printer: &mut Printer<'_, O>,
    named: &Named,
    table: Table,
) -> Result<(), WriteError>
    requires { is_written table ≡ true }
    ensures keeps { KeepsSink O.output printer.old printer.new }
    ensures text { let text = text_of_table named.now table in
        OnOk result (Prints O.output printer.old printer.new text) }
    ensures broken { let text = text_of_table named.now table in
        IfErr result (BreaksOff O.output printer.old printer.new text) }
{
    match table {
        Table::Pools => print_pool_table(printer, named),
        Table::Applications => print_application_table(printer, named),
        Table::Programmes | Table::Results | Table::Amendments => unreachable!(),
    }
}

/// Writes the pool table or the application table of an instance, with its header. The pool table
/// has a record for each pool, in order; the application table one for each choice, by applicant
/// in order and within a list by place. After an error the sink took the first bytes of the text.
/// `Fault` comes only where its count of faults rose.
pub fn table_text<O: Sink>(
    alloc: Global,
    named: &Named,
    table: Table,
    out: &mut O,
) -> Result<(), WriteError>
    requires { is_written table ≡ true }
    ensures text { let text = text_of_table named.now table in
        OnOk result (Takes (O.output out.old) (O.output out.new) text) }
    ensures part { let text = text_of_table named.now table in
        OnErr result (TakesPart (O.output out.old) (O.output out.new) text) }
    ensures cause { IsErrOf result WriteError.Fault → RoseIn (O.output out.old) (O.output out.new) }
    ensures later { KeepsCount (O.output out.old) (O.output out.new) }
{
    let mut buffer = Vec::new(alloc);
    let mut printer = Printer::new(&mut buffer, out);
    print_table(&mut printer, named, table)?;
    printer.flush()
}
