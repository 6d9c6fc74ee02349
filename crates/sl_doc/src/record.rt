ghost use Rattle.std.specs.Prelude.{◌≡◌, ◌<◌, length, OnOk, IfErr};
ghost use Rattle.sl_codes.specs.RecordText.{text_of_record};
ghost use Rattle.sl_codes.specs.Printing.{KeepsSink, Prints, BreaksOff};
ghost use Rattle.sl_doc.specs.ResultText.{limit_record, admit_record, raise_record, end_record};

use crate::doc::Doc;
use crate::texts::{app_code, pool_code, prog_code};
use sl_codes::{Field, Printer};
use sl_instance::Named;
use sl_io::{Sink, WriteError};
use sl_types::{AppId, PoolId, Raise};

/// Prints the record of a pool.
pub fn print_limit<O: Sink>(
    printer: &mut Printer<'_, O>,
    named: &Named,
    doc: &Doc,
    pool: PoolId,
) -> Result<(), WriteError>
    requires limits { length doc.now.limits ≡ length named.now.market.pools }
    requires counts { length doc.now.counts ≡ length named.now.market.pools }
    requires within { pool.0 < length named.now.market.pools }
    ensures keeps { KeepsSink O.output printer.old printer.new }
    ensures text { let text = text_of_record (limit_record named.now doc.now pool.0) in
        OnOk result (Prints O.output printer.old printer.new text) }
    ensures broken { let text = text_of_record (limit_record named.now doc.now pool.0) in
        IfErr result (BreaksOff O.output printer.old printer.new text) }
{
    let limit = doc.limits[pool.0 as usize];
    let count = doc.counts[pool.0 as usize];
    printer.print(&[
        Field::Text("limit"),
        Field::Text(pool_code(named, pool)),
        Field::Number(u64::from(limit)),
        Field::Number(u64::from(count)),
    ])
}

/// Prints the record of an applicant: the choice at the index in their list, or none where the list ends there.
pub fn print_admit<O: Sink>(
    printer: &mut Printer<'_, O>,
    named: &Named,
    doc: &Doc,
    app: AppId,
) -> Result<(), WriteError>
    requires each { length doc.now.admitted ≡ length named.now.market.lists }
    requires within { app.0 < length named.now.market.lists }
    ensures keeps { KeepsSink O.output printer.old printer.new }
    ensures text { let text = text_of_record (admit_record named.now doc.now app.0) in
        OnOk result (Prints O.output printer.old printer.new text) }
    ensures broken { let text = text_of_record (admit_record named.now doc.now app.0) in
        IfErr result (BreaksOff O.output printer.old printer.new text) }
{
    let code = app_code(named, app);
    let index = doc.admitted[app.0 as usize] as usize;
    match named.instance().list(app).get(index) {
        Some(choice) => printer.print(&[
            Field::Text("admit"),
            Field::Text(code),
            Field::Number(u64::from(choice.place)),
            Field::Text(prog_code(named, choice.prog)),
        ]),
        None => printer.print(&[
            Field::Text("admit"),
            Field::Text(code),
            Field::Text("0"),
            Field::Text(""),
        ]),
    }
}

/// Prints the record of a raise.
pub fn print_raise<O: Sink>(
    printer: &mut Printer<'_, O>,
    named: &Named,
    raise: Raise,
) -> Result<(), WriteError>
    requires { raise.pool.0 < length named.now.market.pools }
    ensures keeps { KeepsSink O.output printer.old printer.new }
    ensures text { let text = text_of_record (raise_record named.now raise) in
        OnOk result (Prints O.output printer.old printer.new text) }
    ensures broken { let text = text_of_record (raise_record named.now raise) in
        IfErr result (BreaksOff O.output printer.old printer.new text) }
{
    printer.print(&[
        Field::Text("raise"),
        Field::Text(pool_code(named, raise.pool)),
        Field::Number(u64::from(raise.limit)),
        Field::Text(""),
    ])
}

/// Prints the record of the end, after so many records.
pub fn print_end<O: Sink>(printer: &mut Printer<'_, O>, count: usize) -> Result<(), WriteError>
    ensures keeps { KeepsSink O.output printer.old printer.new }
    ensures text { let text = text_of_record (end_record count) in
        OnOk result (Prints O.output printer.old printer.new text) }
    ensures broken { let text = text_of_record (end_record count) in
        IfErr result (BreaksOff O.output printer.old printer.new text) }
{
    printer.print(&[
        Field::Text("end"),
        Field::Number(count as u64),
        Field::Text(""),
        Field::Text(""),
    ])
}
