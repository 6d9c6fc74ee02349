ghost use Rattle.std.specs.Prelude.{◌≡◌, ◌<◌, length, flat_map, All, OnOk, IfErr};
ghost use Rattle.sl_codes.specs.RecordText.{text_of_record};
ghost use Rattle.sl_codes.specs.Printing.{KeepsSink, Prints, BreaksOff};
ghost use Rattle.sl_amend.specs.Tables.{choice_record, own_records, record_of_pool};

use crate::texts::{code_of, kind_word, parent_code};
use sl_codes::{Codes, Field, Printer};
use sl_instance::Named;
use sl_io::{Sink, WriteError};
use sl_types::{Entry, PoolId};

/// Prints the record of a pool.
pub fn print_pool<O: Sink>(
    printer: &mut Printer<'_, O>,
    named: &Named,
    pool: PoolId,
) -> Result<(), WriteError>
    requires { pool.0 < length named.now.market.pools }
    ensures keeps { KeepsSink O.output printer.old printer.new }
    ensures text { let text = text_of_record (record_of_pool named.now pool.0) in
        OnOk result (Prints O.output printer.old printer.new text) }
    ensures broken { let text = text_of_record (record_of_pool named.now pool.0) in
        IfErr result (BreaksOff O.output printer.old printer.new text) }
{
    let codes = named.pool_codes();
    let found = named.instance().pool(pool);
    printer.print(&[
        Field::Text(code_of(codes, pool.0)),
        Field::Number(u64::from(found.quota)),
        Field::Text(parent_code(codes, found.parent)),
        Field::Text(kind_word(found.rule)),
    ])
}

// Prints the record of a choice of the applicant with this code.
fn print_choice<'t, O: Sink>(
    printer: &mut Printer<'_, O>,
    progs: &'t Codes,
    code: &'t str,
    choice: &Entry,
) -> Result<(), WriteError>
    requires { choice.now.prog.0 < length progs.now }
    ensures keeps { KeepsSink O.output printer.old printer.new }
    ensures text { let text = text_of_record (choice_record progs.now code.now choice.now) in
        OnOk result (Prints O.output printer.old printer.new text) }
    ensures broken { let text = text_of_record (choice_record progs.now code.now choice.now) in
        IfErr result (BreaksOff O.output printer.old printer.new text) }
{
    printer.print(&[
        Field::Text(code),
        Field::Number(u64::from(choice.place)),
        Field::Text(code_of(progs, choice.prog.0)),
        Field::Number(u64::from(choice.score)),
    ])
}

/// Prints the records of the choices of the applicant with this code.
pub fn print_choices<'t, O: Sink>(
    printer: &mut Printer<'_, O>,
    progs: &'t Codes,
    code: &'t str,
    choices: &[Entry],
) -> Result<(), WriteError>
    requires { All (λ e. e.prog.0 < length progs.now) choices.now }
    ensures keeps { KeepsSink O.output printer.old printer.new }
    ensures text { let records = own_records progs.now code.now choices.now in
        let text = flat_map text_of_record records in
        OnOk result (Prints O.output printer.old printer.new text) }
    ensures broken { let records = own_records progs.now code.now choices.now in
        let text = flat_map text_of_record records in
        IfErr result (BreaksOff O.output printer.old printer.new text) }
{
    for choice in choices {
        print_choice(printer, progs, code, choice)?;
    }
    Ok(())
}
