ghost use Rattle.std.specs.Prelude.{◌≡◌, ◌<◌, None, length, OnOk, IfOk, IfErr};
ghost use Rattle.csv.specs.Records.{fields_of};
ghost use Rattle.sl_codes.specs.Faults.{IsWrong};
ghost use Rattle.sl_codes.specs.Fields.{number_in};
ghost use Rattle.sl_choices.specs.Choices.{place_cause, prog_cause, number_among, own_row};
ghost use Rattle.sl_choices.specs.Marks.{HasMarks};
ghost use Rattle.sl_choices.specs.Rows.{rows_of_app, takes_place, takes_prog, own_cause};

use crate::ChoiceRow;
use crate::marked_rows::MarkedRows;
use csv::ByteRecord;
use sl_codes::{Cause, Codes, RowError, field, number_within};
use sl_types::{AppId, MAX_LIST, MAX_PLACE, MAX_SCORE, ProgId};

// The place of one more choice of an applicant.
fn place(
    table: &MarkedRows,
    app: AppId,
    own: &mut Vec<ChoiceRow>,
    field: &[u8],
) -> Result<u32, RowError>
    requires marked { HasMarks table.now }
    requires known { app.0 < length table.now.marks.items }
    ensures place { IfOk result (λ n. n ≡ number_in field.now) }
    ensures right { let rows = rows_of_app app.0 table.now.chains.rows.items in
        OnOk result (place_cause (takes_place (number_in field.now) rows) field.now ≡ None) }
    ensures wrong { let rows = rows_of_app app.0 table.now.chains.rows.items in
        IfErr result (IsWrong (place_cause (takes_place (number_in field.now) rows) field.now)) }
{
    let place = number_within(field, 1, MAX_PLACE)?;
    if table.takes_place(app, place, own)? {
        return Err(RowError::Bad(Cause::RepeatedPlace));
    }
    Ok(place)
}

// The programme of one more choice of an applicant.
fn programme(
    progs: &Codes,
    table: &MarkedRows,
    app: AppId,
    own: &mut Vec<ChoiceRow>,
    field: &[u8],
) -> Result<ProgId, RowError>
    requires marked { HasMarks table.now }
    requires known { app.0 < length table.now.marks.items }
    ensures prog { IfOk result (λ g. g.0 ≡ number_among progs.now field.now) }
    ensures right { let rows = rows_of_app app.0 table.now.chains.rows.items in
        let taken = takes_prog (number_among progs.now field.now) rows in
        OnOk result (prog_cause progs.now taken field.now ≡ None) }
    ensures wrong { let rows = rows_of_app app.0 table.now.chains.rows.items in
        let taken = takes_prog (number_among progs.now field.now) rows in
        IfErr result (IsWrong (prog_cause progs.now taken field.now)) }
{
    let Some(prog) = progs.find_bytes(field) else {
        return Err(RowError::Bad(Cause::UnknownProgramme));
    };
    if table.takes_prog(app, prog, own)? {
        return Err(RowError::Bad(Cause::RepeatedChoice));
    }
    Ok(ProgId(prog))
}

/// The row of a record of an applicant, whose rows may have to be found in `own` for it.
pub fn choice(
    progs: &Codes,
    table: &MarkedRows,
    app: AppId,
    own: &mut Vec<ChoiceRow>,
    row: &ByteRecord,
) -> Result<ChoiceRow, RowError>
    requires marked { HasMarks table.now }
    requires known { app.0 < length table.now.marks.items }
    requires width { length (fields_of row.now) ≡ 4 }
    ensures row { IfOk result (λ choice. choice ≡ own_row progs.now app.0 (fields_of row.now)) }
    ensures right { let rows = rows_of_app app.0 table.now.chains.rows.items in
        OnOk result (own_cause progs.now rows (fields_of row.now) ≡ None) }
    ensures wrong { let rows = rows_of_app app.0 table.now.chains.rows.items in
        IfErr result (IsWrong (own_cause progs.now rows (fields_of row.now))) }
{
    if table.count(app) >= MAX_LIST {
        return Err(RowError::Bad(Cause::ListTooLong));
    }
    let place = place(table, app, own, field(row, 1))?;
    let prog = programme(progs, table, app, own, field(row, 2))?;
    let score = number_within(field(row, 3), 0, MAX_SCORE)?;
    Ok(ChoiceRow {
        app,
        place,
        prog,
        score,
    })
}
