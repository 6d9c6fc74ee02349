ghost use Rattle.std.specs.Prelude.{◌≡◌, ◌∷◌, ◌++◌, [], None, length, map, OnOk, IfOk, IfErr};
ghost use Rattle.csv.specs.Records.{fields_of};
ghost use Rattle.sl_codes.specs.Faults.{first_fault, IsFirst, IsWrong};
ghost use Rattle.sl_codes.specs.Records.{records_of, rows_of};
ghost use Rattle.sl_amend.specs.Files.{rows_form, rows_in};
ghost use Rattle.sl_amend.specs.Frame.{frame_cause};

use crate::Row;
use crate::parts::framed;
use csv::ByteRecord;
use sl_codes::{ReadError, Records, RowError, Table, read_header};
use std::alloc::Global;

/// The most records of an amendment file, the header not counted.
pub const MAX_AMENDMENTS: usize = 4_000_000;

/// The header of an amendment file.
pub const HEADER: [&str; 5] = ["kind", "subject", "place", "programme", "number"];

// Takes one more record.
fn take_row(alloc: Global, rows: &mut Vec<Row>, row: &ByteRecord) -> Result<(), RowError>
    ensures rows { let before = rows_in rows.old.items in
        OnOk result (rows_in rows.new.items ≡ before ++ fields_of row.now ∷ []) }
    ensures right { OnOk result (frame_cause (length rows.old.items) (fields_of row.now) ≡ None) }
    ensures wrong { let cause = frame_cause (length rows.old.items) (fields_of row.now) in
        IfErr result (IsWrong cause) }
{
    let parts = framed(row, rows.len())?;
    let row = Row::of(alloc, parts)?;
    if rows.push(row).is_err() {
        return Err(RowError::OutOfMemory);
    }
    Ok(())
}

/// Reads the rows of an amendment file, whatever their fields say. It is refused at the first
/// record that is not the header where that must stand, has another number of fields, or is one too
/// many.
pub fn read_rows(alloc: Global, bytes: &[u8]) -> Result<Vec<Row>, ReadError>
    ensures right { OnOk result (first_fault rows_form (records_of bytes.now) ≡ None) }
    ensures rows { IfOk result (λ rows. rows_in rows.items ≡ rows_of bytes.now) }
    ensures refused { IfErr result (IsFirst (first_fault rows_form (records_of bytes.now))) }
{
    let mut records = Records::new(alloc, bytes);
    let mut record = ByteRecord::new(alloc);
    read_header(&mut records, &mut record, Table::Amendments, &HEADER)?;
    let mut rows = Vec::new(alloc);
    'rows: while records.next(&mut record)? {
        let before = rows.len();
        if let Err(e) = take_row(alloc, &mut rows, &record) {
            return Err(e.after(Table::Amendments, before));
        }
    }
    Ok(rows)
}
