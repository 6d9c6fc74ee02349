ghost use Rattle.std.specs.Prelude.{◌≡◌, ◌∷◌, ◌<◌, [], true, false, not, length, map, drop, OnOk, OnErr, IfOk, IfErr, slice_get};
ghost use Rattle.csv.specs.Reading.{stops_reader, error_kind};
ghost use Rattle.csv.specs.Records.{fields_of};
ghost use Rattle.sl_codes.specs.Faults.{has_header, header_fault, IsFirst};
ghost use Rattle.sl_codes.specs.Reading.{GivesNext, IsReading, records_left};
ghost use Rattle.sl_codes.specs.Records.{records_of, field_of, has_fields};

use crate::{Cause, ReadError, Table, TableFault};
use csv::{ByteRecord, Error, ErrorKind, Reader, ReaderBuilder};
use sl_types::OutOfMemory;
use std::alloc::Global;
use std::marker::Model;

/// The records of a file, one after another. Contracts see those that are still to come.
#[derive(Drop)]
pub struct Records<'a> {
    reader: Reader<&'a [u8]>,
    has_ended: bool,
}

impl<'a> Model for Records<'a> {
    ghost use Rattle.std.specs.Prelude.{◌≡◌, List, false};
    ghost use Rattle.sl_codes.specs.Records.{Record};

    ghost Value = { List Record };

    ghost use Rattle.sl_codes.specs.Reading.{records_left, IsReading};

    ghost view = { λ s. records_left s.reader s.has_ended };

    ghost invariant = { λ s. s.has_ended ≡ false → IsReading s.reader };
}

// Reads bytes that are known as `csv` does with its default settings.
fn open<'a>(alloc: Global, bytes: &'a [u8]) -> Reader<&'a [u8]>
    ensures reading { IsReading result }
    ensures records { records_left result false ≡ records_of bytes.now }
{
    ReaderBuilder::new()
        .has_headers(false)
        .flexible(true)
        .from_reader(alloc, bytes)
}

// An error of a reader that is flexible and reads bytes: memory ran out, or the reader underneath failed.
// Bytes in memory don't fail; but the contract of `csv` holds for every reader and can't say so.
fn want_of_memory(error: Error) -> OutOfMemory
    requires { stops_reader (error_kind error) ≡ true }
{
    match error.into_kind() {
        ErrorKind::Io(_) | ErrorKind::OutOfMemory => OutOfMemory,
        ErrorKind::Utf8 { .. } => unreachable!(),
        ErrorKind::UnequalLengths { .. } => unreachable!(),
        ErrorKind::Serialize(_) => unreachable!(),
        ErrorKind::Deserialize { .. } => unreachable!(),
    }
}

// The next record.
fn read(reader: &mut Reader<&[u8]>, row: &mut ByteRecord) -> Result<bool, OutOfMemory>
    requires { IsReading reader.old }
    ensures reading { IfOk result (λ found. found ≡ true → IsReading reader.new) }
    ensures next { let before = records_left reader.old false in
        IfOk result (λ found. GivesNext before found (fields_of row.new) (records_left reader.new (not found))) }
{
    match reader.read_byte_record(row) {
        Ok(found) => Ok(found),
        Err(error) => Err(want_of_memory(error)),
    }
}

impl<'a> Records<'a> {
    /// The records of a file of these bytes.
    pub fn new(alloc: Global, bytes: &'a [u8]) -> Records<'a>
        ensures { result ≡ records_of bytes.now }
    {
        Records {
            reader: open(alloc, bytes),
            has_ended: false,
        }
    }

    /// Reads the next record into `row`, and says whether there was one. After an error there are no more.
    pub fn next(&mut self, row: &mut ByteRecord) -> Result<bool, OutOfMemory>
        ensures ok { IfOk result (λ found. GivesNext self.old found (fields_of row.new) self.new) }
        ensures err { OnErr result (self.new ≡ []) }
    {
        if self.has_ended {
            return Ok(false);
        }
        let read = read(&mut self.reader, row);
        self.has_ended = read != Ok(true);
        read
    }
}

/// The field at a place, counted from 0.
pub fn field(row: &ByteRecord, i: usize) -> &[u8]
    requires { i < length (fields_of row.now) }
    ensures { result.now ≡ field_of (fields_of row.now) i }
{
    match row.get(i) {
        Some(field) => field,
        None => &[],
    }
}

/// Whether a record has exactly these fields.
pub fn has_fields(row: &ByteRecord, fields: &[&str]) -> bool
    ensures { result ≡ has_fields (fields_of row.now) (map (λ s. s.now) fields.now) }
{
    if row.len() != fields.len() {
        return false;
    }
    for (i, text) in fields.iter().enumerate() {
        if field(row, i) != text.as_bytes() {
            return false;
        }
    }
    true
}

/// Reads the first record of a table, which must be its header.
pub fn read_header(
    records: &mut Records,
    row: &mut ByteRecord,
    table: Table,
    header: &[&str],
) -> Result<(), ReadError>
    ensures header { OnOk result (has_header (map (λ s. s.now) header.now) records.old ≡ true) }
    ensures rows { OnOk result (records.new ≡ drop 1 records.old) }
    ensures refused { let header = map (λ s. s.now) header.now in
        IfErr result (IsFirst (header_fault table header records.old)) }
{
    if records.next(row)? && has_fields(row, header) {
        return Ok(());
    }
    Err(ReadError::Bad(TableFault {
        table,
        at: 1,
        cause: Cause::BadHeader,
    }))
}
