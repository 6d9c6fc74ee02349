ghost use Rattle.std.specs.Prelude.{◌≡◌, length, OnOk, IfOk};
ghost use Rattle.csv.specs.Records.{fields_of};
ghost use Rattle.sl_codes.specs.Faults.{FailsBy};
ghost use Rattle.sl_codes.specs.Records.{field_of};
ghost use Rattle.sl_amend.specs.Parts.{record_of};
ghost use Rattle.sl_amend.specs.Frame.{frame_cause};

use crate::rows::{HEADER, MAX_AMENDMENTS};
use csv::ByteRecord;
use sl_codes::{Cause, field};

/// The fields of a row, lent by whoever has them.
#[derive(Clone, Copy)]
pub struct Parts<'a> {
    pub kind: &'a [u8],
    pub subject: &'a [u8],
    pub place: &'a [u8],
    pub programme: &'a [u8],
    pub number: &'a [u8],
}

// The fields of a record that has five.
#[tactic(auto, using(crate::proofs::Pieces::five_fields))]
fn parts_of(row: &ByteRecord) -> Parts
    requires { length (fields_of row.now) ≡ 5 }
    ensures { record_of result ≡ fields_of row.now }
{
    Parts {
        kind: field(row, 0),
        subject: field(row, 1),
        place: field(row, 2),
        programme: field(row, 3),
        number: field(row, 4),
    }
}

#[tactic(auto, using(crate::proofs::Passing::field_past))]
fn field_or_empty(row: &ByteRecord, i: usize) -> &[u8]
    ensures { result.now ≡ field_of (fields_of row.now) i }
{
    if i < row.len() { field(row, i) } else { &[] }
}

/// The first five fields of a record; empty ones where it has fewer.
pub fn lent(row: &ByteRecord) -> Parts
    ensures kind { result.kind.now ≡ field_of (fields_of row.now) 0 }
    ensures subject { result.subject.now ≡ field_of (fields_of row.now) 1 }
    ensures programme { result.programme.now ≡ field_of (fields_of row.now) 3 }
{
    Parts {
        kind: field_or_empty(row, 0),
        subject: field_or_empty(row, 1),
        place: field_or_empty(row, 2),
        programme: field_or_empty(row, 3),
        number: field_or_empty(row, 4),
    }
}

/// The fields of a record that stands after so many, where it has the right number of them and
/// isn't one too many.
pub fn framed(row: &ByteRecord, before: usize) -> Result<Parts, Cause>
    ensures parts { IfOk result (λ parts. record_of parts ≡ fields_of row.now) }
    ensures cause { FailsBy (frame_cause before (fields_of row.now)) result }
{
    if row.len() != HEADER.len() {
        return Err(Cause::FieldCount);
    }
    if before >= MAX_AMENDMENTS {
        return Err(Cause::TooMany);
    }
    Ok(parts_of(row))
}
