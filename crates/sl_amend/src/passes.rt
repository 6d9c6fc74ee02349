ghost use Rattle.std.specs.Prelude.{◌≡◌, ◌≤◌, ◌<◌, if◌then◌else◌, Some, None, length, IfOk};
ghost use Rattle.std.specs.Option.{option_or};
ghost use Rattle.sl_codes.specs.Faults.{fault_at};
ghost use Rattle.sl_codes.specs.Records.{records_of, rows_of};
ghost use Rattle.sl_codes.specs.declared.faults.Table.TheVariants.{Amendments};
ghost use Rattle.sl_amend.specs.Files.{passes_fault};
ghost use Rattle.sl_amend.specs.declared.rows.TheConstants.{MAX_AMENDMENTS};

use crate::Draft;
use crate::parts::lent;
use csv::ByteRecord;
use sl_codes::{Cause, Records, Table, TableFault};
use sl_types::OutOfMemory;
use std::alloc::Global;

// The fault of a pass over the whole file, at the row of this number.
fn pass_fault(cause: Cause, row: usize) -> TableFault
    requires { row < MAX_AMENDMENTS }
    ensures { result ≡ fault_at Amendments row cause }
{
    TableFault {
        table: Table::Amendments,
        at: row as u32 + 2,
        cause,
    }
}

// The first place of a tie: the one that is known, or else this one.
fn first_tie(known: Option<usize>, ties: bool, at: usize) -> Option<usize>
    ensures { result ≡ option_or known (if ties then Some at else None) }
{
    match known {
        Some(first) => Some(first),
        None if ties => Some(at),
        None => None,
    }
}

// The fault of the passes over the whole file. It is read once more, so that no row is kept.
fn fault_read(alloc: Global, bytes: &[u8], draft: &Draft) -> Result<Option<TableFault>, OutOfMemory>
    requires { length (rows_of bytes.now) ≤ MAX_AMENDMENTS }
    ensures { IfOk result (λ fault. fault ≡ passes_fault draft.now (rows_of bytes.now)) }
{
    let mut records = Records::new(alloc, bytes);
    let mut row = ByteRecord::new(alloc);
    if !records.next(&mut row)? {
        return Ok(None);
    }
    let mut at = 0;
    let mut tied = None;
    'rows: while records.next(&mut row)? {
        let conflict = draft.conflict_named(lent(&row));
        if conflict.differs {
            return Ok(Some(pass_fault(Cause::MeritDiffers, at)));
        }
        tied = first_tie(tied, conflict.ties, at);
        at += 1;
    }
    match tied {
        Some(at) => Ok(Some(pass_fault(Cause::MeritTied, at))),
        None => Ok(None),
    }
}

/// The fault of the passes over the whole file, where its rows led to a draft. The file is read
/// again only where some choice is in a conflict.
pub fn passes_fault(
    alloc: Global,
    bytes: &[u8],
    draft: &Draft,
) -> Result<Option<TableFault>, OutOfMemory>
    requires { length (rows_of bytes.now) ≤ MAX_AMENDMENTS }
    ensures { IfOk result (λ fault. fault ≡ passes_fault draft.now (rows_of bytes.now)) }
{
    if draft.has_no_conflict() {
        return Ok(None);
    }
    fault_read(alloc, bytes, draft)
}
