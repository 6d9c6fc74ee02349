ghost use Rattle.std.specs.Prelude.{◌≡◌, ◌≤◌, ◌<◌, ◌^◌, None, length, OnOk, IfOk, IfErr};
ghost use Rattle.sl_codes.specs.Faults.{first_fault, IsFirst};
ghost use Rattle.sl_codes.specs.Records.{records_of, rows_of};
ghost use Rattle.sl_doc.specs.Document.{IsInRange};
ghost use Rattle.sl_doc.specs.Drafts.{IsDraft};
ghost use Rattle.sl_doc.specs.Reading.{result_form, doc_fault, document_of};

use crate::doc::Doc;
use crate::draft::Draft;
use csv::ByteRecord;
use sl_codes::{Cause, ReadError, Records, RowError, Table, read_header};
use sl_instance::Named;
use sl_types::Rule;
use std::alloc::Global;

/// The first record of a document.
pub const HEADER: [&str; 4] = ["result", "1", "", ""];

// Reads the records of a document, one after another.
fn read_draft(alloc: Global, bytes: &[u8], named: &Named, rule: Rule) -> Result<Draft, ReadError>
    requires { length bytes.now ≤ 2 ^ 28 }
    ensures right { OnOk result
        (first_fault (result_form named.now rule) (records_of bytes.now) ≡ None) }
    ensures draft { IfOk result
        (λ draft. IsDraft named.now (rows_of bytes.now) draft.doc draft.rows draft.has_ended) }
    ensures few { IfOk result (λ draft. draft.rows < 2 ^ 29) }
    ensures refused { IfErr result
        (IsFirst (first_fault (result_form named.now rule) (records_of bytes.now))) }
{
    // Each pool has a code, so that a raise of a known code is one of a pool.
    let _pools = named.pool_codes();
    let mut records = Records::new(alloc, bytes);
    let mut row = ByteRecord::new(alloc);
    read_header(&mut records, &mut row, Table::Results, &HEADER)?;
    let mut draft = Draft::new(alloc);
    'rows: while records.next(&mut row)? {
        let before = draft.rows;
        if let Err(e) = draft.take(named, rule, &row) {
            return Err(e.after(Table::Results, before));
        }
    }
    Ok(draft)
}

/// Reads a result document over an instance with its codes, made by a rule. The error is its first fault.
pub fn read_doc(alloc: Global, bytes: &[u8], named: &Named, rule: Rule) -> Result<Doc, ReadError>
    requires { length bytes.now ≤ 2 ^ 28 }
    ensures right { OnOk result (doc_fault named.now rule (records_of bytes.now) ≡ None) }
    ensures doc { IfOk result (λ doc. doc ≡ document_of named.now (rows_of bytes.now)) }
    ensures in_range { IfOk result (IsInRange named.now) }
    ensures refused { IfErr result (IsFirst (doc_fault named.now rule (records_of bytes.now))) }
{
    let Draft {
        doc,
        rows,
        has_ended,
    } = read_draft(alloc, bytes, named, rule)?;
    if has_ended {
        Ok(doc)
    } else {
        Err(RowError::Bad(Cause::NoEnd).after(Table::Results, rows))
    }
}
