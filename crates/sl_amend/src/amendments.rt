ghost use Rattle.std.specs.Prelude.{◌≡◌, ◌≤◌, None, length, OnOk, IfOk, IfErr};
ghost use Rattle.csv.specs.Records.{fields_of};
ghost use Rattle.sl_codes.specs.Faults.{first_fault, IsFirst, IsWrong};
ghost use Rattle.sl_codes.specs.Records.{records_of, rows_of};
ghost use Rattle.sl_amend.specs.Applied.{applied, draft_after};
ghost use Rattle.sl_amend.specs.DraftMarket.{opening};
ghost use Rattle.sl_amend.specs.Files.{amendment_form, amendments_fault, IsLedTo};
ghost use Rattle.sl_amend.specs.Frame.{row_cause};
ghost use Rattle.sl_amend.specs.declared.rows.TheConstants.{MAX_AMENDMENTS};

use crate::Draft;
use crate::parts::framed;
use crate::passes::passes_fault;
use crate::rows::HEADER;
use csv::ByteRecord;
use sl_codes::{ReadError, Records, RowError, Table, read_header};
use sl_instance::Named;
use std::alloc::Global;
use std::marker::Model;
use std::snapshot::Snapshot;

/// The rows of an amendment file that was accepted, and the instance as they leave it. Contracts
/// see the rows, each as five byte strings, and the instance that they amend.
#[derive(Drop)]
pub struct Amendments {
    draft: Draft,
    bytes: Snapshot<Vec<u8>>,
    named: Snapshot<Named>,
}

impl Model for Amendments {
    ghost use Rattle.sl_codes.specs.Records.{records_of, rows_of};
    ghost use Rattle.sl_amend.specs.Files.{AmendmentList, AreAccepted};

    ghost Value = { AmendmentList };

    ghost view = { λ s. record { rows = rows_of s.bytes.value.items; named = s.named.value } };

    ghost invariant = { λ s. AreAccepted s.named.value (records_of s.bytes.value.items) s.draft };
}

impl Amendments {
    // The instance as the rows leave it.
    pub(crate) fn draft(&self) -> &Draft
        ensures draft { result.now ≡ draft_after (opening self.now.named) self.now.rows }
        ensures led { IsLedTo self.now.named result.now }
    {
        &self.draft
    }
}

// Applies one more record, after so many.
fn apply_record(draft: &mut Draft, before: usize, row: &ByteRecord) -> Result<(), RowError>
    ensures draft { OnOk result (draft.new ≡ applied draft.old (fields_of row.now)) }
    ensures right { OnOk result (row_cause before draft.old (fields_of row.now) ≡ None) }
    ensures wrong { IfErr result (IsWrong (row_cause before draft.old (fields_of row.now))) }
{
    let parts = framed(row, before)?;
    match draft.take(parts)? {
        None => Ok(()),
        Some(cause) => Err(RowError::Bad(cause)),
    }
}

// The draft to which the records of a file lead, one after another.
fn drafted(alloc: Global, bytes: &[u8], named: &Named) -> Result<Draft, ReadError>
    ensures right { let fault = first_fault (amendment_form named.now) (records_of bytes.now) in
        OnOk result (fault ≡ None) }
    ensures draft { let after = draft_after (opening named.now) (rows_of bytes.now) in
        IfOk result (λ draft. draft ≡ after) }
    ensures few { OnOk result (length (rows_of bytes.now) ≤ MAX_AMENDMENTS) }
    ensures refused { let fault = first_fault (amendment_form named.now) (records_of bytes.now) in
        IfErr result (IsFirst fault) }
{
    let mut records = Records::new(alloc, bytes);
    let mut row = ByteRecord::new(alloc);
    read_header(&mut records, &mut row, Table::Amendments, &HEADER)?;
    let mut draft = Draft::of(alloc, named)?;
    let mut before = 0;
    'rows: while records.next(&mut row)? {
        if let Err(e) = apply_record(&mut draft, before, &row) {
            return Err(e.after(Table::Amendments, before));
        }
        before += 1;
    }
    Ok(draft)
}

/// Reads an amendment file over an instance, and applies its rows in order. It is refused at the
/// first record with something wrong by the rows before it; and after the whole file, first at a
/// record that names a choice which is in one tree with another of its applicant and has another
/// merit there, then at one that names a choice whose merit in its tree another applicant has too.
pub fn read_amendments(alloc: Global, bytes: &[u8], named: &Named) -> Result<Amendments, ReadError>
    ensures right { OnOk result (amendments_fault named.now (records_of bytes.now) ≡ None) }
    ensures rows { IfOk result (λ amendments. amendments.rows ≡ rows_of bytes.now) }
    ensures named { IfOk result (λ amendments. amendments.named ≡ named.now) }
    ensures refused { IfErr result (IsFirst (amendments_fault named.now (records_of bytes.now))) }
{
    let draft = drafted(alloc, bytes, named)?;
    if let Some(fault) = passes_fault(alloc, bytes, &draft)? {
        return Err(ReadError::Bad(fault));
    }
    // What contracts see of the file takes no memory afterwards.
    let copy = Vec::from_slice(alloc, bytes)?;
    Ok(Amendments {
        draft,
        bytes: Snapshot::of(&copy),
        named: Snapshot::of(named),
    })
}
