ghost use Rattle.std.specs.Prelude.{◌≡◌, ◌<◌, None, length, reverse, OnOk, IfOk, IfErr};
ghost use Rattle.sl_codes.specs.Faults.{first_fault, IsFirst};
ghost use Rattle.sl_codes.specs.Records.{records_of, rows_of};
ghost use Rattle.sl_choices.specs.Choices.{choice_form, choices_of};
ghost use Rattle.sl_choices.specs.Marks.{HasMarks};
ghost use Rattle.sl_choices.specs.Rows.{rows_of_app, IsDraft, IsChoiceList, NameKnown};

use crate::chains::Chains;
use crate::draft::Draft;
use csv::ByteRecord;
use sl_codes::{Codes, ReadError, Records, Table, read_header};
use sl_pools::{PoolTable, ProgTable};
use sl_types::{AppId, ProgId};
use std::alloc::{AllocError, Global};
use std::marker::Model;

pub const HEADER: [&str; 4] = ["applicant", "place", "programme", "score"];

/// A choice of an applicant: the place on their list, the programme, and the score there in points.
#[derive(Clone, Copy, Debug, PartialEq, Eq)]
pub struct ChoiceRow {
    pub app: AppId,
    pub place: u32,
    pub prog: ProgId,
    pub score: u32,
}

/// The choices of a table in the order of its records, linked by applicant, and the codes of the applicants in
/// first-seen order.
#[derive(Drop)]
pub struct ChoiceTable {
    codes: Codes,
    chains: Chains,
}

impl Model for ChoiceTable {
    ghost use Rattle.sl_choices.specs.Choices.{ChoiceList};
    ghost use Rattle.sl_choices.specs.Chains.{AreKept};

    ghost Value = { ChoiceList };

    ghost view = { λ s. record { codes = s.codes; rows = s.chains.rows.items } };

    ghost invariant = { λ s. AreKept s.codes s.chains };
}

impl ChoiceTable {
    /// The codes of the applicants.
    pub fn codes(&self) -> &Codes
        ensures { result.now ≡ self.now.codes }
    {
        &self.codes
    }

    /// The choices.
    pub fn rows(&self) -> &[ChoiceRow]
        ensures rows { result.now ≡ self.now.rows }
        ensures right { IsChoiceList self.now }
    {
        self.chains.rows.as_slice()
    }

    /// Puts the choices of an applicant into `own`, from the last of the table to the first.
    pub fn find_own(&self, app: AppId, own: &mut Vec<ChoiceRow>) -> Result<(), AllocError>
        requires { app.0 < length self.now.codes }
        ensures { OnOk result (own.new.items ≡ reverse (rows_of_app app.0 self.now.rows)) }
    {
        self.chains.find_own(app, own)
    }

    /// The codes alone.
    pub fn into_codes(self) -> Codes
        ensures codes { result ≡ self.codes }
        ensures right { IsChoiceList self }
    {
        self.codes
    }
}

// Reads the records of an application table, one after another.
fn read_draft(alloc: Global, bytes: &[u8], progs: &Codes) -> Result<Draft, ReadError>
    ensures right { let fault = first_fault (choice_form progs.now) (records_of bytes.now) in
        OnOk result (fault ≡ None) }
    ensures draft { IfOk result
        (λ draft. IsDraft progs.now (rows_of bytes.now) draft.codes draft.table.chains.rows.items) }
    ensures kept { IfOk result (λ draft. let rows = draft.table.chains.rows.items in
        IsChoiceList (record { codes = draft.codes; rows = rows })) }
    ensures each { IfOk result
        (λ draft. length draft.table.marks.items ≡ length draft.codes) }
    ensures marked { IfOk result (λ draft. HasMarks draft.table) }
    ensures refused { let fault = first_fault (choice_form progs.now) (records_of bytes.now) in
        IfErr result (IsFirst fault) }
{
    let mut records = Records::new(alloc, bytes);
    let mut row = ByteRecord::new(alloc);
    read_header(&mut records, &mut row, Table::Applications, &HEADER)?;
    let mut draft = Draft::new(alloc);
    'rows: while records.next(&mut row)? {
        let before = draft.table.chains.rows.len();
        if let Err(e) = draft.take(progs, &row) {
            return Err(e.after(Table::Applications, before));
        }
    }
    Ok(draft)
}

/// Reads an application table, over the tables of pools and programmes that were read before.
pub fn read_choices(
    alloc: Global,
    bytes: &[u8],
    _pools: &PoolTable,
    progs: &ProgTable,
) -> Result<ChoiceTable, ReadError>
    ensures right { let form = choice_form progs.now.codes in
        let fault = first_fault form (records_of bytes.now) in
        OnOk result (fault ≡ None) }
    ensures table { IfOk result (λ table. table ≡ choices_of progs.now.codes (rows_of bytes.now)) }
    ensures within { IfOk result (λ table. NameKnown table progs.now.codes) }
    ensures refused { let form = choice_form progs.now.codes in
        let fault = first_fault form (records_of bytes.now) in
        IfErr result (IsFirst fault) }
{
    let Draft {
        codes,
        table,
        own: _,
    } = read_draft(alloc, bytes, progs.codes())?;
    Ok(ChoiceTable {
        codes,
        chains: table.chains,
    })
}
