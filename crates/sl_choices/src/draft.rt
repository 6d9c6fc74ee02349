ghost use Rattle.std.specs.Prelude.{◌≡◌, ◌≤◌, ◌<◌, ◌∷◌, ◌++◌, [], None, Some, length, OnOk, IfOk, IfErr};
ghost use Rattle.csv.specs.Records.{fields_of};
ghost use Rattle.sl_types.specs.declared.kinds.TheConstants.{MAX_APPLICANTS, MAX_CHOICES};
ghost use Rattle.sl_codes.specs.Codes.{number_of, with_code};
ghost use Rattle.sl_codes.specs.Faults.{IsWrong};
ghost use Rattle.sl_codes.specs.Records.{field_of};
ghost use Rattle.sl_choices.specs.Choices.{applicant_cause};
ghost use Rattle.sl_choices.specs.Marks.{HasMarks};
ghost use Rattle.sl_choices.specs.Rows.{row_cause, row_taken, taken_cause};

use crate::ChoiceRow;
use crate::choices::HEADER;
use crate::marked_rows::MarkedRows;
use crate::rows::choice;
use csv::ByteRecord;
use sl_codes::{Cause, Codes, RowError, code, field};
use sl_types::{AppId, MAX_APPLICANTS, MAX_CHOICES};
use std::alloc::Global;

/// What was read of a table, and room for the choices of one applicant.
#[derive(Drop)]
pub struct Draft {
    pub codes: Codes,
    pub table: MarkedRows,
    pub own: Vec<ChoiceRow>,
}

impl Draft {
    pub fn new(alloc: Global) -> Draft
        ensures codes { result.codes ≡ [] }
        ensures rows { result.table.chains.rows.items ≡ [] }
        ensures marks { result.table.marks.items ≡ [] }
        ensures marked { HasMarks result.table }
    {
        Draft {
            codes: Codes::new(alloc),
            table: MarkedRows::new(alloc),
            own: Vec::new(alloc),
        }
    }

    // The applicant of a code, who may be a new one.
    fn applicant(&mut self, field: &[u8]) -> Result<AppId, RowError>
        requires marked { HasMarks self.old.table }
        requires each { length self.old.table.marks.items ≡ length self.old.codes }
        requires few { length self.old.codes ≤ MAX_APPLICANTS }
        ensures codes { OnOk result (self.new.codes ≡ with_code self.old.codes field.now) }
        ensures number { IfOk result (λ a. number_of self.new.codes field.now ≡ Some a.0) }
        ensures rows { let rows = self.old.table.chains.rows.items in
            OnOk result (self.new.table.chains.rows.items ≡ rows) }
        ensures each { OnOk result (length self.new.table.marks.items ≡ length self.new.codes) }
        ensures marked { OnOk result (HasMarks self.new.table) }
        ensures right { OnOk result (applicant_cause self.old.codes field.now ≡ None) }
        ensures wrong { IfErr result (IsWrong (applicant_cause self.old.codes field.now)) }
    {
        let text = code(field)?;
        if self.codes.len() >= MAX_APPLICANTS && self.codes.find_bytes(field).is_none() {
            return Err(RowError::Bad(Cause::TooMany));
        }
        let (number, is_new) = self.codes.add(text)?;
        if is_new {
            self.table.add_applicant()?;
        }
        Ok(AppId(number))
    }

    // Takes the fields of a record.
    fn take_fields(&mut self, progs: &Codes, row: &ByteRecord) -> Result<(), RowError>
        requires marked { HasMarks self.old.table }
        requires each { length self.old.table.marks.items ≡ length self.old.codes }
        requires few { length self.old.codes ≤ MAX_APPLICANTS }
        requires room { length self.old.table.chains.rows.items < MAX_CHOICES }
        requires width { length (fields_of row.now) ≡ 4 }
        ensures codes { let code = field_of (fields_of row.now) 0 in
            OnOk result (self.new.codes ≡ with_code self.old.codes code) }
        ensures rows { let rows = self.old.table.chains.rows.items in
            let taken = row_taken progs.now self.old.codes (fields_of row.now) in
            OnOk result (self.new.table.chains.rows.items ≡ rows ++ taken ∷ []) }
        ensures each { OnOk result (length self.new.table.marks.items ≡ length self.new.codes) }
        ensures few { OnOk result (length self.new.codes ≤ MAX_APPLICANTS) }
        ensures marked { OnOk result (HasMarks self.new.table) }
        ensures right { let rows = self.old.table.chains.rows.items in
            OnOk result (row_cause progs.now self.old.codes rows (fields_of row.now) ≡ None) }
        ensures wrong { let rows = self.old.table.chains.rows.items in
            IfErr result (IsWrong (row_cause progs.now self.old.codes rows (fields_of row.now))) }
    {
        let app = self.applicant(field(row, 0))?;
        let choice = choice(progs, &self.table, app, &mut self.own, row)?;
        self.table.add_row(choice)?;
        Ok(())
    }

    /// Takes a record.
    pub fn take(&mut self, progs: &Codes, row: &ByteRecord) -> Result<(), RowError>
        requires marked { HasMarks self.old.table }
        requires each { length self.old.table.marks.items ≡ length self.old.codes }
        requires few { length self.old.codes ≤ MAX_APPLICANTS }
        ensures codes { let code = field_of (fields_of row.now) 0 in
            OnOk result (self.new.codes ≡ with_code self.old.codes code) }
        ensures rows { let rows = self.old.table.chains.rows.items in
            let taken = row_taken progs.now self.old.codes (fields_of row.now) in
            OnOk result (self.new.table.chains.rows.items ≡ rows ++ taken ∷ []) }
        ensures each { OnOk result (length self.new.table.marks.items ≡ length self.new.codes) }
        ensures few { OnOk result (length self.new.codes ≤ MAX_APPLICANTS) }
        ensures marked { OnOk result (HasMarks self.new.table) }
        ensures right { let rows = self.old.table.chains.rows.items in
            OnOk result (taken_cause progs.now self.old.codes rows (fields_of row.now) ≡ None) }
        ensures wrong { let rows = self.old.table.chains.rows.items in
            IfErr result (IsWrong (taken_cause progs.now self.old.codes rows (fields_of row.now))) }
    {
        if row.len() != HEADER.len() {
            return Err(RowError::Bad(Cause::FieldCount));
        }
        if self.table.chains.rows.len() >= MAX_CHOICES {
            return Err(RowError::Bad(Cause::TooMany));
        }
        self.take_fields(progs, row)
    }
}
