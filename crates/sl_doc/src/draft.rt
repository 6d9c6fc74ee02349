ghost use Rattle.std.specs.Prelude.{◌≡◌, ◌<◌, ◌+◌, ◌^◌, [], false, None, length, OnOk, IfErr};
ghost use Rattle.csv.specs.Records.{fields_of};
ghost use Rattle.sl_codes.specs.Faults.{IsWrong};
ghost use Rattle.sl_doc.specs.Drafts.{no_document, and_limit, and_admission, and_raise, with_limit, with_applicant, with_closing, with_row, is_end_at, taken_cause};
ghost use Rattle.sl_doc.specs.Reading.{is_end, pool_cause, applicant_cause, closing_cause, standing_cause};

use crate::doc::Doc;
use crate::reading::HEADER;
use crate::rows::{admitted_index, check_end, check_rule, has_word, limit_and_count, raise};
use crate::texts::{app_code, pool_code};
use csv::ByteRecord;
use sl_codes::{Cause, Codes, RowError};
use sl_instance::Named;
use sl_types::{AppId, PoolId, Raise, Rule};
use std::alloc::{AllocError, Global};

fn no_doc(alloc: Global) -> Doc
    ensures { result ≡ no_document }
{
    Doc {
        limits: Vec::new(alloc),
        counts: Vec::new(alloc),
        admitted: Vec::new(alloc),
        raises: Vec::new(alloc),
    }
}

fn add_limit(doc: &mut Doc, limit: u32, count: u32) -> Result<(), AllocError>
    ensures { OnOk result (doc.new ≡ and_limit doc.old limit count) }
{
    doc.limits.push(limit)?;
    doc.counts.push(count)?;
    Ok(())
}

fn add_admission(doc: &mut Doc, index: u32) -> Result<(), AllocError>
    ensures { OnOk result (doc.new ≡ and_admission doc.old index) }
{
    doc.admitted.push(index)?;
    Ok(())
}

fn add_raise(doc: &mut Doc, raise: Raise) -> Result<(), AllocError>
    ensures { OnOk result (doc.new ≡ and_raise doc.old raise) }
{
    doc.raises.push(raise)?;
    Ok(())
}

/// What was read of a document, how many records it was after the header, and whether the end was one of them.
#[derive(Drop)]
pub struct Draft {
    pub doc: Doc,
    pub rows: usize,
    pub has_ended: bool,
}

impl Draft {
    pub fn new(alloc: Global) -> Draft
        ensures doc { result.doc ≡ no_document }
        ensures rows { result.rows ≡ 0 }
        ensures open { result.has_ended ≡ false }
    {
        Draft {
            doc: no_doc(alloc),
            rows: 0,
            has_ended: false,
        }
    }

    // Takes the record of a pool.
    fn take_limit(&mut self, named: &Named, pool: PoolId, row: &ByteRecord) -> Result<(), RowError>
        requires within { pool.0 < length named.now.market.pools }
        requires width { length (fields_of row.now) ≡ 4 }
        ensures doc { OnOk result (self.new.doc ≡ with_limit self.old.doc (fields_of row.now)) }
        ensures rows { OnOk result (self.new.rows ≡ self.old.rows) }
        ensures open { OnOk result (self.new.has_ended ≡ self.old.has_ended) }
        ensures right { OnOk result (pool_cause named.now pool.0 (fields_of row.now) ≡ None) }
        ensures wrong { IfErr result (IsWrong (pool_cause named.now pool.0 (fields_of row.now))) }
    {
        let (limit, count) = limit_and_count(row, pool_code(named, pool))?;
        add_limit(&mut self.doc, limit, count)?;
        Ok(())
    }

    // Takes the record of an applicant.
    fn take_admit(&mut self, named: &Named, app: AppId, row: &ByteRecord) -> Result<(), RowError>
        requires within { app.0 < length named.now.market.lists }
        requires width { length (fields_of row.now) ≡ 4 }
        ensures doc { OnOk result
            (self.new.doc ≡ with_applicant named.now app.0 self.old.doc (fields_of row.now)) }
        ensures rows { OnOk result (self.new.rows ≡ self.old.rows) }
        ensures open { OnOk result (self.new.has_ended ≡ self.old.has_ended) }
        ensures right { OnOk result (applicant_cause named.now app.0 (fields_of row.now) ≡ None) }
        ensures wrong { IfErr result
            (IsWrong (applicant_cause named.now app.0 (fields_of row.now))) }
    {
        let code = app_code(named, app);
        let choices = named.instance().list(app);
        let index = admitted_index(row, code, choices, named.prog_codes())?;
        add_admission(&mut self.doc, index)?;
        Ok(())
    }

    // Takes the record of a raise or of the end.
    fn take_closing(&mut self, pools: &Codes, row: &ByteRecord) -> Result<(), RowError>
        requires width { length (fields_of row.now) ≡ 4 }
        requires open { self.old.has_ended ≡ false }
        requires room { self.old.rows < 2 ^ 32 }
        ensures doc { OnOk result
            (self.new.doc ≡ with_closing pools.now self.old.doc (fields_of row.now)) }
        ensures rows { OnOk result (self.new.rows ≡ self.old.rows) }
        ensures ended { OnOk result (self.new.has_ended ≡ is_end (fields_of row.now)) }
        ensures right { OnOk result
            (closing_cause pools.now (self.old.rows + 1) (fields_of row.now) ≡ None) }
        ensures wrong { IfErr result
            (IsWrong (closing_cause pools.now (self.old.rows + 1) (fields_of row.now))) }
    {
        if has_word(row, "raise") {
            add_raise(&mut self.doc, raise(row, pools)?)?;
            return Ok(());
        }
        if !has_word(row, "end") {
            return Err(RowError::Bad(Cause::OutOfOrder));
        }
        check_end(row, self.rows + 1)?;
        self.has_ended = true;
        Ok(())
    }

    // Takes a record by its place.
    fn take_standing(&mut self, named: &Named, rule: Rule, row: &ByteRecord) -> Result<(), RowError>
        requires width { length (fields_of row.now) ≡ 4 }
        requires open { self.old.has_ended ≡ false }
        requires room { self.old.rows < 2 ^ 32 }
        ensures doc { OnOk result
            (self.new.doc ≡ with_row named.now self.old.rows self.old.doc (fields_of row.now)) }
        ensures rows { OnOk result (self.new.rows ≡ self.old.rows) }
        ensures ended { OnOk result
            (self.new.has_ended ≡ is_end_at named.now self.old.rows (fields_of row.now)) }
        ensures right { OnOk result
            (standing_cause named.now rule self.old.rows (fields_of row.now) ≡ None) }
        ensures wrong { IfErr result
            (IsWrong (standing_cause named.now rule self.old.rows (fields_of row.now))) }
    {
        let pools = named.instance().pools();
        let applicants = named.instance().applicants();
        if self.rows == 0 {
            return Ok(check_rule(row, rule)?);
        }
        let place = self.rows - 1;
        if place < pools {
            return self.take_limit(named, PoolId(place as u32), row);
        }
        let place = place - pools;
        if place < applicants {
            return self.take_admit(named, AppId(place as u32), row);
        }
        self.take_closing(named.pool_codes(), row)
    }

    /// Takes a record.
    pub fn take(&mut self, named: &Named, rule: Rule, row: &ByteRecord) -> Result<(), RowError>
        requires room { self.old.rows < 2 ^ 32 }
        ensures doc { OnOk result
            (self.new.doc ≡ with_row named.now self.old.rows self.old.doc (fields_of row.now)) }
        ensures rows { OnOk result (self.new.rows ≡ self.old.rows + 1) }
        ensures ended { OnOk result
            (self.new.has_ended ≡ is_end_at named.now self.old.rows (fields_of row.now)) }
        ensures right { OnOk result
            (taken_cause named.now rule self.old.rows self.old.has_ended (fields_of row.now) ≡ None) }
        ensures wrong { IfErr result
            (IsWrong (taken_cause named.now rule self.old.rows self.old.has_ended (fields_of row.now))) }
    {
        if row.len() != HEADER.len() {
            return Err(RowError::Bad(Cause::FieldCount));
        }
        if self.has_ended {
            return Err(RowError::Bad(Cause::AfterEnd));
        }
        self.take_standing(named, rule, row)?;
        self.rows += 1;
        Ok(())
    }
}
