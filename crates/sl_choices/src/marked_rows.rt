ghost use Rattle.std.specs.Prelude.{◌≡◌, ◌<◌, ◌+◌, ◌-◌, ◌^◌, ◌∷◌, ◌++◌, [], length, OnOk, IfOk};
ghost use Rattle.sl_choices.specs.Marks.{HasMarks};
ghost use Rattle.sl_choices.specs.Rows.{rows_of_app, takes_place, takes_prog};

use crate::ChoiceRow;
use crate::chains::Chains;
use crate::marks::Marks;
use sl_types::AppId;
use std::alloc::{AllocError, Global};

/// The rows of a table, with the marks of each applicant's. In a long table in no order each step from a row to the
/// one before it is a miss of the cache, so an applicant's rows are walked only where the marks don't tell.
#[derive(Drop)]
pub struct MarkedRows {
    pub chains: Chains,
    /// By applicant.
    pub marks: Vec<Marks>,
}

fn takes_place(own: &[ChoiceRow], place: u32) -> bool
    ensures { result ≡ takes_place place own.now }
{
    own.iter().any(|row| row.place == place)
}

fn takes_prog(own: &[ChoiceRow], prog: u32) -> bool
    ensures { result ≡ takes_prog prog own.now }
{
    own.iter().any(|row| row.prog.0 == prog)
}

impl MarkedRows {
    pub fn new(alloc: Global) -> MarkedRows
        ensures rows { result.chains.rows.items ≡ [] }
        ensures marks { result.marks.items ≡ [] }
        ensures marked { HasMarks result }
    {
        MarkedRows {
            chains: Chains::new(alloc),
            marks: Vec::new(alloc),
        }
    }

    /// One more applicant, who has no row yet.
    pub fn add_applicant(&mut self) -> Result<(), AllocError>
        requires { HasMarks self.old }
        ensures rows { OnOk result (self.new.chains.rows.items ≡ self.old.chains.rows.items) }
        ensures apps { OnOk result (length self.new.marks.items ≡ length self.old.marks.items + 1) }
        ensures marked { OnOk result (HasMarks self.new) }
    {
        self.chains.add_applicant()?;
        self.marks.push(Marks::new())?;
        Ok(())
    }

    /// One more row of an applicant.
    pub fn add_row(&mut self, row: ChoiceRow) -> Result<(), AllocError>
        requires marked { HasMarks self.old }
        requires known { row.app.0 < length self.old.marks.items }
        requires room { length self.old.chains.rows.items < 2 ^ 32 - 1 }
        ensures rows { let rows = self.old.chains.rows.items in
            OnOk result (self.new.chains.rows.items ≡ rows ++ row ∷ []) }
        ensures apps { OnOk result (length self.new.marks.items ≡ length self.old.marks.items) }
        ensures marked { OnOk result (HasMarks self.new) }
    {
        let app = row.app.0 as usize;
        let marks = self.marks[app].with(row);
        self.chains.add_row(row)?;
        self.marks[app] = marks;
        Ok(())
    }

    /// How many rows an applicant has.
    pub fn count(&self, app: AppId) -> usize
        requires marked { HasMarks self.now }
        requires known { app.0 < length self.now.marks.items }
        ensures { result ≡ length (rows_of_app app.0 self.now.chains.rows.items) }
    {
        self.marks[app.0 as usize].rows as usize
    }

    /// Whether a row of an applicant has this place. Where they must be walked for that, `own` takes them.
    pub fn takes_place(
        &self,
        app: AppId,
        place: u32,
        own: &mut Vec<ChoiceRow>,
    ) -> Result<bool, AllocError>
        requires marked { HasMarks self.now }
        requires known { app.0 < length self.now.marks.items }
        ensures { let rows = rows_of_app app.0 self.now.chains.rows.items in
            IfOk result (λ taken. taken ≡ takes_place place rows) }
    {
        if !self.marks[app.0 as usize].may_take_place(place) {
            return Ok(false);
        }
        self.chains.find_own(app, own)?;
        Ok(takes_place(own, place))
    }

    /// Whether a row of an applicant has this programme. Where they must be walked for that, `own` takes them.
    pub fn takes_prog(
        &self,
        app: AppId,
        prog: u32,
        own: &mut Vec<ChoiceRow>,
    ) -> Result<bool, AllocError>
        requires marked { HasMarks self.now }
        requires known { app.0 < length self.now.marks.items }
        ensures { let rows = rows_of_app app.0 self.now.chains.rows.items in
            IfOk result (λ taken. taken ≡ takes_prog prog rows) }
    {
        if !self.marks[app.0 as usize].may_take_prog(prog) {
            return Ok(false);
        }
        self.chains.find_own(app, own)?;
        Ok(takes_prog(own, prog))
    }
}
