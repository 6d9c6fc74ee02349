ghost use Rattle.std.specs.Prelude.{◌≡◌, ◌<◌, ◌-◌, ◌^◌, ◌∷◌, ◌++◌, [], length, reverse, OnOk};
ghost use Rattle.sl_choices.specs.Chains.{HasLinks};
ghost use Rattle.sl_choices.specs.Rows.{rows_of_app};

use crate::ChoiceRow;
use sl_types::AppId;
use std::alloc::{AllocError, Global};

/// The rows of a table, of which those of one applicant are linked from the last to the first. A link is one
/// more than a row's place in the table, and 0 where there is none.
#[derive(Drop)]
pub struct Chains {
    pub rows: Vec<ChoiceRow>,
    /// By applicant: the link to their last row.
    pub last: Vec<u32>,
    /// By row: the link to the row of the same applicant before it.
    pub before: Vec<u32>,
}

impl Chains {
    pub fn new(alloc: Global) -> Chains
        ensures rows { result.rows.items ≡ [] }
        ensures last { result.last.items ≡ [] }
        ensures linked { HasLinks result }
    {
        Chains {
            rows: Vec::new(alloc),
            last: Vec::new(alloc),
            before: Vec::new(alloc),
        }
    }

    /// One more applicant, who has no row yet.
    pub fn add_applicant(&mut self) -> Result<(), AllocError>
        requires { HasLinks self.old }
        ensures rows { OnOk result (self.new.rows.items ≡ self.old.rows.items) }
        ensures last { OnOk result (self.new.last.items ≡ self.old.last.items ++ 0 ∷ []) }
        ensures linked { OnOk result (HasLinks self.new) }
    {
        self.last.push(0)?;
        Ok(())
    }

    /// One more row of an applicant.
    pub fn add_row(&mut self, row: ChoiceRow) -> Result<(), AllocError>
        requires linked { HasLinks self.old }
        requires known { row.app.0 < length self.old.last.items }
        requires room { length self.old.rows.items < 2 ^ 32 - 1 }
        ensures rows { OnOk result (self.new.rows.items ≡ self.old.rows.items ++ row ∷ []) }
        ensures last { OnOk result (length self.new.last.items ≡ length self.old.last.items) }
        ensures linked { OnOk result (HasLinks self.new) }
    {
        let app = row.app.0 as usize;
        self.before.push(self.last[app])?;
        self.rows.push(row)?;
        self.last[app] = self.rows.len() as u32;
        Ok(())
    }

    /// Puts the rows of an applicant into `own`, from the last to the first.
    pub fn find_own(&self, app: AppId, own: &mut Vec<ChoiceRow>) -> Result<(), AllocError>
        requires linked { HasLinks self.now }
        requires known { app.0 < length self.now.last.items }
        ensures { OnOk result (own.new.items ≡ reverse (rows_of_app app.0 self.now.rows.items)) }
    {
        own.clear();
        let mut link = self.last[app.0 as usize];
        'rows: while link != 0 {
            let row = link as usize - 1;
            own.push(self.rows[row])?;
            link = self.before[row];
        }
        Ok(())
    }
}
