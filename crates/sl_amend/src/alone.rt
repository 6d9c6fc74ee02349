ghost use Rattle.std.specs.Prelude.{◌≡◌, None, IfOk, OnErr};
ghost use Rattle.sl_amend.specs.Change.{changed, Fits};
ghost use Rattle.sl_amend.specs.Conflicts.{cause_alone, conflict_cause};
ghost use Rattle.sl_amend.specs.Parts.{record_of};
ghost use Rattle.sl_amend.specs.Register.{draft_of, IsRegister};
ghost use Rattle.sl_amend.specs.Stepping.{Steps};

use crate::change::Change;
use crate::parts::Parts;
use crate::register::Register;
use sl_codes::Cause;
use sl_types::{Entry, OutOfMemory};

impl Register {
    /// What conflict of merits a change would leave, where none stands before it.
    pub fn conflict(&self, change: Change) -> Option<Cause>
        requires register { IsRegister self.now }
        requires fits { Fits (draft_of self.now) change }
        requires free { conflict_cause (draft_of self.now).named.market ≡ None }
        ensures { result ≡ conflict_cause (changed (draft_of self.now) change.entry).named.market }
    {
        match change {
            Change::Join(_, choice) => self.roll.merits.conflict(&[], &choice),
            Change::Add(app, choice) => self.roll.merits.conflict(self.own(app), &choice),
            Change::Score(app, at, score) => {
                let own = self.own(app);
                let choice = Entry { score, ..own[at] };
                self.roll.merits.conflict(own, &choice)
            }
            Change::Quota(_, _) => None,
            Change::Drop(_, _) => None,
            Change::Withdraw(_) => None,
        }
    }

    /// Applies a row that leaves no conflict of merits, where none stands before it, or says what
    /// is wrong with it.
    pub fn take_alone(&mut self, row: Parts) -> Result<Option<Cause>, OutOfMemory>
        requires register { IsRegister self.old }
        requires free { conflict_cause (draft_of self.old).named.market ≡ None }
        ensures cause { let draft = draft_of self.old in
            IfOk result (λ cause. cause ≡ cause_alone draft (record_of row.entry)) }
        ensures draft { let draft = draft_of self.old in
            IfOk result (Steps draft (draft_of self.new) (record_of row.entry)) }
        ensures err { OnErr result (draft_of self.new ≡ draft_of self.old) }
        ensures free { conflict_cause (draft_of self.new).named.market ≡ None }
        ensures register { IsRegister self.new }
    {
        let change = match self.change(row) {
            Ok(change) => change,
            Err(cause) => return Ok(Some(cause)),
        };
        if let Some(cause) = self.conflict(change) {
            return Ok(Some(cause));
        }
        self.make(change)?;
        Ok(None)
    }
}
