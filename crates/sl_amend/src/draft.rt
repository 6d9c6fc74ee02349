ghost use Rattle.std.specs.Prelude.{◌≡◌, true, None, length, IfOk, OnErr};
ghost use Rattle.sl_amend.specs.Amended.{IsAmended, AreOrigins};
ghost use Rattle.sl_amend.specs.Causes.{cause_of_row};
ghost use Rattle.sl_amend.specs.Conflicts.{cause_alone, conflict_cause};
ghost use Rattle.sl_amend.specs.DraftMarket.{opening, amended, applicant_count, application_count};
ghost use Rattle.sl_amend.specs.Files.{names_differing, names_tied, IsLedTo, NamesNone};
ghost use Rattle.sl_amend.specs.Origins.{origins_in};
ghost use Rattle.sl_amend.specs.Parts.{record_of};
ghost use Rattle.sl_amend.specs.Register.{draft_of, IsRegister};
ghost use Rattle.sl_amend.specs.Stepping.{Steps};

use crate::Row;
use crate::conflicts::Conflict;
use crate::parts::Parts;
use crate::register::Register;
use sl_codes::Cause;
use sl_instance::Named;
use sl_types::{AppId, OutOfMemory};
use std::alloc::Global;
use std::marker::Model;

/// An instance in the course of amendment. Contracts see it as its pools and programmes, and all
/// applicants that it has had, with who of them is present.
#[derive(Drop)]
pub struct Draft {
    register: Register,
}

impl Model for Draft {
    ghost use Rattle.sl_amend.specs.DraftMarket.{DraftMarket};
    ghost use Rattle.sl_amend.specs.Register.{draft_of, IsRegister};

    ghost Value = { DraftMarket };

    ghost view = { λ s. draft_of s.register };

    ghost invariant = { λ s. IsRegister s.register };
}

impl Register {
    /// Applies a row, or says what is wrong with it.
    pub fn take(&mut self, row: Parts) -> Result<Option<Cause>, OutOfMemory>
        requires { IsRegister self.old }
        ensures cause { let draft = draft_of self.old in
            IfOk result (λ cause. cause ≡ cause_of_row draft (record_of row.entry)) }
        ensures draft { let draft = draft_of self.old in
            IfOk result (Steps draft (draft_of self.new) (record_of row.entry)) }
        ensures err { OnErr result (draft_of self.new ≡ draft_of self.old) }
        ensures register { IsRegister self.new }
    {
        match self.change(row) {
            Err(cause) => Ok(Some(cause)),
            Ok(change) => {
                self.make(change)?;
                Ok(None)
            }
        }
    }
}

impl Draft {
    /// The draft of an instance, before any row.
    pub fn of(alloc: Global, named: &Named) -> Result<Draft, OutOfMemory>
        ensures draft { IfOk result (λ draft. draft ≡ opening named.now) }
        ensures free { IfOk result (λ draft. conflict_cause draft.named.market ≡ None) }
    {
        let register = Register::of(alloc, named)?;
        Ok(Draft { register })
    }

    /// Applies a row, or says what is wrong with it: the first cause that stands in the row, field
    /// by field. With a cause, and with want of memory, the draft is as it was. It gives at most
    /// 4,294,967,294 applicants a number, and wants memory for more.
    pub fn apply(&mut self, row: &Row) -> Result<Option<Cause>, OutOfMemory>
        ensures cause { IfOk result (λ cause. cause ≡ cause_of_row self.old row.now.fields) }
        ensures draft { IfOk result (Steps self.old self.new row.now.fields) }
        ensures err { OnErr result (self.new ≡ self.old) }
    {
        self.register.take(row.fields.parts())
    }

    /// Applies a row that leaves no conflict of merits in trees, or says what is wrong with it: the
    /// first cause that stands in the row; else `MeritDiffers` where in the draft that it would
    /// leave an applicant has two merits in one tree; else `MeritTied` where two applicants have
    /// one there. With a cause, and with want of memory, the draft is as it was.
    pub fn apply_alone(&mut self, row: &Row) -> Result<Option<Cause>, OutOfMemory>
        requires { conflict_cause self.old.named.market ≡ None }
        ensures cause { IfOk result (λ cause. cause ≡ cause_alone self.old row.now.fields) }
        ensures draft { IfOk result (Steps self.old self.new row.now.fields) }
        ensures err { OnErr result (self.new ≡ self.old) }
        ensures free { conflict_cause self.new.named.market ≡ None }
    {
        self.register.take_alone(row.fields.parts())
    }

    // `apply`, of fields that are lent.
    pub(crate) fn take(&mut self, row: Parts) -> Result<Option<Cause>, OutOfMemory>
        ensures cause { IfOk result (λ cause. cause ≡ cause_of_row self.old (record_of row.entry)) }
        ensures draft { IfOk result (Steps self.old self.new (record_of row.entry)) }
        ensures err { OnErr result (self.new ≡ self.old) }
    {
        self.register.take(row)
    }

    // Whether no choice is in a conflict. Then no row names one that is.
    pub(crate) fn has_no_conflict(&self) -> bool
        ensures { result ≡ true → NamesNone self.now }
    {
        self.register.has_no_conflict()
    }

    // In what conflicts the choice is that a row names, where it stands.
    pub(crate) fn conflict_named(&self, row: Parts) -> Conflict
        ensures differs { result.differs ≡ names_differing self.now (record_of row.entry) }
        ensures ties { result.ties ≡ names_tied self.now (record_of row.entry) }
    {
        self.register.conflict_named(row)
    }

    // The amended instance, where the rows of a file without a fault led here from an instance.
    pub(crate) fn amended(&self, alloc: Global, named: &Named) -> Result<Named, OutOfMemory>
        requires { IsLedTo named.now self.now }
        ensures amended { IfOk result (λ n. n ≡ amended self.now) }
        ensures same { IfOk result (λ n. IsAmended named.now.market n.market) }
    {
        self.register.amended(alloc, named)
    }

    // Which of the old applicants those of the amended instance are.
    pub(crate) fn origins(
        &self,
        alloc: Global,
        named: &Named,
    ) -> Result<Vec<Option<AppId>>, OutOfMemory>
        requires { IsLedTo named.now self.now }
        ensures origins { IfOk result (λ v. v.items ≡ origins_in self.now) }
        ensures each { let applicants = (amended self.now).market.lists in
            IfOk result (λ v. length v.items ≡ length applicants) }
        ensures known { IfOk result (λ v. AreOrigins named.now.market v.items) }
    {
        self.register.origins(alloc, named)
    }

    /// How many applicants are present. It takes no memory.
    pub fn applicants(&self) -> usize
        ensures { result ≡ applicant_count self.now }
    {
        self.register.roll.applicants
    }

    /// How many applications are present. It takes no memory.
    pub fn applications(&self) -> usize
        ensures { result ≡ application_count self.now }
    {
        self.register.roll.applications
    }
}
