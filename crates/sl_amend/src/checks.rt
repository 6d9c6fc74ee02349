ghost use Rattle.std.specs.Prelude.{◌≡◌, true, false, Some, IfOk};
ghost use Rattle.sl_codes.specs.Codes.{has_code};
ghost use Rattle.sl_codes.specs.Fields.{is_code};
ghost use Rattle.sl_codes.specs.Faults.{FailsBy};
ghost use Rattle.sl_amend.specs.Applied.{applied, applied_by_kind};
ghost use Rattle.sl_amend.specs.Causes.{subject_field, quota_row_cause, new_row_cause, add_row_cause, drop_row_cause, withdraw_row_cause, score_row_cause, further_cause, first_cause, cause_of_row};
ghost use Rattle.sl_amend.specs.Change.{Does, Fits, IsMember};
ghost use Rattle.sl_amend.specs.DraftMarket.{applicant_number};
ghost use Rattle.sl_amend.specs.Parts.{record_of};
ghost use Rattle.sl_amend.specs.Register.{draft_of, IsRegister};
ghost use Rattle.sl_amend.specs.declared.kind.Kind.TheVariants as kind;

use crate::change::Change;
use crate::fields::{choice, chosen, empty, quota};
use crate::kind::Kind;
use crate::parts::Parts;
use crate::register::Register;
use sl_codes::{Cause, code, number_within};
use sl_types::{AppId, MAX_APPLICANTS, MAX_CHOICES, MAX_SCORE};

impl Register {
    fn quota_row<'a>(&self, row: Parts<'a>) -> Result<Change<'a>, Cause>
        requires { IsRegister self.now }
        ensures done { let draft = draft_of self.now in let row = record_of row.entry in
            IfOk result (Does draft (applied_by_kind (Some kind.Quota) draft row)) }
        ensures fits { IfOk result (Fits (draft_of self.now)) }
        ensures cause { let draft = draft_of self.now in
            FailsBy (quota_row_cause draft (record_of row.entry)) result }
    {
        let pool = self.pool(row.subject)?;
        empty(row.place)?;
        empty(row.programme)?;
        let quota = quota(row.number)?;
        Ok(Change::Quota(pool, quota))
    }

    // One more choice of an applicant who is there.
    fn further<'a>(&self, app: AppId, row: Parts<'a>) -> Result<Change<'a>, Cause>
        requires register { IsRegister self.now }
        requires member { IsMember (draft_of self.now) app.0 }
        requires number { applicant_number (draft_of self.now) row.subject.now ≡ app.0 }
        ensures done { let draft = draft_of self.now in let row = record_of row.entry in
            IfOk result (Does draft (applied_by_kind (Some kind.Add) draft row)) }
        ensures fits { IfOk result (Fits (draft_of self.now)) }
        ensures cause { let draft = draft_of self.now in
            FailsBy (further_cause draft (record_of row.entry)) result }
    {
        let own = self.own(app);
        self.has_room(own)?;
        let choice = choice(&self.prog_codes, own, row)?;
        Ok(Change::Add(app, choice))
    }

    fn add_row<'a>(&self, row: Parts<'a>) -> Result<Change<'a>, Cause>
        requires { IsRegister self.now }
        ensures done { let draft = draft_of self.now in let row = record_of row.entry in
            IfOk result (Does draft (applied_by_kind (Some kind.Add) draft row)) }
        ensures fits { IfOk result (Fits (draft_of self.now)) }
        ensures cause { let draft = draft_of self.now in
            FailsBy (add_row_cause draft (record_of row.entry)) result }
    {
        let app = self.member(row.subject)?;
        self.further(app, row)
    }

    // A first choice of an applicant of a code that isn't there.
    fn first<'a>(&self, code: &'a str, row: Parts<'a>) -> Result<Change<'a>, Cause>
        requires register { IsRegister self.now }
        requires is_new { has_code self.now.app_codes code.now ≡ false }
        requires coded { is_code code.now ≡ true }
        requires same { row.subject.now ≡ code.now }
        ensures done { let draft = draft_of self.now in let row = record_of row.entry in
            IfOk result (Does draft (applied_by_kind (Some kind.New) draft row)) }
        ensures fits { IfOk result (Fits (draft_of self.now)) }
        ensures cause { let draft = draft_of self.now in
            FailsBy (first_cause draft (record_of row.entry)) result }
    {
        if self.roll.applicants >= MAX_APPLICANTS || self.roll.applications >= MAX_CHOICES {
            return Err(Cause::TooMany);
        }
        let choice = choice(&self.prog_codes, &[], row)?;
        Ok(Change::Join(code, choice))
    }

    fn new_row<'a>(&self, row: Parts<'a>) -> Result<Change<'a>, Cause>
        requires { IsRegister self.now }
        ensures done { let draft = draft_of self.now in let row = record_of row.entry in
            IfOk result (Does draft (applied_by_kind (Some kind.New) draft row)) }
        ensures fits { IfOk result (Fits (draft_of self.now)) }
        ensures cause { let draft = draft_of self.now in
            FailsBy (new_row_cause draft (record_of row.entry)) result }
    {
        let code = code(row.subject)?;
        let Some(number) = self.app_codes.find_bytes(row.subject) else {
            return self.first(code, row);
        };
        let app = number as usize;
        if app < self.of_tables || !self.roll.present[app] {
            return Err(Cause::KnownApplicant);
        }
        self.further(AppId(number), row)
    }

    fn drop_row<'a>(&self, row: Parts<'a>) -> Result<Change<'a>, Cause>
        requires { IsRegister self.now }
        ensures done { let draft = draft_of self.now in let row = record_of row.entry in
            IfOk result (Does draft (applied_by_kind (Some kind.Drop) draft row)) }
        ensures fits { IfOk result (Fits (draft_of self.now)) }
        ensures cause { let draft = draft_of self.now in
            FailsBy (drop_row_cause draft (record_of row.entry)) result }
    {
        let app = self.member(row.subject)?;
        empty(row.place)?;
        let own = self.own(app);
        let at = chosen(&self.prog_codes, own, row.programme)?;
        if own.len() == 1 {
            return Err(Cause::LastChoice);
        }
        empty(row.number)?;
        Ok(Change::Drop(app, at))
    }

    fn withdraw_row<'a>(&self, row: Parts<'a>) -> Result<Change<'a>, Cause>
        requires { IsRegister self.now }
        ensures done { let draft = draft_of self.now in let row = record_of row.entry in
            IfOk result (Does draft (applied_by_kind (Some kind.Withdraw) draft row)) }
        ensures fits { IfOk result (Fits (draft_of self.now)) }
        ensures cause { let draft = draft_of self.now in
            FailsBy (withdraw_row_cause draft (record_of row.entry)) result }
    {
        let app = self.member(row.subject)?;
        empty(row.place)?;
        empty(row.programme)?;
        empty(row.number)?;
        Ok(Change::Withdraw(app))
    }

    fn score_row<'a>(&self, row: Parts<'a>) -> Result<Change<'a>, Cause>
        requires { IsRegister self.now }
        ensures done { let draft = draft_of self.now in let row = record_of row.entry in
            IfOk result (Does draft (applied_by_kind (Some kind.Score) draft row)) }
        ensures fits { IfOk result (Fits (draft_of self.now)) }
        ensures cause { let draft = draft_of self.now in
            FailsBy (score_row_cause draft (record_of row.entry)) result }
    {
        let app = self.member(row.subject)?;
        empty(row.place)?;
        let at = chosen(&self.prog_codes, self.own(app), row.programme)?;
        let score = number_within(row.number, 0, MAX_SCORE)?;
        Ok(Change::Score(app, at, score))
    }

    /// What a row does, or what is wrong with it.
    pub fn change<'a>(&self, row: Parts<'a>) -> Result<Change<'a>, Cause>
        requires { IsRegister self.now }
        ensures done { let draft = draft_of self.now in
            IfOk result (Does draft (applied draft (record_of row.entry))) }
        ensures fits { IfOk result (Fits (draft_of self.now)) }
        ensures cause { FailsBy (cause_of_row (draft_of self.now) (record_of row.entry)) result }
    {
        match Kind::of(row.kind) {
            None => Err(Cause::BadKind),
            Some(Kind::Quota) => self.quota_row(row),
            Some(Kind::New) => self.new_row(row),
            Some(Kind::Add) => self.add_row(row),
            Some(Kind::Drop) => self.drop_row(row),
            Some(Kind::Withdraw) => self.withdraw_row(row),
            Some(Kind::Score) => self.score_row(row),
        }
    }
}
