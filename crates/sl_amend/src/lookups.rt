ghost use Rattle.std.specs.Prelude.{◌≡◌, ◌<◌, length, IfOk, OnOk};
ghost use Rattle.sl_types.specs.declared.kinds.TheConstants.{MAX_CHOICES, MAX_LIST};
ghost use Rattle.sl_codes.specs.Faults.{FailsBy, name_cause};
ghost use Rattle.sl_codes.specs.declared.faults.Cause.TheVariants.{UnknownPool};
ghost use Rattle.sl_choices.specs.Choices.{number_among};
ghost use Rattle.sl_amend.specs.Causes.{present_cause, room_cause};
ghost use Rattle.sl_amend.specs.Change.{IsMember, choices_of};
ghost use Rattle.sl_amend.specs.DraftMarket.{applicant_number, application_count};
ghost use Rattle.sl_amend.specs.Register.{draft_of, IsRegister};
ghost use Rattle.sl_amend.specs.Roll.{lists_of};

use crate::register::Register;
use crate::roll::list_at;
use sl_codes::Cause;
use sl_types::{AppId, Entry, MAX_CHOICES, MAX_LIST, PoolId};

impl Register {
    /// The pool that a field names.
    pub fn pool(&self, field: &[u8]) -> Result<PoolId, Cause>
        requires { IsRegister self.now }
        ensures pool { IfOk result (λ P. P.0 ≡ number_among self.now.pool_codes field.now) }
        ensures known { IfOk result (λ P. P.0 < length self.now.pools.items) }
        ensures cause { FailsBy (name_cause UnknownPool self.now.pool_codes field.now) result }
    {
        match self.pool_codes.find_bytes(field) {
            Some(number) => Ok(PoolId(number)),
            None => Err(Cause::UnknownPool),
        }
    }

    /// The applicant that a field names, who must be present.
    pub fn member(&self, field: &[u8]) -> Result<AppId, Cause>
        requires { IsRegister self.now }
        ensures number { IfOk result (λ a. applicant_number (draft_of self.now) field.now ≡ a.0) }
        ensures member { IfOk result (λ a. IsMember (draft_of self.now) a.0) }
        ensures cause { FailsBy (present_cause (draft_of self.now) field.now) result }
    {
        match self.app_codes.find_bytes(field) {
            Some(number) if self.roll.present[number as usize] => Ok(AppId(number)),
            _ => Err(Cause::UnknownApplicant),
        }
    }

    /// The choices of an applicant.
    pub fn own(&self, app: AppId) -> &[Entry]
        requires { app.0 < length (lists_of self.now.roll) }
        ensures { result.now ≡ choices_of (draft_of self.now) app.0 }
    {
        list_at(&self.roll.lists, app.0 as usize)
    }

    /// Tests that one more application may be added, to these choices of an applicant.
    pub fn has_room(&self, own: &[Entry]) -> Result<(), Cause>
        requires { IsRegister self.now }
        ensures few { OnOk result (application_count (draft_of self.now) < MAX_CHOICES) }
        ensures short { OnOk result (length own.now < MAX_LIST) }
        ensures cause { FailsBy (room_cause (draft_of self.now) own.now) result }
    {
        if self.roll.applications >= MAX_CHOICES {
            return Err(Cause::TooMany);
        }
        if own.len() >= MAX_LIST {
            return Err(Cause::ListTooLong);
        }
        Ok(())
    }
}
