ghost use Rattle.std.specs.Prelude.{◌≡◌, ◌<◌, ◌≤◌, ◌+◌, ◌-◌, ◌^◌, ◌∷◌, ◌++◌, [], true, false, length, vec_len, vec_capacity, OnOk, OnErr};
ghost use Rattle.sl_types.specs.declared.kinds.TheConstants.{MAX_APPLICANTS, MAX_CHOICES};
ghost use Rattle.sl_codes.specs.Codes.{has_code};
ghost use Rattle.sl_amend.specs.Merits.{SameTrees};
ghost use Rattle.sl_amend.specs.Roll.{is_choice, is_list, IsRoll, lists_of, programmes};

use crate::roll::Roll;
use sl_codes::Codes;
use sl_types::{Entry, OutOfMemory};
use std::alloc::{AllocError, Global};

impl Roll {
    // Takes the memory that one more applicant needs.
    fn make_room(&mut self) -> Result<(), AllocError>
        ensures lists { self.new.lists.items ≡ self.old.lists.items }
        ensures present { self.new.present.items ≡ self.old.present.items }
        ensures merits { self.new.merits ≡ self.old.merits }
        ensures applicants { self.new.applicants ≡ self.old.applicants }
        ensures applications { self.new.applications ≡ self.old.applications }
        ensures list_room { OnOk result (vec_len self.new.lists < vec_capacity self.new.lists) }
        ensures mark_room { OnOk result (vec_len self.new.present < vec_capacity self.new.present) }
    {
        self.lists.reserve(1)?;
        self.present.reserve(1)?;
        Ok(())
    }

    // One more applicant, whose choices are held already, in memory that was taken.
    fn push_applicant(&mut self, list: Vec<Entry>)
        requires list_room { vec_len self.old.lists < vec_capacity self.old.lists }
        requires mark_room { vec_len self.old.present < vec_capacity self.old.present }
        requires few_applicants { self.old.applicants < MAX_APPLICANTS }
        requires few { self.old.applications + length list.items ≤ MAX_CHOICES }
        ensures lists { lists_of self.new ≡ lists_of self.old ++ list.items ∷ [] }
        ensures present { self.new.present.items ≡ self.old.present.items ++ true ∷ [] }
        ensures merits { self.new.merits ≡ self.old.merits }
        ensures applicants { self.new.applicants ≡ self.old.applicants + 1 }
        ensures applications { self.new.applications ≡ self.old.applications + length list.items }
    {
        self.applicants += 1;
        self.applications += list.len();
        if self.lists.push(list).is_err() {
            unreachable!()
        }
        if self.present.push(true).is_err() {
            unreachable!()
        }
    }

    /// One more applicant, who is present and has these choices. After an error the roll is of no
    /// use.
    pub fn push_list(&mut self, list: Vec<Entry>) -> Result<(), AllocError>
        requires roll { IsRoll self.old }
        requires in_order { is_list (programmes self.old.merits) list.items ≡ true }
        requires few_applicants { self.old.applicants < MAX_APPLICANTS }
        requires few { self.old.applications + length list.items ≤ MAX_CHOICES }
        ensures lists { OnOk result (lists_of self.new ≡ lists_of self.old ++ list.items ∷ []) }
        ensures present { let marks = self.old.present.items in
            OnOk result (self.new.present.items ≡ marks ++ true ∷ []) }
        ensures trees { SameTrees self.old.merits self.new.merits }
        ensures applicants { OnOk result (self.new.applicants ≡ self.old.applicants + 1) }
        ensures applications { OnOk result
            (self.new.applications ≡ self.old.applications + length list.items) }
        ensures roll { OnOk result (IsRoll self.new) }
    {
        self.make_room()?;
        self.merits.raise_all(&list)?;
        self.push_applicant(list);
        Ok(())
    }
}

/// One more applicant of a code that isn't there, who is present and has one choice.
pub fn join(
    alloc: Global,
    roll: &mut Roll,
    codes: &mut Codes,
    code: &str,
    choice: Entry,
) -> Result<(), OutOfMemory>
    requires roll { IsRoll roll.old }
    requires choice { is_choice (programmes roll.old.merits) choice ≡ true }
    requires few_applicants { roll.old.applicants < MAX_APPLICANTS }
    requires few { roll.old.applications < MAX_CHOICES }
    requires few_codes { length codes.old < 2 ^ 32 - 1 }
    requires is_new { has_code codes.old code.now ≡ false }
    ensures lists { OnOk result (lists_of roll.new ≡ lists_of roll.old ++ (choice ∷ []) ∷ []) }
    ensures present { OnOk result (roll.new.present.items ≡ roll.old.present.items ++ true ∷ []) }
    ensures codes { OnOk result (codes.new ≡ codes.old ++ code.now ∷ []) }
    ensures same_lists { OnErr result (lists_of roll.new ≡ lists_of roll.old) }
    ensures same_present { OnErr result (roll.new.present.items ≡ roll.old.present.items) }
    ensures same_codes { OnErr result (codes.new ≡ codes.old) }
    ensures trees { SameTrees roll.old.merits roll.new.merits }
    ensures roll { IsRoll roll.new }
{
    let list = Vec::from_slice(alloc, &[choice])?;
    roll.make_room()?;
    roll.merits.raise(&choice)?;
    match codes.add(code) {
        Ok(_) => {
            roll.push_applicant(list);
            Ok(())
        }
        Err(e) => {
            roll.merits.lower(&choice);
            Err(e)
        }
    }
}
