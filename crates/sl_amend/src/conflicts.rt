ghost use Rattle.std.specs.Prelude.{◌≡◌, ◌<◌, ◌==◌, true, length, find, option_map, IfSome};
ghost use Rattle.std.specs.List.{list_all};
ghost use Rattle.sl_types.specs.Market.{list_of};
ghost use Rattle.sl_instance.specs.Lists.{contents};
ghost use Rattle.sl_amend.specs.Causes.{subject_field};
ghost use Rattle.sl_amend.specs.Change.{choices_of};
ghost use Rattle.sl_amend.specs.DraftMarket.{applicant_number, own_choices};
ghost use Rattle.sl_amend.specs.Files.{choice_of_prog, choice_named, makes_choice, names_differing, names_tied, NamesNone};
ghost use Rattle.sl_amend.specs.Kinds.{kind_of};
ghost use Rattle.sl_amend.specs.Merits.{is_in_none};
ghost use Rattle.sl_amend.specs.Parts.{record_of};
ghost use Rattle.sl_amend.specs.Register.{draft_of, IsRegister};
ghost use Rattle.sl_amend.specs.Roll.{is_choice, lists_of};

use crate::kind::Kind;
use crate::merits::{Merits, is_contradicted};
use crate::parts::Parts;
use crate::register::Register;
use crate::roll::list_at;
use sl_types::{AppId, Entry};

/// In what conflicts a choice is: with another choice of its applicant, and with one of another
/// applicant.
#[derive(Clone, Copy)]
pub struct Conflict {
    pub differs: bool,
    pub ties: bool,
}

// Whether a row of this kind names a choice that may stand afterwards.
fn makes_choice(kind: Option<Kind>) -> bool
    ensures { result ≡ makes_choice kind }
{
    match kind {
        Some(Kind::New) | Some(Kind::Add) | Some(Kind::Score) => true,
        _ => false,
    }
}

// The choice of a programme among these.
fn choice_of_prog(choices: &[Entry], prog: u32) -> Option<Entry>
    ensures { result ≡ choice_of_prog choices.now prog }
{
    choices.iter().copied().find(|choice| choice.prog.0 == prog)
}

// Whether no choice of these lists, one for each applicant, is in a conflict.
fn are_in_none(merits: &Merits, lists: &[Vec<Entry>]) -> bool
    ensures { result ≡ list_all (is_in_none merits.now) (contents lists.now) }
{
    for app in 0..lists.len() {
        if !merits.is_in_none(list_at(lists, app)) {
            return false;
        }
    }
    true
}

impl Register {
    // The applicant and the choice that a row of kind `new`, `add` or `score` names, where it
    // stands.
    fn choice_named(&self, row: Parts) -> Option<(AppId, Entry)>
        requires { IsRegister self.now }
        ensures choice { let draft = draft_of self.now in
            option_map (λ p. p.1) result ≡ choice_named draft (record_of row.entry) }
        ensures number { let draft = draft_of self.now in
            IfSome result (λ p. applicant_number draft row.entry.subject.now ≡ p.0.0) }
        ensures known { IfSome result (λ p. p.0.0 < length (lists_of self.now.roll)) }
    {
        if !makes_choice(Kind::of(row.kind)) {
            return None;
        }
        let (Some(app), Some(prog)) = (
            self.app_codes.find_bytes(row.subject),
            self.prog_codes.find_bytes(row.programme),
        ) else {
            return None;
        };
        match choice_of_prog(self.own(AppId(app)), prog) {
            Some(choice) => Some((AppId(app), choice)),
            None => None,
        }
    }

    /// Whether no choice is in a conflict. Then no row names one that is.
    #[tactic(auto, using(crate::proofs::Named::names_none))]
    pub fn has_no_conflict(&self) -> bool
        requires { IsRegister self.now }
        ensures { result ≡ true → NamesNone (draft_of self.now) }
    {
        are_in_none(&self.roll.merits, &self.roll.lists)
    }

    /// In what conflicts the choice is that a row names, where it stands.
    pub fn conflict_named(&self, row: Parts) -> Conflict
        requires { IsRegister self.now }
        ensures differs { let draft = draft_of self.now in
            result.differs ≡ names_differing draft (record_of row.entry) }
        ensures ties { let draft = draft_of self.now in
            result.ties ≡ names_tied draft (record_of row.entry) }
    {
        match self.choice_named(row) {
            Some((app, choice)) => {
                let own = self.own(app);
                Conflict {
                    differs: is_contradicted(&self.roll.merits.trees, own, &choice),
                    ties: self.roll.merits.is_held_beyond(own, &choice),
                }
            }
            None => Conflict {
                differs: false,
                ties: false,
            },
        }
    }
}
