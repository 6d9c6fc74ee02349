ghost use Rattle.std.specs.Prelude.{◌≡◌, ◌<◌, ◌≤◌, ◌==◌, true, false, Some, length, position, is_some, IfOk, IfSome};
ghost use Rattle.sl_types.specs.declared.kinds.TheConstants.{MAX_QUOTA, MAX_PLACE};
ghost use Rattle.sl_types.specs.Rules.{names_prog};
ghost use Rattle.sl_codes.specs.Codes.{number_of};
ghost use Rattle.sl_codes.specs.Faults.{FailsBy};
ghost use Rattle.sl_codes.specs.Fields.{number_in};
ghost use Rattle.sl_pools.specs.Pools.{quota_cause};
ghost use Rattle.sl_choices.specs.Choices.{number_among, place_cause, prog_cause};
ghost use Rattle.sl_amend.specs.Applied.{choice_of};
ghost use Rattle.sl_amend.specs.Causes.{empty_cause, takes_place, choice_cause, chosen_cause};
ghost use Rattle.sl_amend.specs.Parts.{record_of};
ghost use Rattle.sl_amend.specs.Roll.{is_choice};

use crate::parts::Parts;
use sl_codes::{Cause, Codes, number, number_within};
use sl_types::{Entry, MAX_PLACE, MAX_QUOTA, MAX_SCORE, ProgId};

/// A field that must be empty.
pub fn empty(field: &[u8]) -> Result<(), Cause>
    ensures { FailsBy (empty_cause field.now) result }
{
    if field.is_empty() {
        Ok(())
    } else {
        Err(Cause::NotEmpty)
    }
}

/// The quota of a field.
pub fn quota(field: &[u8]) -> Result<u32, Cause>
    ensures quota { IfOk result (λ n. n ≡ number_in field.now) }
    ensures low { IfOk result (λ n. 1 ≤ n) }
    ensures high { IfOk result (λ n. n ≤ MAX_QUOTA) }
    ensures cause { FailsBy (quota_cause field.now) result }
{
    let Some(quota) = number(field) else {
        return Err(Cause::BadNumber);
    };
    if quota < 1 || quota > MAX_QUOTA {
        return Err(Cause::BadQuota);
    }
    Ok(quota)
}

fn takes_place(own: &[Entry], place: u32) -> bool
    ensures { result ≡ takes_place place own.now }
{
    own.iter().any(|choice| choice.place == place)
}

fn first_of(own: &[Entry], prog: u32) -> Option<usize>
    ensures index { result ≡ position (λ e. e.prog.0 == prog) own.now }
    ensures within { IfSome result (λ at. at < length own.now) }
{
    own.iter().position(|choice| choice.prog.0 == prog)
}

// The index of the choice of a programme.
#[tactic(auto, using(crate::proofs::Ordered::found_is))]
fn index_of(own: &[Entry], prog: u32) -> Option<usize>
    ensures index { result ≡ position (λ e. e.prog.0 == prog) own.now }
    ensures within { IfSome result (λ at. at < length own.now) }
    ensures found { is_some result ≡ names_prog prog own.now }
{
    first_of(own, prog)
}

fn names_prog(own: &[Entry], prog: u32) -> bool
    ensures { result ≡ names_prog prog own.now }
{
    own.iter().any(|choice| choice.prog.0 == prog)
}

// The place of one more choice, beside the applicant's own.
fn place(own: &[Entry], field: &[u8]) -> Result<u32, Cause>
    ensures place { IfOk result (λ n. n ≡ number_in field.now) }
    ensures low { IfOk result (λ n. 1 ≤ n) }
    ensures high { IfOk result (λ n. n ≤ MAX_PLACE) }
    ensures free { IfOk result (λ n. takes_place n own.now ≡ false) }
    ensures cause { let taken = takes_place (number_in field.now) own.now in
        FailsBy (place_cause taken field.now) result }
{
    let place = number_within(field, 1, MAX_PLACE)?;
    if takes_place(own, place) {
        return Err(Cause::RepeatedPlace);
    }
    Ok(place)
}

// The programme of one more choice, beside the applicant's own.
fn programme(progs: &Codes, own: &[Entry], field: &[u8]) -> Result<ProgId, Cause>
    ensures prog { IfOk result (λ g. g.0 ≡ number_among progs.now field.now) }
    ensures known { IfOk result (λ g. g.0 < length progs.now) }
    ensures free { IfOk result (λ g. names_prog g.0 own.now ≡ false) }
    ensures cause { let taken = names_prog (number_among progs.now field.now) own.now in
        FailsBy (prog_cause progs.now taken field.now) result }
{
    let Some(prog) = progs.find_bytes(field) else {
        return Err(Cause::UnknownProgramme);
    };
    if names_prog(own, prog) {
        return Err(Cause::RepeatedChoice);
    }
    Ok(ProgId(prog))
}

/// The choice that a row adds to those of its applicant.
pub fn choice(progs: &Codes, own: &[Entry], row: Parts) -> Result<Entry, Cause>
    ensures choice { IfOk result (λ e. e ≡ choice_of progs.now (record_of row.entry)) }
    ensures fits { IfOk result (λ e. is_choice (length progs.now) e ≡ true) }
    ensures place { IfOk result (λ e. takes_place e.place own.now ≡ false) }
    ensures prog { IfOk result (λ e. names_prog e.prog.0 own.now ≡ false) }
    ensures cause { FailsBy (choice_cause progs.now own.now (record_of row.entry)) result }
{
    let place = place(own, row.place)?;
    let prog = programme(progs, own, row.programme)?;
    let score = number_within(row.number, 0, MAX_SCORE)?;
    Ok(Entry { place, prog, score })
}

/// The index of the choice that a field names by its programme.
pub fn chosen(progs: &Codes, own: &[Entry], field: &[u8]) -> Result<usize, Cause>
    ensures index { let g = number_among progs.now field.now in
        IfOk result (λ at. position (λ e. e.prog.0 == g) own.now ≡ Some at) }
    ensures within { IfOk result (λ at. at < length own.now) }
    ensures cause { FailsBy (chosen_cause progs.now own.now field.now) result }
{
    let Some(prog) = progs.find_bytes(field) else {
        return Err(Cause::UnknownProgramme);
    };
    match index_of(own, prog) {
        Some(at) => Ok(at),
        None => Err(Cause::UnknownChoice),
    }
}
