ghost use Rattle.std.specs.Prelude.{◌≡◌, ◌≤◌, ◌&&◌, length, position, IfOk};
ghost use Rattle.csv.specs.Records.{fields_of};
ghost use Rattle.sl_types.specs.declared.kinds.TheConstants.{MAX_LIST};
ghost use Rattle.sl_codes.specs.Faults.{FailsBy};
ghost use Rattle.sl_codes.specs.Fields.{number_in};
ghost use Rattle.sl_codes.specs.Records.{field_of};
ghost use Rattle.sl_doc.specs.Reading.{has_word, has_naming, empty_cause, rule_cause, limit_cause, is_choice, choice_index, index_of, admit_cause, raise_cause, raise_of, count_cause, end_cause};

use crate::texts::letter;
use csv::ByteRecord;
use sl_codes::{Cause, Codes, field, number, number_within};
use sl_types::{Entry, MAX_APPLICANTS, MAX_PLACE, MAX_SCORE, PoolId, Raise, Rule};

/// Whether a record begins with a word.
pub fn has_word(row: &ByteRecord, word: &str) -> bool
    requires { length (fields_of row.now) ≡ 4 }
    ensures { result ≡ has_word word.now (fields_of row.now) }
{
    field(row, 0) == word.as_bytes()
}

// Whether a record begins with a word and a code.
fn has_naming(row: &ByteRecord, word: &str, code: &str) -> bool
    requires { length (fields_of row.now) ≡ 4 }
    ensures { result ≡ has_naming word.now code.now (fields_of row.now) }
{
    has_word(row, word) && field(row, 1) == code.as_bytes()
}

// What is wrong with a field that must be empty.
fn check_empty(field: &[u8]) -> Result<(), Cause>
    ensures { FailsBy (empty_cause field.now) result }
{
    if field.is_empty() {
        Ok(())
    } else {
        Err(Cause::NotEmpty)
    }
}

/// What is wrong with the record of the rule.
pub fn check_rule(row: &ByteRecord, rule: Rule) -> Result<(), Cause>
    requires { length (fields_of row.now) ≡ 4 }
    ensures { FailsBy (rule_cause rule (fields_of row.now)) result }
{
    if !has_word(row, "rule") {
        return Err(Cause::OutOfOrder);
    }
    if field(row, 1) != letter(rule).as_bytes() {
        return Err(Cause::RuleDiffers);
    }
    check_empty(field(row, 2))?;
    check_empty(field(row, 3))
}

/// The limit and the count in the record of the pool with this code.
pub fn limit_and_count(row: &ByteRecord, code: &str) -> Result<(u32, u32), Cause>
    requires { length (fields_of row.now) ≡ 4 }
    ensures limit { IfOk result (λ r. r.0 ≡ number_in (field_of (fields_of row.now) 2)) }
    ensures count { IfOk result (λ r. r.1 ≡ number_in (field_of (fields_of row.now) 3)) }
    ensures cause { FailsBy (limit_cause code.now (fields_of row.now)) result }
{
    if !has_naming(row, "limit", code) {
        return Err(Cause::OutOfOrder);
    }
    let limit = number_within(field(row, 2), 0, MAX_SCORE + 1)?;
    let count = number_within(field(row, 3), 0, MAX_APPLICANTS as u32)?;
    Ok((limit, count))
}

// The index of the choice at a place, of the programme with a number.
fn index_at(choices: &[Entry], place: u32, prog: u32) -> Option<usize>
    ensures { result ≡ position (is_choice place prog) choices.now }
{
    choices
        .iter()
        .position(|choice| choice.place == place && choice.prog.0 == prog)
}

// The index of the choice at a place, of a programme that may be known.
#[tactic(auto, using(crate::proofs::Indexes::first_or_len, crate::proofs::Indexes::index_low))]
fn choice_index(choices: &[Entry], place: u32, prog: Option<u32>) -> usize
    ensures index { result ≡ choice_index choices.now place prog }
    ensures low { result ≤ length choices.now }
{
    match prog {
        Some(prog) => index_at(choices, place, prog).unwrap_or(choices.len()),
        None => choices.len(),
    }
}

/// The index of the choice in the record of an applicant with this code and these choices.
pub fn admitted_index(
    row: &ByteRecord,
    code: &str,
    choices: &[Entry],
    progs: &Codes,
) -> Result<u32, Cause>
    requires width { length (fields_of row.now) ≡ 4 }
    requires few { length choices.now ≤ MAX_LIST }
    ensures index { IfOk result (λ i. i ≡ index_of progs.now choices.now (fields_of row.now)) }
    ensures low { IfOk result (λ i. i ≤ length choices.now) }
    ensures cause { let cause = admit_cause progs.now code.now choices.now (fields_of row.now) in
        FailsBy cause result }
{
    if !has_naming(row, "admit", code) {
        return Err(Cause::OutOfOrder);
    }
    let place = number_within(field(row, 2), 0, MAX_PLACE)?;
    let programme = field(row, 3);
    let index = choice_index(choices, place, progs.find_bytes(programme));
    let names_none = place == 0 && programme.is_empty();
    if index >= choices.len() && !names_none {
        return Err(Cause::UnknownChoice);
    }
    Ok(index as u32)
}

/// The raise in a record.
pub fn raise(row: &ByteRecord, pools: &Codes) -> Result<Raise, Cause>
    requires { length (fields_of row.now) ≡ 4 }
    ensures raise { IfOk result (λ r. r ≡ raise_of pools.now (fields_of row.now)) }
    ensures cause { FailsBy (raise_cause pools.now (fields_of row.now)) result }
{
    let Some(pool) = pools.find_bytes(field(row, 1)) else {
        return Err(Cause::UnknownPool);
    };
    let limit = number_within(field(row, 2), 1, MAX_SCORE + 1)?;
    check_empty(field(row, 3))?;
    Ok(Raise {
        pool: PoolId(pool),
        limit,
    })
}

// What is wrong with a field that must be this number.
fn check_count(field: &[u8], count: usize) -> Result<(), Cause>
    ensures { FailsBy (count_cause count field.now) result }
{
    let Some(found) = number(field) else {
        return Err(Cause::BadNumber);
    };
    if found as usize == count {
        Ok(())
    } else {
        Err(Cause::BadEnd)
    }
}

/// What is wrong with the record of the end, after so many records.
pub fn check_end(row: &ByteRecord, count: usize) -> Result<(), Cause>
    requires { length (fields_of row.now) ≡ 4 }
    ensures { FailsBy (end_cause count (fields_of row.now)) result }
{
    check_count(field(row, 1), count)?;
    check_empty(field(row, 2))?;
    check_empty(field(row, 3))
}
