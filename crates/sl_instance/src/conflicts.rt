ghost use Rattle.std.specs.Prelude.{◌≡◌, ℕ, nat_eq, length, map, ◌<◌, IfOk, IfSome, OnOk, Some};
ghost use Rattle.std.specs.HashMap.{get};
ghost use Rattle.sl_instance.specs.Conflicts.{differs, differs_from_known, KnowsMore, IsFirstConflict};
ghost use Rattle.sl_instance.specs.Causes.{keyed_row};

use crate::keyed::{Agreement, keyed_row};
use sl_choices::ChoiceRow;
use std::alloc::{AllocError, Global};
use std::collections::HashMap;

fn differs(value: u32, known: Option<u32>) -> bool
    ensures { result ≡ differs value known }
{
    match known {
        Some(known) => value != known,
        None => false,
    }
}

// Takes the value of a key that has none yet, and says whether the known value is another.
fn take_value(values: &mut HashMap<u64, u32>, key: u64, value: u32) -> Result<bool, AllocError>
    ensures differs { IfOk result (λ b. b ≡ differs value (get nat_eq values.old key)) }
    ensures kept { OnOk result (KnowsMore values.old values.new (Some (key, value))) }
{
    let known = values.get(&key).copied();
    if known.is_none() {
        values.insert(key, value)?;
    }
    Ok(differs(value, known))
}

fn take_row(values: &mut HashMap<u64, u32>, row: Option<(u64, u32)>) -> Result<bool, AllocError>
    ensures differs { IfOk result (λ b. b ≡ differs_from_known (get nat_eq values.old) row) }
    ensures kept { OnOk result (KnowsMore values.old values.new row) }
{
    match row {
        Some((key, value)) => take_value(values, key, value),
        None => Ok(false),
    }
}

// The index of the first row that has the key of an earlier one with another value.
pub fn first_conflict(
    alloc: Global,
    agreement: Agreement,
    trees: &[Option<u32>],
    rows: &[ChoiceRow],
) -> Result<Option<usize>, AllocError>
    ensures within { IfOk result (λ first. IfSome first (λ k. k < length rows.now)) }
    ensures first { IfOk result (IsFirstConflict (map (keyed_row agreement trees.now) rows.now)) }
{
    let mut values = HashMap::new(alloc);
    for at in 0..rows.len() {
        if take_row(&mut values, keyed_row(agreement, trees, &rows[at]))? {
            return Ok(Some(at));
        }
    }
    Ok(None)
}
