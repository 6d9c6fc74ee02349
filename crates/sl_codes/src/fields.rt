ghost use Rattle.std.specs.Prelude.{◌≡◌, ◌<◌, ◌-◌, ◌^◌, ◌∷◌, ◌++◌, [], length, None, Some, IfOk, IfErr, OnOk};
ghost use Rattle.std.specs.List.{list_all};
ghost use Rattle.std.specs.Char.{is_ascii_digit};
ghost use Rattle.sl_codes.specs.Fields.{has_code_form, is_code_byte, is_number, number_of_field, number_within};
ghost use Rattle.sl_codes.specs.Faults.{code_cause, new_code_cause, number_cause, FailsBy, IsWrong};

use crate::{Cause, Codes, RowError};
use std::str;

/// The greatest length of a code, in bytes.
pub const MAX_CODE: usize = 64;

fn has_code_bytes(field: &str) -> bool
    ensures { result ≡ list_all is_code_byte field.now }
{
    field.as_bytes().iter().all(|b| *b >= 0x20 && *b != 0x7F)
}

// Whether a text is a code.
fn has_code_form(text: &str) -> bool
    ensures { result ≡ has_code_form text.now }
{
    1 <= text.len() && text.len() <= MAX_CODE && has_code_bytes(text)
}

/// The text of a field that must be a code, or what is wrong with it.
pub fn code(field: &[u8]) -> Result<&str, Cause>
    ensures text { IfOk result (λ text. text.now ≡ field.now) }
    ensures cause { FailsBy (code_cause field.now) result }
{
    let Ok(text) = str::from_utf8(field) else {
        return Err(Cause::NotText);
    };
    if !has_code_form(text) {
        return Err(Cause::BadCode);
    }
    Ok(text)
}

/// Adds the code of a field, which must be one that isn't there yet.
pub fn add_code(codes: &mut Codes, field: &[u8], repeated: Cause) -> Result<(), RowError>
    requires { length codes.old < 2 ^ 32 - 1 }
    ensures codes { OnOk result (codes.new ≡ codes.old ++ field.now ∷ []) }
    ensures right { OnOk result (new_code_cause repeated codes.old field.now ≡ None) }
    ensures wrong { IfErr result (IsWrong (new_code_cause repeated codes.old field.now)) }
{
    let text = code(field)?;
    let (_, is_new) = codes.add(text)?;
    if is_new {
        Ok(())
    } else {
        Err(RowError::Bad(repeated))
    }
}

fn has_digits(text: &str) -> bool
    ensures { result ≡ list_all is_ascii_digit text.now }
{
    text.as_bytes().iter().all(|b| b.is_ascii_digit())
}

fn is_number(text: &str) -> bool
    ensures { result ≡ is_number text.now }
{
    1 <= text.len() && text.len() <= 9 && has_digits(text)
}

// The number of a text of 1 to 9 digits.
fn number_of_text(text: &str) -> Option<u32>
    ensures { result ≡ number_of_field text.now }
{
    if !is_number(text) {
        return None;
    }
    text.parse::<u32>().ok()
}

/// The number of a field of 1 to 9 digits.
pub fn number(field: &[u8]) -> Option<u32>
    ensures { result ≡ number_of_field field.now }
{
    match str::from_utf8(field) {
        Ok(text) => number_of_text(text),
        Err(_) => None,
    }
}

/// The number of a field that must be one from `low` to `high`.
pub fn number_within(field: &[u8], low: u32, high: u32) -> Result<u32, Cause>
    ensures number { IfOk result (λ n. number_within low high field.now ≡ Some n) }
    ensures cause { FailsBy (number_cause low high field.now) result }
{
    match number(field) {
        Some(value) if low <= value && value <= high => Ok(value),
        _ => Err(Cause::BadNumber),
    }
}
