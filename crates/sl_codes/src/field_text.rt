ghost use Rattle.std.specs.Prelude.{◌≡◌, ◌==◌, ◌++◌, ◌∷◌, [], OnOk, flat_map};
ghost use Rattle.std.specs.List.{list_any};
ghost use Rattle.sl_codes.specs.RecordText.{is_set_apart, doubled, field_text, later_text, text_of_record, bytes_of_field, record_of};

use itoa::Buffer;
use std::alloc::AllocError;

/// A field of a record that is printed.
#[derive(Clone, Copy)]
pub enum Field<'a> {
    /// A text as it is.
    Text(&'a str),
    /// A number in decimal digits, without leading zeros.
    Number(u64),
}

const COMMA: u8 = b',';

const QUOTE: u8 = b'"';

// Whether a field must stand in quotes.
fn is_quoted(field: &[u8]) -> bool
    ensures { result ≡ list_any is_set_apart field.now }
{
    field.iter().any(|b| *b == COMMA || *b == QUOTE)
}

// Appends a field with each quote twice.
fn push_doubled(text: &mut Vec<u8>, field: &[u8]) -> Result<(), AllocError>
    ensures { OnOk result (text.new.items ≡ text.old.items ++ flat_map doubled field.now) }
{
    for byte in field {
        if *byte == QUOTE {
            text.push(QUOTE)?;
        }
        text.push(*byte)?;
    }
    Ok(())
}

// Appends the text of a field of these bytes.
fn push_bytes(text: &mut Vec<u8>, field: &[u8]) -> Result<(), AllocError>
    ensures { OnOk result (text.new.items ≡ text.old.items ++ field_text field.now) }
{
    if !is_quoted(field) {
        text.extend_from_slice(field)?;
        return Ok(());
    }
    text.push(QUOTE)?;
    push_doubled(text, field)?;
    text.push(QUOTE)?;
    Ok(())
}

// Appends the text of a field.
fn push_field(text: &mut Vec<u8>, field: &Field) -> Result<(), AllocError>
    ensures { OnOk result
        (text.new.items ≡ text.old.items ++ field_text (bytes_of_field field.now)) }
{
    match field {
        Field::Text(code) => push_bytes(text, code.as_bytes()),
        Field::Number(number) => {
            let mut buffer = Buffer::new();
            push_bytes(text, buffer.format(*number).as_bytes())
        }
    }
}

// Appends fields, each behind a comma.
fn push_later(text: &mut Vec<u8>, fields: &[Field]) -> Result<(), AllocError>
    ensures { OnOk result
        (text.new.items ≡ text.old.items ++ flat_map later_text (record_of fields.now)) }
{
    for field in fields {
        text.push(COMMA)?;
        push_field(text, field)?;
    }
    Ok(())
}

/// Appends the line of a record.
pub fn push_record(text: &mut Vec<u8>, fields: &[Field]) -> Result<(), AllocError>
    ensures { OnOk result
        (text.new.items ≡ text.old.items ++ text_of_record (record_of fields.now)) }
{
    if let [first, later @ ..] = fields {
        push_field(text, first)?;
        push_later(text, later)?;
    }
    text.push(b'\n')?;
    Ok(())
}
