ghost use Rattle.std.specs.Prelude.{◌≡◌, ◌≤◌, ◌<◌, ◌++◌, length, IfOk, OnOk};
ghost use Rattle.sl_codes.specs.Records.{field_of};
ghost use Rattle.sl_amend.specs.Parts.{record_of};
ghost use Rattle.sl_amend.specs.Fields.{pieces, start_of, AreEnds};

use crate::parts::Parts;
use sl_types::OutOfMemory;
use std::alloc::{AllocError, Global};
use std::marker::Model;

/// The five fields of a record, as bytes. Contracts see the list of them.
#[derive(Drop)]
pub struct Fields {
    // The bytes of all fields, one after another.
    bytes: Vec<u8>,
    // Where each field ends.
    ends: [usize; 5],
}

impl Model for Fields {
    ghost use Rattle.std.specs.Prelude.{◌≡◌, ℕ, List, length};
    ghost use Rattle.sl_amend.specs.Fields.{pieces, AreEnds};

    ghost Value = { List (List ℕ) };

    ghost view = { λ s. pieces s.bytes.items 0 s.ends };

    ghost invariant = { λ s. (length s.ends ≡ 5) × AreEnds s.bytes.items s.ends };
}

/// One record of an amendment file: `kind,subject,place,programme,number`.
#[derive(Drop)]
pub struct Row {
    pub fields: Fields,
}

// Adds the bytes of one more field, and says where it ends.
fn push_field(bytes: &mut Vec<u8>, field: &[u8]) -> Result<usize, AllocError>
    ensures bytes { OnOk result (bytes.new.items ≡ bytes.old.items ++ field.now) }
    ensures end { IfOk result (λ end. end ≡ length bytes.new.items) }
    ensures after { IfOk result (λ end. length bytes.old.items ≤ end) }
{
    bytes.extend_from_slice(field)?;
    Ok(bytes.len())
}

// Where a field begins, where each ends at one of these places.
fn start_of(ends: &[usize], k: usize) -> usize
    requires { k < length ends.now }
    ensures { result ≡ start_of 0 ends.now k }
{
    if k == 0 { 0 } else { ends[k - 1] }
}

// A field of these bytes, where each ends at one of these places.
#[tactic(auto, using(crate::proofs::Pieces::piece_at))]
fn piece<'a>(bytes: &'a [u8], ends: &[usize], k: usize) -> &'a [u8]
    requires within { k < length ends.now }
    requires ends { AreEnds bytes.now ends.now }
    ensures { result.now ≡ field_of (pieces bytes.now 0 ends.now) k }
{
    let start = start_of(ends, k);
    &bytes[start..ends[k]]
}

impl Fields {
    // The same byte strings, in one vector.
    fn of(alloc: Global, parts: Parts) -> Result<Fields, AllocError>
        ensures { IfOk result (λ fields. fields ≡ record_of parts.entry) }
    {
        let mut bytes = Vec::new(alloc);
        let first = push_field(&mut bytes, parts.kind)?;
        let second = push_field(&mut bytes, parts.subject)?;
        let third = push_field(&mut bytes, parts.place)?;
        let fourth = push_field(&mut bytes, parts.programme)?;
        let fifth = push_field(&mut bytes, parts.number)?;
        Ok(Fields {
            bytes,
            ends: [first, second, third, fourth, fifth],
        })
    }

    /// The field of a number, counted from 0. It takes no memory.
    pub fn get(&self, k: usize) -> &[u8]
        requires { k < 5 }
        ensures field { result.now ≡ field_of self.now k }
        ensures five { length self.now ≡ 5 }
    {
        piece(self.bytes.as_slice(), &self.ends, k)
    }

    // All fields.
    #[tactic(auto, using(crate::proofs::Pieces::five_fields))]
    pub(crate) fn parts(&self) -> Parts
        ensures { record_of result ≡ self.now }
    {
        Parts {
            kind: self.get(0),
            subject: self.get(1),
            place: self.get(2),
            programme: self.get(3),
            number: self.get(4),
        }
    }
}

impl Row {
    // The row of these fields.
    pub(crate) fn of(alloc: Global, parts: Parts) -> Result<Row, AllocError>
        ensures { IfOk result (λ row. row.fields ≡ record_of parts.entry) }
    {
        let fields = Fields::of(alloc, parts)?;
        Ok(Row { fields })
    }

    /// A row with the same fields.
    pub fn copy(&self, alloc: Global) -> Result<Row, OutOfMemory>
        ensures { IfOk result (λ row. row.fields ≡ self.now.fields) }
    {
        Ok(Row::of(alloc, self.fields.parts())?)
    }
}
