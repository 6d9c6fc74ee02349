ghost use Rattle.std.specs.Prelude.{◌≡◌, ◌==◌, ◌<◌, ◌-◌, ◌^◌, [], not, Some, length, slice_get, map, string_bytes, IfOk, IfSome, OnOk, OnErr, false, is_some, ◌++◌, ◌∷◌};
ghost use Rattle.std.specs.List.{IsDistinct};
ghost use Rattle.std.specs.Str.{bytes_eq};
ghost use Rattle.sl_codes.specs.Codes.{texts, has_code, number_of, with_code};

use indexmap::IndexSet;
use sl_types::OutOfMemory;
use std::alloc::{AllocError, Global};
use std::marker::Model;
use std::str;

/// Texts in first-seen order, each once: the number of a code is its place, from 0. Contracts see the list
/// of their bytes.
#[derive(Drop)]
pub struct Codes {
    set: IndexSet<String>,
}

impl Model for Codes {
    ghost use Rattle.std.specs.Prelude.{ℕ, List, length, ◌<◌, ◌^◌};
    ghost use Rattle.sl_codes.specs.Codes.{texts};

    ghost Value = { List (List ℕ) };

    ghost view = { λ s. texts s.set.keys };

    ghost invariant = { λ s. length s.set.keys < 2 ^ 32 };
}

// The number of a code.
#[tactic(auto, using(sl_types::proofs::Lists::position_map, crate::proofs::Lists::any_map))]
fn place(set: &IndexSet<String>, code: &str) -> Option<usize>
    ensures index { result ≡ number_of (texts set.now.keys) code.now }
    ensures within { IfSome result (λ i. i < length set.now.keys) }
    ensures found { is_some result ≡ has_code (texts set.now.keys) code.now }
{
    set.get_index_of(code)
}

// The number of the code of these bytes.
fn place_of_bytes(set: &IndexSet<String>, code: &[u8]) -> Option<usize>
    ensures index { result ≡ number_of (texts set.now.keys) code.now }
    ensures found { is_some result ≡ has_code (texts set.now.keys) code.now }
    ensures within { IfSome result (λ i. i < length set.now.keys) }
{
    match str::from_utf8(code) {
        Ok(text) => place(set, text),
        Err(_) => None,
    }
}

// How many codes there are.
#[tactic(auto, using(crate::proofs::Lists::distinct_map, sl_types::proofs::Lists::length_map))]
fn count(set: &IndexSet<String>) -> usize
    ensures count { result ≡ length set.now.keys }
    ensures once { IsDistinct bytes_eq (texts set.now.keys) }
{
    set.len()
}

// Adds a code that is not there.
#[tactic(auto, using(crate::proofs::Lists::any_map))]
fn push_new(set: &mut IndexSet<String>, code: String) -> Result<usize, AllocError>
    requires { has_code (texts set.old.keys) (string_bytes code) ≡ false }
    ensures keys { OnOk result (texts set.new.keys ≡ texts set.old.keys ++ string_bytes code ∷ []) }
    ensures index { IfOk result (λ i. i ≡ length set.old.keys) }
    ensures err { OnErr result (set.new.keys ≡ set.old.keys) }
{
    let (index, _) = set.insert_full(code)?;
    Ok(index)
}

impl Codes {
    /// No codes. It takes no memory.
    pub fn new(alloc: Global) -> Codes
        ensures { result ≡ [] }
    {
        Codes {
            set: IndexSet::new(alloc),
        }
    }

    /// How many codes there are.
    pub fn len(&self) -> usize
        ensures count { result ≡ length self.now }
        ensures few { length self.now < 2 ^ 32 }
        ensures once { IsDistinct bytes_eq self.now }
    {
        count(&self.set)
    }

    /// Whether there are none.
    pub fn is_empty(&self) -> bool
        ensures { result ≡ (length self.now == 0) }
    {
        self.set.is_empty()
    }

    /// The number of a code, where it is there.
    pub fn find(&self, code: &str) -> Option<u32>
        ensures { result ≡ number_of self.now code.now }
    {
        match place(&self.set, code) {
            Some(index) => Some(index as u32),
            None => None,
        }
    }

    /// The number of the code of these bytes, where it is there. Bytes that aren't UTF-8 are no code's.
    pub fn find_bytes(&self, code: &[u8]) -> Option<u32>
        ensures number { result ≡ number_of self.now code.now }
        ensures found { is_some result ≡ has_code self.now code.now }
        ensures within { IfSome result (λ n. n < length self.now) }
    {
        match place_of_bytes(&self.set, code) {
            Some(place) => Some(place as u32),
            None => None,
        }
    }

    /// The code of a number.
    pub fn text(&self, number: u32) -> &str
        requires { number < length self.now }
        ensures { slice_get self.now number ≡ Some result.now }
    {
        self.set.as_slice()[number as usize].as_str()
    }

    /// Adds a code where it is not there. Gives its number, and whether it is new.
    pub fn add(&mut self, code: &str) -> Result<(u32, bool), OutOfMemory>
        requires { length self.old < 2 ^ 32 - 1 }
        ensures codes { OnOk result (self.new ≡ with_code self.old code.now) }
        ensures number { IfOk result (λ r. number_of self.new code.now ≡ Some r.0) }
        ensures fresh { IfOk result (λ r. r.1 ≡ not (has_code self.old code.now)) }
        ensures err { OnErr result (self.new ≡ self.old) }
    {
        if let Some(index) = place(&self.set, code) {
            return Ok((index as u32, false));
        }
        let Ok(text) = String::from_str(*self.set.allocator(), code) else {
            return Err(OutOfMemory);
        };
        let Ok(index) = push_new(&mut self.set, text) else {
            return Err(OutOfMemory);
        };
        Ok((index as u32, true))
    }
}
