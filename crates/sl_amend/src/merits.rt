ghost use Rattle.std.specs.Prelude.{◌≡◌, ℕ, ◌+◌, ◌-◌, ◌*◌, ◌<◌, ◌^◌, ◌&&◌, ◌==◌, not, length, OnOk, OnErr};
ghost use Rattle.sl_types.specs.declared.kinds.TheConstants.{MAX_SCORE};
ghost use Rattle.sl_types.specs.Trees.{tree_at, merit_key};
ghost use Rattle.sl_amend.specs.Merits.{held_in, ChangesOnly, held_at, has_key, count_at, count_in, Holds, SameTrees, in_one_tree, is_contradicted, is_contradicted_beside, is_held_beyond, is_in_none, conflict_found};

use sl_codes::Cause;
use sl_types::{Entry, MAX_SCORE};
use std::alloc::AllocError;
use std::collections::HashMap;

/// How many choices hold each merit of each tree.
#[derive(Drop)]
pub struct Merits {
    /// The tree of each programme whose pool is a merit pool.
    pub trees: Vec<Option<u32>>,
    /// By the number of a tree and a merit in it.
    pub held: HashMap<u64, u32>,
}

fn tree_at(trees: &[Option<u32>], choice: &Entry) -> Option<u32>
    ensures { result ≡ tree_at trees.now choice.now }
{
    match trees.get(choice.prog.0 as usize) {
        Some(tree) => *tree,
        None => None,
    }
}

// One number for a tree and a score in it.
fn key_of(tree: u32, score: u32) -> u64
    ensures { result ≡ tree * (MAX_SCORE + 1) + score }
{
    u64::from(tree) * (u64::from(MAX_SCORE) + 1) + u64::from(score)
}

// One number for the tree of a choice and the score there.
fn merit_key(trees: &[Option<u32>], choice: &Entry) -> Option<u64>
    ensures { result ≡ merit_key trees.now choice.now }
{
    match tree_at(trees, choice) {
        Some(tree) => Some(key_of(tree, choice.score)),
        None => None,
    }
}

fn in_one_tree(trees: &[Option<u32>], choice: &Entry, other: &Entry) -> bool
    ensures { result ≡ in_one_tree trees.now choice.now other.now }
{
    match (tree_at(trees, choice), tree_at(trees, other)) {
        (Some(tree), Some(its)) => tree == its,
        _ => false,
    }
}

/// Whether one of these choices is in the tree of a choice and has another score.
pub fn is_contradicted(trees: &[Option<u32>], choices: &[Entry], choice: &Entry) -> bool
    ensures { result ≡ is_contradicted trees.now choices.now choice.now }
{
    choices.iter().any(|other| in_one_tree(trees, choice, other) && choice.score != other.score)
}

// Whether one of these choices, of another programme, is in the tree of a choice and has another
// score.
fn is_contradicted_beside(trees: &[Option<u32>], choices: &[Entry], choice: &Entry) -> bool
    ensures { result ≡ is_contradicted_beside trees.now choices.now choice.now }
{
    choices.iter().any(|other| {
        other.prog != choice.prog
            && in_one_tree(trees, choice, other)
            && choice.score != other.score
    })
}

fn has_key(trees: &[Option<u32>], key: u64, choice: &Entry) -> bool
    ensures { result ≡ has_key trees.now key choice.now }
{
    match merit_key(trees, choice) {
        Some(its) => key == its,
        None => false,
    }
}

// How many of these choices have a number.
fn count_in(trees: &[Option<u32>], key: u64, choices: &[Entry]) -> usize
    ensures { result ≡ count_in trees.now key choices.now }
{
    choices
        .iter()
        .filter(|choice| has_key(trees, key, choice))
        .count()
}

fn held_at(held: &HashMap<u64, u32>, key: u64) -> u32
    ensures { result ≡ held_in held.now key }
{
    held.get(&key).copied().unwrap_or(0)
}

// One more is held at a number.
fn raise_at(held: &mut HashMap<u64, u32>, key: u64) -> Result<(), AllocError>
    requires { held_in held.old key < 2 ^ 32 - 1 }
    ensures ok { OnOk result (ChangesOnly held.old held.new key (held_in held.old key + 1)) }
    ensures err { OnErr result ((k : ℕ) → held_in held.new k ≡ held_in held.old k) }
{
    let count = held_at(held, key);
    held.insert(key, count + 1)?;
    Ok(())
}

// One less is held at a number.
fn lower_at(held: &mut HashMap<u64, u32>, key: u64)
    ensures { ChangesOnly held.old held.new key (held_in held.old key - 1) }
{
    if let Some(count) = held.get_mut(&key) {
        *count = count.saturating_sub(1);
    }
}

impl Merits {
    /// One more choice.
    pub fn raise(&mut self, choice: &Entry) -> Result<(), AllocError>
        requires { (key : ℕ) → held_at self.old key < 2 ^ 32 - 1 }
        ensures trees { SameTrees self.old self.new }
        ensures ok { let trees = self.old.trees.items in
            OnOk result (Holds self.new
            (λ key. held_at self.old key + count_at trees key choice.now)) }
        ensures err { OnErr result (Holds self.new (held_at self.old)) }
    {
        match merit_key(&self.trees, choice) {
            Some(key) => raise_at(&mut self.held, key),
            None => Ok(()),
        }
    }

    /// One choice less.
    pub fn lower(&mut self, choice: &Entry)
        ensures trees { SameTrees self.old self.new }
        ensures held { let trees = self.old.trees.items in
            Holds self.new (λ key. held_at self.old key - count_at trees key choice.now) }
    {
        if let Some(key) = merit_key(&self.trees, choice) {
            lower_at(&mut self.held, key);
        }
    }

    /// These choices less.
    pub fn lower_all(&mut self, choices: &[Entry])
        ensures trees { SameTrees self.old self.new }
        ensures held { let trees = self.old.trees.items in
            Holds self.new (λ key. held_at self.old key - count_in trees key choices.now) }
    {
        'choices: for choice in choices {
            self.lower(choice);
        }
    }

    /// These choices more. After an error some of them are held.
    pub fn raise_all(&mut self, choices: &[Entry]) -> Result<(), AllocError>
        requires { (key : ℕ) → held_at self.old key + length choices.now < 2 ^ 32 }
        ensures trees { SameTrees self.old self.new }
        ensures held { let trees = self.old.trees.items in
            OnOk result (Holds self.new
            (λ key. held_at self.old key + count_in trees key choices.now)) }
    {
        'choices: for choice in choices {
            self.raise(choice)?;
        }
        Ok(())
    }

    /// Whether more choices hold the merit of a choice in its tree than these, which are those of
    /// one applicant.
    pub fn is_held_beyond(&self, choices: &[Entry], choice: &Entry) -> bool
        ensures { result ≡ is_held_beyond self.now choices.now choice.now }
    {
        match merit_key(&self.trees, choice) {
            Some(key) => count_in(&self.trees, key, choices) < held_at(&self.held, key) as usize,
            None => false,
        }
    }

    /// Whether no choice of these, which are those of one applicant, is in a conflict.
    pub fn is_in_none(&self, choices: &[Entry]) -> bool
        ensures { result ≡ is_in_none self.now choices.now }
    {
        choices.iter().all(|choice| {
            !is_contradicted(&self.trees, choices, choice) && !self.is_held_beyond(choices, choice)
        })
    }

    /// In what conflict a choice would be, beside those of its applicant of other programmes, and
    /// those of other applicants.
    pub fn conflict(&self, choices: &[Entry], choice: &Entry) -> Option<Cause>
        ensures { result ≡ conflict_found self.now choices.now choice.now }
    {
        if is_contradicted_beside(&self.trees, choices, choice) {
            return Some(Cause::MeritDiffers);
        }
        if self.is_held_beyond(choices, choice) {
            return Some(Cause::MeritTied);
        }
        None
    }
}
