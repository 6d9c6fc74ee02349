ghost use Rattle.std.specs.Prelude.{◌≡◌, ◌≤◌, ◌<◌, ◌^◌, ◌∷◌, ◌++◌, [], length, map, get_or, sum_by, IfOk, OnOk};
ghost use Rattle.sl_types.specs.Rows.{rows_of, AreCut};

use crate::{Entry, MAX_CHOICES};
use std::alloc::{AllocError, Global};
use std::marker::Model;

/// The lists of the applicants in one vector, one after another. A list goes from its start to the next.
/// Contracts see it as these lists.
#[derive(Drop)]
pub struct ChoiceLists {
    choices: Vec<Entry>,
    starts: Vec<usize>,
}

impl Model for ChoiceLists {
    ghost use Rattle.std.specs.Prelude.{List};
    ghost use Rattle.sl_types.specs.declared.kinds.Entry.{Entry};
    ghost use Rattle.sl_types.specs.Rows.{rows_of, AreCut};

    ghost Value = { List (List Entry) };

    ghost view = { λ s. rows_of s.choices.items s.starts.items };

    ghost invariant = { λ s. AreCut s.choices.items s.starts.items };
}

// How many choices the lists have together.
fn choices_of(lists: &[Vec<Entry>]) -> usize
    requires { sum_by (λ l. length l.items) lists.now ≤ MAX_CHOICES }
    ensures { result ≡ sum_by (λ l. length l.items) lists.now }
{
    lists.iter().map(|list| list.len()).sum()
}

// Adds a list at the end. Where memory runs out, the lists stand as they were.
fn add_row(
    choices: &mut Vec<Entry>,
    starts: &mut Vec<usize>,
    list: &[Entry],
) -> Result<(), AllocError>
    requires { AreCut choices.old.items starts.old.items }
    ensures cut { AreCut choices.new.items starts.new.items }
    ensures row { let before = rows_of choices.old.items starts.old.items in
        let after = rows_of choices.new.items starts.new.items in
        OnOk result (after ≡ before ++ list.now ∷ []) }
{
    starts.reserve(1)?;
    choices.extend_from_slice(list)?;
    starts.push(choices.len())?;
    Ok(())
}

// The list at a place: from its start to the next.
#[tactic(auto, using(crate::proofs::Added::row_place, crate::proofs::Added::row_is))]
fn row_at<'a>(choices: &'a [Entry], starts: &[usize], at: usize) -> &'a [Entry]
    requires cut { AreCut choices.now starts.now }
    requires within { at < length (rows_of choices.now starts.now) }
    ensures { result.now ≡ get_or (rows_of choices.now starts.now) at [] }
{
    let start = starts[at];
    let end = starts[at + 1];
    &choices[start..end]
}

impl ChoiceLists {
    /// No list, with room for so many lists and choices.
    pub fn with_capacity(
        alloc: Global,
        lists: usize,
        choices: usize,
    ) -> Result<ChoiceLists, AllocError>
        requires { lists < 2 ^ 32 }
        ensures { IfOk result (λ made. made ≡ []) }
    {
        let choices = Vec::with_capacity(alloc, choices)?;
        let mut starts = Vec::with_capacity(alloc, lists + 1)?;
        starts.push(0)?;
        Ok(ChoiceLists { choices, starts })
    }

    /// The lists of these vectors. Each is freed as soon as it is copied.
    pub fn of_vectors(alloc: Global, lists: Vec<Vec<Entry>>) -> Result<ChoiceLists, AllocError>
        requires few { length lists.items < 2 ^ 32 }
        requires choices { sum_by (λ l. length l.items) lists.items ≤ MAX_CHOICES }
        ensures { IfOk result (λ made. made ≡ map (λ l. l.items) lists.items) }
    {
        let choices = choices_of(lists.as_slice());
        let mut made = ChoiceLists::with_capacity(alloc, lists.len(), choices)?;
        for list in lists {
            made.push(list.as_slice())?;
        }
        Ok(made)
    }

    /// Adds a list at the end.
    pub fn push(&mut self, list: &[Entry]) -> Result<(), AllocError>
        ensures { OnOk result (self.new ≡ self.old ++ list.now ∷ []) }
    {
        add_row(&mut self.choices, &mut self.starts, list)
    }

    /// Adds other lists at the end, in order.
    pub fn append(&mut self, other: &ChoiceLists) -> Result<(), AllocError>
        ensures { OnOk result (self.new ≡ self.old ++ other.now) }
    {
        for at in 0..other.len() {
            self.push(other.list(at))?;
        }
        Ok(())
    }

    /// How many lists there are.
    pub fn len(&self) -> usize
        ensures { result ≡ length self.now }
    {
        self.starts.len() - 1
    }

    /// The list at a place, counted from 0.
    pub fn list(&self, at: usize) -> &[Entry]
        requires { at < length self.now }
        ensures { result.now ≡ get_or self.now at [] }
    {
        row_at(self.choices.as_slice(), self.starts.as_slice(), at)
    }
}
