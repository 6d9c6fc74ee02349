//! The table of applications.
#![tactic(auto)]

mod chains;
mod choices;
mod draft;
mod marked_rows;
mod marks;
mod rows;

pub use choices::{ChoiceRow, ChoiceTable, read_choices};

#[cfg(test)]
mod tests;
