//! Amendments of a published round: the rows of the file, the draft that they are applied to, and what is kept of
//! the proof: the raises of pools that no amendment reaches.
#![tactic(auto)]

mod alone;
mod amending;
mod amendments;
mod by_choice;
mod by_quota;
mod change;
mod checks;
mod closing;
mod conflicts;
mod draft;
mod fields;
mod joining;
mod keeping;
mod kind;
mod lookups;
mod marking;
mod merits;
mod opening;
mod parts;
mod passes;
mod present;
mod register;
mod roll;
mod row;
mod rows;
mod table_records;
mod texts;
mod theorems;
mod writing;

pub use amending::{amend, amended_instance};
pub use amendments::{Amendments, read_amendments};
pub use draft::Draft;
pub use keeping::kept;
pub use row::{Fields, Row};
pub use rows::read_rows;
pub use theorems::{
    amended_is_tabular, amended_keeps_programmes, changed_says, cone_is_least, cone_is_one,
    kept_reaches, kept_replays, read_is_tabular, same_says, tables_read_back, touched_says,
};
pub use writing::table_text;

#[cfg(test)]
mod tests;
