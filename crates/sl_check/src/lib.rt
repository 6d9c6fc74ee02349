//! The check of a published outcome: of its raises, its limits, its admissions and its counts.
#![tactic(auto)]

mod checking;
mod lowest;
mod theorems;
mod verdict;

pub use checking::check;
pub use theorems::verdict_is_one;
pub use verdict::Verdict;
