//! Who contends for each pool, which pools feed which, and the rules that find a pool's best raise.
#![tactic(auto)]

mod contenders;
mod contention;
mod entering;
mod filling;
mod joining;
mod listing;
mod offer;
mod offering;
mod rows;
mod rule;
mod scratch;
mod sorting;
mod theorems;

pub use contenders::Contenders;
pub use offer::Offer;
pub use rule::RaiseRule;
pub use scratch::Scratch;
pub use theorems::{best_is_local, best_is_one, best_passes_none, best_stays_justified};

#[cfg(test)]
mod tests;
