//! The types of a round of admissions, and the instance that holds one whose tables fit together.
#![tactic(auto)]

mod choice_lists;
mod display;
mod faults;
mod instance;
mod kinds;
mod merits;
mod nesting;
mod outward;
mod rules;
mod unfit;

pub use choice_lists::ChoiceLists;
pub use instance::Instance;
pub use kinds::{
    AppId, Entry, Logged, MAX_APPLICANTS, MAX_CHOICES, MAX_DEPTH, MAX_LIST, MAX_PLACE, MAX_POOLS,
    MAX_PROGRAMMES, MAX_QUOTA, MAX_SCORE, Pool, PoolId, ProgId, Raise, Rule,
};
pub use merits::trees;
pub use nesting::{
    first_badly_nested, first_in_ring, first_parent_out, first_too_deep, nesting_fault,
};
pub use outward::Outward;
pub use unfit::{InstanceError, OutOfMemory, Unfit};

#[cfg(test)]
mod tests;
