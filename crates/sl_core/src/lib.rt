//! The clearing machine: actors that settle pools step by step, in any order of their steps.
#![tactic(auto)]

mod kinds;
mod lists;
mod machine;
mod search;
mod theorems;
mod worker;

pub use kinds::{Event, EventKind, Phase, StepError};
pub use machine::Machine;
pub use theorems::{
    claim_keeps, divide_keeps, draw_keeps, mark_keeps, order_is_one, quiet_is_least,
    quiet_is_settled, quiet_proves, raise_keeps, read_keeps, start_has_parts, step_keeps,
    unite_keeps, words_pass_none, words_rise,
};

#[cfg(test)]
mod tests;
