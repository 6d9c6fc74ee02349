//! The floor on which seats in any threads clear an instance, step by step: each step is a step of the
//! clearing machine, on one word of a table.
#![tactic(auto)]

mod bits;
mod blank;
mod closing;
mod floor;
mod merging;
mod opening;
mod parting;
mod pool_set;
mod rule;
mod seat;
mod shares;
mod theorems;
mod view;

pub use blank::Blank;
pub use closing::Receipt;
pub use floor::Floor;
pub use seat::Seat;
pub use shares::{FIRST_ALLOWANCE, WHOLE_SHARE};
pub use theorems::{
    claim_is_event, draw_is_event, mark_is_event, opens_at_start, raise_is_event, read_is_event,
    words_pass_none,
};

#[cfg(test)]
mod tests;
