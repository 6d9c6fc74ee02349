//! Raises added one by one, each tested as it comes, and logs merged into one list of raises.
#![tactic(auto)]

mod merging;
mod replay;

pub use merging::merge;
pub use replay::{Replay, Unjust};
