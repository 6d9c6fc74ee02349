//! The best raises of score pools, by counting their offers from the greatest score down.
#![tactic(auto)]

mod counting;
mod leading;
mod rules;
mod theorems;

pub use rules::{HRule, LRule};
pub use theorems::offers_count_by_order;

#[cfg(test)]
mod tests;
