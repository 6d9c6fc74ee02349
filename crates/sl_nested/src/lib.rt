//! The best raises of merit pools, by counting their offers from the greatest merit down, and those
//! of all pools, each by its own rule.
#![tactic(auto)]

mod adding;
mod admitting;
mod clearing;
mod merit;
mod mixed;
mod theorems;
mod walking;

pub use merit::MeritRule;
pub use mixed::Mixed;
pub use theorems::counters_tell_demand;

#[cfg(test)]
mod tests;
