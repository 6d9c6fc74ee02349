//! A team of workers that clears an instance in rounds, on one floor.
#![tactic(auto)]

mod clearing;
mod closing;
mod crew;
mod first_round;
mod joining;
mod opening;
mod rounds;
mod seen;
mod splitting;
mod watching;

pub use clearing::clear;
pub use closing::Cleared;

#[cfg(test)]
mod tests;
