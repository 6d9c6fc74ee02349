//! Who is admitted with which choice, by pieces of the applicants in parallel, and how many each pool admits.
#![tactic(auto)]

mod admitting;
mod counting;

pub use admitting::admissions;
pub use counting::counts;

#[cfg(test)]
mod tests;
