//! A round of admissions that is made from the number of its applicants alone.
#![tactic(auto)]

mod choices;
mod lists;
mod pools;
mod round;
mod theorems;

pub use round::{generate, generate_in_parallel};
pub use theorems::{generated_fits, generated_sizes};

#[cfg(test)]
mod tests;
