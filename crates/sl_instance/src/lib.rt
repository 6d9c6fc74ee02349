//! The instance that three tables make, with its codes.
#![tactic(auto)]

mod assembly;
mod causes;
mod conflicts;
mod keyed;
mod lists;
mod named;
mod theorems;

pub use assembly::assemble;
pub use named::Named;
pub use theorems::assembled_once;

#[cfg(test)]
mod tests;
