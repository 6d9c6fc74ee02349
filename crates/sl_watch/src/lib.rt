//! Readers of progress: what the limits of a floor are while seats in other threads raise them.
#![tactic(auto)]

mod looking;

pub use looking::look;

#[cfg(test)]
mod tests;
