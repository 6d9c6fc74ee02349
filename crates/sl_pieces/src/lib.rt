//! Work on a range of numbers, cut into pieces that are worked on in parallel.
#![tactic(auto)]

mod pieces;

pub use pieces::{PIECES, make_by_pieces};

#[cfg(test)]
mod tests;
