//! What trees of pools need beside the laws: the pools inside a pool, and the limits that are published.
#![tactic(auto)]

mod inner;
mod limits;
mod within;

pub use inner::Children;
pub use limits::published;
pub use within::children;

#[cfg(test)]
mod tests;
