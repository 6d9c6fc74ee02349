//! The tables of pools and of programmes.
#![tactic(auto)]

mod nesting;
mod pools;
mod programmes;

pub use pools::{PoolTable, read_pools};
pub use programmes::{ProgTable, read_programmes};

#[cfg(test)]
mod tests;
