//! Files by name and sinks of bytes, each with a count of its faults.
//!
//! `MemShelf` and `MemSink` are whole in memory. `FileShelf` and `OutSink` are the trusted edge: that a
//! file system gives a file's bytes, and that a writer keeps what it took, is beyond any contract.
#![tactic(auto)]

mod count;
mod display;
mod file_shelf;
mod mem_shelf;
mod mem_sink;
mod memory;
mod out_sink;
mod shelf;
mod sink;
#[cfg(test)]
mod tests;

pub use file_shelf::FileShelf;
pub use mem_shelf::MemShelf;
pub use mem_sink::MemSink;
pub use memory::OutOfMemory;
pub use out_sink::OutSink;
pub use shelf::{FetchError, LONGEST_FILE, Shelf};
pub use sink::{Sink, SinkFault, WriteError};
