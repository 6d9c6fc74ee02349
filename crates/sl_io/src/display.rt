//! Errors as people see them.

use crate::{FetchError, OutOfMemory, SinkFault, WriteError};
use std::error::Error;
use std::fmt;

impl fmt::Display for OutOfMemory {
    fn fmt<W: fmt::Write>(&self, f: &mut fmt::Formatter<W>) -> fmt::Result {
        f.write_str("out of memory")
    }
}

impl fmt::Display for FetchError {
    fn fmt<W: fmt::Write>(&self, f: &mut fmt::Formatter<W>) -> fmt::Result {
        f.write_str(match self {
            FetchError::Fault => "the file cannot be read",
            FetchError::TooLong => "the file is longer than 268435456 bytes",
            FetchError::OutOfMemory => "out of memory",
        })
    }
}

impl fmt::Display for SinkFault {
    fn fmt<W: fmt::Write>(&self, f: &mut fmt::Formatter<W>) -> fmt::Result {
        f.write_str("the output cannot be written")
    }
}

impl fmt::Display for WriteError {
    fn fmt<W: fmt::Write>(&self, f: &mut fmt::Formatter<W>) -> fmt::Result {
        match self {
            WriteError::Fault => write!(f, "{SinkFault}"),
            WriteError::OutOfMemory => write!(f, "{OutOfMemory}"),
        }
    }
}

impl Error for OutOfMemory {}

impl Error for FetchError {}

impl Error for SinkFault {}

impl Error for WriteError {}
