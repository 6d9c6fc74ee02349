//! Faults as people see them: `pools:2: BadCode`.

use crate::{Cause, ReadError, RowError, Table, TableFault};
use std::error::Error;
use std::fmt;

impl fmt::Display for Table {
    fn fmt<W: fmt::Write>(&self, f: &mut fmt::Formatter<W>) -> fmt::Result {
        f.write_str(self.word())
    }
}

impl fmt::Display for Cause {
    fn fmt<W: fmt::Write>(&self, f: &mut fmt::Formatter<W>) -> fmt::Result {
        f.write_str(self.name())
    }
}

impl fmt::Display for TableFault {
    fn fmt<W: fmt::Write>(&self, f: &mut fmt::Formatter<W>) -> fmt::Result {
        write!(f, "{}:{}: {}", self.table, self.at, self.cause)
    }
}

impl fmt::Display for ReadError {
    fn fmt<W: fmt::Write>(&self, f: &mut fmt::Formatter<W>) -> fmt::Result {
        match self {
            ReadError::Bad(fault) => write!(f, "{fault}"),
            ReadError::OutOfMemory => f.write_str("out of memory"),
        }
    }
}

impl fmt::Display for RowError {
    fn fmt<W: fmt::Write>(&self, f: &mut fmt::Formatter<W>) -> fmt::Result {
        match self {
            RowError::Bad(cause) => write!(f, "{cause}"),
            RowError::OutOfMemory => f.write_str("out of memory"),
        }
    }
}

impl Error for Cause {}

impl Error for TableFault {}

impl Error for ReadError {}

impl Error for RowError {}
