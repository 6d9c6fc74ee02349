//! Errors as people see them: `the quota of pool 3 is out of its range`.

use crate::{InstanceError, OutOfMemory, Unfit};
use std::error::Error;
use std::fmt;

impl fmt::Display for OutOfMemory {
    fn fmt<W: fmt::Write>(&self, f: &mut fmt::Formatter<W>) -> fmt::Result {
        f.write_str("out of memory")
    }
}

impl fmt::Display for Unfit {
    fn fmt<W: fmt::Write>(&self, f: &mut fmt::Formatter<W>) -> fmt::Result {
        match self {
            Unfit::TooManyPools => f.write_str("there are too many pools"),
            Unfit::TooManyProgrammes => f.write_str("there are too many programmes"),
            Unfit::TooManyApplicants => f.write_str("there are too many applicants"),
            Unfit::TooManyChoices => f.write_str("there are too many choices"),
            Unfit::QuotaRange(pool) => write!(f, "the quota of pool {} is out of range", pool.0),
            Unfit::ParentRange(pool) => write!(f, "the parent of pool {} is no pool", pool.0),
            Unfit::ParentRing(pool) => write!(f, "pool {} lies in itself", pool.0),
            Unfit::TooDeep(pool) => write!(f, "pool {} lies too deep", pool.0),
            Unfit::RuleNesting(pool) => write!(f, "pool {} or its parent is no merit pool", pool.0),
            Unfit::PoolRange(prog) => write!(f, "the pool of programme {} is no pool", prog.0),
            Unfit::ListLength(app) => write!(f, "the list of applicant {} is too long", app.0),
            Unfit::ProgRange(app) => write!(f, "applicant {} names no programme", app.0),
            Unfit::PlaceOrder(app) => write!(f, "the places of applicant {} don't rise", app.0),
            Unfit::ScoreRange(app) => write!(f, "a score of applicant {} is too high", app.0),
            Unfit::ProgRepeated(app) => write!(f, "applicant {} names a programme twice", app.0),
            Unfit::MeritDiffers(app) => write!(f, "applicant {} has two merits in a tree", app.0),
            Unfit::MeritTied(app) => write!(f, "the merit of applicant {} is another's", app.0),
        }
    }
}

impl fmt::Display for InstanceError {
    fn fmt<W: fmt::Write>(&self, f: &mut fmt::Formatter<W>) -> fmt::Result {
        match self {
            InstanceError::Unfit(unfit) => write!(f, "{unfit}"),
            InstanceError::OutOfMemory => f.write_str("out of memory"),
        }
    }
}

impl Error for OutOfMemory {}

impl Error for Unfit {}

impl Error for InstanceError {}
