ghost use Rattle.std.specs.Prelude.{◌≡◌, ◌<◌, ◌-◌, ◌^◌};
ghost use Rattle.sl_codes.specs.Faults.{read_error};
ghost use Rattle.sl_codes.specs.Names.{table_word, cause_name};
ghost use Rattle.sl_codes.specs.declared.faults.ReadError.TheVariants as table_error;
ghost use Rattle.sl_codes.specs.declared.faults.RowError.TheVariants as row_error;

use sl_types::OutOfMemory;
use std::alloc::AllocError;

/// The tables that are read.
#[derive(Clone, Copy, Debug, PartialEq, Eq)]
pub enum Table {
    Pools,
    Programmes,
    Applications,
    Results,
    Amendments,
}

impl Table {
    /// The word for the table in a line on standard error.
    pub fn word(self) -> &'static str
        ensures { result.now ≡ table_word self }
    {
        match self {
            Table::Pools => "pools",
            Table::Programmes => "programmes",
            Table::Applications => "applications",
            Table::Results => "result",
            Table::Amendments => "amendments",
        }
    }
}

/// What is wrong with a record.
#[derive(Clone, Copy, Debug, PartialEq, Eq)]
pub enum Cause {
    /// A field that must be a code isn't UTF-8.
    NotText,
    /// The first record isn't the table's header, or there is none.
    BadHeader,
    /// It has another number of fields than the first.
    FieldCount,
    /// A field that must be a code is UTF-8 and no code.
    BadCode,
    /// A field that must be a number isn't one, or is out of its range.
    BadNumber,
    /// It passes a limit on the number of things.
    TooMany,
    /// The pool's code stands in an earlier record.
    RepeatedPool,
    /// The quota is outside 1 to the greatest.
    BadQuota,
    /// The kind isn't one of the table's kinds.
    BadKind,
    /// The parent is no pool of the file.
    UnknownParent,
    /// The pool is its own ancestor.
    ParentCycle,
    /// The pool is deeper than the greatest depth.
    TooDeep,
    /// The pool has a parent, and it or its parent is of kind `score`.
    KindDiffers,
    /// The programme's code stands in an earlier record.
    RepeatedProgramme,
    /// The pool isn't known.
    UnknownPool,
    /// The programme isn't known.
    UnknownProgramme,
    /// The applicant has the programme already.
    RepeatedChoice,
    /// The applicant has a choice at that place already.
    RepeatedPlace,
    /// The applicant has the most choices already.
    ListTooLong,
    /// An applicant has two merits in one tree.
    MeritDiffers,
    /// Two applicants have one merit in one tree.
    MeritTied,
    /// A field that must be empty isn't.
    NotEmpty,
    /// The applicant isn't present.
    UnknownApplicant,
    /// A new applicant is one of the tables, or was withdrawn earlier in this file.
    KnownApplicant,
    /// The applicant has no such choice.
    UnknownChoice,
    /// The only choice of the applicant would be dropped.
    LastChoice,
    /// The result's rule isn't the command's.
    RuleDiffers,
    /// It isn't the record of a result that must stand here.
    OutOfOrder,
    /// The number at the end isn't the number of records before it.
    BadEnd,
    /// It stands after the end.
    AfterEnd,
    /// The file ends before the end.
    NoEnd,
}

impl Cause {
    /// The name of the cause in a line on standard error.
    pub fn name(self) -> &'static str
        ensures { result.now ≡ cause_name self }
    {
        match self {
            Cause::NotText => "NotText",
            Cause::BadHeader => "BadHeader",
            Cause::FieldCount => "FieldCount",
            Cause::BadCode => "BadCode",
            Cause::BadNumber => "BadNumber",
            Cause::TooMany => "TooMany",
            Cause::RepeatedPool => "RepeatedPool",
            Cause::BadQuota => "BadQuota",
            Cause::BadKind => "BadKind",
            Cause::UnknownParent => "UnknownParent",
            Cause::ParentCycle => "ParentCycle",
            Cause::TooDeep => "TooDeep",
            Cause::KindDiffers => "KindDiffers",
            Cause::RepeatedProgramme => "RepeatedProgramme",
            Cause::UnknownPool => "UnknownPool",
            Cause::UnknownProgramme => "UnknownProgramme",
            Cause::RepeatedChoice => "RepeatedChoice",
            Cause::RepeatedPlace => "RepeatedPlace",
            Cause::ListTooLong => "ListTooLong",
            Cause::MeritDiffers => "MeritDiffers",
            Cause::MeritTied => "MeritTied",
            Cause::NotEmpty => "NotEmpty",
            Cause::UnknownApplicant => "UnknownApplicant",
            Cause::KnownApplicant => "KnownApplicant",
            Cause::UnknownChoice => "UnknownChoice",
            Cause::LastChoice => "LastChoice",
            Cause::RuleDiffers => "RuleDiffers",
            Cause::OutOfOrder => "OutOfOrder",
            Cause::BadEnd => "BadEnd",
            Cause::AfterEnd => "AfterEnd",
            Cause::NoEnd => "NoEnd",
        }
    }
}

/// A fault of a table: the number of the record, where the header is 1, and what is wrong with it.
#[derive(Clone, Copy, Debug, PartialEq, Eq)]
pub struct TableFault {
    pub table: Table,
    pub at: u32,
    pub cause: Cause,
}

/// Why a table could not be read.
#[derive(Clone, Copy, Debug, PartialEq, Eq)]
pub enum ReadError {
    Bad(TableFault),
    OutOfMemory,
}

/// Why a record could not be taken.
#[derive(Clone, Copy, Debug, PartialEq, Eq)]
pub enum RowError {
    Bad(Cause),
    OutOfMemory,
}

impl RowError {
    /// The same as an error of a table, of which so many rows were taken before.
    pub fn after(self, table: Table, rows: usize) -> ReadError
        requires { rows < 2 ^ 32 - 2 }
        ensures { result ≡ read_error table rows self }
    {
        match self {
            RowError::Bad(cause) => ReadError::Bad(TableFault {
                table,
                at: rows as u32 + 2,
                cause,
            }),
            RowError::OutOfMemory => ReadError::OutOfMemory,
        }
    }
}

impl From<Cause> for RowError {
    ghost from_gives = { λ cause e. e ≡ row_error.Bad cause };

    fn from(cause: Cause) -> RowError {
        RowError::Bad(cause)
    }
}

impl From<OutOfMemory> for RowError {
    ghost from_gives = { λ _ e. e ≡ row_error.OutOfMemory };

    fn from(_error: OutOfMemory) -> RowError {
        RowError::OutOfMemory
    }
}

impl From<AllocError> for RowError {
    ghost from_gives = { λ _ e. e ≡ row_error.OutOfMemory };

    fn from(_error: AllocError) -> RowError {
        RowError::OutOfMemory
    }
}

impl From<OutOfMemory> for ReadError {
    ghost from_gives = { λ _ e. e ≡ table_error.OutOfMemory };

    fn from(_error: OutOfMemory) -> ReadError {
        ReadError::OutOfMemory
    }
}

impl From<AllocError> for ReadError {
    ghost from_gives = { λ _ e. e ≡ table_error.OutOfMemory };

    fn from(_error: AllocError) -> ReadError {
        ReadError::OutOfMemory
    }
}
