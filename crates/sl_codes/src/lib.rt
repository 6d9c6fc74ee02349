//! What all readers of tables share: codes by number, the records of a file, fields, and faults.
#![tactic(auto)]

mod codes;
mod display;
mod faults;
mod field_text;
mod fields;
mod printer;
mod records;
mod theorems;

pub use codes::Codes;
pub use faults::{Cause, ReadError, RowError, Table, TableFault};
pub use field_text::{Field, push_record};
pub use fields::{MAX_CODE, add_code, code, number, number_within};
pub use printer::{Printer, put_record};
pub use records::{Records, field, has_fields, read_header};
pub use theorems::first_fault_says;

#[cfg(test)]
mod tests;
