//! The result document: its text, and the reader of it.
#![tactic(auto)]

mod doc;
mod draft;
mod printing;
mod reading;
mod record;
mod rows;
mod seen;
mod texts;
mod theorems;
mod verdict;

pub use doc::Doc;
pub use printing::doc_text;
pub use reading::read_doc;
pub use seen::seen_text;
pub use theorems::text_reads_back;
pub use verdict::{verdict_fields, verdict_text};

#[cfg(test)]
mod tests;
