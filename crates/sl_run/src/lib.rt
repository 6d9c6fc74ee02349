//! The top call of `scorelimits`: from the words of a command to what it writes.
#![tactic(auto)]

mod amend;
mod amendments;
mod check;
mod clear;
mod command;
mod demo;
mod documents;
mod done;
mod ended;
mod failure;
mod files;
mod letter;
mod looks;
mod outcome;
mod rework;
mod round;
mod summary;
mod table;
mod theorems;
mod watch;
mod words;

pub use command::run;
pub use ended::Ended;
pub use theorems::{demos_are_one, tables_are_one, tables_have_instance};

#[cfg(test)]
mod tests;
