//! Programs that read a table from the lines of a file and answer the lines of standard input.
#![tactic(auto)]

mod ahead;
pub mod checking;
pub mod entries;
pub mod json;
pub mod line_tables;
pub mod messages;
pub mod progress;
pub mod reading;
pub mod running;
pub mod saved_tables;
pub mod serving;
pub mod watching;
