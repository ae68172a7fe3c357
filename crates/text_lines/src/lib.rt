//! Reading a text line by line, and writing line by line.
#![tactic(auto)]

pub mod lines;
pub mod words;
