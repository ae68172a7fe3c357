//! A table of codes with names, and the longest code that a number starts with.

pub mod answers;
pub mod entry;
pub mod table;
