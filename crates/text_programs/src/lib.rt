//! What programs over texts do, a module each: they read a text line by line, and write what a map knows of it.
#![tactic(auto)]

pub mod dial_codes;
pub mod path_indexes;
pub mod word_counts;
