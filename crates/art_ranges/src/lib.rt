//! Neighbours of a key, ranges, prefixes, and matches of texts in a radix tree in a store.
#![tactic(auto)]

pub mod range;
pub mod texts;
