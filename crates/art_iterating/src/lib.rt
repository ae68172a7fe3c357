//! Iterators over pairs that are linked in a store, over their keys and over their values.
#![tactic(auto)]

pub mod iter;
pub mod parts;
pub mod range;
