//! Building a tree from pairs in rising order of their keys, without a descent for each key.
#![tactic(auto)]

pub mod append;
pub mod edge;
