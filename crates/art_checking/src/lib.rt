//! Folds of a tree, and a check of stores that may hold none.
#![tactic(auto)]

pub mod laws;
pub mod visitor;
pub mod well_formed;
