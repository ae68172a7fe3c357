//! Puts and removals of pairs that a store, a root and a length stand for.
#![tactic(auto)]

pub mod insert;
pub mod remove;
