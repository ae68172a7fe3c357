//! Commands on a radix tree in a store.
#![tactic(auto)]

pub mod laws;
pub mod run;
