//! The parts of the nodes of a radix tree.
#![tactic(auto)]

pub mod bytes;
pub mod header;
pub mod laws;
pub mod leaf;
pub mod names;
