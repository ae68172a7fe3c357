//! Operations that read a radix tree in a store and change nothing.
#![tactic(auto)]

pub mod end_node;
pub mod guide;
pub mod iterator;
pub mod laws;
pub mod lookup;
pub mod minmax;
pub mod path;
