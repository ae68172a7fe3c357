//! Ordered sets with keys of bytes, on the map.
#![tactic(auto)]

pub mod laws;
pub mod set;
