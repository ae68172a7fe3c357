//! Sets of keys that never conflict.
#![tactic(auto)]

pub mod set;
