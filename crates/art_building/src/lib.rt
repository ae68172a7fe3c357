//! Builders: a map or a set is built from pairs in ascending order of their keys, without a descent for each key.
#![tactic(auto)]

pub mod byte_map;
pub mod tree_map;
