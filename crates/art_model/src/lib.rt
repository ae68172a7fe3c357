//! What a sorted prefix-free map is, what the radix tree of its pairs is, and when a name stands for that tree in a
//! store.
//!
//! The definitions are in `specs/`. The functions of this crate do nothing: each has a law of the definitions as its
//! contract.
#![tactic(auto)]

pub mod clones;
pub mod end_nodes;
pub mod examples;
pub mod footprints;
pub mod layouts;
pub mod maps;
pub mod order;
pub mod texts;
pub mod trees;
