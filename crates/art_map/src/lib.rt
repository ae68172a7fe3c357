//! Ordered maps with keys of bytes, on an adaptive radix tree.
#![tactic(auto)]

pub mod map;
