//! Maps of IP networks that change and find the longest network of an address, over radix trees.
#![tactic(auto)]

mod keys;
pub mod map;
