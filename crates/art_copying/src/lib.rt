//! Operations on whole trees in a store: freeing and copying; and links from leaf to leaf.
#![tactic(auto)]

pub mod clone;
pub mod deallocate;
pub mod links;
