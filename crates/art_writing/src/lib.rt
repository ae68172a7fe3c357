//! Operations that change a radix tree in a store.
#![tactic(auto)]

pub mod deallocate;
pub mod delete;
pub mod insert;
pub mod laws;
mod writes;
