//! What tests share that need only nodes and stores.
#![tactic(auto)]

pub use test_helpers::{expected, memory, numbers, short};

pub mod nodes;
pub mod placing;
pub mod shapes;
pub mod side_by_side;
pub mod tagged;
