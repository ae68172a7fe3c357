//! What tests share that needs std alone.
#![tactic(auto)]

pub mod expected;
pub mod memory;
pub mod numbers;
pub mod short;
pub mod streams;
