//! The engine of `artrun`: lines in, replies out.
#![tactic(auto)]

pub mod checks;
pub mod engine;
pub mod keeping;
pub mod key;
pub mod lines;
pub mod nodes;
pub mod pairs;
pub mod replies;
