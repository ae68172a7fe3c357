//! The words of a text, each with how often it occurs.

pub mod counts;
pub mod laws;
pub mod merging;
pub mod rows;
pub mod top;
