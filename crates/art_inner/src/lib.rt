//! Inner nodes of a radix tree.
#![tactic(auto)]

pub mod any;
mod beside;
mod child_table;
pub mod children;
mod direct;
mod indexed;
pub mod inner;
mod lanes;
mod places;
pub mod renaming;
pub mod resized;
mod rows;
mod table;
