//! What `artrun` keeps from line to line: the tree that its commands have left.

pub mod commands;
pub mod status;
pub mod tree;
pub mod walk;
