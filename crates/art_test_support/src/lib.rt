//! What the tests of several crates share.
#![tactic(auto)]

pub use art_node_support::{
    expected, memory, nodes, numbers, placing, shapes, side_by_side, tagged,
};

pub mod cases;
pub mod commands;
pub mod crowds;
pub mod points;
pub mod trees;
