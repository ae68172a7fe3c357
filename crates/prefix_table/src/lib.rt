//! Tables of IP networks that are built once and then find the longest network of an address.
#![tactic(auto)]

mod arranging;
mod guesses;
pub mod iteration;
pub mod network;
mod rests;
mod rows;
mod sorting;
mod starts;
pub mod steps;
pub mod table;
mod values;
