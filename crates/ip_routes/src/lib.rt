//! A table of IP routes that is read from the lines of a text, and the longest route that covers an address.
#![tactic(auto)]

pub mod answers;
pub mod lines;
pub mod route;
pub mod routes;
