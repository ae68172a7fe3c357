//! Paths in memory, and requests about them.

pub mod answers;
pub mod index;
pub mod laws;
pub mod parts;
pub mod request;
pub mod saving;
