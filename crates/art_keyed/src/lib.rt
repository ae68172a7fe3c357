//! Maps of keys that never conflict.
#![tactic(auto)]

pub mod bounds;
mod escaped_bytes;
mod escaped_front;
pub mod laws;
pub mod map;
mod terminated_text;
