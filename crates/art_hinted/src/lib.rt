//! An ordered map with a hash table's lookups.
#![tactic(auto)]

mod hints;
pub mod map;
mod secret;
