//! Snapshots of maps and sets: a `TreeMap` or a `TreeSet` is written to a writer, and read back.
#![tactic(auto)]

mod fixed;
mod giving;
mod maps;
mod numbers;
mod sets;
mod strings;
mod taking;
mod traits;
mod values;

pub use maps::{read_map, write_map};
pub use sets::{read_set, write_set};
pub use traits::{SnapshotKey, SnapshotValue};
