//! Snapshots: a sorted list of keys and values as bytes, and back.
#![tactic(auto)]

mod entries;
mod error;
mod list;
mod reading;
mod source;
mod writing;

pub use entries::{GiveEntries, TakeEntries, TakeError};
pub use error::{Fault, Malformed, ReadError};
pub use list::OwnedEntry;
pub use reading::{MAGIC, VERSION, read_snapshot};
pub use writing::write_snapshot;
