//! An ordered set of keys that never conflict.
pub use art_keyed_sets::set::{KeyRefused, TreeSet};
pub use art_sets::set::SetSplitRefused;
