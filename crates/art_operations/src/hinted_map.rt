//! An ordered map with a hash table's lookups.
pub use art_hinted::map::HintedMap;
