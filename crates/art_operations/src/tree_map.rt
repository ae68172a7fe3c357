//! An ordered map of keys that never conflict.
pub use art_keyed::map::{
    BothRefused, Matches, MatchesOf, Nested, PairRefused, TextRefused, TreeEntry, TreeEntryOf,
    TreeExtractPrefix, TreeExtractPrefixOf, TreeExtractRange, TreeExtractRangeOf, TreeMap,
};
pub use art_map::map::SplitRefused;
