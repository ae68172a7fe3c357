//! Building maps and sets from sorted pairs, and from pairs in any order.
pub use art_building::byte_map::{AppendError, AppendReason, MapBuilder};
pub use art_building::tree_map::TreeMapBuilder;
