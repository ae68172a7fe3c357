//! Freeing leaves, inner nodes and whole trees.
pub use art_copying::deallocate::{deallocate_tree, deallocate_tree_non_leaves};
pub use art_writing::deallocate::deallocate_leaves;
