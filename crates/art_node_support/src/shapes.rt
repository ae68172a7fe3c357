//! The shapes of trees, as tests see them.
use art_nodes::node::{AsBytes, InnerPtr, LeafPtr, NodeType};
use art_nodes::store::NodeStore;

/// Returns how many leaves and inner nodes a store has in slots up to this one.
pub fn count_nodes<K: AsBytes + Drop, V: Drop, const P: usize>(
    store: &NodeStore<K, V, P>,
    last_slot: u32,
) -> (usize, usize) {
    let kinds = [
        NodeType::Node4,
        NodeType::Node16,
        NodeType::Node48,
        NodeType::Node256,
    ];
    let (mut leaves, mut inners) = (0usize, 0usize);
    for slot in 0..=last_slot {
        if store.leaf(LeafPtr::from_slot(slot)).is_some() {
            leaves = leaves.saturating_add(1);
        }
        for kind in kinds {
            if store.inner(InnerPtr { kind, slot }).is_some() {
                inners = inners.saturating_add(1);
            }
        }
    }
    (leaves, inners)
}
