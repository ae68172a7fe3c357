//! What tests see of the nodes of a store, under all names with slots up to a limit.
use crate::shapes;
use art_nodes::node::{NodePtr, NodeType, OpaqueNodePtr, OptionalLeafPtr};
use art_nodes::store::NodeStore;
use std::alloc::AllocError;

/// The keys of the tests.
pub type Key = Vec<u8>;

// No test looks at a node in a later slot.
const LAST_SLOT: u32 = 499;

const KINDS: [NodeType; 5] = [
    NodeType::Leaf,
    NodeType::Node4,
    NodeType::Node16,
    NodeType::Node48,
    NodeType::Node256,
];

/// A node, with its name.
#[derive(PartialEq, Eq, Debug, Drop)]
pub struct Seen {
    name: OpaqueNodePtr,
    node: Node,
}

impl Seen {
    /// Its name.
    pub fn name(&self) -> OpaqueNodePtr {
        self.name
    }

    /// Its key, if it is a leaf.
    pub fn key(&self) -> Option<&[u8]> {
        match &self.node {
            Node::Leaf(key, ..) => Some(key.as_slice()),
            Node::Inner(..) => None,
        }
    }
}

// The key, value and links of a leaf, or the prefix and children of an inner node.
#[derive(PartialEq, Eq, Debug, Drop)]
enum Node {
    Leaf(Vec<u8>, u32, OptionalLeafPtr, OptionalLeafPtr),
    Inner(usize, Vec<u8>, Vec<(u8, OpaqueNodePtr)>),
}

/// All nodes.
pub fn nodes_seen<const P: usize>(store: &NodeStore<Key, u32, P>) -> Result<Vec<Seen>, AllocError> {
    let mut nodes = Vec::new(store.alloc());
    for kind in KINDS {
        for slot in 0..=LAST_SLOT {
            let name = OpaqueNodePtr::from_parts(kind, slot);
            if let Some(node) = node_under(store, name)? {
                nodes.push(Seen { name, node })?;
            }
        }
    }
    Ok(nodes)
}

// The node under a name, if there is one.
fn node_under<const P: usize>(
    store: &NodeStore<Key, u32, P>,
    name: OpaqueNodePtr,
) -> Result<Option<Node>, AllocError> {
    match name.split() {
        NodePtr::Leaf(name) => {
            let Some(leaf) = store.leaf(name) else {
                return Ok(None);
            };
            let key = leaf.key.clone()?;
            Ok(Some(Node::Leaf(key, leaf.value, leaf.previous, leaf.next)))
        }
        NodePtr::Inner(name) => {
            let Some(node) = store.inner(name) else {
                return Ok(None);
            };
            let mut children = Vec::new(store.alloc());
            for child in node.iter() {
                children.push(child)?;
            }
            let stored = node.read_prefix().to_vec(store.alloc())?;
            Ok(Some(Node::Inner(node.prefix_len(), stored, children)))
        }
    }
}

/// Returns how many names were placed, freed and changed. It allocates nothing.
pub fn count_touched<const P: usize>(
    store: &NodeStore<Key, u32, P>,
    before: &[Seen],
) -> (usize, usize, usize) {
    let (mut kept, mut changed) = (0usize, 0usize);
    for seen in before {
        if is_used(store, seen.name) {
            kept = kept.saturating_add(1);
            if !is_still(store, seen) {
                changed = changed.saturating_add(1);
            }
        }
    }
    let (leaves, inners) = count_nodes(store);
    let after = leaves.saturating_add(inners);
    (
        after.saturating_sub(kept),
        before.len().saturating_sub(kept),
        changed,
    )
}

/// Returns how many leaves and how many inner nodes a store has.
pub fn count_nodes<const P: usize>(store: &NodeStore<Key, u32, P>) -> (usize, usize) {
    shapes::count_nodes(store, LAST_SLOT)
}

// Whether there is a node under a name.
fn is_used<const P: usize>(store: &NodeStore<Key, u32, P>, name: OpaqueNodePtr) -> bool {
    match name.split() {
        NodePtr::Leaf(name) => store.leaf(name).is_some(),
        NodePtr::Inner(name) => store.inner(name).is_some(),
    }
}

/// Returns whether a name has the node that it had.
pub fn is_still<const P: usize>(store: &NodeStore<Key, u32, P>, seen: &Seen) -> bool {
    match (seen.name.split(), &seen.node) {
        (NodePtr::Leaf(name), Node::Leaf(key, value, previous, next)) => {
            let Some(leaf) = store.leaf(name) else {
                return false;
            };
            leaf.key == *key && (leaf.value, leaf.previous, leaf.next) == (*value, *previous, *next)
        }
        (NodePtr::Inner(name), Node::Inner(prefix_len, stored, children)) => {
            let Some(node) = store.inner(name) else {
                return false;
            };
            node.prefix_len() == *prefix_len
                && node.read_prefix() == stored.as_slice()
                && node.iter().eq(children.iter().copied())
        }
        _ => false,
    }
}
