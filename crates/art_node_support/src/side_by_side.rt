//! Two trees that should be the same, traversed together.

use crate::shapes::count_nodes;
use art_nodes::node::{AsBytes, InnerPtr, InnerRef, LeafPtr, NodePtr, NodeType, OpaqueNodePtr};
use art_nodes::store::NodeStore;
use std::alloc::{AllocError, Global};

// No tree of these tests has more nodes, and no node a later slot.
const MOST_NODES: u32 = 700;

// What is met in two trees of one form.
#[derive(Drop)]
struct Walk {
    // Names at one place of both trees that are still to be looked at. The next ones are last.
    open: Vec<(OpaqueNodePtr, OpaqueNodePtr)>,
    // The leaves of either tree, in order.
    leaves: Vec<LeafPtr>,
    other_leaves: Vec<LeafPtr>,
    inner: usize,
    greatest_kind: NodeType,
}

impl Walk {
    fn new(alloc: Global) -> Self {
        Walk {
            open: Vec::new(alloc),
            leaves: Vec::new(alloc),
            other_leaves: Vec::new(alloc),
            inner: 0,
            greatest_kind: NodeType::Node4,
        }
    }

    // Looks at all nodes of two trees. Returns the greatest kind, where the trees are the same and of these pairs.
    fn compare<K: AsBytes + PartialEq + Drop, const P: usize>(
        &mut self,
        (store, root): (&NodeStore<K, u32, P>, Option<OpaqueNodePtr>),
        (other, other_root): (&NodeStore<K, u32, P>, Option<OpaqueNodePtr>),
        pairs: &[(K, u32)],
    ) -> Result<Option<NodeType>, AllocError> {
        if let (Some(name), Some(other_name)) = (root, other_root) {
            self.open.push((name, other_name))?;
        }
        if !self.go(store, other)? || !self.has_pairs(store, other, pairs) {
            return Ok(None);
        }
        Ok(Some(self.greatest_kind))
    }

    // Whether the leaves that were met hold these pairs, and the first store has no other node than those that were
    // met.
    fn has_pairs<K: AsBytes + PartialEq + Drop, const P: usize>(
        &self,
        store: &NodeStore<K, u32, P>,
        other: &NodeStore<K, u32, P>,
        pairs: &[(K, u32)],
    ) -> bool {
        are_leaves(store, &self.leaves, pairs)
            && are_leaves(other, &self.other_leaves, pairs)
            && count_nodes(store, MOST_NODES) == (pairs.len(), self.inner)
    }

    // Looks at all nodes under the pending names. Returns whether they are the same.
    fn go<K: AsBytes + Drop, const P: usize>(
        &mut self,
        store: &NodeStore<K, u32, P>,
        other: &NodeStore<K, u32, P>,
    ) -> Result<bool, AllocError> {
        for _ in 0..MOST_NODES {
            let Some((name, other_name)) = self.open.pop() else {
                return Ok(true);
            };
            let are_same = match (name.split(), other_name.split()) {
                (NodePtr::Leaf(leaf), NodePtr::Leaf(other_leaf)) => {
                    self.leaves.push(leaf)?;
                    self.other_leaves.push(other_leaf)?;
                    true
                }
                (NodePtr::Inner(inner), NodePtr::Inner(other_inner)) => {
                    self.meet_inner((store, inner), (other, other_inner))?
                }
                _ => false,
            };
            if !are_same {
                return Ok(false);
            }
        }
        Ok(false)
    }

    // Looks at two inner nodes. Returns whether they are the same but for their children's names.
    fn meet_inner<K: AsBytes + Drop, const P: usize>(
        &mut self,
        (store, name): (&NodeStore<K, u32, P>, InnerPtr),
        (other, other_name): (&NodeStore<K, u32, P>, InnerPtr),
    ) -> Result<bool, AllocError> {
        let Some(node) = store.inner(name) else {
            return Ok(false);
        };
        let Some(other) = other.inner(other_name) else {
            return Ok(false);
        };
        if !are_alike(node, other) {
            return Ok(false);
        }
        for ((byte, child), (other_byte, other_child)) in node
            .iter()
            .rev()
            .zip(other.iter().rev())
        {
            if byte != other_byte {
                return Ok(false);
            }
            self.open.push((child, other_child))?;
        }
        self.inner = self.inner.saturating_add(1);
        self.greatest_kind = self.greatest_kind.max(node.node_type());
        Ok(true)
    }
}

// Whether two nodes have the same kind, prefix and number of children.
fn are_alike<const P: usize>(node: InnerRef<'_, P>, other: InnerRef<'_, P>) -> bool {
    node.node_type() == other.node_type()
        && node.prefix_len() == other.prefix_len()
        && node.read_prefix() == other.read_prefix()
        && node.num_children() == other.num_children()
}

// Whether a leaf holds a pair and has these links.
fn is_leaf<K: AsBytes + PartialEq + Drop, const P: usize>(
    store: &NodeStore<K, u32, P>,
    name: LeafPtr,
    (key, value): &(K, u32),
    links: (Option<LeafPtr>, Option<LeafPtr>),
) -> bool {
    match store.leaf(name) {
        Some(leaf) => {
            leaf.key == *key && leaf.value == *value && (leaf.previous, leaf.next) == links
        }
        None => false,
    }
}

// Whether these leaves hold these pairs, and each is linked to the ones before and after it.
fn are_leaves<K: AsBytes + PartialEq + Drop, const P: usize>(
    store: &NodeStore<K, u32, P>,
    leaves: &[LeafPtr],
    pairs: &[(K, u32)],
) -> bool {
    if leaves.len() != pairs.len() {
        return false;
    }
    let mut previous = None;
    for at in 0..leaves.len() {
        let next = leaves.get(at + 1).copied();
        if !is_leaf(store, leaves[at], &pairs[at], (previous, next)) {
            return false;
        }
        previous = Some(leaves[at]);
    }
    true
}

/// Returns the greatest kind of node of two trees that are the same but for the names of their nodes, whose leaves hold
/// these pairs in order, where the first store has no other node. None where any of that is not so.
pub fn kind_if_same<K: AsBytes + PartialEq + Drop, const P: usize>(
    (store, root): (&NodeStore<K, u32, P>, Option<OpaqueNodePtr>),
    (other, other_root): (&NodeStore<K, u32, P>, Option<OpaqueNodePtr>),
    pairs: &[(K, u32)],
) -> Result<Option<NodeType>, AllocError> {
    if [root.is_none(), other_root.is_none()] != [pairs.is_empty(); 2] {
        return Ok(None);
    }
    Walk::new(store.alloc()).compare((store, root), (other, other_root), pairs)
}
