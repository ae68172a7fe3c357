//! The shapes of trees.

use art_nodes::node::{InnerRef, NodePtr, NodeType, OpaqueNodePtr};
use art_nodes::store::NodeStore;
use art_test_support::trees::Key;
use std::alloc::AllocError;

/// How a tree is made, as seen by a traversal from its root.
#[derive(Clone, Copy, PartialEq, Eq, Debug)]
pub struct Shape {
    pub leaves: usize,
    pub inner: usize,
    /// The kind of the root, and how many children it has.
    pub root: (NodeType, usize),
    /// The least and the greatest kind of an inner node.
    pub kinds: (NodeType, NodeType),
    pub longest_prefix: usize,
}

impl Shape {
    fn new(root: (NodeType, usize)) -> Self {
        Shape {
            leaves: 0,
            inner: 0,
            root,
            kinds: (NodeType::Leaf, NodeType::Node4),
            longest_prefix: 0,
        }
    }

    fn meet_inner<const P: usize>(&mut self, node: InnerRef<'_, P>) {
        let (least, greatest) = self.kinds;
        let kind = node.node_type();
        self.inner = self.inner.saturating_add(1);
        self.kinds = (least.min(kind), greatest.max(kind));
        self.longest_prefix = self.longest_prefix.max(node.prefix_len());
    }

    // Meets the node under a name, and adds its children's names to the list. Returns whether there is one.
    fn meet<const P: usize>(
        &mut self,
        store: &NodeStore<Key, u32, P>,
        name: OpaqueNodePtr,
        names: &mut Vec<OpaqueNodePtr>,
    ) -> Result<bool, AllocError> {
        match name.split() {
            NodePtr::Leaf(leaf) => {
                self.leaves = self.leaves.saturating_add(1);
                Ok(store.leaf(leaf).is_some())
            }
            NodePtr::Inner(inner) => {
                let Some(node) = store.inner(inner) else {
                    return Ok(false);
                };
                self.meet_inner(node);
                for (_, child) in node.iter() {
                    names.push(child)?;
                }
                Ok(true)
            }
        }
    }
}

// How many children a node has.
fn count_children<const P: usize>(
    store: &NodeStore<Key, u32, P>,
    name: OpaqueNodePtr,
) -> Option<usize> {
    Some(store.inner(name.as_inner()?)?.num_children())
}

// The shape of a tree, with a list for the names of the pending nodes.
fn walk<const P: usize>(
    store: &NodeStore<Key, u32, P>,
    root: OpaqueNodePtr,
    names: &mut Vec<OpaqueNodePtr>,
) -> Result<Option<Shape>, AllocError> {
    let children = count_children(store, root).unwrap_or(0);
    let mut shape = Shape::new((root.node_type(), children));
    names.push(root)?;
    for _ in 0..10_000 {
        let Some(name) = names.pop() else {
            return Ok(Some(shape));
        };
        if !shape.meet(store, name, names)? {
            return Ok(None);
        }
    }
    Ok(None)
}

/// The shape of a tree of at most 10,000 nodes. None if a name in it is the name of no node.
pub fn shape_of<const P: usize>(
    store: &NodeStore<Key, u32, P>,
    root: OpaqueNodePtr,
) -> Result<Option<Shape>, AllocError> {
    walk(store, root, &mut Vec::new(store.alloc()))
}
