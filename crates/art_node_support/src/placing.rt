//! Nodes that tests place one by one, so that they can have trees that no insertion makes.
ghost use Rattle.std.specs.Prelude.{IsTrue, IsSomeAnd};
ghost use Rattle.std.specs.FinMap as map;
ghost use Rattle.art_inner.specs.Inner.{HasPlace};
ghost use Rattle.art_parts.specs.Kinds.{kind_capacity};

use crate::nodes::Key;
use art_nodes::node::{
    AnyInner, AsBytes, Header, InnerPtr, LeafNode, LeafPtr, NodePtr, NodeType, OpaqueNodePtr,
};
use art_nodes::store::NodeStore;
use std::alloc::AllocError;

/// A node of a list, as it is to be placed or as it is expected. It names other nodes by their places in the list.
#[derive(Clone, Copy)]
pub enum Plain<'a> {
    Leaf {
        key: &'a [u8],
        value: u32,
        previous: Option<usize>,
        next: Option<usize>,
    },
    Inner {
        kind: NodeType,
        prefix_len: usize,
        /// The prefix, or its stored part.
        prefix: &'a [u8],
        children: &'a [(u8, usize)],
    },
    /// A name of no leaf: the leaf is freed once all nodes are placed.
    Gone,
    /// No node, but a name: this kind, and the slot of a node before it in the list.
    Renamed(NodeType, usize),
}

/// Returns a leaf without links.
pub fn lone_leaf(key: &[u8], value: u32) -> Plain<'_> {
    Plain::Leaf {
        key,
        value,
        previous: None,
        next: None,
    }
}

/// Returns an inner node without a prefix.
pub fn plain_node(kind: NodeType, children: &[(u8, usize)]) -> Plain<'_> {
    Plain::Inner {
        kind,
        prefix_len: 0,
        prefix: &[],
        children,
    }
}

/// Returns whether a child can be put under a byte of a node.
pub fn has_place<K: AsBytes + Drop, V: Drop, const P: usize>(
    store: &NodeStore<K, V, P>,
    name: InnerPtr,
    byte: u8,
) -> bool
    ensures { IsTrue result → IsSomeAnd (map.get store.now.inners name) (λ node.
        HasPlace (kind_capacity name.kind) node.children byte) }
{
    match store.inner(name) {
        Some(node) => !node.is_full() || node.lookup_child(byte).is_some(),
        None => false,
    }
}

/// Places these nodes, writes their children and links, and returns their names in the same order. `None` where a node
/// has no room for its children, or names a node that is not in the list.
pub fn placed_all<const P: usize>(
    store: &mut NodeStore<Key, u32, P>,
    nodes: &[Plain<'_>],
) -> Result<Option<Vec<OpaqueNodePtr>>, AllocError> {
    let mut names = Vec::new(store.alloc());
    if !place_each(store, nodes, &mut names)? || !join_each(store, nodes, &names) {
        return Ok(None);
    }
    for at in 0..nodes.len().min(names.len()) {
        free_gone(store, names[at], nodes[at]);
    }
    Ok(Some(names))
}

/// Places these nodes without their children and links, and lists their names. Returns whether all have one.
fn place_each<const P: usize>(
    store: &mut NodeStore<Key, u32, P>,
    nodes: &[Plain<'_>],
    names: &mut Vec<OpaqueNodePtr>,
) -> Result<bool, AllocError> {
    for node in nodes {
        match place(store, *node, names)? {
            Some(name) => names.push(name)?,
            None => return Ok(false),
        }
    }
    Ok(true)
}

/// Gives these nodes, which are placed under these names, their children and links. Returns whether there was room.
fn join_each<const P: usize>(
    store: &mut NodeStore<Key, u32, P>,
    nodes: &[Plain<'_>],
    names: &[OpaqueNodePtr],
) -> bool {
    for at in 0..nodes.len().min(names.len()) {
        if join(store, names[at], nodes[at], names).is_none() {
            return false;
        }
    }
    true
}

/// Places a node without its children and links. These are the names before it.
fn place<const P: usize>(
    store: &mut NodeStore<Key, u32, P>,
    node: Plain<'_>,
    names: &[OpaqueNodePtr],
) -> Result<Option<OpaqueNodePtr>, AllocError> {
    match node {
        Plain::Leaf { key, value, .. } => Ok(Some(place_leaf(store, key, value)?)),
        Plain::Gone => Ok(Some(place_leaf(store, &[], 0)?)),
        Plain::Renamed(kind, at) => {
            let Some(other) = names.get(at) else {
                return Ok(None);
            };
            Ok(Some(OpaqueNodePtr::from_parts(kind, other.slot())))
        }
        Plain::Inner {
            kind,
            prefix_len,
            prefix,
            ..
        } => {
            if kind == NodeType::Leaf || prefix.len() < prefix_len.min(P) {
                return Ok(None);
            }
            let node = AnyInner::from_header(kind, Header::new(prefix, prefix_len));
            match store.place_inner(node) {
                Ok(name) => Ok(Some(name.to_opaque())),
                Err((_, error)) => Err(error),
            }
        }
    }
}

/// Places a leaf without links.
fn place_leaf<const P: usize>(
    store: &mut NodeStore<Key, u32, P>,
    key: &[u8],
    value: u32,
) -> Result<OpaqueNodePtr, AllocError> {
    let leaf = LeafNode::with_no_siblings(key.to_vec(store.alloc())?, value);
    match store.place_leaf(leaf) {
        Ok(name) => Ok(name.to_opaque()),
        Err((_, error)) => Err(error),
    }
}

/// Gives a node that is placed its children or its links.
fn join<const P: usize>(
    store: &mut NodeStore<Key, u32, P>,
    name: OpaqueNodePtr,
    node: Plain<'_>,
    names: &[OpaqueNodePtr],
) -> Option<()> {
    match (name.split(), node) {
        (NodePtr::Leaf(leaf), Plain::Leaf { previous, next, .. }) => {
            store.leaf(leaf)?;
            store.set_links(leaf, leaf_at(names, previous), leaf_at(names, next));
        }
        (NodePtr::Inner(inner), Plain::Inner { children, .. }) => {
            for (byte, at) in children {
                let child = *names.get(*at)?;
                if !has_place(store, inner, *byte) {
                    return None;
                }
                store.write_child(inner, *byte, child);
            }
        }
        (_, Plain::Gone) | (_, Plain::Renamed(..)) => {}
        _ => return None,
    }
    Some(())
}

/// Frees a leaf that is to be removed.
fn free_gone<const P: usize>(
    store: &mut NodeStore<Key, u32, P>,
    name: OpaqueNodePtr,
    node: Plain<'_>,
) {
    if let (NodePtr::Leaf(leaf), Plain::Gone) = (name.split(), node) {
        if store.leaf(leaf).is_some() {
            store.free_leaf(leaf);
        }
    }
}

/// Returns the name of the leaf at a place of the list.
pub fn leaf_at(names: &[OpaqueNodePtr], at: Option<usize>) -> Option<LeafPtr> {
    names.get(at?)?.as_leaf()
}
