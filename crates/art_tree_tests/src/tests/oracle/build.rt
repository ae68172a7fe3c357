//! The radix tree of a map, built in a store at once.
ghost use Rattle.std.specs.Prelude.{◌≢◌};
ghost use Rattle.art_parts.specs.declared.names.NodeType.TheVariants.{Leaf};

use art_nodes::node::{
    AnyInner, AsBytes, Header, InnerPtr, LeafNode, LeafPtr, NodeType, OpaqueNodePtr,
};
use art_nodes::store::NodeStore;
use std::alloc::{AllocError, Global};
use std::ops::Range;

/// Builds the tree of a map, a sorted list of pairs of which no key is a prefix of another, in a store. Returns its
/// root: none if there are no pairs.
///
/// Fails if an allocation fails. Of pairs that are no map it fails too, or builds a tree that is not canonical. If it
/// fails the nodes that were placed so far stay in the store.
pub fn build<K: AsBytes + Drop, V: Drop, const P: usize>(
    store: &mut NodeStore<K, V, P>,
    pairs: Vec<(K, V)>,
) -> Result<Option<OpaqueNodePtr>, AllocError> {
    let names = place_leaves(store, pairs)?;
    if names.is_empty() {
        return Ok(None);
    }
    link_leaves(store, &names);
    let root = build_node(store, &names, 0)?;
    Ok(Some(root))
}

/// Places a leaf for each pair, in order, and lists the names.
fn place_leaves<K: AsBytes + Drop, V: Drop, const P: usize>(
    store: &mut NodeStore<K, V, P>,
    pairs: Vec<(K, V)>,
) -> Result<Vec<LeafPtr>, AllocError> {
    let mut names = Vec::with_capacity(store.alloc(), pairs.len())?;
    for (key, value) in pairs {
        match store.place_leaf(LeafNode::with_no_siblings(key, value)) {
            Ok(name) => names.push(name)?,
            Err((_, error)) => return Err(error),
        }
    }
    Ok(names)
}

/// Links the leaves of a list that are in the store, each to the one before it and the one after it.
fn link_leaves<K: AsBytes + Drop, V: Drop, const P: usize>(
    store: &mut NodeStore<K, V, P>,
    names: &[LeafPtr],
) {
    let mut previous = None;
    for at in 0..names.len() {
        let name = names[at];
        if store.leaf(name).is_some() {
            store.set_links(name, previous, names.get(at + 1).copied());
        }
        previous = Some(name);
    }
}

/// Builds the tree of sorted leaves, whose keys start with the same bytes up to a depth, from that depth on.
fn build_node<K: AsBytes + Drop, V: Drop, const P: usize>(
    store: &mut NodeStore<K, V, P>,
    leaves: &[LeafPtr],
    depth: usize,
) -> Result<OpaqueNodePtr, AllocError> {
    let first = *leaves.first().ok_or(AllocError)?;
    if leaves.len() == 1 {
        return Ok(first.to_opaque());
    }
    let len = shared_len(store, leaves, depth).ok_or(AllocError)?;
    let at = depth.checked_add(len).ok_or(AllocError)?;
    let below = at.checked_add(1).ok_or(AllocError)?;
    let groups = group_by_byte(store, leaves, at)?;
    let name = place_node(store, first, depth..at, groups.len())?;
    for (byte, group) in &groups {
        let child = build_node(store, group, below)?;
        add_child(store, name, *byte, child)?;
    }
    Ok(name.to_opaque())
}

/// Returns how many bytes the first and the last key share from a depth on.
fn shared_len<K: AsBytes + Drop, V: Drop, const P: usize>(
    store: &NodeStore<K, V, P>,
    leaves: &[LeafPtr],
    depth: usize,
) -> Option<usize> {
    let first = key_from(store, *leaves.first()?, depth)?;
    let last = key_from(store, *leaves.last()?, depth)?;
    Some(first.iter().zip(last).take_while(|(a, b)| a == b).count())
}

/// Returns the bytes of a leaf's key from a depth on.
fn key_from<K: AsBytes + Drop, V: Drop, const P: usize>(
    store: &NodeStore<K, V, P>,
    leaf: LeafPtr,
    depth: usize,
) -> Option<&[u8]> {
    store.leaf(leaf)?.key.as_bytes().get(depth..)
}

/// Groups sorted leaves by their keys' bytes at a depth.
fn group_by_byte<K: AsBytes + Drop, V: Drop, const P: usize>(
    store: &NodeStore<K, V, P>,
    leaves: &[LeafPtr],
    at: usize,
) -> Result<Vec<(u8, Vec<LeafPtr>)>, AllocError> {
    let mut groups = Vec::new(store.alloc());
    for leaf in leaves {
        let key = key_from(store, *leaf, at).ok_or(AllocError)?;
        let byte = *key.first().ok_or(AllocError)?;
        add_leaf(store.alloc(), &mut groups, byte, *leaf)?;
    }
    Ok(groups)
}

/// Adds a leaf to the last group, or to a new one if that has another byte.
fn add_leaf(
    alloc: Global,
    groups: &mut Vec<(u8, Vec<LeafPtr>)>,
    byte: u8,
    leaf: LeafPtr,
) -> Result<(), AllocError> {
    match groups.last_mut() {
        Some(last) if last.0 == byte => last.1.push(leaf)?,
        _ => groups.push((byte, [leaf].to_vec(alloc)?))?,
    }
    Ok(())
}

/// Places a node for so many children, whose prefix is this part of a leaf's key.
// A node is large: it is on the stack only while it is placed, and not through the recursion.
#[inline(never)]
fn place_node<K: AsBytes + Drop, V: Drop, const P: usize>(
    store: &mut NodeStore<K, V, P>,
    leaf: LeafPtr,
    part: Range<usize>,
    children: usize,
) -> Result<InnerPtr, AllocError> {
    let key = key_from(store, leaf, 0).ok_or(AllocError)?;
    let prefix = key.get(part).ok_or(AllocError)?;
    let header = Header::new(prefix, prefix.len());
    let node = AnyInner::from_header(kind_for(children), header);
    store.place_inner(node).map_err(|(_, error)| error)
}

/// Returns the kind of a node with so many children.
fn kind_for(children: usize) -> NodeType
    ensures { result ≢ Leaf }
{
    match children {
        0..=4 => NodeType::Node4,
        5..=16 => NodeType::Node16,
        17..=48 => NodeType::Node48,
        _ => NodeType::Node256,
    }
}

/// Writes a child of a node that is not full.
fn add_child<K: AsBytes + Drop, V: Drop, const P: usize>(
    store: &mut NodeStore<K, V, P>,
    parent: InnerPtr,
    byte: u8,
    child: OpaqueNodePtr,
) -> Result<(), AllocError> {
    let node = store.inner(parent).ok_or(AllocError)?;
    if node.is_full() {
        return Err(AllocError);
    }
    store.write_child(parent, byte, child);
    Ok(())
}
