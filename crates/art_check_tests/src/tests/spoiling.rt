//! Trees that are drawn, and then damaged in one place.

use art_nodes::node::{
    AnyInner, Header, InnerPtr, LeafPtr, NodePtr, NodeType, OpaqueNodePtr, OptionalLeafPtr,
};
use art_nodes::store::NodeStore;
use art_test_support::crowds::KINDS;
use art_test_support::numbers::Numbers;
use art_test_support::placing::has_place;
use art_test_support::trees::Key;
use std::alloc::{AllocError, Global};

// No drawn tree has more nodes.
const MOST_NODES: usize = 400;

/// Some keys: of one byte, or of few bytes, or with long common prefixes.
pub fn draw_keys(alloc: Global, numbers: &mut Numbers) -> Result<Vec<Key>, AllocError> {
    let mut keys = Vec::new(alloc);
    let (shape, count) = (numbers.below(4), numbers.below(60));
    for _ in 0..=count {
        keys.push(draw_key(alloc, numbers, shape)?)?;
    }
    Ok(keys)
}

// A key of such a shape: of one byte, of few bytes, or with a common prefix of 5 or 18 bytes in each half.
fn draw_key(alloc: Global, numbers: &mut Numbers, shape: usize) -> Result<Key, AllocError> {
    match shape {
        0 => [numbers.byte()].to_vec(alloc),
        1 => few_bytes(alloc, numbers),
        2 => long_key(alloc, numbers, 5),
        _ => long_key(alloc, numbers, 18),
    }
}

// One to four bytes, each of few.
fn few_bytes(alloc: Global, numbers: &mut Numbers) -> Result<Key, AllocError> {
    let mut key = Vec::new(alloc);
    for _ in 0..=numbers.below(4) {
        key.push(numbers.below(5) as u8)?;
    }
    Ok(key)
}

// Two times so many equal bytes, and one of few after them.
fn long_key(alloc: Global, numbers: &mut Numbers, len: usize) -> Result<Key, AllocError> {
    let mut key = Vec::new(alloc);
    for _ in 0..2 {
        for _ in 0..len {
            key.push(7)?;
        }
        key.push(numbers.below(4) as u8)?;
    }
    Ok(key)
}

// Adds the names of a node's children to a list.
fn push_children<const P: usize>(
    store: &NodeStore<Key, u32, P>,
    name: OpaqueNodePtr,
    names: &mut Vec<OpaqueNodePtr>,
) -> Result<(), AllocError> {
    if let NodePtr::Inner(inner) = name.split() {
        if let Some(node) = store.inner(inner) {
            for (_, child) in node.iter() {
                names.push(child)?;
            }
        }
    }
    Ok(())
}

/// The names of a tree's nodes, with the root first.
pub fn names_below<const P: usize>(
    store: &NodeStore<Key, u32, P>,
    root: OpaqueNodePtr,
) -> Result<Vec<OpaqueNodePtr>, AllocError> {
    let mut names = Vec::from_array(store.alloc(), [root])?;
    for at in 0..MOST_NODES {
        let Some(name) = names.get(at).copied() else {
            break;
        };
        push_children(store, name, &mut names)?;
    }
    Ok(names)
}

/// Damages one place of a tree whose nodes have these names, or leaves it unchanged. Returns the root's name, which may
/// be another then.
pub fn spoil<const P: usize>(
    store: &mut NodeStore<Key, u32, P>,
    names: &[OpaqueNodePtr],
    root: OpaqueNodePtr,
    numbers: &mut Numbers,
) -> Result<OpaqueNodePtr, AllocError> {
    let name = drawn_node(names, root, numbers);
    if numbers.below(40) == 0 {
        return Ok(odd_name(names, name, numbers));
    }
    match name.split() {
        NodePtr::Leaf(leaf) => {
            let link = drawn_name(names, name, numbers).as_leaf();
            spoil_leaf(store, leaf, link, numbers)?
        }
        NodePtr::Inner(inner) => spoil_inner(store, inner, names, numbers)?,
    }
    Ok(root)
}

// One of these names.
fn drawn_name(
    names: &[OpaqueNodePtr],
    root: OpaqueNodePtr,
    numbers: &mut Numbers,
) -> OpaqueNodePtr {
    match numbers.place_in(names.len()) {
        Some(at) => names[at],
        None => root,
    }
}

// The same, where at least half are of inner nodes if there are any.
fn drawn_node(
    names: &[OpaqueNodePtr],
    root: OpaqueNodePtr,
    numbers: &mut Numbers,
) -> OpaqueNodePtr {
    let mut name = drawn_name(names, root, numbers);
    if numbers.is_heads() {
        for _ in 0..30 {
            if name.node_type() != NodeType::Leaf {
                break;
            }
            name = drawn_name(names, root, numbers);
        }
    }
    name
}

// A name of the tree, or one with the slot of such a name.
fn odd_name(names: &[OpaqueNodePtr], name: OpaqueNodePtr, numbers: &mut Numbers) -> OpaqueNodePtr {
    if numbers.is_heads() {
        return drawn_name(names, name, numbers);
    }
    match numbers.place_in(KINDS.len()) {
        Some(at) => OpaqueNodePtr::from_parts(KINDS[at], name.slot()),
        None => name,
    }
}

// Replaces a link of a leaf by this one, swaps its links, changes the key, or frees the leaf.
fn spoil_leaf<const P: usize>(
    store: &mut NodeStore<Key, u32, P>,
    name: LeafPtr,
    link: OptionalLeafPtr,
    numbers: &mut Numbers,
) -> Result<(), AllocError> {
    let Some(leaf) = store.leaf(name) else {
        return Ok(());
    };
    let (previous, next) = (leaf.previous, leaf.next);
    match numbers.below(5) {
        0 => store.set_links(name, link, next),
        1 => store.set_links(name, previous, link),
        2 => store.set_links(name, next, previous),
        3 => return spoil_key(store, name, numbers),
        _ => {
            store.free_leaf(name);
        }
    }
    Ok(())
}

// Changes the key of a leaf.
fn spoil_key<const P: usize>(
    store: &mut NodeStore<Key, u32, P>,
    name: LeafPtr,
    numbers: &mut Numbers,
) -> Result<(), AllocError> {
    let Some(leaf) = store.leaf(name) else {
        return Ok(());
    };
    let key = changed(leaf.key.clone()?, numbers)?;
    store.swap_pair(name, key, 0);
    Ok(())
}

// Bytes of which one is changed, or the last is removed, or to which one is added.
fn changed(mut bytes: Vec<u8>, numbers: &mut Numbers) -> Result<Vec<u8>, AllocError> {
    match numbers.below(4) {
        0 => {
            bytes.pop();
        }
        1 => bytes.push(numbers.byte())?,
        _ => {
            if let Some(at) = numbers.place_in(bytes.len()) {
                bytes[at] = bytes[at].wrapping_add(1);
            }
        }
    }
    Ok(bytes)
}

// Changes the children, the prefix or the kind of an inner node, or frees it.
fn spoil_inner<const P: usize>(
    store: &mut NodeStore<Key, u32, P>,
    name: InnerPtr,
    names: &[OpaqueNodePtr],
    numbers: &mut Numbers,
) -> Result<(), AllocError> {
    match numbers.below(8) {
        0 | 1 => spoil_child(store, name, names, numbers),
        2 => add_child(
            store,
            name,
            numbers.byte(),
            drawn_name(names, name.to_opaque(), numbers),
        ),
        3 => drop_children(store, name, numbers),
        4 | 5 => return spoil_prefix(store, name, numbers),
        6 => return grow_child(store, name, numbers),
        _ => {
            if store.inner(name).is_some() {
                store.free_inner(name);
            }
        }
    }
    Ok(())
}

// One of a node's children and its byte.
fn drawn_child<const P: usize>(
    store: &NodeStore<Key, u32, P>,
    name: InnerPtr,
    numbers: &mut Numbers,
) -> Option<(u8, OpaqueNodePtr)> {
    let node = store.inner(name)?;
    let at = numbers.place_in(node.num_children())?;
    node.iter().nth(at)
}

// Adds a name under a byte of a node, if there is room.
fn add_child<const P: usize>(
    store: &mut NodeStore<Key, u32, P>,
    name: InnerPtr,
    byte: u8,
    child: OpaqueNodePtr,
) {
    if has_place(store, name, byte) {
        store.write_child(name, byte, child);
    }
}

// Replaces a child by another name.
fn spoil_child<const P: usize>(
    store: &mut NodeStore<Key, u32, P>,
    name: InnerPtr,
    names: &[OpaqueNodePtr],
    numbers: &mut Numbers,
) {
    if let Some((byte, child)) = drawn_child(store, name, numbers) {
        add_child(store, name, byte, odd_name(names, child, numbers));
    }
}

// Removes some or all children from a node.
fn drop_children<const P: usize>(
    store: &mut NodeStore<Key, u32, P>,
    name: InnerPtr,
    numbers: &mut Numbers,
) {
    let count = if numbers.is_heads() { 1 } else { 256 };
    for _ in 0..count {
        let Some((byte, _)) = drawn_child(store, name, numbers) else {
            return;
        };
        if store.inner(name).is_some() {
            store.remove_child(name, byte);
        }
    }
}

// Changes a stored byte of a prefix, or its length.
fn spoil_prefix<const P: usize>(
    store: &mut NodeStore<Key, u32, P>,
    name: InnerPtr,
    numbers: &mut Numbers,
) -> Result<(), AllocError> {
    let Some(node) = store.inner(name) else {
        return Ok(());
    };
    let mut len = node.prefix_len();
    let mut stored = node.read_prefix().to_vec(store.alloc())?;
    if numbers.is_heads() {
        for _ in 0..P {
            stored.push(7)?;
        }
        len = another_length(len, numbers);
    } else if let Some(at) = numbers.place_in(stored.len()) {
        stored[at] = stored[at].wrapping_add(1);
    }
    if store.inner(name).is_some() && stored.len() >= len.min(P) {
        store.set_header(name, Header::new(&stored, len));
    }
    Ok(())
}

// A longer or shorter length.
fn another_length(len: usize, numbers: &mut Numbers) -> usize {
    match numbers.below(4) {
        0 => len.saturating_add(1),
        1 => len.saturating_sub(1),
        2 => len.saturating_add(numbers.below(30)),
        _ => usize::MAX,
    }
}

// Replaces a child by a node of a greater kind.
fn grow_child<const P: usize>(
    store: &mut NodeStore<Key, u32, P>,
    name: InnerPtr,
    numbers: &mut Numbers,
) -> Result<(), AllocError> {
    let Some((byte, child)) = drawn_child(store, name, numbers) else {
        return Ok(());
    };
    let Some(inner) = child.as_inner() else {
        return Ok(());
    };
    if inner.kind == NodeType::Node256 || store.inner(inner).is_none() {
        return Ok(());
    }
    let node = store.free_inner(inner);
    match store.place_inner(node.grow()) {
        Ok(grown) => {
            add_child(store, name, byte, grown.to_opaque());
            Ok(())
        }
        Err((_, error)) => Err(error),
    }
}
