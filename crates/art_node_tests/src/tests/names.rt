//! The order and the hashes of names of one type, and how names and leaves print for debugging.
use art_node_support::expected::same;
use art_nodes::node::{InnerPtr, LeafNode, LeafPtr, NodePtr, NodeType, OpaqueNodePtr};
use std::alloc::Global;
use std::fmt::Debug;
use std::hash::{DefaultHasher, Hash, Hasher};
use std::test::Fail;

// The places of the first two of these that do not compare as their places do.
fn first_out_of_order<T: Ord>(rising: &[T]) -> Option<(usize, usize)> {
    for (index, first) in rising.iter().enumerate() {
        for (later, second) in rising.iter().enumerate() {
            if first.cmp(second) != index.cmp(&later) {
                return Some((index, later));
            }
        }
    }
    None
}

fn inner(kind: NodeType, slot: u32) -> InnerPtr {
    InnerPtr { kind, slot }
}

#[test]
fn orders_names_by_kind_then_slot(rt: HostRuntime) -> Result<(), Fail> {
    let rising = [
        OpaqueNodePtr::from_parts(NodeType::Node4, 8),
        OpaqueNodePtr::from_parts(NodeType::Node4, 9),
        OpaqueNodePtr::from_parts(NodeType::Node16, 7),
        OpaqueNodePtr::from_parts(NodeType::Node48, 6),
        OpaqueNodePtr::from_parts(NodeType::Node256, 5),
        OpaqueNodePtr::from_parts(NodeType::Leaf, 4),
    ];
    same(first_out_of_order(&rising), None)
}

fn hash_of<T: Hash>(value: &T) -> u64 {
    let mut hasher = DefaultHasher::new();
    value.hash(&mut hasher);
    hasher.finish()
}

#[test]
fn equal_names_have_equal_hashes(rt: HostRuntime) -> Result<(), Fail> {
    let leaf = LeafPtr::from_slot(5);
    let node = inner(NodeType::Node48, 7);
    let opaque = node.to_opaque();
    let hashes = [
        hash_of(&leaf),
        hash_of(&node),
        hash_of(&opaque),
        hash_of(&opaque.split()),
        hash_of(&node.kind),
    ];
    same(
        hashes,
        [
            hash_of(&LeafPtr { slot: 5 }),
            hash_of(&inner(opaque.kind, opaque.slot)),
            hash_of(&OpaqueNodePtr::from_parts(NodeType::Node48, 7)),
            hash_of(&NodePtr::Inner(node)),
            hash_of(&NodeType::Node48),
        ],
    )
}

// Whether a value prints something for debugging.
fn is_printed<T: Debug>(alloc: Global, value: &T) -> bool {
    match format!(in alloc; "{value:?}") {
        Ok(text) => !text.is_empty(),
        Err(_) => false,
    }
}

#[test]
fn names_and_leaves_are_printed(rt: HostRuntime) -> Result<(), Fail> {
    let alloc = rt.alloc();
    let leaf = LeafPtr::from_slot(5);
    let printed = [
        is_printed(alloc, &NodeType::Node4),
        is_printed(alloc, &leaf),
        is_printed(alloc, &inner(NodeType::Node16, 5)),
        is_printed(alloc, &leaf.to_opaque()),
        is_printed(alloc, &NodePtr::Leaf(leaf)),
        is_printed(alloc, &LeafNode::with_no_siblings([1u8], 10u32)),
    ];
    same(printed, [true; 6])
}
