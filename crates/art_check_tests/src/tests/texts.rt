//! What faults print.

use super::told::{Told, fault, is_cloned, told_by_fault};
use art_checking::well_formed::{MalformedTreeError, WellFormedChecker};
use art_nodes::node::{NodeType, OpaqueNodePtr};
use art_nodes::store::NodeStore;
use art_test_support::expected::same;
use art_test_support::trees::Key;
use std::alloc::Global;
use std::cmp::Ordering;
use std::test::Fail;

/// Whether a fault has this text.
fn is_printed(alloc: Global, fault: &MalformedTreeError, text: &str) -> bool {
    match format!(in alloc; "{fault}") {
        Ok(printed) => printed.as_str() == text,
        Err(_) => false,
    }
}

/// Whether the fault that is made to report this does, with this text, and a clone of it is the same.
fn is_right(alloc: Global, told: Told<'_>, text: &str) -> bool {
    match fault(alloc, told) {
        Ok(fault) => told_by_fault(&fault) == told
            && is_cloned(&fault)
            && is_printed(alloc, &fault, text),
        Err(_) => false,
    }
}

/// Whether each fault has its text. Returns the first that has not.
fn first_other(alloc: Global, rows: &[(Told<'_>, &str)]) -> Option<usize> {
    for (number, (told, text)) in rows.iter().enumerate() {
        if !is_right(alloc, *told, text) {
            return Some(number);
        }
    }
    None
}

/// The contents of faults of inner nodes, and their texts.
static OF_INNER_NODES: [(Told<'static>, &str); 8] = [
    (
        Told::Loop((NodeType::Node4, 7), &[], &[1, 2]),
        "Found a loop in the tree containing the node [Node4#7]. First observed that node at [[]], then later observed the same node at [[1, 2]]",
    ),
    (
        Told::Count(&[], NodeType::Node16, 2),
        "Found an inner node of type [Node16] at location [[]] that had the wrong number of children! Expected children in range [5..=16], but found [2] children",
    ),
    (
        Told::Count(&[255], NodeType::Node4, 0),
        "Found an inner node of type [Node4] at location [[255]] that had the wrong number of children! Expected children in range [2..=4], but found [0] children",
    ),
    (
        Told::Count(&[1, 2], NodeType::Node48, 16),
        "Found an inner node of type [Node48] at location [[1, 2]] that had the wrong number of children! Expected children in range [17..=48], but found [16] children",
    ),
    (
        Told::Count(&[], NodeType::Node256, 48),
        "Found an inner node of type [Node256] at location [[]] that had the wrong number of children! Expected children in range [49..=256], but found [48] children",
    ),
    (
        Told::Count(&[], NodeType::Leaf, 1),
        "Found an inner node of type [Leaf] at location [[]] that had the wrong number of children! Expected children in range [0..=0], but found [1] children",
    ),
    (
        Told::Unreadable(&[5], (NodeType::Node256, 2)),
        "Found an inner node [Node256#2] at location [[5]] whose prefix cannot be read from a leaf",
    ),
    (
        Told::Stored(&[9], &[1, 2], &[1, 1]),
        "Found an inner node at location [[9]] that stores the prefix bytes [[1, 2]], but its least leaf has [[1, 1]]",
    ),
];

#[test]
fn faults_of_inner_nodes_have_their_texts(rt: HostRuntime) -> Result<(), Fail> {
    same(first_other(rt.alloc(), &OF_INNER_NODES), None)
}

/// The contents of the other faults, and their texts.
static OF_LEAVES_AND_NAMES: [(Told<'static>, &str); 10] = [
    (
        Told::Prefix(&[1, 2], &[255, 255]),
        "Found a leaf that had a mismatched key from the expected prefix! Expected the leaf key to start with [[1, 2]], but the leaf key was [[255, 255]]",
    ),
    (
        Told::Order(&[1], &[2], Ordering::Less, Ordering::Greater),
        "Found a leaf with key [[2]] and sibling with key [[1]] that was expected to have [Less] but had [Greater]",
    ),
    (
        Told::Order(&[], &[], Ordering::Greater, Ordering::Equal),
        "Found a leaf with key [[]] and sibling with key [[]] that was expected to have [Greater] but had [Equal]",
    ),
    (
        Told::Links(&[1], (None, Some(2)), (Some(1), None)),
        "Found a leaf with key [[1]] where the previous pointer expected to be [None] but was actually [Leaf#1] and the next pointer expected to be [Leaf#2] but was actually [None].",
    ),
    (
        Told::Links(&[1], (Some(1), Some(2)), (Some(2), Some(2))),
        "Found a leaf with key [[1]] where the previous pointer expected to be [Leaf#1] but was actually [Leaf#2].",
    ),
    (
        Told::Links(&[1], (Some(1), Some(2)), (Some(1), None)),
        "Found a leaf with key [[1]] where the next pointer expected to be [Leaf#2] but was actually [None].",
    ),
    (
        Told::Dead(&[], (NodeType::Leaf, 0)),
        "Found a name [Leaf#0] at location [[]] that leads to no node of its kind",
    ),
    (
        Told::Dead(&[50, 1], (NodeType::Node48, 1)),
        "Found a name [Node48#1] at location [[50, 1]] that leads to no node of its kind",
    ),
    (
        Told::LenOfNone,
        "The length of the tree is not 0, even though the root is None",
    ),
    (
        Told::OutOfMemory,
        "Memory ran out while the tree was checked",
    ),
];

#[test]
fn faults_of_leaves_and_names_have_their_texts(rt: HostRuntime) -> Result<(), Fail> {
    same(first_other(rt.alloc(), &OF_LEAVES_AND_NAMES), None)
}

/// Whether the fault of a name in a store has this text.
fn is_printed_at(store: &NodeStore<Key, u32, 4>, name: OpaqueNodePtr, text: &str) -> bool {
    match WellFormedChecker::check_tree(store, name) {
        Ok(_) => false,
        Err(fault) => is_printed(store.alloc(), &fault, text),
    }
}

/// The same of the name of a leaf in a store that has none.
fn is_printed_of_none(alloc: Global, text: &str) -> bool {
    let name = OpaqueNodePtr::from_parts(NodeType::Leaf, 0);
    is_printed_at(&NodeStore::new(alloc), name, text)
}

#[test]
fn an_empty_store_has_no_tree(rt: HostRuntime) {
    let text = "Found a name [Leaf#0] at location [[]] that leads to no node of its kind";
    assert!(rt; is_printed_of_none(rt.alloc(), text));
}
