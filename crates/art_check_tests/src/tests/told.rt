//! What a check returns, as plain values.

use art_checking::well_formed::{
    KeyPrefix, MalformedTreeError, WellFormedChecker, WellFormedTreeStats,
};
use art_nodes::node::{LeafPtr, NodeType, OpaqueNodePtr, OptionalLeafPtr};
use art_nodes::store::NodeStore;
use art_test_support::trees::Key;
use std::alloc::{AllocError, Global};
use std::cmp::Ordering;

/// The kind and the slot of a name.
pub type Named = (NodeType, u32);

/// The slots of a leaf's links.
pub type Links = (Option<u32>, Option<u32>);

/// What a check reports, with the bytes of its prefixes and keys.
#[derive(Clone, Copy, PartialEq, Eq)]
pub enum Told<'a> {
    /// So many leaves and inner nodes.
    Whole(usize, usize),
    /// A name, and the bytes of the first and the later path to it.
    Loop(Named, &'a [u8], &'a [u8]),
    /// The bytes that lead to a node, its kind, and how many children it has.
    Count(&'a [u8], NodeType, usize),
    /// The bytes that lead to a leaf, and its key.
    Prefix(&'a [u8], &'a [u8]),
    LenOfNone,
    /// The keys of a sibling and of the leaf, and the orders expected and met.
    Order(&'a [u8], &'a [u8], Ordering, Ordering),
    /// A leaf's key, and its links as expected and as met.
    Links(&'a [u8], Links, Links),
    Dead(&'a [u8], Named),
    Unreadable(&'a [u8], Named),
    /// The bytes that lead to a node, and those of its prefix as they are stored and as a leaf has them.
    Stored(&'a [u8], &'a [u8], &'a [u8]),
    OutOfMemory,
}

/// The kind and the slot of a name.
pub fn named(name: OpaqueNodePtr) -> Named {
    (name.node_type(), name.slot())
}

/// The slots of these links.
pub fn slots((previous, next): (OptionalLeafPtr, OptionalLeafPtr)) -> Links {
    let slot = |leaf: LeafPtr| leaf.to_opaque().slot();
    (previous.map(slot), next.map(slot))
}

/// What a result reports.
pub fn told_by(answer: &Result<WellFormedTreeStats, MalformedTreeError>) -> Told<'_> {
    match answer {
        Ok(stats) => Told::Whole(stats.num_leaf, stats.num_inner),
        Err(fault) => told_by_fault(fault),
    }
}

/// Whether a result reports this.
fn says(answer: &Result<WellFormedTreeStats, MalformedTreeError>, told: Told<'_>) -> bool {
    told_by(answer) == told
}

/// Whether the check of a tree, or of no tree, reports this.
pub fn check_says<const P: usize>(
    store: &NodeStore<Key, u32, P>,
    root: Option<OpaqueNodePtr>,
    len: usize,
    told: Told<'_>,
) -> bool {
    says(&WellFormedChecker::check(store, root, len), told)
}

/// Whether the check of a name reports this.
pub fn check_tree_says<const P: usize>(
    store: &NodeStore<Key, u32, P>,
    name: OpaqueNodePtr,
    told: Told<'_>,
) -> bool {
    says(&WellFormedChecker::check_tree(store, name), told)
}

/// What a fault reports.
pub fn told_by_fault(fault: &MalformedTreeError) -> Told<'_> {
    match fault {
        MalformedTreeError::LoopFound {
            node_ptr,
            first_observed,
            later_observed,
        } => Told::Loop(
            named(*node_ptr),
            first_observed.as_slice(),
            later_observed.as_slice(),
        ),
        MalformedTreeError::WrongChildrenCount {
            key_prefix,
            inner_node_type,
            num_children,
        } => Told::Count(key_prefix.as_slice(), *inner_node_type, *num_children),
        MalformedTreeError::PrefixMismatch {
            expected_prefix,
            entire_key,
        } => Told::Prefix(expected_prefix.as_slice(), entire_key),
        MalformedTreeError::EmptyTreeWithLen => Told::LenOfNone,
        MalformedTreeError::LeafSiblingWrongOrder {
            sibling_key,
            leaf_key,
            expected_order,
            actual_order,
        } => Told::Order(sibling_key, leaf_key, *expected_order, *actual_order),
        MalformedTreeError::WrongSiblingLinks {
            leaf_key,
            expected_previous,
            expected_next,
            actual_previous,
            actual_next,
        } => Told::Links(
            leaf_key,
            slots((*expected_previous, *expected_next)),
            slots((*actual_previous, *actual_next)),
        ),
        MalformedTreeError::DeadName { key_prefix, name } => {
            Told::Dead(key_prefix.as_slice(), named(*name))
        }
        MalformedTreeError::UnreadablePrefix { key_prefix, name } => {
            Told::Unreadable(key_prefix.as_slice(), named(*name))
        }
        MalformedTreeError::StoredPrefixMismatch {
            key_prefix,
            stored,
            actual,
        } => Told::Stored(key_prefix.as_slice(), stored, actual),
        MalformedTreeError::OutOfMemory => Told::OutOfMemory,
    }
}

// A fault, or out of memory for its bytes.
type Made = Result<MalformedTreeError, AllocError>;

// The name of this kind and slot.
fn name_of((kind, slot): Named) -> OpaqueNodePtr {
    OpaqueNodePtr::from_parts(kind, slot)
}

// The link to the leaf in this slot.
fn link_to(slot: Option<u32>) -> OptionalLeafPtr {
    slot.map(LeafPtr::from_slot)
}

// Copies of two lists of bytes.
fn copies(alloc: Global, first: &[u8], second: &[u8]) -> Result<(Vec<u8>, Vec<u8>), AllocError> {
    Ok((first.to_vec(alloc)?, second.to_vec(alloc)?))
}

/// The fault that reports this. What no fault reports has that of out of memory.
pub fn fault(alloc: Global, told: Told<'_>) -> Made {
    match told {
        Told::Loop(name, first, later) => a_loop(alloc, name, first, later),
        Told::Count(place, kind, count) => wrong_count(alloc, place, kind, count),
        Told::Prefix(place, key) => another_key(alloc, place, key),
        Told::LenOfNone => Ok(MalformedTreeError::EmptyTreeWithLen),
        Told::Order(sibling, key, expected, actual) => {
            wrong_order(alloc, (sibling, key), expected, actual)
        }
        Told::Links(key, expected, actual) => wrong_links(alloc, key, expected, actual),
        Told::Dead(place, name) => dead_name(alloc, place, name),
        Told::Unreadable(place, name) => unreadable(alloc, place, name),
        Told::Stored(place, stored, actual) => wrongly_stored(alloc, place, stored, actual),
        Told::Whole(..) | Told::OutOfMemory => Ok(MalformedTreeError::OutOfMemory),
    }
}

fn a_loop(alloc: Global, name: Named, first: &[u8], later: &[u8]) -> Made {
    let first_observed = KeyPrefix::from_slice(alloc, first)?;
    Ok(MalformedTreeError::LoopFound {
        node_ptr: name_of(name),
        first_observed,
        later_observed: KeyPrefix::from_slice(alloc, later)?,
    })
}

fn wrong_count(
    alloc: Global,
    place: &[u8],
    inner_node_type: NodeType,
    num_children: usize,
) -> Made {
    let key_prefix = KeyPrefix::from_slice(alloc, place)?;
    Ok(MalformedTreeError::WrongChildrenCount {
        key_prefix,
        inner_node_type,
        num_children,
    })
}

fn another_key(alloc: Global, place: &[u8], key: &[u8]) -> Made {
    let expected_prefix = KeyPrefix::from_slice(alloc, place)?;
    Ok(MalformedTreeError::PrefixMismatch {
        expected_prefix,
        entire_key: key.to_vec(alloc)?,
    })
}

fn wrong_order(
    alloc: Global,
    (sibling, key): (&[u8], &[u8]),
    expected_order: Ordering,
    actual_order: Ordering,
) -> Made {
    let (sibling_key, leaf_key) = copies(alloc, sibling, key)?;
    Ok(MalformedTreeError::LeafSiblingWrongOrder {
        sibling_key,
        leaf_key,
        expected_order,
        actual_order,
    })
}

fn wrong_links(alloc: Global, key: &[u8], expected: Links, actual: Links) -> Made {
    let leaf_key = key.to_vec(alloc)?;
    Ok(MalformedTreeError::WrongSiblingLinks {
        leaf_key,
        expected_previous: link_to(expected.0),
        expected_next: link_to(expected.1),
        actual_previous: link_to(actual.0),
        actual_next: link_to(actual.1),
    })
}

fn dead_name(alloc: Global, place: &[u8], name: Named) -> Made {
    let key_prefix = KeyPrefix::from_slice(alloc, place)?;
    Ok(MalformedTreeError::DeadName {
        key_prefix,
        name: name_of(name),
    })
}

fn unreadable(alloc: Global, place: &[u8], name: Named) -> Made {
    let key_prefix = KeyPrefix::from_slice(alloc, place)?;
    Ok(MalformedTreeError::UnreadablePrefix {
        key_prefix,
        name: name_of(name),
    })
}

fn wrongly_stored(alloc: Global, place: &[u8], stored: &[u8], actual: &[u8]) -> Made {
    let key_prefix = KeyPrefix::from_slice(alloc, place)?;
    let (stored, actual) = copies(alloc, stored, actual)?;
    Ok(MalformedTreeError::StoredPrefixMismatch {
        key_prefix,
        stored,
        actual,
    })
}

/// Whether a clone of a fault equals it and reports the same.
pub fn is_cloned(fault: &MalformedTreeError) -> bool {
    match fault.clone() {
        Ok(copy) => copy == *fault && told_by_fault(&copy) == told_by_fault(fault),
        Err(_) => false,
    }
}

/// The same, where names have the place in this list as their slot.
pub fn listed<'a>(told: Told<'a>, names: &[OpaqueNodePtr]) -> Told<'a> {
    match told {
        Told::Loop(name, first, later) => Told::Loop(place_of(name, names), first, later),
        Told::Links(key, expected, actual) => {
            Told::Links(
                key,
                links_listed(expected, names),
                links_listed(actual, names),
            )
        }
        Told::Dead(place, name) => Told::Dead(place, place_of(name, names)),
        Told::Unreadable(place, name) => Told::Unreadable(place, place_of(name, names)),
        told => told,
    }
}

// A name with its place in a list as its slot.
fn place_of(name: Named, names: &[OpaqueNodePtr]) -> Named {
    let place = names.iter().position(|other| named(*other) == name);
    (
        name.0,
        place
            .and_then(|at| u32::try_from(at).ok())
            .unwrap_or(u32::MAX),
    )
}

// The same of links.
fn links_listed((previous, next): Links, names: &[OpaqueNodePtr]) -> Links {
    let place = |slot: u32| place_of((NodeType::Leaf, slot), names).1;
    (previous.map(place), next.map(place))
}
