//! Errors with copies of what they report, or out of memory.
ghost use Rattle.art_model.specs.Faults.{dead_name, leaf_sibling_wrong_order, loop_found, prefix_mismatch, stored_prefix_mismatch, unreadable_prefix, wrong_children_count, wrong_sibling_links};
ghost use Rattle.art_checking.specs.Checked.{Says};
ghost use Rattle.art_checking.specs.Checks.{between};

use super::{KeyPrefix, MalformedTreeError};
use art_nodes::node::{NodeType, OpaqueNodePtr, OptionalLeafPtr};
use std::alloc::Global;
use std::cmp::Ordering;

impl MalformedTreeError {
    pub(super) fn loop_found(
        alloc: Global,
        node_ptr: OpaqueNodePtr,
        first: &[u8],
        later: &[u8],
    ) -> Self
        ensures { Says (loop_found node_ptr first.now later.now) result }
    {
        match (
            KeyPrefix::from_slice(alloc, first),
            KeyPrefix::from_slice(alloc, later),
        ) {
            (Ok(first_observed), Ok(later_observed)) => MalformedTreeError::LoopFound {
                node_ptr,
                first_observed,
                later_observed,
            },
            _ => MalformedTreeError::OutOfMemory,
        }
    }

    pub(super) fn wrong_children_count(
        alloc: Global,
        place: &[u8],
        inner_node_type: NodeType,
        num_children: usize,
    ) -> Self
        ensures { Says (wrong_children_count place.now inner_node_type num_children) result }
    {
        match KeyPrefix::from_slice(alloc, place) {
            Ok(key_prefix) => MalformedTreeError::WrongChildrenCount {
                key_prefix,
                inner_node_type,
                num_children,
            },
            Err(_) => MalformedTreeError::OutOfMemory,
        }
    }

    pub(super) fn prefix_mismatch(alloc: Global, place: &[u8], key: &[u8]) -> Self
        ensures { Says (prefix_mismatch place.now key.now) result }
    {
        match (KeyPrefix::from_slice(alloc, place), key.to_vec(alloc)) {
            (Ok(expected_prefix), Ok(entire_key)) => MalformedTreeError::PrefixMismatch {
                expected_prefix,
                entire_key,
            },
            _ => MalformedTreeError::OutOfMemory,
        }
    }

    pub(super) fn leaf_sibling_wrong_order(
        alloc: Global,
        sibling_key: &[u8],
        leaf_key: &[u8],
        expected_order: Ordering,
        actual_order: Ordering,
    ) -> Self
        ensures { Says (leaf_sibling_wrong_order
            sibling_key.now leaf_key.now expected_order actual_order) result }
    {
        match (sibling_key.to_vec(alloc), leaf_key.to_vec(alloc)) {
            (Ok(sibling_key), Ok(leaf_key)) => MalformedTreeError::LeafSiblingWrongOrder {
                sibling_key,
                leaf_key,
                expected_order,
                actual_order,
            },
            _ => MalformedTreeError::OutOfMemory,
        }
    }

    // The links of each pair are the previous one and the next.
    pub(super) fn wrong_sibling_links(
        alloc: Global,
        leaf_key: &[u8],
        expected: (OptionalLeafPtr, OptionalLeafPtr),
        actual: (OptionalLeafPtr, OptionalLeafPtr),
    ) -> Self
        ensures { Says (wrong_sibling_links leaf_key.now
            (between expected.0 expected.1) (between actual.0 actual.1)) result }
    {
        match leaf_key.to_vec(alloc) {
            Ok(leaf_key) => MalformedTreeError::WrongSiblingLinks {
                leaf_key,
                expected_previous: expected.0,
                expected_next: expected.1,
                actual_previous: actual.0,
                actual_next: actual.1,
            },
            Err(_) => MalformedTreeError::OutOfMemory,
        }
    }

    pub(super) fn dead_name(alloc: Global, place: &[u8], name: OpaqueNodePtr) -> Self
        ensures { Says (dead_name place.now name) result }
    {
        match KeyPrefix::from_slice(alloc, place) {
            Ok(key_prefix) => MalformedTreeError::DeadName { key_prefix, name },
            Err(_) => MalformedTreeError::OutOfMemory,
        }
    }

    pub(super) fn unreadable_prefix(alloc: Global, place: &[u8], name: OpaqueNodePtr) -> Self
        ensures { Says (unreadable_prefix place.now name) result }
    {
        match KeyPrefix::from_slice(alloc, place) {
            Ok(key_prefix) => MalformedTreeError::UnreadablePrefix { key_prefix, name },
            Err(_) => MalformedTreeError::OutOfMemory,
        }
    }

    pub(super) fn stored_prefix_mismatch(
        alloc: Global,
        place: &[u8],
        stored: &[u8],
        actual: &[u8],
    ) -> Self
        ensures { Says (stored_prefix_mismatch place.now stored.now actual.now) result }
    {
        match (
            KeyPrefix::from_slice(alloc, place),
            stored.to_vec(alloc),
            actual.to_vec(alloc),
        ) {
            (Ok(key_prefix), Ok(stored), Ok(actual)) => MalformedTreeError::StoredPrefixMismatch {
                key_prefix,
                stored,
                actual,
            },
            _ => MalformedTreeError::OutOfMemory,
        }
    }
}
