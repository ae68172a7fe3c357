//! The faults of a tree.

ghost use Rattle.std.specs.Prelude.{◌≡◌};
ghost use Rattle.art_checking.specs.Checks.{fault_of};
ghost use Rattle.art_checking.specs.declared.well_formed.fault.MalformedTreeError.TheVariants.{OutOfMemory};

use super::KeyPrefix;
use art_nodes::node::{LeafPtr, NodeType, OpaqueNodePtr, OptionalLeafPtr};
use std::alloc::{AllocError, AllocFailed};
use std::cmp::Ordering;
use std::fmt;
use thiserror::Error;

/// Why a store and a root are not a well-formed tree.
#[derive(PartialEq, Eq, Debug, Drop, Error)]
pub enum MalformedTreeError {
    /// A node was met twice, at different places: there is a loop, or the node is shared.
    #[error("Found a loop in the tree containing the node [{node_ptr}]. First observed that node at [{first_observed:?}], then later observed the same node at [{later_observed:?}]")]
    LoopFound {
        node_ptr: OpaqueNodePtr,
        first_observed: KeyPrefix,
        later_observed: KeyPrefix,
    },
    /// An inner node has fewer children than its kind allows. It never has more.
    #[error("Found an inner node of type [{inner_node_type}] at location [{key_prefix:?}] that had the wrong number of children! Expected children in range [{least}..={most}], but found [{num_children}] children", least = range_of(*.inner_node_type).0, most = range_of(*.inner_node_type).1)]
    WrongChildrenCount {
        key_prefix: KeyPrefix,
        inner_node_type: NodeType,
        num_children: usize,
    },
    /// A leaf's key does not start with the bytes that lead to the leaf.
    #[error("Found a leaf that had a mismatched key from the expected prefix! Expected the leaf key to start with [{expected_prefix:?}], but the leaf key was [{entire_key:?}]")]
    PrefixMismatch {
        expected_prefix: KeyPrefix,
        entire_key: Vec<u8>,
    },
    /// There is no root, but the length is not 0.
    #[error("The length of the tree is not 0, even though the root is None")]
    EmptyTreeWithLen,
    /// A leaf names a sibling whose key is not before its own, or not after it.
    #[error("Found a leaf with key [{leaf_key:?}] and sibling with key [{sibling_key:?}] that was expected to have [{expected_order:?}] but had [{actual_order:?}]")]
    LeafSiblingWrongOrder {
        sibling_key: Vec<u8>,
        leaf_key: Vec<u8>,
        /// `Less` for the previous leaf, `Greater` for the next one.
        expected_order: Ordering,
        /// The order of the sibling's key to the leaf's. It may be `Equal`.
        actual_order: Ordering,
    },
    /// A leaf's links are not its neighbours in the order of the leaves.
    #[error("Found a leaf with key [{leaf_key:?}] where {}.", WrongLinks {previous: (*.expected_previous, *.actual_previous), next: (*.expected_next, *.actual_next)})]
    WrongSiblingLinks {
        leaf_key: Vec<u8>,
        expected_previous: OptionalLeafPtr,
        expected_next: OptionalLeafPtr,
        actual_previous: OptionalLeafPtr,
        actual_next: OptionalLeafPtr,
    },
    /// There is no node of its kind under a name.
    #[error("Found a name [{name}] at location [{key_prefix:?}] that leads to no node of its kind")]
    DeadName {
        /// The bytes that lead to the name, or to the leaf that names it as a sibling.
        key_prefix: KeyPrefix,
        name: OpaqueNodePtr,
    },
    /// A prefix is longer than its stored bytes, and there is no leaf to read it from, or the leaf's key is too short.
    #[error("Found an inner node [{name}] at location [{key_prefix:?}] whose prefix cannot be read from a leaf")]
    UnreadablePrefix {
        key_prefix: KeyPrefix,
        name: OpaqueNodePtr,
    },
    /// A prefix is longer than its stored bytes, and these are not those of the leaf that it is read from.
    #[error("Found an inner node at location [{key_prefix:?}] that stores the prefix bytes [{stored:?}], but its least leaf has [{actual:?}]")]
    StoredPrefixMismatch {
        key_prefix: KeyPrefix,
        stored: Vec<u8>,
        actual: Vec<u8>,
    },
    /// An allocation of the check failed. It reports nothing about the tree.
    #[error("Memory ran out while the tree was checked")]
    OutOfMemory,
}

impl Clone for MalformedTreeError {
    ghost is_clone = { λ error copy. fault_of copy ≡ fault_of error };

    fn clone(&self) -> Result<Self, AllocError> {
        Ok(match self {
            MalformedTreeError::LoopFound {
                node_ptr,
                first_observed,
                later_observed,
            } => MalformedTreeError::LoopFound {
                node_ptr: *node_ptr,
                first_observed: first_observed.clone()?,
                later_observed: later_observed.clone()?,
            },
            MalformedTreeError::WrongChildrenCount {
                key_prefix,
                inner_node_type,
                num_children,
            } => MalformedTreeError::WrongChildrenCount {
                key_prefix: key_prefix.clone()?,
                inner_node_type: *inner_node_type,
                num_children: *num_children,
            },
            MalformedTreeError::PrefixMismatch {
                expected_prefix,
                entire_key,
            } => MalformedTreeError::PrefixMismatch {
                expected_prefix: expected_prefix.clone()?,
                entire_key: entire_key.clone()?,
            },
            MalformedTreeError::EmptyTreeWithLen => MalformedTreeError::EmptyTreeWithLen,
            MalformedTreeError::LeafSiblingWrongOrder {
                sibling_key,
                leaf_key,
                expected_order,
                actual_order,
            } => MalformedTreeError::LeafSiblingWrongOrder {
                sibling_key: sibling_key.clone()?,
                leaf_key: leaf_key.clone()?,
                expected_order: *expected_order,
                actual_order: *actual_order,
            },
            MalformedTreeError::WrongSiblingLinks {
                leaf_key,
                expected_previous,
                expected_next,
                actual_previous,
                actual_next,
            } => MalformedTreeError::WrongSiblingLinks {
                leaf_key: leaf_key.clone()?,
                expected_previous: *expected_previous,
                expected_next: *expected_next,
                actual_previous: *actual_previous,
                actual_next: *actual_next,
            },
            MalformedTreeError::DeadName { key_prefix, name } => MalformedTreeError::DeadName {
                key_prefix: key_prefix.clone()?,
                name: *name,
            },
            MalformedTreeError::UnreadablePrefix { key_prefix, name } =>
                MalformedTreeError::UnreadablePrefix {
                    key_prefix: key_prefix.clone()?,
                    name: *name,
                },
            MalformedTreeError::StoredPrefixMismatch {
                key_prefix,
                stored,
                actual,
            } => MalformedTreeError::StoredPrefixMismatch {
                key_prefix: key_prefix.clone()?,
                stored: stored.clone()?,
                actual: actual.clone()?,
            },
            MalformedTreeError::OutOfMemory => MalformedTreeError::OutOfMemory,
        })
    }
}

// A link as it is displayed.
#[derive(Drop)]
struct Link(OptionalLeafPtr);

impl fmt::Display for Link {
    fn fmt<W: fmt::Write>(&self, f: &mut fmt::Formatter<W>) -> fmt::Result {
        match self.0 {
            None => f.write_str("None"),
            Some(leaf) => write!(f, "{leaf}"),
        }
    }
}

// The faulty links of a leaf as they are displayed: of each what was expected, and what was found.
#[derive(Drop)]
struct WrongLinks {
    previous: (OptionalLeafPtr, OptionalLeafPtr),
    next: (OptionalLeafPtr, OptionalLeafPtr),
}

impl fmt::Display for WrongLinks {
    fn fmt<W: fmt::Write>(&self, f: &mut fmt::Formatter<W>) -> fmt::Result {
        let previous = WrongLink("previous", self.previous);
        let next = WrongLink("next", self.next);
        if self.previous.0 == self.previous.1 {
            write!(f, "{next}")
        } else if self.next.0 == self.next.1 {
            write!(f, "{previous}")
        } else {
            write!(f, "{previous} and {next}")
        }
    }
}

// The same for one link, with the word for it.
#[derive(Drop)]
struct WrongLink(&'static str, (OptionalLeafPtr, OptionalLeafPtr));

impl fmt::Display for WrongLink {
    fn fmt<W: fmt::Write>(&self, f: &mut fmt::Formatter<W>) -> fmt::Result {
        let (expected, found) = self.1;
        write!(
            f,
            "the {} pointer expected to be [{}] but was actually [{}]",
            self.0,
            Link(expected),
            Link(found)
        )
    }
}

impl From<AllocError> for MalformedTreeError {
    ghost from_gives = { λ _ error. error ≡ OutOfMemory };

    fn from(_error: AllocError) -> Self {
        MalformedTreeError::OutOfMemory
    }
}

impl<T: Drop> From<AllocFailed<T>> for MalformedTreeError {
    ghost from_gives = { λ _ error. error ≡ OutOfMemory };

    fn from(_error: AllocFailed<T>) -> Self {
        MalformedTreeError::OutOfMemory
    }
}

// The least and the most children of a kind; none of a leaf.
fn range_of(kind: NodeType) -> (usize, usize) {
    match kind {
        NodeType::Leaf => (0, 0),
        kind => {
            let range = kind.capacity_range();
            (*range.start(), *range.end())
        }
    }
}
