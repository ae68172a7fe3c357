//! Insertion: the point at which a key is inserted into a tree.
ghost use Rattle.std.specs.Prelude.{◌≡◌, ◌↔◌, false, IfSome, IsSome, Some};
ghost use Rattle.art_model.specs.Pairs.{is_conflict, of_key};
ghost use Rattle.art_model.specs.Roots.{ForTree, IsCanonicalRoot};
ghost use Rattle.art_reading.specs.Readings.{CountsToEnd};
ghost use Rattle.art_writing.specs.Inserted.{HasInsertPoint, IsPointIn};
ghost use Rattle.art_writing.specs.Overwritten.{HasPrefixPoint};
ghost use Rattle.art_writing.specs.Points.{AnswersTo, IsRefusedFor};
ghost use Rattle.std.specs.Box.{boxed_slice_items};
ghost use Rattle.art_writing.specs.Conflicts.{conflict_text, bytes_text};

use art_nodes::node::{AsBytes, InnerPtr, LeafNode, LeafPtr, OpaqueNodePtr};
use art_nodes::store::NodeStore;
use art_reading::end_node::{walk_to_end_node, walk_to_end_node_visiting};
use art_reading::lookup::KeyBytes;
use art_reading::lookup::descent::Visits;
use art_reading::path::TreePath;
use std::alloc::{AllocError, AllocFailed, Global};
use std::boxed::BoxedSlice;
use std::fmt;
use thiserror::Error;

mod apply;
mod beginning;
mod branch;
mod existing;
mod overwrite;

pub use art_reading::end_node::InsertKind;
pub use beginning::plant;

/// A key that can't be inserted: an unequal stored key starts with it, or it starts with a stored key.
#[derive(PartialEq, Eq, Debug, Drop, Error)]
pub struct InsertPrefixError {
    /// The bytes of the key.
    pub byte_repr: BoxedSlice<u8>,
}

impl fmt::Display for InsertPrefixError {
    ghost output = { λ error. Some (conflict_text (boxed_slice_items error.byte_repr)) };

    fn fmt<W: fmt::Write>(&self, f: &mut fmt::Formatter<W>) -> fmt::Result {
        let key = ListedBytes(&self.byte_repr);
        write!(
            f,
            "Attempted to insert a key [[{key}]] which is either a prefix of an existing key or an existing key is a prefix of the new key."
        )
    }
}

/// Bytes, displayed in decimal and separated by commas.
#[derive(Clone, Copy)]
struct ListedBytes<'a>(&'a [u8]);

impl fmt::Display for ListedBytes<'_> {
    ghost output = { λ bytes. Some (bytes_text bytes.0.now) };

    fn fmt<W: fmt::Write>(&self, f: &mut fmt::Formatter<W>) -> fmt::Result {
        let Some((first, others)) = self.0.split_first() else {
            return Ok(());
        };
        write!(f, "{first}")?;
        for byte in others {
            write!(f, ", {byte}")?;
        }
        Ok(())
    }
}

impl Clone for InsertPrefixError {
    ghost is_clone = { λ error copy.
        boxed_slice_items copy.byte_repr ≡ boxed_slice_items error.byte_repr };

    fn clone(&self) -> Result<Self, AllocError> {
        let byte_repr = self.byte_repr.clone()?;
        Ok(InsertPrefixError { byte_repr })
    }
}

/// Why there is no point for a key.
#[derive(PartialEq, Eq, Debug, Drop, Error)]
pub enum InsertSearchError {
    /// An unequal stored key is a prefix of the key, or starts with it.
    #[error("{0}")]
    Prefix(InsertPrefixError),
    /// The same, and the allocation for the bytes of the key failed.
    #[error("{0}")]
    Memory(AllocError),
}

/// Where a key is inserted into a tree.
///
/// The place of a node is the bytes that lead to it from the root, prefixes and children's bytes. A
/// key's end node is the node with the longest place that is a prefix of the key.
#[derive(Clone, Copy, PartialEq, Eq, Debug)]
pub struct InsertPoint {
    /// The nodes right above the key's end node.
    pub path: TreePath,
    /// The end node, and what is done there.
    pub insert_kind: InsertKind,
    /// The length of the end node's place; for `IntoExisting` with the node's prefix added.
    pub key_bytes_used: usize,
    /// The tree's root.
    pub root: OpaqueNodePtr,
}

/// Where the leaf of a key replaces all pairs with related keys (a key is related to its prefixes and to the keys that
/// start with it), at least one of which is unequal: the key's end node is replaced.
#[derive(Clone, Copy, PartialEq, Eq, Debug)]
pub struct OverwritePoint {
    /// The nodes right above the key's end node.
    pub path: TreePath,
    /// The end node: a leaf, or an inner node in whose prefix the key ends.
    pub overwrite_point: OpaqueNodePtr,
    /// The length of the end node's place; where the key ends with the node's prefix, one less than the
    /// key's length, if that is not 0.
    pub key_bytes_used: usize,
    /// The tree's root.
    pub root: OpaqueNodePtr,
}

/// Where a key is inserted and replaces all related keys.
#[derive(Clone, Copy, PartialEq, Eq, Debug)]
pub enum PrefixInsertPoint {
    /// No stored key is related to the key, or only an equal one.
    InsertPoint(InsertPoint),
    /// An unequal stored key is related to the key.
    OverwritePoint(OverwritePoint),
}

/// The result of a prefix insertion.
#[derive(Debug, Drop)]
pub struct PrefixInsertResult<K, V> {
    /// The leaf of the key. `existing_leaf` has the replaced pair, if there was only one; if an equal key was stored,
    /// the key that was passed and the old value.
    pub insert_result: InsertResult<K, V>,
    /// How many leaves were freed: none where a leaf's pair was replaced.
    pub leafs_removed: usize,
}

/// The result of an insertion.
#[derive(Debug, Drop)]
pub struct InsertResult<K, V> {
    /// The leaf of the key.
    pub leaf_node_ptr: LeafPtr,
    /// If an equal key was stored, the key that was passed and the old value, as a leaf with no siblings. After a
    /// prefix insertion, the replaced pair, if there was only one.
    pub existing_leaf: Option<LeafNode<K, V>>,
    /// The root of the tree.
    pub new_root: OpaqueNodePtr,
    /// What became of the leaf's parent.
    pub parent_node_change: InsertParentNodeChange,
}

/// What an insertion made of the parent of its leaf.
#[derive(Clone, Copy, PartialEq, Eq, Debug)]
pub enum InsertParentNodeChange {
    /// The parent has the leaf as a further child. It is a new node, or the old one if that had room.
    NewParent {
        new_parent_node: InnerPtr,
        /// The byte under which the parent has the leaf.
        leaf_node_key_byte: u8,
    },
    /// A leaf got another value or another pair, or replaced others.
    NoChange,
}

/// A pair that was not inserted, since an allocation failed.
#[derive(PartialEq, Eq, Debug, Drop, Error)]
#[error("memory allocation failed")]
pub struct PairRefused<K, V> {
    pub key: K,
    pub value: V,
}

/// Drops the pair, so that `?` works in a function that fails only if an allocation fails.
impl<K: Drop, V: Drop> From<PairRefused<K, V>> for AllocError {
    fn from(refused: PairRefused<K, V>) -> Self {
        AllocError
    }
}

/// Drops the key, and returns the value.
impl<K: Drop, V> From<PairRefused<K, V>> for AllocFailed<V> {
    ghost from_gives = { λ refused failed. failed.value ≡ refused.value };

    fn from(refused: PairRefused<K, V>) -> Self {
        AllocFailed {
            value: refused.value,
        }
    }
}

/// Returns the point of a key in the tree of a canonical root. Fails if an unequal stored key conflicts with it: one of
/// the two is a prefix of the other. The error has the key's bytes, or reports that the allocation for them failed.
///
/// Nothing else allocates. A prefix that its node does not store whole is read from a leaf, each such prefix from the
/// same one.
#[inline(always)]
pub fn search_for_insert_point<K: AsBytes + Drop, V: Drop, const P: usize>(
    store: &NodeStore<K, V, P>,
    root: OpaqueNodePtr,
    key_bytes: &[u8],
) -> Result<InsertPoint, InsertSearchError>
    requires { IsCanonicalRoot (of_key K.bytes) P store.now root }
    ensures { HasInsertPoint (of_key K.bytes) P store.now root key_bytes.now result }
{
    search_for_insert_point_visiting(store, root, key_bytes, &mut Visits::new())
}

/// Returns what `search_for_insert_point` does, and counts each reading of a node: at least the nodes whose place is a
/// prefix of the key, only these if each prefix is stored whole, and at most three for each level of the tree, the
/// leaves being a level. A full counter stays full.
#[inline(always)]
pub fn search_for_insert_point_visiting<K: AsBytes + Drop, V: Drop, const P: usize>(
    store: &NodeStore<K, V, P>,
    root: OpaqueNodePtr,
    key_bytes: &[u8],
    visits: &mut Visits,
) -> Result<InsertPoint, InsertSearchError>
    requires { IsCanonicalRoot (of_key K.bytes) P store.now root }
    ensures point { HasInsertPoint (of_key K.bytes) P store.now root key_bytes.now result }
    ensures visits { CountsToEnd (of_key K.bytes) P store.now root key_bytes.now
        visits.old visits.new }
{
    match search_for_prefix_insert_point_visiting(store, root, key_bytes, visits) {
        PrefixInsertPoint::InsertPoint(point) => Ok(point),
        PrefixInsertPoint::OverwritePoint(_) => Err(refusal(store.alloc(), key_bytes)),
    }
}

/// Returns the point of a key that replaces all related keys, in the tree of a canonical root.
///
/// It descends as `search_for_insert_point` does, at the same cost, and allocates nothing.
#[inline(always)]
pub fn search_for_prefix_insert_point<K: AsBytes + Drop, V: Drop, const P: usize>(
    store: &NodeStore<K, V, P>,
    root: OpaqueNodePtr,
    key_bytes: &[u8],
) -> PrefixInsertPoint
    requires { IsCanonicalRoot (of_key K.bytes) P store.now root }
    ensures { HasPrefixPoint (of_key K.bytes) P store.now root key_bytes.now result }
{
    search_for_prefix_insert_point_visiting(store, root, key_bytes, &mut Visits::new())
}

/// Returns what `search_for_prefix_insert_point` does, and counts as `search_for_insert_point_visiting` does.
#[inline(always)]
pub fn search_for_prefix_insert_point_visiting<K: AsBytes + Drop, V: Drop, const P: usize>(
    store: &NodeStore<K, V, P>,
    root: OpaqueNodePtr,
    key_bytes: &[u8],
    visits: &mut Visits,
) -> PrefixInsertPoint
    requires { IsCanonicalRoot (of_key K.bytes) P store.now root }
    ensures point { HasPrefixPoint (of_key K.bytes) P store.now root key_bytes.now result }
    ensures visits { CountsToEnd (of_key K.bytes) P store.now root key_bytes.now
        visits.old visits.new }
{
    let mut key = key_bytes;
    let end = walk_to_end_node_visiting(store, root, &mut key, visits);
    match end.insert_kind {
        Some(insert_kind) => PrefixInsertPoint::InsertPoint(InsertPoint {
            path: end.path,
            insert_kind,
            key_bytes_used: end.key_bytes_used,
            root,
        }),
        None => PrefixInsertPoint::OverwritePoint(OverwritePoint {
            path: end.path,
            overwrite_point: end.name,
            key_bytes_used: end.key_bytes_used,
            root,
        }),
    }
}

/// Returns the point of a key whose bytes need not stand in a slice, in the tree of a canonical root, or `None` if an
/// unequal stored key conflicts with it.
///
/// It descends as `search_for_insert_point` does, at the same cost, and allocates nothing.
#[inline(always)]
pub fn search_for_insert_point_by<B: KeyBytes + Drop, K: AsBytes + Drop, V: Drop, const P: usize>(
    store: &NodeStore<K, V, P>,
    root: OpaqueNodePtr,
    key: &mut B,
) -> Option<InsertPoint>
    requires { IsCanonicalRoot (of_key K.bytes) P store.now root }
    ensures accepted { ForTree (of_key K.bytes) P store.now root (λ pairs layout.
        IsSome result ↔ (is_conflict (of_key K.bytes) (B.key key.old) pairs ≡ false)) }
    ensures point { ForTree (of_key K.bytes) P store.now root (λ pairs layout.
        IfSome result (λ point. AnswersTo (of_key K.bytes) P layout (B.key key.old) point)) }
    ensures root { IfSome result (λ point. point.root ≡ root) }
    ensures applies { IfSome result
        (IsPointIn (of_key K.bytes) P store.now (B.key key.old)) }
{
    let end = walk_to_end_node(store, root, key);
    let insert_kind = end.insert_kind?;
    Some(InsertPoint {
        path: end.path,
        insert_kind,
        key_bytes_used: end.key_bytes_used,
        root,
    })
}

// The error of a conflicting key.
fn refusal(alloc: Global, key_bytes: &[u8]) -> InsertSearchError
    ensures { IsRefusedFor key_bytes.now result }
{
    match BoxedSlice::from_slice(alloc, key_bytes) {
        Ok(byte_repr) => InsertSearchError::Prefix(InsertPrefixError { byte_repr }),
        Err(error) => InsertSearchError::Memory(error),
    }
}
