//! Deletion: the point at which a leaf is removed from a tree.
ghost use Rattle.std.specs.Prelude.{◌+◌, ◌<◌, ◌^◌, length, IsSome, Some};
ghost use Rattle.art_model.specs.Pairs.{first_of, last_of, of_key};
ghost use Rattle.art_model.specs.Roots.{IsCanonicalRoot};
ghost use Rattle.art_reading.specs.Descents.{CountsVisits, CountsVisitsFrom, of_two};
ghost use Rattle.art_writing.specs.Deleted.{HasDeletePoint, HasKeyPoint};

use art_nodes::node::{AsBytes, LeafNode, LeafPtr, OpaqueNodePtr};
use art_nodes::store::NodeStore;
use art_reading::lookup::descent::{End, walk_to_end, walk_to_key};
use art_reading::lookup::matching::{Asked, PrefixMatchBehavior};
use art_reading::lookup::{KeyQuery, Visits};
use art_reading::path::TreePath;

mod apply;
mod below;
mod compress;
mod subtree;

pub use below::{
    search_for_delete_point_by, search_for_first_delete_point_below, search_for_prefix_delete_point,
};
pub use subtree::{SubtreeDeletePoint, SubtreeDeleteResult};

/// Where a leaf is removed from a tree.
#[derive(Clone, Copy, PartialEq, Eq, Debug)]
pub struct DeletePoint {
    /// The nodes right above the leaf.
    pub path: TreePath,
    pub leaf_node_ptr: LeafPtr,
}

/// The result of a deletion.
#[derive(Debug, Drop)]
pub struct DeleteResult<K, V> {
    /// The root of the tree, if a leaf is left.
    pub new_root: Option<OpaqueNodePtr>,
    /// The removed leaf, with no siblings.
    pub deleted_leaf: LeafNode<K, V>,
}

/// A failed deletion. No call returns one: a deletion allocates nothing.
#[derive(Clone, Copy, PartialEq, Eq, Debug)]
pub struct DeleteRefused {
    pub point: DeletePoint,
}

/// Returns the point of a key, or `None` where no stored key is equal to it.
///
/// It descends as `search_unchecked` does, at the same cost.
pub fn search_for_delete_point<K: AsBytes + Drop, V: Drop, const P: usize>(
    store: &NodeStore<K, V, P>,
    root: OpaqueNodePtr,
    key_bytes: &[u8],
) -> Option<DeletePoint>
    requires { IsCanonicalRoot (of_key K.bytes) P store.now root }
    ensures { HasKeyPoint (of_key K.bytes) P store.now root key_bytes.now result }
{
    search_for_delete_point_visiting(store, root, key_bytes, &mut Visits::new())
}

/// Returns what `search_for_delete_point` does, and adds one to the counter for each node that it reads:
/// at most one more than the key has bytes.
pub fn search_for_delete_point_visiting<K: AsBytes + Drop, V: Drop, const P: usize>(
    store: &NodeStore<K, V, P>,
    root: OpaqueNodePtr,
    key_bytes: &[u8],
    visits: &mut Visits,
) -> Option<DeletePoint>
    requires root { IsCanonicalRoot (of_key K.bytes) P store.now root }
    requires room { visits.old + length key_bytes.now + 1 < 2 ^ 64 }
    ensures point { HasKeyPoint (of_key K.bytes) P store.now root key_bytes.now result }
    ensures visits { CountsVisits (of_key K.bytes) P store.now root key_bytes.now
        visits.old visits.new (IsSome result) }
{
    search_from(
        store,
        root,
        key_bytes,
        PrefixMatchBehavior::Pessimistic,
        visits,
    )
}

/// Returns the point of a key, or `None` where no stored key is equal to it.
///
/// On its descent it skips prefixes by their lengths, without a comparison; at the leaf it compares the whole key. So
/// it takes fewer steps than `search_for_delete_point` if the key is stored, and may read more nodes if it isn't: at
/// most one more than the key has bytes.
#[inline(always)]
pub fn search_for_delete_point_by_lengths<Q: KeyQuery, K: AsBytes + Drop, V: Drop, const P: usize>(
    store: &NodeStore<K, V, P>,
    root: OpaqueNodePtr,
    query: Q,
) -> Option<DeletePoint>
    requires { IsCanonicalRoot (of_key K.bytes) P store.now root }
    ensures { HasKeyPoint (of_key K.bytes) P store.now root (Q.key query) result }
{
    query.fits();
    let start = PrefixMatchBehavior::Optimistic;
    search_from(store, root, query, start, &mut Visits::new())
}

// Returns the point of a key, by a descent that begins with this behavior, and counts each node that it reads.
#[inline(always)]
fn search_from<Q: KeyQuery, K: AsBytes + Drop, V: Drop, const P: usize>(
    store: &NodeStore<K, V, P>,
    root: OpaqueNodePtr,
    query: Q,
    start: PrefixMatchBehavior,
    visits: &mut Visits,
) -> Option<DeletePoint>
    requires root { IsCanonicalRoot (of_key K.bytes) P store.now root }
    requires room { visits.old + length (Q.key query) + 1 < 2 ^ 64 }
    ensures point { HasKeyPoint (of_key K.bytes) P store.now root (Q.key query) result }
    ensures visits { CountsVisitsFrom start (of_key K.bytes) P store.now root (Q.key query)
        visits.old visits.new (IsSome result) }
{
    let last = walk_to_key(store, root, query, Asked::Same, start, visits)?;
    Some(DeletePoint {
        path: last.path,
        leaf_node_ptr: last.name,
    })
}

/// Returns the point of the first leaf. It reads one inner node for each level.
pub fn find_minimum_to_delete<K: AsBytes + Drop, V: Drop, const P: usize>(
    store: &NodeStore<K, V, P>,
    root: OpaqueNodePtr,
) -> DeletePoint
    requires { IsCanonicalRoot (of_key K.bytes) P store.now root }
    ensures { HasDeletePoint (of_key K.bytes) P store.now root first_of (Some result) }
{
    find_end_to_delete(store, root, End::First)
}

/// Returns the point of the last leaf. It reads one inner node for each level.
pub fn find_maximum_to_delete<K: AsBytes + Drop, V: Drop, const P: usize>(
    store: &NodeStore<K, V, P>,
    root: OpaqueNodePtr,
) -> DeletePoint
    requires { IsCanonicalRoot (of_key K.bytes) P store.now root }
    ensures { HasDeletePoint (of_key K.bytes) P store.now root last_of (Some result) }
{
    find_end_to_delete(store, root, End::Last)
}

// The point of the leaf at an end.
#[inline(always)]
fn find_end_to_delete<K: AsBytes + Drop, V: Drop, const P: usize>(
    store: &NodeStore<K, V, P>,
    root: OpaqueNodePtr,
    end: End,
) -> DeletePoint
    requires { IsCanonicalRoot (of_key K.bytes) P store.now root }
    ensures { HasDeletePoint (of_key K.bytes) P store.now root
        (λ pairs. of_two end (first_of pairs, last_of pairs)) (Some result) }
{
    let (path, leaf_node_ptr) = walk_to_end(store, root, end);
    DeletePoint {
        path,
        leaf_node_ptr,
    }
}
