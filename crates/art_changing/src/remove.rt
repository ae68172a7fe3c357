//! Removing pairs from a tree that is the only one of its store. Nothing here allocates or fails.
ghost use Rattle.std.specs.Prelude.{◌≡◌, ◌+◌, ◌<◌, [], None, Some};
ghost use Rattle.art_model.specs.Pairs.{first_of, last_of, of_key, remove_key, remove_reply, without_first, without_last};
ghost use Rattle.art_model.specs.Parts.{below, without_below};
ghost use Rattle.art_model.specs.Roots.{ForTree};
ghost use Rattle.art_writing.specs.Deleted.{IsDeletePointIn, LeadsTo};
ghost use Rattle.art_changing.specs.PairChanges.{HasTaken, HasTakenBelow};
ghost use Rattle.art_changing.specs.MapPairs.{HoldsPairs, pairs_at};

use art_nodes::node::{AsBytes, OpaqueNodePtr};
use art_nodes::store::NodeStore;
use art_reading::lookup::{KeyBytes, KeyQuery};
use art_writing::delete::{
    DeletePoint, find_maximum_to_delete, find_minimum_to_delete, search_for_delete_point_by,
    search_for_delete_point_by_lengths, search_for_first_delete_point_below,
    search_for_prefix_delete_point,
};

/// Removes the pair of the key that is asked for, and returns it; `None` if it is not stored. It is a single descent.
#[inline(always)]
pub fn take_key<Q: KeyQuery, K: AsBytes + Drop, V: Drop, const P: usize>(
    store: &mut NodeStore<K, V, P>,
    root: &mut Option<OpaqueNodePtr>,
    len: &mut usize,
    query: Q,
) -> Option<(K, V)>
    requires { HoldsPairs (of_key K.bytes) P store.old root.old len.old
        (pairs_at store.old root.old) }
    ensures { HasTaken K.bytes P
        (remove_reply (of_key K.bytes) (Q.key query) (pairs_at store.old root.old))
        (remove_key (of_key K.bytes) (Q.key query) (pairs_at store.old root.old)) result
        store.new root.new len.new }
{
    let Some(name) = *root else {
        return None;
    };
    let Some(point) = search_for_delete_point_by_lengths(store, name, query) else {
        return None;
    };
    Some(take_pair(store, root, len, name, point))
}

/// The same for a key whose bytes need not stand in a slice.
pub fn take_bytes<B: KeyBytes + Drop, K: AsBytes + Drop, V: Drop, const P: usize>(
    store: &mut NodeStore<K, V, P>,
    root: &mut Option<OpaqueNodePtr>,
    len: &mut usize,
    bytes: &mut B,
) -> Option<(K, V)>
    requires { HoldsPairs (of_key K.bytes) P store.old root.old len.old
        (pairs_at store.old root.old) }
    ensures taken { HasTaken K.bytes P
        (remove_reply (of_key K.bytes) (B.key bytes.old) (pairs_at store.old root.old))
        (remove_key (of_key K.bytes) (B.key bytes.old) (pairs_at store.old root.old)) result
        store.new root.new len.new }
    ensures same { B.key bytes.new ≡ B.key bytes.old }
{
    let Some(name) = *root else {
        return None;
    };
    let Some(point) = search_for_delete_point_by(store, name, bytes) else {
        return None;
    };
    Some(take_pair(store, root, len, name, point))
}

/// Removes the first pair whose key starts with a prefix, and returns it; `None` if there is none. It is a single descent.
pub fn take_below<K: AsBytes + Drop, V: Drop, const P: usize>(
    store: &mut NodeStore<K, V, P>,
    root: &mut Option<OpaqueNodePtr>,
    len: &mut usize,
    prefix: &[u8],
) -> Option<(K, V)>
    requires { HoldsPairs (of_key K.bytes) P store.old root.old len.old
        (pairs_at store.old root.old) }
    ensures { HasTaken K.bytes P
        (first_of (below (of_key K.bytes) prefix.now (pairs_at store.old root.old)))
        (without_below (of_key K.bytes) prefix.now 1 (pairs_at store.old root.old)) result
        store.new root.new len.new }
{
    let Some(name) = *root else {
        return None;
    };
    let Some(point) = search_for_first_delete_point_below(store, name, prefix) else {
        return None;
    };
    Some(take_pair(store, root, len, name, point))
}

/// Removes the first pair and returns it; `None` if there is none. It is a single descent.
#[inline(always)]
pub fn take_first<K: AsBytes + Drop, V: Drop, const P: usize>(
    store: &mut NodeStore<K, V, P>,
    root: &mut Option<OpaqueNodePtr>,
    len: &mut usize,
) -> Option<(K, V)>
    requires { HoldsPairs (of_key K.bytes) P store.old root.old len.old
        (pairs_at store.old root.old) }
    ensures { HasTaken K.bytes P (first_of (pairs_at store.old root.old))
        (without_first (pairs_at store.old root.old)) result store.new root.new len.new }
{
    let Some(name) = *root else {
        return None;
    };
    let point = find_minimum_to_delete(store, name);
    Some(take_pair(store, root, len, name, point))
}

/// Removes the last pair and returns it; `None` if there is none. It is a single descent.
#[inline(always)]
pub fn take_last<K: AsBytes + Drop, V: Drop, const P: usize>(
    store: &mut NodeStore<K, V, P>,
    root: &mut Option<OpaqueNodePtr>,
    len: &mut usize,
) -> Option<(K, V)>
    requires { HoldsPairs (of_key K.bytes) P store.old root.old len.old
        (pairs_at store.old root.old) }
    ensures { HasTaken K.bytes P (last_of (pairs_at store.old root.old))
        (without_last (pairs_at store.old root.old)) result store.new root.new len.new }
{
    let Some(name) = *root else {
        return None;
    };
    let point = find_maximum_to_delete(store, name);
    Some(take_pair(store, root, len, name, point))
}

/// Removes all pairs. It frees slab by slab, without a descent.
pub fn take_all<K: AsBytes + Drop, V: Drop, const P: usize>(
    store: &mut NodeStore<K, V, P>,
    root: &mut Option<OpaqueNodePtr>,
    len: &mut usize,
)
    requires { HoldsPairs (of_key K.bytes) P store.old root.old len.old
        (pairs_at store.old root.old) }
    ensures { HoldsPairs (of_key K.bytes) P store.new root.new len.new [] }
{
    store.clear();
    *root = None;
    *len = 0;
}

/// Removes the pair that a point leads to, and returns it. There is no descent.
#[inline(always)]
pub fn take_pair<K: AsBytes + Drop, V: Drop, const P: usize>(
    store: &mut NodeStore<K, V, P>,
    root: &mut Option<OpaqueNodePtr>,
    len: &mut usize,
    name: OpaqueNodePtr,
    point: DeletePoint,
) -> (K, V)
    requires root { root.old ≡ Some name }
    requires point { IsDeletePointIn (of_key K.bytes) P store.old name point }
    requires holds { HoldsPairs (of_key K.bytes) P store.old (Some name) len.old
        (pairs_at store.old (Some name)) }
    ensures { ForTree (of_key K.bytes) P store.old name (λ pairs layout.
        (x : K × V) → LeadsTo layout x point →
        HasTaken K.bytes P (Some x) (remove_key (of_key K.bytes) (K.bytes x.0) pairs) (Some result)
        store.new root.new len.new) }
{
    let done = point.apply(store, name).unwrap();
    *root = done.new_root;
    *len -= 1;
    (done.deleted_leaf.key, done.deleted_leaf.value)
}

/// Removes all pairs whose keys start with a prefix, and returns how many. It frees all nodes below the one where its
/// descent ends.
pub fn take_all_below<B: KeyBytes + Drop, K: AsBytes + Drop, V: Drop, const P: usize>(
    store: &mut NodeStore<K, V, P>,
    root: &mut Option<OpaqueNodePtr>,
    len: &mut usize,
    prefix: B,
) -> usize
    requires { HoldsPairs (of_key K.bytes) P store.old root.old len.old
        (pairs_at store.old root.old) }
    ensures { HasTakenBelow K.bytes P (pairs_at store.old root.old) (B.key prefix) result
        store.new root.new len.new }
{
    let Some(name) = *root else {
        return 0;
    };
    let Some(point) = search_for_prefix_delete_point(store, name, prefix) else {
        return 0;
    };
    let done = point.apply(store, name);
    *root = done.new_root;
    *len -= done.leafs_removed;
    done.leafs_removed
}
