//! Deletions of the tests.
ghost use Rattle.std.specs.Prelude.{IfSome};
ghost use Rattle.art_model.specs.Pairs.{of_key};
ghost use Rattle.art_model.specs.Roots.{IsCanonicalRoot};
ghost use Rattle.art_writing.specs.Deleted.{IsDeletePointIn};

use art_nodes::node::{AsBytes, OpaqueNodePtr};
use art_nodes::store::NodeStore;
use art_test_support::nodes::{count_touched, nodes_seen};
use art_test_support::trees::{Key, planted_all};
use art_writing::delete::{DeletePoint, search_for_delete_point};

/// The point of a key, if there is one.
pub fn point_of<K: AsBytes + Drop, const P: usize>(
    store: &NodeStore<K, u32, P>,
    root: OpaqueNodePtr,
    key_bytes: &[u8],
) -> Option<DeletePoint>
    requires { IsCanonicalRoot (of_key K.bytes) P store.now root }
    ensures { IfSome result (λ point. IsDeletePointIn (of_key K.bytes) P store.now root point) }
{
    search_for_delete_point(store, root, key_bytes)
}

/// Removes a key, and returns the root that is left. The outer `None` is for an absent key or a failure.
pub fn remove_stored<K: AsBytes + Drop, const P: usize>(
    store: &mut NodeStore<K, u32, P>,
    root: OpaqueNodePtr,
    key_bytes: &[u8],
) -> Option<Option<OpaqueNodePtr>>
    requires { IsCanonicalRoot (of_key K.bytes) P store.old root }
    ensures { IfSome result (λ left.
        IfSome left (λ root. IsCanonicalRoot (of_key K.bytes) P store.new root)) }
{
    match point_of(store, root, key_bytes)?.apply(store, root) {
        Ok(done) => Some(done.new_root),
        Err(_) => None,
    }
}

/// Deletes a key. Returns the root that is left and the deleted value, or `None` if the key is absent or the deletion
/// fails.
pub fn delete<const P: usize>(
    store: &mut NodeStore<Key, u32, P>,
    root: OpaqueNodePtr,
    key_bytes: &[u8],
) -> Option<(Option<OpaqueNodePtr>, u32)>
    requires { IsCanonicalRoot (of_key (λ key. key.items)) P store.old root }
{
    let done = point_of(store, root, key_bytes)?.apply(store, root).ok()?;
    Some((done.new_root, done.deleted_leaf.value))
}

/// The root before a deletion and the one that is left, and how many names were placed, freed and changed.
#[derive(Clone, Copy)]
pub struct Deletion {
    pub root: OpaqueNodePtr,
    pub new_root: Option<OpaqueNodePtr>,
    pub touched: (usize, usize, usize),
}

/// Plants a tree of some keys, and deletes one of them.
pub fn deletion_from<const P: usize>(
    store: &mut NodeStore<Key, u32, P>,
    slices: &[&[u8]],
    key_bytes: &[u8],
) -> Option<Deletion> {
    let root = planted_all(store, slices).ok()??;
    let before = nodes_seen(store).ok()?;
    let new_root = remove_stored(store, root, key_bytes)?;
    Some(Deletion {
        root,
        new_root,
        touched: count_touched(store, &before),
    })
}
