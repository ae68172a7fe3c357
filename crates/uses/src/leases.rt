//! Leases by their ids and by the times at which they end: two trees in one store.
ghost use Rattle.std.specs.Prelude.{◌≡◌, ◌∷◌, [], List, Some, None, IfErr, IfNone, IfOk, IfSome};
ghost use Rattle.std.specs.Option.{option_map};
ghost use Rattle.art_model.specs.Apart.{HasBoth, KeepsApart};
ghost use Rattle.art_model.specs.Canonical.{IsCanonical};
ghost use Rattle.art_model.specs.Pairs.{first_of, of_key, put, remove_key, without_first};
ghost use Rattle.art_model.specs.Roots.{IsCanonicalRoot};
ghost use Rattle.uses.specs.Leases.{AreLeases, ends_after, first_due, id_of, ids_after, is_due};

use art_nodes::node::{AsBytes, OpaqueNodePtr};
use art_nodes::store::NodeStore;
use art_operations::delete::find_minimum_to_delete;
use art_operations::insert::plant;

/// The roots of two trees in one store; `None` for a tree without a pair.
#[derive(Clone, Copy, PartialEq, Eq, Debug)]
pub struct Roots {
    /// The root of the leases by their ids.
    pub by_id: Option<OpaqueNodePtr>,
    /// The root of the same leases by the times at which they end, eight bytes each, and then by their ids.
    pub by_end: Option<OpaqueNodePtr>,
}

/// Inserts a pair into the tree with this root, or into a new tree if there is no root, and returns the root. Returns
/// `None` as `put` does.
pub fn put_in<K: AsBytes + Drop, V: Drop, const P: usize>(
    store: &mut NodeStore<K, V, P>,
    root: Option<OpaqueNodePtr>,
    key: K,
    value: V,
) -> Option<OpaqueNodePtr>
    requires { IfSome root (IsCanonicalRoot (of_key K.bytes) P store.old) }
    ensures pairs { (pairs : List (K × V)) → IsCanonical (of_key K.bytes) P store.old root pairs →
        IfSome result (λ new. IsCanonical (of_key K.bytes) P store.new (Some new)
        (put (of_key K.bytes) (key, value) pairs)) }
    ensures root { IfSome result (IsCanonicalRoot (of_key K.bytes) P store.new) }
    ensures apart { IfSome result (λ new.
        KeepsApart (of_key K.bytes) P store.old store.new root (Some new)) }
    ensures leaves { IfNone result (store.new.leaves ≡ store.old.leaves) }
    ensures inners { IfNone result (store.new.inners ≡ store.old.inners) }
{
    match root {
        Some(root) => crate::put(store, root, key, value),
        None => begin_tree(store, key, value),
    }
}

// The same if there is no tree.
fn begin_tree<K: AsBytes + Drop, V: Drop, const P: usize>(
    store: &mut NodeStore<K, V, P>,
    key: K,
    value: V,
) -> Option<OpaqueNodePtr>
    ensures pairs { IfSome result (λ new. IsCanonical (of_key K.bytes) P store.new (Some new)
        ((key, value) ∷ [])) }
    ensures root { IfSome result (IsCanonicalRoot (of_key K.bytes) P store.new) }
    ensures apart { IfSome result (λ new.
        KeepsApart (of_key K.bytes) P store.old store.new None (Some new)) }
    ensures leaves { IfNone result (store.new.leaves ≡ store.old.leaves) }
    ensures inners { IfNone result (store.new.inners ≡ store.old.inners) }
{
    let Ok(name) = plant(store, key, value) else {
        return None;
    };
    Some(name.to_opaque())
}

/// Inserts a lease by its id and by the time at which it ends, and returns the roots. Fails if a key conflicts with a
/// stored one or an allocation fails: the error returns the roots, and the leases by their ids are unchanged.
pub fn begin<K: AsBytes + Drop, V: Drop, const P: usize>(
    store: &mut NodeStore<K, V, P>,
    roots: Roots,
    by_id: (K, V),
    by_end: (K, V),
) -> Result<Roots, Roots>
    requires { AreLeases (of_key K.bytes) P store.old roots }
    ensures begun { (ids ends : List (K × V)) →
        HasBoth (of_key K.bytes) P store.old roots.by_id roots.by_end ids ends →
        IfOk result (λ now. HasBoth (of_key K.bytes) P store.new now.by_id now.by_end
        (put (of_key K.bytes) by_id ids) (put (of_key K.bytes) by_end ends)) }
    ensures refused { (ids ends : List (K × V)) →
        HasBoth (of_key K.bytes) P store.old roots.by_id roots.by_end ids ends →
        IfErr result (λ now. (rest : List (K × V)) ×
        HasBoth (of_key K.bytes) P store.new now.by_id now.by_end ids rest) }
    ensures kept { IfOk result (AreLeases (of_key K.bytes) P store.new) }
    ensures left { IfErr result (AreLeases (of_key K.bytes) P store.new) }
{
    let (end_key, end_value) = by_end;
    let (id_key, id_value) = by_id;
    let Some(end_root) = put_in(store, roots.by_end, end_key, end_value) else {
        return Err(roots);
    };
    let by_end = Some(end_root);
    let Some(id_root) = put_in(store, roots.by_id, id_key, id_value) else {
        return Err(Roots { by_end, ..roots });
    };
    Ok(Roots {
        by_id: Some(id_root),
        by_end,
    })
}

/// Removes the lease that ends first from the leases by their ends, if it ends at a time or before, and returns the roots
/// and its key; `None` if no lease does. The time is given as eight bytes.
pub fn take_due<K: AsBytes + Drop, V: Drop, const P: usize>(
    store: &mut NodeStore<K, V, P>,
    roots: Roots,
    now: &[u8],
) -> Option<(Roots, K)>
    requires { AreLeases (of_key K.bytes) P store.old roots }
    ensures taken { (ids ends : List (K × V)) →
        HasBoth (of_key K.bytes) P store.old roots.by_id roots.by_end ids ends →
        IfSome result (λ taken. HasBoth (of_key K.bytes) P store.new taken.0.by_id taken.0.by_end
        ids (without_first ends)) }
    ensures first { (ids ends : List (K × V)) →
        HasBoth (of_key K.bytes) P store.old roots.by_id roots.by_end ids ends →
        option_map (λ taken. taken.1) result ≡
        option_map (λ lease. lease.0) (first_due (of_key K.bytes) now.now ends) }
    ensures left { IfSome result (λ taken. AreLeases (of_key K.bytes) P store.new taken.0) }
    ensures kept { IfNone result (store.new ≡ store.old) }
{
    let Some(root) = roots.by_end else {
        return None;
    };
    let point = find_minimum_to_delete(store, root);
    let Some(first) = store.leaf(point.leaf_node_ptr) else {
        return None;
    };
    if !is_due(first.key_ref().as_bytes(), now) {
        return None;
    }
    let done = point.apply(store, root).unwrap();
    let by_end = done.new_root;
    Some((Roots { by_end, ..roots }, done.deleted_leaf.key))
}

/// Removes the lease of an id from the leases by their ids, if there is one, and returns the roots.
pub fn forget<K: AsBytes + Drop, V: Drop, const P: usize>(
    store: &mut NodeStore<K, V, P>,
    roots: Roots,
    id: &[u8],
) -> Roots
    requires { AreLeases (of_key K.bytes) P store.old roots }
    ensures forgotten { (ids ends : List (K × V)) →
        HasBoth (of_key K.bytes) P store.old roots.by_id roots.by_end ids ends →
        HasBoth (of_key K.bytes) P store.new result.by_id result.by_end
        (remove_key (of_key K.bytes) id.now ids) ends }
    ensures left { AreLeases (of_key K.bytes) P store.new result }
{
    let Some(root) = roots.by_id else {
        return roots;
    };
    let Some((by_id, _, _)) = crate::take(store, root, id) else {
        return roots;
    };
    Roots { by_id, ..roots }
}

/// Removes the leases that end at a time or before, in the order of their ends, and returns the roots. The time is
/// given as eight bytes.
pub fn expire<K: AsBytes + Drop, V: Drop, const P: usize>(
    store: &mut NodeStore<K, V, P>,
    roots: Roots,
    now: &[u8],
) -> Roots
    requires { AreLeases (of_key K.bytes) P store.old roots }
    ensures expired { (ids ends : List (K × V)) →
        HasBoth (of_key K.bytes) P store.old roots.by_id roots.by_end ids ends →
        HasBoth (of_key K.bytes) P store.new result.by_id result.by_end
        (ids_after (of_key K.bytes) now.now ids ends) (ends_after (of_key K.bytes) now.now ends) }
    ensures left { AreLeases (of_key K.bytes) P store.new result }
{
    let mut roots = roots;
    for turn in 0..store.leaf_count() {
        let Some((left, key)) = take_due(store, roots, now) else {
            return roots;
        };
        roots = forget(store, left, id_of(key.as_bytes()));
    }
    roots
}

// Returns whether a lease with this key of its end ends at a time or before.
fn is_due(key: &[u8], now: &[u8]) -> bool
    ensures { result ≡ is_due now.now key.now }
{
    8 <= key.len() && key[..8].cmp(now).is_le()
}

// Returns the id in a key of an end.
fn id_of(key: &[u8]) -> &[u8]
    ensures { result.now ≡ id_of key.now }
{
    if 8 <= key.len() { &key[8..] } else { key }
}
