//! Uses of the operations, as a caller writes them.
#![tactic(auto)]

ghost use Rattle.std.specs.Prelude.{◌≡◌, List, length, max, Some, IfSome, IfNone, option_copied};
ghost use Rattle.std.specs.Option.{option_map};
ghost use Rattle.art_parts.specs.declared.names.OpaqueNodePtr.{OpaqueNodePtr};
ghost use Rattle.art_model.specs.Apart.{KeepsApart};
ghost use Rattle.art_model.specs.Canonical.{IsCanonical};
ghost use Rattle.art_model.specs.Pairs.{first_of, match_of, of_key, overwrite, put, remove_key, remove_reply, without_first};
ghost use Rattle.art_model.specs.Layouts.{leaf_names};
ghost use Rattle.art_model.specs.Roots.{ForTree, IsCanonicalRoot};
ghost use Rattle.art_operations.specs.Iterators.{IsIteratorOf};
ghost use Rattle.art_operations.specs.MapAnswers.{value_at};
ghost use Rattle.art_operations.specs.MapItems.{deref_pair};
ghost use Rattle.uses.specs.Longest.{longest};

use art_nodes::node::{AsBytes, InnerRef, LeafNode, OpaqueNodePtr};
use art_nodes::store::NodeStore;
use art_operations::delete::search_for_delete_point;
use art_operations::insert::{search_for_insert_point, search_for_prefix_insert_point};
use art_operations::iterator::RawIterator;
use art_operations::lookup::{prefix_search_unchecked, search_unchecked};
use art_operations::minmax::{maximum_unchecked, minimum_unchecked};
use art_operations::visitor::{Visitor, visit_with};

pub mod accounts;
pub mod copies;
pub mod counts;
pub mod events;
pub mod given;
pub mod inventory;
pub mod keys;
pub mod leases;
pub mod months;
pub mod networks;
pub mod parts;
pub mod sessions;
pub mod tally;

/// Inserts a pair, and returns the root. Returns `None` if the key conflicts with a stored one or an allocation fails;
/// then the tree is unchanged.
pub fn put<K: AsBytes + Drop, V: Drop, const P: usize>(
    store: &mut NodeStore<K, V, P>,
    root: OpaqueNodePtr,
    key: K,
    value: V,
) -> Option<OpaqueNodePtr>
    requires { IsCanonicalRoot (of_key K.bytes) P store.old root }
    ensures pairs { ForTree (of_key K.bytes) P store.old root (λ pairs _. IfSome result (λ new.
        IsCanonical (of_key K.bytes) P store.new (Some new)
        (put (of_key K.bytes) (key, value) pairs))) }
    ensures root { IfSome result (IsCanonicalRoot (of_key K.bytes) P store.new) }
    ensures apart { IfSome result (λ new.
        KeepsApart (of_key K.bytes) P store.old store.new (Some root) (Some new)) }
    ensures leaves { IfNone result (store.new.leaves ≡ store.old.leaves) }
    ensures inners { IfNone result (store.new.inners ≡ store.old.inners) }
{
    let Ok(point) = search_for_insert_point(store, root, key.as_bytes()) else {
        return None;
    };
    match point.apply(store, key, value) {
        Ok(done) => Some(done.new_root),
        Err(_) => None,
    }
}

/// Inserts a pair and removes every conflicting one, and returns the root and how many leaves were freed. Returns
/// `None` if an allocation fails; then the tree is unchanged.
pub fn put_over<K: AsBytes + Drop, V: Drop, const P: usize>(
    store: &mut NodeStore<K, V, P>,
    root: OpaqueNodePtr,
    key: K,
    value: V,
) -> Option<(OpaqueNodePtr, usize)>
    requires { IsCanonicalRoot (of_key K.bytes) P store.old root }
    ensures pairs { ForTree (of_key K.bytes) P store.old root (λ pairs _. IfSome result (λ new.
        IsCanonical (of_key K.bytes) P store.new (Some new.0)
        (overwrite (of_key K.bytes) (key, value) pairs))) }
    ensures root { IfSome result (λ new. IsCanonicalRoot (of_key K.bytes) P store.new new.0) }
    ensures leaves { IfNone result (store.new.leaves ≡ store.old.leaves) }
    ensures inners { IfNone result (store.new.inners ≡ store.old.inners) }
{
    let point = search_for_prefix_insert_point(store, root, key.as_bytes());
    match point.apply(store, key, value) {
        Ok(done) => Some((done.insert_result.new_root, done.leafs_removed)),
        Err(_) => None,
    }
}

/// Removes the pair of a key, and returns the root that is left, if any, and the pair. Returns `None` if the key is not
/// stored; then nothing has changed.
pub fn take<K: AsBytes + Drop, V: Drop, const P: usize>(
    store: &mut NodeStore<K, V, P>,
    root: OpaqueNodePtr,
    key_bytes: &[u8],
) -> Option<(Option<OpaqueNodePtr>, K, V)>
    requires { IsCanonicalRoot (of_key K.bytes) P store.old root }
    ensures pairs { ForTree (of_key K.bytes) P store.old root (λ pairs _. IfSome result (λ left.
        IsCanonical (of_key K.bytes) P store.new left.0
        (remove_key (of_key K.bytes) key_bytes.now pairs))) }
    ensures taken { ForTree (of_key K.bytes) P store.old root (λ pairs _.
        remove_reply (of_key K.bytes) key_bytes.now pairs ≡
        option_map (λ left. (left.1, left.2)) result) }
    ensures root { IfSome result (λ left.
        IfSome left.0 (IsCanonicalRoot (of_key K.bytes) P store.new)) }
    ensures apart { IfSome result (λ left.
        KeepsApart (of_key K.bytes) P store.old store.new (Some root) left.0) }
    ensures leaves { IfNone result (store.new.leaves ≡ store.old.leaves) }
    ensures inners { IfNone result (store.new.inners ≡ store.old.inners) }
{
    let point = search_for_delete_point(store, root, key_bytes)?;
    let done = point.apply(store, root).unwrap();
    let leaf = done.deleted_leaf;
    Some((done.new_root, leaf.key, leaf.value))
}

/// Returns the value of a key, or `None` if the key is not stored.
pub fn get<'a, K: AsBytes + Drop, V: Drop, const P: usize>(
    store: &'a NodeStore<K, V, P>,
    root: OpaqueNodePtr,
    key_bytes: &[u8],
) -> Option<&'a V>
    requires { IsCanonicalRoot (of_key K.bytes) P store.now root }
    ensures { ForTree (of_key K.bytes) P store.now root (λ pairs _.
        option_copied result ≡ value_at K.bytes key_bytes.now pairs) }
{
    let leaf = search_unchecked(store, root, key_bytes)?;
    Some(&store.leaf_at(leaf).value)
}

/// Returns the pair whose key is a prefix of the query or equal to it, or `None`. There is at most one.
pub fn longest_match<'a, K: AsBytes + Drop, V: Drop, const P: usize>(
    store: &'a NodeStore<K, V, P>,
    root: OpaqueNodePtr,
    query: &[u8],
) -> Option<(&'a K, &'a V)>
    requires { IsCanonicalRoot (of_key K.bytes) P store.now root }
    ensures { ForTree (of_key K.bytes) P store.now root (λ pairs _.
        option_map deref_pair result ≡ first_of (match_of (of_key K.bytes) query.now pairs)) }
{
    let leaf = prefix_search_unchecked(store, root, query)?;
    let node = store.leaf_at(leaf);
    Some((&node.key, &node.value))
}

/// Returns an iterator over all leaves of a tree, in order.
pub fn walk<K: AsBytes + Drop, V: Drop, const P: usize>(
    store: &NodeStore<K, V, P>,
    root: OpaqueNodePtr,
) -> RawIterator
    requires { IsCanonicalRoot (of_key K.bytes) P store.now root }
    ensures { ForTree (of_key K.bytes) P store.now root (λ _ layout.
        IsIteratorOf store.now result (leaf_names layout)) }
{
    let first = minimum_unchecked(store, root);
    let last = maximum_unchecked(store, root);
    RawIterator::new(store, first, last)
}

/// Frees the next leaf of an iterator, and returns its pair, or `None` if no leaf is left. The iterator continues with
/// the others.
pub fn take_next<K: AsBytes + Drop, V: Drop, const P: usize>(
    store: &mut NodeStore<K, V, P>,
    leaves: &mut RawIterator,
) -> Option<(K, V)>
    requires { (names : List OpaqueNodePtr) × IsIteratorOf store.old leaves.old names }
    ensures rest { (names : List OpaqueNodePtr) → IsIteratorOf store.old leaves.old names →
        IsIteratorOf store.new leaves.new (without_first names) }
    ensures none { IfNone result (store.new ≡ store.old) }
{
    let leaf = leaves.next(store)?;
    let node = store.free_leaf(leaf);
    Some((node.key, node.value))
}

/// A visitor that computes the length of the longest key.
#[derive(Drop)]
pub struct LongestKey;

impl<K: AsBytes + Drop, V: Drop, const P: usize> Visitor<K, V, P> for LongestKey {
    type Output = usize;

    ghost is_default = { λ visitor output. output ≡ 0 };

    ghost combines = { λ visitor first second output. output ≡ max first second };

    ghost of_inner = { λ old kind node children output new. output ≡ children };

    ghost of_leaf = { λ old leaf output new. output ≡ length (K.bytes leaf.key) };

    fn default_output(&self) -> usize {
        0
    }

    fn combine_output(&self, o1: usize, o2: usize) -> usize {
        o1.max(o2)
    }

    fn visit_inner_node(&mut self, _node: InnerRef<'_, P>, children: usize) -> usize
        ensures { result ≡ children }
    {
        children
    }

    fn visit_leaf(&mut self, leaf: &LeafNode<K, V>) -> usize {
        leaf.key.as_bytes().len()
    }
}

/// Returns the length of the longest key of a tree.
pub fn longest_key<K: AsBytes + Drop, V: Drop, const P: usize>(
    store: &NodeStore<K, V, P>,
    root: OpaqueNodePtr,
) -> usize
    requires { IsCanonicalRoot (of_key K.bytes) P store.now root }
    ensures { ForTree (of_key K.bytes) P store.now root (λ pairs _.
        result ≡ longest (of_key K.bytes) pairs) }
{
    visit_with(store, root, &mut LongestKey)
}
