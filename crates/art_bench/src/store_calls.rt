//! The work on a tree in a store, by the calls that are under the map.
ghost use Rattle.std.specs.Prelude.{IfSome};
ghost use Rattle.art_model.specs.Pairs.{of_key};
ghost use Rattle.art_model.specs.Roots.{IsCanonicalRoot};

use crate::parts::{begin, between};
use crate::{Counts, parts};
use art_nodes::node::{AsBytes, OpaqueNodePtr};
use art_nodes::store::NodeStore;
use art_operations::delete::search_for_delete_point_by_lengths;
use art_operations::well_formed::WellFormedChecker;
use std::alloc::Global;
use uses::get;
use uses::leases::put_in;

const PREFIX_LEN: usize = 16;

type Store = NodeStore<Vec<u8>, u32, PREFIX_LEN>;

/// Makes a tree of all keys, finds each key, checks the tree, and removes each key. Counts the found keys, the leaves
/// of the tree, if it has no fault, and the removed keys.
#[inline(always)]
pub fn work(
    alloc: Global,
    keys: &[u8],
    ends: &[u64],
    asked: &[u8],
    asked_ends: &[u64],
    counts: &mut Counts,
) {
    let mut store: Store = NodeStore::new(alloc);
    begin(alloc, parts::STORE_INSERT);
    let Some(root) = build(&mut store, alloc, keys, ends) else {
        return;
    };
    begin(alloc, parts::STORE_GET);
    counts.found = find_all(&store, root, asked, asked_ends);
    begin(alloc, parts::CHECK);
    counts.stored = leaf_count(&store, root);
    begin(alloc, parts::STORE_REMOVE);
    counts.taken = take_all(&mut store, root, asked, asked_ends);
    begin(alloc, parts::REST);
}

/// Inserts all keys into a tree, and returns its root; `None` if there is no key, or an allocation fails.
#[inline(never)]
fn build(store: &mut Store, alloc: Global, keys: &[u8], ends: &[u64]) -> Option<OpaqueNodePtr>
    ensures { IfSome result (IsCanonicalRoot (of_key (λ key. key.items)) 16 store.new) }
{
    let (mut root, mut from) = (None, 0);
    'keys: for end in ends {
        let to = *end as usize;
        let Ok(key) = Vec::from_slice(alloc, between(keys, from, to)) else {
            return None;
        };
        root = Some(put_in(store, root, key, 0)?);
        from = to;
    }
    root
}

/// Looks each key up. Returns how many are stored.
#[inline(never)]
fn find_all(store: &Store, root: OpaqueNodePtr, asked: &[u8], ends: &[u64]) -> u64
    requires { IsCanonicalRoot (of_key (λ key. key.items)) 16 store.now root }
{
    let (mut count, mut from) = (0u64, 0);
    for end in ends {
        let to = *end as usize;
        let is_stored = get(store, root, between(asked, from, to)).is_some();
        count = count.wrapping_add(u64::from(is_stored));
        from = to;
    }
    count
}

/// Returns the number of leaves of a tree without a fault.
#[inline(never)]
fn leaf_count(store: &Store, root: OpaqueNodePtr) -> u64 {
    match WellFormedChecker::check_tree(store, root) {
        Ok(stats) => stats.num_leaf as u64,
        Err(_) => 0,
    }
}

/// Removes keys until one isn't stored or none is left. Returns how many were removed.
#[inline(never)]
fn take_all(store: &mut Store, root: OpaqueNodePtr, asked: &[u8], ends: &[u64]) -> u64
    requires { IsCanonicalRoot (of_key (λ key. key.items)) 16 store.old root }
{
    let (mut left, mut count, mut from) = (Some(root), 0u64, 0);
    'keys: for end in ends {
        let to = *end as usize;
        let Some(root) = left else {
            break;
        };
        let Some(after) = root_without(store, root, between(asked, from, to)) else {
            break;
        };
        left = after;
        count = count.wrapping_add(1);
        from = to;
    }
    count
}

/// Removes the pair of a key. Returns the root that is left, if any; `None` if the key isn't stored, or an allocation
/// fails.
fn root_without<K: AsBytes + Drop, V: Drop, const P: usize>(
    store: &mut NodeStore<K, V, P>,
    root: OpaqueNodePtr,
    key_bytes: &[u8],
) -> Option<Option<OpaqueNodePtr>>
    requires { IsCanonicalRoot (of_key K.bytes) P store.old root }
    ensures { IfSome result (λ left. IfSome left (IsCanonicalRoot (of_key K.bytes) P store.new)) }
{
    let point = search_for_delete_point_by_lengths(store, root, key_bytes)?;
    match point.apply(store, root) {
        Ok(done) => Some(done.new_root),
        Err(_) => None,
    }
}
