//! Two trees in one store: drawn insertions and deletions in both, each compared with a `BTreeMap`.
ghost use Rattle.std.specs.Prelude.{IfSome};
ghost use Rattle.art_checking.specs.Checks.{IsWellFormed};
ghost use Rattle.art_model.specs.Pairs.{of_key};

use art_checking::well_formed::{WellFormedChecker, WellFormedTreeStats};
use art_copying::deallocate::deallocate_tree;
use art_nodes::node::{AsBytes, OpaqueNodePtr};
use art_nodes::store::NodeStore;
use art_reading::lookup::search_unchecked;
use art_test_support::expected::as_expected;
use art_test_support::numbers::Numbers;
use art_test_support::trees::value_of;
use art_writing::delete::search_for_delete_point;
use art_writing::insert::{plant, search_for_insert_point};
use std::collections::BTreeMap;
use std::test::Fail;

type Key = [u8; 2];

type Store = NodeStore<Key, u32, 1>;

type Model = BTreeMap<Key, u32>;

// How many nodes a tree has, if the checker finds no fault. Its contract says that the root is canonical then.
fn checked<K: AsBytes + Drop, const P: usize>(
    store: &NodeStore<K, u32, P>,
    root: OpaqueNodePtr,
) -> Option<WellFormedTreeStats>
    ensures { IfSome result (λ stats. IsWellFormed (of_key K.bytes) P store.now root stats) }
{
    match WellFormedChecker::check_tree(store, root) {
        Ok(stats) => Some(stats),
        Err(_fault) => None,
    }
}

// Plants a tree of one pair, and returns its root.
fn planted(store: &mut Store, key: Key, value: u32) -> Option<OpaqueNodePtr> {
    match plant(store, key, value) {
        Ok(name) => Some(name.to_opaque()),
        Err(_refused) => None,
    }
}

// The root after a pair was inserted into a tree, and the value that it replaced.
fn put(
    store: &mut Store,
    root: OpaqueNodePtr,
    key: Key,
    value: u32,
) -> Option<(OpaqueNodePtr, Option<u32>)> {
    let _ = checked(store, root)?;
    let Ok(point) = search_for_insert_point(store, root, &key) else {
        return None;
    };
    match point.apply(store, key, value) {
        Ok(done) => match done.existing_leaf {
            Some(leaf) => Some((done.new_root, Some(leaf.value))),
            None => Some((done.new_root, None)),
        },
        Err(_refused) => None,
    }
}

// Inserts a pair into a tree, or plants one, and into its model, and returns the root, if both had the same value
// before.
fn insert(
    store: &mut Store,
    root: Option<OpaqueNodePtr>,
    model: &mut Model,
    key: Key,
    value: u32,
) -> Option<OpaqueNodePtr> {
    let old = model.insert(key, value).ok()?;
    let Some(root) = root else {
        return planted(store, key, value);
    };
    let (new_root, replaced) = put(store, root, key, value)?;
    if replaced == old {
        Some(new_root)
    } else {
        None
    }
}

// The root that is left after a key was removed from a tree, and its value. The inner `None` is for a key that is not
// stored.
fn taken(
    store: &mut Store,
    root: OpaqueNodePtr,
    key: Key,
) -> Option<Option<(Option<OpaqueNodePtr>, u32)>> {
    let _ = checked(store, root)?;
    let Some(point) = search_for_delete_point(store, root, &key) else {
        return Some(None);
    };
    match point.apply(store, root) {
        Ok(done) => Some(Some((done.new_root, done.deleted_leaf.value))),
        Err(_refused) => None,
    }
}

// Removes a key from a tree and from its model, and returns the root that is left, if both had the same value.
fn delete(
    store: &mut Store,
    root: OpaqueNodePtr,
    model: &mut Model,
    key: Key,
) -> Option<Option<OpaqueNodePtr>> {
    let old = model.remove(&key);
    let (left, value) = match taken(store, root, key)? {
        Some((left, value)) => (left, Some(value)),
        None => (Some(root), None),
    };
    if value == old { Some(left) } else { None }
}

// A drawn change of a tree and of its model, and the root after it, if they agree.
fn change(
    store: &mut Store,
    root: Option<OpaqueNodePtr>,
    model: &mut Model,
    numbers: &mut Numbers,
    is_growing: bool,
) -> Option<Option<OpaqueNodePtr>> {
    let key = [numbers.below(4) as u8, numbers.below(60) as u8];
    let inserts = numbers.below(4) == 0;
    match root {
        Some(root) if inserts != is_growing => delete(store, root, model, key),
        _ => Some(Some(insert(store, root, model, key, numbers.value())?)),
    }
}

// Whether a tree has the pairs of its model, and is well formed.
fn agree(store: &Store, root: Option<OpaqueNodePtr>, model: &Model) -> bool {
    let Some(root) = root else {
        return model.is_empty();
    };
    let Some(stats) = checked(store, root) else {
        return false;
    };
    let mut agree = stats.num_leaf == model.len();
    for (key, value) in model.iter() {
        let found = match search_unchecked(store, root, key) {
            Some(leaf) => value_of(store, leaf),
            None => None,
        };
        agree &= found == Some(*value);
    }
    agree
}

// The roots of two trees after drawn changes, or the number of the first call after which one differs from its model.
fn changed(
    store: &mut Store,
    first: &mut Model,
    second: &mut Model,
    calls: usize,
) -> Result<(Option<OpaqueNodePtr>, Option<OpaqueNodePtr>), usize> {
    let mut numbers = Numbers::new(3);
    let (mut one, mut two) = (None, None);
    for call in 0..calls {
        let is_growing = (call / 400) % 2 == 0;
        if numbers.is_heads() {
            let Some(root) = change(store, one, first, &mut numbers, is_growing) else {
                return Err(call);
            };
            one = root;
        } else {
            let Some(root) = change(store, two, second, &mut numbers, is_growing) else {
                return Err(call);
            };
            two = root;
        }
        if call % 50 == 0 && !(agree(store, one, first) && agree(store, two, second)) {
            return Err(call);
        }
    }
    Ok((one, two))
}

// The same, and then the first tree is freed: the first call that differs, and whether the store has the second
// tree and nothing else.
fn left_alone(
    store: &mut Store,
    first: &mut Model,
    second: &mut Model,
    calls: usize,
) -> (Option<usize>, bool) {
    let (one, two) = match changed(store, first, second, calls) {
        Ok(roots) => roots,
        Err(call) => return (Some(call), false),
    };
    let Some(root) = one else {
        return (None, false);
    };
    let Some(_) = checked(store, root) else {
        return (None, false);
    };
    let freed = deallocate_tree(root, store);
    let is_alone = freed == first.len() && store.leaf_count() == second.len();
    (None, is_alone && agree(store, two, second))
}

#[test]
fn changes_of_a_tree_leave_the_one_beside_it(rt: HostRuntime) -> Result<(), Fail> {
    let alloc = rt.alloc();
    let (mut first, mut second) = (BTreeMap::new(alloc), BTreeMap::new(alloc));
    let seen = left_alone(&mut NodeStore::new(alloc), &mut first, &mut second, 2_000);
    as_expected(Some((seen, (None, true))))
}
