//! Iterations over leaves.
ghost use Rattle.std.specs.Prelude.{List, IfSome};
ghost use Rattle.art_parts.specs.declared.names.OpaqueNodePtr.{OpaqueNodePtr};
ghost use Rattle.art_operations.specs.Iterators.{IsIteratorOf};
ghost use Rattle.art_model.specs.Roots.{IsCanonicalRoot};

use art_nodes::node::{OpaqueNodePtr, OptionalLeafPtr};
use art_nodes::store::NodeStore;
use art_operations::deallocate::{deallocate_leaves, deallocate_tree_non_leaves};
use art_operations::iterator::RawIterator;
use art_test_support::expected::same;
use art_test_support::nodes::{Seen, count_touched, nodes_seen};
use art_test_support::shapes::count_nodes;
use art_test_support::trees::{Key, planted_all, value_of};
use std::alloc::Global;
use std::test::Fail;
use uses::{take_next, walk};

// All leaves of a tree.
fn whole<const P: usize>(store: &NodeStore<Key, u32, P>, root: OpaqueNodePtr) -> RawIterator
    requires { IsCanonicalRoot (λ pair. pair.0.items) P store.now root }
    ensures { (names : List OpaqueNodePtr) × IsIteratorOf store.now result names }
{
    walk(store, root)
}

// The value of the first leaf that is left.
fn front<const P: usize>(leaves: &mut RawIterator, store: &NodeStore<Key, u32, P>) -> Option<u32>
    requires { (names : List OpaqueNodePtr) × IsIteratorOf store.now leaves.old names }
    ensures { (names : List OpaqueNodePtr) × IsIteratorOf store.now leaves.new names }
{
    let name = leaves.next(store);
    value_under(store, name)
}

// The value of the last one.
fn back<const P: usize>(leaves: &mut RawIterator, store: &NodeStore<Key, u32, P>) -> Option<u32>
    requires { (names : List OpaqueNodePtr) × IsIteratorOf store.now leaves.old names }
    ensures { (names : List OpaqueNodePtr) × IsIteratorOf store.now leaves.new names }
{
    let name = leaves.next_back(store);
    value_under(store, name)
}

// The value of a returned leaf.
fn value_under<const P: usize>(
    store: &NodeStore<Key, u32, P>,
    name: OptionalLeafPtr,
) -> Option<u32> {
    value_of(store, name?)
}

// What an iteration over all leaves of a tree returns, from both ends.
fn from_both_ends<const P: usize>(
    store: &NodeStore<Key, u32, P>,
    root: OpaqueNodePtr,
) -> [Option<u32>; 7]
    requires { IsCanonicalRoot (λ pair. pair.0.items) P store.now root }
{
    let mut leaves = whole(store, root);
    [
        front(&mut leaves, store),
        back(&mut leaves, store),
        front(&mut leaves, store),
        back(&mut leaves, store),
        front(&mut leaves, store),
        front(&mut leaves, store),
        back(&mut leaves, store),
    ]
}

// The keys of the tree of five leaves.
static FIVE: [&[u8]; 5] = [&[1], &[2], &[3], &[4], &[5]];

// What an iteration over some leaves returns, from the back first.
fn from_the_back<const P: usize>(
    leaves: RawIterator,
    store: &NodeStore<Key, u32, P>,
) -> [Option<u32>; 4]
    requires { (names : List OpaqueNodePtr) × IsIteratorOf store.now leaves names }
{
    let mut leaves = leaves;
    [
        back(&mut leaves, store),
        front(&mut leaves, store),
        back(&mut leaves, store),
        front(&mut leaves, store),
    ]
}

// The same leaves once more, by the names of the first and the last of them.
fn again<const P: usize>(leaves: RawIterator, store: &NodeStore<Key, u32, P>) -> Option<RawIterator>
    requires { (names : List OpaqueNodePtr) × IsIteratorOf store.now leaves names }
    ensures { IfSome result (λ same.
        (names : List OpaqueNodePtr) × IsIteratorOf store.now same names) }
{
    let mut from_front = leaves;
    let first = from_front.next(store)?;
    let mut from_back = leaves;
    let last = from_back.next_back(store)?;
    Some(RawIterator::new(store, first, last))
}

// The leaves between the first and the last one.
fn between<const P: usize>(
    store: &NodeStore<Key, u32, P>,
    root: OpaqueNodePtr,
) -> Option<RawIterator>
    requires { IsCanonicalRoot (λ pair. pair.0.items) P store.now root }
    ensures { IfSome result (λ leaves.
        (names : List OpaqueNodePtr) × IsIteratorOf store.now leaves names) }
{
    let mut inner = whole(store, root);
    front(&mut inner, store);
    back(&mut inner, store);
    again(inner, store)
}

// What an iteration over the leaves between the first and the last one returns, from the back first.
fn from_between<const P: usize>(
    store: &NodeStore<Key, u32, P>,
    root: OpaqueNodePtr,
) -> Option<[Option<u32>; 4]>
    requires { IsCanonicalRoot (λ pair. pair.0.items) P store.now root }
{
    Some(from_the_back(between(store, root)?, store))
}

// What iterations over no leaf and over all leaves of a tree return.
fn from_none_and_all<const P: usize>(
    store: &NodeStore<Key, u32, P>,
    root: OpaqueNodePtr,
) -> [[Option<u32>; 4]; 2]
    requires { IsCanonicalRoot (λ pair. pair.0.items) P store.now root }
{
    [
        from_the_back(RawIterator::empty(), store),
        from_the_back(whole(store, root), store),
    ]
}

// What iterations over the leaves of a tree return: from both ends, over those between the first and the last one, and
// over none and all.
#[derive(Clone, Copy)]
struct Came {
    from_both_ends: [Option<u32>; 7],
    from_between: Option<[Option<u32>; 4]>,
    from_none_and_all: [[Option<u32>; 4]; 2],
}

// The same of the tree of these keys.
fn came_in<const P: usize>(store: &mut NodeStore<Key, u32, P>, slices: &[&[u8]]) -> Option<Came> {
    let root = planted_all(store, slices).ok()??;
    Some(Came {
        from_both_ends: from_both_ends(store, root),
        from_between: from_between(store, root),
        from_none_and_all: from_none_and_all(store, root),
    })
}

// The same in a store of its own.
fn came_with(alloc: Global, slices: &[&[u8]]) -> Option<Came> {
    came_in::<4>(&mut NodeStore::new(alloc), slices)
}

#[test]
fn comes_from_both_ends(rt: HostRuntime) -> Result<(), Fail> {
    let wanted = [Some(0), Some(4), Some(1), Some(3), Some(2), None, None];
    let came = came_with(rt.alloc(), &FIVE);
    same(came.map(|came| came.from_both_ends), Some(wanted))
}

#[test]
fn a_part_comes_from_both_ends(rt: HostRuntime) -> Result<(), Fail> {
    let wanted = [Some(3), Some(1), Some(2), None];
    let came = came_with(rt.alloc(), &FIVE);
    same(came.and_then(|came| came.from_between), Some(wanted))
}

#[test]
fn none_or_one_leaf_comes(rt: HostRuntime) -> Result<(), Fail> {
    let wanted = [[None; 4], [Some(0), None, None, None]];
    let came = came_with(rt.alloc(), &[&[1]]);
    same(came.map(|came| came.from_none_and_all), Some(wanted))
}

// What the freeing of the leaves between the first and the last one touches of these nodes.
fn touched_of<const P: usize>(
    store: &mut NodeStore<Key, u32, P>,
    root: OpaqueNodePtr,
    before: &[Seen],
) -> Option<(usize, usize, usize)>
    requires { IsCanonicalRoot (λ pair. pair.0.items) P store.old root }
{
    let leaves = between(store, root)?;
    deallocate_leaves(leaves, store);
    Some(count_touched(store, before))
}

// The same of all nodes.
fn touched_between<const P: usize>(
    store: &mut NodeStore<Key, u32, P>,
    root: OpaqueNodePtr,
) -> Option<(usize, usize, usize)>
    requires { IsCanonicalRoot (λ pair. pair.0.items) P store.old root }
{
    match nodes_seen(store) {
        Ok(before) => touched_of(store, root, &before),
        Err(_) => None,
    }
}

// The same of the tree of these keys.
fn touched_in<const P: usize>(
    store: &mut NodeStore<Key, u32, P>,
    slices: &[&[u8]],
) -> Option<(usize, usize, usize)> {
    let root = planted_all(store, slices).ok()??;
    touched_between(store, root)
}

#[test]
fn a_part_is_freed_and_no_other_leaf_written(rt: HostRuntime) -> Result<(), Fail> {
    let touched = touched_in::<4>(&mut NodeStore::new(rt.alloc()), &FIVE);
    same(touched, Some((0, 3, 0)))
}

// The value of the first leaf that is left, which is freed.
fn free_front<const P: usize>(
    leaves: &mut RawIterator,
    store: &mut NodeStore<Key, u32, P>,
) -> Option<u32>
    requires { (names : List OpaqueNodePtr) × IsIteratorOf store.old leaves.old names }
    ensures { (names : List OpaqueNodePtr) × IsIteratorOf store.new leaves.new names }
{
    let pair = take_next(store, leaves);
    Some(pair?.1)
}

// The values of some leaves, each of which is freed before the next one is read.
fn freed_in_turn<const P: usize>(
    store: &mut NodeStore<Key, u32, P>,
    leaves: &mut RawIterator,
) -> [Option<u32>; 4]
    requires { (names : List OpaqueNodePtr) × IsIteratorOf store.old leaves.old names }
{
    [
        free_front(leaves, store),
        free_front(leaves, store),
        free_front(leaves, store),
        free_front(leaves, store),
    ]
}

// The values of the leaves of a tree that are freed so, and how many nodes are left.
type Freed = ([Option<u32>; 4], (usize, usize));

fn freed_of<const P: usize>(store: &mut NodeStore<Key, u32, P>, slices: &[&[u8]]) -> Option<Freed> {
    let root = planted_all(store, slices).ok()??;
    let mut leaves = whole(store, root);
    let came = freed_in_turn(store, &mut leaves);
    Some((came, count_nodes(store, 4)))
}

#[test]
fn a_leaf_that_came_may_be_freed(rt: HostRuntime) -> Result<(), Fail> {
    let freed = freed_of::<4>(&mut NodeStore::new(rt.alloc()), &[&[1], &[2], &[3]]);
    let came = [Some(0), Some(1), Some(2), None];
    same(freed, Some((came, (0, 1))))
}

// Frees the leaves of a tree and then its inner nodes, or in the other order. Returns how many nodes there are before,
// between and after that.
fn free_apart<const P: usize>(
    store: &mut NodeStore<Key, u32, P>,
    root: OpaqueNodePtr,
    leaves_first: bool,
) -> [(usize, usize); 3]
    requires { IsCanonicalRoot (λ pair. pair.0.items) P store.old root }
{
    let before = count_nodes(store, 40);
    let leaves = whole(store, root);
    let between = if leaves_first {
        deallocate_leaves(leaves, store);
        let between = count_nodes(store, 40);
        deallocate_tree_non_leaves(root, store);
        between
    } else {
        deallocate_tree_non_leaves(root, store);
        let between = count_nodes(store, 40);
        deallocate_leaves(leaves, store);
        between
    };
    [before, between, count_nodes(store, 40)]
}

// Keys of a tree of three inner nodes.
static THREE_INNERS: [&[u8]; 5] = [&[1, 1], &[1, 2], &[2], &[3, 4, 5], &[3, 4, 6]];

// The same of the tree of these keys.
fn freed_apart<const P: usize>(
    store: &mut NodeStore<Key, u32, P>,
    slices: &[&[u8]],
    leaves_first: bool,
) -> Option<[(usize, usize); 3]> {
    let root = planted_all(store, slices).ok()??;
    Some(free_apart(store, root, leaves_first))
}

// The same in a store of its own.
fn freed_apart_with(
    alloc: Global,
    slices: &[&[u8]],
    leaves_first: bool,
) -> Option<[(usize, usize); 3]> {
    freed_apart::<4>(&mut NodeStore::new(alloc), slices, leaves_first)
}

#[test]
fn leaves_and_then_inner_nodes_are_freed(rt: HostRuntime) -> Result<(), Fail> {
    let counts = freed_apart_with(rt.alloc(), &THREE_INNERS, true);
    same(counts, Some([(5, 3), (0, 3), (0, 0)]))
}

#[test]
fn inner_nodes_and_then_leaves_are_freed(rt: HostRuntime) -> Result<(), Fail> {
    let counts = freed_apart_with(rt.alloc(), &THREE_INNERS, false);
    same(counts, Some([(5, 3), (5, 0), (0, 0)]))
}
