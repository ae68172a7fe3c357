//! What insertions touch, replace and remove in trees of a few keys.
ghost use Rattle.art_model.specs.Pairs.{of_key};
ghost use Rattle.art_model.specs.Roots.{IsCanonicalRoot};

use super::effect::{Told, put_without_memory, told, told_without_memory};
use art_nodes::node::{NodeType, OpaqueNodePtr};
use art_nodes::store::NodeStore;
use art_test_support::expected::same;
use art_test_support::nodes::{Seen, count_touched, nodes_seen};
use art_test_support::points::{Way, put};
use art_test_support::trees::{Key, planted_all, promise};
use std::alloc::Global;
use std::test::Fail;

// How many names were placed, freed and changed.
type Touched = (usize, usize, usize);

// How a key is inserted, the keys of a tree, each with its place as its value, the key, what that touches, the value
// that it replaces, and how many leaves it removes.
type Row = (Way, &'static [&'static [u8]], &'static [u8], Touched, Told);

static ROWS: [Row; 15] = [
    // A child of the root, which has room; of a larger root; and of a larger node below it.
    (Way::Apart, &[&[1], &[2]], &[3], (1, 0, 2), (None, 0)),
    (
        Way::Apart,
        &[&[1], &[2], &[3], &[4]],
        &[5],
        (2, 1, 1),
        (None, 0),
    ),
    (
        Way::Apart,
        &[&[0], &[1, 1], &[1, 2], &[1, 4], &[1, 5], &[2]],
        &[1, 3],
        (2, 1, 3),
        (None, 0),
    ),
    // Another value.
    (
        Way::Apart,
        &[&[1, 1], &[1, 2]],
        &[1, 2],
        (0, 0, 1),
        (Some(1), 0),
    ),
    (Way::Apart, &[&[]], &[], (0, 0, 1), (Some(0), 0)),
    // A split of a leaf, of a long prefix, and of the prefix of a child.
    (
        Way::Apart,
        &[&[1, 2, 3, 4]],
        &[1, 2, 9],
        (2, 0, 1),
        (None, 0),
    ),
    (
        Way::Apart,
        &[&[7, 1, 1, 1, 1, 5], &[7, 1, 1, 1, 1, 6]],
        &[7, 1, 1, 9],
        (2, 0, 2),
        (None, 0),
    ),
    (
        Way::Apart,
        &[&[0], &[1, 1, 1, 5], &[1, 1, 1, 6], &[2]],
        &[1, 1, 9],
        (2, 0, 4),
        (None, 0),
    ),
    // In place of two leaves and their parent, within its prefix and at its end, and of the whole tree.
    (
        Way::Over,
        &[&[1, 2], &[1, 3], &[2]],
        &[1],
        (1, 3, 2),
        (None, 2),
    ),
    (
        Way::Over,
        &[&[0], &[1, 2], &[1, 3], &[2]],
        &[1],
        (1, 3, 3),
        (None, 2),
    ),
    (
        Way::Over,
        &[&[4, 1, 2, 3, 7], &[4, 1, 2, 3, 8], &[5]],
        &[4, 1, 2],
        (1, 3, 2),
        (None, 2),
    ),
    (
        Way::Over,
        &[&[4, 1, 2, 3, 7], &[4, 1, 2, 3, 8], &[5]],
        &[4, 1, 2, 3],
        (1, 3, 2),
        (None, 2),
    ),
    (
        Way::Over,
        &[&[1, 2], &[1, 3], &[2]],
        &[],
        (1, 5, 0),
        (None, 3),
    ),
    // In place of one leaf.
    (Way::Over, &[&[1, 2, 3]], &[1, 2], (0, 0, 1), (Some(0), 0)),
    (
        Way::Over,
        &[&[1, 2, 3]],
        &[1, 2, 3, 4],
        (0, 0, 1),
        (Some(0), 0),
    ),
];

// What an insertion touches in a store that had these nodes, and what is reported of it.
fn done_after<const P: usize>(
    store: &mut NodeStore<Key, u32, P>,
    root: OpaqueNodePtr,
    before: &[Seen],
    way: Way,
    key: &[u8],
) -> Option<(Touched, Told)>
    requires { IsCanonicalRoot (of_key (λ key. key.items)) P store.old root }
{
    let key = key.to_vec(store.alloc()).ok()?;
    let told = told(put(way, store, root, key, 9).1)?;
    Some((count_touched(store, before), told))
}

// The same in the tree of these.
fn done_in<const P: usize>(
    store: &mut NodeStore<Key, u32, P>,
    way: Way,
    slices: &[&[u8]],
    key: &[u8],
) -> Option<(Touched, Told)> {
    let root = planted_all(store, slices).ok()??;
    let before = nodes_seen(store).ok()?;
    done_after(store, root, &before, way, key)
}

// Nothing of a prefix is stored, or four bytes are.
fn done_with_each(
    alloc: Global,
    way: Way,
    slices: &[&[u8]],
    key: &[u8],
) -> [Option<(Touched, Told)>; 2] {
    [
        done_in::<0>(&mut NodeStore::new(alloc), way, slices, key),
        done_in::<4>(&mut NodeStore::new(alloc), way, slices, key),
    ]
}

#[test]
fn touches_no_more_than_it_must(rt: HostRuntime) -> Result<(), Fail> {
    for (way, slices, key, touched, told) in &ROWS {
        let seen = done_with_each(rt.alloc(), *way, slices, key);
        same((*key, seen), (*key, [Some((*touched, *told)); 2]))?;
    }
    Ok(())
}

// What is reported of a key between two others while all memory is held.
fn told_between(alloc: Global, way: Way, key: &[u8]) -> Option<Told> {
    let others: [&[u8]; 3] = [&[0], &[1, 2, 3], &[2]];
    told_without_memory::<16>(way, &mut NodeStore::new(alloc), &others, key)
}

#[test]
fn without_memory_one_pair_is_replaced(rt: HostRuntime) -> Result<(), Fail> {
    let alloc = rt.alloc();
    let seen = [
        told_between(alloc, Way::Apart, &[1, 2, 3]),
        told_between(alloc, Way::Over, &[1, 2]),
        told_between(alloc, Way::Over, &[1, 2, 3]),
        told_between(alloc, Way::Over, &[1, 2, 3, 4]),
    ];
    same(seen, [Some((Some(1), 0)); 4])
}

// What is reported of [1, 2, 9] beside [1, 2, 3, 4] while all memory is held but for the nodes that it needs.
fn split_without_memory<const P: usize>(store: &mut NodeStore<Key, u32, P>) -> Option<Told> {
    let root = planted_all(store, &[&[1, 2, 3, 4]]).ok()??;
    promise(store, root, 1, NodeType::Node4).ok()?;
    put_without_memory(Way::Apart, store, root, &[1, 2, 9])
}

#[test]
fn without_memory_a_reserved_split_is_made(rt: HostRuntime) -> Result<(), Fail> {
    let told = split_without_memory::<16>(&mut NodeStore::new(rt.alloc()));
    same(told, Some((None, 0)))
}
