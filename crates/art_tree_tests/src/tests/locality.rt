//! What a command touches, among all nodes of a store.
ghost use Rattle.std.specs.Prelude.{◌<◌, Some, IfSome};
ghost use Rattle.art_tree_tests.specs.Trees.{HasTree};

use art_nodes::node::{NodeType, OpaqueNodePtr};
use art_nodes::store::NodeStore;
use art_running::run::{Reply, Side};
use art_test_support::commands::{
    Asked, Row, Told, commands, first_wrong, ran_from, run_without_memory,
};
use art_test_support::expected::same;
use art_test_support::nodes::{Seen, count_nodes, count_touched, nodes_seen};
use art_test_support::trees::{Key, keys_of_three, planted_all, planted_keys};
use std::alloc::{AllocError, Global};
use std::test::Fail;

/// How many names were placed, freed and changed.
type Touched = (usize, usize, usize);

// Runs a command, with a second store for the run alone, and returns the root. None if the reply is not the one of the
// row, or the tree moved to the second store.
fn root_after<const P: usize>(
    store: &mut NodeStore<Key, u32, P>,
    second: &mut NodeStore<Key, u32, P>,
    root: Option<OpaqueNodePtr>,
    row: Row<'_>,
) -> Option<Option<OpaqueNodePtr>>
    requires { HasTree P store.old root }
    ensures { IfSome result (λ root. HasTree P store.new root) }
{
    match ran_from(store, second, root, &[row]) {
        Ok((left, new_root)) => match (left.side, left.wrong) {
            (Side::First, None) => Some(new_root),
            _ => None,
        },
        Err(_) => None,
    }
}

// Runs a command, with a second store for the run alone. Returns what it touches in the first, which had these nodes.
// None where the reply is not the one of the row.
fn touched_since<const P: usize>(
    store: &mut NodeStore<Key, u32, P>,
    second: &mut NodeStore<Key, u32, P>,
    before: &[Seen],
    root: &mut Option<OpaqueNodePtr>,
    row: Row<'_>,
) -> Option<Touched>
    requires { HasTree P store.old root.old }
    ensures { IfSome result (λ _. HasTree P store.new root.new) }
{
    *root = root_after(store, second, *root, row)?;
    Some(count_touched(store, before))
}

// What a command touches. None where the reply is not the one of the row.
fn touched_by<const P: usize>(
    store: &mut NodeStore<Key, u32, P>,
    root: &mut Option<OpaqueNodePtr>,
    row: Row<'_>,
) -> Option<Touched>
    requires { HasTree P store.old root.old }
    ensures { IfSome result (λ _. HasTree P store.new root.new) }
{
    let alloc = store.alloc();
    match nodes_seen(store) {
        Ok(before) => touched_since(store, &mut NodeStore::new(alloc), &before, root, row),
        Err(_) => None,
    }
}

/// What an insertion touches, what the deletion of the same key touches, what both do together, and whether the root
/// is the same again.
type PutAndRemoved = ([Touched; 3], bool);

// Inserts a key into the prefix of a node, and deletes it, where the store had these nodes.
fn put_and_remove<const P: usize>(
    store: &mut NodeStore<Key, u32, P>,
    planted: OpaqueNodePtr,
    first: &[Seen],
) -> Option<PutAndRemoved>
    requires { HasTree P store.old (Some planted) }
{
    let mut root = Some(planted);
    let put = (Asked::Insert(&[1, 1, 9], 4), Told::Inserted(None));
    let placed = touched_by(store, &mut root, put)?;
    let remove = (
        Asked::Delete(&[1, 1, 9]),
        Told::Deleted(Some((&[1, 1, 9], 4))),
    );
    let freed = touched_by(store, &mut root, remove)?;
    let both = count_touched(store, first);
    Some(([placed, freed, both], root == Some(planted)))
}

// The same in the tree of four keys.
fn put_and_remove_in<const P: usize>(store: &mut NodeStore<Key, u32, P>) -> Option<PutAndRemoved> {
    let slices: [&[u8]; 4] = [&[0], &[1, 1, 1, 5], &[1, 1, 1, 6], &[2]];
    let root = planted_all(store, &slices).ok()??;
    match nodes_seen(store) {
        Ok(first) => put_and_remove(store, root, &first),
        Err(_) => None,
    }
}

// The same in a store of its own.
fn put_and_remove_with<const P: usize>(alloc: Global) -> Option<PutAndRemoved>
    requires { P < 256 }
{
    put_and_remove_in::<P>(&mut NodeStore::new(alloc))
}

#[test]
fn a_split_prefix_is_merged_again(rt: HostRuntime) -> Result<(), Fail> {
    let alloc = rt.alloc();
    let seen = [
        put_and_remove_with::<0>(alloc),
        put_and_remove_with::<1>(alloc),
        put_and_remove_with::<16>(alloc),
    ];
    let wanted = ([(2, 0, 4), (0, 2, 4), (0, 0, 0)], true);
    same(seen, [Some(wanted); 3])
}

// What an insertion touches that adds a child to the root of these keys.
fn put_beside<const P: usize>(
    store: &mut NodeStore<Key, u32, P>,
    all: Vec<Key>,
) -> Option<Touched> {
    let mut root = Some(planted_keys(store, all)?);
    let put = (Asked::Insert(&[60, 0, 0], 7), Told::Inserted(None));
    touched_by(store, &mut root, put)
}

// The root is a Node256 of 51 children, below each of which are six leaves.
#[test]
fn a_root_of_many_children_is_changed_in_place(rt: HostRuntime) -> Result<(), Fail> {
    let all = keys_of_three(rt.alloc(), [51, 2, 3])?;
    let touched = put_beside::<16>(&mut NodeStore::new(rt.alloc()), all);
    same(touched, Some((1, 0, 2)))
}

/// Each kind that the root of keys of one byte can have, with the least number of keys for it.
static ROOT_KINDS: [(usize, NodeType); 5] = [
    (1, NodeType::Leaf),
    (2, NodeType::Node4),
    (5, NodeType::Node16),
    (17, NodeType::Node48),
    (49, NodeType::Node256),
];

// The kind of the root of so many keys of one byte.
fn kind_for(count: usize) -> Option<NodeType> {
    let mut kind = None;
    for (least, root_kind) in &ROOT_KINDS {
        if *least <= count {
            kind = Some(*root_kind);
        }
    }
    kind
}

// Whether a step touches few nodes and leaves a root of the kind for so many keys of one byte.
fn is_small(touched: Touched, root: Option<OpaqueNodePtr>, count: usize) -> bool {
    let (placed, freed, changed) = touched;
    let is_kind = root.map(|root| root.node_type()) == kind_for(count);
    is_kind && placed <= 2 && freed <= 2 && changed <= 4
}

// The insertion of a key of one byte, and how many keys there are then where all lesser ones are there; or the deletion
// of the last key, which is to be this one, and how many are left.
fn step(key: &[u8; 1], is_insertion: bool) -> (Row<'_>, usize) {
    let lesser = usize::from(key[0]);
    if is_insertion {
        let row = (Asked::Insert(key, 0), Told::Inserted(None));
        (row, lesser + 1)
    } else {
        let row = (Asked::DeleteMax, Told::Deleted(Some((key, 0))));
        (row, lesser)
    }
}

// Inserts all keys of one byte, or deletes the last one again and again. Returns how many of these steps are small.
fn count_small_steps<const P: usize>(
    store: &mut NodeStore<Key, u32, P>,
    root: &mut Option<OpaqueNodePtr>,
    is_growing: bool,
) -> Option<usize>
    requires { HasTree P store.old root.old }
    ensures { IfSome result (λ _. HasTree P store.new root.new) }
{
    let mut small = 0usize;
    for number in 0..=255u8 {
        let key = [if is_growing { number } else { 255 - number }];
        let (row, count) = step(&key, is_growing);
        let touched = touched_by(store, root, row)?;
        if is_small(touched, *root, count) {
            small = small.saturating_add(1);
        }
    }
    Some(small)
}

/// How many insertions and how many deletions are small, the root after them, and how many leaves and inner nodes are
/// left.
type GrownAndShrunk = (usize, usize, Option<OpaqueNodePtr>, (usize, usize));

// The result of all insertions and all deletions.
fn grown_and_shrunk<const P: usize>(store: &mut NodeStore<Key, u32, P>) -> Option<GrownAndShrunk> {
    let mut root = None;
    let grown = count_small_steps(store, &mut root, true)?;
    let shrunk = count_small_steps(store, &mut root, false)?;
    Some((grown, shrunk, root, count_nodes(store)))
}

#[test]
fn a_root_grows_and_shrinks_through_every_kind(rt: HostRuntime) -> Result<(), Fail> {
    let done = grown_and_shrunk::<16>(&mut NodeStore::new(rt.alloc()));
    same(done, Some((256, 256, None, (0, 0))))
}

/// How many keys there are below one node, and below another, and how many in a chain, of which each but one has a
/// Node4 above it alone.
#[derive(Clone, Copy)]
struct Groups {
    count: u8,
    others: u8,
    chained: usize,
}

// A key of 2, of so many zeros, and of 255.
fn chained_key(alloc: Global, zeros: usize) -> Result<Key, AllocError> {
    let mut key = [2].to_vec(alloc)?;
    key.resize(zeros.saturating_add(1), 0)?;
    key.push(255)?;
    Ok(key)
}

// Adds so many keys of a byte and of another to a list.
fn push_pairs(keys: &mut Vec<Key>, alloc: Global, front: u8, count: u8) -> Result<(), AllocError> {
    for byte in 0..count {
        keys.push([front, byte].to_vec(alloc)?)?;
    }
    Ok(())
}

// Adds the keys of these groups to a list.
fn push_groups(keys: &mut Vec<Key>, alloc: Global, groups: Groups) -> Result<(), AllocError> {
    push_pairs(keys, alloc, 0, groups.count)?;
    push_pairs(keys, alloc, 1, groups.others)?;
    for zeros in 0..groups.chained {
        keys.push(chained_key(alloc, zeros)?)?;
    }
    Ok(())
}

// The keys of these groups.
fn keys_of_groups(alloc: Global, groups: Groups) -> Result<Vec<Key>, AllocError> {
    let mut keys = Vec::new(alloc);
    push_groups(&mut keys, alloc, groups)?;
    Ok(keys)
}

/// The deletion of [0, 2], if it is made.
static THIRD: [Row<'static>; 1] = [(Asked::Delete(&[0, 2]), Told::Deleted(Some((&[0, 2], 2))))];

// Whether the deletion was made, by the reply to it and what it touched.
fn is_made(replies: &[Reply<Key, u32>], touched: Touched) -> bool {
    touched != (0, 0, 0) && first_wrong(replies, &THIRD).is_none()
}

// Runs the deletion without memory, where the store had these nodes. Returns whether it was made.
fn delete_by<const P: usize>(
    store: &mut NodeStore<Key, u32, P>,
    second: &mut NodeStore<Key, u32, P>,
    root: OpaqueNodePtr,
    before: &[Seen],
) -> Option<bool>
    requires { HasTree P store.old (Some root) }
{
    let asked = commands(store.alloc(), &THIRD).ok()?;
    match run_without_memory(store, second, Some(root), asked) {
        Ok(done) => Some(is_made(&done.replies, count_touched(store, before))),
        Err(_) => None,
    }
}

// The same in the tree of these keys.
fn deletion_in<const P: usize>(
    store: &mut NodeStore<Key, u32, P>,
    second: &mut NodeStore<Key, u32, P>,
    keys: Vec<Key>,
) -> Option<bool> {
    let root = planted_keys(store, keys)?;
    match nodes_seen(store) {
        Ok(before) => delete_by(store, second, root, &before),
        Err(_) => None,
    }
}

// The same in stores of its own.
fn deletion_from(alloc: Global, groups: Groups) -> Option<bool> {
    let keys = keys_of_groups(alloc, groups).ok()?;
    deletion_in::<4>(&mut NodeStore::new(alloc), &mut NodeStore::new(alloc), keys)
}

// Deletes the third key below a parent of four, which keeps its kind, and of five, which is replaced by a smaller node,
// with so many other keys. Returns how many of both are made.
fn delete_beside(alloc: Global, others: u8, chained: usize) -> Option<usize> {
    let five = Groups {
        count: 5,
        others,
        chained,
    };
    let from_four = deletion_from(alloc, Groups { count: 4, ..five })?;
    let from_five = deletion_from(alloc, five)?;
    Some(usize::from(from_four).saturating_add(usize::from(from_five)))
}

// How many of these deletions are made, with none to fifteen others each time, with no chain and with one of sixteen
// keys.
fn count_deletions(alloc: Global) -> Option<usize> {
    let mut made = 0usize;
    for chained in [0, 16] {
        for others in 0..16 {
            made = made.saturating_add(delete_beside(alloc, others, chained)?);
        }
    }
    Some(made)
}

#[test]
fn without_memory_a_deletion_is_made(rt: HostRuntime) -> Result<(), Fail> {
    same(count_deletions(rt.alloc()), Some(64))
}
