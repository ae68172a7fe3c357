//! Deletions from a parent with more than two children.
ghost use Rattle.art_model.specs.Pairs.{of_key};
ghost use Rattle.art_model.specs.Roots.{IsCanonicalRoot};

use super::points::{delete, deletion_from, remove_stored};
use art_nodes::node::{NodeType, OpaqueNodePtr};
use art_nodes::store::NodeStore;
use art_test_support::cases::planted_bytes;
use art_test_support::crowds::place_beside;
use art_test_support::expected::same;
use art_test_support::memory::all_memory;
use art_test_support::nodes::{Seen, count_touched, nodes_seen};
use art_test_support::trees::{Key, planted_all, promise};
use std::alloc::Global;
use std::test::Fail;

// The kind of the root of so many keys of one byte.
fn kind_for(count: usize) -> Option<NodeType> {
    match count {
        0 => None,
        1 => Some(NodeType::Leaf),
        2..=4 => Some(NodeType::Node4),
        5..=16 => Some(NodeType::Node16),
        17..=48 => Some(NodeType::Node48),
        _ => Some(NodeType::Node256),
    }
}

// The kind of the root that is left, if there is one.
fn kind_left(root: Option<OpaqueNodePtr>) -> Option<NodeType> {
    Some(root?.node_type())
}

// Removes all 256 keys of one byte. Returns the root that is left, and how many keys there were when the root was of
// another kind than expected.
fn take_all_out<const P: usize>(
    store: &mut NodeStore<Key, u32, P>,
    root: OpaqueNodePtr,
) -> Option<(Option<OpaqueNodePtr>, Option<usize>)>
    requires { IsCanonicalRoot (of_key (λ key. key.items)) P store.old root }
{
    let mut root = Some(root);
    for turn in 0..=255u8 {
        // 77 is odd: each byte occurs once, and few are in order.
        let top = root?;
        root = remove_stored(store, top, &[turn.wrapping_mul(77)])?;
        let left = usize::from(255 - turn);
        if kind_left(root) != kind_for(left) {
            return Some((root, Some(left)));
        }
    }
    Some((root, None))
}

// What the deletion of one of these keys touches.
fn touched_by(alloc: Global, slices: &[&[u8]], key: &[u8]) -> Option<(usize, usize, usize)> {
    let seen = deletion_from::<4>(&mut NodeStore::new(alloc), slices, key);
    Some(seen?.touched)
}

static SIX: [&[u8]; 6] = [&[0], &[1], &[2], &[3], &[4], &[5]];

// Seventeen keys below a child of the root, and one beside them.
static SEVENTEEN: [&[u8]; 18] = [
    &[0, 0],
    &[0, 1],
    &[0, 2],
    &[0, 3],
    &[0, 4],
    &[0, 5],
    &[0, 6],
    &[0, 7],
    &[0, 8],
    &[0, 9],
    &[0, 10],
    &[0, 11],
    &[0, 12],
    &[0, 13],
    &[0, 14],
    &[0, 15],
    &[0, 16],
    &[1],
];

static TWO: [&[u8]; 2] = [&[1, 2, 3, 4], &[1, 2, 9]];

static LONG: [&[u8]; 3] = [&[7, 1, 1, 1, 1, 5], &[7, 1, 1, 1, 1, 6], &[7, 1, 1, 9]];

#[test]
fn touches_no_more_than_it_must(rt: HostRuntime) -> Result<(), Fail> {
    let cases: [(&[&[u8]], &[u8], (usize, usize, usize)); 6] = [
        // The leaf, with its neighbours and the parent.
        (&SIX, &[2], (0, 1, 3)),
        (&SIX, &[5], (0, 1, 2)),
        // The leaf and the parent, with the leaf's neighbours and a smaller node.
        (&SIX[..5], &[2], (1, 2, 2)),
        // And the grandparent.
        (&SEVENTEEN, &[0, 2], (1, 2, 3)),
        // The leaf and the parent, with the other leaf, or with the other child and the neighbour.
        (&TWO, &[1, 2, 9], (0, 2, 1)),
        (&LONG, &[7, 1, 1, 9], (0, 2, 2)),
    ];
    for (slices, key, touched) in cases {
        same(
            (key, touched_by(rt.alloc(), slices, key)),
            (key, Some(touched)),
        )?;
    }
    Ok(())
}

// The root that is left and the deleted value.
type Left = (Option<OpaqueNodePtr>, u32);

// What the deletion of [2] leaves while all memory is held.
fn left_without_memory<const P: usize>(
    store: &mut NodeStore<Key, u32, P>,
    root: OpaqueNodePtr,
) -> Option<Left>
    requires { IsCanonicalRoot (of_key (λ key. key.items)) P store.old root }
{
    let held = all_memory(store.alloc()).ok()?;
    let left = delete(store, root, &[2]);
    drop(held);
    left
}

// The deleted value in the tree of four keys of one byte, if the root stays.
fn left_of_four<const P: usize>(store: &mut NodeStore<Key, u32, P>) -> Option<u32> {
    let root = planted_all(store, &SIX[..4]).ok()??;
    let (new_root, value) = left_without_memory(store, root)?;
    if new_root == Some(root) {
        Some(value)
    } else {
        None
    }
}

#[test]
fn without_memory_a_deletion_below_a_kept_parent_is_made(rt: HostRuntime) -> Result<(), Fail> {
    let value = left_of_four::<4>(&mut NodeStore::new(rt.alloc()));
    same(value, Some(2))
}

// The deleted value, and the kind of the root that is left, where all memory is held but for a smaller node.
fn left_of_five<const P: usize>(
    store: &mut NodeStore<Key, u32, P>,
) -> Option<(u32, Option<NodeType>)> {
    let root = planted_all(store, &SIX[..5]).ok()??;
    promise(store, root, 0, NodeType::Node4).ok()?;
    let (new_root, value) = left_without_memory(store, root)?;
    Some((value, kind_left(new_root)))
}

#[test]
fn without_memory_a_promised_shrink_is_made(rt: HostRuntime) -> Result<(), Fail> {
    let left = left_of_five::<4>(&mut NodeStore::new(rt.alloc()));
    same(left, Some((2, Some(NodeType::Node4))))
}

// The kind of the root that is left without [1, 9] beside [1, 1, 5] and [1, 1, 6] while all memory is held.
fn compress_without_memory<const P: usize>(
    store: &mut NodeStore<Key, u32, P>,
) -> Option<Option<NodeType>> {
    let root = planted_all(store, &[&[1, 1, 5], &[1, 1, 6], &[1, 9]]).ok()??;
    let held = all_memory(store.alloc()).ok()?;
    let left = remove_stored(store, root, &[1, 9]);
    drop(held);
    Some(kind_left(left?))
}

#[test]
fn without_memory_a_parent_is_compressed(rt: HostRuntime) -> Result<(), Fail> {
    let kind = compress_without_memory::<4>(&mut NodeStore::new(rt.alloc()));
    same(kind, Some(Some(NodeType::Node4)))
}

// More nodes of one kind than a store has room for before they are requested.
const MORE_THAN_FIT: usize = 100_000;

// What the deletion of [2] frees and changes of these nodes, in addition to leaves and nodes of the smaller kind that
// take all the room.
fn touched_in_full<const P: usize>(
    store: &mut NodeStore<Key, u32, P>,
    root: OpaqueNodePtr,
    before: &[Seen],
    kind: NodeType,
) -> Option<(usize, usize)>
    requires { IsCanonicalRoot (of_key (λ key. key.items)) P store.old root }
{
    let held = all_memory(store.alloc()).ok()?;
    place_beside(store, root, NodeType::Leaf, MORE_THAN_FIT);
    place_beside(store, root, kind, MORE_THAN_FIT);
    let left = delete(store, root, &[2]);
    drop(held);
    left?;
    let (_, freed, changed) = count_touched(store, before);
    Some((freed, changed))
}

// The same in the tree of so many keys of one byte.
fn touched_of_many<const P: usize>(
    store: &mut NodeStore<Key, u32, P>,
    count: u16,
    kind: NodeType,
) -> Option<(usize, usize)> {
    let root = planted_bytes(store, count)?;
    let before = nodes_seen(store).ok()?;
    touched_in_full(store, root, &before, kind)
}

// The numbers of children from which a node becomes one of a smaller kind, with that kind.
static SHRINKING: [(u16, NodeType); 3] = [
    (5, NodeType::Node4),
    (17, NodeType::Node16),
    (49, NodeType::Node48),
];

#[test]
fn without_memory_a_shrink_is_made(rt: HostRuntime) -> Result<(), Fail> {
    for (count, kind) in &SHRINKING {
        let touched = touched_of_many::<4>(&mut NodeStore::new(rt.alloc()), *count, *kind);
        same((*kind, touched), (*kind, Some((2, 2))))?;
    }
    Ok(())
}

// What is left of the tree of all keys of one byte once they are removed while all memory is held.
fn taken_out_without_memory<const P: usize>(
    store: &mut NodeStore<Key, u32, P>,
) -> Option<(Option<OpaqueNodePtr>, Option<usize>)> {
    let root = planted_bytes(store, 256)?;
    let held = all_memory(store.alloc()).ok()?;
    let left = take_all_out(store, root);
    drop(held);
    left
}

#[test]
fn without_memory_a_node_shrinks_all_the_way(rt: HostRuntime) -> Result<(), Fail> {
    let left = taken_out_without_memory::<4>(&mut NodeStore::new(rt.alloc()));
    same(left, Some((None, None)))
}
