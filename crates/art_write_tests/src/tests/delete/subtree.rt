//! Deletions of all keys that start with a prefix.
ghost use Rattle.std.specs.Prelude.{◌<◌, IfSome};
ghost use Rattle.art_model.specs.Pairs.{of_key};
ghost use Rattle.art_model.specs.Roots.{IsCanonicalRoot};

use art_nodes::node::{NodeType, OpaqueNodePtr};
use art_nodes::store::NodeStore;
use art_test_support::crowds::place_beside;
use art_test_support::expected::same;
use art_test_support::memory::all_memory;
use art_test_support::nodes::{Seen, count_touched, nodes_seen};
use art_test_support::side_by_side::kind_if_same;
use art_test_support::trees::{Key, keys_after, planted_all, planted_keys};
use art_writing::delete::search_for_prefix_delete_point;
use std::alloc::{AllocError, Global};
use std::test::Fail;

// How many names were placed, freed and changed.
type Touched = (usize, usize, usize);

// The root that is left, how many leaves were removed, and what was touched.
#[derive(Clone, Copy)]
struct Removal {
    new_root: Option<OpaqueNodePtr>,
    removed: usize,
    touched: Touched,
}

// Removes all keys that start with a prefix. `None` where there is none.
fn remove_below<const P: usize>(
    store: &mut NodeStore<Key, u32, P>,
    root: OpaqueNodePtr,
    before: &[Seen],
    prefix: &[u8],
) -> Option<Removal>
    requires { IsCanonicalRoot (of_key (λ key. key.items)) P store.old root }
{
    let point = search_for_prefix_delete_point(store, root, prefix)?;
    let done = point.apply(store, root);
    Some(Removal {
        new_root: done.new_root,
        removed: done.leafs_removed,
        touched: count_touched(store, before),
    })
}

// The same in a tree of some keys.
fn removed_from<const P: usize>(
    store: &mut NodeStore<Key, u32, P>,
    slices: &[&[u8]],
    prefix: &[u8],
) -> Option<Removal> {
    let root = planted_all(store, slices).ok()??;
    let before = nodes_seen(store).ok()?;
    remove_below(store, root, &before, prefix)
}

// Keys, of which so many at the front do not start with the prefix and are in their order, and what their removal is
// expected to touch. The greatest kind of inner node that is left, `Node4` if there is none, is given if the tree is
// that of the keys that stay.
struct Row {
    slices: &'static [&'static [u8]],
    kept: usize,
    prefix: &'static [u8],
    touched: Touched,
    kind: NodeType,
}

static ROWS: [Row; 9] = [
    // All keys.
    Row {
        slices: &[&[1, 2], &[1, 3], &[2]],
        kept: 0,
        prefix: &[],
        touched: (0, 5, 0),
        kind: NodeType::Node4,
    },
    // All keys, where the prefix ends inside that of the root.
    Row {
        slices: &[&[1, 2, 3, 4, 5], &[1, 2, 3, 4, 6]],
        kept: 0,
        prefix: &[1, 2, 3],
        touched: (0, 3, 0),
        kind: NodeType::Node4,
    },
    // Below a child of the root, which keeps its kind: the leaf's neighbours and the root change.
    Row {
        slices: &[&[0], &[2], &[1, 1, 5], &[1, 1, 6], &[1, 9]],
        kept: 2,
        prefix: &[1],
        touched: (0, 5, 3),
        kind: NodeType::Node4,
    },
    // One leaf.
    Row {
        slices: &[&[0], &[2], &[3], &[1, 5, 5]],
        kept: 3,
        prefix: &[1, 5],
        touched: (0, 1, 3),
        kind: NodeType::Node4,
    },
    // The root is removed with its child, and its other child becomes the root.
    Row {
        slices: &[&[0, 0, 1], &[0, 0, 2], &[1, 1], &[1, 2]],
        kept: 2,
        prefix: &[1],
        touched: (0, 4, 2),
        kind: NodeType::Node4,
    },
    // A leaf is left of the tree.
    Row {
        slices: &[&[3, 3], &[1, 1], &[1, 2]],
        kept: 1,
        prefix: &[1],
        touched: (0, 4, 1),
        kind: NodeType::Node4,
    },
    // The prefix ends inside that of a node below the root's child.
    Row {
        slices: &[
            &[3],
            &[7, 0, 0],
            &[7, 9, 9],
            &[7, 1, 1, 1, 1, 1, 5],
            &[7, 1, 1, 1, 1, 1, 6],
        ],
        kept: 3,
        prefix: &[7, 1, 1, 1],
        touched: (0, 3, 3),
        kind: NodeType::Node4,
    },
    // The parent is removed, and the grandparent has another child.
    Row {
        slices: &[&[3], &[7, 0, 0], &[7, 0, 1], &[7, 1, 1, 5], &[7, 1, 1, 6]],
        kept: 3,
        prefix: &[7, 1],
        touched: (0, 4, 3),
        kind: NodeType::Node4,
    },
    // A smaller node replaces the parent, under the name of one that was freed.
    Row {
        slices: &[&[0], &[2], &[3], &[4], &[1, 1], &[1, 2]],
        kept: 4,
        prefix: &[1],
        touched: (0, 3, 3),
        kind: NodeType::Node4,
    },
];

// The pairs of keys that were planted first, in their order.
fn pairs_kept(alloc: Global, slices: &[&[u8]]) -> Result<Vec<(Key, u32)>, AllocError> {
    let mut pairs = Vec::new(alloc);
    let mut value = 0u32;
    for slice in slices {
        pairs.push((slice.to_vec(alloc)?, value))?;
        value = value.wrapping_add(1);
    }
    Ok(pairs)
}

// How many leaves were removed, what was touched, and the greatest kind of node where the tree is that of the keys that
// stay.
type Left = (usize, Touched, Option<NodeType>);

// What is left of a row.
fn left_of<const P: usize>(
    store: &mut NodeStore<Key, u32, P>,
    other: &mut NodeStore<Key, u32, P>,
    row: &Row,
) -> Option<Left> {
    let done = removed_from(store, row.slices, row.prefix)?;
    let kept = row.slices.get(..row.kept)?;
    let other_root = planted_all(other, kept).ok()?;
    let pairs = pairs_kept(store.alloc(), kept).ok()?;
    let kind = kind_if_same((&*store, done.new_root), (&*other, other_root), &pairs);
    Some((done.removed, done.touched, kind.ok()?))
}

// The same in stores of its own.
fn left_with<const P: usize>(alloc: Global, row: &Row) -> Option<Left>
    requires { P < 256 }
{
    left_of::<P>(&mut NodeStore::new(alloc), &mut NodeStore::new(alloc), row)
}

// Nothing of a prefix is stored, or four bytes are.
fn left_with_each(alloc: Global, row: &Row) -> [Option<Left>; 2] {
    [left_with::<0>(alloc, row), left_with::<4>(alloc, row)]
}

#[test]
fn leaves_the_tree_of_the_other_keys(rt: HostRuntime) -> Result<(), Fail> {
    for row in &ROWS {
        let removed = row.slices.len().saturating_sub(row.kept);
        let expected = Some((removed, row.touched, Some(row.kind)));
        same(
            (row.prefix, left_with_each(rt.alloc(), row)),
            (row.prefix, [expected; 2]),
        )?;
    }
    Ok(())
}

// The tree of so many keys of one byte and two keys that start with 255.
fn planted_with_two<const P: usize>(
    store: &mut NodeStore<Key, u32, P>,
    count: u16,
) -> Option<OpaqueNodePtr>
    ensures { IfSome result (λ root. IsCanonicalRoot (of_key (λ key. key.items)) P store.new root) }
{
    let mut all = keys_after(store.alloc(), &[], count).ok()?;
    for last in 1..=2u8 {
        all.push([255, last].to_vec(store.alloc()).ok()?).ok()?;
    }
    planted_keys(store, all)
}

// The numbers of other children from which a node becomes one of a smaller kind, with that kind, and what is touched. A
// node of the kind of the two keys' parent has its name.
static SHRINKING: [(u16, NodeType, Touched); 3] = [
    (4, NodeType::Node4, (0, 3, 2)),
    (16, NodeType::Node16, (1, 4, 1)),
    (48, NodeType::Node48, (1, 4, 1)),
];

// More nodes of one kind than a store has room for before they are requested.
const MORE_THAN_FIT: usize = 100_000;

// What the removal of the keys that start with 255 frees and changes of these nodes, in addition to nodes of the
// smaller kind that take all the room.
fn touched_in_full<const P: usize>(
    store: &mut NodeStore<Key, u32, P>,
    root: OpaqueNodePtr,
    before: &[Seen],
    kind: NodeType,
) -> Option<(usize, usize)>
    requires { IsCanonicalRoot (of_key (λ key. key.items)) P store.old root }
{
    let held = all_memory(store.alloc()).ok()?;
    place_beside(store, root, kind, MORE_THAN_FIT);
    let done = remove_below(store, root, before, &[255]);
    drop(held);
    let (_, freed, changed) = done?.touched;
    Some((freed, changed))
}

// The same in the tree of so many keys of one byte and two that start with 255.
fn touched_of_many<const P: usize>(
    store: &mut NodeStore<Key, u32, P>,
    count: u16,
    kind: NodeType,
) -> Option<(usize, usize)> {
    let root = planted_with_two(store, count)?;
    let before = nodes_seen(store).ok()?;
    touched_in_full(store, root, &before, kind)
}

#[test]
fn without_memory_a_shrink_is_made(rt: HostRuntime) -> Result<(), Fail> {
    for (count, kind, (_, freed, changed)) in &SHRINKING {
        let touched = touched_of_many::<4>(&mut NodeStore::new(rt.alloc()), *count, *kind);
        same((*kind, touched), (*kind, Some((*freed, *changed))))?;
    }
    Ok(())
}

// What a removal below a parent that keeps its kind touches while all memory is held.
fn removed_without_memory<const P: usize>(
    store: &mut NodeStore<Key, u32, P>,
) -> Option<(usize, Touched)> {
    let root = planted_with_two(store, 3)?;
    let before = nodes_seen(store).ok()?;
    let held = all_memory(store.alloc()).ok()?;
    let done = remove_below(store, root, &before, &[255]);
    drop(held);
    Some((done?.removed, done?.touched))
}

#[test]
fn without_memory_keys_below_a_kept_parent_go(rt: HostRuntime) -> Result<(), Fail> {
    let seen = removed_without_memory::<4>(&mut NodeStore::new(rt.alloc()));
    same(seen, Some((2, (0, 3, 2))))
}
