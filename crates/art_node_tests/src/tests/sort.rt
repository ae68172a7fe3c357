//! Leaves that move to slots in the order of their links.
ghost use Rattle.std.specs.Prelude.{◌≡◌, [], ◌∷◌, None, IsTrue, IsSomeAnd};
ghost use Rattle.std.specs.FinMap as map;
ghost use Rattle.art_nodes.specs.Renamed.{IsRow};

use art_node_support::expected::same;
use art_node_support::memory::{begin_refusals, end_refusals};
use art_node_support::nodes::{Key, nodes_seen};
use art_node_support::placing::{Plain, leaf_at, placed_all};
use art_nodes::node::{LeafPtr, NodeType, OpaqueNodePtr};
use art_nodes::store::NodeStore;
use std::alloc::Global;
use std::test::Fail;

// Three leaves in slots against their order, one freed slot between them, one leaf that is not in their row, and a node
// of each kind above.
static UNSORTED: [Plain; 9] = [
    Plain::Leaf {
        key: &[3],
        value: 30,
        previous: Some(2),
        next: None,
    },
    Plain::Gone,
    Plain::Leaf {
        key: &[2],
        value: 20,
        previous: Some(3),
        next: Some(0),
    },
    Plain::Leaf {
        key: &[1],
        value: 10,
        previous: None,
        next: Some(2),
    },
    Plain::Leaf {
        key: &[9],
        value: 90,
        previous: None,
        next: None,
    },
    Plain::Inner {
        kind: NodeType::Node4,
        prefix_len: 1,
        prefix: &[7],
        children: &[(2, 2), (1, 3)],
    },
    Plain::Inner {
        kind: NodeType::Node16,
        prefix_len: 0,
        prefix: &[],
        children: &[(5, 5), (9, 0)],
    },
    Plain::Inner {
        kind: NodeType::Node48,
        prefix_len: 0,
        prefix: &[],
        children: &[(255, 3), (0, 6), (8, 0)],
    },
    Plain::Inner {
        kind: NodeType::Node256,
        prefix_len: 0,
        prefix: &[],
        children: &[(200, 2), (0, 7), (255, 3)],
    },
];

// The same nodes with their leaves in the first slots, and the leaf that was not in the row freed.
static SORTED: [Plain; 7] = [
    Plain::Leaf {
        key: &[1],
        value: 10,
        previous: None,
        next: Some(1),
    },
    Plain::Leaf {
        key: &[2],
        value: 20,
        previous: Some(0),
        next: Some(2),
    },
    Plain::Leaf {
        key: &[3],
        value: 30,
        previous: Some(1),
        next: None,
    },
    Plain::Inner {
        kind: NodeType::Node4,
        prefix_len: 1,
        prefix: &[7],
        children: &[(1, 0), (2, 1)],
    },
    Plain::Inner {
        kind: NodeType::Node16,
        prefix_len: 0,
        prefix: &[],
        children: &[(5, 3), (9, 2)],
    },
    Plain::Inner {
        kind: NodeType::Node48,
        prefix_len: 0,
        prefix: &[],
        children: &[(0, 4), (8, 2), (255, 0)],
    },
    Plain::Inner {
        kind: NodeType::Node256,
        prefix_len: 0,
        prefix: &[],
        children: &[(0, 5), (200, 1), (255, 0)],
    },
];

// Whether there is a leaf with these links.
fn has_links<const P: usize>(
    store: &NodeStore<Key, u32, P>,
    name: LeafPtr,
    previous: Option<LeafPtr>,
    next: Option<LeafPtr>,
) -> bool
    ensures { IsTrue result → IsSomeAnd (map.get store.now.leaves name) (λ leaf.
        (leaf.previous ≡ previous) × (leaf.next ≡ next)) }
{
    match store.leaf(name) {
        Some(leaf) => leaf.previous == previous && leaf.next == next,
        None => false,
    }
}

// Whether these leaves are in a row.
fn are_in_row<const P: usize>(
    store: &NodeStore<Key, u32, P>,
    first: LeafPtr,
    second: LeafPtr,
    third: LeafPtr,
) -> bool
    ensures { IsTrue result → IsRow store.now.leaves None (first ∷ second ∷ third ∷ []) }
{
    has_links(store, first, None, Some(second))
        && has_links(store, second, Some(first), Some(third))
        && has_links(store, third, Some(second), None)
}

// Sorts the leaves that were placed under these names, and returns whether that failed. None if they are not in a row.
fn is_refused<const P: usize>(
    store: &mut NodeStore<Key, u32, P>,
    names: &[OpaqueNodePtr],
) -> Option<bool> {
    let (first, second, third) = (
        leaf_at(names, Some(3))?,
        leaf_at(names, Some(2))?,
        leaf_at(names, Some(0))?,
    );
    if !are_in_row(store, first, second, third) {
        return None;
    }
    begin_refusals(store.alloc());
    let is_refused = store.sort_leaves(first).is_err();
    end_refusals(store.alloc());
    Some(is_refused)
}

// Whether two stores have the same nodes under the same names.
fn have_same_nodes<const P: usize>(
    store: &NodeStore<Key, u32, P>,
    other: &NodeStore<Key, u32, P>,
) -> Option<bool> {
    match (nodes_seen(store), nodes_seen(other)) {
        (Ok(nodes), Ok(others)) => Some(nodes == others),
        _ => None,
    }
}

// Places the nodes that are not sorted, and sorts them. Returns whether that failed.
fn place_and_sort<const P: usize>(store: &mut NodeStore<Key, u32, P>) -> Option<bool> {
    let names = placed_all(store, &UNSORTED).ok()??;
    is_refused(store, &names)
}

// Places those that are then to be seen.
fn place_expected<const P: usize>(
    store: &mut NodeStore<Key, u32, P>,
    is_refused: bool,
) -> Option<()> {
    let expected: &[Plain<'_>] = if is_refused { &UNSORTED } else { &SORTED };
    placed_all(store, expected).ok()??;
    Some(())
}

// Does both, in two stores. Returns whether the call failed, and whether both stores have the same nodes.
fn sort_placed<const P: usize>(
    store: &mut NodeStore<Key, u32, P>,
    other: &mut NodeStore<Key, u32, P>,
) -> Option<(bool, bool)> {
    let is_refused = place_and_sort(store)?;
    place_expected(other, is_refused)?;
    Some((is_refused, have_same_nodes(store, other)?))
}

// The same in stores of its own.
fn sort_in(alloc: Global) -> Option<(bool, bool)> {
    sort_placed::<2>(&mut NodeStore::new(alloc), &mut NodeStore::new(alloc))
}

#[test]
fn leaves_are_sorted_by_their_links(rt: HostRuntime) -> Result<(), Fail> {
    same(sort_in(rt.alloc()), Some((false, true)))
}

// Asserts, with each allocation made to fail, that all nodes stay.
#[test]
fn refused_each_request_leaves_the_leaves_in_their_slots(rt: HostRuntime) -> Result<(), Fail> {
    if let Some((is_refused, are_same)) = sort_in(rt.alloc()) {
        assert!(rt; are_same);
        if is_refused {
            println!(rt; "asserted")?;
        }
    }
    Ok(())
}
