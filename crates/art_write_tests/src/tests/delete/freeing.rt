//! Freeing whole trees.
ghost use Rattle.art_model.specs.Pairs.{of_key};
ghost use Rattle.art_model.specs.Roots.{IsCanonicalRoot};

use art_copying::deallocate::deallocate_tree;
use art_nodes::node::OpaqueNodePtr;
use art_nodes::store::NodeStore;
use art_test_support::cases::FOUR;
use art_test_support::expected::same;
use art_test_support::nodes::{count_nodes, count_touched, nodes_seen};
use art_test_support::trees::{Key, planted_all};
use std::test::Fail;

// The result of freeing a tree.
#[derive(Clone, Copy, PartialEq, Eq, Debug)]
struct Left {
    // How many leaves the call reports to have freed.
    count: usize,
    // How many leaves and inner nodes there are.
    nodes: (usize, usize),
    // How many names were placed, freed and changed.
    touched: (usize, usize, usize),
}

// Frees a tree.
fn free_all<const P: usize>(store: &mut NodeStore<Key, u32, P>, root: OpaqueNodePtr) -> Option<Left>
    requires { IsCanonicalRoot (of_key (λ key. key.items)) P store.old root }
{
    let before = nodes_seen(store).ok()?;
    let count = deallocate_tree(root, store);
    Some(Left {
        count,
        nodes: count_nodes(store),
        touched: count_touched(store, &before),
    })
}

// Plants a tree of these keys, and frees it.
fn freed<const P: usize>(store: &mut NodeStore<Key, u32, P>, slices: &[&[u8]]) -> Option<Left> {
    let root = planted_all(store, slices).ok()??;
    free_all(store, root)
}

// What is left of a tree of so many leaves and inner nodes.
fn nothing_of(leaves: usize, inners: usize) -> Left {
    Left {
        count: leaves,
        nodes: (0, 0),
        touched: (0, leaves.saturating_add(inners), 0),
    }
}

#[test]
fn a_freed_tree_leaves_nothing(rt: HostRuntime) -> Result<(), Fail> {
    let cases: [(&[&[u8]], usize, usize); 3] = [
        (&[&[1, 2, 3]], 1, 0),
        (&FOUR, 4, 3),
        (&[&[0], &[1], &[2], &[3], &[4], &[5]], 6, 1),
    ];
    for (slices, leaves, inners) in cases {
        let left = freed::<4>(&mut NodeStore::new(rt.alloc()), slices);
        same(left, Some(nothing_of(leaves, inners)))?;
    }
    Ok(())
}
