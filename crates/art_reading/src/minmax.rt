//! The first and the last leaf of a tree.
ghost use Rattle.std.specs.Prelude.{◌≤◌};
ghost use Rattle.art_parts.specs.Names.{leaf_name};
ghost use Rattle.art_parts.specs.declared.names.OpaqueNodePtr.{OpaqueNodePtr};
ghost use Rattle.art_model.specs.Lookups.{HasFirstLeaf, HasLastLeaf};
ghost use Rattle.art_model.specs.Roots.{IsFullTree};
ghost use Rattle.art_model.specs.Trees.{Tree};
ghost use Rattle.art_reading.specs.Readings.{levels};

use crate::lookup::descent::{End, Visits, walk_to_end, walk_to_end_visiting};
use art_nodes::node::{AsBytes, LeafPtr, NodePtr, OpaqueNodePtr};
use art_nodes::store::NodeStore;

/// Returns the first leaf of the tree rooted at a name. It reads one inner node for each level.
#[inline(always)]
pub fn minimum_unchecked<K: AsBytes + Drop, V: Drop, const P: usize>(
    store: &NodeStore<K, V, P>,
    root: OpaqueNodePtr,
) -> LeafPtr
    requires { (layout : Tree OpaqueNodePtr (K × V)) × IsFullTree store.now root layout }
    ensures { (layout : Tree OpaqueNodePtr (K × V)) →
        IsFullTree store.now root layout → HasFirstLeaf layout (leaf_name result) }
{
    match root.split() {
        NodePtr::Leaf(leaf) => leaf,
        NodePtr::Inner(_) => first_below(store, root),
    }
}

/// Returns the last leaf of the tree rooted at a name. It reads one inner node for each level.
#[inline(always)]
pub fn maximum_unchecked<K: AsBytes + Drop, V: Drop, const P: usize>(
    store: &NodeStore<K, V, P>,
    root: OpaqueNodePtr,
) -> LeafPtr
    requires { (layout : Tree OpaqueNodePtr (K × V)) × IsFullTree store.now root layout }
    ensures { (layout : Tree OpaqueNodePtr (K × V)) →
        IsFullTree store.now root layout → HasLastLeaf layout (leaf_name result) }
{
    match root.split() {
        NodePtr::Leaf(leaf) => leaf,
        NodePtr::Inner(_) => last_below(store, root),
    }
}

// The first leaf, by a descent. This is a call, so that those into which `minimum_unchecked` is inlined stay small.
#[inline(never)]
fn first_below<K: AsBytes + Drop, V: Drop, const P: usize>(
    store: &NodeStore<K, V, P>,
    root: OpaqueNodePtr,
) -> LeafPtr
    requires { (layout : Tree OpaqueNodePtr (K × V)) × IsFullTree store.now root layout }
    ensures { (layout : Tree OpaqueNodePtr (K × V)) →
        IsFullTree store.now root layout → HasFirstLeaf layout (leaf_name result) }
{
    walk_to_end(store, root, End::First).1
}

// The same, with the number of nodes that it reads.
#[inline(never)]
pub(crate) fn first_below_visiting<K: AsBytes + Drop, V: Drop, const P: usize>(
    store: &NodeStore<K, V, P>,
    root: OpaqueNodePtr,
) -> (LeafPtr, Visits)
    requires { (layout : Tree OpaqueNodePtr (K × V)) × IsFullTree store.now root layout }
    ensures leaf { (layout : Tree OpaqueNodePtr (K × V)) →
        IsFullTree store.now root layout → HasFirstLeaf layout (leaf_name result.0) }
    ensures visits { result.1 ≤ levels store.now root }
{
    let mut visits = Visits::new();
    let leaf = walk_to_end_visiting(store, root, End::First, &mut visits).1;
    (leaf, visits)
}

// The same for the last leaf.
#[inline(never)]
fn last_below<K: AsBytes + Drop, V: Drop, const P: usize>(
    store: &NodeStore<K, V, P>,
    root: OpaqueNodePtr,
) -> LeafPtr
    requires { (layout : Tree OpaqueNodePtr (K × V)) × IsFullTree store.now root layout }
    ensures { (layout : Tree OpaqueNodePtr (K × V)) →
        IsFullTree store.now root layout → HasLastLeaf layout (leaf_name result) }
{
    walk_to_end(store, root, End::Last).1
}
