//! Writes that several operations make: a leaf is linked between two others or unlinked, and a child of a parent is
//! replaced.
ghost use Rattle.std.specs.Prelude.{◌≡◌, ◌<◌, None, IsSome, IsSomeAnd};
ghost use Rattle.std.specs.FinMap as map;
ghost use Rattle.art_nodes.specs.Nodes.{take_leaf};
ghost use Rattle.art_model.specs.Writes.{with_child_at, with_leaf, without_leaf, IsThere};
ghost use Rattle.art_parts.specs.declared.names.OpaqueNodePtr.{OpaqueNodePtr};
ghost use Rattle.art_model.specs.Roots.{IsFullTree};
ghost use Rattle.art_model.specs.Trees.{Tree};
ghost use Rattle.art_writing.specs.Inserted.{unlinked_leaf};
ghost use Rattle.art_writing.specs.ParentWrites.{HasChild, IsBeside, LinksAreThere};
ghost use Rattle.art_reading.specs.PathSteps.{last_step, root_with};

use art_copying::links::{Direction, link, set_beside};
use art_nodes::node::{AsBytes, LeafNode, LeafPtr, OpaqueNodePtr, OptionalLeafPtr};
use art_nodes::store::NodeStore;
use art_reading::minmax::{maximum_unchecked, minimum_unchecked};
use art_reading::path::{TreePath, last_step};

/// Places a leaf of a pair, which the promise covers, between two others, and returns its name.
#[inline(always)]
pub(crate) fn place_between<K: AsBytes + Drop, V: Drop, const P: usize>(
    store: &mut NodeStore<K, V, P>,
    key: K,
    value: V,
    previous: OptionalLeafPtr,
    next: OptionalLeafPtr,
) -> LeafPtr
    requires promised { 0 < store.old.promise.leaves }
    requires previous { IsThere store.old.leaves previous }
    requires next { IsThere store.old.leaves next }
    ensures fresh { map.get store.old.leaves result ≡ None }
    ensures leaves { store.new.leaves ≡ with_leaf store.old.leaves result
        (record { key = key; value = value; previous = previous; next = next }) }
    ensures inners { store.new.inners ≡ store.old.inners }
    ensures promise { store.new.promise ≡ take_leaf store.old.promise }
{
    let leaf = LeafNode {
        key,
        value,
        previous,
        next,
    };
    let name = store.place_leaf(leaf).unwrap();
    set_beside(store, previous, Direction::After, Some(name));
    set_beside(store, next, Direction::Before, Some(name));
    name
}

/// Removes a leaf from between its two neighbours, and returns it with no siblings.
#[inline(always)]
pub(crate) fn take_from_between<K: AsBytes + Drop, V: Drop, const P: usize>(
    store: &mut NodeStore<K, V, P>,
    name: LeafPtr,
) -> LeafNode<K, V>
    requires leaf { IsSome (map.get store.old.leaves name) }
    requires beside { LinksAreThere store.old.leaves name }
    ensures leaf { IsSomeAnd (map.get store.old.leaves name) (λ leaf.
        result ≡ unlinked_leaf (leaf.key, leaf.value)) }
    ensures leaves { IsSomeAnd (map.get store.old.leaves name) (λ leaf.
        store.new.leaves ≡ without_leaf store.old.leaves name leaf) }
    ensures inners { store.new.inners ≡ store.old.inners }
    ensures promise { store.new.promise ≡ store.old.promise }
{
    let leaf = store.leaf_at(name);
    let previous = leaf.previous;
    let next = leaf.next;
    link(store, previous, next);
    let leaf = store.free_leaf(name);
    LeafNode::with_no_siblings(leaf.key, leaf.value)
}

/// Replaces the node at the end of a path, and returns the root.
#[inline(always)]
pub(crate) fn replace_at<K: AsBytes + Drop, V: Drop, const P: usize>(
    store: &mut NodeStore<K, V, P>,
    path: TreePath,
    root: OpaqueNodePtr,
    node: OpaqueNodePtr,
) -> OpaqueNodePtr
    requires { HasChild store.old.inners (last_step path) }
    ensures inners { store.new.inners ≡ with_child_at (last_step path) node store.old.inners }
    ensures leaves { store.new.leaves ≡ store.old.leaves }
    ensures promise { store.new.promise ≡ store.old.promise }
    ensures root { result ≡ root_with path root node }
{
    match last_step(path) {
        None => node,
        Some((parent, byte)) => {
            store.write_child(parent, byte, node);
            root
        }
    }
}

/// Returns the neighbours of a new leaf right before the first leaf of a tree, or right after the last one.
#[inline(always)]
pub(crate) fn links_beside<K: AsBytes + Drop, V: Drop, const P: usize>(
    store: &NodeStore<K, V, P>,
    name: OpaqueNodePtr,
    side: Direction,
) -> (OptionalLeafPtr, OptionalLeafPtr)
    requires { (tree : Tree OpaqueNodePtr (K × V)) × IsFullTree store.now name tree }
    ensures { (tree : Tree OpaqueNodePtr (K × V)) → IsFullTree store.now name tree →
        IsBeside store.now tree side result.0 result.1 }
{
    match side {
        Direction::Before => {
            let first = minimum_unchecked(store, name);
            let leaf = store.leaf_at(first);
            (leaf.previous, Some(first))
        }
        Direction::After => {
            let last = maximum_unchecked(store, name);
            let leaf = store.leaf_at(last);
            (Some(last), leaf.next)
        }
    }
}
