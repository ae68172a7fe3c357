//! Removes all leaves below a node at once: those whose keys start with a prefix.
ghost use Rattle.std.specs.Prelude.{◌≡◌, length, IfSome, Some};
ghost use Rattle.art_model.specs.Apart.{KeepsApart};
ghost use Rattle.art_model.specs.Canonical.{IsCanonical};
ghost use Rattle.art_model.specs.Kept.{ChangesInPlace};
ghost use Rattle.art_model.specs.Pairs.{of_key};
ghost use Rattle.art_model.specs.Promises.{promise_after};
ghost use Rattle.art_model.specs.Radix.{pairs_of};
ghost use Rattle.art_model.specs.Roots.{ForRoot, ForTree, IsCanonicalRoot};
ghost use Rattle.art_reading.specs.PathSteps.{last_step};
ghost use Rattle.art_writing.specs.Deleted.{placed_for_deletion};
ghost use Rattle.art_writing.specs.SubtreePoints.{IsSubtreePointIn, LeadsToNode, pairs_beside};
ghost use Rattle.art_writing.specs.Collapsed.{IsCollapsed};
ghost use Rattle.art_writing.specs.ParentWrites.{HasChild};

use super::DeletePoint;
use super::apply::has_spare_child;
use crate::writes::{links_beside, replace_at};
use art_copying::deallocate::free_nodes;
use art_copying::links::{Direction, link};
use art_nodes::node::{AsBytes, LeafPtr, NodeType, OpaqueNodePtr};
use art_nodes::store::NodeStore;
use art_reading::lookup::descent::{End, walk_to_end};
use art_reading::path::{TreePath, last_step};

/// Where a node is removed from a tree with its whole subtree.
#[derive(Clone, Copy, PartialEq, Eq, Debug)]
pub struct SubtreeDeletePoint {
    /// The nodes right above the node.
    pub path: TreePath,
    pub node: OpaqueNodePtr,
}

/// The result of the deletion of a subtree.
#[derive(Clone, Copy, PartialEq, Eq, Debug)]
pub struct SubtreeDeleteResult {
    /// The root of the tree, if a leaf is left.
    pub new_root: Option<OpaqueNodePtr>,
    /// How many leaves were removed.
    pub leafs_removed: usize,
}

// A tree in which one leaf replaces all below a node.
#[derive(Clone, Copy)]
struct Collapsed {
    root: OpaqueNodePtr,
    leaf: LeafPtr,
    // How many leaves the node had.
    count: usize,
}

impl SubtreeDeletePoint {
    /// Removes the node of the point with its subtree and frees all of it. Returns how many leaves were removed, and
    /// the root of the rest, if any.
    ///
    /// It never fails and allocates nothing, as `DeletePoint::apply`. It costs a step for each freed node, and a
    /// constant number of writes.
    pub fn apply<K: AsBytes + Drop, V: Drop, const P: usize>(
        self,
        store: &mut NodeStore<K, V, P>,
        root: OpaqueNodePtr,
    ) -> SubtreeDeleteResult
        requires { IsSubtreePointIn (of_key K.bytes) P store.old root self }
        ensures canonical { ForTree (of_key K.bytes) P store.old root (λ pairs layout.
            (at : LeadsToNode layout self) →
            IsCanonical (of_key K.bytes) P store.new result.new_root (pairs_beside at)) }
        ensures left { IfSome result.new_root
            (IsCanonicalRoot (of_key K.bytes) P store.new) }
        ensures removed { ForTree (of_key K.bytes) P store.old root (λ pairs layout.
            (at : LeadsToNode layout self) → result.leafs_removed ≡ length (pairs_of at.node)) }
        ensures kept { ForTree (of_key K.bytes) P store.old root (λ pairs old.
            ForRoot (of_key K.bytes) P store.new result.new_root (λ after new.
            ChangesInPlace (of_key K.bytes) store.old store.new (Some old) new)) }
        ensures apart { KeepsApart (of_key K.bytes) P
            store.old store.new (Some root) result.new_root }
        ensures promise { store.new.promise ≡
            promise_after (placed_for_deletion store.old self.path) store.old.promise }
    {
        let left = self.collapse(store, root);
        let point = DeletePoint {
            path: self.path,
            leaf_node_ptr: left.leaf,
        };
        let done = point.take_out(store, left.root);
        SubtreeDeleteResult {
            new_root: done.new_root,
            leafs_removed: left.count,
        }
    }

    // Frees all below the node but the first leaf, which replaces the node.
    fn collapse<K: AsBytes + Drop, V: Drop, const P: usize>(
        self,
        store: &mut NodeStore<K, V, P>,
        root: OpaqueNodePtr,
    ) -> Collapsed
        requires { IsSubtreePointIn (of_key K.bytes) P store.old root self }
        ensures collapsed { ForTree (of_key K.bytes) P store.old root (λ pairs layout.
            (at : LeadsToNode layout self) →
            IsCollapsed (of_key K.bytes) P store.old store.new root at.path at.node result) }
        ensures promise { store.new.promise ≡ store.old.promise }
    {
        let (path, first) = walk_to_end(store, self.node, End::First);
        let Some((parent, byte)) = last_step(path) else {
            return Collapsed {
                root,
                leaf: first,
                count: 1,
            };
        };
        let (_, next) = links_beside(store, self.node, Direction::After);
        store.remove_child(parent, byte);
        link(store, Some(first), next);
        let new_root = replace_at(store, self.path, root, first.to_opaque());
        let others = free_nodes(store, self.node, true);
        Collapsed {
            root: new_root,
            leaf: first,
            count: others + 1,
        }
    }
}
