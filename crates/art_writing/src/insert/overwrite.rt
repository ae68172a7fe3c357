//! A leaf replaces an inner node with its subtree.
ghost use Rattle.std.specs.Prelude.{◌≢◌, ℕ, List, IfOk, Option};
ghost use Rattle.art_parts.specs.declared.names.LeafPtr.{LeafPtr};
ghost use Rattle.art_parts.specs.declared.names.OpaqueNodePtr.{OpaqueNodePtr};
ghost use Rattle.art_parts.specs.declared.names.NodeType.TheVariants.{Leaf};
ghost use Rattle.art_model.specs.Pairs.{of_key};
ghost use Rattle.art_model.specs.Roots.{IsFullTree};
ghost use Rattle.art_model.specs.Trees.{Tree};
ghost use Rattle.art_writing.specs.Applied.{IsPrefixApplied, TakesMemory};
ghost use Rattle.art_writing.specs.ParentWrites.{IsBeside};
ghost use Rattle.art_copying.specs.declared.links.Direction.TheVariants.{Before, After};
ghost use Rattle.art_writing.specs.Overwritten.{IsOverwritePointIn, placed_for_overwrite};
ghost use Rattle.art_writing.specs.declared.insert.PrefixInsertPoint.TheVariants as points;

use super::{
    InsertParentNodeChange, InsertResult, OverwritePoint, PairRefused, PrefixInsertResult,
};
use crate::writes::{links_beside, place_between, replace_at};
use art_copying::deallocate::deallocate_tree;
use art_copying::links::Direction;
use art_nodes::node::{AsBytes, OptionalLeafPtr};
use art_nodes::store::NodeStore;

impl OverwritePoint {
    /// Replaces an inner node by a leaf, and frees its subtree.
    #[inline(always)]
    pub(super) fn overwrite_subtree<K: AsBytes + Drop, V: Drop, const P: usize>(
        self,
        store: &mut NodeStore<K, V, P>,
        key: K,
        value: V,
    ) -> Result<PrefixInsertResult<K, V>, PairRefused<K, V>>
        requires inner { self.overwrite_point.kind ≢ Leaf }
        requires answers { IsOverwritePointIn (of_key K.bytes) P store.old (K.bytes key) self }
        ensures applied { IfOk result (IsPrefixApplied (of_key K.bytes) P store.old store.new
            (points.OverwritePoint self) (key, value)) }
        ensures memory { TakesMemory store.old store.new
            (placed_for_overwrite self.overwrite_point.kind) (key, value) result }
    {
        let (previous, next) = self.links_around(store);
        if store.reserve(1, None).is_err() {
            return Err(PairRefused { key, value });
        }
        let leaf_node_ptr = place_between(store, key, value, previous, next);
        let new_root = replace_at(store, self.path, self.root, leaf_node_ptr.to_opaque());
        let leafs_removed = deallocate_tree(self.overwrite_point, store);
        Ok(PrefixInsertResult {
            insert_result: InsertResult {
                leaf_node_ptr,
                existing_leaf: None,
                new_root,
                parent_node_change: InsertParentNodeChange::NoChange,
            },
            leafs_removed,
        })
    }

    // The neighbours of the leaves below an inner node.
    #[inline(always)]
    fn links_around<K: AsBytes + Drop, V: Drop, const P: usize>(
        self,
        store: &NodeStore<K, V, P>,
    ) -> (OptionalLeafPtr, OptionalLeafPtr)
        requires inner { self.overwrite_point.kind ≢ Leaf }
        requires answers { (key : List ℕ) ×
            IsOverwritePointIn (of_key K.bytes) P store.now key self }
        ensures previous { (tree : Tree OpaqueNodePtr (K × V)) →
            IsFullTree store.now self.overwrite_point tree →
            (first : Option LeafPtr) × IsBeside store.now tree Before result.0 first }
        ensures next { (tree : Tree OpaqueNodePtr (K × V)) →
            IsFullTree store.now self.overwrite_point tree →
            (last : Option LeafPtr) × IsBeside store.now tree After last result.1 }
    {
        let (previous, _) = links_beside(store, self.overwrite_point, Direction::Before);
        let (_, next) = links_beside(store, self.overwrite_point, Direction::After);
        (previous, next)
    }
}
