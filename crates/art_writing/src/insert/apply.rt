//! Applies points of insertion.
ghost use Rattle.std.specs.Prelude.{IfOk};
ghost use Rattle.art_model.specs.Pairs.{of_key};
ghost use Rattle.art_writing.specs.Applied.{IsApplied, IsPrefixApplied, TakesMemory};
ghost use Rattle.art_writing.specs.Inserted.{IsPointIn, placed_for};
ghost use Rattle.art_writing.specs.Overwritten.{IsOverwritePointIn, IsPrefixPointIn, placed_for_overwrite, placed_for_prefix};
ghost use Rattle.art_writing.specs.declared.insert.PrefixInsertPoint.TheVariants as points;

use super::{
    InsertKind, InsertParentNodeChange, InsertPoint, InsertResult, OverwritePoint, PairRefused,
    PrefixInsertPoint, PrefixInsertResult,
};
use art_nodes::node::{AsBytes, LeafNode, NodePtr};
use art_nodes::store::NodeStore;

impl InsertPoint {
    /// Inserts a pair at the point of its key. An equal stored key stays and gets the value; the result then has the
    /// key that was passed and the old value.
    ///
    /// Returns the leaf of the key, what was replaced, and the root. Fails only if an allocation fails: then the error
    /// returns key and value, and the nodes are unchanged. All memory is allocated before the first change, and none if
    /// the key is stored. It makes a constant number of writes, and a descent to a neighbouring leaf.
    #[inline(always)]
    pub fn apply<K: AsBytes + Drop, V: Drop, const P: usize>(
        self,
        store: &mut NodeStore<K, V, P>,
        key: K,
        value: V,
    ) -> Result<InsertResult<K, V>, PairRefused<K, V>>
        requires { IsPointIn (of_key K.bytes) P store.old (K.bytes key) self }
        ensures applied { IfOk result
            (IsApplied (of_key K.bytes) P store.old store.new self (key, value)) }
        ensures memory { TakesMemory store.old store.new
            (placed_for store.old self.insert_kind) (key, value) result }
    {
        match self.insert_kind {
            InsertKind::Exact { leaf_node_ptr } => {
                let old = store.swap_value(leaf_node_ptr, value);
                Ok(InsertResult {
                    leaf_node_ptr,
                    existing_leaf: Some(LeafNode::with_no_siblings(key, old)),
                    new_root: self.root,
                    parent_node_change: InsertParentNodeChange::NoChange,
                })
            }
            InsertKind::SplitLeaf {
                leaf_node_ptr,
                new_key_bytes_used,
            } => self.split_leaf(store, leaf_node_ptr, new_key_bytes_used, key, value),
            InsertKind::MismatchPrefix {
                mismatch,
                mismatched_inner_node_ptr,
            } => self.split_prefix(store, mismatch, mismatched_inner_node_ptr, key, value),
            InsertKind::IntoExisting { inner_node_ptr } => {
                self.add_child(store, inner_node_ptr, key, value)
            }
        }
    }
}

impl PrefixInsertPoint {
    /// Inserts a pair at the point of its key, and removes all pairs with related keys. But an equal stored key stays
    /// and gets the value; the result then has the key that was passed and the old value.
    ///
    /// It returns what `apply` of an `InsertPoint` does and how many leaves were freed, and fails as that does. All
    /// memory is allocated before the first change, and none if the pair replaces exactly one other.
    #[inline(always)]
    pub fn apply<K: AsBytes + Drop, V: Drop, const P: usize>(
        self,
        store: &mut NodeStore<K, V, P>,
        key: K,
        value: V,
    ) -> Result<PrefixInsertResult<K, V>, PairRefused<K, V>>
        requires { IsPrefixPointIn (of_key K.bytes) P store.old (K.bytes key) self }
        ensures applied { IfOk result
            (IsPrefixApplied (of_key K.bytes) P store.old store.new self (key, value)) }
        ensures memory { TakesMemory store.old store.new
            (placed_for_prefix store.old self) (key, value) result }
    {
        let point = match self {
            PrefixInsertPoint::OverwritePoint(point) => return point.apply(store, key, value),
            PrefixInsertPoint::InsertPoint(point) => point,
        };
        match point.apply(store, key, value) {
            Ok(insert_result) => Ok(PrefixInsertResult {
                insert_result,
                leafs_removed: 0,
            }),
            Err(refused) => Err(refused),
        }
    }
}

impl OverwritePoint {
    /// Inserts a pair and removes all pairs with related keys: a leaf keeps its name and gets the pair, and an inner
    /// node is replaced by a new leaf, together with its subtree.
    ///
    /// It returns what `apply` of an `InsertPoint` does and how many leaves were freed, and fails as that does. All
    /// memory is allocated before the first change, and none if the end node is a leaf.
    #[inline(always)]
    pub fn apply<K: AsBytes + Drop, V: Drop, const P: usize>(
        self,
        store: &mut NodeStore<K, V, P>,
        key: K,
        value: V,
    ) -> Result<PrefixInsertResult<K, V>, PairRefused<K, V>>
        requires { IsOverwritePointIn (of_key K.bytes) P store.old (K.bytes key) self }
        ensures applied { IfOk result (IsPrefixApplied (of_key K.bytes) P store.old store.new
            (points.OverwritePoint self) (key, value)) }
        ensures memory { TakesMemory store.old store.new
            (placed_for_overwrite self.overwrite_point.kind) (key, value) result }
    {
        match self.overwrite_point.split() {
            NodePtr::Leaf(leaf_node_ptr) => {
                let (key, value) = store.swap_pair(leaf_node_ptr, key, value);
                Ok(PrefixInsertResult {
                    insert_result: InsertResult {
                        leaf_node_ptr,
                        existing_leaf: Some(LeafNode::with_no_siblings(key, value)),
                        new_root: self.root,
                        parent_node_change: InsertParentNodeChange::NoChange,
                    },
                    leafs_removed: 0,
                })
            }
            NodePtr::Inner(_) => self.overwrite_subtree(store, key, value),
        }
    }
}
