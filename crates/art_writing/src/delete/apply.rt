//! Delete points, applied.
ghost use Rattle.std.specs.Prelude.{◌≡◌, nat_lt, length, Some, IsOk, IsSome, IfOk, IfErr, OnErr};
ghost use Rattle.std.specs.FinMap as map;
ghost use Rattle.art_nodes.specs.Nodes.{no_promise};
ghost use Rattle.art_model.specs.Pairs.{of_key};
ghost use Rattle.art_writing.specs.Deleted.{IsDeletePointIn, parent_change, shrinks};
ghost use Rattle.art_reading.specs.PathSteps.{last_step};
ghost use Rattle.art_inner.specs.Views.{ref_kind, ref_view};
ghost use Rattle.art_parts.specs.Kinds.{kind_least, next_smaller};
ghost use Rattle.art_writing.specs.TakenOut.{IsLeafTaken, IsLetGo, IsTakenOut};
ghost use Rattle.art_writing.specs.ParentWrites.{LinksAreThere};

use super::{DeletePoint, DeleteRefused, DeleteResult};
use crate::writes::{replace_at, take_from_between};
use art_nodes::node::{AsBytes, InnerPtr, InnerRef, NodeType, OpaqueNodePtr};
use art_nodes::store::NodeStore;
use art_reading::path::{last_step, up};

impl DeletePoint {
    /// Removes the leaf of the point from the tree. Returns it, and the root of the rest, if any.
    ///
    /// It never fails and allocates nothing: a parent of 5, 17 or 49 children is replaced by a smaller node, for which
    /// the store keeps a slot. It makes a constant number of writes.
    #[inline(always)]
    pub fn apply<K: AsBytes + Drop, V: Drop, const P: usize>(
        self,
        store: &mut NodeStore<K, V, P>,
        root: OpaqueNodePtr,
    ) -> Result<DeleteResult<K, V>, DeleteRefused>
        requires { IsDeletePointIn (of_key K.bytes) P store.old root self }
        ensures applied { IfOk result
            (IsTakenOut (of_key K.bytes) P store.old store.new root self) }
        ensures succeeds { IsOk result }
        ensures handed_back { IfErr result (λ refused. refused.point ≡ self) }
        ensures leaves { OnErr result (store.new.leaves ≡ store.old.leaves) }
        ensures inners { OnErr result (store.new.inners ≡ store.old.inners) }
        ensures void { OnErr result (store.new.promise ≡ no_promise) }
    {
        Ok(self.take_out(store, root))
    }

    // The same, with all that it ensures as one definition.
    #[inline(always)]
    pub(super) fn take_out<K: AsBytes + Drop, V: Drop, const P: usize>(
        self,
        store: &mut NodeStore<K, V, P>,
        root: OpaqueNodePtr,
    ) -> DeleteResult<K, V>
        requires { IsDeletePointIn (of_key K.bytes) P store.old root self }
        ensures { IsTakenOut (of_key K.bytes) P store.old store.new root self result }
    {
        let new_root = match last_step(self.path) {
            None => None,
            Some((parent, byte)) => {
                let name = self.take_from_parent(store, root, parent, byte);
                // Rebuilt from its parts: padding between them is not copied.
                Some(OpaqueNodePtr {
                    kind: name.kind,
                    slot: name.slot,
                })
            }
        };
        self.take_leaf(store, new_root)
    }

    // Removes the leaf from its parent, which keeps its kind, shrinks or is removed too. Returns the root that is left.
    #[inline(always)]
    fn take_from_parent<K: AsBytes + Drop, V: Drop, const P: usize>(
        self,
        store: &mut NodeStore<K, V, P>,
        root: OpaqueNodePtr,
        parent: InnerPtr,
        byte: u8,
    ) -> OpaqueNodePtr
        requires parent { last_step self.path ≡ Some (parent, byte) }
        requires answers { IsDeletePointIn (of_key K.bytes) P store.old root self }
        ensures { IsLetGo (of_key K.bytes) P store.old store.new root self (Some result) }
    {
        let node = store.inner_at(parent);
        let kind = node.node_type();
        if has_spare_child(node) {
            store.remove_child(parent, byte);
            return root;
        }
        match kind.smaller() {
            Some(smaller) => self.shrink_parent(store, root, parent, byte, smaller),
            None => self.compress_parent(store, root, parent, byte),
        }
    }

    // A node of the next smaller kind, without the leaf, replaces the parent.
    #[inline(always)]
    fn shrink_parent<K: AsBytes + Drop, V: Drop, const P: usize>(
        self,
        store: &mut NodeStore<K, V, P>,
        root: OpaqueNodePtr,
        parent: InnerPtr,
        byte: u8,
        smaller: NodeType,
    ) -> OpaqueNodePtr
        requires parent { last_step self.path ≡ Some (parent, byte) }
        requires smaller { next_smaller parent.kind ≡ Some smaller }
        requires shrinks { parent_change store.old self.path ≡ shrinks smaller }
        requires answers { IsDeletePointIn (of_key K.bytes) P store.old root self }
        ensures { IsLetGo (of_key K.bytes) P store.old store.new root self (Some result) }
    {
        let node = store.put_smaller(parent, byte);
        replace_at(store, up(self.path), root, node.to_opaque())
    }

    // Removes the leaf alone, once it is no longer a child of its parent.
    #[inline(always)]
    fn take_leaf<K: AsBytes + Drop, V: Drop, const P: usize>(
        self,
        store: &mut NodeStore<K, V, P>,
        new_root: Option<OpaqueNodePtr>,
    ) -> DeleteResult<K, V>
        requires leaf { IsSome (map.get store.old.leaves self.leaf_node_ptr) }
        requires beside { LinksAreThere store.old.leaves self.leaf_node_ptr }
        ensures { IsLeafTaken store.old store.new self new_root result }
    {
        DeleteResult {
            new_root,
            deleted_leaf: take_from_between(store, self.leaf_node_ptr),
        }
    }
}

/// Returns whether a node has more children than its kind's minimum.
#[inline(always)]
pub(super) fn has_spare_child<const P: usize>(node: InnerRef<'_, P>) -> bool
    ensures { result ≡
        nat_lt (kind_least (ref_kind node.entry)) (length (ref_view node.entry).children) }
{
    let kind = node.node_type();
    node.num_children() > *kind.capacity_range().start()
}
