//! Cloning a map.
ghost use Rattle.std.specs.Prelude.{◌≡◌, ◌+◌, ◌<◌, IfOk, None, Some};
ghost use Rattle.std.specs.FinMap as map;
ghost use Rattle.art_parts.specs.Keys.{KeepBytes};
ghost use Rattle.art_model.specs.Pairs.{of_key};
ghost use Rattle.art_map.specs.MapChanges.{HoldsClones};
ghost use Rattle.art_changing.specs.MapPairs.{HoldsPairs, pairs_at};

use super::ByteMap;
use art_copying::clone::clone_unchecked;
use art_nodes::node::{AsBytes, OpaqueNodePtr};
use art_nodes::store::NodeStore;
use std::alloc::AllocError;

impl<K: AsBytes + Clone + Drop, V: Clone + Drop, const P: usize> ByteMap<K, V, P> {
    ghost use Rattle.art_parts.specs.Keys.{KeepBytes};
    ghost use Rattle.art_model.specs.Clones.{AreClones};

    /// Returns a map with clones of all pairs, in a store of its own. It fails only if an allocation fails, such as
    /// that of a node or of the clone of a key or a value.
    ///
    /// It copies slot by slot. If more than half of the slots for leaves are vacant, it copies node by node down the
    /// tree.
    pub fn clone(&self) -> Result<Self, AllocError>
        requires { KeepBytes K.bytes K.is_clone }
        ensures { IfOk result (AreClones K.is_clone V.is_clone self.now) }
    {
        let Some(store) = self.store.clone_nodes()? else {
            return self.clone_tree();
        };
        Ok(ByteMap {
            store,
            root: self.root,
            len: self.len,
        })
    }

    // The same, node by node down the tree, with slots for these nodes alone.
    fn clone_tree(&self) -> Result<Self, AllocError>
        requires { KeepBytes K.bytes K.is_clone }
        ensures { IfOk result (AreClones K.is_clone V.is_clone self.now) }
    {
        let Some(root) = self.root else {
            return Ok(ByteMap {
                store: NodeStore::new(self.store.alloc()),
                root: None,
                len: 0,
            });
        };
        let mut store = NodeStore::with_room_of(&self.store)?;
        let root = copy_tree(&self.store, root, self.len, &mut store)?;
        Ok(ByteMap {
            store,
            root: Some(root),
            len: self.len,
        })
    }
}

// Copies the tree into an empty store, and returns the root of the copy.
fn copy_tree<K: AsBytes + Clone + Drop, V: Clone + Drop, const P: usize>(
    store: &NodeStore<K, V, P>,
    root: OpaqueNodePtr,
    len: usize,
    into: &mut NodeStore<K, V, P>,
) -> Result<OpaqueNodePtr, AllocError>
    requires holds { HoldsPairs (of_key K.bytes) P store.now (Some root) len
        (pairs_at store.now (Some root)) }
    requires no_leaves { into.old.leaves ≡ map.empty }
    requires no_inners { into.old.inners ≡ map.empty }
    requires clones { KeepBytes K.bytes K.is_clone }
    ensures { IfOk result (λ copy.
        HoldsClones K.bytes P (pairs_at store.now (Some root)) K.is_clone V.is_clone
        into.new (Some copy) len) }
{
    let copy = clone_unchecked(store, root, into)?;
    Ok(copy.root)
}
