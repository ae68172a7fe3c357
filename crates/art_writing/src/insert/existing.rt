//! A new leaf below an existing node.
ghost use Rattle.std.specs.Prelude.{◌≡◌, get_or, IfOk};
ghost use Rattle.art_model.specs.Pairs.{of_key};
ghost use Rattle.art_writing.specs.Applied.{IsApplied, TakesMemory};
ghost use Rattle.art_writing.specs.Inserted.{IsPointIn, placed_for};
ghost use Rattle.art_reading.specs.declared.end_node.InsertKind.TheVariants as kinds;

use super::{InsertParentNodeChange, InsertPoint, InsertResult, PairRefused};
use crate::writes::{links_beside, place_between, replace_at};
use art_copying::links::Direction;
use art_nodes::node::{
    AsBytes, InnerPtr, InnerRef, LeafPtr, NodeType, OpaqueNodePtr, OptionalLeafPtr,
};
use art_nodes::store::NodeStore;
use art_reading::path::TreePath;

impl InsertPoint {
    /// Adds a leaf of a pair below an inner node, which is replaced by a larger one if it is full.
    #[inline(always)]
    pub(super) fn add_child<K: AsBytes + Drop, V: Drop, const P: usize>(
        self,
        store: &mut NodeStore<K, V, P>,
        inner_node_ptr: InnerPtr,
        key: K,
        value: V,
    ) -> Result<InsertResult<K, V>, PairRefused<K, V>>
        requires point { self.insert_kind ≡ kinds.IntoExisting inner_node_ptr }
        requires answers { IsPointIn (of_key K.bytes) P store.old (K.bytes key) self }
        ensures applied { IfOk result
            (IsApplied (of_key K.bytes) P store.old store.new self (key, value)) }
        ensures memory { TakesMemory store.old store.new
            (placed_for store.old self.insert_kind) (key, value) result }
    {
        let links = self.links_of_child(store, inner_node_ptr, key.as_bytes());
        self.add_child_between(store, inner_node_ptr, links, key, value)
    }

    /// Does what `apply` does at an inner node that gets a further child, for a caller who knows the neighbours of the
    /// new leaf: it reads no other leaf, and descends nowhere.
    #[inline(always)]
    pub fn add_child_between<K: AsBytes + Drop, V: Drop, const P: usize>(
        self,
        store: &mut NodeStore<K, V, P>,
        inner_node_ptr: InnerPtr,
        links: (OptionalLeafPtr, OptionalLeafPtr),
        key: K,
        value: V,
    ) -> Result<InsertResult<K, V>, PairRefused<K, V>>
        requires point { self.insert_kind ≡ kinds.IntoExisting inner_node_ptr }
        requires answers { IsPointIn (of_key K.bytes) P store.old (K.bytes key) self }
        requires beside { (left : Subtrees OpaqueNodePtr (K × V)) →
            (right : Subtrees OpaqueNodePtr (K × V)) →
            HasGap store.old inner_node_ptr (get_or (K.bytes key) self.key_bytes_used 0) left right →
            ComesBetween store.old left right links.0 links.1 }
        requires few { IfSome (map.get store.old.inners inner_node_ptr) (λ node.
            length node.children < 256) }
        ensures applied { IfOk result
            (IsApplied (of_key K.bytes) P store.old store.new self (key, value)) }
        ensures memory { TakesMemory store.old store.new
            (placed_for store.old self.insert_kind) (key, value) result }
    {
        let key_bytes = key.as_bytes();
        let byte = key_bytes[self.key_bytes_used];
        let larger = larger_if_full(store.inner_at(inner_node_ptr));
        if store.reserve(1, larger).is_err() {
            return Err(PairRefused { key, value });
        }
        let (previous, next) = links;
        let leaf_node_ptr = place_between(store, key, value, previous, next);
        let child = leaf_node_ptr.to_opaque();
        if larger.is_some() {
            let (parent, new_root) = put_larger(
                store,
                self.path,
                self.root,
                inner_node_ptr,
                byte,
                child,
            );
            return Ok(new_child(leaf_node_ptr, parent, byte, new_root));
        }
        store.write_child(inner_node_ptr, byte, child);
        Ok(new_child(leaf_node_ptr, inner_node_ptr, byte, self.root))
    }

    // The neighbours of a new leaf below a node.
    #[inline(always)]
    fn links_of_child<K: AsBytes + Drop, V: Drop, const P: usize>(
        self,
        store: &NodeStore<K, V, P>,
        name: InnerPtr,
        key_bytes: &[u8],
    ) -> (OptionalLeafPtr, OptionalLeafPtr)
        requires point { self.insert_kind ≡ kinds.IntoExisting name }
        requires answers { IsPointIn (of_key K.bytes) P store.now key_bytes.now self }
        ensures beside { (left : Subtrees OpaqueNodePtr (K × V)) →
            (right : Subtrees OpaqueNodePtr (K × V)) →
            HasGap store.now name (get_or key_bytes.now self.key_bytes_used 0) left right →
            ComesBetween store.now left right result.0 result.1 }
        ensures few { IfSome (map.get store.now.inners name) (λ node.
            length node.children < 256) }
    {
        let node = store.inner_at(name);
        let byte = key_bytes[self.key_bytes_used];
        let (other, child) = node.beside(byte);
        links_beside(store, child, Direction::of(byte, other))
    }
}

ghost use Rattle.std.specs.Prelude.{◌≢◌, ◌<◌, IsSomeAnd, IsTrue, IfSome, None, length, nat_le, if◌then◌else◌};
ghost use Rattle.std.specs.FinMap as map;
ghost use Rattle.art_inner.specs.InnerChanges.{with_child};
ghost use Rattle.art_inner.specs.Inner.{HasPlace};
ghost use Rattle.art_inner.specs.Views.{ref_kind, ref_view};
ghost use Rattle.art_parts.specs.Kinds.{kind_capacity, larger_kind, next_larger};
ghost use Rattle.art_parts.specs.Names.{inner_name};
ghost use Rattle.art_nodes.specs.Nodes.{promises, take_inner};
ghost use Rattle.art_parts.specs.declared.names.NodeType.TheVariants.{Node256};
ghost use Rattle.art_parts.specs.declared.names.OpaqueNodePtr.{OpaqueNodePtr};
ghost use Rattle.art_model.specs.Trees.{Subtrees};
ghost use Rattle.art_model.specs.Writes.{with_child_at};
ghost use Rattle.art_writing.specs.declared.insert.InsertParentNodeChange.TheVariants.{NewParent};
ghost use Rattle.art_writing.specs.ParentWrites.{ComesBetween, HasChild, HasGap};
ghost use Rattle.art_reading.specs.PathSteps.{last_step, root_with};

// The result of an insertion that added a leaf below a node.
#[inline(always)]
fn new_child<K, V>(
    leaf_node_ptr: LeafPtr,
    parent: InnerPtr,
    byte: u8,
    new_root: OpaqueNodePtr,
) -> InsertResult<K, V>
    ensures { result ≡ record {
      leaf_node_ptr = leaf_node_ptr;
      existing_leaf = None;
      new_root = new_root;
      parent_node_change = NewParent parent byte;
    } }
{
    InsertResult {
        leaf_node_ptr,
        existing_leaf: None,
        new_root,
        parent_node_change: InsertParentNodeChange::NewParent {
            new_parent_node: parent,
            leaf_node_key_byte: byte,
        },
    }
}

// The kind of the node that replaces this one when it gets a further child, if it is full.
#[inline(always)]
fn larger_if_full<const P: usize>(node: InnerRef<'_, P>) -> Option<NodeType>
    ensures { result ≡
        (if nat_le (kind_capacity (ref_kind node.entry)) (length (ref_view node.entry).children)
        then next_larger (ref_kind node.entry) else None) }
{
    if node.is_full() {
        node.node_type().larger()
    } else {
        None
    }
}

// Replaces the node at the end of a path by a larger one with a further child, and returns its name and the root.
#[inline(always)]
fn put_larger<K: AsBytes + Drop, V: Drop, const P: usize>(
    store: &mut NodeStore<K, V, P>,
    path: TreePath,
    root: OpaqueNodePtr,
    name: InnerPtr,
    byte: u8,
    child: OpaqueNodePtr,
) -> (InnerPtr, OpaqueNodePtr)
    requires kind { name.kind ≢ Node256 }
    requires place { IsSomeAnd (map.get store.old.inners name) (λ node.
        HasPlace (kind_capacity (larger_kind name.kind)) node.children byte) }
    requires promised { IsTrue (promises store.old.promise.inner (larger_kind name.kind)) }
    requires parent { HasChild (map.remove store.old.inners name) (last_step path) }
    ensures fresh { map.get store.old.inners result.0 ≡ None }
    ensures kind { result.0.kind ≡ larger_kind name.kind }
    ensures inners { IsSomeAnd (map.get store.old.inners name) (λ node.
        store.new.inners ≡ with_child_at (last_step path) (inner_name result.0)
        (map.insert (map.remove store.old.inners name) result.0 (with_child byte child node))) }
    ensures leaves { store.new.leaves ≡ store.old.leaves }
    ensures promise { store.new.promise ≡ take_inner (larger_kind name.kind) store.old.promise }
    ensures root { result.1 ≡ root_with path root (inner_name result.0) }
{
    let larger = store.put_larger(name, byte, child);
    (larger, replace_at(store, path, root, larger.to_opaque()))
}
