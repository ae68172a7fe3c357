//! A new inner node above an existing node and a new leaf.
ghost use Rattle.std.specs.Prelude.{◌≡◌, ℕ, ◌+◌, drop, List, IsSome, IsTrue, IfOk, Some};
ghost use Rattle.std.specs.FinMap as map;
ghost use Rattle.art_parts.specs.Headers.{header_of};
ghost use Rattle.art_nodes.specs.Nodes.{covers, take_inner, take_leaf};
ghost use Rattle.art_parts.specs.declared.names.NodeType.TheVariants.{Node4};
ghost use Rattle.art_parts.specs.declared.names.OpaqueNodePtr.{OpaqueNodePtr};
ghost use Rattle.art_model.specs.Pairs.{of_key};
ghost use Rattle.art_model.specs.Places.{depth_of, prefix_of};
ghost use Rattle.art_model.specs.Roots.{IsFullTree};
ghost use Rattle.art_model.specs.Trees.{Tree};
ghost use Rattle.art_model.specs.Writes.{IsThere};
ghost use Rattle.art_writing.specs.Applied.{IsApplied, TakesMemory};
ghost use Rattle.art_writing.specs.Branches.{ForEnd, IsBranch, IsBranchPlaced};
ghost use Rattle.art_writing.specs.Inserted.{IsPointIn, placed_for};
ghost use Rattle.art_writing.specs.ParentWrites.{HasChild, IsBeside};
ghost use Rattle.art_copying.specs.Directions.{side_of};
ghost use Rattle.art_reading.specs.PathSteps.{last_step};
ghost use Rattle.art_reading.specs.declared.end_node.InsertKind.TheVariants as kinds;

use super::{InsertParentNodeChange, InsertPoint, InsertResult, PairRefused};
use crate::writes::{links_beside, place_between, replace_at};
use art_copying::links::Direction;
use art_nodes::node::{
    AsBytes, Header, InnerPtr, LeafPtr, NodeType, OpaqueNodePtr, OptionalLeafPtr,
};
use art_nodes::store::NodeStore;
use art_reading::path::ExplicitMismatch;

// What is read before a node gets a new parent, which it shares with a new leaf.
#[derive(Clone, Copy)]
struct Branch<const P: usize> {
    // The parent's.
    header: Header<P>,
    old_byte: u8,
    new_byte: u8,
    // The neighbours of the new leaf.
    previous: OptionalLeafPtr,
    next: OptionalLeafPtr,
}

// What is read before the tree of a name gets a parent with this prefix, which has it and a new leaf under these bytes.
#[inline(always)]
fn branch_above<K: AsBytes + Drop, V: Drop, const P: usize>(
    store: &NodeStore<K, V, P>,
    name: OpaqueNodePtr,
    part: &[u8],
    old_byte: u8,
    new_byte: u8,
) -> Branch<P>
    requires { (tree : Tree OpaqueNodePtr (K × V)) × IsFullTree store.now name tree }
    ensures header { result.header ≡ header_of P part.now }
    ensures old_byte { result.old_byte ≡ old_byte }
    ensures new_byte { result.new_byte ≡ new_byte }
    ensures beside { (tree : Tree OpaqueNodePtr (K × V)) → IsFullTree store.now name tree →
        IsBeside store.now tree (side_of new_byte old_byte) result.previous result.next }
{
    let (previous, next) = links_beside(store, name, Direction::of(new_byte, old_byte));
    Branch {
        header: Header::new(part, part.len()),
        old_byte,
        new_byte,
        previous,
        next,
    }
}

impl InsertPoint {
    // Reads what splits a leaf.
    #[inline(always)]
    fn branch_at_leaf<K: AsBytes + Drop, V: Drop, const P: usize>(
        self,
        store: &NodeStore<K, V, P>,
        leaf_node_ptr: LeafPtr,
        new_key_bytes_used: usize,
        key_bytes: &[u8],
    ) -> Branch<P>
        requires point { self.insert_kind ≡ kinds.SplitLeaf leaf_node_ptr new_key_bytes_used }
        requires answers { IsPointIn (of_key K.bytes) P store.now key_bytes.now self }
        ensures { ForEnd (of_key K.bytes) P store.now key_bytes.now self (λ path node.
            IsBranch (of_key K.bytes) key_bytes.now path node result) }
    {
        let leaf = store.leaf_at(leaf_node_ptr);
        let part = &key_bytes[self.key_bytes_used..new_key_bytes_used];
        let old_byte = leaf.key.as_bytes()[new_key_bytes_used];
        let new_byte = key_bytes[new_key_bytes_used];
        branch_above(store, leaf_node_ptr.to_opaque(), part, old_byte, new_byte)
    }

    // Reads what splits a prefix.
    #[inline(always)]
    fn branch_at_prefix<K: AsBytes + Drop, V: Drop, const P: usize>(
        self,
        store: &NodeStore<K, V, P>,
        mismatch: ExplicitMismatch,
        inner_node_ptr: InnerPtr,
        key_bytes: &[u8],
    ) -> Branch<P>
        requires point { self.insert_kind ≡ kinds.MismatchPrefix mismatch inner_node_ptr }
        requires answers { IsPointIn (of_key K.bytes) P store.now key_bytes.now self }
        ensures branch { ForEnd (of_key K.bytes) P store.now key_bytes.now self (λ path node.
            IsBranch (of_key K.bytes) key_bytes.now path node result) }
        ensures len { result.header.len ≡ mismatch.matched_bytes }
    {
        let end = self.key_bytes_used + mismatch.matched_bytes;
        let part = &key_bytes[self.key_bytes_used..end];
        let new_byte = key_bytes[end];
        branch_above(
            store,
            inner_node_ptr.to_opaque(),
            part,
            mismatch.prefix_byte,
            new_byte,
        )
    }

    // Reads the header that a split leaves to the old node: the rest of its prefix.
    #[inline(always)]
    fn trimmed_header<K: AsBytes + Drop, V: Drop, const P: usize>(
        self,
        store: &NodeStore<K, V, P>,
        mismatch: ExplicitMismatch,
        inner_node_ptr: InnerPtr,
    ) -> Header<P>
        requires point { self.insert_kind ≡ kinds.MismatchPrefix mismatch inner_node_ptr }
        requires answers { (key : List ℕ) × IsPointIn (of_key K.bytes) P store.now key self }
        ensures header { (key : List ℕ) → ForEnd (of_key K.bytes) P store.now key self (λ path node.
            result ≡ header_of P
            (drop (mismatch.matched_bytes + 1) (prefix_of (of_key K.bytes) (depth_of path) node))) }
        ensures node { IsSome (map.get store.now.inners inner_node_ptr) }
    {
        let node = store.inner_at(inner_node_ptr);
        let mut header = node.header();
        let count = mismatch.matched_bytes + 1;
        let Some(leaf_ptr) = mismatch.leaf_ptr else {
            header.ltrim_by(count);
            return header;
        };
        let leaf = store.leaf_at(leaf_ptr);
        header.ltrim_by_with_leaf(count, self.key_bytes_used, leaf.key.as_bytes());
        header
    }

    // Places the leaf of a pair, and above it and the old node a new one, which replaces the old one.
    #[inline(always)]
    fn place_branch<K: AsBytes + Drop, V: Drop, const P: usize>(
        self,
        store: &mut NodeStore<K, V, P>,
        old: OpaqueNodePtr,
        branch: Branch<P>,
        key: K,
        value: V,
    ) -> InsertResult<K, V>
        requires promised { IsTrue (covers store.old.promise 1 (Some Node4)) }
        requires previous { IsThere store.old.leaves branch.previous }
        requires next { IsThere store.old.leaves branch.next }
        requires parent { HasChild store.old.inners (last_step self.path) }
        ensures placed { IsBranchPlaced store.old store.new self old branch.entry
            (key, value) result }
        ensures promise { store.new.promise ≡ take_inner Node4 (take_leaf store.old.promise) }
    {
        let leaf = place_between(store, key, value, branch.previous, branch.next);
        let parent = store.place_two(
            branch.header,
            branch.old_byte,
            old,
            branch.new_byte,
            leaf.to_opaque(),
        );
        let new_root = replace_at(store, self.path, self.root, parent.to_opaque());
        InsertResult {
            leaf_node_ptr: leaf,
            existing_leaf: None,
            new_root,
            parent_node_change: InsertParentNodeChange::NewParent {
                new_parent_node: parent,
                leaf_node_key_byte: branch.new_byte,
            },
        }
    }

    /// Splits a leaf: it and a leaf of the new pair become the children of a new node.
    #[inline(always)]
    pub(super) fn split_leaf<K: AsBytes + Drop, V: Drop, const P: usize>(
        self,
        store: &mut NodeStore<K, V, P>,
        leaf_node_ptr: LeafPtr,
        new_key_bytes_used: usize,
        key: K,
        value: V,
    ) -> Result<InsertResult<K, V>, PairRefused<K, V>>
        requires point { self.insert_kind ≡ kinds.SplitLeaf leaf_node_ptr new_key_bytes_used }
        requires answers { IsPointIn (of_key K.bytes) P store.old (K.bytes key) self }
        ensures applied { IfOk result
            (IsApplied (of_key K.bytes) P store.old store.new self (key, value)) }
        ensures memory { TakesMemory store.old store.new
            (placed_for store.old self.insert_kind) (key, value) result }
    {
        let branch = self.branch_at_leaf(store, leaf_node_ptr, new_key_bytes_used, key.as_bytes());
        if store.reserve(1, Some(NodeType::Node4)).is_err() {
            return Err(PairRefused { key, value });
        }
        let old = leaf_node_ptr.to_opaque();
        Ok(self.place_branch(store, old, branch, key, value))
    }

    /// Splits a prefix: the node and a leaf of the new pair become the children of a new node.
    #[inline(always)]
    pub(super) fn split_prefix<K: AsBytes + Drop, V: Drop, const P: usize>(
        self,
        store: &mut NodeStore<K, V, P>,
        mismatch: ExplicitMismatch,
        inner_node_ptr: InnerPtr,
        key: K,
        value: V,
    ) -> Result<InsertResult<K, V>, PairRefused<K, V>>
        requires point { self.insert_kind ≡ kinds.MismatchPrefix mismatch inner_node_ptr }
        requires answers { IsPointIn (of_key K.bytes) P store.old (K.bytes key) self }
        ensures applied { IfOk result
            (IsApplied (of_key K.bytes) P store.old store.new self (key, value)) }
        ensures memory { TakesMemory store.old store.new
            (placed_for store.old self.insert_kind) (key, value) result }
    {
        let branch = self.branch_at_prefix(store, mismatch, inner_node_ptr, key.as_bytes());
        let header = self.trimmed_header(store, mismatch, inner_node_ptr);
        if store.reserve(1, Some(NodeType::Node4)).is_err() {
            return Err(PairRefused { key, value });
        }
        store.set_header(inner_node_ptr, header);
        let old = inner_node_ptr.to_opaque();
        Ok(self.place_branch(store, old, branch, key, value))
    }
}
