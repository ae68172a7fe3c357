//! Cloning a tree into another store.
ghost use Rattle.std.specs.Prelude.{◌≡◌, ◌≢◌, List, [], Some, None, IsSome, IsSomeAnd, IfOk, IfSome, OnOk, OnErr};
ghost use Rattle.std.specs.FinMap as map;
ghost use Rattle.std.specs.Option.{option_map, option_or};
ghost use Rattle.art_inner.specs.InnerChanges.{with_child};
ghost use Rattle.art_parts.specs.LeafClones.{IsPairClone};
ghost use Rattle.art_inner.specs.Inner.{HasPlace, childless};
ghost use Rattle.art_inner.specs.Views.{ref_kind, ref_view};
ghost use Rattle.art_parts.specs.Kinds.{kind_capacity};
ghost use Rattle.art_parts.specs.Names.{inner_name, leaf_name};
ghost use Rattle.art_nodes.specs.Nodes.{change, take_inner};
ghost use Rattle.art_parts.specs.declared.names.NodeType.TheVariants.{Leaf};
ghost use Rattle.art_parts.specs.declared.names.OpaqueNodePtr.{OpaqueNodePtr};
ghost use Rattle.art_model.specs.Apart.{KeepsApart};
ghost use Rattle.art_model.specs.Canonical.{IsCanonical};
ghost use Rattle.art_parts.specs.Keys.{KeepBytes};
ghost use Rattle.art_model.specs.Clones.{AreClones};
ghost use Rattle.art_model.specs.Kept.{KeepsOthers};
ghost use Rattle.art_model.specs.Layouts.{names_of};
ghost use Rattle.art_model.specs.Lookups.{HasFirstLeaf, HasLastLeaf};
ghost use Rattle.art_model.specs.Pairs.{of_key};
ghost use Rattle.art_model.specs.Promises.{IsLessened, tree_taken};
ghost use Rattle.art_model.specs.Roots.{ForTree, IsCanonicalRoot, IsFullTree};
ghost use Rattle.art_model.specs.Trees.{Tree};
ghost use Rattle.art_model.specs.Writes.{IsThere, with_links_around};
ghost use Rattle.art_copying.specs.Cloned.{IsBegun, IsCloned};

use crate::deallocate::free_nodes;
use crate::links::link;
use art_nodes::node::{
    AsBytes, Children, FromHeader, InnerNode, InnerPtr, InnerRef, LeafPtr, NodePtr, OpaqueNodePtr,
};
use art_nodes::store::NodeStore;
use std::alloc::AllocError;

/// The root of a clone, and its first and its last leaf.
#[derive(Debug, Drop)]
pub struct CloneResult {
    pub root: OpaqueNodePtr,
    pub min_leaf: LeafPtr,
    pub max_leaf: LeafPtr,
}

// The first and the last one of some leaves.
#[derive(Clone, Copy)]
struct LeafEnds {
    first: LeafPtr,
    last: LeafPtr,
}

/// Clones the tree of a canonical root into another store, pair by pair. The source is unchanged.
///
/// Fails if an allocation fails: that of a node, of the clone of a key or a value, or of the list of the nodes above.
/// What was placed is freed then, and the other store has the nodes that it had.
pub fn clone_unchecked<K: AsBytes + Clone + Drop, V: Clone + Drop, const P: usize>(
    store: &NodeStore<K, V, P>,
    root: OpaqueNodePtr,
    into: &mut NodeStore<K, V, P>,
) -> Result<CloneResult, AllocError>
    requires root { IsCanonicalRoot (of_key K.bytes) P store.now root }
    requires clones { KeepBytes K.bytes K.is_clone }
    ensures canonical { ForTree (of_key K.bytes) P store.now root (λ pairs _.
        IfOk result (λ done. (copies : List (K × V)) ×
        AreClones K.is_clone V.is_clone pairs copies ×
        IsCanonical (of_key K.bytes) P into.new (Some done.root) copies)) }
    ensures gained { IfOk result (λ done.
        ForTree (of_key K.bytes) P into.new done.root (λ _ copy.
        KeepsOthers into.old into.new [] (names_of copy))) }
    ensures apart { IfOk result (λ done. KeepsApart (of_key K.bytes) P
        into.old into.new None (Some done.root)) }
    ensures first { IfOk result (λ done.
        ForTree (of_key K.bytes) P into.new done.root (λ _ copy.
        HasFirstLeaf copy (leaf_name done.min_leaf))) }
    ensures last { IfOk result (λ done.
        ForTree (of_key K.bytes) P into.new done.root (λ _ copy.
        HasLastLeaf copy (leaf_name done.max_leaf))) }
    ensures promise { ForTree (of_key K.bytes) P store.now root (λ _ layout.
        OnOk result (into.new.promise ≡ tree_taken layout into.old.promise)) }

    ensures leaves { OnErr result (into.new.leaves ≡ into.old.leaves) }
    ensures inners { OnErr result (into.new.inners ≡ into.old.inners) }
    ensures lessened { OnErr result (IsLessened into.old.promise into.new.promise) }
{
    clone_tree(store, root, into)
}

// An inner node while a child of it is copied: that child's byte, the children after it, and the ends of the leaves so
// far.
#[derive(Drop)]
struct Above<'a> {
    copy: InnerPtr,
    byte: u8,
    children: Children<'a>,
    ends: Option<LeafEnds>,
}

// Clones the tree that a name stands for.
fn clone_tree<K: AsBytes + Clone + Drop, V: Clone + Drop, const P: usize>(
    store: &NodeStore<K, V, P>,
    root: OpaqueNodePtr,
    into: &mut NodeStore<K, V, P>,
) -> Result<CloneResult, AllocError>
    requires { (tree : Tree OpaqueNodePtr (K × V)) × IsFullTree store.now root tree }
    ensures { IsCloned (IsPairClone K.is_clone V.is_clone) store.now root into.old into.new result }
{
    match root.split() {
        NodePtr::Leaf(name) => clone_leaf(store, name, into),
        NodePtr::Inner(name) => clone_inner(store, name, into),
    }
}

// Clones the tree of an inner node. The copies above the current node are in a list; where a clone fails each of them
// is freed with its subtree.
fn clone_inner<K: AsBytes + Clone + Drop, V: Clone + Drop, const P: usize>(
    store: &NodeStore<K, V, P>,
    root: InnerPtr,
    into: &mut NodeStore<K, V, P>,
) -> Result<CloneResult, AllocError>
    requires proper { root.kind ≢ Leaf }
    requires tree { (tree : Tree OpaqueNodePtr (K × V)) ×
        IsFullTree store.now (inner_name root) tree }
    ensures { IsCloned (IsPairClone K.is_clone V.is_clone)
        store.now (inner_name root) into.old into.new result }
{
    let mut above: Vec<Above<'_>> = Vec::new(into.alloc());
    let Ok((mut copy, mut children)) = begin(store, root, into) else {
        return Err(AllocError);
    };
    let mut ends = None;
    'children: loop {
        let Some((byte, child)) = children.next() else {
            let done = clone_of(copy.to_opaque(), ends);
            let Some(outer) = above.pop() else {
                return Ok(done);
            };
            ends = Some(add_copy(into, outer.copy, outer.byte, outer.ends, done));
            copy = outer.copy;
            children = outer.children;
            continue 'children;
        };
        match child.split() {
            NodePtr::Leaf(leaf) => {
                let Ok(done) = clone_leaf(store, leaf, into) else {
                    break 'children;
                };
                ends = Some(add_copy(into, copy, byte, ends, done));
            }
            NodePtr::Inner(inner) => {
                if above.reserve(1).is_err() {
                    break 'children;
                }
                let Ok(begun) = begin(store, inner, into) else {
                    break 'children;
                };
                above.push_reserved(Above {
                    copy,
                    byte,
                    children,
                    ends,
                });
                copy = begun.0;
                children = begun.1;
                ends = None;
            }
        }
    }
    'back: loop {
        free_nodes(into, copy.to_opaque(), true);
        let Some(outer) = above.pop() else {
            return Err(AllocError);
        };
        copy = outer.copy;
    }
}

// Places a copy of an inner node without children, and returns it with the children that are to be copied.
fn begin<'a, K: AsBytes + Clone + Drop, V: Clone + Drop, const P: usize>(
    store: &'a NodeStore<K, V, P>,
    name: InnerPtr,
    into: &mut NodeStore<K, V, P>,
) -> Result<(InnerPtr, Children<'a>), AllocError>
    requires { IsSome (map.get store.now.inners name) }
    ensures begun { IfOk result (λ begun. IfSome (map.get store.now.inners name) (λ node.
        IsBegun into.old into.new name node begun.0 begun.1)) }
    ensures lessened { IsLessened into.old.promise into.new.promise }
    ensures refused { OnErr result (into.new ≡ into.old) }
{
    let node = store.inner_at(name);
    let Ok(copy) = place_like(node, into) else {
        return Err(AllocError);
    };
    Ok((copy, node.iter()))
}

// The names of a clone with this root and these ends.
fn clone_of(root: OpaqueNodePtr, ends: Option<LeafEnds>) -> CloneResult
    requires { IsSome ends }
    ensures root { result.root ≡ root }
    ensures first { option_map (λ ends. ends.first) ends ≡ Some result.min_leaf }
    ensures last { option_map (λ ends. ends.last) ends ≡ Some result.max_leaf }
{
    let ends = ends.unwrap();
    CloneResult {
        root,
        min_leaf: ends.first,
        max_leaf: ends.last,
    }
}

// Places a clone of a leaf, with no siblings.
#[inline(always)]
fn clone_leaf<K: AsBytes + Clone + Drop, V: Clone + Drop, const P: usize>(
    store: &NodeStore<K, V, P>,
    name: LeafPtr,
    into: &mut NodeStore<K, V, P>,
) -> Result<CloneResult, AllocError>
    requires { IsSome (map.get store.now.leaves name) }
    ensures { IsCloned (IsPairClone K.is_clone V.is_clone)
        store.now (leaf_name name) into.old into.new result }
{
    let leaf = store.leaf_at(name);
    let copy = leaf.clone_without_siblings()?;
    let Ok(name) = into.place_leaf(copy) else {
        return Err(AllocError);
    };
    Ok(CloneResult {
        root: name.to_opaque(),
        min_leaf: name,
        max_leaf: name,
    })
}

// Places an inner node of the kind and with the header of another one, without children.
#[inline(always)]
fn place_like<K: AsBytes + Drop, V: Drop, const P: usize>(
    node: InnerRef<'_, P>,
    into: &mut NodeStore<K, V, P>,
) -> Result<InnerPtr, AllocError>
    ensures placed { IfOk result (λ copy. into.new.inners ≡
        map.insert into.old.inners copy (childless (ref_view node.entry).prefix)) }
    ensures kind { IfOk result (λ copy. copy.kind ≡ ref_kind node.entry) }
    ensures fresh { IfOk result (λ copy. map.get into.old.inners copy ≡ None) }
    ensures leaves { into.new.leaves ≡ into.old.leaves }
    ensures promise { OnOk result (into.new.promise ≡
        take_inner (ref_kind node.entry) into.old.promise) }
    ensures lessened { IsLessened into.old.promise into.new.promise }
    ensures refused { OnErr result (into.new ≡ into.old) }
{
    match node {
        InnerRef::Node4(node) => place_one_like(node, into),
        InnerRef::Node16(node) => place_one_like(node, into),
        InnerRef::Node48(node) => place_one_like(node, into),
        InnerRef::Node256(node) => place_one_like(node, into),
    }
}

// The same of one kind. A node is large: it is on the stack only while it is placed, with room for its own kind alone,
// and not in the frame of the loop.
#[inline(never)]
fn place_one_like<N: InnerNode<P>, K: AsBytes + Drop, V: Drop, const P: usize>(
    node: &N,
    into: &mut NodeStore<K, V, P>,
) -> Result<InnerPtr, AllocError>
    ensures placed { IfOk result (λ copy. into.new.inners ≡
        map.insert into.old.inners copy (childless (N.view_of node.now).prefix)) }
    ensures kind { IfOk result (λ copy. copy.kind ≡ N.TYPE) }
    ensures fresh { IfOk result (λ copy. map.get into.old.inners copy ≡ None) }
    ensures leaves { into.new.leaves ≡ into.old.leaves }
    ensures promise { OnOk result (into.new.promise ≡ take_inner N.TYPE into.old.promise) }
    ensures lessened { IsLessened into.old.promise into.new.promise }
    ensures refused { OnErr result (into.new ≡ into.old) }
{
    let copy = N::from_header(node.header());
    let Ok(name) = into.place_inner(copy.into_any()) else {
        return Err(AllocError);
    };
    Ok(name)
}

// Adds a copy under a byte of an inner node, its leaves after the others, and returns the ends of all.
fn add_copy<K: AsBytes + Drop, V: Drop, const P: usize>(
    into: &mut NodeStore<K, V, P>,
    parent: InnerPtr,
    byte: u8,
    ends: Option<LeafEnds>,
    copy: CloneResult,
) -> LeafEnds
    requires last { IsThere into.old.leaves (option_map (λ ends. ends.last) ends) }
    requires first { IsThere into.old.leaves (Some copy.min_leaf) }
    requires place { IsSomeAnd (map.get into.old.inners parent) (λ node.
        HasPlace (kind_capacity parent.kind) node.children byte) }
    ensures first { Some result.first ≡
        option_or (option_map (λ ends. ends.first) ends) (Some copy.min_leaf) }
    ensures last { result.last ≡ copy.max_leaf }
    ensures leaves { into.new.leaves ≡
        with_links_around into.old.leaves (option_map (λ ends. ends.last) ends) (Some copy.min_leaf)
        (Some copy.min_leaf) (option_map (λ ends. ends.last) ends) }
    ensures inners { into.new.inners ≡
        change into.old.inners parent (with_child byte copy.root) }
    ensures promise { into.new.promise ≡ into.old.promise }
{
    let (first, last) = match ends {
        Some(ends) => (ends.first, Some(ends.last)),
        None => (copy.min_leaf, None),
    };
    link(into, last, Some(copy.min_leaf));
    into.write_child(parent, byte, copy.root);
    LeafEnds {
        first,
        last: copy.max_leaf,
    }
}
