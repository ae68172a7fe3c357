//! Frees whole trees, or their inner nodes alone. Nothing here allocates.
ghost use Rattle.std.specs.Prelude.{◌≡◌, ◌+◌, ◌<◌, ◌↔◌, ◌++◌, ◌^◌, List, [], ◌∷◌, length, Some, None, IsTrue, IsSome, IfSome, IfNone};
ghost use Rattle.std.specs.FinMap as map;
ghost use Rattle.art_parts.specs.declared.names.InnerPtr.{InnerPtr};
ghost use Rattle.art_parts.specs.declared.names.NodeType.TheVariants.{Leaf};
ghost use Rattle.art_parts.specs.declared.names.OpaqueNodePtr.{OpaqueNodePtr};
ghost use Rattle.art_model.specs.Apart.{KeepsApart};
ghost use Rattle.art_model.specs.Kept.{Frees};
ghost use Rattle.art_model.specs.Layouts.{IsLayout, inner_names, leaf_names, names_of};
ghost use Rattle.art_model.specs.Pairs.{first_of, of_key};
ghost use Rattle.art_model.specs.Roots.{IsCanonicalRoot, IsFullTree};
ghost use Rattle.art_model.specs.Stores.{shape_at};
ghost use Rattle.art_model.specs.Trees.{Tree};
ghost use Rattle.art_model.specs.Writes.{as_inner};
ghost use Rattle.art_inner.specs.Inner.{Children, IsRising};
ghost use Rattle.art_copying.specs.Freed.{AreJoined, CanBothGo, CanGo, IsEnd, children_seen, names_to_free, leaves_to_free};

use art_nodes::node::{AsBytes, InnerPtr, NodePtr, OpaqueNodePtr};
use art_nodes::store::NodeStore;

/// Frees the inner nodes of the tree rooted at `root`. It reads no leaf: the leaves may be freed before or after. It
/// costs as much as `deallocate_tree`.
pub fn deallocate_tree_non_leaves<K: AsBytes + Drop, V: Drop, const P: usize>(
    root: OpaqueNodePtr,
    store: &mut NodeStore<K, V, P>,
)
    requires { (shape : Tree OpaqueNodePtr (Unit {0})) × IsLayout (shape_at store.old) root shape }
    ensures freed { (shape : Tree OpaqueNodePtr (Unit {0})) →
        IsLayout (shape_at store.old) root shape → Frees (inner_names shape) store.old store.new }
    ensures apart { IsCanonicalRoot (of_key K.bytes) P store.old root →
        KeepsApart (of_key K.bytes) P store.old store.new (Some root) None }
    ensures promise { store.new.promise ≡ store.old.promise }
{
    free_nodes(store, root, false);
}

/// Frees all nodes of the tree rooted at `root`, and returns how many leaves it had. It allocates nothing, and its
/// stack does not grow with the tree. It costs a step for each node.
pub fn deallocate_tree<K: AsBytes + Drop, V: Drop, const P: usize>(
    root: OpaqueNodePtr,
    store: &mut NodeStore<K, V, P>,
) -> usize
    requires { (layout : Tree OpaqueNodePtr (K × V)) × IsFullTree store.old root layout }
    ensures freed { (layout : Tree OpaqueNodePtr (K × V)) → IsFullTree store.old root layout →
        Frees (names_of layout) store.old store.new }
    ensures apart { IsCanonicalRoot (of_key K.bytes) P store.old root →
        KeepsApart (of_key K.bytes) P store.old store.new (Some root) None }
    ensures count { (layout : Tree OpaqueNodePtr (K × V)) → IsFullTree store.old root layout →
        result ≡ length (leaf_names layout) }
    ensures promise { store.new.promise ≡ store.old.promise }
{
    free_nodes(store, root, true)
}

/// Frees the inner nodes below a name, and the leaves too if asked to; returns how many leaves it freed.
/// An inner node may be without children.
///
/// It keeps neither a list of what is left nor a stack: the remaining nodes are one tree all the time. A root with one
/// child is freed, and the child is the root. A root with more children loses the last one, and is joined to its tree.
pub fn free_nodes<K: AsBytes + Drop, V: Drop, const P: usize>(
    store: &mut NodeStore<K, V, P>,
    root: OpaqueNodePtr,
    leaves_too: bool,
) -> usize
    requires { (shape : Tree OpaqueNodePtr (Unit {0})) × CanGo store.old leaves_too root shape }
    ensures freed { (shape : Tree OpaqueNodePtr (Unit {0})) →
        CanGo store.old leaves_too root shape →
        Frees (names_to_free leaves_too shape) store.old store.new }
    ensures count { (shape : Tree OpaqueNodePtr (Unit {0})) →
        CanGo store.old leaves_too root shape →
        result ≡ leaves_to_free leaves_too shape }
    ensures promise { store.new.promise ≡ store.old.promise }
    ensures improper { (name : InnerPtr) → name.kind ≡ Leaf →
        map.get store.new.inners name ≡ map.get store.old.inners name }
    ensures total { result + map.len store.new.leaves ≡ map.len store.old.leaves }
    ensures few { 0 < result → map.len store.old.leaves < 2 ^ 64 }
{
    let mut left = root;
    let mut count = 0;
    'left: loop {
        let Some(last) = last_child(store, left) else {
            return count + free_end(store, left, leaves_too);
        };
        let upper = inner_of(left);
        if last.is_only {
            free_node(store, upper);
            left = last.name;
            continue 'left;
        }
        store.remove_child(upper, last.byte);
        let (next, freed) = hang(store, left, last.name, leaves_too);
        left = next;
        count += freed;
    }
}

// Joins two trees. The chain of first children of the second one is reversed: each node on it has the node above it in
// the place of its first child, and the topmost has the first tree. The node at the end of the chain is freed. Returns
// the root of both, and how many leaves were freed.
fn hang<K: AsBytes + Drop, V: Drop, const P: usize>(
    store: &mut NodeStore<K, V, P>,
    left: OpaqueNodePtr,
    child: OpaqueNodePtr,
    leaves_too: bool,
) -> (OpaqueNodePtr, usize)
    requires { (upper lower : Tree OpaqueNodePtr (Unit {0})) ×
        CanBothGo store.old leaves_too left child upper lower }
    ensures joined { (upper lower : Tree OpaqueNodePtr (Unit {0})) →
        CanBothGo store.old leaves_too left child upper lower →
        AreJoined store.old store.new leaves_too upper lower result.0 result.1 }
    ensures promise { store.new.promise ≡ store.old.promise }
    ensures improper { (name : InnerPtr) → name.kind ≡ Leaf →
        map.get store.new.inners name ≡ map.get store.old.inners name }
    ensures total { result.1 + map.len store.new.leaves ≡ map.len store.old.leaves }
    ensures few { 0 < result.1 → map.len store.old.leaves < 2 ^ 64 }
{
    let (mut left, mut child) = (left, child);
    'down: loop {
        let Some((byte, first)) = first_child(store, child) else {
            let freed = free_end(store, child, leaves_too);
            return (left, freed);
        };
        store.write_child(inner_of(child), byte, left);
        left = child;
        child = first;
    }
}

// The first child of an inner node with its byte; a leaf has none.
fn first_child<K: AsBytes + Drop, V: Drop, const P: usize>(
    store: &NodeStore<K, V, P>,
    name: OpaqueNodePtr,
) -> Option<(u8, OpaqueNodePtr)>
    ensures { result ≡ first_of (children_seen (shape_at store.now name)) }
{
    let node = store.inner(name.as_inner()?)?;
    node.iter().next()
}

// The last child of an inner node, and whether it is the only one.
#[derive(Clone, Copy)]
struct LastChild {
    byte: u8,
    name: OpaqueNodePtr,
    is_only: bool,
}

// The last child of an inner node; a leaf has none.
fn last_child<K: AsBytes + Drop, V: Drop, const P: usize>(
    store: &NodeStore<K, V, P>,
    name: OpaqueNodePtr,
) -> Option<LastChild>
    ensures last { IfSome result (λ last. (others : Children) ×
        (children_seen (shape_at store.now name) ≡ others ++ (last.byte, last.name) ∷ []) ×
        (IsTrue last.is_only ↔ (others ≡ []))) }
    ensures none { IfNone result (children_seen (shape_at store.now name) ≡ []) }
    ensures rising { IsRising (children_seen (shape_at store.now name)) }
{
    let node = store.inner(name.as_inner()?)?;
    let mut children = node.iter();
    let (byte, name) = children.next_back()?;
    Some(LastChild {
        byte,
        name,
        is_only: children.len() == 0,
    })
}

// The name of an inner node, with its kind.
fn inner_of(name: OpaqueNodePtr) -> InnerPtr
    ensures { result ≡ as_inner name }
{
    InnerPtr {
        kind: name.kind,
        slot: name.slot,
    }
}

// Frees an inner node without children, or a leaf if asked to; returns how many leaves it freed.
fn free_end<K: AsBytes + Drop, V: Drop, const P: usize>(
    store: &mut NodeStore<K, V, P>,
    name: OpaqueNodePtr,
    leaves_too: bool,
) -> usize
    requires { (shape : Tree OpaqueNodePtr (Unit {0})) × IsEnd shape ×
        CanGo store.old leaves_too name shape }
    ensures freed { (shape : Tree OpaqueNodePtr (Unit {0})) → IsEnd shape →
        CanGo store.old leaves_too name shape →
        Frees (names_to_free leaves_too shape) store.old store.new }
    ensures count { (shape : Tree OpaqueNodePtr (Unit {0})) → IsEnd shape →
        CanGo store.old leaves_too name shape →
        result ≡ leaves_to_free leaves_too shape }
    ensures promise { store.new.promise ≡ store.old.promise }
    ensures improper { (name : InnerPtr) → name.kind ≡ Leaf →
        map.get store.new.inners name ≡ map.get store.old.inners name }
    ensures total { result + map.len store.new.leaves ≡ map.len store.old.leaves }
    ensures few { 0 < result → map.len store.old.leaves < 2 ^ 64 }
{
    match name.split() {
        NodePtr::Leaf(leaf) => {
            if leaves_too {
                store.free_leaf(leaf);
                return 1;
            }
            0
        }
        NodePtr::Inner(inner) => {
            free_node(store, inner);
            0
        }
    }
}

// Frees an inner node. It is large: it is on the stack only while it is freed, and not in the frame of the loop.
#[inline(never)]
fn free_node<K: AsBytes + Drop, V: Drop, const P: usize>(
    store: &mut NodeStore<K, V, P>,
    inner: InnerPtr,
)
    requires { IsSome (map.get store.old.inners inner) }
    ensures inners { store.new.inners ≡ map.remove store.old.inners inner }
    ensures leaves { store.new.leaves ≡ store.old.leaves }
    ensures promise { store.new.promise ≡ store.old.promise }
{
    store.free_inner(inner);
}
