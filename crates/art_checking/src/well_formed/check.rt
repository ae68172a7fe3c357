//! The check, node by node.
ghost use Rattle.std.specs.Prelude.{◌≡◌, ◌≢◌, ◌+◌, ◌<◌, ◌≤◌, ◌++◌, ◌↔◌, ℕ, List, [], length, take, true, Some, None, IsTrue, IsSome, OnOk, IfOk, IfErr, IfSome, MatchOption};
ghost use Rattle.std.specs.FinMap as map;
ghost use Rattle.std.specs.List.{AllByRecursion as Each};
ghost use Rattle.art_inner.specs.Views.{ref_kind, ref_view};
ghost use Rattle.art_parts.specs.Kinds.{kind_least};
ghost use Rattle.art_parts.specs.Names.{inner_name, leaf_name};
ghost use Rattle.art_parts.specs.declared.leaf.LeafNode.{LeafNode};
ghost use Rattle.art_parts.specs.declared.names.NodeType.TheVariants.{Leaf};
ghost use Rattle.art_parts.specs.declared.names.OpaqueNodePtr.{OpaqueNodePtr};
ghost use Rattle.art_model.specs.Faults.{HasSibling, IsTrueOf, Reaches, ReachesLeaf, wrong_children_count};
ghost use Rattle.art_parts.specs.Keys.{is_before};
ghost use Rattle.art_model.specs.Layouts.{AreLinked, IsLayout, leaf_names, leaf_node};
ghost use Rattle.art_model.specs.Pairs.{of_key};
ghost use Rattle.art_model.specs.Trees.{Tree};
ghost use Rattle.art_model.specs.Stores.{IsUsed, header_at, links_at, node_at};
ghost use Rattle.art_checking.specs.Checked.{AreReached, IsBetween, IsEntered, IsFirstLeast, IsFirstMet, IsInOrder, IsLeafAt, IsLeastLeaf, IsMetTree, IsPartOf, IsRead, IsReadFrom, IsStart, IsTrueAt, Says, names_of_leaves};
ghost use Rattle.art_checking.specs.Checks.{fault_of};
ghost use Rattle.art_checking.specs.Meetings.{place_in};
ghost use Rattle.art_checking.specs.declared.well_formed.seen.Seen.{Seen};

use super::MalformedTreeError;
use super::compared::order_of;
use super::seen::Seen;
use art_nodes::node::{
    AsBytes, Children, InnerPtr, InnerRef, LeafPtr, NodePtr, OpaqueNodePtr, OptionalLeafPtr,
};
use art_nodes::store::NodeStore;
use art_reading::lookup::matching::begins_with;
use std::alloc::AllocError;
use std::cmp::Ordering;
use std::collections::BTreeSet;

// A node whose child is being checked: where the bytes that lead to it end, and its children after that one.
#[derive(Drop)]
struct Above<'a> {
    name: InnerPtr,
    depth: usize,
    children: Children<'a>,
}

// Checks all nodes below a root, and returns what was met.
pub(super) fn check_nodes<K: AsBytes + Drop, V: Drop, const P: usize>(
    store: &NodeStore<K, V, P>,
    root: OpaqueNodePtr,
) -> Result<Seen, MalformedTreeError>
    ensures met { IfOk result (λ seen. IsMetTree (of_key K.bytes) P store.now seen root) }
    ensures fault { IfErr result (λ error.
        IsTrueOf (of_key K.bytes) P store.now root (fault_of error)) }
{
    let mut seen = Seen::new(store.alloc());
    let mut place = Vec::new(store.alloc());
    check_root(store, root, &mut place, &mut seen)?;
    Ok(seen)
}

// Checks a root and all nodes below it, where nothing was met yet.
fn check_root<K: AsBytes + Drop, V: Drop, const P: usize>(
    store: &NodeStore<K, V, P>,
    root: OpaqueNodePtr,
    place: &mut Vec<u8>,
    seen: &mut Seen,
) -> Result<(), MalformedTreeError>
    requires start { IsStart seen.old }
    requires place { place.old.items ≡ [] }
    ensures met { OnOk result (IsMetTree (of_key K.bytes) P store.now seen.new root) }
    ensures fault { IfErr result (λ error.
        IsTrueOf (of_key K.bytes) P store.now root (fault_of error)) }
{
    meet(store, root, place, seen)?;
    match root.split() {
        NodePtr::Leaf(leaf) => check_leaf(store, leaf, place),
        NodePtr::Inner(inner) => check_below(store, inner, place, seen),
    }
}

// Checks an inner root that was met, and all nodes below it. The nodes above the current one are kept in a list.
fn check_below<K: AsBytes + Drop, V: Drop, const P: usize>(
    store: &NodeStore<K, V, P>,
    root: InnerPtr,
    place: &mut Vec<u8>,
    seen: &mut Seen,
) -> Result<(), MalformedTreeError>
    requires there { IsSome (map.get store.now.inners root) }
    requires proper { root.kind ≢ Leaf }
    requires met { (start : Seen) × IsStart start × IsFirstMet start seen.old (inner_name root) [] }
    requires place { place.old.items ≡ [] }
    ensures met { OnOk result
        (IsMetTree (of_key K.bytes) P store.now seen.new (inner_name root)) }
    ensures fault { IfErr result (λ error.
        IsTrueOf (of_key K.bytes) P store.now (inner_name root) (fault_of error)) }
{
    let mut above: Vec<Above<'_>> = Vec::new(store.alloc());
    let (mut name, mut depth) = (root, 0);
    let (mut children, mut least) = enter(store, root, None, place)?;
    'below: loop {
        let Some((byte, child)) = children.next() else {
            leave(store, name, depth, place)?;
            let Some(parent) = above.pop() else {
                return Ok(());
            };
            place.pop();
            name = parent.name;
            depth = parent.depth;
            children = parent.children;
            least = None;
            continue 'below;
        };
        place.push(byte)?;
        meet(store, child, place, seen)?;
        let inner = match child.split() {
            NodePtr::Leaf(leaf) => {
                check_leaf(store, leaf, place)?;
                place.pop();
                least = None;
                continue 'below;
            }
            NodePtr::Inner(inner) => inner,
        };
        above.push(Above {
            name,
            depth,
            children,
        })?;
        name = inner;
        depth = place.len();
        let entered = enter(store, inner, least, place)?;
        children = entered.0;
        least = entered.1;
    }
}

// Enters an inner node that was met: appends its prefix to the bytes that lead to it, and returns its children, with
// their least leaf if it is known.
fn enter<'a, K: AsBytes + Drop, V: Drop, const P: usize>(
    store: &'a NodeStore<K, V, P>,
    name: InnerPtr,
    least: Option<LeafPtr>,
    place: &mut Vec<u8>,
) -> Result<(Children<'a>, Option<LeafPtr>), MalformedTreeError>
    requires there { IsSome (map.get store.now.inners name) }
    requires proper { name.kind ≢ Leaf }
    requires least { IfSome least (λ leaf.
        IsLeastLeaf (of_key K.bytes) P store.now (inner_name name) (Some leaf)) }
    ensures entered { IfOk result (λ entered. IfSome (map.get store.now.inners name) (λ node.
        IsEntered (of_key K.bytes) P store.now place.old.items place.new.items name node
        entered.0)) }
    ensures least { IfOk result (λ entered.
        IsFirstLeast (of_key K.bytes) P store.now entered.1 entered.0) }
    ensures fault { IfErr result
        (IsTrueAt (of_key K.bytes) P store.now place.old.items (inner_name name)) }
{
    let node = store.inner_at(name);
    let least = read_prefix(store, name, node, least, place)?;
    let children = node.iter();
    Ok((children, least))
}

// Leaves an inner node all of whose children were passed: cuts its prefix off the bytes that lead to it, and counts its
// children.
fn leave<K: AsBytes + Drop, V: Drop, const P: usize>(
    store: &NodeStore<K, V, P>,
    name: InnerPtr,
    depth: usize,
    place: &mut Vec<u8>,
) -> Result<(), MalformedTreeError>
    requires there { IsSome (map.get store.now.inners name) }
    requires proper { name.kind ≢ Leaf }
    ensures place { OnOk result (place.new.items ≡ take depth place.old.items) }
    ensures enough { OnOk result (IfSome (map.get store.now.inners name) (λ node.
        kind_least name.kind ≤ length node.children)) }
    ensures fault { IfErr result (IsTrueAt (of_key K.bytes) P store.now
        (take depth place.old.items) (inner_name name)) }
{
    let node = store.inner_at(name);
    place.truncate(depth);
    check_count(store, node, place)
}

// Records a name that is reached at a place. A name that was met before is a loop, and one without a node is dead.
fn meet<K: AsBytes + Drop, V: Drop, const P: usize>(
    store: &NodeStore<K, V, P>,
    name: OpaqueNodePtr,
    place: &[u8],
    seen: &mut Seen,
) -> Result<(), MalformedTreeError>
    ensures met { OnOk result (IsFirstMet seen.old seen.new name place.now) }
    ensures there { OnOk result (IsUsed store.now name) }
    ensures fault { IfErr result (λ error. (root : OpaqueNodePtr) →
        AreReached (of_key K.bytes) P store.now root (place_in seen.old) →
        Reaches (of_key K.bytes) P store.now root place.now name →
        ((other : List ℕ) → place_in seen.old name ≡ Some other →
        is_before other place.now ≡ true) →
        IsTrueOf (of_key K.bytes) P store.now root (fault_of error)) }
{
    let alloc = store.alloc();
    if let Some(first) = seen.place_of(name) {
        return Err(MalformedTreeError::loop_found(alloc, name, first, place));
    }
    if !is_there(store, name) {
        return Err(MalformedTreeError::dead_name(alloc, place, name));
    }
    seen.record(name, place)?;
    Ok(())
}

// Whether there is a node under the name.
fn is_there<K: AsBytes + Drop, V: Drop, const P: usize>(
    store: &NodeStore<K, V, P>,
    name: OpaqueNodePtr,
) -> bool
    ensures { IsTrue result ↔ IsUsed store.now name }
{
    match name.split() {
        NodePtr::Leaf(leaf) => store.leaf(leaf).is_some(),
        NodePtr::Inner(inner) => store.inner(inner).is_some(),
    }
}

// Appends the prefix of an inner node to the bytes that lead to it. A prefix that is not stored whole is read from the
// least leaf below. Returns that leaf, if it is known.
fn read_prefix<K: AsBytes + Drop, V: Drop, const P: usize>(
    store: &NodeStore<K, V, P>,
    name: InnerPtr,
    node: InnerRef<'_, P>,
    least: Option<LeafPtr>,
    place: &mut Vec<u8>,
) -> Result<Option<LeafPtr>, MalformedTreeError>
    requires there { map.get store.now.inners name ≡ Some (ref_view node) }
    requires proper { name.kind ≢ Leaf }
    requires least { IfSome least (λ leaf.
        IsLeastLeaf (of_key K.bytes) P store.now (inner_name name) (Some leaf)) }
    ensures prefix { OnOk result (IsRead (of_key K.bytes) P store.now
        place.old.items place.new.items (inner_name name)
        (header_at name.kind (ref_view node.entry))) }
    ensures least { IfOk result (λ found. IfSome found (λ leaf.
        IsLeastLeaf (of_key K.bytes) P store.now (inner_name name) (Some leaf))) }
    ensures fault { IfErr result
        (IsTrueAt (of_key K.bytes) P store.now place.old.items (inner_name name)) }
{
    let (found, part) = whole_prefix(store, name, &node, least, place)?;
    place.extend_from_slice(part)?;
    Ok(found)
}

// The prefix of an inner node: its stored bytes, or those of the least leaf below if they are not all. With that leaf,
// if it is known.
fn whole_prefix<'a, K: AsBytes + Drop, V: Drop, const P: usize>(
    store: &'a NodeStore<K, V, P>,
    name: InnerPtr,
    node: &'a InnerRef<'_, P>,
    least: Option<LeafPtr>,
    place: &[u8],
) -> Result<(Option<LeafPtr>, &'a [u8]), MalformedTreeError>
    requires there { map.get store.now.inners name ≡ Some (ref_view node.now) }
    requires proper { name.kind ≢ Leaf }
    requires least { IfSome least (λ leaf.
        IsLeastLeaf (of_key K.bytes) P store.now (inner_name name) (Some leaf)) }
    ensures prefix { IfOk result (λ read. IsRead (of_key K.bytes) P store.now
        place.now (place.now ++ read.1.now) (inner_name name)
        (header_at name.kind (ref_view node.now))) }
    ensures least { IfOk result (λ read. IfSome read.0 (λ leaf.
        IsLeastLeaf (of_key K.bytes) P store.now (inner_name name) (Some leaf))) }
    ensures fault { IfErr result
        (IsTrueAt (of_key K.bytes) P store.now place.now (inner_name name)) }
{
    let alloc = store.alloc();
    let len = node.prefix_len();
    let stored = node.read_prefix();
    if len <= P {
        return Ok((least, stored));
    }
    let (found, part) = read_least(store, name, least, place.len(), len)?;
    let Some(part) = part else {
        let name = name.to_opaque();
        return Err(MalformedTreeError::unreadable_prefix(alloc, place, name));
    };
    let (front, _) = part.split_at(P);
    if front != stored {
        return Err(MalformedTreeError::stored_prefix_mismatch(alloc, place, stored, front));
    }
    Ok((found, part))
}

// The least leaf below a node, and so many bytes of its key from a depth on, if it has them.
fn read_least<K: AsBytes + Drop, V: Drop, const P: usize>(
    store: &NodeStore<K, V, P>,
    name: InnerPtr,
    least: Option<LeafPtr>,
    depth: usize,
    len: usize,
) -> Result<(Option<LeafPtr>, Option<&[u8]>), AllocError>
    requires { IfSome least (λ leaf.
        IsLeastLeaf (of_key K.bytes) P store.now (inner_name name) (Some leaf)) }
    ensures least { IfOk result (λ read.
        IsLeastLeaf (of_key K.bytes) P store.now (inner_name name) read.0) }
    ensures part { IfOk result (λ read.
        IsReadFrom (of_key K.bytes) P store.now (inner_name name) depth len read.1) }
{
    let found = match least {
        Some(leaf) => Some(leaf),
        None => least_leaf(store, name.to_opaque())?,
    };
    let part = match found {
        Some(leaf) => part_of(store, leaf, depth, len),
        None => None,
    };
    Ok((found, part))
}

// So many bytes of a leaf's key from a depth on, if it has them.
fn part_of<K: AsBytes + Drop, V: Drop, const P: usize>(
    store: &NodeStore<K, V, P>,
    leaf: LeafPtr,
    depth: usize,
    len: usize,
) -> Option<&[u8]>
    ensures { (x : K × V) → node_at store.now (leaf_name leaf) ≡ Some (leaf_node x) →
        MatchOption result (length (K.bytes x.0) < depth + len) (λ part.
        IsPartOf depth len (K.bytes x.0) part.now) }
{
    let key = store.leaf(leaf)?.key.as_bytes();
    let end = depth.checked_add(len)?;
    key.get(depth..end)
}

// The leaf at the end of the descent along least children, if there is one.
fn least_leaf<K: AsBytes + Drop, V: Drop, const P: usize>(
    store: &NodeStore<K, V, P>,
    name: OpaqueNodePtr,
) -> Result<Option<LeafPtr>, AllocError>
    ensures { IfOk result (IsLeastLeaf (of_key K.bytes) P store.now name) }
{
    let mut passed = BTreeSet::new(store.alloc());
    let mut name = name;
    'down: loop {
        let inner = match name.split() {
            NodePtr::Leaf(leaf) => return Ok(store.leaf(leaf).map(|_| leaf)),
            NodePtr::Inner(inner) => inner,
        };
        let Some(node) = store.inner(inner) else {
            return Ok(None);
        };
        if !passed.insert(inner)? {
            return Ok(None);
        }
        let Some((_, child)) = node.iter().next() else {
            return Ok(None);
        };
        name = child;
    }
}

// Whether a node has as many children as its kind may have.
fn check_count<K: AsBytes + Drop, V: Drop, const P: usize>(
    store: &NodeStore<K, V, P>,
    node: InnerRef<'_, P>,
    place: &[u8],
) -> Result<(), MalformedTreeError>
    ensures enough { OnOk result
        (kind_least (ref_kind node.entry) ≤ length (ref_view node.entry).children) }
    ensures fault { IfErr result (λ error. Says (wrong_children_count place.now
        (ref_kind node.entry) (length (ref_view node.entry).children)) error ×
        (length (ref_view node.entry).children < kind_least (ref_kind node.entry))) }
{
    let kind = node.node_type();
    let count = node.num_children();
    if *kind.capacity_range().start() <= count {
        return Ok(());
    }
    Err(MalformedTreeError::wrong_children_count(store.alloc(), place, kind, count))
}

// Checks a leaf that was met at a place.
fn check_leaf<K: AsBytes + Drop, V: Drop, const P: usize>(
    store: &NodeStore<K, V, P>,
    leaf: LeafPtr,
    place: &[u8],
) -> Result<(), MalformedTreeError>
    requires there { IsSome (map.get store.now.leaves leaf) }
    ensures leaf { OnOk result (IsLeafAt (of_key K.bytes) P store.now leaf place.now) }
    ensures siblings { OnOk result ((node : LeafNode K V) →
        map.get store.now.leaves leaf ≡ Some node → IsBetween (of_key K.bytes) P store.now node) }
    ensures fault { IfErr result
        (IsTrueAt (of_key K.bytes) P store.now place.now (leaf_name leaf)) }
{
    let node = store.leaf_at(leaf);
    let key = node.key.as_bytes();
    if !begins_with(key, place) {
        return Err(MalformedTreeError::prefix_mismatch(store.alloc(), place, key));
    }
    check_order(store, key, node.previous, Ordering::Less, place)?;
    check_order(store, key, node.next, Ordering::Greater, place)
}

// Checks that a leaf's sibling, if it has one, is a leaf of the store and compares to it in this order.
fn check_order<K: AsBytes + Drop, V: Drop, const P: usize>(
    store: &NodeStore<K, V, P>,
    key: &[u8],
    sibling: OptionalLeafPtr,
    expected: Ordering,
    place: &[u8],
) -> Result<(), MalformedTreeError>
    ensures sibling { OnOk result (IfSome sibling (λ name.
        IsInOrder (of_key K.bytes) P store.now name expected key.now)) }
    ensures fault { IfErr result (λ error. (root leaf : OpaqueNodePtr) (x : K × V) →
        ReachesLeaf (of_key K.bytes) P store.now root place.now leaf x → K.bytes x.0 ≡ key.now →
        IfSome sibling (λ name.
        HasSibling (of_key K.bytes) P store.now root leaf expected (leaf_name name)) →
        IsTrueOf (of_key K.bytes) P store.now root (fault_of error)) }
{
    let Some(sibling) = sibling else {
        return Ok(());
    };
    let Some(node) = store.leaf(sibling) else {
        return Err(MalformedTreeError::dead_name(store.alloc(), place, sibling.to_opaque()));
    };
    let sibling_key = node.key.as_bytes();
    let actual = order_of(sibling_key, key);
    if actual == expected {
        return Ok(());
    }
    Err(MalformedTreeError::leaf_sibling_wrong_order(
        store.alloc(),
        sibling_key,
        key,
        expected,
        actual,
    ))
}

// Checks that each leaf names its neighbours in the list.
pub(super) fn check_links<K: AsBytes + Drop, V: Drop, const P: usize>(
    store: &NodeStore<K, V, P>,
    leaves: &[LeafPtr],
) -> Result<(), MalformedTreeError>
    requires there { Each (λ leaf. IsSome (map.get store.now.leaves leaf)) leaves.now }
    ensures linked { OnOk result
        (AreLinked (links_at store.now) None (names_of_leaves leaves.now) None) }
    ensures fault { IfErr result (λ error.
        (root : OpaqueNodePtr) (layout : Tree OpaqueNodePtr (K × V)) →
        IsLayout (node_at store.now) root layout → leaf_names layout ≡ names_of_leaves leaves.now →
        IsTrueOf (of_key K.bytes) P store.now root (fault_of error)) }
{
    let mut previous = None;
    let mut rest = leaves;
    'along: while let Some((&leaf, others)) = rest.split_first() {
        let next = others.first().copied();
        let node = store.leaf_at(leaf);
        if node.previous != previous || node.next != next {
            return Err(MalformedTreeError::wrong_sibling_links(
                store.alloc(),
                node.key.as_bytes(),
                (previous, next),
                (node.previous, node.next),
            ));
        }
        previous = Some(leaf);
        rest = others;
    }
    Ok(())
}
