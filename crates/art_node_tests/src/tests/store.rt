ghost use Rattle.std.specs.Prelude.{IsSome, IfOk};
ghost use Rattle.std.specs.FinMap as map;

use art_node_support::expected::same;
use art_node_support::memory::{all_memory, begin_refusals, end_refusals};
use art_nodes::node::{
    AnyInner, Header, InnerPtr, InnerRef, LeafNode, LeafPtr, NodeType, OpaqueNodePtr,
};
use art_nodes::store::NodeStore;
use std::alloc::{AllocError, Global};
use std::test::Fail;

type Store = NodeStore<[u8; 1], u32, 2>;

// No store has room for so many nodes before it is requested.
const MORE_THAN_FIT: usize = 1_000;

// A leaf with no siblings.
fn leaf_of(byte: u8, value: u32) -> LeafNode<[u8; 1], u32> {
    LeafNode::with_no_siblings([byte], value)
}

// A node with no child.
fn node4(prefix: &[u8; 2]) -> AnyInner<2> {
    AnyInner::from_header(NodeType::Node4, Header::new(prefix, 2))
}

// What a leaf holds.
#[derive(Clone, Copy, PartialEq, Eq, Debug)]
struct SeenLeaf {
    key: u8,
    value: u32,
    links: (Option<LeafPtr>, Option<LeafPtr>),
}

// What an inner node holds, with the child under some byte.
#[derive(Clone, Copy, PartialEq, Eq, Debug)]
struct SeenInner {
    kind: NodeType,
    prefix: [u8; 2],
    count: usize,
    child: Option<OpaqueNodePtr>,
}

// What a leaf is to hold that has no next one.
fn expected_leaf(key: u8, value: u32, previous: Option<LeafPtr>) -> Option<SeenLeaf> {
    Some(SeenLeaf {
        key,
        value,
        links: (previous, None),
    })
}

// What a Node4 is to hold.
fn expected_node4(
    prefix: [u8; 2],
    count: usize,
    child: Option<OpaqueNodePtr>,
) -> Option<SeenInner> {
    Some(SeenInner {
        kind: NodeType::Node4,
        prefix,
        count,
        child,
    })
}

// What this leaf holds.
fn read_leaf(leaf: &LeafNode<[u8; 1], u32>) -> SeenLeaf {
    SeenLeaf {
        key: leaf.key[0],
        value: leaf.value,
        links: (leaf.previous, leaf.next),
    }
}

// What the leaf under a name holds.
fn leaf_seen(store: &Store, name: LeafPtr) -> Option<SeenLeaf> {
    store.leaf(name).map(read_leaf)
}

// What this node holds, where its prefix is stored whole.
fn read_inner(node: InnerRef<'_, 2>, byte: u8) -> Option<SeenInner> {
    let stored = node.read_prefix();
    Some(SeenInner {
        kind: node.node_type(),
        prefix: [*stored.get(0)?, *stored.get(1)?],
        count: node.num_children(),
        child: node.lookup_child(byte),
    })
}

// What the inner node under a name holds.
fn inner_seen(store: &Store, name: InnerPtr, byte: u8) -> Option<SeenInner> {
    read_inner(store.inner(name)?, byte)
}

// Places a leaf.
#[tactic(auto, using(crate::proofs::Laws::leaf_laws))]
fn place(store: &mut Store, leaf: LeafNode<[u8; 1], u32>) -> Result<LeafPtr, AllocError>
    ensures { IfOk result (λ name. IsSome (map.get store.new.leaves name)) }
{
    store.place_leaf(leaf).map_err(|refused| refused.1)
}

// Places a leaf and another one behind it, and returns both names.
#[tactic(auto, using(crate::proofs::Laws::leaf_laws))]
fn place_pair(store: &mut Store) -> Result<(LeafPtr, LeafPtr), AllocError>
    ensures { IfOk result (λ names. IsSome (map.get store.new.leaves names.1)) }
{
    let first = place(store, leaf_of(1, 10))?;
    let second = LeafNode {
        key: [2],
        value: 20,
        previous: Some(first),
        next: None,
    };
    Ok((first, place(store, second)?))
}

// Places a node with a child under 3, and returns its name.
#[tactic(auto, using(crate::proofs::Laws::inner_laws))]
fn place_above(store: &mut Store, child: OpaqueNodePtr) -> Result<InnerPtr, AllocError>
    ensures { IfOk result (λ name. IsSome (map.get store.new.inners name)) }
{
    let mut node = AnyInner::from_header(NodeType::Node4, Header::new(&[5, 6], 2));
    node.write_child(3, child);
    store.place_inner(node).map_err(|refused| refused.1)
}

// Places five pairs of leaves, and returns the names of the last one.
fn place_five_pairs(store: &mut Store) -> Result<(LeafPtr, LeafPtr), AllocError> {
    for _ in 0..4 {
        place_pair(store)?;
    }
    place_pair(store)
}

// What a clone of the nodes has under two names, where there is one.
fn cloned_seen(
    store: &Store,
    leaf: LeafPtr,
    inner: InnerPtr,
) -> Option<(Option<SeenLeaf>, Option<SeenInner>)> {
    match store.clone_nodes() {
        Ok(Some(copy)) => Some((leaf_seen(&copy, leaf), inner_seen(&copy, inner, 3))),
        _ => None,
    }
}

// Whether a clone of ten leaves and a node has the last leaf and the node as they are to be, and whether there is no
// clone of slots that are all vacant.
fn clone_placed(store: &mut Store) -> Option<[bool; 3]> {
    let child = LeafPtr::from_slot(7).to_opaque();
    let lower = place_above(store, child).ok()?;
    let (first, last) = place_five_pairs(store).ok()?;
    let (leaf, inner) = cloned_seen(store, last, lower)?;
    store.clear();
    Some([
        leaf == expected_leaf(2, 20, Some(first)),
        inner == expected_node4([5, 6], 1, Some(child)),
        cloned_seen(store, last, lower) == None,
    ])
}

#[test]
fn nodes_are_cloned_under_their_names(rt: HostRuntime) -> Result<(), Fail> {
    let seen = clone_placed(&mut Store::new(rt.alloc()));
    same(seen, Some([true; 3]))
}

#[test]
fn a_reservation_past_all_numbers_is_refused(rt: HostRuntime) -> Result<(), Fail> {
    let mut store = Store::new(rt.alloc());
    let granted = [
        store.reserve(usize::MAX, Some(NodeType::Node4)).is_ok(),
        store.reserve(0, None).is_ok(),
    ];
    same(granted, [false, true])
}

// How many leaves a store counts, and how many nodes of the first two kinds and of that of leaves.
fn counts_of(store: &Store) -> (usize, [usize; 3]) {
    let kinds = [
        store.inner_count(NodeType::Node4),
        store.inner_count(NodeType::Node16),
        store.inner_count(NodeType::Leaf),
    ];
    (store.leaf_count(), kinds)
}

// The counts with two leaves, with one of them freed, and after two nodes are placed of which one is freed.
fn count_steps(store: &mut Store) -> Option<[(usize, [usize; 3]); 3]> {
    let (first, second) = place_pair(store).ok()?;
    let placed = counts_of(store);
    store.free_leaf(second);
    let freed = counts_of(store);
    place_above(store, first.to_opaque()).ok()?;
    let upper = place_above(store, first.to_opaque()).ok()?;
    store.free_inner(upper);
    Some([placed, freed, counts_of(store)])
}

#[test]
fn a_store_counts_its_nodes(rt: HostRuntime) -> Result<(), Fail> {
    let counted = count_steps(&mut Store::new(rt.alloc()));
    same(counted, Some([(2, [0; 3]), (1, [0; 3]), (1, [1, 0, 0])]))
}

// Places leaves that are linked behind this one until one fails, and returns the leaf that it returns.
fn refused_leaf(store: &mut Store, last: LeafPtr) -> Option<SeenLeaf> {
    for _ in 0..MORE_THAN_FIT {
        let leaf = LeafNode {
            key: [9],
            value: 90,
            previous: Some(last),
            next: None,
        };
        if let Err((leaf, _)) = store.place_leaf(leaf) {
            return Some(read_leaf(&leaf));
        }
    }
    None
}

// Places inner nodes with this child under 7 until one fails, and returns the node that it returns.
fn refused_inner(store: &mut Store, child: OpaqueNodePtr) -> Option<SeenInner> {
    for _ in 0..MORE_THAN_FIT {
        let mut node = AnyInner::from_header(NodeType::Node4, Header::new(&[8, 9], 2));
        node.write_child(7, child);
        if let Err((node, _)) = store.place_inner(node) {
            return read_inner(node.as_ref(), 7);
        }
    }
    None
}

// Whether one more leaf and one more inner node are placed, and whether each is then in the store or is returned as it
// was.
fn place_one_each(store: &mut Store, value: u32) -> ([bool; 2], [bool; 2]) {
    let (is_leaf_placed, leaf) = match store.place_leaf(leaf_of(2, value)) {
        Ok(name) => (true, leaf_seen(store, name)),
        Err((leaf, _)) => (false, Some(read_leaf(&leaf))),
    };
    let (is_inner_placed, inner) = match store.place_inner(node4(&[8, 9])) {
        Ok(name) => (true, inner_seen(store, name, 0)),
        Err((node, _)) => (false, read_inner(node.as_ref(), 0)),
    };
    let right = [
        leaf == expected_leaf(2, value, None),
        inner == expected_node4([8, 9], 0, None),
    ];
    ([is_leaf_placed, is_inner_placed], right)
}

// Places twenty of each; returns whether one failed, and whether each time both of them and the first leaf were as they
// should be.
fn place_twenty_each(store: &mut Store, first: LeafPtr) -> (bool, bool) {
    let (mut any_refused, mut all_right) = (false, true);
    for value in 0..20 {
        let (placed, right) = place_one_each(store, value);
        any_refused = any_refused || placed != [true; 2];
        let first_seen = leaf_seen(store, first);
        all_right = all_right && right == [true; 2] && first_seen == expected_leaf(1, 10, None);
    }
    (any_refused, all_right)
}

// Places a leaf and then twenty of each. None if the leaf failed.
fn place_beside_first(store: &mut Store) -> Option<(bool, bool)> {
    let first = place(store, leaf_of(1, 10)).ok()?;
    Some(place_twenty_each(store, first))
}

// Asserts the same with enough memory and with failing allocations.
#[test]
fn refused_placements_leave_the_nodes(rt: HostRuntime) -> Result<(), Fail> {
    let placed = place_beside_first(&mut Store::new(rt.alloc()));
    if let Some((any_refused, all_right)) = placed {
        assert!(rt; all_right);
        if any_refused {
            println!(rt; "asserted")?;
        }
    }
    Ok(())
}

// Whether the first placement of a store fails, and how many leaves it has then.
fn place_first(alloc: Global, store: &mut Store) -> (bool, usize) {
    begin_refusals(alloc);
    let is_refused = store.place_leaf(leaf_of(1, 10)).is_err();
    end_refusals(alloc);
    (is_refused, store.leaf_count())
}

#[test]
fn refused_each_first_placement_leaves_no_leaf(rt: HostRuntime) -> Result<(), Fail> {
    let (is_refused, count) = place_first(rt.alloc(), &mut Store::new(rt.alloc()));
    same(count, if is_refused { 0 } else { 1 })?;
    if is_refused {
        println!(rt; "asserted")?;
    }
    Ok(())
}

// What failing calls return while all memory is held.
fn refused_without_memory(
    store: &mut Store,
    first: LeafPtr,
) -> Result<(Option<SeenLeaf>, Option<SeenInner>), AllocError> {
    let held = all_memory(store.alloc())?;
    let leaf = refused_leaf(store, first);
    let inner = refused_inner(store, first.to_opaque());
    drop(held);
    Ok((leaf, inner))
}

// Places a leaf and a node above it, and sees that no more is placed while all memory is held; returns whether the leaf
// and the node that are returned are right, and those under the two names.
fn hand_back(store: &mut Store) -> Result<[bool; 4], AllocError> {
    let first = place(store, leaf_of(1, 10))?;
    let child = first.to_opaque();
    let upper = place_above(store, child)?;
    let (leaf, inner) = refused_without_memory(store, first)?;
    Ok([
        leaf == expected_leaf(9, 90, Some(first)),
        inner == expected_node4([8, 9], 1, Some(child)),
        leaf_seen(store, first) == expected_leaf(1, 10, None),
        inner_seen(store, upper, 3) == expected_node4([5, 6], 1, Some(child)),
    ])
}

#[test]
fn without_memory_placements_hand_the_node_back(rt: HostRuntime) -> Result<(), Fail> {
    let seen = hand_back(&mut Store::new(rt.alloc()));
    same(seen.ok(), Some([true; 4]))
}

// Places a leaf, and returns whether a reservation without memory fails, and whether the leaf under the name is right
// then.
fn reserve_without_memory(store: &mut Store) -> Result<[bool; 2], AllocError> {
    let first = place(store, leaf_of(1, 10))?;
    let held = all_memory(store.alloc())?;
    let refused = store.reserve(1 << 20, None).is_err();
    drop(held);
    Ok([
        refused,
        leaf_seen(store, first) == expected_leaf(1, 10, None),
    ])
}

#[test]
fn without_memory_reservations_leave_the_nodes(rt: HostRuntime) -> Result<(), Fail> {
    let seen = reserve_without_memory(&mut Store::new(rt.alloc()));
    same(seen.ok(), Some([true; 2]))
}

// Whether each of two leaves and a node that were promised is placed without memory, and a promise is repeated in
// between.
fn place_without_memory(store: &mut Store) -> Result<[bool; 4], AllocError> {
    store.reserve(2, Some(NodeType::Node4))?;
    let held = all_memory(store.alloc())?;
    let placed = [
        store.place_leaf(leaf_of(1, 10)).is_ok(),
        store.reserve(1, Some(NodeType::Node4)).is_ok(),
        store.place_inner(node4(&[8, 9])).is_ok(),
        store.place_leaf(leaf_of(2, 20)).is_ok(),
    ];
    drop(held);
    Ok(placed)
}

// Whether a Node16 and then a leaf, both promised, are placed without memory.
fn place_node16_without_memory(store: &mut Store) -> Result<[bool; 2], AllocError> {
    store.reserve(1, Some(NodeType::Node16))?;
    let held = all_memory(store.alloc())?;
    let node = AnyInner::from_header(NodeType::Node16, Header::new(&[8, 9], 2));
    let placed = [
        store.place_inner(node).is_ok(),
        store.place_leaf(leaf_of(1, 10)).is_ok(),
    ];
    drop(held);
    Ok(placed)
}

// Whether two Node4s are placed without memory in a store with room for as many as another one has.
fn place_like_another_without_memory(other: &mut Store) -> Result<[bool; 2], AllocError> {
    let _ = other.place_inner(node4(&[1, 2]));
    let _ = other.place_inner(node4(&[3, 4]));
    let mut store = Store::with_room_of(other)?;
    let held = all_memory(store.alloc())?;
    let placed = [
        store.place_inner(node4(&[8, 9])).is_ok(),
        store.place_inner(node4(&[6, 7])).is_ok(),
    ];
    drop(held);
    Ok(placed)
}

#[test]
fn without_memory_there_is_room_like_that_of_another_store(rt: HostRuntime) -> Result<(), Fail> {
    let placed = place_like_another_without_memory(&mut Store::new(rt.alloc()));
    same(placed.ok(), Some([true; 2]))
}

// Whether a leaf is placed without memory before a store frees its spare room, whether it frees it, whether a leaf is
// placed without memory then, and whether the first leaf is right.
fn place_after_shrinking(store: &mut Store) -> Result<[bool; 4], AllocError> {
    let first = place(store, leaf_of(1, 10))?;
    let held = all_memory(store.alloc())?;
    let before = store.place_leaf(leaf_of(2, 20)).is_ok();
    drop(held);
    let is_shrunk = store.shrink_to_fit().is_ok();
    let held = all_memory(store.alloc())?;
    let after = store.place_leaf(leaf_of(3, 30)).is_ok();
    drop(held);
    Ok([
        before,
        is_shrunk,
        after,
        leaf_seen(store, first) == expected_leaf(1, 10, None),
    ])
}

#[test]
fn without_memory_a_store_that_shrank_has_no_room(rt: HostRuntime) -> Result<(), Fail> {
    let seen = place_after_shrinking(&mut Store::new(rt.alloc()));
    same(seen.ok(), Some([true, true, false, true]))
}

#[test]
fn without_memory_the_promise_is_kept(rt: HostRuntime) -> Result<(), Fail> {
    let placed = place_without_memory(&mut Store::new(rt.alloc()));
    same(placed.ok(), Some([true; 4]))
}

#[test]
fn without_memory_a_promised_node16_is_placed(rt: HostRuntime) -> Result<(), Fail> {
    let placed = place_node16_without_memory(&mut Store::new(rt.alloc()));
    same(placed.ok(), Some([true; 2]))
}
