//! Clones of trees, from one store into another.
ghost use Rattle.std.specs.Prelude.{◌<◌, IfSome};
ghost use Rattle.art_model.specs.Pairs.{of_key};
ghost use Rattle.art_model.specs.Roots.{IsCanonicalRoot};

use super::run::{place_nine, ran_in_turn_with};
use art_copying::clone::clone_unchecked;
use art_nodes::node::{LeafPtr, OpaqueNodePtr};
use art_nodes::store::NodeStore;
use art_running::run::Side;
use art_test_support::commands::{Asked, Left, Row, Told};
use art_test_support::expected::{as_expected, same};
use art_test_support::memory::{begin_refusals, end_refusals};
use art_test_support::nodes::{Seen, count_touched, nodes_seen};
use art_test_support::shapes::count_nodes;
use art_test_support::side_by_side::kind_if_same;
use art_test_support::trees::{Key, keys, keys_after, planted_keys};
use std::alloc::{AllocError, Global};
use std::test::Fail;

// The only pair.
static STORED: [Row<'static>; 1] = [(Asked::Insert(&[1], 10), Told::Inserted(None))];

// A clone whose allocation fails.
static NOT_CLONED: [Row<'static>; 1] = [(Asked::Clone, Told::NoMemory(None))];

#[test]
fn without_memory_a_clone_changes_nothing(rt: HostRuntime) -> Result<(), Fail> {
    let wanted = Left {
        wrong: None,
        has_root: true,
        side: Side::First,
    };
    let kept = ran_in_turn_with(rt.alloc(), &STORED, &NOT_CLONED);
    same(kept, Some(([wanted; 2], Some(10), [(1, 0), (0, 0)])))
}

// Pairs of these keys, each with its place as its value.
fn numbered(keys: &[Key], alloc: Global) -> Result<Vec<(Key, u32)>, AllocError> {
    let mut pairs = Vec::new(alloc);
    let mut value = 0u32;
    for key in keys {
        pairs.push((key.clone()?, value))?;
        value = value.wrapping_add(1);
    }
    Ok(pairs)
}

// Whether a leaf has a pair.
fn has_pair<const P: usize>(
    store: &NodeStore<Key, u32, P>,
    leaf: LeafPtr,
    pair: Option<&(Key, u32)>,
) -> Option<bool> {
    let (key, value) = pair?;
    let leaf = store.leaf(leaf)?;
    Some(leaf.key == *key && leaf.value == *value)
}

// What a clone of a tree is: how many leaves and inner nodes the other store has, whether both trees are the same and
// have these pairs, and whether the result names the first and the last leaf.
type Cloned = ((usize, usize), bool, [Option<bool>; 2]);

fn cloned<const P: usize>(
    store: &NodeStore<Key, u32, P>,
    root: OpaqueNodePtr,
    into: &mut NodeStore<Key, u32, P>,
    pairs: &[(Key, u32)],
) -> Result<Cloned, AllocError>
    requires { IsCanonicalRoot (of_key (λ key. key.items)) P store.now root }
{
    let copy = clone_unchecked(store, root, into)?;
    let kind = kind_if_same((into, Some(copy.root)), (store, Some(root)), pairs)?;
    let ends = [
        has_pair(into, copy.min_leaf, pairs.first()),
        has_pair(into, copy.max_leaf, pairs.last()),
    ];
    Ok((count_nodes(into, 700), kind.is_some(), ends))
}

// Plants the tree of these keys, which are in order and those of these pairs, and clones it.
fn cloned_tree<const P: usize>(
    store: &mut NodeStore<Key, u32, P>,
    into: &mut NodeStore<Key, u32, P>,
    keys: Vec<Key>,
    pairs: &[(Key, u32)],
) -> Option<Cloned> {
    let root = planted_keys(store, keys)?;
    cloned(store, root, into, pairs).ok()
}

// The same in stores of its own.
fn cloned_beside(alloc: Global, keys: Vec<Key>, pairs: &[(Key, u32)]) -> Option<Cloned> {
    cloned_tree::<16>(
        &mut NodeStore::new(alloc),
        &mut NodeStore::new(alloc),
        keys,
        pairs,
    )
}

// The same of these keys alone.
fn cloned_with(alloc: Global, keys: Vec<Key>) -> Option<Cloned> {
    match numbered(&keys, alloc) {
        Ok(pairs) => cloned_beside(alloc, keys, &pairs),
        Err(_) => None,
    }
}

// All keys of two bytes, each less than 18.
fn keys_of_two(alloc: Global) -> Result<Vec<Key>, AllocError> {
    let mut keys = Vec::new(alloc);
    for number in 0..324u16 {
        let (a, b) = (number / 18, number % 18);
        keys.push([a as u8, b as u8].to_vec(alloc)?)?;
    }
    Ok(keys)
}

// Keys of some zeros, from so many down to none, and then 255.
fn keys_of_fewer_zeros(alloc: Global, most: usize) -> Result<Vec<Key>, AllocError> {
    let mut keys = Vec::new(alloc);
    for zeros in (0..=most).rev() {
        let mut key = vec![in alloc; 0; zeros]?;
        key.push(255)?;
        keys.push(key)?;
    }
    Ok(keys)
}

// All keys of a byte three times and two other bytes, each less than 3.
fn keys_with_fronts(alloc: Global) -> Result<Vec<Key>, AllocError> {
    let mut keys = Vec::new(alloc);
    for number in 0..27u8 {
        let (a, b, c) = (number / 9, number / 3 % 3, number % 3);
        keys.push([a, a, a, b, c].to_vec(alloc)?)?;
    }
    Ok(keys)
}

// All keys of three bytes, less than 4, 3 and 2.
fn keys_of_three(alloc: Global) -> Result<Vec<Key>, AllocError> {
    let mut keys = Vec::new(alloc);
    for number in 0..24u8 {
        let (a, b, c) = (number / 6, number / 2 % 3, number % 2);
        keys.push([a, b, c].to_vec(alloc)?)?;
    }
    Ok(keys)
}

// The keys of the tree of this number, in order.
fn keys_of(alloc: Global, number: usize) -> Result<Vec<Key>, AllocError> {
    match number {
        0 => keys_of_three(alloc),
        1 => keys(alloc, &[&[0, 0], &[65, 229], &[171, 171]]),
        2 => keys_of_two(alloc),
        3 => keys_of_fewer_zeros(alloc, 126),
        4 => keys_with_fronts(alloc),
        _ => keys(alloc, &[&[0, 0, 0, 0, 0]]),
    }
}

// What a clone of the tree of this number is.
fn cloned_of(alloc: Global, number: usize) -> Option<Cloned> {
    match keys_of(alloc, number) {
        Ok(keys) => cloned_with(alloc, keys),
        Err(_) => None,
    }
}

// How many leaves and inner nodes these trees have.
static COUNTS: [(usize, usize); 6] = [(24, 17), (3, 1), (324, 19), (127, 126), (27, 13), (1, 0)];

#[test]
fn a_clone_is_the_same_tree(rt: HostRuntime) -> Result<(), Fail> {
    let alloc = rt.alloc();
    for (number, counts) in COUNTS.iter().enumerate() {
        let wanted = (*counts, true, [Some(true); 2]);
        same((number, cloned_of(alloc, number)), (number, Some(wanted)))?;
    }
    Ok(())
}

// A clone that may fail.
#[derive(Clone, Copy)]
struct Case {
    tree: CaseTree,
    /// Whether the other store has a leaf before.
    is_beside: bool,
    /// How many leaves and inner nodes the tree has.
    planted: (usize, usize),
    /// How many the other store has afterwards, if the clone is made.
    made: (usize, usize),
}

#[derive(Clone, Copy)]
enum CaseTree {
    /// The keys of one byte from 1 to 5.
    Five,
    /// The keys of one byte from 0 to 49, and three that start with 50.
    Many,
}

static FIVE_ALONE: Case = Case {
    tree: CaseTree::Five,
    is_beside: false,
    planted: (5, 1),
    made: (5, 1),
};

static FIVE_BESIDE: Case = Case {
    tree: CaseTree::Five,
    is_beside: true,
    planted: (5, 1),
    made: (6, 1),
};

static MANY_BESIDE: Case = Case {
    tree: CaseTree::Many,
    is_beside: true,
    planted: (53, 2),
    made: (54, 2),
};

fn keys_of_many(alloc: Global) -> Result<Vec<Key>, AllocError> {
    let mut keys = keys_after(alloc, &[], 50)?;
    for byte in 0..3u8 {
        keys.push([50, byte].to_vec(alloc)?)?;
    }
    Ok(keys)
}

// The keys of a case, in order.
fn keys_in(alloc: Global, case: Case) -> Result<Vec<Key>, AllocError> {
    match case.tree {
        CaseTree::Five => keys(alloc, &[&[1], &[2], &[3], &[4], &[5]]),
        CaseTree::Many => keys_of_many(alloc),
    }
}

// The pairs of a case.
fn pairs_in(alloc: Global, case: Case) -> Result<Vec<(Key, u32)>, AllocError> {
    let keys = keys_in(alloc, case)?;
    numbered(&keys, alloc)
}

// The result of a clone: a failure, with what it touches in the other store; or a clone, whether both trees are the
// same and have the pairs, and how many nodes the other store has.
#[derive(Clone, Copy, PartialEq, Eq, Debug)]
enum Outcome {
    Refused((usize, usize, usize)),
    Made(bool, (usize, usize)),
}

// A clone that was made.
fn judged<const P: usize>(
    (store, root): (&NodeStore<Key, u32, P>, OpaqueNodePtr),
    (into, copy): (&NodeStore<Key, u32, P>, OpaqueNodePtr),
    case: Case,
) -> Result<Outcome, AllocError> {
    let pairs = pairs_in(store.alloc(), case)?;
    let kind = kind_if_same((store, Some(root)), (into, Some(copy)), &pairs)?;
    Ok(Outcome::Made(kind.is_some(), count_nodes(into, 100)))
}

// Clones the tree of a case into a store with these nodes, and judges the result with memory.
fn clone_beside<const P: usize>(
    store: &NodeStore<Key, u32, P>,
    root: OpaqueNodePtr,
    into: &mut NodeStore<Key, u32, P>,
    before: &[Seen],
    case: Case,
) -> Result<Outcome, AllocError>
    requires { IsCanonicalRoot (of_key (λ key. key.items)) P store.now root }
{
    begin_refusals(store.alloc());
    let cloned = clone_unchecked(store, root, into);
    end_refusals(store.alloc());
    match cloned {
        Ok(copy) => judged((store, root), (into, copy.root), case),
        Err(AllocError) => Ok(Outcome::Refused(count_touched(into, before))),
    }
}

// The same with all nodes that are in the store. None if an allocation failed outside the clone.
fn clone_tried<const P: usize>(
    store: &NodeStore<Key, u32, P>,
    root: OpaqueNodePtr,
    into: &mut NodeStore<Key, u32, P>,
    case: Case,
) -> Option<Outcome>
    requires { IsCanonicalRoot (of_key (λ key. key.items)) P store.now root }
{
    match nodes_seen(into) {
        Ok(before) => clone_beside(store, root, into, &before, case).ok(),
        Err(_) => None,
    }
}

// Builds the tree of a case. None if that failed, or the tree has not the expected nodes.
fn case_planted<const P: usize>(
    store: &mut NodeStore<Key, u32, P>,
    case: Case,
) -> Option<OpaqueNodePtr>
    ensures { IfSome result (λ root. IsCanonicalRoot (of_key (λ key. key.items)) P store.new root) }
{
    let Ok(keys) = keys_in(store.alloc(), case) else {
        return None;
    };
    match planted_keys(store, keys) {
        Some(root) if count_nodes(store, 100) == case.planted => Some(root),
        _ => None,
    }
}

// Makes both stores what they should be before the clone, and clones. None if that went wrong before the clone.
fn clone_in<const P: usize>(
    store: &mut NodeStore<Key, u32, P>,
    into: &mut NodeStore<Key, u32, P>,
    case: Case,
) -> Option<Outcome> {
    if case.is_beside {
        place_nine(into)?;
    }
    let root = case_planted(store, case)?;
    clone_tried(store, root, into, case)
}

// The same in stores of its own.
fn clone_with<const P: usize>(alloc: Global, case: Case) -> Option<Outcome>
    requires { P < 256 }
{
    clone_in::<P>(&mut NodeStore::new(alloc), &mut NodeStore::new(alloc), case)
}

// The result of the clone of a case, and the expected one. If an allocation failed outside the clone all is done once
// more, without a failure, so that None means that it goes wrong without one.
fn clone_seen<const P: usize>(alloc: Global, case: Case) -> Option<(Outcome, Outcome)>
    requires { P < 256 }
{
    let mut outcome = clone_with::<P>(alloc, case);
    if outcome.is_none() {
        end_refusals(alloc);
        outcome = clone_with::<P>(alloc, case);
    }
    match outcome? {
        Outcome::Refused(touched) => Some((Outcome::Refused(touched), Outcome::Refused((0, 0, 0)))),
        made => Some((made, Outcome::Made(true, case.made))),
    }
}

// Fails if the result of a clone was not as expected, and reports if the clone failed.
fn assert_clone(rt: &impl Print, seen: Option<(Outcome, Outcome)>) -> Result<(), Fail> {
    as_expected(seen)?;
    if let Some((Outcome::Refused(_), _)) = seen {
        println!(rt; "asserted")?;
    }
    Ok(())
}

#[test]
fn refused_each_clone_leaves_no_node(rt: HostRuntime) -> Result<(), Fail> {
    assert_clone(&rt, clone_seen::<4>(rt.alloc(), FIVE_ALONE))
}

#[test]
fn refused_clones_leave_the_nodes_that_were_there(rt: HostRuntime) -> Result<(), Fail> {
    assert_clone(&rt, clone_seen::<4>(rt.alloc(), FIVE_BESIDE))
}

#[test]
fn refused_clones_of_many_leave_the_other_store_with_0_stored(rt: HostRuntime) -> Result<(), Fail> {
    assert_clone(&rt, clone_seen::<0>(rt.alloc(), MANY_BESIDE))
}

#[test]
fn refused_clones_of_many_leave_the_other_store_with_2_stored(rt: HostRuntime) -> Result<(), Fail> {
    assert_clone(&rt, clone_seen::<2>(rt.alloc(), MANY_BESIDE))
}

#[test]
fn refused_clones_of_many_leave_the_other_store_with_4_stored(rt: HostRuntime) -> Result<(), Fail> {
    assert_clone(&rt, clone_seen::<4>(rt.alloc(), MANY_BESIDE))
}

#[test]
fn refused_clones_of_many_leave_the_other_store_with_16_stored(
    rt: HostRuntime,
) -> Result<(), Fail> {
    assert_clone(&rt, clone_seen::<16>(rt.alloc(), MANY_BESIDE))
}
