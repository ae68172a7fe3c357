//! Checks whose allocations fail: all memory is held, or tools/refusals makes one allocation fail in turn. A failure
//! outside the check under test decides nothing; after one within it the test reports that it asserted what holds then.
ghost use Rattle.std.specs.Prelude.{◌<◌};

use super::told::{Told, check_says, fault, named, told_by, told_by_fault};
use art_checking::well_formed::{KeyPrefix, MalformedTreeError, WellFormedChecker};
use art_nodes::node::{NodeType, OpaqueNodePtr};
use art_nodes::store::NodeStore;
use art_test_support::expected::same;
use art_test_support::memory::all_memory;
use art_test_support::placing::{Plain, lone_leaf, placed_all, plain_node};
use art_test_support::shapes::count_nodes;
use art_test_support::trees::{Key, keys_after, planted_all, planted_keys};
use art_writing::insert::InsertPrefixError;
use std::alloc::{AllocError, Global};
use std::boxed::BoxedSlice;
use std::cmp::Ordering;
use std::process::Abort;
use std::test::Fail;

/// Whether a check fails.
fn is_refused<const P: usize>(store: &NodeStore<Key, u32, P>, root: OpaqueNodePtr) -> bool {
    check_says(store, Some(root), 0, Told::OutOfMemory)
}

/// Whether there is no tree where there is no root, and another length than 0 is a fault. It allocates nothing.
fn is_told_without_root<const P: usize>(store: &NodeStore<Key, u32, P>) -> bool {
    check_says(store, None, 0, Told::Whole(0, 0)) && check_says(store, None, 1, Told::LenOfNone)
}

/// The same of a planted tree and of no root, while all memory is held.
fn are_refused_without_memory<const P: usize>(
    store: &NodeStore<Key, u32, P>,
    root: OpaqueNodePtr,
) -> Option<[bool; 2]> {
    let held = all_memory(store.alloc()).ok()?;
    let seen = [is_refused(store, root), is_told_without_root(store)];
    drop(held);
    Some(seen)
}

/// The same of the tree of two keys.
fn two_keys_without_memory(store: &mut NodeStore<Key, u32, 4>) -> Option<[bool; 2]> {
    let root = planted_all(store, &[&[1, 1], &[1, 2]]).ok()??;
    are_refused_without_memory(store, root)
}

#[test]
fn without_memory_there_is_no_verdict(rt: HostRuntime) -> Result<(), Fail> {
    let seen = two_keys_without_memory(&mut NodeStore::new(rt.alloc()));
    same(seen, Some([true; 2]))
}

/// Whether clones of a prefix and of two faults fail while all memory is held, and copies of bytes too, except for the
/// clone of the second fault, which has no bytes.
fn are_refused(
    alloc: Global,
    prefix: &KeyPrefix,
    with_bytes: &MalformedTreeError,
    without: &MalformedTreeError,
) -> Option<[bool; 4]> {
    let held = all_memory(alloc).ok()?;
    let seen = [
        prefix.clone().is_err(),
        KeyPrefix::from_slice(alloc, &[1, 2]).is_err(),
        with_bytes.clone().is_err(),
        without.clone().is_ok(),
    ];
    drop(held);
    Some(seen)
}

/// The same of a prefix and faults of its own.
fn are_clones_refused(alloc: Global) -> Option<[bool; 4]> {
    let prefix = KeyPrefix::from_slice(alloc, &[1, 2]).ok()?;
    let with_bytes = fault(alloc, Told::Stored(&[], &[1, 2], &[1, 1])).ok()?;
    are_refused(
        alloc,
        &prefix,
        &with_bytes,
        &MalformedTreeError::EmptyTreeWithLen,
    )
}

#[test]
fn without_memory_no_fault_is_cloned(rt: HostRuntime) -> Result<(), Fail> {
    same(are_clones_refused(rt.alloc()), Some([true; 4]))
}

/// The result of a check or a clone: it fails, or it is right, or wrong.
#[derive(Clone, Copy, PartialEq, Eq)]
enum Outcome {
    Refused,
    Right,
    Wrong,
}

/// The result of the check of a name that should report this.
fn what_comes<const P: usize>(
    store: &NodeStore<Key, u32, P>,
    root: OpaqueNodePtr,
    wanted: Told<'_>,
) -> Outcome {
    let answer = WellFormedChecker::check_tree(store, root);
    outcome_of(told_by(&answer), wanted)
}

/// The result of a check that reports this.
fn outcome_of(told: Told<'_>, wanted: Told<'_>) -> Outcome {
    match told {
        Told::OutOfMemory => Outcome::Refused,
        told if told == wanted => Outcome::Right,
        _ => Outcome::Wrong,
    }
}

/// A tree of all nodes of a store, of which there are fewer if an allocation of an insertion failed.
fn all_nodes<const P: usize>(store: &NodeStore<Key, u32, P>) -> Told<'_> {
    let (leaves, inners) = count_nodes(store, 100);
    Told::Whole(leaves, inners)
}

/// 53 keys: of one byte below 50, and of 50 and then one of three.
fn many_keys(alloc: Global) -> Result<Vec<Key>, AllocError> {
    let mut keys = keys_after(alloc, &[], 50)?;
    for byte in 0..3u8 {
        keys.push([50, byte].to_vec(alloc)?)?;
    }
    Ok(keys)
}

/// The check of a tree of 53 leaves. None if an allocation fails outside it.
fn check_of_many<const P: usize>(store: &mut NodeStore<Key, u32, P>) -> Option<Outcome> {
    let keys = many_keys(store.alloc()).ok()?;
    let root = planted_keys(store, keys)?;
    Some(what_comes(store, root, all_nodes(store)))
}

/// The check of two long keys, whose common prefix is read from a leaf.
fn check_of_long_keys<const P: usize>(store: &mut NodeStore<Key, u32, P>) -> Option<Outcome> {
    let slices: [&[u8]; 2] = [&[7, 7, 7, 7, 7, 1], &[7, 7, 7, 7, 7, 2]];
    let root = planted_all(store, &slices).ok()??;
    Some(what_comes(store, root, all_nodes(store)))
}

/// The check of the first of two names, which leads to the other by two bytes.
fn check_of_pair<const P: usize>(
    store: &NodeStore<Key, u32, P>,
    names: &[OpaqueNodePtr],
) -> Option<Outcome> {
    let (root, twin) = (*names.first()?, *names.get(1)?);
    Some(what_comes(store, root, Told::Loop(named(twin), &[1], &[2])))
}

/// The check of a leaf that two bytes lead to.
fn check_of_twins<const P: usize>(store: &mut NodeStore<Key, u32, P>) -> Option<Outcome> {
    let nodes: [Plain<'_>; 2] = [
        plain_node(NodeType::Node4, &[(1, 1), (2, 1)]),
        lone_leaf(&[1], 0),
    ];
    let names = placed_all(store, &nodes).ok()??;
    check_of_pair(store, &names)
}

/// The check of a tree of 53 leaves in a store of its own.
fn many_checked<const P: usize>(alloc: Global) -> Option<Outcome>
    requires { P < 256 }
{
    check_of_many::<P>(&mut NodeStore::new(alloc))
}

/// The same of two long keys.
fn long_keys_checked(alloc: Global) -> Option<Outcome> {
    check_of_long_keys::<2>(&mut NodeStore::new(alloc))
}

/// The same of a leaf that two bytes lead to.
fn twins_checked(alloc: Global) -> Option<Outcome> {
    check_of_twins::<4>(&mut NodeStore::new(alloc))
}

/// The results of these, if no allocation failed outside, with none for those that were not reached.
fn outcomes(alloc: Global) -> [Option<Outcome>; 6] {
    let [at_0, at_2, at_4, at_16] = with_each!(many_checked, alloc);
    [
        at_0,
        at_2,
        at_4,
        at_16,
        long_keys_checked(alloc),
        twins_checked(alloc),
    ]
}

/// Asserts that none of these is wrong, and reports if one failed.
fn assert_none_wrong(rt: &(impl Abort + Print), outcomes: &[Option<Outcome>]) -> Result<(), Fail> {
    assert!(rt; !outcomes.contains(&Some(Outcome::Wrong)));
    if outcomes.contains(&Some(Outcome::Refused)) {
        println!(rt; "asserted")?;
    }
    Ok(())
}

#[test]
fn refused_checks_say_nothing_of_the_tree(rt: HostRuntime) -> Result<(), Fail> {
    assert_none_wrong(&rt, &outcomes(rt.alloc()))
}

/// The result of a clone, which may be right, of what should be unchanged.
fn outcome_of_clone(is_right: Result<bool, AllocError>, is_kept: bool) -> Outcome {
    match is_right {
        Ok(true) if is_kept => Outcome::Right,
        Err(AllocError) if is_kept => Outcome::Refused,
        _ => Outcome::Wrong,
    }
}

/// The result of the clone of the fault that reports this: it fails, or it is the same fault, or another. None if the
/// fault itself can't be made.
fn clone_of(alloc: Global, told: Told<'_>) -> Option<Outcome> {
    let fault = fault(alloc, told).ok()?;
    let is_kept = told_by_fault(&fault) == told;
    Some(outcome_of_clone(is_same_cloned(&fault), is_kept))
}

/// Whether a clone of a fault equals it.
fn is_same_cloned(fault: &MalformedTreeError) -> Result<bool, AllocError> {
    let copy = fault.clone()?;
    Ok(copy == *fault)
}

/// The same of a prefix.
fn clone_of_prefix(alloc: Global) -> Option<Outcome> {
    let prefix = KeyPrefix::from_slice(alloc, &[1, 2]).ok()?;
    let is_same = prefix
        .clone()
        .map(|copy| copy.as_slice() == prefix.as_slice());
    Some(outcome_of_clone(is_same, prefix.as_slice() == [1, 2].as_slice()))
}

/// The same of the error of an insertion.
fn clone_of_conflict(alloc: Global) -> Option<Outcome> {
    let byte_repr = BoxedSlice::from_slice(alloc, &[1u8, 2]).ok()?;
    let conflict = InsertPrefixError { byte_repr };
    let is_same = conflict.clone().map(|copy| copy == conflict);
    Some(outcome_of_clone(is_same, conflict.byte_repr[..] == [1, 2]))
}

/// The contents of faults of all kinds.
static FAULTS: [Told<'static>; 10] = [
    Told::Loop((NodeType::Node48, 3), &[1], &[2, 3]),
    Told::Count(&[1], NodeType::Node4, 1),
    Told::Prefix(&[1], &[2, 3]),
    Told::LenOfNone,
    Told::Order(&[2], &[1], Ordering::Less, Ordering::Greater),
    Told::Links(&[1], (None, None), (None, None)),
    Told::Dead(&[1], (NodeType::Node48, 3)),
    Told::Unreadable(&[1], (NodeType::Node48, 3)),
    Told::Stored(&[1], &[1, 2], &[1, 1]),
    Told::OutOfMemory,
];

/// The result of clones of them, of a prefix, and of the error of an insertion.
fn clones(alloc: Global) -> [Option<Outcome>; 12] {
    let mut outcomes = [None; 12];
    for (outcome, told) in outcomes.iter_mut().zip(&FAULTS) {
        *outcome = clone_of(alloc, *told);
    }
    outcomes[10] = clone_of_prefix(alloc);
    outcomes[11] = clone_of_conflict(alloc);
    outcomes
}

#[test]
fn refused_clones_leave_the_faults(rt: HostRuntime) -> Result<(), Fail> {
    assert_none_wrong(&rt, &clones(rt.alloc()))
}
