//! The check of trees that were damaged in one place, compared with an independent check.
ghost use Rattle.std.specs.Prelude.{◌<◌};

use super::spoiling::{draw_keys, names_below, spoil};
use super::told::{Told, check_tree_says, named, slots};
use super::verdicts::{Flaw, Verdict, judge};
use art_nodes::node::OpaqueNodePtr;
use art_nodes::store::NodeStore;
use art_test_support::expected::same;
use art_test_support::numbers::Numbers;
use art_test_support::trees::{Key, try_planted_keys};
use std::alloc::{AllocError, Global};
use std::test::Fail;

/// What a verdict reports. One that is unknown reports what no check returns here.
fn told_by_verdict(verdict: &Verdict) -> Told<'_> {
    match verdict {
        Verdict::Tree(leaves, inners) => Told::Whole(*leaves, *inners),
        Verdict::Unknown => Told::OutOfMemory,
        Verdict::Flawed(flaw) => told_by_flaw(flaw),
    }
}

fn told_by_flaw(flaw: &Flaw) -> Told<'_> {
    match flaw {
        Flaw::Twice(name, first, later) => Told::Loop(named(*name), first, later),
        Flaw::Children(place, kind, count) => Told::Count(place, *kind, *count),
        Flaw::Key(place, key) => Told::Prefix(place, key),
        Flaw::Order(sibling, key, wanted, order) => Told::Order(sibling, key, *wanted, *order),
        Flaw::Links(key, wanted, links) => {
            Told::Links(
                key,
                slots((wanted[0], wanted[1])),
                slots((links[0], links[1])),
            )
        }
        Flaw::NoNode(place, name) => Told::Dead(place, named(*name)),
        Flaw::NoPrefix(place, name) => Told::Unreadable(place, named(*name)),
        Flaw::Stored(place, stored, actual) => Told::Stored(place, stored, actual),
    }
}

/// A number for what is reported.
fn number_of(told: Told<'_>) -> usize {
    match told {
        Told::Whole(..) => 0,
        Told::Loop(..) => 1,
        Told::Count(..) => 2,
        Told::Prefix(..) => 3,
        Told::Order(..) => 4,
        Told::Links(..) => 5,
        Told::Dead(..) => 6,
        Told::Unreadable(..) => 7,
        Told::Stored(..) => 8,
        Told::LenOfNone | Told::OutOfMemory => 9,
    }
}

/// The number of what the check reports of a name, if the other check reports the same.
fn number_if_same<const P: usize>(
    store: &NodeStore<Key, u32, P>,
    root: OpaqueNodePtr,
) -> Result<Option<usize>, AllocError> {
    let verdict = judge(store, root, 10_000)?;
    let told = told_by_verdict(&verdict);
    let is_same = check_tree_says(store, root, told);
    Ok(is_same.then_some(number_of(told)))
}

/// Whether the check of a tree counts the nodes that have these names.
fn is_counted<const P: usize>(
    store: &NodeStore<Key, u32, P>,
    root: OpaqueNodePtr,
    names: &[OpaqueNodePtr],
) -> bool {
    let leaves = names.iter().filter(|name| name.as_leaf().is_some()).count();
    let told = Told::Whole(leaves, names.len().saturating_sub(leaves));
    check_tree_says(store, root, told)
}

/// Checks a tree of nodes with these names, and checks it again after it is damaged. Returns the number of what is
/// reported then. None if one of the checks is wrong.
fn spoil_and_check<const P: usize>(
    store: &mut NodeStore<Key, u32, P>,
    names: &[OpaqueNodePtr],
    root: OpaqueNodePtr,
    numbers: &mut Numbers,
) -> Result<Option<usize>, AllocError> {
    if !is_counted(store, root, names) {
        return Ok(None);
    }
    let root = spoil(store, names, root, numbers)?;
    number_if_same(store, root)
}

/// The same of a drawn tree, which is planted before.
fn try_in<const P: usize>(
    store: &mut NodeStore<Key, u32, P>,
    numbers: &mut Numbers,
) -> Result<Option<usize>, AllocError> {
    let keys = draw_keys(store.alloc(), numbers)?;
    let Some(root) = try_planted_keys(store, keys)? else {
        return Ok(None);
    };
    let names = names_below(store, root)?;
    spoil_and_check(store, &names, root, numbers)
}

/// The same in a store of its own.
fn try_one<const P: usize>(
    alloc: Global,
    numbers: &mut Numbers,
) -> Result<Option<usize>, AllocError>
    requires { P < 256 }
{
    try_in::<P>(&mut NodeStore::new(alloc), numbers)
}

/// How often each was reported of 2,500 damaged trees with so many stored bytes, and last how many checks were wrong.
fn try_many<const P: usize>(alloc: Global) -> Result<[usize; 10], AllocError>
    requires { P < 256 }
{
    let mut numbers = Numbers::new(P as u64);
    let mut counts = [0usize; 10];
    for _ in 0..2_500 {
        let told = try_one::<P>(alloc, &mut numbers)?.unwrap_or(9);
        if let Some(count) = counts.get_mut(told) {
            *count = count.saturating_add(1);
        }
    }
    Ok(counts)
}

/// Whether no check of 2,500 damaged trees with so many stored bytes was wrong, and each was reported but the last of
/// so many: a stored byte can be wrong only where bytes are stored.
fn are_told<const P: usize>(alloc: Global) -> bool
    requires { P < 256 }
{
    let Ok(counts) = try_many::<P>(alloc) else {
        return false;
    };
    for (number, count) in counts.iter().enumerate() {
        let is_possible = number < 8 || number == 8 && P > 0;
        if (*count > 0) != is_possible {
            return false;
        }
    }
    true
}

#[test]
fn spoiled_trees_are_told_as_another_check_tells(rt: HostRuntime) -> Result<(), Fail> {
    same(with_each!(are_told, rt.alloc()), [true; 4])
}
