//! Sets by the traits of std: collected, extended, cloned and combined.
ghost use Rattle.std.specs.Prelude.{◌<◌};

use art_keyed_sets::set::TreeSet;
use art_keys::unsigned::U8Key;
use art_node_support::expected::same;
use std::alloc::{AllocError, Global};
use std::test::Fail;

type Numbers = TreeSet<U8Key, 2>;

// The multiples of a number below 60.
fn multiples(alloc: Global, of: u8) -> Result<Vec<U8Key>, AllocError>
    requires { 0 < of }
{
    let mut keys = Vec::new(alloc);
    for number in 0..60u8 {
        if number % of == 0 {
            keys.push(U8Key::from(number))?;
        }
    }
    Ok(keys)
}

// A set of these multiples.
fn set_of(alloc: Global, of: u8) -> Result<Numbers, AllocError>
    requires { 0 < of }
{
    multiples(alloc, of)?.into_iter().collect(alloc)
}

// How many keys a set has, and their sum.
fn sum(set: &Numbers) -> (usize, u32) {
    let mut sum = 0u32;
    for key in set {
        sum = sum.saturating_add(key.get() as u32);
    }
    (set.len(), sum)
}

// How many numbers a set has once others are inserted in two ways.
fn extend_set(alloc: Global) -> Option<(usize, u32)> {
    let mut set = set_of(alloc, 4).ok()?;
    set.extend(multiples(alloc, 2).ok()?).ok()?;
    set.extend_by_ref(&mut multiples(alloc, 3).ok()?.into_iter())
        .ok()?;
    Some(sum(&set))
}

#[test]
fn a_set_is_collected_and_extended(rt: HostRuntime) -> Result<(), Fail> {
    same(extend_set(rt.alloc()), Some((40, 1170)))
}

// The same for the union, the intersection, the difference and the symmetric difference of two sets.
fn combine(twos: &Numbers, threes: &Numbers) -> Option<[(usize, u32); 4]> {
    let either = sum(&(twos | threes).ok()?);
    let both = sum(&(twos & threes).ok()?);
    let first = sum(&(twos - threes).ok()?);
    let one = sum(&(twos ^ threes).ok()?);
    Some([either, both, first, one])
}

// The same for the multiples of 2 and of 3.
fn combine_multiples(alloc: Global) -> Option<[(usize, u32); 4]> {
    let (twos, threes) = (set_of(alloc, 2).ok()?, set_of(alloc, 3).ok()?);
    combine(&twos, &threes)
}

#[test]
fn two_sets_are_combined(rt: HostRuntime) -> Result<(), Fail> {
    let seen = combine_multiples(rt.alloc());
    same(seen, Some([(40, 1170), (10, 270), (20, 600), (30, 900)]))
}

// Whether a clone of a set is equal to it, and whether it is once the set has changed.
fn clone_set(alloc: Global) -> Option<[bool; 2]> {
    let mut set = set_of(alloc, 1).ok()?;
    let copy = set.clone().ok()?;
    let is_equal = copy == set;
    set.pop_last();
    Some([is_equal, copy == set])
}

#[test]
fn a_clone_of_a_set_stands_by_itself(rt: HostRuntime) -> Result<(), Fail> {
    same(clone_set(rt.alloc()), Some([true, false]))
}
