//! Iteration over the pairs of a map, by reference and by value.
use super::calls::{Map, fill};
use art_map::map::{ByteMap, MapIter};
use art_node_support::expected::same;
use std::alloc::Global;
use std::test::Fail;

// A map with the keys from 1 to 5.
fn filled(alloc: Global) -> Map {
    let mut map = ByteMap::new(alloc);
    fill(&mut map, 5);
    map
}

#[test]
fn pairs_come_by_value_from_both_ends(rt: HostRuntime) -> Result<(), Fail> {
    let mut pairs = filled(rt.alloc()).into_iter();
    let ends = (pairs.next(), pairs.next_back(), pairs.len());
    let rest = (pairs.next(), pairs.next_back(), pairs.next());
    same(
        (ends, rest, pairs.next_back()),
        (
            (Some(([1], 1)), Some(([5], 5)), 3),
            (Some(([2], 2)), Some(([4], 4)), Some(([3], 3))),
            None,
        ),
    )
}

#[test]
fn keys_and_values_come_by_value(rt: HostRuntime) -> Result<(), Fail> {
    let mut keys = filled(rt.alloc()).into_keys();
    let mut values = filled(rt.alloc()).into_values();
    let seen = (
        keys.next(),
        keys.next_back(),
        values.next(),
        values.next_back(),
    );
    same(
        (seen, keys.len(), values.len()),
        ((Some([1]), Some([5]), Some(1), Some(5)), 3, 3),
    )
}

// The value that an iterator returns from the front, or from the back, and how many pairs are left before it.
fn value_from(pairs: &mut MapIter<'_, [u8; 1], u32, 4>, is_front: bool) -> (usize, u32) {
    let len = pairs.len();
    let pair = if is_front {
        pairs.next()
    } else {
        pairs.next_back()
    };
    match pair {
        Some((_, value)) => (len, *value),
        None => (len, 0),
    }
}

fn from_both_ends(map: &Map) -> [(usize, u32); 6] {
    let mut pairs = map.iter();
    let mut seen = [(0, 0); 6];
    for at in 0..6usize {
        seen[at] = value_from(&mut pairs, at % 2 == 0);
    }
    seen
}

// How many pairs a clone of an iterator has after the first one, and the iterator itself.
fn copied(map: &Map) -> Option<[usize; 2]> {
    let mut pairs = map.iter();
    pairs.next();
    let copy = pairs.clone().ok()?;
    Some([copy.count(), pairs.len()])
}

// The bounds of the number of pairs that a part has, after its first pair.
fn bounds_of_part(map: &Map) -> (usize, Option<usize>) {
    let mut part = map.prefix(&[]);
    part.next();
    part.size_hint()
}

#[test]
fn pairs_come_from_both_ends(rt: HostRuntime) -> Result<(), Fail> {
    let map = filled(rt.alloc());
    let came = [(5, 1), (4, 5), (3, 2), (2, 4), (1, 3), (0, 0)];
    same(
        (from_both_ends(&map), copied(&map), bounds_of_part(&map)),
        (came, Some([4, 4]), (0, Some(4))),
    )
}
