//! Maps by the traits of std: collected, extended and cloned.
use art_keyed::map::TreeMap;
use art_keys::signed::I16Key;
use std::alloc::{AllocError, Global};
use std::test::Fail;
use test_helpers::expected::same;

type Days = TreeMap<I16Key, u32, 4>;

// The days of a range, each with its index.
fn pairs(alloc: Global, first: i16, last: i16) -> Result<Vec<(I16Key, u32)>, AllocError> {
    let mut pairs = Vec::new(alloc);
    let mut place = 0u32;
    for number in first..last {
        pairs.push((I16Key::from(number), place))?;
        place = place.saturating_add(1);
    }
    Ok(pairs)
}

fn days(alloc: Global, first: i16, last: i16) -> Result<Days, AllocError> {
    pairs(alloc, first, last)?.into_iter().rev().collect(alloc)
}

// How many days there are once others are inserted, and two of their values.
fn extend(alloc: Global) -> Option<(usize, Option<u32>, Option<u32>)> {
    let mut map = days(alloc, -10, 10).ok()?;
    map.extend(pairs(alloc, 5, 20).ok()?).ok()?;
    Some((
        map.len(),
        map.get(&I16Key::from(-10)).copied(),
        map.get(&I16Key::from(5)).copied(),
    ))
}

#[test]
fn a_map_is_collected_and_extended(rt: HostRuntime) -> Result<(), Fail> {
    same(extend(rt.alloc()), Some((30, Some(0), Some(0))))
}

// Whether a clone is equal to the map, and whether it is once the map has changed.
fn clone_days(alloc: Global) -> Option<[bool; 2]> {
    let mut map = days(alloc, 0, 300).ok()?;
    let copy = map.clone().ok()?;
    let is_equal = copy == map;
    map.pop_first();
    Some([is_equal, copy == map])
}

#[test]
fn a_clone_stands_by_itself(rt: HostRuntime) -> Result<(), Fail> {
    same(clone_days(rt.alloc()), Some([true, false]))
}
