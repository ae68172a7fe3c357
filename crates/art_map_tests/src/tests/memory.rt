//! Calls while allocations fail.
use super::calls::{Map, Removal, fill, remove, value_of};
use art_map::map::{ByteMap, MapInsertError};
use art_node_support::expected::same;
use art_node_support::memory::{all_memory, begin_refusals, end_refusals};
use std::alloc::Global;
use std::test::Fail;

#[test]
fn without_memory_nothing_is_granted(rt: HostRuntime) -> Result<(), Fail> {
    let alloc = rt.alloc();
    let held = all_memory(alloc)?;
    let refused = Vec::<u8>::with_capacity(alloc, 1).is_err();
    drop(held);
    let granted = Vec::<u8>::with_capacity(alloc, 1).is_ok();
    same((refused, granted), (true, true))
}

// Whether an insertion fails for lack of memory, and returns its pair.
fn is_refused(map: &mut Map, byte: u8, value: u32) -> bool {
    match map.insert([byte], value) {
        Err(MapInsertError::Memory { key, value: back }) => key == [byte] && back == value,
        _ => false,
    }
}

// The same for an insertion that replaces all related keys.
fn is_refused_over(map: &mut Map, byte: u8, value: u32) -> bool {
    match map.insert_over([byte], value) {
        Err(refused) => refused.key == [byte] && refused.value == value,
        Ok(_) => false,
    }
}

// Whether the first insertions into a map fail while all memory is held, and how many pairs it then has.
fn starve_new(alloc: Global, map: &mut Map) -> Option<([bool; 2], usize)> {
    let held = all_memory(alloc).ok()?;
    let refused = [is_refused(map, 1, 2), is_refused_over(map, 1, 2)];
    drop(held);
    Some((refused, map.len()))
}

#[test]
fn without_memory_a_first_insertion_is_refused(rt: HostRuntime) -> Result<(), Fail> {
    let seen = starve_new(rt.alloc(), &mut ByteMap::new(rt.alloc()));
    same(seen, Some(([true, true], 0)))
}

// Whether the first insertion into a map fails and returns its pair, and how many pairs it then has.
fn insert_first(alloc: Global, map: &mut Map) -> (bool, usize) {
    begin_refusals(alloc);
    let is_refused = is_refused(map, 1, 2);
    end_refusals(alloc);
    (is_refused, map.len())
}

#[test]
fn refused_each_first_insertion_hands_the_pair_back(rt: HostRuntime) -> Result<(), Fail> {
    let (is_refused, len) = insert_first(rt.alloc(), &mut ByteMap::new(rt.alloc()));
    same(len, if is_refused { 0 } else { 1 })?;
    if is_refused {
        println!(rt; "asserted")?;
    }
    Ok(())
}

// Whether a removal returns the pair of this byte, which the map then no longer has.
fn is_removed(map: &mut Map, removal: Removal<[u8; 1]>, byte: u8) -> bool {
    let before = map.len();
    remove(map, removal) == Some(([byte], byte as u32))
        && map.len().saturating_add(1) == before
        && !map.contains_key(&[byte])
}

// What calls that need no memory return for a map of five pairs, the third of which gets its value again.
fn answers(map: &mut Map) -> ([Option<u32>; 3], bool) {
    let values = [
        map.get(&[3]).copied(),
        match map.insert([3], 3) {
            Ok(Some(old)) => Some(old.1),
            _ => None,
        },
        value_of(map.iter().next_back()),
    ];
    (values, matches!(map.insert_over([3], 3), Ok(1)))
}

// The same while all memory is held, and whether pairs are then removed.
fn starve(alloc: Global, map: &mut Map) -> Option<([Option<u32>; 3], [bool; 4])> {
    fill(map, 5);
    let held = all_memory(alloc).ok()?;
    let (values, is_over) = answers(map);
    let are_made = [
        is_over,
        is_removed(map, Removal::Key([3]), 3),
        is_removed(map, Removal::First, 1),
        is_removed(map, Removal::Last, 5),
    ];
    drop(held);
    Some((values, are_made))
}

#[test]
fn without_memory_pairs_are_found_and_removed(rt: HostRuntime) -> Result<(), Fail> {
    let seen = starve(rt.alloc(), &mut ByteMap::new(rt.alloc()));
    same(seen, Some(([Some(3), Some(3), Some(5)], [true; 4])))
}

// A map with keys of any length.
type OfAnyLen = ByteMap<Vec<u8>, u32, 4>;

// How many pairs this one replaces while all memory is held.
fn starve_over(alloc: Global, map: &mut OfAnyLen, key: Vec<u8>, value: u32) -> Option<usize> {
    let held = all_memory(alloc).ok()?;
    let gone = map.insert_over(key, value).ok();
    drop(held);
    gone
}

// The same if exactly one longer key is stored, with how many pairs there then are, and the values of both keys.
fn starve_over_longer(
    alloc: Global,
    map: &mut OfAnyLen,
) -> Option<(usize, usize, [Option<u32>; 2])> {
    map.insert([1, 1].to_vec(alloc).ok()?, 7).ok()?;
    let gone = starve_over(alloc, map, [1].to_vec(alloc).ok()?, 9)?;
    let values = [map.get(&[1, 1]).copied(), map.get(&[1]).copied()];
    Some((gone, map.len(), values))
}

#[test]
fn without_memory_a_longer_key_gives_way(rt: HostRuntime) -> Result<(), Fail> {
    let seen = starve_over_longer(rt.alloc(), &mut ByteMap::new(rt.alloc()));
    same(seen, Some((1, 1, [None, Some(9)])))
}

type Deep = ByteMap<[u8; 5], u32, 4>;

// Inserts these keys. Returns whether all insertions succeed.
fn insert_each(map: &mut Deep, keys: &[[u8; 5]]) -> bool {
    for key in keys {
        if map.insert(*key, 0).is_err() {
            return false;
        }
    }
    true
}

// Inserts keys with five first bytes. With four of these bytes there are keys that take four nodes of the smallest kind
// each: together as many as a store has slots for before it allocates more.
fn fill_deep(map: &mut Deep) -> bool {
    for first in 1..=5u8 {
        if map.insert([first, 2, 0, 0, 0], 7).is_err() {
            return false;
        }
    }
    for first in 1..=4u8 {
        let keys = [
            [first, 1, 2, 0, 0],
            [first, 1, 1, 2, 0],
            [first, 1, 1, 1, 2],
            [first, 1, 1, 1, 1],
        ];
        if !insert_each(map, &keys) {
            return false;
        }
    }
    map.len() == 21
}

// Inserts keys for which no inner node is placed, until an insertion fails. Returns whether one did.
fn crowd_deep(map: &mut Deep) -> bool {
    for first in 1..=4u8 {
        for byte in 3..=4u8 {
            let keys = [
                [first, byte, 0, 0, 0],
                [first, 1, byte, 0, 0],
                [first, 1, 1, byte, 0],
                [first, 1, 1, 1, byte],
            ];
            if !insert_each(map, &keys) {
                return true;
            }
        }
    }
    false
}

// Whether the pair with the fifth first byte is removed, by its key or with all keys that start with this byte.
fn take_fifth(map: &mut Deep, is_whole: bool) -> bool {
    if is_whole {
        map.remove_prefix(&[5]) == 1
    } else {
        matches!(map.remove(&[5, 2, 0, 0, 0]), Ok(Some((_, 7))))
    }
}

// Whether an insertion fails while all memory is held, and then a removal succeeds for which a smaller node is placed.
fn starve_deep(alloc: Global, map: &mut Deep, is_whole: bool) -> Option<[bool; 4]> {
    let is_filled = fill_deep(map);
    let held = all_memory(alloc).ok()?;
    let is_full = crowd_deep(map);
    let before = map.len();
    let is_taken = take_fifth(map, is_whole);
    drop(held);
    let is_gone = map.len().saturating_add(1) == before && !map.contains_key(&[5, 2, 0, 0, 0]);
    Some([is_filled, is_full, is_taken, is_gone])
}

#[test]
fn without_memory_a_shrinking_removal_is_made(rt: HostRuntime) -> Result<(), Fail> {
    for is_whole in [false, true] {
        let seen = starve_deep(rt.alloc(), &mut ByteMap::new(rt.alloc()), is_whole);
        same(seen, Some([true; 4]))?;
    }
    Ok(())
}

fn is_clone_refused(map: &Map) -> bool {
    map.clone().is_err()
}

// Whether clones of a map and of an empty one fail while all memory is held, and how many pairs the first one then has.
fn starve_clones(alloc: Global, map: &mut Map, empty: &Map) -> Option<([bool; 2], usize)> {
    fill(map, 5);
    let held = all_memory(alloc).ok()?;
    let refused = [is_clone_refused(map), is_clone_refused(empty)];
    drop(held);
    Some((refused, map.len()))
}

#[test]
fn without_memory_no_pair_is_cloned(rt: HostRuntime) -> Result<(), Fail> {
    let alloc = rt.alloc();
    let seen = starve_clones(alloc, &mut ByteMap::new(alloc), &ByteMap::new(alloc));
    same(seen, Some(([true, false], 5)))
}

// Whether a clone of a map fails, and how many pairs the map then has.
fn clone_many(alloc: Global, map: &mut Map) -> (bool, usize) {
    fill(map, 60);
    begin_refusals(alloc);
    let is_refused = is_clone_refused(map);
    end_refusals(alloc);
    (is_refused, map.len())
}

#[test]
fn refused_each_clone_of_many_leaves_the_map(rt: HostRuntime) -> Result<(), Fail> {
    let (is_refused, len) = clone_many(rt.alloc(), &mut ByteMap::new(rt.alloc()));
    same(len, 60)?;
    if is_refused {
        println!(rt; "asserted")?;
    }
    Ok(())
}
