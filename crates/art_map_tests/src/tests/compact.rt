//! Maps whose pairs were moved into the order of their keys.
use super::calls::{Map, with_digit};
use art_map::map::ByteMap;
use art_node_support::expected::same;
use art_node_support::memory::{all_memory, begin_refusals, end_refusals};
use art_sets::set::ByteSet;
use std::alloc::Global;
use std::test::Fail;

// Inserts keys in no order, each with its byte as its value.
fn fill_unsorted(map: &mut Map) {
    for byte in [7u8, 2, 9, 4, 6, 1] {
        drop(map.insert([byte], byte as u32));
    }
}

fn from_back(map: &Map) -> u32 {
    let mut digits = 0u32;
    for (_, digit) in map.iter().rev() {
        digits = digits.wrapping_mul(10).wrapping_add(*digit);
    }
    digits
}

// The values as the digits of a number, from the front, and from the back.
fn digits(map: &Map) -> [u32; 2] {
    [map.iter().fold(0, with_digit), from_back(map)]
}

// Whether a map is compacted, its digits then, and the values of two keys.
fn compacted(map: &mut Map) -> (bool, [u32; 2], [Option<u32>; 2]) {
    fill_unsorted(map);
    let is_compact = map.compact().is_ok();
    let values = [map.get(&[4]).copied(), map.get(&[5]).copied()];
    (is_compact, digits(map), values)
}

#[test]
fn a_compact_map_has_the_same_pairs(rt: HostRuntime) -> Result<(), Fail> {
    let seen = compacted(&mut ByteMap::new(rt.alloc()));
    same(seen, (true, [124_679, 976_421], [Some(4), None]))
}

// Whether a map frees its spare room, its digits then, and whether a pair is inserted after that.
fn shrunk(map: &mut Map) -> (bool, [u32; 2], bool) {
    fill_unsorted(map);
    let is_shrunk = map.shrink_to_fit().is_ok();
    let digits = digits(map);
    (is_shrunk, digits, map.insert([5], 5).is_ok())
}

#[test]
fn a_map_that_shrank_has_the_same_pairs(rt: HostRuntime) -> Result<(), Fail> {
    let seen = shrunk(&mut ByteMap::new(rt.alloc()));
    same(seen, (true, [124_679, 976_421], true))
}

// Whether `compact` fails while all memory is held, and the digits then.
fn starve(alloc: Global, map: &mut Map) -> Option<(bool, [u32; 2])> {
    fill_unsorted(map);
    let held = all_memory(alloc).ok()?;
    let is_refused = map.compact().is_err();
    drop(held);
    Some((is_refused, digits(map)))
}

#[test]
fn without_memory_no_map_is_made_compact(rt: HostRuntime) -> Result<(), Fail> {
    let seen = starve(rt.alloc(), &mut ByteMap::new(rt.alloc()));
    same(seen, Some((true, [124_679, 976_421])))
}

// Whether `compact` fails while an allocation may fail, and the digits then.
fn refuse(alloc: Global, map: &mut Map) -> (bool, [u32; 2]) {
    fill_unsorted(map);
    begin_refusals(alloc);
    let is_refused = map.compact().is_err();
    end_refusals(alloc);
    (is_refused, digits(map))
}

#[test]
fn refused_each_compact_moves_no_pair(rt: HostRuntime) -> Result<(), Fail> {
    let (is_refused, digits) = refuse(rt.alloc(), &mut ByteMap::new(rt.alloc()));
    same(digits, [124_679, 976_421])?;
    if is_refused {
        println!(rt; "asserted")?;
    }
    Ok(())
}

fn with_byte(digits: u32, key: &[u8; 1]) -> u32 {
    digits.wrapping_mul(10).wrapping_add(key[0] as u32)
}

// The bytes of the keys of a set as digits.
fn digits_of_set(set: &ByteSet<[u8; 1], 4>) -> u32 {
    set.iter().fold(0, with_byte)
}

#[test]
fn a_compact_set_has_the_same_keys(rt: HostRuntime) -> Result<(), Fail> {
    let mut set = ByteSet::new(rt.alloc());
    for byte in [3u8, 1, 2] {
        drop(set.insert([byte]));
    }
    let is_compact = set.compact().is_ok();
    same((is_compact, digits_of_set(&set)), (true, 123))
}
