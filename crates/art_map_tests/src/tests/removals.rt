//! Removals while all memory is held: maps and sets are emptied, though nodes are replaced by smaller ones.
use super::beside_btree::{
    Key, Map as DrawnMap, Model, agree_on_drawn_insertion, agree_on_pairs, agree_on_removal,
    drawn_key,
};
use super::calls::{Map, Removal};
use art_map::map::ByteMap;
use art_node_support::expected::same;
use art_node_support::memory::all_memory;
use art_node_support::numbers::Numbers;
use art_sets::set::ByteSet;
use std::alloc::Global;
use std::collections::BTreeMap;
use std::test::Fail;

// How all pairs are removed.
#[derive(Clone, Copy, PartialEq, Debug)]
enum Way {
    ByKey,
    FromTheFront,
    FromTheBack,
    FirstWithAPrefix,
    AtOnce,
    ByAClosure,
}

static WAYS: [Way; 6] = [
    Way::ByKey,
    Way::FromTheFront,
    Way::FromTheBack,
    Way::FirstWithAPrefix,
    Way::AtOnce,
    Way::ByAClosure,
];

// ---- the 256 keys of one byte, which are children of one node

fn fill_all(map: &mut Map) {
    for byte in 0..=255u8 {
        drop(map.insert([byte], byte as u32));
    }
}

// Removes one pair, or all of them. Returns how many there were.
fn remove_some(map: &mut Map, way: Way, byte: u8) -> usize {
    match way {
        Way::ByKey => map.remove(&[byte]).unwrap().is_some() as usize,
        Way::FromTheFront => map.pop_first().unwrap().is_some() as usize,
        Way::FromTheBack => map.pop_last().unwrap().is_some() as usize,
        Way::FirstWithAPrefix => map.pop_first_below(&[byte]).is_some() as usize,
        Way::AtOnce => map.remove_prefix(&[]),
        Way::ByAClosure => {
            let before = map.len();
            map.retain(|_, _| false);
            before.saturating_sub(map.len())
        }
    }
}

// Removes as often as there are bytes. Returns how many pairs there were.
fn remove_all(map: &mut Map, way: Way) -> usize {
    let mut removed = 0usize;
    for byte in 0..=255u8 {
        removed = removed.saturating_add(remove_some(map, way, byte));
    }
    removed
}

// The same while all memory is held, with how many pairs are left.
fn starve(alloc: Global, map: &mut Map, way: Way) -> Option<(usize, usize)> {
    fill_all(map);
    let held = all_memory(alloc).ok()?;
    let removed = remove_all(map, way);
    drop(held);
    Some((removed, map.len()))
}

#[test]
fn without_memory_256_pairs_are_removed(rt: HostRuntime) -> Result<(), Fail> {
    for way in &WAYS {
        let seen = starve(rt.alloc(), &mut ByteMap::new(rt.alloc()), *way);
        same((*way, seen), (*way, Some((256, 0))))?;
    }
    Ok(())
}

// ---- a set of these keys

type Set = ByteSet<[u8; 1], 4>;

fn fill_set(set: &mut Set) {
    for byte in 0..=255u8 {
        drop(set.insert([byte]));
    }
}

// Whether the keys at both ends and two others are removed, each in its own way.
fn are_removed(set: &mut Set, byte: u8) -> bool {
    let taken = byte.wrapping_add(140);
    set.pop_first() == Some([byte])
        && set.pop_last() == Some([255 - byte])
        && set.remove(&[byte.wrapping_add(100)])
        && set.take(&[taken]) == Some([taken])
}

// Whether half of the keys are removed in this way, and then the others by a closure.
fn is_emptied(set: &mut Set) -> bool {
    let mut all = true;
    for byte in 0..32u8 {
        all = are_removed(set, byte) && all;
    }
    let left = set.len();
    set.retain(|_| false);
    all && left == 128 && set.is_empty()
}

// The same while all memory is held.
fn is_emptied_without_memory(alloc: Global, set: &mut Set) -> Option<bool> {
    fill_set(set);
    let held = all_memory(alloc).ok()?;
    let is_emptied = is_emptied(set);
    drop(held);
    Some(is_emptied)
}

#[test]
fn without_memory_256_keys_are_removed(rt: HostRuntime) -> Result<(), Fail> {
    let seen = is_emptied_without_memory(rt.alloc(), &mut ByteSet::new(rt.alloc()));
    same(seen, Some(true))
}

// ---- drawn maps

// Inserts drawn pairs into both. Returns whether both have the same, and more than 200.
fn fill_drawn(map: &mut DrawnMap, model: &mut Model, numbers: &mut Numbers) -> bool {
    for _ in 0..400 {
        agree_on_drawn_insertion(map, model, numbers);
    }
    map.len() > 200 && agree_on_pairs(map, model)
}

// A drawn removal.
fn drawn_removal(numbers: &mut Numbers) -> Removal<Key> {
    match numbers.below(8) {
        0 => Removal::First,
        1 => Removal::Last,
        _ => Removal::Key(drawn_key(numbers)),
    }
}

// Whether so many drawn removals return the same for both, and leave the same pairs.
fn agree_on_removals(
    map: &mut DrawnMap,
    model: &mut Model,
    numbers: &mut Numbers,
    count: usize,
) -> bool {
    let mut agree = true;
    for _ in 0..count {
        agree = agree_on_removal(map, model, drawn_removal(numbers)) && agree;
    }
    agree && agree_on_pairs(map, model)
}

// Whether both were filled, the same while all memory is held, and whether nothing is left.
fn starve_drawn(
    alloc: Global,
    map: &mut DrawnMap,
    model: &mut Model,
    seed: u64,
) -> Option<[bool; 3]> {
    let mut numbers = Numbers::new(seed);
    let are_filled = fill_drawn(map, model, &mut numbers);
    let held = all_memory(alloc).ok()?;
    let agree = agree_on_removals(map, model, &mut numbers, 8_000);
    drop(held);
    Some([are_filled, agree, map.is_empty()])
}

#[test]
fn without_memory_drawn_maps_are_emptied(rt: HostRuntime) -> Result<(), Fail> {
    for seed in 1..=8u64 {
        let (mut map, mut model) = (ByteMap::new(rt.alloc()), BTreeMap::new(rt.alloc()));
        let seen = starve_drawn(rt.alloc(), &mut map, &mut model, seed);
        same(seen, Some([true; 3]))?;
    }
    Ok(())
}
