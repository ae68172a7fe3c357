//! The same work on the kit's `BTreeMap`, as far as it has such calls.

use crate::parts::{begin, between};
use crate::{Counts, parts};
use std::alloc::Global;
use std::collections::BTreeMap;

type Map = BTreeMap<Vec<u8>, u32>;

/// Makes each call on all keys, part by part.
#[inline(always)]
pub fn work(
    alloc: Global,
    keys: &[u8],
    ends: &[u64],
    asked: &[u8],
    asked_ends: &[u64],
    counts: &mut Counts,
) {
    let mut map: Map = BTreeMap::new(alloc);
    begin(alloc, parts::INSERT);
    counts.stored = insert_all(&mut map, alloc, keys, ends);
    begin(alloc, parts::GET);
    counts.found = get_all(&map, asked, asked_ends);
    begin(alloc, parts::GET_MUT);
    counts.written = write_all(&mut map, asked, asked_ends);
    begin(alloc, parts::WALK);
    counts.walked = walk_all(&map);
    begin(alloc, parts::BACK);
    counts.back = back_all(&map);
    counts.cloned = clone_all(&map, alloc);
    begin(alloc, parts::REMOVE);
    counts.taken = remove_all(&mut map, asked, asked_ends);
    begin(alloc, parts::AGAIN);
    counts.again = insert_again(&mut map, alloc, keys, ends);
    begin(alloc, parts::CLEAR);
    map.clear();
    begin(alloc, parts::REST);
    write_more(&mut map, alloc, asked);
}

/// Inserts each key with its number. Returns how many were new.
#[inline(never)]
fn insert_all(map: &mut Map, alloc: Global, keys: &[u8], ends: &[u64]) -> u64 {
    let (mut count, mut value, mut from) = (0u64, 0u32, 0);
    for end in ends {
        let to = *end as usize;
        if let Ok(key) = Vec::from_slice(alloc, between(keys, from, to)) {
            count = count.wrapping_add(u64::from(is_new(map, key, value)));
        }
        value = value.wrapping_add(1);
        from = to;
    }
    count
}

#[inline(always)]
fn is_new(map: &mut Map, key: Vec<u8>, value: u32) -> bool {
    match map.insert(key, value) {
        Ok(replaced) => replaced.is_none(),
        Err(_) => false,
    }
}

/// The same, with another value.
#[inline(never)]
fn insert_again(map: &mut Map, alloc: Global, keys: &[u8], ends: &[u64]) -> u64 {
    let (mut count, mut from) = (0u64, 0);
    for end in ends {
        let to = *end as usize;
        if let Ok(key) = Vec::from_slice(alloc, between(keys, from, to)) {
            count = count.wrapping_add(u64::from(map.insert(key, 7).is_ok()));
        }
        from = to;
    }
    count
}

/// Looks each key up. Returns how many are stored.
#[inline(never)]
fn get_all(map: &Map, asked: &[u8], ends: &[u64]) -> u64 {
    let (mut count, mut from) = (0u64, 0);
    for end in ends {
        let to = *end as usize;
        let is_stored = map.get(between(asked, from, to)).is_some();
        count = count.wrapping_add(u64::from(is_stored));
        from = to;
    }
    count
}

/// Writes the value of each key. Returns how many are stored.
#[inline(never)]
fn write_all(map: &mut Map, asked: &[u8], ends: &[u64]) -> u64 {
    let (mut count, mut from) = (0u64, 0);
    for end in ends {
        let to = *end as usize;
        count = count.wrapping_add(u64::from(is_written(map, between(asked, from, to))));
        from = to;
    }
    count
}

#[inline(always)]
fn is_written(map: &mut Map, key_bytes: &[u8]) -> bool {
    match map.get_mut(key_bytes) {
        Some(value) => {
            *value = value.wrapping_add(1);
            true
        }
        None => false,
    }
}

/// Iterates over all pairs. Returns the sum of their values and of the lengths of their keys.
#[inline(never)]
fn walk_all(map: &Map) -> u64 {
    let mut sum = 0u64;
    for (key, value) in map.iter() {
        sum = sum
            .wrapping_add(u64::from(*value))
            .wrapping_add(key.len() as u64);
    }
    sum
}

/// The same from the last pair to the first.
#[inline(never)]
fn back_all(map: &Map) -> u64 {
    let mut sum = 0u64;
    for (key, value) in map.iter().rev() {
        sum = sum
            .wrapping_add(u64::from(*value))
            .wrapping_add(key.len() as u64);
    }
    sum
}

/// Clones the map, iterates over the clone and drops it. Returns what `walk_all` does.
#[inline(always)]
fn clone_all(map: &Map, alloc: Global) -> u64 {
    begin(alloc, parts::CLONE);
    let Ok(copy) = map.clone() else {
        return 0;
    };
    begin(alloc, parts::WALK_CLONE);
    let sum = walk_all(&copy);
    begin(alloc, parts::DROP_CLONE);
    drop(copy);
    sum
}

/// Removes each key. Returns how many were stored.
#[inline(never)]
fn remove_all(map: &mut Map, asked: &[u8], ends: &[u64]) -> u64 {
    let (mut count, mut from) = (0u64, 0);
    for end in ends {
        let to = *end as usize;
        let is_taken = map.remove(between(asked, from, to)).is_some();
        count = count.wrapping_add(u64::from(is_taken));
        from = to;
    }
    count
}

/// Makes the calls once more.
#[inline(never)]
fn write_more(map: &mut Map, alloc: Global, key_bytes: &[u8]) {
    if let Ok(key) = Vec::from_slice(alloc, key_bytes) {
        let _ = map.insert(key, 1);
    }
    if map.get(key_bytes).is_some() {
        let _ = map.remove(key_bytes);
    }
}
