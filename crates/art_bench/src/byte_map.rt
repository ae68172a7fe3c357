//! The work on a map of this library.

use crate::parts::{begin, between};
use crate::{Counts, parts};
use art_operations::keys::ShortBytes;
use art_operations::map::ByteMap;
use std::alloc::Global;
use std::ops::Bound;

const PREFIX_LEN: usize = 16;

type Map = ByteMap<ShortBytes, u32, PREFIX_LEN>;

/// Makes each call on all keys, part by part.
#[inline(always)]
pub fn work(
    alloc: Global,
    keys: &[u8],
    ends: &[u64],
    asked: &[u8],
    asked_ends: &[u64],
    prefixes: &[u8],
    prefix_ends: &[u64],
    counts: &mut Counts,
) {
    let mut map: Map = ByteMap::new(alloc);
    begin(alloc, parts::INSERT);
    counts.stored = insert_all(&mut map, alloc, keys, ends);
    begin(alloc, parts::GET);
    counts.found = get_all(&map, asked, asked_ends);
    begin(alloc, parts::GET_MUT);
    counts.written = write_all(&mut map, asked, asked_ends);
    begin(alloc, parts::MATCH);
    counts.matched = match_all(&map, asked, asked_ends);
    begin(alloc, parts::WALK);
    counts.walked = walk_all(&map);
    begin(alloc, parts::BACK);
    counts.back = back_all(&map);
    begin(alloc, parts::BELOW);
    counts.below = below_all(&map, prefixes, prefix_ends);
    begin(alloc, parts::RANGE);
    counts.ranged = range_all(&map, asked, asked_ends);
    counts.cloned = clone_all(&map, alloc);
    begin(alloc, parts::REMOVE);
    counts.taken = remove_all(&mut map, asked, asked_ends);
    begin(alloc, parts::AGAIN);
    counts.again = insert_again(&mut map, alloc, keys, ends);
    begin(alloc, parts::CLEAR);
    clear_all(&mut map);
    begin(alloc, parts::OVER);
    counts.over = over_all(&mut map, alloc, keys, ends);
    counts.compacted = compact_all(&mut map, alloc);
    begin(alloc, parts::REST);
    counts.more = read_more(&map, asked, asked_ends);
    write_more(&mut map, alloc, asked);
}

/// Inserts each key with its number. Returns how many were new.
#[inline(never)]
fn insert_all(map: &mut Map, alloc: Global, keys: &[u8], ends: &[u64]) -> u64 {
    let (mut count, mut value, mut from) = (0u64, 0u32, 0);
    for end in ends {
        let to = *end as usize;
        if let Ok(key) = ShortBytes::from_slice(alloc, between(keys, from, to)) {
            count = count.wrapping_add(u64::from(is_new(map, key, value)));
        }
        value = value.wrapping_add(1);
        from = to;
    }
    count
}

#[inline(always)]
fn is_new(map: &mut Map, key: ShortBytes, value: u32) -> bool {
    match map.insert(key, value) {
        Ok(replaced) => replaced.is_none(),
        Err(_) => false,
    }
}

/// The same, with another value.
#[inline(never)]
fn insert_again(map: &mut Map, alloc: Global, keys: &[u8], ends: &[u64]) -> u64 {
    let (mut count, mut from) = (0u64, 0);
    for end in ends {
        let to = *end as usize;
        if let Ok(key) = ShortBytes::from_slice(alloc, between(keys, from, to)) {
            count = count.wrapping_add(u64::from(is_stored_now(map, key)));
        }
        from = to;
    }
    count
}

#[inline(always)]
fn is_stored_now(map: &mut Map, key: ShortBytes) -> bool {
    map.insert(key, 7).is_ok()
}

/// Inserts each key and removes those related to it. Returns how many could be inserted.
#[inline(never)]
fn over_all(map: &mut Map, alloc: Global, keys: &[u8], ends: &[u64]) -> u64 {
    let (mut count, mut from) = (0u64, 0);
    for end in ends {
        let to = *end as usize;
        if let Ok(key) = ShortBytes::from_slice(alloc, between(keys, from, to)) {
            count = count.wrapping_add(u64::from(map.insert_over(key, 7).is_ok()));
        }
        from = to;
    }
    count
}

/// Looks each key up. Returns how many are stored.
#[inline(never)]
fn get_all(map: &Map, asked: &[u8], ends: &[u64]) -> u64 {
    let (mut count, mut from) = (0u64, 0);
    for end in ends {
        let to = *end as usize;
        let is_stored = map.get(between(asked, from, to)).is_some();
        count = count.wrapping_add(u64::from(is_stored));
        from = to;
    }
    count
}

/// Writes the value of each key. Returns how many are stored.
#[inline(never)]
fn write_all(map: &mut Map, asked: &[u8], ends: &[u64]) -> u64 {
    let (mut count, mut from) = (0u64, 0);
    for end in ends {
        let to = *end as usize;
        count = count.wrapping_add(u64::from(is_written(map, between(asked, from, to))));
        from = to;
    }
    count
}

#[inline(always)]
fn is_written(map: &mut Map, key_bytes: &[u8]) -> bool {
    match map.get_mut(key_bytes) {
        Some(value) => {
            *value = value.wrapping_add(1);
            true
        }
        None => false,
    }
}

/// Looks for the stored prefix of each key. Returns how many have one.
#[inline(never)]
fn match_all(map: &Map, asked: &[u8], ends: &[u64]) -> u64 {
    let (mut count, mut from) = (0u64, 0);
    for end in ends {
        let to = *end as usize;
        let has_match = map.longest_match(between(asked, from, to)).is_some();
        count = count.wrapping_add(u64::from(has_match));
        from = to;
    }
    count
}

/// Iterates over all pairs. Returns the sum of their values and of the lengths of their keys.
#[inline(never)]
fn walk_all(map: &Map) -> u64 {
    let mut sum = 0u64;
    for (key, value) in map.iter() {
        sum = sum
            .wrapping_add(u64::from(*value))
            .wrapping_add(key.len() as u64);
    }
    sum
}

/// The same from the last pair to the first.
#[inline(never)]
fn back_all(map: &Map) -> u64 {
    let mut sum = 0u64;
    for (key, value) in map.iter().rev() {
        sum = sum
            .wrapping_add(u64::from(*value))
            .wrapping_add(key.len() as u64);
    }
    sum
}

/// Iterates over the pairs with each prefix. Returns how many there were.
#[inline(never)]
fn below_all(map: &Map, prefixes: &[u8], ends: &[u64]) -> u64 {
    let (mut count, mut from) = (0u64, 0);
    for end in ends {
        let to = *end as usize;
        for (_, value) in map.prefix(between(prefixes, from, to)) {
            count = count.wrapping_add(u64::from(*value > 0));
        }
        from = to;
    }
    count
}

/// Takes the first pair of the range from each key on. Returns how many are that key's.
#[inline(never)]
fn range_all(map: &Map, asked: &[u8], ends: &[u64]) -> u64 {
    let (mut count, mut from) = (0u64, 0);
    for end in ends {
        let to = *end as usize;
        let key_bytes = between(asked, from, to);
        let is_first = is_first_from(map, key_bytes);
        count = count.wrapping_add(u64::from(is_first));
        from = to;
    }
    count
}

#[inline(always)]
fn is_first_from(map: &Map, key_bytes: &[u8]) -> bool {
    let mut pairs = map.range((Bound::Included(key_bytes), Bound::Unbounded));
    match pairs.next() {
        Some((key, _)) => key.len() == key_bytes.len(),
        None => false,
    }
}

/// Clones the map, iterates over the clone and drops it. Returns what `walk_all` does.
#[inline(always)]
fn clone_all(map: &Map, alloc: Global) -> u64 {
    begin(alloc, parts::CLONE);
    let Ok(copy) = map.clone() else {
        return 0;
    };
    begin(alloc, parts::WALK_CLONE);
    let sum = walk_all(&copy);
    begin(alloc, parts::DROP_CLONE);
    let_go(copy);
    sum
}

/// Compacts the map, and iterates. Returns the sum of the iteration.
fn compact_all(map: &mut Map, alloc: Global) -> u64 {
    begin(alloc, parts::COMPACT);
    let Ok(()) = map.compact() else {
        return 0;
    };
    begin(alloc, parts::WALK_COMPACT);
    walk_all(map)
}

#[inline(never)]
fn let_go(copy: Map) {
    drop(copy);
}

/// Removes each key. Returns how many were stored.
#[inline(never)]
fn remove_all(map: &mut Map, asked: &[u8], ends: &[u64]) -> u64 {
    let (mut count, mut from) = (0u64, 0);
    for end in ends {
        let to = *end as usize;
        count = count.wrapping_add(u64::from(is_taken(map, between(asked, from, to))));
        from = to;
    }
    count
}

#[inline(always)]
fn is_taken(map: &mut Map, key_bytes: &[u8]) -> bool {
    map.remove(key_bytes).unwrap().is_some()
}

#[inline(never)]
fn clear_all(map: &mut Map) {
    map.clear();
}

/// Makes each reading call once more, of each key. Returns how many are stored.
#[inline(never)]
fn read_more(map: &Map, asked: &[u8], ends: &[u64]) -> u64 {
    let (mut count, mut from) = (0u64, 0);
    for end in ends {
        let to = *end as usize;
        let key_bytes = between(asked, from, to);
        let pairs_below = map.prefix(key_bytes).count() as u64;
        if map.get(key_bytes).is_some() && map.longest_match(key_bytes).is_some() {
            count = count.wrapping_add(pairs_below);
        }
        from = to;
    }
    count
}

/// Makes each writing call once more.
#[inline(never)]
fn write_more(map: &mut Map, alloc: Global, key_bytes: &[u8]) {
    if let Some(value) = map.get_mut(key_bytes) {
        *value = 0;
    }
    insert_more(map, alloc, key_bytes);
    let _ = map.remove(key_bytes);
    get_more(map, alloc, key_bytes);
    over_more(map, alloc, key_bytes);
    map.clear();
}

fn insert_more(map: &mut Map, alloc: Global, key_bytes: &[u8]) {
    if let Ok(key) = ShortBytes::from_slice(alloc, key_bytes) {
        let _ = map.insert(key, 1);
    }
}

fn get_more(map: &mut Map, alloc: Global, key_bytes: &[u8]) {
    if let Ok(key) = ShortBytes::from_slice(alloc, key_bytes) {
        let _ = map.get_or_insert(key, 2);
    }
}

fn over_more(map: &mut Map, alloc: Global, key_bytes: &[u8]) {
    if let Ok(key) = ShortBytes::from_slice(alloc, key_bytes) {
        let _ = map.insert_over(key, 3);
    }
}
