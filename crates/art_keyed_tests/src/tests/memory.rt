//! Maps while allocations fail.
use super::shared::{put, read, taken};
use art_keyed::map::{TextRefused, TreeMap};
use art_keys::escaped::Escaped;
use art_keys::joined::Joined;
use art_keys::terminated::Terminated;
use art_keys::unsigned::Unsigned;
use std::alloc::Global;
use std::test::Fail;
use test_helpers::expected::same;
use test_helpers::memory::{all_memory, begin_refusals, end_refusals};

// Whether the insertion of a first pair fails and returns the pair while every allocation fails, and the length of the
// map.
fn starve_map(alloc: Global, map: &mut TreeMap<Unsigned<4>, u32, 8>) -> Option<(bool, usize)> {
    let held = all_memory(alloc).ok()?;
    let is_refused = match map.insert(Unsigned::from(5), 6) {
        Err(refused) => u32::from(refused.key) == 5 && refused.value == 6,
        Ok(_) => false,
    };
    drop(held);
    Some((is_refused, map.len()))
}

#[test]
fn without_memory_a_pair_comes_back(rt: HostRuntime) -> Result<(), Fail> {
    let seen = starve_map(rt.alloc(), &mut TreeMap::new(rt.alloc()));
    same(seen, Some((true, 0)))
}

// What two escaped strings are found to have, and how many start with a text.
fn look_ups(map: &TreeMap<Escaped, u32, 8>) -> (Option<u32>, Option<u32>, usize) {
    (
        map.get_text(b"car").copied(),
        map.get_text(b"c\0").copied(),
        read(map.prefix_text(b"c\0")).0,
    )
}

// The value of a stored string as it is removed, after a call that would insert it adds one.
fn take_one_more(map: &mut TreeMap<Escaped, u32, 8>, alloc: Global) -> Option<u32> {
    let Ok(value) = map.get_text_or_insert(alloc, b"c\0", 0) else {
        return None;
    };
    *value = value.wrapping_add(1);
    taken(map.remove_text(b"c\0"))
}

type Found = ((Option<u32>, Option<u32>, usize), Option<u32>);

// The same while every allocation fails.
fn starve_found(map: &mut TreeMap<Escaped, u32, 8>, alloc: Global) -> Option<Found> {
    let held = all_memory(alloc).ok()?;
    let (found, taken) = (look_ups(map), take_one_more(map, alloc));
    drop(held);
    Some((found, taken))
}

// Whether two new pairs are inserted, and what is then found.
fn starve_strings(map: &mut TreeMap<Escaped, u32, 8>, alloc: Global) -> (bool, Option<Found>) {
    let new = [
        put(map, Escaped::encode(alloc, b"car").ok(), 7),
        put(map, Escaped::encode(alloc, b"c\0").ok(), 8),
    ];
    (new == [Some(None); 2], starve_found(map, alloc))
}

#[test]
fn without_memory_any_strings_are_found_and_removed(rt: HostRuntime) -> Result<(), Fail> {
    let seen = starve_strings(&mut TreeMap::new(rt.alloc()), rt.alloc());
    same(seen, (true, Some(((Some(7), Some(8), 1), Some(9)))))
}

// ---- insertions by a text

// Asserts that a map has no pair where an insertion was refused, and one where it was not.
fn is_kept(rt: &HostRuntime, (is_refused, len): (bool, usize)) -> Result<(), Fail> {
    same(len, if is_refused { 0 } else { 1 })?;
    if is_refused {
        println!(rt; "asserted")?;
    }
    Ok(())
}

// Whether an insertion of a first text fails and returns the value, and how many pairs the map then has.
fn insert_word(alloc: Global, map: &mut TreeMap<Terminated, u32, 8>) -> (bool, usize) {
    begin_refusals(alloc);
    let mut is_refused = false;
    if let Err(TextRefused::Memory { value }) = map.get_text_or_insert(alloc, b"car", 7) {
        is_refused = value == 7;
    }
    end_refusals(alloc);
    (is_refused, map.len())
}

#[test]
fn refused_each_insertion_of_a_word_returns_the_value(rt: HostRuntime) -> Result<(), Fail> {
    let seen = insert_word(rt.alloc(), &mut TreeMap::new(rt.alloc()));
    is_kept(&rt, seen)
}

// The same of a text with a byte to escape.
fn insert_bytes(alloc: Global, map: &mut TreeMap<Escaped, u32, 8>) -> (bool, usize) {
    begin_refusals(alloc);
    let mut is_refused = false;
    if let Err(refused) = map.get_text_or_insert(alloc, b"c\0", 7) {
        is_refused = refused.value == 7;
    }
    end_refusals(alloc);
    (is_refused, map.len())
}

#[test]
fn refused_each_insertion_of_bytes_returns_the_value(rt: HostRuntime) -> Result<(), Fail> {
    let seen = insert_bytes(rt.alloc(), &mut TreeMap::new(rt.alloc()));
    is_kept(&rt, seen)
}

// ---- removals

// Inserts 256 keys of one byte, which are the children of one node.
fn fill_map(map: &mut TreeMap<[u8; 1], u32, 4>) -> bool {
    for byte in 0..=255u8 {
        if map.insert([byte], byte as u32).is_err() {
            return false;
        }
    }
    map.len() == 256
}

// Whether the first pair, the last one and another one are removed.
fn are_removed(map: &mut TreeMap<[u8; 1], u32, 4>, byte: u8) -> bool {
    let (key, last) = (byte.wrapping_add(100), 255 - byte);
    map.pop_first() == Some(([byte], byte as u32))
        && map.pop_last() == Some(([last], last as u32))
        && map.remove(&[key]) == Some(([key], key as u32))
}

// Whether 192 pairs are removed so, and then the others by a closure.
fn is_emptied(map: &mut TreeMap<[u8; 1], u32, 4>) -> bool {
    let mut all = true;
    for byte in 0..64u8 {
        all = are_removed(map, byte) && all;
    }
    let left = map.len();
    map.retain(|_, _| false);
    all && left == 64 && map.is_empty()
}

// Whether a map was filled, and was emptied while every allocation fails.
fn starve_filled(alloc: Global, map: &mut TreeMap<[u8; 1], u32, 4>) -> Option<[bool; 2]> {
    let is_filled = fill_map(map);
    let held = all_memory(alloc).ok()?;
    let is_emptied = is_emptied(map);
    drop(held);
    Some([is_filled, is_emptied])
}

#[test]
fn without_memory_256_pairs_are_removed(rt: HostRuntime) -> Result<(), Fail> {
    let seen = starve_filled(rt.alloc(), &mut TreeMap::new(rt.alloc()));
    same(seen, Some([true, true]))
}

type Times = TreeMap<Joined<Unsigned<1>, Unsigned<1>>, u32, 2>;

// Inserts twenty times of each of twenty users, and returns how many were new.
fn fill_times(times: &mut Times, alloc: Global) -> usize {
    let mut new = 0usize;
    for user in 0..20u8 {
        for time in 0..20u8 {
            let key = Joined::join(alloc, &Unsigned::from(user), &Unsigned::from(time)).ok();
            let is_new = put(times, key, time as u32) == Some(None);
            new = new.saturating_add(is_new as usize);
        }
    }
    new
}

// How many times of the first users are removed one by one, and of the others all at once.
fn remove_times(times: &mut Times) -> [usize; 2] {
    let mut removed = [0usize; 2];
    for user in 0..10u8 {
        let user = Unsigned::from(user);
        for _ in 0..20 {
            let popped = times.pop_first_with(&user).is_some() as usize;
            removed[0] = removed[0].saturating_add(popped);
        }
    }
    for user in 10..20u8 {
        let all = times.remove_with_first(&Unsigned::from(user));
        removed[1] = removed[1].saturating_add(all);
    }
    removed
}

// The same while every allocation fails, and whether none is left.
fn starve_times(times: &mut Times, alloc: Global) -> Option<([usize; 2], bool)> {
    let held = all_memory(alloc).ok()?;
    let removed = remove_times(times);
    drop(held);
    Some((removed, times.is_empty()))
}

fn filled_times(times: &mut Times, alloc: Global) -> (usize, Option<([usize; 2], bool)>) {
    (fill_times(times, alloc), starve_times(times, alloc))
}

#[test]
fn without_memory_pairs_with_a_first_key_are_removed(rt: HostRuntime) -> Result<(), Fail> {
    let seen = filled_times(&mut TreeMap::new(rt.alloc()), rt.alloc());
    same(seen, (400, Some(([200, 200], true))))
}

type Words = TreeMap<Terminated, u32, 4>;

// A word made of a vector of its bytes.
fn word_of(alloc: Global, bytes: &[u8]) -> Option<Terminated> {
    Terminated::new(bytes.to_vec(alloc).ok()?).ok()
}

// Inserts fifty words that start with each of two letters, and returns how many were new.
fn fill_words(words: &mut Words, alloc: Global) -> usize {
    let mut new = 0usize;
    for last in 1..=50u8 {
        let is_first = put(words, word_of(alloc, &[b'a', last]), 1) == Some(None);
        let is_second = put(words, word_of(alloc, &[b'b', last]), 2) == Some(None);
        new = new.saturating_add(is_first as usize + is_second as usize);
    }
    new
}

// How many words are removed one by one, and then all at once.
fn remove_words(words: &mut Words, one_by_one: &Terminated, at_once: &Terminated) -> [usize; 2] {
    let mut removed = 0usize;
    for _ in 0..60 {
        removed = removed.saturating_add(words.pop_first_below(one_by_one).is_some() as usize);
    }
    [removed, words.remove_prefix(at_once)]
}

// The same while every allocation fails, and whether none is left.
fn starve_words(
    words: &mut Words,
    alloc: Global,
    one_by_one: &Terminated,
    at_once: &Terminated,
) -> Option<([usize; 2], bool)> {
    let held = all_memory(alloc).ok()?;
    let removed = remove_words(words, one_by_one, at_once);
    drop(held);
    Some((removed, words.is_empty()))
}

// How many words are inserted, and the same by two prefixes.
fn filled_words(words: &mut Words, alloc: Global) -> (usize, Option<([usize; 2], bool)>) {
    let new = fill_words(words, alloc);
    match (word_of(alloc, b"a"), word_of(alloc, b"b")) {
        (Some(one_by_one), Some(at_once)) => {
            (new, starve_words(words, alloc, &one_by_one, &at_once))
        }
        _ => (new, None),
    }
}

#[test]
fn without_memory_words_with_a_prefix_are_removed(rt: HostRuntime) -> Result<(), Fail> {
    let seen = filled_words(&mut TreeMap::new(rt.alloc()), rt.alloc());
    same(seen, (100, Some(([50, 50], true))))
}
