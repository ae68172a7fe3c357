//! Random calls of a map with hints beside the same calls of a `BTreeMap`. Pairs are removed and moved in memory meanwhile,
//! so that some hints are missing or wrong.
use art_hinted::map::HintedMap;
use art_keys::escaped::Escaped;
use art_keys::terminated::Terminated;
use art_node_support::expected::same;
use art_node_support::memory::all_memory;
use art_node_support::numbers::Numbers;
use art_node_support::short::{COUNT, Short};
use std::alloc::Global;
use std::collections::BTreeMap;
use std::hash::RandomState;
use std::test::Fail;

type Map = HintedMap<Terminated, usize, 2>;

type Model = BTreeMap<Short, usize>;

// An insertion into both, and whether they return the same value.
fn agree_on_insertion(
    map: &mut Map,
    model: &mut Model,
    key: Terminated,
    string: Short,
    value: usize,
) -> bool {
    let Ok(old) = model.insert(string, value) else {
        return false;
    };
    match map.insert(key, value) {
        Ok(Some((_, own))) => old == Some(own),
        Ok(None) => old.is_none(),
        Err(_) => false,
    }
}

// Whether a removal returns this value.
fn is_removed(own: Option<(Terminated, usize)>, value: Option<usize>) -> bool {
    match own {
        Some(pair) => value == Some(pair.1),
        None => value.is_none(),
    }
}

// Adds one to the value of a string, or inserts it with 1. Returns the value.
fn counted(map: &mut Map, alloc: Global, string: Short) -> Option<usize> {
    let Ok(value) = map.get_text_or_insert(alloc, string.as_slice(), 0) else {
        return None;
    };
    *value = value.wrapping_add(1);
    Some(*value)
}

fn counted_in_model(model: &mut Model, string: Short) -> Option<usize> {
    let value = model.get(&string).copied().unwrap_or(0).wrapping_add(1);
    model.insert(string, value).ok()?;
    Some(value)
}

// Adds two to the value of a key, if it is stored. Returns the value.
fn changed(map: &mut Map, key: &Terminated) -> Option<usize> {
    let value = map.get_mut(key)?;
    *value = value.wrapping_add(2);
    Some(*value)
}

fn changed_in_model(model: &mut Model, string: Short) -> Option<usize> {
    let value = model.get(&string).copied()?.wrapping_add(2);
    model.insert(string, value).ok()?;
    Some(value)
}

// A call of both, and whether they return the same.
fn agree_on_call(map: &mut Map, model: &mut Model, alloc: Global, numbers: &mut Numbers) -> bool {
    let number = numbers.below(COUNT);
    let string = Short::new(number);
    let Ok(Some(key)) = Terminated::encode(alloc, string.as_slice()) else {
        return string.has_zero() && map.get_text(string.as_slice()).is_none();
    };
    match numbers.below(12) {
        0..=2 => agree_on_insertion(map, model, key, string, number),
        3..=4 => counted(map, alloc, string) == counted_in_model(model, string),
        5..=6 => changed(map, &key) == changed_in_model(model, string),
        7 => is_removed(map.remove_text(string.as_slice()), model.remove(&string)),
        8 => is_removed(map.remove(&key), model.remove(&string)),
        9 => map.compact().is_ok(),
        _ => map.get(&key).copied() == model.get(&string).copied(),
    }
}

// Whether each string has the same value in both, by a key and by a text.
fn agree_on_all(map: &Map, model: &Model, alloc: Global) -> bool {
    for number in 0..COUNT {
        let string = Short::new(number);
        let Ok(Some(key)) = Terminated::encode(alloc, string.as_slice()) else {
            continue;
        };
        let value = model.get(&string).copied();
        let by_key = map.get(&key).copied();
        if by_key != value || map.get_text(string.as_slice()).copied() != value {
            return false;
        }
    }
    map.len() == model.len()
}

// The number of the first call after which they differ, if they do.
fn differ_at(map: &mut Map, model: &mut Model, alloc: Global, calls: usize) -> Option<usize> {
    let mut numbers = Numbers::new(3);
    for call in 0..calls {
        if !agree_on_call(map, model, alloc, &mut numbers) {
            return Some(call);
        }
    }
    None
}

#[test]
fn drawn_calls_of_a_hinted_map_return_what_those_of_a_btree_map_do(
    rt: HostRuntime,
) -> Result<(), Fail> {
    let alloc = rt.alloc();
    let mut map = HintedMap::new(alloc, RandomState::new(&rt)?);
    let mut model = BTreeMap::new(alloc);
    let differ = differ_at(&mut map, &mut model, alloc, 4_000);
    same((differ, agree_on_all(&map, &model, alloc)), (None, true))
}

type AnyMap = HintedMap<Escaped, usize, 2>;

// Two of these are escaped.
const WORDS: [&[u8]; 6] = [
    b"",
    b"a",
    b"a\0",
    b"ab",
    b"\x01b",
    b"a longer word than stands in a leaf",
];

// Counts each word, and whether that succeeds.
fn count_words(map: &mut AnyMap, alloc: Global) -> bool {
    for word in WORDS {
        let Ok(count) = map.get_text_or_insert(alloc, word, 0) else {
            return false;
        };
        *count = count.wrapping_add(1);
    }
    true
}

// The count of each word, 0 where it is not stored.
fn counts(map: &AnyMap) -> [usize; 6] {
    let mut counts = [0; 6];
    for place in 0..6 {
        if map.contains_text(WORDS[place]) {
            counts[place] = map.get_text(WORDS[place]).copied().unwrap_or(9);
        }
    }
    counts
}

// A map in which each word was counted twice.
fn counted_twice(alloc: Global, state: RandomState) -> Option<AnyMap> {
    let mut map = AnyMap::new(alloc, state);
    let all = count_words(&mut map, alloc) && count_words(&mut map, alloc);
    if all { Some(map) } else { None }
}

// Sets the count of a word that is stored, and whether it is.
fn set(map: &mut AnyMap, word: &[u8], count: usize) -> bool {
    let Some(stored) = map.get_text_mut(word) else {
        return false;
    };
    *stored = count;
    true
}

// Whether a word was stored twice; it is removed.
fn takes_two(map: &mut AnyMap, word: &[u8]) -> bool {
    match map.remove_text(word) {
        Some((_, count)) => count == 2,
        None => false,
    }
}

// Inserts clones of the pairs of a map, and whether that succeeds.
fn extend(map: &mut AnyMap, source: &AnyMap) -> bool {
    match source.as_tree_map().clone() {
        Ok(tree) => map.extend(tree).is_ok(),
        Err(_) => false,
    }
}

// The counts of a clone once it was changed, and once it has the pairs of the map again.
fn changed_and_extended(map: &AnyMap) -> Option<[[usize; 6]; 2]> {
    let mut copy = map.clone().ok()?;
    let set = set(&mut copy, b"ab", 7);
    let taken = takes_two(&mut copy, b"a\0") && takes_two(&mut copy, b"a");
    let changed = counts(&copy);
    let extended = extend(&mut copy, map);
    let all = set && taken && extended;
    if all {
        Some([changed, counts(&copy)])
    } else {
        None
    }
}

// The counts of a map of the same tree with other hints, once one was changed.
fn hinted_again(map: AnyMap, state: RandomState) -> Option<[usize; 6]> {
    let mut again = HintedMap::from_tree_map(map.into_tree_map(), state);
    if set(&mut again, b"\x01b", 4) {
        Some(counts(&again))
    } else {
        None
    }
}

// The counts of a map; of a clone without two words, and once it has the pairs of the map again; of a map of its tree.
fn counted_and_copied(alloc: Global, state: RandomState) -> Option<[[usize; 6]; 4]> {
    let map = counted_twice(alloc, state)?;
    let before = counts(&map);
    let copied = changed_and_extended(&map);
    let again = hinted_again(map, state)?;
    let [changed, extended] = copied?;
    Some([before, changed, extended, again])
}

#[test]
fn words_of_any_bytes_are_counted_with_hints(rt: HostRuntime) -> Result<(), Fail> {
    let state = RandomState::new(&rt)?;
    same(
        counted_and_copied(rt.alloc(), state),
        Some([
            [2, 2, 2, 2, 2, 2],
            [2, 0, 0, 7, 2, 2],
            [2, 2, 2, 2, 2, 2],
            [2, 2, 2, 2, 4, 2],
        ]),
    )
}

// What a map answers while every allocation fails: a stored word is changed, another one counted, one removed; a new one is
// refused.
fn answers_without_memory(alloc: Global, state: RandomState) -> Option<[bool; 4]> {
    let mut map = counted_twice(alloc, state)?;
    let held = all_memory(alloc).ok()?;
    let is_set = set(&mut map, b"ab", 7);
    let is_counted = matches!(map.get_text_or_insert(alloc, WORDS[5], 0), Ok(2));
    let is_taken = takes_two(&mut map, b"a\0");
    let new = b"a word that is new and longer than those";
    let is_refused = map.get_text_or_insert(alloc, new, 0).is_err();
    drop(held);
    Some([is_set, is_counted, is_taken, is_refused])
}

#[test]
fn without_memory_hints_find_words(rt: HostRuntime) -> Result<(), Fail> {
    let state = RandomState::new(&rt)?;
    let seen = answers_without_memory(rt.alloc(), state);
    same(seen, Some([true; 4]))
}
