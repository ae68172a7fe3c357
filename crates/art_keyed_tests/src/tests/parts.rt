//! Removals of the pairs of a map of numbers by their bounds, iterators that remove pairs, and moves of pairs into another
//! map, at random, beside a `BTreeMap`.
use super::shared::is_taken;
use art_keyed::map::TreeMap;
use art_keys::unsigned::U16Key;
use std::collections::BTreeMap;
use std::ops::Bound;
use std::test::Fail;
use test_helpers::expected::same;
use test_helpers::numbers::Numbers;

type Map = TreeMap<U16Key, u32, 1>;

type Model = BTreeMap<u16, u32>;

fn drawn_key(numbers: &mut Numbers) -> u16 {
    numbers.below(900) as u16
}

// Inserts a pair into both.
fn put_both(map: &mut Map, model: &mut Model, numbers: &mut Numbers) -> bool {
    let (key, value) = (drawn_key(numbers), numbers.value());
    map.insert(U16Key::from(key), value).is_ok() && model.insert(key, value).is_ok()
}

// The first pair from one number to before another.
fn first_between(model: &Model, low: u16, high: u16) -> Option<(u16, u32)> {
    for (key, value) in model.iter() {
        if low <= *key && *key < high {
            return Some((*key, *value));
        }
    }
    None
}

// Whether this pair is the first one of a range, and is removed if it is.
fn agree_on_first(own: Option<(U16Key, u32)>, model: &mut Model, low: u16, high: u16) -> bool {
    let first = first_between(model, low, high);
    if let Some((key, _)) = first {
        model.remove(&key);
    }
    match own {
        Some((key, value)) => first == Some((key.get(), value)),
        None => first.is_none(),
    }
}

// Whether as many pairs of a range are removed from both.
fn agree_on_range(map: &mut Map, model: &mut Model, low: u16, high: u16) -> bool {
    let before = model.len();
    model.retain(|key, _| *key < low || high < *key);
    let removed = map.remove_range(U16Key::from(low)..=U16Key::from(high));
    removed == before.saturating_sub(model.len())
}

// Whether the same pairs of a range are removed from both one by one, at most so many.
fn agree_on_extracted(
    map: &mut Map,
    model: &mut Model,
    (low, high): (u16, u16),
    most: usize,
) -> bool {
    let mut own = map.extract_range(U16Key::from(low)..U16Key::from(high));
    let mut agree = true;
    for _ in 0..most {
        agree &= agree_on_first(own.next(), model, low, high);
    }
    agree
}

// Whether they have the same pairs after all values are changed, and then those above a number.
fn agree_on_values(map: &mut Map, model: &mut Model, low: u16) -> bool {
    map.for_each_mut(|key, value| *value ^= key.get() as u32);
    map.for_each_mut_in(
        Bound::Excluded(&U16Key::from(low)),
        Bound::Unbounded,
        &mut |key: &U16Key, value: &mut u32| *value = value.wrapping_add(key.get() as u32),
    );
    model.retain(|key, value| {
        *value ^= *key as u32;
        if low < *key {
            *value = value.wrapping_add(*key as u32);
        }
        true
    });
    digest(map) == digest_of_model(model)
}

// Whether an entry's pair is removed from both.
fn agree_on_entry(map: &mut Map, model: &mut Model, key: u16) -> bool {
    is_taken(map.entry(U16Key::from(key)).remove(), model.remove(&key))
}

// Whether the second parts are appended, after an insertion into both that may replace a pair.
fn agree_on_append(
    map: &mut Map,
    model: &mut Model,
    tail: &mut Map,
    rest: &mut Model,
    numbers: &mut Numbers,
) -> bool {
    let put = put_both(tail, rest, numbers);
    let joined = map.append(tail).is_ok() && model.append(rest).is_ok();
    put && joined && tail.is_empty()
}

// Whether both are split at a number into the same maps, and the second part is appended.
fn agree_on_split(map: &mut Map, model: &mut Model, numbers: &mut Numbers) -> bool {
    let key = drawn_key(numbers);
    let Ok(mut tail) = map.split_off(&U16Key::from(key)) else {
        return false;
    };
    let Ok(mut rest) = model.split_off(&key) else {
        return false;
    };
    let split = [digest(map), digest(&tail)] == [digest_of_model(model), digest_of_model(&rest)];
    split && agree_on_append(map, model, &mut tail, &mut rest, numbers)
}

// A number that the pairs make in their order.
fn digest(map: &Map) -> u64 {
    let mut digest = 1u64;
    for (key, value) in map.iter() {
        digest = added(digest, key.get(), *value);
    }
    digest
}

fn digest_of_model(model: &Model) -> u64 {
    let mut digest = 1u64;
    for (key, value) in model.iter() {
        digest = added(digest, *key, *value);
    }
    digest
}

fn added(digest: u64, key: u16, value: u32) -> u64 {
    let next = digest.wrapping_mul(1_009).wrapping_add(key as u64);
    next.wrapping_mul(1_000_003).wrapping_add(value as u64)
}

// A change of both, and whether they agree.
fn agree_on_change(map: &mut Map, model: &mut Model, numbers: &mut Numbers) -> bool {
    let (low, high) = (drawn_key(numbers), drawn_key(numbers));
    match numbers.below(40) {
        0..=2 => {
            let own = map.pop_first_in(U16Key::from(low)..U16Key::from(high));
            agree_on_first(own, model, low, high)
        }
        3 => agree_on_range(map, model, low, high),
        4 => agree_on_split(map, model, numbers),
        5..=6 => agree_on_entry(map, model, low),
        7..=8 => agree_on_values(map, model, low),
        9 => agree_on_extracted(map, model, (low, high), numbers.below(6)),
        _ => put_both(map, model, numbers),
    }
}

// The number of the first change after which they differ, if they do.
fn differ_at(map: &mut Map, model: &mut Model, changes: usize) -> Option<usize> {
    let mut numbers = Numbers::new(12);
    for change in 0..changes {
        let agree = agree_on_change(map, model, &mut numbers);
        if !agree || digest(map) != digest_of_model(model) {
            return Some(change);
        }
    }
    None
}

#[test]
fn drawn_parts_go_as_those_of_a_btree_map(rt: HostRuntime) -> Result<(), Fail> {
    let alloc = rt.alloc();
    let differ = differ_at(&mut TreeMap::new(alloc), &mut BTreeMap::new(alloc), 3_000);
    same(differ, None)
}
