//! Drawn calls of a map, compared with the same calls of a `BTreeMap`. The keys have one length, so that none is a
//! prefix of another.
use super::calls::Removal;
use super::{entries, ranges};
use art_map::map::ByteMap;
use art_node_support::expected::same;
use art_node_support::numbers::Numbers;
use std::alloc::Global;
use std::collections::BTreeMap;
use std::ops::Bound;
use std::test::Fail;

pub(super) type Key = [u8; 4];

pub(super) type Map = ByteMap<Key, u32, 1>;

pub(super) type Model = BTreeMap<Key, u32>;

// Few first bytes, so that many keys share them, and many last bytes, so that nodes are large.
pub(super) fn drawn_key(numbers: &mut Numbers) -> Key {
    [
        numbers.below(2) as u8,
        [0, 1, 255][numbers.below(3)],
        numbers.below(2) as u8,
        numbers.below(60) as u8 * 4,
    ]
}

/// A number that the pairs before this one made, and this one.
pub(super) fn added(digest: u64, key: Key, value: u32) -> u64 {
    digest
        .wrapping_mul(1_000_003)
        .wrapping_add(number_of(key, value))
}

/// A number that tells this pair from others.
pub(super) fn number_of(key: Key, value: u32) -> u64 {
    ((u32::from_be_bytes(key) as u64) << 32) | value as u64
}

/// A number that the pairs before this one made, and this one, which is borrowed.
pub(super) fn with_pair(digest: u64, pair: (&Key, &u32)) -> u64 {
    added(digest, *pair.0, *pair.1)
}

// A sum of keys, and one more.
fn with_key(sum: u64, key: &Key) -> u64 {
    sum.wrapping_add(number_of(*key, 0))
}

// A number that the values before this one made, and this one.
fn with_value(digest: u64, value: &u32) -> u64 {
    added(digest, [0; 4], *value)
}

/// Whether both have the same pairs.
pub(super) fn agree_on_pairs(map: &Map, model: &Model) -> bool {
    map.len() == model.len() && map.iter().fold(1, with_pair) == model.iter().fold(1, with_pair)
}

// What the pairs of the other map make from the back, the sum of its keys, and what its values make from the back.
fn from_back_of_model(model: &Model) -> [u64; 3] {
    let (mut back, mut keys, mut values) = (1u64, 0u64, 1u64);
    for (key, value) in model.iter().rev() {
        back = added(back, *key, *value);
        keys = keys.wrapping_add(number_of(*key, 0));
        values = added(values, [0; 4], *value);
    }
    [back, keys, values]
}

// Whether both have the same pairs from the back, and the same keys and values.
fn agree_from_back(map: &Map, model: &Model) -> bool {
    let seen = [
        map.iter().rfold(1, with_pair),
        map.keys().fold(0, with_key),
        map.values().rfold(1, with_value),
    ];
    seen == from_back_of_model(model)
}

/// A pair that the map keeps, if there is one.
pub(super) fn plain(pair: Option<(&Key, &u32)>) -> Option<(Key, u32)> {
    let (key, value) = pair?;
    Some((*key, *value))
}

// The pairs at the ends of the other map.
fn ends_of_model(model: &Model) -> [Option<(Key, u32)>; 2] {
    [plain(model.iter().next()), plain(model.iter().next_back())]
}

// Whether both have the same value of a key, and the same pairs at their ends.
fn agree_on_questions(map: &Map, model: &Model, key: Key) -> bool {
    let value = model.get(&key).copied();
    map.get(&key).copied() == value
        && map.contains_key(&key) == value.is_some()
        && plain(map.get_key_value(&key)) == pair_with(key, value)
        && [plain(map.first_key_value()), plain(map.last_key_value())] == ends_of_model(model)
}

// A key with its value, if there is one.
fn pair_with(key: Key, value: Option<u32>) -> Option<(Key, u32)> {
    Some((key, value?))
}

// Removes a pair from both, and returns whether they return the same.
pub(super) fn agree_on_removal(map: &mut Map, model: &mut Model, removal: Removal<Key>) -> bool {
    match removal {
        Removal::Key(key) => map.remove(&key).unwrap() == pair_with(key, model.remove(&key)),
        Removal::First => map.pop_first().unwrap() == model.pop_first(),
        Removal::Last => map.pop_last().unwrap() == model.pop_last(),
    }
}

// Inserts a drawn pair into both, and returns whether they return the same.
pub(super) fn agree_on_drawn_insertion(
    map: &mut Map,
    model: &mut Model,
    numbers: &mut Numbers,
) -> bool {
    let (key, value) = (drawn_key(numbers), numbers.value());
    let replaced = map.insert(key, value).ok();
    match model.insert(key, value) {
        Ok(old) => replaced == Some(pair_with(key, old)),
        Err(_) => false,
    }
}

// Calls both, and returns whether they return the same.
fn agree_on_call(
    map: &mut Map,
    model: &mut Model,
    numbers: &mut Numbers,
    is_growing: bool,
) -> bool {
    let key = drawn_key(numbers);
    match numbers.below(16) {
        0..=3 => agree_on_questions(map, model, key),
        4 => agree_on_removal(map, model, Removal::First),
        5 => agree_on_removal(map, model, Removal::Last),
        6..=8 => agree_on_removal(map, model, Removal::Key(key)),
        9..=12 if !is_growing => agree_on_removal(map, model, Removal::First),
        _ => agree_on_drawn_insertion(map, model, numbers),
    }
}

// Whether two maps compare in the same way.
fn agree_on_order(map: &Map, other: &Map, model: &Model, beside: &Model) -> bool {
    (map == other) == (model == beside)
        && map.cmp(other) == model.cmp(beside)
        && map.partial_cmp(other) == model.partial_cmp(beside)
}

// Inserts drawn pairs into both.
fn fill_both(map: &mut Map, model: &mut Model, numbers: &mut Numbers) -> bool {
    let mut agree = true;
    for _ in 0..numbers.below(30) {
        agree = agree_on_drawn_insertion(map, model, numbers) && agree;
    }
    agree
}

// Whether both keep the same pairs.
fn agree_on_retained(map: &mut Map, model: &mut Model, rest: u32) -> bool {
    map.retain(|key, value| (*value ^ key[3] as u32) % 5 != rest);
    model.retain(|key, value| (*value ^ key[3] as u32) % 5 != rest);
    agree_on_pairs(map, model)
}

// Whether they are the same after each value is replaced by the sum of those before it.
fn agree_on_each_pair(map: &mut Map, model: &mut Model) -> bool {
    let (mut sum, mut other) = (0u32, 0u32);
    map.for_each_mut_by_ref(&mut |key: &Key, value: &mut u32| {
        sum = sum.wrapping_add(*value).wrapping_add(key[3] as u32);
        *value = sum;
    });
    for (key, value) in model.iter_mut() {
        other = other.wrapping_add(*value).wrapping_add(key[3] as u32);
        *value = other;
    }
    agree_on_pairs(map, model)
}

fn stirred(key: &Key, value: u32) -> u32 {
    value.wrapping_mul(3).wrapping_add(key[3] as u32)
}

// Whether they are the same after all values are changed twice, those of a range, and those below a byte.
fn agree_on_each_value(map: &mut Map, model: &mut Model, low: Key, high: Key) -> bool {
    map.for_each_mut(|key, value| *value = stirred(key, *value));
    map.for_each_value(|value| *value = value.wrapping_add(1));
    map.for_each_mut_in(
        Bound::Excluded(&low[..]),
        Bound::Included(&high[..]),
        &mut |key: &Key, value: &mut u32| *value = stirred(key, *value),
    );
    map.for_each_mut_below(
        &low[..1],
        &mut |key: &Key, value: &mut u32| *value = stirred(key, *value),
    );
    for (key, value) in model.iter_mut() {
        *value = stirred(key, *value).wrapping_add(1);
        if low < *key && *key <= high {
            *value = stirred(key, *value);
        }
        if key[0] == low[0] {
            *value = stirred(key, *value);
        }
    }
    agree_on_pairs(map, model)
}

// Whether they are the same after each has received the pairs of another one.
fn agree_on_extended(map: &mut Map, more: Map, model: &mut Model, others: &mut Model) -> bool {
    let mut pairs = more.into_iter();
    let extended = map.extend(&mut pairs).is_ok() && model.append(others).is_ok();
    extended && pairs.next().is_none() && agree_on_pairs(map, model)
}

// Whether they are the same after both receive drawn pairs, change their values and remove some. The order of both and
// of the drawn pairs is compared too.
fn agree_in_round(map: &mut Map, model: &mut Model, numbers: &mut Numbers, alloc: Global) -> bool {
    let (mut more, mut others) = (ByteMap::new(alloc), BTreeMap::new(alloc));
    let agree = [
        fill_both(&mut more, &mut others, numbers),
        agree_on_order(map, &more, model, &others),
        agree_on_extended(map, more, model, &mut others),
        agree_on_each_pair(map, model),
        agree_on_each_value(map, model, drawn_key(numbers), drawn_key(numbers)),
        agree_from_back(map, model),
        agree_on_retained(map, model, numbers.below(5) as u32),
    ];
    agree == [true; 7]
}

// What is drawn.
#[derive(Clone, Copy, PartialEq, Debug)]
enum Drawn {
    Calls,
    /// The same, and the map is compacted at times.
    CallsOfACompactMap,
    Writes,
    /// Pairs of a range or with a prefix, and splits.
    Parts,
    /// Calls of all pairs, and of two maps.
    Rounds,
}

// Draws a call of both, the one with this number, and returns whether they agree.
fn agree_on_drawn(
    (map, model): (&mut Map, &mut Model),
    numbers: &mut Numbers,
    alloc: Global,
    (drawn, call): (Drawn, usize),
) -> bool {
    match drawn {
        Drawn::Calls => agree_on_call(map, model, numbers, call / 1_000 % 2 == 0),
        Drawn::CallsOfACompactMap => {
            agree_on_call(map, model, numbers, call / 500 % 2 == 0)
                && (call % 50 != 49 || map.compact().is_ok())
        }
        Drawn::Writes => entries::agree_on_write(map, model, numbers),
        Drawn::Parts => {
            let grows = call / 150 % 2 == 0;
            ranges::agree_on_change(map, model, numbers, grows)
                && ranges::agree_on_questions(map, model, numbers)
        }
        Drawn::Rounds => agree_in_round(map, model, numbers, alloc),
    }
}

// The number of the first call after which they differ, if they do. Where pairs only come, both are cleared at times.
fn differ_at(
    (map, model): (&mut Map, &mut Model),
    alloc: Global,
    drawn: Drawn,
    calls: usize,
) -> Option<usize> {
    let mut numbers = Numbers::new(calls as u64);
    for call in 0..calls {
        let agree = agree_on_drawn((map, model), &mut numbers, alloc, (drawn, call));
        if !agree || (call % 10 == 9 && !agree_on_pairs(map, model)) {
            return Some(call);
        }
        if call % 400 == 399 && drawn == Drawn::Writes {
            map.clear();
            model.clear();
        }
    }
    None
}

// What is drawn, and how many calls.
static RUNS: [(Drawn, usize); 5] = [
    (Drawn::Calls, 6_000),
    (Drawn::CallsOfACompactMap, 3_000),
    (Drawn::Writes, 6_000),
    (Drawn::Parts, 1_500),
    (Drawn::Rounds, 100),
];

#[test]
fn drawn_calls_answer_as_those_of_a_btree_map(rt: HostRuntime) -> Result<(), Fail> {
    let alloc = rt.alloc();
    for (drawn, calls) in &RUNS {
        let both = (&mut ByteMap::new(alloc), &mut BTreeMap::new(alloc));
        let differ = differ_at(both, alloc, *drawn, *calls);
        same((*drawn, differ), (*drawn, None))?;
    }
    Ok(())
}
