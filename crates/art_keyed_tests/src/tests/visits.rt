//! Random calls of a map whose keys are two numbers joined into one, beside the same calls of a `BTreeMap`.
use super::shared::{agree_on_insertion, digest, digest_of_model, is_taken, read};
use art_keyed::map::TreeMap;
use art_keys::joined::Joined;
use art_keys::signed::I16Key;
use art_keys::unsigned::U8Key;
use std::alloc::Global;
use std::collections::BTreeMap;
use std::test::Fail;
use test_helpers::expected::same;
use test_helpers::numbers::Numbers;

type Key = Joined<U8Key, I16Key>;

type Visits = TreeMap<Key, u32, 2>;

type Model = BTreeMap<(u8, i16), u32>;

// Where the numbers that values make begin, and what they are multiplied by.
const FACTORS: (u64, u64) = (1, 1_000_003);

// One of 200 keys.
fn drawn(numbers: &mut Numbers) -> (u8, i16) {
    (numbers.below(5) as u8, numbers.below(40) as i16 - 20)
}

fn key_of(alloc: Global, visit: (u8, i16)) -> Option<Key> {
    Joined::join(alloc, &U8Key::from(visit.0), &I16Key::from(visit.1)).ok()
}

// A removal from both, and whether they return the same value.
fn agree_on_removal(map: &mut Visits, model: &mut Model, alloc: Global, visit: (u8, i16)) -> bool {
    match key_of(alloc, visit) {
        Some(key) => is_taken(map.remove(&key), model.remove(&visit)),
        None => false,
    }
}

// How many visits of a user there are, and from a time on up to another one.
fn counts_of(
    map: &Visits,
    alloc: Global,
    (user, time): (u8, i16),
    end: i16,
) -> Option<(usize, usize)> {
    let user = U8Key::from(user);
    let all = read(map.with_first(&user)).0;
    match map.range_with(alloc, &user, I16Key::from(time)..I16Key::from(end)) {
        Ok(times) => Some((all, read(times).0)),
        Err(_) => None,
    }
}

// Whether both have as many visits of a user, and as many of the user from a time on up to another one.
fn agree_on_a_user(map: &Visits, model: &Model, alloc: Global, visit: (u8, i16), end: i16) -> bool {
    let (mut all, mut between) = (0usize, 0usize);
    for ((user, time), _) in model.iter() {
        let is_of_user = *user == visit.0;
        let is_between = visit.1 <= *time && *time < end;
        all = all.saturating_add(is_of_user as usize);
        between = between.saturating_add((is_of_user && is_between) as usize);
    }
    counts_of(map, alloc, visit, end) == Some((all, between))
}

// The time and the value of the first visit of a user.
fn first_of(model: &Model, user: u8) -> Option<(i16, u32)> {
    for ((other, time), value) in model.iter() {
        if *other == user {
            return Some((*time, *value));
        }
    }
    None
}

// A removal of the first visit of a user from both, and whether they return the same.
fn agree_on_the_first(map: &mut Visits, model: &mut Model, alloc: Global, user: u8) -> bool {
    let first = first_of(model, user);
    if let Some((time, _)) = first {
        model.remove(&(user, time));
    }
    let Some((key, value)) = map.pop_first_with(&U8Key::from(user)) else {
        return first.is_none();
    };
    match key.second(alloc) {
        Ok(time) => first == Some((time.get(), value)),
        Err(_) => false,
    }
}

// A removal of all visits of a user from both, and whether as many are removed.
fn agree_on_all_of_a_user(map: &mut Visits, model: &mut Model, user: u8) -> bool {
    let before = model.len();
    model.retain(|key, _| key.0 != user);
    let removed = map.remove_with_first(&U8Key::from(user));
    removed == before.saturating_sub(model.len())
}

// Both keep the even values, and count one more of each.
fn keep_even(map: &mut Visits, model: &mut Model) -> bool {
    map.retain(|_, value| *value % 2 == 0);
    map.for_each_value(|value| *value = value.wrapping_add(1));
    model.retain(|_, value| {
        let is_even = *value % 2 == 0;
        *value = value.wrapping_add(1);
        is_even
    });
    map.len() == model.len()
}

// A call of both, and whether they return the same.
fn agree_on_call(
    map: &mut Visits,
    model: &mut Model,
    alloc: Global,
    numbers: &mut Numbers,
) -> bool {
    let visit = drawn(numbers);
    match numbers.below(100) {
        0..=59 => {
            let key = key_of(alloc, visit);
            agree_on_insertion(map, model, (key, visit), numbers.value())
        }
        60..=69 => agree_on_removal(map, model, alloc, visit),
        70..=79 => agree_on_the_first(map, model, alloc, visit.0),
        80..=97 => agree_on_a_user(map, model, alloc, visit, drawn(numbers).1),
        98 => agree_on_all_of_a_user(map, model, visit.0),
        _ => keep_even(map, model),
    }
}

// The number of the first call after which they differ, if they do, and whether the map is then empty.
fn differ_at(
    map: &mut Visits,
    model: &mut Model,
    alloc: Global,
    calls: usize,
) -> (Option<usize>, bool) {
    let mut numbers = Numbers::new(5);
    for call in 0..calls {
        let agree = agree_on_call(map, model, alloc, &mut numbers);
        if !agree || digest(map, FACTORS) != digest_of_model(model, FACTORS) {
            return (Some(call), map.is_empty());
        }
    }
    (None, map.is_empty())
}

#[test]
fn drawn_calls_with_joined_keys_return_what_those_of_a_btree_map_do(
    rt: HostRuntime,
) -> Result<(), Fail> {
    let alloc = rt.alloc();
    let seen = differ_at(
        &mut TreeMap::new(alloc),
        &mut BTreeMap::new(alloc),
        alloc,
        2_000,
    );
    same(seen, (None, false))
}
