//! Drawn writes of a map's values, by `get_mut` and by entries, compared with those of a `BTreeMap`.
use super::beside_btree::{Key, Map, Model, drawn_key};
use art_map::map::{ByteMap, MapMakeError};
use art_node_support::expected::same;
use art_node_support::numbers::Numbers;
use std::test::Fail;

// Writes the value of a key, if it is stored, and returns the one before.
fn written(map: &mut Map, key: Key, value: u32) -> Option<u32> {
    let stored = map.get_mut(&key)?;
    let was = *stored;
    *stored = value;
    Some(was)
}

// A value, if it is even.
fn even(value: u32) -> Result<u32, u32> {
    if value % 2 == 0 {
        return Ok(value);
    }
    Err(value)
}

// The value of a key that is inserted with an even value; no odd value is inserted.
fn even_at(map: &mut Map, key: Key, value: u32) -> Option<u32> {
    let Ok(stored) = map.entry(key).or_try_insert_with(|| even(value)) else {
        return None;
    };
    Some(*stored)
}

// The value of a key, which is inserted by one of six calls if it is new.
fn stored_at(map: &mut Map, key: Key, value: u32, call: usize) -> Option<u32> {
    match call {
        0 => map.get_or_insert(key, value).ok().copied(),
        1 => map.entry(key).or_insert(value).ok().copied(),
        2 => map.entry(key).or_insert_with(|| value).ok().copied(),
        3 => {
            map.entry(key)
                .or_insert_with_key(|key| key[3] as u32)
                .ok()
                .copied()
        }
        4 => map.entry(key).or_default().ok().copied(),
        _ => even_at(map, key, value),
    }
}

// What these calls insert.
fn made(key: Key, value: u32, call: usize) -> Option<u32> {
    match call {
        0..=2 => Some(value),
        3 => Some(key[3] as u32),
        4 => Some(0),
        _ => even(value).ok(),
    }
}

// The value of a key, which is inserted if it is new.
fn stored_in_model(model: &mut Model, key: Key, made: Option<u32>) -> Option<u32> {
    if let Some(value) = model.get(&key).copied() {
        return Some(value);
    }
    model.insert(key, made?).ok()?;
    made
}

// The value of a key, which is tripled if it is stored, by its entry.
fn tripled(map: &mut Map, key: Key) -> Option<u32> {
    let entry = map
        .entry(key)
        .and_modify(|stored| *stored = stored.wrapping_mul(3));
    entry.get().copied()
}

fn tripled_in_model(model: &mut Model, key: Key) -> Option<u32> {
    let value = model.get(&key).copied()?.wrapping_mul(3);
    model.insert(key, value).ok()?;
    Some(value)
}

// Writes the value of a key that is stored in the other map.
fn written_in_model(model: &mut Model, key: Key, value: u32) -> Option<u32> {
    let was = model.get(&key).copied()?;
    model.insert(key, value).ok()?;
    Some(was)
}

// A drawn write of both, and whether they agree.
pub(super) fn agree_on_write(map: &mut Map, model: &mut Model, numbers: &mut Numbers) -> bool {
    let (key, value) = (drawn_key(numbers), numbers.value());
    match numbers.below(10) {
        0..=1 => written(map, key, value) == written_in_model(model, key, value),
        2..=3 => tripled(map, key) == tripled_in_model(model, key),
        call => {
            let call = call.saturating_sub(4);
            stored_at(map, key, value, call) == stored_in_model(model, key, made(key, value, call))
        }
    }
}

// What is returned if a closure fails: nothing if the key is stored.
fn failed(map: &mut Map, key: Key, why: u32) -> Option<(Key, u32)> {
    match map.entry(key).or_try_insert_with(|| Err(why)) {
        Err(MapMakeError::Make { key, error }) => Some((key, error)),
        _ => None,
    }
}

#[test]
fn a_failed_closure_hands_the_key_back(rt: HostRuntime) -> Result<(), Fail> {
    let mut map = ByteMap::new(rt.alloc());
    let key = [1, 1, 1, 1];
    let new = (failed(&mut map, key, 9), map.len());
    let made = even_at(&mut map, key, 6);
    same(
        (new, made, failed(&mut map, key, 9)),
        ((Some((key, 9)), 0), Some(6), None),
    )
}
