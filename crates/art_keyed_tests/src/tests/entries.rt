//! Values that are written, or made if their keys are new.
use art_keyed::map::TreeMap;
use std::test::Fail;
use test_helpers::expected::same;

type Map = TreeMap<[u8; 2], u32, 8>;

// The value of a key, which is 7 if it is made.
fn made(map: &mut Map, key: [u8; 2]) -> Option<u32> {
    map.entry(key).or_insert_with(|| 7).ok().copied()
}

// The same, made of the key.
fn made_of_key(map: &mut Map, key: [u8; 2]) -> Option<u32> {
    map.entry(key)
        .or_insert_with_key(|key| key[1] as u32)
        .ok()
        .copied()
}

// The same, the default value.
fn default_made(map: &mut Map, key: [u8; 2]) -> Option<u32> {
    map.entry(key).or_default().ok().copied()
}

// The same, 9 if it is made, and else 5.
fn changed(map: &mut Map, key: [u8; 2]) -> Option<u32> {
    map.entry(key)
        .and_modify(|value| *value = 5)
        .or_insert(9)
        .ok()
        .copied()
}

#[test]
fn values_are_made_where_keys_are_new(rt: HostRuntime) -> Result<(), Fail> {
    let mut map = TreeMap::new(rt.alloc());
    let new = [
        made(&mut map, [1, 1]),
        made_of_key(&mut map, [1, 2]),
        default_made(&mut map, [1, 3]),
        changed(&mut map, [1, 4]),
    ];
    let stored = [
        made(&mut map, [1, 2]),
        made_of_key(&mut map, [1, 1]),
        default_made(&mut map, [1, 4]),
        changed(&mut map, [1, 3]),
    ];
    same(
        (new, stored),
        (
            [Some(7), Some(2), Some(0), Some(9)],
            [Some(2), Some(7), Some(9), Some(5)],
        ),
    )
}

// Increments the value of a key, and returns whether it is stored.
fn count(map: &mut Map, key: [u8; 2]) -> bool {
    let Some(value) = map.get_mut(&key) else {
        return false;
    };
    *value = value.saturating_add(1);
    true
}

// The same, inserted with 3 if it is new.
fn count_or_insert(map: &mut Map, key: [u8; 2]) -> bool {
    let Ok(value) = map.get_or_insert(key, 3) else {
        return false;
    };
    *value = value.saturating_add(1);
    true
}

#[test]
fn values_are_written_where_they_are(rt: HostRuntime) -> Result<(), Fail> {
    let mut map = TreeMap::new(rt.alloc());
    let written = [
        count(&mut map, [1, 1]),
        count_or_insert(&mut map, [1, 1]),
        count(&mut map, [1, 1]),
    ];
    same(
        (written, map.get(&[1, 1]).copied()),
        ([false, true, true], Some(5)),
    )
}
