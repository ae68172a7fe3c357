//! Calls of a map with keys of one byte.
use art_map::map::ByteMap;
use art_node_support::expected::same;
use std::alloc::Global;
use std::test::Fail;

/// A map with keys of one byte.
pub type Map = ByteMap<[u8; 1], u32, 4>;

/// Inserts the keys from 1 to a last one, with the same values.
pub fn fill(map: &mut Map, last: u8) {
    for byte in 1..=last {
        drop(map.insert([byte], byte as u32));
    }
}

/// Which pair is removed.
#[derive(Clone, Copy)]
pub enum Removal<K> {
    Key(K),
    First,
    Last,
}

/// Removes a pair.
pub fn remove(map: &mut Map, removal: Removal<[u8; 1]>) -> Option<([u8; 1], u32)> {
    match removal {
        Removal::Key(key) => map.remove(&key).unwrap(),
        Removal::First => map.pop_first().unwrap(),
        Removal::Last => map.pop_last().unwrap(),
    }
}

/// Digits, and the value of a pair as one more.
pub fn with_digit<K>(digits: u32, pair: (&K, &u32)) -> u32 {
    digits.wrapping_mul(10).wrapping_add(*pair.1)
}

/// The value of a pair, if there is one.
pub fn value_of<K>(pair: Option<(&K, &u32)>) -> Option<u32> {
    let (_, value) = pair?;
    Some(*value)
}

// Whether a map of five pairs is printed in order.
fn is_printed(alloc: Global, map: &mut Map) -> Option<bool> {
    fill(map, 5);
    let text = format!(in alloc; "{map:?}").ok()?;
    Some(text.as_str() == "{[1]: 1, [2]: 2, [3]: 3, [4]: 4, [5]: 5}")
}

#[test]
fn a_map_is_printed_in_order(rt: HostRuntime) -> Result<(), Fail> {
    let seen = is_printed(rt.alloc(), &mut ByteMap::new(rt.alloc()));
    same(seen, Some(true))
}

// Two values of a clone, and how many pairs it has after one is removed.
fn changed(copy: &mut Map) -> ([Option<u32>; 2], usize) {
    let values = [copy.get(&[1]).copied(), copy.get(&[5]).copied()];
    let is_removed = remove(copy, Removal::Key([1])).is_some();
    (values, if is_removed { copy.len() } else { 0 })
}

// The same of a clone of a map, if there is one.
fn cloned(map: &Map) -> Option<([Option<u32>; 2], usize)> {
    match map.clone() {
        Ok(mut copy) => Some(changed(&mut copy)),
        Err(_) => None,
    }
}

// A clone of a map with few pairs in a node that had many.
#[test]
fn a_clone_goes_its_own_way(rt: HostRuntime) -> Result<(), Fail> {
    let mut map = ByteMap::new(rt.alloc());
    fill(&mut map, 60);
    map.retain(|key, _| key[0] <= 5);
    same(
        (cloned(&map), map.len()),
        (Some(([Some(1), Some(5)], 4)), 5),
    )
}
