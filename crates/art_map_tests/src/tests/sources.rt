//! Calls of a map by bytes that need not stand in a slice, and keys that are made where they are new.
ghost use Rattle.std.specs.Prelude.{◌≡◌, ◌≢◌, [], ◌∷◌, refl, ⊤};

use super::calls::{Map, fill};
use art_map::map::{ByteMap, MapSourceError, ToKey};
use art_node_support::expected::same;
use art_reading::lookup::KeyBytes;
use std::alloc::{AllocError, Global};
use std::ops::Bound;
use std::test::Fail;

// A byte of which a key is made, but for 0.
#[derive(Clone, Copy)]
struct Source {
    byte: u8,
}

impl KeyBytes for Source {
    ghost key = { λ source. source.byte ∷ [] };

    fn again(&self) -> Self {
        *self
    }

    fn byte_after(&mut self, place: usize, skipped: usize) -> Option<u8> {
        let bytes = [self.byte];
        bytes.as_slice().byte_after(place, skipped)
    }

    fn shared_after(&mut self, place: usize, bytes: &[u8]) -> usize {
        let own = [self.byte];
        own.as_slice().shared_after(place, bytes)
    }
}

impl ToKey<[u8; 1]> for Source {
    ghost made = { λ source. source.byte ∷ [] };

    ghost same_bytes = { λ source. refl };

    ghost is_key = { λ source. source.byte ≢ 0 };

    ghost allocates_nothing = { λ source. ⊤ };

    fn to_key(&self, alloc: Global) -> Result<Option<[u8; 1]>, AllocError> {
        if self.byte == 0 {
            return Ok(None);
        }
        Ok(Some([self.byte]))
    }
}

// Adds ten to the value of a key, which begins with 7, and returns whether there is such a key.
fn is_added(map: &mut Map, alloc: Global, byte: u8) -> bool {
    match map.get_or_insert_from(alloc, &Source { byte }, 7) {
        Ok(value) => {
            *value = value.wrapping_add(10);
            true
        }
        Err(MapSourceError::NoKey { value }) => value != 7,
        Err(_) => true,
    }
}

#[test]
fn a_key_is_made_where_it_is_new(rt: HostRuntime) -> Result<(), Fail> {
    let mut map = ByteMap::new(rt.alloc());
    fill(&mut map, 3);
    let added = [
        is_added(&mut map, rt.alloc(), 2),
        is_added(&mut map, rt.alloc(), 9),
        is_added(&mut map, rt.alloc(), 9),
        is_added(&mut map, rt.alloc(), 0),
    ];
    let values = [
        map.get(&[1]).copied(),
        map.get(&[2]).copied(),
        map.get(&[9]).copied(),
    ];
    same(
        (added, values, map.len()),
        ([true, true, true, false], [Some(1), Some(12), Some(27)], 4),
    )
}

#[test]
fn a_value_is_written_and_removed_by_bytes(rt: HostRuntime) -> Result<(), Fail> {
    let mut map = ByteMap::new(rt.alloc());
    fill(&mut map, 3);
    if let Some(value) = map.get_mut_by_bytes(&mut Source { byte: 2 }) {
        *value = 20;
    }
    let is_there = map.get_mut_by_bytes(&mut Source { byte: 9 }).is_some();
    let taken = map.remove_by_bytes(&mut Source { byte: 2 });
    let again = map.remove_by_bytes(&mut Source { byte: 2 });
    same(
        (is_there, taken, again, map.len()),
        (false, Some(([2], 20)), None, 2),
    )
}

// The pair of a key of one byte.
fn pair_of(map: &Map, byte: u8) -> Option<([u8; 1], u32)> {
    let (key, value) = map.get_key_value_by_bytes(&mut Source { byte })?;
    Some((*key, *value))
}

#[test]
fn pairs_are_found_and_removed_by_bytes(rt: HostRuntime) -> Result<(), Fail> {
    let mut map = ByteMap::new(rt.alloc());
    fill(&mut map, 5);
    let found = [pair_of(&map, 3), pair_of(&map, 9)];
    let below = map.prefix_by(Source { byte: 4 }).count();
    let from = Bound::Included(Source { byte: 1 });
    let between = map
        .range_by(from, Bound::Excluded(Source { byte: 3 }))
        .count();
    let gone = map.remove_prefix_by(Source { byte: 4 });
    let again = map.remove_prefix_by(Source { byte: 4 });
    same(
        (found, [below, between, gone, again], map.len()),
        ([Some(([3], 3)), None], [1, 2, 1, 0], 4),
    )
}
