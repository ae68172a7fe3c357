//! Keys of several lengths, some of which are prefixes of others.
use super::calls::with_digit;
use art_map::map::{ByteMap, MapInsertError};
use art_node_support::expected::same;
use std::alloc::Global;
use std::test::Fail;

type Map = ByteMap<Vec<u8>, u32, 4>;

// Whether a refused insertion returns another key or value than these, or tells other bytes. None if an allocation
// failed.
fn is_wrongly_refused(
    refused: &MapInsertError<Vec<u8>, u32>,
    key: &[u8],
    value: u32,
) -> Option<bool> {
    match refused {
        MapInsertError::Conflict {
            key: own,
            value: back,
            error,
        } => Some(own.as_slice() != key || *back != value || error.byte_repr.as_slice() != key),
        MapInsertError::Memory { .. } => None,
    }
}

// Whether a key is inserted: if not, it is returned with its value and its bytes. None if an allocation fails.
fn is_put(map: &mut Map, alloc: Global, key: &[u8], value: u32) -> Option<bool> {
    match map.insert(key.to_vec(alloc).ok()?, value) {
        Ok(_) => Some(true),
        Err(refused) => is_wrongly_refused(&refused, key, value),
    }
}

fn put_over(map: &mut Map, alloc: Global, key: &[u8], value: u32) -> Option<usize> {
    let key = key.to_vec(alloc).ok()?;
    map.insert_over(key, value).ok()
}

// The values of a map in the order of its keys, as digits.
fn digits(map: &Map) -> u32 {
    map.iter().fold(0, with_digit)
}

#[test]
fn related_keys_are_refused(rt: HostRuntime) -> Result<(), Fail> {
    let (mut map, alloc) = (ByteMap::new(rt.alloc()), rt.alloc());
    let are_put = [
        is_put(&mut map, alloc, &[2], 1),
        is_put(&mut map, alloc, &[1], 2),
        is_put(&mut map, alloc, &[1, 1], 3),
        is_put(&mut map, alloc, &[], 4),
    ];
    same(
        (are_put, digits(&map)),
        ([Some(true), Some(true), Some(false), Some(false)], 21),
    )
}

// The only byte of a pair's key, and its value.
fn plain(pair: &Option<(Vec<u8>, u32)>) -> Option<(u8, u32)> {
    let (key, value) = pair.as_ref()?;
    match key.as_slice() {
        [byte] => Some((*byte, *value)),
        _ => None,
    }
}

// The pair that an insertion returns. None if it fails.
fn returned(map: &mut Map, alloc: Global, key: &[u8], value: u32) -> Option<Option<(u8, u32)>> {
    let replaced = map.insert(key.to_vec(alloc).ok()?, value).ok()?;
    Some(plain(&replaced))
}

// The first pair, the last pair and then the first pair, each removed.
fn removed_in_turn(map: &mut Map) -> [Option<(u8, u32)>; 3] {
    let first = plain(&map.pop_first().unwrap());
    let last = plain(&map.pop_last().unwrap());
    [first, last, plain(&map.pop_first().unwrap())]
}

#[test]
fn a_map_goes_on_after_a_conflict(rt: HostRuntime) -> Result<(), Fail> {
    let (mut map, alloc) = (ByteMap::new(rt.alloc()), rt.alloc());
    let are_put = [
        is_put(&mut map, alloc, &[2], 1),
        is_put(&mut map, alloc, &[1], 2),
        is_put(&mut map, alloc, &[1, 1], 3),
    ];
    let kept = (map.len(), digits(&map));
    let replaced = returned(&mut map, alloc, &[2], 5);
    let then = (map.len(), map.get(&[2]).copied());
    let removed = (removed_in_turn(&mut map), map.len());
    same(
        (are_put, kept, replaced, then, removed),
        (
            [Some(true), Some(true), Some(false)],
            (2, 21),
            Some(Some((2, 1))),
            (2, Some(5)),
            ([Some((1, 2)), Some((2, 5)), None], 0),
        ),
    )
}

// How many keys each of six replaces.
fn put_six_over(map: &mut Map, alloc: Global) -> [Option<usize>; 6] {
    [
        put_over(map, alloc, &[1, 1], 1),
        put_over(map, alloc, &[1, 2], 2),
        put_over(map, alloc, &[2], 3),
        put_over(map, alloc, &[1], 4),
        put_over(map, alloc, &[2], 5),
        put_over(map, alloc, &[2, 2], 6),
    ]
}

#[test]
fn all_related_keys_give_way(rt: HostRuntime) -> Result<(), Fail> {
    let mut map = ByteMap::new(rt.alloc());
    let gone = put_six_over(&mut map, rt.alloc());
    let expected = [Some(0), Some(0), Some(0), Some(2), Some(1), Some(1)];
    same((gone, digits(&map)), (expected, 46))
}

// The length of the key that matches a query, and its value.
fn matched(map: &Map, query: &[u8]) -> Option<(usize, u32)> {
    let (key, value) = map.longest_match(query)?;
    Some((key.len(), *value))
}

#[test]
fn a_query_finds_the_key_that_it_begins_with(rt: HostRuntime) -> Result<(), Fail> {
    let mut map = ByteMap::new(rt.alloc());
    let are_put = [
        is_put(&mut map, rt.alloc(), &[1], 7),
        is_put(&mut map, rt.alloc(), &[2, 2], 8),
    ];
    let found = [
        matched(&map, &[1]),
        matched(&map, &[1, 9, 9]),
        matched(&map, &[2]),
        matched(&map, &[2, 2, 2]),
        matched(&map, &[]),
    ];
    same(
        (are_put, found),
        (
            [Some(true); 2],
            [Some((1, 7)), Some((1, 7)), None, Some((2, 8)), None],
        ),
    )
}
