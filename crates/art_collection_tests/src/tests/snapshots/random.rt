//! Random maps, written, and read in pieces of few bytes.
use super::maps::{put, written};
use art_keyed::map::TreeMap;
use art_keys::escaped::Escaped;
use art_snapshots::read_map;
use snapshot_format::ReadError;
use std::alloc::Global;
use std::test::*;
use test_helpers::streams::Pieces;

type Map = TreeMap<Escaped, Vec<u8>, 10>;

// Most bytes are alike, so that keys share prefixes.
static BYTES: [u8; 8] = [b'a', b'a', b'a', b'a', b'b', 0, 1, 255];

// Up to 20 bytes.
#[derive(Clone, Copy)]
struct Short {
    bytes: [u8; 20],
    len: usize,
}

impl Short {
    fn as_slice(&self) -> &[u8] {
        match self.bytes.get(..self.len) {
            Some(bytes) => bytes,
            None => &self.bytes,
        }
    }
}

// Returns the number that follows: those of Knuth's MMIX.
fn next(number: u64) -> u64 {
    number
        .wrapping_mul(6_364_136_223_846_793_005)
        .wrapping_add(1_442_695_040_888_963_407)
}

// Returns what a number stands for.
fn drawn(seed: u64) -> Short {
    let mut number = next(seed);
    let len = (number >> 33) as usize % 21;
    let mut bytes = [0u8; 20];
    for byte in &mut bytes {
        number = next(number);
        *byte = BYTES[(number >> 33) as usize % 8];
    }
    Short { bytes, len }
}

// Returns the value of a key in each map.
fn value_of(key: &[u8]) -> Short {
    let mut number = 1;
    for byte in key {
        number = next(number ^ u64::from(*byte));
    }
    drawn(number)
}

// Returns a map of the pairs of so many numbers, with the first of these.
fn map_of(alloc: Global, first: u64, count: u64) -> Map {
    let mut map = TreeMap::new(alloc);
    for at in 0..count {
        let key = drawn(first ^ at);
        let value = Vec::from_slice(alloc, value_of(key.as_slice()).as_slice()).ok();
        put(&mut map, Escaped::encode(alloc, key.as_slice()).ok(), value);
    }
    map
}

// Returns whether the map has the pair of a key.
fn has(alloc: Global, map: &Map, key: Short) -> bool {
    let Ok(query) = Escaped::encode(alloc, key.as_slice()) else {
        return false;
    };
    match map.get(&query) {
        Some(value) => value.as_slice() == value_of(key.as_slice()).as_slice(),
        None => false,
    }
}

// Returns whether a map with these pairs is read, in pieces.
fn is_read(alloc: Global, input: Pieces, map: &Map, first: u64, count: u64) -> bool {
    let read: Result<Map, ReadError> = read_map(alloc, input);
    let Ok(read) = read else {
        return false;
    };
    let mut is_same = read == *map && read.len() == map.len();
    for at in 0..count {
        is_same &= has(alloc, &read, drawn(first ^ at));
    }
    is_same
}

// Returns whether a map is the same once it was written and read.
fn comes_back(alloc: Global, round: u64) -> bool {
    let first = next(round) & !63;
    let count = (first >> 33) % 41;
    let map = map_of(alloc, first, count);
    let bytes = written(alloc, &map);
    let most = (round % 7) as usize + 1;
    is_read(alloc, Pieces::of_at_most(&bytes, most), &map, first, count)
}

#[test]
fn random_maps(rt: HostRuntime) {
    for round in 0..200u64 {
        assert!(rt; comes_back(rt.alloc(), round), "round {round}");
    }
}
