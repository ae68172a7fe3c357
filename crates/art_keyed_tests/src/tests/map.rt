//! Maps of keys that never conflict.
use super::shared::{digest, put, taken, value_of, word};
use art_keyed::map::TreeMap;
use art_keys::signed::I32Key;
use art_keys::terminated::Terminated;
use std::alloc::Global;
use std::ops::Bound;
use std::test::Fail;
use test_helpers::expected::same;

type Days = TreeMap<I32Key, u32, 8>;

type Words = TreeMap<Terminated, u32, 8>;

// What `digest` takes to make digits of the values.
const DIGITS: (u64, u64) = (0, 10);

// Whether a map of two new keys is printed in their order.
fn is_printed(map: &mut TreeMap<[u8; 1], u32, 8>, alloc: Global) -> Option<bool> {
    let new = [put(map, Some([3]), 1), put(map, Some([1]), 2)];
    match format!(in alloc; "{map:?}") {
        Ok(text) => Some(new == [Some(None); 2] && text.as_str() == "{[1]: 2, [3]: 1}"),
        Err(_) => None,
    }
}

#[test]
fn a_map_is_printed_in_order(rt: HostRuntime) -> Result<(), Fail> {
    let seen = is_printed(&mut TreeMap::new(rt.alloc()), rt.alloc());
    same(seen, Some(true))
}

// Whether the pairs of a map of numbers are new, whether it is compacted, and its values after one more insertion.
fn compacted(map: &mut Days) -> (bool, bool, u64) {
    let mut value = 1u32;
    let mut are_new = true;
    for number in [5i32, -1, 0, i32::MIN] {
        are_new &= put(map, Some(I32Key::from(number)), value) == Some(None);
        value = value.saturating_add(1);
    }
    let is_compact = map.compact().is_ok();
    are_new &= put(map, Some(I32Key::from(7)), 5) == Some(None);
    (are_new, is_compact, digest(map, DIGITS))
}

// The values next to a number, and whether the number and another one are stored.
fn next_to(map: &Days, number: I32Key) -> ([Option<u32>; 2], [bool; 2]) {
    let after = value_of(map.first_from(Bound::Excluded(&number)));
    let up_to = value_of(map.last_up_to(Bound::Included(&number)));
    let is_other = map.contains_key(&I32Key::from(1));
    ([after, up_to], [map.contains_key(&number), is_other])
}

type Beside = ([Option<u32>; 2], [bool; 2]);

fn compacted_and_next_to(map: &mut Days) -> ((bool, bool, u64), Beside) {
    (compacted(map), next_to(map, I32Key::from(-1)))
}

#[test]
fn numbers_stay_in_order_in_a_compact_map(rt: HostRuntime) -> Result<(), Fail> {
    let seen = compacted_and_next_to(&mut TreeMap::new(rt.alloc()));
    same(
        seen,
        ((true, true, 42_315), ([Some(3), Some(2)], [true, false])),
    )
}

// The values that four words had before their insertions, as `put` returns them.
fn replaced(map: &mut Words, alloc: Global) -> [Option<Option<u32>>; 4] {
    [
        put(map, word(alloc, b"car"), 1),
        put(map, word(alloc, b"cart"), 2),
        put(map, word(alloc, b"car"), 3),
        put(map, word(alloc, b"ca"), 4),
    ]
}

// The values that the map then has, and those of the first and the last pair as they are removed.
fn ends(map: &mut Words) -> (u64, [Option<u32>; 2]) {
    (
        digest(map, DIGITS),
        [taken(map.pop_first()), taken(map.pop_last())],
    )
}

// How many pairs there are, and whether there is none after all are removed.
fn cleared(map: &mut Words) -> (usize, bool) {
    let left = map.len();
    map.clear();
    (left, map.is_empty())
}

type Seen = (
    [Option<Option<u32>>; 4],
    (u64, [Option<u32>; 2]),
    (usize, bool),
);

fn words(map: &mut Words, alloc: Global) -> Seen {
    (replaced(map, alloc), ends(map), cleared(map))
}

#[test]
fn a_word_may_begin_another(rt: HostRuntime) -> Result<(), Fail> {
    let seen = words(&mut TreeMap::new(rt.alloc()), rt.alloc());
    same(
        seen,
        (
            [Some(None), Some(None), Some(Some(1)), Some(None)],
            (432, [Some(4), Some(2)]),
            (1, true),
        ),
    )
}
