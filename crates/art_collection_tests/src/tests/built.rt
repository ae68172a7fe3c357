//! Maps and sets that are built from sorted pairs.
ghost use Rattle.std.specs.Prelude.{◌<◌};

use art_building::byte_map::{AppendReason, MapBuilder};
use art_building::tree_map::TreeMapBuilder;
use art_keyed::map::TreeMap;
use art_keys::terminated::Terminated;
use art_map::map::ByteMap;
use art_node_support::expected::same;
use art_node_support::memory::{begin_refusals, end_refusals};
use art_node_support::numbers::Numbers;
use std::alloc::{AllocError, Global};
use std::collections::BTreeMap;
use std::test::Fail;

type Model = BTreeMap<[u8; 4], u32>;

// Few first bytes, so that keys share prefixes of each length, and many last ones, so that nodes are large.
fn draw(alloc: Global, seed: u64) -> Result<Model, AllocError> {
    let mut numbers = Numbers::new(seed);
    let mut model = BTreeMap::new(alloc);
    for _ in 0..500 {
        let key = [
            numbers.below(2) as u8,
            numbers.below(2) as u8 * 7,
            numbers.below(2) as u8,
            numbers.below(90) as u8,
        ];
        model.insert(key, numbers.value())?;
    }
    Ok(model)
}

// The map of the pairs, without those for which an allocation failed.
fn build<const P: usize>(alloc: Global, model: &Model) -> ByteMap<[u8; 4], u32, P>
    requires { P < 256 }
{
    let mut builder = MapBuilder::new(alloc);
    for (key, value) in model.iter() {
        let _ = builder.push(*key, *value);
    }
    builder.finish()
}

// Whether the map finds each value, and then has no pair left once all were removed.
fn is_map_of<const P: usize>(map: &mut ByteMap<[u8; 4], u32, P>, model: &Model) -> bool {
    let mut is_right = map.len() == model.len();
    for (key, value) in model.iter() {
        is_right = is_right && map.get(key) == Some(value);
    }
    for (key, value) in model.iter() {
        is_right = is_right && map.pop_first().unwrap() == Some((*key, *value));
    }
    is_right && map.is_empty()
}

// Whether the map is built, with so many bytes of a prefix stored.
fn is_built<const P: usize>(alloc: Global, model: &Model) -> bool
    requires { P < 256 }
{
    let mut map = build::<P>(alloc, model);
    is_map_of(&mut map, model)
}

// How many of twenty drawn maps are built, with 0, 2 and 16 bytes of a prefix stored.
fn count_built(alloc: Global) -> usize {
    let mut built = 0usize;
    for seed in 0..20u64 {
        if let Ok(model) = draw(alloc, seed) {
            let is_each = is_built::<0>(alloc, &model)
                && is_built::<2>(alloc, &model)
                && is_built::<16>(alloc, &model);
            built = built.saturating_add(is_each as usize);
        }
    }
    built
}

#[test]
fn drawn_pairs_are_built(rt: HostRuntime) -> Result<(), Fail> {
    same(count_built(rt.alloc()), 20)
}

// Adds a key, unless an allocation fails. Returns why it is not added, with the value.
fn push(
    alloc: Global,
    builder: &mut MapBuilder<Vec<u8>, u32, 4>,
    key: &[u8],
    value: u32,
) -> Option<(AppendReason, u32)> {
    let key = key.to_vec(alloc).ok()?;
    match builder.push(key, value) {
        Ok(()) => None,
        Err(error) => Some((error.reason, error.value)),
    }
}

// Why a key is not added after another one, if it isn't.
fn reason_after(alloc: Global, last: &[u8], key: &[u8]) -> Option<AppendReason> {
    let mut builder = MapBuilder::new(alloc);
    push(alloc, &mut builder, last, 1);
    match push(alloc, &mut builder, key, 2) {
        Some((reason, 2)) if builder.len() == 1 => Some(reason),
        _ => None,
    }
}

#[test]
fn a_pair_out_of_order_is_returned(rt: HostRuntime) -> Result<(), Fail> {
    let alloc = rt.alloc();
    let seen = [
        reason_after(alloc, b"ab", b"aa"),
        reason_after(alloc, b"b", b"abc"),
        reason_after(alloc, b"ab", b"ab"),
        reason_after(alloc, b"ab", b"abc"),
        reason_after(alloc, b"abc", b"ab"),
        reason_after(alloc, b"", b"a"),
        reason_after(alloc, b"ab", b"b"),
    ];
    same(
        seen,
        [
            Some(AppendReason::Before),
            Some(AppendReason::Before),
            Some(AppendReason::Equal),
            Some(AppendReason::Conflict),
            Some(AppendReason::Conflict),
            Some(AppendReason::Conflict),
            None,
        ],
    )
}

// Adds the pairs from a byte on, and returns the byte of the first that fails, or 40.
fn fill(builder: &mut MapBuilder<[u8; 2], u32, 1>, from: u8) -> u8 {
    for byte in from..40 {
        if builder.push([byte / 5, byte], byte as u32).is_err() {
            return byte;
        }
    }
    40
}

// The byte of the first pair that fails while an allocation may fail, and the lengths then and once all are added.
fn refuse(alloc: Global) -> (u8, [usize; 2]) {
    let mut builder = MapBuilder::new(alloc);
    begin_refusals(alloc);
    let failed = fill(&mut builder, 0);
    end_refusals(alloc);
    let len = builder.len();
    fill(&mut builder, failed);
    (failed, [len, builder.len()])
}

#[test]
fn refused_each_addition_leaves_the_builder(rt: HostRuntime) -> Result<(), Fail> {
    let (failed, lens) = refuse(rt.alloc());
    same(lens, [failed as usize, 40])?;
    if failed < 40 {
        println!(rt; "asserted")?;
    }
    Ok(())
}

// The words with their places, without those for which an allocation failed.
fn words(alloc: Global, texts: [&[u8]; 4]) -> Vec<(Terminated, u32)> {
    let mut words = Vec::new(alloc);
    let mut place = 0u32;
    for text in texts {
        if let Ok(Some(word)) = Terminated::encode(alloc, text) {
            let _ = words.push((word, place));
        }
        place = place.saturating_add(1);
    }
    words
}

// The value of the longest of four sorted words that a text starts with.
fn longest(alloc: Global) -> Option<u32> {
    let mut sorted = words(alloc, [b"car", b"cart", b"do", b"dot"]).into_iter();
    let map = TreeMapBuilder::<_, _, 4>::new(alloc)
        .build(&mut sorted)
        .ok()?;
    longest_of(&map)
}

fn longest_of(map: &TreeMap<Terminated, u32, 4>) -> Option<u32> {
    let (_, value) = map.longest_match(b"carton")?;
    Some(*value)
}

// The value of the first word out of order, how many are left after it, and how many keys the set of those before has.
fn disordered(alloc: Global) -> Option<(u32, usize, usize)> {
    let mut pairs = words(alloc, [b"car", b"do", b"cart", b"dot"]).into_iter();
    let mut builder = TreeMapBuilder::<_, _, 4>::new(alloc);
    match builder.extend(&mut pairs) {
        Ok(()) => None,
        Err(error) => Some((error.value, pairs.count(), builder.finish().len())),
    }
}

#[test]
fn words_are_built(rt: HostRuntime) -> Result<(), Fail> {
    let seen = (longest(rt.alloc()), disordered(rt.alloc()));
    same(seen, (Some(1), Some((2, 1, 2))))
}

// The values of a map, as digits in the order of the words.
fn digits_of(map: &TreeMap<Terminated, u32, 4>) -> u32 {
    let mut digits = 0u32;
    for value in map.values() {
        digits = digits.saturating_mul(10).saturating_add(*value);
    }
    digits
}

// The values of a map of four words in any order. One word comes twice.
fn unsorted(alloc: Global) -> Option<u32> {
    let pairs = words(alloc, [b"dot", b"cart", b"dot", b"car"]);
    match TreeMapBuilder::from_unsorted(alloc, pairs) {
        Ok(builder) => Some(digits_of(&builder.finish())),
        Err(_) => None,
    }
}

// Whether a map of so many words in any order is built while an allocation may fail.
fn refuse_unsorted(alloc: Global) -> (usize, bool) {
    let pairs = words(alloc, [b"dot", b"cart", b"dot", b"car"]);
    let len = pairs.len();
    begin_refusals(alloc);
    let is_built = TreeMapBuilder::<_, _, 4>::from_unsorted(alloc, pairs).is_ok();
    end_refusals(alloc);
    (len, is_built)
}

#[test]
fn words_in_any_order_are_built(rt: HostRuntime) -> Result<(), Fail> {
    same(unsorted(rt.alloc()), Some(312))
}

#[test]
fn refused_each_building_of_words_fails(rt: HostRuntime) -> Result<(), Fail> {
    let (len, is_built) = refuse_unsorted(rt.alloc());
    same(len, 4)?;
    if !is_built {
        println!(rt; "asserted")?;
    }
    Ok(())
}

// How many keys a set of these bytes has.
fn set_of(alloc: Global, bytes: [u8; 3]) -> Option<usize> {
    let mut builder = TreeMapBuilder::<[u8; 1], (), 4>::new(alloc);
    for byte in bytes {
        builder.push([byte], ()).ok()?;
    }
    Some(builder.finish_set().len())
}

#[test]
fn sets_are_built_of_ascending_keys(rt: HostRuntime) -> Result<(), Fail> {
    let seen = [
        set_of(rt.alloc(), [1, 2, 255]),
        set_of(rt.alloc(), [1, 1, 2]),
    ];
    same(seen, [Some(3), None])
}

// How many keys a set of these bytes has, which come in any order, and the first one.
fn set_of_unsorted(alloc: Global, bytes: [u8; 3]) -> Option<(usize, Option<[u8; 1]>)> {
    let keys = Vec::from_array(alloc, bytes.map(|byte| [byte])).ok()?;
    let set = TreeMapBuilder::<[u8; 1], (), 4>::from_unsorted_keys(alloc, keys)
        .ok()?
        .finish_set();
    Some((set.len(), set.first().copied()))
}

#[test]
fn sets_are_built_of_keys_in_any_order(rt: HostRuntime) -> Result<(), Fail> {
    same(set_of_unsorted(rt.alloc(), [3, 1, 3]), Some((2, Some([1]))))
}
