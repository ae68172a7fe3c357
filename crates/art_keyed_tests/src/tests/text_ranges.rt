//! Ranges of maps and sets of strings between two texts, beside the same parts of a `BTreeMap`. The strings and texts
//! are short ones, most of which are prefixes of others; a third of the strings is not stored.
use super::shared::{agree_on_insertion, counts_of_strings, is_taken, read, word};
use art_keyed::map::TreeMap;
use art_keys::escaped::Escaped;
use art_keys::terminated::Terminated;
use std::alloc::Global;
use std::collections::BTreeMap;
use std::ops::Bound;
use std::test::Fail;
use test_helpers::expected::same;
use test_helpers::numbers::Numbers;
use test_helpers::short::{COUNT, Short};

type Ended = TreeMap<Terminated, usize, 2>;

type Any = TreeMap<Escaped, usize, 2>;

type Model = BTreeMap<Short, usize>;

// A bound at a string.
#[derive(Clone, Copy)]
enum Drawn {
    At(Short),
    Past(Short),
    Open,
}

impl Drawn {
    fn draw(numbers: &mut Numbers) -> Self {
        let string = Short::new(numbers.below(COUNT));
        match numbers.below(5) {
            0..=1 => Drawn::At(string),
            2..=3 => Drawn::Past(string),
            _ => Drawn::Open,
        }
    }

    // Whether it, as a lower bound, lets a string in.
    fn is_before(self, string: Short) -> bool {
        match self {
            Drawn::At(bound) => bound <= string,
            Drawn::Past(bound) => bound < string,
            Drawn::Open => true,
        }
    }

    // Whether it does as an upper bound.
    fn is_after(self, string: Short) -> bool {
        match self {
            Drawn::At(bound) => string <= bound,
            Drawn::Past(bound) => string < bound,
            Drawn::Open => true,
        }
    }

    fn bound(&self) -> Bound<&[u8]> {
        match self {
            Drawn::At(string) => Bound::Included(string.as_slice()),
            Drawn::Past(string) => Bound::Excluded(string.as_slice()),
            Drawn::Open => Bound::Unbounded,
        }
    }
}

// How many strings there are between two bounds, and a number that their values make in their order.
fn read_model(model: &Model, from: Drawn, to: Drawn) -> (usize, u64) {
    let (mut count, mut digest) = (0usize, 0u64);
    for (string, value) in model.iter() {
        if from.is_before(*string) && to.is_after(*string) {
            count = count.saturating_add(1);
            digest = digest.wrapping_mul(31).wrapping_add(*value as u64);
        }
    }
    (count, digest)
}

// The same of the strings of a map that end with a zero.
fn read_ended(map: &Ended, from: Drawn, to: Drawn) -> (usize, u64) {
    read(map.range_text(from.bound(), to.bound()))
}

// The same of those that are escaped.
fn read_any(map: &Any, from: Drawn, to: Drawn) -> (usize, u64) {
    read(map.range_text(from.bound(), to.bound()))
}

// What a string is found to have in the map, and how many strings start with it.
fn found_of_any(map: &Any, string: Short) -> (Option<usize>, bool, usize) {
    let text = string.as_slice();
    (
        map.get_text(text).copied(),
        map.contains_text(text),
        read(map.prefix_text(text)).0,
    )
}

// The same in the model.
fn found_of_model(model: &Model, string: Short) -> (Option<usize>, bool, usize) {
    (
        model.get(&string).copied(),
        model.contains_key(&string),
        counts_of_strings(model, string)[0],
    )
}

// Whether a string is inserted into both alike.
fn put_any(map: &mut Any, model: &mut Model, alloc: Global, number: usize) -> bool {
    let string = Short::new(number);
    let key = Escaped::encode(alloc, string.as_slice()).ok();
    agree_on_insertion(map, model, (key, string), number)
}

// Whether both give the same as a string is removed.
fn take_alike(map: &mut Any, model: &mut Model, string: Short) -> bool {
    is_taken(map.remove_text(string.as_slice()), model.remove(&string))
}

// The number of the first string that is not found or removed as in the model, or of the first draw for which the parts
// differ.
fn any_differ_at(map: &mut Any, model: &mut Model, alloc: Global) -> Option<usize> {
    for number in 0..COUNT {
        if number % 3 != 0 && !put_any(map, model, alloc, number) {
            return Some(number);
        }
    }
    for number in 0..COUNT {
        let string = Short::new(number);
        if found_of_any(map, string) != found_of_model(model, string) {
            return Some(number);
        }
    }
    let mut numbers = Numbers::new(5);
    for draw in 0..2_000usize {
        let (from, to) = (Drawn::draw(&mut numbers), Drawn::draw(&mut numbers));
        if read_any(map, from, to) != read_model(model, from, to) {
            return Some(draw);
        }
    }
    for number in 0..COUNT {
        if !take_alike(map, model, Short::new(number)) {
            return Some(number);
        }
    }
    None
}

#[test]
fn parts_of_strings_are_those_of_a_btree_map(rt: HostRuntime) -> Result<(), Fail> {
    let alloc = rt.alloc();
    let differ = any_differ_at(&mut TreeMap::new(alloc), &mut BTreeMap::new(alloc), alloc);
    same(differ, None)
}

// Whether a string is inserted into both alike.
fn put_ended(map: &mut Ended, model: &mut Model, alloc: Global, number: usize) -> bool {
    let string = Short::new(number);
    agree_on_insertion(map, model, (word(alloc, string.as_slice()), string), number)
}

// The number of the first draw for which the parts differ, if they do. No string has a zero.
fn ended_differ_at(map: &mut Ended, model: &mut Model, alloc: Global) -> Option<usize> {
    for number in 0..COUNT {
        let is_stored = number % 3 != 0 && !Short::new(number).has_zero();
        if is_stored && !put_ended(map, model, alloc, number) {
            return Some(number);
        }
    }
    let mut numbers = Numbers::new(6);
    for draw in 0..2_000usize {
        let (from, to) = (Drawn::draw(&mut numbers), Drawn::draw(&mut numbers));
        if read_ended(map, from, to) != read_model(model, from, to) {
            return Some(draw);
        }
    }
    None
}

#[test]
fn parts_of_strings_without_a_zero_are_those_of_a_btree_map(rt: HostRuntime) -> Result<(), Fail> {
    let alloc = rt.alloc();
    let differ = ended_differ_at(&mut TreeMap::new(alloc), &mut BTreeMap::new(alloc), alloc);
    same(differ, None)
}
