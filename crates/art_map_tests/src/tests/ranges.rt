//! Parts of a map: the pairs with a prefix, those between two bounds, and those next to a bound. They are drawn, read,
//! removed and moved into another map, and compared with a `BTreeMap`.
use super::beside_btree::{
    Key, Map, Model, added, agree_on_drawn_insertion, agree_on_pairs, drawn_key, number_of, plain,
    with_pair,
};
use art_map::map::{ByteMap, Range};
use art_node_support::expected::same;
use art_node_support::memory::all_memory;
use art_node_support::numbers::Numbers;
use std::alloc::Global;
use std::ops::Bound;
use std::test::Fail;

/// The first bytes of a key.
#[derive(Clone, Copy)]
pub(super) struct Front {
    key: Key,
    len: usize,
}

impl Front {
    /// Those of a key, of any length.
    pub(super) fn of(key: Key, numbers: &mut Numbers) -> Self {
        Front {
            key,
            len: numbers.below(5),
        }
    }

    pub(super) fn as_slice(&self) -> &[u8] {
        match self.key.get(..self.len) {
            Some(bytes) => bytes,
            None => &self.key,
        }
    }

    // Whether a key is before it, or equal to it.
    fn is_before(self, key: Key) -> bool {
        self.as_slice().cmp(key.as_slice()).is_lt()
    }

    fn is_after(self, key: Key) -> bool {
        self.as_slice().cmp(key.as_slice()).is_gt()
    }
}

/// A bound at the first bytes of a key.
#[derive(Clone, Copy)]
pub(super) enum Edge {
    At(Front),
    Past(Front),
    Open,
}

impl Edge {
    /// A drawn one.
    pub(super) fn of(key: Key, numbers: &mut Numbers) -> Self {
        let front = Front::of(key, numbers);
        match numbers.below(5) {
            0 => Edge::Open,
            1 | 2 => Edge::At(front),
            _ => Edge::Past(front),
        }
    }

    /// Whether a part that starts here may have a key.
    pub(super) fn is_before(self, key: Key) -> bool {
        match self {
            Edge::At(front) => !front.is_after(key),
            Edge::Past(front) => front.is_before(key),
            Edge::Open => true,
        }
    }

    /// Whether a part that ends here may have a key.
    pub(super) fn is_after(self, key: Key) -> bool {
        match self {
            Edge::At(front) => !front.is_before(key),
            Edge::Past(front) => front.is_after(key),
            Edge::Open => true,
        }
    }

    pub(super) fn bound(&self) -> Bound<&[u8]> {
        match self {
            Edge::At(front) => Bound::Included(front.as_slice()),
            Edge::Past(front) => Bound::Excluded(front.as_slice()),
            Edge::Open => Bound::Unbounded,
        }
    }
}

// Which of the pairs are asked for.
#[derive(Clone, Copy)]
enum Part {
    Below(Front),
    Between(Edge, Edge),
}

impl Part {
    fn draw(numbers: &mut Numbers) -> Self {
        let (low, high) = (drawn_key(numbers), drawn_key(numbers));
        if numbers.is_heads() {
            return Part::Below(Front::of(low, numbers));
        }
        Part::Between(Edge::of(low, numbers), Edge::of(high, numbers))
    }

    fn has(self, key: Key) -> bool {
        match self {
            Part::Below(front) => key.starts_with(front.as_slice()),
            Part::Between(from, to) => from.is_before(key) && to.is_after(key),
        }
    }
}

fn part_of(map: &Map, part: Part) -> Range<'_, Key, u32, 1> {
    match part {
        Part::Below(front) => map.prefix(front.as_slice()),
        Part::Between(from, to) => map.range((from.bound(), to.bound())),
    }
}

// What the pairs of a part make of which so many are first returned from the back, and the others from the front.
fn read(mut pairs: Range<'_, Key, u32, 1>, back: usize) -> [u64; 2] {
    let mut from_back = 1u64;
    for _ in 0..back {
        if let Some(pair) = pairs.next_back() {
            from_back = with_pair(from_back, pair);
        }
    }
    [from_back, pairs.fold(1, with_pair)]
}

// How many pairs there are in a part, and the first and the last one.
type Seen = (usize, Option<(Key, u32)>, Option<(Key, u32)>);

fn seen_in(model: &Model, part: Part) -> Seen {
    let (mut count, mut first, mut last) = (0usize, None, None);
    for (key, value) in model.iter() {
        if part.has(*key) {
            count = count.saturating_add(1);
            last = Some((*key, *value));
            if first.is_none() {
                first = last;
            }
        }
    }
    (count, first, last)
}

// The same of the other map.
fn expected(model: &Model, part: Part, back: usize) -> [u64; 2] {
    let mut front = seen_in(model, part).0.saturating_sub(back);
    let (mut from_back, mut power, mut from_front) = (0u64, 1u64, 1u64);
    for (key, value) in model.iter() {
        if !part.has(*key) {
            continue;
        }
        if front == 0 {
            from_back = from_back.wrapping_add(number_of(*key, *value).wrapping_mul(power));
            power = power.wrapping_mul(1_000_003);
        } else {
            front -= 1;
            from_front = added(from_front, *key, *value);
        }
    }
    [from_back.wrapping_add(power), from_front]
}

// Whether both have the same pairs next to a bound.
fn agree_on_ends(map: &Map, model: &Model, edge: Edge) -> bool {
    plain(map.first_from(edge.bound())) == seen_in(model, Part::Between(edge, Edge::Open)).1
        && plain(map.last_up_to(edge.bound())) == seen_in(model, Part::Between(Edge::Open, edge)).2
}

/// Whether both have the same pairs in a drawn part, and next to a drawn bound.
pub(super) fn agree_on_questions(map: &Map, model: &Model, numbers: &mut Numbers) -> bool {
    let (part, back) = (Part::draw(numbers), numbers.below(6));
    let edge = Edge::of(drawn_key(numbers), numbers);
    read(part_of(map, part), back) == expected(model, part, back) && agree_on_ends(map, model, edge)
}

// Whether the first pair of a part was removed from the map; it is removed from the other one.
fn agree_on_first(own: Option<(Key, u32)>, model: &mut Model, part: Part) -> bool {
    let first = seen_in(model, part).1;
    if let Some(pair) = first {
        let key = pair.0;
        model.remove(&key);
    }
    own == first
}

fn pop_first_of(map: &mut Map, part: Part) -> Option<(Key, u32)> {
    match part {
        Part::Below(front) => map.pop_first_below(front.as_slice()),
        Part::Between(from, to) => map.pop_first_in((from.bound(), to.bound())),
    }
}

fn remove_all_of(map: &mut Map, part: Part) -> usize {
    match part {
        Part::Below(front) => map.remove_prefix(front.as_slice()),
        Part::Between(from, to) => map.remove_range((from.bound(), to.bound())),
    }
}

// Whether equally many pairs of a part are removed from both.
fn agree_on_all_of(map: &mut Map, model: &mut Model, part: Part) -> bool {
    let before = model.len();
    model.retain(|key, _| !part.has(*key));
    remove_all_of(map, part) == before.saturating_sub(model.len())
}

// Whether the same pairs of a part are removed from both one by one, at most so many.
fn agree_on_extracted_below(map: &mut Map, model: &mut Model, front: Front, most: usize) -> bool {
    let mut own = map.extract_prefix(front.as_slice());
    let mut agree = true;
    for _ in 0..most {
        agree &= agree_on_first(own.next(), model, Part::Below(front));
    }
    agree
}

fn agree_on_extracted_between(
    map: &mut Map,
    model: &mut Model,
    (from, to): (Edge, Edge),
    most: usize,
) -> bool {
    let mut own = map.extract_range((from.bound(), to.bound()));
    let mut agree = true;
    for _ in 0..most {
        agree &= agree_on_first(own.next(), model, Part::Between(from, to));
    }
    agree
}

// Whether both are split at a key into the same maps, and are the same after the second part is appended, with a pair
// that may replace one.
fn agree_on_split(map: &mut Map, model: &mut Model, numbers: &mut Numbers) -> bool {
    let key = drawn_key(numbers);
    let Ok(mut tail) = map.split_off(&key) else {
        return false;
    };
    let Ok(mut rest) = model.split_off(&key) else {
        return false;
    };
    let split = agree_on_pairs(map, model) && agree_on_pairs(&tail, &rest);
    let put = agree_on_drawn_insertion(&mut tail, &mut rest, numbers);
    let joined = map.append(&mut tail).is_ok() && model.append(&mut rest).is_ok();
    split && put && joined && tail.is_empty() && agree_on_pairs(map, model)
}

/// Changes both, and returns whether they agree.
pub(super) fn agree_on_change(
    map: &mut Map,
    model: &mut Model,
    numbers: &mut Numbers,
    grows: bool,
) -> bool {
    let part = Part::draw(numbers);
    match numbers.below(if grows { 40 } else { 10 }) {
        0..=1 => agree_on_first(pop_first_of(map, part), model, part),
        2 => agree_on_all_of(map, model, part),
        3 => agree_on_split(map, model, numbers),
        4 => match part {
            Part::Below(front) => agree_on_extracted_below(map, model, front, numbers.below(6)),
            Part::Between(from, to) => {
                agree_on_extracted_between(map, model, (from, to), numbers.below(6))
            }
        },
        _ => agree_on_drawn_insertion(map, model, numbers),
    }
}

// ---- while all memory is held

// Inserts the keys [0, 0, 0, 0] to [0, 0, 0, 9], with the last byte as value.
fn fill(map: &mut Map) {
    for byte in 0..10u8 {
        drop(map.insert([0, 0, 0, byte], byte as u32));
    }
}

// What a split leaves while all memory is held: how many pairs moved, the pair that did not, and how many are left.
type Refused = (usize, (Key, u32), usize);

// How many pairs moved in a split that fails, and the pair that did not.
fn refusal(map: &mut Map) -> Option<(usize, (Key, u32))> {
    match map.split_off(&[0, 0, 0, 4]) {
        Ok(_) => None,
        Err(refused) => Some((refused.moved.len(), (refused.key, refused.value))),
    }
}

fn split_refused(alloc: Global, map: &mut Map) -> Option<Refused> {
    fill(map);
    let held = all_memory(alloc).ok()?;
    let refusal = refusal(map);
    drop(held);
    let (moved, pair) = refusal?;
    Some((moved, pair, map.len()))
}

// Whether an append to an empty map fails while all memory is held, and how many pairs both then have.
fn append_refused(alloc: Global, map: &mut Map, empty: &mut Map) -> Option<(bool, usize, usize)> {
    fill(map);
    let held = all_memory(alloc).ok()?;
    let refused = empty.append(map).is_err();
    drop(held);
    Some((refused, empty.len(), map.len()))
}

#[test]
fn without_memory_a_split_loses_no_pair(rt: HostRuntime) -> Result<(), Fail> {
    let seen = split_refused(rt.alloc(), &mut ByteMap::new(rt.alloc()));
    same(seen, Some((0, ([0, 0, 0, 4], 4), 9)))
}

#[test]
fn without_memory_an_append_loses_no_pair(rt: HostRuntime) -> Result<(), Fail> {
    let alloc = rt.alloc();
    let seen = append_refused(alloc, &mut ByteMap::new(alloc), &mut ByteMap::new(alloc));
    same(seen, Some((true, 0, 9)))
}
