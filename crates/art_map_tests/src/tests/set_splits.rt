//! Keys that are read and removed by their bounds, and those that move into another set: drawn and compared with a
//! `BTreeSet`, and while all memory is held.
use super::beside_btree_set::{Key, Model, Set, agree_on_keys, drawn_key};
use super::ranges::{Edge, Front};
use art_node_support::expected::same;
use art_node_support::memory::all_memory;
use art_node_support::numbers::Numbers;
use art_sets::set::ByteSet;
use std::alloc::Global;
use std::test::Fail;

// How many keys there are between two bounds, and the first and the last one.
type Between = (usize, Option<Key>, Option<Key>);

fn between(model: &Model, from: Edge, to: Edge) -> Between {
    let (mut count, mut first, mut last) = (0usize, None, None);
    for key in model.iter() {
        if from.is_before(*key) && to.is_after(*key) {
            count = count.saturating_add(1);
            last = Some(*key);
            if first.is_none() {
                first = last;
            }
        }
    }
    (count, first, last)
}

// How many keys of both start with these bytes.
fn agree_below(set: &Set, model: &Model, front: Front) -> bool {
    let mut below = 0usize;
    for key in model.iter() {
        below = below.saturating_add(key.starts_with(front.as_slice()) as usize);
    }
    set.prefix(front.as_slice()).count() == below
}

// Whether both have as many keys between two bounds, and the same next to each.
fn agree_between(set: &Set, model: &Model, from: Edge, to: Edge) -> bool {
    set.range((from.bound(), to.bound())).count() == between(model, from, to).0
        && set.first_from(from.bound()).copied() == between(model, from, Edge::Open).1
        && set.last_up_to(to.bound()).copied() == between(model, Edge::Open, to).2
}

// Whether the same key is removed from both, the first one between two bounds.
fn agree_on_pop(set: &mut Set, model: &mut Model, from: Edge, to: Edge) -> bool {
    let first = between(model, from, to).1;
    if let Some(key) = first {
        model.remove(&key);
    }
    set.pop_first_in((from.bound(), to.bound())) == first
}

// Whether equally many keys between two bounds are removed from both.
fn agree_on_range(set: &mut Set, model: &mut Model, from: Edge, to: Edge) -> bool {
    let before = model.len();
    model.retain(|key| !(from.is_before(*key) && to.is_after(*key)));
    set.remove_range((from.bound(), to.bound())) == before.saturating_sub(model.len())
}

// Whether both are the same after the second parts are appended, with a key that may be in the first ones.
fn agree_on_append(
    set: &mut Set,
    model: &mut Model,
    tail: &mut Set,
    rest: &mut Model,
    more: Key,
) -> bool {
    let put = tail.insert(more).is_ok() && rest.insert(more).is_ok();
    let joined = set.append(tail).is_ok() && model.append(rest).is_ok();
    put && joined && tail.is_empty() && agree_on_keys(set, model)
}

// Whether both are split at a key into the same sets, and are the same after the second part is appended.
fn agree_on_split(set: &mut Set, model: &mut Model, numbers: &mut Numbers) -> bool {
    let (at, more) = (drawn_key(numbers), drawn_key(numbers));
    let Ok(mut tail) = set.split_off(&at) else {
        return false;
    };
    let Ok(mut rest) = model.split_off(&at) else {
        return false;
    };
    let split = agree_on_keys(set, model) && agree_on_keys(&tail, &rest);
    split && agree_on_append(set, model, &mut tail, &mut rest, more)
}

/// Reads a drawn part of both or changes it, and returns whether they agree.
pub(super) fn agree_on_parts(set: &mut Set, model: &mut Model, numbers: &mut Numbers) -> bool {
    let (low, high) = (drawn_key(numbers), drawn_key(numbers));
    let (from, to) = (Edge::of(low, numbers), Edge::of(high, numbers));
    match numbers.below(10) {
        0..=2 => agree_on_pop(set, model, from, to),
        3 => agree_on_range(set, model, from, to),
        4 => agree_on_split(set, model, numbers),
        5..=6 => agree_below(set, model, Front::of(low, numbers)),
        _ => agree_between(set, model, from, to),
    }
}

// Inserts the keys [0, 0, 0, 0] to [0, 0, 0, 9].
fn fill(set: &mut Set) {
    for byte in 0..10u8 {
        drop(set.insert([0, 0, 0, byte]));
    }
}

// How many keys moved in a split that fails, and the key that did not.
fn refusal(set: &mut Set) -> Option<(usize, Key)> {
    match set.split_off(&[0, 0, 0, 4]) {
        Ok(_) => None,
        Err(refused) => Some((refused.moved.len(), refused.key)),
    }
}

// What a split leaves while all memory is held: how many keys moved, the key that did not, and how many are left.
fn split_refused(alloc: Global, set: &mut Set) -> Option<(usize, Key, usize)> {
    fill(set);
    let held = all_memory(alloc).ok()?;
    let refusal = refusal(set);
    drop(held);
    let (moved, key) = refusal?;
    Some((moved, key, set.len()))
}

// Whether an append to an empty set fails while all memory is held, and how many keys both then have.
fn append_refused(alloc: Global, set: &mut Set, empty: &mut Set) -> Option<(bool, usize, usize)> {
    fill(set);
    let held = all_memory(alloc).ok()?;
    let refused = empty.append(set).is_err();
    drop(held);
    Some((refused, empty.len(), set.len()))
}

#[test]
fn without_memory_a_split_of_a_set_loses_no_key(rt: HostRuntime) -> Result<(), Fail> {
    let seen = split_refused(rt.alloc(), &mut ByteSet::new(rt.alloc()));
    same(seen, Some((0, [0, 0, 0, 4], 9)))
}

#[test]
fn without_memory_an_append_to_a_set_loses_no_key(rt: HostRuntime) -> Result<(), Fail> {
    let alloc = rt.alloc();
    let seen = append_refused(alloc, &mut ByteSet::new(alloc), &mut ByteSet::new(alloc));
    same(seen, Some((true, 0, 9)))
}
