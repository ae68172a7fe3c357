//! Drawn calls of sets, compared with the same calls of `BTreeSet`s. The keys have one length, so that none is a prefix
//! of another.
use super::set_splits;
use art_node_support::expected::same;
use art_node_support::numbers::Numbers;
use art_sets::set::ByteSet;
use std::collections::BTreeSet;
use std::test::Fail;

pub(super) type Key = [u8; 4];

pub(super) type Set = ByteSet<Key, 1>;

pub(super) type Model = BTreeSet<Key>;

pub(super) fn drawn_key(numbers: &mut Numbers) -> Key {
    [numbers.below(5) as u8, 7, 7, numbers.below(12) as u8]
}

// A number that the keys before this one made, and this one.
fn added(digest: u64, key: Key) -> u64 {
    digest
        .wrapping_mul(1_000_003)
        .wrapping_add(u32::from_be_bytes(key) as u64)
}

// Whether neither call failed, and both returned the same.
fn are_same<T: PartialEq + Drop>(own: Option<T>, other: Option<T>) -> bool {
    own.is_some() && own == other
}

// Changes both, and returns whether they return the same.
fn agree_on_change(set: &mut Set, model: &mut Model, key: Key, call: usize) -> bool {
    match call {
        0 => set.remove(&key) == model.remove(&key),
        1 => set.take(&key) == model.take(&key),
        2 => set.pop_first() == model.pop_first(),
        3 => set.pop_last() == model.pop_last(),
        4 => are_same(set.replace(key).ok(), model.replace(key).ok()),
        _ => are_same(set.insert(key).ok(), model.insert(key).ok()),
    }
}

// Queries both, and returns whether they return the same.
fn agree_on_questions(set: &Set, model: &Model, key: Key) -> bool {
    set.contains(&key) == model.contains(&key)
        && set.get(&key).copied() == model.get(&key).copied()
        && set.first().copied() == model.first().copied()
        && set.last().copied() == model.last().copied()
        && set.is_empty() == model.is_empty()
}

// A number that the keys before this one made, and this one, which is borrowed.
fn with_key(digest: u64, key: &Key) -> u64 {
    added(digest, *key)
}

// Whether both have the same keys from both ends.
pub(super) fn agree_on_keys(set: &Set, model: &Model) -> bool {
    set.len() == model.len()
        && set.iter().fold(1, with_key) == model.iter().fold(1, with_key)
        && set.iter().rfold(1, with_key) == model.iter().rfold(1, with_key)
}

// ---- two sets

// What the keys of the union, the intersection, the difference and the symmetric difference make, by a look at each of
// the keys that are drawn.
fn expected_of_both(model: &Model, beside: &Model) -> [u64; 4] {
    let mut digests = [1u64; 4];
    for number in 0..60u8 {
        let key = [number / 12, 7, 7, number % 12];
        let (is_in, is_beside) = (model.contains(&key), beside.contains(&key));
        let has = [
            is_in || is_beside,
            is_in && is_beside,
            is_in && !is_beside,
            is_in != is_beside,
        ];
        for at in 0..4usize {
            if has[at] {
                digests[at] = added(digests[at], key);
            }
        }
    }
    digests
}

// Whether both pairs of sets have the same unions, intersections and differences.
fn agree_on_both(set: &Set, other: &Set, model: &Model, beside: &Model) -> bool {
    let seen = [
        set.union(other).fold(1, with_key),
        set.intersection(other).fold(1, with_key),
        set.difference(other).fold(1, with_key),
        set.symmetric_difference(other).fold(1, with_key),
    ];
    seen == expected_of_both(model, beside)
}

// Whether a clone of an iterator over a union continues as the iterator does.
fn agree_on_union_copy(set: &Set, other: &Set) -> bool {
    let mut all = set.union(other);
    all.next();
    match all.clone() {
        Ok(copy) => copy.fold(1, with_key) == all.fold(1, with_key),
        Err(_) => false,
    }
}

// The same over an intersection.
fn agree_on_intersection_copy(set: &Set, other: &Set) -> bool {
    let mut both = set.intersection(other);
    both.next();
    match both.clone() {
        Ok(copy) => copy.fold(1, with_key) == both.fold(1, with_key),
        Err(_) => false,
    }
}

fn agree_on_copies(set: &Set, other: &Set) -> bool {
    agree_on_union_copy(set, other) && agree_on_intersection_copy(set, other)
}

// Whether two sets compare in the same way.
fn agree_on_order(set: &Set, other: &Set, model: &Model, beside: &Model) -> bool {
    set.is_subset(other) == model.is_subset(beside)
        && set.is_superset(other) == model.is_superset(beside)
        && set.is_disjoint(other) == model.is_disjoint(beside)
        && (set == other) == (model == beside)
        && set.cmp(other) == model.cmp(beside)
        && set.partial_cmp(other) == model.partial_cmp(beside)
}

// Whether both keep the same keys after one key in five is removed.
fn agree_on_retained(set: &mut Set, model: &mut Model, rest: u8) -> bool {
    set.retain(|key| key[3] % 5 != rest);
    model.retain(|key| key[3] % 5 != rest);
    agree_on_keys(set, model)
}

// The same for a drawn change of a set.
fn agree_on_drawn(set: &mut Set, model: &mut Model, numbers: &mut Numbers, call: usize) -> bool {
    let key = drawn_key(numbers);
    let kind = numbers.below(if (call / 200) % 2 == 0 { 12 } else { 6 });
    let agree = agree_on_change(set, model, key, kind) && agree_on_questions(set, model, key);
    let kept = call % 50 != 49 || agree_on_retained(set, model, key[0]);
    let parts = call % 10 != 9 || set_splits::agree_on_parts(set, model, numbers);
    agree && kept && parts && agree_on_keys(set, model)
}

// The number of the first change after which they differ, if they do.
fn differ_at(
    (left, right): (&mut Set, &mut Set),
    (left_model, right_model): (&mut Model, &mut Model),
    changes: usize,
) -> Option<usize> {
    let mut numbers = Numbers::new(11);
    for change in 0..changes {
        let agree = [
            agree_on_drawn(left, left_model, &mut numbers, change),
            agree_on_drawn(right, right_model, &mut numbers, change),
            agree_on_both(left, right, left_model, right_model),
            agree_on_order(left, right, left_model, right_model),
            agree_on_copies(left, right),
        ];
        if agree != [true; 5] {
            return Some(change);
        }
    }
    None
}

#[test]
fn drawn_calls_of_sets_return_as_those_of_btree_sets(rt: HostRuntime) -> Result<(), Fail> {
    let alloc = rt.alloc();
    let (mut left, mut right) = (ByteSet::new(alloc), ByteSet::new(alloc));
    let (mut left_model, mut right_model) = (BTreeSet::new(alloc), BTreeSet::new(alloc));
    let seen = differ_at(
        (&mut left, &mut right),
        (&mut left_model, &mut right_model),
        1_000,
    );
    same(seen, None)
}
