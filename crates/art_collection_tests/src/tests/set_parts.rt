//! Calls of a set of numbers, removals by their bounds, and moves of keys into another set, at random, beside a
//! `BTreeSet`.
use art_keyed_sets::set::TreeSet;
use art_keys::unsigned::U16Key;
use art_node_support::expected::same;
use art_node_support::numbers::Numbers;
use std::collections::BTreeSet;
use std::test::Fail;

type Set = TreeSet<U16Key, 1>;

type Model = BTreeSet<u16>;

fn drawn_key(numbers: &mut Numbers) -> u16 {
    numbers.below(900) as u16
}

// Inserts a number into both, and returns whether both return the same.
fn agree_on_insertion(set: &mut Set, model: &mut Model, key: u16) -> bool {
    let own = set.insert(U16Key::from(key)).ok();
    own.is_some() && own == model.insert(key).ok()
}

// How many numbers there are before another.
fn count_before(set: &Set, key: u16) -> usize {
    set.range(..U16Key::from(key)).count()
}

fn count_in_model_before(model: &Model, key: u16) -> usize {
    let mut before = 0usize;
    for other in model.iter() {
        before = before.saturating_add((*other < key) as usize);
    }
    before
}

// Whether both have the number, and equally many before it.
fn agree_on_questions(set: &Set, model: &Model, key: u16) -> bool {
    set.contains(&U16Key::from(key)) == model.contains(&key)
        && count_before(set, key) == count_in_model_before(model, key)
}

// The first number from one to before another.
fn first_between(model: &Model, low: u16, high: u16) -> Option<u16> {
    for key in model.iter() {
        if low <= *key && *key < high {
            return Some(*key);
        }
    }
    None
}

// Whether the same number is removed from both, the first one of a range.
fn agree_on_pop(set: &mut Set, model: &mut Model, low: u16, high: u16) -> bool {
    let first = first_between(model, low, high);
    if let Some(key) = first {
        model.remove(&key);
    }
    match set.pop_first_in(U16Key::from(low)..U16Key::from(high)) {
        Some(key) => first == Some(key.get()),
        None => first.is_none(),
    }
}

// Whether as many numbers of a range are removed from both.
fn agree_on_range(set: &mut Set, model: &mut Model, low: u16, high: u16) -> bool {
    let before = model.len();
    model.retain(|key| *key < low || high < *key);
    let removed = set.remove_range(U16Key::from(low)..=U16Key::from(high));
    removed == before.saturating_sub(model.len())
}

// Whether the second parts are appended with one more number, which the first ones may have.
fn agree_on_append(
    set: &mut Set,
    model: &mut Model,
    tail: &mut Set,
    rest: &mut Model,
    more: u16,
) -> bool {
    let put = agree_on_insertion(tail, rest, more);
    let joined = set.append(tail).is_ok() && model.append(rest).is_ok();
    put && joined && tail.is_empty()
}

// Whether both are split at a number into the same sets, and the second part is appended.
fn agree_on_split(set: &mut Set, model: &mut Model, low: u16, high: u16) -> bool {
    let Ok(mut tail) = set.split_off(&U16Key::from(low)) else {
        return false;
    };
    let Ok(mut rest) = model.split_off(&low) else {
        return false;
    };
    let split = [digest(set), digest(&tail)] == [digest_of_model(model), digest_of_model(&rest)];
    split && agree_on_append(set, model, &mut tail, &mut rest, high)
}

// A number that the keys make in their order.
fn digest(set: &Set) -> u64 {
    let mut digest = 1u64;
    for key in set.iter() {
        digest = digest.wrapping_mul(1_009).wrapping_add(key.get() as u64);
    }
    digest
}

fn digest_of_model(model: &Model) -> u64 {
    let mut digest = 1u64;
    for key in model.iter() {
        digest = digest.wrapping_mul(1_009).wrapping_add(*key as u64);
    }
    digest
}

// A call of both, and whether they agree.
fn agree_on_call(set: &mut Set, model: &mut Model, numbers: &mut Numbers) -> bool {
    let (low, high) = (drawn_key(numbers), drawn_key(numbers));
    match numbers.below(40) {
        0..=2 => agree_on_pop(set, model, low, high),
        3 => agree_on_range(set, model, low, high),
        4 => agree_on_split(set, model, low, high),
        5..=8 => set.remove(&U16Key::from(low)) == model.remove(&low),
        9..=12 => agree_on_questions(set, model, low),
        _ => agree_on_insertion(set, model, low),
    }
}

// The number of the first call after which they differ, if they do.
fn differ_at(set: &mut Set, model: &mut Model, calls: usize) -> Option<usize> {
    let mut numbers = Numbers::new(14);
    for call in 0..calls {
        let agree = agree_on_call(set, model, &mut numbers);
        if !agree || digest(set) != digest_of_model(model) {
            return Some(call);
        }
    }
    None
}

#[test]
fn drawn_calls_return_what_those_of_a_btree_set_do(rt: HostRuntime) -> Result<(), Fail> {
    let alloc = rt.alloc();
    let differ = differ_at(&mut TreeSet::new(alloc), &mut BTreeSet::new(alloc), 3_000);
    same(differ, None)
}
