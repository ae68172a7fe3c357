//! Random calls of a map of strings beside the same calls of a `BTreeMap`. Most strings are prefixes of others. What a
//! value leaves of `COUNT` is the number of its string, so that values tell pairs apart.
use super::shared::{
    agree_on_insertion, counts_of_strings, digest, digest_of_model, is_taken, read,
};
use art_keyed::map::TreeMap;
use art_keys::escaped::Escaped;
use std::alloc::Global;
use std::collections::BTreeMap;
use std::test::Fail;
use test_helpers::expected::same;
use test_helpers::numbers::Numbers;
use test_helpers::short::{COUNT, Short};

type Map = TreeMap<Escaped, usize, 2>;

type Model = BTreeMap<Short, usize>;

// Removes the first string that starts with this one, and returns its value.
fn pop_below(model: &mut Model, string: Short) -> Option<usize> {
    for (other, value) in model.iter() {
        if other.starts_with(string) {
            let (other, value) = (*other, *value);
            model.remove(&other);
            return Some(value);
        }
    }
    None
}

// Whether they find the same value, and as many strings that start with this one, and that are at it or after it.
fn agree_on_questions(map: &Map, model: &Model, key: Escaped, string: Short) -> bool {
    let found = map.get(&key).copied() == model.get(&string).copied();
    let below = read(map.prefix(&key)).0;
    found && [below, read(map.range(key..)).0] == counts_of_strings(model, string)
}

// A call of both, and whether they return the same.
fn agree_on_call(map: &mut Map, model: &mut Model, alloc: Global, numbers: &mut Numbers) -> bool {
    let number = numbers.below(COUNT);
    let string = Short::new(number);
    let Ok(key) = Escaped::encode(alloc, string.as_slice()) else {
        return false;
    };
    match numbers.below(9) {
        0..=3 => {
            let value = number.saturating_add(numbers.below(1_000).saturating_mul(COUNT));
            agree_on_insertion(map, model, (Some(key), string), value)
        }
        4..=5 => is_taken(map.remove(&key), model.remove(&string)),
        6..=7 => is_taken(map.pop_first_below(&key), pop_below(model, string)),
        _ => agree_on_questions(map, model, key, string),
    }
}

// The number of the first call after which they differ, if they do, and whether the map is then empty.
fn differ_at(
    map: &mut Map,
    model: &mut Model,
    alloc: Global,
    calls: usize,
) -> (Option<usize>, bool) {
    let mut numbers = Numbers::new(3);
    for call in 0..calls {
        let agree = agree_on_call(map, model, alloc, &mut numbers);
        let own = digest(map, (map.len() as u64, 1_000_003));
        let of_model = digest_of_model(model, (model.len() as u64, 1_000_003));
        if !agree || own != of_model {
            return (Some(call), map.is_empty());
        }
    }
    (None, map.is_empty())
}

#[test]
fn drawn_calls_return_what_those_of_a_btree_map_do(rt: HostRuntime) -> Result<(), Fail> {
    let alloc = rt.alloc();
    let seen = differ_at(
        &mut TreeMap::new(alloc),
        &mut BTreeMap::new(alloc),
        alloc,
        4_000,
    );
    same(seen, (None, false))
}
