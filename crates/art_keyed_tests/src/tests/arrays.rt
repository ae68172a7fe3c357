//! Maps by two keys of fixed lengths, joined in an array.
use super::shared::{put, read};
use art_keyed::map::TreeMap;
use art_keys::joined_array::JoinedArray;
use art_keys::signed::I64Key;
use art_keys::unsigned::U64Key;
use std::alloc::Global;
use std::test::Fail;
use test_helpers::expected::same;
use test_helpers::memory::all_memory;

type Times = TreeMap<JoinedArray<U64Key, I64Key, 16>, u32, 4>;

fn time_of(user: u64, time: i64) -> JoinedArray<U64Key, I64Key, 16> {
    JoinedArray::join(&U64Key::from(user), &I64Key::from(time))
}

// Inserts five times of each of four users, from -2 to 2, and returns how many were new.
fn fill(times: &mut Times) -> usize {
    let mut new = 0usize;
    for user in 0..4u64 {
        for time in -2..3i64 {
            let is_new = put(times, Some(time_of(user, time)), 1) == Some(None);
            new = new.saturating_add(is_new as usize);
        }
    }
    new
}

// How many times of a user there are, how many from -1 up to 2, and the same by whole keys.
fn counts(times: &Times, user: u64) -> [usize; 3] {
    let first = U64Key::from(user);
    [
        read(times.with_first(&first)).0,
        read(times.range_with(&first, I64Key::from(-1)..I64Key::from(2))).0,
        read(times.range(time_of(user, -1)..time_of(user, 2))).0,
    ]
}

// Whether the first time of a user is removed, and how many others.
fn removed(times: &mut Times, user: u64) -> (bool, usize) {
    let first = U64Key::from(user);
    let is_first = match times.pop_first_with(&first) {
        Some((key, _)) => key == time_of(user, -2),
        None => false,
    };
    (is_first, times.remove_with_first(&first))
}

// What is counted and removed of a user while every allocation fails.
fn starve(times: &mut Times, alloc: Global) -> Option<([usize; 3], (bool, usize))> {
    let held = all_memory(alloc).ok()?;
    let (counts, removed) = (counts(times, 2), removed(times, 2));
    drop(held);
    Some((counts, removed))
}

// How many times are inserted, what is then counted and removed, how many are left, and the value of one of them.
fn looked_up(
    times: &mut Times,
    alloc: Global,
) -> (
    usize,
    Option<([usize; 3], (bool, usize))>,
    (usize, Option<u32>),
) {
    let filled = fill(times);
    let seen = starve(times, alloc);
    (
        filled,
        seen,
        (times.len(), times.get(&time_of(3, -2)).copied()),
    )
}

#[test]
fn without_memory_arrays_are_looked_up(rt: HostRuntime) -> Result<(), Fail> {
    let seen = looked_up(&mut TreeMap::new(rt.alloc()), rt.alloc());
    same(seen, (20, Some(([5, 3, 3], (true, 4))), (15, Some(1))))
}
