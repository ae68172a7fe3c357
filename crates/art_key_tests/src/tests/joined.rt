//! Joined keys are split again.
use art_keys::escaped::Escaped;
use art_keys::joined::Joined;
use art_keys::signed::I8Key;
use art_keys::terminated::Terminated;
use art_keys::unsigned::{U16Key, U64Key};
use std::alloc::Global;
use std::test::Fail;
use test_helpers::expected::same;
use test_helpers::memory::all_memory;

type Inner = Joined<Terminated, [u8; 2]>;

// A word and an array as one key.
fn inner_key(alloc: Global) -> Option<Inner> {
    let word = Terminated::encode_str(alloc, "car").ok()??;
    Joined::join(alloc, &word, &[7, 0]).ok()
}

// Whether the word is recovered, and the array.
fn inner_apart(alloc: Global, key: &Inner) -> Option<(bool, [u8; 2])> {
    let (word, array) = key.split(alloc).ok()?;
    Some((word.as_bytes_without_end() == b"car".as_slice(), array))
}

// What is recovered of both once they are joined with a number, and the number.
fn nested(alloc: Global) -> Option<(Option<(bool, [u8; 2])>, u64)> {
    let key = Joined::join(alloc, &inner_key(alloc)?, &U64Key::from(1 << 40)).ok()?;
    let (inner, number) = key.split(alloc).ok()?;
    Some((inner_apart(alloc, &inner), number.get()))
}

#[test]
fn joins_of_joins_are_taken_apart(rt: HostRuntime) -> Result<(), Fail> {
    same(nested(rt.alloc()), Some((Some((true, [7, 0])), 1 << 40)))
}

// Whether the split of a key with a string fails, and a key of numbers is split.
fn taken_out(
    of_string: &Joined<Escaped, U16Key>,
    of_numbers: &Joined<U16Key, I8Key>,
    alloc: Global,
) -> Option<(bool, bool)> {
    let refused = of_string.split(alloc).is_err();
    let (number, other) = of_numbers.split(alloc).ok()?;
    Some((refused, (number.get(), other.get()) == (513, -1)))
}

// The same while every allocation fails.
fn starve(
    of_string: &Joined<Escaped, U16Key>,
    of_numbers: &Joined<U16Key, I8Key>,
    alloc: Global,
) -> Option<(bool, bool)> {
    let held = all_memory(alloc).ok()?;
    let seen = taken_out(of_string, of_numbers, alloc);
    drop(held);
    seen
}

// A string and a number as one key.
fn key_of_string(alloc: Global) -> Option<Joined<Escaped, U16Key>> {
    let string = Escaped::encode(alloc, b"a string of more than thirty bytes").ok()?;
    Joined::join(alloc, &string, &U16Key::from(513)).ok()
}

// The same, after both keys were made.
fn starve_keys(alloc: Global) -> Option<(bool, bool)> {
    let of_string = key_of_string(alloc)?;
    let of_numbers = Joined::join(alloc, &U16Key::from(513), &I8Key::from(-1)).ok()?;
    starve(&of_string, &of_numbers, alloc)
}

#[test]
fn without_memory_numbers_are_taken_out(rt: HostRuntime) -> Result<(), Fail> {
    same(starve_keys(rt.alloc()), Some((true, true)))
}
