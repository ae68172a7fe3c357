//! Iterators that remove the pairs whose strings have a prefix.
use super::shared::{put, word};
use art_keyed::map::TreeMap;
use art_keys::terminated::Terminated;
use std::alloc::Global;
use std::test::Fail;
use test_helpers::expected::same;

type Words = TreeMap<Terminated, u32, 4>;

// Inserts words with the values 1, 2, 4 and 8, and returns whether all are new.
fn fill(words: &mut Words, alloc: Global) -> bool {
    let mut are_new = true;
    for (text, value) in [("car", 1), ("cart", 2), ("dog", 4), ("carton", 8)] {
        are_new &= put(words, word(alloc, text.as_bytes()), value) == Some(None);
    }
    are_new
}

// The sum of the values that are extracted with a prefix, and how many pairs are left.
fn extracted(words: &mut Words, prefix: &Terminated) -> (u32, usize) {
    let mut sum = 0u32;
    for (_, value) in words.extract_prefix(prefix) {
        sum = sum.saturating_add(value);
    }
    (sum, words.len())
}

// Whether words are inserted, and what is then extracted and left.
fn filled_and_extracted(words: &mut Words, alloc: Global) -> Option<(bool, (u32, usize))> {
    let are_new = fill(words, alloc);
    match word(alloc, b"car") {
        Some(prefix) => Some((are_new, extracted(words, &prefix))),
        None => None,
    }
}

#[test]
fn what_is_not_extracted_stays(rt: HostRuntime) -> Result<(), Fail> {
    let seen = filled_and_extracted(&mut TreeMap::new(rt.alloc()), rt.alloc());
    same(seen, Some((true, (11, 1))))
}
