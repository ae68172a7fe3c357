//! Keys while every allocation fails.
use art_keys::escaped::Escaped;
use art_keys::terminated::{EndError, Terminated};
use art_parts::bytes::AsBytes;
use std::alloc::Global;
use std::test::Fail;
use test_helpers::expected::same;
use test_helpers::memory::all_memory;

// How many bytes the error returns if the allocation for their end fails.
fn left(full: Vec<u8>) -> Option<usize> {
    match Terminated::new(full) {
        Ok(_key) => None,
        Err(EndError::InnerZero { text: _text }) => None,
        Err(EndError::Memory { text }) => Some(text.len()),
    }
}

// While every allocation fails: whether a long string is not escaped, how many bytes without room for an end are
// returned, and whether bytes with room are ended.
fn starve_keys(
    alloc: Global,
    full: Vec<u8>,
    roomy: Vec<u8>,
) -> Option<(bool, Option<usize>, bool)> {
    let held = all_memory(alloc).ok()?;
    let is_refused = Escaped::encode(alloc, &[7; 30]).is_err();
    let answers = (is_refused, left(full), Terminated::new(roomy).is_ok());
    drop(held);
    Some(answers)
}

// While every allocation fails: the lengths of short keys, and whether the bytes of one fail to become a vector, which
// takes an allocation.
fn starve_short_keys(alloc: Global, short: Vec<u8>) -> Option<([usize; 3], bool)> {
    let held = all_memory(alloc).ok()?;
    let key = Terminated::new(short).ok()?;
    let copy = key.clone().ok()?;
    let escaped = Escaped::encode(alloc, b"\0\x01").ok()?;
    let full = Terminated::encode(alloc, &[7; 29]).ok()??;
    let lens = [
        copy.as_bytes().len(),
        escaped.as_bytes().len(),
        full.as_bytes().len(),
    ];
    let is_refused = match full.into_bytes_without_end() {
        Ok(_) => false,
        Err(failed) => failed.value.as_bytes().len() == 30,
    };
    drop(held);
    Some((lens, is_refused))
}

#[test]
fn without_memory_short_strings_are_keys(rt: HostRuntime) -> Result<(), Fail> {
    let short = b"car".to_vec(rt.alloc())?;
    same(
        starve_short_keys(rt.alloc(), short),
        Some(([4, 5, 30], true)),
    )
}

// A vector of this size has no spare room for the end.
#[test]
fn without_memory_bytes_are_ended_where_there_is_room(rt: HostRuntime) -> Result<(), Fail> {
    let alloc = rt.alloc();
    let full = vec![in alloc; 7u8; 4096]?;
    let mut roomy = Vec::with_capacity(alloc, 41)?;
    roomy.extend_from_slice(&[7; 40])?;
    same(
        starve_keys(alloc, full, roomy),
        Some((true, Some(4096), true)),
    )
}
