//! The texts of a map's errors.
use art_map::map::{MapInsertError, MapRefused};
use art_node_support::expected::same;
use art_writing::insert::InsertPrefixError;
use std::alloc::Global;
use std::boxed::BoxedSlice;
use std::fmt::Display;
use std::test::Fail;

// The text of the error of the key [1, 2].
static ERROR_TEXT: &str =
    "Attempted to insert a key [[1, 2]] which is either a prefix of an existing key or an existing key is a prefix of the new key.";

// The text of an out of memory error.
static MEMORY_TEXT: &str = "memory allocation failed";

// Whether an error has this text.
fn is_shown<E: Display>(alloc: Global, error: &E, wanted: &str) -> bool {
    match format!(in alloc; "{error}") {
        Ok(text) => text.as_str() == wanted,
        Err(_) => false,
    }
}

// Whether the errors of a map have their texts: where a key like this one is related to another, where an allocation of
// an insertion fails, and where one of a removal would.
fn are_map_errors_shown(alloc: Global, key: &[u8]) -> Option<[bool; 3]> {
    let byte_repr = BoxedSlice::from_slice(alloc, key).ok()?;
    let conflict: MapInsertError<u8, u8> = MapInsertError::Conflict {
        key: 1,
        value: 7,
        error: InsertPrefixError { byte_repr },
    };
    let memory: MapInsertError<u8, u8> = MapInsertError::Memory { key: 1, value: 7 };
    Some([
        is_shown(alloc, &conflict, ERROR_TEXT),
        is_shown(alloc, &memory, MEMORY_TEXT),
        is_shown(alloc, &MapRefused, MEMORY_TEXT),
    ])
}

#[test]
fn prints_the_errors_of_a_map(rt: HostRuntime) -> Result<(), Fail> {
    let seen = are_map_errors_shown(rt.alloc(), &[1, 2]);
    same(seen, Some([true; 3]))
}
