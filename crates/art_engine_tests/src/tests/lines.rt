//! Lines that were worked out by hand, with their replies and the status at the end.

use super::in_memory::{Calls, served};
use super::turns::{Turn, input_of, replies_of};
use art_node_support::expected::same;
use std::alloc::{AllocError, Global};
use std::test::Fail;

/// The example of the README.
pub static EXAMPLE: [Turn; 10] = [
    ("insert 7.1.1.1.1.5 1", &["inserted"]),
    ("insert 7.1.1.1.1.6 2", &["inserted"]),
    ("insert 7.1.1.9 3", &["inserted"]),
    (
        "nodes",
        &[
            "*: Node4 prefix 3 stored 7.1.1 children 2",
            "  1: Node4 prefix 1 stored 1 children 2",
            "    5: Leaf 7.1.1.1.1.5=1",
            "    6: Leaf 7.1.1.1.1.6=2",
            "  9: Leaf 7.1.1.9=3",
        ],
    ),
    ("delete 7.1.1.9", &["deleted 7.1.1.9 3"]),
    (
        "nodes",
        &[
            "*: Node4 prefix 5 stored 7.1.1.1 children 2",
            "  5: Leaf 7.1.1.1.1.5=1",
            "  6: Leaf 7.1.1.1.1.6=2",
        ],
    ),
    (
        "insert 7.1 9",
        &[
            "conflict: Attempted to insert a key [[7, 1]] which is either a prefix of an existing key or an existing key is a prefix of the new key.",
        ],
    ),
    ("longest 7.1.1.1.1.5.8", &["match 6"]),
    ("walk", &["7.1.1.1.1.5=1 7.1.1.1.1.6=2"]),
    ("check", &["ok 2 leaves 1 inner"]),
];

/// A pair that replaces two, and then one that replaces one.
static TAKING_OVER: [Turn; 7] = [
    ("insert 1.2 1", &["inserted"]),
    ("insert 1.3 2", &["inserted"]),
    ("insert 2 3", &["inserted"]),
    ("prefix 1 9", &["removed 2"]),
    (
        "nodes",
        &[
            "*: Node4 prefix 0 stored - children 2",
            "  1: Leaf 1=9",
            "  2: Leaf 2=3",
        ],
    ),
    ("prefix 1.5 4", &["replaced 1 9"]),
    ("find 1", &["no"]),
];

/// The empty key, both ends of an emptied tree, and a bad line.
static ENDS: [Turn; 6] = [
    ("walk", &["empty"]),
    ("insert - 5", &["inserted"]),
    ("insert - 6", &["replaced - 5"]),
    ("first", &["deleted - 6"]),
    ("last", &["absent"]),
    ("insert 256 1", &["line 6: refused"]),
];

/// A line of every kind.
pub static EVERY_LINE: [Turn; 15] = [
    ("insert 1.2 3", &["inserted"]),
    ("insert 1.4 5", &["inserted"]),
    (
        "nodes",
        &[
            "*: Node4 prefix 1 stored 1 children 2",
            "  2: Leaf 1.2=3",
            "  4: Leaf 1.4=5",
        ],
    ),
    ("find 1.2", &["yes"]),
    ("delete 1.2", &["deleted 1.2 3"]),
    ("delete 7", &["absent"]),
    (
        "insert 1 1",
        &[
            "conflict: Attempted to insert a key [[1]] which is either a prefix of an existing key or an existing key is a prefix of the new key.",
        ],
    ),
    ("longest 1.4.6", &["match 2"]),
    ("prefix 2 6", &["inserted"]),
    ("clone", &["cloned"]),
    ("walk", &["1.4=5 2=6"]),
    ("back", &["2=6 1.4=5"]),
    ("check", &["ok 2 leaves 1 inner"]),
    ("first", &["deleted 1.4 5"]),
    ("last", &["deleted 2 6"]),
];

/// What is replied where there is no tree.
static OF_NOTHING: [Turn; 11] = [
    ("check", &["ok 0 leaves 0 inner"]),
    ("nodes", &["empty"]),
    ("walk", &["empty"]),
    ("back", &["empty"]),
    ("first", &["absent"]),
    ("last", &["absent"]),
    ("delete -", &["absent"]),
    ("find -", &["no"]),
    ("longest 1", &["none"]),
    ("clone", &["cloned"]),
    ("prefix - 4294967295", &["inserted"]),
];

/// Lines after a bad one, which is the last that is answered.
static AFTER_A_BAD_LINE: [Turn; 4] = [
    ("insert 1 1", &["inserted"]),
    ("nodes ", &["line 2: refused"]),
    ("find 1", &[]),
    ("", &[]),
];

/// How many bytes a read gives at most, and a write takes.
static MOST: [usize; 3] = [10_000, 7, 1];

/// Whether the lines are answered so, however few bytes a call reads or writes.
fn are_answered(alloc: Global, turns: &[Turn], status: u8) -> Result<bool, AllocError> {
    let text = input_of(alloc, turns)?;
    let replies = replies_of(alloc, turns)?;
    for most in MOST {
        let calls = Calls::of_at_most(most);
        let came = served(alloc, &text, calls, calls);
        if came.status != status || came.written != replies {
            return Ok(false);
        }
    }
    Ok(true)
}

/// The first case that is answered otherwise.
fn first_other(alloc: Global) -> Result<Option<usize>, AllocError> {
    let cases: [(&[Turn], u8); 7] = [
        (&EXAMPLE, 0),
        (&TAKING_OVER, 0),
        (&ENDS, 2),
        (&EVERY_LINE, 0),
        (&OF_NOTHING, 0),
        (&AFTER_A_BAD_LINE, 2),
        (&[], 0),
    ];
    for (number, (turns, status)) in cases.into_iter().enumerate() {
        if !are_answered(alloc, turns, status)? {
            return Ok(Some(number));
        }
    }
    Ok(None)
}

#[test]
fn worked_lines_are_answered(rt: HostRuntime) -> Result<(), Fail> {
    same(first_other(rt.alloc())?, None)
}
