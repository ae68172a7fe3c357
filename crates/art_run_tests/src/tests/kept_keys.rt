//! Keys with tags that distinguish equal ones: a stored key stays.
use art_nodes::node::{AsBytes, OpaqueNodePtr};
use art_nodes::store::NodeStore;
use art_running::run::{Command, Reply, RunResult, run};
use art_test_support::expected::same;
use art_test_support::tagged::Tagged;
use std::alloc::{AllocError, Global};
use std::test::Fail;

// The bytes of a key, its tag and its value.
type Pair<'a> = (&'a [u8], u32, u32);

// An insertion, the pair that it should return, and the only pair that should be stored then.
#[derive(Clone, Copy)]
struct Row<'a> {
    is_prefix: bool,
    asked: Pair<'a>,
    told: Option<Pair<'a>>,
    stored: Pair<'a>,
}

// The command of a row.
fn command(alloc: Global, row: Row<'_>) -> Result<Command<Tagged, u32>, AllocError> {
    let (bytes, tag, value) = row.asked;
    let key = Tagged {
        bytes: bytes.to_vec(alloc)?,
        tag,
    };
    Ok(if row.is_prefix {
        Command::InsertPrefix(key, value)
    } else {
        Command::Insert(key, value)
    })
}

// The commands of these rows.
fn commands(alloc: Global, rows: &[Row<'_>]) -> Result<Vec<Command<Tagged, u32>>, AllocError> {
    let mut commands = Vec::new(alloc);
    for row in rows {
        commands.push(command(alloc, *row)?)?;
    }
    Ok(commands)
}

// A pair as plain values.
fn pair_seen(pair: &Option<(Tagged, u32)>) -> Option<Pair<'_>> {
    let (key, value) = pair.as_ref()?;
    Some((key.as_bytes(), key.tag, *value))
}

// Whether a reply to an insertion is as expected, and reports no removed leaves.
fn is_told(reply: &Reply<Tagged, u32>, row: Row<'_>) -> bool {
    match reply {
        Reply::Inserted(old) => !row.is_prefix && pair_seen(old) == row.told,
        Reply::Overwrote(old, 0) => row.is_prefix && pair_seen(old) == row.told,
        _ => false,
    }
}

// Whether a root is the leaf that should be stored.
fn is_stored(store: &NodeStore<Tagged, u32, 4>, root: OpaqueNodePtr, row: Row<'_>) -> Option<bool> {
    let leaf = store.leaf(root.as_leaf()?)?;
    Some((leaf.key.as_bytes(), leaf.key.tag, leaf.value) == row.stored)
}

// Whether the last reply of a run is as expected, and the run leaves what should be stored.
fn last_of(
    store: &NodeStore<Tagged, u32, 4>,
    done: &RunResult<Tagged, u32>,
    row: Row<'_>,
) -> Option<(bool, bool)> {
    let told = is_told(done.replies.last()?, row);
    Some((told, is_stored(store, done.root?, row)?))
}

// The same of these insertions, of which this row is the last.
fn last_after(
    first: &mut NodeStore<Tagged, u32, 4>,
    second: &mut NodeStore<Tagged, u32, 4>,
    asked: Vec<Command<Tagged, u32>>,
    row: Row<'_>,
) -> Option<(bool, bool)> {
    match run(first, second, None, asked) {
        Ok(done) => last_of(first, &done, row),
        Err(_) => None,
    }
}

// The same of the insertions of these rows.
fn last_in(
    first: &mut NodeStore<Tagged, u32, 4>,
    second: &mut NodeStore<Tagged, u32, 4>,
    rows: &[Row<'_>],
) -> Option<(bool, bool)> {
    let row = *rows.last()?;
    let asked = commands(first.alloc(), rows).ok()?;
    last_after(first, second, asked, row)
}

// The same in stores of its own.
fn last_seen(alloc: Global, rows: &[Row<'_>]) -> Option<(bool, bool)> {
    last_in(&mut NodeStore::new(alloc), &mut NodeStore::new(alloc), rows)
}

// Insertions of one key, and one of its prefix that replaces it.
static ROWS: [Row<'static>; 4] = [
    Row {
        is_prefix: false,
        asked: (&[1, 2], 1, 10),
        told: None,
        stored: (&[1, 2], 1, 10),
    },
    Row {
        is_prefix: false,
        asked: (&[1, 2], 2, 20),
        told: Some((&[1, 2], 2, 10)),
        stored: (&[1, 2], 1, 20),
    },
    Row {
        is_prefix: true,
        asked: (&[1, 2], 3, 30),
        told: Some((&[1, 2], 3, 20)),
        stored: (&[1, 2], 1, 30),
    },
    Row {
        is_prefix: true,
        asked: (&[1], 4, 40),
        told: Some((&[1, 2], 1, 30)),
        stored: (&[1], 4, 40),
    },
];

#[test]
fn a_stored_key_stays(rt: HostRuntime) -> Result<(), Fail> {
    let alloc = rt.alloc();
    let seen = [
        last_seen(alloc, &ROWS[..1]),
        last_seen(alloc, &ROWS[..2]),
        last_seen(alloc, &ROWS[..3]),
        last_seen(alloc, &ROWS),
    ];
    same(seen, [Some((true, true)); 4])
}
