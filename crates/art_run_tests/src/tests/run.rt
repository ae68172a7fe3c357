//! Runs of commands.
use art_nodes::node::{LeafPtr, OpaqueNodePtr};
use art_nodes::store::NodeStore;
use art_running::run::{Command, RunResult, Side, run};
use art_test_support::commands::{
    Asked, Left, Row, Told, commands, ran, ran_from, ran_without_memory,
};
use art_test_support::expected::same;
use art_test_support::memory::all_memory;
use art_test_support::placing::{leaf_at, lone_leaf, placed_all};
use art_test_support::shapes::count_nodes;
use art_test_support::trees::{Key, value_of};
use art_writing::insert::InsertPrefixError;
use std::alloc::{AllocError, Global};
use std::boxed::BoxedSlice;
use std::fmt::Display;
use std::test::Fail;

// What a run leaves whose replies are as expected.
const A_TREE: Left = Left {
    wrong: None,
    has_root: true,
    side: Side::First,
};

// The same where no pair is left.
const NO_TREE: Left = Left {
    wrong: None,
    has_root: false,
    side: Side::First,
};

// What a run leaves, and how many leaves and inner nodes each store then has.
type LeftIn = (Left, [(usize, usize); 2]);

fn left_in<const P: usize>(
    first: &mut NodeStore<Key, u32, P>,
    second: &mut NodeStore<Key, u32, P>,
    rows: &[Row<'_>],
) -> Option<LeftIn> {
    let left = ran(first, second, rows).ok()?;
    Some((left, [count_nodes(first, 4), count_nodes(second, 4)]))
}

// The same in stores of its own.
fn left_by(alloc: Global, rows: &[Row<'_>]) -> Option<LeftIn> {
    left_in::<4>(&mut NodeStore::new(alloc), &mut NodeStore::new(alloc), rows)
}

// Insertions that replace related keys.
static OVER_RELATED: [Row<'static>; 7] = [
    (Asked::Insert(&[1, 2], 1), Told::Inserted(None)),
    (Asked::Insert(&[1, 3], 2), Told::Inserted(None)),
    (Asked::Insert(&[2], 3), Told::Inserted(None)),
    (Asked::InsertPrefix(&[1], 9), Told::Overwrote(None, 2)),
    (
        Asked::InsertPrefix(&[1, 5], 4),
        Told::Overwrote(Some((&[1], 9)), 0),
    ),
    (Asked::Contains(&[1]), Told::Found(false)),
    (Asked::InsertPrefix(&[], 7), Told::Overwrote(None, 2)),
];

// Commands on one key, and on one that is not stored.
static EACH: [Row<'static>; 6] = [
    (Asked::Insert(&[5], 1), Told::Inserted(None)),
    (Asked::Insert(&[5], 2), Told::Inserted(Some((&[5], 1)))),
    (Asked::Contains(&[5]), Told::Found(true)),
    (Asked::Contains(&[5, 0]), Told::Found(false)),
    (Asked::Delete(&[5]), Told::Deleted(Some((&[5], 2)))),
    (Asked::Delete(&[5]), Told::Deleted(None)),
];

// Matches before and after the only key.
static LONGEST: [Row<'static>; 4] = [
    (Asked::LongestMatch(&[1, 2, 3, 4]), Told::MatchLen(None)),
    (Asked::Insert(&[1, 2, 3], 10), Told::Inserted(None)),
    (Asked::LongestMatch(&[1, 2, 3, 4]), Told::MatchLen(Some(3))),
    (Asked::LongestMatch(&[1, 2]), Told::MatchLen(None)),
];

// Five keys, and deletions at either end until none is left.
static AT_THE_ENDS: [Row<'static>; 11] = [
    (Asked::Insert(&[1], 1), Told::Inserted(None)),
    (Asked::Insert(&[2], 2), Told::Inserted(None)),
    (Asked::Insert(&[3], 3), Told::Inserted(None)),
    (Asked::Insert(&[4], 4), Told::Inserted(None)),
    (Asked::Insert(&[5], 5), Told::Inserted(None)),
    (Asked::DeleteMin, Told::Deleted(Some((&[1], 1)))),
    (Asked::DeleteMax, Told::Deleted(Some((&[5], 5)))),
    (Asked::DeleteMax, Told::Deleted(Some((&[4], 4)))),
    (Asked::DeleteMax, Told::Deleted(Some((&[3], 3)))),
    (Asked::DeleteMax, Told::Deleted(Some((&[2], 2)))),
    (Asked::DeleteMax, Told::Deleted(None)),
];

// A clone of nothing.
static CLONED_ALONE: [Row<'static>; 1] = [(Asked::Clone, Told::Cloned)];

// A clone of two pairs, one of which is then deleted.
static CLONED: [Row<'static>; 4] = [
    (Asked::Insert(&[1], 1), Told::Inserted(None)),
    (Asked::Insert(&[2], 2), Told::Inserted(None)),
    (Asked::Clone, Told::Cloned),
    (Asked::Delete(&[1]), Told::Deleted(Some((&[1], 1)))),
];

// What that leaves.
const ON_THE_OTHER_SIDE: Left = Left {
    wrong: None,
    has_root: true,
    side: Side::Second,
};

#[test]
fn answers_each_command(rt: HostRuntime) -> Result<(), Fail> {
    let a_leaf = (A_TREE, [(1, 0), (0, 0)]);
    let nothing = (NO_TREE, [(0, 0); 2]);
    let runs: [(&[Row<'_>], LeftIn); 7] = [
        (&OVER_RELATED, a_leaf),
        (&EACH, nothing),
        (&[], nothing),
        (&LONGEST, a_leaf),
        (&AT_THE_ENDS, nothing),
        (&CLONED_ALONE, nothing),
        (&CLONED, (ON_THE_OTHER_SIDE, [(0, 0), (1, 0)])),
    ];
    for (rows, left) in runs {
        same(left_by(rt.alloc(), rows), Some(left))?;
    }
    Ok(())
}

// Whether an error has this text.
fn is_shown<E: Display>(alloc: Global, error: &E, wanted: &str) -> bool {
    match format!(in alloc; "{error}") {
        Ok(text) => text.as_str() == wanted,
        Err(_) => false,
    }
}

// Whether a copy of an error is equal to it.
fn is_copied(error: &InsertPrefixError) -> bool {
    match error.clone() {
        Ok(copy) => copy == *error,
        Err(_) => false,
    }
}

// Whether the error of a key has this text, and a copy of it is equal to it.
fn is_shown_and_copied(alloc: Global, key: &[u8], wanted: &str) -> Option<(bool, bool)> {
    let byte_repr = BoxedSlice::from_slice(alloc, key).ok()?;
    let error = InsertPrefixError { byte_repr };
    Some((is_shown(alloc, &error, wanted), is_copied(&error)))
}

// The text of the error of the key [1, 2].
static ERROR_TEXT: &str =
    "Attempted to insert a key [[1, 2]] which is either a prefix of an existing key or an existing key is a prefix of the new key.";

#[test]
fn prints_and_copies_an_error(rt: HostRuntime) -> Result<(), Fail> {
    let seen = is_shown_and_copied(rt.alloc(), &[1, 2], ERROR_TEXT);
    same(seen, Some((true, true)))
}

// The value that a command inserts.
fn value_in(command: Option<&Command<Key, u32>>) -> Option<u32> {
    match command? {
        Command::Insert(_, value) => Some(*value),
        _ => None,
    }
}

// How many commands a failed run returned, and the value that the first inserts. None if it did not fail.
fn commands_back(
    outcome: &Result<RunResult<Key, u32>, (Vec<Command<Key, u32>>, AllocError)>,
) -> Option<(usize, Option<u32>)> {
    match outcome {
        Ok(_) => None,
        Err((asked, AllocError)) => Some((asked.len(), value_in(asked.first()))),
    }
}

// The same of a run of these commands without memory.
fn handed_back<const P: usize>(
    first: &mut NodeStore<Key, u32, P>,
    second: &mut NodeStore<Key, u32, P>,
    rows: &[Row<'_>],
) -> Result<Option<(usize, Option<u32>)>, AllocError> {
    let asked = commands(first.alloc(), rows)?;
    let held = all_memory(first.alloc())?;
    let outcome = run(first, second, None, asked);
    drop(held);
    Ok(commands_back(&outcome))
}

/// Places a leaf of the key [9] with the value 90. None where it fails.
pub fn place_nine<const P: usize>(store: &mut NodeStore<Key, u32, P>) -> Option<LeafPtr> {
    match placed_all(store, &[lone_leaf(&[9], 90)]) {
        Ok(Some(names)) => leaf_at(&names, Some(0)),
        _ => None,
    }
}

// How many commands are returned and the value of the first, and the value of another leaf in the store.
type HandedBack = (Option<(usize, Option<u32>)>, Option<u32>);

fn handed_back_beside<const P: usize>(
    first: &mut NodeStore<Key, u32, P>,
    second: &mut NodeStore<Key, u32, P>,
    rows: &[Row<'_>],
) -> Option<HandedBack> {
    let leaf = place_nine(first)?;
    let back = handed_back(first, second, rows).ok()?;
    Some((back, value_of(first, leaf)))
}

// An insertion and a deletion, which are returned.
static TWO_COMMANDS: [Row<'static>; 2] = [
    (Asked::Insert(&[1], 10), Told::Inserted(None)),
    (Asked::Delete(&[1]), Told::Deleted(Some((&[1], 10)))),
];

#[test]
fn without_memory_a_run_hands_the_commands_back(rt: HostRuntime) -> Result<(), Fail> {
    let alloc = rt.alloc();
    let back = handed_back_beside::<4>(
        &mut NodeStore::new(alloc),
        &mut NodeStore::new(alloc),
        &TWO_COMMANDS,
    );
    same(back, Some((Some((2, Some(10))), Some(90))))
}

/// What the first and the later ones of some commands leave, the value of the leaf that is the root
/// between them, once all were asked, and how many nodes each store has then.
pub type InTurn = ([Left; 2], Option<u32>, [(usize, usize); 2]);

// The value of a root that is a leaf.
fn value_at<const P: usize>(
    store: &NodeStore<Key, u32, P>,
    root: Option<OpaqueNodePtr>,
) -> Option<u32> {
    value_of(store, root?.as_leaf()?)
}

// Runs commands, and then others without memory.
fn ran_in_turn<const P: usize>(
    first: &mut NodeStore<Key, u32, P>,
    second: &mut NodeStore<Key, u32, P>,
    rows: &[Row<'_>],
    later: &[Row<'_>],
) -> Option<InTurn> {
    let (before, root) = ran_from(first, second, None, rows).ok()?;
    match before.side {
        Side::First => {
            let after = ran_without_memory(first, second, root, later).ok()?;
            let counts = [count_nodes(first, 4), count_nodes(second, 4)];
            Some(([before, after], value_at(first, root), counts))
        }
        Side::Second => None,
    }
}

/// The same in stores of its own.
pub fn ran_in_turn_with(alloc: Global, rows: &[Row<'_>], later: &[Row<'_>]) -> Option<InTurn> {
    ran_in_turn::<4>(
        &mut NodeStore::new(alloc),
        &mut NodeStore::new(alloc),
        rows,
        later,
    )
}

// An insertion whose allocation fails.
static UNSTORED: [Row<'static>; 1] = [(Asked::Insert(&[1], 10), Told::NoMemory(Some((&[1], 10))))];

#[test]
fn without_memory_an_insertion_leaves_the_pairs(rt: HostRuntime) -> Result<(), Fail> {
    let left = ran_in_turn_with(rt.alloc(), &[], &UNSTORED);
    same(left, Some(([NO_TREE; 2], None, [(0, 0); 2])))
}

// The key that is stored.
static STORED: [Row<'static>; 1] = [(Asked::Insert(&[1], 10), Told::Inserted(None))];

// Commands without memory where that key is stored, and their replies.
static AFTER_STORED: [Row<'static>; 4] = [
    (
        Asked::Insert(&[1, 2], 12),
        Told::NoMemory(Some((&[1, 2], 12))),
    ),
    (Asked::Insert(&[1], 11), Told::Inserted(Some((&[1], 10)))),
    (Asked::Contains(&[1]), Told::Found(true)),
    (Asked::Delete(&[1]), Told::Deleted(Some((&[1], 11)))),
];

#[test]
fn without_memory_a_conflict_leaves_the_pairs(rt: HostRuntime) -> Result<(), Fail> {
    let left = ran_in_turn_with(rt.alloc(), &STORED, &AFTER_STORED);
    same(left, Some(([A_TREE, NO_TREE], None, [(0, 0); 2])))
}
