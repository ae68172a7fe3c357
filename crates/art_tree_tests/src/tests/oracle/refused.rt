//! A run of many commands while tools/refusals makes allocations fail, one at a time. The commands that did not fail
//! are carried out on a list too. After each failure that was met a test reports once that it asserted what holds.
ghost use Rattle.std.specs.Prelude.{◌<◌};

use super::by_list::answer;
use super::pairs::are_related;
use art_checking::well_formed::WellFormedChecker;
use art_nodes::node::OpaqueNodePtr;
use art_nodes::store::NodeStore;
use art_running::run::{Command, Reply, RunResult, Side, run};
use art_test_support::commands::{
    Asked, Left, Row, Told, command, commands, first_apart, ran, told_by,
};
use art_test_support::expected::same;
use art_test_support::memory::end_refusals;
use art_test_support::shapes::count_nodes;
use art_test_support::side_by_side::kind_if_same;
use art_test_support::trees::Key;
use std::alloc::{AllocError, Global};
use std::process::Abort;
use std::test::Fail;

// No store of these tests has a node in a later slot.
const SLOTS: u32 = 128;

const BYTES: [u8; 51] = [
    0, 1, 2, 3, 4, 5, 6, 7, 8, 9, 10, 11, 12, 13, 14, 15, 16, 17, 18, 19, 20, 21, 22, 23, 24, 25,
    26, 27, 28, 29, 30, 31, 32, 33, 34, 35, 36, 37, 38, 39, 40, 41, 42, 43, 44, 45, 46, 47, 48, 49,
    50,
];

/// What is asked after each of the first fifty bytes was inserted as a key.
static AT_ITS_LARGEST: [Row<'static>; 6] = [
    (Asked::Insert(&[50, 0], 0), Told::Inserted(None)),
    (Asked::Insert(&[50, 1], 1), Told::Inserted(None)),
    (Asked::Insert(&[50, 2], 2), Told::Inserted(None)),
    (Asked::Clone, Told::Cloned),
    (Asked::InsertPrefix(&[50], 7), Told::Overwrote(None, 3)),
    (Asked::DeleteMax, Told::Deleted(Some((&[50], 7)))),
];

/// What is asked when the first three are left.
static WITH_THREE_LEFT: [Row<'static>; 3] = [
    (Asked::Insert(&[], 9), Told::Conflict(&[], 9, &[])),
    (Asked::InsertPrefix(&[], 9), Told::Overwrote(None, 3)),
    (Asked::Insert(&[1], 1), Told::Conflict(&[1], 1, &[1])),
];

/// The key of the one byte at a place of these, or else of none.
fn key_at(bytes: &[u8], at: u8) -> &[u8] {
    let at = usize::from(at);
    if at < bytes.len() {
        &bytes[at..at + 1]
    } else {
        &[]
    }
}

/// Each of the first fifty bytes is inserted as a key.
fn push_insertions<'a>(rows: &mut Vec<Row<'a>>, bytes: &'a [u8]) -> Result<(), AllocError> {
    for value in 0..50u8 {
        let key = key_at(bytes, value);
        rows.push((Asked::Insert(key, u32::from(value)), Told::Inserted(None)))?;
    }
    Ok(())
}

/// All but the first three are removed, from the last one on.
fn push_deletions<'a>(rows: &mut Vec<Row<'a>>, bytes: &'a [u8]) -> Result<(), AllocError> {
    for value in (3..50u8).rev() {
        let pair = (key_at(bytes, value), u32::from(value));
        rows.push((Asked::DeleteMax, Told::Deleted(Some(pair))))?;
    }
    Ok(())
}

/// 106 commands, and the replies to them with enough memory: a tree grows to 51 children and to every kind of node,
/// moves to the other store and shrinks again.
fn script(alloc: Global, bytes: &[u8]) -> Result<Vec<Row<'_>>, AllocError> {
    let mut rows = Vec::with_capacity(alloc, 106)?;
    push_script(&mut rows, bytes)?;
    Ok(rows)
}

fn push_script<'a>(rows: &mut Vec<Row<'a>>, bytes: &'a [u8]) -> Result<(), AllocError> {
    push_insertions(rows, bytes)?;
    rows.extend_from_slice(&AT_ITS_LARGEST)?;
    push_deletions(rows, bytes)?;
    rows.extend_from_slice(&WITH_THREE_LEFT)
}

/// The commands alone.
fn scripted(alloc: Global) -> Result<Vec<Command<Key, u32>>, AllocError> {
    let rows = script(alloc, &BYTES)?;
    commands(alloc, &rows)
}

/// What a run of the commands leaves with memory, and how many leaves and inner nodes each store has then.
fn left_with_memory<const P: usize>(
    first: &mut NodeStore<Key, u32, P>,
    second: &mut NodeStore<Key, u32, P>,
) -> Result<(Left, [(usize, usize); 2]), AllocError> {
    let rows = script(first.alloc(), &BYTES)?;
    let left = ran(first, second, &rows)?;
    Ok((
        left,
        [count_nodes(first, SLOTS), count_nodes(second, SLOTS)],
    ))
}

#[test]
fn each_command_has_the_reply_of_its_row(rt: HostRuntime) -> Result<(), Fail> {
    let alloc = rt.alloc();
    let seen = left_with_memory::<4>(&mut NodeStore::new(alloc), &mut NodeStore::new(alloc))?;
    let left = Left {
        wrong: None,
        has_root: true,
        side: Side::Second,
    };
    same(seen, (left, [(0, 0), (1, 0)]))
}

fn count_related(pairs: &[(Key, u32)], key: &[u8]) -> usize {
    pairs
        .iter()
        .filter(|pair| are_related(&pair.0, key))
        .count()
}

/// Whether a command allocates where these pairs are stored.
fn may_be_refused(pairs: &[(Key, u32)], asked: Asked<'_>) -> bool {
    match asked {
        Asked::Insert(key, _) => !pairs.iter().any(|pair| pair.0.as_slice() == key),
        Asked::InsertPrefix(key, _) => count_related(pairs, key) != 1,
        Asked::Clone => !pairs.is_empty(),
        Asked::Delete(_) | Asked::DeleteMin | Asked::DeleteMax => false,
        Asked::Contains(_) | Asked::LongestMatch(_) => false,
    }
}

/// The reply to a command that fails.
fn refusal_of(asked: Asked<'_>) -> Told<'_> {
    Told::NoMemory(match asked {
        Asked::Insert(key, value) | Asked::InsertPrefix(key, value) => Some((key, value)),
        _ => None,
    })
}

/// Whether a reply is a failure, of a command that allocates where these pairs are stored.
fn is_refusal(pairs: &[(Key, u32)], asked: Asked<'_>, reply: &Reply<Key, u32>) -> bool {
    told_by(reply) == refusal_of(asked) && may_be_refused(pairs, asked)
}

/// Whether a reply is the list's, which carries the command out.
fn is_answer(
    alloc: Global,
    pairs: &mut Vec<(Key, u32)>,
    asked: Asked<'_>,
    reply: &Reply<Key, u32>,
) -> Result<bool, AllocError> {
    let wanted = answer(alloc, pairs, command(alloc, asked)?)?;
    Ok(told_by(reply) == told_by(&wanted))
}

/// How many replies are failures. None if one is to a command that allocates nothing, or if another reply is not that
/// of the list, which carries out the commands that did not fail.
fn count_refused(
    alloc: Global,
    pairs: &mut Vec<(Key, u32)>,
    rows: &[Row<'_>],
    replies: &[Reply<Key, u32>],
) -> Result<Option<usize>, AllocError> {
    if replies.len() != rows.len() {
        return Ok(None);
    }
    let mut refused = 0usize;
    for at in 0..rows.len() {
        let (asked, _) = rows[at];
        if is_refusal(pairs, asked, &replies[at]) {
            refused = refused.saturating_add(1);
        } else if !is_answer(alloc, pairs, asked, &replies[at])? {
            return Ok(None);
        }
    }
    Ok(Some(refused))
}

/// Whether the checker finds a tree of these pairs in a store, and there is no other node in it nor any in the other.
fn is_tree_of<const P: usize>(
    store: &NodeStore<Key, u32, P>,
    other: &NodeStore<Key, u32, P>,
    root: Option<OpaqueNodePtr>,
    pairs: &[(Key, u32)],
) -> Result<bool, AllocError> {
    let kind = kind_if_same((store, root), (store, root), pairs)?;
    let (leaves, inners) = count_nodes(store, SLOTS);
    let counts = [checked_counts(store, root), Some(count_nodes(other, SLOTS))];
    Ok(kind.is_some() && leaves == pairs.len() && counts == [Some((leaves, inners)), Some((0, 0))])
}

/// How many leaves and inner nodes the checker counts. None where it finds no tree.
fn checked_counts<const P: usize>(
    store: &NodeStore<Key, u32, P>,
    root: Option<OpaqueNodePtr>,
) -> Option<(usize, usize)> {
    match WellFormedChecker::check(store, root, 0) {
        Ok(stats) => Some((stats.num_leaf, stats.num_inner)),
        Err(_) => None,
    }
}

/// The result of commands of which some may fail.
#[derive(Clone, Copy, PartialEq, Eq, Debug)]
enum Outcome {
    /// The failure was outside the run.
    Undecided,
    /// All commands were returned, and no store has a node.
    HandedBack,
    /// So many commands failed, and all that is left is what the others leave.
    Ran(usize),
    Wrong,
}

impl Outcome {
    /// How many failures were met.
    fn refusals(self) -> usize {
        match self {
            Outcome::HandedBack => 1,
            Outcome::Ran(refused) => refused,
            Outcome::Undecided | Outcome::Wrong => 0,
        }
    }
}

/// Judges a run by the replies to it and by what it leaves in the store that the tree is in, and in the other.
fn judge<const P: usize>(
    store: &NodeStore<Key, u32, P>,
    other: &NodeStore<Key, u32, P>,
    done: &RunResult<Key, u32>,
) -> Result<Outcome, AllocError> {
    let alloc = store.alloc();
    let rows = script(alloc, &BYTES)?;
    let mut pairs = Vec::new(alloc);
    let Some(refused) = count_refused(alloc, &mut pairs, &rows, &done.replies)? else {
        return Ok(Outcome::Wrong);
    };
    if is_tree_of(store, other, done.root, &pairs)? {
        Ok(Outcome::Ran(refused))
    } else {
        Ok(Outcome::Wrong)
    }
}

/// Whether two commands are the same insertion, or of one kind without a pair.
fn is_same(command: &Command<Key, u32>, asked: Asked<'_>) -> bool {
    match (command, asked) {
        (Command::Insert(key, value), Asked::Insert(wanted, its)) => {
            key.as_slice() == wanted && *value == its
        }
        (Command::InsertPrefix(key, value), Asked::InsertPrefix(wanted, its)) => {
            key.as_slice() == wanted && *value == its
        }
        (Command::DeleteMax, Asked::DeleteMax) => true,
        (Command::Clone, Asked::Clone) => true,
        _ => false,
    }
}

/// The same of the command of a row.
fn is_asked(command: &Command<Key, u32>, row: &Row<'_>) -> bool {
    is_same(command, row.0)
}

/// Whether all commands were returned, and there is no node in either store.
fn are_handed_back<const P: usize>(
    first: &NodeStore<Key, u32, P>,
    second: &NodeStore<Key, u32, P>,
    back: &[Command<Key, u32>],
) -> Result<bool, AllocError> {
    let rows = script(first.alloc(), &BYTES)?;
    let counts = [count_nodes(first, SLOTS), count_nodes(second, SLOTS)];
    Ok(first_apart(back, &rows, is_asked).is_none() && counts == [(0, 0); 2])
}

/// Runs the commands while allocations may fail, and then judges the result with memory.
fn tried<const P: usize>(
    first: &mut NodeStore<Key, u32, P>,
    second: &mut NodeStore<Key, u32, P>,
) -> Result<Outcome, AllocError> {
    let alloc = first.alloc();
    let Ok(asked) = scripted(alloc) else {
        return Ok(Outcome::Undecided);
    };
    let ran = run(first, second, None, asked);
    end_refusals(alloc);
    match ran {
        Ok(done) => match done.side {
            Side::First => judge(first, second, &done),
            Side::Second => judge(second, first, &done),
        },
        Err((back, AllocError)) => Ok(if are_handed_back(first, second, &back)? {
            Outcome::HandedBack
        } else {
            Outcome::Wrong
        }),
    }
}

/// The same in stores of its own.
fn tried_with<const P: usize>(alloc: Global) -> Result<Outcome, AllocError>
    requires { P < 256 }
{
    tried::<P>(&mut NodeStore::new(alloc), &mut NodeStore::new(alloc))
}

/// Asserts the result of a run, and reports it once for each failure that was met.
fn assert_whole(rt: &(impl Abort + Print), outcome: Outcome) -> Result<(), Fail> {
    assert_ne!(rt; outcome, Outcome::Wrong);
    for _ in 0..outcome.refusals() {
        println!(rt; "asserted")?;
    }
    Ok(())
}

#[test]
fn refused_commands_count_as_not_made_with_0_stored(rt: HostRuntime) -> Result<(), Fail> {
    assert_whole(&rt, tried_with::<0>(rt.alloc())?)
}

#[test]
fn refused_commands_count_as_not_made_with_2_stored(rt: HostRuntime) -> Result<(), Fail> {
    assert_whole(&rt, tried_with::<2>(rt.alloc())?)
}

#[test]
fn refused_commands_count_as_not_made_with_4_stored(rt: HostRuntime) -> Result<(), Fail> {
    assert_whole(&rt, tried_with::<4>(rt.alloc())?)
}

#[test]
fn refused_commands_count_as_not_made_with_16_stored(rt: HostRuntime) -> Result<(), Fail> {
    assert_whole(&rt, tried_with::<16>(rt.alloc())?)
}
