//! Commands as tables, and replies as plain values.
ghost use Rattle.std.specs.Prelude.{◌≡◌, ℕ, List, Vec, IfOk};
ghost use Rattle.std.specs.declared.alloc.Global.{Global};
ghost use Rattle.art_model.specs.Canonical.{IsCanonical};
ghost use Rattle.art_model.specs.Pairs.{of_key};
ghost use Rattle.art_running.specs.Runs.{of_side};

use crate::trees::Key;
use art_node_support::memory::all_memory;
use art_nodes::node::OpaqueNodePtr;
use art_nodes::store::NodeStore;
use art_running::run::{Command, Reply, RunResult, Side, run};
use std::alloc::{AllocError, Global};

/// A command, with the bytes of its key.
#[derive(Clone, Copy)]
pub enum Asked<'a> {
    Insert(&'a [u8], u32),
    InsertPrefix(&'a [u8], u32),
    Delete(&'a [u8]),
    DeleteMin,
    DeleteMax,
    Clone,
    Contains(&'a [u8]),
    LongestMatch(&'a [u8]),
}

/// What a reply reports, with the bytes of its keys.
#[derive(Clone, Copy, PartialEq, Eq)]
pub enum Told<'a> {
    Inserted(Option<(&'a [u8], u32)>),
    Conflict(&'a [u8], u32, &'a [u8]),
    Overwrote(Option<(&'a [u8], u32)>, usize),
    Deleted(Option<(&'a [u8], u32)>),
    Cloned,
    Found(bool),
    MatchLen(Option<usize>),
    NoMemory(Option<(&'a [u8], u32)>),
}

/// A command and the reply to it.
pub type Row<'a> = (Asked<'a>, Told<'a>);

/// What a run leaves.
#[derive(Clone, Copy, PartialEq, Eq, Debug)]
pub struct Left {
    /// The place of the first reply that is not the one of its row.
    pub wrong: Option<usize>,
    pub has_root: bool,
    pub side: Side,
}

impl<'a> Asked<'a> {
    // The bytes of its key, or none.
    fn key(self) -> &'a [u8] {
        match self {
            Asked::Insert(key, _) | Asked::InsertPrefix(key, _) => key,
            Asked::Delete(key) | Asked::Contains(key) | Asked::LongestMatch(key) => key,
            Asked::DeleteMin | Asked::DeleteMax | Asked::Clone => &[],
        }
    }
}

/// Returns a command of its own.
pub fn command(alloc: Global, asked: Asked<'_>) -> Result<Command<Key, u32>, AllocError> {
    let key = asked.key().to_vec(alloc)?;
    Ok(match asked {
        Asked::Insert(_, value) => Command::Insert(key, value),
        Asked::InsertPrefix(_, value) => Command::InsertPrefix(key, value),
        Asked::Delete(_) => Command::Delete(key),
        Asked::DeleteMin => Command::DeleteMin,
        Asked::DeleteMax => Command::DeleteMax,
        Asked::Clone => Command::Clone,
        Asked::Contains(_) => Command::Contains(key),
        Asked::LongestMatch(_) => Command::LongestMatch(key),
    })
}

/// Returns the commands of these rows.
pub fn commands(alloc: Global, rows: &[Row<'_>]) -> Result<Vec<Command<Key, u32>>, AllocError> {
    let mut commands = Vec::new(alloc);
    for (asked, _) in rows {
        commands.push(command(alloc, *asked)?)?;
    }
    Ok(commands)
}

/// What a reply reports.
pub fn told_by(reply: &Reply<Key, u32>) -> Told<'_> {
    match reply {
        Reply::Inserted(old) => Told::Inserted(pair_told(old)),
        Reply::Conflict(key, value, error) => Told::Conflict(key, *value, &error.byte_repr),
        Reply::Overwrote(old, count) => Told::Overwrote(pair_told(old), *count),
        Reply::Deleted(pair) => Told::Deleted(pair_told(pair)),
        Reply::Cloned => Told::Cloned,
        Reply::Found(is_found) => Told::Found(*is_found),
        Reply::MatchLen(len) => Told::MatchLen(*len),
        Reply::NoMemory(pair) => Told::NoMemory(pair_told(pair)),
    }
}

// The same of a pair.
fn pair_told(pair: &Option<(Key, u32)>) -> Option<(&[u8], u32)> {
    let (key, value) = pair.as_ref()?;
    Some((key, *value))
}

/// Returns the place of the first of these that is not as it is wanted, or that is missing or too many.
pub fn first_apart<T, W, F: Fn(&T, &W) -> bool + Drop>(
    these: &[T],
    wanted: &[W],
    is_wanted: F,
) -> Option<usize>
    requires { F.IsAlwaysCallable is_wanted }
{
    let count = these.len().min(wanted.len());
    for at in 0..count {
        if !is_wanted(&these[at], &wanted[at]) {
            return Some(at);
        }
    }
    if these.len() == wanted.len() {
        return None;
    }
    Some(count)
}

/// Returns the place of the first reply that is not the one of its row, or that is missing or too many.
pub fn first_wrong(replies: &[Reply<Key, u32>], rows: &[Row<'_>]) -> Option<usize> {
    first_apart(replies, rows, is_told)
}

// Whether a reply is the one of a row.
fn is_told(reply: &Reply<Key, u32>, row: &Row<'_>) -> bool {
    told_by(reply) == row.1
}

// What a run leaves.
fn left_by(done: &RunResult<Key, u32>, rows: &[Row<'_>]) -> Left
    ensures { result.side ≡ done.now.side }
{
    Left {
        wrong: first_wrong(&done.replies, rows),
        has_root: done.root.is_some(),
        side: done.side,
    }
}

/// Runs the commands of these rows. Returns what is left, and the root.
pub fn ran_from<const P: usize>(
    first: &mut NodeStore<Key, u32, P>,
    second: &mut NodeStore<Key, u32, P>,
    root: Option<OpaqueNodePtr>,
    rows: &[Row<'_>],
) -> Result<(Left, Option<OpaqueNodePtr>), AllocError>
    requires { (pairs : List (Vec ℕ Global × ℕ)) ×
        IsCanonical (of_key (λ key. key.items)) P first.old root pairs }
    ensures { IfOk result (λ done. (pairs : List (Vec ℕ Global × ℕ)) ×
        IsCanonical (of_key (λ key. key.items)) P
        (of_side done.0.side first.new second.new) done.1 pairs) }
{
    let asked = commands(first.alloc(), rows)?;
    match run(first, second, root, asked) {
        Ok(done) => Ok((left_by(&done, rows), done.root)),
        Err((_, error)) => Err(error),
    }
}

/// Runs the commands of these rows, from no root.
pub fn ran<const P: usize>(
    first: &mut NodeStore<Key, u32, P>,
    second: &mut NodeStore<Key, u32, P>,
    rows: &[Row<'_>],
) -> Result<Left, AllocError> {
    Ok(ran_from(first, second, None, rows)?.0)
}

/// Runs commands where all allocations but that of the list of the replies fail.
pub fn run_without_memory<const P: usize>(
    first: &mut NodeStore<Key, u32, P>,
    second: &mut NodeStore<Key, u32, P>,
    root: Option<OpaqueNodePtr>,
    asked: Vec<Command<Key, u32>>,
) -> Result<RunResult<Key, u32>, AllocError>
    requires { (pairs : List (Vec ℕ Global × ℕ)) ×
        IsCanonical (of_key (λ key. key.items)) P first.old root pairs }
    ensures { IfOk result (λ done. (pairs : List (Vec ℕ Global × ℕ)) ×
        IsCanonical (of_key (λ key. key.items)) P
        (of_side done.side first.new second.new) done.root pairs) }
{
    let alloc = first.alloc();
    let kept_free = Vec::<Reply<Key, u32>>::with_capacity(alloc, asked.len())?;
    let held = all_memory(alloc)?;
    drop(kept_free);
    let ran = run(first, second, root, asked);
    drop(held);
    ran.map_err(|refused| refused.1)
}

/// Runs the commands of these rows where all allocations but that of the list of the replies fail.
pub fn ran_without_memory<const P: usize>(
    first: &mut NodeStore<Key, u32, P>,
    second: &mut NodeStore<Key, u32, P>,
    root: Option<OpaqueNodePtr>,
    rows: &[Row<'_>],
) -> Result<Left, AllocError>
    requires { (pairs : List (Vec ℕ Global × ℕ)) ×
        IsCanonical (of_key (λ key. key.items)) P first.old root pairs }
{
    let asked = commands(first.alloc(), rows)?;
    let done = run_without_memory(first, second, root, asked)?;
    Ok(left_by(&done, rows))
}
