//! What commands do to a plain sorted list of pairs.

use super::pairs::{
    are_related, contains, has_related, insert_at, remove, remove_at, replace_at, search,
};
use art_nodes::node::AsBytes;
use art_running::run::{Command, Reply};
use art_writing::insert::InsertPrefixError;
use std::alloc::{AllocError, Global};
use std::boxed::BoxedSlice;
use std::mem;

/// Carries a command out, and returns the expected reply.
pub fn answer<K: AsBytes + Drop>(
    alloc: Global,
    pairs: &mut Vec<(K, u32)>,
    command: Command<K, u32>,
) -> Result<Reply<K, u32>, AllocError> {
    match command {
        Command::Insert(key, value) => insert(alloc, pairs, key, value),
        Command::InsertPrefix(key, value) => overwrite(alloc, pairs, (key, value)),
        Command::Delete(key) => Ok(Reply::Deleted(remove(pairs, &key))),
        Command::DeleteMin => Ok(Reply::Deleted(remove_at(pairs, 0))),
        Command::DeleteMax => Ok(Reply::Deleted(pairs.pop())),
        Command::Clone => Ok(Reply::Cloned),
        Command::Contains(key) => Ok(Reply::Found(contains(pairs, &key))),
        Command::LongestMatch(key) => Ok(Reply::MatchLen(match_len(pairs, &key))),
    }
}

fn insert<K: AsBytes + Drop>(
    alloc: Global,
    pairs: &mut Vec<(K, u32)>,
    key: K,
    value: u32,
) -> Result<Reply<K, u32>, AllocError> {
    match search(pairs, key.as_bytes()) {
        Ok(at) => Ok(Reply::Inserted(replace_at(pairs, at, key, value))),
        Err(_) if has_related(pairs, key.as_bytes()) => conflict(alloc, key, value),
        Err(at) => match insert_at(pairs, at, key, value) {
            Ok(()) => Ok(Reply::Inserted(None)),
            Err(_) => Err(AllocError),
        },
    }
}

/// The reply to a key that conflicts with a stored one.
fn conflict<K: AsBytes + Drop>(
    alloc: Global,
    key: K,
    value: u32,
) -> Result<Reply<K, u32>, AllocError> {
    let byte_repr = BoxedSlice::from_slice(alloc, key.as_bytes())?;
    Ok(Reply::Conflict(key, value, InsertPrefixError { byte_repr }))
}

/// Inserts a pair and removes all with related keys; but an equal stored key stays, and gets the value.
fn overwrite<K: AsBytes + Drop>(
    alloc: Global,
    pairs: &mut Vec<(K, u32)>,
    pair: (K, u32),
) -> Result<Reply<K, u32>, AllocError> {
    let (key, value) = pair;
    if let Ok(at) = search(pairs, key.as_bytes()) {
        return Ok(Reply::Overwrote(replace_at(pairs, at, key, value), 0));
    }
    let (last, count) = take_related(alloc, pairs, key.as_bytes())?;
    insert(alloc, pairs, key, value)?;
    Ok(match count {
        0 | 1 => Reply::Overwrote(last, 0),
        _ => Reply::Overwrote(None, count),
    })
}

/// Removes all pairs with related keys. Returns the last of them, and how many there were.
fn take_related<K: AsBytes + Drop>(
    alloc: Global,
    pairs: &mut Vec<(K, u32)>,
    key_bytes: &[u8],
) -> Result<(Option<(K, u32)>, usize), AllocError> {
    let mut kept = Vec::new(alloc);
    let mut last = None;
    let mut count = 0usize;
    for (other, its) in mem::replace(pairs, Vec::new(alloc)) {
        if are_related(other.as_bytes(), key_bytes) {
            last = Some((other, its));
            count = count.saturating_add(1);
        } else {
            kept.push((other, its))?;
        }
    }
    *pairs = kept;
    Ok((last, count))
}

/// The length of the stored key that is a prefix of these bytes.
fn match_len<K: AsBytes>(pairs: &[(K, u32)], query: &[u8]) -> Option<usize> {
    for (key, _) in pairs {
        if query.starts_with(key.as_bytes()) {
            return Some(key.as_bytes().len());
        }
    }
    None
}
