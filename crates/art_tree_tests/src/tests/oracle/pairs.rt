//! A map as a sorted list of pairs.

use art_nodes::node::AsBytes;
use std::mem;

/// Returns where the pair of a key is, or as an error where it would be inserted. It makes one comparison for each
/// halving of the list.
pub fn search<K: AsBytes, V>(pairs: &[(K, V)], key: &[u8]) -> Result<usize, usize> {
    pairs.binary_search_by(|pair| pair.0.as_bytes().cmp(key))
}

/// Returns whether a key has a pair.
pub fn contains<K: AsBytes, V>(pairs: &[(K, V)], key: &[u8]) -> bool {
    search(pairs, key).is_ok()
}

/// Returns whether a key starts with a stored one, or a stored one with it.
pub fn has_related<K: AsBytes, V>(pairs: &[(K, V)], key: &[u8]) -> bool {
    pairs.iter().any(|pair| are_related(pair.0.as_bytes(), key))
}

/// Returns whether one of two keys starts with the other.
pub fn are_related(one: &[u8], other: &[u8]) -> bool {
    one.starts_with(other) || other.starts_with(one)
}

/// Replaces the value at a place. Returns the key that was passed with the old value, or none if no pair is there.
pub fn replace_at<K: Drop, V: Drop>(
    pairs: &mut [(K, V)],
    at: usize,
    key: K,
    value: V,
) -> Option<(K, V)> {
    let pair = pairs.get_mut(at)?;
    Some((key, mem::replace(&mut pair.1, value)))
}

/// Inserts a pair at a place. If an allocation fails, or if the place is after the end, the pair is returned.
pub fn insert_at<K, V>(pairs: &mut Vec<(K, V)>, at: usize, key: K, value: V) -> Result<(), (K, V)> {
    if at > pairs.len() {
        return Err((key, value));
    }
    pairs
        .insert(at, (key, value))
        .map_err(|failed| failed.value)
}

/// Removes the pair at a place, if there is one.
pub fn remove_at<K, V>(pairs: &mut Vec<(K, V)>, at: usize) -> Option<(K, V)> {
    if at < pairs.len() {
        Some(pairs.remove(at))
    } else {
        None
    }
}

/// Removes the pair of a key, if there is one.
pub fn remove<K: AsBytes, V>(pairs: &mut Vec<(K, V)>, key: &[u8]) -> Option<(K, V)> {
    remove_at(pairs, search(pairs, key).ok()?)
}
