//! What these tests share: calls of maps of any keys, and the same calls of a `BTreeMap`.
use art_keyed::map::TreeMap;
use art_keys::laws::NoPrefixesBytes;
use art_keys::terminated::Terminated;
use art_map::map::Range;
use std::alloc::Global;
use std::collections::BTreeMap;
use test_helpers::short::Short;

/// Returns the value of a pair that is lent.
pub fn value_of<K, V: Copy>(pair: Option<(&K, &V)>) -> Option<V> {
    match pair {
        Some((_, value)) => Some(*value),
        None => None,
    }
}

/// Returns the value of a pair that was removed.
pub fn taken<K: Drop, V: Copy>(pair: Option<(K, V)>) -> Option<V> {
    match pair {
        Some(pair) => Some(pair.1),
        None => None,
    }
}

/// Whether a removal returned a pair with this value.
pub fn is_taken<K: Drop, V: PartialEq + Copy>(pair: Option<(K, V)>, value: Option<V>) -> bool {
    taken(pair) == value
}

/// Returns a word, if it has no zero and there is memory for it.
pub fn word(alloc: Global, text: &[u8]) -> Option<Terminated> {
    match Terminated::encode(alloc, text) {
        Ok(word) => word,
        Err(_) => None,
    }
}

/// Inserts a pair, and returns the value that its key had before. It returns nothing if there is no key, or the insertion
/// fails.
pub fn put<K: NoPrefixesBytes + Drop, V: Copy, const P: usize>(
    map: &mut TreeMap<K, V, P>,
    key: Option<K>,
    value: V,
) -> Option<Option<V>> {
    let Some(key) = key else {
        return None;
    };
    match map.insert(key, value) {
        Ok(old) => Some(taken(old)),
        Err(_) => None,
    }
}

/// An insertion into both, and whether they return the same value.
pub fn agree_on_insertion<
    K: NoPrefixesBytes + Drop,
    M: Ord + Copy,
    V: PartialEq + Copy,
    const P: usize,
>(
    map: &mut TreeMap<K, V, P>,
    model: &mut BTreeMap<M, V>,
    (key, own): (Option<K>, M),
    value: V,
) -> bool {
    match model.insert(own, value) {
        Ok(old) => put(map, key, value) == Some(old),
        Err(_) => false,
    }
}

/// Values of which `digest` makes a number.
pub trait Number: Copy {
    fn number(self) -> u64;
}

impl Number for u32 {
    fn number(self) -> u64 {
        self as u64
    }
}

impl Number for usize {
    fn number(self) -> u64 {
        self as u64
    }
}

/// Returns how many pairs a range has, and a number that their values make in their order.
pub fn read<K: NoPrefixesBytes + Drop, V: Number, const P: usize>(
    pairs: Range<'_, K, V, P>,
) -> (usize, u64) {
    let (mut count, mut digest) = (0usize, 0u64);
    for (_, value) in pairs {
        count = count.saturating_add(1);
        digest = digest.wrapping_mul(31).wrapping_add(value.number());
    }
    (count, digest)
}

/// Returns a number that the values of a map make in their order: each is added to the number before it, times a factor.
pub fn digest<K: NoPrefixesBytes + Drop, V: Number, const P: usize>(
    map: &TreeMap<K, V, P>,
    (first, factor): (u64, u64),
) -> u64 {
    let mut digest = first;
    for (_, value) in map.iter() {
        digest = digest.wrapping_mul(factor).wrapping_add(value.number());
    }
    digest
}

/// The same of a model.
pub fn digest_of_model<M: Ord, V: Number>(
    model: &BTreeMap<M, V>,
    (first, factor): (u64, u64),
) -> u64 {
    let mut digest = first;
    for (_, value) in model.iter() {
        digest = digest.wrapping_mul(factor).wrapping_add(value.number());
    }
    digest
}

/// Returns how many strings start with this one, and how many are at it or after it.
pub fn counts_of_strings(model: &BTreeMap<Short, usize>, string: Short) -> [usize; 2] {
    let (mut begin, mut follow) = (0usize, 0usize);
    for (other, _) in model.iter() {
        begin = begin.saturating_add(other.starts_with(string) as usize);
        follow = follow.saturating_add((*other >= string) as usize);
    }
    [begin, follow]
}
