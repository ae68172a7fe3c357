//! Calls for one key, and for the whole map. All but `new` return a code; on a map that was freed they return `FREED`
//! and do nothing.
ghost use Rattle.std.specs.Prelude.{◌≡◌, ◌≢◌, [], length, None, Some};
ghost use Rattle.std.specs.Option.{option_map};
ghost use Rattle.art_keyed.specs.KeyedPairs.{strings_below, strings_in_front};
ghost use Rattle.art_keys.specs.Escapes.{escape};
ghost use Rattle.art_model.specs.Pairs.{first_of, last_of, of_key, put, remove_key};
ghost use Rattle.string_map.specs.Calls.{Answers, Changes, Inserts, Replaces, code_of, has_replaced, no_memory, value_of};
ghost use Rattle.art_iterating.specs.MapItems.{deref_pair};
ghost use Rattle.string_map.specs.Shown.{Shows, ShowsPair, pair_of};

use super::StringMap;
use super::codes::{ABSENT, DONE, FREED, NO_MEMORY, REPLACED, TOO_LONG};
use super::pairs::Pair;
use art_keyed::map::TreeMap;
use art_keys::escaped::Escaped;
use std::alloc::Global;

/// Returns an empty map. It allocates nothing.
pub fn new(alloc: Global) -> StringMap
    ensures { result ≡ Some [] }
{
    StringMap {
        pairs: Some(TreeMap::new(alloc)),
        alloc,
    }
}

/// Frees a map. Returns `DONE`, or `FREED` if it was freed before.
pub fn free(map: &mut StringMap) -> u32
    ensures { (map.new ≡ None) × (result ≡ code_of map.old) }
{
    match map.pairs.take() {
        Some(_) => DONE,
        None => FREED,
    }
}

/// Writes the number of pairs. Returns `DONE`.
pub fn len(map: &StringMap, len: &mut usize) -> u32
    ensures { Answers map.now (λ pairs. Some (length pairs)) result len.old len.new ×
        (result ≢ no_memory) }
{
    let Some(pairs) = &map.pairs else {
        return FREED;
    };
    *len = pairs.len();
    DONE
}

/// Removes all pairs. Returns `DONE`. It allocates nothing.
pub fn clear(map: &mut StringMap) -> u32
    ensures { (map.new ≡ option_map (λ _. []) map.old) × (result ≡ code_of map.old) }
{
    let Some(pairs) = &mut map.pairs else {
        return FREED;
    };
    pairs.clear();
    DONE
}

/// Moves the pairs into the order of their keys in memory, so that an iteration reads memory from first to last.
/// Returns `DONE`, or `NO_MEMORY` if an allocation fails; then no pair has moved.
pub fn compact(map: &mut StringMap) -> u32
    ensures { (map.new ≡ map.old) × (result ≢ no_memory → result ≡ code_of map.old) }
{
    let Some(pairs) = &mut map.pairs else {
        return FREED;
    };
    match pairs.compact() {
        Ok(()) => DONE,
        Err(_) => NO_MEMORY,
    }
}

/// Looks up a key, and writes its value. Returns `DONE`, or `ABSENT` if the key is not stored. It allocates nothing.
pub fn get(map: &StringMap, key: &[u8], value: &mut u64) -> u32
    ensures { Answers map.now (value_of key.now) result value.old value.new ×
        (result ≢ no_memory) }
{
    let Some(pairs) = &map.pairs else {
        return FREED;
    };
    match pairs.get_text(key) {
        Some(found) => {
            *value = *found;
            DONE
        }
        None => ABSENT,
    }
}

/// Inserts a pair. Returns `DONE` if the key is new, `REPLACED` if its value is replaced, which is written, or
/// `NO_MEMORY` if an allocation fails; then the map is unchanged.
pub fn insert(map: &mut StringMap, key: &[u8], value: u64, replaced: &mut u64) -> u32
    ensures { Inserts key.now value map.old result map.new replaced.old replaced.new }
{
    let Some(pairs) = &mut map.pairs else {
        return FREED;
    };
    let Ok(key) = Escaped::encode(map.alloc, key) else {
        return NO_MEMORY;
    };
    insert_key(pairs, key, value, replaced)
}

// Inserts the pair of a key, and writes the value that is replaced.
fn insert_key(
    pairs: &mut TreeMap<Escaped, u64, 16>,
    key: Escaped,
    value: u64,
    written: &mut u64,
) -> u32
    ensures tells { result ≢ no_memory → Replaces (value_of key pairs.old) result written.new }
    ensures stays { result ≢ has_replaced → written.new ≡ written.old }
    ensures inserted { result ≢ no_memory → pairs.new ≡ put (of_key escape) (key, value) pairs.old }
    ensures kept { result ≡ no_memory → pairs.new ≡ pairs.old }
{
    match pairs.insert(key, value) {
        Ok(Some((_, old))) => {
            *written = old;
            REPLACED
        }
        Ok(None) => DONE,
        Err(_) => NO_MEMORY,
    }
}

/// Removes the pair of a key, and writes its value. Returns `DONE`, or `ABSENT` if the key is not stored. It allocates
/// nothing.
pub fn remove(map: &mut StringMap, key: &[u8], value: &mut u64) -> u32
    ensures { Answers map.old (value_of key.now) result value.old value.new ×
        Changes map.old (remove_key (of_key escape) (escape key.now)) result map.new ×
        (result ≢ no_memory) }
{
    let Some(pairs) = &mut map.pairs else {
        return FREED;
    };
    match pairs.remove_text(key) {
        Some((_, old)) => {
            *value = old;
            DONE
        }
        None => ABSENT,
    }
}

/// Writes how many keys start with a prefix, and returns `DONE`. It allocates nothing.
pub fn count_prefix(map: &StringMap, prefix: &[u8], count: &mut usize) -> u32
    ensures { Answers map.now (λ pairs.
        Some (length (strings_below (λ text. text) prefix.now pairs)))
        result count.old count.new × (result ≢ no_memory) }
{
    let Some(pairs) = &map.pairs else {
        return FREED;
    };
    *count = count_below(pairs, prefix);
    DONE
}

// Returns how many keys start with a text.
fn count_below(pairs: &TreeMap<Escaped, u64, 16>, text: &[u8]) -> usize
    ensures { result ≡ length (strings_below (λ text. text) text.now pairs.now) }
{
    pairs.prefix_text(text).count()
}

/// Looks up the longest key that is a prefix of the query. Writes its length, and its value. Returns `DONE`, or `ABSENT`
/// if no key is one. It allocates nothing.
pub fn longest_match(map: &StringMap, query: &[u8], pair: &mut Pair) -> u32
    ensures { Answers map.now
        (λ pairs. option_map pair_of (last_of (strings_in_front (λ text. text) query.now pairs)))
        result pair.old pair.new × (result ≢ no_memory) }
{
    let Some(pairs) = &map.pairs else {
        return FREED;
    };
    match pairs.longest_match(query) {
        Some((key, value)) => {
            *pair = Pair {
                value: *value,
                key_len: key.text_len(),
            };
            DONE
        }
        None => ABSENT,
    }
}

/// Writes the first pair, and its key to the front of a buffer. Returns `DONE`, `ABSENT` if there is no pair, or
/// `TOO_LONG` if the key is longer than the buffer; then the value and the length of the key are written.
pub fn first(map: &StringMap, buffer: &mut [u8], pair: &mut Pair) -> u32
    ensures { ShowsPair map.now first_of result buffer.old buffer.new pair.old pair.new }
{
    let Some(pairs) = &map.pairs else {
        return FREED;
    };
    show(pairs.first_key_value(), buffer, pair)
}

/// Writes the last pair, and its key to the front of a buffer. Returns what `first` does.
pub fn last(map: &StringMap, buffer: &mut [u8], pair: &mut Pair) -> u32
    ensures { ShowsPair map.now last_of result buffer.old buffer.new pair.old pair.new }
{
    let Some(pairs) = &map.pairs else {
        return FREED;
    };
    show(pairs.last_key_value(), buffer, pair)
}

// Writes a pair, if there is one, and its key to the front of a buffer.
fn show(found: Option<(&Escaped, &u64)>, buffer: &mut [u8], pair: &mut Pair) -> u32
    ensures { Shows (option_map deref_pair found.entry) result buffer.old buffer.new
        pair.old pair.new }
{
    let Some((key, value)) = found else {
        return ABSENT;
    };
    *pair = Pair {
        value: *value,
        key_len: key.text_len(),
    };
    match key.write_at(0, buffer) {
        Some(_) => DONE,
        None => TOO_LONG,
    }
}
