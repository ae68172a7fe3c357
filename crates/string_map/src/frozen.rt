//! A map that is no longer changed. It has any number of handles, and each of them may be read by a thread of its own, all
//! at once. What the handles of a map refer to is freed with the last one.
ghost use Rattle.std.specs.Prelude.{◌≡◌, ◌≢◌, length, None, Some};
ghost use Rattle.std.specs.Option.{option_map};
ghost use Rattle.art_keyed.specs.KeyedPairs.{strings_in_front};
ghost use Rattle.art_model.specs.Pairs.{last_of};
ghost use Rattle.string_map.specs.Calls.{Answers, code_of, no_memory, value_of};
ghost use Rattle.string_map.specs.Frozen.{Freezes, Shares};
ghost use Rattle.string_map.specs.Given.{GivesPairs, bound_at, wanted_of};
ghost use Rattle.string_map.specs.Shown.{pair_of};

use super::StringMap;
use super::codes::{ABSENT, DONE, FREED, NO_MEMORY};
use super::pairs::{Given, Pair, fill, text_bound};
use art_keyed::map::TreeMap;
use art_keys::escaped::Escaped;
use std::marker::Model;
use std::sync::Arc;

/// A handle of a map that is no longer changed, until the handle is freed.
#[derive(Drop)]
pub struct FrozenMap {
    pairs: Option<Arc<TreeMap<Escaped, u64, 16>>>,
}

/// In contracts a handle is the pairs of its map in the order of their keys, or `None` once it was freed.
impl Model for FrozenMap {
    ghost use Rattle.std.specs.Prelude.{List, Option, ℕ};

    ghost Value = { Option (List (List ℕ × ℕ)) };

    ghost use Rattle.std.specs.Arc.{arc_value};
    ghost use Rattle.std.specs.Option.{option_map};

    ghost view = { λ m. option_map arc_value m.pairs };
}

/// Returns a handle of no map, as one that was freed. It allocates nothing.
pub fn none() -> FrozenMap
    ensures { result ≡ None }
{
    FrozenMap { pairs: None }
}

/// Moves the pairs of a map to a frozen one, and leaves the map empty. Returns `DONE`, `FREED` if the map was freed, or
/// `NO_MEMORY` if an allocation fails; then the map is unchanged, and so is the handle. What the handle had is freed
/// before. It allocates once, for a few hundred bytes, and moves no pair in memory.
pub fn freeze(map: &mut StringMap, frozen: &mut FrozenMap) -> u32
    ensures { Freezes map.old frozen.old result map.new frozen.new }
{
    let Some(pairs) = map.pairs.take() else {
        return FREED;
    };
    match Arc::new(map.alloc, pairs) {
        Ok(shared) => {
            map.pairs = Some(TreeMap::new(map.alloc));
            frozen.pairs = Some(shared);
            DONE
        }
        Err(refused) => {
            map.pairs = Some(refused.value);
            NO_MEMORY
        }
    }
}

/// Makes another handle of the map. Returns `DONE`, `FREED` if the handle was freed, or `NO_MEMORY` if the map has 2^63
/// handles; then the other handle is unchanged. What the other handle had is freed before. It allocates nothing.
pub fn share(frozen: &FrozenMap, other: &mut FrozenMap) -> u32
    ensures { Shares frozen.now other.old result other.new }
{
    let Some(pairs) = &frozen.pairs else {
        return FREED;
    };
    match Arc::try_clone(pairs) {
        Ok(shared) => {
            other.pairs = Some(shared);
            DONE
        }
        Err(_) => NO_MEMORY,
    }
}

/// Frees a handle, and with the last one the map. Returns `DONE`, or `FREED` if it was freed before.
pub fn free(frozen: &mut FrozenMap) -> u32
    ensures { (frozen.new ≡ None) × (result ≡ code_of frozen.old) }
{
    match frozen.pairs.take() {
        Some(_) => DONE,
        None => FREED,
    }
}

/// Writes the number of pairs. Returns `DONE`.
pub fn len(frozen: &FrozenMap, len: &mut usize) -> u32
    ensures { Answers frozen.now (λ pairs. Some (length pairs)) result len.old len.new ×
        (result ≢ no_memory) }
{
    let Some(pairs) = &frozen.pairs else {
        return FREED;
    };
    *len = pairs.len();
    DONE
}

/// Looks up a key, and writes its value. Returns `DONE`, or `ABSENT` if the key is not stored. It allocates nothing.
pub fn get(frozen: &FrozenMap, key: &[u8], value: &mut u64) -> u32
    ensures { Answers frozen.now (value_of key.now) result value.old value.new ×
        (result ≢ no_memory) }
{
    let Some(pairs) = &frozen.pairs else {
        return FREED;
    };
    match pairs.get_text(key) {
        Some(found) => {
            *value = *found;
            DONE
        }
        None => ABSENT,
    }
}

/// Looks up the longest key that is a prefix of the query. Writes its length, and its value. Returns `DONE`, or `ABSENT`
/// if no key is one. It allocates nothing.
pub fn longest_match(frozen: &FrozenMap, query: &[u8], pair: &mut Pair) -> u32
    ensures { Answers frozen.now
        (λ pairs. option_map pair_of (last_of (strings_in_front (λ text. text) query.now pairs)))
        result pair.old pair.new × (result ≢ no_memory) }
{
    let Some(pairs) = &frozen.pairs else {
        return FREED;
    };
    match pairs.longest_match(query) {
        Some((key, value)) => {
            *pair = Pair {
                value: *value,
                key_len: key.text_len(),
            };
            DONE
        }
        None => ABSENT,
    }
}

/// Writes the pairs whose keys are between two bounds, as `next_pairs` of a map does. It allocates nothing: the keys of the
/// bounds are escaped as they are read.
pub fn next_pairs(
    frozen: &FrozenMap,
    from: &[u8],
    from_kind: u32,
    to: &[u8],
    to_kind: u32,
    is_backward: bool,
    buffer: &mut [u8],
    pairs: &mut [Pair],
    given: &mut Given,
) -> u32
    ensures { GivesPairs frozen.now
        (wanted_of (bound_at from_kind from.now) (bound_at to_kind to.now) is_backward)
        result buffer.old buffer.new pairs.old pairs.new given.old given.new }
{
    let Some(stored) = &frozen.pairs else {
        return FREED;
    };
    let range = stored.range_text(text_bound(from_kind, from), text_bound(to_kind, to));
    fill(range, is_backward, buffer, pairs, given)
}
