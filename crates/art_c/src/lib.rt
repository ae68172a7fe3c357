//! A map of byte strings to numbers, for programs that are not in Rattle.
//!
//! A map lies in memory of the caller, behind a pointer without a type. A contract says what lies there before the call
//! and after it: the list of pairs of a map, or `None` after it was freed. Of a call that only reads, the contract asks
//! that the caller has lent the map, and a part of the token of the loan's lifetime: many threads may have both at once.
//! The caller has to meet each `requires`, and the conditions of the types of the parameters; nothing checks that.
#![tactic(auto)]

ghost use Rattle.std.specs.Prelude.{◌≡◌, ◌≢◌, ◌≤◌, ℕ, List, [], length, MatchOption, Option, Some, None};
ghost use base.Fml.{Lft, flft};
ghost use Rattle.std.specs.Borrow.{Share, full_share, lent_at, sem};
ghost use Rattle.std.specs.Option.{option_map};
ghost use Rattle.std.specs.Ptr.{lies_at, room_at};
ghost use Rattle.art_keyed.specs.KeyedPairs.{strings_below, strings_in_front};
ghost use Rattle.art_keys.specs.Escapes.{escape};
ghost use Rattle.art_model.specs.Pairs.{first_of, last_of, of_key, remove_key};
ghost use Rattle.string_map.specs.Building.{Finishes, Pushes};
ghost use Rattle.string_map.specs.Calls.{Answers, Changes, Inserts, code_of, done, freed, no_memory, value_of};
ghost use Rattle.string_map.specs.Frozen.{Freezes, Shares};
ghost use Rattle.string_map.specs.Given.{GivesPairs, bound_at, wanted_of};
ghost use Rattle.string_map.specs.PrefixEnds.{IsPrefixEnd};
ghost use Rattle.string_map.specs.Shown.{ShowsPair, pair_of};
ghost use Rattle.string_map.specs.contracts.StringMap.{the_row as MapRow};
ghost use Rattle.string_map.specs.contracts.building.StringMapBuilder.{the_row as BuilderRow};
ghost use Rattle.string_map.specs.contracts.frozen.FrozenMap.{the_row as FrozenRow};

use std::alloc::Global;
use string_map::StringMap;
use string_map::building::StringMapBuilder;
use string_map::frozen::FrozenMap;
use string_map::pairs::{Given, Pair};

/// Returns the size of a map in bytes. It is aligned to eight bytes.
#[unsafe(no_mangle)]
pub extern "C" fn vokujin_size() -> usize
    ensures { result ≡ 280 }
{
    std::mem::size_of::<StringMap>()
}

/// Makes an empty map in the memory of the caller. It allocates nothing.
#[unsafe(no_mangle)]
pub unsafe extern "C" fn vokujin_new(alloc: Global, map: *mut u8)
    requires* { sem 𝓛 (room_at MapRow map) }
    ensures* { sem 𝓛 (lies_at MapRow full_share map (Some [])) }
{
    let made = string_map::calls::new(alloc);
    std::ptr::write(map as *mut StringMap, made);
}

/// Frees a map. Calls on it return `VOKUJIN_FREED` from then on, until its memory is used for something else.
#[unsafe(no_mangle)]
pub unsafe extern "C" fn vokujin_free(map: *mut u8) -> u32
    ghost pairs: { Option (List (List ℕ × ℕ)) }
    requires* { sem 𝓛 (lies_at MapRow full_share map pairs) }
    ensures* { ∃ₛ λ (now : Option (List (List ℕ × ℕ))). sem 𝓛 (lies_at MapRow full_share map now) ∗
        ⌜ (now ≡ None) × (result ≡ code_of pairs) ⌝ }
{
    string_map::calls::free(&mut *(map as *mut StringMap))
}

/// Writes the number of pairs.
#[unsafe(no_mangle)]
pub unsafe extern "C" fn vokujin_len(map: *const u8, len: &mut usize) -> u32
    ghost lent: { (Lft × Share) × Option (List (List ℕ × ℕ)) }
    requires* { sem 𝓛 (lent_at MapRow map lent.1 lent.0.0) ∗ sem 𝓛 (flft lent.0.0 lent.0.1) }
    ensures* { sem 𝓛 (flft lent.0.0 lent.0.1) ∗
        ⌜ Answers lent.1 (λ all. Some (length all)) result len.old len.new × (result ≢ no_memory) ⌝ }
{
    string_map::calls::len(&*(map as *const StringMap), len)
}

/// Removes all pairs.
#[unsafe(no_mangle)]
pub unsafe extern "C" fn vokujin_clear(map: *mut u8) -> u32
    ghost pairs: { Option (List (List ℕ × ℕ)) }
    requires* { sem 𝓛 (lies_at MapRow full_share map pairs) }
    ensures* { ∃ₛ λ (now : Option (List (List ℕ × ℕ))). sem 𝓛 (lies_at MapRow full_share map now) ∗
        ⌜ (now ≡ option_map (λ _. []) pairs) × (result ≡ code_of pairs) ⌝ }
{
    string_map::calls::clear(&mut *(map as *mut StringMap))
}

/// Moves the pairs into the order of their keys in memory, so that an iteration reads memory from first to last.
#[unsafe(no_mangle)]
pub unsafe extern "C" fn vokujin_compact(map: *mut u8) -> u32
    ghost pairs: { Option (List (List ℕ × ℕ)) }
    requires* { sem 𝓛 (lies_at MapRow full_share map pairs) }
    ensures* { ∃ₛ λ (now : Option (List (List ℕ × ℕ))). sem 𝓛 (lies_at MapRow full_share map now) ∗
        ⌜ (now ≡ pairs) × (result ≢ no_memory → result ≡ code_of pairs) ⌝ }
{
    string_map::calls::compact(&mut *(map as *mut StringMap))
}

/// Looks up a key, and writes its value.
#[unsafe(no_mangle)]
pub unsafe extern "C" fn vokujin_get(map: *const u8, key: &[u8], value: &mut u64) -> u32
    ghost lent: { (Lft × Share) × Option (List (List ℕ × ℕ)) }
    requires* { sem 𝓛 (lent_at MapRow map lent.1 lent.0.0) ∗ sem 𝓛 (flft lent.0.0 lent.0.1) }
    ensures* { sem 𝓛 (flft lent.0.0 lent.0.1) ∗
        ⌜ Answers lent.1 (value_of key.now) result value.old value.new × (result ≢ no_memory) ⌝ }
{
    string_map::calls::get(&*(map as *const StringMap), key, value)
}

/// Inserts a pair. If its key is stored it returns VOKUJIN_REPLACED, and writes the value that is replaced.
#[unsafe(no_mangle)]
pub unsafe extern "C" fn vokujin_insert(
    map: *mut u8,
    key: &[u8],
    value: u64,
    replaced: &mut u64,
) -> u32
    ghost pairs: { Option (List (List ℕ × ℕ)) }
    requires* { sem 𝓛 (lies_at MapRow full_share map pairs) }
    ensures* { ∃ₛ λ (now : Option (List (List ℕ × ℕ))). sem 𝓛 (lies_at MapRow full_share map now) ∗
        ⌜ Inserts key.now value pairs result now replaced.old replaced.new ⌝ }
{
    string_map::calls::insert(&mut *(map as *mut StringMap), key, value, replaced)
}

/// Removes the pair of a key, and writes its value.
#[unsafe(no_mangle)]
pub unsafe extern "C" fn vokujin_remove(map: *mut u8, key: &[u8], value: &mut u64) -> u32
    ghost pairs: { Option (List (List ℕ × ℕ)) }
    requires* { sem 𝓛 (lies_at MapRow full_share map pairs) }
    ensures* { ∃ₛ λ (now : Option (List (List ℕ × ℕ))). sem 𝓛 (lies_at MapRow full_share map now) ∗
        ⌜ Answers pairs (value_of key.now) result value.old value.new ×
        Changes pairs (remove_key (of_key escape) (escape key.now)) result now × (result ≢ no_memory) ⌝ }
{
    string_map::calls::remove(&mut *(map as *mut StringMap), key, value)
}

/// Writes how many keys start with a prefix.
#[unsafe(no_mangle)]
pub unsafe extern "C" fn vokujin_count_prefix(
    map: *const u8,
    prefix: &[u8],
    count: &mut usize,
) -> u32
    ghost lent: { (Lft × Share) × Option (List (List ℕ × ℕ)) }
    requires* { sem 𝓛 (lent_at MapRow map lent.1 lent.0.0) ∗ sem 𝓛 (flft lent.0.0 lent.0.1) }
    ensures* { sem 𝓛 (flft lent.0.0 lent.0.1) ∗
        ⌜ Answers lent.1 (λ all. Some (length (strings_below (λ text. text) prefix.now all))) result count.old count.new × (result ≢ no_memory) ⌝ }
{
    string_map::calls::count_prefix(&*(map as *const StringMap), prefix, count)
}

/// Looks up the longest key that is a prefix of the query. Writes its length, and its value.
#[unsafe(no_mangle)]
pub unsafe extern "C" fn vokujin_longest_match(map: *const u8, query: &[u8], pair: &mut Pair) -> u32
    ghost lent: { (Lft × Share) × Option (List (List ℕ × ℕ)) }
    requires* { sem 𝓛 (lent_at MapRow map lent.1 lent.0.0) ∗ sem 𝓛 (flft lent.0.0 lent.0.1) }
    ensures* { sem 𝓛 (flft lent.0.0 lent.0.1) ∗
        ⌜ Answers lent.1 (λ all. option_map pair_of (last_of (strings_in_front (λ text. text) query.now all))) result pair.old pair.new × (result ≢ no_memory) ⌝ }
{
    string_map::calls::longest_match(&*(map as *const StringMap), query, pair)
}

/// Writes the first pair, and its key to the front of a buffer.
#[unsafe(no_mangle)]
pub unsafe extern "C" fn vokujin_first(map: *const u8, buffer: &mut [u8], pair: &mut Pair) -> u32
    ghost lent: { (Lft × Share) × Option (List (List ℕ × ℕ)) }
    requires* { sem 𝓛 (lent_at MapRow map lent.1 lent.0.0) ∗ sem 𝓛 (flft lent.0.0 lent.0.1) }
    ensures* { sem 𝓛 (flft lent.0.0 lent.0.1) ∗
        ⌜ ShowsPair lent.1 first_of result buffer.old buffer.new pair.old pair.new ⌝ }
{
    string_map::calls::first(&*(map as *const StringMap), buffer, pair)
}

/// Writes the last pair, and its key to the front of a buffer.
#[unsafe(no_mangle)]
pub unsafe extern "C" fn vokujin_last(map: *const u8, buffer: &mut [u8], pair: &mut Pair) -> u32
    ghost lent: { (Lft × Share) × Option (List (List ℕ × ℕ)) }
    requires* { sem 𝓛 (lent_at MapRow map lent.1 lent.0.0) ∗ sem 𝓛 (flft lent.0.0 lent.0.1) }
    ensures* { sem 𝓛 (flft lent.0.0 lent.0.1) ∗
        ⌜ ShowsPair lent.1 last_of result buffer.old buffer.new pair.old pair.new ⌝ }
{
    string_map::calls::last(&*(map as *const StringMap), buffer, pair)
}

/// Writes the pairs of a range, by rising keys, or backward by falling keys: as many as there is space for.
///
/// The keys are one after another at the front of the buffer; the bytes after them are not specified. A bound is a kind
/// and a key: VOKUJIN_UNBOUNDED (the key is ignored), VOKUJIN_INCLUDED or VOKUJIN_EXCLUDED. Returns VOKUJIN_DONE when
/// all pairs of the range are written, VOKUJIN_FULL when there is no space for another pair, and VOKUJIN_TOO_LONG when
/// the next key is longer than the rest of the buffer. To continue, pass the last key as an excluded bound.
#[unsafe(no_mangle)]
pub unsafe extern "C" fn vokujin_next_pairs(
    map: *const u8,
    from: &[u8],
    from_kind: u32,
    to: &[u8],
    to_kind: u32,
    is_backward: bool,
    buffer: &mut [u8],
    pairs: &mut [Pair],
    given: &mut Given,
) -> u32
    ghost lent: { (Lft × Share) × Option (List (List ℕ × ℕ)) }
    requires* { sem 𝓛 (lent_at MapRow map lent.1 lent.0.0) ∗ sem 𝓛 (flft lent.0.0 lent.0.1) }
    ensures* { sem 𝓛 (flft lent.0.0 lent.0.1) ∗
        ⌜ GivesPairs lent.1 (wanted_of (bound_at from_kind from.now) (bound_at to_kind to.now) is_backward)
        result buffer.old buffer.new pairs.old pairs.new given.old given.new ⌝ }
{
    string_map::pairs::next_pairs(
        &*(map as *const StringMap),
        from,
        from_kind,
        to,
        to_kind,
        is_backward,
        buffer,
        pairs,
        given,
    )
}

/// Turns a prefix into the end of the range of the strings that start with it, and returns the length of that end. It
/// is 0 if all strings from the prefix on start with it: that range has no end.
#[unsafe(no_mangle)]
pub extern "C" fn vokujin_prefix_end(prefix: &mut [u8]) -> usize
    ensures end { IsPrefixEnd prefix.old result prefix.new }
    ensures within { result ≤ length prefix.new }
{
    string_map::prefixes::prefix_end(prefix)
}

/// Returns the size of a builder in bytes. It is aligned to eight bytes.
#[unsafe(no_mangle)]
pub extern "C" fn vokujin_builder_size() -> usize
    ensures { result ≡ 280 }
{
    std::mem::size_of::<StringMapBuilder>()
}

/// Makes a builder without pairs in the memory of the caller. It allocates nothing.
#[unsafe(no_mangle)]
pub unsafe extern "C" fn vokujin_builder_new(alloc: Global, builder: *mut u8)
    requires* { sem 𝓛 (room_at BuilderRow builder) }
    ensures* { sem 𝓛 (lies_at BuilderRow full_share builder (Some [])) }
{
    let made = string_map::building::new(alloc);
    std::ptr::write(builder as *mut StringMapBuilder, made);
}

/// Adds a pair to a builder. Returns VOKUJIN_NOT_AFTER if the key is not after that of the last pair.
#[unsafe(no_mangle)]
pub unsafe extern "C" fn vokujin_builder_push(builder: *mut u8, key: &[u8], value: u64) -> u32
    ghost pairs: { Option (List (List ℕ × ℕ)) }
    requires* { sem 𝓛 (lies_at BuilderRow full_share builder pairs) }
    ensures* { ∃ₛ λ (now : Option (List (List ℕ × ℕ))). sem 𝓛 (lies_at BuilderRow full_share builder now) ∗
        ⌜ Pushes key.now value pairs result now ⌝ }
{
    string_map::building::push(&mut *(builder as *mut StringMapBuilder), key, value)
}

/// Moves the pairs of a builder to a map, whose own pairs are freed before. The builder is empty then.
#[unsafe(no_mangle)]
pub unsafe extern "C" fn vokujin_builder_finish(builder: *mut u8, map: *mut u8) -> u32
    ghost at: { Option (List (List ℕ × ℕ)) × Option (List (List ℕ × ℕ)) }
    requires* { sem 𝓛 (lies_at BuilderRow full_share builder at.0) ∗ sem 𝓛 (lies_at MapRow full_share map at.1) }
    ensures* { ∃ₛ λ (now : Option (List (List ℕ × ℕ)) × Option (List (List ℕ × ℕ))).
        (sem 𝓛 (lies_at BuilderRow full_share builder now.0) ∗ sem 𝓛 (lies_at MapRow full_share map now.1)) ∗
        ⌜ Finishes at.0 at.1 result now.0 now.1 ⌝ }
{
    string_map::building::finish(
        &mut *(builder as *mut StringMapBuilder),
        &mut *(map as *mut StringMap),
    )
}

/// Frees a builder. Calls on it return `VOKUJIN_FREED` from then on.
#[unsafe(no_mangle)]
pub unsafe extern "C" fn vokujin_builder_free(builder: *mut u8) -> u32
    ghost pairs: { Option (List (List ℕ × ℕ)) }
    requires* { sem 𝓛 (lies_at BuilderRow full_share builder pairs) }
    ensures* { ∃ₛ λ (now : Option (List (List ℕ × ℕ))). sem 𝓛 (lies_at BuilderRow full_share builder now) ∗
        ⌜ (now ≡ None) × (result ≡ code_of pairs) ⌝ }
{
    string_map::building::free(&mut *(builder as *mut StringMapBuilder))
}

/// Returns the size of a handle of a frozen map in bytes. It is aligned to eight bytes.
#[unsafe(no_mangle)]
pub extern "C" fn vokujin_frozen_size() -> usize
    ensures { result ≡ 16 }
{
    std::mem::size_of::<FrozenMap>()
}

/// Makes a handle of no map in the memory of the caller: calls on it return `VOKUJIN_FREED`. It allocates nothing.
#[unsafe(no_mangle)]
pub unsafe extern "C" fn vokujin_frozen_new(frozen: *mut u8)
    requires* { sem 𝓛 (room_at FrozenRow frozen) }
    ensures* { sem 𝓛 (lies_at FrozenRow full_share frozen None) }
{
    let made = string_map::frozen::none();
    std::ptr::write(frozen as *mut FrozenMap, made);
}

/// Moves the pairs of a map to a frozen map, which is not changed any more, and makes the handle one of it. The map is
/// empty then. What the handle had is freed before.
#[unsafe(no_mangle)]
pub unsafe extern "C" fn vokujin_freeze(map: *mut u8, frozen: *mut u8) -> u32
    ghost at: { Option (List (List ℕ × ℕ)) × Option (List (List ℕ × ℕ)) }
    requires* { sem 𝓛 (lies_at MapRow full_share map at.0) ∗ sem 𝓛 (lies_at FrozenRow full_share frozen at.1) }
    ensures* { ∃ₛ λ (now : Option (List (List ℕ × ℕ)) × Option (List (List ℕ × ℕ))).
        (sem 𝓛 (lies_at MapRow full_share map now.0) ∗ sem 𝓛 (lies_at FrozenRow full_share frozen now.1)) ∗
        ⌜ Freezes at.0 at.1 result now.0 now.1 ⌝ }
{
    string_map::frozen::freeze(
        &mut *(map as *mut StringMap),
        &mut *(frozen as *mut FrozenMap),
    )
}

/// Makes another handle of a frozen map. It may be passed to another thread. What the other handle had is freed before.
#[unsafe(no_mangle)]
pub unsafe extern "C" fn vokujin_frozen_share(frozen: *const u8, other: *mut u8) -> u32
    ghost at: { ((Lft × Share) × Option (List (List ℕ × ℕ))) × Option (List (List ℕ × ℕ)) }
    requires* { (sem 𝓛 (lent_at FrozenRow frozen at.0.1 at.0.0.0) ∗ sem 𝓛 (flft at.0.0.0 at.0.0.1)) ∗
        sem 𝓛 (lies_at FrozenRow full_share other at.1) }
    ensures* { ∃ₛ λ (now : Option (List (List ℕ × ℕ))).
        (sem 𝓛 (flft at.0.0.0 at.0.0.1) ∗ sem 𝓛 (lies_at FrozenRow full_share other now)) ∗
        ⌜ Shares at.0.1 at.1 result now ⌝ }
{
    string_map::frozen::share(
        &*(frozen as *const FrozenMap),
        &mut *(other as *mut FrozenMap),
    )
}

/// Frees a handle, and with the last one the frozen map. Calls on it return `VOKUJIN_FREED` from then on.
#[unsafe(no_mangle)]
pub unsafe extern "C" fn vokujin_frozen_free(frozen: *mut u8) -> u32
    ghost pairs: { Option (List (List ℕ × ℕ)) }
    requires* { sem 𝓛 (lies_at FrozenRow full_share frozen pairs) }
    ensures* { ∃ₛ λ (now : Option (List (List ℕ × ℕ))). sem 𝓛 (lies_at FrozenRow full_share frozen now) ∗
        ⌜ (now ≡ None) × (result ≡ code_of pairs) ⌝ }
{
    string_map::frozen::free(&mut *(frozen as *mut FrozenMap))
}

/// Writes the number of pairs of a frozen map.
#[unsafe(no_mangle)]
pub unsafe extern "C" fn vokujin_frozen_len(frozen: *const u8, len: &mut usize) -> u32
    ghost lent: { (Lft × Share) × Option (List (List ℕ × ℕ)) }
    requires* { sem 𝓛 (lent_at FrozenRow frozen lent.1 lent.0.0) ∗ sem 𝓛 (flft lent.0.0 lent.0.1) }
    ensures* { sem 𝓛 (flft lent.0.0 lent.0.1) ∗
        ⌜ Answers lent.1 (λ all. Some (length all)) result len.old len.new × (result ≢ no_memory) ⌝ }
{
    string_map::frozen::len(&*(frozen as *const FrozenMap), len)
}

/// Looks up a key of a frozen map, and writes its value.
#[unsafe(no_mangle)]
pub unsafe extern "C" fn vokujin_frozen_get(frozen: *const u8, key: &[u8], value: &mut u64) -> u32
    ghost lent: { (Lft × Share) × Option (List (List ℕ × ℕ)) }
    requires* { sem 𝓛 (lent_at FrozenRow frozen lent.1 lent.0.0) ∗ sem 𝓛 (flft lent.0.0 lent.0.1) }
    ensures* { sem 𝓛 (flft lent.0.0 lent.0.1) ∗
        ⌜ Answers lent.1 (value_of key.now) result value.old value.new × (result ≢ no_memory) ⌝ }
{
    string_map::frozen::get(&*(frozen as *const FrozenMap), key, value)
}

/// Looks up the longest key of a frozen map that is a prefix of the query. Writes its length, and its value.
#[unsafe(no_mangle)]
pub unsafe extern "C" fn vokujin_frozen_longest_match(
    frozen: *const u8,
    query: &[u8],
    pair: &mut Pair,
) -> u32
    ghost lent: { (Lft × Share) × Option (List (List ℕ × ℕ)) }
    requires* { sem 𝓛 (lent_at FrozenRow frozen lent.1 lent.0.0) ∗ sem 𝓛 (flft lent.0.0 lent.0.1) }
    ensures* { sem 𝓛 (flft lent.0.0 lent.0.1) ∗
        ⌜ Answers lent.1 (λ all. option_map pair_of (last_of (strings_in_front (λ text. text) query.now all))) result pair.old pair.new × (result ≢ no_memory) ⌝ }
{
    string_map::frozen::longest_match(&*(frozen as *const FrozenMap), query, pair)
}

/// Writes the pairs of a range of a frozen map, as `vokujin_next_pairs` does.
#[unsafe(no_mangle)]
pub unsafe extern "C" fn vokujin_frozen_next_pairs(
    frozen: *const u8,
    from: &[u8],
    from_kind: u32,
    to: &[u8],
    to_kind: u32,
    is_backward: bool,
    buffer: &mut [u8],
    pairs: &mut [Pair],
    given: &mut Given,
) -> u32
    ghost lent: { (Lft × Share) × Option (List (List ℕ × ℕ)) }
    requires* { sem 𝓛 (lent_at FrozenRow frozen lent.1 lent.0.0) ∗ sem 𝓛 (flft lent.0.0 lent.0.1) }
    ensures* { sem 𝓛 (flft lent.0.0 lent.0.1) ∗
        ⌜ GivesPairs lent.1 (wanted_of (bound_at from_kind from.now) (bound_at to_kind to.now) is_backward)
        result buffer.old buffer.new pairs.old pairs.new given.old given.new ⌝ }
{
    string_map::frozen::next_pairs(
        &*(frozen as *const FrozenMap),
        from,
        from_kind,
        to,
        to_kind,
        is_backward,
        buffer,
        pairs,
        given,
    )
}
