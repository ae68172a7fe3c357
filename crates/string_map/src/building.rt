//! A map that is built from pairs in the order of their keys. A key is compared with the last one alone, so building a map
//! takes less time than inserting its pairs.
ghost use Rattle.std.specs.Prelude.{◌≡◌, ◌≢◌, ◌++◌, ◌∷◌, [], None, Some};
ghost use Rattle.string_map.specs.Building.{Finishes, IsNotAfter, Pushes, not_after};
ghost use Rattle.string_map.specs.Calls.{code_of, done, no_memory};
ghost use Rattle.art_loading.specs.declared.append.AppendReason.TheVariants.{Memory};

use super::StringMap;
use super::codes::{DONE, FREED, NO_MEMORY, NOT_AFTER};
use art_building::byte_map::AppendReason;
use art_building::tree_map::TreeMapBuilder;
use art_keys::escaped::Escaped;
use std::alloc::Global;
use std::marker::Model;

/// A map that is being built, until it is freed. Any string of bytes is a key, also the empty one.
#[derive(Drop)]
pub struct StringMapBuilder {
    pairs: Option<TreeMapBuilder<Escaped, u64, 16>>,
    alloc: Global,
}

/// In contracts a builder is its pairs in the order of their keys, or `None` once it was freed.
impl Model for StringMapBuilder {
    ghost use Rattle.std.specs.Prelude.{List, Option, ℕ};

    ghost Value = { Option (List (List ℕ × ℕ)) };

    ghost view = { λ m. m.pairs };
}

/// Returns a builder with no pairs. It allocates nothing.
pub fn new(alloc: Global) -> StringMapBuilder
    ensures { result ≡ Some [] }
{
    StringMapBuilder {
        pairs: Some(TreeMapBuilder::new(alloc)),
        alloc,
    }
}

/// Adds a pair whose key is after all others. Returns `DONE`, `NOT_AFTER` if the key is not after the last one, or
/// `NO_MEMORY` if an allocation fails; then the builder is unchanged.
pub fn push(builder: &mut StringMapBuilder, key: &[u8], value: u64) -> u32
    ensures { Pushes key.now value builder.old result builder.new }
{
    let Some(pairs) = &mut builder.pairs else {
        return FREED;
    };
    let Ok(key) = Escaped::encode(builder.alloc, key) else {
        return NO_MEMORY;
    };
    push_key(pairs, key, value)
}

// Adds the pair of a key.
fn push_key(pairs: &mut TreeMapBuilder<Escaped, u64, 16>, key: Escaped, value: u64) -> u32
    ensures pushed { result ≡ done → pairs.new ≡ pairs.old ++ (key, value) ∷ [] }
    ensures kept { result ≢ done → pairs.new ≡ pairs.old }
    ensures fails { result ≢ no_memory → result ≢ not_after → result ≡ done }
    ensures order { result ≡ not_after → IsNotAfter key pairs.old }
{
    match pairs.push(key, value) {
        Ok(()) => DONE,
        Err(error) => code_of_reason(error.reason),
    }
}

// The code of a pair that was not added.
fn code_of_reason(reason: AppendReason) -> u32
    ensures memory { reason ≡ Memory → result ≡ no_memory }
    ensures order { reason ≢ Memory → result ≡ not_after }
{
    match reason {
        AppendReason::Memory => NO_MEMORY,
        _ => NOT_AFTER,
    }
}

/// Moves the pairs to a map, and leaves the builder empty. Returns `DONE`, or `FREED` if the builder was freed; then the
/// map is unchanged. What the map had is freed before. It allocates nothing, and moves no pair in memory.
pub fn finish(builder: &mut StringMapBuilder, map: &mut StringMap) -> u32
    ensures { Finishes builder.old map.old result builder.new map.new }
{
    let Some(pairs) = builder.pairs.take() else {
        return FREED;
    };
    builder.pairs = Some(TreeMapBuilder::new(builder.alloc));
    map.pairs = Some(pairs.finish());
    DONE
}

/// Frees a builder. Returns `DONE`, or `FREED` if it was freed before.
pub fn free(builder: &mut StringMapBuilder) -> u32
    ensures { (builder.new ≡ None) × (result ≡ code_of builder.old) }
{
    match builder.pairs.take() {
        Some(_) => DONE,
        None => FREED,
    }
}
