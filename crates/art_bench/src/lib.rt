//! Work on maps for tools/bench, which gives the keys, keeps the time and counts instructions and memory. Each call of
//! a map that is measured has several callers here, as it has in programs.
#![tactic(auto)]

use art_operations::hinted_map::HintedMap;
use art_operations::tree_map::TreeMap;
use std::alloc::Global;
use std::hash::RandomState;
use std::io;
use std::random::RandomSource;

mod byte_map;
mod kit_map;
mod parts;
mod store_calls;
mod text_map;

/// How many keys or pairs each part gave.
#[repr(C)]
#[derive(Drop)]
pub struct Counts {
    pub stored: u64,
    pub found: u64,
    pub written: u64,
    pub matched: u64,
    pub walked: u64,
    pub back: u64,
    pub below: u64,
    pub ranged: u64,
    pub cloned: u64,
    pub taken: u64,
    pub again: u64,
    pub over: u64,
    pub compacted: u64,
    pub more: u64,
}

/// Works on a `ByteMap`: with all keys, with the same in another order, and with some prefixes.
#[unsafe(no_mangle)]
pub extern "C" fn bench_byte_map(
    alloc: Global,
    keys: &[u8],
    ends: &[u64],
    asked: &[u8],
    asked_ends: &[u64],
    prefixes: &[u8],
    prefix_ends: &[u64],
    counts: &mut Counts,
) {
    byte_map::work(
        alloc,
        keys,
        ends,
        asked,
        asked_ends,
        prefixes,
        prefix_ends,
        counts,
    );
}

/// Works on the kit's `BTreeMap`, with the same keys.
#[unsafe(no_mangle)]
pub extern "C" fn bench_kit_map(
    alloc: Global,
    keys: &[u8],
    ends: &[u64],
    asked: &[u8],
    asked_ends: &[u64],
    counts: &mut Counts,
) {
    kit_map::work(alloc, keys, ends, asked, asked_ends, counts);
}

/// Works on a tree in a store, with the same keys.
#[unsafe(no_mangle)]
pub extern "C" fn bench_store(
    alloc: Global,
    keys: &[u8],
    ends: &[u64],
    asked: &[u8],
    asked_ends: &[u64],
    counts: &mut Counts,
) {
    store_calls::work(alloc, keys, ends, asked, asked_ends, counts);
}

/// Works on a map of strings by text, with the same keys without the zero that ends each.
#[unsafe(no_mangle)]
pub extern "C" fn bench_text_map(
    alloc: Global,
    texts: &[u8],
    ends: &[u64],
    asked: &[u8],
    asked_ends: &[u64],
    counts: &mut Counts,
) {
    let mut map = TreeMap::new(alloc);
    text_map::work(&mut map, alloc, texts, ends, asked, asked_ends, counts);
}

/// Works on such a map with hints.
#[unsafe(no_mangle)]
pub extern "C" fn bench_hinted_map(
    alloc: Global,
    texts: &[u8],
    ends: &[u64],
    asked: &[u8],
    asked_ends: &[u64],
    counts: &mut Counts,
) {
    let Ok(state) = RandomState::new(&Fixed) else {
        return;
    };
    let mut map = HintedMap::new(alloc, state);
    text_map::work(&mut map, alloc, texts, ends, asked, asked_ends, counts);
}

// The same keys of a hash at each run.
struct Fixed;

impl RandomSource for Fixed {
    fn fill_bytes(&self, buf: &mut [u8]) -> io::Result<()> {
        for byte in buf {
            *byte = 0xA5;
        }
        Ok(())
    }
}
