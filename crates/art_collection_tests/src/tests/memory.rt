//! A set while every allocation fails.
use art_keyed_sets::set::TreeSet;
use art_node_support::expected::same;
use art_node_support::memory::all_memory;
use std::alloc::Global;
use std::test::Fail;

// Inserts each key of one byte.
fn fill_set(set: &mut TreeSet<[u8; 1], 4>) -> bool {
    for byte in 0..=255u8 {
        if set.insert([byte]).is_err() {
            return false;
        }
    }
    set.len() == 256
}

// Whether the first key, the last one and two others are removed.
fn are_keys_removed(set: &mut TreeSet<[u8; 1], 4>, byte: u8) -> bool {
    let taken = byte.wrapping_add(140);
    set.pop_first() == Some([byte])
        && set.pop_last() == Some([255 - byte])
        && set.remove(&[byte.wrapping_add(100)])
        && set.take(&[taken]) == Some([taken])
}

// Whether half of the keys are removed so, and then the others by a closure.
fn is_set_emptied(set: &mut TreeSet<[u8; 1], 4>) -> bool {
    let mut all = true;
    for byte in 0..32u8 {
        all = are_keys_removed(set, byte) && all;
    }
    let left = set.len();
    set.retain(|_| false);
    all && left == 128 && set.is_empty()
}

// Whether a set was filled, and was emptied while every allocation fails.
fn starve_filled_set(alloc: Global, set: &mut TreeSet<[u8; 1], 4>) -> Option<[bool; 2]> {
    let is_filled = fill_set(set);
    let held = all_memory(alloc).ok()?;
    let is_emptied = is_set_emptied(set);
    drop(held);
    Some([is_filled, is_emptied])
}

#[test]
fn without_memory_256_keys_are_removed(rt: HostRuntime) -> Result<(), Fail> {
    let seen = starve_filled_set(rt.alloc(), &mut TreeSet::new(rt.alloc()));
    same(seen, Some([true, true]))
}
