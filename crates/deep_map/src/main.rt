//! Fills a map whose tree is as deep as the argument says, and tries what reads, copies and frees all of it. Prints a
//! line for each, and ends with status 1 if a result is wrong. `tools/deep` runs it on a small stack.
#![tactic(auto)]

use art_operations::map::ByteMap;
use std::alloc::{AllocError, Global};
use std::process::ExitCode;
use std::rt::Env;
use std::{env, io};

type Map = ByteMap<Vec<u8>, usize, 4>;

// So many bytes 1, and then a 2.
fn key_below(alloc: Global, level: usize) -> Result<Vec<u8>, AllocError> {
    let mut key = Vec::new(alloc);
    for _ in 0..level {
        key.push(1)?;
    }
    key.push(2)?;
    Ok(key)
}

// Inserts a key at each level, so that there is an inner node for each but the last. Returns whether the map has them.
fn is_filled(map: &mut Map, alloc: Global, levels: usize) -> bool {
    for level in 0..levels {
        let Ok(key) = key_below(alloc, level) else {
            return false;
        };
        if map.insert(key, level).is_err() {
            return false;
        }
    }
    map.len() == levels
}

// Whether the key at the lowest level is found, first and by itself, and that of the highest last.
fn has_both_ends(map: &Map, alloc: Global, lowest: usize) -> bool {
    let Ok(key) = key_below(alloc, lowest) else {
        return false;
    };
    map.get(&key) == Some(&lowest)
        && map.first_key_value().map(|pair| *pair.1) == Some(lowest)
        && map.last_key_value().map(|pair| *pair.1) == Some(0)
}

// Whether a clone has the same pairs. The clone is dropped.
fn has_equal_clone(map: &Map) -> bool {
    match map.clone() {
        Ok(copy) => copy == *map,
        Err(_) => false,
    }
}

// Inserts a key that replaces all pairs but the last one.
fn is_overwritten(map: &mut Map, alloc: Global, lowest: usize) -> bool {
    let Ok(key) = [1].to_vec(alloc) else {
        return false;
    };
    match map.insert_over(key, 7) {
        Ok(gone) => gone == lowest && map.len() == 2,
        Err(_) => false,
    }
}

fn is_cleared(map: &mut Map) -> bool {
    map.clear();
    map.is_empty()
}

// What was tried, and whether its result was right.
fn tries(alloc: Global, lowest: usize) -> [(&'static str, bool); 8] {
    let levels = lowest.saturating_add(1);
    let mut map = ByteMap::new(alloc);
    [
        ("filled", is_filled(&mut map, alloc, levels)),
        ("both ends found", has_both_ends(&map, alloc, lowest)),
        ("cloned", has_equal_clone(&map)),
        ("cleared", is_cleared(&mut map)),
        ("filled again", is_filled(&mut map, alloc, levels)),
        ("overwritten", is_overwritten(&mut map, alloc, lowest)),
        ("cleared again", is_cleared(&mut map)),
        ("filled, to be dropped", is_filled(&mut map, alloc, levels)),
    ]
}

// The number of the lowest level: one less than the argument.
fn lowest_level(rt: &(impl Env + AllocGlobal)) -> io::Result<Option<usize>> {
    let mut args = env::args(rt)?;
    args.next();
    let Some(word) = args.next() else {
        return Ok(None);
    };
    Ok(match word.parse::<usize>() {
        Ok(levels) => levels.checked_sub(1),
        Err(_) => None,
    })
}

fn main(rt: HostRuntime) -> io::Result<ExitCode> {
    let Some(lowest) = lowest_level(&rt)? else {
        eprintln!(rt; "usage: deep_map LEVELS")?;
        return Ok(ExitCode::from(2));
    };
    let mut all_right = true;
    for (name, is_right) in tries(rt.alloc(), lowest) {
        println!(rt; "{name}: {}", if is_right { "right" } else { "WRONG" })?;
        all_right = all_right && is_right;
    }
    Ok(ExitCode::from(u8::from(!all_right)))
}
