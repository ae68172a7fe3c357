//! The work on maps of strings, by texts of which no key is built but to insert it.

use crate::parts::{begin, between};
use crate::{Counts, parts};
use art_operations::hinted_map::HintedMap;
use art_operations::keys::Terminated;
use art_operations::tree_map::TreeMap;
use std::alloc::Global;

const PREFIX_LEN: usize = 16;

/// A map of strings to numbers.
pub trait TextMap {
    /// Makes a key of a text, and inserts it. Returns whether it is new.
    fn insert_new(&mut self, alloc: Global, text: &[u8], value: u32) -> bool;

    /// Returns whether a text is stored.
    fn has(&self, text: &[u8]) -> bool;

    /// Returns whether a stored text is a prefix of a text.
    fn has_match(&self, text: &[u8]) -> bool;

    /// Adds one to the value of a text, which is inserted if it is not stored.
    fn count(&mut self, alloc: Global, text: &[u8]) -> bool;

    /// Removes a text. Returns whether it was stored.
    fn remove_stored(&mut self, text: &[u8]) -> bool;

    /// Removes all texts.
    fn remove_all_texts(&mut self);
}

impl TextMap for TreeMap<Terminated, u32, PREFIX_LEN> {
    #[inline(always)]
    fn insert_new(&mut self, alloc: Global, text: &[u8], value: u32) -> bool {
        let Ok(Some(key)) = Terminated::encode(alloc, text) else {
            return false;
        };
        match self.insert(key, value) {
            Ok(replaced) => replaced.is_none(),
            Err(_) => false,
        }
    }

    #[inline(always)]
    fn has(&self, text: &[u8]) -> bool {
        self.get_text(text).is_some()
    }

    #[inline(always)]
    fn has_match(&self, text: &[u8]) -> bool {
        self.longest_match(text).is_some()
    }

    #[inline(always)]
    fn count(&mut self, alloc: Global, text: &[u8]) -> bool {
        let Ok(count) = self.get_text_or_insert(alloc, text, 0) else {
            return false;
        };
        *count = count.wrapping_add(1);
        true
    }

    #[inline(always)]
    fn remove_stored(&mut self, text: &[u8]) -> bool {
        self.remove_text(text).is_some()
    }

    fn remove_all_texts(&mut self) {
        self.clear();
    }
}

impl TextMap for HintedMap<Terminated, u32, PREFIX_LEN> {
    #[inline(always)]
    fn insert_new(&mut self, alloc: Global, text: &[u8], value: u32) -> bool {
        let Ok(Some(key)) = Terminated::encode(alloc, text) else {
            return false;
        };
        match self.insert(key, value) {
            Ok(replaced) => replaced.is_none(),
            Err(_) => false,
        }
    }

    #[inline(always)]
    fn has(&self, text: &[u8]) -> bool {
        self.get_text(text).is_some()
    }

    #[inline(always)]
    fn has_match(&self, text: &[u8]) -> bool {
        self.as_tree_map().longest_match(text).is_some()
    }

    #[inline(always)]
    fn count(&mut self, alloc: Global, text: &[u8]) -> bool {
        let Ok(count) = self.get_text_or_insert(alloc, text, 0) else {
            return false;
        };
        *count = count.wrapping_add(1);
        true
    }

    #[inline(always)]
    fn remove_stored(&mut self, text: &[u8]) -> bool {
        self.remove_text(text).is_some()
    }

    fn remove_all_texts(&mut self) {
        self.clear();
    }
}

/// Makes each call by text on all texts, part by part.
#[inline(always)]
pub fn work<M: TextMap>(
    map: &mut M,
    alloc: Global,
    texts: &[u8],
    ends: &[u64],
    asked: &[u8],
    asked_ends: &[u64],
    counts: &mut Counts,
) {
    begin(alloc, parts::INSERT);
    counts.stored = insert_all(map, alloc, texts, ends);
    begin(alloc, parts::GET);
    counts.found = get_all(map, asked, asked_ends);
    begin(alloc, parts::MATCH);
    counts.matched = match_all(map, asked, asked_ends);
    begin(alloc, parts::COUNT);
    counts.written = count_all(map, alloc, asked, asked_ends);
    begin(alloc, parts::SHORTER);
    counts.ranged = get_shorter(map, asked, asked_ends);
    begin(alloc, parts::REMOVE);
    counts.taken = remove_all(map, asked, asked_ends);
    begin(alloc, parts::REST);
    counts.again = insert_all(map, alloc, texts, ends);
    counts.more = read_more(map, asked, asked_ends);
    write_more(map, alloc, asked);
}

/// Makes a key of each text, and inserts it with its number. Returns how many were new.
#[inline(never)]
fn insert_all<M: TextMap>(map: &mut M, alloc: Global, texts: &[u8], ends: &[u64]) -> u64 {
    let (mut count, mut value, mut from) = (0u64, 0u32, 0);
    for end in ends {
        let to = *end as usize;
        let is_new = map.insert_new(alloc, between(texts, from, to), value);
        count = count.wrapping_add(u64::from(is_new));
        value = value.wrapping_add(1);
        from = to;
    }
    count
}

/// Looks each text up. Returns how many are stored.
#[inline(never)]
fn get_all<M: TextMap>(map: &M, asked: &[u8], ends: &[u64]) -> u64 {
    let (mut count, mut from) = (0u64, 0);
    for end in ends {
        let to = *end as usize;
        count = count.wrapping_add(u64::from(map.has(between(asked, from, to))));
        from = to;
    }
    count
}

/// Looks each text without its last byte up. Returns how many are stored.
#[inline(never)]
fn get_shorter<M: TextMap>(map: &M, asked: &[u8], ends: &[u64]) -> u64 {
    let (mut count, mut from) = (0u64, 0);
    for end in ends {
        let to = *end as usize;
        let is_stored = map.has(between(asked, from, to.saturating_sub(1)));
        count = count.wrapping_add(u64::from(is_stored));
        from = to;
    }
    count
}

/// Looks for the longest stored prefix of each text. Returns how many have one.
#[inline(never)]
fn match_all<M: TextMap>(map: &M, asked: &[u8], ends: &[u64]) -> u64 {
    let (mut count, mut from) = (0u64, 0);
    for end in ends {
        let to = *end as usize;
        count = count.wrapping_add(u64::from(map.has_match(between(asked, from, to))));
        from = to;
    }
    count
}

/// Adds one to the value of each text. Returns how many have one.
#[inline(never)]
fn count_all<M: TextMap>(map: &mut M, alloc: Global, asked: &[u8], ends: &[u64]) -> u64 {
    let (mut count, mut from) = (0u64, 0);
    for end in ends {
        let to = *end as usize;
        let is_counted = map.count(alloc, between(asked, from, to));
        count = count.wrapping_add(u64::from(is_counted));
        from = to;
    }
    count
}

/// Removes each text. Returns how many were stored.
#[inline(never)]
fn remove_all<M: TextMap>(map: &mut M, asked: &[u8], ends: &[u64]) -> u64 {
    let (mut count, mut from) = (0u64, 0);
    for end in ends {
        let to = *end as usize;
        let is_removed = map.remove_stored(between(asked, from, to));
        count = count.wrapping_add(u64::from(is_removed));
        from = to;
    }
    count
}

/// Makes each reading call once more, of each text. Returns how many are stored.
#[inline(never)]
fn read_more<M: TextMap>(map: &M, asked: &[u8], ends: &[u64]) -> u64 {
    let (mut count, mut from) = (0u64, 0);
    for end in ends {
        let to = *end as usize;
        let text = between(asked, from, to);
        let is_both = map.has(text) && map.has_match(text);
        count = count.wrapping_add(u64::from(is_both));
        from = to;
    }
    count
}

/// Makes each writing call once more.
#[inline(never)]
fn write_more<M: TextMap>(map: &mut M, alloc: Global, text: &[u8]) {
    map.count(alloc, text);
    map.remove_stored(text);
    map.remove_all_texts();
}
