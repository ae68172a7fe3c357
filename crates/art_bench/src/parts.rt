//! The parts of the work, and what all of them need.

use std::alloc::Global;

// The parts, by the numbers that the yardstick knows them by.
pub const INSERT: usize = 0;

pub const GET: usize = 1;

pub const GET_MUT: usize = 2;

pub const MATCH: usize = 3;

pub const WALK: usize = 4;

pub const BACK: usize = 5;

pub const BELOW: usize = 6;

pub const CLONE: usize = 7;

pub const WALK_CLONE: usize = 8;

pub const DROP_CLONE: usize = 9;

pub const REMOVE: usize = 10;

pub const AGAIN: usize = 11;

pub const CLEAR: usize = 12;

pub const OVER: usize = 13;

pub const CHECK: usize = 14;

pub const COMPACT: usize = 15;

pub const WALK_COMPACT: usize = 16;

pub const STORE_INSERT: usize = 17;

pub const STORE_GET: usize = 18;

pub const STORE_REMOVE: usize = 19;

pub const RANGE: usize = 20;

pub const COUNT: usize = 21;

pub const SHORTER: usize = 22;

pub const REST: usize = 23;

/// Reports to the heap that a part begins, by a request that none can meet.
#[inline(never)]
pub fn begin(alloc: Global, part: usize) {
    let asked = (1 << 62) + part.min(REST);
    let _ = Vec::<u8>::with_capacity(alloc, asked);
}

/// Returns the bytes from one place to another, or all if there is no such part.
#[inline(always)]
pub fn between(bytes: &[u8], from: usize, to: usize) -> &[u8] {
    bytes.get(from..to).unwrap_or(bytes)
}
