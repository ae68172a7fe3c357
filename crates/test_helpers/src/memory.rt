//! Out of memory.
use std::alloc::{AllocError, Global};

/// Allocates all memory that there is: until the result is dropped, every allocation fails.
///
/// It reserves addresses and touches next to none of them, in some thousands of requests. An assertion that prints
/// needs memory, so drop the result first.
pub fn all_memory(alloc: Global) -> Result<Vec<Vec<u8>>, AllocError> {
    let mut held = Vec::with_capacity(alloc, 200_000)?;
    let mut size = 1usize << 46;
    for _ in 0..200_000 {
        if size == 0 {
            break;
        }
        match Vec::<u8>::with_capacity(alloc, size) {
            Ok(block) => {
                if held.push(block).is_err() {
                    break;
                }
            }
            Err(_) => size = if size > 4096 {
                size / 2
            } else {
                size.saturating_sub(8)
            },
        }
    }
    Ok(held)
}

// A request for so many bytes is a signal to tools/refuse.c, which has the same numbers.
const BEGIN: usize = 12_345_679;

const END: usize = 12_345_677;

/// Signals to tools/refusals that the call under test begins: in a test named `refused_each_..` it counts allocations,
/// and makes one fail, only from now on. Elsewhere this does nothing.
pub fn begin_refusals(alloc: Global) {
    drop(Vec::<u8>::with_capacity(alloc, BEGIN));
}

/// Signals to tools/refusals that the call under test is over: from now on it makes none fail, and counts none. Where
/// no allocation is made to fail this does nothing.
pub fn end_refusals(alloc: Global) {
    drop(Vec::<u8>::with_capacity(alloc, END));
}
