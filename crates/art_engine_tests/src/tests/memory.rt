//! Out of memory for the buffers.

use super::in_memory::{Calls, served};
use art_node_support::expected::same;
use art_node_support::memory::all_memory;
use std::alloc::{AllocError, Global};
use std::test::Fail;

/// The status, and how many reads and writes there were, where every allocation fails.
fn served_without_memory(alloc: Global) -> Result<(u8, u64, u64), AllocError> {
    let held = all_memory(alloc)?;
    let calls = Calls::of_at_most(10_000);
    let came = served(alloc, b"find 1\n", calls, calls);
    drop(held);
    Ok((came.status, came.reads, came.writes))
}

#[test]
fn without_memory_nothing_is_read(rt: HostRuntime) -> Result<(), Fail> {
    same(served_without_memory(rt.alloc())?, (1, 0, 0))
}
