//! Lines that are no valid requests, each as the first one, and one that lacks its line feed.

use super::in_memory::{Calls, served};
use art_node_support::expected::same;
use std::alloc::Global;
use std::test::Fail;

static BAD_LINES: [&str; 16] = [
    "",
    "insert 01 1",
    "insert 1  1",
    "insert 1 4294967296",
    "insert 1 +1",
    "insert 1 -0",
    "insert -.1 1",
    "insert 1",
    "find 1.",
    "find .1",
    "find 256",
    "find",
    " walk",
    "walk ",
    "walk\r\r",
    "Insert 1 1",
];

/// The status after a line that ends with this feed, or `None` if other than these replies were written.
fn status_after(alloc: Global, line: &str, feed: &str, replies: &str) -> Option<u8> {
    let text = format!(in alloc; "{line}{feed}").ok()?;
    let calls = Calls::of_at_most(10_000);
    let came = served(alloc, text.as_bytes(), calls, calls);
    if came.written.as_slice() != replies.as_bytes() {
        return None;
    }
    Some(came.status)
}

/// The first line after which the status is not 2.
fn first_accepted(alloc: Global) -> Option<&'static str> {
    for line in BAD_LINES {
        if status_after(alloc, line, "\nfind 1\n", "line 1: refused\n") != Some(2) {
            return Some(line);
        }
    }
    None
}

#[test]
fn bad_lines_are_refused(rt: HostRuntime) -> Result<(), Fail> {
    same(first_accepted(rt.alloc()), None)
}

#[test]
fn the_last_line_may_lack_its_feed(rt: HostRuntime) -> Result<(), Fail> {
    let alloc = rt.alloc();
    let good = status_after(alloc, "insert 1 4294967295", "", "inserted\n");
    let bad = status_after(alloc, "find 1.", "", "line 1: refused\n");
    same([good, bad], [Some(0), Some(2)])
}
