//! The bytes of snapshots, which a script worked out, and reading them in pieces of any size.
use super::lists::{Row, entries_of, reads};
use snapshot_format::write_snapshot;
use std::alloc::Global;
use std::test::*;
use test_helpers::expected::same;
use test_helpers::streams::{Failing, Pieces};

pub static THREE: [(&[u8], &[u8]); 3] = [(b"ab", b"x"), (b"abc", b""), (b"b", b"yz")];

static EMPTY_KEY: [(&[u8], &[u8]); 1] = [(b"", b"")];

static NONE_BYTES: [u8; 41] = [
    0x41, 0x52, 0x54, 0x53, 0x4e, 0x41, 0x50, 0x01, 0x00, 0xe0, 0x97, 0x26, 0x5d, 0x1b, 0x9c, 0x4a,
    0xb2, 0xf8, 0x8b, 0x5a, 0x7d, 0xf8, 0x9b, 0x43, 0x9b, 0xda, 0xaf, 0x9f, 0xc9, 0xfc, 0x0d, 0x79,
    0x5c, 0xc0, 0x60, 0xcf, 0x17, 0x44, 0x9b, 0x5c, 0xe5,
];

static EMPTY_KEY_BYTES: [u8; 44] = [
    0x41, 0x52, 0x54, 0x53, 0x4e, 0x41, 0x50, 0x01, 0x01, 0x00, 0x00, 0x00, 0x16, 0x67, 0x09, 0xf1,
    0x56, 0xc3, 0x57, 0xc6, 0x9b, 0x12, 0xb4, 0xf8, 0x04, 0x49, 0x01, 0x02, 0xbb, 0x2b, 0xca, 0x20,
    0xc3, 0x7a, 0x08, 0xea, 0xc3, 0x48, 0xfe, 0xee, 0xe9, 0xab, 0x84, 0x28,
];

pub static THREE_BYTES: [u8; 57] = [
    0x41, 0x52, 0x54, 0x53, 0x4e, 0x41, 0x50, 0x01, 0x03, 0x00, 0x02, 0x61, 0x62, 0x01, 0x78, 0x02,
    0x01, 0x63, 0x00, 0x00, 0x01, 0x62, 0x02, 0x79, 0x7a, 0x4a, 0x67, 0x16, 0x58, 0xc2, 0xd7, 0xd9,
    0xf6, 0x17, 0x55, 0xe4, 0xe7, 0xa9, 0xbf, 0x9a, 0xb2, 0x64, 0x15, 0x56, 0xe4, 0x96, 0x93, 0xb7,
    0xc0, 0x20, 0x9d, 0xab, 0xda, 0x3b, 0x27, 0x45, 0xeb,
];

// Returns whether these are the bytes of the snapshot of a table.
fn is_written(alloc: Global, rows: &[Row], bytes: &[u8]) -> bool {
    let entries = entries_of(alloc, rows);
    let mut written = Vec::new(alloc);
    let is_ok = write_snapshot(alloc, &mut written, &mut entries.as_slice()).is_ok();
    is_ok && written.as_slice() == bytes
}

// Returns whether the snapshot of a table is these bytes, and is read from them, in pieces too.
fn both_ways(alloc: Global, rows: &[Row], bytes: &[u8]) -> bool {
    let mut is_read = reads(alloc, bytes, rows);
    for most in 1..9usize {
        is_read &= reads(alloc, Pieces::of_at_most(bytes, most), rows);
    }
    is_read && is_written(alloc, rows, bytes)
}

#[test]
fn bytes_of_snapshots(rt: HostRuntime) -> Result<(), Fail> {
    let alloc = rt.alloc();
    let seen = [
        both_ways(alloc, &[], &NONE_BYTES),
        both_ways(alloc, &EMPTY_KEY, &EMPTY_KEY_BYTES),
        both_ways(alloc, &THREE, &THREE_BYTES),
    ];
    same(seen, [true; 3])
}

// Returns whether the writer's error is the call's, and the writer has the bytes before it.
fn fails_at(alloc: Global, call: u64) -> bool {
    let entries = entries_of(alloc, &THREE);
    let mut output = Failing::at(alloc, call);
    let failed = write_snapshot(alloc, &mut output, &mut entries.as_slice()).is_err();
    failed && output.calls == call && THREE_BYTES.starts_with(&output.bytes)
}

// The start, three entries and the checksum are a call each.
#[test]
fn failing_writes(rt: HostRuntime) -> Result<(), Fail> {
    let alloc = rt.alloc();
    let seen = [
        fails_at(alloc, 1),
        fails_at(alloc, 2),
        fails_at(alloc, 3),
        fails_at(alloc, 4),
        fails_at(alloc, 5),
        fails_at(alloc, 6),
    ];
    same(seen, [true, true, true, true, true, false])
}
