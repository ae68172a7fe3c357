//! What is wrong with bytes that are no snapshot, and where.
use super::bytes::{THREE, THREE_BYTES};
use super::lists::{error_of, reads};
use super::maps::flipped;
use snapshot_format::{Fault, Malformed, ReadError};
use std::alloc::Global;
use std::test::*;
use test_helpers::expected::same;
use test_helpers::streams::Pieces;

// Returns whether this is the fault, found after so many bytes.
fn is_fault(error: Option<ReadError>, at: u64, fault: Fault) -> bool {
    match error {
        Some(ReadError::Malformed(malformed)) => malformed == Malformed { at, fault },
        _ => false,
    }
}

// Returns whether the bytes of the snapshot of three entries, with another one in this place, have this fault.
fn has_fault(alloc: Global, place: usize, byte: u8, at: u64, fault: Fault) -> bool {
    let mut bytes = THREE_BYTES;
    let Some(changed) = bytes.get_mut(place) else {
        return false;
    };
    *changed = byte;
    is_fault(error_of(alloc, &bytes[..]), at, fault)
}

// Another byte in a place, and after how many bytes which fault is found.
static FAULTS: [(usize, u8, u64, Fault); 12] = [
    // The start, and the version.
    (6, b'Q', 7, Fault::NotASnapshot),
    (0, b'B', 1, Fault::NotASnapshot),
    (7, 2, 8, Fault::UnknownVersion(2)),
    // Two entries, and then no checksum.
    (8, 2, 20, Fault::WrongChecksum),
    // The first key shares a byte with none.
    (9, 1, 10, Fault::OutOfOrder),
    // "abc" shares three bytes of "ab".
    (15, 3, 16, Fault::OutOfOrder),
    // "ab" and "a" after "abc".
    (19, 1, 22, Fault::OutOfOrder),
    (21, b'a', 22, Fault::OutOfOrder),
    // A number of two bytes that needs one.
    (18, 128, 20, Fault::BadNumber),
    // A value of 128 bytes.
    (22, 255, 57, Fault::CutShort),
    // Another value, and another checksum.
    (14, b'y', 26, Fault::WrongChecksum),
    (56, 0, 57, Fault::WrongChecksum),
];

#[test]
fn faults_of_bytes(rt: HostRuntime) {
    for (place, byte, at, fault) in FAULTS {
        assert!(rt;
            has_fault(rt.alloc(), place, byte, at, fault),
            "{byte} in {place}"
        );
    }
}

// Returns whether the first bytes of the snapshot are cut short.
fn is_cut(alloc: Global, len: usize) -> bool {
    match THREE_BYTES.get(..len) {
        Some(cut) => is_fault(error_of(alloc, cut), len as u64, Fault::CutShort),
        None => false,
    }
}

#[test]
fn each_cut(rt: HostRuntime) {
    for len in 0..THREE_BYTES.len() {
        assert!(rt; is_cut(rt.alloc(), len), "{len} bytes");
    }
}

// Returns whether the bytes with a bit flipped are no snapshot.
fn is_refused(alloc: Global, place: usize, bit: u8) -> bool {
    let bytes = flipped(&THREE_BYTES, place, bit);
    matches!(error_of(alloc, &bytes[..]), Some(ReadError::Malformed(_)))
}

#[test]
fn each_bit_flipped(rt: HostRuntime) {
    for place in 0..THREE_BYTES.len() {
        for bit in [1, 2, 4, 8, 16, 32, 64, 128u8] {
            assert!(rt;
                is_refused(rt.alloc(), place, bit),
                "bit {bit} of byte {place}"
            );
        }
    }
}

// The start of a snapshot of one entry, whose key has 2^60 bytes.
static HUGE_KEY: [u8; 19] = [
    0x41, 0x52, 0x54, 0x53, 0x4e, 0x41, 0x50, 0x01, 0x01, 0x00, 0x80, 0x80, 0x80, 0x80, 0x80, 0x80,
    0x80, 0x80, 0x10,
];

// The start of one whose first entry has the key "a" and a value of 2^60 bytes.
static HUGE_VALUE: [u8; 21] = [
    0x41, 0x52, 0x54, 0x53, 0x4e, 0x41, 0x50, 0x01, 0x01, 0x00, 0x01, 0x61, 0x80, 0x80, 0x80, 0x80,
    0x80, 0x80, 0x80, 0x80, 0x10,
];

// The start of one of 2^60 entries.
static HUGE_COUNT: [u8; 17] = [
    0x41, 0x52, 0x54, 0x53, 0x4e, 0x41, 0x50, 0x01, 0x80, 0x80, 0x80, 0x80, 0x80, 0x80, 0x80, 0x80,
    0x10,
];

// An allocation of so many bytes would fail.
#[test]
fn large_numbers_allocate_nothing(rt: HostRuntime) -> Result<(), Fail> {
    let alloc = rt.alloc();
    let seen = [
        is_fault(error_of(alloc, &HUGE_KEY[..]), 19, Fault::CutShort),
        is_fault(error_of(alloc, &HUGE_VALUE[..]), 21, Fault::CutShort),
        is_fault(error_of(alloc, &HUGE_COUNT[..]), 17, Fault::CutShort),
    ];
    same(seen, [true; 3])
}

// Returns whether a byte after the snapshot is reported.
fn is_trailing(alloc: Global) -> bool {
    let mut bytes = [0u8; 58];
    let (all, _) = bytes.split_at_mut(57);
    all.copy_from_slice(&THREE_BYTES);
    is_fault(error_of(alloc, &bytes[..]), 58, Fault::TrailingBytes)
}

#[test]
fn a_byte_too_many(rt: HostRuntime) {
    assert!(rt; is_trailing(rt.alloc()));
}

// Returns whether the reader's error is reported.
fn is_reported(alloc: Global, call: u64) -> bool {
    matches!(
        error_of(alloc, Pieces::failing_at(&THREE_BYTES, call)),
        Some(ReadError::Reader(_))
    )
}

#[test]
fn failing_reads(rt: HostRuntime) {
    assert!(rt; reads(rt.alloc(), Pieces::failing_at(&THREE_BYTES, 0), &THREE));
    for call in 1..40u64 {
        assert!(rt; is_reported(rt.alloc(), call), "call {call}");
    }
}
