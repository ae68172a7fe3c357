//! Values of each type: their bytes, which a script worked out, and bytes that are those of no value.
use super::maps::{has_bad_entry, is_kept, is_read, put};
use art_keyed::map::TreeMap;
use art_keys::unsigned::U32Key;
use art_snapshots::SnapshotValue;
use std::alloc::Global;
use std::test::*;
use test_helpers::expected::same;

// Returns whether the value is read from the bytes.
fn comes_from<V: SnapshotValue + PartialEq + Drop>(alloc: Global, value: &V, bytes: &[u8]) -> bool {
    match V::from_snapshot(alloc, bytes) {
        Ok(Some(read)) => read == *value,
        _ => false,
    }
}

// Returns whether the bytes of a value are these, and the value is read from them.
fn both_ways<V: SnapshotValue + PartialEq + Drop>(alloc: Global, value: V, bytes: &[u8]) -> bool {
    let mut written = Vec::new(alloc);
    let is_ok = value.append_bytes(&mut written).is_ok();
    is_ok && written.as_slice() == bytes && comes_from(alloc, &value, bytes)
}

// Returns whether the bytes are those of no value.
fn is_none<V: SnapshotValue + Drop>(alloc: Global, bytes: &[u8]) -> bool {
    matches!(V::from_snapshot(alloc, bytes), Ok(None))
}

#[test]
fn numbers_and_arrays(rt: HostRuntime) -> Result<(), Fail> {
    let alloc = rt.alloc();
    let seen = [
        both_ways(alloc, 255u8, b"\xff"),
        both_ways(alloc, 258u16, b"\x01\x02"),
        both_ways(alloc, 0xdeadbeefu32, b"\xde\xad\xbe\xef"),
        both_ways(alloc, (1u64 << 63) + 5, b"\x80\0\0\0\0\0\0\x05"),
        both_ways(
            alloc,
            0x0123_4567_89ab_cdef_fedc_ba98_7654_3210u128,
            b"\x01\x23\x45\x67\x89\xab\xcd\xef\xfe\xdc\xba\x98\x76\x54\x32\x10",
        ),
        both_ways(alloc, -1i8, b"\xff"),
        both_ways(alloc, -2i16, b"\xff\xfe"),
        both_ways(alloc, 300i16, b"\x01\x2c"),
        both_ways(alloc, i32::MIN, b"\x80\0\0\0"),
        both_ways(alloc, -9i64, b"\xff\xff\xff\xff\xff\xff\xff\xf7"),
        both_ways(
            alloc,
            -3i128,
            b"\xff\xff\xff\xff\xff\xff\xff\xff\xff\xff\xff\xff\xff\xff\xff\xfd",
        ),
        both_ways(alloc, i128::MIN, b"\x80\0\0\0\0\0\0\0\0\0\0\0\0\0\0\0"),
        both_ways(alloc, *b"abc", b"abc"),
        both_ways(alloc, *b"", b""),
    ];
    same(seen, [true; 14])
}

// Returns whether bytes are those of a value if there are so many of them.
fn has_length<V: SnapshotValue + Drop>(alloc: Global, length: usize) -> bool {
    let bytes = [1u8; 17];
    let mut is_right = true;
    for len in 0..18usize {
        is_right &= is_none::<V>(alloc, &bytes[..len]) == (len != length);
    }
    is_right
}

#[test]
fn numbers_of_other_lengths(rt: HostRuntime) -> Result<(), Fail> {
    let alloc = rt.alloc();
    let seen = [
        has_length::<u8>(alloc, 1),
        has_length::<i16>(alloc, 2),
        has_length::<i64>(alloc, 8),
        has_length::<u128>(alloc, 16),
        has_length::<[u8; 3]>(alloc, 3),
        has_length::<()>(alloc, 0),
    ];
    same(seen, [true; 6])
}

// Returns whether the bytes of a text are its own, and it is read from them.
fn is_text(alloc: Global, text: &str) -> bool {
    match String::from_str(alloc, text) {
        Ok(value) => both_ways(alloc, value, text.as_bytes()),
        Err(_) => false,
    }
}

#[test]
fn texts(rt: HostRuntime) -> Result<(), Fail> {
    let alloc = rt.alloc();
    let seen = [
        is_text(alloc, ""),
        is_text(alloc, "na\u{ef}ve"),
        is_text(alloc, "a\0b"),
        is_text(alloc, "\u{10ffff}"),
        // A byte of none, a character that is cut short, a long form of 0, a surrogate, and a number above all
        // characters.
        is_none::<String>(alloc, b"a\xff"),
        is_none::<String>(alloc, b"a\xc3"),
        is_none::<String>(alloc, b"\xc0\x80"),
        is_none::<String>(alloc, b"\xed\xa0\x80"),
        is_none::<String>(alloc, b"\xf4\x90\x80\x80"),
    ];
    same(seen, [true; 9])
}

static TEXTS_BYTES: [u8; 69] = [
    0x41, 0x52, 0x54, 0x53, 0x4e, 0x41, 0x50, 0x01, 0x03, 0x00, 0x04, 0x00, 0x00, 0x00, 0x03, 0x06,
    0x6e, 0x61, 0xc3, 0xaf, 0x76, 0x65, 0x02, 0x02, 0x01, 0x02, 0x00, 0x00, 0x04, 0xff, 0xff, 0xff,
    0xff, 0x03, 0xe2, 0x82, 0xac, 0x5f, 0x37, 0xf1, 0x44, 0xbc, 0x8e, 0x8e, 0x9e, 0xf1, 0x91, 0x47,
    0xbe, 0x26, 0x3f, 0xb6, 0x2b, 0x0e, 0xec, 0xc1, 0x13, 0xcd, 0x56, 0xf5, 0x97, 0xef, 0x99, 0xbd,
    0x6d, 0xb8, 0xc2, 0x64, 0x23,
];

// A value is "na", the bytes c3 28, and "ve".
static BAD_TEXT_BYTES: [u8; 54] = [
    0x41, 0x52, 0x54, 0x53, 0x4e, 0x41, 0x50, 0x01, 0x01, 0x00, 0x04, 0x00, 0x00, 0x00, 0x03, 0x06,
    0x6e, 0x61, 0xc3, 0x28, 0x76, 0x65, 0x37, 0x0e, 0x6d, 0x0e, 0x6e, 0x67, 0xbd, 0x1a, 0x6c, 0x3b,
    0x1e, 0xfe, 0xef, 0x0d, 0xc3, 0x24, 0xbc, 0x28, 0x37, 0x8a, 0x71, 0xde, 0x0f, 0x96, 0xeb, 0x78,
    0xe0, 0x97, 0x35, 0x4c, 0x9f, 0x72,
];

static ARRAYS_BYTES: [u8; 55] = [
    0x41, 0x52, 0x54, 0x53, 0x4e, 0x41, 0x50, 0x01, 0x02, 0x00, 0x03, 0x01, 0x02, 0x03, 0x02, 0xff,
    0xfe, 0x02, 0x01, 0xff, 0x02, 0x01, 0x2c, 0x34, 0x68, 0x7c, 0xf4, 0x00, 0xd9, 0x00, 0xa4, 0xe8,
    0xc1, 0x1d, 0x17, 0x70, 0x56, 0xed, 0xd3, 0x1f, 0x0e, 0x38, 0x7f, 0xca, 0xaa, 0x2e, 0xdc, 0x50,
    0x2b, 0x46, 0xff, 0x88, 0x01, 0x69, 0xcb,
];

fn map_of_texts(alloc: Global) -> TreeMap<U32Key, String, 10> {
    let mut map = TreeMap::new(alloc);
    for (key, text) in [(258u32, ""), (u32::MAX, "\u{20ac}"), (3, "na\u{ef}ve")] {
        put(
            &mut map,
            Some(U32Key::from(key)),
            String::from_str(alloc, text).ok(),
        );
    }
    map
}

fn map_of_arrays(alloc: Global) -> TreeMap<[u8; 3], i16, 10> {
    let mut map = TreeMap::new(alloc);
    for (key, value) in [([1, 2, 255u8], 300i16), ([1, 2, 3], -2)] {
        put(&mut map, Some(key), Some(value));
    }
    map
}

#[test]
fn maps_of_texts_and_arrays(rt: HostRuntime) -> Result<(), Fail> {
    let alloc = rt.alloc();
    let seen = [
        is_kept(alloc, map_of_texts(alloc), &TEXTS_BYTES, 16),
        has_bad_entry::<U32Key, String>(alloc, &BAD_TEXT_BYTES),
        is_read::<U32Key, Vec<u8>>(alloc, &BAD_TEXT_BYTES),
        is_kept(alloc, map_of_arrays(alloc), &ARRAYS_BYTES, 15),
        is_read::<[u8; 3], [u8; 2]>(alloc, &ARRAYS_BYTES),
        has_bad_entry::<[u8; 3], [u8; 3]>(alloc, &ARRAYS_BYTES),
        has_bad_entry::<[u8; 4], i16>(alloc, &ARRAYS_BYTES),
    ];
    same(seen, [true; 7])
}
