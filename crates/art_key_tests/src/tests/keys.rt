//! Keys: their bytes, and how they are formatted.
use art_keys::escaped::Escaped;
use art_keys::signed::{I8Key, I16Key, I32Key, I64Key, I128Key};
use art_keys::terminated::{EndError, Terminated};
use art_keys::unsigned::{U8Key, U16Key, U32Key, U64Key, U128Key};
use art_parts::bytes::AsBytes;
use std::alloc::Global;
use std::fmt::{Debug, Display};
use std::test::Fail;
use test_helpers::expected::same;
use test_helpers::short::{COUNT, Short};

// Whether a key is formatted so by `Display` and then by `Debug`.
fn is_shown<K: Display + Debug + Drop>(alloc: Global, key: K, wanted: &str) -> Option<bool> {
    let text = format!(in alloc; "{key} {key:?}").ok()?;
    Some(text.as_str() == wanted)
}

fn is_escaped_shown(alloc: Global, string: &[u8], wanted: &str) -> Option<bool> {
    is_shown(alloc, Escaped::encode(alloc, string).ok()?, wanted)
}

fn is_ended_shown(alloc: Global, string: &[u8], wanted: &str) -> Option<bool> {
    is_shown(alloc, Terminated::encode(alloc, string).ok()??, wanted)
}

#[test]
fn strings_are_shown_as_text(rt: HostRuntime) -> Result<(), Fail> {
    let alloc = rt.alloc();
    let escaped = [
        is_escaped_shown(alloc, b"", " \"\""),
        is_escaped_shown(alloc, b"\0a\x01\x01", "\0a\u{1}\u{1} \"\\x00a\\x01\\x01\""),
        is_escaped_shown(
            alloc,
            b"a\xff\0b\xfe",
            "a\u{fffd}\0b\u{fffd} \"a\\xff\\x00b\\xfe\"",
        ),
        is_escaped_shown(
            alloc,
            b"\xe2\x82\0\xac",
            "\u{fffd}\0\u{fffd} \"\\xe2\\x82\\x00\\xac\"",
        ),
        is_escaped_shown(alloc, b"\xe2\x82\x01", "\u{fffd}\u{1} \"\\xe2\\x82\\x01\""),
    ];
    let ended = [
        is_ended_shown(alloc, "caf\u{e9}".as_bytes(), "caf\u{e9} \"caf\\xc3\\xa9\""),
        is_ended_shown(alloc, b"a\xffb", "a\u{fffd}b \"a\\xffb\""),
    ];
    same((escaped, ended), ([Some(true); 5], [Some(true); 2]))
}

// Whether a short string is formatted as the text that std makes of its bytes.
fn is_as_std_shows(alloc: Global, string: Short) -> Option<bool> {
    let key = Escaped::encode(alloc, string.as_slice()).ok()?;
    let own = key.to_string(alloc).ok()?;
    let text = String::from_utf8_lossy(alloc, string.as_slice()).ok()?;
    Some(own.as_str() == &*text)
}

fn count_as_std_shows(alloc: Global) -> usize {
    let mut count = 0usize;
    for number in 0..COUNT {
        let is_same = is_as_std_shows(alloc, Short::new(number)) == Some(true);
        count = count.saturating_add(is_same as usize);
    }
    count
}

#[test]
fn short_strings_are_shown_as_the_library_shows_them(rt: HostRuntime) -> Result<(), Fail> {
    same(count_as_std_shows(rt.alloc()), COUNT)
}

#[test]
fn numbers_are_shown_by_their_digits(rt: HostRuntime) -> Result<(), Fail> {
    let alloc = rt.alloc();
    let unsigned = [
        is_shown(alloc, U8Key::from(255), "255 255"),
        is_shown(alloc, U16Key::from(0), "0 0"),
        is_shown(alloc, U32Key::from(70_000), "70000 70000"),
        is_shown(alloc, U64Key::from(1 << 40), "1099511627776 1099511627776"),
        is_shown(
            alloc,
            U128Key::from(u128::MAX),
            "340282366920938463463374607431768211455 340282366920938463463374607431768211455",
        ),
    ];
    let signed = [
        is_shown(alloc, I8Key::from(-128), "-128 -128"),
        is_shown(alloc, I16Key::from(300), "300 300"),
        is_shown(alloc, I32Key::from(-1), "-1 -1"),
        is_shown(
            alloc,
            I64Key::from(i64::MIN),
            "-9223372036854775808 -9223372036854775808",
        ),
        is_shown(alloc, I128Key::from(0), "0 0"),
    ];
    same((unsigned, signed), ([Some(true); 5], [Some(true); 5]))
}

// Whether a number is padded to a width of five.
fn in_a_field(alloc: Global) -> Option<bool> {
    let key = I32Key::from(-12);
    let text = format!(in alloc; "{key:>5}|{key:05}").ok()?;
    Some(text.as_str() == "  -12|-0012")
}

#[test]
fn numbers_are_set_in_fields(rt: HostRuntime) -> Result<(), Fail> {
    same(in_a_field(rt.alloc()), Some(true))
}

// Whether an escaped string has these bytes, and is recovered, and whether three strings are plain.
fn escaped(alloc: Global) -> Option<([bool; 2], [bool; 3])> {
    let key = Escaped::encode_str(alloc, "a\0\u{1}b").ok()?;
    let string = key.decode(alloc).ok()?;
    let is_as_told = [
        key.as_bytes() == b"a\x01\x01\x01\x02b\0".as_slice(),
        string.as_slice() == b"a\0\x01b".as_slice(),
    ];
    let are_plain = [
        Escaped::is_plain(b"a\x02"),
        Escaped::is_plain(b"a\0"),
        Escaped::is_plain(b"\x01"),
    ];
    Some((is_as_told, are_plain))
}

// Whether a string has these bytes with its end, and without it.
fn ended(alloc: Global) -> Option<[bool; 2]> {
    let key = Terminated::from_string("car".to_string(alloc).ok()?).ok()?;
    let is_ended = key.as_bytes() == b"car\0".as_slice();
    let string = key.into_bytes_without_end().ok()?;
    Some([is_ended, string.as_slice() == b"car".as_slice()])
}

// Whether a zero in a string is reported, with the string.
fn is_zero_reported(alloc: Global) -> Option<bool> {
    match Terminated::new(b"c\0r".to_vec(alloc).ok()?) {
        Err(EndError::InnerZero { text }) => Some(text.as_slice() == b"c\0r".as_slice()),
        _ => Some(false),
    }
}

#[test]
fn strings_have_these_bytes(rt: HostRuntime) -> Result<(), Fail> {
    let alloc = rt.alloc();
    same(
        (escaped(alloc), ended(alloc), is_zero_reported(alloc)),
        (
            Some(([true; 2], [true, false, false])),
            Some([true; 2]),
            Some(true),
        ),
    )
}

// Whether the bytes of numbers without a sign and with one are these.
fn are_bytes_of_numbers() -> [bool; 4] {
    [
        U32Key::from(0x0102_0304).as_bytes() == [1, 2, 3, 4].as_slice(),
        I16Key::from(i16::MIN).as_bytes() == [0, 0].as_slice(),
        I16Key::from(-1).as_bytes() == [0x7f, 0xff].as_slice(),
        I16Key::from(i16::MAX).as_bytes() == [0xff, 0xff].as_slice(),
    ]
}

#[test]
fn numbers_have_the_highest_byte_first_and_the_sign_flipped() -> Result<(), Fail> {
    same(are_bytes_of_numbers(), [true; 4])
}

#[test]
fn numbers_of_all_widths_come_back() -> Result<(), Fail> {
    let unsigned = (
        U8Key::from(u8::MAX).get(),
        U16Key::from(700).get(),
        u32::from(U32Key::from(u32::MAX)),
        U64Key::from(1 << 40).get(),
        U128Key::from(1 << 100).get(),
    );
    let signed = (
        I8Key::from(-7).get(),
        I16Key::from(i16::MIN).get(),
        i32::from(I32Key::from(-70_000)),
        I64Key::from(i64::MIN).get(),
        I128Key::from(-1).get(),
    );
    same(
        (unsigned, signed),
        (
            (u8::MAX, 700, u32::MAX, 1 << 40, 1 << 100),
            (-7, i16::MIN, -70_000, i64::MIN, -1),
        ),
    )
}
