//! Strings that are prefixes of others: the longest one, all of them, and calls by text.
ghost use Rattle.std.specs.Prelude.{◌<◌};

use super::shared::{put, read, taken, value_of, word};
use art_keyed::map::{Matches, TextRefused, TreeMap};
use art_keys::escaped::Escaped;
use art_keys::laws::StringBytes;
use art_keys::terminated::Terminated;
use std::alloc::Global;
use std::test::Fail;
use test_helpers::expected::same;
use test_helpers::numbers::Numbers;
use test_helpers::short::{COUNT, Short};

type Texts<const P: usize> = TreeMap<Terminated, u32, P>;

type Bytes<const P: usize> = TreeMap<Escaped, u32, P>;

// ---- directories, with the numbers from 1 on

static MOUNTS: [&str; 7] = [
    "",
    "/",
    "/home/",
    "/home/alice/projects/deep/directory/",
    "/home/alice/projects/deep/directory/inner/",
    "/home/alice/projects/deep/directory/other/",
    "/var/lib/",
];

// Inserts them, and returns whether all are new.
fn mount<const P: usize>(map: &mut Texts<P>, alloc: Global) -> bool
    requires { P < 256 }
{
    let mut value = 0u32;
    let mut are_new = true;
    for text in &MOUNTS {
        value = value.wrapping_add(1);
        are_new &= put(map, word(alloc, text.as_bytes()), value) == Some(None);
    }
    are_new
}

// The value of the longest string that is a prefix of a text, or 0.
fn longest<const P: usize>(map: &Texts<P>, text: &str) -> u32 {
    value_of(map.longest_match(text.as_bytes())).unwrap_or(0)
}

static PATHS: [&str; 9] = [
    "/etc/passwd",
    "/home/alice/projects/deep/dirXctory/inner/file",
    "/homX/alice/projects/deep/directory/inner/file",
    "/home/alice/projects/deep/directory/inner/file",
    "/home/alice/projects/deep/directory/inXer/file",
    "/home/alice/projects/deep/directory/",
    "/home/alice/projects/deep/directory",
    "home/alice",
    "",
];

// The same for nine texts.
fn longest_of_nine<const P: usize>(map: &Texts<P>) -> [u32; 9] {
    let mut values = [0u32; 9];
    let mut at = 0usize;
    for text in &PATHS {
        if at < 9 {
            values[at] = longest(map, text);
        }
        at = at.saturating_add(1);
    }
    values
}

fn mounted<const P: usize>(alloc: Global) -> (bool, [u32; 9])
    requires { P < 256 }
{
    let mut map: Texts<P> = TreeMap::new(alloc);
    (mount(&mut map, alloc), longest_of_nine(&map))
}

#[test]
fn paths_are_matched_by_the_longest_mount(rt: HostRuntime) -> Result<(), Fail> {
    let alloc = rt.alloc();
    same(
        [
            mounted::<0>(alloc),
            mounted::<4>(alloc),
            mounted::<64>(alloc),
        ],
        [(true, [2, 3, 2, 5, 4, 4, 3, 1, 1]); 3],
    )
}

// Which turns of two take a pair from the front.
const FROM_FRONT: [bool; 2] = [true, true];

const FROM_BACK: [bool; 2] = [false, false];

const IN_TURN: [bool; 2] = [true, false];

// A number that the values of all matches make: each is added to the number before it, times a factor.
fn digest<K: StringBytes + Drop, const P: usize>(
    mut matches: Matches<'_, '_, K, u32, P>,
    turns: [bool; 2],
    (first, factor): (u32, u32),
) -> u32 {
    let mut digest = first;
    for turn in 0..64usize {
        let next = if turns[turn % 2] {
            matches.next()
        } else {
            matches.next_back()
        };
        let Some((_, value)) = next else {
            return digest;
        };
        digest = digest.wrapping_mul(factor).wrapping_add(*value);
    }
    0
}

// The values of the matches of a text, as digits.
fn digits(map: &Texts<2>, text: &[u8]) -> u32 {
    digest(map.matches(text), FROM_FRONT, (0, 10))
}

// The value of the shortest match, or 0.
fn shortest(map: &Texts<2>, text: &[u8]) -> u32 {
    value_of(map.shortest_match(text)).unwrap_or(0)
}

// How many of three texts are stored.
fn count_stored(map: &Texts<2>) -> usize {
    let mut count = map.contains_text(b"/home/") as usize;
    count = count.saturating_add(map.contains_text(b"/home") as usize);
    count.saturating_add(map.contains_text(b"/home/\0") as usize)
}

// The value of a text as it is removed, or 0.
fn removed(map: &mut Texts<2>, text: &[u8]) -> u32 {
    taken(map.remove_text(text)).unwrap_or(0)
}

#[test]
fn all_mounts_of_a_path_come_in_order(rt: HostRuntime) -> Result<(), Fail> {
    let mut map = TreeMap::new(rt.alloc());
    let mounted = mount(&mut map, rt.alloc());
    let matches = [
        digits(&map, b"/home/alice/projects/deep/directory/inner/file"),
        digits(&map, b"/home\0/alice"),
        shortest(&map, b"/home\0/alice"),
        digits(&map, b""),
    ];
    let stored = count_stored(&map);
    let removed = [removed(&mut map, b"/home/"), removed(&mut map, b"/home/")];
    same(
        (mounted, matches, stored, removed, map.len()),
        (true, [12_345, 12, 1, 1], 1, [3, 0], 6),
    )
}

// ---- random strings, with their lengths as values

// A string with each byte repeated, so that prefixes get long.
fn stretched(alloc: Global, string: Short, times: usize) -> Option<Vec<u8>> {
    let mut bytes = Vec::new(alloc);
    for byte in string.as_slice() {
        for _ in 0..times {
            bytes.push(*byte).ok()?;
        }
    }
    Some(bytes)
}

// A random query: a string with repeated bytes, which may be cut, and other bytes after it.
fn query(alloc: Global, numbers: &mut Numbers, number: usize, times: usize) -> Option<Vec<u8>> {
    let mut query = stretched(alloc, Short::new(number), times)?;
    if numbers.below(4) == 0 {
        let len = numbers.below(query.len().saturating_add(1));
        query.truncate(len);
        query.push(7).ok()?;
    }
    if numbers.is_heads() {
        query.push(numbers.byte()).ok()?;
    }
    Some(query)
}

// Whether a new string is inserted into a map and a list.
fn put_both<const P: usize>(
    map: &mut Bytes<P>,
    list: &mut Vec<Vec<u8>>,
    alloc: Global,
    string: Vec<u8>,
) -> bool
    requires { P < 256 }
{
    let len = u32::try_from(string.len()).unwrap_or(u32::MAX);
    let key = Escaped::encode(alloc, &string).ok();
    put(map, key, len) == Some(None) && list.push(string).is_ok()
}

// Inserts random strings, and returns whether all are new.
fn draw<const P: usize>(
    map: &mut Bytes<P>,
    list: &mut Vec<Vec<u8>>,
    alloc: Global,
    numbers: &mut Numbers,
    times: usize,
) -> bool
    requires { P < 256 }
{
    let mut are_new = true;
    for number in 0..COUNT {
        if number < 2 || numbers.below(4) == 0 {
            match stretched(alloc, Short::new(number), times) {
                Some(string) => are_new &= put_both(map, list, alloc, string),
                None => return false,
            }
        }
    }
    are_new
}

// The longest match, the shortest one, and numbers that all make from the front, from the back, and from both ends in
// turn.
type Seen = [u32; 5];

fn added(digest: u32, len: u32) -> u32 {
    digest.wrapping_mul(37).wrapping_add(len)
}

// Those of a list: the lengths of the strings that are prefixes of a query, which differ.
fn expected(list: &[Vec<u8>], query: &[u8]) -> Seen {
    let mut is_match = [false; 64];
    for string in list {
        if string.len() < 64 && query.starts_with(string.as_slice()) {
            is_match[string.len()] = true;
        }
    }
    seen_of(is_match)
}

fn seen_of(is_match: [bool; 64]) -> Seen {
    let (mut longest, mut shortest) = (u32::MAX, u32::MAX);
    let (mut front, mut back) = (1u32, 1u32);
    for len in 0..64u32 {
        if is_match[len as usize] {
            front = added(front, len);
            shortest = shortest.min(len);
            longest = len;
        }
        if is_match[63 - len as usize] {
            back = added(back, 63 - len);
        }
    }
    [longest, shortest, front, back, front_and_back(is_match)]
}

fn front_and_back(is_match: [bool; 64]) -> u32 {
    let (mut from, mut to, mut digest) = (0usize, 64usize, 1u32);
    let mut from_front = true;
    for _ in 0..64 {
        if from >= to || to > 64 {
            return digest;
        }
        let at = if from_front { from } else { to - 1 };
        if from_front {
            from = at + 1;
        } else {
            to = at;
        }
        if is_match[at] {
            digest = added(digest, at as u32);
            from_front = !from_front;
        }
    }
    digest
}

fn seen<const P: usize>(map: &Bytes<P>, query: &Escaped) -> Seen
    requires { P < 256 }
{
    [
        value_of(map.longest_match_key(query)).unwrap_or(u32::MAX),
        value_of(map.shortest_match_key(query)).unwrap_or(u32::MAX),
        digest(map.matches_key(query), FROM_FRONT, (1, 37)),
        digest(map.matches_key(query), FROM_BACK, (1, 37)),
        digest(map.matches_key(query), IN_TURN, (1, 37)),
    ]
}

// Whether a map and a list agree on a query, which is a key of the map too.
fn agree<const P: usize>(map: &Bytes<P>, list: &[Vec<u8>], query: &[u8], key: &Escaped) -> bool
    requires { P < 256 }
{
    let by_text = value_of(map.longest_match(query)).unwrap_or(u32::MAX);
    let seen = seen(map, key);
    seen == expected(list, query) && by_text == seen[0]
}

// Whether they agree on a query that is made.
fn agree_on<const P: usize>(
    map: &Bytes<P>,
    list: &[Vec<u8>],
    alloc: Global,
    query: Option<Vec<u8>>,
) -> bool
    requires { P < 256 }
{
    let Some(query) = query else {
        return false;
    };
    match Escaped::encode(alloc, &query) {
        Ok(key) => agree(map, list, &query, &key),
        Err(_) => false,
    }
}

// Whether random strings are inserted, and on how many random queries a map and a list then agree.
fn count_agreed<const P: usize>(
    map: &mut Bytes<P>,
    list: &mut Vec<Vec<u8>>,
    alloc: Global,
    seed: u64,
    times: usize,
) -> (bool, usize)
    requires { P < 256 }
{
    let mut numbers = Numbers::new(seed);
    let are_new = draw(map, list, alloc, &mut numbers, times);
    let mut count = 0usize;
    for number in 0..COUNT {
        let query = query(alloc, &mut numbers, number, times);
        count = count.saturating_add(agree_on(map, list, alloc, query) as usize);
    }
    (are_new, count)
}

fn agreed<const P: usize>(alloc: Global, seed: u64, times: usize) -> (bool, usize)
    requires { P < 256 }
{
    count_agreed::<P>(
        &mut TreeMap::new(alloc),
        &mut Vec::new(alloc),
        alloc,
        seed,
        times,
    )
}

#[test]
fn drawn_strings_are_matched_as_in_a_list(rt: HostRuntime) -> Result<(), Fail> {
    let alloc = rt.alloc();
    same(
        [
            agreed::<0>(alloc, 1, 1),
            agreed::<2>(alloc, 2, 5),
            agreed::<4>(alloc, 3, 3),
            agreed::<16>(alloc, 4, 9),
        ],
        [(true, COUNT); 4],
    )
}

// ---- words that are counted

// Counts a word.
fn count_word(map: &mut Texts<2>, alloc: Global, word: &[u8]) -> bool {
    let Ok(count) = map.get_text_or_insert(alloc, word, 0) else {
        return false;
    };
    *count = count.wrapping_add(1);
    true
}

fn count_words(map: &mut Texts<2>, alloc: Global) -> bool {
    let mut are_counted = true;
    for word in [b"to", b"be", b"to", b"or", b"to"] {
        are_counted &= count_word(map, alloc, word.as_slice());
    }
    are_counted
}

// Whether an insertion by a text with a zero returns its value.
fn is_zero_told(map: &mut Texts<2>, alloc: Global) -> bool {
    match map.get_text_or_insert(alloc, b"a\0b", 7) {
        Err(TextRefused::InnerZero { value }) => value == 7,
        _ => false,
    }
}

// Adds to the value of the longest match of a text, if there is one.
fn add_to_longest(map: &mut Texts<2>, text: &[u8], more: u32) -> bool {
    let Some(value) = map.longest_match_mut(text) else {
        return false;
    };
    *value = value.wrapping_add(more);
    true
}

// Writes the value of a text, if it is stored.
fn write(map: &mut Texts<2>, text: &[u8], to: u32) -> bool {
    let Some(value) = map.get_text_mut(text) else {
        return false;
    };
    *value = to;
    true
}

// The value of the longest match of a text as it is removed, or 0.
fn take_longest(map: &mut Texts<2>, text: &[u8]) -> u32 {
    taken(map.remove_longest_match(text)).unwrap_or(0)
}

fn value_at(map: &Texts<2>, text: &[u8]) -> u32 {
    match map.get_text(text) {
        Some(value) => *value,
        None => 0,
    }
}

// How many words start with a text, how many of them are removed, and how many are left.
fn removed_below(map: &mut Texts<2>) -> [usize; 3] {
    let below = read(map.prefix_text(b"t")).0;
    [below, map.remove_prefix_text(b"t"), map.len()]
}

type ByTexts = ([bool; 2], [bool; 4], [u32; 3], [usize; 3]);

// Whether words are counted and a zero is told, whether each of four values is written, the values of two words and that
// of a third one as it is removed, and what is removed below a text.
fn by_texts(map: &mut Texts<2>, alloc: Global) -> ByTexts {
    let counted = [count_words(map, alloc), is_zero_told(map, alloc)];
    let written = [
        add_to_longest(map, b"total", 10),
        add_to_longest(map, b"t", 10),
        write(map, b"or", 5),
        write(map, b"o", 5),
    ];
    let values = [
        value_at(map, b"to"),
        value_at(map, b"be"),
        take_longest(map, b"ordinary"),
    ];
    (counted, written, values, removed_below(map))
}

#[test]
fn words_are_counted_by_their_texts(rt: HostRuntime) -> Result<(), Fail> {
    let seen = by_texts(&mut TreeMap::new(rt.alloc()), rt.alloc());
    same(
        seen,
        ([true; 2], [true, false, true, false], [13, 1, 5], [1, 1, 1]),
    )
}

// ---- words of any bytes

// Counts a word of any bytes.
fn count_any(map: &mut Bytes<4>, alloc: Global, word: &[u8]) -> bool {
    let Ok(count) = map.get_text_or_insert(alloc, word, 0) else {
        return false;
    };
    *count = count.wrapping_add(1);
    true
}

fn count_all(map: &mut Bytes<4>, alloc: Global) -> bool {
    let mut are_counted = true;
    for word in [b"a\0", b"ab", b"a\0", b"b\x01", b"ab", b"a\0"] {
        are_counted &= count_any(map, alloc, word.as_slice());
    }
    are_counted
}

// Sets the value of a word, and returns whether it is stored.
fn set_word(map: &mut Bytes<4>, word: &[u8], to: u32) -> bool {
    let Some(value) = map.get_text_mut(word) else {
        return false;
    };
    *value = to;
    true
}

// The values of two words, and whether they are found by two other calls.
fn found(map: &Bytes<4>) -> ([Option<u32>; 2], [bool; 3]) {
    let values = [map.get_text(b"a\0").copied(), map.get_text(b"ab").copied()];
    let are_there = [
        map.contains_text(b"a\0"),
        map.contains_text(b"a"),
        map.get_key_value_text(b"b\x01").is_some(),
    ];
    (values, are_there)
}

// How many words start with a text, how many of two are removed, how many that start with each of two texts, and how many
// are left.
fn taken_below(map: &mut Bytes<4>) -> [usize; 5] {
    let below = read(map.prefix_text(b"a")).0;
    let stored = taken(map.remove_text(b"b\x01")).is_some() as usize;
    let other = taken(map.remove_text(b"b\0")).is_some() as usize;
    let ended = map.remove_prefix_text(b"a\0");
    let gone = map.remove_prefix_text(b"a");
    [below, stored + other, ended, gone, map.len()]
}

#[test]
fn words_of_any_bytes_are_counted(rt: HostRuntime) -> Result<(), Fail> {
    let mut map = TreeMap::new(rt.alloc());
    let are_counted = count_all(&mut map, rt.alloc());
    let set = [
        set_word(&mut map, b"ab", 12),
        set_word(&mut map, b"a", 1),
        set_word(&mut map, b"a\0", 4),
        set_word(&mut map, b"a\x01", 5),
    ];
    let found = found(&map);
    same(
        (are_counted, set, found, taken_below(&mut map)),
        (
            true,
            [true, false, true, false],
            ([Some(4), Some(12)], [true, false, true]),
            [2, 1, 1, 1, 0],
        ),
    )
}
