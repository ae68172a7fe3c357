//! What a line of input asks for.
ghost use Rattle.std.specs.Prelude.{◌≡◌, ◌≢◌, ◌==◌, ◌++◌, ◌∷◌, List, All, ◌↔◌, ◌<◌, ◌^◌, ℕ, IsTrue, IfSome, IfNone, IfOk, codes, map};
ghost use Rattle.std.specs.Fmt.{decimal};
ghost use Rattle.std.specs.List.{slice_split};
ghost use Rattle.art_engine.specs.KeyTexts.{IsByteWord, IsKeyWord, key_word};

use std::alloc::{AllocError, Global};
use std::str;
use text_lines::words::{split_word, strip};

/// A key as a line writes it: `-` for the empty one, or its bytes in decimal joined by dots. It is checked, and not
/// copied yet.
#[derive(Clone, Copy)]
pub struct KeyWord<'a> {
    pub word: &'a [u8],
    pub ghost is_key: { ∥ IsKeyWord word.now ∥₁ },
}

/// What a line asks for.
#[derive(Clone, Copy)]
pub enum Request<'a> {
    Insert(KeyWord<'a>, u32),
    Prefix(KeyWord<'a>, u32),
    Delete(KeyWord<'a>),
    First,
    Last,
    Clone,
    Find(KeyWord<'a>),
    Longest(KeyWord<'a>),
    Walk,
    Back,
    Nodes,
    Check,
}

impl<'a> KeyWord<'a> {
    /// Returns the word as a key, or `None` if it writes none.
    pub fn parse(word: &'a [u8]) -> Option<Self>
        ensures word { IfSome result (λ key. key.word.now ≡ word.now) }
        ensures none { IfNone result (¬ IsKeyWord word.now) }
    {
        if is_key_word(word) {
            Some(KeyWord { word })
        } else {
            None
        }
    }

    /// Returns the key itself. Fails if its allocation fails.
    pub fn copy(self, alloc: Global) -> Result<Vec<u8>, AllocError>
        ensures { IfOk result (λ key. self.entry.word.now ≡ key_word key.items) }
    {
        if self.word == b"-".as_slice() {
            return Ok(Vec::new(alloc));
        }
        read_bytes(alloc, self.word)
    }
}

impl<'a> Request<'a> {
    // Not at the head of the file: the struct above would import what names it.
    ghost use Rattle.art_engine.specs.CommandLines.{line_of, HasSmallValue};
    ghost use Rattle.art_engine.specs.declared.lines.Request.{Request};

    /// Returns what a line without its line feed asks for, or `None` if it is no valid request.
    pub fn parse(line: &'a [u8]) -> Option<Self>
        ensures line { IfSome result (λ request. line.now ≡ line_of request) }
        ensures small { IfSome result HasSmallValue }
        ensures none { IfNone result ((request : Request) →
            HasSmallValue request → line.now ≢ line_of request) }
    {
        if let Some(request) = Self::parse_word(line) {
            return Some(request);
        }
        if let Some(arguments) = strip(line, b"insert ") {
            let (key, value) = parse_pair(arguments)?;
            return Some(Request::Insert(key, value));
        }
        if let Some(arguments) = strip(line, b"prefix ") {
            let (key, value) = parse_pair(arguments)?;
            return Some(Request::Prefix(key, value));
        }
        if let Some(key) = strip(line, b"delete ") {
            return Some(Request::Delete(KeyWord::parse(key)?));
        }
        if let Some(key) = strip(line, b"longest ") {
            return Some(Request::Longest(KeyWord::parse(key)?));
        }
        let key = strip(line, b"find ")?;
        Some(Request::Find(KeyWord::parse(key)?))
    }

    // What a line of one word asks for.
    fn parse_word(line: &[u8]) -> Option<Self>
        ensures line { IfSome result (λ request. line.now ≡ line_of request) }
        ensures small { IfSome result HasSmallValue }
        ensures none { IfNone result (
            (line.now ≢ codes "first") × (line.now ≢ codes "last") × (line.now ≢ codes "clone")
            × (line.now ≢ codes "walk") × (line.now ≢ codes "back") × (line.now ≢ codes "nodes")
            × (line.now ≢ codes "check")) }
    {
        if line == b"first".as_slice() {
            return Some(Request::First);
        }
        if line == b"last".as_slice() {
            return Some(Request::Last);
        }
        if line == b"clone".as_slice() {
            return Some(Request::Clone);
        }
        if line == b"walk".as_slice() {
            return Some(Request::Walk);
        }
        if line == b"back".as_slice() {
            return Some(Request::Back);
        }
        if line == b"nodes".as_slice() {
            return Some(Request::Nodes);
        }
        if line == b"check".as_slice() {
            return Some(Request::Check);
        }
        None
    }
}

// A key and a value, with a space between them.
fn parse_pair(words: &[u8]) -> Option<(KeyWord<'_>, u32)>
    ensures pair { IfSome result (λ pair. words.now ≡ pair.0.word.now ++ 32 ∷ decimal pair.1) }
    ensures none { IfNone result ((key : List ℕ) (value : ℕ) → IsKeyWord key → value < 2 ^ 32 →
        words.now ≢ key ++ 32 ∷ decimal value) }
{
    let (key, value) = split_word(words)?;
    Some((KeyWord::parse(key)?, parse_number(value)?))
}

fn is_key_word(word: &[u8]) -> bool
    ensures { IsTrue result ↔ IsKeyWord word.now }
{
    word == b"-".as_slice() || has_byte_words(word)
}

// Whether each part between dots is the word for a byte.
fn has_byte_words(word: &[u8]) -> bool
    ensures { IsTrue result ↔ All IsByteWord (slice_split (λ c. c == 46) word.now) }
{
    word.split(|&character| character == b'.')
        .all(|digits| is_byte_word(digits))
}

// The bytes that are written between dots.
fn read_bytes(alloc: Global, word: &[u8]) -> Result<Vec<u8>, AllocError>
    requires { ∥ All IsByteWord (slice_split (λ c. c == 46) word.now) ∥₁ }
    ensures { IfOk result (λ key. slice_split (λ c. c == 46) word.now ≡ map decimal key.items) }
{
    let mut key = Vec::new(alloc);
    for digits in word.split(|&character| character == b'.') {
        if let Some(byte) = parse_byte(digits) {
            key.push(byte)?;
        }
    }
    Ok(key)
}

fn is_byte_word(digits: &[u8]) -> bool
    ensures { IsTrue result ↔ IsByteWord digits.now }
{
    parse_byte(digits).is_some()
}

fn parse_byte(digits: &[u8]) -> Option<u8>
    ensures value { IfSome result (λ n. digits.now ≡ decimal n) }
    ensures none { IfNone result ((n : ℕ) → n < 2 ^ 8 → digits.now ≢ decimal n) }
{
    u8::try_from(parse_number(digits)?).ok()
}

// A number in decimal, without a sign and without leading zeros.
#[tactic(auto, using(crate::proofs::Decimals::decimal_begins, crate::proofs::Decimals::decimal_unsigned, crate::proofs::Decimals::decimal_unpadded, crate::proofs::Decimals::decimal_is_utf8))]
fn parse_number(digits: &[u8]) -> Option<u32>
    ensures value { IfSome result (λ n. digits.now ≡ decimal n) }
    ensures none { IfNone result ((n : ℕ) → n < 2 ^ 32 → digits.now ≢ decimal n) }
{
    let first = *digits.first()?;
    if first == b'+' || (first == b'0' && digits.len() > 1) {
        return None;
    }
    let Ok(text) = str::from_utf8(digits) else {
        return None;
    };
    text.parse().ok()
}
