//! Strings of any bytes, escaped so that no key is a prefix of another one. The keys are in the order of the strings.
ghost use Rattle.std.specs.Prelude.{◌≡◌, ℕ, List, ◌+◌, ◌<◌, ◌≤◌, ◌++◌, [], ◌∷◌, length, IfOk, IfSome, IsOk, MatchOption, OnOk, ⊤};
ghost use Rattle.std.specs.Bool.{OnFalse, OnTrue};
ghost use Rattle.std.specs.Cmp.Lexicographic.{slice_cmp};
ghost use Rattle.std.specs.Ordering.{nat_cmp, eq_by_cmp, as_partial_cmp};
ghost use Rattle.art_keys.specs.Escapes.{IsPlain, escape, escape_byte, unescape, escape_inside};
ghost use Rattle.art_keys.specs.EscapeLaws.{escape_no_prefixes, escape_keeps_order, escape_is, escape_keeps_fronts, inside_no_zero, escape_comes_back};
ghost use Rattle.art_keys.specs.InjectiveLaws.{escape_injective};
ghost use Rattle.art_keys.specs.Ended.{ended_length};
ghost use Rattle.std.proofs.Common.{ap, rules};
ghost use Rattle.std.specs.Cmp.Rules.{comparing};
ghost use Rattle.std.specs.Hash as fed;
ghost use Rattle.art_keys.specs.HashLaws.{strings_hash};

use super::laws::{CloneBytes, DecodeBytes, NoPrefixesBytes, OrderedBytes, StringBytes, compare};
use super::short_bytes::ShortBytes;
use super::terminated::{write_text, zero_at};
use art_parts::bytes::AsBytes;
use std::alloc::{AllocError, Global};
use std::cmp::Ordering;
use std::fmt;
use std::hash::{Hash, Hasher};
use std::marker::Model;

mod write;

/// Any string of bytes as a key. The bytes of the key are those of the string, with 0 escaped as `1 1` and 1 as `1 2`,
/// and then a zero. In contracts it is the string.
#[derive(Drop)]
pub struct Escaped {
    bytes: ShortBytes,
}

impl Model for Escaped {
    ghost use Rattle.std.specs.Prelude.{List, ℕ};
    ghost use Rattle.art_keys.specs.Escapes.{IsEscape, unescape};

    ghost Value = { List ℕ };

    ghost view = { λ e. unescape e.bytes };

    ghost invariant = { λ e. IsEscape e.bytes };
}

impl Escaped {
    /// Returns the key of a string. It allocates once, for as many bytes as the key has, and fails only if that
    /// allocation fails. A key of at most 30 bytes needs none.
    pub fn encode(alloc: Global, text: &[u8]) -> Result<Self, AllocError>
        ensures key { IfOk result (λ key. key ≡ text.now) }
        ensures succeeds { length (escape text.now) ≤ 30 → IsOk result }
    {
        if Escaped::is_plain(text) {
            return plain_key(alloc, text);
        }
        let mut bytes = ShortBytes::with_capacity(alloc, escape_len(text))?;
        for byte in text {
            push_escaped(&mut bytes, *byte)?;
        }
        bytes.push(0)?;
        Ok(Escaped { bytes })
    }

    /// Returns what `encode` does, for the bytes of a text.
    pub fn encode_str(alloc: Global, text: &str) -> Result<Self, AllocError>
        ensures key { IfOk result (λ key. key ≡ text.now) }
        ensures succeeds { length (escape text.now) ≤ 30 → IsOk result }
    {
        Escaped::encode(alloc, text.as_bytes())
    }

    /// Returns whether no byte of a string is 0 or 1. The escape of such a string is the string and a zero.
    pub fn is_plain(text: &[u8]) -> bool
        ensures yes { OnTrue result (IsPlain text.now) }
        ensures no { OnFalse result (¬ IsPlain text.now) }
    {
        let mut is_plain = true;
        for byte in text {
            is_plain &= *byte > 1;
        }
        is_plain
    }

    /// Returns the string. It allocates once, for as many bytes as the string has, and fails only if that allocation
    /// fails.
    pub fn decode(&self, alloc: Global) -> Result<Vec<u8>, AllocError>
        ensures { IfOk result (λ text. text.items ≡ self.now) }
    {
        let mut text = Vec::with_capacity(alloc, self.text_len())?;
        let mut rest = self.bytes.as_slice();
        while let Some((byte, others)) = first_escaped(rest) {
            text.push(byte)?;
            rest = others;
        }
        Ok(text)
    }
}

// Returns the key of a string that has no byte to escape. Fails only if an allocation fails, which fewer than 30 bytes
// do not need.
fn plain_key(alloc: Global, text: &[u8]) -> Result<Escaped, AllocError>
    requires { IsPlain text.now }
    ensures key { IfOk result (λ key. key ≡ text.now) }
    ensures succeeds { length (escape text.now) ≤ 30 → IsOk result }
{
    let bytes = ShortBytes::from_both(alloc, text, &[0])?;
    Ok(Escaped { bytes })
}

impl fmt::Debug for Escaped {
    fn fmt<W: fmt::Write>(&self, f: &mut fmt::Formatter<W>) -> fmt::Result {
        f.write_str("\"")?;
        let mut rest = self.bytes.as_slice();
        while let Some((byte, others)) = first_escaped(rest) {
            let shown = byte.escape_ascii();
            write!(f, "{shown}")?;
            rest = others;
        }
        f.write_str("\"")
    }
}

/// Writes the string as UTF-8 text, with U+FFFD for each invalid sequence.
impl fmt::Display for Escaped {
    fn fmt<W: fmt::Write>(&self, f: &mut fmt::Formatter<W>) -> fmt::Result {
        let mut rest = self.beginning();
        // A byte 0 or 1 is a character of its own, so the bytes between two of them are written by themselves.
        while let Some((plain, escaped, others)) = split_at_escape(rest) {
            write_text(f, plain)?;
            f.write_str(escaped)?;
            rest = others;
        }
        write_text(f, rest)
    }
}

// Returns the bytes before the first escape, the character that was escaped, and the bytes after the escape; `None` if
// there is no escape.
fn split_at_escape(bytes: &[u8]) -> Option<(&[u8], &'static str, &[u8])>
    ensures { IfSome result (λ parts. length parts.2.now < length bytes.now) }
{
    let at = bytes.iter().position(|byte| *byte == 1)?;
    let (plain, escape) = bytes.split_at(at);
    match escape {
        [_, 1, others @ ..] => Some((plain, "\0", others)),
        [_, _, others @ ..] => Some((plain, "\u{1}", others)),
        _ => None,
    }
}

// Returns the first byte of the string that was escaped, and the bytes after its escape; `None` at the end.
fn first_escaped(bytes: &[u8]) -> Option<(u8, &[u8])>
    ensures byte { MatchOption result (unescape bytes.now ≡ [])
        (λ first. unescape bytes.now ≡ first.0 ∷ unescape first.1.now) }
    ensures rest { IfSome result (λ first. length first.1.now < length bytes.now) }
{
    match bytes {
        [] | [0, ..] | [1] => None,
        [1, 1, rest @ ..] => Some((0, rest)),
        [1, _, rest @ ..] => Some((1, rest)),
        [byte, rest @ ..] => Some((*byte, rest)),
    }
}

// Returns the length of the escape of a string, with its end.
fn escape_len(text: &[u8]) -> usize
    ensures { result ≡ length (escape text.now) }
{
    let mut len = 1;
    for byte in text {
        len += escape_byte_len(*byte);
    }
    len
}

// Returns the length of the escape of a byte.
fn escape_byte_len(byte: u8) -> usize
    ensures len { result ≡ length (escape_byte byte) }
    ensures small { result ≤ 2 }
{
    match byte {
        0 | 1 => 2,
        _ => 1,
    }
}

// Appends the escape of a byte. Fails only if an allocation fails, which up to 30 bytes do not need.
fn push_escaped(bytes: &mut ShortBytes, byte: u8) -> Result<(), AllocError>
    ensures ok { OnOk result (bytes.new ≡ bytes.old ++ escape_byte byte) }
    ensures succeeds { length bytes.old + length (escape_byte byte) ≤ 30 → IsOk result }
{
    match byte {
        0 | 1 => {
            bytes.push(1)?;
            bytes.push(byte + 1)
        }
        _ => bytes.push(byte),
    }
}

impl AsBytes for Escaped {
    ghost bytes = { escape };

    fn as_bytes(&self) -> &[u8] {
        self.bytes.as_slice()
    }
}

impl NoPrefixesBytes for Escaped {
    ghost is_key = { λ text. ⊤ };

    fn as_key(&self) {}

    ghost no_prefixes = { escape_no_prefixes };

    ghost injective = { escape_injective };
}

impl OrderedBytes for Escaped {
    ghost order = { slice_cmp nat_cmp };

    ghost keeps_order = { escape_keeps_order };
}

impl StringBytes for Escaped {
    ghost text = { λ text. text };

    ghost inside = { escape_inside };

    ghost is_inside = { λ text of_text. (escape_is text, inside_no_zero text) };

    ghost keeps_fronts = { escape_keeps_fronts };

    fn beginning(&self) -> &[u8] {
        match self.bytes.as_slice().split_last() {
            Some((_, inside)) => inside,
            None => &[],
        }
    }
}

impl DecodeBytes for Escaped {
    ghost key_of = { unescape };

    ghost length_of = { ended_length };

    ghost allocates_nothing = { ⊥ };

    ghost comes_back = { escape_comes_back };

    fn key_len(bytes: &[u8]) -> usize {
        zero_at(bytes) + 1
    }

    fn from_key_bytes(alloc: Global, bytes: &[u8]) -> Result<Self, AllocError> {
        Ok(Escaped {
            bytes: ShortBytes::from_slice(alloc, bytes)?,
        })
    }
}

/// Returns the same key. It cannot fail for a key of at most 30 bytes.
impl Clone for Escaped {
    ghost is_clone = { λ key copy. copy ≡ key };

    ghost is_infallible = { λ key. length (escape key) ≤ 30 };

    fn clone(&self) -> Result<Self, AllocError> {
        Ok(Escaped {
            bytes: self.bytes.clone()?,
        })
    }
}

impl CloneBytes for Escaped {
    ghost keeps_bytes = { λ x y e. ap escape e };

    ghost keeps_key = { λ x y e of_x. of_x };
}

impl PartialEq for Escaped {
    ghost eq = { eq_by_cmp (slice_cmp nat_cmp) };

    ghost laws = { Prim.search (comparing, rules) };

    fn eq(&self, other: &Self) -> bool {
        compare(self, other).is_eq()
    }
}

impl Eq for Escaped {
    ghost laws = { Prim.search (comparing, rules) };
}

impl PartialOrd for Escaped {
    ghost partial_cmp = { as_partial_cmp (slice_cmp nat_cmp) };

    ghost laws = { Prim.search (comparing, rules) };

    fn partial_cmp(&self, other: &Self) -> Option<Ordering> {
        Some(compare(self, other))
    }
}

/// The lexicographic order of the strings.
impl Ord for Escaped {
    ghost cmp = { slice_cmp nat_cmp };

    ghost total = { Prim.search (comparing, rules) };

    ghost matches_partial_cmp = { Prim.search (comparing, rules) };

    ghost matches_eq = { Prim.search (comparing, rules) };

    fn cmp(&self, other: &Self) -> Ordering {
        compare(self, other)
    }
}

impl Hash for Escaped {
    ghost hash_input = { λ key. fed.slice fed.u8 (escape key) };

    ghost respects_eq = { strings_hash escape };

    fn hash<H: Hasher>(&self, state: &mut H) {
        self.as_bytes().hash(state);
    }
}
