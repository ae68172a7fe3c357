//! Strings of bytes without a zero, each ended by a zero.
ghost use Rattle.std.specs.Prelude.{◌≡◌, ◌<◌, ◌≤◌, ◌↔◌, length, IfOk, IfErr, IfSome, IsOk, IsSome, OnErr, OnOk, string_bytes, vec_capacity, Some};
ghost use Rattle.std.specs.Bool.{OnFalse, OnTrue};
ghost use Rattle.std.specs.Fmt.{WritesOnOk};
ghost use Rattle.std.specs.Str.Lossy.{utf8_lossy};
ghost use Rattle.art_keys.specs.Ended.{HasNoZero, IsEndRefusal, zero_at, ended, ended_length, without_end};
ghost use Rattle.art_keys.specs.EndedLaws.{ended_no_prefixes, ended_keeps_order, ended_comes_back};
ghost use Rattle.art_keys.specs.InjectiveLaws.{ended_injective};
ghost use Rattle.std.specs.Cmp.Lexicographic.{slice_cmp};
ghost use Rattle.std.specs.Ordering.{nat_cmp, eq_by_cmp, as_partial_cmp};
ghost use Rattle.std.proofs.Common.{refl, ap, subst, sym, rules};
ghost use Rattle.std.specs.Cmp.Rules.{comparing};
ghost use Rattle.std.specs.Hash as fed;
ghost use Rattle.art_keys.specs.HashLaws.{strings_hash};

use super::laws::{CloneBytes, DecodeBytes, NoPrefixesBytes, OrderedBytes, StringBytes, compare};
use super::short_bytes::{ShortBytes, write_quoted};
use art_parts::bytes::AsBytes;
use std::alloc::{AllocError, AllocFailed, Global};
use std::cmp::Ordering;
use std::fmt;
use std::hash::{Hash, Hasher};
use std::marker::Model;
use thiserror::Error;

/// Why no key was made of some bytes. The error returns the bytes.
#[derive(Debug, Drop, Error)]
pub enum EndError {
    /// There is a zero among the bytes.
    #[error("a zero byte stands among the bytes of the key")]
    InnerZero { text: Vec<u8> },
    /// The allocation for the byte at the end failed.
    #[error("memory allocation failed")]
    Memory { text: Vec<u8> },
}

/// Bytes without a zero, ended by a zero, so that no key is a prefix of another one. In contracts it is the bytes
/// before the end.
#[derive(Drop)]
pub struct Terminated {
    bytes: ShortBytes,
}

impl Model for Terminated {
    ghost use Rattle.std.specs.Prelude.{List, ℕ};
    ghost use Rattle.art_keys.specs.Ended.{IsEnded, without_end};

    ghost Value = { List ℕ };

    ghost view = { λ t. without_end t.bytes };

    ghost invariant = { λ t. IsEnded t.bytes };
}

impl Terminated {
    /// Returns the key of these bytes. It keeps the vector of 30 or more, and allocates only if that has no room for one
    /// more byte. It frees the vector of fewer, which need no allocation.
    ///
    /// Fails with `InnerZero` if there is a zero among the bytes, and with `Memory` if the allocation fails. Both
    /// return the bytes.
    pub fn new(text: Vec<u8>) -> Result<Self, EndError>
        ensures key { IfOk result (λ key. key ≡ text.items) }
        ensures accepted { OnOk result (HasNoZero text.items) }
        ensures refused { IfErr result (IsEndRefusal text.items) }
        ensures succeeds { length text.items < 30 → HasNoZero text.items → IsOk result }
        ensures has_room { length text.items < vec_capacity text → HasNoZero text.items → IsOk result }
    {
        if has_zero(&text) {
            return Err(EndError::InnerZero { text });
        }
        match ShortBytes::from_vec_and(text, 0) {
            Ok(bytes) => Ok(Terminated { bytes }),
            Err(failed) => Err(EndError::Memory { text: failed.value }),
        }
    }

    /// Returns what `new` does, for the bytes of a text.
    pub fn from_string(text: String) -> Result<Self, EndError>
        ensures key { IfOk result (λ key. key ≡ string_bytes text) }
        ensures accepted { OnOk result (HasNoZero (string_bytes text)) }
        ensures refused { IfErr result (IsEndRefusal (string_bytes text)) }
        ensures succeeds { length (string_bytes text) < 30 → HasNoZero (string_bytes text) → IsOk result }
    {
        Terminated::new(text.into_bytes())
    }

    /// Returns the key of a copy of these bytes, or `None` if there is a zero among them. Fails only if there is none
    /// and an allocation fails, which fewer than 30 bytes do not need.
    pub fn encode(alloc: Global, text: &[u8]) -> Result<Option<Self>, AllocError>
        ensures key { IfOk result (λ made. IfSome made (λ key. key ≡ text.now)) }
        ensures made { IfOk result (λ made. IsSome made ↔ HasNoZero text.now) }
        ensures succeeds { length text.now < 30 → IsOk result }
        ensures refused { OnErr result (HasNoZero text.now) }
    {
        if has_zero(text) {
            return Ok(None);
        }
        let bytes = ShortBytes::from_both(alloc, text, &[0])?;
        Ok(Some(Terminated { bytes }))
    }

    /// Returns what `encode` does, for the bytes of a text.
    pub fn encode_str(alloc: Global, text: &str) -> Result<Option<Self>, AllocError>
        ensures key { IfOk result (λ made. IfSome made (λ key. key ≡ text.now)) }
        ensures made { IfOk result (λ made. IsSome made ↔ HasNoZero text.now) }
        ensures succeeds { length text.now < 30 → IsOk result }
        ensures refused { OnErr result (HasNoZero text.now) }
    {
        Terminated::encode(alloc, text.as_bytes())
    }

    /// Returns the bytes before the end, none of which is zero.
    pub fn as_bytes_without_end(&self) -> &[u8]
        ensures text { result.now ≡ self.now }
        ensures no_zero { HasNoZero self.now }
    {
        let bytes = self.bytes.as_slice();
        &bytes[..bytes.len() - 1]
    }

    /// Returns the bytes before the end. Of 30 or more it returns the vector of the key, and copies fewer. Fails only if
    /// an allocation fails, and returns the key.
    pub fn into_bytes_without_end(self) -> Result<Vec<u8>, AllocFailed<Self>>
        ensures bytes { IfOk result (λ bytes. bytes.items ≡ self) }
        ensures value_returned { IfErr result (λ failed. failed.value ≡ self) }
        ensures succeeds { 30 ≤ length self → IsOk result }
    {
        match self.bytes.into_vec() {
            Ok(mut bytes) => {
                bytes.pop();
                Ok(bytes)
            }
            Err(failed) => Err(AllocFailed {
                value: Terminated {
                    bytes: failed.value,
                },
            }),
        }
    }
}

impl fmt::Debug for Terminated {
    fn fmt<W: fmt::Write>(&self, f: &mut fmt::Formatter<W>) -> fmt::Result {
        write_quoted(f, self.as_bytes_without_end())
    }
}

/// Writes the string as UTF-8 text, with U+FFFD for each invalid sequence.
impl fmt::Display for Terminated {
    ghost output = { λ text. Some (utf8_lossy text) };

    fn fmt<W: fmt::Write>(&self, f: &mut fmt::Formatter<W>) -> fmt::Result {
        write_text(f, self.as_bytes_without_end())
    }
}

// Writes bytes as UTF-8 text, with U+FFFD for each invalid sequence.
pub(crate) fn write_text<W: fmt::Write>(f: &mut fmt::Formatter<W>, bytes: &[u8]) -> fmt::Result
    ensures { WritesOnOk W.write_str_gives f.old result (utf8_lossy bytes.now) f.new }
{
    for chunk in bytes.utf8_chunks() {
        f.write_str(chunk.valid())?;
        if !chunk.invalid().is_empty() {
            f.write_str("\u{FFFD}")?;
        }
    }
    Ok(())
}

/// Returns whether one of the bytes is zero.
pub fn has_zero(bytes: &[u8]) -> bool
    ensures found { OnTrue result (¬ HasNoZero bytes.now) }
    ensures none { OnFalse result (HasNoZero bytes.now) }
{
    bytes.contains(&0)
}

// Returns the number of bytes before the first zero, or of all bytes if none is zero.
pub(crate) fn zero_at(bytes: &[u8]) -> usize
    ensures at { result ≡ zero_at bytes.now }
    ensures within { result ≤ length bytes.now }
{
    let mut count = 0;
    let mut rest = bytes;
    while let [1..=255, others @ ..] = rest {
        count += 1;
        rest = others;
    }
    count
}

impl AsBytes for Terminated {
    ghost bytes = { ended };

    fn as_bytes(&self) -> &[u8] {
        self.bytes.as_slice()
    }
}

impl NoPrefixesBytes for Terminated {
    ghost is_key = { HasNoZero };

    fn as_key(&self) {
        let _ = &self.bytes;
    }

    ghost no_prefixes = { ended_no_prefixes };

    ghost injective = { ended_injective };
}

impl OrderedBytes for Terminated {
    ghost order = { slice_cmp nat_cmp };

    ghost keeps_order = { ended_keeps_order };
}

impl StringBytes for Terminated {
    ghost text = { λ text. text };

    ghost inside = { λ text. text };

    ghost is_inside = { λ text of_text. (refl, of_text) };

    ghost keeps_fronts = { λ a b. refl };

    fn beginning(&self) -> &[u8] {
        self.as_bytes_without_end()
    }
}

impl DecodeBytes for Terminated {
    ghost key_of = { without_end };

    ghost length_of = { ended_length };

    ghost allocates_nothing = { ⊥ };

    ghost comes_back = { ended_comes_back };

    fn key_len(bytes: &[u8]) -> usize {
        zero_at(bytes) + 1
    }

    fn from_key_bytes(alloc: Global, bytes: &[u8]) -> Result<Self, AllocError> {
        Ok(Terminated {
            bytes: ShortBytes::from_slice(alloc, bytes)?,
        })
    }
}

/// Returns the same key. It cannot fail for fewer than 30 bytes before the end.
impl Clone for Terminated {
    ghost is_clone = { λ key copy. copy ≡ key };

    ghost is_infallible = { λ key. length (ended key) ≤ 30 };

    fn clone(&self) -> Result<Self, AllocError> {
        Ok(Terminated {
            bytes: self.bytes.clone()?,
        })
    }
}

impl CloneBytes for Terminated {
    ghost keeps_bytes = { λ x y e. ap ended e };

    ghost keeps_key = { λ x y e of_x. subst HasNoZero (sym e) of_x };
}

impl PartialEq for Terminated {
    ghost eq = { eq_by_cmp (slice_cmp nat_cmp) };

    ghost laws = { Prim.search (comparing, rules) };

    fn eq(&self, other: &Self) -> bool {
        compare(self, other).is_eq()
    }
}

impl Eq for Terminated {
    ghost laws = { Prim.search (comparing, rules) };
}

impl PartialOrd for Terminated {
    ghost partial_cmp = { as_partial_cmp (slice_cmp nat_cmp) };

    ghost laws = { Prim.search (comparing, rules) };

    fn partial_cmp(&self, other: &Self) -> Option<Ordering> {
        Some(compare(self, other))
    }
}

/// The lexicographic order of the bytes before the end.
impl Ord for Terminated {
    ghost cmp = { slice_cmp nat_cmp };

    ghost total = { Prim.search (comparing, rules) };

    ghost matches_partial_cmp = { Prim.search (comparing, rules) };

    ghost matches_eq = { Prim.search (comparing, rules) };

    fn cmp(&self, other: &Self) -> Ordering {
        compare(self, other)
    }
}

impl Hash for Terminated {
    ghost hash_input = { λ text. fed.slice fed.u8 (ended text) };

    ghost respects_eq = { strings_hash ended };

    fn hash<H: Hasher>(&self, state: &mut H) {
        self.as_bytes().hash(state);
    }
}
