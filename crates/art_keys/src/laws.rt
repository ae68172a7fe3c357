//! The laws of key types, which are proved for each type.
ghost use Rattle.std.specs.Prelude.{◌≡◌, IfOk, IsOk, List, ℕ};
ghost use Rattle.art_keys.specs.Decoded.{BeginsWithKey, ComesBack, HaveLength, IsOfKey};
ghost use Rattle.art_keys.specs.Prefixes.{AreInjective, BeginsAs, HasNoPrefixes, IsInside, IsKept, KeepsFronts, KeepsOrder};
ghost use Rattle.art_parts.specs.Keys.{KeepBytes};
ghost use Rattle.std.specs.declared.cmp.Ordering.{Ordering};

mod encodings;

use art_parts::bytes::AsBytes;
pub use encodings::{
    escapes_come_back_in_order, joined_keys_keep_order, signed_numbers_come_back_in_order,
    unsigned_numbers_come_back_in_order,
};
use std::alloc::{AllocError, Global};
use std::cmp::Ordering;

/// Keys that never conflict: the bytes of one are a prefix of another's only if both have the same bytes.
pub trait NoPrefixesBytes: AsBytes {
    /// What holds for each value of the type.
    ghost is_key: { Self → Type 0 };

    /// Does nothing; its contract states what holds for the value.
    fn as_key(&self)
        ensures { is_key self.now };

    /// A key whose bytes are a prefix of another's has the same bytes.
    ghost no_prefixes: { HasNoPrefixes is_key Self.bytes };

    /// Keys with the same bytes are equal in contracts.
    ghost injective: { AreInjective is_key Self.bytes };
}

/// Keys whose bytes are in the order of the type.
pub trait OrderedBytes: NoPrefixesBytes {
    /// The order of the type.
    ghost order: { Self → Self → Ordering };

    /// The bytes of two keys compare as the keys do.
    ghost keeps_order: { KeepsOrder Self.is_key Self.bytes order };
}

/// Keys whose clones are keys with the same bytes.
pub trait CloneBytes: NoPrefixesBytes + Clone {
    /// A clone has the same bytes.
    ghost keeps_bytes: { KeepBytes Self.bytes Self.is_clone };

    /// What holds for a key holds for its clones.
    ghost keeps_key: { IsKept Self.is_key Self.is_clone };
}

/// Keys that are recovered from their bytes.
pub trait DecodeBytes: NoPrefixesBytes {
    /// The key with these bytes.
    ghost key_of: { List ℕ → Self };

    /// The length of the key that the bytes start with.
    ghost length_of: { List ℕ → ℕ };

    /// Holds if a key is recovered from its bytes without an allocation.
    ghost allocates_nothing: { Type 0 };

    /// Returns the length of the key that the bytes start with.
    fn key_len(bytes: &[u8]) -> usize
        requires { BeginsWithKey Self.is_key Self.bytes bytes.now }
        ensures { result ≡ length_of bytes.now };

    /// Returns the key with these bytes. Fails only if an allocation fails, and never if the type allocates nothing.
    fn from_key_bytes(alloc: Global, bytes: &[u8]) -> Result<Self, AllocError>
        requires { IsOfKey Self.is_key Self.bytes bytes.now }
        ensures key { IfOk result (λ key. key ≡ key_of bytes.now) }
        ensures succeeds { allocates_nothing → IsOk result };

    /// A key is recovered from its bytes, and its length from them and whatever follows them.
    ghost comes_back: { ComesBack Self.is_key Self.bytes key_of length_of };
}

/// Keys that all have the same length, and are recovered from their bytes without an allocation: numbers, arrays of
/// bytes, and two such keys joined into one.
pub trait FixedBytes: DecodeBytes + Copy {
    /// The length of each key.
    ghost byte_count: { ℕ };

    /// Returns the key with these bytes.
    fn from_fixed_bytes(bytes: &[u8]) -> Self
        requires { IsOfKey Self.is_key Self.bytes bytes.now }
        ensures { result ≡ Self.key_of bytes.now };

    /// Each key has this length.
    ghost has_count: { HaveLength Self.is_key Self.bytes byte_count };
}

/// Keys that represent strings of bytes. The bytes of a key are those of its string, which have no zero, and then a
/// zero.
pub trait StringBytes: OrderedBytes {
    /// The string that a key represents.
    ghost text: { Self → List ℕ };

    /// The bytes of a string, as they are in its key.
    ghost inside: { List ℕ → List ℕ };

    /// Returns the bytes of the key's string. The bytes of another key start with them exactly if its string starts
    /// with this one.
    fn beginning(&self) -> &[u8]
        ensures inside { result.now ≡ inside (text self.now) }
        ensures begins { BeginsAs Self.is_key Self.bytes text self.now result.now };

    /// The bytes of a key are those of its string, which have no zero, and then a zero.
    ghost is_inside: { IsInside Self.is_key Self.bytes text inside };

    /// The bytes of a string are a prefix of those of another one exactly if the string is a prefix of the other one.
    ghost keeps_fronts: { KeepsFronts inside };
}

/// Compares two keys in the order of their type. It compares their bytes.
pub fn compare<K: OrderedBytes>(a: &K, b: &K) -> Ordering
    ensures { result ≡ K.order a.now b.now }
{
    a.as_key();
    b.as_key();
    a.as_bytes().cmp(b.as_bytes())
}
