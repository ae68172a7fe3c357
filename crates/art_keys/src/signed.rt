//! Signed numbers as keys, in numerical order.
ghost use Rattle.std.specs.Prelude.{◌≡◌, ℤ, ⊤};
ghost use Rattle.std.specs.Ordering.{int_cmp, eq_by_cmp, as_partial_cmp};
ghost use Rattle.art_keys.specs.Numbers.{HasSignedBytes, lifted, lowered, number_of, signed_bytes};
ghost use Rattle.art_keys.specs.NumberLaws.{signed_no_prefixes, signed_keep_order, signed_come_back, signed_have_length};
ghost use Rattle.art_keys.specs.InjectiveLaws.{signed_injective};
ghost use Rattle.std.proofs.Common.{ap, subst, sym, rules};
ghost use Rattle.std.specs.Cmp.Rules.{comparing, hashing};
ghost use Rattle.std.specs.Hash as fed;

use super::fixed::all_of;
use super::laws::{CloneBytes, DecodeBytes, FixedBytes, NoPrefixesBytes, OrderedBytes, compare};
use art_parts::bytes::AsBytes;
use std::alloc::{AllocError, Global};
use std::cmp::Ordering;
use std::hash::{Hash, Hasher};
use std::marker::Model;

/// A signed number of `N` bytes, the highest first, with the sign bit flipped. In contracts it is the number.
#[derive(Clone, Copy)]
pub struct Signed<const N: usize> {
    bytes: [u8; N],
}

/// The key of an `i8`.
pub type I8Key = Signed<1>;

/// The key of an `i16`.
pub type I16Key = Signed<2>;

/// The key of an `i32`.
pub type I32Key = Signed<4>;

/// The key of an `i64`.
pub type I64Key = Signed<8>;

/// The key of an `i128`.
pub type I128Key = Signed<16>;

impl<const N: usize> Model for Signed<N> {
    ghost use Rattle.std.specs.Prelude.{ℤ};
    ghost use Rattle.art_keys.specs.Numbers.{IsSignedNumber, lowered, number_of};

    ghost Value = { ℤ };

    ghost view = { λ s. lowered N (number_of s.bytes) };

    ghost invariant = { λ s. IsSignedNumber N s.bytes };

    ghost use Rattle.std.proofs.Common.{sym};
    ghost use Rattle.art_keys.specs.Numbers.{signed_bytes};

    ghost inverse = { λ z. record { bytes = signed_bytes N z } };

    ghost inverse_ok = { λ s h i. record { bytes = sym h.is i } };
}

impl From<i8> for Signed<1> {
    ghost from_gives = { λ n key. key ≡ n };

    fn from(n: i8) -> Self {
        let lifted = n.cast_unsigned().wrapping_add(1 << 7);
        Signed {
            bytes: lifted.to_be_bytes(),
        }
    }
}

impl From<Signed<1>> for i8 {
    ghost from_gives = { λ key n. n ≡ key };

    fn from(key: Signed<1>) -> Self {
        key.get()
    }
}

impl Signed<1> {
    /// Returns the number.
    pub fn get(self) -> i8
        ensures { result ≡ self }
    {
        let lifted = u8::from_be_bytes(self.bytes);
        lifted.wrapping_sub(1 << 7).cast_signed()
    }
}

impl From<i16> for Signed<2> {
    ghost from_gives = { λ n key. key ≡ n };

    fn from(n: i16) -> Self {
        let lifted = n.cast_unsigned().wrapping_add(1 << 15);
        Signed {
            bytes: lifted.to_be_bytes(),
        }
    }
}

impl From<Signed<2>> for i16 {
    ghost from_gives = { λ key n. n ≡ key };

    fn from(key: Signed<2>) -> Self {
        key.get()
    }
}

impl Signed<2> {
    /// Returns the number.
    pub fn get(self) -> i16
        ensures { result ≡ self }
    {
        let lifted = u16::from_be_bytes(self.bytes);
        lifted.wrapping_sub(1 << 15).cast_signed()
    }
}

impl From<i32> for Signed<4> {
    ghost from_gives = { λ n key. key ≡ n };

    fn from(n: i32) -> Self {
        let lifted = n.cast_unsigned().wrapping_add(1 << 31);
        Signed {
            bytes: lifted.to_be_bytes(),
        }
    }
}

impl From<Signed<4>> for i32 {
    ghost from_gives = { λ key n. n ≡ key };

    fn from(key: Signed<4>) -> Self {
        key.get()
    }
}

impl Signed<4> {
    /// Returns the number.
    pub fn get(self) -> i32
        ensures { result ≡ self }
    {
        let lifted = u32::from_be_bytes(self.bytes);
        lifted.wrapping_sub(1 << 31).cast_signed()
    }
}

impl From<i64> for Signed<8> {
    ghost from_gives = { λ n key. key ≡ n };

    fn from(n: i64) -> Self {
        let lifted = n.cast_unsigned().wrapping_add(1 << 63);
        Signed {
            bytes: lifted.to_be_bytes(),
        }
    }
}

impl From<Signed<8>> for i64 {
    ghost from_gives = { λ key n. n ≡ key };

    fn from(key: Signed<8>) -> Self {
        key.get()
    }
}

impl Signed<8> {
    /// Returns the number.
    pub fn get(self) -> i64
        ensures { result ≡ self }
    {
        let lifted = u64::from_be_bytes(self.bytes);
        lifted.wrapping_sub(1 << 63).cast_signed()
    }
}

impl From<i128> for Signed<16> {
    ghost from_gives = { λ n key. key ≡ n };

    fn from(n: i128) -> Self {
        let lifted = lift(n);
        Signed {
            bytes: lifted.to_be_bytes(),
        }
    }
}

impl From<Signed<16>> for i128 {
    ghost from_gives = { λ key n. n ≡ key };

    fn from(key: Signed<16>) -> Self {
        key.get()
    }
}

impl Signed<16> {
    /// Returns the number.
    pub fn get(self) -> i128
        ensures { result ≡ self }
    {
        lower(u128::from_be_bytes(self.bytes))
    }
}

// Returns the number plus 2^127, so that the least number becomes 0.
fn lift(n: i128) -> u128
    ensures lifted { result ≡ lifted 16 n }
    ensures fits { HasSignedBytes 16 n }
{
    n.cast_unsigned().wrapping_add(1 << 127)
}

// Returns the number minus 2^127: the inverse of `lift`.
fn lower(lifted: u128) -> i128
    ensures { result ≡ lowered 16 lifted }
{
    lifted.wrapping_sub(1 << 127).cast_signed()
}

impl<const N: usize> AsBytes for Signed<N> {
    ghost bytes = { signed_bytes N };

    fn as_bytes(&self) -> &[u8] {
        &self.bytes[..]
    }
}

impl<const N: usize> NoPrefixesBytes for Signed<N> {
    ghost is_key = { HasSignedBytes N };

    fn as_key(&self) {
        let _ = &self.bytes;
    }

    ghost no_prefixes = { signed_no_prefixes N };

    ghost injective = { signed_injective N };
}

impl<const N: usize> OrderedBytes for Signed<N> {
    ghost order = { int_cmp };

    ghost keeps_order = { signed_keep_order N };
}

impl<const N: usize> DecodeBytes for Signed<N> {
    ghost key_of = { λ bytes. lowered N (number_of bytes) };

    ghost length_of = { λ bytes. N };

    ghost allocates_nothing = { ⊤ };

    ghost comes_back = { signed_come_back N };

    fn key_len(bytes: &[u8]) -> usize {
        N
    }

    fn from_key_bytes(alloc: Global, bytes: &[u8]) -> Result<Self, AllocError> {
        Ok(Self::from_fixed_bytes(bytes))
    }
}

impl<const N: usize> FixedBytes for Signed<N> {
    ghost byte_count = { N };

    fn from_fixed_bytes(bytes: &[u8]) -> Self {
        Signed {
            bytes: all_of(bytes),
        }
    }

    ghost has_count = { signed_have_length N };
}

impl<const N: usize> CloneBytes for Signed<N> {
    ghost keeps_bytes = { λ key copy is. ap (signed_bytes N) is };

    ghost keeps_key = { λ key copy is of_key. subst (HasSignedBytes N) (sym is) of_key };
}

impl<const N: usize> PartialEq for Signed<N> {
    ghost eq = { eq_by_cmp int_cmp };

    ghost laws = { Prim.search (comparing, rules) };

    fn eq(&self, other: &Self) -> bool {
        compare(self, other).is_eq()
    }
}

impl<const N: usize> Eq for Signed<N> {
    ghost laws = { Prim.search (comparing, rules) };
}

impl<const N: usize> PartialOrd for Signed<N> {
    ghost partial_cmp = { as_partial_cmp int_cmp };

    ghost laws = { Prim.search (comparing, rules) };

    fn partial_cmp(&self, other: &Self) -> Option<Ordering> {
        Some(compare(self, other))
    }
}

/// The numerical order.
impl<const N: usize> Ord for Signed<N> {
    ghost cmp = { int_cmp };

    ghost total = { Prim.search (comparing, rules) };

    ghost matches_partial_cmp = { Prim.search (comparing, rules) };

    ghost matches_eq = { Prim.search (comparing, rules) };

    fn cmp(&self, other: &Self) -> Ordering {
        compare(self, other)
    }
}

impl<const N: usize> Hash for Signed<N> {
    ghost hash_input = { λ key. fed.slice fed.u8 (signed_bytes N key) };

    ghost respects_eq = { Prim.search (hashing, rules) };

    fn hash<H: Hasher>(&self, state: &mut H) {
        self.as_bytes().hash(state);
    }
}
