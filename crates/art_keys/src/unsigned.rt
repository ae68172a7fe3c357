//! Unsigned numbers as keys, in numerical order.
ghost use Rattle.std.specs.Prelude.{◌≡◌, ℕ, ⊤};
ghost use Rattle.std.specs.Int.{bytes_high_first};
ghost use Rattle.std.specs.Ordering.{nat_cmp, eq_by_cmp, as_partial_cmp};
ghost use Rattle.art_keys.specs.Numbers.{HasBytes, number_of};
ghost use Rattle.art_keys.specs.NumberLaws.{numbers_no_prefixes, numbers_keep_order, numbers_come_back, numbers_have_length};
ghost use Rattle.art_keys.specs.InjectiveLaws.{numbers_injective};
ghost use Rattle.std.proofs.Common.{ap, subst, sym, rules};
ghost use Rattle.std.specs.Cmp.Rules.{comparing, hashing};
ghost use Rattle.std.specs.Hash as fed;

use super::fixed::all_of;
use super::laws::{CloneBytes, DecodeBytes, FixedBytes, NoPrefixesBytes, OrderedBytes, compare};
use art_parts::bytes::AsBytes;
use std::alloc::{AllocError, Global};
use std::cmp::Ordering;
use std::hash::{Hash, Hasher};
use std::marker::Model;

/// An unsigned number of `N` bytes, the highest first. In contracts it is the number.
#[derive(Clone, Copy)]
pub struct Unsigned<const N: usize> {
    bytes: [u8; N],
}

/// The key of a `u8`.
pub type U8Key = Unsigned<1>;

/// The key of a `u16`.
pub type U16Key = Unsigned<2>;

/// The key of a `u32`.
pub type U32Key = Unsigned<4>;

/// The key of a `u64`.
pub type U64Key = Unsigned<8>;

/// The key of a `u128`.
pub type U128Key = Unsigned<16>;

impl<const N: usize> Model for Unsigned<N> {
    ghost use Rattle.std.specs.Prelude.{ℕ};
    ghost use Rattle.art_keys.specs.Numbers.{IsNumber, number_of};

    ghost Value = { ℕ };

    ghost view = { λ u. number_of u.bytes };

    ghost invariant = { λ u. IsNumber N u.bytes };

    ghost use Rattle.std.specs.Int.{bytes_high_first};
    ghost use Rattle.std.proofs.Common.{sym};

    ghost inverse = { λ n. record { bytes = bytes_high_first N n } };

    ghost inverse_ok = { λ u h i. record { bytes = sym h.is i } };
}

impl From<u8> for Unsigned<1> {
    ghost from_gives = { λ n key. key ≡ n };

    fn from(n: u8) -> Self {
        Unsigned {
            bytes: n.to_be_bytes(),
        }
    }
}

impl From<Unsigned<1>> for u8 {
    ghost from_gives = { λ key n. n ≡ key };

    fn from(key: Unsigned<1>) -> Self {
        key.get()
    }
}

impl Unsigned<1> {
    /// Returns the number.
    pub fn get(self) -> u8
        ensures { result ≡ self }
    {
        u8::from_be_bytes(self.bytes)
    }
}

impl From<u16> for Unsigned<2> {
    ghost from_gives = { λ n key. key ≡ n };

    fn from(n: u16) -> Self {
        Unsigned {
            bytes: n.to_be_bytes(),
        }
    }
}

impl From<Unsigned<2>> for u16 {
    ghost from_gives = { λ key n. n ≡ key };

    fn from(key: Unsigned<2>) -> Self {
        key.get()
    }
}

impl Unsigned<2> {
    /// Returns the number.
    pub fn get(self) -> u16
        ensures { result ≡ self }
    {
        u16::from_be_bytes(self.bytes)
    }
}

impl From<u32> for Unsigned<4> {
    ghost from_gives = { λ n key. key ≡ n };

    fn from(n: u32) -> Self {
        Unsigned {
            bytes: n.to_be_bytes(),
        }
    }
}

impl From<Unsigned<4>> for u32 {
    ghost from_gives = { λ key n. n ≡ key };

    fn from(key: Unsigned<4>) -> Self {
        key.get()
    }
}

impl Unsigned<4> {
    /// Returns the number.
    pub fn get(self) -> u32
        ensures { result ≡ self }
    {
        u32::from_be_bytes(self.bytes)
    }
}

impl From<u64> for Unsigned<8> {
    ghost from_gives = { λ n key. key ≡ n };

    fn from(n: u64) -> Self {
        Unsigned {
            bytes: n.to_be_bytes(),
        }
    }
}

impl From<Unsigned<8>> for u64 {
    ghost from_gives = { λ key n. n ≡ key };

    fn from(key: Unsigned<8>) -> Self {
        key.get()
    }
}

impl Unsigned<8> {
    /// Returns the number.
    pub fn get(self) -> u64
        ensures { result ≡ self }
    {
        u64::from_be_bytes(self.bytes)
    }
}

impl From<u128> for Unsigned<16> {
    ghost from_gives = { λ n key. key ≡ n };

    fn from(n: u128) -> Self {
        Unsigned {
            bytes: n.to_be_bytes(),
        }
    }
}

impl From<Unsigned<16>> for u128 {
    ghost from_gives = { λ key n. n ≡ key };

    fn from(key: Unsigned<16>) -> Self {
        key.get()
    }
}

impl Unsigned<16> {
    /// Returns the number.
    pub fn get(self) -> u128
        ensures { result ≡ self }
    {
        u128::from_be_bytes(self.bytes)
    }
}

impl<const N: usize> AsBytes for Unsigned<N> {
    ghost bytes = { bytes_high_first N };

    fn as_bytes(&self) -> &[u8] {
        &self.bytes[..]
    }
}

impl<const N: usize> NoPrefixesBytes for Unsigned<N> {
    ghost is_key = { HasBytes N };

    fn as_key(&self) {
        let _ = &self.bytes;
    }

    ghost no_prefixes = { numbers_no_prefixes N };

    ghost injective = { numbers_injective N };
}

impl<const N: usize> OrderedBytes for Unsigned<N> {
    ghost order = { nat_cmp };

    ghost keeps_order = { numbers_keep_order N };
}

impl<const N: usize> DecodeBytes for Unsigned<N> {
    ghost key_of = { number_of };

    ghost length_of = { λ bytes. N };

    ghost allocates_nothing = { ⊤ };

    ghost comes_back = { numbers_come_back N };

    fn key_len(bytes: &[u8]) -> usize {
        N
    }

    fn from_key_bytes(alloc: Global, bytes: &[u8]) -> Result<Self, AllocError> {
        Ok(Self::from_fixed_bytes(bytes))
    }
}

impl<const N: usize> FixedBytes for Unsigned<N> {
    ghost byte_count = { N };

    fn from_fixed_bytes(bytes: &[u8]) -> Self {
        Unsigned {
            bytes: all_of(bytes),
        }
    }

    ghost has_count = { numbers_have_length N };
}

impl<const N: usize> CloneBytes for Unsigned<N> {
    ghost keeps_bytes = { λ key copy is. ap (bytes_high_first N) is };

    ghost keeps_key = { λ key copy is of_key. subst (HasBytes N) (sym is) of_key };
}

impl<const N: usize> PartialEq for Unsigned<N> {
    ghost eq = { eq_by_cmp nat_cmp };

    ghost laws = { Prim.search (comparing, rules) };

    fn eq(&self, other: &Self) -> bool {
        compare(self, other).is_eq()
    }
}

impl<const N: usize> Eq for Unsigned<N> {
    ghost laws = { Prim.search (comparing, rules) };
}

impl<const N: usize> PartialOrd for Unsigned<N> {
    ghost partial_cmp = { as_partial_cmp nat_cmp };

    ghost laws = { Prim.search (comparing, rules) };

    fn partial_cmp(&self, other: &Self) -> Option<Ordering> {
        Some(compare(self, other))
    }
}

/// The numerical order.
impl<const N: usize> Ord for Unsigned<N> {
    ghost cmp = { nat_cmp };

    ghost total = { Prim.search (comparing, rules) };

    ghost matches_partial_cmp = { Prim.search (comparing, rules) };

    ghost matches_eq = { Prim.search (comparing, rules) };

    fn cmp(&self, other: &Self) -> Ordering {
        compare(self, other)
    }
}

impl<const N: usize> Hash for Unsigned<N> {
    ghost hash_input = { λ key. fed.slice fed.u8 (bytes_high_first N key) };

    ghost respects_eq = { Prim.search (hashing, rules) };

    fn hash<H: Hasher>(&self, state: &mut H) {
        self.as_bytes().hash(state);
    }
}
