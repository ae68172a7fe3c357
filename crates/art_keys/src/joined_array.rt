//! Two keys of fixed lengths joined into one, in an array.
ghost use Rattle.std.specs.Prelude.{◌≡◌, ◌+◌, ◌++◌, length, ⊤};
ghost use Rattle.art_keys.specs.Joins.{joined_bytes, AreKeysOf, pair_cmp, joined_length, parted};
ghost use Rattle.art_keys.specs.JoinLaws.{joins_no_prefixes, joins_keep_order, arrays_come_back};
ghost use Rattle.art_keys.specs.InjectiveLaws.{joins_injective};
ghost use Rattle.std.proofs.Common.{ap, subst, sym, rules};
ghost use Rattle.std.specs.Cmp.Rules.{comparing};
ghost use Rattle.std.specs.Cmp.Lexicographic.{slice_cmp};
ghost use Rattle.std.specs.Ordering.{eq_by_cmp, nat_cmp, on, as_partial_cmp};
ghost use Rattle.std.specs.Hash as fed;
ghost use Rattle.art_keys.specs.HashLaws.{bytes_hash};

use super::fixed::all_of;
use super::laws::{CloneBytes, DecodeBytes, FixedBytes, NoPrefixesBytes, OrderedBytes};
use super::short_bytes::write_quoted;
use art_parts::bytes::AsBytes;
use std::alloc::{AllocError, Global};
use std::cmp::Ordering;
use std::fmt;
use std::hash::{Hash, Hasher};
use std::marker::{Model, PhantomData};

/// Two keys as one, in an array: the bytes of the first key, and then those of the second one. `N` is the number of
/// bytes of both. It allocates nothing. In contracts it is the pair of them.
pub struct JoinedArray<A: FixedBytes, B: FixedBytes, const N: usize> {
    bytes: [u8; N],
    of: PhantomData<(A, B)>,
}

impl<A: FixedBytes, B: FixedBytes, const N: usize> Model for JoinedArray<A, B, N> {
    ghost use Rattle.std.specs.Coded.{coded×};

    ghost Value = { A × B };

    ghost coded = { coded× A.code B.code };

    ghost use Rattle.art_keys.specs.Decoded.{AreOwn};
    ghost use Rattle.art_keys.specs.Joins.{AreKeysOf, joined_bytes, parted};

    ghost view = { λ j. parted A.key_of A.length_of B.key_of j.bytes };

    ghost invariant = { λ j.
        AreOwn (AreKeysOf N A.is_key A.bytes B.is_key B.bytes) (joined_bytes A.bytes B.bytes)
        (parted A.key_of A.length_of B.key_of) j.bytes };

    ghost use Rattle.std.proofs.Common.{sym};

    ghost inverse = { λ pair. record {
      bytes = joined_bytes A.bytes B.bytes pair;
      of = record {};
    } };

    ghost inverse_ok = { λ j h i. record { bytes = sym h.is i; of = j.of } };
}

impl<A: FixedBytes + Drop, B: FixedBytes + Drop, const N: usize> JoinedArray<A, B, N> {
    /// Returns the key of two keys, which together must have `N` bytes.
    pub fn join(first: &A, second: &B) -> Self
        requires { A.byte_count + B.byte_count ≡ N }
        ensures { result ≡ (first.now, second.now) }
    {
        first.as_key();
        second.as_key();
        JoinedArray {
            bytes: two_in_one(first.as_bytes(), second.as_bytes()),
            of: PhantomData,
        }
    }

    /// Returns the first key.
    pub fn first(&self) -> A
        ensures { result ≡ self.now.0 }
    {
        let bytes = &self.bytes[..];
        A::from_fixed_bytes(&bytes[..A::key_len(bytes)])
    }

    /// Returns the second key.
    pub fn second(&self) -> B
        ensures { result ≡ self.now.1 }
    {
        let bytes = &self.bytes[..];
        B::from_fixed_bytes(&bytes[A::key_len(bytes)..])
    }

    /// Returns the two keys.
    pub fn split(&self) -> (A, B)
        ensures { result ≡ self.now }
    {
        (self.first(), self.second())
    }
}

/// Writes the bytes in quotes, escaped as by `escape_ascii`.
impl<A: FixedBytes, B: FixedBytes, const N: usize> fmt::Debug for JoinedArray<A, B, N> {
    fn fmt<W: fmt::Write>(&self, f: &mut fmt::Formatter<W>) -> fmt::Result {
        write_quoted(f, &self.bytes)
    }
}

impl<A: FixedBytes, B: FixedBytes, const N: usize> AsBytes for JoinedArray<A, B, N> {
    ghost bytes = { joined_bytes A.bytes B.bytes };

    fn as_bytes(&self) -> &[u8] {
        &self.bytes[..]
    }
}

impl<A: FixedBytes, B: FixedBytes, const N: usize> NoPrefixesBytes for JoinedArray<A, B, N> {
    ghost is_key = { AreKeysOf N A.is_key A.bytes B.is_key B.bytes };

    fn as_key(&self) {
        let _ = &self.bytes;
    }

    ghost no_prefixes = { λ x y of_x of_y. joins_no_prefixes A.is_key A.bytes B.is_key B.bytes
        A.no_prefixes B.no_prefixes x y of_x.0 of_y.0 };

    ghost injective = { λ x y of_x of_y same. joins_injective A.is_key A.bytes B.is_key B.bytes
        A.key_of A.length_of B.key_of B.length_of A.comes_back B.comes_back x y of_x.0
        of_y.0 same };
}

impl<A: FixedBytes + OrderedBytes, B: FixedBytes + OrderedBytes, const N: usize> OrderedBytes
    for JoinedArray<A, B, N> {
    ghost order = { pair_cmp A.order B.order };

    ghost keeps_order = { λ x y of_x of_y. joins_keep_order A.is_key A.bytes B.is_key B.bytes
        A.no_prefixes A.keeps_order B.keeps_order x y of_x.0 of_y.0 };
}

impl<A: FixedBytes, B: FixedBytes, const N: usize> DecodeBytes for JoinedArray<A, B, N> {
    ghost key_of = { parted A.key_of A.length_of B.key_of };

    ghost length_of = { joined_length A.length_of B.length_of };

    ghost allocates_nothing = { ⊤ };

    ghost comes_back = { arrays_come_back A.is_key A.bytes B.is_key B.bytes
        A.key_of A.length_of B.key_of B.length_of A.comes_back B.comes_back N };

    fn key_len(bytes: &[u8]) -> usize {
        let middle = A::key_len(bytes);
        middle + B::key_len(&bytes[middle..])
    }

    fn from_key_bytes(alloc: Global, bytes: &[u8]) -> Result<Self, AllocError> {
        Ok(Self::from_fixed_bytes(bytes))
    }
}

impl<A: FixedBytes, B: FixedBytes, const N: usize> FixedBytes for JoinedArray<A, B, N> {
    ghost byte_count = { N };

    fn from_fixed_bytes(bytes: &[u8]) -> Self {
        JoinedArray {
            bytes: all_of(bytes),
            of: PhantomData,
        }
    }

    ghost has_count = { λ key of_key. of_key.1 };
}

impl<A: FixedBytes, B: FixedBytes, const N: usize> Copy for JoinedArray<A, B, N> {}

impl<A: FixedBytes, B: FixedBytes, const N: usize> Clone for JoinedArray<A, B, N> {
    ghost is_clone = { λ key copy. copy ≡ key };

    ghost is_infallible = { λ key. ⊤ };

    fn clone(&self) -> Result<Self, AllocError> {
        Ok(*self)
    }
}

impl<A: FixedBytes, B: FixedBytes, const N: usize> CloneBytes for JoinedArray<A, B, N> {
    ghost keeps_bytes = { λ key copy is. ap (joined_bytes A.bytes B.bytes) is };

    ghost keeps_key = { λ key copy is of_key.
        subst (AreKeysOf N A.is_key A.bytes B.is_key B.bytes) (sym is) of_key };
}

impl<A: FixedBytes, B: FixedBytes, const N: usize> PartialEq for JoinedArray<A, B, N> {
    ghost eq = { eq_by_cmp (on (joined_bytes A.bytes B.bytes) (slice_cmp nat_cmp)) };

    ghost laws = { Prim.search (comparing, rules) };

    fn eq(&self, other: &Self) -> bool {
        self.bytes.cmp(&other.bytes).is_eq()
    }
}

impl<A: FixedBytes, B: FixedBytes, const N: usize> Eq for JoinedArray<A, B, N> {
    ghost laws = { Prim.search (comparing, rules) };
}

impl<A: FixedBytes, B: FixedBytes, const N: usize> PartialOrd for JoinedArray<A, B, N> {
    ghost partial_cmp = { as_partial_cmp (on (joined_bytes A.bytes B.bytes) (slice_cmp nat_cmp)) };

    ghost laws = { Prim.search (comparing, rules) };

    fn partial_cmp(&self, other: &Self) -> Option<Ordering> {
        Some(self.bytes.cmp(&other.bytes))
    }
}

/// The order of the bytes: that of the first keys, and then that of the second ones.
impl<A: FixedBytes, B: FixedBytes, const N: usize> Ord for JoinedArray<A, B, N> {
    ghost cmp = { on (joined_bytes A.bytes B.bytes) (slice_cmp nat_cmp) };

    ghost total = { Prim.search (comparing, rules) };

    ghost matches_partial_cmp = { Prim.search (comparing, rules) };

    ghost matches_eq = { Prim.search (comparing, rules) };

    fn cmp(&self, other: &Self) -> Ordering {
        self.bytes.cmp(&other.bytes)
    }
}

impl<A: FixedBytes, B: FixedBytes, const N: usize> Hash for JoinedArray<A, B, N> {
    ghost hash_input = { λ key. fed.slice fed.u8 (joined_bytes A.bytes B.bytes key) };

    ghost respects_eq = { bytes_hash (joined_bytes A.bytes B.bytes) };

    fn hash<H: Hasher>(&self, state: &mut H) {
        self.as_bytes().hash(state);
    }
}

// Returns the bytes of two slices, one after the other, as an array. Their number must be `N`.
fn two_in_one<const N: usize>(first: &[u8], second: &[u8]) -> [u8; N]
    requires { length first.now + length second.now ≡ N }
    ensures { result ≡ first.now ++ second.now }
{
    let mut bytes = [0; N];
    let all = &mut bytes[..];
    let (front, back) = all.split_at_mut(first.len());
    front.copy_from_slice(first);
    back.copy_from_slice(second);
    bytes
}
