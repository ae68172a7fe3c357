//! Two keys joined into one.
ghost use Rattle.std.specs.Prelude.{◌≡◌, ◌≤◌, length, IfOk, IsOk};
ghost use Rattle.art_keys.specs.Joins.{AreKeys, joined_bytes, pair_cmp, joined_length, parted};
ghost use Rattle.art_keys.specs.JoinLaws.{joins_no_prefixes, joins_keep_order, joins_come_back};
ghost use Rattle.art_keys.specs.InjectiveLaws.{joins_injective};
ghost use Rattle.std.proofs.Common.{ap, subst, sym, rules};
ghost use Rattle.std.specs.Cmp.Rules.{comparing};
ghost use Rattle.std.specs.Cmp.Lexicographic.{slice_cmp};
ghost use Rattle.std.specs.Ordering.{eq_by_cmp, nat_cmp, on, as_partial_cmp};
ghost use Rattle.std.specs.Hash as fed;
ghost use Rattle.art_keys.specs.HashLaws.{bytes_hash};

use super::laws::{CloneBytes, DecodeBytes, NoPrefixesBytes, OrderedBytes};
use super::short_bytes::ShortBytes;
use art_parts::bytes::AsBytes;
use std::alloc::{AllocError, Global};
use std::cmp::Ordering;
use std::fmt;
use std::hash::{Hash, Hasher};
use std::marker::{Model, PhantomData};

/// Two keys as one: the bytes of the first key, and then those of the second one. In contracts it is the pair of them.
#[derive(Drop)]
pub struct Joined<A: DecodeBytes, B: DecodeBytes> {
    bytes: ShortBytes,
    of: PhantomData<(A, B)>,
}

impl<A: DecodeBytes, B: DecodeBytes> Model for Joined<A, B> {
    ghost use Rattle.std.specs.Coded.{coded×};

    ghost Value = { A × B };

    ghost coded = { coded× A.code B.code };

    ghost use Rattle.art_keys.specs.Decoded.{IsOfKey};
    ghost use Rattle.art_keys.specs.Joins.{AreKeys, joined_bytes, parted};

    ghost view = { λ j. parted A.key_of A.length_of B.key_of j.bytes };

    ghost invariant = { λ j.
        IsOfKey (AreKeys A.is_key B.is_key) (joined_bytes A.bytes B.bytes) j.bytes };
}

impl<A: DecodeBytes + Drop, B: DecodeBytes + Drop> Joined<A, B> {
    /// Returns the key of two keys. Fails only if an allocation fails, which a key of up to 30 bytes does not need.
    pub fn join(alloc: Global, first: &A, second: &B) -> Result<Self, AllocError>
        ensures key { IfOk result (λ key. key ≡ (first.now, second.now)) }
        ensures succeeds { length (joined_bytes A.bytes B.bytes (first.now, second.now)) ≤ 30 → IsOk result }
    {
        first.as_key();
        second.as_key();
        Ok(Joined {
            bytes: ShortBytes::from_both(alloc, first.as_bytes(), second.as_bytes())?,
            of: PhantomData,
        })
    }

    /// Returns the first key. Fails only if an allocation fails; numbers and arrays allocate nothing.
    pub fn first(&self, alloc: Global) -> Result<A, AllocError>
        ensures key { IfOk result (λ key. key ≡ self.now.0) }
        ensures succeeds { A.allocates_nothing → IsOk result }
    {
        let middle = A::key_len(self.bytes.as_slice());
        A::from_key_bytes(alloc, &self.bytes.as_slice()[..middle])
    }

    /// Returns the second key. Fails only if an allocation fails; numbers and arrays allocate nothing.
    pub fn second(&self, alloc: Global) -> Result<B, AllocError>
        ensures key { IfOk result (λ key. key ≡ self.now.1) }
        ensures succeeds { B.allocates_nothing → IsOk result }
    {
        let middle = A::key_len(self.bytes.as_slice());
        B::from_key_bytes(alloc, &self.bytes.as_slice()[middle..])
    }

    /// Returns the two keys. Fails only if an allocation fails; numbers and arrays allocate nothing.
    pub fn split(&self, alloc: Global) -> Result<(A, B), AllocError>
        ensures keys { IfOk result (λ keys. keys ≡ self.now) }
        ensures succeeds { A.allocates_nothing → B.allocates_nothing → IsOk result }
    {
        let middle = A::key_len(self.bytes.as_slice());
        let first = A::from_key_bytes(alloc, &self.bytes.as_slice()[..middle])?;
        let second = B::from_key_bytes(alloc, &self.bytes.as_slice()[middle..])?;
        Ok((first, second))
    }
}

/// Writes the bytes in quotes, escaped as by `escape_ascii`.
impl<A: DecodeBytes, B: DecodeBytes> fmt::Debug for Joined<A, B> {
    fn fmt<W: fmt::Write>(&self, f: &mut fmt::Formatter<W>) -> fmt::Result {
        fmt::Debug::fmt(&self.bytes, f)
    }
}

impl<A: DecodeBytes, B: DecodeBytes> AsBytes for Joined<A, B> {
    ghost bytes = { joined_bytes A.bytes B.bytes };

    fn as_bytes(&self) -> &[u8] {
        self.bytes.as_slice()
    }
}

impl<A: DecodeBytes, B: DecodeBytes> NoPrefixesBytes for Joined<A, B> {
    ghost is_key = { AreKeys A.is_key B.is_key };

    fn as_key(&self) {
        let _ = &self.bytes;
    }

    ghost no_prefixes = { joins_no_prefixes A.is_key A.bytes B.is_key B.bytes A.no_prefixes
        B.no_prefixes };

    ghost injective = { joins_injective A.is_key A.bytes B.is_key B.bytes
        A.key_of A.length_of B.key_of B.length_of A.comes_back B.comes_back };
}

impl<A: DecodeBytes + OrderedBytes, B: DecodeBytes + OrderedBytes> OrderedBytes for Joined<A, B> {
    ghost order = { pair_cmp A.order B.order };

    ghost keeps_order = { joins_keep_order A.is_key A.bytes B.is_key B.bytes
        A.no_prefixes A.keeps_order B.keeps_order };
}

impl<A: DecodeBytes, B: DecodeBytes> DecodeBytes for Joined<A, B> {
    ghost key_of = { parted A.key_of A.length_of B.key_of };

    ghost length_of = { joined_length A.length_of B.length_of };

    ghost allocates_nothing = { ⊥ };

    ghost comes_back = { joins_come_back A.is_key A.bytes B.is_key B.bytes
        A.key_of A.length_of B.key_of B.length_of A.comes_back B.comes_back };

    fn key_len(bytes: &[u8]) -> usize {
        let middle = A::key_len(bytes);
        middle + B::key_len(&bytes[middle..])
    }

    fn from_key_bytes(alloc: Global, bytes: &[u8]) -> Result<Self, AllocError> {
        Ok(Joined {
            bytes: ShortBytes::from_slice(alloc, bytes)?,
            of: PhantomData,
        })
    }
}

/// Returns the same key. It cannot fail for a key of at most 30 bytes.
impl<A: DecodeBytes, B: DecodeBytes> Clone for Joined<A, B> {
    ghost is_clone = { λ key copy. copy ≡ key };

    ghost is_infallible = { λ key. length (joined_bytes A.bytes B.bytes key) ≤ 30 };

    fn clone(&self) -> Result<Self, AllocError> {
        Ok(Joined {
            bytes: self.bytes.clone()?,
            of: PhantomData,
        })
    }
}

impl<A: DecodeBytes, B: DecodeBytes> CloneBytes for Joined<A, B> {
    ghost keeps_bytes = { λ key copy is. ap (joined_bytes A.bytes B.bytes) is };

    ghost keeps_key = { λ key copy is of_key.
        subst (AreKeys A.is_key B.is_key) (sym is) of_key };
}

impl<A: DecodeBytes, B: DecodeBytes> PartialEq for Joined<A, B> {
    ghost eq = { eq_by_cmp (on (joined_bytes A.bytes B.bytes) (slice_cmp nat_cmp)) };

    ghost laws = { Prim.search (comparing, rules) };

    fn eq(&self, other: &Self) -> bool {
        self.cmp(other).is_eq()
    }
}

impl<A: DecodeBytes, B: DecodeBytes> Eq for Joined<A, B> {
    ghost laws = { Prim.search (comparing, rules) };
}

impl<A: DecodeBytes, B: DecodeBytes> PartialOrd for Joined<A, B> {
    ghost partial_cmp = { as_partial_cmp (on (joined_bytes A.bytes B.bytes) (slice_cmp nat_cmp)) };

    ghost laws = { Prim.search (comparing, rules) };

    fn partial_cmp(&self, other: &Self) -> Option<Ordering> {
        Some(self.cmp(other))
    }
}

/// The order of the bytes: that of the first keys, and then that of the second ones.
impl<A: DecodeBytes, B: DecodeBytes> Ord for Joined<A, B> {
    ghost cmp = { on (joined_bytes A.bytes B.bytes) (slice_cmp nat_cmp) };

    ghost total = { Prim.search (comparing, rules) };

    ghost matches_partial_cmp = { Prim.search (comparing, rules) };

    ghost matches_eq = { Prim.search (comparing, rules) };

    fn cmp(&self, other: &Self) -> Ordering {
        self.as_bytes().cmp(other.as_bytes())
    }
}

impl<A: DecodeBytes, B: DecodeBytes> Hash for Joined<A, B> {
    ghost hash_input = { λ key. fed.slice fed.u8 (joined_bytes A.bytes B.bytes key) };

    ghost respects_eq = { bytes_hash (joined_bytes A.bytes B.bytes) };

    fn hash<H: Hasher>(&self, state: &mut H) {
        self.as_bytes().hash(state);
    }
}
