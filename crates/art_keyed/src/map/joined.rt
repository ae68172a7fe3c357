//! Maps whose keys are two keys joined into one.
ghost use Rattle.std.specs.Prelude.{◌≡◌, ◌<◌, ◌^◌, length, IfOk, IfSome, None, OnOk, Some};
ghost use Rattle.std.specs.declared.ops.Bound.TheVariants.{Excluded, Included};
ghost use Rattle.art_model.specs.Pairs.{IsMap, first_of, of_key};
ghost use Rattle.art_keys.specs.Joins.{AreKeys, joined_bytes};
ghost use Rattle.art_keyed.specs.KeyedValues.{CountsRemoved, KeepsOtherKeys, value_of};
ghost use Rattle.art_keyed.specs.KeyedPairs.{HaveKeys, pairs_with_first, pairs_without_first, without_first_with};
ghost use Rattle.art_keyed.specs.KeyedSeconds.{pairs_with_both};

use super::TreeMap;
use art_keys::joined::Joined;
use art_keys::laws::{DecodeBytes, OrderedBytes};
use art_map::map::Range;
use std::alloc::{AllocError, Global};
use std::ops;

impl<A: DecodeBytes + Drop, B: DecodeBytes + Drop, V: Drop, const P: usize> TreeMap<
    Joined<A, B>,
    V,
    P,
> {
    /// Returns an iterator over the pairs whose keys have this first key, in the order of the bytes of the second keys.
    /// It costs what `prefix` of a `ByteMap` does, and allocates nothing.
    pub fn with_first(&self, first: &A) -> Range<'_, Joined<A, B>, V, P>
        ensures pairs { result ≡ pairs_with_first A.bytes (A.bytes first.now) self.now }
        ensures known { HaveKeys (AreKeys A.is_key B.is_key) self.now }
        ensures sorted { IsMap (of_key (joined_bytes A.bytes B.bytes)) self.now }
        ensures fits { length result < 2 ^ 64 }
    {
        first.as_key();
        self.map.prefix(first.as_bytes())
    }

    /// Removes all pairs whose keys have this first key at once, and returns how many there were. It allocates nothing
    /// and never fails.
    pub fn remove_with_first(&mut self, first: &A) -> usize
        ensures pairs { self.new ≡ pairs_without_first A.bytes (A.bytes first.now) self.old }
        ensures removed { result ≡
            length (pairs_with_first A.bytes (A.bytes first.now) self.old) }
    {
        first.as_key();
        self.map.remove_prefix(first.as_bytes())
    }

    /// Removes the first of the pairs whose keys have this first key, and returns it, or `None` if there is none. It
    /// allocates nothing and never fails.
    pub fn pop_first_with(&mut self, first: &A) -> Option<(Joined<A, B>, V)>
        // What is left, and what is returned.
        ensures pairs { self.new ≡ without_first_with A.bytes (A.bytes first.now) self.old }
        ensures removed { result ≡
            first_of (pairs_with_first A.bytes (A.bytes first.now) self.old) }
        // Of single keys: the one that went, and the others.
        ensures key { IfSome result (λ pair. AreKeys A.is_key B.is_key pair.0) }
        ensures stored { IfSome result (λ pair.
            value_of (joined_bytes A.bytes B.bytes) pair.0 self.old ≡ Some pair.1) }
        ensures gone { IfSome result (λ pair.
            value_of (joined_bytes A.bytes B.bytes) pair.0 self.new ≡ None) }
        ensures other_keys { IfSome result (λ pair.
            KeepsOtherKeys (AreKeys A.is_key B.is_key) (joined_bytes A.bytes B.bytes) pair.0
            self.old self.new) }
        ensures len { CountsRemoved result self.old self.new }
    {
        first.as_key();
        self.map.pop_first_below(first.as_bytes())
    }
}

impl<
    A: DecodeBytes + OrderedBytes + Drop,
    B: DecodeBytes + OrderedBytes + Drop,
    V: Drop,
    const P: usize,
> TreeMap<Joined<A, B>, V, P> {
    /// Returns an iterator over the pairs whose keys have this first key and a second key in a range, in the order of
    /// the second keys; it is empty if the range runs backwards.
    ///
    /// It makes the keys at the two ends, and fails only if an allocation for one of them fails. Else it costs what
    /// `range` does.
    pub fn range_with(
        &self,
        alloc: Global,
        first: &A,
        seconds: ops::Range<B>,
    ) -> Result<Range<'_, Joined<A, B>, V, P>, AllocError>
        ensures pairs { IfOk result (λ part.
            part ≡ pairs_with_both A.bytes (A.bytes first.now) B.order
            (Included seconds.start) (Excluded seconds.end) self.now) }
        ensures known { OnOk result (HaveKeys (AreKeys A.is_key B.is_key) self.now) }
        ensures sorted { OnOk result (IsMap (of_key (joined_bytes A.bytes B.bytes)) self.now) }
        ensures fits { IfOk result (λ part. length part < 2 ^ 64) }
    {
        first.as_key();
        let from = Joined::join(alloc, first, &seconds.start)?;
        let to = Joined::join(alloc, first, &seconds.end)?;
        Ok(self.range(from..to))
    }
}
