//! Maps whose keys are two keys of fixed lengths joined into one, in an array.
ghost use Rattle.std.specs.Prelude.{◌≡◌, ◌+◌, ◌<◌, ◌^◌, length};
ghost use Rattle.std.specs.declared.ops.Bound.TheVariants.{Excluded, Included};
ghost use Rattle.art_model.specs.Pairs.{IsMap, first_of, of_key};
ghost use Rattle.art_keys.specs.Joins.{joined_bytes};
ghost use Rattle.art_keyed.specs.KeyedPairs.{pairs_with_first, pairs_without_first, without_first_with};
ghost use Rattle.art_keyed.specs.KeyedSeconds.{pairs_with_both};

use super::TreeMap;
use art_keys::joined_array::JoinedArray;
use art_keys::laws::{FixedBytes, OrderedBytes};
use art_map::map::Range;
use std::ops;

impl<A: FixedBytes, B: FixedBytes, V: Drop, const N: usize, const P: usize> TreeMap<
    JoinedArray<A, B, N>,
    V,
    P,
> {
    /// Returns an iterator over the pairs whose keys have this first key, in the order of the bytes of the second keys.
    /// It costs what `prefix` of a `ByteMap` does, and allocates nothing.
    pub fn with_first(&self, first: &A) -> Range<'_, JoinedArray<A, B, N>, V, P>
        ensures pairs { result ≡ pairs_with_first A.bytes (A.bytes first.now) self.now }
        ensures sorted { IsMap (of_key (joined_bytes A.bytes B.bytes)) self.now }
        ensures fits { length result < 2 ^ 64 }
    {
        first.as_key();
        self.map.prefix(first.as_bytes())
    }

    /// Removes all pairs whose keys have this first key at once, and returns how many there were. It allocates nothing
    /// and never fails.
    pub fn remove_with_first(&mut self, first: &A) -> usize
        ensures pairs { self.new ≡ pairs_without_first A.bytes (A.bytes first.now) self.old }
        ensures removed { result ≡
            length (pairs_with_first A.bytes (A.bytes first.now) self.old) }
    {
        first.as_key();
        self.map.remove_prefix(first.as_bytes())
    }

    /// Removes the first of the pairs whose keys have this first key, and returns it, or `None` if there is none. It
    /// allocates nothing and never fails.
    pub fn pop_first_with(&mut self, first: &A) -> Option<(JoinedArray<A, B, N>, V)>
        ensures pairs { self.new ≡ without_first_with A.bytes (A.bytes first.now) self.old }
        ensures removed { result ≡
            first_of (pairs_with_first A.bytes (A.bytes first.now) self.old) }
    {
        first.as_key();
        self.map.pop_first_below(first.as_bytes())
    }
}

impl<
    A: FixedBytes + OrderedBytes,
    B: FixedBytes + OrderedBytes,
    V: Drop,
    const N: usize,
    const P: usize,
> TreeMap<JoinedArray<A, B, N>, V, P> {
    /// Returns an iterator over the pairs whose keys have this first key and a second key in a range, in the order of
    /// the second keys; it is empty if the range runs backwards. The two keys must have `N` bytes together.
    ///
    /// It costs what `range` does, and allocates nothing.
    pub fn range_with(
        &self,
        first: &A,
        seconds: ops::Range<B>,
    ) -> Range<'_, JoinedArray<A, B, N>, V, P>
        requires { A.byte_count + B.byte_count ≡ N }
        ensures pairs { result ≡ pairs_with_both A.bytes (A.bytes first.now) B.order
            (Included seconds.start) (Excluded seconds.end) self.now }
        ensures sorted { IsMap (of_key (joined_bytes A.bytes B.bytes)) self.now }
        ensures fits { length result < 2 ^ 64 }
    {
        first.as_key();
        let from = JoinedArray::join(first, &seconds.start);
        self.range(from..JoinedArray::join(first, &seconds.end))
    }
}
