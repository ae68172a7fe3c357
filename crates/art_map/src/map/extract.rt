//! Iterators that remove the pairs of a range, or those with a prefix, from a map.
ghost use Rattle.std.specs.Prelude.{◌≡◌, ◌<◌, ◌^◌, length, Some, IfSome};
ghost use Rattle.std.specs.Iterator.{UpTo, at_most};
ghost use Rattle.std.specs.Iterator.SizeHint.{IsWithinCount};
ghost use Rattle.std.specs.Range.Bound.{bound_map};
ghost use Rattle.art_parts.specs.Keys.{is_front};
ghost use Rattle.art_model.specs.Pairs.{of_key};
ghost use Rattle.art_model.specs.Parts.{is_between};
ghost use Rattle.art_map.specs.MapExtract.{ExtractsAll, ExtractsBelow, ExtractsBetween};

use super::{ByteMap, bound_of};
use art_nodes::node::AsBytes;
use std::iter::FusedIterator;
use std::ops::{Bound, RangeBounds};

/// An iterator that removes the pairs of a range from a map, in the order of their keys, and returns them. The pairs
/// that it has not returned stay in the map.
#[derive(Drop)]
#[must_use]
pub struct ExtractRangeOf<'a, 'k, M> {
    pub(crate) map: &'a mut M,
    pub(crate) from: Bound<&'k [u8]>,
    pub(crate) to: Bound<&'k [u8]>,
}

/// The same, of a `ByteMap` with such keys.
pub type ExtractRange<'a, 'k, K, V, const P: usize> = ExtractRangeOf<'a, 'k, ByteMap<K, V, P>>;

impl<'a, 'k, K: AsBytes + Drop, V: Drop, const P: usize> Iterator
    for ExtractRangeOf<'a, 'k, ByteMap<K, V, P>> {
    type Item = (K, V);

    ghost next_gives = { ExtractsBetween K.bytes };

    ghost remaining = { λ s. at_most (length s.map.now) };

    fn next(&mut self) -> Option<(K, V)> {
        self.map.take_first_in(self.from, self.to)
    }

    fn size_hint(&self) -> (usize, Option<usize>)
        ensures lower { IsWithinCount result.0 (at_most (length self.now.map.now)) }
        ensures upper { IfSome result.1 (UpTo (at_most (length self.now.map.now))) }
        ensures exact { result ≡ (0, Some (length self.now.map.now)) }
    {
        (0, Some(self.map.len()))
    }
}

impl<'a, 'k, K: AsBytes + Drop, V: Drop, const P: usize> FusedIterator
    for ExtractRangeOf<'a, 'k, ByteMap<K, V, P>> {}

/// An iterator that removes the pairs with a prefix from a map, in the order of their keys, and returns them. The pairs
/// that it has not returned stay in the map.
#[derive(Drop)]
#[must_use]
pub struct ExtractPrefixOf<'a, 'k, M> {
    pub(crate) map: &'a mut M,
    pub(crate) prefix: &'k [u8],
}

/// The same, of a `ByteMap` with such keys.
pub type ExtractPrefix<'a, 'k, K, V, const P: usize> = ExtractPrefixOf<'a, 'k, ByteMap<K, V, P>>;

impl<'a, 'k, K: AsBytes + Drop, V: Drop, const P: usize> Iterator
    for ExtractPrefixOf<'a, 'k, ByteMap<K, V, P>> {
    type Item = (K, V);

    ghost next_gives = { ExtractsBelow K.bytes };

    ghost remaining = { λ s. at_most (length s.map.now) };

    fn next(&mut self) -> Option<(K, V)> {
        self.map.pop_first_below(self.prefix)
    }

    fn size_hint(&self) -> (usize, Option<usize>)
        ensures lower { IsWithinCount result.0 (at_most (length self.now.map.now)) }
        ensures upper { IfSome result.1 (UpTo (at_most (length self.now.map.now))) }
        ensures exact { result ≡ (0, Some (length self.now.map.now)) }
    {
        (0, Some(self.map.len()))
    }
}

impl<'a, 'k, K: AsBytes + Drop, V: Drop, const P: usize> FusedIterator
    for ExtractPrefixOf<'a, 'k, ByteMap<K, V, P>> {}

impl<K: AsBytes + Drop, V: Drop, const P: usize> ByteMap<K, V, P> {
    /// Returns an iterator that removes the pairs whose keys are in a range, in the order of their keys, and returns
    /// them. It never fails. If it is dropped early, the pairs that it has not returned stay in the map.
    ///
    /// This call reads no node. Each step costs what `pop_first_in` does; it allocates nothing.
    pub fn extract_range<'k, R: RangeBounds<&'k [u8]> + Drop>(
        &mut self,
        range: R,
    ) -> ExtractRange<'_, 'k, K, V, P>
        ensures same_map { result.map.ghost_name ≡ self.entry.ghost_name }
        ensures pairs { result.map.now ≡ self.old }
        ensures all { R.has_bounds range → ExtractsAll (of_key K.bytes) (λ pair. is_between
            (bound_map (λ b. b.now) (R.start_bound range))
            (bound_map (λ b. b.now) (R.end_bound range)) (K.bytes pair.0))
            (ExtractsBetween K.bytes) (λ s. s.map.now) self.old result }
        ensures fits { length self.old < 2 ^ 64 }
    {
        self.len();
        let from = bound_of(range.start_bound());
        let to = bound_of(range.end_bound());
        ExtractRangeOf {
            map: self,
            from,
            to,
        }
    }

    /// Returns an iterator that removes the pairs whose keys start with these bytes, in the order of their keys, and
    /// returns them. It never fails. If it is dropped early, the pairs that it has not returned stay in the map.
    ///
    /// This call reads no node. Each step costs what `pop_first_below` does; it allocates nothing. If the pairs are not
    /// used, `remove_prefix` removes all at once.
    pub fn extract_prefix<'k>(&mut self, prefix: &'k [u8]) -> ExtractPrefix<'_, 'k, K, V, P>
        ensures same_map { result.map.ghost_name ≡ self.entry.ghost_name }
        ensures pairs { result.map.now ≡ self.old }
        ensures all { ExtractsAll (of_key K.bytes)
            (λ pair. is_front prefix.now (K.bytes pair.0))
            (ExtractsBelow K.bytes) (λ s. s.map.now) self.old result }
        ensures fits { length self.old < 2 ^ 64 }
    {
        self.len();
        ExtractPrefixOf { map: self, prefix }
    }
}
