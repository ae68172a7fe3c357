//! Iterators that remove the pairs of a range, or those with a prefix, from a map.
ghost use Rattle.std.specs.Prelude.{◌≡◌, ◌&&◌, ◌<◌, ◌^◌, length, IfSome, Some};
ghost use Rattle.std.specs.Iterator.{UpTo, at_most};
ghost use Rattle.std.specs.Iterator.SizeHint.{IsWithinCount};
ghost use Rattle.std.specs.Range.Bound.{bound_map};
ghost use Rattle.art_parts.specs.Keys.{is_front};
ghost use Rattle.art_model.specs.Pairs.{of_key};
ghost use Rattle.art_map.specs.MapExtract.{ExtractsAll, ExtractsFirst};
ghost use Rattle.art_keyed.specs.KeyedExtract.{ExtractsKeys, ExtractsStrings};
ghost use Rattle.art_keyed.specs.KeyedPairs.{is_key_from, is_key_up_to};

use super::TreeMap;
use crate::bounds::bytes_of;
use art_keys::laws::{OrderedBytes, StringBytes};
use std::iter::FusedIterator;
use std::ops::{Bound, RangeBounds};

/// An iterator that removes the pairs of a range from a map, in the order of their keys, and returns them. The pairs
/// that it has not returned stay in the map.
#[derive(Drop)]
#[must_use]
pub struct TreeExtractRangeOf<'a, R, M> {
    pub(crate) map: &'a mut M,
    pub(crate) range: R,
}

/// The same, of a `TreeMap`.
pub type TreeExtractRange<'a, R, K, V, const P: usize> = TreeExtractRangeOf<
    'a,
    R,
    TreeMap<K, V, P>,
>;

impl<'a, R: RangeBounds<K> + Drop, K: OrderedBytes + Drop, V: Drop, const P: usize> Iterator
    for TreeExtractRangeOf<'a, R, TreeMap<K, V, P>> {
    type Item = (K, V);

    ghost next_gives = { ExtractsKeys K.bytes K.order R.has_bounds R.start_bound R.end_bound };

    ghost remaining = { λ s. at_most (length s.map.now) };

    fn next(&mut self) -> Option<(K, V)> {
        self.map
            .extract_in(self.range.start_bound(), self.range.end_bound())
    }

    fn size_hint(&self) -> (usize, Option<usize>)
        ensures lower { IsWithinCount result.0 (at_most (length self.now.map.now)) }
        ensures upper { IfSome result.1 (UpTo (at_most (length self.now.map.now))) }
        ensures exact { result ≡ (0, Some (length self.now.map.now)) }
    {
        (0, Some(self.map.len()))
    }
}

impl<'a, R: RangeBounds<K> + Drop, K: OrderedBytes + Drop, V: Drop, const P: usize> FusedIterator
    for TreeExtractRangeOf<'a, R, TreeMap<K, V, P>> {}

/// An iterator that removes the pairs whose strings start with that of a key from a map, in the order of their keys,
/// and returns them. The pairs that it has not returned stay in the map.
#[derive(Drop)]
#[must_use]
pub struct TreeExtractPrefixOf<'a, 'k, K, M> {
    pub(crate) map: &'a mut M,
    pub(crate) prefix: &'k K,
}

/// The same, of a `TreeMap`.
pub type TreeExtractPrefix<'a, 'k, K, V, const P: usize> = TreeExtractPrefixOf<
    'a,
    'k,
    K,
    TreeMap<K, V, P>,
>;

impl<'a, 'k, K: StringBytes + Drop, V: Drop, const P: usize> Iterator
    for TreeExtractPrefixOf<'a, 'k, K, TreeMap<K, V, P>> {
    type Item = (K, V);

    ghost next_gives = { ExtractsStrings K.bytes K.text };

    ghost remaining = { λ s. at_most (length s.map.now) };

    fn next(&mut self) -> Option<(K, V)> {
        self.map.extract_below(self.prefix)
    }

    fn size_hint(&self) -> (usize, Option<usize>)
        ensures lower { IsWithinCount result.0 (at_most (length self.now.map.now)) }
        ensures upper { IfSome result.1 (UpTo (at_most (length self.now.map.now))) }
        ensures exact { result ≡ (0, Some (length self.now.map.now)) }
    {
        (0, Some(self.map.len()))
    }
}

impl<'a, 'k, K: StringBytes + Drop, V: Drop, const P: usize> FusedIterator
    for TreeExtractPrefixOf<'a, 'k, K, TreeMap<K, V, P>> {}

impl<K: OrderedBytes + Drop, V: Drop, const P: usize> TreeMap<K, V, P> {
    /// Returns an iterator that removes the pairs whose keys are in a range, in the order of their keys, and returns
    /// them. It never fails. If it is dropped early, the pairs that it has not returned stay in the map.
    ///
    /// This call reads no node. Each step costs what `pop_first_in` does; it allocates nothing.
    pub fn extract_range<R: RangeBounds<K> + Drop>(
        &mut self,
        range: R,
    ) -> TreeExtractRange<'_, R, K, V, P>
        ensures same_map { result.map.ghost_name ≡ self.entry.ghost_name }
        ensures pairs { result.map.now ≡ self.old }
        ensures range { result.range ≡ range }
        ensures all { R.has_bounds range → ExtractsAll (of_key K.bytes)
            (λ pair. is_key_from K.order (R.start_bound range) pair.0 &&
            is_key_up_to K.order (R.end_bound range) pair.0)
            (ExtractsKeys K.bytes K.order R.has_bounds R.start_bound R.end_bound)
            (λ s. s.map.now) self.old result }
        ensures fits { length self.old < 2 ^ 64 }
    {
        self.map.len();
        TreeExtractRangeOf { map: self, range }
    }

    // Removes the first pair whose key is between two bounds.
    fn extract_in(&mut self, from: Bound<&K>, to: Bound<&K>) -> Option<(K, V)>
        ensures { ExtractsFirst (of_key K.bytes)
            (λ pair. is_key_from K.order (bound_map (λ b. b.now) from.entry) pair.0 &&
            is_key_up_to K.order (bound_map (λ b. b.now) to.entry) pair.0)
            self.old result self.new }
    {
        self.map.len();
        self.map.pop_first_in((bytes_of(from), bytes_of(to)))
    }
}

impl<K: StringBytes + Drop, V: Drop, const P: usize> TreeMap<K, V, P> {
    /// Returns an iterator that removes the pairs whose strings start with that of a key, in the order of their keys,
    /// and returns them. It never fails. If it is dropped early, the pairs that it has not returned stay in the map.
    ///
    /// This call reads no node. Each step costs what `pop_first_below` does; it allocates nothing. If the pairs are not
    /// used, `remove_prefix` removes all at once.
    pub fn extract_prefix<'k>(&mut self, prefix: &'k K) -> TreeExtractPrefix<'_, 'k, K, V, P>
        ensures same_map { result.map.ghost_name ≡ self.entry.ghost_name }
        ensures pairs { result.map.now ≡ self.old }
        ensures prefix { result.prefix.now ≡ prefix.now }
        ensures all { ExtractsAll (of_key K.bytes)
            (λ pair. is_front (K.text prefix.now) (K.text pair.0))
            (ExtractsStrings K.bytes K.text) (λ s. s.map.now) self.old result }
        ensures fits { length self.old < 2 ^ 64 }
    {
        self.map.len();
        TreeExtractPrefixOf { map: self, prefix }
    }

    // Removes the first pair whose string starts with that of a key.
    fn extract_below(&mut self, prefix: &K) -> Option<(K, V)>
        ensures { ExtractsFirst (of_key K.bytes)
            (λ pair. is_front (K.text prefix.now) (K.text pair.0)) self.old result self.new }
    {
        self.map.pop_first_below(prefix.beginning())
    }
}
