//! Ranges of maps of strings between two texts, for which no key is made.
ghost use Rattle.std.specs.Prelude.{◌≡◌, ◌<◌, ◌^◌, [], ◌∷◌, ◌++◌, length};
ghost use Rattle.std.specs.Cmp.Lexicographic.{slice_cmp};
ghost use Rattle.std.specs.Ordering.{nat_cmp};
ghost use Rattle.std.specs.Range.Bound.{bound_map};
ghost use Rattle.art_keys.specs.Ended.{ended};
ghost use Rattle.art_keys.specs.Escapes.{escape};
ghost use Rattle.art_model.specs.Pairs.{IsMap, of_key};
ghost use Rattle.art_keyed.specs.KeyedPairs.{keys_between};

use super::TreeMap;
use crate::bounds::bound_of;
use crate::escaped_bytes::EscapedBytes;
use art_keys::escaped::Escaped;
use art_keys::terminated::Terminated;
use art_map::map::Range;
use std::ops::Bound;

impl<V: Drop, const P: usize> TreeMap<Terminated, V, P> {
    /// Returns an iterator over the pairs whose strings are between two texts, in the order of their keys; it is empty
    /// if the first bound is after the second. It costs what `range` does, and allocates nothing.
    pub fn range_text(&self, from: Bound<&[u8]>, to: Bound<&[u8]>) -> Range<'_, Terminated, V, P>
        ensures pairs { result ≡ keys_between (slice_cmp nat_cmp)
            (bound_map (λ b. b.now) from.entry) (bound_map (λ b. b.now) to.entry) self.now }
        ensures sorted { IsMap (of_key ended) self.now }
        ensures fits { length result < 2 ^ 64 }
    {
        self.map.range_by(bound_of(from), bound_of(to))
    }
}

impl<V: Drop, const P: usize> TreeMap<Escaped, V, P> {
    /// Returns an iterator over the pairs whose strings are between two texts, in the order of their keys; it is empty
    /// if the first bound is after the second. It costs what `range` does, and allocates nothing.
    pub fn range_text(&self, from: Bound<&[u8]>, to: Bound<&[u8]>) -> Range<'_, Escaped, V, P>
        ensures pairs { result ≡ keys_between (slice_cmp nat_cmp)
            (bound_map (λ b. b.now) from.entry) (bound_map (λ b. b.now) to.entry) self.now }
        ensures sorted { IsMap (of_key escape) self.now }
        ensures fits { length result < 2 ^ 64 }
    {
        self.map.range_by(bytes_at(from), bytes_at(to))
    }
}

// Returns the bound at the key of a text, which is escaped as it is read.
fn bytes_at(bound: Bound<&[u8]>) -> Bound<EscapedBytes<'_>>
    ensures { bound_map (λ text. escape text) result ≡
        bound_map (λ text. escape text.now) bound.entry }
{
    match bound {
        Bound::Included(text) => Bound::Included(EscapedBytes::new(text)),
        Bound::Excluded(text) => Bound::Excluded(EscapedBytes::new(text)),
        Bound::Unbounded => Bound::Unbounded,
    }
}
