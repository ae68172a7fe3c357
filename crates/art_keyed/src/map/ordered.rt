//! Maps whose keys are in the order of their type.
ghost use Rattle.std.specs.Prelude.{◌≡◌, ◌<◌, ◌^◌, length};
ghost use Rattle.std.specs.Option.{option_map};
ghost use Rattle.std.specs.Range.Bound.{bound_map};
ghost use Rattle.std.specs.declared.ops.Bound.TheVariants.{Unbounded};
ghost use Rattle.art_model.specs.Pairs.{IsMap, first_of, last_of, of_key};
ghost use Rattle.art_iterating.specs.MapItems.{deref_pair};
ghost use Rattle.art_keyed.specs.KeyedPairs.{HaveKeys, RiseBy, keys_between};

use super::TreeMap;
use crate::bounds::bytes_of;
use art_keys::laws::OrderedBytes;
use art_map::map::Range;
use std::ops::{Bound, RangeBounds};

impl<K: OrderedBytes + Drop, V: Drop, const P: usize> TreeMap<K, V, P> {
    /// Does nothing; its contract states that the keys are in ascending order of their type.
    pub fn rises(&self)
        ensures { RiseBy K.order self.now }
    {
        self.map.len();
    }

    /// Returns an iterator over the pairs whose keys are in a range, in the order of their keys; it is empty if the
    /// range ends before it starts. It costs what `range` of a `ByteMap` does, and allocates nothing.
    pub fn range<R: RangeBounds<K> + Drop>(&self, range: R) -> Range<'_, K, V, P>
        ensures pairs { R.has_bounds range → result ≡
            keys_between K.order (R.start_bound range) (R.end_bound range) self.now }
        ensures known { HaveKeys K.is_key self.now }
        ensures rises { RiseBy K.order self.now }
        ensures sorted { IsMap (of_key K.bytes) self.now }
        ensures fits { length result < 2 ^ 64 }
    {
        self.between(range.start_bound(), range.end_bound())
    }

    // Returns the pairs whose keys are between two bounds.
    fn between(&self, from: Bound<&K>, to: Bound<&K>) -> Range<'_, K, V, P>
        ensures pairs { result ≡ keys_between K.order (bound_map (λ b. b.now) from.entry)
            (bound_map (λ b. b.now) to.entry) self.now }
        ensures known { HaveKeys K.is_key self.now }
        ensures rises { RiseBy K.order self.now }
        ensures sorted { IsMap (of_key K.bytes) self.now }
        ensures fits { length result < 2 ^ 64 }
    {
        self.map.range((bytes_of(from), bytes_of(to)))
    }

    /// Returns the first pair whose key is after a bound, or at it if the bound is included, or `None` if there is
    /// none. It costs what `first_from` of a `ByteMap` does, and allocates nothing.
    pub fn first_from(&self, from: Bound<&K>) -> Option<(&K, &V)>
        ensures { option_map deref_pair result ≡ first_of (keys_between K.order
            (bound_map (λ b. b.now) from.entry) Unbounded self.now) }
    {
        self.map.first_from(bytes_of(from))
    }

    /// Returns the last pair whose key is before a bound, or at it if the bound is included, or `None` if there is
    /// none. It costs what `first_from` does.
    pub fn last_up_to(&self, to: Bound<&K>) -> Option<(&K, &V)>
        ensures { option_map deref_pair result ≡ last_of (keys_between K.order Unbounded
            (bound_map (λ b. b.now) to.entry) self.now) }
    {
        self.map.last_up_to(bytes_of(to))
    }
}
