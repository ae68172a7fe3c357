//! Sets whose keys are in the order of their type, and those whose keys represent strings of bytes.
ghost use Rattle.std.specs.Prelude.{◌≡◌, ◌<◌, ◌^◌, length, option_copied};
ghost use Rattle.std.specs.Range.Bound.{bound_map};
ghost use Rattle.std.specs.declared.ops.Bound.TheVariants.{Unbounded};
ghost use Rattle.art_model.specs.Pairs.{IsMap, first_of, last_of};
ghost use Rattle.art_keyed.specs.KeyedPairs.{KeysRiseBy, set_below, set_between};

use super::TreeSet;
use art_keyed::bounds::bytes_of;
use art_keys::laws::{OrderedBytes, StringBytes};
use art_sets::set::KeyRange;
use std::ops::{Bound, RangeBounds};

impl<K: OrderedBytes + Drop, const P: usize> TreeSet<K, P> {
    /// Does nothing; its contract states that the keys are in ascending order of their type.
    pub fn rises(&self)
        ensures { KeysRiseBy K.order self.now }
    {
        self.set.len();
    }

    /// Returns an iterator over the keys in a range, in ascending order; it is empty if the range ends before it
    /// starts. It costs what `range` of the map does.
    pub fn range<R: RangeBounds<K> + Drop>(&self, range: R) -> KeyRange<'_, K, P>
        ensures keys { R.has_bounds range → result ≡
            set_between K.order (R.start_bound range) (R.end_bound range) self.now }
        ensures sorted { IsMap K.bytes self.now }
        ensures fits { length result < 2 ^ 64 }
    {
        self.between(range.start_bound(), range.end_bound())
    }

    // Returns the keys between two bounds.
    fn between(&self, from: Bound<&K>, to: Bound<&K>) -> KeyRange<'_, K, P>
        ensures keys { result ≡ set_between K.order (bound_map (λ b. b.now) from.entry)
            (bound_map (λ b. b.now) to.entry) self.now }
        ensures sorted { IsMap K.bytes self.now }
        ensures fits { length result < 2 ^ 64 }
    {
        self.set.range((bytes_of(from), bytes_of(to)))
    }

    /// Returns the first key after a bound, or at it if the bound is included, or `None` if there is none. It costs
    /// what `first_from` of the map does.
    pub fn first_from(&self, from: Bound<&K>) -> Option<&K>
        ensures { option_copied result ≡ first_of (set_between K.order
            (bound_map (λ b. b.now) from.entry) Unbounded self.now) }
    {
        self.set.first_from(bytes_of(from))
    }

    /// Returns the last key before a bound, or at it if the bound is included, or `None` if there is none. It costs
    /// what `first_from` does.
    pub fn last_up_to(&self, to: Bound<&K>) -> Option<&K>
        ensures { option_copied result ≡ last_of (set_between K.order Unbounded
            (bound_map (λ b. b.now) to.entry) self.now) }
    {
        self.set.last_up_to(bytes_of(to))
    }
}

impl<K: StringBytes + Drop, const P: usize> TreeSet<K, P> {
    /// Returns an iterator over the keys whose strings start with that of a key, in ascending order. It costs what
    /// `prefix` of the map does.
    pub fn prefix(&self, prefix: &K) -> KeyRange<'_, K, P>
        ensures keys { result ≡ set_below K.text (K.text prefix.now) self.now }
        ensures sorted { IsMap K.bytes self.now }
        ensures fits { length result < 2 ^ 64 }
    {
        self.set.prefix(prefix.beginning())
    }
}
