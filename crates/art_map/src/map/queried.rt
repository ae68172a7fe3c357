//! Calls of a map by a key that is not built, such as a text and the byte that ends it.
ghost use Rattle.std.specs.Prelude.{◌≡◌, ◌<◌, ◌^◌, length, option_copied};
ghost use Rattle.std.specs.Borrow.{sem};
ghost use Rattle.std.specs.Option.{option_copied_mut, option_map};
ghost use Rattle.std.specs.Range.Bound.{bound_map};
ghost use Rattle.art_model.specs.Pairs.{IsMap, first_of, has_key, of_key, remove_key, remove_reply, with_key};
ghost use Rattle.art_model.specs.Parts.{below, between, not_below};
ghost use Rattle.art_changing.specs.MapAnswers.{value_at};
ghost use Rattle.art_iterating.specs.MapItems.{deref_pair};
ghost use Rattle.art_map.specs.MapLends.{lends_value};

use super::position::leaf_by;
use super::{ByteMap, Range, RangeOf, pair_at};
use art_changing::remove::{take_all_below, take_bytes, take_key};
use art_nodes::node::AsBytes;
use art_ranges::range::{prefix_unchecked, range_unchecked};
use art_reading::iterator::RawIterator;
use art_reading::lookup::{Asked, KeyBytes, KeyQuery, search_for};
use std::ops::Bound;

impl<K: AsBytes + Drop, V: Drop, const P: usize> ByteMap<K, V, P> {
    /// Returns the value of the key that is asked for, or `None` if it is not stored. It costs what `get` does.
    pub fn get_by<Q: KeyQuery>(&self, query: Q) -> Option<&V>
        ensures value { option_copied result ≡ value_at K.bytes (Q.key query) self.now }
        ensures sorted { IsMap (of_key K.bytes) self.now }
    {
        let leaf = self.find(query, Asked::Same)?;
        Some(&leaf.value)
    }

    /// Returns the pair of the key that is asked for, or `None` if it is not stored. It costs what `get` does.
    pub fn get_key_value_by<Q: KeyQuery>(&self, query: Q) -> Option<(&K, &V)>
        ensures { option_map deref_pair result ≡
            first_of (with_key (of_key K.bytes) (Q.key query) self.now) }
    {
        let leaf = self.find(query, Asked::Same)?;
        Some((&leaf.key, &leaf.value))
    }

    /// Returns the value of the key that is asked for as `&mut V`, or `None` if it is not stored. It costs what `get`
    /// does.
    pub fn get_mut_by<Q: KeyQuery>(&mut self, query: Q) -> Option<&mut V>
        ensures* writes_back { sem 𝓛
            (lends_value K.row V.row P.row K.AsBytes self.entry (Q.key query) result) }
        ensures value { option_copied_mut result ≡ value_at K.bytes (Q.key query) self.old }
    {
        let leaf = search_for(&self.store, self.root?, query)?;
        self.store.value_mut(leaf)
    }

    /// Returns what `get_mut_by` does, for a key whose bytes need not stand in a slice. It is a single descent, and
    /// allocates nothing.
    pub fn get_mut_by_bytes<B: KeyBytes + Drop>(&mut self, bytes: &mut B) -> Option<&mut V>
        ensures* writes_back { sem 𝓛
            (lends_value K.row V.row P.row K.AsBytes self.entry (B.key bytes.old) result) }
        ensures value { option_copied_mut result ≡ value_at K.bytes (B.key bytes.old) self.old }
        ensures same { B.key bytes.new ≡ B.key bytes.old }
    {
        let leaf = leaf_by(&self.store, self.root?, bytes)?;
        self.store.value_mut(leaf)
    }

    /// Returns whether the key that is asked for is stored. It costs what `get` does.
    pub fn contains_key_by<Q: KeyQuery>(&self, query: Q) -> bool
        ensures { result ≡ has_key (of_key K.bytes) (Q.key query) self.now }
    {
        self.get_by(query).is_some()
    }

    /// Returns the pair of a key whose bytes need not stand in a slice, or `None` if it is not stored. It is a single
    /// descent, and allocates nothing.
    pub fn get_key_value_by_bytes<B: KeyBytes + Drop>(&self, bytes: &mut B) -> Option<(&K, &V)>
        ensures pair { option_map deref_pair result ≡
            first_of (with_key (of_key K.bytes) (B.key bytes.old) self.now) }
        ensures same { B.key bytes.new ≡ B.key bytes.old }
    {
        let leaf = leaf_by(&self.store, self.root?, bytes)?;
        Some(pair_at(&self.store, leaf))
    }

    /// Removes the pair of the key that is asked for, and returns it; `None` if it is not stored. It never fails. It
    /// costs what `remove` does.
    pub fn remove_by<Q: KeyQuery>(&mut self, query: Q) -> Option<(K, V)>
        ensures pairs { self.new ≡ remove_key (of_key K.bytes) (Q.key query) self.old }
        ensures removed { result ≡ remove_reply (of_key K.bytes) (Q.key query) self.old }
        ensures was_sorted { IsMap (of_key K.bytes) self.old }
    {
        take_key(&mut self.store, &mut self.root, &mut self.len, query)
    }

    /// Removes what `remove_by` does, for a key whose bytes need not stand in a slice. It is a single descent, and never
    /// fails.
    pub fn remove_by_bytes<B: KeyBytes + Drop>(&mut self, bytes: &mut B) -> Option<(K, V)>
        ensures pairs { self.new ≡ remove_key (of_key K.bytes) (B.key bytes.old) self.old }
        ensures removed { result ≡ remove_reply (of_key K.bytes) (B.key bytes.old) self.old }
        ensures same { B.key bytes.new ≡ B.key bytes.old }
    {
        take_bytes(&mut self.store, &mut self.root, &mut self.len, bytes)
    }

    /// Returns an iterator over the pairs whose keys start with these bytes, in the order of their keys. It costs what
    /// `prefix` does.
    pub fn prefix_by<B: KeyBytes + Drop>(&self, prefix: B) -> Range<'_, K, V, P>
        ensures pairs { result ≡ below (of_key K.bytes) (B.key prefix) self.now }
        ensures sorted { IsMap (of_key K.bytes) self.now }
        ensures fits { length result < 2 ^ 64 }
    {
        let Some(root) = self.root else {
            return RangeOf::new(&self.store, RawIterator::empty(), 0);
        };
        let walk = prefix_unchecked(&self.store, root, prefix);
        RangeOf::new(&self.store, walk, self.len)
    }

    /// Removes all pairs whose keys start with these bytes, and returns how many there were. It costs what
    /// `remove_prefix` does.
    pub fn remove_prefix_by<B: KeyBytes + Drop>(&mut self, prefix: B) -> usize
        ensures pairs { self.new ≡ not_below (of_key K.bytes) (B.key prefix) self.old }
        ensures removed { result ≡ length (below (of_key K.bytes) (B.key prefix) self.old) }
    {
        take_all_below(&mut self.store, &mut self.root, &mut self.len, prefix)
    }

    /// Returns an iterator over the pairs whose keys are between two bounds, in the order of their keys. There are none
    /// if the first bound is after the second. It costs what `range` does.
    pub fn range_by<B: KeyBytes + Drop>(&self, from: Bound<B>, to: Bound<B>) -> Range<'_, K, V, P>
        ensures pairs { result ≡ between (of_key K.bytes) (bound_map B.key from)
            (bound_map B.key to) self.now }
        ensures sorted { IsMap (of_key K.bytes) self.now }
        ensures fits { length result < 2 ^ 64 }
    {
        let Some(root) = self.root else {
            return RangeOf::new(&self.store, RawIterator::empty(), 0);
        };
        let walk = range_unchecked(&self.store, root, from, to);
        RangeOf::new(&self.store, walk, self.len)
    }
}
