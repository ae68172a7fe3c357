//! Calls of a set by a key that is not built, such as a text and the byte that ends it.
ghost use Rattle.std.specs.Prelude.{◌≡◌, ◌<◌, ◌^◌, length, option_copied};
ghost use Rattle.std.specs.Range.Bound.{bound_map};
ghost use Rattle.art_model.specs.Pairs.{IsMap, first_of, has_key, last_of, remove_key};
ghost use Rattle.art_model.specs.Parts.{between};
ghost use Rattle.art_model.specs.Texts.{AreEnded, texts_in_front};
ghost use Rattle.art_ranges.specs.ShortTexts.{texts_from};

use super::{ByteSet, KeyRange, KeyRangeOf};
use art_nodes::node::AsBytes;
use art_reading::lookup::{KeyBytes, KeyQuery};
use std::ops::Bound;

impl<K: AsBytes + Drop, const P: usize> ByteSet<K, P> {
    /// Returns whether the key that is asked for is stored. It costs what `contains` does.
    pub fn contains_by<Q: KeyQuery>(&self, query: Q) -> bool
        ensures { result ≡ has_key K.bytes (Q.key query) self.now }
    {
        self.map.contains_key_by(query)
    }

    /// Removes the key that is asked for, and returns whether it was stored. It never fails. It costs what `remove`
    /// does.
    pub fn remove_by<Q: KeyQuery>(&mut self, query: Q) -> bool
        ensures keys { self.new ≡ remove_key K.bytes (Q.key query) self.old }
        ensures removed { result ≡ has_key K.bytes (Q.key query) self.old }
    {
        self.map.remove_by(query).is_some()
    }

    /// Returns an iterator over the keys between two bounds, in ascending order. There are none if the first bound is
    /// after the second. It costs what `range` does.
    pub fn range_by<B: KeyBytes + Drop>(&self, from: Bound<B>, to: Bound<B>) -> KeyRange<'_, K, P>
        ensures keys { result ≡ between K.bytes (bound_map B.key from) (bound_map B.key to)
            self.now }
        ensures sorted { IsMap K.bytes self.now }
        ensures fits { length result < 2 ^ 64 }
    {
        KeyRangeOf::new(self.map.range_by(from, to))
    }

    /// Returns the key with the longest text that is a prefix of the query, or `None` if there is none. Condition and
    /// cost are those of `longest_text` of a `ByteMap`.
    pub fn longest_text(&self, query: &[u8], end: u8) -> Option<&K>
        requires { AreEnded K.bytes end self.now }
        ensures { option_copied result ≡ last_of (texts_in_front K.bytes query.now self.now) }
    {
        match self.map.longest_text(query, end) {
            Some((key, _)) => Some(key),
            None => None,
        }
    }

    /// Returns the key with the shortest text that is a prefix of the query and has at least `at_least` bytes, or
    /// `None` if there is none. Condition and cost are those of `shortest_text` of a `ByteMap`.
    pub fn shortest_text(&self, query: &[u8], end: u8, at_least: usize) -> Option<&K>
        requires { AreEnded K.bytes end self.now }
        ensures { option_copied result ≡
            first_of (texts_from K.bytes query.now at_least self.now) }
    {
        match self.map.shortest_text(query, end, at_least) {
            Some((key, _)) => Some(key),
            None => None,
        }
    }
}
