//! Matches among keys each of which is a text and the byte that ends it.
ghost use Rattle.std.specs.Prelude.{◌≡◌};
ghost use Rattle.std.specs.Option.{option_map};
ghost use Rattle.art_model.specs.Pairs.{IsMap, first_of, last_of, of_key};
ghost use Rattle.art_model.specs.Texts.{AreEnded, texts_in_front};
ghost use Rattle.art_iterating.specs.MapItems.{deref_pair};
ghost use Rattle.art_ranges.specs.ShortTexts.{texts_from};

use super::{ByteMap, pair_at};
use art_nodes::node::AsBytes;
use art_ranges::texts::{longest_text_by, longest_text_unchecked, shortest_text_unchecked};
use art_reading::lookup::KeyBytes;

impl<K: AsBytes + Drop, V: Drop, const P: usize> ByteMap<K, V, P> {
    /// Returns the pair with the longest text that is a prefix of the query, or `None` if there is none. Each key must
    /// be a text and then `end`, which is less than each byte of a text; a text may be a prefix of another.
    ///
    /// It descends along the query. If the text that it finds is not a prefix of the query, it descends once more,
    /// along the bytes that both share. It allocates nothing.
    pub fn longest_text(&self, query: &[u8], end: u8) -> Option<(&K, &V)>
        requires { AreEnded (of_key K.bytes) end self.now }
        ensures pair { option_map deref_pair result ≡
            last_of (texts_in_front (of_key K.bytes) query.now self.now) }
        ensures sorted { IsMap (of_key K.bytes) self.now }
    {
        let leaf = longest_text_unchecked(&self.store, self.root?, query, end)?;
        Some(pair_at(&self.store, leaf))
    }

    /// Returns what `longest_text` does, for a query whose bytes need not stand in a slice. Its condition is the same.
    ///
    /// It descends by the bytes to a pair, and then along what its key and the query share. It allocates nothing.
    pub fn longest_text_by<B: KeyBytes>(&self, query: &mut B, end: u8) -> Option<(&K, &V)>
        requires { AreEnded (of_key K.bytes) end self.now }
        ensures pair { option_map deref_pair result ≡
            last_of (texts_in_front (of_key K.bytes) (B.key query.old) self.now) }
        ensures same { B.key query.new ≡ B.key query.old }
        ensures sorted { IsMap (of_key K.bytes) self.now }
    {
        let leaf = longest_text_by(&self.store, self.root?, query, end)?;
        Some(pair_at(&self.store, leaf))
    }

    /// Returns the pair with the shortest text that is a prefix of the query and has at least `at_least` bytes, or
    /// `None` if there is none. Its condition is that of `longest_text`.
    ///
    /// It is a single descent along the query, and allocates nothing.
    pub fn shortest_text(&self, query: &[u8], end: u8, at_least: usize) -> Option<(&K, &V)>
        requires { AreEnded (of_key K.bytes) end self.now }
        ensures pair { option_map deref_pair result ≡
            first_of (texts_from (of_key K.bytes) query.now at_least self.now) }
        ensures sorted { IsMap (of_key K.bytes) self.now }
    {
        let leaf = shortest_text_unchecked(&self.store, self.root?, query, end, at_least)?;
        Some(pair_at(&self.store, leaf))
    }
}
