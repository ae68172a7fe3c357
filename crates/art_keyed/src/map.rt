//! An ordered map whose keys never conflict. Its contracts speak only of lists of pairs.
ghost use Rattle.std.specs.Prelude.{◌≡◌, ◌≢◌, ◌↔◌, ◌<◌, ◌^◌, ℕ, List, [], length, false, IfOk, IfErr, IfSome, IsSome, IsTrue, OnOk, OnErr, Some, None, option_copied};
ghost use Rattle.std.specs.Borrow.{Bor, sem};
ghost use Rattle.std.specs.Fn.{FnOnceReturnsAt};
ghost use Rattle.std.specs.Option.{UnwrapsOrElse, option_copied_mut, option_map, unwrap_or};
ghost use Rattle.art_changing.specs.MapAnswers.{value_at};
ghost use Rattle.art_iterating.specs.MapItems.{deref_pair, keys_of, values_of};
ghost use Rattle.art_model.specs.Pairs.{IsMap, first_of, has_key, last_of, of_key, put, put_reply, remove_key, remove_reply, with_key, without_first, without_last};
ghost use Rattle.art_keyed.specs.KeyedPairs.{HaveKeys};
ghost use Rattle.art_keyed.specs.KeyedLends.{lends_put, lends_value};
ghost use Rattle.art_keyed.specs.KeyedValues.{CountsPut, CountsRemoved, KeepsOtherKeys, value_of};

use art_keys::laws::NoPrefixesBytes;
use art_map::map::{
    ByteMap, IntoIter, IntoKeys, IntoValues, Keys, MapInsertError, MapIter, Values,
};
use std::alloc::{AllocError, Global};
use std::fmt;
use std::marker::Model;
use std::ops::Index;

mod both;
mod byte_map;
mod clones;
mod compared;
mod each;
mod entry;
mod extend;
mod extract;
mod joined;
mod joined_array;
mod matches;
mod near;
mod ordered;
mod parts;
mod retain;
mod strings;
mod text_ranges;
mod texts;

pub use art_map::map::PairRefused;
pub use both::BothRefused;
pub use entry::{TreeEntry, TreeEntryOf};
pub use extract::{TreeExtractPrefix, TreeExtractPrefixOf, TreeExtractRange, TreeExtractRangeOf};
pub use matches::{Matches, MatchesOf, Nested};
pub use texts::TextRefused;

/// A map whose keys are in the order of their bytes. No key of the type is a prefix of another one, so an insertion
/// fails only if an allocation fails.
#[derive(Drop)]
pub struct TreeMap<K: NoPrefixesBytes, V, const P: usize> {
    map: ByteMap<K, V, P>,
}

impl<K: NoPrefixesBytes, V, const P: usize> Model for TreeMap<K, V, P> {
    ghost use Rattle.std.specs.Prelude.{List};
    ghost use Rattle.std.specs.Coded.{coded×, coded_list};

    ghost Value = { List (K × V) };

    ghost coded = { coded_list (coded× K.code V.code) };

    ghost use Rattle.art_keyed.specs.KeyedPairs.{HaveKeys};

    ghost view = { λ m. m.map };

    ghost invariant = { λ m. HaveKeys K.is_key m.map };
}

impl<K: NoPrefixesBytes + Drop, V: Drop, const P: usize> TreeMap<K, V, P> {
    /// Returns an empty map. It allocates nothing.
    pub fn new(alloc: Global) -> Self
        ensures { result ≡ [] }
    {
        TreeMap {
            map: ByteMap::new(alloc),
        }
    }

    /// Returns the map as a `ByteMap`, for the calls of a `ByteMap` that only read, such as `longest_match`.
    pub fn as_byte_map(&self) -> &ByteMap<K, V, P>
        ensures pairs { result.now ≡ self.now }
        ensures keys { HaveKeys K.is_key self.now }
    {
        &self.map
    }

    /// Returns the number of pairs.
    pub fn len(&self) -> usize
        ensures len { result ≡ length self.now }
        ensures sorted { IsMap (of_key K.bytes) self.now }
    {
        self.map.len()
    }

    /// Returns whether the map is empty.
    pub fn is_empty(&self) -> bool
        ensures { IsTrue result ↔ (self.now ≡ []) }
    {
        self.map.is_empty()
    }

    /// Returns whether a key is stored, with a single descent along its bytes.
    pub fn contains_key(&self, key: &K) -> bool
        ensures { result ≡ has_key (of_key K.bytes) (K.bytes key.now) self.now }
    {
        self.map.contains_key(key.as_bytes())
    }

    /// Returns the value of a key, or `None` if the key is not stored, with a single descent along its bytes.
    pub fn get(&self, key: &K) -> Option<&V>
        ensures value { option_copied result ≡ value_at K.bytes (K.bytes key.now) self.now }
        ensures sorted { IsMap (of_key K.bytes) self.now }
    {
        self.map.get(key.as_bytes())
    }

    /// Returns the pair of a key, or `None` if the key is not stored. It costs what `get` does.
    pub fn get_key_value(&self, key: &K) -> Option<(&K, &V)>
        ensures { option_map deref_pair result ≡
            first_of (with_key (of_key K.bytes) (K.bytes key.now) self.now) }
    {
        self.map.get_key_value(key.as_bytes())
    }

    /// Returns a mutable reference to the value of a key, or `None` if the key is not stored. It costs what `get` does.
    pub fn get_mut(&mut self, key: &K) -> Option<&mut V>
        ensures* writes_back { sem 𝓛 (lends_value K.row V.row P.row K.NoPrefixesBytes
            self.entry (K.bytes key.now) result) }
        ensures value { option_copied_mut result ≡ value_at K.bytes (K.bytes key.now) self.old }
    {
        self.map.get_mut(key.as_bytes())
    }

    /// Returns a double-ended iterator over the pairs, in the order of their keys' bytes. No step of it descends the
    /// tree.
    pub fn iter(&self) -> MapIter<'_, K, V, P>
        ensures pairs { result ≡ self.now }
        ensures known { HaveKeys K.is_key self.now }
        ensures sorted { IsMap (of_key K.bytes) self.now }
        ensures fits { length result < 2 ^ 64 }
    {
        self.map.iter()
    }

    /// Returns a double-ended iterator over the keys, in ascending order.
    pub fn keys(&self) -> Keys<'_, K, V, P>
        ensures keys { result ≡ keys_of self.now }
        ensures sorted { IsMap (of_key K.bytes) self.now }
        ensures fits { length result < 2 ^ 64 }
    {
        self.map.keys()
    }

    /// Returns a double-ended iterator over the values, in the order of their keys.
    pub fn values(&self) -> Values<'_, K, V, P>
        ensures values { result ≡ values_of self.now }
        ensures sorted { IsMap (of_key K.bytes) self.now }
        ensures fits { length result < 2 ^ 64 }
    {
        self.map.values()
    }

    /// Consumes the map, and returns a double-ended iterator over the keys, in ascending order.
    pub fn into_keys(self) -> IntoKeys<K, V, P>
        ensures { result ≡ keys_of self }
    {
        self.map.into_keys()
    }

    /// Consumes the map, and returns a double-ended iterator over the values, in the order of their keys.
    pub fn into_values(self) -> IntoValues<K, V, P>
        ensures { result ≡ values_of self }
    {
        self.map.into_values()
    }

    /// Returns the first pair, or `None` if the map is empty. It reads one inner node on each level.
    pub fn first_key_value(&self) -> Option<(&K, &V)>
        ensures pair { option_map deref_pair result ≡ first_of self.now }
        ensures known { HaveKeys K.is_key self.now }
    {
        self.map.first_key_value()
    }

    /// Returns the last pair, or `None` if the map is empty. It reads one inner node on each level.
    pub fn last_key_value(&self) -> Option<(&K, &V)>
        ensures pair { option_map deref_pair result ≡ last_of self.now }
        ensures known { HaveKeys K.is_key self.now }
    {
        self.map.last_key_value()
    }

    /// Inserts a pair, with a single descent. If an equal key is stored, that key stays and gets the new value, and the
    /// key that was passed is returned with the old value; else `None` is returned.
    ///
    /// Fails only if an allocation fails, and never if an equal key is stored. The error returns the pair, and the map
    /// is unchanged.
    pub fn insert(&mut self, key: K, value: V) -> Result<Option<(K, V)>, PairRefused<K, V>>
        // If it succeeds.
        ensures pairs { OnOk result (self.new ≡ put (of_key K.bytes) (key, value) self.old) }
        ensures replaced { IfOk result (λ replaced.
            replaced ≡ put_reply (of_key K.bytes) (key, value) self.old) }
        ensures found { OnOk result
            (value_at K.bytes (K.bytes key) self.new ≡ Some value) }
        ensures others { OnOk result ((other : List ℕ) → other ≢ K.bytes key →
            value_at K.bytes other self.new ≡ value_at K.bytes other self.old) }
        ensures other_keys { OnOk result
            (KeepsOtherKeys K.is_key K.bytes key self.old self.new) }
        ensures len { IfOk result (λ replaced. CountsPut replaced self.old self.new) }
        // In any case.
        ensures sorted { IsMap (of_key K.bytes) self.new }

        // If it fails.
        ensures handed_back { IfErr result (λ refused.
            (refused.key ≡ key) × (refused.value ≡ value)) }
        ensures refused { OnErr result
            (has_key (of_key K.bytes) (K.bytes key) self.old ≡ false) }
        ensures kept { OnErr result (self.new ≡ self.old) }
    {
        self.insert_near(&mut None, key, value)
    }

    /// Returns a mutable reference to the value of a key. If no equal key is stored, the pair is inserted first; a key
    /// that is stored stays, with its value. Fails as `insert` does.
    pub fn get_or_insert(&mut self, key: K, value: V) -> Result<&mut V, PairRefused<K, V>>
        ensures* writes_back { sem 𝓛 (lends_put K.row V.row P.row K.NoPrefixesBytes
            self.entry key result) }
        ensures value { IfOk result (λ lent.
            lent.now ≡ unwrap_or (value_at K.bytes (K.bytes key) self.old) value) }
        ensures handed_back { IfErr result (λ refused.
            (refused.key ≡ key) × (refused.value ≡ value)) }
        ensures refused { OnErr result
            (has_key (of_key K.bytes) (K.bytes key) self.old ≡ false) }
    {
        self.get_or_insert_near(None, key, value)
    }

    /// Does what `get_or_insert` does, with a value that the closure makes of the key. The closure is called only if no
    /// equal key is stored. If the insertion then fails, the error returns the key and the value that was made.
    pub fn get_or_insert_with<F: FnOnce(&K) -> V>(
        &mut self,
        key: K,
        make: F,
    ) -> Result<&mut V, PairRefused<K, V>>
        requires { has_key (of_key K.bytes) (K.bytes key) self.old ≡ false →
            (p : Bor K) → p.now ≡ key → F.pre make p }
        ensures* writes_back { sem 𝓛 (lends_put K.row V.row P.row K.NoPrefixesBytes
            self.entry key result) }
        ensures value { IfOk result (λ lent. UnwrapsOrElse
            (value_at K.bytes (K.bytes key) self.old)
            (FnOnceReturnsAt F.FnOnce make key) lent.now) }
        ensures handed_back { IfErr result (λ refused. (refused.key ≡ key) ×
            FnOnceReturnsAt F.FnOnce make key refused.value) }
        ensures refused { OnErr result
            (has_key (of_key K.bytes) (K.bytes key) self.old ≡ false) }
    {
        key.as_key();
        match self.map.get_or_insert_with(key, make) {
            Ok(lent) => Ok(lent),
            Err(error) => Err(error.into_pair()),
        }
    }

    /// Returns an entry, which is the map with a key: it reads or changes the value of the key, or inserts the key.
    /// This call reads no node.
    pub fn entry(&mut self, key: K) -> TreeEntry<'_, K, V, P>
        ensures same_map { result.map.ghost_name ≡ self.entry.ghost_name }
        ensures pairs { result.map.now ≡ self.old }
        ensures key { result.key ≡ key }
    {
        TreeEntryOf { map: self, key }
    }

    // ---- Removals: none of them allocates or fails.

    /// Removes the pair of a key, with a single descent, and returns it, or `None` if the key is not stored.
    pub fn remove(&mut self, key: &K) -> Option<(K, V)>
        ensures pairs { self.new ≡ remove_key (of_key K.bytes) (K.bytes key.now) self.old }
        ensures removed { result ≡ remove_reply (of_key K.bytes) (K.bytes key.now) self.old }
        ensures gone { value_at K.bytes (K.bytes key.now) self.new ≡ None }
        ensures others { (other : List ℕ) → other ≢ K.bytes key.now →
            value_at K.bytes other self.new ≡ value_at K.bytes other self.old }
        ensures other_keys { KeepsOtherKeys K.is_key K.bytes key.now self.old self.new }
        ensures len { CountsRemoved result self.old self.new }
    {
        key.as_key();
        self.map.remove_by(key.as_bytes())
    }

    /// Removes the first pair, and returns it, or `None` if the map is empty.
    pub fn pop_first(&mut self) -> Option<(K, V)>
        // What is left, and what is returned.
        ensures pairs { self.new ≡ without_first self.old }
        ensures removed { result ≡ first_of self.old }
        // Of single keys: the one that went, and the others.
        ensures key { IfSome result (λ pair. K.is_key pair.0) }
        ensures stored { IfSome result (λ pair.
            value_of K.bytes pair.0 self.old ≡ Some pair.1) }
        ensures gone { IfSome result (λ pair. value_of K.bytes pair.0 self.new ≡ None) }
        ensures other_keys { IfSome result (λ pair.
            KeepsOtherKeys K.is_key K.bytes pair.0 self.old self.new) }
        ensures len { CountsRemoved result self.old self.new }
    {
        self.map.pop_first().unwrap()
    }

    /// Removes the last pair, and returns it, or `None` if the map is empty.
    pub fn pop_last(&mut self) -> Option<(K, V)>
        // What is left, and what is returned.
        ensures pairs { self.new ≡ without_last self.old }
        ensures removed { result ≡ last_of self.old }
        // Of single keys: the one that went, and the others.
        ensures key { IfSome result (λ pair. K.is_key pair.0) }
        ensures stored { IfSome result (λ pair.
            value_of K.bytes pair.0 self.old ≡ Some pair.1) }
        ensures gone { IfSome result (λ pair. value_of K.bytes pair.0 self.new ≡ None) }
        ensures other_keys { IfSome result (λ pair.
            KeepsOtherKeys K.is_key K.bytes pair.0 self.old self.new) }
        ensures len { CountsRemoved result self.old self.new }
    {
        self.map.pop_last().unwrap()
    }

    /// Removes all pairs, as `clear` of a `ByteMap` does. The store keeps its slots for later pairs.
    pub fn clear(&mut self)
        ensures { self.new ≡ [] }
    {
        self.map.clear();
    }

    /// Moves the pairs into the order of their keys in memory, as `compact` of a `ByteMap` does, so that an iteration
    /// reads memory from first to last. Fails only if an allocation fails; then no pair has moved.
    pub fn compact(&mut self) -> Result<(), AllocError>
        ensures same { self.new ≡ self.old }
    {
        self.map.compact()
    }

    /// Frees memory that the map has for later pairs, as `shrink_to_fit` of a `ByteMap` does. Fails only if an
    /// allocation fails; the map is unchanged in any case.
    pub fn shrink_to_fit(&mut self) -> Result<(), AllocError>
        ensures same { self.new ≡ self.old }
    {
        self.map.shrink_to_fit()
    }
}

impl<'a, K: NoPrefixesBytes + Drop, V: Drop, const P: usize> IntoIterator for &'a TreeMap<K, V, P> {
    type Item = (&'a K, &'a V);

    type IntoIter = MapIter<'a, K, V, P>;

    ghost into_iter_gives = { λ map pairs. pairs ≡ map.now };

    fn into_iter(self) -> MapIter<'a, K, V, P> {
        self.iter()
    }
}

impl<K: NoPrefixesBytes + Drop, V: Drop, const P: usize> IntoIterator for TreeMap<K, V, P> {
    type Item = (K, V);

    type IntoIter = IntoIter<K, V, P>;

    ghost into_iter_gives = { λ map pairs. pairs ≡ map };

    fn into_iter(self) -> IntoIter<K, V, P> {
        self.map.into_iter()
    }
}

/// Returns the value of a key, which must be stored: a precondition, which is not checked at run time.
impl<'b, K: NoPrefixesBytes + Drop, V: Drop, const P: usize> Index<&'b K> for TreeMap<K, V, P> {
    type Output = V;

    ghost can_index = { λ map key. IsSome (value_at K.bytes (K.bytes key.now) map) };

    ghost index_gives = { λ map key value. value_at K.bytes (K.bytes key.now) map ≡ Some value };

    fn index(&self, key: &'b K) -> &V {
        self.get(key).unwrap()
    }
}

impl<K: NoPrefixesBytes + fmt::Debug + Drop, V: fmt::Debug + Drop, const P: usize> fmt::Debug
    for TreeMap<K, V, P> {
    fn fmt<W: fmt::Write>(&self, f: &mut fmt::Formatter<W>) -> fmt::Result {
        self.map.fmt(f)
    }
}
