//! An ordered map with a hash table's lookups. Its contracts speak only of lists of pairs.
ghost use Rattle.std.specs.Prelude.{◌≡◌, ◌≢◌, ◌↔◌, ℕ, List, [], length, false, IfErr, IfOk, IsTrue, None, OnErr, OnOk, Some, option_copied};
ghost use Rattle.std.specs.Borrow.{sem};
ghost use Rattle.std.specs.Option.{option_copied_mut, option_map, unwrap_or};
ghost use Rattle.art_changing.specs.MapAnswers.{value_at};
ghost use Rattle.art_iterating.specs.MapItems.{deref_pair};
ghost use Rattle.art_model.specs.Pairs.{IsMap, first_of, has_key, of_key, put, put_reply, remove_key, remove_reply, with_key};
ghost use Rattle.art_keyed.specs.KeyedPairs.{HaveKeys};
ghost use Rattle.art_keyed.specs.KeyedValues.{CountsPut, CountsRemoved, KeepsOtherKeys};
ghost use Rattle.art_hinted.specs.HintedLends.{lends_put, lends_value};

use crate::hints::Hints;
use crate::secret::Secret;
use art_keyed::map::{PairRefused, TreeMap};
use art_keys::laws::NoPrefixesBytes;
use art_nodes::node::AsBytes;
use std::alloc::{AllocError, Global};
use std::hash::RandomState;
use std::marker::Model;

mod copies;
mod escaped_texts;
mod texts;

/// A `TreeMap` with a table of *hints*: by the hash of a key the name of its leaf. A call of a stored key reads the leaf
/// that is hinted at, and descends only if that has another key. So it waits for memory about twice, however deep the tree
/// is.
///
/// Hints change no result. They take five to eleven bytes a key, and grow with the map; if that finds no memory, they stay
/// as they are, and no call fails. `RandomState` draws the keys of the hash, so that nobody can choose keys of one hash.
/// Among such keys a call costs a descent and one comparison more.
#[derive(Drop)]
pub struct HintedMap<K: NoPrefixesBytes, V, const P: usize> {
    map: TreeMap<K, V, P>,
    hints: Hints,
}

impl<K: NoPrefixesBytes, V, const P: usize> Model for HintedMap<K, V, P> {
    ghost use Rattle.std.specs.Prelude.{List};
    ghost use Rattle.std.specs.Coded.{coded×, coded_list};

    ghost Value = { List (K × V) };

    ghost coded = { coded_list (coded× K.code V.code) };

    ghost view = { λ m. m.map };
}

impl<K: NoPrefixesBytes + Drop, V: Drop, const P: usize> HintedMap<K, V, P> {
    /// Returns an empty map, whose hashes have the keys of a `RandomState`. It allocates nothing.
    pub fn new(alloc: Global, state: RandomState) -> Self
        ensures { result ≡ [] }
    {
        HintedMap {
            map: TreeMap::new(alloc),
            hints: Hints::new(alloc, Secret::new(state)),
        }
    }

    /// Returns a map with the pairs of a `TreeMap`. It reads each key once.
    pub fn from_tree_map(map: TreeMap<K, V, P>, state: RandomState) -> Self
        ensures { result ≡ map }
    {
        let hints = Hints::of(&map, Secret::new(state));
        HintedMap { map, hints }
    }

    /// Returns the map as a `TreeMap`, for all calls that only read, such as `iter`, `prefix` and `longest_match`.
    pub fn as_tree_map(&self) -> &TreeMap<K, V, P>
        ensures { result.now ≡ self.now }
    {
        &self.map
    }

    /// Returns the pairs as a `TreeMap`, without the hints.
    pub fn into_tree_map(self) -> TreeMap<K, V, P>
        ensures { result ≡ self }
    {
        let HintedMap { map, hints: _ } = self;
        map
    }

    /// Returns the number of pairs.
    pub fn len(&self) -> usize
        ensures len { result ≡ length self.now }
        ensures sorted { IsMap (of_key K.bytes) self.now }
    {
        self.map.len()
    }

    /// Returns whether the map is empty.
    pub fn is_empty(&self) -> bool
        ensures { IsTrue result ↔ (self.now ≡ []) }
    {
        self.map.is_empty()
    }

    /// Returns whether a key is stored.
    #[inline]
    pub fn contains_key(&self, key: &K) -> bool
        ensures { result ≡ has_key (of_key K.bytes) (K.bytes key.now) self.now }
    {
        self.get_key_value(key).is_some()
    }

    /// Returns the value of a key, or `None` if the key is not stored.
    #[inline]
    pub fn get(&self, key: &K) -> Option<&V>
        ensures value { option_copied result ≡ value_at K.bytes (K.bytes key.now) self.now }
        ensures sorted { IsMap (of_key K.bytes) self.now }
    {
        self.map.len();
        let (_, value) = self.get_key_value(key)?;
        Some(value)
    }

    /// Returns the pair of a key, or `None` if the key is not stored.
    #[inline]
    pub fn get_key_value(&self, key: &K) -> Option<(&K, &V)>
        ensures { option_map deref_pair result ≡
            first_of (with_key (of_key K.bytes) (K.bytes key.now) self.now) }
    {
        let bytes = key.as_bytes();
        let near = self.hints.leaf_at(self.hints.hash_of(bytes));
        self.map.as_byte_map().get_key_value_near(near, bytes)
    }

    /// Returns a mutable reference to the value of a key, or `None` if the key is not stored.
    #[inline]
    pub fn get_mut(&mut self, key: &K) -> Option<&mut V>
        ensures* writes_back { sem 𝓛 (lends_value K.row V.row P.row K.NoPrefixesBytes
            self.entry (K.bytes key.now) result) }
        ensures value { option_copied_mut result ≡ value_at K.bytes (K.bytes key.now) self.old }
    {
        let bytes = key.as_bytes();
        let near = self.hints.leaf_at(self.hints.hash_of(bytes));
        self.map.get_mut_near(near, bytes)
    }

    /// Inserts a pair. If an equal key is stored, that key stays and gets the new value, and the key that was passed is
    /// returned with the old value; else `None` is returned.
    ///
    /// Fails only if an allocation of the tree fails, and never if an equal key is stored. The error returns the pair, and
    /// the map is unchanged.
    pub fn insert(&mut self, key: K, value: V) -> Result<Option<(K, V)>, PairRefused<K, V>>
        // If it succeeds.
        ensures pairs { OnOk result (self.new ≡ put (of_key K.bytes) (key, value) self.old) }
        ensures replaced { IfOk result (λ replaced.
            replaced ≡ put_reply (of_key K.bytes) (key, value) self.old) }
        ensures found { OnOk result
            (value_at K.bytes (K.bytes key) self.new ≡ Some value) }
        ensures others { OnOk result ((other : List ℕ) → other ≢ K.bytes key →
            value_at K.bytes other self.new ≡ value_at K.bytes other self.old) }
        ensures other_keys { OnOk result
            (KeepsOtherKeys K.is_key K.bytes key self.old self.new) }
        ensures len { IfOk result (λ replaced. CountsPut replaced self.old self.new) }
        // In any case.
        ensures sorted { IsMap (of_key K.bytes) self.new }

        // If it fails.
        ensures handed_back { IfErr result (λ refused.
            (refused.key ≡ key) × (refused.value ≡ value)) }
        ensures refused { OnErr result
            (has_key (of_key K.bytes) (K.bytes key) self.old ≡ false) }
        ensures kept { OnErr result (self.new ≡ self.old) }
    {
        self.hints.make_room(self.map.len());
        let hash = self.hints.hash_of(key.as_bytes());
        let known = self.hints.leaf_at(hash);
        let mut near = known;
        let done = self.map.insert_near(&mut near, key, value);
        self.hints.learn(hash, known, near);
        done
    }

    /// Returns a mutable reference to the value of a key. If no equal key is stored, the pair is inserted first; a key
    /// that is stored stays, with its value. Fails as `insert` does.
    pub fn get_or_insert(&mut self, key: K, value: V) -> Result<&mut V, PairRefused<K, V>>
        ensures* writes_back { sem 𝓛 (lends_put K.row V.row P.row K.NoPrefixesBytes
            self.entry key result) }
        ensures value { IfOk result (λ lent.
            lent.now ≡ unwrap_or (value_at K.bytes (K.bytes key) self.old) value) }
        ensures handed_back { IfErr result (λ refused.
            (refused.key ≡ key) × (refused.value ≡ value)) }
        ensures refused { OnErr result
            (has_key (of_key K.bytes) (K.bytes key) self.old ≡ false) }
    {
        let near = self.hints.foresee(&self.map, key.as_bytes());
        match self.map.get_or_insert_near(near, key, value) {
            Ok(lent) => Ok(lent),
            Err(refused) => Err(refused),
        }
    }

    /// Removes the pair of a key, and returns it, or `None` if the key is not stored. It costs what `remove` of a
    /// `TreeMap` does, and a hash. It allocates nothing and never fails.
    pub fn remove(&mut self, key: &K) -> Option<(K, V)>
        ensures pairs { self.new ≡ remove_key (of_key K.bytes) (K.bytes key.now) self.old }
        ensures removed { result ≡ remove_reply (of_key K.bytes) (K.bytes key.now) self.old }
        ensures gone { value_at K.bytes (K.bytes key.now) self.new ≡ None }
        ensures others { (other : List ℕ) → other ≢ K.bytes key.now →
            value_at K.bytes other self.new ≡ value_at K.bytes other self.old }
        ensures other_keys { KeepsOtherKeys K.is_key K.bytes key.now self.old self.new }
        ensures len { CountsRemoved result self.old self.new }
    {
        let hash = self.hints.hash_of(key.as_bytes());
        self.hints.forget(hash);
        self.map.remove(key)
    }

    /// Removes all pairs, as `clear` of a `TreeMap` does.
    pub fn clear(&mut self)
        ensures { self.new ≡ [] }
    {
        self.map.clear();
        self.hints.clear();
    }

    /// Moves the pairs into the order of their keys in memory, as `compact` of a `TreeMap` does, and makes their hints anew.
    /// Fails only if an allocation of the tree fails; then no pair has moved.
    pub fn compact(&mut self) -> Result<(), AllocError>
        ensures same { self.new ≡ self.old }
    {
        self.map.compact()?;
        self.hints = self.hints.again(&self.map);
        Ok(())
    }

    /// Frees memory that the map has for later pairs, as `shrink_to_fit` of a `TreeMap` does.
    pub fn shrink_to_fit(&mut self) -> Result<(), AllocError>
        ensures same { self.new ≡ self.old }
    {
        self.map.shrink_to_fit()
    }
}
