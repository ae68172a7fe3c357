//! Entries: a map with a key, which may be stored or not.
ghost use Rattle.std.specs.Prelude.{◌≡◌, false, IfErr, IfOk, OnErr, Some, option_copied};
ghost use Rattle.std.specs.Borrow.{Bor, MutBor, sem};
ghost use Rattle.std.specs.Fn.{FnOnceReturnsAt};
ghost use Rattle.std.specs.Option.{UnwrapsOrElse, unwrap_or};
ghost use Rattle.art_model.specs.Pairs.{has_key, of_key, remove_key, remove_reply};
ghost use Rattle.art_changing.specs.MapAnswers.{value_at};
ghost use Rattle.art_map.specs.MapCalls.{Modifies};
ghost use Rattle.art_keyed.specs.KeyedLends.{lends_put};

use super::{PairRefused, TreeMap};
use art_keys::laws::NoPrefixesBytes;

/// An entry: a map and a key, which may be stored there or not.
#[derive(Drop)]
pub struct TreeEntryOf<'a, K, M> {
    pub(crate) map: &'a mut M,
    pub(crate) key: K,
}

/// An entry of a `TreeMap`.
pub type TreeEntry<'a, K, V, const P: usize> = TreeEntryOf<'a, K, TreeMap<K, V, P>>;

impl<'a, K: NoPrefixesBytes + Drop, V: Drop, const P: usize> TreeEntryOf<'a, K, TreeMap<K, V, P>> {
    /// Returns the key.
    pub fn key(&self) -> &K
        ensures { result.now ≡ self.now.key }
    {
        &self.key
    }

    /// Returns the value of the key, or `None` if the key is not stored, with a single descent.
    pub fn get(&self) -> Option<&V>
        ensures { option_copied result ≡
            value_at K.bytes (K.bytes self.now.key) self.now.map.now }
    {
        self.map.get(&self.key)
    }

    /// Calls the closure with a mutable reference to the value of the key, if the key is stored, and returns the entry.
    /// It costs what `get_mut` of the map does.
    pub fn and_modify<F: FnOnce(&mut V)>(self, f: F) -> Self
        requires { (value : MutBor V) →
            value_at K.bytes (K.bytes self.key) self.map.now ≡ Some value.now → F.pre f value }
        ensures same_map { result.map.ghost_name ≡ self.entry.map.ghost_name }
        ensures key { result.key ≡ self.entry.key }
        ensures pairs { Modifies F.FnOnce f K.bytes (K.bytes self.entry.key)
            self.entry.map.now result.map.now }
    {
        let TreeEntryOf { map, key } = self;
        if let Some(value) = map.get_mut(&key) {
            f(value);
        }
        TreeEntryOf { map, key }
    }

    /// Removes the pair of the key, and returns it, or `None` if the key is not stored. It costs what `remove` of the
    /// map does, and never fails.
    pub fn remove(self) -> Option<(K, V)>
        ensures removed { result ≡ remove_reply (of_key K.bytes)
            (K.bytes self.entry.key) self.entry.map.now }
        ensures pairs { self.exit.0.now ≡ remove_key (of_key K.bytes)
            (K.bytes self.entry.key) self.entry.map.now }
    {
        let TreeEntryOf { map, key } = self;
        map.remove(&key)
    }

    /// Returns a mutable reference to the value of the key. If no equal key is stored, the pair is inserted first, in
    /// the same descent. Fails as `insert` of the map does.
    pub fn or_insert(self, value: V) -> Result<&'a mut V, PairRefused<K, V>>
        ensures* writes_back { sem 𝓛 (lends_put K.row V.row P.row K.NoPrefixesBytes
            self.entry.map self.entry.key result) }
        ensures value { IfOk result (λ lent. lent.now ≡ unwrap_or
            (value_at K.bytes (K.bytes self.entry.key) self.entry.map.now) value) }
        ensures handed_back { IfErr result (λ refused.
            (refused.key ≡ self.entry.key) × (refused.value ≡ value)) }
        ensures refused { OnErr result (has_key (of_key K.bytes)
            (K.bytes self.entry.key) self.entry.map.now ≡ false) }
    {
        let TreeEntryOf { map, key } = self;
        map.get_or_insert(key, value)
    }

    /// Does what `or_insert` does, with a value that the closure makes of the key. The closure is called only if no
    /// equal key is stored. If the insertion then fails, the error returns the key and the value that was made.
    pub fn or_insert_with_key<F: FnOnce(&K) -> V>(
        self,
        make: F,
    ) -> Result<&'a mut V, PairRefused<K, V>>
        requires { has_key (of_key K.bytes) (K.bytes self.key) self.map.now ≡ false →
            (p : Bor K) → p.now ≡ self.key → F.pre make p }
        ensures* writes_back { sem 𝓛 (lends_put K.row V.row P.row K.NoPrefixesBytes
            self.entry.map self.entry.key result) }
        ensures value { IfOk result (λ lent. UnwrapsOrElse
            (value_at K.bytes (K.bytes self.entry.key) self.entry.map.now)
            (FnOnceReturnsAt F.FnOnce make self.entry.key) lent.now) }
        ensures handed_back { IfErr result (λ refused. (refused.key ≡ self.entry.key) ×
            FnOnceReturnsAt F.FnOnce make self.entry.key refused.value) }
        ensures refused { OnErr result (has_key (of_key K.bytes)
            (K.bytes self.entry.key) self.entry.map.now ≡ false) }
    {
        let TreeEntryOf { map, key } = self;
        map.get_or_insert_with(key, make)
    }

    /// Does what `or_insert` does, with a value that the closure makes. The closure is called only if no equal key is
    /// stored. If the insertion then fails, the error returns the key and the value that was made.
    pub fn or_insert_with<F: FnOnce() -> V>(self, make: F) -> Result<&'a mut V, PairRefused<K, V>>
        requires { has_key (of_key K.bytes) (K.bytes self.key) self.map.now ≡ false → F.pre make }
        ensures* writes_back { sem 𝓛 (lends_put K.row V.row P.row K.NoPrefixesBytes
            self.entry.map self.entry.key result) }
        ensures value { IfOk result (λ lent. UnwrapsOrElse
            (value_at K.bytes (K.bytes self.entry.key) self.entry.map.now)
            (F.post make) lent.now) }
        ensures handed_back { IfErr result (λ refused. (refused.key ≡ self.entry.key) ×
            F.post make refused.value) }
        ensures refused { OnErr result (has_key (of_key K.bytes)
            (K.bytes self.entry.key) self.entry.map.now ≡ false) }
    {
        self.or_insert_with_key(|_| make())
    }

    /// Does what `or_insert` does, with the default value of the type.
    pub fn or_default(self) -> Result<&'a mut V, PairRefused<K, V>>
    where
        V: Default,
        ensures* writes_back { sem 𝓛 (lends_put K.row V.row P.row K.NoPrefixesBytes
            self.entry.map self.entry.key result) }
        ensures value { IfOk result (λ lent. UnwrapsOrElse
            (value_at K.bytes (K.bytes self.entry.key) self.entry.map.now)
            V.is_default lent.now) }
        ensures handed_back { IfErr result (λ refused. (refused.key ≡ self.entry.key) ×
            V.is_default refused.value) }
        ensures refused { OnErr result (has_key (of_key K.bytes)
            (K.bytes self.entry.key) self.entry.map.now ≡ false) }
    {
        self.or_insert_with_key(|_| V::default())
    }
}
