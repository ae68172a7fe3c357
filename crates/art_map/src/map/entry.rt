//! A map with a key, which may be stored or not.
ghost use Rattle.std.specs.Prelude.{◌≡◌, false, IfErr, IfOk, Ok, OnOk, Some, option_copied};
ghost use Rattle.std.specs.Borrow.{Bor, MutBor, sem};
ghost use Rattle.std.specs.Fn.{FnOnceReturnsAt};
ghost use Rattle.std.specs.Option.{UnwrapsOrElse, unwrap_or};
ghost use Rattle.art_model.specs.Pairs.{has_key, is_conflict, of_key, remove_key, remove_reply};
ghost use Rattle.art_changing.specs.MapAnswers.{IsRefusalOf, IsRefusalOfMade, value_at};
ghost use Rattle.art_map.specs.MapCalls.{IsMakeRefusal, Modifies};
ghost use Rattle.art_map.specs.MapLends.{lends_put};

use super::{ByteMap, MapInsertError, MapMakeError};
use art_nodes::node::{AsBytes, LeafPtr};

/// A map and a key, which may be stored there or not.
#[derive(Drop)]
pub struct EntryOf<'a, K, M> {
    pub(crate) map: &'a mut M,
    pub(crate) key: K,
    // The leaf that had the key when its value was changed.
    pub(crate) leaf: Option<LeafPtr>,
}

/// The entry of a `ByteMap` with such keys.
pub type Entry<'a, K, V, const P: usize> = EntryOf<'a, K, ByteMap<K, V, P>>;

impl<'a, K: AsBytes + Drop, V: Drop, const P: usize> EntryOf<'a, K, ByteMap<K, V, P>> {
    /// Returns the key.
    pub fn key(&self) -> &K
        ensures { result.now ≡ self.now.key }
    {
        &self.key
    }

    /// Returns the value of the key, or `None` if it is not stored. It is a single descent.
    pub fn get(&self) -> Option<&V>
        ensures { option_copied result ≡
            value_at K.bytes (K.bytes self.now.key) self.now.map.now }
    {
        self.map.get(self.key.as_bytes())
    }

    /// Calls the closure on the value of the key, if that is stored, and returns the entry.
    ///
    /// It is a single descent. The entry keeps the leaf that it finds: an `or_` call that follows reads this leaf and
    /// does not descend.
    pub fn and_modify<F: FnOnce(&mut V)>(self, f: F) -> Self
        requires { (value : MutBor V) →
            value_at K.bytes (K.bytes self.key) self.map.now ≡ Some value.now → F.pre f value }
        ensures same_map { result.map.ghost_name ≡ self.entry.map.ghost_name }
        ensures key { result.key ≡ self.entry.key }
        ensures pairs { Modifies F.FnOnce f K.bytes (K.bytes self.entry.key)
            self.entry.map.now result.map.now }
    {
        let EntryOf { map, key, leaf: _ } = self;
        let leaf = map.modify(key.as_bytes(), f);
        EntryOf { map, key, leaf }
    }

    /// Removes the pair of the key, and returns it; `None` if no equal key is stored. It costs what `remove` of the map
    /// does, and never fails.
    pub fn remove(self) -> Option<(K, V)>
        ensures removed { result ≡ remove_reply (of_key K.bytes)
            (K.bytes self.entry.key) self.entry.map.now }
        ensures pairs { self.exit.0.now ≡ remove_key (of_key K.bytes)
            (K.bytes self.entry.key) self.entry.map.now }
    {
        let EntryOf { map, key, leaf: _ } = self;
        map.remove_by(key.as_bytes())
    }

    /// Returns the value of the key as `&mut V`. If no equal key is stored, the pair is inserted first, by the same
    /// descent. The errors are those of `insert`.
    pub fn or_insert(self, value: V) -> Result<&'a mut V, MapInsertError<K, V>>
        ensures* writes_back { sem 𝓛 (lends_put K.row V.row P.row K.AsBytes
            self.entry.map self.entry.key result) }
        ensures value { IfOk result (λ lent. lent.now ≡ unwrap_or
            (value_at K.bytes (K.bytes self.entry.key) self.entry.map.now) value) }
        ensures accepted { OnOk result (is_conflict (of_key K.bytes)
            (K.bytes self.entry.key) self.entry.map.now ≡ false) }
        ensures refused { IfErr result
            (IsRefusalOf K.bytes self.entry.key value self.entry.map.now) }
    {
        let EntryOf { map, key, leaf } = self;
        map.get_or_insert_near(leaf, key, value)
    }

    /// Returns what `or_insert` does, with a value that is made from the key. The closure is called only if no equal
    /// key is stored. It is called even if the insertion fails; the error returns the pair.
    pub fn or_insert_with_key<F: FnOnce(&K) -> V>(
        self,
        make: F,
    ) -> Result<&'a mut V, MapInsertError<K, V>>
        requires { has_key (of_key K.bytes) (K.bytes self.key) self.map.now ≡ false →
            (p : Bor K) → p.now ≡ self.key → F.pre make p }
        ensures* writes_back { sem 𝓛 (lends_put K.row V.row P.row K.AsBytes
            self.entry.map self.entry.key result) }
        ensures value { IfOk result (λ lent. UnwrapsOrElse
            (value_at K.bytes (K.bytes self.entry.key) self.entry.map.now)
            (FnOnceReturnsAt F.FnOnce make self.entry.key) lent.now) }
        ensures accepted { OnOk result (is_conflict (of_key K.bytes)
            (K.bytes self.entry.key) self.entry.map.now ≡ false) }
        ensures refused { IfErr result (IsRefusalOfMade K.bytes self.entry.key
            (FnOnceReturnsAt F.FnOnce make self.entry.key) self.entry.map.now) }
    {
        let EntryOf { map, key, leaf } = self;
        map.value_or_make(key, leaf, make)
    }

    /// Returns what `or_insert` does, with a value that is made. The closure is called only if no equal key is stored.
    /// It is called even if the insertion fails; the error returns the pair.
    pub fn or_insert_with<F: FnOnce() -> V>(
        self,
        make: F,
    ) -> Result<&'a mut V, MapInsertError<K, V>>
        requires { has_key (of_key K.bytes) (K.bytes self.key) self.map.now ≡ false → F.pre make }
        ensures* writes_back { sem 𝓛 (lends_put K.row V.row P.row K.AsBytes
            self.entry.map self.entry.key result) }
        ensures value { IfOk result (λ lent. UnwrapsOrElse
            (value_at K.bytes (K.bytes self.entry.key) self.entry.map.now)
            (F.post make) lent.now) }
        ensures accepted { OnOk result (is_conflict (of_key K.bytes)
            (K.bytes self.entry.key) self.entry.map.now ≡ false) }
        ensures refused { IfErr result (IsRefusalOfMade K.bytes self.entry.key
            (F.post make) self.entry.map.now) }
    {
        self.or_insert_with_key(|_| make())
    }

    /// Returns what `or_insert_with` does, with a closure that may fail. If it does, its error is returned with the
    /// key, and the map is unchanged.
    pub fn or_try_insert_with<E: Drop, F: FnOnce() -> Result<V, E>>(
        self,
        make: F,
    ) -> Result<&'a mut V, MapMakeError<K, V, E>>
        requires { has_key (of_key K.bytes) (K.bytes self.key) self.map.now ≡ false → F.pre make }
        ensures* writes_back { sem 𝓛 (lends_put K.row V.row P.row K.AsBytes
            self.entry.map self.entry.key result) }
        ensures value { IfOk result (λ lent. UnwrapsOrElse
            (value_at K.bytes (K.bytes self.entry.key) self.entry.map.now)
            (λ value. F.post make (Ok value)) lent.now) }
        ensures accepted { OnOk result (is_conflict (of_key K.bytes)
            (K.bytes self.entry.key) self.entry.map.now ≡ false) }
        ensures refused { IfErr result (IsMakeRefusal K.bytes self.entry.key
            (F.post make) self.entry.map.now) }
    {
        let EntryOf { map, key, leaf } = self;
        map.value_or_try(key, leaf, make)
    }

    /// Returns what `or_insert` does, with the default value of the type.
    pub fn or_default(self) -> Result<&'a mut V, MapInsertError<K, V>>
    where
        V: Default,
        ensures* writes_back { sem 𝓛 (lends_put K.row V.row P.row K.AsBytes
            self.entry.map self.entry.key result) }
        ensures value { IfOk result (λ lent. UnwrapsOrElse
            (value_at K.bytes (K.bytes self.entry.key) self.entry.map.now)
            V.is_default lent.now) }
        ensures accepted { OnOk result (is_conflict (of_key K.bytes)
            (K.bytes self.entry.key) self.entry.map.now ≡ false) }
        ensures refused { IfErr result (IsRefusalOfMade K.bytes self.entry.key
            V.is_default self.entry.map.now) }
    {
        self.or_insert_with_key(|_| V::default())
    }
}
