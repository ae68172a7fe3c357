//! The value of a key as `&mut V`, and values that are made for new keys.
ghost use Rattle.std.specs.Prelude.{◌≡◌, false, IfErr, IfOk, Ok, OnOk, Some};
ghost use Rattle.std.specs.Borrow.{Bor, MutBor, sem};
ghost use Rattle.std.specs.Fn.{FnOnceReturnsAt};
ghost use Rattle.std.specs.Option.{UnwrapsOrElse, unwrap_or};
ghost use Rattle.art_model.specs.Pairs.{has_key, is_conflict, of_key};
ghost use Rattle.art_changing.specs.MapAnswers.{IsRefusalOf, IsRefusalOfMade, value_at};
ghost use Rattle.art_map.specs.MapCalls.{IsMakeRefusal, Modifies};
ghost use Rattle.art_map.specs.MapLends.{lends_put};

use super::position::{enter, leaf_made, leaf_tried, position_near};
use super::{ByteMap, MapInsertError, MapMakeError};
use art_nodes::node::{AsBytes, LeafPtr};
use art_reading::lookup::search_unchecked;

impl<K: AsBytes + Drop, V: Drop, const P: usize> ByteMap<K, V, P> {
    /// Returns what `get_or_insert` does, with a value that is made from the key. The closure is called only if no
    /// equal key is stored. It is called even if the insertion fails; the error returns the pair.
    pub fn get_or_insert_with<F: FnOnce(&K) -> V>(
        &mut self,
        key: K,
        make: F,
    ) -> Result<&mut V, MapInsertError<K, V>>
        requires { has_key (of_key K.bytes) (K.bytes key) self.old ≡ false →
            (p : Bor K) → p.now ≡ key → F.pre make p }
        ensures* writes_back { sem 𝓛
            (lends_put K.row V.row P.row K.AsBytes self.entry key result) }
        ensures value { IfOk result (λ lent. UnwrapsOrElse
            (value_at K.bytes (K.bytes key) self.old)
            (FnOnceReturnsAt F.FnOnce make key) lent.now) }
        ensures accepted { OnOk result
            (is_conflict (of_key K.bytes) (K.bytes key) self.old ≡ false) }
        ensures refused { IfErr result (IsRefusalOfMade K.bytes key
            (FnOnceReturnsAt F.FnOnce make key) self.old) }
    {
        self.value_or_make(key, None, make)
    }

    // Calls the closure on the value of the key with these bytes, and returns its leaf.
    pub(super) fn modify<F: FnOnce(&mut V)>(&mut self, key_bytes: &[u8], f: F) -> Option<LeafPtr>
        requires { (value : MutBor V) →
            value_at K.bytes key_bytes.now self.old ≡ Some value.now → F.pre f value }
        ensures { Modifies F.FnOnce f K.bytes key_bytes.now self.old self.new }
    {
        let leaf = search_unchecked(&self.store, self.root?, key_bytes)?;
        let value = self.store.value_mut(leaf).unwrap();
        f(value);
        Some(leaf)
    }

    /// Returns what `get_or_insert` does. The leaf of this name, if there is one, is read first: if it has the key, there
    /// is no descent.
    pub fn get_or_insert_near(
        &mut self,
        near: Option<LeafPtr>,
        key: K,
        value: V,
    ) -> Result<&mut V, MapInsertError<K, V>>
        ensures* writes_back { sem 𝓛
            (lends_put K.row V.row P.row K.AsBytes self.entry key result) }
        ensures value { IfOk result (λ lent.
            lent.now ≡ unwrap_or (value_at K.bytes (K.bytes key) self.old) value) }
        ensures accepted { OnOk result
            (is_conflict (of_key K.bytes) (K.bytes key) self.old ≡ false) }
        ensures refused { IfErr result (IsRefusalOf K.bytes key value self.old) }
    {
        let position = position_near(&self.store, self.root, near, key.as_bytes());
        let leaf = match enter(
            &mut self.store,
            &mut self.root,
            &mut self.len,
            position,
            key,
            value,
        ) {
            Ok(leaf) => leaf,
            Err(error) => return Err(error),
        };
        Ok(self.store.value_mut(leaf).unwrap())
    }

    // The same, with a value that is made if no equal key is stored. The leaf is one that had the key, if one is known.
    pub(super) fn value_or_make<F: FnOnce(&K) -> V>(
        &mut self,
        key: K,
        leaf: Option<LeafPtr>,
        make: F,
    ) -> Result<&mut V, MapInsertError<K, V>>
        requires { has_key (of_key K.bytes) (K.bytes key) self.old ≡ false →
            (p : Bor K) → p.now ≡ key → F.pre make p }
        ensures* writes_back { sem 𝓛
            (lends_put K.row V.row P.row K.AsBytes self.entry key result) }
        ensures value { IfOk result (λ lent. UnwrapsOrElse
            (value_at K.bytes (K.bytes key) self.old)
            (FnOnceReturnsAt F.FnOnce make key) lent.now) }
        ensures accepted { OnOk result
            (is_conflict (of_key K.bytes) (K.bytes key) self.old ≡ false) }
        ensures refused { IfErr result (IsRefusalOfMade K.bytes key
            (FnOnceReturnsAt F.FnOnce make key) self.old) }
    {
        let position = position_near(&self.store, self.root, leaf, key.as_bytes());
        let leaf = match leaf_made(
            &mut self.store,
            &mut self.root,
            &mut self.len,
            position,
            key,
            make,
        ) {
            Ok(leaf) => leaf,
            Err(error) => return Err(error),
        };
        Ok(self.store.value_mut(leaf).unwrap())
    }

    // The same, with a closure that may fail to make the value.
    pub(super) fn value_or_try<E: Drop, F: FnOnce() -> Result<V, E>>(
        &mut self,
        key: K,
        leaf: Option<LeafPtr>,
        make: F,
    ) -> Result<&mut V, MapMakeError<K, V, E>>
        requires { has_key (of_key K.bytes) (K.bytes key) self.old ≡ false → F.pre make }
        ensures* writes_back { sem 𝓛
            (lends_put K.row V.row P.row K.AsBytes self.entry key result) }
        ensures value { IfOk result (λ lent. UnwrapsOrElse
            (value_at K.bytes (K.bytes key) self.old)
            (λ value. F.post make (Ok value)) lent.now) }
        ensures accepted { OnOk result
            (is_conflict (of_key K.bytes) (K.bytes key) self.old ≡ false) }
        ensures refused { IfErr result (IsMakeRefusal K.bytes key (F.post make) self.old) }
    {
        let position = position_near(&self.store, self.root, leaf, key.as_bytes());
        let leaf = match leaf_tried(
            &mut self.store,
            &mut self.root,
            &mut self.len,
            position,
            key,
            make,
        ) {
            Ok(leaf) => leaf,
            Err(error) => return Err(error),
        };
        Ok(self.store.value_mut(leaf).unwrap())
    }
}
