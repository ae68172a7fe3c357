//! Calls that first read a leaf which may have the key. The name of a leaf is a hint: one of another leaf, or of none, costs
//! a descent and changes no result. A map keeps the name of a key's leaf until the key is removed or the map is compacted
//! or cloned.
ghost use Rattle.std.specs.Prelude.{◌≡◌, ◌≢◌, is_some, List, OnErr, IfErr, IfOk, IfSome, OnOk, Some, false, true, ℕ};
ghost use Rattle.std.specs.Borrow.{sem};
ghost use Rattle.std.specs.Option.{option_copied_mut, option_map};
ghost use Rattle.art_model.specs.Pairs.{IsMap, first_of, has_key, is_conflict, of_key, put, put_reply, with_key};
ghost use Rattle.art_changing.specs.MapAnswers.{IsRefusalOf, value_at};
ghost use Rattle.art_changing.specs.PairChanges.{HasPut};
ghost use Rattle.art_iterating.specs.MapItems.{deref_pair};
ghost use Rattle.art_map.specs.MapLends.{lends_value};
ghost use Rattle.art_changing.specs.MapPairs.{HoldsPairs, pairs_at};

use super::position::{has_key_at, leaf_near};
use super::{ByteMap, MapInsertError, pair_at};
use art_changing::insert::put_in;
use art_nodes::node::{AsBytes, LeafPtr, OpaqueNodePtr};
use art_nodes::store::NodeStore;
use art_reading::lookup::KeyQuery;
use art_reading::minmax::minimum_unchecked;

impl<K: AsBytes + Drop, V: Drop, const P: usize> ByteMap<K, V, P> {
    /// Returns the pair of the key that is asked for, or `None` if it is not stored. The leaf of this name, if there is
    /// one, is read first: if it has the key, there is no descent.
    #[inline(always)]
    pub fn get_key_value_near<Q: KeyQuery>(
        &self,
        near: Option<LeafPtr>,
        query: Q,
    ) -> Option<(&K, &V)>
        ensures { option_map deref_pair result ≡
            first_of (with_key (of_key K.bytes) (Q.key query) self.now) }
    {
        let leaf = leaf_near(&self.store, self.root?, near, query)?;
        Some(pair_at(&self.store, leaf))
    }

    /// Returns the value of the key that is asked for as `&mut V`, or `None` if it is not stored. The leaf of this name,
    /// if there is one, is read first: if it has the key, there is no descent.
    #[inline(always)]
    pub fn get_mut_near<Q: KeyQuery>(&mut self, near: Option<LeafPtr>, query: Q) -> Option<&mut V>
        ensures* writes_back { sem 𝓛
            (lends_value K.row V.row P.row K.AsBytes self.entry (Q.key query) result) }
        ensures value { option_copied_mut result ≡ value_at K.bytes (Q.key query) self.old }
    {
        let leaf = leaf_near(&self.store, self.root?, near, query)?;
        self.store.value_mut(leaf)
    }

    /// Returns the name of the leaf of the key that is asked for, or `None` if it is not stored. The leaf of this name, if
    /// there is one, is read first: if it has the key, there is no descent.
    #[inline(always)]
    pub fn leaf_near<Q: KeyQuery>(&self, near: Option<LeafPtr>, query: Q) -> Option<LeafPtr>
        ensures { is_some result ≡ has_key (of_key K.bytes) (Q.key query) self.now }
    {
        leaf_near(&self.store, self.root?, near, query)
    }

    /// Inserts a pair as `insert` does. The leaf of this name, if there is one, is read first: if it has the key, there
    /// is no descent. If it succeeds, the name is then that of the key's leaf, or `None` for the first pair of a map.
    pub fn insert_near(
        &mut self,
        near: &mut Option<LeafPtr>,
        key: K,
        value: V,
    ) -> Result<Option<(K, V)>, MapInsertError<K, V>>
        // If it succeeds.
        ensures pairs { OnOk result (self.new ≡ put (of_key K.bytes) (key, value) self.old) }
        ensures replaced { IfOk result (λ replaced.
            replaced ≡ put_reply (of_key K.bytes) (key, value) self.old) }
        ensures found { OnOk result
            (value_at K.bytes (K.bytes key) self.new ≡ Some value) }
        ensures others { OnOk result ((other : List ℕ) → other ≢ K.bytes key →
            value_at K.bytes other self.new ≡ value_at K.bytes other self.old) }
        ensures accepted { OnOk result
            (is_conflict (of_key K.bytes) (K.bytes key) self.old ≡ false) }
        // In any case.
        ensures was_sorted { IsMap (of_key K.bytes) self.old }
        ensures sorted { IsMap (of_key K.bytes) self.new }

        // If it fails.
        ensures refused { IfErr result (IsRefusalOf K.bytes key value self.old) }
        ensures kept { OnErr result (self.new ≡ self.old) }
    {
        put_near(
            &mut self.store,
            &mut self.root,
            &mut self.len,
            near,
            key,
            value,
        )
    }

    /// Returns a leaf's name and its key: of the leaf after the one of this name, in the order of keys, or of the first
    /// leaf. Returns `None` after the last leaf, and for the name of no leaf.
    pub fn named_after(&self, near: Option<LeafPtr>) -> Option<(LeafPtr, &K)>
        ensures { IfSome result (λ named.
            has_key (of_key K.bytes) (K.bytes named.1.now) self.now ≡ true) }
    {
        let name = match near {
            Some(leaf) => self.store.leaf(leaf)?.next?,
            None => minimum_unchecked(&self.store, self.root?),
        };
        let leaf = self.store.leaf(name)?;
        Some((name, &leaf.key))
    }
}

// Inserts a pair into the tree. A leaf that had the key is read first.
fn put_near<K: AsBytes + Drop, V: Drop, const P: usize>(
    store: &mut NodeStore<K, V, P>,
    root: &mut Option<OpaqueNodePtr>,
    len: &mut usize,
    near: &mut Option<LeafPtr>,
    key: K,
    value: V,
) -> Result<Option<(K, V)>, MapInsertError<K, V>>
    requires { HoldsPairs (of_key K.bytes) P store.old root.old len.old
        (pairs_at store.old root.old) }
    ensures { HasPut K.bytes P (pairs_at store.old root.old) key value result
        store.new root.new len.new }
{
    if let Some(leaf) = *near {
        if has_key_at(store, leaf, key.as_bytes()) {
            return Ok(Some((key, store.swap_value(leaf, value))));
        }
    }
    put_in(store, root, len, near, key, value)
}
