//! An ordered map from keys of bytes to values. Its contracts speak of lists of pairs alone.
ghost use Rattle.std.specs.Prelude.{◌≡◌, ◌≢◌, ◌+◌, ◌^◌, ◌<◌, ◌↔◌, ℕ, List, [], length, false, IsOk, IsTrue, IfOk, IfErr, OnOk, OnErr, None, Some, option_copied, IsSome};
ghost use Rattle.std.specs.FinMap as map;
ghost use Rattle.std.specs.Borrow.{sem};
ghost use Rattle.std.specs.Option.{option_copied_mut, option_map, unwrap_or};
ghost use Rattle.std.specs.Range.Bound.{bound_map};
ghost use Rattle.std.specs.declared.ops.Bound.TheVariants.{Unbounded};
ghost use Rattle.art_model.specs.Pairs.{IsMap, first_of, has_key, is_conflict, last_of, match_of, of_key, overwrite, put, put_reply, related_to, remove_key, remove_reply, with_key, without_first, without_last};
ghost use Rattle.art_model.specs.Parts.{below, between, not_below, without_below};
ghost use Rattle.art_model.specs.Stores.{pair_of};
ghost use Rattle.art_reading.specs.Descents.{asked_of};
ghost use Rattle.art_iterating.specs.MapItems.{deref_pair, keys_of, values_of};
ghost use Rattle.art_changing.specs.MapPairs.{HoldsPairs, pairs_at};

use art_changing::insert::{put_in, put_over};
use art_changing::remove::{take_all, take_below, take_first, take_last};
use art_nodes::node::{AsBytes, LeafNode, LeafPtr, OpaqueNodePtr};
use art_nodes::store::NodeStore;
use art_ranges::range::{first_from_unchecked, last_up_to_unchecked};
use art_reading::iterator::RawIterator;
use art_reading::lookup::{Asked, KeyBytes, KeyQuery, find_unchecked, search_unchecked};
use art_reading::minmax::{maximum_unchecked, minimum_unchecked};
use std::alloc::Global;
use std::fmt;
use std::marker::Model;
use std::ops::{Bound, Index, RangeBounds};
use thiserror::Error;

mod both;
mod clone;
mod compact;
mod compared;
mod each;
mod entry;
mod extend;
mod extract;
mod lend;
mod near;
mod owned;
mod position;
mod queried;
mod replace;
mod retain;
mod split;
mod texts;
mod to_key;
mod tree;

pub use art_changing::insert::MapInsertError;
pub use art_iterating::iter::{Leaves, MapIter, MapIterOf};
pub use art_iterating::parts::{Keys, KeysOf, Values, ValuesOf};
pub use art_iterating::range::{Range, RangeOf};
pub use art_writing::insert::PairRefused;
pub use both::BothInsertError;
pub use entry::{Entry, EntryOf};
pub use extract::{ExtractPrefix, ExtractPrefixOf, ExtractRange, ExtractRangeOf};
use owned::whole_walk;
pub use owned::{IntoIter, IntoKeys, IntoValues};
pub use split::SplitRefused;
pub use to_key::{MapSourceError, ToKey};

/// A value that was not made for an entry, or whose pair was not inserted.
#[derive(Debug, Drop, Error)]
pub enum MapMakeError<K, V, E> {
    /// The closure failed, and no equal key is stored. The key that was passed is returned.
    #[error("the value was not made")]
    Make { key: K, error: E },
    /// The value was made, but not inserted. It is returned with its key.
    #[error("{0}")]
    Insert(MapInsertError<K, V>),
}

/// A failed removal. No call returns one: a removal allocates nothing.
#[derive(Clone, Copy, PartialEq, Eq, Debug, Error)]
#[error("memory allocation failed")]
pub struct MapRefused;

/// A map whose keys are in the order of their bytes. No key is a prefix of another.
#[derive(Drop)]
pub struct ByteMap<K: AsBytes, V, const P: usize> {
    store: NodeStore<K, V, P>,
    root: Option<OpaqueNodePtr>,
    len: usize,
}

impl<K: AsBytes, V, const P: usize> Model for ByteMap<K, V, P> {
    ghost use Rattle.std.specs.Prelude.{List};
    ghost use Rattle.std.specs.Coded.{coded×, coded_list};

    ghost Value = { List (K × V) };

    ghost coded = { coded_list (coded× K.code V.code) };

    ghost use Rattle.art_model.specs.Pairs.{of_key};
    ghost use Rattle.art_changing.specs.MapPairs.{HoldsPairs, pairs_at};

    ghost view = { λ m. pairs_at m.store m.root };

    ghost invariant = { λ m.
        HoldsPairs (of_key K.bytes) P m.store m.root m.len (pairs_at m.store m.root) };
}

impl<K: AsBytes + Drop, V: Drop, const P: usize> ByteMap<K, V, P> {
    ghost use Rattle.art_changing.specs.MapAnswers.{IsRefusalOf, value_at};
    ghost use Rattle.art_map.specs.MapLends.{lends_put, lends_value};

    /// Returns an empty map, without an allocation.
    pub fn new(alloc: Global) -> Self
        ensures { result ≡ [] }
    {
        ByteMap {
            store: NodeStore::new(alloc),
            root: None,
            len: 0,
        }
    }

    /// Returns the allocator of the map.
    pub fn allocator(&self) -> Global {
        self.store.alloc()
    }

    /// Returns the number of pairs, in constant time.
    pub fn len(&self) -> usize
        ensures len { result ≡ length self.now }
        ensures sorted { IsMap (of_key K.bytes) self.now }
    {
        self.len
    }

    /// Returns whether the map has no pairs.
    pub fn is_empty(&self) -> bool
        ensures { IsTrue result ↔ (self.now ≡ []) }
    {
        self.len == 0
    }

    /// Returns whether a key with these bytes is stored. It is a single descent along them.
    pub fn contains_key(&self, key_bytes: &[u8]) -> bool
        ensures { result ≡ has_key (of_key K.bytes) key_bytes.now self.now }
    {
        self.get(key_bytes).is_some()
    }

    /// Returns the value of the key with these bytes, or `None` if it is not stored. It is a single descent along them.
    pub fn get(&self, key_bytes: &[u8]) -> Option<&V>
        ensures value { option_copied result ≡ value_at K.bytes key_bytes.now self.now }
        ensures sorted { IsMap (of_key K.bytes) self.now }
    {
        let leaf = self.find(key_bytes, Asked::Same)?;
        Some(&leaf.value)
    }

    /// Returns the pair of the key with these bytes, or `None` if it is not stored. It costs what `get` does.
    pub fn get_key_value(&self, key_bytes: &[u8]) -> Option<(&K, &V)>
        ensures { option_map deref_pair result ≡
            first_of (with_key (of_key K.bytes) key_bytes.now self.now) }
    {
        let leaf = self.find(key_bytes, Asked::Same)?;
        Some((&leaf.key, &leaf.value))
    }

    // The leaf of the key that is asked for.
    #[inline(always)]
    fn find<Q: KeyQuery>(&self, query: Q, asked: Asked) -> Option<&LeafNode<K, V>>
        ensures pair { option_map (λ leaf. pair_of leaf.now) result ≡
            first_of (asked_of asked (of_key K.bytes) (Q.key query) self.now) }
        ensures sorted { IsMap (of_key K.bytes) self.now }
    {
        find_unchecked(&self.store, self.root?, query, asked)
    }

    /// Returns the value of the key with these bytes as `&mut V`, or `None` if it is not stored. It costs what `get`
    /// does.
    pub fn get_mut(&mut self, key_bytes: &[u8]) -> Option<&mut V>
        ensures* writes_back { sem 𝓛
            (lends_value K.row V.row P.row K.AsBytes self.entry key_bytes.now result) }
        ensures value { option_copied_mut result ≡ value_at K.bytes key_bytes.now self.old }
    {
        let leaf = search_unchecked(&self.store, self.root?, key_bytes)?;
        self.store.value_mut(leaf)
    }

    /// Returns the pair whose key is a prefix of the query, or `None`. There is at most one such pair. It is a single
    /// descent along the query.
    pub fn longest_match(&self, query: &[u8]) -> Option<(&K, &V)>
        ensures pair { option_map deref_pair result ≡
            first_of (match_of (of_key K.bytes) query.now self.now) }
        ensures sorted { IsMap (of_key K.bytes) self.now }
    {
        let leaf = self.find(query, Asked::Front)?;
        Some((&leaf.key, &leaf.value))
    }

    /// Returns the first pair, or `None` if there is none. It reads one inner node for each level.
    pub fn first_key_value(&self) -> Option<(&K, &V)>
        ensures { option_map deref_pair result ≡ first_of self.now }
    {
        let leaf = minimum_unchecked(&self.store, self.root?);
        Some(pair_at(&self.store, leaf))
    }

    /// Returns the last pair, or `None` if there is none. It reads one inner node for each level.
    pub fn last_key_value(&self) -> Option<(&K, &V)>
        ensures { option_map deref_pair result ≡ last_of self.now }
    {
        let leaf = maximum_unchecked(&self.store, self.root?);
        Some(pair_at(&self.store, leaf))
    }

    /// Returns an iterator over the pairs in the order of their keys, from both ends.
    ///
    /// This call descends to the first and the last pair. A step of the iteration follows a link between leaves.
    /// Neither allocates.
    pub fn iter(&self) -> MapIter<'_, K, V, P>
        ensures pairs { result ≡ self.now }
        ensures sorted { IsMap (of_key K.bytes) self.now }
        ensures fits { length result < 2 ^ 64 }
    {
        let walk = whole_walk(&self.store, self.root, self.len);
        MapIterOf::new(&self.store, walk, self.len)
    }

    /// Returns an iterator over the pairs whose keys start with these bytes, in the order of their keys.
    ///
    /// It allocates nothing. It reads at most one inner node for each of the bytes, descends from there to the first
    /// and the last of the pairs, and reads one key. It does not count the pairs.
    pub fn prefix(&self, prefix: &[u8]) -> Range<'_, K, V, P>
        ensures pairs { result ≡ below (of_key K.bytes) prefix.now self.now }
        ensures sorted { IsMap (of_key K.bytes) self.now }
        ensures fits { length result < 2 ^ 64 }
    {
        self.prefix_by(prefix)
    }

    /// Returns an iterator over the pairs whose keys are in a range, in the order of their keys. There are none if the
    /// range runs backwards.
    ///
    /// It allocates nothing, and costs at most what `first_from` and `last_up_to` do together. It does not count the
    /// pairs.
    pub fn range<'k, R: RangeBounds<&'k [u8]> + Drop>(&self, range: R) -> Range<'_, K, V, P>
        ensures pairs { R.has_bounds range → result ≡ between (of_key K.bytes)
            (bound_map (λ b. b.now) (R.start_bound range))
            (bound_map (λ b. b.now) (R.end_bound range)) self.now }
        ensures sorted { IsMap (of_key K.bytes) self.now }
        ensures fits { length result < 2 ^ 64 }
    {
        self.range_by(bound_of(range.start_bound()), bound_of(range.end_bound()))
    }

    /// Returns the first pair whose key is after a bound, or at it if that is included; `None` if there is none.
    ///
    /// It allocates nothing. It descends once along the bytes of the bound, and from where this ends to at most two
    /// leaves. Prefixes that are not stored whole are all read from the same leaf, which takes a further descent.
    pub fn first_from(&self, from: Bound<&[u8]>) -> Option<(&K, &V)>
        ensures pair { option_map deref_pair result ≡ first_of (between (of_key K.bytes)
            (bound_map (λ b. b.now) from.entry) Unbounded self.now) }
        ensures sorted { IsMap (of_key K.bytes) self.now }
    {
        let leaf = first_from_unchecked(&self.store, self.root?, from)?;
        Some(pair_at(&self.store, leaf))
    }

    /// Returns the last pair whose key is before a bound, or at it if that is included; `None` if there is none. It
    /// costs what `first_from` does.
    pub fn last_up_to(&self, to: Bound<&[u8]>) -> Option<(&K, &V)>
        ensures { option_map deref_pair result ≡ last_of (between (of_key K.bytes) Unbounded
            (bound_map (λ b. b.now) to.entry) self.now) }
    {
        let leaf = last_up_to_unchecked(&self.store, self.root?, to)?;
        Some(pair_at(&self.store, leaf))
    }

    /// Returns an iterator over the keys in ascending order, from both ends. It costs what `iter` does.
    pub fn keys(&self) -> Keys<'_, K, V, P>
        ensures keys { result ≡ keys_of self.now }
        ensures sorted { IsMap (of_key K.bytes) self.now }
        ensures fits { length result < 2 ^ 64 }
    {
        KeysOf::new(self.iter())
    }

    /// Returns an iterator over the values in the order of their keys, from both ends. It costs what `iter` does.
    pub fn values(&self) -> Values<'_, K, V, P>
        ensures values { result ≡ values_of self.now }
        ensures sorted { IsMap (of_key K.bytes) self.now }
        ensures fits { length result < 2 ^ 64 }
    {
        ValuesOf::new(self.iter())
    }

    /// Inserts a pair. If an equal key is stored, that key stays and gets the value, and the key that was passed is
    /// returned with the old value.
    ///
    /// An error returns the pair, and the map is unchanged: `Conflict` if a stored key conflicts with the key, `Memory`
    /// if an allocation fails, for a new key or for the bytes of a conflicting one. It never fails if an equal key is
    /// stored.
    ///
    /// It is one descent along the bytes of the key. Prefixes that are not stored whole are all read from the same
    /// leaf, which takes a further descent.
    pub fn insert(&mut self, key: K, value: V) -> Result<Option<(K, V)>, MapInsertError<K, V>>
        // If it succeeds.
        ensures pairs { OnOk result (self.new ≡ put (of_key K.bytes) (key, value) self.old) }
        ensures replaced { IfOk result (λ replaced.
            replaced ≡ put_reply (of_key K.bytes) (key, value) self.old) }
        ensures found { OnOk result
            (value_at K.bytes (K.bytes key) self.new ≡ Some value) }
        ensures others { OnOk result ((other : List ℕ) → other ≢ K.bytes key →
            value_at K.bytes other self.new ≡ value_at K.bytes other self.old) }
        ensures accepted { OnOk result
            (is_conflict (of_key K.bytes) (K.bytes key) self.old ≡ false) }
        // In any case.
        ensures was_sorted { IsMap (of_key K.bytes) self.old }
        ensures sorted { IsMap (of_key K.bytes) self.new }

        // If it fails.
        ensures refused { IfErr result (IsRefusalOf K.bytes key value self.old) }
        ensures kept { OnErr result (self.new ≡ self.old) }
    {
        put_in(
            &mut self.store,
            &mut self.root,
            &mut self.len,
            &mut None,
            key,
            value,
        )
    }

    /// Returns the value of a key as `&mut V`. If no equal key is stored, the pair is inserted first; a stored key
    /// stays, with its value.
    ///
    /// Errors and cost are those of `insert`. If most keys are stored already, `get_mut` and then `insert` is cheaper.
    pub fn get_or_insert(&mut self, key: K, value: V) -> Result<&mut V, MapInsertError<K, V>>
        ensures* writes_back { sem 𝓛
            (lends_put K.row V.row P.row K.AsBytes self.entry key result) }
        ensures value { IfOk result (λ lent.
            lent.now ≡ unwrap_or (value_at K.bytes (K.bytes key) self.old) value) }
        ensures accepted { OnOk result
            (is_conflict (of_key K.bytes) (K.bytes key) self.old ≡ false) }
        ensures refused { IfErr result (IsRefusalOf K.bytes key value self.old) }
    {
        self.get_or_insert_near(None, key, value)
    }

    /// Returns an entry: the map with a key, which reads or changes the key's value, or inserts the key.
    ///
    /// This reads no node. Each call of the entry that needs the key's leaf takes a descent, except an `or_` call after
    /// an `and_modify` that found the leaf.
    pub fn entry(&mut self, key: K) -> Entry<'_, K, V, P>
        ensures same_map { result.map.ghost_name ≡ self.entry.ghost_name }
        ensures pairs { result.map.now ≡ self.old }
        ensures key { result.key ≡ key }
    {
        EntryOf {
            map: self,
            key,
            leaf: None,
        }
    }

    /// Inserts a pair and removes every conflicting one (those whose keys are a prefix of its key, or start with it).
    /// Returns how many pairs it replaced. If an equal key is stored, that key stays and gets the value, which counts
    /// as one. What is replaced is dropped.
    ///
    /// It fails only if an allocation fails; the error returns the pair, and the map is unchanged. It allocates unless
    /// it replaces exactly one pair. It descends as `insert` does, and frees all nodes that are replaced.
    pub fn insert_over(&mut self, key: K, value: V) -> Result<usize, PairRefused<K, V>>
        ensures pairs { OnOk result (self.new ≡ overwrite (of_key K.bytes) (key, value) self.old) }
        ensures gone { IfOk result (λ gone.
            gone ≡ length (related_to (of_key K.bytes) (K.bytes key) self.old)) }

        ensures handed_back { IfErr result (λ refused.
            (refused.key ≡ key) × (refused.value ≡ value)) }
        ensures kept { OnErr result (self.new ≡ self.old) }
        ensures refused { OnErr result
            (length (related_to (of_key K.bytes) (K.bytes key) self.old) ≢ 1) }
    {
        put_over(&mut self.store, &mut self.root, &mut self.len, key, value)
    }

    // ---- Removals. None of them allocates, and none fails: see `NodeStore` for the slots that it keeps. Three return
    // a `Result` that is always `Ok`.

    /// Removes the pair of the key with these bytes, and returns it; `None` if it is not stored. It never fails. It is
    /// a single descent.
    pub fn remove(&mut self, key_bytes: &[u8]) -> Result<Option<(K, V)>, MapRefused>
        ensures succeeds { IsOk result }
        ensures pairs { self.new ≡ remove_key (of_key K.bytes) key_bytes.now self.old }
        ensures removed { IfOk result (λ removed.
            removed ≡ remove_reply (of_key K.bytes) key_bytes.now self.old) }
        ensures gone { value_at K.bytes key_bytes.now self.new ≡ None }
        ensures others { (other : List ℕ) → other ≢ key_bytes.now →
            value_at K.bytes other self.new ≡ value_at K.bytes other self.old }
    {
        Ok(self.remove_by(key_bytes))
    }

    /// Removes the first pair and returns it; `None` if there is none. It never fails. It is a single descent.
    pub fn pop_first(&mut self) -> Result<Option<(K, V)>, MapRefused>
        ensures succeeds { IsOk result }
        ensures pairs { self.new ≡ without_first self.old }
        ensures removed { IfOk result (λ removed. removed ≡ first_of self.old) }
        ensures was_sorted { IsMap (of_key K.bytes) self.old }
    {
        Ok(take_first(&mut self.store, &mut self.root, &mut self.len))
    }

    /// Removes the last pair and returns it; `None` if there is none. It never fails. It is a single descent.
    pub fn pop_last(&mut self) -> Result<Option<(K, V)>, MapRefused>
        ensures succeeds { IsOk result }
        ensures pairs { self.new ≡ without_last self.old }
        ensures removed { IfOk result (λ removed. removed ≡ last_of self.old) }
        ensures was_sorted { IsMap (of_key K.bytes) self.old }
    {
        Ok(take_last(&mut self.store, &mut self.root, &mut self.len))
    }

    /// Removes the first pair whose key starts with these bytes, and returns it; `None` if there is none. It never
    /// fails. It is a single descent.
    pub fn pop_first_below(&mut self, prefix: &[u8]) -> Option<(K, V)>
        ensures pairs { self.new ≡ without_below (of_key K.bytes) prefix.now 1 self.old }
        ensures removed { result ≡ first_of (below (of_key K.bytes) prefix.now self.old) }
        ensures was_sorted { IsMap (of_key K.bytes) self.old }
    {
        take_below(&mut self.store, &mut self.root, &mut self.len, prefix)
    }

    /// Removes all pairs whose keys start with these bytes, at once, and returns how many. It never fails. It descends
    /// as `prefix` does, and frees all nodes below the one where this descent ends.
    pub fn remove_prefix(&mut self, prefix: &[u8]) -> usize
        ensures pairs { self.new ≡ not_below (of_key K.bytes) prefix.now self.old }
        ensures removed { result ≡ length (below (of_key K.bytes) prefix.now self.old) }
    {
        self.remove_prefix_by(prefix)
    }

    /// Removes all pairs, and allocates nothing. It frees slab by slab, without a descent. The store keeps the slots
    /// for later nodes.
    pub fn clear(&mut self)
        ensures { self.new ≡ [] }
    {
        take_all(&mut self.store, &mut self.root, &mut self.len);
    }
}

impl<'a, K: AsBytes + Drop, V: Drop, const P: usize> IntoIterator for &'a ByteMap<K, V, P> {
    type Item = (&'a K, &'a V);

    type IntoIter = MapIter<'a, K, V, P>;

    ghost into_iter_gives = { λ map pairs. pairs ≡ map.now };

    fn into_iter(self) -> MapIter<'a, K, V, P> {
        self.iter()
    }
}

/// The value of the key with these bytes. That the key is stored is a condition of the index, not a check at run time.
impl<'b, K: AsBytes + Drop, V: Drop, const P: usize> Index<&'b [u8]> for ByteMap<K, V, P> {
    type Output = V;

    ghost use Rattle.art_changing.specs.MapAnswers.{value_at};

    ghost can_index = { λ map key. IsSome (value_at K.bytes key.now map) };

    ghost index_gives = { λ map key value. value_at K.bytes key.now map ≡ Some value };

    fn index(&self, key_bytes: &'b [u8]) -> &V {
        self.get(key_bytes).unwrap()
    }
}

impl<K: AsBytes + fmt::Debug + Drop, V: fmt::Debug + Drop, const P: usize> fmt::Debug
    for ByteMap<K, V, P> {
    fn fmt<W: fmt::Write>(&self, f: &mut fmt::Formatter<W>) -> fmt::Result {
        let mut out = f.debug_map();
        for (key, value) in self.iter() {
            out.entry(key, value);
        }
        out.finish()
    }
}

// The bound that is pointed to.
fn bound_of<'k, 'r>(bound: Bound<&'r &'k [u8]>) -> Bound<&'k [u8]>
    ensures { bound_map (λ b. b.now) result ≡ bound_map (λ b. b.now.now) bound.entry }
{
    match bound {
        Bound::Included(key_bytes) => Bound::Included(*key_bytes),
        Bound::Excluded(key_bytes) => Bound::Excluded(*key_bytes),
        Bound::Unbounded => Bound::Unbounded,
    }
}

// The pair of a leaf in the store.
fn pair_at<K: AsBytes + Drop, V: Drop, const P: usize>(
    store: &NodeStore<K, V, P>,
    leaf: LeafPtr,
) -> (&K, &V)
    requires { IsSome (map.get store.now.leaves leaf) }
    ensures { option_map pair_of (map.get store.now.leaves leaf) ≡ Some (deref_pair result) }
{
    let leaf = store.leaf_at(leaf);
    (&leaf.key, &leaf.value)
}
