//! Building a `TreeMap` or a `TreeSet`.
ghost use Rattle.std.specs.Prelude.{◌≡◌, ◌≢◌, ◌↔◌, ◌++◌, ◌∷◌, [], List, IfErr, IfOk, IsTrue, OnErr, OnOk, false, length};
ghost use Rattle.std.specs.Cmp.Lexicographic.{slice_cmp};
ghost use Rattle.std.specs.Iterator.{IsFinite};
ghost use Rattle.std.specs.Ordering.{nat_cmp};
ghost use Rattle.art_building.specs.Pushes.{BuildsAll, BuildsUntil, IsPushError};
ghost use Rattle.art_building.specs.Sorted.{AreSorted, comes_before};
ghost use Rattle.art_keyed.specs.KeyedPairs.{HaveKeys};
ghost use Rattle.art_loading.specs.declared.append.AppendReason.TheVariants.{Conflict};
ghost use Rattle.art_map.specs.MapCalls.{put_all};
ghost use Rattle.art_iterating.specs.MapItems.{keys_of};
ghost use Rattle.art_sets.specs.SetKeys.{add_all};
ghost use Rattle.art_model.specs.Pairs.{IsMap, of_key, put};

use crate::byte_map::{AppendError, AppendReason, MapBuilder};
use art_keyed::map::TreeMap;
use art_keyed_sets::set::TreeSet;
use art_keys::laws::NoPrefixesBytes;
use std::alloc::{AllocError, Global};
use std::cmp::Ordering;
use std::marker::Model;
use std::mem::replace;

/// A `TreeMap` that is being built from pairs in ascending order of their keys; a `TreeSet`, where the values are `()`.
#[derive(Drop)]
pub struct TreeMapBuilder<K: NoPrefixesBytes, V, const P: usize> {
    builder: MapBuilder<K, V, P>,
}

impl<K: NoPrefixesBytes, V, const P: usize> Model for TreeMapBuilder<K, V, P> {
    ghost use Rattle.std.specs.Prelude.{List};
    ghost use Rattle.std.specs.Coded.{coded×, coded_list};

    ghost Value = { List (K × V) };

    ghost coded = { coded_list (coded× K.code V.code) };

    ghost use Rattle.art_keyed.specs.KeyedPairs.{HaveKeys};

    ghost view = { λ m. m.builder };

    ghost invariant = { λ m. HaveKeys K.is_key m.builder };
}

impl<K: NoPrefixesBytes + Drop, V: Drop, const P: usize> TreeMapBuilder<K, V, P> {
    /// Returns a builder with no pairs, without an allocation.
    pub fn new(alloc: Global) -> Self
        ensures { result ≡ [] }
    {
        TreeMapBuilder {
            builder: MapBuilder::new(alloc),
        }
    }

    /// Returns the number of pairs, in constant time.
    pub fn len(&self) -> usize
        ensures len { result ≡ length self.now }
        ensures sorted { IsMap (of_key K.bytes) self.now }
    {
        self.builder.len()
    }

    /// Returns whether there are no pairs.
    pub fn is_empty(&self) -> bool
        ensures { IsTrue result ↔ (self.now ≡ []) }
    {
        self.builder.is_empty()
    }

    /// Adds a pair whose key is after all others.
    ///
    /// An error returns the pair, and the builder is unchanged: the key is less than the last one or equal to it, or an
    /// allocation failed. It compares the key with the last one, and makes a constant number of writes.
    #[inline(always)]
    pub fn push(&mut self, key: K, value: V) -> Result<(), AppendError<K, V>>
        ensures pushed { OnOk result (self.new ≡ self.old ++ (key, value) ∷ []) }
        ensures error { IfErr result (IsPushError K.bytes self.old key value) }
        ensures no_conflict { IfErr result (λ error. error.reason ≢ Conflict) }
        ensures kept { OnErr result (self.new ≡ self.old) }
    {
        key.as_key();
        self.builder.push(key, value)
    }

    /// Adds the pairs of an iterator, one after another, as `push` does.
    ///
    /// It stops at the first pair that can't be added, which the error returns: the pairs before it stay in the builder,
    /// and the others stay in the iterator.
    pub fn extend<I: Iterator<Item = (K, V)>>(
        &mut self,
        pairs: &mut I,
    ) -> Result<(), AppendError<K, V>>
        requires can { I.can_next pairs.old }
        requires ends { IsFinite (I.remaining pairs.old) }
        ensures all { OnOk result
            (BuildsAll I.next_gives pairs.old self.old pairs.new self.new) }
        ensures error { IfErr result (λ error.
            BuildsUntil I.next_gives K.bytes pairs.old self.old error pairs.new self.new) }
    {
        while let Some((key, value)) = pairs.next() {
            match self.push(key, value) {
                Ok(()) => {}
                Err(error) => return Err(error),
            }
        }
        Ok(())
    }

    /// Returns the map of the pairs, in constant time.
    pub fn finish(self) -> TreeMap<K, V, P>
        ensures { result ≡ self }
    {
        TreeMap::from_byte_map(self.builder.finish())
    }

    /// Adds the pairs of an iterator, and returns the map of all pairs. The error returns the first pair that can't be
    /// added: the pairs before it are dropped, and the others stay in the iterator.
    pub fn build<I: Iterator<Item = (K, V)>>(
        self,
        pairs: &mut I,
    ) -> Result<TreeMap<K, V, P>, AppendError<K, V>>
        requires can { I.can_next pairs.old }
        requires ends { IsFinite (I.remaining pairs.old) }
        ensures all { IfOk result (λ map.
            BuildsAll I.next_gives pairs.old self pairs.new map) }
        ensures error { IfErr result (λ error. (before : List (K × V)) ×
            BuildsUntil I.next_gives K.bytes pairs.old self error pairs.new before) }
    {
        let mut builder = self;
        match builder.extend(pairs) {
            Ok(()) => Ok(builder.finish()),
            Err(error) => Err(error),
        }
    }
}

impl<K: NoPrefixesBytes + Drop, V: Drop, const P: usize> TreeMapBuilder<K, V, P> {
    /// Returns a builder with the pairs of a `Vec`, which stand in any order. Of equal keys the first one stays, with the
    /// last value, as in `TreeMap::from_iter`.
    ///
    /// It sorts the pairs by their keys, with a buffer as long as the `Vec`, and then pushes them. Fails only if an
    /// allocation fails: all pairs are dropped.
    pub fn from_unsorted(alloc: Global, mut pairs: Vec<(K, V)>) -> Result<Self, AllocError>
        ensures pairs { IfOk result (λ builder. builder ≡ put_all K.bytes pairs.items []) }
        ensures known { OnOk result (HaveKeys K.is_key pairs.items) }
    {
        pairs.sort_by(by_key)?;
        TreeMapBuilder::from_sorted(alloc, pairs)
    }

    // A builder with pairs that were sorted by their keys.
    fn from_sorted(alloc: Global, pairs: Vec<(K, V)>) -> Result<Self, AllocError>
        requires { AreSorted K.bytes pairs.items }
        ensures put { IfOk result (λ builder. builder ≡ put_all K.bytes pairs.items []) }
        ensures keys { OnOk result (HaveKeys K.is_key pairs.items) }
    {
        let mut builder = TreeMapBuilder::new(alloc);
        let mut rest = pairs.into_iter();
        let Some(mut last) = rest.next() else {
            return Ok(builder);
        };
        last.0.as_key();
        for next in rest {
            builder.put_next(&mut last, next)?;
        }
        builder.push_last(last)?;
        Ok(builder)
    }

    // Puts a pair whose key is not less than the last one, which is not pushed yet. An equal key gives the last pair the
    // value; else that is pushed, and this pair is the last one.
    fn put_next(&mut self, last: &mut (K, V), next: (K, V)) -> Result<(), AllocError>
        requires map { IsMap (of_key K.bytes) (self.old ++ last.old ∷ []) }
        requires order { comes_before K.bytes next last.old ≡ false }
        ensures put { OnOk result
            (self.new ++ last.new ∷ [] ≡ put (of_key K.bytes) next (self.old ++ last.old ∷ [])) }
        ensures map { OnOk result (IsMap (of_key K.bytes) (self.new ++ last.new ∷ [])) }
        ensures key { OnOk result (K.bytes last.new.0 ≡ K.bytes next.0) }
        ensures is_key { OnOk result (K.is_key next.0) }
    {
        last.0.as_key();
        next.0.as_key();
        if have_same_bytes(&last.0, &next.0) {
            last.1 = next.1;
            return Ok(());
        }
        let pushed = replace(last, next);
        self.push_last(pushed)
    }

    // Pushes a pair whose key is after all others, which fails only if an allocation fails.
    fn push_last(&mut self, pair: (K, V)) -> Result<(), AllocError>
        requires { IsMap (of_key K.bytes) (self.old ++ pair ∷ []) }
        ensures { OnOk result (self.new ≡ self.old ++ pair ∷ []) }
    {
        let (key, value) = pair;
        match self.push(key, value) {
            Ok(()) => Ok(()),
            Err(error) => {
                prove!(matches!(error.reason, AppendReason::Memory));
                Err(AllocError)
            }
        }
    }
}

fn have_same_bytes<K: NoPrefixesBytes>(a: &K, b: &K) -> bool
    ensures { IsTrue result ↔ (K.bytes a.now ≡ K.bytes b.now) }
{
    a.as_bytes() == b.as_bytes()
}

// Compares the keys of two pairs by their bytes.
fn by_key<K: NoPrefixesBytes, V>(a: &(K, V), b: &(K, V)) -> Ordering
    ensures { result ≡ slice_cmp nat_cmp (K.bytes a.now.0) (K.bytes b.now.0) }
{
    a.0.as_bytes().cmp(b.0.as_bytes())
}

impl<K: NoPrefixesBytes + Drop, const P: usize> TreeMapBuilder<K, (), P> {
    /// Does what `from_unsorted` does with keys, for `finish_set`. Of equal keys the first one stays, as in
    /// `TreeSet::from_iter`.
    pub fn from_unsorted_keys(alloc: Global, keys: Vec<K>) -> Result<Self, AllocError>
        ensures { IfOk result (λ builder. keys_of builder ≡ add_all K.bytes keys.items []) }
    {
        let pairs = keys.into_iter().map(|key| (key, ())).collect(alloc)?;
        TreeMapBuilder::from_unsorted(alloc, pairs)
    }

    /// Returns the set of the keys, in constant time.
    pub fn finish_set(self) -> TreeSet<K, P>
        ensures { result ≡ keys_of self }
    {
        TreeSet::from_map(self.finish())
    }
}
