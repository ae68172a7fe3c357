//! Removal of the pairs whose keys are in a range, and moves of pairs into another map.
ghost use Rattle.std.specs.Prelude.{◌≡◌, ◌++◌, ◌∷◌, [], length, IfErr, IfOk, OnErr, OnOk};
ghost use Rattle.std.specs.Range.Bound.{bound_map};
ghost use Rattle.art_model.specs.Pairs.{first_of, of_key};
ghost use Rattle.art_map.specs.MapCalls.{put_all};
ghost use Rattle.art_map.specs.MapParts.{keys_before, keys_from, without};
ghost use Rattle.art_keyed.specs.KeyedPairs.{keys_between};
ghost use Rattle.art_keyed.specs.KeyedParts.{PutsSomeOf, keys_not_between};

use super::{PairRefused, TreeMap};
use crate::bounds::bytes_of;
use art_keys::laws::{NoPrefixesBytes, OrderedBytes};
use art_map::map::SplitRefused;
use std::ops::{Bound, RangeBounds};

impl<K: OrderedBytes + Drop, V: Drop, const P: usize> TreeMap<K, V, P> {
    /// Removes the first pair whose key is in a range, and returns it, or `None` if there is none. It never fails.
    ///
    /// It costs what `range` and `remove` do together, and allocates nothing.
    pub fn pop_first_in<R: RangeBounds<K> + Drop>(&mut self, range: R) -> Option<(K, V)>
        ensures removed { R.has_bounds range → result ≡ first_of
            (keys_between K.order (R.start_bound range) (R.end_bound range) self.old) }
        ensures pairs { self.new ≡ without (of_key K.bytes) result self.old }
    {
        self.take_first_in(range.start_bound(), range.end_bound())
    }

    /// Removes all pairs whose keys are in a range, and returns how many there were. It never fails.
    ///
    /// Each pair costs what `pop_first_in` does; it allocates nothing.
    pub fn remove_range<R: RangeBounds<K> + Drop>(&mut self, range: R) -> usize
        ensures pairs { R.has_bounds range → self.new ≡
            keys_not_between K.order (R.start_bound range) (R.end_bound range) self.old }
        ensures removed { R.has_bounds range → result ≡ length
            (keys_between K.order (R.start_bound range) (R.end_bound range) self.old) }
    {
        self.take_all_in(range.start_bound(), range.end_bound())
    }

    // Removes the first pair whose key is between two bounds.
    fn take_first_in(&mut self, from: Bound<&K>, to: Bound<&K>) -> Option<(K, V)>
        ensures removed { result ≡ first_of (keys_between K.order
            (bound_map (λ b. b.now) from.entry) (bound_map (λ b. b.now) to.entry) self.old) }
        ensures pairs { self.new ≡ without (of_key K.bytes) result self.old }
    {
        self.map.pop_first_in((bytes_of(from), bytes_of(to)))
    }

    // Removes all pairs whose keys are between two bounds, and returns how many.
    fn take_all_in(&mut self, from: Bound<&K>, to: Bound<&K>) -> usize
        ensures pairs { self.new ≡ keys_not_between K.order
            (bound_map (λ b. b.now) from.entry) (bound_map (λ b. b.now) to.entry) self.old }
        ensures removed { result ≡ length (keys_between K.order
            (bound_map (λ b. b.now) from.entry) (bound_map (λ b. b.now) to.entry) self.old) }
    {
        self.map.remove_range((bytes_of(from), bytes_of(to)))
    }
}

impl<K: NoPrefixesBytes + Drop, V: Drop, const P: usize> TreeMap<K, V, P> {
    /// Moves the pair with this key, if it is stored, and those after it into a new map, and returns that map.
    ///
    /// Each pair that moves costs a removal and an insertion. Fails only if an allocation fails: then the error has a
    /// `ByteMap` of the pairs that moved and the pair that was next, and the others stay. No pair is lost.
    pub fn split_off(&mut self, key: &K) -> Result<Self, SplitRefused<K, V, P>>
        ensures stay { OnOk result
            (self.new ≡ keys_before (of_key K.bytes) (K.bytes key.now) self.old) }
        ensures moved { IfOk result (λ moved.
            moved ≡ keys_from (of_key K.bytes) (K.bytes key.now) self.old) }

        ensures refused { IfErr result (λ refused.
            keys_from (of_key K.bytes) (K.bytes key.now) self.old ≡
            refused.moved ++ (refused.key, refused.value) ∷
            keys_from (of_key K.bytes) (K.bytes key.now) self.new) }
        ensures kept { OnErr result (keys_before (of_key K.bytes) (K.bytes key.now) self.new ≡
            keys_before (of_key K.bytes) (K.bytes key.now) self.old) }
    {
        match self.map.split_off(key.as_bytes()) {
            Ok(map) => Ok(TreeMap { map }),
            Err(refused) => Err(refused),
        }
    }

    /// Moves all pairs of another map into this one, in the order of their keys, each as by `insert`. The other map is
    /// empty then.
    ///
    /// Fails only if an allocation fails. The error returns the pair that was to move next: those before it have moved,
    /// and those after it are still in the other map.
    pub fn append(&mut self, other: &mut Self) -> Result<(), PairRefused<K, V>>
        ensures pairs { OnOk result (self.new ≡ put_all K.bytes other.old self.old) }
        ensures emptied { OnOk result (other.new ≡ []) }
        ensures refused { IfErr result (λ refused.
            PutsSomeOf K.bytes self.old other.old refused self.new other.new) }
    {
        while let Some((key, value)) = other.pop_first() {
            match self.insert(key, value) {
                Ok(replaced) => drop(replaced),
                Err(refused) => return Err(refused),
            }
        }
        Ok(())
    }
}
