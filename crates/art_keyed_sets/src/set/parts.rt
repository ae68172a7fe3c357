//! Removal of the keys in a range, and moves of keys into another set.
ghost use Rattle.std.specs.Prelude.{◌≡◌, ◌++◌, ◌∷◌, [], length, IfErr, IfOk, OnErr, OnOk};
ghost use Rattle.std.specs.Range.Bound.{bound_map};
ghost use Rattle.art_model.specs.Pairs.{first_of};
ghost use Rattle.art_map.specs.MapParts.{keys_before, keys_from, without};
ghost use Rattle.art_sets.specs.SetKeys.{add_all};
ghost use Rattle.art_keyed.specs.KeyedPairs.{set_between};
ghost use Rattle.art_keyed.specs.KeyedParts.{set_not_between};
ghost use Rattle.art_keyed_sets.specs.SetRefusals.{AddsSomeOf};

use super::{KeyRefused, TreeSet};
use art_keyed::bounds::bytes_of;
use art_keys::laws::{NoPrefixesBytes, OrderedBytes};
use art_sets::set::SetSplitRefused;
use std::ops::{Bound, RangeBounds};

impl<K: OrderedBytes + Drop, const P: usize> TreeSet<K, P> {
    /// Removes the first key in a range, and returns it, or `None` if there is none. It never fails.
    ///
    /// It costs what `range` and `remove` do together, and allocates nothing.
    pub fn pop_first_in<R: RangeBounds<K> + Drop>(&mut self, range: R) -> Option<K>
        ensures removed { R.has_bounds range → result ≡ first_of
            (set_between K.order (R.start_bound range) (R.end_bound range) self.old) }
        ensures keys { self.new ≡ without K.bytes result self.old }
    {
        self.take_first_in(range.start_bound(), range.end_bound())
    }

    /// Removes all keys in a range, and returns how many there were. It never fails.
    ///
    /// Each key costs what `pop_first_in` does; it allocates nothing.
    pub fn remove_range<R: RangeBounds<K> + Drop>(&mut self, range: R) -> usize
        ensures keys { R.has_bounds range → self.new ≡
            set_not_between K.order (R.start_bound range) (R.end_bound range) self.old }
        ensures removed { R.has_bounds range → result ≡ length
            (set_between K.order (R.start_bound range) (R.end_bound range) self.old) }
    {
        self.take_all_in(range.start_bound(), range.end_bound())
    }

    // Removes the first key between two bounds.
    fn take_first_in(&mut self, from: Bound<&K>, to: Bound<&K>) -> Option<K>
        ensures removed { result ≡ first_of (set_between K.order
            (bound_map (λ b. b.now) from.entry) (bound_map (λ b. b.now) to.entry) self.old) }
        ensures keys { self.new ≡ without K.bytes result self.old }
    {
        self.set.pop_first_in((bytes_of(from), bytes_of(to)))
    }

    // Removes all keys between two bounds, and returns how many.
    fn take_all_in(&mut self, from: Bound<&K>, to: Bound<&K>) -> usize
        ensures keys { self.new ≡ set_not_between K.order
            (bound_map (λ b. b.now) from.entry) (bound_map (λ b. b.now) to.entry) self.old }
        ensures removed { result ≡ length (set_between K.order
            (bound_map (λ b. b.now) from.entry) (bound_map (λ b. b.now) to.entry) self.old) }
    {
        self.set.remove_range((bytes_of(from), bytes_of(to)))
    }
}

impl<K: NoPrefixesBytes + Drop, const P: usize> TreeSet<K, P> {
    /// Moves this key, if it is stored, and those after it into a new set, and returns that set.
    ///
    /// Each key that moves costs a removal and an insertion. Fails only if an allocation fails: then the error has a
    /// `ByteSet` of the keys that moved and the key that was next, and the others stay. No key is lost.
    pub fn split_off(&mut self, key: &K) -> Result<Self, SetSplitRefused<K, P>>
        ensures stay { OnOk result (self.new ≡ keys_before K.bytes (K.bytes key.now) self.old) }
        ensures moved { IfOk result (λ moved.
            moved ≡ keys_from K.bytes (K.bytes key.now) self.old) }

        ensures refused { IfErr result (λ refused. keys_from K.bytes (K.bytes key.now) self.old ≡
            refused.moved ++ refused.key ∷ keys_from K.bytes (K.bytes key.now) self.new) }
        ensures kept { OnErr result (keys_before K.bytes (K.bytes key.now) self.new ≡
            keys_before K.bytes (K.bytes key.now) self.old) }
    {
        match self.set.split_off(key.as_bytes()) {
            Ok(set) => Ok(TreeSet { set }),
            Err(refused) => Err(refused),
        }
    }

    /// Moves all keys of another set into this one, in ascending order, each as by `insert`. The other set is empty
    /// then.
    ///
    /// Fails only if an allocation fails. The error returns the key that was to move next: those before it have moved,
    /// and those after it are still in the other set.
    pub fn append(&mut self, other: &mut Self) -> Result<(), KeyRefused<K>>
        ensures keys { OnOk result (self.new ≡ add_all K.bytes other.old self.old) }
        ensures emptied { OnOk result (other.new ≡ []) }
        ensures refused { IfErr result (λ refused.
            AddsSomeOf K.bytes self.old other.old refused self.new other.new) }
    {
        while let Some(key) = other.pop_first() {
            match self.insert(key) {
                Ok(_) => {}
                Err(refused) => return Err(refused),
            }
        }
        Ok(())
    }
}
