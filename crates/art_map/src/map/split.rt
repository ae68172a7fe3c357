//! Removing pairs by the bounds of their keys, and moving pairs into another map.
ghost use Rattle.std.specs.Prelude.{◌≡◌, ◌++◌, ◌∷◌, [], length, IfErr, IfOk, OnErr, OnOk};
ghost use Rattle.std.specs.Range.Bound.{bound_map};
ghost use Rattle.std.specs.declared.ops.Bound.TheVariants.{Included, Unbounded};
ghost use Rattle.art_model.specs.Pairs.{IsMap, first_of, of_key};
ghost use Rattle.art_model.specs.Parts.{between};
ghost use Rattle.art_map.specs.MapCalls.{put_all};
ghost use Rattle.art_changing.specs.PairChanges.{HasTaken};
ghost use Rattle.art_changing.specs.MapPairs.{HoldsPairs, pairs_at};
ghost use Rattle.art_map.specs.MapParts.{PutsSome, keys_before, keys_from, not_between, without};

use super::{ByteMap, MapInsertError, bound_of, pair_at};
use art_changing::remove::take_pair;
use art_nodes::node::{AsBytes, OpaqueNodePtr};
use art_nodes::store::NodeStore;
use art_ranges::range::range_unchecked;
use art_writing::delete::search_for_delete_point_by_lengths;
use std::ops::{Bound, RangeBounds};

/// The state of a `split_off` in which an allocation failed: the map with the pairs that had moved, and the next pair.
#[derive(Drop)]
pub struct SplitRefused<K: AsBytes, V, const P: usize> {
    pub moved: ByteMap<K, V, P>,
    pub key: K,
    pub value: V,
}

impl<K: AsBytes + Drop, V: Drop, const P: usize> ByteMap<K, V, P> {
    /// Removes the first pair whose key is in a range, and returns it; `None` if there is none. It never fails.
    ///
    /// It costs what `range` and `remove` do together, and allocates nothing.
    pub fn pop_first_in<'k, R: RangeBounds<&'k [u8]> + Drop>(&mut self, range: R) -> Option<(K, V)>
        ensures removed { R.has_bounds range → result ≡ first_of (between (of_key K.bytes)
            (bound_map (λ b. b.now) (R.start_bound range))
            (bound_map (λ b. b.now) (R.end_bound range)) self.old) }
        ensures pairs { self.new ≡ without (of_key K.bytes) result self.old }
    {
        self.take_first_in(bound_of(range.start_bound()), bound_of(range.end_bound()))
    }

    /// Removes all pairs whose keys are in a range, and returns how many. It never fails.
    ///
    /// Each pair costs what `pop_first_in` does; it allocates nothing. For the keys with a prefix, `remove_prefix`
    /// removes all at once.
    pub fn remove_range<'k, R: RangeBounds<&'k [u8]> + Drop>(&mut self, range: R) -> usize
        ensures pairs { R.has_bounds range → self.new ≡ not_between (of_key K.bytes)
            (bound_map (λ b. b.now) (R.start_bound range))
            (bound_map (λ b. b.now) (R.end_bound range)) self.old }
        ensures removed { R.has_bounds range → result ≡ length (between (of_key K.bytes)
            (bound_map (λ b. b.now) (R.start_bound range))
            (bound_map (λ b. b.now) (R.end_bound range)) self.old) }
    {
        self.take_all_in(bound_of(range.start_bound()), bound_of(range.end_bound()))
    }

    /// Moves the pairs with this key and those after it into a new map, and returns it.
    ///
    /// Each pair that moves costs a removal and an insertion. If an allocation fails, the error has the map with the
    /// pairs that had moved, and the next pair. The others stay: no pair is lost.
    pub fn split_off(&mut self, key_bytes: &[u8]) -> Result<Self, SplitRefused<K, V, P>>
        ensures stay { OnOk result (self.new
            ≡ keys_before (of_key K.bytes) key_bytes.now self.old) }
        ensures moved { IfOk result (λ moved.
            moved ≡ keys_from (of_key K.bytes) key_bytes.now self.old) }

        ensures refused { IfErr result (λ refused.
            keys_from (of_key K.bytes) key_bytes.now self.old ≡
            refused.moved ++ (refused.key, refused.value) ∷
            keys_from (of_key K.bytes) key_bytes.now self.new) }
        ensures kept { OnErr result (keys_before (of_key K.bytes) key_bytes.now self.new ≡
            keys_before (of_key K.bytes) key_bytes.now self.old) }
    {
        let mut moved = ByteMap::new(self.store.alloc());
        while let Some((key, value)) = self.take_first_in(
            Bound::Included(key_bytes),
            Bound::Unbounded,
        ) {
            match moved.insert(key, value) {
                Ok(replaced) => drop(replaced),
                Err(MapInsertError::Conflict { key, value, .. }) => {
                    return Err(SplitRefused { moved, key, value });
                }
                Err(MapInsertError::Memory { key, value }) => {
                    return Err(SplitRefused { moved, key, value });
                }
            }
        }
        Ok(moved)
    }

    /// Moves all pairs of another map into this one, in the order of their keys, as `insert` does. This leaves the
    /// other map empty.
    ///
    /// It stops at the first pair that can't be inserted, which the error returns: the pairs before it have moved, and
    /// those after it are still in the other map. The errors are those of `insert`. Each pair costs a removal and an
    /// insertion.
    pub fn append(&mut self, other: &mut Self) -> Result<(), MapInsertError<K, V>>
        ensures pairs { OnOk result (self.new ≡ put_all K.bytes other.old self.old) }
        ensures emptied { OnOk result (other.new ≡ []) }
        ensures refused { IfErr result (λ error.
            PutsSome K.bytes self.old other.old error self.new other.new) }
    {
        while let Some((key, value)) = other.pop_first().unwrap() {
            match self.insert(key, value) {
                Ok(replaced) => drop(replaced),
                Err(error) => return Err(error),
            }
        }
        Ok(())
    }

    // Removes the first pair whose key is between two bounds.
    pub(super) fn take_first_in(&mut self, from: Bound<&[u8]>, to: Bound<&[u8]>) -> Option<(K, V)>
        ensures removed { result ≡ first_of (between (of_key K.bytes)
            (bound_map (λ b. b.now) from.entry) (bound_map (λ b. b.now) to.entry) self.old) }
        ensures pairs { self.new ≡ without (of_key K.bytes) result self.old }
        ensures sorted { IsMap (of_key K.bytes) self.old }
    {
        take_between(&mut self.store, &mut self.root, &mut self.len, from, to)
    }

    // Removes all pairs whose keys are between two bounds, and returns how many.
    fn take_all_in(&mut self, from: Bound<&[u8]>, to: Bound<&[u8]>) -> usize
        ensures pairs { self.new ≡ not_between (of_key K.bytes)
            (bound_map (λ b. b.now) from.entry) (bound_map (λ b. b.now) to.entry) self.old }
        ensures removed { result ≡ length (between (of_key K.bytes)
            (bound_map (λ b. b.now) from.entry) (bound_map (λ b. b.now) to.entry) self.old) }
    {
        let before = self.len();
        while let Some(pair) = self.take_first_in(from, to) {
            drop(pair);
        }
        before - self.len()
    }
}

// Removes the first pair whose key is between two bounds from the tree.
fn take_between<K: AsBytes + Drop, V: Drop, const P: usize>(
    store: &mut NodeStore<K, V, P>,
    root: &mut Option<OpaqueNodePtr>,
    len: &mut usize,
    from: Bound<&[u8]>,
    to: Bound<&[u8]>,
) -> Option<(K, V)>
    requires { HoldsPairs (of_key K.bytes) P store.old root.old len.old
        (pairs_at store.old root.old) }
    ensures { HasTaken K.bytes P
        (first_of (between (of_key K.bytes) (bound_map (λ b. b.now) from.entry)
        (bound_map (λ b. b.now) to.entry) (pairs_at store.old root.old)))
        (without (of_key K.bytes)
        (first_of (between (of_key K.bytes) (bound_map (λ b. b.now) from.entry)
        (bound_map (λ b. b.now) to.entry) (pairs_at store.old root.old)))
        (pairs_at store.old root.old)) result
        store.new root.new len.new }
{
    let Some(name) = *root else {
        return None;
    };
    let Some(leaf) = range_unchecked(store, name, from, to).next(store) else {
        return None;
    };
    let key_bytes = pair_at(store, leaf).0.as_bytes();
    let point = search_for_delete_point_by_lengths(store, name, key_bytes).unwrap();
    Some(take_pair(store, root, len, name, point))
}
