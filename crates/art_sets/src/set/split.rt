//! Removing keys by their bounds, and moving keys into another set.
#![tactic(auto, using(crate::proofs::SetParts::part_laws))]

ghost use Rattle.std.specs.Prelude.{◌≡◌, ◌++◌, ◌∷◌, [], length, IfErr, IfOk, OnErr, OnOk};
ghost use Rattle.std.specs.Range.Bound.{bound_map};
ghost use Rattle.art_model.specs.Pairs.{first_of};
ghost use Rattle.art_model.specs.Parts.{between};
ghost use Rattle.art_map.specs.MapParts.{keys_before, keys_from, not_between, without};
ghost use Rattle.art_sets.specs.SetKeys.{AddsSome, add_all};

use super::{ByteSet, SetInsertError};
use art_nodes::node::AsBytes;
use std::ops::RangeBounds;

/// The state of a `split_off` in which an allocation failed: the set with the keys that had moved, and the next key.
#[derive(Drop)]
pub struct SetSplitRefused<K: AsBytes, const P: usize> {
    pub moved: ByteSet<K, P>,
    pub key: K,
}

impl<K: AsBytes + Drop, const P: usize> ByteSet<K, P> {
    /// Removes the first key in a range, and returns it; `None` if there is none. It never fails. It costs what
    /// `pop_first_in` of a `ByteMap` does.
    pub fn pop_first_in<'k, R: RangeBounds<&'k [u8]> + Drop>(&mut self, range: R) -> Option<K>
        ensures removed { R.has_bounds range → result ≡ first_of (between K.bytes
            (bound_map (λ b. b.now) (R.start_bound range))
            (bound_map (λ b. b.now) (R.end_bound range)) self.old) }
        ensures keys { self.new ≡ without K.bytes result self.old }
    {
        let (key, _) = self.map.pop_first_in(range)?;
        Some(key)
    }

    /// Removes all keys in a range, and returns how many. It never fails. It costs what `remove_range` of a `ByteMap`
    /// does.
    pub fn remove_range<'k, R: RangeBounds<&'k [u8]> + Drop>(&mut self, range: R) -> usize
        ensures keys { R.has_bounds range → self.new ≡ not_between K.bytes
            (bound_map (λ b. b.now) (R.start_bound range))
            (bound_map (λ b. b.now) (R.end_bound range)) self.old }
        ensures removed { R.has_bounds range → result ≡ length (between K.bytes
            (bound_map (λ b. b.now) (R.start_bound range))
            (bound_map (λ b. b.now) (R.end_bound range)) self.old) }
    {
        self.map.remove_range(range)
    }

    /// Moves this key and those after it into a new set, and returns it. It costs what `split_off` of a `ByteMap` does.
    ///
    /// If an allocation fails, the error has the set with the keys that had moved, and the next key. The others stay:
    /// no key is lost.
    pub fn split_off(&mut self, key_bytes: &[u8]) -> Result<Self, SetSplitRefused<K, P>>
        ensures stay { OnOk result (self.new ≡ keys_before K.bytes key_bytes.now self.old) }
        ensures moved { IfOk result (λ moved. moved ≡ keys_from K.bytes key_bytes.now self.old) }

        ensures refused { IfErr result (λ refused. keys_from K.bytes key_bytes.now self.old ≡
            refused.moved ++ refused.key ∷ keys_from K.bytes key_bytes.now self.new) }
        ensures kept { OnErr result (keys_before K.bytes key_bytes.now self.new ≡
            keys_before K.bytes key_bytes.now self.old) }
    {
        match self.map.split_off(key_bytes) {
            Ok(map) => Ok(ByteSet { map }),
            Err(refused) => Err(SetSplitRefused {
                moved: ByteSet { map: refused.moved },
                key: refused.key,
            }),
        }
    }

    /// Moves all keys of another set into this one, in ascending order, as `insert` does. This leaves the other set
    /// empty.
    ///
    /// It stops at the first key that can't be inserted, which the error returns: the keys before it have moved, and
    /// those after it are still in the other set. The errors are those of `insert`. Each key costs a removal and an
    /// insertion.
    pub fn append(&mut self, other: &mut Self) -> Result<(), SetInsertError<K>>
        ensures keys { OnOk result (self.new ≡ add_all K.bytes other.old self.old) }
        ensures emptied { OnOk result (other.new ≡ []) }
        ensures refused { IfErr result (λ error.
            AddsSome K.bytes self.old other.old error self.new other.new) }
    {
        while let Some(key) = other.pop_first() {
            match self.insert(key) {
                Ok(_) => {}
                Err(error) => return Err(error),
            }
        }
        Ok(())
    }
}
