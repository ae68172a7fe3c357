//! An ordered set of keys of bytes, on the map. Its contracts speak of lists of keys alone.
#![tactic(auto, using(crate::proofs::SetLaws::set_laws))]

ghost use Rattle.std.specs.Prelude.{◌≡◌, ◌↔◌, ◌<◌, ◌^◌, [], length, false, not, IsOk, IsTrue, IfOk, IfErr, OnOk, OnErr, option_copied};
ghost use Rattle.art_model.specs.Pairs.{IsMap, first_of, has_key, is_conflict, last_of, remove_key, remove_reply, replace_key, with_key, without_first, without_last};
ghost use Rattle.art_sets.specs.SetKeys.{IsKeyRefusal, add_key, key_error};

use art_map::map::{ByteMap, IntoKeys, Keys, MapInsertError};
use art_nodes::node::AsBytes;
use art_writing::insert::InsertPrefixError;
use std::alloc::{AllocError, Global};
use std::fmt;
use std::marker::Model;
use thiserror::Error;

mod algebra;
mod clones;
mod compared;
mod extend;
mod from_map;
mod queried;
mod range;
mod retain;
mod split;

pub use algebra::{
    Difference, HasKey, Intersection, MergedOf, SelectedOf, SymmetricDifference, Union,
};
pub use range::{KeyRange, KeyRangeOf};
pub use split::SetSplitRefused;

/// A key that was not inserted.
#[derive(Debug, Drop, Error)]
pub enum SetInsertError<K> {
    /// A stored key conflicts with the key: they are unequal, and one of the two is a prefix of the other.
    #[error("{error}")]
    Conflict { key: K, error: InsertPrefixError },
    /// An allocation failed, and no equal key is stored. A conflicting one may be: a `Conflict` needs memory for the
    /// bytes of the key.
    #[error("memory allocation failed")]
    Memory { key: K },
}

/// A set of keys in the order of their bytes. No key is a prefix of another.
#[derive(Drop)]
pub struct ByteSet<K: AsBytes, const P: usize> {
    map: ByteMap<K, (), P>,
}

impl<K: AsBytes, const P: usize> Model for ByteSet<K, P> {
    ghost use Rattle.std.specs.Prelude.{List};
    ghost use Rattle.std.specs.Coded.{coded_list};

    ghost Value = { List K };

    ghost coded = { coded_list K.code };

    ghost use Rattle.art_iterating.specs.MapItems.{keys_of};

    ghost view = { λ s. keys_of s.map };
}

impl<K: AsBytes + Drop, const P: usize> ByteSet<K, P> {
    /// Returns an empty set, without an allocation.
    pub fn new(alloc: Global) -> Self
        ensures { result ≡ [] }
    {
        ByteSet {
            map: ByteMap::new(alloc),
        }
    }

    /// Returns the number of keys, in constant time.
    pub fn len(&self) -> usize
        ensures len { result ≡ length self.now }
        ensures sorted { IsMap K.bytes self.now }
    {
        self.map.len()
    }

    /// Returns whether the set has no keys.
    pub fn is_empty(&self) -> bool
        ensures { IsTrue result ↔ (self.now ≡ []) }
    {
        self.len() == 0
    }

    /// Returns whether a key with these bytes is stored. It is a single descent along them.
    pub fn contains(&self, key_bytes: &[u8]) -> bool
        ensures { result ≡ has_key K.bytes key_bytes.now self.now }
    {
        self.map.contains_key(key_bytes)
    }

    /// Returns the stored key with these bytes, or `None`. It is a single descent along them.
    pub fn get(&self, key_bytes: &[u8]) -> Option<&K>
        ensures { option_copied result ≡ first_of (with_key K.bytes key_bytes.now self.now) }
    {
        match self.map.get_key_value(key_bytes) {
            Some((key, _)) => Some(key),
            None => None,
        }
    }

    /// Returns the first key, or `None` if there is none. It reads one inner node for each level.
    pub fn first(&self) -> Option<&K>
        ensures { option_copied result ≡ first_of self.now }
    {
        match self.map.first_key_value() {
            Some((key, _)) => Some(key),
            None => None,
        }
    }

    /// Returns the last key, or `None` if there is none. It reads one inner node for each level.
    pub fn last(&self) -> Option<&K>
        ensures { option_copied result ≡ last_of self.now }
    {
        match self.map.last_key_value() {
            Some((key, _)) => Some(key),
            None => None,
        }
    }

    /// Returns an iterator over the keys in ascending order, from both ends. It costs what `iter` of a `ByteMap` does.
    pub fn iter(&self) -> Keys<'_, K, (), P>
        ensures keys { result ≡ self.now }
        ensures sorted { IsMap K.bytes self.now }
        ensures fits { length result < 2 ^ 64 }
    {
        self.map.keys()
    }

    /// Inserts a key, and returns whether it is new. If an equal key is stored, that key stays and the one that was
    /// passed is dropped.
    ///
    /// An error returns the key, and the set is unchanged: `Conflict` if a stored key conflicts with it, `Memory` if an
    /// allocation fails, for a new key or for the bytes of a conflicting one. It never fails if an equal key is stored.
    /// It costs what `insert` of a `ByteMap` does.
    pub fn insert(&mut self, key: K) -> Result<bool, SetInsertError<K>>
        ensures keys { OnOk result (self.new ≡ add_key K.bytes key self.old) }
        ensures added { IfOk result (λ added.
            added ≡ not (has_key K.bytes (K.bytes key) self.old)) }
        ensures accepted { OnOk result (is_conflict K.bytes (K.bytes key) self.old ≡ false) }

        ensures refused { IfErr result (IsKeyRefusal K.bytes key self.old) }
        ensures kept { OnErr result (self.new ≡ self.old) }
    {
        let replaced = match self.map.insert(key, ()) {
            Ok(replaced) => replaced,
            Err(error) => return Err(without_value(error)),
        };
        Ok(replaced.is_none())
    }

    /// Inserts a key in place of the equal one that is stored, which is returned. Both have the same bytes. Errors and
    /// cost are those of `insert`.
    pub fn replace(&mut self, key: K) -> Result<Option<K>, SetInsertError<K>>
        ensures keys { OnOk result (self.new ≡ replace_key K.bytes key self.old) }
        ensures replaced { IfOk result (λ replaced.
            replaced ≡ first_of (with_key K.bytes (K.bytes key) self.old)) }
        ensures accepted { OnOk result (is_conflict K.bytes (K.bytes key) self.old ≡ false) }

        ensures refused { IfErr result (IsKeyRefusal K.bytes key self.old) }
        ensures kept { OnErr result (self.new ≡ self.old) }
    {
        match self.map.replace(key, ()) {
            Ok(Some((replaced, _))) => Ok(Some(replaced)),
            Ok(None) => Ok(None),
            Err(error) => Err(without_value(error)),
        }
    }

    // ---- Removals. None of them allocates, and none fails.

    /// Removes the key with these bytes, and returns whether it was stored. It is a single descent.
    pub fn remove(&mut self, key_bytes: &[u8]) -> bool
        ensures keys { self.new ≡ remove_key K.bytes key_bytes.now self.old }
        ensures removed { result ≡ has_key K.bytes key_bytes.now self.old }
    {
        self.remove_by(key_bytes)
    }

    /// Removes the key with these bytes, and returns it; `None` if it is not stored. It is a single descent.
    pub fn take(&mut self, key_bytes: &[u8]) -> Option<K>
        ensures keys { self.new ≡ remove_key K.bytes key_bytes.now self.old }
        ensures removed { result ≡ remove_reply K.bytes key_bytes.now self.old }
    {
        let (key, _) = self.map.remove_by(key_bytes)?;
        Some(key)
    }

    /// Removes the first key and returns it; `None` if there is none. It is a single descent.
    pub fn pop_first(&mut self) -> Option<K>
        ensures keys { self.new ≡ without_first self.old }
        ensures removed { result ≡ first_of self.old }
    {
        let (key, _) = self.map.pop_first().unwrap()?;
        Some(key)
    }

    /// Removes the last key and returns it; `None` if there is none. It is a single descent.
    pub fn pop_last(&mut self) -> Option<K>
        ensures keys { self.new ≡ without_last self.old }
        ensures removed { result ≡ last_of self.old }
    {
        let (key, _) = self.map.pop_last().unwrap()?;
        Some(key)
    }

    /// Removes all keys, and allocates nothing. It frees slab by slab, without a descent. The store keeps the slots for
    /// later nodes.
    pub fn clear(&mut self)
        ensures { self.new ≡ [] }
    {
        self.map.clear();
    }

    /// Moves the keys into their order in memory, as `compact` of a `ByteMap` does: an iteration then reads memory from
    /// front to back. It fails only if an allocation fails, and then nothing has moved.
    pub fn compact(&mut self) -> Result<(), AllocError>
        ensures same { self.new ≡ self.old }
    {
        self.map.compact()
    }

    /// Frees memory that the set has for later keys, as `shrink_to_fit` of a `ByteMap` does. Fails only if an allocation
    /// fails; the set is unchanged in any case.
    pub fn shrink_to_fit(&mut self) -> Result<(), AllocError>
        ensures same { self.new ≡ self.old }
    {
        self.map.shrink_to_fit()
    }
}

impl<'a, K: AsBytes + Drop, const P: usize> IntoIterator for &'a ByteSet<K, P> {
    type Item = &'a K;

    type IntoIter = Keys<'a, K, (), P>;

    ghost into_iter_gives = { λ set keys. keys ≡ set.now };

    fn into_iter(self) -> Keys<'a, K, (), P> {
        self.iter()
    }
}

impl<K: AsBytes + Drop, const P: usize> IntoIterator for ByteSet<K, P> {
    type Item = K;

    type IntoIter = IntoKeys<K, (), P>;

    ghost into_iter_gives = { λ set keys. keys ≡ set };

    fn into_iter(self) -> IntoKeys<K, (), P> {
        self.map.into_keys()
    }
}

impl<K: AsBytes + fmt::Debug + Drop, const P: usize> fmt::Debug for ByteSet<K, P> {
    fn fmt<W: fmt::Write>(&self, f: &mut fmt::Formatter<W>) -> fmt::Result {
        let mut out = f.debug_set();
        for key in self.iter() {
            out.entry(key);
        }
        out.finish()
    }
}

// The error of an insertion into a map, without the value.
fn without_value<K>(error: MapInsertError<K, ()>) -> SetInsertError<K>
    ensures { result ≡ key_error error }
{
    match error {
        MapInsertError::Conflict {
            key,
            value: _,
            error,
        } => SetInsertError::Conflict { key, error },
        MapInsertError::Memory { key, value: _ } => SetInsertError::Memory { key },
    }
}
