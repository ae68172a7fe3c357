//! An ordered set of keys that never conflict. Its contracts speak only of lists of keys.
ghost use Rattle.std.specs.Prelude.{◌≡◌, ◌↔◌, ◌<◌, ◌^◌, [], length, false, not, IsOk, IfOk, IfErr, IsTrue, OnOk, OnErr, option_copied};
ghost use Rattle.std.specs.List.{AllByRecursion as Each};
ghost use Rattle.art_model.specs.Pairs.{IsMap, first_of, has_key, last_of, remove_key, remove_reply, replace_key, with_key, without_first, without_last};
ghost use Rattle.art_sets.specs.SetKeys.{add_key};

use art_keys::laws::NoPrefixesBytes;
use art_map::map::{IntoKeys, Keys};
use art_sets::set::{ByteSet, SetInsertError};
use std::alloc::{AllocError, Global};
use std::fmt;
use std::marker::Model;
use thiserror::Error;

mod algebra;
mod clones;
mod compared;
mod extend;
mod from_map;
mod joined;
mod joined_array;
mod operators;
mod ordered;
mod parts;
mod retain;
mod strings;

/// A key that was not inserted, since an allocation failed.
#[derive(Debug, Drop, Error)]
#[error("memory allocation failed")]
pub struct KeyRefused<K> {
    pub key: K,
}

/// Drops the key, so that `?` works in a function that fails only if an allocation fails.
impl<K: Drop> From<KeyRefused<K>> for AllocError {
    fn from(refused: KeyRefused<K>) -> Self {
        AllocError
    }
}

/// A set of keys in the order of their bytes. No key of the type is a prefix of another one, so an insertion fails only
/// if an allocation fails.
#[derive(Drop)]
pub struct TreeSet<K: NoPrefixesBytes, const P: usize> {
    set: ByteSet<K, P>,
}

impl<K: NoPrefixesBytes, const P: usize> Model for TreeSet<K, P> {
    ghost use Rattle.std.specs.Prelude.{List};
    ghost use Rattle.std.specs.Coded.{coded_list};
    ghost use Rattle.std.specs.List.{AllByRecursion as Each};

    ghost Value = { List K };

    ghost coded = { coded_list K.code };

    ghost view = { λ s. s.set };

    ghost invariant = { λ s. Each K.is_key s.set };
}

impl<K: NoPrefixesBytes + Drop, const P: usize> TreeSet<K, P> {
    /// Returns an empty set. It allocates nothing.
    pub fn new(alloc: Global) -> Self
        ensures { result ≡ [] }
    {
        TreeSet {
            set: ByteSet::new(alloc),
        }
    }

    /// Returns the set as a `ByteSet`, for the calls of a `ByteSet` that only read.
    pub fn as_byte_set(&self) -> &ByteSet<K, P>
        ensures keys { result.now ≡ self.now }
        ensures known { Each K.is_key self.now }
    {
        &self.set
    }

    /// Returns the number of keys.
    pub fn len(&self) -> usize
        ensures len { result ≡ length self.now }
        ensures sorted { IsMap K.bytes self.now }
    {
        self.set.len()
    }

    /// Returns whether the set is empty.
    pub fn is_empty(&self) -> bool
        ensures { IsTrue result ↔ (self.now ≡ []) }
    {
        self.set.is_empty()
    }

    /// Returns whether a key is stored, with a single descent along its bytes.
    pub fn contains(&self, key: &K) -> bool
        ensures { result ≡ has_key K.bytes (K.bytes key.now) self.now }
    {
        self.set.contains(key.as_bytes())
    }

    /// Returns the stored key that is equal to a key, or `None` if there is none, with a single descent along the key's
    /// bytes.
    pub fn get(&self, key: &K) -> Option<&K>
        ensures { option_copied result ≡ first_of (with_key K.bytes (K.bytes key.now) self.now) }
    {
        self.set.get(key.as_bytes())
    }

    /// Returns the first key, or `None` if the set is empty. It reads one inner node on each level.
    pub fn first(&self) -> Option<&K>
        ensures { option_copied result ≡ first_of self.now }
    {
        self.set.first()
    }

    /// Returns the last key, or `None` if the set is empty. It reads one inner node on each level.
    pub fn last(&self) -> Option<&K>
        ensures { option_copied result ≡ last_of self.now }
    {
        self.set.last()
    }

    /// Returns a double-ended iterator over the keys, in ascending order. No step of it descends the tree.
    pub fn iter(&self) -> Keys<'_, K, (), P>
        ensures keys { result ≡ self.now }
        ensures sorted { IsMap K.bytes self.now }
        ensures fits { length result < 2 ^ 64 }
    {
        self.set.iter()
    }

    /// Inserts a key, and returns whether it was new. If an equal key is stored, that key stays and the one that was
    /// passed is dropped.
    ///
    /// Fails only if an allocation fails, and never if an equal key is stored. The error returns the key, and the set
    /// is unchanged.
    pub fn insert(&mut self, key: K) -> Result<bool, KeyRefused<K>>
        ensures keys { OnOk result (self.new ≡ add_key K.bytes key self.old) }
        ensures added { IfOk result (λ added.
            added ≡ not (has_key K.bytes (K.bytes key) self.old)) }

        ensures handed_back { IfErr result (λ refused. refused.key ≡ key) }
        ensures refused { OnErr result (has_key K.bytes (K.bytes key) self.old ≡ false) }
        ensures kept { OnErr result (self.new ≡ self.old) }
    {
        key.as_key();
        match self.set.insert(key) {
            Ok(added) => Ok(added),
            Err(SetInsertError::Conflict { .. }) => unreachable!(),
            Err(SetInsertError::Memory { key }) => Err(KeyRefused { key }),
        }
    }

    /// Inserts a key in place of the stored key that is equal to it, and returns that one, or `None` if there was none.
    /// Both keys have the same bytes. Fails as `insert` does.
    pub fn replace(&mut self, key: K) -> Result<Option<K>, KeyRefused<K>>
        ensures keys { OnOk result (self.new ≡ replace_key K.bytes key self.old) }
        ensures replaced { IfOk result (λ replaced.
            replaced ≡ first_of (with_key K.bytes (K.bytes key) self.old)) }

        ensures handed_back { IfErr result (λ refused. refused.key ≡ key) }
        ensures refused { OnErr result (has_key K.bytes (K.bytes key) self.old ≡ false) }
        ensures kept { OnErr result (self.new ≡ self.old) }
    {
        key.as_key();
        match self.set.replace(key) {
            Ok(replaced) => Ok(replaced),
            Err(SetInsertError::Conflict { .. }) => unreachable!(),
            Err(SetInsertError::Memory { key }) => Err(KeyRefused { key }),
        }
    }

    // ---- Removals: none of them allocates or fails.

    /// Removes a key, and returns whether it was stored.
    pub fn remove(&mut self, key: &K) -> bool
        ensures keys { self.new ≡ remove_key K.bytes (K.bytes key.now) self.old }
        ensures removed { result ≡ has_key K.bytes (K.bytes key.now) self.old }
    {
        self.set.remove(key.as_bytes())
    }

    /// Removes the stored key that is equal to a key, and returns it, or `None` if there is none.
    pub fn take(&mut self, key: &K) -> Option<K>
        ensures keys { self.new ≡ remove_key K.bytes (K.bytes key.now) self.old }
        ensures removed { result ≡ remove_reply K.bytes (K.bytes key.now) self.old }
    {
        self.set.take(key.as_bytes())
    }

    /// Removes the first key, and returns it, or `None` if the set is empty.
    pub fn pop_first(&mut self) -> Option<K>
        ensures keys { self.new ≡ without_first self.old }
        ensures removed { result ≡ first_of self.old }
    {
        self.set.pop_first()
    }

    /// Removes the last key, and returns it, or `None` if the set is empty.
    pub fn pop_last(&mut self) -> Option<K>
        ensures keys { self.new ≡ without_last self.old }
        ensures removed { result ≡ last_of self.old }
    {
        self.set.pop_last()
    }

    /// Removes all keys, as `clear` of a `ByteMap` does. The store keeps its slots for later keys.
    pub fn clear(&mut self)
        ensures { self.new ≡ [] }
    {
        self.set.clear();
    }

    /// Moves the keys into their order in memory, as `compact` of a `ByteMap` does, so that an iteration reads memory
    /// from first to last. Fails only if an allocation fails; then no key has moved.
    pub fn compact(&mut self) -> Result<(), AllocError>
        ensures same { self.new ≡ self.old }
    {
        self.set.compact()
    }

    /// Frees memory that the set has for later keys, as `shrink_to_fit` of a `ByteMap` does. Fails only if an allocation
    /// fails; the set is unchanged in any case.
    pub fn shrink_to_fit(&mut self) -> Result<(), AllocError>
        ensures same { self.new ≡ self.old }
    {
        self.set.shrink_to_fit()
    }
}

impl<'a, K: NoPrefixesBytes + Drop, const P: usize> IntoIterator for &'a TreeSet<K, P> {
    type Item = &'a K;

    type IntoIter = Keys<'a, K, (), P>;

    ghost into_iter_gives = { λ set keys. keys ≡ set.now };

    fn into_iter(self) -> Keys<'a, K, (), P> {
        self.iter()
    }
}

impl<K: NoPrefixesBytes + Drop, const P: usize> IntoIterator for TreeSet<K, P> {
    type Item = K;

    type IntoIter = IntoKeys<K, (), P>;

    ghost into_iter_gives = { λ set keys. keys ≡ set };

    fn into_iter(self) -> IntoKeys<K, (), P> {
        self.set.into_iter()
    }
}

impl<K: NoPrefixesBytes + fmt::Debug + Drop, const P: usize> fmt::Debug for TreeSet<K, P> {
    fn fmt<W: fmt::Write>(&self, f: &mut fmt::Formatter<W>) -> fmt::Result {
        self.set.fmt(f)
    }
}
