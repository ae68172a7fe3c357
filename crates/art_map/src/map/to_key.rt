//! Values of keys that are made only where they are new.
ghost use Rattle.std.specs.Prelude.{◌≡◌, ◌↔◌, IfErr, IfOk, IfSome, IsOk, IsSome, OnErr, OnOk, false};
ghost use Rattle.std.specs.Borrow.{sem};
ghost use Rattle.std.specs.Option.{unwrap_or};
ghost use Rattle.art_model.specs.Pairs.{has_key, is_conflict, of_key};
ghost use Rattle.art_map.specs.MadeKeys.{HasSameBytes, IsSourceRefusal};
ghost use Rattle.art_changing.specs.MapAnswers.{value_at};
ghost use Rattle.art_map.specs.MapLends.{lends_put};

use super::position::leaf_from;
use super::{ByteMap, MapInsertError};
use art_nodes::node::{AsBytes, LeafPtr};
use art_reading::lookup::KeyBytes;
use std::alloc::{AllocError, AllocFailed, Global};
use thiserror::Error;

/// What a key is made from, such as a text. Its bytes are those of the key.
pub trait ToKey<K: AsBytes>: KeyBytes {
    /// The key.
    ghost made: { Self → K };

    /// Whether the type has such a key.
    ghost is_key: { Self → Type 0 };

    /// Whether the key is made without an allocation.
    ghost allocates_nothing: { Self → Type 0 };

    /// Makes the key. Returns `None` if the type has none with these bytes, and fails only if it has one and an
    /// allocation fails.
    fn to_key(&self, alloc: Global) -> Result<Option<K>, AllocError>
        ensures key { IfOk result (λ some. IfSome some (λ key. key ≡ made self.now)) }
        ensures made { IfOk result (λ some. IsSome some ↔ is_key self.now) }
        ensures succeeds { allocates_nothing self.now → IsOk result }
        ensures refused { OnErr result (is_key self.now) };

    /// The bytes of the source are those of the key.
    ghost same_bytes: { HasSameBytes K.AsBytes.bytes Self.KeyBytes.key made };
}

/// A value that was not inserted by a source of its key.
#[derive(Debug, Drop, Error)]
pub enum MapSourceError<K, V> {
    /// The type has no key with these bytes.
    #[error("no key has these bytes")]
    NoKey { value: V },
    /// The key was not made, since an allocation failed.
    #[error("memory allocation failed")]
    Memory { value: V },
    /// The key was made, but not inserted.
    #[error("{0}")]
    Insert(MapInsertError<K, V>),
}

impl<K: Drop, V> MapSourceError<K, V> {
    ghost use Rattle.art_map.specs.MadeKeys.{refused_value};

    /// Returns the value of any error.
    pub fn into_value(self) -> V
        ensures { result ≡ refused_value self }
    {
        match self {
            MapSourceError::NoKey { value } | MapSourceError::Memory { value } => value,
            MapSourceError::Insert(error) => error.into_pair().value,
        }
    }
}

/// Drops the key, if it was made, and returns the value.
impl<K: Drop, V> From<MapSourceError<K, V>> for AllocFailed<V> {
    ghost use Rattle.art_map.specs.MadeKeys.{refused_value};

    ghost from_gives = { λ error failed. failed.value ≡ refused_value error };

    fn from(error: MapSourceError<K, V>) -> Self {
        AllocFailed {
            value: error.into_value(),
        }
    }
}

impl<K: AsBytes + Drop, V: Drop, const P: usize> ByteMap<K, V, P> {
    /// Returns the value of a key as `&mut V`. If it is not stored, the key is made from the source, and inserted with
    /// this value first; a key that is stored stays, with its value.
    ///
    /// It is a single descent, and costs what `insert` does. An error returns the value, and the map is unchanged. It
    /// never fails if the key is stored.
    pub fn get_or_insert_from<S: ToKey<K> + Drop>(
        &mut self,
        alloc: Global,
        source: &S,
        value: V,
    ) -> Result<&mut V, MapSourceError<K, V>>
        ensures* writes_back { sem 𝓛
            (lends_put K.row V.row P.row K.AsBytes self.entry (S.made source.now) result) }
        ensures value { IfOk result (λ lent.
            lent.now ≡ unwrap_or (value_at K.bytes (K.bytes (S.made source.now)) self.old) value) }
        ensures accepted { OnOk result
            (is_conflict (of_key K.bytes) (K.bytes (S.made source.now)) self.old ≡ false) }
        ensures is_key { OnOk result
            (has_key (of_key K.bytes) (K.bytes (S.made source.now)) self.old ≡ false →
            S.is_key source.now) }
        ensures refused { IfErr result
            (IsSourceRefusal K.bytes (S.made source.now) (S.is_key source.now)
            (S.allocates_nothing source.now) value self.old) }
    {
        self.get_or_insert_from_near(None, alloc, source, value)
    }

    /// Returns what `get_or_insert_from` does. The leaf of this name, if there is one, is read first: if it has the key,
    /// there is no descent.
    pub fn get_or_insert_from_near<S: ToKey<K> + Drop>(
        &mut self,
        near: Option<LeafPtr>,
        alloc: Global,
        source: &S,
        value: V,
    ) -> Result<&mut V, MapSourceError<K, V>>
        ensures* writes_back { sem 𝓛
            (lends_put K.row V.row P.row K.AsBytes self.entry (S.made source.now) result) }
        ensures value { IfOk result (λ lent.
            lent.now ≡ unwrap_or (value_at K.bytes (K.bytes (S.made source.now)) self.old) value) }
        ensures accepted { OnOk result
            (is_conflict (of_key K.bytes) (K.bytes (S.made source.now)) self.old ≡ false) }
        ensures is_key { OnOk result
            (has_key (of_key K.bytes) (K.bytes (S.made source.now)) self.old ≡ false →
            S.is_key source.now) }
        ensures refused { IfErr result
            (IsSourceRefusal K.bytes (S.made source.now) (S.is_key source.now)
            (S.allocates_nothing source.now) value self.old) }
    {
        let leaf = match leaf_from(
            &mut self.store,
            &mut self.root,
            &mut self.len,
            near,
            alloc,
            source,
            value,
        ) {
            Ok(leaf) => leaf,
            Err(error) => return Err(error),
        };
        Ok(self.store.value_mut(leaf).unwrap())
    }
}
