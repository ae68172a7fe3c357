//! Inserting pairs into a tree that is the only one of its store.
ghost use Rattle.std.specs.Prelude.{◌≡◌, ◌+◌, ◌<◌, None, Some};
ghost use Rattle.std.specs.FinMap as map;
ghost use Rattle.art_model.specs.Pairs.{of_key};
ghost use Rattle.art_changing.specs.declared.insert.MapInsertError.TheVariants as errors;
ghost use Rattle.art_changing.specs.PairChanges.{HasPlanted, HasPut, HasPutOver, gone_count};
ghost use Rattle.art_changing.specs.MapPairs.{HoldsPairs, pairs_at};

use art_nodes::node::{AsBytes, LeafPtr, OpaqueNodePtr};
use art_nodes::store::NodeStore;
use art_writing::insert::{
    InsertPrefixError, InsertSearchError, PairRefused, PrefixInsertResult, plant,
    search_for_insert_point, search_for_prefix_insert_point,
};
use thiserror::Error;

/// A pair that was not inserted.
#[derive(Debug, Drop, Error)]
pub enum MapInsertError<K, V> {
    /// A stored key conflicts with the key: they are unequal, and one of the two is a prefix of the other.
    #[error("{error}")]
    Conflict {
        key: K,
        value: V,
        error: InsertPrefixError,
    },
    /// An allocation failed, and no equal key is stored. A conflicting one may be: a `Conflict` needs memory for the
    /// bytes of the key.
    #[error("memory allocation failed")]
    Memory {
        key: K,
        value: V,
    },
}

impl<K, V> MapInsertError<K, V> {
    ghost use Rattle.art_changing.specs.MapAnswers.{refused_pair};

    /// Returns the pair of either error.
    pub fn into_pair(self) -> PairRefused<K, V>
        ensures { (result.key, result.value) ≡ refused_pair self }
    {
        match self {
            MapInsertError::Conflict { key, value, .. } => PairRefused { key, value },
            MapInsertError::Memory { key, value } => PairRefused { key, value },
        }
    }
}

/// Inserts a pair. An equal stored key stays and gets the value, and the key that was passed is returned with the old
/// value. An error returns the pair, and no pair changes. It is one descent along the bytes of the key.
///
/// `near` is set to the name of the key's leaf where the tree had a pair before: a hint of where to begin next time, of
/// which no clause speaks.
pub fn put_in<K: AsBytes + Drop, V: Drop, const P: usize>(
    store: &mut NodeStore<K, V, P>,
    root: &mut Option<OpaqueNodePtr>,
    len: &mut usize,
    near: &mut Option<LeafPtr>,
    key: K,
    value: V,
) -> Result<Option<(K, V)>, MapInsertError<K, V>>
    requires { HoldsPairs (of_key K.bytes) P store.old root.old len.old
        (pairs_at store.old root.old) }
    ensures { HasPut K.bytes P (pairs_at store.old root.old) key value result
        store.new root.new len.new }
{
    let Some(name) = *root else {
        return match begin(store, root, len, key, value) {
            Ok(()) => Ok(None),
            Err(refused) => Err(without_memory(refused)),
        };
    };
    let point = match search_for_insert_point(store, name, key.as_bytes()) {
        Ok(point) => point,
        Err(InsertSearchError::Prefix(error)) => {
            return Err(MapInsertError::Conflict { key, value, error });
        }
        Err(InsertSearchError::Memory(_)) => return Err(MapInsertError::Memory { key, value }),
    };
    match point.apply(store, key, value) {
        Ok(done) => {
            *root = Some(done.new_root);
            *near = Some(done.leaf_node_ptr);
            let Some(leaf) = done.existing_leaf else {
                *len = one_more(store, *len);
                return Ok(None);
            };
            Ok(Some((leaf.key, leaf.value)))
        }
        Err(refused) => Err(without_memory(refused)),
    }
}

/// Returns the error with the pair for which an allocation failed.
pub fn without_memory<K, V>(refused: PairRefused<K, V>) -> MapInsertError<K, V>
    ensures { result ≡ errors.Memory refused.key refused.value }
{
    MapInsertError::Memory {
        key: refused.key,
        value: refused.value,
    }
}

/// Inserts a pair in place of all pairs with related keys: its own, those in front of it and those that start with it.
/// Returns how many there were. An error returns the pair, and no pair changes. It descends once, and frees what it
/// replaces.
pub fn put_over<K: AsBytes + Drop, V: Drop, const P: usize>(
    store: &mut NodeStore<K, V, P>,
    root: &mut Option<OpaqueNodePtr>,
    len: &mut usize,
    key: K,
    value: V,
) -> Result<usize, PairRefused<K, V>>
    requires { HoldsPairs (of_key K.bytes) P store.old root.old len.old
        (pairs_at store.old root.old) }
    ensures { HasPutOver K.bytes P (pairs_at store.old root.old) key value result
        store.new root.new len.new }
{
    let Some(name) = *root else {
        return match begin(store, root, len, key, value) {
            Ok(()) => Ok(0),
            Err(refused) => Err(refused),
        };
    };
    let point = search_for_prefix_insert_point(store, name, key.as_bytes());
    match point.apply(store, key, value) {
        Ok(done) => {
            let gone = count_gone(&done);
            *root = Some(done.insert_result.new_root);
            *len = one_more(store, *len - gone);
            Ok(gone)
        }
        Err(refused) => Err(refused),
    }
}

// How many pairs were replaced: the one that was returned, or those that were freed.
fn count_gone<K, V>(done: &PrefixInsertResult<K, V>) -> usize
    ensures { result ≡ gone_count done.now }
{
    match done.insert_result.existing_leaf {
        None => done.leafs_removed,
        Some(_) => 1,
    }
}

/// Returns one more than a number that is less than that of the leaves: it is a `usize`.
pub fn one_more<K: AsBytes + Drop, V: Drop, const P: usize>(
    store: &NodeStore<K, V, P>,
    len: usize,
) -> usize
    requires { len < map.len store.now.leaves }
    ensures { result ≡ len + 1 }
{
    // Its contract states that the leaves are fewer than a `usize` can count.
    let _count = store.leaf_count();
    len + 1
}

// Plants the tree with a pair.
fn begin<K: AsBytes + Drop, V: Drop, const P: usize>(
    store: &mut NodeStore<K, V, P>,
    root: &mut Option<OpaqueNodePtr>,
    len: &mut usize,
    key: K,
    value: V,
) -> Result<(), PairRefused<K, V>>
    requires none { root.old ≡ None }
    requires holds { HoldsPairs (of_key K.bytes) P store.old None len.old
        (pairs_at store.old None) }
    ensures { HasPlanted K.bytes P key value result store.new root.new len.new }
{
    match plant(store, key, value) {
        Ok(leaf) => {
            *root = Some(leaf.to_opaque());
            *len = 1;
            Ok(())
        }
        Err(refused) => Err(refused),
    }
}
