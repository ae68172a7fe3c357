//! Inserting a pair into each of two maps, or into neither.
ghost use Rattle.std.specs.Prelude.{◌≡◌, ◌≢◌, ℕ, false, Ok, Some, IfOk, IfErr, IsOk, OnErr, OnOk, IsTrue};
ghost use Rattle.art_model.specs.Pairs.{is_conflict, of_key, put, put_reply};
ghost use Rattle.art_model.specs.Promises.{is_covered};
ghost use Rattle.art_map.specs.MapBoth.{IsRefusalOfBoth};
ghost use Rattle.art_changing.specs.PairChanges.{HasPut};
ghost use Rattle.art_changing.specs.MapPairs.{HoldsPairs, pairs_at};
ghost use Rattle.art_map.specs.Reserved.{IsReserved, IsUnreserved, IsWithPair};
ghost use Rattle.art_parts.specs.declared.names.NodeType.TheVariants.{Leaf};
ghost use Rattle.art_reading.specs.declared.end_node.InsertKind.TheVariants as kinds;
ghost use Rattle.art_writing.specs.Inserted.{placed_for};

use super::{ByteMap, MapInsertError};
use art_changing::insert::one_more;
use art_nodes::node::{AsBytes, InnerPtr, NodeType, OpaqueNodePtr};
use art_nodes::store::NodeStore;
use art_writing::insert::{
    InsertKind, InsertPoint, InsertSearchError, plant, search_for_insert_point,
};
use std::alloc::AllocError;
use thiserror::Error;

/// Two pairs that were not inserted: the error has the one that failed, and the other one is beside it.
#[derive(Debug, Drop, Error)]
pub enum BothInsertError<K, V, L, W> {
    /// The map that was called failed.
    #[error("{error}")]
    First {
        error: MapInsertError<K, V>,
        pair: (L, W),
    },
    /// The other map failed.
    #[error("{error}")]
    Second {
        pair: (K, V),
        error: MapInsertError<L, W>,
    },
}

impl<K: AsBytes + Drop, V: Drop, const P: usize> ByteMap<K, V, P> {
    /// Inserts a pair into this map and another pair into another map, or neither. Each is inserted as by `insert`.
    ///
    /// The errors are those of `insert`: its `Memory` says that the key of its pair is not stored. An error returns both
    /// pairs, and both maps are unchanged.
    ///
    /// It costs what two insertions do. The memory for the pair of this map is reserved before the other pair is
    /// inserted.
    pub fn insert_both<L: AsBytes + Drop, W: Drop, const Q: usize>(
        &mut self,
        pair: (K, V),
        other: &mut ByteMap<L, W, Q>,
        other_pair: (L, W),
    ) -> Result<(Option<(K, V)>, Option<(L, W)>), BothInsertError<K, V, L, W>>
        // If it succeeds.
        ensures pairs { OnOk result (self.new ≡ put (of_key K.bytes) pair self.old) }
        ensures other_pairs { OnOk result (other.new ≡ put (of_key L.bytes) other_pair other.old) }
        ensures replaced { IfOk result (λ replaced.
            replaced.0 ≡ put_reply (of_key K.bytes) pair self.old) }
        ensures other_replaced { IfOk result (λ replaced.
            replaced.1 ≡ put_reply (of_key L.bytes) other_pair other.old) }
        ensures accepted { OnOk result
            (is_conflict (of_key K.bytes) (K.bytes pair.0) self.old ≡ false) }
        ensures other_accepted { OnOk result
            (is_conflict (of_key L.bytes) (L.bytes other_pair.0) other.old ≡ false) }

        // If it fails.
        ensures refused { IfErr result
            (IsRefusalOfBoth K.bytes L.bytes pair self.old other_pair other.old) }
        ensures kept { OnErr result (self.new ≡ self.old) }
        ensures other_kept { OnErr result (other.new ≡ other.old) }
    {
        let (key, value) = pair;
        let place = match reserve_place(&mut self.store, self.root, key.as_bytes()) {
            Ok(place) => place,
            Err(error) => {
                return Err(BothInsertError::First {
                    error: with_pair(error, key, value),
                    pair: other_pair,
                });
            }
        };
        let (other_key, other_value) = other_pair;
        match other.insert(other_key, other_value) {
            Ok(replaced) => {
                let (store, root, len) = (&mut self.store, &mut self.root, &mut self.len);
                Ok((put_reserved(store, root, len, place, key, value), replaced))
            }
            Err(error) => Err(BothInsertError::Second {
                pair: (key, value),
                error,
            }),
        }
    }
}

// Finds the place of a key, and reserves the nodes that its pair needs there. `None` is the place in an empty map.
fn reserve_place<K: AsBytes + Drop, V: Drop, const P: usize>(
    store: &mut NodeStore<K, V, P>,
    root: Option<OpaqueNodePtr>,
    key_bytes: &[u8],
) -> Result<Option<InsertPoint>, InsertSearchError>
    requires { (len : ℕ) × HoldsPairs (of_key K.bytes) P store.old root len
        (pairs_at store.old root) }
    ensures leaves { store.new.leaves ≡ store.old.leaves }
    ensures inners { store.new.inners ≡ store.old.inners }
    ensures reserved { IfOk result (IsReserved K.bytes P store.new root key_bytes.now) }
    ensures refused { IfErr result (IsUnreserved K.bytes key_bytes.now (pairs_at store.old root)) }
{
    let Some(name) = root else {
        return match store.reserve(1, None) {
            Ok(()) => Ok(None),
            Err(error) => Err(InsertSearchError::Memory(error)),
        };
    };
    let point = match search_for_insert_point(store, name, key_bytes) {
        Ok(point) => point,
        Err(error) => return Err(error),
    };
    match reserve_for(store, point.insert_kind) {
        Ok(()) => Ok(Some(point)),
        Err(error) => Err(InsertSearchError::Memory(error)),
    }
}

// Reserves the nodes that an insertion of this kind places.
fn reserve_for<K: AsBytes + Drop, V: Drop, const P: usize>(
    store: &mut NodeStore<K, V, P>,
    kind: InsertKind,
) -> Result<(), AllocError>
    ensures leaves { store.new.leaves ≡ store.old.leaves }
    ensures inners { store.new.inners ≡ store.old.inners }
    ensures reserved { OnOk result
        (IsTrue (is_covered (placed_for store.old kind) store.new.promise)) }
    ensures succeeds { IsTrue (is_covered (placed_for store.old kind) store.old.promise) →
        IsOk result }
{
    match kind {
        InsertKind::Exact { .. } => Ok(()),
        InsertKind::IntoExisting { inner_node_ptr } => {
            let larger = larger_for(store, inner_node_ptr);
            store.reserve(1, larger)
        }
        _ => store.reserve(1, Some(NodeType::Node4)),
    }
}

// The kind of the node that replaces a full one for a further child; `None` if the node has room.
fn larger_for<K: AsBytes + Drop, V: Drop, const P: usize>(
    store: &NodeStore<K, V, P>,
    name: InnerPtr,
) -> Option<NodeType>
    ensures larger { result ≡ (placed_for store.now (kinds.IntoExisting name)).inner }
    ensures is_inner { result ≢ Some Leaf }
{
    let node = store.inner(name)?;
    if node.is_full() {
        node.node_type().larger()
    } else {
        None
    }
}

// The error with the pair.
fn with_pair<K, V>(error: InsertSearchError, key: K, value: V) -> MapInsertError<K, V>
    ensures { IsWithPair key value error result }
{
    match error {
        InsertSearchError::Prefix(error) => MapInsertError::Conflict { key, value, error },
        InsertSearchError::Memory(_) => MapInsertError::Memory { key, value },
    }
}

// Inserts a pair into the tree at its reserved place.
fn put_reserved<K: AsBytes + Drop, V: Drop, const P: usize>(
    store: &mut NodeStore<K, V, P>,
    root: &mut Option<OpaqueNodePtr>,
    len: &mut usize,
    place: Option<InsertPoint>,
    key: K,
    value: V,
) -> Option<(K, V)>
    requires holds { HoldsPairs (of_key K.bytes) P store.old root.old len.old
        (pairs_at store.old root.old) }
    requires reserved { IsReserved K.bytes P store.old root.old (K.bytes key) place }
    ensures { HasPut K.bytes P (pairs_at store.old root.old) key value (Ok result)
        store.new root.new len.new }
{
    let Some(point) = place else {
        let leaf = plant(store, key, value).unwrap();
        *root = Some(leaf.to_opaque());
        *len = 1;
        return None;
    };
    let done = point.apply(store, key, value).unwrap();
    *root = Some(done.new_root);
    let Some(leaf) = done.existing_leaf else {
        *len = one_more(store, *len);
        return None;
    };
    Some((leaf.key, leaf.value))
}
