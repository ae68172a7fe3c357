//! Where a key is in a map, or is inserted.
ghost use Rattle.std.specs.Prelude.{◌≡◌, ℕ, IfErr, IfOk, IfSome, IsNone, IsTrue, Some, false, true};
ghost use Rattle.std.specs.Borrow.{Bor};
ghost use Rattle.std.specs.Fn.{FnOnceReturnsAt};
ghost use Rattle.art_model.specs.Pairs.{has_key, is_conflict, of_key};
ghost use Rattle.art_map.specs.MapChanges.{HasEntered, HasEnteredFrom, HasKeyAt, HasMade, HasTried, IsLeafOfKey, IsPositionOf, NamesLeafOf};
ghost use Rattle.art_changing.specs.MapPairs.{HoldsPairs, pairs_at};

use super::{MapInsertError, MapMakeError, MapSourceError, ToKey};
use art_changing::insert::{one_more, without_memory};
use art_nodes::node::{AsBytes, LeafPtr, OpaqueNodePtr, OptionalLeafPtr};
use art_nodes::store::NodeStore;
use art_reading::lookup::{Asked, KeyBytes, KeyQuery, PrefixMatchBehavior, search_for};
use art_writing::delete::search_for_delete_point_by;
use art_writing::insert::{
    InsertKind, InsertPoint, InsertSearchError, plant, search_for_insert_point,
    search_for_insert_point_by,
};
use std::alloc::Global;

// Where a key is in a tree, or is inserted.
#[derive(Drop)]
pub(super) enum Position {
    /// The leaf of the key.
    Leaf(LeafPtr),
    /// Where its leaf is inserted.
    Point(InsertPoint),
    /// There is no tree yet.
    Bare,
    /// It can't be inserted.
    Refused(InsertSearchError),
}

// Where a key is, or is inserted.
pub(super) fn position_of<K: AsBytes + Drop, V: Drop, const P: usize>(
    store: &NodeStore<K, V, P>,
    root: Option<OpaqueNodePtr>,
    key_bytes: &[u8],
) -> Position
    requires { (len : ℕ) × HoldsPairs (of_key K.bytes) P store.now root len
        (pairs_at store.now root) }
    ensures { IsPositionOf K.bytes P store.now root key_bytes.now result }
{
    let Some(name) = root else {
        return Position::Bare;
    };
    match search_for_insert_point(store, name, key_bytes) {
        Ok(point) => match point.insert_kind {
            InsertKind::Exact { leaf_node_ptr } => Position::Leaf(leaf_node_ptr),
            _ => Position::Point(point),
        },
        Err(error) => Position::Refused(error),
    }
}

// Where a key is, or is inserted. A leaf that had the key is read first, since it may still have it.
pub(super) fn position_near<K: AsBytes + Drop, V: Drop, const P: usize>(
    store: &NodeStore<K, V, P>,
    root: Option<OpaqueNodePtr>,
    leaf: Option<LeafPtr>,
    key_bytes: &[u8],
) -> Position
    requires { (len : ℕ) × HoldsPairs (of_key K.bytes) P store.now root len
        (pairs_at store.now root) }
    ensures { IsPositionOf K.bytes P store.now root key_bytes.now result }
{
    if let Some(leaf) = leaf {
        if has_key_at(store, leaf, key_bytes) {
            return Position::Leaf(leaf);
        }
    }
    position_of(store, root, key_bytes)
}

// Returns whether this leaf exists and has the key that is asked for.
#[inline(always)]
pub(super) fn has_key_at<Q: KeyQuery, K: AsBytes + Drop, V: Drop, const P: usize>(
    store: &NodeStore<K, V, P>,
    leaf: LeafPtr,
    query: Q,
) -> bool
    ensures { IsTrue result → HasKeyAt K.bytes store.now leaf (Q.key query) }
{
    let Some(node) = store.leaf(leaf) else {
        return false;
    };
    query.finds(PrefixMatchBehavior::Optimistic, Asked::Same, node, 0)
}

// Returns whether this leaf exists and has the key with these bytes, which need not stand in a slice.
fn has_bytes_at<B: KeyBytes, K: AsBytes + Drop, V: Drop, const P: usize>(
    store: &NodeStore<K, V, P>,
    leaf: LeafPtr,
    bytes: &mut B,
) -> bool
    ensures key { IsTrue result → HasKeyAt K.bytes store.now leaf (B.key bytes.old) }
    ensures same { B.key bytes.new ≡ B.key bytes.old }
{
    let Some(node) = store.leaf(leaf) else {
        return false;
    };
    is_same(node.key.as_bytes(), bytes)
}

// Returns whether both are the same bytes.
fn is_same<B: KeyBytes>(slice: &[u8], bytes: &mut B) -> bool
    ensures is_same { IsTrue result → slice.now ≡ B.key bytes.old }
    ensures same { B.key bytes.new ≡ B.key bytes.old }
{
    let shared = bytes.shared_after(0, slice);
    shared == slice.len() && bytes.byte_after(shared, 0).is_none()
}

// The leaf of a key whose bytes need not stand in a slice. If it is not stored, where it is inserted, or `None` if it
// conflicts with a stored key.
fn position_by<B: KeyBytes + Drop, K: AsBytes + Drop, V: Drop, const P: usize>(
    store: &NodeStore<K, V, P>,
    root: Option<OpaqueNodePtr>,
    key: &mut B,
) -> Result<LeafPtr, Option<Position>>
    requires { (len : ℕ) × HoldsPairs (of_key K.bytes) P store.now root len
        (pairs_at store.now root) }
    ensures leaf { IfOk result (NamesLeafOf K.bytes P store.now root (B.key key.old)) }
    ensures new { IfErr result (λ position.
        has_key (of_key K.bytes) (B.key key.old) (pairs_at store.now root) ≡ false) }
    ensures position { IfErr result (λ position. IfSome position
        (IsPositionOf K.bytes P store.now root (B.key key.old))) }
    ensures conflict { IfErr result (λ position. IsNone position →
        is_conflict (of_key K.bytes) (B.key key.old) (pairs_at store.now root) ≡ true) }
{
    let Some(name) = root else {
        return Err(Some(Position::Bare));
    };
    let Some(point) = search_for_insert_point_by(store, name, key) else {
        return Err(None);
    };
    match point.insert_kind {
        InsertKind::Exact { leaf_node_ptr } => Ok(leaf_node_ptr),
        _ => Err(Some(Position::Point(point))),
    }
}

// The leaf of a key whose bytes need not stand in a slice, or `None` if it is not stored.
pub(super) fn leaf_by<B: KeyBytes + Drop, K: AsBytes + Drop, V: Drop, const P: usize>(
    store: &NodeStore<K, V, P>,
    root: OpaqueNodePtr,
    key: &mut B,
) -> OptionalLeafPtr
    requires { (len : ℕ) × HoldsPairs (of_key K.bytes) P store.now (Some root) len
        (pairs_at store.now (Some root)) }
    ensures leaf { IsLeafOfKey K.bytes P store.now root (B.key key.old) result }
    ensures same { B.key key.new ≡ B.key key.old }
{
    let point = search_for_delete_point_by(store, root, key)?;
    Some(point.leaf_node_ptr)
}

// The leaf of the key that is asked for, or `None` if it is not stored. A leaf that had the key is read first.
#[inline(always)]
pub(super) fn leaf_near<Q: KeyQuery, K: AsBytes + Drop, V: Drop, const P: usize>(
    store: &NodeStore<K, V, P>,
    root: OpaqueNodePtr,
    leaf: Option<LeafPtr>,
    query: Q,
) -> OptionalLeafPtr
    requires { (len : ℕ) × HoldsPairs (of_key K.bytes) P store.now (Some root) len
        (pairs_at store.now (Some root)) }
    ensures { IsLeafOfKey K.bytes P store.now root (Q.key query) result }
{
    if let Some(leaf) = leaf {
        if has_key_at(store, leaf, query) {
            return Some(leaf);
        }
    }
    search_for(store, root, query)
}

// The leaf of a key: the one that it has, or a new one with the value at its place. The key is made if it is new. A leaf
// that had the key is read first.
pub(super) fn leaf_from<S: ToKey<K> + Drop, K: AsBytes + Drop, V: Drop, const P: usize>(
    store: &mut NodeStore<K, V, P>,
    root: &mut Option<OpaqueNodePtr>,
    len: &mut usize,
    leaf: Option<LeafPtr>,
    alloc: Global,
    source: &S,
    value: V,
) -> Result<LeafPtr, MapSourceError<K, V>>
    requires { HoldsPairs (of_key K.bytes) P store.old root.old len.old
        (pairs_at store.old root.old) }
    ensures { HasEnteredFrom K.bytes P (pairs_at store.old root.old) (S.made source.now)
        (S.is_key source.now) (S.allocates_nothing source.now) value result
        store.new root.new len.new }
{
    if let Some(leaf) = leaf {
        if has_bytes_at(store, leaf, &mut source.again()) {
            return Ok(leaf);
        }
    }
    let position = match position_by(store, *root, &mut source.again()) {
        Ok(leaf) => return Ok(leaf),
        Err(position) => position,
    };
    let key = match source.to_key(alloc) {
        Ok(Some(key)) => key,
        Ok(None) => return Err(MapSourceError::NoKey { value }),
        Err(_error) => return Err(MapSourceError::Memory { value }),
    };
    let position = match position {
        Some(position) => position,
        None => position_of(store, *root, key.as_bytes()),
    };
    match enter(store, root, len, position, key, value) {
        Ok(entered) => Ok(entered),
        Err(error) => Err(MapSourceError::Insert(error)),
    }
}

// The leaf of a key: the one that it has, or a new one with the value at its place.
pub(super) fn enter<K: AsBytes + Drop, V: Drop, const P: usize>(
    store: &mut NodeStore<K, V, P>,
    root: &mut Option<OpaqueNodePtr>,
    len: &mut usize,
    position: Position,
    key: K,
    value: V,
) -> Result<LeafPtr, MapInsertError<K, V>>
    requires holds { HoldsPairs (of_key K.bytes) P store.old root.old len.old
        (pairs_at store.old root.old) }
    requires position { IsPositionOf K.bytes P store.old root.old (K.bytes key) position }
    ensures { HasEntered K.bytes P (pairs_at store.old root.old) key value result
        store.new root.new len.new }
{
    match position {
        Position::Leaf(leaf) => Ok(leaf),
        Position::Bare => match plant(store, key, value) {
            Ok(leaf) => {
                *root = Some(leaf.to_opaque());
                *len = 1;
                Ok(leaf)
            }
            Err(refused) => Err(without_memory(refused)),
        },
        Position::Point(point) => match point.apply(store, key, value) {
            Ok(done) => {
                *root = Some(done.new_root);
                *len = one_more(store, *len);
                Ok(done.leaf_node_ptr)
            }
            Err(refused) => Err(without_memory(refused)),
        },
        Position::Refused(InsertSearchError::Prefix(error)) => {
            Err(MapInsertError::Conflict { key, value, error })
        }
        Position::Refused(InsertSearchError::Memory(_error)) => {
            Err(MapInsertError::Memory { key, value })
        }
    }
}

// The leaf of a key: the one that it has, or a new one with the value that is made from the key.
pub(super) fn leaf_made<K: AsBytes + Drop, V: Drop, const P: usize, F: FnOnce(&K) -> V>(
    store: &mut NodeStore<K, V, P>,
    root: &mut Option<OpaqueNodePtr>,
    len: &mut usize,
    position: Position,
    key: K,
    make: F,
) -> Result<LeafPtr, MapInsertError<K, V>>
    requires holds { HoldsPairs (of_key K.bytes) P store.old root.old len.old
        (pairs_at store.old root.old) }
    requires position { IsPositionOf K.bytes P store.old root.old (K.bytes key) position }
    requires make { has_key (of_key K.bytes) (K.bytes key) (pairs_at store.old root.old) ≡ false →
        (p : Bor K) → p.now ≡ key → F.pre make p }
    ensures { HasMade K.bytes P (pairs_at store.old root.old) key
        (FnOnceReturnsAt F.FnOnce make key) result store.new root.new len.new }
{
    if let Position::Leaf(leaf) = position {
        return Ok(leaf);
    }
    let value = make(&key);
    enter(store, root, len, position, key, value)
}

// The same, with a closure that may fail to make the value.
pub(super) fn leaf_tried<
    K: AsBytes + Drop,
    V: Drop,
    E: Drop,
    const P: usize,
    F: FnOnce() -> Result<V, E>,
>(
    store: &mut NodeStore<K, V, P>,
    root: &mut Option<OpaqueNodePtr>,
    len: &mut usize,
    position: Position,
    key: K,
    make: F,
) -> Result<LeafPtr, MapMakeError<K, V, E>>
    requires holds { HoldsPairs (of_key K.bytes) P store.old root.old len.old
        (pairs_at store.old root.old) }
    requires position { IsPositionOf K.bytes P store.old root.old (K.bytes key) position }
    requires make { has_key (of_key K.bytes) (K.bytes key) (pairs_at store.old root.old) ≡ false →
        F.pre make }
    ensures { HasTried K.bytes P (pairs_at store.old root.old) key (F.post make) result
        store.new root.new len.new }
{
    if let Position::Leaf(leaf) = position {
        return Ok(leaf);
    }
    match make() {
        Ok(value) => match enter(store, root, len, position, key, value) {
            Ok(leaf) => Ok(leaf),
            Err(error) => Err(MapMakeError::Insert(error)),
        },
        Err(error) => Err(MapMakeError::Make { key, error }),
    }
}
