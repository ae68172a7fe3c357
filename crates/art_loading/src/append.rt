//! Insertion of a pair after the last one.
ghost use Rattle.std.specs.Prelude.{◌≡◌, ◌≢◌, ◌++◌, ◌∷◌, [], ℕ, List, Some, take, IfOk, IfErr, OnOk, OnErr, ◌<◌, get_or, length};
ghost use Rattle.art_parts.specs.Names.{inner_name, leaf_name};
ghost use Rattle.art_parts.specs.declared.names.OpaqueNodePtr.{OpaqueNodePtr};
ghost use Rattle.art_model.specs.Pairs.{last_of, of_key};
ghost use Rattle.art_model.specs.Apart.{KeepsApart};
ghost use Rattle.art_model.specs.Kept.{ChangesInPlace};
ghost use Rattle.art_model.specs.Roots.{ForTree, IsFullTree};
ghost use Rattle.art_model.specs.Trees.{Tree};
ghost use Rattle.art_loading.specs.Edges.{IsEdge, IsEdgePoint, IsLastPoint, IsLeafIf};
ghost use Rattle.art_loading.specs.NextKeys.{IsNextKey, IsReason};
ghost use Rattle.art_loading.specs.declared.append.AppendReason.TheVariants as reasons;
ghost use Rattle.art_writing.specs.Applied.{IsApplied, TakesMemory};
ghost use Rattle.art_writing.specs.Inserted.{placed_for};
ghost use Rattle.art_writing.specs.ParentWrites.{IsPlanted};

use crate::edge::{Step, last_within, path_down};
use art_nodes::node::{AsBytes, InnerPtr, LeafPtr, OpaqueNodePtr, OptionalLeafPtr};
use art_nodes::store::NodeStore;
use art_reading::lookup::KeyBytes;
use art_reading::minmax::minimum_unchecked;
use art_reading::path::{ExplicitMismatch, TreePath};
use art_writing::insert::{
    InsertKind, InsertParentNodeChange, InsertPoint, InsertResult, PairRefused, plant,
};
use thiserror::Error;

/// The right edge of a tree.
#[derive(Debug, Drop)]
pub struct Edge {
    pub root: OpaqueNodePtr,
    /// The inner nodes above the last leaf, the root first.
    pub steps: Vec<Step>,
    /// The last leaf.
    pub leaf: LeafPtr,
}

/// Why a pair was not appended.
#[derive(Clone, Copy, PartialEq, Eq, Debug, Error)]
pub enum AppendReason {
    /// The key is less than the last one, and neither is a prefix of the other.
    #[error("the key is less than the last one")]
    Before,
    /// The key has the bytes of the last one.
    #[error("the key is equal to the last one")]
    Equal,
    /// The key and the last one are unequal, and one of the two is a prefix of the other.
    #[error("the key and the last one conflict: one of them is a prefix of the other")]
    Conflict,
    /// An allocation failed. The key is after the last one.
    #[error("memory allocation failed")]
    Memory,
}

/// A pair that was not appended.
#[derive(Debug, Drop, Error)]
#[error("{reason}")]
pub struct AppendError<K, V> {
    pub key: K,
    pub value: V,
    pub reason: AppendReason,
}

/// Begins a tree with a pair. Fails only if an allocation fails; the error returns the pair, and the store is unchanged.
pub fn begin<K: AsBytes + Drop, V: Drop, const P: usize>(
    store: &mut NodeStore<K, V, P>,
    key: K,
    value: V,
) -> Result<Edge, PairRefused<K, V>>
    ensures begun { IfOk result (λ edge. IsEdge (of_key K.bytes) P store.new
        edge.root edge.steps.items edge.leaf ((key, value) ∷ [])) }
    ensures root { IfOk result (λ edge. edge.root ≡ leaf_name edge.leaf) }
    ensures planted { IfOk result (λ edge.
        IsPlanted store.old store.new edge.leaf (key, value)) }
    ensures apart { IfOk result (λ edge. KeepsApart (of_key K.bytes) P
        store.old store.new None (Some edge.root)) }
    ensures handed_back { IfErr result (λ refused.
        (refused.key ≡ key) × (refused.value ≡ value)) }
    ensures same { OnErr result (store.new ≡ store.old) }
{
    let leaf = plant(store, key, value)?;
    Ok(Edge {
        root: leaf.to_opaque(),
        steps: Vec::new(store.alloc()),
        leaf,
    })
}

/// Appends a pair, whose key is after all others, at the right edge of a tree, without a descent from the root. The key
/// is compared with the last one alone.
///
/// An error returns the pair and reports why it was not appended; tree and edge are unchanged. Memory is allocated
/// before the first change.
#[inline(always)]
pub fn append<K: AsBytes + Drop, V: Drop, const P: usize>(
    store: &mut NodeStore<K, V, P>,
    edge: &mut Edge,
    key: K,
    value: V,
) -> Result<(), AppendError<K, V>>
    requires { (pairs : List (K × V)) × IsEdge (of_key K.bytes) P
        store.old edge.old.root edge.old.steps.items edge.old.leaf pairs }
    ensures appended { (pairs : List (K × V)) → IsEdge (of_key K.bytes) P
        store.old edge.old.root edge.old.steps.items edge.old.leaf pairs →
        OnOk result (IsEdge (of_key K.bytes) P
        store.new edge.new.root edge.new.steps.items edge.new.leaf (pairs ++ (key, value) ∷ [])) }
    ensures kept { (pairs : List (K × V)) → (right : IsEdge (of_key K.bytes) P
        store.old edge.old.root edge.old.steps.items edge.old.leaf pairs) →
        OnOk result (ForTree (of_key K.bytes) P store.new edge.new.root (λ after new.
        ChangesInPlace (of_key K.bytes) store.old store.new (Some right.layout) (Some new))) }
    ensures apart { OnOk result (KeepsApart (of_key K.bytes) P
        store.old store.new (Some edge.old.root) (Some edge.new.root)) }
    ensures handed_back { IfErr result (λ error. (error.key ≡ key) × (error.value ≡ value)) }
    ensures reason { (pairs : List (K × V)) → IsEdge (of_key K.bytes) P
        store.old edge.old.root edge.old.steps.items edge.old.leaf pairs →
        (last : K × V) → last_of pairs ≡ Some last → IfErr result (λ error.
        IsReason (K.bytes last.0) (K.bytes key) error.reason) }
    ensures leaves { OnErr result (store.new.leaves ≡ store.old.leaves) }
    ensures inners { OnErr result (store.new.inners ≡ store.old.inners) }
    ensures root { OnErr result (edge.new.root ≡ edge.old.root) }
    ensures steps { OnErr result (edge.new.steps.items ≡ edge.old.steps.items) }
    ensures leaf { OnErr result (edge.new.leaf ≡ edge.old.leaf) }
{
    let last = store.leaf_at(edge.leaf);
    let (shared, old_byte) = match part_after(last.key.as_bytes(), key.as_bytes()) {
        Ok(part) => part,
        Err(reason) => return Err(AppendError { key, value, reason }),
    };
    let (point, above, depth) = point_after(
        store,
        edge.root,
        &edge.steps,
        edge.leaf,
        shared,
        old_byte,
    );
    if edge.steps.reserve(1).is_err() {
        return Err(without_memory(PairRefused { key, value }));
    }
    match apply_last(store, point, edge.leaf, key, value) {
        Err(refused) => Err(without_memory(refused)),
        Ok(done) => {
            let InsertParentNodeChange::NewParent {
                new_parent_node,
                leaf_node_key_byte,
            } = done.parent_node_change
            else {
                unreachable!()
            };
            let step = Step {
                node: new_parent_node,
                depth,
                byte: leaf_node_key_byte,
            };
            edge.steps.truncate(above);
            let Ok(_) = edge.steps.push(step) else {
                unreachable!()
            };
            edge.root = done.new_root;
            edge.leaf = done.leaf_node_ptr;
            Ok(())
        }
    }
}

// Applies the point of a key after the last one. The new leaf is right after the last leaf, so none is looked up.
#[inline(always)]
fn apply_last<K: AsBytes + Drop, V: Drop, const P: usize>(
    store: &mut NodeStore<K, V, P>,
    point: InsertPoint,
    last: LeafPtr,
    key: K,
    value: V,
) -> Result<InsertResult<K, V>, PairRefused<K, V>>
    requires { IsLastPoint (of_key K.bytes) P store.old last (K.bytes key) point }
    ensures applied { IfOk result
        (IsApplied (of_key K.bytes) P store.old store.new point (key, value)) }
    ensures memory { TakesMemory store.old store.new
        (placed_for store.old point.insert_kind) (key, value) result }
{
    let InsertKind::IntoExisting { inner_node_ptr } = point.insert_kind else {
        return point.apply(store, key, value);
    };
    // The proof reads from it that a node whose children are all under lesser bytes has fewer than 256.
    let _byte = byte_at(key.as_bytes(), point.key_bytes_used);
    point.add_child_between(store, inner_node_ptr, (Some(last), None), key, value)
}

// The byte at a place. Its contract states that there are 256.
#[inline(always)]
fn byte_at(bytes: &[u8], place: usize) -> u8
    requires { place < length bytes.now }
    ensures byte { result ≡ get_or bytes.now place 0 }
    ensures bound { result < 256 }
{
    bytes[place]
}

// The error with the pair for which an allocation failed.
fn without_memory<K, V>(refused: PairRefused<K, V>) -> AppendError<K, V>
    ensures { result ≡ record { key = refused.key; value = refused.value; reason = reasons.Memory } }
{
    AppendError {
        key: refused.key,
        value: refused.value,
        reason: AppendReason::Memory,
    }
}

// How many bytes a key shares with the last one, and the byte of the last one after these.
#[inline(always)]
fn part_after(last: &[u8], key: &[u8]) -> Result<(usize, u8), AppendReason>
    ensures part { IfOk result (λ part. (new_byte : ℕ) ×
        IsNextKey last.now key.now part.0 part.1 new_byte) }
    ensures reason { IfErr result (IsReason last.now key.now) }
{
    let mut rest = last;
    let shared = rest.shared_after(0, key);
    if shared >= last.len() || shared >= key.len() {
        return Err(related_reason(last.len(), key.len()));
    }
    let old_byte = last[shared];
    if old_byte >= key[shared] {
        return Err(AppendReason::Before);
    }
    Ok((shared, old_byte))
}

// Why a key can't be appended after one that is a prefix of it, or that it is a prefix of.
fn related_reason(last_len: usize, key_len: usize) -> AppendReason
    ensures equal { last_len ≡ key_len → result ≡ reasons.Equal }
    ensures conflict { last_len ≢ key_len → result ≡ reasons.Conflict }
{
    if last_len == key_len {
        AppendReason::Equal
    } else {
        AppendReason::Conflict
    }
}

// The point of a key after the last one, with which that one shares so many bytes and then has this byte. Also how many
// of the steps are above the point's node, and the length of the node's place.
#[inline(always)]
fn point_after<K: AsBytes + Drop, V: Drop, const P: usize>(
    store: &NodeStore<K, V, P>,
    root: OpaqueNodePtr,
    steps: &[Step],
    leaf: LeafPtr,
    shared: usize,
    old_byte: u8,
) -> (InsertPoint, usize, usize)
    requires { (pairs : List (K × V)) ×
        IsEdge (of_key K.bytes) P store.now root steps.now leaf pairs }
    ensures { (pairs : List (K × V)) →
        (edge : IsEdge (of_key K.bytes) P store.now root steps.now leaf pairs) →
        (key : List ℕ) → (new_byte : ℕ) →
        IsNextKey (of_key K.bytes edge.pair) key shared old_byte new_byte →
        IsEdgePoint (of_key K.bytes) P edge.layout leaf key result.0
        (take result.1 steps.now) result.2 }
{
    let Some((step, above)) = last_within(steps, shared) else {
        return (split_at(TreePath::Root, leaf, shared, 0, root), 0, 0);
    };
    let len = store.inner_at(step.node).prefix_len();
    let matched = shared - step.depth;
    if matched > len {
        let depth = step.depth + len + 1;
        let point = split_at(path_down(steps), leaf, shared, depth, root);
        return (point, steps.len(), depth);
    }
    let path = path_down(above);
    if matched == len {
        let point = InsertPoint {
            path,
            insert_kind: InsertKind::IntoExisting {
                inner_node_ptr: step.node,
            },
            key_bytes_used: shared,
            root,
        };
        return (point, above.len(), step.depth);
    }
    let mismatch = ExplicitMismatch {
        matched_bytes: matched,
        prefix_byte: old_byte,
        leaf_ptr: least_if_long(store, step.node, len),
    };
    let point = InsertPoint {
        path,
        insert_kind: InsertKind::MismatchPrefix {
            mismatch,
            mismatched_inner_node_ptr: step.node,
        },
        key_bytes_used: step.depth,
        root,
    };
    (point, above.len(), step.depth)
}

// The point at a leaf, to which a path leads.
#[inline(always)]
fn split_at(
    path: TreePath,
    leaf: LeafPtr,
    shared: usize,
    depth: usize,
    root: OpaqueNodePtr,
) -> InsertPoint
    ensures { result ≡ record {
      path = path;
      insert_kind = SplitLeaf leaf shared;
      key_bytes_used = depth;
      root = root;
    } }
{
    InsertPoint {
        path,
        insert_kind: InsertKind::SplitLeaf {
            leaf_node_ptr: leaf,
            new_key_bytes_used: shared,
        },
        key_bytes_used: depth,
        root,
    }
}

ghost use Rattle.art_reading.specs.declared.end_node.InsertKind.TheVariants.{SplitLeaf};

// The least leaf below a node, if its prefix is longer than what is stored of it.
#[inline(always)]
fn least_if_long<K: AsBytes + Drop, V: Drop, const P: usize>(
    store: &NodeStore<K, V, P>,
    node: InnerPtr,
    len: usize,
) -> OptionalLeafPtr
    requires { (tree : Tree OpaqueNodePtr (K × V)) ×
        IsFullTree store.now (inner_name node) tree }
    ensures { (tree : Tree OpaqueNodePtr (K × V)) →
        IsFullTree store.now (inner_name node) tree → IsLeafIf P len tree result }
{
    if len <= P {
        return None;
    }
    Some(minimum_unchecked(store, node.to_opaque()))
}
