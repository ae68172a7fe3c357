//! Begins a tree.
ghost use Rattle.std.specs.Prelude.{◌≡◌, ◌<◌, ◌∷◌, [], Some, None, IfOk, IfErr, IsOk, OnErr};
ghost use Rattle.art_parts.specs.Names.{leaf_name};
ghost use Rattle.art_model.specs.Apart.{KeepsApart};
ghost use Rattle.art_model.specs.Canonical.{IsCanonical};
ghost use Rattle.art_model.specs.Pairs.{of_key};
ghost use Rattle.art_model.specs.Roots.{IsCanonicalRoot};
ghost use Rattle.art_writing.specs.ParentWrites.{IsPlanted};

use super::PairRefused;
use art_nodes::node::{AsBytes, LeafNode, LeafPtr};
use art_nodes::store::NodeStore;

/// Places the leaf of a pair, with no siblings, and returns its name. It is the root of a tree of its own, whatever
/// else the store has.
///
/// Fails if an allocation fails, which can't happen where the store's promise covers a leaf. The error returns key and
/// value, and the store is unchanged.
pub fn plant<K: AsBytes + Drop, V: Drop, const P: usize>(
    store: &mut NodeStore<K, V, P>,
    key: K,
    value: V,
) -> Result<LeafPtr, PairRefused<K, V>>
    ensures canonical { IfOk result (λ name. IsCanonical (of_key K.bytes) P store.new
        (Some (leaf_name name)) ((key, value) ∷ [])) }
    ensures root { IfOk result (λ name.
        IsCanonicalRoot (of_key K.bytes) P store.new (leaf_name name)) }
    ensures apart { IfOk result (λ name. KeepsApart (of_key K.bytes) P
        store.old store.new None (Some (leaf_name name))) }
    ensures planted { IfOk result (λ name. IsPlanted store.old store.new name (key, value)) }
    ensures handed_back { IfErr result (λ refused.
        (refused.key ≡ key) × (refused.value ≡ value)) }
    ensures refused { OnErr result (store.new ≡ store.old) }
    ensures succeeds { 0 < store.old.promise.leaves → IsOk result }
{
    match store.place_leaf(LeafNode::with_no_siblings(key, value)) {
        Ok(name) => Ok(name),
        Err((leaf, _)) => Err(PairRefused {
            key: leaf.key,
            value: leaf.value,
        }),
    }
}
