//! Frees the leaves of an iterator. Nothing here allocates.
ghost use Rattle.std.specs.Prelude.{◌≡◌, List};
ghost use Rattle.art_parts.specs.declared.names.OpaqueNodePtr.{OpaqueNodePtr};
ghost use Rattle.art_model.specs.Kept.{Frees};
ghost use Rattle.art_reading.specs.Iterators.{IsIteratorOf};

use art_nodes::node::AsBytes;
use art_nodes::store::NodeStore;
use art_reading::iterator::RawIterator;

/// Frees the remaining leaves of an iterator. It reads no other node.
pub fn deallocate_leaves<K: AsBytes + Drop, V: Drop, const P: usize>(
    leaf_range: RawIterator,
    store: &mut NodeStore<K, V, P>,
)
    requires { (names : List OpaqueNodePtr) × IsIteratorOf store.old leaf_range names }
    ensures freed { (names : List OpaqueNodePtr) → IsIteratorOf store.old leaf_range names →
        Frees names store.old store.new }
    ensures promise { store.new.promise ≡ store.old.promise }
{
    let mut left = leaf_range;
    'leaves: loop {
        let Some(leaf) = left.next(store) else {
            return;
        };
        store.free_leaf(leaf);
    }
}
