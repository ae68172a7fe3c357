//! A map of a tree that was made elsewhere.
ghost use Rattle.std.specs.Prelude.{◌≡◌};
ghost use Rattle.art_changing.specs.MapPairs.{HoldsPairs, pairs_at};
ghost use Rattle.art_model.specs.Pairs.{of_key};

use super::ByteMap;
use art_nodes::node::{AsBytes, OpaqueNodePtr};
use art_nodes::store::NodeStore;

impl<K: AsBytes + Drop, V: Drop, const P: usize> ByteMap<K, V, P> {
    /// Returns the map of the tree that a store has under a root, in constant time. The store has no other nodes, and
    /// the tree has so many leaves.
    pub fn from_tree(store: NodeStore<K, V, P>, root: Option<OpaqueNodePtr>, len: usize) -> Self
        requires { HoldsPairs (of_key K.bytes) P store root len (pairs_at store root) }
        ensures { result ≡ pairs_at store root }
    {
        ByteMap { store, root, len }
    }
}
