//! Clones of maps.
ghost use Rattle.art_model.specs.Clones.{AreClones};

use super::TreeMap;
use art_keys::laws::CloneBytes;
use std::alloc::AllocError;

/// Returns a map with clones of all pairs, in a store of its own. Fails only if an allocation fails, for a node or for
/// the clone of a key or a value.
impl<K: CloneBytes + Drop, V: Clone + Drop, const P: usize> Clone for TreeMap<K, V, P> {
    ghost is_clone = { λ map copy. AreClones K.is_clone V.is_clone map copy };

    fn clone(&self) -> Result<Self, AllocError> {
        let map = self.map.clone()?;
        Ok(TreeMap { map })
    }
}
