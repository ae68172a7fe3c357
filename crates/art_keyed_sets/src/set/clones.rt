//! Clones of sets.
ghost use Rattle.std.specs.List.{AllZip};

use super::TreeSet;
use art_keys::laws::CloneBytes;
use std::alloc::AllocError;

/// Returns a set with clones of all keys, in a store of its own. Fails only if an allocation fails, for a node or for
/// the clone of a key. It costs what the clone of a map does.
impl<K: CloneBytes + Drop, const P: usize> Clone for TreeSet<K, P> {
    ghost is_clone = { λ set copy. AllZip K.is_clone set copy };

    fn clone(&self) -> Result<Self, AllocError> {
        let set = self.set.clone()?;
        Ok(TreeSet { set })
    }
}
