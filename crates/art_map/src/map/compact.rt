//! Moving the leaves of a map into the order of its keys, and freeing room for later ones.
ghost use Rattle.std.specs.Prelude.{◌≡◌};

use super::ByteMap;
use art_nodes::node::{AsBytes, NodePtr};
use art_reading::minmax::minimum_unchecked;
use std::alloc::AllocError;

impl<K: AsBytes + Drop, V: Drop, const P: usize> ByteMap<K, V, P> {
    /// Moves the pairs into the order of their keys in memory, so that an iteration reads memory from front to back. No
    /// pair is cloned, and the map is unchanged. It fails only if an allocation fails, and then nothing has moved.
    ///
    /// It costs a step for each leaf and for each place of an inner node. It allocates slots for as many leaves as
    /// there are, and a word for each of the old slots, and frees these words and the old slots. This pays off before
    /// many iterations over a map that rarely changes: pairs that are inserted later are again behind the others. A map
    /// with at most one pair is left alone.
    pub fn compact(&mut self) -> Result<(), AllocError>
        ensures same { self.new ≡ self.old }
    {
        let Some(root) = self.root else {
            return Ok(());
        };
        match root.split() {
            NodePtr::Leaf(_) => Ok(()),
            NodePtr::Inner(_) => {
                let first = minimum_unchecked(&self.store, root);
                self.store.sort_leaves(first)
            }
        }
    }

    /// Frees memory that the map has for later pairs, but for the slots that removals need; the map is unchanged. A
    /// free slot before a used one stays: `compact` frees those of leaves. It copies the inner nodes, one kind at a
    /// time, and fails only if an allocation for that fails. This pays off once a map is loaded.
    pub fn shrink_to_fit(&mut self) -> Result<(), AllocError>
        ensures same { self.new ≡ self.old }
    {
        self.store.shrink_to_fit()
    }
}
