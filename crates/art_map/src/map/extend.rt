//! Inserting the pairs of an iterator.
ghost use Rattle.std.specs.Prelude.{IfErr, OnOk};
ghost use Rattle.std.specs.Iterator.{IsFinite};
ghost use Rattle.art_map.specs.MapCalls.{PutsAll, PutsUntil};

use super::{ByteMap, MapInsertError};
use art_nodes::node::AsBytes;

impl<K: AsBytes + Drop, V: Drop, const P: usize> ByteMap<K, V, P> {
    /// Inserts the pairs of an iterator, one after another, as `insert` does.
    ///
    /// It stops at the first pair that can't be inserted, which the error returns: the pairs before it stay in the map,
    /// and the others stay in the iterator. The errors are those of `insert`.
    pub fn extend<I: Iterator<Item = (K, V)>>(
        &mut self,
        pairs: &mut I,
    ) -> Result<(), MapInsertError<K, V>>
        requires can { I.can_next pairs.old }
        requires ends { IsFinite (I.remaining pairs.old) }
        ensures all { OnOk result
            (PutsAll I.next_gives K.bytes pairs.old self.old pairs.new self.new) }
        ensures refused { IfErr result (λ error.
            PutsUntil I.next_gives K.bytes pairs.old self.old error pairs.new self.new) }
    {
        while let Some((key, value)) = pairs.next() {
            match self.insert(key, value) {
                Ok(replaced) => drop(replaced),
                Err(error) => return Err(error),
            }
        }
        Ok(())
    }
}
