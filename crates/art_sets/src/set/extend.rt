//! Inserting the keys of an iterator.
ghost use Rattle.std.specs.Prelude.{IfErr, OnOk};
ghost use Rattle.std.specs.Iterator.{IsFinite};
ghost use Rattle.art_sets.specs.SetKeys.{AddsAll, AddsUntil};

use super::{ByteSet, SetInsertError};
use art_nodes::node::AsBytes;

impl<K: AsBytes + Drop, const P: usize> ByteSet<K, P> {
    /// Inserts the keys of an iterator, one after another, as `insert` does.
    ///
    /// It stops at the first key that can't be inserted, which the error returns: the keys before it stay in the set,
    /// and the others stay in the iterator. The errors are those of `insert`.
    pub fn extend<I: Iterator<Item = K>>(&mut self, keys: &mut I) -> Result<(), SetInsertError<K>>
        requires can { I.can_next keys.old }
        requires ends { IsFinite (I.remaining keys.old) }
        ensures all { OnOk result
            (AddsAll I.next_gives K.bytes keys.old self.old keys.new self.new) }
        ensures refused { IfErr result (λ error.
            AddsUntil I.next_gives K.bytes keys.old self.old error keys.new self.new) }
    {
        while let Some(key) = keys.next() {
            match self.insert(key) {
                Ok(_) => {}
                Err(error) => return Err(error),
            }
        }
        Ok(())
    }
}
