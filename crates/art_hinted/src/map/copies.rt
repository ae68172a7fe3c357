//! Clones, and insertion of the pairs of an iterator.
ghost use Rattle.std.specs.Prelude.{◌≡◌, IfErr, OnErr, OnOk, ⊤};
ghost use Rattle.std.specs.Iterator.{ExtendsWithItems, HoldsAlong, IsFinite};
ghost use Rattle.art_map.specs.MapCalls.{PutsAll, put_all};
ghost use Rattle.art_model.specs.Clones.{AreClones};
ghost use Rattle.art_keyed.specs.KeyedRefusals.{PutsUntilNew, PutsUntilRefused};

use super::HintedMap;
use art_keyed::map::PairRefused;
use art_keys::laws::{CloneBytes, NoPrefixesBytes};
use std::alloc::AllocError;

/// Returns a map with clones of all pairs and hints of its own, of the same hashes. Fails only if an allocation fails, for a
/// node or for the clone of a key or a value.
impl<K: CloneBytes + Drop, V: Clone + Drop, const P: usize> Clone for HintedMap<K, V, P> {
    ghost is_clone = { λ map copy. AreClones K.is_clone V.is_clone map copy };

    fn clone(&self) -> Result<Self, AllocError> {
        let map = self.map.clone()?;
        let hints = self.hints.again(&map);
        Ok(HintedMap { map, hints })
    }
}

/// Inserts the pairs of an iterator one by one, as `insert` does. Fails only if an allocation fails, at a pair whose key
/// is not stored: the pairs before it stay in the map, and it is dropped.
impl<K: NoPrefixesBytes + Drop, V: Drop, const P: usize> Extend<(K, V)> for HintedMap<K, V, P> {
    ghost extend_gives = { λ map pairs extended. extended ≡ put_all K.bytes pairs map };

    fn extend<I: IntoIterator<Item = (K, V)>>(&mut self, pairs: I) -> Result<(), AllocError>
        requires { (it : I.IntoIter) → I.into_iter_gives pairs it →
            I.IntoIter.can_next it × IsFinite (I.IntoIter.remaining it) ×
            HoldsAlong I.IntoIter.next_gives it (λ _. ⊤) }
        ensures ran { ExtendsWithItems I.into_iter_gives I.IntoIter.next_gives
            (λ map pairs extended. extended ≡ put_all K.bytes pairs map)
            pairs self.old self.new result }
        ensures refused { OnErr result
            (PutsUntilNew I.IntoIter.next_gives K.bytes I.into_iter_gives pairs self.old self.new) }
    {
        let mut rest = pairs.into_iter();
        self.extend_by_ref(&mut rest)?;
        Ok(())
    }
}

impl<K: NoPrefixesBytes + Drop, V: Drop, const P: usize> HintedMap<K, V, P> {
    /// Does what `extend` does, with an iterator that the caller keeps. It stops at the first pair for which an
    /// allocation fails, and the error returns that pair: the pairs before it stay in the map, and the others in the
    /// iterator.
    pub fn extend_by_ref<I: Iterator<Item = (K, V)>>(
        &mut self,
        pairs: &mut I,
    ) -> Result<(), PairRefused<K, V>>
        requires can { I.can_next pairs.old }
        requires ends { IsFinite (I.remaining pairs.old) }
        ensures all { OnOk result
            (PutsAll I.next_gives K.bytes pairs.old self.old pairs.new self.new) }
        ensures refused { IfErr result (λ refused.
            PutsUntilRefused I.next_gives K.bytes pairs.old self.old refused pairs.new self.new) }
    {
        while let Some((key, value)) = pairs.next() {
            match self.insert(key, value) {
                Ok(replaced) => drop(replaced),
                Err(refused) => return Err(refused),
            }
        }
        Ok(())
    }
}
