//! Insertion of the pairs of an iterator.
ghost use Rattle.std.specs.Prelude.{◌≡◌, IfErr, IfOk, List, OnErr, OnOk, [], ⊤};
ghost use Rattle.std.specs.Iterator.{DrainsIf, ExtendsWithItems, HoldsAlong, IsFinite};
ghost use Rattle.art_map.specs.MapCalls.{PutsAll, put_all};
ghost use Rattle.art_keyed.specs.KeyedRefusals.{PutsUntilNew, PutsUntilRefused};

use super::{PairRefused, TreeMap};
use art_keys::laws::NoPrefixesBytes;
use std::alloc::{AllocError, Global};

/// Inserts the pairs of an iterator one by one, as `insert` does. Fails only if an allocation fails, at a pair whose key
/// is not stored: the pairs before it stay in the map, and it is dropped.
impl<K: NoPrefixesBytes + Drop, V: Drop, const P: usize> Extend<(K, V)> for TreeMap<K, V, P> {
    ghost extend_gives = { λ map pairs extended. extended ≡ put_all K.bytes pairs map };

    fn extend<I: IntoIterator<Item = (K, V)>>(&mut self, pairs: I) -> Result<(), AllocError>
        requires { (it : I.IntoIter) → I.into_iter_gives pairs it →
            I.IntoIter.can_next it × IsFinite (I.IntoIter.remaining it) ×
            HoldsAlong I.IntoIter.next_gives it (λ _. ⊤) }
        ensures ran { ExtendsWithItems I.into_iter_gives I.IntoIter.next_gives
            (λ map pairs extended. extended ≡ put_all K.bytes pairs map)
            pairs self.old self.new result }
        ensures refused { OnErr result
            (PutsUntilNew I.IntoIter.next_gives K.bytes I.into_iter_gives pairs self.old self.new) }
    {
        let mut rest = pairs.into_iter();
        self.extend_by_ref(&mut rest)?;
        Ok(())
    }
}

/// Makes a map of the pairs of an iterator, inserted one by one: of equal keys the first one stays, with the last
/// value. Fails only if an allocation fails, at a pair whose key is none of those before it.
impl<K: NoPrefixesBytes + Drop, V: Drop, const P: usize> FromIterator<(K, V)> for TreeMap<K, V, P> {
    type Alloc = Global;

    ghost from_iter_gives = { λ pairs map. map ≡ put_all K.bytes pairs [] };

    fn from_iter<I: IntoIterator<Item = (K, V)>>(
        alloc: Global,
        pairs: I,
    ) -> Result<Self, AllocError>
        requires { (it : I.IntoIter) → I.into_iter_gives pairs it →
            I.IntoIter.can_next it × IsFinite (I.IntoIter.remaining it) ×
            HoldsAlong I.IntoIter.next_gives it (λ _. ⊤) }
        ensures ran { IfOk result (λ map. (it : I.IntoIter) × (xs : List (K × V)) ×
            I.into_iter_gives pairs it × DrainsIf I.IntoIter.next_gives ⊤ it xs ×
            (map ≡ put_all K.bytes xs [])) }
        ensures refused { OnErr result ((map : List (K × V)) ×
            PutsUntilNew I.IntoIter.next_gives K.bytes I.into_iter_gives pairs [] map) }
    {
        let mut map = TreeMap::new(alloc);
        map.extend(pairs)?;
        Ok(map)
    }
}

impl<K: NoPrefixesBytes + Drop, V: Drop, const P: usize> TreeMap<K, V, P> {
    /// Does what `extend` does, with an iterator that the caller keeps. It stops at the first pair for which an
    /// allocation fails, and the error returns that pair: the pairs before it stay in the map, and the others in the
    /// iterator.
    pub fn extend_by_ref<I: Iterator<Item = (K, V)>>(
        &mut self,
        pairs: &mut I,
    ) -> Result<(), PairRefused<K, V>>
        requires can { I.can_next pairs.old }
        requires ends { IsFinite (I.remaining pairs.old) }
        ensures all { OnOk result
            (PutsAll I.next_gives K.bytes pairs.old self.old pairs.new self.new) }
        ensures refused { IfErr result (λ refused.
            PutsUntilRefused I.next_gives K.bytes pairs.old self.old refused pairs.new self.new) }
    {
        while let Some((key, value)) = pairs.next() {
            match self.insert(key, value) {
                Ok(replaced) => drop(replaced),
                Err(refused) => return Err(refused),
            }
        }
        Ok(())
    }
}
