//! Insertion of the keys of an iterator.
ghost use Rattle.std.specs.Prelude.{◌≡◌, IfErr, IfOk, List, OnErr, OnOk, [], ⊤};
ghost use Rattle.std.specs.Iterator.{DrainsIf, ExtendsWithItems, HoldsAlong, IsFinite};
ghost use Rattle.art_sets.specs.SetKeys.{AddsAll, add_all};
ghost use Rattle.art_keyed_sets.specs.SetRefusals.{AddsUntilNew, AddsUntilRefused};

use super::{KeyRefused, TreeSet};
use art_keys::laws::NoPrefixesBytes;
use std::alloc::{AllocError, Global};

/// Inserts the keys of an iterator one by one, as `insert` does. Fails only if an allocation fails, at a key that is not
/// stored: the keys before it stay in the set, and it is dropped.
impl<K: NoPrefixesBytes + Drop, const P: usize> Extend<K> for TreeSet<K, P> {
    ghost extend_gives = { λ set keys extended. extended ≡ add_all K.bytes keys set };

    fn extend<I: IntoIterator<Item = K>>(&mut self, keys: I) -> Result<(), AllocError>
        requires { (it : I.IntoIter) → I.into_iter_gives keys it →
            I.IntoIter.can_next it × IsFinite (I.IntoIter.remaining it) ×
            HoldsAlong I.IntoIter.next_gives it (λ _. ⊤) }
        ensures ran { ExtendsWithItems I.into_iter_gives I.IntoIter.next_gives
            (λ set keys extended. extended ≡ add_all K.bytes keys set)
            keys self.old self.new result }
        ensures refused { OnErr result
            (AddsUntilNew I.IntoIter.next_gives K.bytes I.into_iter_gives keys self.old self.new) }
    {
        let mut rest = keys.into_iter();
        self.extend_by_ref(&mut rest)?;
        Ok(())
    }
}

/// Makes a set of the keys of an iterator, inserted one by one: of equal keys the first one stays. Fails only if an
/// allocation fails, at a key that is none of those before it.
impl<K: NoPrefixesBytes + Drop, const P: usize> FromIterator<K> for TreeSet<K, P> {
    type Alloc = Global;

    ghost from_iter_gives = { λ keys set. set ≡ add_all K.bytes keys [] };

    fn from_iter<I: IntoIterator<Item = K>>(alloc: Global, keys: I) -> Result<Self, AllocError>
        requires { (it : I.IntoIter) → I.into_iter_gives keys it →
            I.IntoIter.can_next it × IsFinite (I.IntoIter.remaining it) ×
            HoldsAlong I.IntoIter.next_gives it (λ _. ⊤) }
        ensures ran { IfOk result (λ set. (it : I.IntoIter) × (xs : List K) ×
            I.into_iter_gives keys it × DrainsIf I.IntoIter.next_gives ⊤ it xs ×
            (set ≡ add_all K.bytes xs [])) }
        ensures refused { OnErr result ((set : List K) ×
            AddsUntilNew I.IntoIter.next_gives K.bytes I.into_iter_gives keys [] set) }
    {
        let mut set = TreeSet::new(alloc);
        set.extend(keys)?;
        Ok(set)
    }
}

impl<K: NoPrefixesBytes + Drop, const P: usize> TreeSet<K, P> {
    /// Does what `extend` does, with an iterator that the caller keeps. It stops at the first key for which an
    /// allocation fails, and the error returns that key: the keys before it stay in the set, and the others in the
    /// iterator.
    pub fn extend_by_ref<I: Iterator<Item = K>>(
        &mut self,
        keys: &mut I,
    ) -> Result<(), KeyRefused<K>>
        requires can { I.can_next keys.old }
        requires ends { IsFinite (I.remaining keys.old) }
        ensures all { OnOk result
            (AddsAll I.next_gives K.bytes keys.old self.old keys.new self.new) }
        ensures refused { IfErr result (λ refused.
            AddsUntilRefused I.next_gives K.bytes keys.old self.old refused keys.new self.new) }
    {
        while let Some(key) = keys.next() {
            match self.insert(key) {
                Ok(_) => {}
                Err(refused) => return Err(refused),
            }
        }
        Ok(())
    }
}
