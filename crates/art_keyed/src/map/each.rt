//! Changes of values of a map by a closure, which may read their keys.
ghost use Rattle.std.specs.Prelude.{◌≡◌};
ghost use Rattle.std.specs.Range.Bound.{bound_map};
ghost use Rattle.art_map.specs.MapCalls.{ChangesAll, ChangesEach, ChangesPairs, ChangesValues};
ghost use Rattle.art_iterating.specs.MapItems.{keys_of};
ghost use Rattle.art_keyed.specs.KeyedPairs.{keys_between, strings_below, strings_not_below};
ghost use Rattle.art_keyed.specs.KeyedParts.{keys_not_between};

use super::TreeMap;
use crate::bounds::bytes_of;
use art_keys::laws::{NoPrefixesBytes, OrderedBytes, StringBytes};
use std::ops::Bound;

impl<K: NoPrefixesBytes + Drop, V: Drop, const P: usize> TreeMap<K, V, P> {
    /// Calls the closure on each pair, in the order of the keys, to change the value in place. The keys are unchanged.
    ///
    /// It is what `for (key, value) in map.iter_mut()` is in std: each pair costs one step of an iteration. It
    /// allocates nothing and never fails.
    pub fn for_each_mut<F: FnMut(&K, &mut V)>(&mut self, mut f: F)
        requires { F.IsAlwaysCallable f }
        ensures pairs { ChangesAll F.FnMut f self.old self.new }
        ensures keys { keys_of self.new ≡ keys_of self.old }
    {
        self.for_each_mut_by_ref(&mut f);
    }

    /// Does what `for_each_mut` does, with a closure that the caller keeps. The closure is called exactly once for each
    /// pair: its last state is the one that these calls lead to.
    pub fn for_each_mut_by_ref<F: FnMut(&K, &mut V)>(&mut self, f: &mut F)
        requires { F.IsAlwaysCallable f.old }
        ensures pairs { ChangesPairs F.FnMut f.old self.old self.new f.new }
        ensures keys { keys_of self.new ≡ keys_of self.old }
        ensures callable { F.IsAlwaysCallable f.new }
    {
        self.map.for_each_mut_by_ref(f);
    }

    /// Calls the closure with a mutable reference to each value, in the order of the keys. The keys are unchanged. It
    /// costs what `for_each_mut` does.
    pub fn for_each_value<F: FnMut(&mut V)>(&mut self, mut f: F)
        requires { F.IsAlwaysCallable f }
        ensures values { ChangesValues F.FnMut f self.old self.new }
        ensures keys { keys_of self.new ≡ keys_of self.old }
    {
        self.for_each_value_by_ref(&mut f);
    }

    /// Does what `for_each_value` does, with a closure that the caller keeps. The closure is called exactly once for
    /// each value: its last state is the one that these calls lead to.
    pub fn for_each_value_by_ref<F: FnMut(&mut V)>(&mut self, f: &mut F)
        requires { F.IsAlwaysCallable f.old }
        ensures values { ChangesEach F.FnMut f.old self.old self.new f.new }
        ensures keys { keys_of self.new ≡ keys_of self.old }
        ensures callable { F.IsAlwaysCallable f.new }
    {
        self.map.for_each_value_by_ref(f);
    }
}

impl<K: OrderedBytes + Drop, V: Drop, const P: usize> TreeMap<K, V, P> {
    /// Does what `for_each_mut_by_ref` does, for the pairs whose keys are between two bounds. The others are unchanged.
    ///
    /// It costs what `range` does, and a step of an iteration for each of these pairs.
    pub fn for_each_mut_in<F: FnMut(&K, &mut V)>(
        &mut self,
        from: Bound<&K>,
        to: Bound<&K>,
        f: &mut F,
    )
        requires { F.IsAlwaysCallable f.old }
        ensures pairs { ChangesPairs F.FnMut f.old (keys_between K.order
            (bound_map (λ b. b.now) from.entry) (bound_map (λ b. b.now) to.entry) self.old)
            (keys_between K.order (bound_map (λ b. b.now) from.entry)
            (bound_map (λ b. b.now) to.entry) self.new) f.new }
        ensures others { keys_not_between K.order (bound_map (λ b. b.now) from.entry)
            (bound_map (λ b. b.now) to.entry) self.new ≡
            keys_not_between K.order (bound_map (λ b. b.now) from.entry)
            (bound_map (λ b. b.now) to.entry) self.old }
        ensures keys { keys_of self.new ≡ keys_of self.old }
        ensures callable { F.IsAlwaysCallable f.new }
    {
        self.map.for_each_mut_in(bytes_of(from), bytes_of(to), f);
    }
}

impl<K: StringBytes + Drop, V: Drop, const P: usize> TreeMap<K, V, P> {
    /// Does what `for_each_mut_by_ref` does, for the pairs whose strings start with that of a key. The others are
    /// unchanged. It costs what `prefix` does, and a step of an iteration for each of these pairs.
    pub fn for_each_mut_below<F: FnMut(&K, &mut V)>(&mut self, prefix: &K, f: &mut F)
        requires { F.IsAlwaysCallable f.old }
        ensures pairs { ChangesPairs F.FnMut f.old
            (strings_below K.text (K.text prefix.now) self.old)
            (strings_below K.text (K.text prefix.now) self.new) f.new }
        ensures others { strings_not_below K.text (K.text prefix.now) self.new ≡
            strings_not_below K.text (K.text prefix.now) self.old }
        ensures keys { keys_of self.new ≡ keys_of self.old }
        ensures callable { F.IsAlwaysCallable f.new }
    {
        self.map.for_each_mut_below(prefix.beginning(), f);
    }
}
