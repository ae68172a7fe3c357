//! Changing values of a map by a closure, which may read their keys.
ghost use Rattle.std.specs.Prelude.{◌≡◌};
ghost use Rattle.std.specs.Fn.{CalledAtMut};
ghost use Rattle.std.specs.Range.Bound.{bound_map};
ghost use Rattle.art_nodes.specs.LeafCalls.{CalledOnPair};
ghost use Rattle.art_model.specs.Pairs.{of_key};
ghost use Rattle.art_model.specs.Parts.{below, between, not_below};
ghost use Rattle.art_map.specs.MapCalls.{ChangesAll, ChangesEach, ChangesPairs, ChangesValues};
ghost use Rattle.art_map.specs.MapChanges.{HasChanged};
ghost use Rattle.art_iterating.specs.MapItems.{IsRange, keys_of, pairs_between};
ghost use Rattle.art_changing.specs.MapPairs.{HoldsPairs, pairs_at};
ghost use Rattle.art_map.specs.MapParts.{not_between};

use super::ByteMap;
use super::owned::whole_walk;
use art_nodes::node::{AsBytes, OpaqueNodePtr};
use art_nodes::store::NodeStore;
use art_ranges::range::{prefix_unchecked, range_unchecked};
use art_reading::iterator::RawIterator;
use std::ops::Bound;

impl<K: AsBytes + Drop, V: Drop, const P: usize> ByteMap<K, V, P> {
    /// Calls the closure on each pair, in the order of the keys, to change the value in place. The keys stay.
    ///
    /// It is what `for (key, value) in map.iter_mut()` is in std: each pair costs one step of an iteration. It
    /// allocates nothing and never fails.
    pub fn for_each_mut<F: FnMut(&K, &mut V)>(&mut self, mut f: F)
        requires { F.IsAlwaysCallable f }
        ensures pairs { ChangesAll F.FnMut f self.old self.new }
        ensures keys { keys_of self.new ≡ keys_of self.old }
    {
        self.for_each_mut_by_ref(&mut f);
    }

    /// Does what `for_each_mut` does, with a closure that the caller keeps. The closure is called exactly once on each
    /// pair: its last state is the one that these calls lead to.
    pub fn for_each_mut_by_ref<F: FnMut(&K, &mut V)>(&mut self, f: &mut F)
        requires { F.IsAlwaysCallable f.old }
        ensures pairs { ChangesPairs F.FnMut f.old self.old self.new f.new }
        ensures keys { keys_of self.new ≡ keys_of self.old }
        ensures callable { F.IsAlwaysCallable f.new }
    {
        let walk = whole_walk(&self.store, self.root, self.len);
        change_pairs(&mut self.store, self.root, self.len, walk, f);
    }

    /// Does what `for_each_mut_by_ref` does, for the pairs whose keys are between two bounds. The others are unchanged.
    ///
    /// It costs what `range` does, and a step of an iteration for each of these pairs.
    pub fn for_each_mut_in<F: FnMut(&K, &mut V)>(
        &mut self,
        from: Bound<&[u8]>,
        to: Bound<&[u8]>,
        f: &mut F,
    )
        requires { F.IsAlwaysCallable f.old }
        ensures pairs { ChangesPairs F.FnMut f.old (between (of_key K.bytes)
            (bound_map (λ b. b.now) from.entry) (bound_map (λ b. b.now) to.entry) self.old)
            (between (of_key K.bytes) (bound_map (λ b. b.now) from.entry)
            (bound_map (λ b. b.now) to.entry) self.new) f.new }
        ensures others { not_between (of_key K.bytes) (bound_map (λ b. b.now) from.entry)
            (bound_map (λ b. b.now) to.entry) self.new ≡
            not_between (of_key K.bytes) (bound_map (λ b. b.now) from.entry)
            (bound_map (λ b. b.now) to.entry) self.old }
        ensures keys { keys_of self.new ≡ keys_of self.old }
        ensures callable { F.IsAlwaysCallable f.new }
    {
        let Some(root) = self.root else {
            return;
        };
        let walk = range_unchecked(&self.store, root, from, to);
        change_pairs(&mut self.store, self.root, self.len, walk, f);
    }

    /// Does what `for_each_mut_by_ref` does, for the pairs whose keys start with these bytes. The others are unchanged.
    ///
    /// It costs what `prefix` does, and a step of an iteration for each of these pairs.
    pub fn for_each_mut_below<F: FnMut(&K, &mut V)>(&mut self, prefix: &[u8], f: &mut F)
        requires { F.IsAlwaysCallable f.old }
        ensures pairs { ChangesPairs F.FnMut f.old (below (of_key K.bytes) prefix.now self.old)
            (below (of_key K.bytes) prefix.now self.new) f.new }
        ensures others { not_below (of_key K.bytes) prefix.now self.new ≡
            not_below (of_key K.bytes) prefix.now self.old }
        ensures keys { keys_of self.new ≡ keys_of self.old }
        ensures callable { F.IsAlwaysCallable f.new }
    {
        let Some(root) = self.root else {
            return;
        };
        let walk = prefix_unchecked(&self.store, root, prefix);
        change_pairs(&mut self.store, self.root, self.len, walk, f);
    }

    /// Calls the closure on each value, in the order of the keys, to change it in place. The keys stay. It costs what
    /// `for_each_mut` does.
    pub fn for_each_value<F: FnMut(&mut V)>(&mut self, mut f: F)
        requires { F.IsAlwaysCallable f }
        ensures values { ChangesValues F.FnMut f self.old self.new }
        ensures keys { keys_of self.new ≡ keys_of self.old }
    {
        self.for_each_value_by_ref(&mut f);
    }

    /// Does what `for_each_value` does, with a closure that the caller keeps. The closure is called exactly once on
    /// each value: its last state is the one that these calls lead to.
    pub fn for_each_value_by_ref<F: FnMut(&mut V)>(&mut self, f: &mut F)
        requires { F.IsAlwaysCallable f.old }
        ensures values { ChangesEach F.FnMut f.old self.old self.new f.new }
        ensures keys { keys_of self.new ≡ keys_of self.old }
        ensures callable { F.IsAlwaysCallable f.new }
    {
        self.for_each_mut_by_ref(
            &mut |_: &K, value: &mut V|
                requires { F.IsAlwaysCallable f.now }
                ensures callable { F.IsAlwaysCallable f.exit.now }
                ensures called { CalledAtMut F.FnMut f.entry.now value.old result f.exit.now
                    value.new }
                ensures same { f.exit.ghost_name ≡ f.entry.ghost_name }
            { f(value) },
        );
    }
}

// Calls the closure on the pairs that an iterator has left, in the order of the keys.
fn change_pairs<K: AsBytes + Drop, V: Drop, const P: usize, F: FnMut(&K, &mut V)>(
    store: &mut NodeStore<K, V, P>,
    root: Option<OpaqueNodePtr>,
    len: usize,
    mut walk: RawIterator,
    f: &mut F,
)
    requires callable { F.IsAlwaysCallable f.old }
    requires holds { HoldsPairs (of_key K.bytes) P store.old root len (pairs_at store.old root) }
    requires walk { IsRange store.old walk len }
    ensures changed { HasChanged K.bytes P (λ f x next value.
        CalledOnPair F.FnMut f x tt next value)
        f.old (pairs_between store.old walk len)
        (pairs_at store.old root) f.new store.new root len }
    ensures callable { F.IsAlwaysCallable f.new }
{
    while let Some(leaf) = walk.next(store) {
        store.with_pair_mut(leaf, f);
    }
}
