//! Keeping the pairs for which a closure returns true, with the values that it leaves.
ghost use Rattle.std.specs.Prelude.{◌≡◌, Some};
ghost use Rattle.std.specs.Range.Bound.{bound_map};
ghost use Rattle.art_nodes.specs.LeafCalls.{CalledOnPair};
ghost use Rattle.art_model.specs.Pairs.{of_key};
ghost use Rattle.art_changing.specs.MapPairs.{HoldsPairs, pairs_at};
ghost use Rattle.art_map.specs.MapRetain.{FindsRefused, HasTakenRefused, RetainsAllPairs, RetainsPairs, TakesRefused, after_pair};

use super::{ByteMap, pair_at};
use art_changing::remove::take_pair;
use art_nodes::node::{AsBytes, OpaqueNodePtr};
use art_nodes::store::NodeStore;
use art_ranges::range::range_unchecked;
use art_writing::delete::{DeletePoint, search_for_delete_point_by_lengths};
use std::ops::Bound;

impl<K: AsBytes + Drop, V: Drop, const P: usize> ByteMap<K, V, P> {
    /// Keeps the pairs for which the closure returns true, and removes the others. The closure is called once for each
    /// pair, in the order of the keys. It may change the value in place. It is dropped at the end, so only the contract
    /// of `retain_by_ref` rules out further calls.
    ///
    /// It allocates nothing and never fails. Each pair costs a step of an iteration. One that is removed costs what
    /// `range` and `remove` do besides.
    pub fn retain<F: FnMut(&K, &mut V) -> bool>(&mut self, mut f: F)
        requires { F.IsAlwaysCallable f }
        ensures pairs { RetainsAllPairs F.FnMut f self.old self.new }
    {
        self.retain_by_ref(&mut f);
    }

    /// Does what `retain` does, with a closure that the caller keeps. The closure is called exactly once for each pair:
    /// its last state is the one that these calls lead to.
    pub fn retain_by_ref<F: FnMut(&K, &mut V) -> bool>(&mut self, f: &mut F)
        requires { F.IsAlwaysCallable f.old }
        ensures pairs { RetainsPairs F.FnMut f.old self.old self.new f.new }
        ensures callable { F.IsAlwaysCallable f.new }
    {
        let mut last = None;
        while let Some(pair) = self.take_refused(&last, f) {
            last = Some(pair);
        }
    }

    // Removes the first pair after another one for which the closure returns false.
    fn take_refused<F: FnMut(&K, &mut V) -> bool>(
        &mut self,
        last: &Option<(K, V)>,
        f: &mut F,
    ) -> Option<(K, V)>
        requires { F.IsAlwaysCallable f.old }
        ensures callable { F.IsAlwaysCallable f.new }
        ensures taken { TakesRefused F.FnMut K.bytes last.now f.old self.old result
            f.new self.new }
    {
        take_refused(&mut self.store, &mut self.root, &mut self.len, last, f)
    }
}

// Removes the first pair after another one for which the closure returns false from the tree.
fn take_refused<K: AsBytes + Drop, V: Drop, const P: usize, F: FnMut(&K, &mut V) -> bool>(
    store: &mut NodeStore<K, V, P>,
    root: &mut Option<OpaqueNodePtr>,
    len: &mut usize,
    last: &Option<(K, V)>,
    f: &mut F,
) -> Option<(K, V)>
    requires callable { F.IsAlwaysCallable f.old }
    requires holds { HoldsPairs (of_key K.bytes) P store.old root.old len.old
        (pairs_at store.old root.old) }
    ensures callable { F.IsAlwaysCallable f.new }
    ensures taken { HasTakenRefused F.FnMut K.bytes P last.now f.old
        (pairs_at store.old root.old) result f.new store.new root.new len.new }
{
    let Some(name) = *root else {
        return None;
    };
    let Some(point) = find_refused(store, name, *len, last, f) else {
        return None;
    };
    Some(take_pair(store, root, len, name, point))
}

// The point of the first pair after another one for which the closure returns false.
fn find_refused<K: AsBytes + Drop, V: Drop, const P: usize, F: FnMut(&K, &mut V) -> bool>(
    store: &mut NodeStore<K, V, P>,
    root: OpaqueNodePtr,
    len: usize,
    last: &Option<(K, V)>,
    f: &mut F,
) -> Option<DeletePoint>
    requires callable { F.IsAlwaysCallable f.old }
    requires holds { HoldsPairs (of_key K.bytes) P store.old (Some root) len
        (pairs_at store.old (Some root)) }
    ensures callable { F.IsAlwaysCallable f.new }
    ensures found { FindsRefused F.FnMut K.bytes P last.now f.old
        (pairs_at store.old (Some root)) result f.new store.new root len }
{
    let mut walk = range_unchecked(store, root, bound_after(last), Bound::Unbounded);
    while let Some(leaf) = walk.next(store) {
        if !store.with_pair_mut(leaf, f) {
            let key_bytes = pair_at(store, leaf).0.as_bytes();
            return search_for_delete_point_by_lengths(store, root, key_bytes);
        }
    }
    None
}

// The bound after the key of a pair, if there is one.
fn bound_after<K: AsBytes, V>(last: &Option<(K, V)>) -> Bound<&[u8]>
    ensures { bound_map (λ b. b.now) result ≡ after_pair (of_key K.bytes) last.now }
{
    match last {
        Some((key, _)) => Bound::Excluded(key.as_bytes()),
        None => Bound::Unbounded,
    }
}
