//! Iteration over the pairs of a map by value, in order.
ghost use Rattle.std.specs.Prelude.{◌≡◌, length, IfSome, Some};
ghost use Rattle.std.specs.Iterator.{UpTo, YieldsFirst, YieldsLast, at_most, item_count};
ghost use Rattle.std.specs.Iterator.SizeHint.{IsWithinCount};
ghost use Rattle.art_model.specs.Pairs.{of_key};
ghost use Rattle.art_reading.specs.Iterators.{IsWalk, pairs_left};
ghost use Rattle.art_iterating.specs.MapItems.{keys_of, values_of};
ghost use Rattle.art_changing.specs.MapPairs.{HoldsPairs, pairs_at};

use super::ByteMap;
use art_nodes::node::{AsBytes, OpaqueNodePtr};
use art_nodes::store::NodeStore;
use art_reading::iterator::RawIterator;
use art_reading::minmax::{maximum_unchecked, minimum_unchecked};
use std::iter::FusedIterator;
use std::marker::Model;

/// An owning iterator over the pairs of a map, by ascending keys. Contracts see it as the list of the pairs that are
/// left. These are dropped with it.
#[derive(Drop)]
pub struct IntoIter<K, V, const P: usize> {
    store: NodeStore<K, V, P>,
    walk: RawIterator,
    len: usize,
}

impl<K, V, const P: usize> Model for IntoIter<K, V, P> {
    ghost use Rattle.std.specs.Prelude.{List};
    ghost use Rattle.std.specs.Coded.{coded×, coded_list};

    ghost Value = { List (K × V) };

    ghost coded = { coded_list (coded× K.code V.code) };

    ghost use Rattle.art_reading.specs.Iterators.{IsWalk, pairs_left};

    ghost view = { λ m. pairs_left m.store m.walk m.len };

    ghost invariant = { λ m. IsWalk m.store m.walk m.len };
}

impl<K: AsBytes + Drop, V: Drop, const P: usize> Iterator for IntoIter<K, V, P> {
    type Item = (K, V);

    ghost next_gives = { YieldsFirst (λ pairs. pairs) };

    ghost remaining = { item_count (λ pairs. pairs) };

    fn next(&mut self) -> Option<(K, V)> {
        take_next(&mut self.store, &mut self.walk, &mut self.len)
    }

    fn size_hint(&self) -> (usize, Option<usize>)
        ensures lower { IsWithinCount result.0 (at_most (length self.now)) }
        ensures upper { IfSome result.1 (UpTo (at_most (length self.now))) }
        ensures exact { result ≡ (length self.now, Some (length self.now)) }
    {
        (self.len, Some(self.len))
    }
}

impl<K: AsBytes + Drop, V: Drop, const P: usize> ExactSizeIterator for IntoIter<K, V, P> {
    fn len(&self) -> usize {
        self.len
    }
}

impl<K: AsBytes + Drop, V: Drop, const P: usize> DoubleEndedIterator for IntoIter<K, V, P> {
    ghost next_back_gives = { YieldsLast (λ pairs. pairs) };

    fn next_back(&mut self) -> Option<(K, V)> {
        take_next_back(&mut self.store, &mut self.walk, &mut self.len)
    }
}

impl<K: AsBytes + Drop, V: Drop, const P: usize> FusedIterator for IntoIter<K, V, P> {}

impl<K: AsBytes + Drop, V: Drop, const P: usize> IntoIterator for ByteMap<K, V, P> {
    type Item = (K, V);

    type IntoIter = IntoIter<K, V, P>;

    ghost into_iter_gives = { λ map pairs. pairs ≡ map };

    fn into_iter(self) -> IntoIter<K, V, P> {
        let ByteMap { store, root, len } = self;
        let walk = whole_walk(&store, root, len);
        IntoIter { store, walk, len }
    }
}

/// An owning iterator over the keys of a map, in ascending order. Contracts see it as the list of the keys that are
/// left.
#[derive(Drop)]
pub struct IntoKeys<K, V, const P: usize> {
    pairs: IntoIter<K, V, P>,
}

impl<K, V, const P: usize> Model for IntoKeys<K, V, P> {
    ghost use Rattle.std.specs.Prelude.{List};
    ghost use Rattle.std.specs.Coded.{coded_list};

    ghost Value = { List K };

    ghost coded = { coded_list K.code };

    ghost use Rattle.art_iterating.specs.MapItems.{keys_of};

    ghost view = { λ m. keys_of m.pairs };
}

impl<K: AsBytes + Drop, V: Drop, const P: usize> Iterator for IntoKeys<K, V, P> {
    type Item = K;

    ghost next_gives = { YieldsFirst (λ keys. keys) };

    ghost remaining = { item_count (λ keys. keys) };

    fn next(&mut self) -> Option<K> {
        match self.pairs.next() {
            Some((key, _)) => Some(key),
            None => None,
        }
    }

    fn size_hint(&self) -> (usize, Option<usize>)
        ensures lower { IsWithinCount result.0 (at_most (length self.now)) }
        ensures upper { IfSome result.1 (UpTo (at_most (length self.now))) }
        ensures exact { result ≡ (length self.now, Some (length self.now)) }
    {
        let len = self.pairs.len();
        (len, Some(len))
    }
}

impl<K: AsBytes + Drop, V: Drop, const P: usize> ExactSizeIterator for IntoKeys<K, V, P> {
    fn len(&self) -> usize {
        self.pairs.len()
    }
}

impl<K: AsBytes + Drop, V: Drop, const P: usize> DoubleEndedIterator for IntoKeys<K, V, P> {
    ghost next_back_gives = { YieldsLast (λ keys. keys) };

    fn next_back(&mut self) -> Option<K> {
        match self.pairs.next_back() {
            Some((key, _)) => Some(key),
            None => None,
        }
    }
}

impl<K: AsBytes + Drop, V: Drop, const P: usize> FusedIterator for IntoKeys<K, V, P> {}

/// An owning iterator over the values of a map, by ascending keys. Contracts see it as the list of the values that are
/// left.
#[derive(Drop)]
pub struct IntoValues<K, V, const P: usize> {
    pairs: IntoIter<K, V, P>,
}

impl<K, V, const P: usize> Model for IntoValues<K, V, P> {
    ghost use Rattle.std.specs.Prelude.{List};
    ghost use Rattle.std.specs.Coded.{coded_list};

    ghost Value = { List V };

    ghost coded = { coded_list V.code };

    ghost use Rattle.art_iterating.specs.MapItems.{values_of};

    ghost view = { λ m. values_of m.pairs };
}

impl<K: AsBytes + Drop, V: Drop, const P: usize> Iterator for IntoValues<K, V, P> {
    type Item = V;

    ghost next_gives = { YieldsFirst (λ values. values) };

    ghost remaining = { item_count (λ values. values) };

    fn next(&mut self) -> Option<V> {
        match self.pairs.next() {
            Some((_, value)) => Some(value),
            None => None,
        }
    }

    fn size_hint(&self) -> (usize, Option<usize>)
        ensures lower { IsWithinCount result.0 (at_most (length self.now)) }
        ensures upper { IfSome result.1 (UpTo (at_most (length self.now))) }
        ensures exact { result ≡ (length self.now, Some (length self.now)) }
    {
        let len = self.pairs.len();
        (len, Some(len))
    }
}

impl<K: AsBytes + Drop, V: Drop, const P: usize> ExactSizeIterator for IntoValues<K, V, P> {
    fn len(&self) -> usize {
        self.pairs.len()
    }
}

impl<K: AsBytes + Drop, V: Drop, const P: usize> DoubleEndedIterator for IntoValues<K, V, P> {
    ghost next_back_gives = { YieldsLast (λ values. values) };

    fn next_back(&mut self) -> Option<V> {
        match self.pairs.next_back() {
            Some((_, value)) => Some(value),
            None => None,
        }
    }
}

impl<K: AsBytes + Drop, V: Drop, const P: usize> FusedIterator for IntoValues<K, V, P> {}

impl<K: AsBytes + Drop, V: Drop, const P: usize> ByteMap<K, V, P> {
    /// Returns an owning iterator over the keys in ascending order. It never fails.
    pub fn into_keys(self) -> IntoKeys<K, V, P>
        ensures { result ≡ keys_of self }
    {
        IntoKeys {
            pairs: self.into_iter(),
        }
    }

    /// Returns an owning iterator over the values in the order of their keys. It never fails.
    pub fn into_values(self) -> IntoValues<K, V, P>
        ensures { result ≡ values_of self }
    {
        IntoValues {
            pairs: self.into_iter(),
        }
    }
}

// The iterator over all leaves of a map.
pub(super) fn whole_walk<K: AsBytes + Drop, V: Drop, const P: usize>(
    store: &NodeStore<K, V, P>,
    root: Option<OpaqueNodePtr>,
    len: usize,
) -> RawIterator
    requires { HoldsPairs (of_key K.bytes) P store.now root len (pairs_at store.now root) }
    ensures walk { IsWalk store.now result len }
    ensures pairs { pairs_left store.now result len ≡ pairs_at store.now root }
{
    let Some(root) = root else {
        return RawIterator::empty();
    };
    let first = minimum_unchecked(store, root);
    let last = maximum_unchecked(store, root);
    RawIterator::new(store, first, last)
}

// Removes the first leaf that is left from the store, and returns its pair.
fn take_next<K: AsBytes + Drop, V: Drop, const P: usize>(
    store: &mut NodeStore<K, V, P>,
    walk: &mut RawIterator,
    len: &mut usize,
) -> Option<(K, V)>
    requires { IsWalk store.old walk.old len.old }
    ensures walk { IsWalk store.new walk.new len.new }
    ensures pair { YieldsFirst (λ pairs. pairs) (pairs_left store.old walk.old len.old) result
        (pairs_left store.new walk.new len.new) }
{
    let name = walk.next(store)?;
    *len -= 1;
    let leaf = store.free_leaf(name);
    Some((leaf.key, leaf.value))
}

// Removes the last leaf that is left from the store, and returns its pair.
fn take_next_back<K: AsBytes + Drop, V: Drop, const P: usize>(
    store: &mut NodeStore<K, V, P>,
    walk: &mut RawIterator,
    len: &mut usize,
) -> Option<(K, V)>
    requires { IsWalk store.old walk.old len.old }
    ensures walk { IsWalk store.new walk.new len.new }
    ensures pair { YieldsLast (λ pairs. pairs) (pairs_left store.old walk.old len.old) result
        (pairs_left store.new walk.new len.new) }
{
    let name = walk.next_back(store)?;
    *len -= 1;
    let leaf = store.free_leaf(name);
    Some((leaf.key, leaf.value))
}
