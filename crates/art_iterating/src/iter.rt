//! Iteration over the pairs of a map, in order.
ghost use Rattle.std.specs.Prelude.{◌≡◌, ◌<◌, ◌^◌, length, IfSome, Some, ⊤};
ghost use Rattle.std.specs.Iterator.{UpTo, at_most};
ghost use Rattle.std.specs.Iterator.SizeHint.{IsWithinCount};
ghost use Rattle.art_reading.specs.Iterators.{IsWalk};
ghost use Rattle.art_iterating.specs.MapItems.{CountsDown, IsRange, TakesFirst, TakesLast, pairs_between};
ghost use Rattle.art_nodes.specs.Nodes.{Nodes};

use art_nodes::node::AsBytes;
use art_nodes::store::NodeStore;
use art_reading::iterator::RawIterator;
use std::alloc::AllocError;
use std::iter::FusedIterator;
use std::marker::Model;

/// The leaves that an iterator reads.
pub trait Leaves<K, V> {
    ghost seen: { Self → Nodes K V };

    /// Returns the pair of the first leaf that is left, or `None`. At most `at_most` leaves are left.
    fn step(&self, walk: &mut RawIterator, at_most: &mut usize) -> Option<(&K, &V)>
        requires { IsRange (seen self.now) walk.old at_most.old }
        ensures range { IsRange (seen self.now) walk.new at_most.new }
        ensures pair { TakesFirst (pairs_between (seen self.now) walk.old at_most.old) result
            (pairs_between (seen self.now) walk.new at_most.new) }
        ensures count { CountsDown at_most.old result at_most.new };

    /// Returns the pair of the last leaf that is left, or `None`. At most `at_most` leaves are left.
    fn step_back(&self, walk: &mut RawIterator, at_most: &mut usize) -> Option<(&K, &V)>
        requires { IsRange (seen self.now) walk.old at_most.old }
        ensures range { IsRange (seen self.now) walk.new at_most.new }
        ensures pair { TakesLast (pairs_between (seen self.now) walk.old at_most.old) result
            (pairs_between (seen self.now) walk.new at_most.new) }
        ensures count { CountsDown at_most.old result at_most.new };
}

impl<K: AsBytes + Drop, V: Drop, const P: usize> Leaves<K, V> for NodeStore<K, V, P> {
    ghost seen = { λ s. s };

    #[inline(always)]
    fn step(&self, walk: &mut RawIterator, at_most: &mut usize) -> Option<(&K, &V)> {
        let (_, leaf) = walk.next_leaf(self)?;
        *at_most -= 1;
        Some((&leaf.key, &leaf.value))
    }

    #[inline(always)]
    fn step_back(&self, walk: &mut RawIterator, at_most: &mut usize) -> Option<(&K, &V)> {
        let (_, leaf) = walk.next_back_leaf(self)?;
        *at_most -= 1;
        Some((&leaf.key, &leaf.value))
    }
}

/// An iterator over the pairs of a map, by ascending keys. Contracts see it as the list of the pairs that are left.
#[derive(Drop)]
pub struct MapIterOf<'a, K, V, S: Leaves<K, V>> {
    store: &'a S,
    walk: RawIterator,
    len: usize,
    // Always `None`: it names the lifetime of the borrowed pairs.
    nothing: Option<(&'a K, &'a V)>,
}

/// The same, over the store of a map.
pub type MapIter<'a, K, V, const P: usize> = MapIterOf<'a, K, V, NodeStore<K, V, P>>;

impl<'a, K, V, S: Leaves<K, V>> Model for MapIterOf<'a, K, V, S> {
    ghost use Rattle.std.specs.Prelude.{List};
    ghost use Rattle.std.specs.Coded.{coded×, coded_list};

    ghost Value = { List (K × V) };

    ghost coded = { coded_list (coded× K.code V.code) };

    ghost use Rattle.art_reading.specs.Iterators.{IsWalk};
    ghost use Rattle.art_iterating.specs.MapItems.{pairs_between};

    ghost view = { λ m. pairs_between (S.seen m.store.now) m.walk m.len };

    ghost invariant = { λ m. IsWalk (S.seen m.store.now) m.walk m.len };
}

impl<'a, K, V, S: Leaves<K, V>> MapIterOf<'a, K, V, S> {
    /// Returns the iterator over the pairs of a walk over exactly so many leaves.
    pub fn new(store: &'a S, walk: RawIterator, len: usize) -> Self
        requires { IsWalk (S.seen store.now) walk len }
        ensures pairs { result ≡ pairs_between (S.seen store.now) walk len }
        ensures fits { length result < 2 ^ 64 }
    {
        MapIterOf {
            store,
            walk,
            len,
            nothing: None,
        }
    }
}

impl<'a, K, V, S: Leaves<K, V>> Clone for MapIterOf<'a, K, V, S> {
    ghost is_clone = { λ iterator copy. copy ≡ iterator };

    ghost is_infallible = { λ iterator. ⊤ };

    fn clone(&self) -> Result<Self, AllocError> {
        Ok(MapIterOf {
            store: self.store,
            walk: self.walk,
            len: self.len,
            nothing: None,
        })
    }
}

impl<'a, K, V, S: Leaves<K, V>> Iterator for MapIterOf<'a, K, V, S> {
    type Item = (&'a K, &'a V);

    ghost next_gives = { TakesFirst };

    ghost remaining = { λ s. at_most (length s) };

    fn next(&mut self) -> Option<(&'a K, &'a V)> {
        self.store.step(&mut self.walk, &mut self.len)
    }

    fn size_hint(&self) -> (usize, Option<usize>)
        ensures lower { IsWithinCount result.0 (at_most (length self.now)) }
        ensures upper { IfSome result.1 (UpTo (at_most (length self.now))) }
        ensures exact { result ≡ (length self.now, Some (length self.now)) }
    {
        (self.len, Some(self.len))
    }
}

impl<'a, K, V, S: Leaves<K, V>> ExactSizeIterator for MapIterOf<'a, K, V, S> {
    fn len(&self) -> usize {
        self.len
    }
}

impl<'a, K, V, S: Leaves<K, V>> DoubleEndedIterator for MapIterOf<'a, K, V, S> {
    ghost next_back_gives = { TakesLast };

    fn next_back(&mut self) -> Option<(&'a K, &'a V)> {
        self.store.step_back(&mut self.walk, &mut self.len)
    }
}

impl<'a, K, V, S: Leaves<K, V>> FusedIterator for MapIterOf<'a, K, V, S> {}
