//! Iteration over the pairs of a part of a map, in order.
ghost use Rattle.std.specs.Prelude.{◌≡◌, ◌<◌, ◌^◌, length, IfSome, IsSome, ⊤};
ghost use Rattle.std.specs.Iterator.{UpTo, at_most};
ghost use Rattle.std.specs.Iterator.SizeHint.{IsWithinCount};
ghost use Rattle.art_iterating.specs.MapItems.{IsRange, TakesFirst, TakesLast, pairs_between};

use super::iter::Leaves;
use art_nodes::store::NodeStore;
use art_reading::iterator::RawIterator;
use std::alloc::AllocError;
use std::iter::FusedIterator;
use std::marker::Model;

/// An iterator over adjacent pairs of a map, by ascending keys. Contracts see it as the list of the pairs that are
/// left. Their number is not known: `size_hint` has only an upper bound.
#[derive(Drop)]
pub struct RangeOf<'a, K, V, S: Leaves<K, V>> {
    store: &'a S,
    walk: RawIterator,
    at_most: usize,
    // Always `None`: it names the lifetime of the borrowed pairs.
    nothing: Option<(&'a K, &'a V)>,
}

/// The same, over the store of a map.
pub type Range<'a, K, V, const P: usize> = RangeOf<'a, K, V, NodeStore<K, V, P>>;

impl<'a, K, V, S: Leaves<K, V>> Model for RangeOf<'a, K, V, S> {
    ghost use Rattle.std.specs.Prelude.{List};
    ghost use Rattle.std.specs.Coded.{coded×, coded_list};

    ghost Value = { List (K × V) };

    ghost coded = { coded_list (coded× K.code V.code) };

    ghost use Rattle.art_iterating.specs.MapItems.{IsRange, pairs_between};

    ghost view = { λ m. pairs_between (S.seen m.store.now) m.walk m.at_most };

    ghost invariant = { λ m. IsRange (S.seen m.store.now) m.walk m.at_most };
}

impl<'a, K, V, S: Leaves<K, V>> RangeOf<'a, K, V, S> {
    /// Returns the iterator over the pairs of a walk over at most so many leaves.
    pub fn new(store: &'a S, walk: RawIterator, at_most: usize) -> Self
        requires { IsRange (S.seen store.now) walk at_most }
        ensures pairs { result ≡ pairs_between (S.seen store.now) walk at_most }
        ensures fits { length result < 2 ^ 64 }
    {
        RangeOf {
            store,
            walk,
            at_most,
            nothing: None,
        }
    }
}

impl<'a, K, V, S: Leaves<K, V>> Clone for RangeOf<'a, K, V, S> {
    ghost is_clone = { λ iterator copy. copy ≡ iterator };

    ghost is_infallible = { λ iterator. ⊤ };

    fn clone(&self) -> Result<Self, AllocError> {
        Ok(RangeOf {
            store: self.store,
            walk: self.walk,
            at_most: self.at_most,
            nothing: None,
        })
    }
}

impl<'a, K, V, S: Leaves<K, V>> Iterator for RangeOf<'a, K, V, S> {
    type Item = (&'a K, &'a V);

    ghost next_gives = { TakesFirst };

    ghost remaining = { λ s. at_most (length s) };

    fn next(&mut self) -> Option<(&'a K, &'a V)> {
        self.store.step(&mut self.walk, &mut self.at_most)
    }

    fn size_hint(&self) -> (usize, Option<usize>)
        ensures lower { IsWithinCount result.0 (at_most (length self.now)) }
        ensures upper { IfSome result.1 (UpTo (at_most (length self.now))) }
        ensures bounded { IsSome result.1 }
    {
        (0, Some(self.at_most))
    }
}

impl<'a, K, V, S: Leaves<K, V>> DoubleEndedIterator for RangeOf<'a, K, V, S> {
    ghost next_back_gives = { TakesLast };

    fn next_back(&mut self) -> Option<(&'a K, &'a V)> {
        self.store.step_back(&mut self.walk, &mut self.at_most)
    }
}

impl<'a, K, V, S: Leaves<K, V>> FusedIterator for RangeOf<'a, K, V, S> {}
