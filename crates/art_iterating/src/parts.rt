//! Iteration over the keys of a map, and over its values, in order.
ghost use Rattle.std.specs.Prelude.{◌≡◌, ◌<◌, ◌^◌, length, IfSome, Some, ⊤};
ghost use Rattle.std.specs.Iterator.{UpTo, at_most};
ghost use Rattle.std.specs.Iterator.SizeHint.{IsWithinCount};
ghost use Rattle.art_iterating.specs.MapItems.{ShowsFirst, ShowsLast, keys_of, values_of};

use super::iter::{Leaves, MapIterOf};
use art_nodes::store::NodeStore;
use std::alloc::AllocError;
use std::iter::FusedIterator;
use std::marker::Model;

/// An iterator over the keys of a map, in ascending order. Contracts see it as the list of the keys that are left.
#[derive(Drop)]
pub struct KeysOf<'a, K, V, S: Leaves<K, V>> {
    pairs: MapIterOf<'a, K, V, S>,
}

/// The same, over the store of a map.
pub type Keys<'a, K, V, const P: usize> = KeysOf<'a, K, V, NodeStore<K, V, P>>;

impl<'a, K, V, S: Leaves<K, V>> Model for KeysOf<'a, K, V, S> {
    ghost use Rattle.std.specs.Prelude.{List};
    ghost use Rattle.std.specs.Coded.{coded_list};

    ghost Value = { List K };

    ghost coded = { coded_list K.code };

    ghost use Rattle.art_iterating.specs.MapItems.{keys_of};

    ghost view = { λ m. keys_of m.pairs };
}

impl<'a, K, V, S: Leaves<K, V>> KeysOf<'a, K, V, S> {
    /// Returns the iterator over the keys of these pairs.
    pub fn new(pairs: MapIterOf<'a, K, V, S>) -> Self
        requires { length pairs < 2 ^ 64 }
        ensures keys { result ≡ keys_of pairs.entry }
        ensures fits { length result < 2 ^ 64 }
    {
        KeysOf { pairs }
    }
}

impl<'a, K, V, S: Leaves<K, V>> Clone for KeysOf<'a, K, V, S> {
    ghost is_clone = { λ iterator copy. copy ≡ iterator };

    ghost is_infallible = { λ iterator. ⊤ };

    fn clone(&self) -> Result<Self, AllocError> {
        Ok(KeysOf {
            pairs: self.pairs.clone()?,
        })
    }
}

impl<'a, K, V, S: Leaves<K, V>> Iterator for KeysOf<'a, K, V, S> {
    type Item = &'a K;

    ghost next_gives = { ShowsFirst };

    ghost remaining = { λ s. at_most (length s) };

    fn next(&mut self) -> Option<&'a K> {
        match self.pairs.next() {
            Some((key, _)) => Some(key),
            None => None,
        }
    }

    fn size_hint(&self) -> (usize, Option<usize>)
        ensures lower { IsWithinCount result.0 (at_most (length self.now)) }
        ensures upper { IfSome result.1 (UpTo (at_most (length self.now))) }
        ensures exact { result ≡ (length self.now, Some (length self.now)) }
    {
        let len = self.pairs.len();
        (len, Some(len))
    }
}

impl<'a, K, V, S: Leaves<K, V>> ExactSizeIterator for KeysOf<'a, K, V, S> {
    fn len(&self) -> usize {
        self.pairs.len()
    }
}

impl<'a, K, V, S: Leaves<K, V>> DoubleEndedIterator for KeysOf<'a, K, V, S> {
    ghost next_back_gives = { ShowsLast };

    fn next_back(&mut self) -> Option<&'a K> {
        match self.pairs.next_back() {
            Some((key, _)) => Some(key),
            None => None,
        }
    }
}

impl<'a, K, V, S: Leaves<K, V>> FusedIterator for KeysOf<'a, K, V, S> {}

/// An iterator over the values of a map, by ascending keys. Contracts see it as the list of the values that are left.
#[derive(Drop)]
pub struct ValuesOf<'a, K, V, S: Leaves<K, V>> {
    pairs: MapIterOf<'a, K, V, S>,
}

/// The same, over the store of a map.
pub type Values<'a, K, V, const P: usize> = ValuesOf<'a, K, V, NodeStore<K, V, P>>;

impl<'a, K, V, S: Leaves<K, V>> Model for ValuesOf<'a, K, V, S> {
    ghost use Rattle.std.specs.Prelude.{List};
    ghost use Rattle.std.specs.Coded.{coded_list};

    ghost Value = { List V };

    ghost coded = { coded_list V.code };

    ghost use Rattle.art_iterating.specs.MapItems.{values_of};

    ghost view = { λ m. values_of m.pairs };
}

impl<'a, K, V, S: Leaves<K, V>> ValuesOf<'a, K, V, S> {
    /// Returns the iterator over the values of these pairs.
    pub fn new(pairs: MapIterOf<'a, K, V, S>) -> Self
        requires { length pairs < 2 ^ 64 }
        ensures values { result ≡ values_of pairs.entry }
        ensures fits { length result < 2 ^ 64 }
    {
        ValuesOf { pairs }
    }
}

impl<'a, K, V, S: Leaves<K, V>> Clone for ValuesOf<'a, K, V, S> {
    ghost is_clone = { λ iterator copy. copy ≡ iterator };

    ghost is_infallible = { λ iterator. ⊤ };

    fn clone(&self) -> Result<Self, AllocError> {
        Ok(ValuesOf {
            pairs: self.pairs.clone()?,
        })
    }
}

impl<'a, K, V, S: Leaves<K, V>> Iterator for ValuesOf<'a, K, V, S> {
    type Item = &'a V;

    ghost next_gives = { ShowsFirst };

    ghost remaining = { λ s. at_most (length s) };

    fn next(&mut self) -> Option<&'a V> {
        match self.pairs.next() {
            Some((_, value)) => Some(value),
            None => None,
        }
    }

    fn size_hint(&self) -> (usize, Option<usize>)
        ensures lower { IsWithinCount result.0 (at_most (length self.now)) }
        ensures upper { IfSome result.1 (UpTo (at_most (length self.now))) }
        ensures exact { result ≡ (length self.now, Some (length self.now)) }
    {
        let len = self.pairs.len();
        (len, Some(len))
    }
}

impl<'a, K, V, S: Leaves<K, V>> ExactSizeIterator for ValuesOf<'a, K, V, S> {
    fn len(&self) -> usize {
        self.pairs.len()
    }
}

impl<'a, K, V, S: Leaves<K, V>> DoubleEndedIterator for ValuesOf<'a, K, V, S> {
    ghost next_back_gives = { ShowsLast };

    fn next_back(&mut self) -> Option<&'a V> {
        match self.pairs.next_back() {
            Some((_, value)) => Some(value),
            None => None,
        }
    }
}

impl<'a, K, V, S: Leaves<K, V>> FusedIterator for ValuesOf<'a, K, V, S> {}
