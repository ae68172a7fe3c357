//! Iteration over the keys of a part of a set, in order.
ghost use Rattle.std.specs.Prelude.{◌≡◌, ◌<◌, ◌^◌, length, option_copied, IfSome, IsSome, ⊤};
ghost use Rattle.std.specs.Iterator.{UpTo, at_most};
ghost use Rattle.std.specs.Iterator.SizeHint.{IsWithinCount};
ghost use Rattle.std.specs.Range.Bound.{bound_map};
ghost use Rattle.std.specs.declared.ops.Bound.TheVariants.{Unbounded};
ghost use Rattle.art_model.specs.Pairs.{IsMap, first_of, last_of};
ghost use Rattle.art_model.specs.Parts.{below, between};
ghost use Rattle.art_iterating.specs.MapItems.{ShowsFirst, ShowsLast, keys_of};

use super::ByteSet;
use art_map::map::{Leaves, RangeOf};
use art_nodes::node::AsBytes;
use art_nodes::store::NodeStore;
use std::alloc::AllocError;
use std::iter::FusedIterator;
use std::marker::Model;
use std::ops::{Bound, RangeBounds};

/// An iterator over adjacent keys of a set, in ascending order. Contracts see it as the list of the keys that are left.
/// Their number is not known: `size_hint` has only an upper bound.
#[derive(Drop)]
pub struct KeyRangeOf<'a, K, S: Leaves<K, ()>> {
    pairs: RangeOf<'a, K, (), S>,
}

/// The same, over the store of a set.
pub type KeyRange<'a, K, const P: usize> = KeyRangeOf<'a, K, NodeStore<K, (), P>>;

impl<'a, K, S: Leaves<K, ()>> Model for KeyRangeOf<'a, K, S> {
    ghost use Rattle.std.specs.Prelude.{List};
    ghost use Rattle.std.specs.Coded.{coded_list};

    ghost Value = { List K };

    ghost coded = { coded_list K.code };

    ghost use Rattle.art_iterating.specs.MapItems.{keys_of};

    ghost view = { λ m. keys_of m.pairs };
}

impl<'a, K, S: Leaves<K, ()>> KeyRangeOf<'a, K, S> {
    pub(super) fn new(pairs: RangeOf<'a, K, (), S>) -> Self
        requires { length pairs < 2 ^ 64 }
        ensures keys { result ≡ keys_of pairs.entry }
        ensures fits { length result < 2 ^ 64 }
    {
        KeyRangeOf { pairs }
    }
}

impl<'a, K, S: Leaves<K, ()>> Clone for KeyRangeOf<'a, K, S> {
    ghost is_clone = { λ iterator copy. copy ≡ iterator };

    ghost is_infallible = { λ iterator. ⊤ };

    fn clone(&self) -> Result<Self, AllocError> {
        Ok(KeyRangeOf {
            pairs: self.pairs.clone()?,
        })
    }
}

impl<'a, K, S: Leaves<K, ()>> Iterator for KeyRangeOf<'a, K, S> {
    type Item = &'a K;

    ghost next_gives = { ShowsFirst };

    ghost remaining = { λ s. at_most (length s) };

    fn next(&mut self) -> Option<&'a K> {
        match self.pairs.next() {
            Some((key, _)) => Some(key),
            None => None,
        }
    }

    fn size_hint(&self) -> (usize, Option<usize>)
        ensures lower { IsWithinCount result.0 (at_most (length self.now)) }
        ensures upper { IfSome result.1 (UpTo (at_most (length self.now))) }
        ensures bounded { IsSome result.1 }
    {
        self.pairs.size_hint()
    }
}

impl<'a, K, S: Leaves<K, ()>> DoubleEndedIterator for KeyRangeOf<'a, K, S> {
    ghost next_back_gives = { ShowsLast };

    fn next_back(&mut self) -> Option<&'a K> {
        match self.pairs.next_back() {
            Some((key, _)) => Some(key),
            None => None,
        }
    }
}

impl<'a, K, S: Leaves<K, ()>> FusedIterator for KeyRangeOf<'a, K, S> {}

impl<K: AsBytes + Drop, const P: usize> ByteSet<K, P> {
    /// Returns an iterator over the keys that start with these bytes, in ascending order. It costs what `prefix` of a
    /// `ByteMap` does.
    pub fn prefix(&self, prefix: &[u8]) -> KeyRange<'_, K, P>
        ensures keys { result ≡ below K.bytes prefix.now self.now }
        ensures sorted { IsMap K.bytes self.now }
        ensures fits { length result < 2 ^ 64 }
    {
        KeyRangeOf::new(self.map.prefix(prefix))
    }

    /// Returns an iterator over the keys in a range, in ascending order. There are none if the range runs backwards. It
    /// costs what `range` of a `ByteMap` does.
    pub fn range<'k, R: RangeBounds<&'k [u8]> + Drop>(&self, range: R) -> KeyRange<'_, K, P>
        ensures keys { R.has_bounds range → result ≡ between K.bytes
            (bound_map (λ b. b.now) (R.start_bound range))
            (bound_map (λ b. b.now) (R.end_bound range)) self.now }
        ensures sorted { IsMap K.bytes self.now }
        ensures fits { length result < 2 ^ 64 }
    {
        KeyRangeOf::new(self.map.range(range))
    }

    /// Returns the first key after a bound, or at it if that is included; `None` if there is none. It costs what
    /// `first_from` of a `ByteMap` does.
    pub fn first_from(&self, from: Bound<&[u8]>) -> Option<&K>
        ensures { option_copied result ≡ first_of (between K.bytes
            (bound_map (λ b. b.now) from.entry) Unbounded self.now) }
    {
        match self.map.first_from(from) {
            Some((key, _)) => Some(key),
            None => None,
        }
    }

    /// Returns the last key before a bound, or at it if that is included; `None` if there is none. It costs what
    /// `first_from` does.
    pub fn last_up_to(&self, to: Bound<&[u8]>) -> Option<&K>
        ensures { option_copied result ≡ last_of (between K.bytes Unbounded
            (bound_map (λ b. b.now) to.entry) self.now) }
    {
        match self.map.last_up_to(to) {
            Some((key, _)) => Some(key),
            None => None,
        }
    }
}
