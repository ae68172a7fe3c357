//! Union, intersection and difference of two sets. All iterators are in the order of the keys' bytes.
ghost use Rattle.std.specs.Prelude.{◌≡◌, List, length, drop, IfSome, IsSome, ⊤, Bool};
ghost use Rattle.std.specs.Iterator.{UpTo, at_most};
ghost use Rattle.std.specs.Iterator.SizeHint.{IsWithinCount};
ghost use Rattle.std.specs.Set.{sorted_merge};
ghost use Rattle.art_model.specs.Pairs.{has_key};
ghost use Rattle.art_iterating.specs.MapItems.{ShowsFirst};
ghost use Rattle.art_sets.specs.SetAlgebra.{IsSum, byte_order, difference, intersection, is_disjoint, is_subset, selected, symmetric_difference, union};

use super::ByteSet;
use art_map::map::{KeysOf, Leaves};
use art_nodes::node::AsBytes;
use art_nodes::store::NodeStore;
use std::alloc::AllocError;
use std::cmp::Ordering;
use std::iter::FusedIterator;
use std::marker::Model;

impl<K: AsBytes + Drop, const P: usize> ByteSet<K, P> {
    /// Returns an iterator over the keys that the other set also has, in ascending order. It looks up each key in the
    /// other set, so that it costs least if called on the smaller one.
    pub fn intersection<'a>(&'a self, other: &'a ByteSet<K, P>) -> Intersection<'a, K, P>
        ensures { result ≡ intersection K.bytes self.now other.now }
    {
        SelectedOf {
            keys: self.iter(),
            other,
            wanted: true,
        }
    }

    /// Returns an iterator over the keys that the other set lacks, in ascending order. It looks up each key in the
    /// other set.
    pub fn difference<'a>(&'a self, other: &'a ByteSet<K, P>) -> Difference<'a, K, P>
        ensures { result ≡ difference K.bytes self.now other.now }
    {
        SelectedOf {
            keys: self.iter(),
            other,
            wanted: false,
        }
    }

    /// Returns an iterator over the keys of both sets, in ascending order; of two equal keys it returns this set's. It
    /// iterates over both sets, without lookups.
    pub fn union<'a>(&'a self, other: &'a ByteSet<K, P>) -> Union<'a, K, P>
        ensures { result ≡ union K.bytes self.now other.now }
    {
        MergedOf {
            left: PeekedOf::new(self.iter()),
            right: PeekedOf::new(other.iter()),
            keeps_equal: true,
        }
    }

    /// Returns an iterator over the keys that exactly one of the sets has, in ascending order. It iterates over both
    /// sets, without lookups.
    pub fn symmetric_difference<'a>(
        &'a self,
        other: &'a ByteSet<K, P>,
    ) -> SymmetricDifference<'a, K, P>
        ensures { result ≡ symmetric_difference K.bytes self.now other.now }
    {
        MergedOf {
            left: PeekedOf::new(self.iter()),
            right: PeekedOf::new(other.iter()),
            keeps_equal: false,
        }
    }

    /// Returns whether the other set has each key of this one. It looks up keys in the other set until one is missing.
    pub fn is_subset(&self, other: &ByteSet<K, P>) -> bool
        ensures { result ≡ is_subset K.bytes self.now other.now }
    {
        let mut lacking = self.difference(other);
        lacking.next().is_none()
    }

    /// Returns whether this set has each key of the other one. It looks up keys of the other set in this one until one
    /// is missing.
    pub fn is_superset(&self, other: &ByteSet<K, P>) -> bool
        ensures { result ≡ is_subset K.bytes other.now self.now }
    {
        other.is_subset(self)
    }

    /// Returns whether the sets have no key in common. It looks up keys of this set in the other one until one is
    /// found.
    pub fn is_disjoint(&self, other: &ByteSet<K, P>) -> bool
        ensures { result ≡ is_disjoint K.bytes self.now other.now }
    {
        let mut shared = self.intersection(other);
        shared.next().is_none()
    }
}

/// A set in which keys are looked up.
pub trait HasKey<K> {
    ghost has: { Self → K → Bool };

    /// Returns whether a key with the same bytes as this one is stored.
    fn has(&self, key: &K) -> bool
        ensures { result ≡ has self.now key.now };
}

impl<K: AsBytes + Drop, const P: usize> HasKey<K> for ByteSet<K, P> {
    ghost has = { λ set key. has_key K.bytes (K.bytes key) set };

    fn has(&self, key: &K) -> bool {
        self.contains(key.as_bytes())
    }
}

/// An iterator over the keys of a set that another set has, or over those that it lacks. Contracts see it as the list
/// of the keys that are left.
#[derive(Drop)]
pub struct SelectedOf<'a, K, S: Leaves<K, ()>, O: HasKey<K>> {
    keys: KeysOf<'a, K, (), S>,
    other: &'a O,
    wanted: bool,
}

/// The keys of a set that another set also has.
pub type Intersection<'a, K, const P: usize> = SelectedOf<
    'a,
    K,
    NodeStore<K, (), P>,
    ByteSet<K, P>,
>;

/// The keys of a set that another set lacks.
pub type Difference<'a, K, const P: usize> = SelectedOf<'a, K, NodeStore<K, (), P>, ByteSet<K, P>>;

impl<'a, K, S: Leaves<K, ()>, O: HasKey<K>> Model for SelectedOf<'a, K, S, O> {
    ghost use Rattle.std.specs.Prelude.{List};
    ghost use Rattle.std.specs.Coded.{coded_list};

    ghost Value = { List K };

    ghost coded = { coded_list K.code };

    ghost use Rattle.art_sets.specs.SetAlgebra.{selected};

    ghost view = { λ m. selected (O.has m.other.now) m.wanted m.keys };
}

impl<'a, K, S: Leaves<K, ()>, O: HasKey<K>> Clone for SelectedOf<'a, K, S, O> {
    ghost is_clone = { λ iterator copy. copy ≡ iterator };

    ghost is_infallible = { λ iterator. ⊤ };

    fn clone(&self) -> Result<Self, AllocError> {
        Ok(SelectedOf {
            keys: self.keys.clone()?,
            other: self.other,
            wanted: self.wanted,
        })
    }
}

impl<'a, K, S: Leaves<K, ()>, O: HasKey<K>> Iterator for SelectedOf<'a, K, S, O> {
    type Item = &'a K;

    ghost next_gives = { ShowsFirst };

    ghost remaining = { λ s. at_most (length s) };

    fn next(&mut self) -> Option<&'a K> {
        next_selected(&mut self.keys, self.other, self.wanted)
    }

    fn size_hint(&self) -> (usize, Option<usize>)
        ensures lower { IsWithinCount result.0 (at_most (length self.now)) }
        ensures upper { IfSome result.1 (UpTo (at_most (length self.now))) }
        ensures bounded { IsSome result.1 }
    {
        (0, Some(self.keys.len()))
    }
}

impl<'a, K, S: Leaves<K, ()>, O: HasKey<K>> FusedIterator for SelectedOf<'a, K, S, O> {}

// The next key that is wanted.
fn next_selected<'a, K, S: Leaves<K, ()>, O: HasKey<K>>(
    keys: &mut KeysOf<'a, K, (), S>,
    other: &O,
    wanted: bool,
) -> Option<&'a K>
    ensures { ShowsFirst (selected (O.has other.now) wanted keys.old) result
        (selected (O.has other.now) wanted keys.new) }
{
    while let Some(key) = keys.next() {
        if other.has(key) == wanted {
            return Some(key);
        }
    }
    None
}

// The keys of a set, with a look at the next one.
#[derive(Drop)]
struct PeekedOf<'a, K, S: Leaves<K, ()>> {
    head: Option<&'a K>,
    rest: KeysOf<'a, K, (), S>,
}

impl<'a, K, S: Leaves<K, ()>> Model for PeekedOf<'a, K, S> {
    ghost use Rattle.std.specs.Prelude.{◌≡◌, List, [], IfNone};
    ghost use Rattle.std.specs.Coded.{coded_list};
    ghost use Rattle.std.specs.Option.{option_copied};
    ghost use Rattle.std.specs.List.{cons_option};

    ghost Value = { List K };

    ghost coded = { coded_list K.code };

    ghost view = { λ m. cons_option (option_copied m.head) m.rest };

    ghost invariant = { λ m. IfNone m.head (m.rest ≡ []) };
}

impl<'a, K, S: Leaves<K, ()>> Clone for PeekedOf<'a, K, S> {
    ghost is_clone = { λ keys copy. copy ≡ keys };

    ghost is_infallible = { λ keys. ⊤ };

    fn clone(&self) -> Result<Self, AllocError> {
        Ok(PeekedOf {
            head: self.head,
            rest: self.rest.clone()?,
        })
    }
}

impl<'a, K, S: Leaves<K, ()>> PeekedOf<'a, K, S> {
    fn new(rest: KeysOf<'a, K, (), S>) -> Self
        ensures { result ≡ rest.entry }
    {
        let mut rest = rest;
        let head = rest.next();
        PeekedOf { head, rest }
    }

    // Returns how many keys are left, if that fits a `usize`.
    fn count(&self) -> Option<usize>
        ensures { IfSome result (λ count. count ≡ length self.now) }
    {
        match self.head {
            Some(_) => self.rest.len().checked_add(1),
            None => Some(self.rest.len()),
        }
    }

    fn peek(&self) -> Option<&'a K>
        ensures { ShowsFirst self.now result (drop 1 self.now) }
    {
        self.head
    }

    fn advance(&mut self)
        ensures { self.new ≡ drop 1 self.old }
    {
        self.head = self.rest.next();
    }

    fn next(&mut self) -> Option<&'a K>
        ensures { ShowsFirst self.old result self.new }
    {
        let head = self.peek();
        self.advance();
        head
    }
}

/// An iterator over the keys of two sets, merged by their bytes. Of two equal keys it returns the first set's, or
/// neither. Contracts see it as the list of the keys that are left.
#[derive(Drop)]
pub struct MergedOf<'a, K: AsBytes, S: Leaves<K, ()>> {
    left: PeekedOf<'a, K, S>,
    right: PeekedOf<'a, K, S>,
    keeps_equal: bool,
}

/// The keys of either of two sets.
pub type Union<'a, K, const P: usize> = MergedOf<'a, K, NodeStore<K, (), P>>;

/// The keys that exactly one of two sets has.
pub type SymmetricDifference<'a, K, const P: usize> = MergedOf<'a, K, NodeStore<K, (), P>>;

impl<'a, K: AsBytes, S: Leaves<K, ()>> Model for MergedOf<'a, K, S> {
    ghost use Rattle.std.specs.Prelude.{List};
    ghost use Rattle.std.specs.Coded.{coded_list};
    ghost use Rattle.std.specs.Set.{sorted_merge};

    ghost Value = { List K };

    ghost coded = { coded_list K.code };

    ghost use Rattle.art_sets.specs.SetAlgebra.{byte_order};

    ghost view = { λ m. sorted_merge (byte_order K.bytes) m.keeps_equal m.left m.right };
}

impl<'a, K: AsBytes, S: Leaves<K, ()>> Clone for MergedOf<'a, K, S> {
    ghost is_clone = { λ iterator copy. copy ≡ iterator };

    ghost is_infallible = { λ iterator. ⊤ };

    fn clone(&self) -> Result<Self, AllocError> {
        Ok(MergedOf {
            left: self.left.clone()?,
            right: self.right.clone()?,
            keeps_equal: self.keeps_equal,
        })
    }
}

impl<'a, K: AsBytes, S: Leaves<K, ()>> Iterator for MergedOf<'a, K, S> {
    type Item = &'a K;

    ghost next_gives = { ShowsFirst };

    ghost remaining = { λ s. at_most (length s) };

    fn next(&mut self) -> Option<&'a K> {
        next_merged(&mut self.left, &mut self.right, self.keeps_equal)
    }

    fn size_hint(&self) -> (usize, Option<usize>) {
        (0, sum(self.left.count(), self.right.count()))
    }
}

impl<'a, K: AsBytes, S: Leaves<K, ()>> FusedIterator for MergedOf<'a, K, S> {}

// Returns the sum of two numbers, if both exist and it fits.
fn sum(a: Option<usize>, b: Option<usize>) -> Option<usize>
    ensures { IfSome result (IsSum a b) }
{
    let (Some(a), Some(b)) = (a, b) else {
        return None;
    };
    a.checked_add(b)
}

// The lesser of the two next keys. If they are equal, the one of the first iterator, or a key after both.
fn next_merged<'a, K: AsBytes, S: Leaves<K, ()>>(
    left: &mut PeekedOf<'a, K, S>,
    right: &mut PeekedOf<'a, K, S>,
    keeps_equal: bool,
) -> Option<&'a K>
    ensures { ShowsFirst (sorted_merge (byte_order K.bytes) keeps_equal left.old right.old) result
        (sorted_merge (byte_order K.bytes) keeps_equal left.new right.new) }
{
    loop {
        let Some(x) = left.peek() else {
            return right.next();
        };
        let Some(y) = right.peek() else {
            return left.next();
        };
        match x.as_bytes().cmp(y.as_bytes()) {
            Ordering::Less => {
                left.advance();
                return Some(x);
            }
            Ordering::Equal => {
                left.advance();
                right.advance();
                if keeps_equal {
                    return Some(x);
                }
            }
            Ordering::Greater => {
                right.advance();
                return Some(y);
            }
        }
    }
}
