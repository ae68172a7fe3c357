//! Intersection, difference and union of two sets, and comparisons of their keys.
ghost use Rattle.std.specs.Prelude.{◌≡◌};
ghost use Rattle.art_sets.specs.SetAlgebra.{difference, intersection, is_disjoint, is_subset, symmetric_difference, union};

use super::TreeSet;
use art_keys::laws::NoPrefixesBytes;
use art_sets::set::{Difference, Intersection, SymmetricDifference, Union};

impl<K: NoPrefixesBytes + Drop, const P: usize> TreeSet<K, P> {
    /// Returns an iterator over the keys that the other set has too, in ascending order. Each key is looked up in the
    /// other set.
    pub fn intersection<'a>(&'a self, other: &'a TreeSet<K, P>) -> Intersection<'a, K, P>
        ensures { result ≡ intersection K.bytes self.now other.now }
    {
        self.set.intersection(&other.set)
    }

    /// Returns an iterator over the keys that the other set lacks, in ascending order. Each key is looked up in the
    /// other set.
    pub fn difference<'a>(&'a self, other: &'a TreeSet<K, P>) -> Difference<'a, K, P>
        ensures { result ≡ difference K.bytes self.now other.now }
    {
        self.set.difference(&other.set)
    }

    /// Returns an iterator over the keys of both sets, in ascending order; of two equal keys it returns this set's. It
    /// iterates over both sets, and looks up no key.
    pub fn union<'a>(&'a self, other: &'a TreeSet<K, P>) -> Union<'a, K, P>
        ensures { result ≡ union K.bytes self.now other.now }
    {
        self.set.union(&other.set)
    }

    /// Returns an iterator over the keys that exactly one of the sets has, in ascending order. It iterates over both
    /// sets, and looks up no key.
    pub fn symmetric_difference<'a>(
        &'a self,
        other: &'a TreeSet<K, P>,
    ) -> SymmetricDifference<'a, K, P>
        ensures { result ≡ symmetric_difference K.bytes self.now other.now }
    {
        self.set.symmetric_difference(&other.set)
    }

    /// Returns whether the other set has each key of this one. It looks up keys in the other set until one is missing.
    pub fn is_subset(&self, other: &TreeSet<K, P>) -> bool
        ensures { result ≡ is_subset K.bytes self.now other.now }
    {
        self.set.is_subset(&other.set)
    }

    /// Returns whether this set has each key of the other one. It looks up keys of the other set in this one until one
    /// is missing.
    pub fn is_superset(&self, other: &TreeSet<K, P>) -> bool
        ensures { result ≡ is_subset K.bytes other.now self.now }
    {
        self.set.is_superset(&other.set)
    }

    /// Returns whether the other set has no key of this one. It looks up keys in the other set until one is found.
    pub fn is_disjoint(&self, other: &TreeSet<K, P>) -> bool
        ensures { result ≡ is_disjoint K.bytes self.now other.now }
    {
        self.set.is_disjoint(&other.set)
    }
}
