//! Equality, order and hashes of sets, which are those of their keys in the order of their bytes.
ghost use Rattle.std.specs.Hash as fed;
ghost use Rattle.std.specs.Hash.{items_Alike};
ghost use Rattle.std.specs.Cmp.Lexicographic.{lists_agrees, lists_equiv, lists_per, lists_po, lists_ties, lists_total, pointwise, slice_cmp, slice_partial_cmp};

use super::TreeSet;
use art_keys::laws::NoPrefixesBytes;
use std::cmp::Ordering;
use std::hash::{Hash, Hasher};

impl<K: NoPrefixesBytes + PartialEq + Drop, const P: usize> PartialEq for TreeSet<K, P> {
    ghost eq = { λ s t. pointwise K.eq s t };

    ghost laws = { lists_per K.PartialEq.laws };

    fn eq(&self, other: &Self) -> bool {
        self.set.eq(&other.set)
    }
}

impl<K: NoPrefixesBytes + Eq + Drop, const P: usize> Eq for TreeSet<K, P> {
    ghost laws = { lists_equiv K.Eq.laws };
}

impl<K: NoPrefixesBytes + PartialOrd + Drop, const P: usize> PartialOrd for TreeSet<K, P> {
    ghost partial_cmp = { λ s t. slice_partial_cmp K.partial_cmp s t };

    ghost laws = { lists_po K.PartialOrd.laws };

    fn partial_cmp(&self, other: &Self) -> Option<Ordering> {
        self.set.partial_cmp(&other.set)
    }
}

impl<K: NoPrefixesBytes + Ord + Drop, const P: usize> Ord for TreeSet<K, P> {
    ghost cmp = { λ s t. slice_cmp K.cmp s t };

    ghost total = { lists_total K.total };

    ghost matches_partial_cmp = { λ s t. lists_agrees K.matches_partial_cmp s t };

    ghost matches_eq = { λ s t. lists_ties K.cmp K.matches_eq s t };

    fn cmp(&self, other: &Self) -> Ordering {
        self.set.cmp(&other.set)
    }
}

impl<K: NoPrefixesBytes + Hash + Drop, const P: usize> Hash for TreeSet<K, P> {
    ghost hash_input = { λ s. fed.slice K.hash_input s };

    ghost respects_eq = { (items_Alike (record { fed = K.respects_eq })).fed };

    fn hash<H: Hasher>(&self, state: &mut H) {
        self.set.hash(state);
    }
}
