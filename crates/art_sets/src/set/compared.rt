//! Equality, order and hashes of sets: those of their keys, in the order of their bytes.
ghost use Rattle.std.specs.Hash as fed;
ghost use Rattle.std.specs.Hash.{items_Alike};
ghost use Rattle.std.specs.Cmp.Lexicographic.{lists_agrees, lists_equiv, lists_per, lists_po, lists_ties, lists_total, pointwise, slice_cmp, slice_partial_cmp};

use super::ByteSet;
use art_nodes::node::AsBytes;
use std::cmp::Ordering;
use std::hash::{Hash, Hasher};

impl<K: AsBytes + PartialEq + Drop, const P: usize> PartialEq for ByteSet<K, P> {
    ghost eq = { λ s t. pointwise K.eq s t };

    ghost laws = { lists_per K.PartialEq.laws };

    fn eq(&self, other: &Self) -> bool {
        self.map == other.map
    }
}

impl<K: AsBytes + Eq + Drop, const P: usize> Eq for ByteSet<K, P> {
    ghost laws = { lists_equiv K.Eq.laws };
}

impl<K: AsBytes + PartialOrd + Drop, const P: usize> PartialOrd for ByteSet<K, P> {
    ghost partial_cmp = { λ s t. slice_partial_cmp K.partial_cmp s t };

    ghost laws = { lists_po K.PartialOrd.laws };

    fn partial_cmp(&self, other: &Self) -> Option<Ordering> {
        self.map.partial_cmp(&other.map)
    }
}

impl<K: AsBytes + Ord + Drop, const P: usize> Ord for ByteSet<K, P> {
    ghost cmp = { λ s t. slice_cmp K.cmp s t };

    ghost total = { lists_total K.total };

    ghost matches_partial_cmp = { λ s t. lists_agrees K.matches_partial_cmp s t };

    ghost matches_eq = { λ s t. lists_ties K.cmp K.matches_eq s t };

    fn cmp(&self, other: &Self) -> Ordering {
        self.map.cmp(&other.map)
    }
}

impl<K: AsBytes + Hash + Drop, const P: usize> Hash for ByteSet<K, P> {
    ghost hash_input = { λ s. fed.slice K.hash_input s };

    ghost respects_eq = { (items_Alike (record { fed = K.respects_eq })).fed };

    fn hash<H: Hasher>(&self, state: &mut H) {
        self.map.hash(state);
    }
}
