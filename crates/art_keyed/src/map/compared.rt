//! Equality, order and hashes of maps, which are those of their pairs in the order of the keys' bytes.
ghost use Rattle.std.specs.Prelude.{◌&&◌, ◌++◌};
ghost use Rattle.std.specs.Hash as fed;
ghost use Rattle.std.specs.Ordering.{ordering_then, partial_ordering_then};
ghost use Rattle.std.specs.Cmp.Lexicographic.{lists_agrees, lists_equiv, lists_per, lists_po, lists_ties, lists_total, pointwise, slice_cmp, slice_partial_cmp};
ghost use Rattle.std.specs.Cmp.{and_equiv, and_per, both_tied, on_equiv, on_per, on_po, on_total, then_agrees, then_po, then_total};
ghost use Rattle.std.specs.Hash.{and-Alike, items_Alike, on_Alike};

use super::TreeMap;
use art_keys::laws::NoPrefixesBytes;
use std::cmp::Ordering;
use std::hash::{Hash, Hasher};

impl<K: NoPrefixesBytes + PartialEq + Drop, V: PartialEq + Drop, const P: usize> PartialEq
    for TreeMap<K, V, P> {
    ghost eq = { λ m n. pointwise (λ p q. K.eq p.0 q.0 && V.eq p.1 q.1) m n };

    ghost laws = { lists_per (and_per
        (on_per (λ p. p.0) K.PartialEq.laws) (on_per (λ p. p.1) V.laws)) };

    fn eq(&self, other: &Self) -> bool {
        self.map.eq(&other.map)
    }
}

impl<K: NoPrefixesBytes + Eq + Drop, V: Eq + Drop, const P: usize> Eq for TreeMap<K, V, P> {
    ghost laws = { lists_equiv (and_equiv
        (on_equiv (λ p. p.0) K.Eq.laws) (on_equiv (λ p. p.1) V.Eq.laws)) };
}

impl<K: NoPrefixesBytes + PartialOrd + Drop, V: PartialOrd + Drop, const P: usize> PartialOrd
    for TreeMap<K, V, P> {
    ghost partial_cmp = { λ m n. slice_partial_cmp (λ p q.
        partial_ordering_then (K.partial_cmp p.0 q.0) (V.partial_cmp p.1 q.1)) m n };

    ghost laws = { lists_po (then_po
        (on_po (λ p. p.0) K.PartialOrd.laws) (on_po (λ p. p.1) V.PartialOrd.laws)) };

    fn partial_cmp(&self, other: &Self) -> Option<Ordering> {
        self.map.partial_cmp(&other.map)
    }
}

impl<K: NoPrefixesBytes + Ord + Drop, V: Ord + Drop, const P: usize> Ord for TreeMap<K, V, P> {
    ghost cmp = { λ m n. slice_cmp (λ p q. ordering_then (K.cmp p.0 q.0) (V.cmp p.1 q.1)) m n };

    ghost total = { lists_total (then_total
        (on_total (λ p. p.0) K.total) (on_total (λ p. p.1) V.total)) };

    ghost matches_partial_cmp = { λ m n. lists_agrees (then_agrees
        (λ p q. K.matches_partial_cmp p.0 q.0) (λ p q. V.matches_partial_cmp p.1 q.1)) m n };

    ghost matches_eq = { λ m n.
        let of_keys = K.cmp in
        let of_values = V.cmp in
        lists_ties (λ p q. ordering_then (of_keys p.0 q.0) (of_values p.1 q.1))
        (λ p q. both_tied _ _ (of_keys p.0 q.0) (of_values p.1 q.1)
        (K.matches_eq p.0 q.0) (V.matches_eq p.1 q.1)) m n };

    fn cmp(&self, other: &Self) -> Ordering {
        self.map.cmp(&other.map)
    }
}

impl<K: NoPrefixesBytes + Hash + Drop, V: Hash + Drop, const P: usize> Hash for TreeMap<K, V, P> {
    ghost hash_input = { λ m. fed.slice (λ p. K.hash_input p.0 ++ V.hash_input p.1) m };

    ghost respects_eq = { (items_Alike (and-Alike
        (on_Alike (λ p. p.0) (record { fed = K.respects_eq }))
        (on_Alike (λ p. p.1) (record { fed = V.respects_eq })))).fed };

    fn hash<H: Hasher>(&self, state: &mut H) {
        self.map.hash(state);
    }
}
