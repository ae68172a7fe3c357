//! Equality, order and hashes of maps: those of their pairs, in the order of the keys' bytes.
ghost use Rattle.std.specs.Prelude.{◌≡◌, ◌&&◌, ◌++◌};
ghost use Rattle.std.specs.Hash as fed;
ghost use Rattle.std.specs.List.{fold};
ghost use Rattle.std.specs.Ordering.{ordering_then, partial_ordering_then};
ghost use Rattle.std.specs.Cmp.Lexicographic.{lists_agrees, lists_equiv, lists_per, lists_po, lists_ties, lists_total, pointwise, slice_cmp, slice_partial_cmp};
ghost use Rattle.std.specs.Cmp.{and_equiv, and_per, both_tied, on_equiv, on_per, on_po, on_total, then_agrees, then_po, then_total};
ghost use Rattle.std.specs.Hash.{and-Alike, items_Alike, on_Alike};

use super::{ByteMap, Leaves, MapIterOf};
use art_nodes::node::AsBytes;
use std::cmp::Ordering;
use std::hash::{Hash, Hasher};

impl<K: AsBytes + PartialEq + Drop, V: PartialEq + Drop, const P: usize> PartialEq
    for ByteMap<K, V, P> {
    ghost eq = { λ m n. pointwise (λ p q. K.eq p.0 q.0 && V.eq p.1 q.1) m n };

    ghost laws = { lists_per (and_per
        (on_per (λ p. p.0) K.PartialEq.laws) (on_per (λ p. p.1) V.laws)) };

    fn eq(&self, other: &Self) -> bool {
        same_pairs(self.iter(), other.iter())
    }
}

impl<K: AsBytes + Eq + Drop, V: Eq + Drop, const P: usize> Eq for ByteMap<K, V, P> {
    ghost laws = { lists_equiv (and_equiv
        (on_equiv (λ p. p.0) K.Eq.laws) (on_equiv (λ p. p.1) V.Eq.laws)) };
}

impl<K: AsBytes + PartialOrd + Drop, V: PartialOrd + Drop, const P: usize> PartialOrd
    for ByteMap<K, V, P> {
    ghost partial_cmp = { λ m n. slice_partial_cmp (λ p q.
        partial_ordering_then (K.partial_cmp p.0 q.0) (V.partial_cmp p.1 q.1)) m n };

    ghost laws = { lists_po (then_po
        (on_po (λ p. p.0) K.PartialOrd.laws) (on_po (λ p. p.1) V.PartialOrd.laws)) };

    fn partial_cmp(&self, other: &Self) -> Option<Ordering> {
        partial_order_of(self.iter(), other.iter())
    }
}

impl<K: AsBytes + Ord + Drop, V: Ord + Drop, const P: usize> Ord for ByteMap<K, V, P> {
    ghost cmp = { λ m n. slice_cmp (λ p q. ordering_then (K.cmp p.0 q.0) (V.cmp p.1 q.1)) m n };

    ghost total = { lists_total (then_total
        (on_total (λ p. p.0) K.total) (on_total (λ p. p.1) V.total)) };

    ghost matches_partial_cmp = { λ m n. lists_agrees (then_agrees
        (λ p q. K.matches_partial_cmp p.0 q.0) (λ p q. V.matches_partial_cmp p.1 q.1)) m n };

    ghost matches_eq = { λ m n.
        let of_keys = K.cmp in
        let of_values = V.cmp in
        lists_ties (λ p q. ordering_then (of_keys p.0 q.0) (of_values p.1 q.1))
        (λ p q. both_tied _ _ (of_keys p.0 q.0) (of_values p.1 q.1)
        (K.matches_eq p.0 q.0) (V.matches_eq p.1 q.1)) m n };

    fn cmp(&self, other: &Self) -> Ordering {
        order_of(self.iter(), other.iter())
    }
}

impl<K: AsBytes + Hash + Drop, V: Hash + Drop, const P: usize> Hash for ByteMap<K, V, P> {
    ghost hash_input = { λ m. fed.slice (λ p. K.hash_input p.0 ++ V.hash_input p.1) m };

    ghost respects_eq = { (items_Alike (and-Alike
        (on_Alike (λ p. p.0) (record { fed = K.respects_eq }))
        (on_Alike (λ p. p.1) (record { fed = V.respects_eq })))).fed };

    fn hash<H: Hasher>(&self, state: &mut H) {
        feed_pairs(self.iter(), state);
    }
}

fn same_pair<K: PartialEq, V: PartialEq>(a: &K, x: &V, b: &K, y: &V) -> bool
    ensures { result ≡ (K.eq a.now b.now && V.eq x.now y.now) }
{
    a.eq(b) && x.eq(y)
}

// Returns whether both have equally many pairs left, each equal to the other's at the same position.
fn same_pairs<K: PartialEq, V: PartialEq, S: Leaves<K, V>>(
    left: MapIterOf<'_, K, V, S>,
    right: MapIterOf<'_, K, V, S>,
) -> bool
    ensures { result ≡ pointwise (λ p q. K.eq p.0 q.0 && V.eq p.1 q.1) left.entry right.entry }
{
    if left.len() != right.len() {
        return false;
    }
    let mut left = left;
    let mut right = right;
    while let Some((a, x)) = left.next() {
        let (b, y) = right.next().unwrap();
        if !same_pair(a, x, b, y) {
            return false;
        }
    }
    true
}

fn partial_order_of_pair<K: PartialOrd, V: PartialOrd>(
    a: &K,
    x: &V,
    b: &K,
    y: &V,
) -> Option<Ordering>
    ensures { result ≡
        partial_ordering_then (K.partial_cmp a.now b.now) (V.partial_cmp x.now y.now) }
{
    match a.partial_cmp(b) {
        Some(Ordering::Equal) => x.partial_cmp(y),
        other => other,
    }
}

// The order of two iterators: that of the first two pairs that differ. If none do, a shorter one is less.
fn partial_order_of<K: PartialOrd, V: PartialOrd, S: Leaves<K, V>>(
    left: MapIterOf<'_, K, V, S>,
    right: MapIterOf<'_, K, V, S>,
) -> Option<Ordering>
    ensures { result ≡ slice_partial_cmp (λ p q. partial_ordering_then
        (K.partial_cmp p.0 q.0) (V.partial_cmp p.1 q.1)) left.entry right.entry }
{
    let mut left = left;
    let mut right = right;
    while let Some((a, x)) = left.next() {
        let Some((b, y)) = right.next() else {
            return Some(Ordering::Greater);
        };
        match partial_order_of_pair(a, x, b, y) {
            Some(Ordering::Equal) => {}
            other => return other,
        }
    }
    match right.next() {
        Some(_) => Some(Ordering::Less),
        None => Some(Ordering::Equal),
    }
}

fn order_of_pair<K: Ord, V: Ord>(a: &K, x: &V, b: &K, y: &V) -> Ordering
    ensures { result ≡ ordering_then (K.cmp a.now b.now) (V.cmp x.now y.now) }
{
    match a.cmp(b) {
        Ordering::Equal => x.cmp(y),
        other => other,
    }
}

// The same, if any two pairs can be compared.
fn order_of<K: Ord, V: Ord, S: Leaves<K, V>>(
    left: MapIterOf<'_, K, V, S>,
    right: MapIterOf<'_, K, V, S>,
) -> Ordering
    ensures { result ≡ slice_cmp (λ p q.
        ordering_then (K.cmp p.0 q.0) (V.cmp p.1 q.1)) left.entry right.entry }
{
    let mut left = left;
    let mut right = right;
    while let Some((a, x)) = left.next() {
        let Some((b, y)) = right.next() else {
            return Ordering::Greater;
        };
        match order_of_pair(a, x, b, y) {
            Ordering::Equal => {}
            other => return other,
        }
    }
    match right.next() {
        Some(_) => Ordering::Less,
        None => Ordering::Equal,
    }
}

// Hashes the number of pairs, and then each key with its value.
fn feed_pairs<K: Hash, V: Hash, S: Leaves<K, V>, H: Hasher>(
    pairs: MapIterOf<'_, K, V, S>,
    state: &mut H,
)
    ensures { state.new ≡ fold H.write state.old
        (fed.slice (λ p. K.hash_input p.0 ++ V.hash_input p.1) pairs.entry) }
{
    let mut rest = pairs;
    rest.len().hash(state);
    while let Some((key, value)) = rest.next() {
        key.hash(state);
        value.hash(state);
    }
}
