//! Iteration over leaves, from either end of a part of their linked list.
ghost use Rattle.std.specs.Prelude.{◌≡◌, ◌≢◌, List, None, Some, IsSome, IfSome};
ghost use Rattle.std.specs.FinMap as map;
ghost use Rattle.std.specs.Option.{option_map};
ghost use Rattle.art_parts.specs.Names.{leaf_name};
ghost use Rattle.art_parts.specs.declared.names.OpaqueNodePtr.{OpaqueNodePtr};
ghost use Rattle.art_model.specs.Pairs.{first_of, last_of, without_first, without_last};
ghost use Rattle.art_reading.specs.Iterators.{IsIteratorOf, TakesEnd};

use crate::lookup::descent::End;
use art_nodes::node::{AsBytes, LeafNode, LeafPtr, OptionalLeafPtr};
use art_nodes::store::NodeStore;
use std::marker::Model;

/// An iterator over linked leaves, from a first to a last one. It returns each of them once, from either end.
///
/// It holds only names, so that the store can change between its calls: returned leaves may be freed, and the others
/// must stay in the store with their links.
#[derive(Clone, Copy, PartialEq, Eq, Debug)]
pub struct RawIterator {
    // The first and the last leaf that are left.
    ends: Option<(LeafPtr, LeafPtr)>,
}

impl Model for RawIterator {
    ghost use Rattle.std.specs.Prelude.{Option};
    ghost use Rattle.art_parts.specs.declared.names.LeafPtr.{LeafPtr};

    ghost Value = { Option (LeafPtr × LeafPtr) };

    ghost view = { λ iterator. iterator.ends };

    ghost inverse = { λ ends. record { ends = ends } };
}

impl RawIterator {
    /// Returns an iterator over the leaves from `start` to `end`, which are linked one to the next.
    pub fn new<K: AsBytes + Drop, V: Drop, const P: usize>(
        _store: &NodeStore<K, V, P>,
        start: LeafPtr,
        end: LeafPtr,
    ) -> Self
        requires { (names : List OpaqueNodePtr) ×
            IsIteratorOf _store.now (Some (start, end)) names }
        ensures { result ≡ Some (start, end) }
    {
        RawIterator {
            ends: Some((start, end)),
        }
    }

    /// Returns an iterator over no leaves.
    pub fn empty() -> Self
        ensures { result ≡ None }
    {
        RawIterator { ends: None }
    }

    /// Returns the name of the first leaf that is left, or `None`. Its link is read before, so that the leaf may be
    /// freed at once.
    pub fn next<K: AsBytes + Drop, V: Drop, const P: usize>(
        &mut self,
        store: &NodeStore<K, V, P>,
    ) -> OptionalLeafPtr
        requires { (names : List OpaqueNodePtr) × IsIteratorOf store.now self.old names }
        ensures leaf { (names : List OpaqueNodePtr) → IsIteratorOf store.now self.old names →
            option_map leaf_name result ≡ first_of names }
        ensures there { IfSome result (λ leaf. IsSome (map.get store.now.leaves leaf)) }
        ensures rest { (names : List OpaqueNodePtr) → IsIteratorOf store.now self.old names →
            IsIteratorOf store.now self.new (without_first names) }
    {
        let (taken, _) = self.take_end(store, End::First)?;
        Some(taken)
    }

    /// Returns the name of the last leaf that is left, or `None`. Its link is read before, so that the leaf may be
    /// freed at once.
    pub fn next_back<K: AsBytes + Drop, V: Drop, const P: usize>(
        &mut self,
        store: &NodeStore<K, V, P>,
    ) -> OptionalLeafPtr
        requires { (names : List OpaqueNodePtr) × IsIteratorOf store.now self.old names }
        ensures leaf { (names : List OpaqueNodePtr) → IsIteratorOf store.now self.old names →
            option_map leaf_name result ≡ last_of names }
        ensures there { IfSome result (λ leaf. IsSome (map.get store.now.leaves leaf)) }
        ensures rest { (names : List OpaqueNodePtr) → IsIteratorOf store.now self.old names →
            IsIteratorOf store.now self.new (without_last names) }
    {
        let (taken, _) = self.take_end(store, End::Last)?;
        Some(taken)
    }

    /// Returns the name of the first leaf that is left, as `next` does, and the leaf itself, which is read once.
    #[inline(always)]
    pub fn next_leaf<'s, K: AsBytes + Drop, V: Drop, const P: usize>(
        &mut self,
        store: &'s NodeStore<K, V, P>,
    ) -> Option<(LeafPtr, &'s LeafNode<K, V>)>
        requires { (names : List OpaqueNodePtr) × IsIteratorOf store.now self.old names }
        ensures name { (names : List OpaqueNodePtr) → IsIteratorOf store.now self.old names →
            option_map (λ found. leaf_name found.0) result ≡ first_of names }
        ensures leaf { IfSome result (λ found.
            map.get store.now.leaves found.0 ≡ Some found.1.now) }
        ensures rest { (names : List OpaqueNodePtr) → IsIteratorOf store.now self.old names →
            IsIteratorOf store.now self.new (without_first names) }
    {
        self.take_end(store, End::First)
    }

    /// Returns the name of the last leaf that is left, as `next_back` does, and the leaf itself, which is read once.
    #[inline(always)]
    pub fn next_back_leaf<'s, K: AsBytes + Drop, V: Drop, const P: usize>(
        &mut self,
        store: &'s NodeStore<K, V, P>,
    ) -> Option<(LeafPtr, &'s LeafNode<K, V>)>
        requires { (names : List OpaqueNodePtr) × IsIteratorOf store.now self.old names }
        ensures name { (names : List OpaqueNodePtr) → IsIteratorOf store.now self.old names →
            option_map (λ found. leaf_name found.0) result ≡ last_of names }
        ensures leaf { IfSome result (λ found.
            map.get store.now.leaves found.0 ≡ Some found.1.now) }
        ensures rest { (names : List OpaqueNodePtr) → IsIteratorOf store.now self.old names →
            IsIteratorOf store.now self.new (without_last names) }
    {
        self.take_end(store, End::Last)
    }

    // Removes the leaf at an end from those that are left, and reads it once.
    #[inline(always)]
    fn take_end<'s, K: AsBytes + Drop, V: Drop, const P: usize>(
        &mut self,
        store: &'s NodeStore<K, V, P>,
        end: End,
    ) -> Option<(LeafPtr, &'s LeafNode<K, V>)>
        requires { (names : List OpaqueNodePtr) × IsIteratorOf store.now self.old names }
        ensures taken { (names : List OpaqueNodePtr) → IsIteratorOf store.now self.old names →
            TakesEnd end store.now names (option_map (λ found. found.0) result) self.new }
        ensures leaf { IfSome result (λ found.
            map.get store.now.leaves found.0 ≡ Some found.1.now) }
    {
        let (first, last) = self.ends?;
        let taken = end.of((first, last));
        let leaf = store.leaf_at(taken);
        if first == last {
            self.ends = None;
            return Some((taken, leaf));
        }
        let linked = end.of((leaf.next, leaf.previous)).unwrap();
        let next = foreseen(end, taken, linked);
        self.ends = Some(end.of(((next, last), (first, next))));
        Some((taken, leaf))
    }
}

// The leaf that another one is linked to, from this end. If it is in the next slot, its name is computed from the
// other's, so that a processor which predicts this reads it before the link has arrived.
#[inline(always)]
fn foreseen(end: End, taken: LeafPtr, linked: LeafPtr) -> LeafPtr
    requires { linked ≢ taken }
    ensures { result ≡ linked }
{
    let (slot, next) = (taken.slot, linked.slot);
    let apart = end.of((next.wrapping_sub(slot), slot.wrapping_sub(next)));
    match apart {
        1 => LeafPtr {
            slot: end.of((slot.wrapping_add(1), slot.wrapping_sub(1))),
        },
        // Without this arm a compiler sees that the link is returned in any case, and waits for it.
        0 => unreachable!(),
        _ => linked,
    }
}
