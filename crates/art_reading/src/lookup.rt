//! Searches for a key, and for the key that is a prefix of a query.
ghost use Rattle.std.specs.Prelude.{◌≡◌, ◌+◌, ◌<◌, ◌^◌, length, IsSome};
ghost use Rattle.std.specs.Option.{option_map};
ghost use Rattle.art_model.specs.Pairs.{first_of, match_of, of_key, with_key};
ghost use Rattle.art_model.specs.Roots.{ForTree, IsCanonicalRoot};
ghost use Rattle.art_model.specs.Stores.{pair_of};
ghost use Rattle.art_reading.specs.Descents.{CountsVisits, asked_of};
ghost use Rattle.art_reading.specs.Found.{HasFound};

pub mod descent;
pub mod matching;
pub mod query;

use art_nodes::node::{AsBytes, LeafNode, OpaqueNodePtr, OptionalLeafPtr};
use art_nodes::store::NodeStore;
pub use descent::Visits;
use descent::walk_to_key;
pub use matching::{Asked, PrefixMatchBehavior};
pub use query::{EndedQuery, KeyBytes, KeyQuery, starts_with};

/// Returns the leaf of a key, or `None` if no stored key is equal to it.
///
/// It is a single descent: it reads at most one more node than the key has bytes. If the bytes of a prefix are not all
/// stored it skips the others, and compares the whole key at the leaf.
#[inline(always)]
pub fn search_unchecked<K: AsBytes + Drop, V: Drop, const P: usize>(
    store: &NodeStore<K, V, P>,
    root: OpaqueNodePtr,
    key_bytes: &[u8],
) -> OptionalLeafPtr
    requires { IsCanonicalRoot (of_key K.bytes) P store.now root }
    ensures { HasFound (of_key K.bytes) P store.now root
        (with_key (of_key K.bytes) key_bytes.now) result }
{
    search_visiting(store, root, key_bytes, &mut Visits::new())
}

/// Returns what `search_unchecked` does, and adds one to the counter for each node that it reads: at most
/// one more than the key has bytes.
#[inline(always)]
pub fn search_visiting<K: AsBytes + Drop, V: Drop, const P: usize>(
    store: &NodeStore<K, V, P>,
    root: OpaqueNodePtr,
    key_bytes: &[u8],
    visits: &mut Visits,
) -> OptionalLeafPtr
    requires root { IsCanonicalRoot (of_key K.bytes) P store.now root }
    requires room { visits.old + length key_bytes.now + 1 < 2 ^ 64 }
    ensures found { HasFound (of_key K.bytes) P store.now root
        (with_key (of_key K.bytes) key_bytes.now) result }
    ensures visits { CountsVisits (of_key K.bytes) P store.now root key_bytes.now
        visits.old visits.new (IsSome result) }
{
    find_leaf(store, root, key_bytes, Asked::Same, visits)
}

/// Returns the leaf whose key is a prefix of these bytes or equal to them, or `None` if there is none.
///
/// It descends as `search_unchecked` does, at the same cost.
#[inline(always)]
pub fn prefix_search_unchecked<K: AsBytes + Drop, V: Drop, const P: usize>(
    store: &NodeStore<K, V, P>,
    root: OpaqueNodePtr,
    key_bytes: &[u8],
) -> OptionalLeafPtr
    requires { IsCanonicalRoot (of_key K.bytes) P store.now root }
    ensures { HasFound (of_key K.bytes) P store.now root
        (match_of (of_key K.bytes) key_bytes.now) result }
{
    prefix_search_visiting(store, root, key_bytes, &mut Visits::new())
}

/// Returns what `prefix_search_unchecked` does, and counts as `search_visiting` does.
#[inline(always)]
pub fn prefix_search_visiting<K: AsBytes + Drop, V: Drop, const P: usize>(
    store: &NodeStore<K, V, P>,
    root: OpaqueNodePtr,
    key_bytes: &[u8],
    visits: &mut Visits,
) -> OptionalLeafPtr
    requires root { IsCanonicalRoot (of_key K.bytes) P store.now root }
    requires room { visits.old + length key_bytes.now + 1 < 2 ^ 64 }
    ensures found { HasFound (of_key K.bytes) P store.now root
        (match_of (of_key K.bytes) key_bytes.now) result }
    ensures visits { CountsVisits (of_key K.bytes) P store.now root key_bytes.now
        visits.old visits.new (IsSome result) }
{
    find_leaf(store, root, key_bytes, Asked::Front, visits)
}

/// Returns the leaf of the key that is asked for, or `None` if there is none. It descends as `search_unchecked` does,
/// at the same cost, and a caller need not read the leaf once more.
#[inline(always)]
pub fn find_unchecked<'a, Q: KeyQuery, K: AsBytes + Drop, V: Drop, const P: usize>(
    store: &'a NodeStore<K, V, P>,
    root: OpaqueNodePtr,
    query: Q,
    asked: Asked,
) -> Option<&'a LeafNode<K, V>>
    requires { IsCanonicalRoot (of_key K.bytes) P store.now root }
    ensures { ForTree (of_key K.bytes) P store.now root (λ pairs _.
        option_map (λ leaf. pair_of leaf.now) result ≡
        first_of (asked_of asked (of_key K.bytes) (Q.key query) pairs)) }
{
    query.fits();
    find_visiting(store, root, query, asked, &mut Visits::new())
}

/// Returns what `find_unchecked` does, and counts as `search_visiting` does. The lookups of maps call it.
#[inline(always)]
pub fn find_visiting<'a, Q: KeyQuery, K: AsBytes + Drop, V: Drop, const P: usize>(
    store: &'a NodeStore<K, V, P>,
    root: OpaqueNodePtr,
    query: Q,
    asked: Asked,
    visits: &mut Visits,
) -> Option<&'a LeafNode<K, V>>
    requires root { IsCanonicalRoot (of_key K.bytes) P store.now root }
    requires room { visits.old + length (Q.key query) + 1 < 2 ^ 64 }
    ensures leaf { ForTree (of_key K.bytes) P store.now root (λ pairs _.
        option_map (λ leaf. pair_of leaf.now) result ≡
        first_of (asked_of asked (of_key K.bytes) (Q.key query) pairs)) }
    ensures visits { CountsVisits (of_key K.bytes) P store.now root (Q.key query)
        visits.old visits.new (IsSome result) }
{
    let start = PrefixMatchBehavior::Pessimistic;
    let found = walk_to_key(store, root, query, asked, start, visits)?;
    Some(found.node)
}

/// Returns the leaf of the key, or `None` if no stored key is equal to it: what `search_unchecked` returns for its
/// bytes, at the same cost.
#[inline(always)]
pub fn search_for<Q: KeyQuery, K: AsBytes + Drop, V: Drop, const P: usize>(
    store: &NodeStore<K, V, P>,
    root: OpaqueNodePtr,
    query: Q,
) -> OptionalLeafPtr
    requires { IsCanonicalRoot (of_key K.bytes) P store.now root }
    ensures { HasFound (of_key K.bytes) P store.now root
        (with_key (of_key K.bytes) (Q.key query)) result }
{
    query.fits();
    find_leaf(store, root, query, Asked::Same, &mut Visits::new())
}

// The leaf that is asked for, or `None` if there is none; each reading of a node is counted.
#[inline(always)]
fn find_leaf<Q: KeyQuery, K: AsBytes + Drop, V: Drop, const P: usize>(
    store: &NodeStore<K, V, P>,
    root: OpaqueNodePtr,
    query: Q,
    asked: Asked,
    visits: &mut Visits,
) -> OptionalLeafPtr
    requires root { IsCanonicalRoot (of_key K.bytes) P store.now root }
    requires room { visits.old + length (Q.key query) + 1 < 2 ^ 64 }
    ensures found { HasFound (of_key K.bytes) P store.now root
        (asked_of asked (of_key K.bytes) (Q.key query)) result }
    ensures visits { CountsVisits (of_key K.bytes) P store.now root (Q.key query)
        visits.old visits.new (IsSome result) }
{
    let start = PrefixMatchBehavior::Pessimistic;
    let last = walk_to_key(store, root, query, asked, start, visits)?;
    Some(last.name)
}
