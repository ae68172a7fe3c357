//! Searches.
ghost use Rattle.std.specs.Prelude.{◌<◌};
ghost use Rattle.art_model.specs.Pairs.{of_key};
ghost use Rattle.art_model.specs.Roots.{IsCanonicalRoot};

use art_nodes::node::{FromHeader, Header, InnerNode, InnerNode4, LeafNode, OpaqueNodePtr};
use art_nodes::store::NodeStore;
use art_operations::lookup::{
    PrefixMatchBehavior, Visits, prefix_search_visiting, search_visiting,
};
use art_operations::range::{
    first_from_visiting, last_up_to_visiting, prefix_visiting, range_visiting,
};
use art_test_support::expected::same;
use art_test_support::trees::{Key, child, keys_of_zeros, planted_all, planted_keys, value_of};
use std::alloc::Global;
use std::ops::Bound;
use std::test::Fail;
use uses::{get, longest_match};

// A search or a prefix search for a key.
#[derive(Clone, Copy)]
enum Search<'a> {
    Whole(&'a [u8]),
    Prefix(&'a [u8]),
}

// The value of the leaf that a search finds.
fn found<const P: usize>(
    store: &NodeStore<Key, u32, P>,
    root: OpaqueNodePtr,
    search: Search<'_>,
) -> Option<u32>
    requires { IsCanonicalRoot (of_key (λ key. key.items)) P store.now root }
{
    match search {
        Search::Whole(key_bytes) => get(store, root, key_bytes).copied(),
        Search::Prefix(key_bytes) => Some(*longest_match(store, root, key_bytes)?.1),
    }
}

// The same, and how many nodes the search reads.
fn reading<const P: usize>(
    store: &NodeStore<Key, u32, P>,
    root: OpaqueNodePtr,
    search: Search<'_>,
) -> (Option<u32>, usize)
    requires { IsCanonicalRoot (of_key (λ key. key.items)) P store.now root }
{
    let mut visits = Visits::new();
    let leaf = match search {
        Search::Whole(key_bytes) => search_visiting(store, root, key_bytes, &mut visits),
        Search::Prefix(key_bytes) => prefix_search_visiting(store, root, key_bytes, &mut visits),
    };
    (leaf.and_then(|leaf| value_of(store, leaf)), visits.count())
}

// The same of five searches.
fn readings<const P: usize>(
    store: &NodeStore<Key, u32, P>,
    root: OpaqueNodePtr,
    searches: &[Search<'_>; 5],
) -> [(Option<u32>, usize); 5]
    requires { IsCanonicalRoot (of_key (λ key. key.items)) P store.now root }
{
    [
        reading(store, root, searches[0]),
        reading(store, root, searches[1]),
        reading(store, root, searches[2]),
        reading(store, root, searches[3]),
        reading(store, root, searches[4]),
    ]
}

// The same of the tree of keys of zeros.
fn readings_in<const P: usize>(
    store: &mut NodeStore<Key, u32, P>,
    searches: &[Search<'_>; 5],
) -> Option<[(Option<u32>, usize); 5]> {
    let keys = keys_of_zeros(store.alloc()).ok()?;
    let root = planted_keys(store, keys)?;
    Some(readings(store, root, searches))
}

// Searches that end at a leaf, or for a key that is the prefix of others.
static AT_LEAVES_OR_FRONTS: [Search<'static>; 5] = [
    Search::Whole(&[255]),
    Search::Whole(&[0, 0, 0, 0, 0, 0, 0, 0, 0, 0, 0, 255]),
    Search::Whole(&[0, 0, 0, 0]),
    Search::Whole(&[]),
    Search::Prefix(&[255, 9]),
];

#[test]
fn counts_readings(rt: HostRuntime) -> Result<(), Fail> {
    let wanted = [
        (Some(0), 2),
        (Some(11), 12),
        (None, 5),
        (None, 1),
        (Some(0), 2),
    ];
    let seen = readings_in::<4>(&mut NodeStore::new(rt.alloc()), &AT_LEAVES_OR_FRONTS);
    same(seen, Some(wanted))
}

// What searches that differ from the stored bytes of the root's prefix find, and one that does not, with what each
// reads.
fn readings_of_two(
    store: &mut NodeStore<Key, u32, 16>,
) -> Option<([(Option<u32>, usize); 2], (Option<u32>, usize))> {
    let root = planted_all(store, &[&[1, 2, 3], &[1, 2, 4]]).ok()??;
    let parting = [
        reading(store, root, Search::Whole(&[9, 9, 3])),
        reading(store, root, Search::Prefix(&[1, 9, 3, 5])),
    ];
    let kept = reading(store, root, Search::Prefix(&[1, 2, 4, 5]));
    Some((parting, kept))
}

#[test]
fn reads_nothing_where_stored_bytes_differ(rt: HostRuntime) -> Result<(), Fail> {
    let seen = readings_of_two(&mut NodeStore::new(rt.alloc()));
    same(seen, Some(([(None, 1); 2], (Some(1), 2))))
}

// What searches past bytes that no node stores find, with how many nodes each of the first two reads.
type Past = ([(Option<u32>, usize); 2], [Option<u32>; 2]);

fn readings_past<const P: usize>(store: &NodeStore<Key, u32, P>, root: OpaqueNodePtr) -> Past
    requires { IsCanonicalRoot (of_key (λ key. key.items)) P store.now root }
{
    (
        [
            reading(store, root, Search::Whole(&[1, 1, 9, 1, 5])),
            reading(store, root, Search::Prefix(&[1, 1, 9, 1, 5, 7])),
        ],
        [
            found(store, root, Search::Whole(&[1, 1, 1, 1, 5])),
            found(store, root, Search::Prefix(&[1, 1, 1, 1, 6, 7])),
        ],
    )
}

// The same of the tree of two keys.
fn readings_past_in<const P: usize>(store: &mut NodeStore<Key, u32, P>) -> Option<Past> {
    let root = planted_all(store, &[&[1, 1, 1, 1, 5], &[1, 1, 1, 1, 6]]).ok()??;
    Some(readings_past(store, root))
}

// The same of searches past a prefix of which nothing is stored.
fn found_past_nothing(store: &mut NodeStore<Key, u32, 0>) -> Option<[Option<u32>; 2]> {
    let root = planted_all(store, &[&[5, 5, 1], &[5, 5, 2]]).ok()??;
    Some([
        found(store, root, Search::Whole(&[9, 9, 1])),
        found(store, root, Search::Whole(&[5, 5, 2])),
    ])
}

#[test]
fn compares_the_whole_key_after_skipped_bytes(rt: HostRuntime) -> Result<(), Fail> {
    let wanted = ([(None, 2), (None, 2)], [Some(0), Some(1)]);
    let seen = readings_past_in::<2>(&mut NodeStore::new(rt.alloc()));
    let of_nothing = found_past_nothing(&mut NodeStore::new(rt.alloc()));
    same((seen, of_nothing), (Some(wanted), Some([None, Some(1)])))
}

// The length of a node's prefix, and its first two stored bytes.
type Prefix = (usize, [Option<u8>; 2]);

// The prefix of a node, or `None` of a leaf.
fn prefix_of<const P: usize>(
    store: &NodeStore<Key, u32, P>,
    node: OpaqueNodePtr,
) -> Option<Prefix> {
    let node = store.inner(node.as_inner()?)?;
    let stored = node.read_prefix();
    let first = [stored.first().copied(), stored.get(1).copied()];
    Some((node.prefix_len(), first))
}

// The prefixes of the root of the tree of these keys, and of its child under 1.
fn prefixes_in<const P: usize>(
    store: &mut NodeStore<Key, u32, P>,
    keys: &[&[u8]],
) -> Option<[Option<Prefix>; 2]> {
    let root = planted_all(store, keys).ok()??;
    let below = child(store, root, 1)?;
    Some([prefix_of(store, root), prefix_of(store, below)])
}

#[test]
fn stores_no_more_than_the_first_bytes_of_a_prefix(rt: HostRuntime) -> Result<(), Fail> {
    let two: [&[u8]; 2] = [&[5, 5, 1], &[5, 5, 2]];
    let of_two = prefixes_in::<0>(&mut NodeStore::new(rt.alloc()), &two);
    let three: [&[u8]; 3] = [&[7, 1, 1, 1, 1, 5], &[7, 1, 1, 1, 1, 6], &[7, 1, 1, 9]];
    let of_three = prefixes_in::<2>(&mut NodeStore::new(rt.alloc()), &three);
    let split = [Some((3, [Some(7), Some(1)])), Some((1, [Some(1), None]))];
    same(
        (of_two, of_three),
        (Some([Some((2, [None; 2])), None]), Some(split)),
    )
}

// Compares a node's prefix with the rest of a key. Returns the fields of what comes of it, and how the next prefixes are
// to be compared.
fn compared<N: InnerNode<P>, const P: usize>(
    node: &N,
    behavior: PrefixMatchBehavior,
    rest: &[u8],
) -> (
    Result<(usize, bool), (usize, Option<u8>)>,
    PrefixMatchBehavior,
) {
    let mut behavior = behavior;
    let outcome = match behavior.match_prefix(node, rest) {
        Ok(matched) => Ok((matched.matched_bytes, matched.any_implicit_bytes)),
        Err(mismatch) => Err((mismatch.matched_bytes, mismatch.prefix_byte)),
    };
    (outcome, behavior)
}

// How the prefix [1, 1, 1, 1], of which two bytes are stored, is compared with the rest of a key: the behavior before,
// the rest, and what comes of it, which is how many bytes match and whether any are skipped, or how many match and the
// byte that differs.
type Comparison = (
    PrefixMatchBehavior,
    &'static [u8],
    Result<(usize, bool), (usize, Option<u8>)>,
    PrefixMatchBehavior,
);

static COMPARISONS: [Comparison; 5] = [
    (
        PrefixMatchBehavior::Pessimistic,
        &[1, 9],
        Err((1, Some(1))),
        PrefixMatchBehavior::Pessimistic,
    ),
    (
        PrefixMatchBehavior::Pessimistic,
        &[1, 1, 1],
        Err((3, None)),
        PrefixMatchBehavior::Optimistic,
    ),
    (
        PrefixMatchBehavior::Pessimistic,
        &[1, 1, 9, 1, 5],
        Ok((4, true)),
        PrefixMatchBehavior::Optimistic,
    ),
    (
        PrefixMatchBehavior::Optimistic,
        &[9, 9, 9],
        Err((3, None)),
        PrefixMatchBehavior::Optimistic,
    ),
    (
        PrefixMatchBehavior::Optimistic,
        &[9, 9, 9, 9],
        Ok((4, true)),
        PrefixMatchBehavior::Optimistic,
    ),
];

#[test]
fn compares_stored_bytes_and_then_lengths(rt: HostRuntime) -> Result<(), Fail> {
    let node: InnerNode4<2> = InnerNode4::from_header(Header::new(&[1, 1], 4));
    for (before, rest, outcome, after) in &COMPARISONS {
        same(
            (*rest, compared(&node, *before, rest)),
            (*rest, (*outcome, *after)),
        )?;
    }
    Ok(())
}

// Whether keys are equal to [1, 2, 3], or start with it, from the third byte on or whole.
fn compared_with_leaf(behavior: PrefixMatchBehavior) -> [bool; 4] {
    let leaf = LeafNode::with_no_siblings([1, 2, 3], ());
    [
        behavior.matches_leaf_key(&leaf, &[9, 9, 3], 2),
        behavior.matches_leaf_key(&leaf, &[1, 2, 3], 2),
        behavior.leaf_key_is_prefix(&leaf, &[9, 9, 3, 4], 2),
        behavior.leaf_key_is_prefix(&leaf, &[1, 2, 3, 4], 2),
    ]
}

#[test]
fn compares_a_leaf_from_the_depth_on_or_whole() -> Result<(), Fail> {
    let seen = [
        compared_with_leaf(PrefixMatchBehavior::Pessimistic),
        compared_with_leaf(PrefixMatchBehavior::Optimistic),
    ];
    same(seen, [[true; 4], [false, true, false, true]])
}

// Three keys, whose tree has prefixes of five bytes at two levels.
static TWO_LEVELS: [&[u8]; 3] = [
    &[1, 1, 1, 1, 1, 5],
    &[1, 1, 1, 1, 1, 6, 2, 2, 2, 2, 2, 7],
    &[1, 1, 1, 1, 1, 6, 2, 2, 2, 2, 2, 8],
];

// What the searches for the leaf at a bound find, and how many readings they count: from the third key on, and before
// the second one.
fn readings_to_bounds<const P: usize>(
    store: &NodeStore<Key, u32, P>,
    root: OpaqueNodePtr,
) -> [(Option<u32>, usize); 2]
    requires { IsCanonicalRoot (of_key (λ key. key.items)) P store.now root }
{
    let (mut of_first, mut of_last) = (Visits::new(), Visits::new());
    let from = Bound::Included(TWO_LEVELS[2]);
    let first = first_from_visiting(store, root, from, &mut of_first);
    let to = Bound::Excluded(TWO_LEVELS[1]);
    let last = last_up_to_visiting(store, root, to, &mut of_last);
    [
        (
            first.and_then(|leaf| value_of(store, leaf)),
            of_first.count(),
        ),
        (last.and_then(|leaf| value_of(store, leaf)), of_last.count()),
    ]
}

// How many readings are counted of the searches for all keys from the first one on, and for those with a prefix.
fn readings_of_parts<const P: usize>(
    store: &NodeStore<Key, u32, P>,
    root: OpaqueNodePtr,
) -> [usize; 2]
    requires { IsCanonicalRoot (of_key (λ key. key.items)) P store.now root }
{
    let (mut of_range, mut of_prefix) = (Visits::new(), Visits::new());
    let from = Bound::Included(TWO_LEVELS[0]);
    let _ = range_visiting(store, root, from, Bound::Unbounded, &mut of_range);
    let prefix: &[u8] = &[1, 1, 1];
    let _ = prefix_visiting(store, root, prefix, &mut of_prefix);
    [of_range.count(), of_prefix.count()]
}

type Ranged = ([(Option<u32>, usize); 2], [usize; 2]);

// The same in the tree of the three keys.
fn readings_of_ranges<const P: usize>(store: &mut NodeStore<Key, u32, P>) -> Option<Ranged> {
    let root = planted_all(store, &TWO_LEVELS).ok()??;
    Some((
        readings_to_bounds(store, root),
        readings_of_parts(store, root),
    ))
}

fn readings_of_ranges_with<const P: usize>(alloc: Global) -> Option<Ranged>
    requires { P < 256 }
{
    readings_of_ranges::<P>(&mut NodeStore::new(alloc))
}

// The descent to the guide leaf and each reading of it are counted.
#[test]
fn counts_readings_of_ranges(rt: HostRuntime) -> Result<(), Fail> {
    let seen = [
        readings_of_ranges_with::<4>(rt.alloc()),
        readings_of_ranges_with::<16>(rt.alloc()),
    ];
    let long = ([(Some(2), 7), (Some(0), 7)], [7, 5]);
    let whole = ([(Some(2), 3), (Some(0), 3)], [5, 5]);
    same(seen, [Some(long), Some(whole)])
}
