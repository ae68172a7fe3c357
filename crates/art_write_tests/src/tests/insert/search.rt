//! Points of keys.
ghost use Rattle.std.specs.Prelude.{◌<◌};
ghost use Rattle.art_model.specs.Pairs.{of_key};
ghost use Rattle.art_model.specs.Roots.{IsCanonicalRoot};

use art_nodes::node::OpaqueNodePtr;
use art_nodes::store::NodeStore;
use art_reading::lookup::Visits;
use art_test_support::expected::same;
use art_test_support::memory::all_memory;
use art_test_support::trees::{Key, planted_all};
use art_writing::insert::{
    InsertSearchError, search_for_insert_point, search_for_insert_point_visiting,
};
use std::alloc::Global;
use std::test::Fail;

static LONG: [&[u8]; 2] = [&[7, 1, 1, 1, 1, 5], &[7, 1, 1, 1, 1, 6]];

// Whether a key has a point, or an error with its bytes. None if an allocation fails.
fn has_point<const P: usize>(
    store: &NodeStore<Key, u32, P>,
    root: OpaqueNodePtr,
    key_bytes: &[u8],
) -> Option<bool>
    requires { IsCanonicalRoot (of_key (λ key. key.items)) P store.now root }
{
    match search_for_insert_point(store, root, key_bytes) {
        Ok(_) => Some(true),
        Err(InsertSearchError::Prefix(error)) => { Some(error.byte_repr.as_slice() != key_bytes) }
        Err(InsertSearchError::Memory(_)) => None,
    }
}

// The same of a key that differs from the others, of a stored one, and of a related one.
fn each_has_point<const P: usize>(
    store: &NodeStore<Key, u32, P>,
    root: OpaqueNodePtr,
) -> [Option<bool>; 3]
    requires { IsCanonicalRoot (of_key (λ key. key.items)) P store.now root }
{
    [
        has_point(store, root, &[7, 1, 1, 9]),
        has_point(store, root, &[7, 1, 1, 1, 1, 6]),
        has_point(store, root, &[7, 1]),
    ]
}

// The same in their tree, and while all memory is held.
fn with_and_without_memory<const P: usize>(
    store: &mut NodeStore<Key, u32, P>,
) -> Option<[[Option<bool>; 3]; 2]> {
    let root = planted_all(store, &LONG).ok()??;
    let with_memory = each_has_point(store, root);
    let held = all_memory(store.alloc()).ok()?;
    let without = each_has_point(store, root);
    drop(held);
    Some([with_memory, without])
}

#[test]
fn without_memory_only_a_refusal_fails(rt: HostRuntime) -> Result<(), Fail> {
    let seen = with_and_without_memory::<2>(&mut NodeStore::new(rt.alloc()));
    same(
        seen,
        Some([
            [Some(true), Some(true), Some(false)],
            [Some(true), Some(true), None],
        ]),
    )
}

// Three keys, whose tree has prefixes of five bytes at two levels.
static TWO_LEVELS: [&[u8]; 3] = [
    &[1, 1, 1, 1, 1, 5],
    &[1, 1, 1, 1, 1, 6, 2, 2, 2, 2, 2, 7],
    &[1, 1, 1, 1, 1, 6, 2, 2, 2, 2, 2, 8],
];

// How many readings the search for the point of a key counts.
fn readings<const P: usize>(
    store: &NodeStore<Key, u32, P>,
    root: OpaqueNodePtr,
    key_bytes: &[u8],
) -> usize
    requires { IsCanonicalRoot (of_key (λ key. key.items)) P store.now root }
{
    let mut visits = Visits::new();
    let _ = search_for_insert_point_visiting(store, root, key_bytes, &mut visits);
    visits.count()
}

// The same of a stored key, of one that differs from the root's prefix, and of one that differs from a leaf's key.
fn readings_in<const P: usize>(store: &mut NodeStore<Key, u32, P>) -> Option<[usize; 3]> {
    let root = planted_all(store, &TWO_LEVELS).ok()??;
    Some([
        readings(store, root, TWO_LEVELS[2]),
        readings(store, root, &[1, 1, 1, 9]),
        readings(store, root, &[1, 1, 1, 1, 1, 5, 9]),
    ])
}

fn readings_with<const P: usize>(alloc: Global) -> Option<[usize; 3]>
    requires { P < 256 }
{
    readings_in::<P>(&mut NodeStore::new(alloc))
}

// The descent to the guide leaf and each reading of it are counted.
#[test]
fn counts_what_it_reads(rt: HostRuntime) -> Result<(), Fail> {
    let seen = [
        readings_with::<4>(rt.alloc()),
        readings_with::<16>(rt.alloc()),
    ];
    same(seen, [Some([7, 5, 4]), Some([3, 1, 2])])
}
