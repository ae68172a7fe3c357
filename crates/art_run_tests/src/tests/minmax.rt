//! The ends of trees.
ghost use Rattle.art_model.specs.Pairs.{of_key};
ghost use Rattle.art_model.specs.Roots.{IsCanonicalRoot};

use art_nodes::node::{AsBytes, OpaqueNodePtr};
use art_nodes::store::NodeStore;
use art_reading::minmax::{maximum_unchecked, minimum_unchecked};
use art_test_support::expected::same;
use art_test_support::trees::{Key, keys_of_three, keys_of_zeros, planted_keys, value_of};
use std::alloc::Global;
use std::test::Fail;

// The values of the first and the last leaf.
type Ends = (Option<u32>, Option<u32>);

fn ends<K: AsBytes + Drop, const P: usize>(
    store: &NodeStore<K, u32, P>,
    root: OpaqueNodePtr,
) -> Ends
    requires { IsCanonicalRoot (of_key K.bytes) P store.now root }
{
    (
        value_of(store, minimum_unchecked(store, root)),
        value_of(store, maximum_unchecked(store, root)),
    )
}

// Keys of a tree.
#[derive(Clone, Copy)]
enum Keys {
    OfThree([u8; 3]),
    OfZeros,
}

fn keys_of(alloc: Global, keys: Keys) -> Result<Vec<Key>, Fail> {
    match keys {
        Keys::OfThree(limits) => keys_of_three(alloc, limits),
        Keys::OfZeros => Ok(keys_of_zeros(alloc)?),
    }
}

// The ends of the tree of these keys.
fn ends_in<const P: usize>(store: &mut NodeStore<Key, u32, P>, keys: Vec<Key>) -> Option<Ends> {
    let root = planted_keys(store, keys)?;
    Some(ends(store, root))
}

// The same in a store of its own.
fn ends_with(alloc: Global, keys: Keys) -> Result<Option<Ends>, Fail> {
    let keys = keys_of(alloc, keys)?;
    Ok(ends_in::<2>(&mut NodeStore::new(alloc), keys))
}

// Trees of three levels, of one leaf and of many levels, and their ends.
static TREES: [(Keys, Ends); 3] = [
    (Keys::OfThree([6, 6, 6]), (Some(0), Some(215))),
    (Keys::OfThree([1, 1, 1]), (Some(0), Some(0))),
    (Keys::OfZeros, (Some(11), Some(0))),
];

#[test]
fn finds_the_ends_of_trees(rt: HostRuntime) -> Result<(), Fail> {
    for (keys, wanted) in &TREES {
        same(ends_with(rt.alloc(), *keys)?, Some(*wanted))?;
    }
    Ok(())
}
