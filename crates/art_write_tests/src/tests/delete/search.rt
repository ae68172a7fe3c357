//! Points of leaves to be deleted.
ghost use Rattle.art_model.specs.Pairs.{of_key};
ghost use Rattle.art_model.specs.Roots.{IsCanonicalRoot};

use art_nodes::node::{LeafPtr, OpaqueNodePtr};
use art_nodes::store::NodeStore;
use art_reading::lookup::Visits;
use art_test_support::cases::FOUR;
use art_test_support::expected::same;
use art_test_support::trees::{Key, planted_all, value_of};
use art_writing::delete::{
    find_maximum_to_delete, find_minimum_to_delete, search_for_delete_point,
    search_for_delete_point_by_lengths, search_for_delete_point_visiting,
    search_for_first_delete_point_below,
};
use std::test::Fail;

// The leaf of a key as two searches find it, and how many nodes a third one reads.
fn searched<const P: usize>(
    store: &NodeStore<Key, u32, P>,
    root: OpaqueNodePtr,
    key_bytes: &[u8],
) -> ([Option<LeafPtr>; 2], usize)
    requires { IsCanonicalRoot (of_key (λ key. key.items)) P store.now root }
{
    let mut visits = Visits::new();
    let found = search_for_delete_point_visiting(store, root, key_bytes, &mut visits).is_some();
    let leaves = [
        search_for_delete_point(store, root, key_bytes).map(|point| point.leaf_node_ptr),
        search_for_delete_point_by_lengths(store, root, key_bytes).map(|point| point.leaf_node_ptr),
    ];
    (leaves, if found { visits.count() } else { 0 })
}

// The value of a leaf, where two searches find the same, and how many nodes they read.
fn value_at<const P: usize>(
    store: &NodeStore<Key, u32, P>,
    root: OpaqueNodePtr,
    key_bytes: &[u8],
) -> Option<(u32, usize)>
    requires { IsCanonicalRoot (of_key (λ key. key.items)) P store.now root }
{
    let ([one, other], count) = searched(store, root, key_bytes);
    if one != other {
        return None;
    }
    Some((value_of(store, one?)?, count))
}

// The values of the first leaf and the last one, and of the first one with a prefix.
fn values_of_ends<const P: usize>(
    store: &NodeStore<Key, u32, P>,
    root: OpaqueNodePtr,
    prefix: &[u8],
) -> Option<[u32; 3]>
    requires { IsCanonicalRoot (of_key (λ key. key.items)) P store.now root }
{
    let below = search_for_first_delete_point_below(store, root, prefix)?;
    Some([
        value_of(store, find_minimum_to_delete(store, root).leaf_node_ptr)?,
        value_of(store, find_maximum_to_delete(store, root).leaf_node_ptr)?,
        value_of(store, below.leaf_node_ptr)?,
    ])
}

// What is found of five keys, and at the ends.
type Found = ([Option<(u32, usize)>; 5], Option<[u32; 3]>);

// The same in the tree of four keys.
fn found_of_four<const P: usize>(store: &mut NodeStore<Key, u32, P>) -> Option<Found> {
    let root = planted_all(store, &FOUR).ok()??;
    let found = [
        value_at(store, root, &[6]),
        value_at(store, root, &[1, 5]),
        value_at(store, root, &[1, 2, 3]),
        value_at(store, root, &[1, 9, 3]),
        value_at(store, root, &[1, 2]),
    ];
    Some((found, values_of_ends(store, root, &[1, 2])))
}

#[test]
fn names_the_leaves_of_keys(rt: HostRuntime) -> Result<(), Fail> {
    let seen = found_of_four::<0>(&mut NodeStore::new(rt.alloc()));
    let found = [Some((3, 2)), Some((2, 3)), Some((0, 4)), None, None];
    same(seen, Some((found, Some([0, 3, 0]))))
}
