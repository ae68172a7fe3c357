//! What failed insertions leave.
ghost use Rattle.std.specs.Prelude.{◌<◌};

use art_nodes::store::NodeStore;
use art_test_support::cases::assert_where_refused;
use art_test_support::points::{HANDED_BACK, Refusal, Way, refused_insertion};
use std::alloc::Global;
use std::test::Fail;

// What a failed insertion of a key into the tree of some others leaves, in a store of its own that may be filled
// before.
fn left_with<const P: usize>(
    alloc: Global,
    way: Way,
    others: &[&[u8]],
    key: &[u8],
    is_filled: bool,
) -> Option<Refusal>
    requires { P < 256 }
{
    refused_insertion::<P>(way, &mut NodeStore::new(alloc), others, key, is_filled).ok()?
}

// The same in a store with no other nodes, and in a full one.
fn left<const P: usize>(
    alloc: Global,
    way: Way,
    others: &[&[u8]],
    key: &[u8],
) -> [Option<Refusal>; 2]
    requires { P < 256 }
{
    [
        left_with::<P>(alloc, way, others, key, false),
        left_with::<P>(alloc, way, others, key, true),
    ]
}

// A failure where one of these did not return the pair, or changed something.
fn assert_handed_back(rt: &impl Print, left: [Option<Refusal>; 2]) -> Result<(), Fail> {
    for refusal in left {
        assert_where_refused(rt, refusal, HANDED_BACK)?;
    }
    Ok(())
}

// Asserts something where an allocation of the insertion fails.
#[test]
fn refused_splits_hand_the_pair_back(rt: HostRuntime) -> Result<(), Fail> {
    let others: [&[u8]; 3] = [&[255], &[0, 255], &[0, 0, 255]];
    let left = left::<4>(rt.alloc(), Way::Apart, &others, &[0, 0, 0, 255]);
    assert_handed_back(&rt, left)
}

// The same where a leaf is read for the rest of the prefix.
#[test]
fn refused_splits_of_a_prefix_hand_the_pair_back(rt: HostRuntime) -> Result<(), Fail> {
    let others: [&[u8]; 2] = [&[7, 1, 1, 1, 1, 5], &[7, 1, 1, 1, 1, 6]];
    let left = left::<2>(rt.alloc(), Way::Apart, &others, &[7, 1, 1, 9]);
    assert_handed_back(&rt, left)
}

#[test]
fn refused_children_hand_the_pair_back(rt: HostRuntime) -> Result<(), Fail> {
    let left = left::<4>(rt.alloc(), Way::Apart, &[&[1], &[2]], &[3]);
    assert_handed_back(&rt, left)
}

// The same where the node has to grow.
#[test]
fn refused_growths_hand_the_pair_back(rt: HostRuntime) -> Result<(), Fail> {
    let left = left::<4>(rt.alloc(), Way::Apart, &[&[1], &[2], &[3], &[4]], &[5]);
    assert_handed_back(&rt, left)
}

// More and more keys; all but the first two are inserted in addition to those.
static BESIDE: [&[u8]; 9] = [
    &[4, 1, 2, 3, 7],
    &[4, 1, 2, 3, 8],
    &[5],
    &[6],
    &[7],
    &[8],
    &[9],
    &[10],
    &[11],
];

// More and more keys with one prefix.
static ONE_PREFIX: [&[u8]; 9] = [
    &[1, 2, 1],
    &[1, 2, 2],
    &[1, 2, 3],
    &[1, 2, 4],
    &[1, 2, 5],
    &[1, 2, 6],
    &[1, 2, 7],
    &[1, 2, 8],
    &[1, 2, 9],
];

// The same where a key replaces all related ones, with so many of these keys and more and more of them.
fn assert_left_over(
    rt: &impl Print,
    alloc: Global,
    all: &[&[u8]],
    least: usize,
    key: &[u8],
) -> Result<(), Fail> {
    for count in least..=all.len() {
        assert_handed_back(rt, left::<4>(alloc, Way::Over, &all[..count], key))?;
    }
    Ok(())
}

// Asserts something where an allocation fails while a key that ends in the prefix of a child is inserted.
#[test]
fn refused_overwrites_within_a_prefix_hand_the_pair_back(rt: HostRuntime) -> Result<(), Fail> {
    assert_left_over(&rt, rt.alloc(), &BESIDE, 3, &[4, 1, 2])
}

// The same with the prefix.
#[test]
fn refused_overwrites_at_the_end_of_a_prefix_hand_the_pair_back(
    rt: HostRuntime,
) -> Result<(), Fail> {
    assert_left_over(&rt, rt.alloc(), &BESIDE, 3, &[4, 1, 2, 3])
}

// The same where it replaces the root.
#[test]
fn refused_overwrites_of_the_root_hand_the_pair_back(rt: HostRuntime) -> Result<(), Fail> {
    assert_left_over(&rt, rt.alloc(), &ONE_PREFIX, 2, &[1, 2])
}

// The same where the key is related to no other.
#[test]
fn refused_prefix_insertions_of_a_child_hand_the_pair_back(rt: HostRuntime) -> Result<(), Fail> {
    assert_left_over(&rt, rt.alloc(), &ONE_PREFIX, 2, &[1, 2, 10])
}
