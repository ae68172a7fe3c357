//! The check of trees that insertions make, and its counts of nodes.
ghost use Rattle.std.specs.Prelude.{◌<◌};

use super::told::{Told, check_says};
use art_checking::well_formed::{WellFormedChecker, WellFormedTreeStats};
use art_nodes::node::OpaqueNodePtr;
use art_nodes::store::NodeStore;
use art_test_support::expected::same;
use art_test_support::trees::{Key, keys_after, keys_of_three, keys_of_zeros, planted_keys};
use std::alloc::Global;
use std::test::Fail;

/// How many leaves, inner nodes, and nodes there are.
type Counts = (usize, usize, usize);

fn counted(stats: WellFormedTreeStats) -> Option<Counts> {
    let (leaves, inner) = (stats.num_leaf, stats.num_inner);
    leaves.checked_add(inner)?;
    Some((leaves, inner, stats.total_nodes()))
}

/// The same of a tree. None where the check finds a fault.
fn counts_of<const P: usize>(
    store: &NodeStore<Key, u32, P>,
    root: OpaqueNodePtr,
    len: usize,
) -> Option<Counts> {
    counted(stats_of(store, Some(root), len)?)
}

/// What the check counts. None where it finds a fault.
fn stats_of<const P: usize>(
    store: &NodeStore<Key, u32, P>,
    root: Option<OpaqueNodePtr>,
    len: usize,
) -> Option<WellFormedTreeStats> {
    match WellFormedChecker::check(store, root, len) {
        Ok(stats) => Some(stats),
        Err(_) => None,
    }
}

/// The same of the tree of these keys.
fn counts_from<const P: usize>(
    store: &mut NodeStore<Key, u32, P>,
    keys: Vec<Key>,
) -> Option<Counts> {
    let len = keys.len();
    let root = planted_keys(store, keys)?;
    counts_of(store, root, len)
}

/// Keys of a tree: all of three bytes below these limits, twelve of zeros, or so many after some bytes.
#[derive(Clone, Copy)]
enum Keys {
    OfThree([u8; 3]),
    OfZeros,
    After(&'static [u8], u16),
}

fn make(alloc: Global, keys: Keys) -> Result<Vec<Key>, Fail> {
    match keys {
        Keys::OfThree(limits) => keys_of_three(alloc, limits),
        Keys::OfZeros => Ok(keys_of_zeros(alloc)?),
        Keys::After(front, count) => Ok(keys_after(alloc, front, count)?),
    }
}

/// The same in a store of its own.
fn counts_with<const P: usize>(alloc: Global, keys: Keys) -> Result<Option<Counts>, Fail>
    requires { P < 256 }
{
    let keys = make(alloc, keys)?;
    Ok(counts_from::<P>(&mut NodeStore::new(alloc), keys))
}

/// Keys, and how many leaves, inner nodes, and nodes their tree has.
static COUNTED: [(Keys, Counts); 6] = [
    (Keys::OfThree([4, 3, 2]), (24, 17, 41)),
    (Keys::OfThree([51, 2, 3]), (306, 154, 460)),
    (Keys::OfThree([6, 6, 6]), (216, 43, 259)),
    (Keys::OfZeros, (12, 11, 23)),
    (Keys::After(&[], 256), (256, 1, 257)),
    (Keys::After(&[7, 7, 7], 1), (1, 0, 1)),
];

/// The first tree that has other counts, with 16 stored bytes or with none.
fn first_miscounted(alloc: Global) -> Result<Option<usize>, Fail> {
    for (number, (keys, counts)) in COUNTED.iter().enumerate() {
        let with_many = counts_with::<16>(alloc, *keys)?;
        let with_none = counts_with::<0>(alloc, *keys)?;
        if [with_many, with_none] != [Some(*counts); 2] {
            return Ok(Some(number));
        }
    }
    Ok(None)
}

#[test]
fn nodes_of_well_formed_trees_are_counted(rt: HostRuntime) -> Result<(), Fail> {
    same(first_miscounted(rt.alloc())?, None)
}

/// Whether the check says what it should of so many pairs where there is no root.
fn without_root<const P: usize>(store: &NodeStore<Key, u32, P>, len: usize) -> bool {
    let wanted = match len {
        0 => Told::Whole(0, 0),
        _ => Told::LenOfNone,
    };
    check_says(store, None, len, wanted)
}

/// The same for three lengths, the first of which is none.
fn three_without_root(alloc: Global) -> [bool; 3] {
    let store: NodeStore<Key, u32, 4> = NodeStore::new(alloc);
    [
        without_root(&store, 0),
        without_root(&store, 1),
        without_root(&store, usize::MAX),
    ]
}

#[test]
fn no_tree_has_no_length(rt: HostRuntime) -> Result<(), Fail> {
    same(three_without_root(rt.alloc()), [true; 3])
}

#[test]
fn counts_are_added_by_fields(rt: HostRuntime) -> Result<(), Fail> {
    let sum = WellFormedTreeStats {
        num_leaf: 1,
        num_inner: 20,
    } + WellFormedTreeStats {
        num_leaf: 300,
        num_inner: 4000,
    };
    let mut more = WellFormedTreeStats {
        num_leaf: 5,
        num_inner: 60,
    };
    more += WellFormedTreeStats {
        num_leaf: 700,
        num_inner: 8000,
    };
    let none = WellFormedTreeStats::default();
    let fields = [
        (sum.num_leaf, sum.num_inner),
        (more.num_leaf, more.num_inner),
        (none.num_leaf, none.num_inner),
    ];
    same(fields, [(301, 4020), (705, 8060), (0, 0)])
}
