//! What the check finds in nodes that were placed one by one. A name in a reported fault has its place in the list of
//! nodes as its slot.
ghost use Rattle.std.specs.Prelude.{◌<◌};

use super::told::{Told, is_cloned, listed, told_by};
use art_checking::well_formed::WellFormedChecker;
use art_nodes::node::{NodeType, OpaqueNodePtr};
use art_nodes::store::NodeStore;
use art_test_support::expected::same;
use art_test_support::placing::{Plain, placed_all};
use art_test_support::trees::Key;
use std::alloc::Global;
use std::cmp::Ordering;
use std::test::Fail;

/// Nodes, the place of the root among them, and what the check returns.
#[derive(Clone, Copy)]
struct Case<'a> {
    nodes: &'a [Plain<'a>],
    root: usize,
    told: Told<'a>,
}

/// Cases. The root is the first node, where no other place is given.
macro_rules! cases {
    ($($nodes:expr $(; $root:expr)? => $told:expr),* $(,)?) => {
        [$(Case { nodes: &$nodes, root: 0 $(+ $root)?, told: $told }),*]
    };
}

/// A leaf of no value between those at two places.
macro_rules! leaf {
    ($key:expr, $previous:expr, $next:expr) => {
        Plain::Leaf {
            key: &$key,
            value: 0,
            previous: $previous,
            next: $next,
        }
    };
}

/// An inner node with a prefix of this length, of which these are the first bytes or all.
macro_rules! inner {
    ($kind:ident, $prefix_len:expr, $prefix:expr, $children:expr) => {
        Plain::Inner {
            kind: NodeType::$kind,
            prefix_len: $prefix_len,
            prefix: &$prefix,
            children: &$children,
        }
    };
}

/// Whether the check of a case whose nodes have these names returns what it should, where names have their places in
/// the list as slots, and a clone of a fault equals it.
fn is_told_under<const P: usize>(
    store: &NodeStore<Key, u32, P>,
    names: &[OpaqueNodePtr],
    case: Case<'_>,
) -> bool {
    let Some(root) = names.get(case.root) else {
        return false;
    };
    let answer = WellFormedChecker::check_tree(store, *root);
    let is_told = listed(told_by(&answer), names) == case.told;
    match &answer {
        Ok(_) => is_told,
        Err(fault) => is_told && is_cloned(fault),
    }
}

/// The same of a case whose nodes are placed in this store.
fn is_told_in<const P: usize>(store: &mut NodeStore<Key, u32, P>, case: Case<'_>) -> bool {
    match placed_all(store, case.nodes) {
        Ok(Some(names)) => is_told_under(store, &names, case),
        _ => false,
    }
}

/// The same in a store of its own.
fn is_told<const P: usize>(alloc: Global, case: Case<'_>) -> bool
    requires { P < 256 }
{
    is_told_in::<P>(&mut NodeStore::new(alloc), case)
}

/// The first case in which the check does not return what it should, with so many stored bytes.
fn first_wrong<const P: usize>(alloc: Global, cases: &[Case<'_>]) -> Option<usize>
    requires { P < 256 }
{
    for (number, case) in cases.iter().enumerate() {
        if !is_told::<P>(alloc, *case) {
            return Some(number);
        }
    }
    None
}

/// Two inner nodes below a root, each with a prefix, where the second one has these children and this node is last.
macro_rules! two_branches {
    ($children:expr, $last:expr) => {
        [
            inner!(Node16, 2, [1, 2], [(3, 1), (4, 4)]),
            inner!(Node4, 2, [5, 6], [(1, 2), (2, 3)]),
            leaf!([1, 2, 3, 5, 6, 1], None, None),
            leaf!([1, 2, 3, 5, 6, 2], None, None),
            inner!(Node4, 2, [7, 8], $children),
            leaf!([1, 2, 4, 7, 8, 3], None, None),
            $last,
        ]
    };
}

/// The last child is the root, or a leaf of its place, or one of another place. A leaf under two bytes of its parent.
static BRANCHES: [Case<'static>; 4] = cases! {
    two_branches!([(3, 5), (4, 0)], Plain::Gone)
        => Told::Loop((NodeType::Node16, 0), &[], &[1, 2, 4, 7, 8, 4]),
    two_branches!([(3, 5), (4, 6)], leaf!([1, 2, 4, 7, 8, 4], None, None))
        => Told::Count(&[], NodeType::Node16, 2),
    two_branches!([(3, 5), (4, 6)], leaf!([255; 6], None, None))
        => Told::Prefix(&[1, 2, 4, 7, 8, 4], &[255; 6]),
    [inner!(Node4, 0, [], [(1, 1), (2, 1)]), leaf!([1], None, None)]
        => Told::Loop((NodeType::Leaf, 1), &[1], &[2]),
};

#[test]
fn nodes_are_checked_in_the_order_of_the_walk(rt: HostRuntime) -> Result<(), Fail> {
    same(first_wrong::<16>(rt.alloc(), &BRANCHES), None)
}

/// A leaf whose sibling is itself, also as a lone leaf, and no node before one.
static SIBLINGS: [Case<'static>; 3] = cases! {
    [
        inner!(Node4, 0, [], [(1, 1), (2, 2)]),
        leaf!([1], Some(1), None),
        leaf!([2], None, None),
    ]
        => Told::Order(&[1], &[1], Ordering::Less, Ordering::Equal),
    [leaf!([1], None, Some(0))]
        => Told::Order(&[1], &[1], Ordering::Greater, Ordering::Equal),
    [leaf!([1], Some(1), Some(1)), Plain::Gone]
        => Told::Dead(&[], (NodeType::Leaf, 1)),
};

#[test]
fn siblings_are_to_stand_in_order(rt: HostRuntime) -> Result<(), Fail> {
    same(first_wrong::<16>(rt.alloc(), &SIBLINGS), None)
}

/// Three leaves below a root, with a leaf outside, where the first leaf has these links.
macro_rules! three_leaves {
    ($previous:expr, $next:expr) => {
        [
            inner!(Node4, 0, [], [(1, 1), (2, 2), (3, 3)]),
            leaf!([1], $previous, $next),
            leaf!([2], Some(1), Some(3)),
            leaf!([3], Some(2), None),
            leaf!([0], None, None),
        ]
    };
}

/// The first leaf names its neighbours, or leaves one out, or names the leaf outside the tree.
static NEIGHBOURS: [Case<'static>; 3] = cases! {
    three_leaves!(None, Some(2)) => Told::Whole(3, 1),
    three_leaves!(None, Some(3)) => Told::Links(&[1], (None, Some(2)), (None, Some(3))),
    three_leaves!(Some(4), Some(2)) => Told::Links(&[1], (None, Some(2)), (Some(4), Some(2))),
};

#[test]
fn leaves_are_to_name_their_neighbours(rt: HostRuntime) -> Result<(), Fail> {
    same(first_wrong::<16>(rt.alloc(), &NEIGHBOURS), None)
}

/// No node under the root's name, and a name of another kind as the root.
static DEAD_NAMES: [Case<'static>; 2] = cases! {
    [Plain::Gone] => Told::Dead(&[], (NodeType::Leaf, 0)),
    [inner!(Node4, 0, [], []), Plain::Renamed(NodeType::Node16, 0)]; 1
        => Told::Dead(&[], (NodeType::Node16, 1)),
};

#[test]
fn a_name_is_to_lead_to_a_node_of_its_kind(rt: HostRuntime) -> Result<(), Fail> {
    same(first_wrong::<16>(rt.alloc(), &DEAD_NAMES), None)
}

/// A root with a prefix of this length, of which these bytes are stored, above two leaves with these keys.
macro_rules! two_below {
    ($prefix_len:expr, $stored:expr, $one:expr, $other:expr) => {
        [
            inner!(Node4, $prefix_len, $stored, [(5, 1), (6, 2)]),
            leaf!($one, None, Some(2)),
            leaf!($other, Some(1), None),
        ]
    };
}

/// Prefixes of which nothing is stored: above no leaf, and above two that do not share it.
static NOTHING_STORED: [Case<'static>; 2] = cases! {
    [inner!(Node4, 2, [], [])] => Told::Unreadable(&[], (NodeType::Node4, 0)),
    two_below!(1, [], [1, 5], [2, 6]) => Told::Prefix(&[1, 6], &[2, 6]),
};

#[test]
fn with_nothing_stored_each_prefix_is_read(rt: HostRuntime) -> Result<(), Fail> {
    same(first_wrong::<0>(rt.alloc(), &NOTHING_STORED), None)
}

/// Prefixes of which two bytes are stored: above itself, above leaves that are too short, above leaves with other bytes
/// and with the same, and one that no leaf is long enough for.
static TWO_STORED: [Case<'static>; 5] = cases! {
    [inner!(Node4, 4, [1, 1], [(5, 0)])] => Told::Unreadable(&[], (NodeType::Node4, 0)),
    [
        inner!(Node4, 4, [1, 1], [(5, 1), (6, 2)]),
        leaf!([1, 1, 1], None, None),
        leaf!([1, 1, 2], None, None),
    ] => Told::Unreadable(&[], (NodeType::Node4, 0)),
    two_below!(4, [1, 2], [1, 1, 1, 1, 5], [1, 1, 1, 1, 6])
        => Told::Stored(&[], &[1, 2], &[1, 1]),
    two_below!(4, [1, 1], [1, 1, 1, 1, 5], [1, 1, 1, 1, 6])
        => Told::Whole(2, 1),
    [
        inner!(Node4, 0, [], [(5, 1)]),
        inner!(Node4, usize::MAX, [1, 1], [(5, 2)]),
        leaf!([5, 1, 1, 5], None, None),
    ] => Told::Unreadable(&[5], (NodeType::Node4, 1)),
};

#[test]
fn stored_bytes_are_to_be_those_of_the_least_leaf(rt: HostRuntime) -> Result<(), Fail> {
    same(first_wrong::<2>(rt.alloc(), &TWO_STORED), None)
}

/// A key with 22 times 88 behind its first four bytes, and one that is the same but for a later byte.
const LONG_KEY: [u8; 28] = [
    50, 88, 88, 49, 88, 88, 88, 88, 88, 88, 88, 88, 88, 88, 88, 88, 88, 88, 88, 88, 88, 88, 88, 88,
    88, 88, 49, 0,
];

const OTHER_KEY: [u8; 28] = [
    50, 88, 88, 49, 88, 88, 88, 88, 88, 88, 88, 88, 88, 88, 88, 88, 88, 88, 88, 88, 88, 88, 88, 88,
    88, 88, 50, 0,
];

/// The first bytes of the long prefix, and the same but for one.
const STORED: [u8; 16] = [88; 16];

const CHANGED: [u8; 16] = [
    88, 88, 88, 88, 88, 88, 88, 88, 88, 87, 88, 88, 88, 88, 88, 88,
];

/// A tree of four keys with a prefix of 22 bytes, of which these are stored. The root's child under 50 is the node at
/// this place.
macro_rules! text_tree {
    ($stored:expr, $below:expr) => {
        [
            inner!(Node4, 0, [], [(49, 1), (50, $below)]),
            leaf!([49, 0], None, Some(4)),
            inner!(Node4, 2, [88, 88], [(49, 3), (50, 6)]),
            inner!(Node4, 22, $stored, [(49, 4), (50, 5)]),
            leaf!(LONG_KEY, Some(1), Some(5)),
            leaf!(OTHER_KEY, Some(4), Some(6)),
            leaf!([50, 88, 88, 50, 0], Some(5), None),
            Plain::Renamed(NodeType::Node16, 2),
        ]
    };
}

/// The stored bytes are right, or one is wrong, or the node above has another kind than its name.
static LONG_PREFIXES: [Case<'static>; 3] = cases! {
    text_tree!(STORED, 2) => Told::Whole(4, 3),
    text_tree!(CHANGED, 2) => Told::Stored(&[50, 88, 88, 49], &CHANGED, &STORED),
    text_tree!(STORED, 7) => Told::Dead(&[50], (NodeType::Node16, 7)),
};

#[test]
fn a_long_prefix_is_read_from_its_least_leaf(rt: HostRuntime) -> Result<(), Fail> {
    same(first_wrong::<16>(rt.alloc(), &LONG_PREFIXES), None)
}
