//! Folds of trees, and the bytes that lead to nodes.
ghost use Rattle.std.specs.Prelude.{◌<◌, ⊤};

use art_checking::visitor::{Visitor, visit_with};
use art_checking::well_formed::KeyPrefix;
use art_nodes::node::{AsBytes, InnerRef, LeafNode};
use art_nodes::store::NodeStore;
use art_test_support::expected::same;
use art_test_support::trees::{Key, planted_all};
use std::alloc::{AllocError, Global};
use std::test::Fail;

/// An output is ten times the output so far plus the next child's, and an inner node adds a number of its own.
#[derive(Clone, Copy)]
struct Digits {
    of_node: u64,
}

impl<K: AsBytes + Drop, const P: usize> Visitor<K, u32, P> for Digits {
    type Output = u64;

    ghost is_default = { λ visitor output. ⊤ };

    ghost combines = { λ visitor first second output. ⊤ };

    ghost of_inner = { λ old kind node children output new. ⊤ };

    ghost of_leaf = { λ old leaf output new. ⊤ };

    fn default_output(&self) -> u64 {
        0
    }

    fn combine_output(&self, o1: u64, o2: u64) -> u64 {
        o1.wrapping_mul(10).wrapping_add(o2)
    }

    fn visit_inner_node(&mut self, _node: InnerRef<'_, P>, children: u64) -> u64
        ensures { ⊤ }
    {
        children.wrapping_add(self.of_node)
    }

    fn visit_leaf(&mut self, leaf: &LeafNode<K, u32>) -> u64 {
        u64::from(leaf.value).wrapping_add(1)
    }
}

/// The numbers of the tree of these keys: where an inner node adds nothing, and where it adds one.
fn folds_of<const P: usize>(
    store: &mut NodeStore<Key, u32, P>,
    slices: &[&[u8]],
) -> Option<[u64; 2]> {
    let root = planted_all(store, slices).ok()??;
    Some([
        visit_with(store, root, &mut Digits { of_node: 0 }),
        visit_with(store, root, &mut Digits { of_node: 1 }),
    ])
}

/// The same in a store of its own.
fn folds_with<const P: usize>(alloc: Global, slices: &[&[u8]]) -> Option<[u64; 2]>
    requires { P < 256 }
{
    folds_of::<P>(&mut NodeStore::new(alloc), slices)
}

#[test]
fn outputs_of_children_are_joined_in_order(rt: HostRuntime) -> Result<(), Fail> {
    let folds = folds_with::<16>(rt.alloc(), &[&[1], &[2], &[3, 1], &[3, 2]]);
    same(folds, Some([154, 156]))
}

/// Whether no bytes are empty, a copy of bytes holds them, and a clone of it is equal and holds them.
fn prefix_seen(alloc: Global, bytes: &[u8]) -> Result<[bool; 4], AllocError> {
    let prefix = KeyPrefix::from_slice(alloc, bytes)?;
    let copy = prefix.clone()?;
    Ok([
        KeyPrefix::new(alloc).as_slice().is_empty(),
        prefix.as_slice() == bytes,
        copy == prefix,
        copy.as_slice() == bytes,
    ])
}

/// Whether bytes are before others, and unequal to them, as prefixes.
fn is_before(alloc: Global, bytes: &[u8], others: &[u8]) -> Result<bool, AllocError> {
    let prefix = KeyPrefix::from_slice(alloc, bytes)?;
    let other = KeyPrefix::from_slice(alloc, others)?;
    Ok(prefix < other && prefix != other)
}

/// What is seen of two bytes and of none.
fn prefixes_seen(alloc: Global) -> Option<[[bool; 4]; 2]> {
    let with_bytes = prefix_seen(alloc, &[1, 2]).ok()?;
    Some([with_bytes, prefix_seen(alloc, &[]).ok()?])
}

/// Whether a prefix is before the whole, in two cases, and a lesser byte decides, in both directions.
fn orders_seen(alloc: Global) -> Option<[bool; 4]> {
    let of_none = is_before(alloc, &[], &[0]).ok()?;
    let of_front = is_before(alloc, &[1, 2], &[1, 2, 0]).ok()?;
    let of_lesser = is_before(alloc, &[1, 2, 255], &[1, 3]).ok()?;
    let of_greater = is_before(alloc, &[1, 3], &[1, 2]).ok()?;
    Some([of_none, of_front, of_lesser, of_greater])
}

#[test]
fn key_prefixes_hold_their_bytes(rt: HostRuntime) -> Result<(), Fail> {
    same(prefixes_seen(rt.alloc()), Some([[true; 4]; 2]))?;
    same(orders_seen(rt.alloc()), Some([true, true, true, false]))
}
