//! The shapes of trees that insertions leave.
ghost use Rattle.std.specs.Prelude.{◌<◌};

use super::trees::{Shape, shape_of};
use art_nodes::node::NodeType::{Node4, Node16, Node256};
use art_nodes::store::NodeStore;
use art_test_support::expected::same;
use art_test_support::trees::{Key, keys_of_three, keys_of_zeros, planted_keys};
use std::alloc::Global;
use std::test::Fail;

/// The keys of a tree.
#[derive(Clone, Copy)]
enum Keys {
    /// All of three bytes, each less than its limit.
    OfThree([u8; 3]),
    OfZeros,
}

fn keys_of(alloc: Global, keys: Keys) -> Result<Vec<Key>, Fail> {
    match keys {
        Keys::OfThree(limits) => keys_of_three(alloc, limits),
        Keys::OfZeros => Ok(keys_of_zeros(alloc)?),
    }
}

/// The shape of a tree without prefixes.
macro_rules! shape {
    ($leaves:literal, $inner:literal, $root:expr, $kinds:expr) => {
        Shape {
            leaves: $leaves,
            inner: $inner,
            root: $root,
            kinds: $kinds,
            longest_prefix: 0,
        }
    };
}

/// Trees and their shapes.
static TREES: [(Keys, Shape); 4] = [
    (
        Keys::OfThree([4, 3, 2]),
        shape!(24, 17, (Node4, 4), (Node4, Node4)),
    ),
    (
        Keys::OfThree([51, 2, 3]),
        shape!(306, 154, (Node256, 51), (Node4, Node256)),
    ),
    (
        Keys::OfThree([6, 6, 6]),
        shape!(216, 43, (Node16, 6), (Node16, Node16)),
    ),
    (Keys::OfZeros, shape!(12, 11, (Node4, 2), (Node4, Node4))),
];

/// The shape of the tree of these keys.
fn shape_from<const P: usize>(store: &mut NodeStore<Key, u32, P>, keys: Vec<Key>) -> Option<Shape> {
    let root = planted_keys(store, keys)?;
    shape_of(store, root).ok()?
}

/// The same in a store of its own.
fn shape_with<const P: usize>(alloc: Global, keys: Keys) -> Result<Option<Shape>, Fail>
    requires { P < 256 }
{
    let keys = keys_of(alloc, keys)?;
    Ok(shape_from::<P>(&mut NodeStore::new(alloc), keys))
}

/// The same with no stored bytes and with sixteen.
fn shape_with_each(alloc: Global, keys: Keys) -> Result<[Option<Shape>; 2], Fail> {
    Ok([
        shape_with::<0>(alloc, keys)?,
        shape_with::<16>(alloc, keys)?,
    ])
}

#[test]
fn trees_have_their_shapes(rt: HostRuntime) -> Result<(), Fail> {
    for (keys, shape) in &TREES {
        same(shape_with_each(rt.alloc(), *keys)?, [Some(*shape); 2])?;
    }
    Ok(())
}
