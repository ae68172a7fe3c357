//! Links of a leaf to its neighbours in the order of keys.
ghost use Rattle.std.specs.Prelude.{◌≡◌};
ghost use Rattle.art_model.specs.Writes.{change_some, with_links_around, IsThere};
ghost use Rattle.art_copying.specs.Directions.{side_of, with_beside};

use art_nodes::node::{AsBytes, OptionalLeafPtr};
use art_nodes::store::NodeStore;

/// A direction from a leaf, or from the leaves of a tree, in the order of keys.
#[derive(Clone, Copy)]
pub enum Direction {
    Before,
    After,
}

impl Direction {
    /// Returns the direction from the byte of a child to that of a new one.
    #[inline(always)]
    pub fn of(new: u8, other: u8) -> Self
        ensures { result ≡ side_of new other }
    {
        if other < new {
            Direction::After
        } else {
            Direction::Before
        }
    }
}

/// Sets the neighbour of a leaf on one side, if there is a leaf.
#[inline(always)]
pub fn set_beside<K: AsBytes + Drop, V: Drop, const P: usize>(
    store: &mut NodeStore<K, V, P>,
    leaf: OptionalLeafPtr,
    side: Direction,
    other: OptionalLeafPtr,
)
    requires { IsThere store.old.leaves leaf }
    ensures leaves { store.new.leaves ≡ change_some store.old.leaves leaf (with_beside side other) }
    ensures inners { store.new.inners ≡ store.old.inners }
    ensures promise { store.new.promise ≡ store.old.promise }
{
    let Some(leaf) = leaf else {
        return;
    };
    let node = store.leaf_at(leaf);
    let (previous, next) = match side {
        Direction::Before => (other, node.next),
        Direction::After => (node.previous, other),
    };
    store.set_links(leaf, previous, next);
}

/// Links two leaves, or the only one of them with none.
#[inline(always)]
pub fn link<K: AsBytes + Drop, V: Drop, const P: usize>(
    store: &mut NodeStore<K, V, P>,
    previous: OptionalLeafPtr,
    next: OptionalLeafPtr,
)
    requires previous { IsThere store.old.leaves previous }
    requires next { IsThere store.old.leaves next }
    ensures leaves { store.new.leaves
        ≡ with_links_around store.old.leaves previous next next previous }
    ensures inners { store.new.inners ≡ store.old.inners }
    ensures promise { store.new.promise ≡ store.old.promise }
{
    set_beside(store, previous, Direction::After, next);
    set_beside(store, next, Direction::Before, previous);
}
