//! Renames leaves by a table of their slots.
ghost use Rattle.std.specs.Prelude.{◌≡◌, ℕ, length, slice_index_or};
ghost use Rattle.art_inner.specs.Inner.{Inner};
ghost use Rattle.art_inner.specs.InnerRenamed.{inner_renamed};
ghost use Rattle.art_inner.specs.NewNames.{new_name, new_slot};
ghost use Rattle.art_parts.specs.declared.names.NodeType.TheVariants.{Node4};

use crate::child_table::KindTable;
use crate::inner::InnerNodeOf;
use art_parts::header::Header;
use art_parts::names::{LeafPtr, NodeType};

/// A node whose children may be leaves.
pub trait NamesLeaves: Drop {
    /// The value that contracts see of a node.
    ghost view_of: { Self → Inner };

    /// Renames the children that are leaves by a table of slots. It costs a step for each place of the node.
    fn rename_leaves(&mut self, table: &[u32])
        ensures { view_of self.new ≡ inner_renamed (new_name table.now) (view_of self.old) };
}

impl<T: KindTable, const P: usize> NamesLeaves for InnerNodeOf<Header<P>, T> {
    ghost view_of = { λ n. n };

    fn rename_leaves(&mut self, table: &[u32]) {
        self.table.rename_leaves(table)
    }
}

/// Returns the name that a table has for a leaf, or the same name if it has none. It costs one access.
#[inline(always)]
pub fn new_name(table: &[u32], leaf: LeafPtr) -> LeafPtr
    ensures { result ≡ new_name table.now leaf }
{
    match table.get(leaf.slot as usize) {
        Some(&slot) => LeafPtr { slot },
        None => leaf,
    }
}

// Writes for each leaf among so many names the slot that a table has for it.
pub(crate) fn rename_slots(kinds: &[NodeType], slots: &mut [u32], table: &[u32])
    requires { length kinds.now ≡ length slots.old }
    ensures count { length slots.new ≡ length slots.old }
    ensures slots { (k : ℕ) → slice_index_or slots.new k 0 ≡
        new_slot table.now (slice_index_or kinds.now k Node4) (slice_index_or slots.old k 0) }
{
    for at in 0..slots.len() {
        if kinds[at] == NodeType::Leaf {
            slots[at] = new_name(table, LeafPtr { slot: slots[at] }).slot;
        }
    }
}
