//! Tables of the children of inner nodes.
ghost use Rattle.std.specs.Prelude.{◌≡◌, ℕ, ◌<◌, ◌≤◌, ◌^◌, [], length, None};
ghost use Rattle.art_parts.specs.Headers.{Prefix};
ghost use Rattle.art_inner.specs.Inner.{IsSize, Children, HasPlace, IsRising, child_at, put_child, remove_child};
ghost use Rattle.art_inner.specs.Beside.{IsNextTo};
ghost use Rattle.art_inner.specs.InnerRenamed.{children_renamed};
ghost use Rattle.art_inner.specs.NewNames.{new_name};
ghost use Rattle.art_inner.specs.AnyTables.{table_children, table_kind};
ghost use Rattle.art_parts.specs.Kinds.{kind_capacity, larger_kind, smaller_kind};
ghost use Rattle.art_parts.specs.declared.names.NodeType.{NodeType};

use crate::children::Children;
use crate::direct::Direct;
use crate::indexed::Indexed;
use crate::table::Table;
use art_parts::header::Header;
use art_parts::names::{NodeType, OpaqueNodePtr};

/// The header of an inner node. By this trait a node has the header's type for a parameter, and not a number: then a
/// method of any trait can take it.
pub trait NodeHeader {
    /// The prefix of the node.
    ghost prefix_of: { Self → Prefix };

    /// Its size fits the machine.
    ghost Fits: { Type 0 };
}

impl<const P: usize> NodeHeader for Header<P> {
    ghost prefix_of = { λ header. header };

    ghost Fits = { IsSize P };
}

/// Names under rising bytes.
pub trait ChildTable: Drop {
    /// The children of the table.
    ghost children_of: { Self → Children };

    /// How many children it has room for.
    ghost capacity: { ℕ };

    /// Returns a table without children.
    fn new() -> Self
        requires { capacity < 2 ^ 16 }
        ensures { children_of result ≡ [] };

    /// Returns a table of these children.
    fn of(children: Children<'_>) -> Self
        requires rising { IsRising children }
        requires fit { length children ≤ capacity }
        requires small { capacity < 2 ^ 16 }
        ensures { children_of result ≡ children.entry };

    /// Returns a table of the same children.
    fn copy(&self) -> Self
        ensures { children_of result ≡ children_of self.now };

    /// Returns the children by rising bytes.
    fn iter(&self) -> Children<'_>
        ensures children { result ≡ children_of self.now }
        ensures rising { IsRising (children_of self.now) }
        ensures bound { length (children_of self.now) ≤ capacity };

    /// Returns a child next to a byte that has none itself.
    fn beside(&self, byte: u8) -> (u8, OpaqueNodePtr)
        requires some { 0 < length (children_of self.now) }
        requires absent { child_at (children_of self.now) byte ≡ None }
        ensures beside { IsNextTo (children_of self.now) byte result }
        ensures bound { length (children_of self.now) ≤ capacity };

    /// Sets the child under a byte. An old one is replaced.
    fn write(&mut self, byte: u8, child: OpaqueNodePtr)
        requires { HasPlace capacity (children_of self.old) byte }
        ensures { children_of self.new ≡ put_child (children_of self.old) byte child };

    /// Removes the child under a byte, and returns its name.
    fn remove(&mut self, byte: u8) -> Option<OpaqueNodePtr>
        ensures removed { result ≡ child_at (children_of self.old) byte }
        ensures rest { children_of self.new ≡ remove_child (children_of self.old) byte };

    /// Renames the leaves among the children by a table of slots.
    fn rename_leaves(&mut self, table: &[u32])
        ensures { children_of self.new
            ≡ children_renamed (new_name table.now) (children_of self.old) };
}

/// A table of any kind.
#[derive(Drop)]
pub enum AnyTable {
    Node4(Table<4>),
    Node16(Table<16>),
    Node48(Indexed),
    Node256(Direct),
}

/// The table of an inner node of one kind.
pub trait KindTable: ChildTable {
    const TYPE: NodeType;

    ghost TYPE: { NodeType };

    /// Returns the name under a byte.
    fn lookup(&self, byte: u8) -> Option<OpaqueNodePtr>
        ensures { result ≡ child_at (Self.children_of self.now) byte };

    /// Returns the name under a byte, as `lookup` does. If no child has a lower byte, as with the byte 0, it costs
    /// one comparison.
    #[inline(always)]
    fn lookup_least(&self, byte: u8) -> Option<OpaqueNodePtr>
        ensures { result ≡ child_at (Self.children_of self.now) byte }
    {
        self.lookup(byte)
    }

    /// Returns the same table.
    fn into_any(self) -> AnyTable
        ensures kind { table_kind result ≡ TYPE }
        ensures children { table_children result ≡ Self.children_of self };

    /// Returns the table of the next larger kind. A table of the largest kind stays what it is.
    fn larger(self) -> AnyTable
        ensures kind { table_kind result ≡ larger_kind TYPE }
        ensures children { table_children result ≡ Self.children_of self };

    /// Returns the table of the next smaller kind. A table of the smallest kind stays what it is.
    fn smaller(self) -> AnyTable
        requires { length (Self.children_of self) ≤ kind_capacity (smaller_kind TYPE) }
        ensures kind { table_kind result ≡ smaller_kind TYPE }
        ensures children { table_children result ≡ Self.children_of self };

    /// It has as much room as the kind.
    ghost capacity_is: { Self.capacity ≡ kind_capacity TYPE };
}
