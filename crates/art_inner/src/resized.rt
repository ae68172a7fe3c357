//! Inner nodes of the next larger and of the next smaller kind. These traits are small, since a proof of a generic call goes
//! through all that its bounds have.
ghost use Rattle.std.specs.Prelude.{◌≡◌, ◌≤◌, length};
ghost use Rattle.art_inner.specs.Inner.{HasPlace, Inner};
ghost use Rattle.art_inner.specs.InnerChanges.{with_child, without_child};
ghost use Rattle.art_parts.specs.Kinds.{kind_capacity};
ghost use Rattle.art_parts.specs.declared.names.NodeType.{NodeType};
ghost use Rattle.art_parts.specs.declared.names.NodeType.TheVariants.{Node4, Node16, Node48, Node256};

use crate::child_table::ChildTable;
use crate::direct::Direct;
use crate::indexed::Indexed;
use crate::inner::{InnerNode, InnerNode4, InnerNode16, InnerNode48, InnerNodeDirect, InnerNodeOf};
use crate::table::Table;
use art_parts::names::{NodeType, OpaqueNodePtr};

/// An inner node of a kind below the largest.
pub trait Grows: Drop {
    type Larger: Drop;

    const LARGER: NodeType;

    ghost LARGER: { NodeType };

    /// The value that contracts see of a node.
    ghost view_of: { Self → Inner };

    /// The value that contracts see of a larger node.
    ghost view_of_larger: { Self.Larger → Inner };

    /// Returns a node of the next larger kind with a further child.
    fn grown_with(self, byte: u8, child: OpaqueNodePtr) -> Self::Larger
        requires { HasPlace (kind_capacity LARGER) (view_of self).children byte }
        ensures { view_of_larger result ≡ with_child byte child (view_of self) };
}

/// An inner node of a kind above the smallest.
pub trait Shrinks: Drop {
    type Smaller: Drop;

    const SMALLER: NodeType;

    ghost SMALLER: { NodeType };

    /// The value that contracts see of a node.
    ghost view_of: { Self → Inner };

    /// The value that contracts see of a smaller node.
    ghost view_of_smaller: { Self.Smaller → Inner };

    /// Returns a node of the next smaller kind without the child under a byte.
    fn shrunk_without(self, byte: u8) -> Self::Smaller
        requires { length (without_child byte (view_of self)).children ≤ kind_capacity SMALLER }
        ensures { view_of_smaller result ≡ without_child byte (view_of self) };
}

impl<const P: usize> Grows for InnerNode4<P> {
    type Larger = InnerNode16<P>;

    const LARGER: NodeType = NodeType::Node16;

    ghost LARGER = { Node16 };

    ghost view_of = { λ n. n };

    ghost view_of_larger = { λ n. n };

    #[inline(never)]
    fn grown_with(self, byte: u8, child: OpaqueNodePtr) -> InnerNode16<P> {
        let mut node = InnerNodeOf {
            header: self.header,
            table: Table::of(self.iter()),
        };
        node.write_child(byte, child);
        node
    }
}

impl<const P: usize> Grows for InnerNode16<P> {
    type Larger = InnerNode48<P>;

    const LARGER: NodeType = NodeType::Node48;

    ghost LARGER = { Node48 };

    ghost view_of = { λ n. n };

    ghost view_of_larger = { λ n. n };

    #[inline(never)]
    fn grown_with(self, byte: u8, child: OpaqueNodePtr) -> InnerNode48<P> {
        let mut node = InnerNodeOf {
            header: self.header,
            table: Indexed::of(self.iter()),
        };
        node.write_child(byte, child);
        node
    }
}

impl<const P: usize> Grows for InnerNode48<P> {
    type Larger = InnerNodeDirect<P>;

    const LARGER: NodeType = NodeType::Node256;

    ghost LARGER = { Node256 };

    ghost view_of = { λ n. n };

    ghost view_of_larger = { λ n. n };

    #[inline(never)]
    fn grown_with(self, byte: u8, child: OpaqueNodePtr) -> InnerNodeDirect<P> {
        let mut node = InnerNodeOf {
            header: self.header,
            table: Direct::of(self.iter()),
        };
        node.write_child(byte, child);
        node
    }
}

impl<const P: usize> Shrinks for InnerNode16<P> {
    type Smaller = InnerNode4<P>;

    const SMALLER: NodeType = NodeType::Node4;

    ghost SMALLER = { Node4 };

    ghost view_of = { λ n. n };

    ghost view_of_smaller = { λ n. n };

    #[inline(never)]
    fn shrunk_without(mut self, byte: u8) -> InnerNode4<P> {
        self.remove_child(byte);
        InnerNodeOf {
            header: self.header,
            table: Table::of(self.iter()),
        }
    }
}

impl<const P: usize> Shrinks for InnerNode48<P> {
    type Smaller = InnerNode16<P>;

    const SMALLER: NodeType = NodeType::Node16;

    ghost SMALLER = { Node16 };

    ghost view_of = { λ n. n };

    ghost view_of_smaller = { λ n. n };

    #[inline(never)]
    fn shrunk_without(mut self, byte: u8) -> InnerNode16<P> {
        self.remove_child(byte);
        InnerNodeOf {
            header: self.header,
            table: Table::of(self.iter()),
        }
    }
}

impl<const P: usize> Shrinks for InnerNodeDirect<P> {
    type Smaller = InnerNode48<P>;

    const SMALLER: NodeType = NodeType::Node48;

    ghost SMALLER = { Node48 };

    ghost view_of = { λ n. n };

    ghost view_of_smaller = { λ n. n };

    #[inline(never)]
    fn shrunk_without(mut self, byte: u8) -> InnerNode48<P> {
        self.remove_child(byte);
        InnerNodeOf {
            header: self.header,
            table: Indexed::of(self.iter()),
        }
    }
}
