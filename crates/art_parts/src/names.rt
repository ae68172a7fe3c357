//! The names of nodes, and their kinds.
ghost use Rattle.std.specs.Prelude.{◌≡◌, ◌≢◌, false, Some, IsSome, IfSome, ◌↔◌};
ghost use Rattle.art_parts.specs.Kinds.{kind_text, kind_capacity, kind_least, next_larger, next_smaller};
ghost use Rattle.art_parts.specs.Names.{inner_name, leaf_name, name_text, name_in, IsProper};
ghost use Rattle.std.specs.Range.{range_inclusive_start, range_inclusive_end, range_inclusive_exhausted};
ghost use Rattle.art_parts.specs.declared.names.NodeType.TheVariants.{Leaf};

use std::fmt;
use std::ops::RangeInclusive;

/// The kind of a node.
#[derive(Clone, Copy, PartialEq, Eq, PartialOrd, Ord, Hash, Debug)]
pub enum NodeType {
    Node4,
    Node16,
    Node48,
    Node256,
    Leaf,
}

impl NodeType {
    /// Returns how many children a node of this kind has in a well-formed tree.
    pub fn capacity_range(self) -> RangeInclusive<usize>
        requires { self ≢ Leaf }
        ensures least { range_inclusive_start result ≡ kind_least self }
        ensures most { range_inclusive_end result ≡ kind_capacity self }
        ensures fresh { range_inclusive_exhausted result ≡ false }
    {
        let least = match self {
            NodeType::Node4 => 2,
            NodeType::Node16 => 5,
            NodeType::Node48 => 17,
            NodeType::Node256 => 49,
            NodeType::Leaf => unreachable!(),
        };
        least..=self.capacity()
    }

    /// Returns the next kind with room for more children, if there is one.
    pub fn larger(self) -> Option<NodeType>
        ensures { result ≡ next_larger self }
    {
        match self {
            NodeType::Node4 => Some(NodeType::Node16),
            NodeType::Node16 => Some(NodeType::Node48),
            NodeType::Node48 => Some(NodeType::Node256),
            NodeType::Leaf | NodeType::Node256 => None,
        }
    }

    /// Returns the next kind with room for fewer children, if there is one.
    pub fn smaller(self) -> Option<NodeType>
        ensures { result ≡ next_smaller self }
    {
        match self {
            NodeType::Node16 => Some(NodeType::Node4),
            NodeType::Node48 => Some(NodeType::Node16),
            NodeType::Node256 => Some(NodeType::Node48),
            NodeType::Leaf | NodeType::Node4 => None,
        }
    }

    /// Returns how many children a node of this kind has room for.
    pub fn capacity(self) -> usize
        ensures { result ≡ kind_capacity self }
    {
        match self {
            NodeType::Node4 => 4,
            NodeType::Node16 => 16,
            NodeType::Node48 => 48,
            NodeType::Node256 => 256,
            NodeType::Leaf => 0,
        }
    }
}

impl fmt::Display for NodeType {
    ghost output = { λ kind. Some (kind_text kind) };

    fn fmt<W: fmt::Write>(&self, f: &mut fmt::Formatter<W>) -> fmt::Result {
        f.write_str(match self {
            NodeType::Node4 => "Node4",
            NodeType::Node16 => "Node16",
            NodeType::Node48 => "Node48",
            NodeType::Node256 => "Node256",
            NodeType::Leaf => "Leaf",
        })
    }
}

/// The name of a leaf: the number of its slot. It may be the name of no leaf.
#[derive(Clone, Copy, PartialEq, Eq, PartialOrd, Ord, Hash, Debug)]
pub struct LeafPtr {
    pub slot: u32,
}

/// The name of a leaf, where there is one.
pub type OptionalLeafPtr = Option<LeafPtr>;

/// The name of an inner node: its kind and the number of its slot. It may be the name of no node.
#[derive(Clone, Copy, PartialEq, Eq, PartialOrd, Ord, Hash, Debug)]
pub struct InnerPtr {
    pub kind: NodeType,
    pub slot: u32,
}

/// The name of a node of any kind.
#[derive(Clone, Copy, PartialEq, Eq, PartialOrd, Ord, Hash, Debug)]
pub struct OpaqueNodePtr {
    pub kind: NodeType,
    pub slot: u32,
}

/// The name of a node, by whether it is a leaf's.
#[derive(Clone, Copy, PartialEq, Eq, PartialOrd, Ord, Hash, Debug)]
pub enum NodePtr {
    Leaf(LeafPtr),
    Inner(InnerPtr),
}

impl LeafPtr {
    /// Returns the name of the leaf in this slot, whether there is one or not.
    pub fn from_slot(slot: u32) -> Self
        ensures { result.slot ≡ slot }
    {
        LeafPtr { slot }
    }

    /// Returns it as the name of a node.
    #[inline(always)]
    pub fn to_opaque(self) -> OpaqueNodePtr
        ensures { result ≡ leaf_name self }
    {
        OpaqueNodePtr {
            kind: NodeType::Leaf,
            slot: self.slot,
        }
    }
}

impl InnerPtr {
    /// Returns the name of the inner node of this kind in this slot, or `None` for the kind of leaves.
    pub fn from_parts(kind: NodeType, slot: u32) -> Option<Self>
        ensures inner { IsSome result ↔ (kind ≢ Leaf) }
        ensures parts { IfSome result (λ name. name ≡ record { kind = kind; slot = slot }) }
    {
        match kind {
            NodeType::Leaf => None,
            kind => Some(InnerPtr { kind, slot }),
        }
    }

    /// Returns it as the name of a node.
    #[inline(always)]
    pub fn to_opaque(self) -> OpaqueNodePtr
        ensures { result ≡ inner_name self }
    {
        OpaqueNodePtr {
            kind: self.kind,
            slot: self.slot,
        }
    }
}

impl OpaqueNodePtr {
    /// Returns the name of the node of this kind in this slot, whether there is one or not.
    pub fn from_parts(kind: NodeType, slot: u32) -> Self
        ensures { result ≡ record { kind = kind; slot = slot } }
    {
        OpaqueNodePtr { kind, slot }
    }

    /// Returns the kind of the node.
    #[inline(always)]
    pub fn node_type(self) -> NodeType
        ensures { result ≡ self.kind }
    {
        self.kind
    }

    /// Returns the slot of the node, among those of its kind.
    #[inline(always)]
    pub fn slot(self) -> u32
        ensures { result ≡ self.slot }
    {
        self.slot
    }

    /// Returns the name as a leaf's, or `None` if it is an inner node's.
    #[inline(always)]
    pub fn as_leaf(self) -> Option<LeafPtr>
        ensures leaf { IsSome result ↔ (self.kind ≡ Leaf) }
        ensures name { IfSome result (λ leaf. leaf_name leaf ≡ self) }
    {
        match self.split() {
            NodePtr::Leaf(leaf) => Some(leaf),
            NodePtr::Inner(_) => None,
        }
    }

    /// Returns the name as an inner node's, or `None` if it is a leaf's.
    #[inline(always)]
    pub fn as_inner(self) -> Option<InnerPtr>
        ensures inner { IsSome result ↔ (self.kind ≢ Leaf) }
        ensures name { IfSome result (λ inner. inner_name inner ≡ self) }
    {
        match self.split() {
            NodePtr::Leaf(_) => None,
            NodePtr::Inner(inner) => Some(inner),
        }
    }

    /// Returns the name as one of `NodePtr`, by whether it is a leaf's.
    #[inline(always)]
    pub fn split(self) -> NodePtr
        ensures name { name_in result ≡ self }
        ensures proper { IsProper result }
    {
        match self.kind {
            NodeType::Leaf => NodePtr::Leaf(LeafPtr { slot: self.slot }),
            kind => NodePtr::Inner(InnerPtr {
                kind,
                slot: self.slot,
            }),
        }
    }
}

impl fmt::Display for LeafPtr {
    ghost output = { λ leaf. Some (name_text (leaf_name leaf)) };

    fn fmt<W: fmt::Write>(&self, f: &mut fmt::Formatter<W>) -> fmt::Result {
        let name = self.to_opaque();
        write!(f, "{name}")
    }
}

impl fmt::Display for InnerPtr {
    ghost output = { λ inner. Some (name_text (inner_name inner)) };

    fn fmt<W: fmt::Write>(&self, f: &mut fmt::Formatter<W>) -> fmt::Result {
        let name = self.to_opaque();
        write!(f, "{name}")
    }
}

impl fmt::Display for OpaqueNodePtr {
    ghost output = { λ name. Some (name_text name) };

    fn fmt<W: fmt::Write>(&self, f: &mut fmt::Formatter<W>) -> fmt::Result {
        let OpaqueNodePtr { kind, slot } = *self;
        write!(f, "{kind}#{slot}")
    }
}
