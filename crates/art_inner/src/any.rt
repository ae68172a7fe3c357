//! Inner nodes of any kind.
ghost use Rattle.std.specs.Prelude.{◌≡◌, ◌≢◌, ◌-◌, min, ◌<◌, ◌≤◌, length, Some, All, slice_get, IsTrue, ◌↔◌, ⊤};
ghost use Rattle.art_inner.specs.AnyTables.{table_children, table_kind};
ghost use Rattle.art_inner.specs.Inner.{HasPlace, child_at, childless, IsRising, children_between};
ghost use Rattle.art_inner.specs.InnerChanges.{with_child, with_header, without_child};
ghost use Rattle.art_inner.specs.Views.{any_kind, any_view, ref_kind, ref_view};
ghost use Rattle.art_parts.specs.Kinds.{kind_capacity, larger_kind, smaller_kind};
ghost use Rattle.art_parts.specs.declared.names.NodeType.TheVariants.{Leaf};
ghost use Rattle.art_parts.specs.declared.names.NodeType.TheVariants as kinds;

use crate::child_table::{AnyTable, ChildTable, KindTable};
use crate::children::Children;
use crate::inner::{InnerNode, InnerNode4, InnerNode16, InnerNode48, InnerNodeDirect, InnerNodeOf};
use art_parts::header::{FromHeader, Header};
use art_parts::names::{NodeType, OpaqueNodePtr};
use std::alloc::AllocError;

// Runs the same code on a node of any kind.
macro_rules! on_each_kind {
    ($any:ident, $it:expr, $node:ident => $code:expr) => {
        match $it {
            $any::Node4($node) => $code,
            $any::Node16($node) => $code,
            $any::Node48($node) => $code,
            $any::Node256($node) => $code,
        }
    };
}

/// An inner node of any kind.
#[derive(Drop)]
pub enum AnyInner<const P: usize> {
    Node4(InnerNode4<P>),
    Node16(InnerNode16<P>),
    Node48(InnerNode48<P>),
    Node256(InnerNodeDirect<P>),
}

impl<const P: usize> Clone for AnyInner<P> {
    ghost is_clone = { λ node copy. copy ≡ node };

    ghost is_infallible = { λ _. ⊤ };

    fn clone(&self) -> Result<Self, AllocError> {
        Ok(match self {
            AnyInner::Node4(node) => AnyInner::Node4(node.clone()?),
            AnyInner::Node16(node) => AnyInner::Node16(node.clone()?),
            AnyInner::Node48(node) => AnyInner::Node48(node.clone()?),
            AnyInner::Node256(node) => AnyInner::Node256(node.clone()?),
        })
    }
}

/// A reference to an inner node of one of four types.
pub enum InnerRefOf<'a, A, B, C, D> {
    Node4(&'a A),
    Node16(&'a B),
    Node48(&'a C),
    Node256(&'a D),
}

impl<A, B, C, D> Clone for InnerRefOf<'_, A, B, C, D> {
    ghost is_clone = { λ node copy. copy ≡ node };

    ghost is_infallible = { λ _. ⊤ };

    fn clone(&self) -> Result<Self, AllocError> {
        Ok(*self)
    }
}

impl<A, B, C, D> Copy for InnerRefOf<'_, A, B, C, D> {}

/// A reference to an inner node of any kind. It is an alias, since an `impl` of a trait whose method
/// takes a type with a lifetime and a const parameter gets no proof.
pub type InnerRef<'a, const P: usize> = InnerRefOf<
    'a,
    InnerNode4<P>,
    InnerNode16<P>,
    InnerNode48<P>,
    InnerNodeDirect<P>,
>;

impl<const P: usize> AnyInner<P> {
    /// Returns a node of this kind with no child.
    pub fn from_header(kind: NodeType, header: Header<P>) -> Self
        requires { kind ≢ Leaf }
        ensures kind { any_kind result ≡ kind }
        ensures view { any_view result ≡ childless header.entry }
    {
        match kind {
            NodeType::Node4 => AnyInner::Node4(InnerNode4::from_header(header)),
            NodeType::Node16 => AnyInner::Node16(InnerNode16::from_header(header)),
            NodeType::Node48 => AnyInner::Node48(InnerNode48::from_header(header)),
            NodeType::Node256 => AnyInner::Node256(InnerNodeDirect::from_header(header)),
            NodeType::Leaf => unreachable!(),
        }
    }

    // A node with this header and this table.
    pub(crate) fn of(header: Header<P>, table: AnyTable) -> Self
        ensures kind { any_kind result ≡ table_kind table }
        ensures prefix { (any_view result).prefix ≡ header.entry }
        ensures children { (any_view result).children ≡ table_children table }
    {
        match table {
            AnyTable::Node4(table) => AnyInner::Node4(InnerNodeOf { header, table }),
            AnyTable::Node16(table) => AnyInner::Node16(InnerNodeOf { header, table }),
            AnyTable::Node48(table) => AnyInner::Node48(InnerNodeOf { header, table }),
            AnyTable::Node256(table) => AnyInner::Node256(InnerNodeOf { header, table }),
        }
    }

    /// Returns the kind of the node.
    pub fn node_type(&self) -> NodeType
        ensures kind { result ≡ any_kind self.now }
        ensures inner { any_kind self.now ≢ Leaf }
    {
        match self {
            AnyInner::Node4(_) => NodeType::Node4,
            AnyInner::Node16(_) => NodeType::Node16,
            AnyInner::Node48(_) => NodeType::Node48,
            AnyInner::Node256(_) => NodeType::Node256,
        }
    }

    /// Sets the child under a byte. An old one is replaced.
    pub fn write_child(&mut self, byte: u8, child: OpaqueNodePtr)
        requires { HasPlace (kind_capacity (any_kind self.old)) (any_view self.old).children byte }
        ensures kind { any_kind self.new ≡ any_kind self.old }
        ensures view { any_view self.new ≡ with_child byte child (any_view self.old) }
    {
        on_each_kind!(AnyInner, self, node => node.write_child(byte, child))
    }

    /// Removes the child under a byte, and returns its name.
    pub fn remove_child(&mut self, byte: u8) -> Option<OpaqueNodePtr>
        ensures removed { result ≡ child_at (any_view self.old).children byte }
        ensures kind { any_kind self.new ≡ any_kind self.old }
        ensures rest { any_view self.new ≡ without_child byte (any_view self.old) }
    {
        on_each_kind!(AnyInner, self, node => node.remove_child(byte))
    }

    /// Returns the node of the next larger kind.
    pub fn grow(self) -> Self
        requires { any_kind self ≢ kinds.Node256 }
        ensures kind { any_kind result ≡ larger_kind (any_kind self.entry) }
        ensures view { any_view result ≡ any_view self.entry }
    {
        on_each_kind!(AnyInner, self, node => node.grow())
    }

    /// Returns the node of the next smaller kind.
    pub fn shrink(self) -> Self
        requires smaller { any_kind self ≢ kinds.Node4 }
        requires fit { length (any_view self).children ≤
            kind_capacity (smaller_kind (any_kind self)) }
        ensures kind { any_kind result ≡ smaller_kind (any_kind self.entry) }
        ensures view { any_view result ≡ any_view self.entry }
    {
        on_each_kind!(AnyInner, self, node => node.shrink())
    }

    /// Replaces the header of the node. Its children stay.
    pub fn set_header(&mut self, header: Header<P>)
        ensures kind { any_kind self.new ≡ any_kind self.old }
        ensures view { any_view self.new ≡ with_header header.entry (any_view self.old) }
    {
        on_each_kind!(AnyInner, self, node => node.set_header(header))
    }

    /// Borrows the node as one of its kind.
    #[inline(always)]
    pub fn as_ref(&self) -> InnerRef<'_, P>
        ensures kind { ref_kind result ≡ any_kind self.now }
        ensures view { ref_view result ≡ any_view self.now }
    {
        match self {
            AnyInner::Node4(node) => InnerRef::Node4(node),
            AnyInner::Node16(node) => InnerRef::Node16(node),
            AnyInner::Node48(node) => InnerRef::Node48(node),
            AnyInner::Node256(node) => InnerRef::Node256(node),
        }
    }
}

impl<'a, const P: usize> InnerRef<'a, P> {
    /// Returns the kind of the node.
    #[inline(always)]
    pub fn node_type(&self) -> NodeType
        ensures kind { result ≡ ref_kind self.now }
        ensures inner { ref_kind self.now ≢ Leaf }
    {
        match self {
            InnerRef::Node4(_) => NodeType::Node4,
            InnerRef::Node16(_) => NodeType::Node16,
            InnerRef::Node48(_) => NodeType::Node48,
            InnerRef::Node256(_) => NodeType::Node256,
        }
    }

    /// Returns a copy of the header; `read_prefix` borrows its stored bytes.
    pub fn header(&self) -> Header<P>
        ensures { result ≡ (ref_view self.now).prefix }
    {
        on_each_kind!(InnerRef, self, node => node.header())
    }

    /// Returns the length of the prefix, which may be more than is stored.
    #[inline(always)]
    pub fn prefix_len(&self) -> usize
        ensures { result ≡ (ref_view self.now).prefix.len }
    {
        on_each_kind!(InnerRef, self, node => node.prefix_len())
    }

    /// Returns the stored bytes of the prefix.
    #[inline(always)]
    pub fn read_prefix(&self) -> &[u8]
        ensures stored { result.now ≡ (ref_view self.now).prefix.stored }
        ensures count { length (ref_view self.now).prefix.stored ≡
            min (ref_view self.now).prefix.len P }
    {
        on_each_kind!(InnerRef, self, node => node.read_prefix())
    }

    /// Returns the children by rising bytes.
    pub fn iter(&self) -> Children<'a>
        ensures children { result ≡ (ref_view self.now).children }
        ensures rising { IsRising (ref_view self.now).children }
        ensures bound { length (ref_view self.now).children ≤ kind_capacity (ref_kind self.now) }
    {
        on_each_kind!(InnerRef, *self, node => node.table.iter())
    }

    /// Returns the number of children.
    pub fn num_children(&self) -> usize
        ensures value { result ≡ length (ref_view self.now).children }
        ensures bound { length (ref_view self.now).children ≤ kind_capacity (ref_kind self.now) }
    {
        self.iter().len()
    }

    /// Returns whether there are as many children as the kind has room for.
    pub fn is_full(&self) -> bool
        ensures { IsTrue result ↔
            (kind_capacity (ref_kind self.now) ≤ length (ref_view self.now).children) }
    {
        self.num_children() >= self.node_type().capacity()
    }

    /// Returns the name under a byte.
    #[inline(always)]
    pub fn lookup_child(&self, byte: u8) -> Option<OpaqueNodePtr>
        ensures { result ≡ child_at (ref_view self.now).children byte }
    {
        on_each_kind!(InnerRef, *self, node => node.table.lookup(byte))
    }

    /// Returns the name under a byte, as `lookup_child` does. If no child has a lower byte, as with the byte 0, it costs
    /// one comparison.
    #[inline(always)]
    pub fn lookup_least(&self, byte: u8) -> Option<OpaqueNodePtr>
        ensures { result ≡ child_at (ref_view self.now).children byte }
    {
        on_each_kind!(InnerRef, *self, node => node.table.lookup_least(byte))
    }

    /// Returns the least byte, and the name under it.
    pub fn min(&self) -> (u8, OpaqueNodePtr)
        requires { 0 < length (ref_view self.now).children }
        ensures first { slice_get (ref_view self.now).children 0 ≡ Some result }
        ensures least { All (λ child. result.0 ≤ child.0) (ref_view self.now).children }
    {
        self.iter().least()
    }

    /// Returns the greatest byte, and the name under it.
    pub fn max(&self) -> (u8, OpaqueNodePtr)
        requires { 0 < length (ref_view self.now).children }
        ensures last { slice_get (ref_view self.now).children
            (length (ref_view self.now).children - 1) ≡ Some result }
        ensures greatest { All (λ child. child.0 ≤ result.0) (ref_view self.now).children }
    {
        self.iter().greatest()
    }

    /// Returns the children under the bytes from `first` to `last`, both included: none where `last` is less.
    pub fn range(&self, first: u8, last: u8) -> Children<'a>
        ensures { result ≡ children_between first last (ref_view self.now).children }
    {
        self.iter().between(first, last)
    }
}
