//! Inner nodes of each kind.
ghost use Rattle.std.specs.Prelude.{◌≡◌, ◌-◌, ◌<◌, ◌≤◌, min, length, slice_get, Some, All, IsTrue, ◌↔◌, ⊤};
ghost use Rattle.art_inner.specs.InnerChanges.{with_child, without_child, with_header};
ghost use Rattle.art_inner.specs.Inner.{HasPlace, Inner, IsRising, child_at, childless, children_between};
ghost use Rattle.art_parts.specs.Headers.{Prefix};
ghost use Rattle.art_inner.specs.Views.{any_kind, any_view};
ghost use Rattle.art_parts.specs.Kinds.{kind_capacity, larger_kind, smaller_kind};
ghost use Rattle.art_parts.specs.declared.names.NodeType.{NodeType};

use crate::any::AnyInner;
use crate::child_table::{ChildTable, KindTable, NodeHeader};
use crate::children::Children;
use crate::direct::Direct;
use crate::indexed::Indexed;
use crate::table::Table;
use art_parts::header::{FromHeader, Header};
use art_parts::names::{NodeType, OpaqueNodePtr};
use std::alloc::AllocError;
use std::marker::Model;

/// An inner node of one kind.
pub trait InnerNode<const P: usize>: FromHeader<Header<P>> {
    const TYPE: NodeType;

    ghost TYPE: { NodeType };

    /// The value that contracts see of a node.
    ghost view_of: { Self → Inner };

    fn header(&self) -> Header<P>
        ensures { result ≡ (view_of self.now).prefix };

    /// Returns the length of the prefix, which may be more than is stored.
    fn prefix_len(&self) -> usize
        ensures { result ≡ (view_of self.now).prefix.len };

    /// Returns the stored bytes of the prefix.
    fn read_prefix(&self) -> &[u8]
        ensures stored { result.now ≡ (view_of self.now).prefix.stored }
        ensures count { length (view_of self.now).prefix.stored ≡
            min (view_of self.now).prefix.len P };

    /// Returns the children by rising bytes.
    fn iter(&self) -> Children<'_>
        ensures children { result ≡ (view_of self.now).children }
        ensures rising { IsRising (view_of self.now).children }
        ensures bound { length (view_of self.now).children ≤ kind_capacity TYPE };

    /// Sets the child under a byte. An old one is replaced.
    fn write_child(&mut self, byte: u8, child: OpaqueNodePtr)
        requires { HasPlace (kind_capacity TYPE) (view_of self.old).children byte }
        ensures { view_of self.new ≡ with_child byte child (view_of self.old) };

    /// Removes the child under a byte, and returns its name.
    fn remove_child(&mut self, byte: u8) -> Option<OpaqueNodePtr>
        ensures removed { result ≡ child_at (view_of self.old).children byte }
        ensures rest { view_of self.new ≡ without_child byte (view_of self.old) };

    fn into_any(self) -> AnyInner<P>
        ensures kind { any_kind result ≡ TYPE }
        ensures view { any_view result ≡ view_of self };

    /// Returns the node of the next larger kind. A node of the largest kind stays what it is.
    fn grow(self) -> AnyInner<P>
        ensures kind { any_kind result ≡ larger_kind TYPE }
        ensures view { any_view result ≡ view_of self };

    /// Returns the node of the next smaller kind. A node of the smallest kind stays what it is.
    fn shrink(self) -> AnyInner<P>
        requires { length (view_of self).children ≤ kind_capacity (smaller_kind TYPE) }
        ensures kind { any_kind result ≡ smaller_kind TYPE }
        ensures view { any_view result ≡ view_of self };

    fn num_children(&self) -> usize
        ensures value { result ≡ length (view_of self.now).children }
        ensures bound { length (view_of self.now).children ≤ kind_capacity TYPE }
    {
        self.iter().len()
    }

    fn is_full(&self) -> bool
        ensures { IsTrue result ↔ (kind_capacity TYPE ≤ length (view_of self.now).children) }
    {
        self.num_children() >= Self::TYPE.capacity()
    }

    /// Returns the name under a byte.
    fn lookup_child(&self, byte: u8) -> Option<OpaqueNodePtr>
        ensures { result ≡ child_at (view_of self.now).children byte };

    /// Returns the name under a byte, as `lookup_child` does. If no child has a lower byte, as with the byte 0, it costs
    /// one comparison.
    fn lookup_least(&self, byte: u8) -> Option<OpaqueNodePtr>
        ensures { result ≡ child_at (view_of self.now).children byte };

    /// Returns the least byte, and the name under it.
    fn min(&self) -> (u8, OpaqueNodePtr)
        requires { 0 < length (view_of self.now).children }
        ensures first { slice_get (view_of self.now).children 0 ≡ Some result }
        ensures least { All (λ child. result.0 ≤ child.0) (view_of self.now).children }
    {
        self.iter().least()
    }

    /// Returns the greatest byte, and the name under it.
    fn max(&self) -> (u8, OpaqueNodePtr)
        requires { 0 < length (view_of self.now).children }
        ensures last { slice_get (view_of self.now).children
            (length (view_of self.now).children - 1) ≡ Some result }
        ensures greatest { All (λ child. child.0 ≤ result.0) (view_of self.now).children }
    {
        self.iter().greatest()
    }

    /// Returns the children under the bytes from `first` to `last`, both included: none where `last` is less.
    fn range(&self, first: u8, last: u8) -> Children<'_>
        ensures { result ≡ children_between first last (view_of self.now).children }
    {
        self.iter().between(first, last)
    }

    /// A new node has no child.
    ghost starts_childless: { (header : Prefix) (node : Self) →
        Self.FromHeader.starts header node → view_of node ≡ childless header };
}

/// An inner node: its header, and the table of its children.
#[derive(Drop)]
pub struct InnerNodeOf<H: NodeHeader, T: KindTable> {
    pub(crate) header: H,
    pub(crate) table: T,
}

/// An inner node of up to 4 children.
pub type InnerNode4<const P: usize> = InnerNodeOf<Header<P>, Table<4>>;

/// An inner node of up to 16 children.
pub type InnerNode16<const P: usize> = InnerNodeOf<Header<P>, Table<16>>;

/// An inner node of up to 48 children.
pub type InnerNode48<const P: usize> = InnerNodeOf<Header<P>, Indexed>;

/// An inner node of up to 256 children.
pub type InnerNodeDirect<const P: usize> = InnerNodeOf<Header<P>, Direct>;

impl<H: NodeHeader, T: KindTable> Model for InnerNodeOf<H, T> {
    ghost use Rattle.art_inner.specs.Inner.{Inner};

    ghost Value = { Inner };

    ghost view = { λ n. record {
      prefix = H.prefix_of n.header;
      children = T.children_of n.table;
    } };

    ghost invariant = { λ _. H.Fits };
}

impl<T: KindTable, const P: usize> Clone for InnerNodeOf<Header<P>, T> {
    ghost is_clone = { λ node copy. copy ≡ node };

    ghost is_infallible = { λ _. ⊤ };

    fn clone(&self) -> Result<Self, AllocError> {
        Ok(InnerNodeOf {
            header: self.header,
            table: self.table.copy(),
        })
    }
}

impl<T: KindTable, const P: usize> FromHeader<Header<P>> for InnerNodeOf<Header<P>, T> {
    ghost starts = { λ h n. n ≡ childless h };

    fn from_header(header: Header<P>) -> Self {
        InnerNodeOf::from_header(header)
    }
}

impl<T: KindTable, const P: usize> InnerNodeOf<Header<P>, T> {
    /// Returns a node with this header and no child.
    pub fn from_header(header: Header<P>) -> Self
        ensures { result ≡ childless header.entry }
    {
        InnerNodeOf {
            header,
            table: T::new(),
        }
    }

    /// Replaces the header of the node.
    pub fn set_header(&mut self, header: Header<P>)
        ensures { self.new ≡ with_header header.entry self.old }
    {
        self.header = header
    }
}

impl<const P: usize> InnerNode4<P> {
    /// Returns a node with this header and two children. If both bytes are equal, only `last` is kept.
    #[inline(always)]
    pub fn of_two(
        header: Header<P>,
        byte: u8,
        child: OpaqueNodePtr,
        last_byte: u8,
        last: OpaqueNodePtr,
    ) -> Self
        ensures { result ≡
            with_child last_byte last (with_child byte child (childless header.entry)) }
    {
        InnerNode4 {
            header,
            table: Table::of_two((byte, child), (last_byte, last)),
        }
    }
}

impl<T: KindTable, const P: usize> InnerNode<P> for InnerNodeOf<Header<P>, T> {
    const TYPE: NodeType = T::TYPE;

    ghost TYPE = { T.TYPE };

    ghost view_of = { λ n. n };

    ghost starts_childless = { λ header node starts. starts };

    fn header(&self) -> Header<P> {
        self.header
    }

    #[inline(always)]
    fn prefix_len(&self) -> usize {
        self.header.prefix_len()
    }

    #[inline(always)]
    fn read_prefix(&self) -> &[u8] {
        self.header.read_prefix()
    }

    fn iter(&self) -> Children<'_> {
        self.table.iter()
    }

    #[inline(always)]
    fn lookup_child(&self, byte: u8) -> Option<OpaqueNodePtr> {
        self.table.lookup(byte)
    }

    #[inline(always)]
    fn lookup_least(&self, byte: u8) -> Option<OpaqueNodePtr> {
        self.table.lookup_least(byte)
    }

    fn write_child(&mut self, byte: u8, child: OpaqueNodePtr) {
        self.table.write(byte, child)
    }

    #[inline(always)]
    fn remove_child(&mut self, byte: u8) -> Option<OpaqueNodePtr> {
        self.table.remove(byte)
    }

    fn into_any(self) -> AnyInner<P> {
        AnyInner::of(self.header, self.table.into_any())
    }

    fn grow(self) -> AnyInner<P> {
        AnyInner::of(self.header, self.table.larger())
    }

    fn shrink(self) -> AnyInner<P> {
        AnyInner::of(self.header, self.table.smaller())
    }
}
