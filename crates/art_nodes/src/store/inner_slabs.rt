//! The inner nodes in their slabs.
ghost use Rattle.std.specs.Prelude.{◌≡◌, ◌≢◌, ◌+◌, ◌<◌, Option, Some, None, IsOk, IfOk, OnOk, IsSome, IsSomeAnd, IfSome};
ghost use Rattle.std.specs.Option.{option_map};

use super::room::{copy_beside, insert_in, make_room, make_room_beside, narrow};
use super::{InnerSlabs, NodesFrom};
use crate::node::{
    AnyInner, Header, InnerNode, InnerNode4, InnerPtr, InnerRef, NodeType, OpaqueNodePtr,
};
use slab::Slab;
use std::alloc::{AllocError, Global};

impl<const P: usize> InnerSlabs<P> {
    ghost use Rattle.std.specs.FinMap as map;
    ghost use Rattle.slab.specs.Slab.{HasRoomFor};
    ghost use Rattle.art_inner.specs.InnerChanges.{with_child, without_child, with_header};
    ghost use Rattle.art_inner.specs.Inner.{HasPlace, child_at};
    ghost use Rattle.art_inner.specs.Views.{any_kind, any_view, ref_kind, ref_view};
    ghost use Rattle.art_parts.specs.Kinds.{kind_capacity, larger_kind};
    ghost use Rattle.art_nodes.specs.Nodes.{change, of_kind};
    ghost use Rattle.art_nodes.specs.StoreView.{HasInnerRoom, inners_of, nodes_from};
    ghost use Rattle.art_parts.specs.declared.names.NodeType.{NodeType};
    ghost use Rattle.art_parts.specs.declared.names.NodeType.TheVariants.{Leaf, Node4, Node16, Node48, Node256};

    pub(super) fn new(alloc: Global) -> Self
        ensures nodes { inners_of result ≡ map.empty }
        ensures rooms { HasInnerRoom result None }
    {
        InnerSlabs {
            node4: Slab::new(alloc),
            node16: Slab::new(alloc),
            node48: Slab::new(alloc),
            node256: Slab::new(alloc),
            sizes_fit: [[0; P]; 2],
        }
    }

    #[inline(always)]
    pub(super) fn get(&self, name: InnerPtr) -> Option<InnerRef<'_, P>>
        ensures view { option_map ref_view result ≡ map.get (inners_of self.now) name }
        ensures kind { IfSome result (λ node. ref_kind node ≡ name.kind) }
    {
        match name.kind {
            NodeType::Node4 => Some(InnerRef::Node4(self.node4.get(name.slot as usize)?)),
            NodeType::Node16 => Some(InnerRef::Node16(self.node16.get(name.slot as usize)?)),
            NodeType::Node48 => Some(InnerRef::Node48(self.node48.get(name.slot as usize)?)),
            NodeType::Node256 => Some(InnerRef::Node256(self.node256.get(name.slot as usize)?)),
            NodeType::Leaf => None,
        }
    }

    // How many nodes of a kind there are.
    pub(super) fn count(&self, kind: NodeType) -> usize
        ensures { result ≡ map.len (of_kind kind (inners_of self.now)) }
    {
        match kind {
            NodeType::Node4 => self.node4.len(),
            NodeType::Node16 => self.node16.len(),
            NodeType::Node48 => self.node48.len(),
            NodeType::Node256 => self.node256.len(),
            NodeType::Leaf => 0,
        }
    }

    // How many nodes there are of each kind and of all larger ones.
    #[inline(always)]
    pub(super) fn count_from(&self) -> NodesFrom
        requires { HasInnerRoom self.now None }
        ensures node4 { result.node4 ≡ nodes_from Node4 self.now }
        ensures node16 { result.node16 ≡ nodes_from Node16 self.now }
        ensures node48 { result.node48 ≡ nodes_from Node48 self.now }
        ensures node256 { result.node256 ≡ nodes_from Node256 self.now }
    {
        prove!(self.node4.capacity() <= usize::MAX);
        let node256 = self.node256.len();
        let node48 = self.node48.len() + node256;
        let node16 = self.node16.len() + node48;
        NodesFrom {
            node4: self.node4.len() + node16,
            node16,
            node48,
            node256,
        }
    }

    // Room for one more node of a kind, and for each smaller one that may replace it later.
    pub(super) fn reserve(&mut self, kind: NodeType) -> Result<(), AllocError>
        requires kind { kind ≢ Leaf }
        requires room { HasInnerRoom self.old None }
        ensures nodes { inners_of self.new ≡ inners_of self.old }
        ensures room { OnOk result (HasInnerRoom self.new (Some kind)) }
        ensures succeeds { HasInnerRoom self.old (Some kind) → IsOk result }
        ensures rooms { (other : Option NodeType) →
            HasInnerRoom self.old other → HasInnerRoom self.new other }
    {
        let nodes = self.count_from();
        make_room_beside(&mut self.node4, nodes.node16)?;
        if let NodeType::Node4 = kind {
            return Ok(());
        }
        make_room_beside(&mut self.node16, nodes.node48)?;
        if let NodeType::Node16 = kind {
            return Ok(());
        }
        make_room_beside(&mut self.node48, nodes.node256)?;
        if let NodeType::Node48 = kind {
            return Ok(());
        }
        make_room_beside(&mut self.node256, 0)
    }

    // Room for as many more nodes of each kind as other slabs have.
    pub(super) fn reserve_like(&mut self, other: &InnerSlabs<P>) -> Result<(), AllocError>
        requires room { HasInnerRoom self.old None }
        requires other { HasInnerRoom other.now None }
        ensures nodes { inners_of self.new ≡ inners_of self.old }
        ensures rooms { (kind : Option NodeType) →
            HasInnerRoom self.old kind → HasInnerRoom self.new kind }
    {
        let nodes = self.count_from();
        let more = other.count_from();
        make_room(&mut self.node4, nodes.node16.saturating_add(more.node4))?;
        make_room(&mut self.node16, nodes.node48.saturating_add(more.node16))?;
        make_room(&mut self.node48, nodes.node256.saturating_add(more.node48))?;
        make_room(&mut self.node256, more.node256)
    }

    // Gives back the room that neither nodes nor their replacement by smaller ones need, one kind at a time.
    pub(super) fn shrink_to_fit(&mut self) -> Result<(), AllocError>
        requires { HasInnerRoom self.old None }
        ensures nodes { inners_of self.new ≡ inners_of self.old }
        ensures rooms { HasInnerRoom self.new None }
    {
        let nodes = self.count_from();
        narrow(&mut self.node4, nodes.node16)?;
        narrow(&mut self.node16, nodes.node48)?;
        narrow(&mut self.node48, nodes.node256)?;
        narrow(&mut self.node256, 0)
    }

    // Slabs with the same nodes.
    pub(super) fn copy(&self) -> Result<Self, AllocError>
        requires { HasInnerRoom self.now None }
        ensures nodes { IfOk result (λ copy. inners_of copy ≡ inners_of self.now) }
        ensures rooms { IfOk result (λ copy. HasInnerRoom copy None) }
    {
        let nodes = self.count_from();
        Ok(InnerSlabs {
            node4: copy_beside(&self.node4, nodes.node16)?,
            node16: copy_beside(&self.node16, nodes.node48)?,
            node48: copy_beside(&self.node48, nodes.node256)?,
            node256: copy_beside(&self.node256, 0)?,
            sizes_fit: self.sizes_fit,
        })
    }

    pub(super) fn insert_node4(&mut self, node: InnerNode4<P>) -> InnerPtr
        requires { HasInnerRoom self.old (Some Node4) }
        ensures nodes { inners_of self.new ≡ map.insert (inners_of self.old) result node.entry }
        ensures kind { result.kind ≡ Node4 }
        ensures fresh { map.get (inners_of self.old) result ≡ None }
        ensures rooms { HasInnerRoom self.new None }
    {
        insert_in(&mut self.node4, NodeType::Node4, node)
    }

    #[inline(always)]
    pub(super) fn insert_reserved(&mut self, node: AnyInner<P>) -> InnerPtr
        requires { HasInnerRoom self.old (Some (any_kind node)) }
        ensures nodes { inners_of self.new ≡
            map.insert (inners_of self.old) result (any_view node.entry) }
        ensures kind { result.kind ≡ any_kind node.entry }
        ensures fresh { map.get (inners_of self.old) result ≡ None }
        ensures rooms { HasInnerRoom self.new None }
    {
        match node {
            AnyInner::Node4(node) => insert_in(&mut self.node4, NodeType::Node4, node),
            AnyInner::Node16(node) => insert_in(&mut self.node16, NodeType::Node16, node),
            AnyInner::Node48(node) => insert_in(&mut self.node48, NodeType::Node48, node),
            AnyInner::Node256(node) => insert_in(&mut self.node256, NodeType::Node256, node),
        }
    }

    pub(super) fn write_child(&mut self, name: InnerPtr, byte: u8, child: OpaqueNodePtr)
        requires { IsSomeAnd (map.get (inners_of self.old) name) (λ node.
            HasPlace (kind_capacity name.kind) node.children byte) }
        ensures nodes { inners_of self.new ≡
            change (inners_of self.old) name (with_child byte child) }
        ensures rooms { (kind : Option NodeType) →
            HasInnerRoom self.old kind → HasInnerRoom self.new kind }
    {
        match name.kind {
            NodeType::Node4 => self.node4[name.slot as usize].write_child(byte, child),
            NodeType::Node16 => self.node16[name.slot as usize].write_child(byte, child),
            NodeType::Node48 => self.node48[name.slot as usize].write_child(byte, child),
            NodeType::Node256 => self.node256[name.slot as usize].write_child(byte, child),
            NodeType::Leaf => unreachable!(),
        }
    }

    #[inline(always)]
    pub(super) fn remove_child(&mut self, name: InnerPtr, byte: u8) -> Option<OpaqueNodePtr>
        requires { IsSome (map.get (inners_of self.old) name) }
        ensures removed { IfSome (map.get (inners_of self.old) name) (λ node.
            result ≡ child_at node.children byte) }
        ensures nodes { inners_of self.new ≡ change (inners_of self.old) name (without_child byte) }
        ensures rooms { (kind : Option NodeType) →
            HasInnerRoom self.old kind → HasInnerRoom self.new kind }
    {
        match name.kind {
            NodeType::Node4 => self.node4[name.slot as usize].remove_child(byte),
            NodeType::Node16 => self.node16[name.slot as usize].remove_child(byte),
            NodeType::Node48 => self.node48[name.slot as usize].remove_child(byte),
            NodeType::Node256 => self.node256[name.slot as usize].remove_child(byte),
            NodeType::Leaf => unreachable!(),
        }
    }

    pub(super) fn set_header(&mut self, name: InnerPtr, header: Header<P>)
        requires { IsSome (map.get (inners_of self.old) name) }
        ensures nodes { inners_of self.new ≡
            change (inners_of self.old) name (with_header header.entry) }
        ensures rooms { (kind : Option NodeType) →
            HasInnerRoom self.old kind → HasInnerRoom self.new kind }
    {
        match name.kind {
            NodeType::Node4 => self.node4[name.slot as usize].set_header(header),
            NodeType::Node16 => self.node16[name.slot as usize].set_header(header),
            NodeType::Node48 => self.node48[name.slot as usize].set_header(header),
            NodeType::Node256 => self.node256[name.slot as usize].set_header(header),
            NodeType::Leaf => unreachable!(),
        }
    }

    pub(super) fn clear(&mut self)
        ensures nodes { inners_of self.new ≡ map.empty }
        ensures rooms { (kind : Option NodeType) →
            HasInnerRoom self.old kind → HasInnerRoom self.new kind }
    {
        self.node4.clear();
        self.node16.clear();
        self.node48.clear();
        self.node256.clear();
    }

    pub(super) fn remove(&mut self, name: InnerPtr) -> AnyInner<P>
        requires { IsSome (map.get (inners_of self.old) name) }
        ensures node { map.get (inners_of self.old) name ≡ Some (any_view result) }
        ensures kind { any_kind result ≡ name.kind }
        ensures nodes { inners_of self.new ≡ map.remove (inners_of self.old) name }
        ensures rooms { (kind : Option NodeType) →
            HasInnerRoom self.old kind → HasInnerRoom self.new kind }
    {
        match name.kind {
            NodeType::Node4 => AnyInner::Node4(self.node4.remove(name.slot as usize)),
            NodeType::Node16 => AnyInner::Node16(self.node16.remove(name.slot as usize)),
            NodeType::Node48 => AnyInner::Node48(self.node48.remove(name.slot as usize)),
            NodeType::Node256 => AnyInner::Node256(self.node256.remove(name.slot as usize)),
            NodeType::Leaf => unreachable!(),
        }
    }
}
