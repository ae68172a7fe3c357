//! Replaces an inner node by a larger or a smaller one, or by the other of its two children.
ghost use Rattle.std.specs.Prelude.{◌≡◌, ◌≢◌, ◌≤◌, ◌^◌, [], ◌∷◌, IsTrue, IsSome, IsSomeAnd, IfSome, Option, Some, None, length};
ghost use Rattle.slab.specs.Slab as slab;
ghost use Rattle.slab.specs.Slab.{ContainsKey, HasRoomFor, Updates};
ghost use Rattle.art_parts.specs.Kinds.{kind_capacity, larger_kind, smaller_kind};
ghost use Rattle.art_inner.specs.InnerChanges.{with_child, without_child};
ghost use Rattle.art_inner.specs.Inner.{HasPlace, remove_child, childless};
ghost use Rattle.art_inner.specs.Views.{ref_view};
ghost use Rattle.art_nodes.specs.Replacing.{IsMadeOf, IsOneFewer, IsOneMore};
ghost use Rattle.std.specs.FinMap as map;
ghost use Rattle.art_nodes.specs.StoreView.{HasInnerRoom, inners_of};
ghost use Rattle.art_parts.specs.declared.names.NodeType.{NodeType};
ghost use Rattle.art_parts.specs.declared.names.NodeType.TheVariants.{Node4, Node16, Node48, Node256};
ghost use Rattle.art_nodes.specs.Nodes.{take_inner};

use super::room::insert_in;
use super::{InnerSlabs, NodeStore, is_promised};
use crate::node::{AsBytes, Header, InnerPtr, InnerRef, NodeType, OpaqueNodePtr};
use art_inner::resized::{Grows, Shrinks};
use slab::Slab;

impl<const P: usize> InnerSlabs<P> {
    // Replaces a node by one of the next larger kind, with a further child.
    pub(super) fn put_larger(&mut self, name: InnerPtr, byte: u8, child: OpaqueNodePtr) -> InnerPtr
        requires kind { name.kind ≢ Node256 }
        requires place { IsSomeAnd (map.get (inners_of self.old) name) (λ node.
            HasPlace (kind_capacity (larger_kind name.kind)) node.children byte) }
        requires room { HasInnerRoom self.old (Some (larger_kind name.kind)) }
        ensures nodes { IsSomeAnd (map.get (inners_of self.old) name) (λ node. inners_of self.new ≡
            map.insert (map.remove (inners_of self.old) name) result (with_child byte child node)) }
        ensures kind { result.kind ≡ larger_kind name.kind }
        ensures fresh { map.get (inners_of self.old) result ≡ None }
        ensures rooms { HasInnerRoom self.new None }
    {
        match name.kind {
            NodeType::Node4 => grow(&mut self.node4, &mut self.node16, name.slot, byte, child),
            NodeType::Node16 => grow(&mut self.node16, &mut self.node48, name.slot, byte, child),
            NodeType::Node48 => grow(&mut self.node48, &mut self.node256, name.slot, byte, child),
            NodeType::Node256 | NodeType::Leaf => unreachable!(),
        }
    }

    // Replaces a node by one of the next smaller kind, without the child under a byte.
    fn put_smaller(&mut self, name: InnerPtr, byte: u8) -> InnerPtr
        requires kind { name.kind ≢ Node4 }
        requires fit { IsSomeAnd (map.get (inners_of self.old) name) (λ node.
            length (without_child byte node).children ≤ kind_capacity (smaller_kind name.kind)) }
        requires room { HasInnerRoom self.old None }
        ensures nodes { IsSomeAnd (map.get (inners_of self.old) name) (λ node. inners_of self.new ≡
            map.insert (map.remove (inners_of self.old) name) result (without_child byte node)) }
        ensures kind { result.kind ≡ smaller_kind name.kind }
        ensures fresh { map.get (inners_of self.old) result ≡ None }
        ensures rooms { (kind : Option NodeType) →
            HasInnerRoom self.old kind → HasInnerRoom self.new kind }
    {
        match name.kind {
            NodeType::Node16 => shrink(&mut self.node16, &mut self.node4, name.slot, byte),
            NodeType::Node48 => shrink(&mut self.node48, &mut self.node16, name.slot, byte),
            NodeType::Node256 => shrink(&mut self.node256, &mut self.node48, name.slot, byte),
            NodeType::Node4 | NodeType::Leaf => unreachable!(),
        }
    }

    // Removes a node, and drops it.
    fn drop_node(&mut self, name: InnerPtr)
        requires { IsSome (map.get (inners_of self.old) name) }
        ensures nodes { inners_of self.new ≡ map.remove (inners_of self.old) name }
        ensures rooms { (kind : Option NodeType) →
            HasInnerRoom self.old kind → HasInnerRoom self.new kind }
    {
        match name.kind {
            NodeType::Node4 => drop_from(&mut self.node4, name.slot),
            NodeType::Node16 => drop_from(&mut self.node16, name.slot),
            NodeType::Node48 => drop_from(&mut self.node48, name.slot),
            NodeType::Node256 => drop_from(&mut self.node256, name.slot),
            NodeType::Leaf => unreachable!(),
        }
    }
}

// Removes a node from its slot, and inserts the grown one, with a further child, into another slab. A call fills the
// room for its locals with zeros, so that each kind has a call of its own.
#[inline(never)]
fn grow<N: Grows>(
    from: &mut Slab<N>,
    to: &mut Slab<N::Larger>,
    slot: u32,
    byte: u8,
    child: OpaqueNodePtr,
) -> InnerPtr
    requires node { IsSomeAnd (slab.get from.old slot) (λ node.
        HasPlace (kind_capacity N.LARGER) (N.view_of node).children byte) }
    requires room { HasRoomFor to.old 1 }
    requires few { to.old.capacity ≤ 2 ^ 32 }
    ensures gone { Updates from.old from.new slot None }
    ensures put { IsSomeAnd (slab.get from.old slot) (λ node. IsMadeOf N.view_of_larger
        to.old to.new result.slot (with_child byte child (N.view_of node))) }
    ensures kind { result.kind ≡ N.LARGER }
    ensures fewer { IsOneFewer from.old from.new }
    ensures more { IsOneMore to.old to.new }
{
    let node = from.remove(slot as usize).grown_with(byte, child);
    insert_in(to, N::LARGER, node)
}

// Removes a node from its slot, and inserts the shrunk one, without the child under a byte, into another slab.
#[inline(never)]
fn shrink<N: Shrinks>(
    from: &mut Slab<N>,
    to: &mut Slab<N::Smaller>,
    slot: u32,
    byte: u8,
) -> InnerPtr
    requires fit { IsSomeAnd (slab.get from.old slot) (λ node.
        length (without_child byte (N.view_of node)).children ≤ kind_capacity N.SMALLER) }
    requires room { HasRoomFor to.old 1 }
    requires few { to.old.capacity ≤ 2 ^ 32 }
    ensures gone { Updates from.old from.new slot None }
    ensures put { IsSomeAnd (slab.get from.old slot) (λ node. IsMadeOf N.view_of_smaller
        to.old to.new result.slot (without_child byte (N.view_of node))) }
    ensures kind { result.kind ≡ N.SMALLER }
    ensures fewer { IsOneFewer from.old from.new }
    ensures more { IsOneMore to.old to.new }
{
    let node = from.remove(slot as usize).shrunk_without(byte);
    insert_in(to, N::SMALLER, node)
}

// Removes a value from its slot, and drops it.
#[inline(never)]
fn drop_from<T: Drop>(slab: &mut Slab<T>, slot: u32)
    requires { ContainsKey slab.old slot }
    ensures updates { Updates slab.old slab.new slot None }
    ensures fewer { IsOneFewer slab.old slab.new }
{
    slab.remove(slot as usize);
}

impl<K: AsBytes + Drop, V: Drop, const P: usize> NodeStore<K, V, P> {
    /// Replaces an inner node by one of the next smaller kind, without the child under a byte. It never fails: the
    /// store keeps a slot for it, as it does for each larger node. A promise of another kind is void afterwards, as
    /// after a placement.
    pub fn put_smaller(&mut self, inner: InnerPtr, byte: u8) -> InnerPtr
        requires kind { inner.kind ≢ Node4 }
        requires fit { IsSomeAnd (map.get self.old.inners inner) (λ node.
            length (without_child byte node).children ≤ kind_capacity (smaller_kind inner.kind)) }
        ensures inners { IfSome (map.get self.old.inners inner) (λ node. self.new.inners ≡
            map.insert (map.remove self.old.inners inner) result (without_child byte node)) }
        ensures kind { result.kind ≡ smaller_kind inner.kind }
        ensures fresh { map.get self.old.inners result ≡ None }
        ensures leaves { self.new.leaves ≡ self.old.leaves }
        ensures promise { self.new.promise ≡ take_inner (smaller_kind inner.kind) self.old.promise }
    {
        let smaller = self.inners.put_smaller(inner, byte);
        if !is_promised(self.promised_inner, smaller.kind) {
            self.promised_leaves = 0;
        }
        self.promised_inner = None;
        smaller
    }

    /// Removes an inner node with two children. Returns its header, and the byte and the name of the child that is not
    /// under `byte`.
    pub fn take_other(&mut self, inner: InnerPtr, byte: u8) -> (Header<P>, u8, OpaqueNodePtr)
        requires { IsSomeAnd (map.get self.old.inners inner) (λ node.
            length (without_child byte node).children ≡ 1) }
        ensures other { IfSome (map.get self.old.inners inner) (λ node.
            without_child byte node ≡ with_child result.1 result.2 (childless result.0)) }
        ensures inners { self.new.inners ≡ map.remove self.old.inners inner }
        ensures leaves { self.new.leaves ≡ self.old.leaves }
        ensures promise { self.new.promise ≡ self.old.promise }
    {
        let Some(node) = self.inner(inner) else {
            unreachable!()
        };
        let header = node.header();
        let (other_byte, other) = other_child(node, byte);
        self.inners.drop_node(inner);
        (header, other_byte, other)
    }
}

// The child that is not under a byte, with its byte, of a node with one such child.
fn other_child<const P: usize>(node: InnerRef<'_, P>, byte: u8) -> (u8, OpaqueNodePtr)
    requires { length (remove_child (ref_view node).children byte) ≡ 1 }
    ensures { remove_child (ref_view node.entry).children byte ≡ result ∷ [] }
{
    let first = node.min();
    if first.0 == byte { node.max() } else { first }
}
