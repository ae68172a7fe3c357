//! Moves the leaves to slots in the order of their links.
ghost use Rattle.std.specs.Prelude.{◌≡◌, ℕ, ◌≤◌, ◌^◌, List, [], length, Option, Some, None, IfOk, OnOk, OnErr};
ghost use Rattle.std.specs.Option.{option_map};
ghost use Rattle.slab.specs.Slab as slab;
ghost use Rattle.slab.specs.Slab.{HasRoomFor, slab_len};
ghost use Rattle.art_inner.specs.InnerRenamed.{inner_renamed};
ghost use Rattle.art_inner.specs.NewNames.{new_name};
ghost use Rattle.art_nodes.specs.Moves.{AreMoved};
ghost use Rattle.art_nodes.specs.Renamed.{AreRenamed, IsRow, leaf_renamed};
ghost use Rattle.art_parts.specs.Lists.{first_of};
ghost use Rattle.art_nodes.specs.StoreView.{leaves_of, HasInnerRoom, inners_of};
ghost use Rattle.art_parts.specs.declared.names.LeafPtr.{LeafPtr};
ghost use Rattle.art_nodes.specs.Nodes.{no_promise};
ghost use Rattle.std.specs.FinMap as map;
ghost use Rattle.art_parts.specs.declared.names.InnerPtr.{InnerPtr};
ghost use Rattle.art_parts.specs.declared.names.NodeType.{NodeType};

use super::room::MOST_SLOTS;
use super::{InnerSlabs, NodeStore};
use crate::node::{AsBytes, LeafNode, LeafPtr};
use art_inner::renaming::{NamesLeaves, new_name};
use slab::Slab;
use std::alloc::{AllocError, Global};

impl<K: AsBytes + Drop, V: Drop, const P: usize> NodeStore<K, V, P> {
    /// Moves the leaves of a row, from its first one on, to new slots in its order, and updates their names in all
    /// nodes. Leaves that are not in the row are freed. Promises are void afterwards. It allocates slots for all leaves
    /// and a table of the new slots; if an allocation fails, the store is unchanged. It costs a step for each leaf and
    /// for each place of an inner node.
    pub fn sort_leaves(&mut self, first: LeafPtr) -> Result<(), AllocError>
        requires { (row : List LeafPtr) ×
            IsRow self.old.leaves None row × (first_of row ≡ Some first) }
        ensures renamed { (row : List LeafPtr) →
            IsRow self.old.leaves None row → first_of row ≡ Some first →
            OnOk result ((rename : LeafPtr → LeafPtr) ×
            AreRenamed rename row self.old self.new) }
        ensures promise { OnOk result (self.new.promise ≡ no_promise) }
        ensures refused { OnErr result (self.new ≡ self.old) }
    {
        let mut places = vec![in self.alloc; 0; self.leaves.capacity()]?;
        let mut sorted = empty_slab(self.alloc, self.leaves.len())?;
        let table = places.as_mut_slice();
        self.promised_leaves = 0;
        self.promised_inner = None;
        move_row(&mut self.leaves, &mut sorted, table, first);
        rename_links(&mut sorted, table);
        prove!(sorted.len() <= sorted.capacity());
        self.leaves = sorted;
        self.inners.rename_leaves(table);
        Ok(())
    }
}

impl<const P: usize> InnerSlabs<P> {
    // Renames the leaves among the children of all nodes by a table.
    fn rename_leaves(&mut self, table: &[u32])
        ensures nodes { (name : InnerPtr) → map.get (inners_of self.new) name ≡
            option_map (inner_renamed (new_name table.now)) (map.get (inners_of self.old) name) }
        ensures rooms { (kind : Option NodeType) →
            HasInnerRoom self.old kind → HasInnerRoom self.new kind }
    {
        rename_children(&mut self.node4, table);
        rename_children(&mut self.node16, table);
        rename_children(&mut self.node48, table);
        rename_children(&mut self.node256, table);
    }
}

// A slab without a value, with room for so many in slots whose numbers fit a name.
fn empty_slab<T: Drop>(alloc: Global, additional: usize) -> Result<Slab<T>, AllocError>
    ensures empty { IfOk result (λ slab. slab.slots ≡ []) }
    ensures room { IfOk result (λ slab. HasRoomFor slab additional) }
    ensures few { IfOk result (λ slab. slab.capacity ≤ 2 ^ 32) }
{
    let slab = Slab::with_capacity(alloc, additional)?;
    if slab.capacity() > MOST_SLOTS {
        return Err(AllocError);
    }
    Ok(slab)
}

// Moves the leaves of a row into an empty slab, and writes into a table the new slot of each under its old one.
fn move_row<K: Drop, V: Drop>(
    from: &mut Slab<LeafNode<K, V>>,
    to: &mut Slab<LeafNode<K, V>>,
    table: &mut [u32],
    first: LeafPtr,
)
    requires row { (row : List LeafPtr) ×
        IsRow (leaves_of from.old.slots) None row × (first_of row ≡ Some first) }
    requires room { HasRoomFor to.old (slab_len from.old) }
    requires few { to.old.capacity ≤ 2 ^ 32 }
    requires empty { to.old.slots ≡ [] }
    requires places { length from.old.slots ≤ length table.old }
    ensures { (row : List LeafPtr) →
        IsRow (leaves_of from.old.slots) None row → first_of row ≡ Some first →
        AreMoved table.new row [] from.old to.new }
{
    let mut next = Some(first);
    while let Some(leaf) = next {
        let node = from.remove(leaf.slot as usize);
        next = node.next;
        table[leaf.slot as usize] = to.insert_reserved(node) as u32;
    }
}

// Renames the neighbours of all leaves by a table.
fn rename_links<K: Drop, V: Drop>(leaves: &mut Slab<LeafNode<K, V>>, table: &[u32])
    ensures { (slot : ℕ) → slab.get leaves.new slot ≡
        option_map (leaf_renamed (new_name table.now)) (slab.get leaves.old slot) }
{
    for slot in 0..leaves.capacity() {
        if let Some(leaf) = leaves.get_mut(slot) {
            rename_beside(leaf, table);
        }
    }
}

// Renames the neighbours of a leaf by a table.
fn rename_beside<K, V>(leaf: &mut LeafNode<K, V>, table: &[u32])
    ensures { leaf.new ≡ leaf_renamed (new_name table.now) leaf.old }
{
    leaf.previous = leaf.previous.map(|beside| new_name(table, beside));
    leaf.next = leaf.next.map(|beside| new_name(table, beside));
}

// Renames the leaves among the children of the nodes of a kind by a table.
fn rename_children<N: NamesLeaves>(nodes: &mut Slab<N>, table: &[u32])
    ensures renamed { (slot : ℕ) → option_map N.view_of (slab.get nodes.new slot) ≡
        option_map (λ node. inner_renamed (new_name table.now) (N.view_of node))
        (slab.get nodes.old slot) }
    ensures len { slab_len nodes.new ≡ slab_len nodes.old }
    ensures capacity { nodes.new.capacity ≡ nodes.old.capacity }
{
    for slot in 0..nodes.capacity() {
        if let Some(node) = nodes.get_mut(slot) {
            node.rename_leaves(table);
        }
    }
}
