//! What a check has met.
ghost use Rattle.std.specs.Prelude.{◌≡◌, ◌≢◌, ◌+◌, ℕ, None, OnOk, []};
ghost use Rattle.std.specs.Option.{option_map};
ghost use Rattle.art_parts.specs.declared.names.OpaqueNodePtr.{OpaqueNodePtr};
ghost use Rattle.art_checking.specs.Meetings.{IsMet, count_met, leaves_with, number_at, number_of, place_in};

use super::met::Met;
use art_nodes::node::{LeafPtr, NodePtr, NodeType, OpaqueNodePtr};
use std::alloc::{AllocError, Global};

// The names that were met, each with its place, and the leaves among them, both in the order in which they were met. A
// name was met if the list has it at its number.
#[derive(Drop)]
pub(super) struct Seen {
    numbers: Numbers,
    met: Met,
    pub(super) leaves: Vec<LeafPtr>,
}

// A number for each name, which is zero at first: in a row for each kind, by slots.
#[derive(Drop)]
struct Numbers {
    node4: Vec<usize>,
    node16: Vec<usize>,
    node48: Vec<usize>,
    node256: Vec<usize>,
    leaf: Vec<usize>,
}

impl Seen {
    pub(super) fn new(alloc: Global) -> Self
        ensures places { (n : OpaqueNodePtr) → place_in result n ≡ None }
        ensures leaves { result.leaves.items ≡ [] }
        ensures count { count_met result ≡ 0 }
    {
        Seen {
            numbers: Numbers::new(alloc),
            met: Met::new(alloc),
            leaves: Vec::new(alloc),
        }
    }

    // The place at which a name was met, if it was.
    #[inline(always)]
    pub(super) fn place_of(&self, name: OpaqueNodePtr) -> Option<&[u8]>
        ensures { option_map (λ place. place.now) result ≡ place_in self.now name }
    {
        self.met.place_under(self.numbers.get(name), name)
    }

    // Adds a name with its place.
    #[inline(always)]
    pub(super) fn record(&mut self, name: OpaqueNodePtr, place: &[u8]) -> Result<(), AllocError>
        ensures places { OnOk result
            (IsMet (place_in self.old) (place_in self.new) name place.now) }
        ensures leaves { OnOk result
            (self.new.leaves.items ≡ leaves_with name self.old.leaves.items) }
        ensures count { OnOk result (count_met self.new ≡ count_met self.old + 1) }
    {
        if let NodePtr::Leaf(leaf) = name.split() {
            self.leaves.push(leaf)?;
        }
        self.numbers.set(name, self.met.len())?;
        self.met.push(name, place)
    }

    // How many names were met.
    pub(super) fn count(&self) -> usize
        ensures { result ≡ count_met self.now }
    {
        self.met.len()
    }
}

impl Numbers {
    fn new(alloc: Global) -> Self
        ensures { (n : OpaqueNodePtr) → number_of result n ≡ 0 }
    {
        Numbers {
            node4: Vec::new(alloc),
            node16: Vec::new(alloc),
            node48: Vec::new(alloc),
            node256: Vec::new(alloc),
            leaf: Vec::new(alloc),
        }
    }

    #[inline(always)]
    fn get(&self, name: OpaqueNodePtr) -> usize
        ensures { result ≡ number_of self.now name }
    {
        match name.kind {
            NodeType::Node4 => number_in(&self.node4, name.slot),
            NodeType::Node16 => number_in(&self.node16, name.slot),
            NodeType::Node48 => number_in(&self.node48, name.slot),
            NodeType::Node256 => number_in(&self.node256, name.slot),
            NodeType::Leaf => number_in(&self.leaf, name.slot),
        }
    }

    #[inline(always)]
    fn set(&mut self, name: OpaqueNodePtr, number: usize) -> Result<(), AllocError>
        ensures here { OnOk result (number_of self.new name ≡ number) }
        ensures elsewhere { OnOk result
            ((n : OpaqueNodePtr) → n ≢ name → number_of self.new n ≡ number_of self.old n) }
    {
        match name.kind {
            NodeType::Node4 => set_in(&mut self.node4, name.slot, number),
            NodeType::Node16 => set_in(&mut self.node16, name.slot, number),
            NodeType::Node48 => set_in(&mut self.node48, name.slot, number),
            NodeType::Node256 => set_in(&mut self.node256, name.slot, number),
            NodeType::Leaf => set_in(&mut self.leaf, name.slot, number),
        }
    }
}

// The number in a slot of a row, or zero past its end.
#[inline(always)]
fn number_in(row: &[usize], slot: u32) -> usize
    ensures { result ≡ number_at row.now slot }
{
    match row.get(slot as usize) {
        Some(number) => *number,
        None => 0,
    }
}

// Writes a number into a slot of a row, which is extended by zeros if it ends before.
#[inline(always)]
fn set_in(row: &mut Vec<usize>, slot: u32, number: usize) -> Result<(), AllocError>
    ensures here { OnOk result (number_at row.new.items slot ≡ number) }
    ensures elsewhere { OnOk result
        ((i : ℕ) → i ≢ slot → number_at row.new.items i ≡ number_at row.old.items i) }
{
    'longer: while row.len() <= slot as usize {
        row.push(0)?;
    }
    row[slot as usize] = number;
    Ok(())
}
