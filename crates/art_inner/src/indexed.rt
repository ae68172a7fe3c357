//! Up to 48 names, with a table of the places of bytes.
ghost use Rattle.std.specs.Prelude.{◌≡◌, ◌≢◌, ℕ, ◌+◌, ◌<◌, ◌≤◌, [], length, Some, None, replicate, slice_index_or, refl};
ghost use Rattle.art_inner.specs.Indexed.{number_after_move};
ghost use Rattle.art_parts.specs.declared.names.NodeType.TheVariants as kinds;

use crate::beside::nearest;
use crate::child_table::{AnyTable, ChildTable, KindTable};
use crate::children::Children;
use crate::direct::Direct;
use crate::places::Places;
use crate::renaming::rename_slots;
use crate::table::Table;
use art_parts::names::{NodeType, OpaqueNodePtr};
use std::marker::Model;

/// Up to 48 names in places, and for each byte the number of its place from one on, or zero: seen as
/// the list of the names under rising bytes.
#[derive(Drop)]
pub struct Indexed {
    slots: [u32; 48],
    index: [u8; 256],
    kinds: [NodeType; 48],
    len: usize,
}

impl Model for Indexed {
    ghost use Rattle.std.specs.Prelude.{◌≡◌, ◌≤◌, length};
    ghost use Rattle.art_inner.specs.Inner.{Children};
    ghost use Rattle.art_inner.specs.Tables.{names_by_byte};
    ghost use Rattle.art_inner.specs.Indexed.{indexed_at, IsIndex};

    ghost Value = { Children };

    ghost view = { λ t. names_by_byte (indexed_at t.slots t.kinds t.index) };

    ghost invariant = { λ t.
        (t.len ≡ length (names_by_byte (indexed_at t.slots t.kinds t.index)))
        × (t.len ≤ 48)
        × IsIndex t.index t.len };
}

impl ChildTable for Indexed {
    ghost children_of = { λ t. t };

    ghost capacity = { 48 };

    fn new() -> Self {
        Indexed {
            slots: no_slots(),
            index: no_places(),
            kinds: no_kinds(),
            len: 0,
        }
    }

    fn of(children: Children<'_>) -> Self {
        let mut table = Indexed::new();
        for (byte, name) in children {
            table.write(byte, name);
        }
        table
    }

    fn copy(&self) -> Self {
        Indexed {
            slots: self.slots,
            index: self.index,
            kinds: self.kinds,
            len: self.len,
        }
    }

    fn iter(&self) -> Children<'_> {
        Children::of_indexed(self, self.len)
    }

    // The nearest child on either side of a byte that has none.
    fn beside(&self, byte: u8) -> (u8, OpaqueNodePtr) {
        prove!(self.len > 0);
        nearest(self, byte)
    }

    fn write(&mut self, byte: u8, child: OpaqueNodePtr) {
        let place = self.index[byte as usize] as usize;
        if place == 0 {
            let last = self.len;
            self.kinds[last] = child.kind;
            self.slots[last] = child.slot;
            self.index[byte as usize] = last as u8 + 1;
            self.len = last + 1;
        } else {
            self.kinds[place - 1] = child.kind;
            self.slots[place - 1] = child.slot;
        }
    }

    fn remove(&mut self, byte: u8) -> Option<OpaqueNodePtr> {
        let child = self.get(byte)?;
        let place = self.index[byte as usize];
        let last = self.len;
        self.kinds[place as usize - 1] = self.kinds[last - 1];
        self.slots[place as usize - 1] = self.slots[last - 1];
        renumber(&mut self.index, last as u8, place);
        self.index[byte as usize] = 0;
        self.len = last - 1;
        Some(child)
    }

    fn rename_leaves(&mut self, table: &[u32]) {
        rename_slots(&self.kinds, &mut self.slots, table);
    }
}

impl Places for Indexed {
    ghost children_of = { λ t. t };

    #[inline(always)]
    fn get(&self, byte: u8) -> Option<OpaqueNodePtr> {
        let place = self.index[byte as usize] as usize;
        if place == 0 {
            return None;
        }
        Some(OpaqueNodePtr {
            kind: self.kinds[place - 1],
            slot: self.slots[place - 1],
        })
    }
}

impl KindTable for Indexed {
    const TYPE: NodeType = NodeType::Node48;

    ghost TYPE = { kinds.Node48 };

    ghost capacity_is = { refl };

    #[inline(always)]
    fn lookup(&self, byte: u8) -> Option<OpaqueNodePtr> {
        self.get(byte)
    }

    fn into_any(self) -> AnyTable {
        AnyTable::Node48(self)
    }

    fn larger(self) -> AnyTable {
        AnyTable::Node256(Direct::of(self.iter()))
    }

    fn smaller(self) -> AnyTable {
        AnyTable::Node16(Table::of(self.iter()))
    }
}

fn no_slots() -> [u32; 48] {
    [0; 48]
}

fn no_kinds() -> [NodeType; 48] {
    [NodeType::Leaf; 48]
}

fn no_places() -> [u8; 256]
    ensures { result ≡ replicate 256 0 }
{
    [0; 256]
}

// Replaces the number of the last place by another one.
fn renumber(index: &mut [u8], last: u8, to: u8)
    requires { last ≢ 0 }
    ensures { (k : ℕ) →
        slice_index_or index.new k 0 ≡ number_after_move last to (slice_index_or index.old k 0) }
{
    for number in index.iter_mut() {
        if *number == last {
            *number = to;
        }
    }
}
