//! Names with a place for each byte.
ghost use Rattle.std.specs.Prelude.{◌≡◌, ℕ, ◌<◌, ◌≤◌, [], length, Some, None, refl, replicate};
ghost use Rattle.art_inner.specs.Direct.{in_place, direct_at};
ghost use Rattle.art_inner.specs.declared.direct.PlaceKind.TheVariants as place;
ghost use Rattle.std.specs.Option.{option_map};
ghost use Rattle.art_inner.specs.InnerRenamed.{child_renamed};
ghost use Rattle.art_inner.specs.NewNames.{new_name};
ghost use Rattle.art_inner.specs.Beside.{IsNextTo};
ghost use Rattle.art_inner.specs.Inner.{child_at};
ghost use Rattle.art_parts.specs.declared.names.NodeType.TheVariants as kinds;

use crate::beside::nearest;
use crate::child_table::{AnyTable, ChildTable, KindTable};
use crate::children::Children;
use crate::indexed::Indexed;
use crate::places::Places;
use crate::renaming::new_name;
use art_parts::names::{LeafPtr, NodeType, OpaqueNodePtr};
use std::marker::Model;

// The kind of the name in a place. One byte encodes it, and whether there is one.
#[derive(Clone, Copy)]
enum PlaceKind {
    Node4,
    Node16,
    Node48,
    Node256,
    Leaf,
    Vacant,
}

/// A place for each byte, seen as the list of the names under rising bytes.
#[derive(Drop)]
pub struct Direct {
    slots: [u32; 256],
    places: [PlaceKind; 256],
    len: usize,
}

impl Model for Direct {
    ghost use Rattle.std.specs.Prelude.{◌≡◌, length};
    ghost use Rattle.art_inner.specs.Inner.{Children};
    ghost use Rattle.art_inner.specs.Tables.{names_by_byte};
    ghost use Rattle.art_inner.specs.Direct.{direct_at};

    ghost Value = { Children };

    ghost view = { λ t. names_by_byte (direct_at t.slots t.places) };

    ghost invariant = { λ t. t.len ≡ length (names_by_byte (direct_at t.slots t.places)) };
}

impl ChildTable for Direct {
    ghost children_of = { λ t. t };

    ghost capacity = { 256 };

    fn new() -> Self {
        Direct {
            slots: vacant_slots(),
            places: vacant_places(),
            len: 0,
        }
    }

    fn of(children: Children<'_>) -> Self {
        let mut table = Direct::new();
        for (byte, name) in children {
            table.write(byte, name);
        }
        table
    }

    fn copy(&self) -> Self {
        Direct {
            slots: self.slots,
            places: self.places,
            len: self.len,
        }
    }

    fn iter(&self) -> Children<'_> {
        Children::of_direct(self, self.len)
    }

    // The nearest child on either side of a byte that has none.
    fn beside(&self, byte: u8) -> (u8, OpaqueNodePtr)
        requires some { 0 < length self.now }
        requires absent { child_at self.now byte ≡ None }
        ensures beside { IsNextTo self.now byte result }
        ensures bound { length self.now ≤ 256 }
        ensures few { length self.now < 256 }
    {
        prove!(self.len > 0);
        nearest(self, byte)
    }

    fn write(&mut self, byte: u8, child: OpaqueNodePtr) {
        let len = match self.get(byte) {
            Some(_) => self.len,
            None => self.len + 1,
        };
        self.places[byte as usize] = place_of(child.kind);
        self.slots[byte as usize] = child.slot;
        self.len = len;
    }

    fn remove(&mut self, byte: u8) -> Option<OpaqueNodePtr> {
        let child = self.get(byte)?;
        self.places[byte as usize] = PlaceKind::Vacant;
        self.len -= 1;
        Some(child)
    }

    fn rename_leaves(&mut self, table: &[u32]) {
        rename_places(&self.places, &mut self.slots, table);
    }
}

impl Places for Direct {
    ghost children_of = { λ t. t };

    #[inline(always)]
    fn get(&self, byte: u8) -> Option<OpaqueNodePtr> {
        name_in(self.places[byte as usize], self.slots[byte as usize])
    }
}

impl KindTable for Direct {
    const TYPE: NodeType = NodeType::Node256;

    ghost TYPE = { kinds.Node256 };

    ghost capacity_is = { refl };

    #[inline(always)]
    fn lookup(&self, byte: u8) -> Option<OpaqueNodePtr> {
        self.get(byte)
    }

    fn into_any(self) -> AnyTable {
        AnyTable::Node256(self)
    }

    fn larger(self) -> AnyTable {
        self.into_any()
    }

    fn smaller(self) -> AnyTable {
        AnyTable::Node48(Indexed::of(self.iter()))
    }
}

fn vacant_slots() -> [u32; 256] {
    [0; 256]
}

fn vacant_places() -> [PlaceKind; 256]
    ensures { result ≡ replicate 256 place.Vacant }
{
    [PlaceKind::Vacant; 256]
}

#[inline(always)]
fn name_in(place: PlaceKind, slot: u32) -> Option<OpaqueNodePtr>
    ensures { result ≡ in_place place slot }
{
    let kind = match place {
        PlaceKind::Node4 => NodeType::Node4,
        PlaceKind::Node16 => NodeType::Node16,
        PlaceKind::Node48 => NodeType::Node48,
        PlaceKind::Node256 => NodeType::Node256,
        PlaceKind::Leaf => NodeType::Leaf,
        PlaceKind::Vacant => return None,
    };
    Some(OpaqueNodePtr { kind, slot })
}

fn place_of(kind: NodeType) -> PlaceKind
    ensures { (slot : ℕ) → in_place result slot ≡ Some (record { kind = kind; slot = slot }) }
{
    match kind {
        NodeType::Node4 => PlaceKind::Node4,
        NodeType::Node16 => PlaceKind::Node16,
        NodeType::Node48 => PlaceKind::Node48,
        NodeType::Node256 => PlaceKind::Node256,
        NodeType::Leaf => PlaceKind::Leaf,
    }
}

// Writes for each leaf in a place the slot that a table has for it.
fn rename_places(places: &[PlaceKind], slots: &mut [u32], table: &[u32])
    requires { length places.now ≡ length slots.old }
    ensures count { length slots.new ≡ length slots.old }
    ensures names { (b : ℕ) → direct_at slots.new places.now b ≡
        option_map (child_renamed (new_name table.now)) (direct_at slots.old places.now b) }
{
    for at in 0..slots.len() {
        if let PlaceKind::Leaf = places[at] {
            slots[at] = new_name(table, LeafPtr { slot: slots[at] }).slot;
        }
    }
}
