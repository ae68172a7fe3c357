//! At most `N` names under rising bytes.
ghost use Rattle.std.specs.Prelude.{◌≡◌, ◌+◌, ◌-◌, ◌<◌, ◌≤◌, [], ◌∷◌, ◌++◌, length, take, drop, remove, slice_get, refl, Some, None, IsSome};
ghost use Rattle.std.specs.Option.{option_map};
ghost use Rattle.std.specs.List.{prefix_len};
ghost use Rattle.art_inner.specs.Inner.{child_at, put_child, IsAbove, IsRising, count_below, remove_child};
ghost use Rattle.art_inner.specs.Rows.{inserted, AreAligned, rows_of};
ghost use lib.Dec.{eqb};
ghost use mathlib.Core.Bool.{not};
ghost use Rattle.art_parts.specs.declared.names.NodeType.TheVariants as kinds;

use crate::child_table::{AnyTable, ChildTable, KindTable};
use crate::children::Children;
use crate::indexed::Indexed;
use crate::lanes::lanes_before;
use crate::renaming::rename_slots;
use crate::rows::Rows;
use art_parts::names::{NodeType, OpaqueNodePtr};
use std::marker::Model;

/// Up to `N` names under rising bytes, seen as their list.
#[derive(Drop)]
pub struct Table<const N: usize> {
    slots: [u32; N],
    bytes: [u8; N],
    kinds: [NodeType; N],
    len: u16,
}

impl<const N: usize> Model for Table<N> {
    ghost use Rattle.std.specs.Prelude.{◌≡◌, ◌<◌, ◌≤◌, ◌^◌, length, take};
    ghost use Rattle.art_inner.specs.Inner.{Children, IsRising};
    ghost use Rattle.art_inner.specs.Rows.{rows};

    ghost Value = { Children };

    ghost view = { λ t. take t.len (rows t.bytes t.kinds t.slots) };

    ghost invariant = { λ t.
        (t.len ≤ N)
        × (length t.kinds ≡ N)
        × IsRising (take t.len (rows t.bytes t.kinds t.slots))
        × (N < 2 ^ 16) };
}

impl<const N: usize> Table<N> {
    // Appends a name.
    fn push(&mut self, byte: u8, child: OpaqueNodePtr)
        requires room { length self.old < N }
        requires rising { IsAbove byte self.old }
        ensures { self.new ≡ self.old ++ (byte, child) ∷ [] }
    {
        let last = self.len as usize;
        self.bytes[last] = byte;
        self.kinds[last] = child.kind;
        self.slots[last] = child.slot;
        self.len += 1;
    }

    // The names in use.
    #[inline(always)]
    fn rows(&self) -> Rows<'_>
        ensures aligned { AreAligned result }
        ensures value { rows_of result ≡ self.now }
        ensures rising { IsRising self.now }
        ensures bound { length self.now ≤ N }
    {
        Rows {
            bytes: &self.bytes[..self.len as usize],
            kinds: &self.kinds[..self.len as usize],
            slots: &self.slots[..self.len as usize],
        }
    }

    // The name at a place. Those past the last name count as vacant.
    #[inline(always)]
    fn name_at(&self, place: usize) -> Option<OpaqueNodePtr>
        ensures { result ≡ option_map (λ child. child.1) (slice_get self.now place) }
    {
        if place >= self.len as usize {
            return None;
        }
        Some(OpaqueNodePtr {
            kind: self.kinds[place],
            slot: self.slots[place],
        })
    }
}

impl<const N: usize> ChildTable for Table<N> {
    ghost children_of = { λ t. t };

    ghost capacity = { N };

    fn new() -> Self {
        Table {
            slots: [0; N],
            bytes: [0; N],
            kinds: [NodeType::Leaf; N],
            len: 0,
        }
    }

    fn of(children: Children<'_>) -> Self {
        let mut table = Table::new();
        for (byte, name) in children {
            table.push(byte, name);
        }
        table
    }

    fn copy(&self) -> Self {
        Table {
            slots: self.slots,
            bytes: self.bytes,
            kinds: self.kinds,
            len: self.len,
        }
    }

    fn iter(&self) -> Children<'_> {
        Children::new(self.rows())
    }

    // The first child from a byte on, or the last one where there is none.
    fn beside(&self, byte: u8) -> (u8, OpaqueNodePtr) {
        let rows = self.rows();
        let below = rows.count_below(byte);
        rows.entry(below.min(rows.len() - 1))
    }

    fn write(&mut self, byte: u8, child: OpaqueNodePtr) {
        match self.rows().search(byte) {
            Ok(at) => {
                self.kinds[at] = child.kind;
                self.slots[at] = child.slot;
            }
            Err(at) => self.insert(at, byte, child),
        }
    }

    #[inline(always)]
    fn remove(&mut self, byte: u8) -> Option<OpaqueNodePtr> {
        match self.rows().search(byte) {
            Ok(at) => Some(self.remove_at(at, byte)),
            Err(_) => None,
        }
    }

    fn rename_leaves(&mut self, table: &[u32]) {
        rename_slots(&self.kinds, &mut self.slots, table);
    }
}

impl<const N: usize> Table<N> {
    // Inserts a name at its place.
    fn insert(&mut self, at: usize, byte: u8, child: OpaqueNodePtr)
        requires room { length self.old < N }
        requires place { at ≡ count_below self.old byte }
        requires absent { child_at self.old byte ≡ None }
        ensures { self.new ≡ put_child self.old byte child }
    {
        let len = self.len as usize + 1;
        insert_into(
            &mut self.bytes[..len],
            &mut self.kinds[..len],
            &mut self.slots[..len],
            at,
            (byte, child),
        );
        self.len += 1;
    }

    // Removes the name at its place.
    #[inline(always)]
    fn remove_at(&mut self, at: usize, byte: u8) -> OpaqueNodePtr
        requires place { at ≡ count_below self.old byte }
        requires there { IsSome (child_at self.old byte) }
        ensures removed { Some result ≡ child_at self.old byte }
        ensures rest { self.new ≡ remove_child self.old byte }
    {
        let child = OpaqueNodePtr {
            kind: self.kinds[at],
            slot: self.slots[at],
        };
        let len = self.len as usize;
        remove_from(&mut self.bytes[..len], at);
        remove_from(&mut self.kinds[..len], at);
        remove_from(&mut self.slots[..len], at);
        self.len -= 1;
        child
    }
}

impl Table<4> {
    // A table of two children. If both bytes are equal, only the last child is kept.
    #[inline(always)]
    pub(crate) fn of_two(child: (u8, OpaqueNodePtr), last: (u8, OpaqueNodePtr)) -> Self
        ensures { result ≡ put_child (put_child [] child.0 child.1) last.0 last.1 }
    {
        let (low, high) = if child.0 < last.0 {
            (child, last)
        } else {
            (last, child)
        };
        Table {
            slots: [low.1.slot, high.1.slot, 0, 0],
            bytes: [low.0, high.0, 0, 0],
            kinds: [low.1.kind, high.1.kind, NodeType::Leaf, NodeType::Leaf],
            len: if low.0 < high.0 { 2 } else { 1 },
        }
    }
}

impl KindTable for Table<4> {
    const TYPE: NodeType = NodeType::Node4;

    ghost TYPE = { kinds.Node4 };

    ghost capacity_is = { refl };

    #[inline(always)]
    fn lookup(&self, byte: u8) -> Option<OpaqueNodePtr> {
        get_of_four(self, byte)
    }

    #[inline(always)]
    fn lookup_least(&self, byte: u8) -> Option<OpaqueNodePtr> {
        get_least_of_four(self, byte)
    }

    fn into_any(self) -> AnyTable {
        AnyTable::Node4(self)
    }

    fn larger(self) -> AnyTable {
        AnyTable::Node16(Table::of(self.iter()))
    }

    fn smaller(self) -> AnyTable {
        self.into_any()
    }
}

impl KindTable for Table<16> {
    const TYPE: NodeType = NodeType::Node16;

    ghost TYPE = { kinds.Node16 };

    ghost capacity_is = { refl };

    #[inline(always)]
    fn lookup(&self, byte: u8) -> Option<OpaqueNodePtr> {
        get_by_lanes(self, byte)
    }

    #[inline(always)]
    fn lookup_least(&self, byte: u8) -> Option<OpaqueNodePtr> {
        get_least_by_lanes(self, byte)
    }

    fn into_any(self) -> AnyTable {
        AnyTable::Node16(self)
    }

    fn larger(self) -> AnyTable {
        AnyTable::Node48(Indexed::of(self.iter()))
    }

    fn smaller(self) -> AnyTable {
        AnyTable::Node4(Table::of(self.iter()))
    }
}

// The name under a byte, by four comparisons.
#[inline(always)]
pub(crate) fn get_of_four(table: &Table<4>, byte: u8) -> Option<OpaqueNodePtr>
    ensures { result ≡ child_at table.now byte }
{
    table.name_at(place_in_four(&table.bytes, byte))
}

// The name under a byte, by lanes.
#[inline(always)]
pub(crate) fn get_by_lanes(table: &Table<16>, byte: u8) -> Option<OpaqueNodePtr>
    ensures { result ≡ child_at table.now byte }
{
    table.name_at(lanes_before(&table.bytes, byte))
}

// The name under a byte of four, by one comparison where all bytes in use are above it.
#[inline(always)]
pub(crate) fn get_least_of_four(table: &Table<4>, byte: u8) -> Option<OpaqueNodePtr>
    ensures { result ≡ child_at table.now byte }
{
    if byte < table.bytes[0] {
        return None;
    }
    get_of_four(table, byte)
}

// The same for up to sixteen.
#[inline(always)]
pub(crate) fn get_least_by_lanes(table: &Table<16>, byte: u8) -> Option<OpaqueNodePtr>
    ensures { result ≡ child_at table.now byte }
{
    let first = table.bytes[0];
    if byte < first {
        return None;
    }
    // Not by lanes, so that a lookup of another byte beside this one loads the lanes once.
    if byte == first {
        return table.name_at(0);
    }
    get_by_lanes(table, byte)
}

// How many of four bytes come before the first that is this one: 4 where none is.
#[inline(always)]
fn place_in_four(bytes: &[u8; 4], byte: u8) -> usize
    ensures { result ≡ prefix_len (λ x. not (eqb x byte)) bytes.now }
{
    if bytes[0] == byte {
        return 0;
    }
    if bytes[1] == byte {
        return 1;
    }
    if bytes[2] == byte {
        return 2;
    }
    if bytes[3] == byte {
        return 3;
    }
    4
}

// Inserts a child at a place of three parts of one length, and drops the last one. One loop for the three takes fewer
// instructions than a loop for each.
#[inline(always)]
fn insert_into(
    bytes: &mut [u8],
    kinds: &mut [NodeType],
    slots: &mut [u32],
    at: usize,
    child: (u8, OpaqueNodePtr),
)
    requires place { at < length bytes.old }
    requires kinds { length kinds.old ≡ length bytes.old }
    requires slots { length slots.old ≡ length bytes.old }
    ensures bytes { bytes.new ≡ inserted bytes.old at child.0 }
    ensures kinds { kinds.new ≡ inserted kinds.old at child.1.kind }
    ensures slots { slots.new ≡ inserted slots.old at child.1.slot }
{
    let mut place = bytes.len() - 1;
    while place > at {
        bytes[place] = bytes[place - 1];
        kinds[place] = kinds[place - 1];
        slots[place] = slots[place - 1];
        place -= 1;
    }
    bytes[at] = child.0;
    kinds[at] = child.1.kind;
    slots[at] = child.1.slot;
}

// Closes the gap of a removed value: the later ones move one place to the front.
#[inline(always)]
fn remove_from<T: Copy>(part: &mut [T], at: usize)
    requires { at < length part.old }
    ensures { take (length part.old - 1) part.new ≡ remove part.old at }
{
    let mut place = at + 1;
    while place < part.len() {
        part[place - 1] = part[place];
        place += 1;
    }
}
