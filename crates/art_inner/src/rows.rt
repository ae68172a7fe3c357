//! Names under rising bytes, borrowed: bytes, kinds and slots in slices of their own.
ghost use Rattle.std.specs.Prelude.{◌≡◌, ◌-◌, ◌<◌, ◌≤◌, [], ◌++◌, length, take, drop, None, IfNone, IfOk, IfErr, IsSome, IsTrue, ◌↔◌, slice_get, slice_index_or, Some};
ghost use Rattle.std.specs.List.{cons_option};
ghost use Rattle.art_inner.specs.Inner.{bytes_below, IsRising, child_at, children_between, count_below};
ghost use Rattle.art_inner.specs.Rows.{AreAligned, rows_of};

use art_parts::names::{NodeType, OpaqueNodePtr};

/// Bytes, and the kind and the slot of the name under each.
#[derive(Clone, Copy)]
pub(crate) struct Rows<'a> {
    pub(crate) bytes: &'a [u8],
    pub(crate) kinds: &'a [NodeType],
    pub(crate) slots: &'a [u32],
}

impl<'a> Rows<'a> {
    pub(crate) fn len(&self) -> usize
        requires { AreAligned self.now }
        ensures rows { result ≡ length (rows_of self.now) }
        ensures bytes { result ≡ length self.now.bytes.now }
    {
        self.bytes.len()
    }

    // The byte at a place, and the name under it.
    #[inline(always)]
    pub(crate) fn entry(&self, place: usize) -> (u8, OpaqueNodePtr)
        requires aligned { AreAligned self.now }
        requires within { place < length self.now.bytes.now }
        ensures byte { result.0 ≡ slice_index_or self.now.bytes.now place 0 }
        ensures entry { slice_get (rows_of self.now) place ≡ Some result }
    {
        let name = OpaqueNodePtr {
            kind: self.kinds[place],
            slot: self.slots[place],
        };
        (self.bytes[place], name)
    }

    // Those at the places from one to another, which is excluded.
    pub(crate) fn part(&self, from: usize, to: usize) -> Self
        requires aligned { AreAligned self.now }
        requires order { from ≤ to }
        requires within { to ≤ length self.now.bytes.now }
        ensures aligned { AreAligned result }
        ensures value { rows_of result ≡ take (to - from) (drop from (rows_of self.now)) }
    {
        Rows {
            bytes: &self.bytes[from..to],
            kinds: &self.kinds[from..to],
            slots: &self.slots[from..to],
        }
    }

    // Those under the bytes from first to last.
    pub(crate) fn between(&self, first: u8, last: u8) -> Self
        requires aligned { AreAligned self.now }
        requires rising { IsRising (rows_of self.now) }
        ensures aligned { AreAligned result }
        ensures rising { IsRising (rows_of result) }
        ensures value { rows_of result ≡ children_between first last (rows_of self.now) }
    {
        let end = bytes_below(self.bytes, last as usize + 1);
        let start = bytes_below(self.bytes, first as usize).min(end);
        self.part(start, end)
    }

    pub(crate) fn take_first(&mut self) -> Option<(u8, OpaqueNodePtr)>
        requires { AreAligned self.old }
        ensures aligned { AreAligned self.new }
        ensures gives { rows_of self.old ≡ cons_option result (rows_of self.new) }
        ensures done { IfNone result (rows_of self.new ≡ []) }
    {
        let len = self.len();
        if len == 0 {
            return None;
        }
        let first = self.entry(0);
        *self = self.part(1, len);
        Some(first)
    }

    pub(crate) fn take_last(&mut self) -> Option<(u8, OpaqueNodePtr)>
        requires { AreAligned self.old }
        ensures aligned { AreAligned self.new }
        ensures gives { rows_of self.old ≡ rows_of self.new ++ cons_option result [] }
        ensures done { IfNone result (rows_of self.new ≡ []) }
    {
        let len = self.len();
        if len == 0 {
            return None;
        }
        let last = self.entry(len - 1);
        *self = self.part(0, len - 1);
        Some(last)
    }

    // How many are under bytes below this one.
    pub(super) fn count_below(&self, byte: u8) -> usize
        requires { AreAligned self.now }
        ensures { result ≡ count_below (rows_of self.now) byte }
    {
        bytes_below(self.bytes, byte as usize)
    }

    // The place of a byte, or where it would be inserted.
    pub(crate) fn search(&self, byte: u8) -> Result<usize, usize>
        requires aligned { AreAligned self.now }
        requires rising { IsRising (rows_of self.now) }
        ensures found { IfOk result (λ at. IsSome (child_at (rows_of self.now) byte)) }
        ensures place { IfOk result (λ at. at ≡ count_below (rows_of self.now) byte) }
        ensures absent { IfErr result (λ at. child_at (rows_of self.now) byte ≡ None) }
        ensures between { IfErr result (λ at. at ≡ count_below (rows_of self.now) byte) }
    {
        let at = self.count_below(byte);
        if is_at(self.bytes, at, byte) {
            Ok(at)
        } else {
            Err(at)
        }
    }
}

// How many of the first bytes are below this one.
fn bytes_below(bytes: &[u8], byte: usize) -> usize
    ensures value { result ≡ bytes_below bytes.now byte }
    ensures bound { result ≤ length bytes.now }
{
    let mut count = 0;
    for &b in bytes {
        if b as usize >= byte {
            return count;
        }
        count += 1;
    }
    count
}

// Whether this byte is at a place.
fn is_at(bytes: &[u8], at: usize, byte: u8) -> bool
    ensures { IsTrue result ↔ ((at < length bytes.now) × (slice_index_or bytes.now at 0 ≡ byte)) }
{
    at < bytes.len() && bytes[at] == byte
}
