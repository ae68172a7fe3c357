//! The child next to a byte: the nearest one in a table with a place for each byte, and else the first above it, or the
//! last below it if there is none.
ghost use Rattle.std.specs.Prelude.{◌≡◌, ◌≢◌, ℕ, ◌+◌, ◌<◌, length, Some, None, IsSome, IfSome, IfNone};
ghost use Rattle.art_inner.specs.Beside.{IsNextTo};
ghost use Rattle.art_inner.specs.Inner.{child_at};
ghost use Rattle.art_inner.specs.Views.{ref_view};

use crate::any::InnerRef;
use crate::child_table::ChildTable;
use crate::places::Places;
use art_parts::names::OpaqueNodePtr;

impl<'a, const P: usize> InnerRef<'a, P> {
    /// Returns a child next to a byte that has none itself, with the child's own byte. It is above or below, and no
    /// other child is between.
    #[inline(always)]
    pub fn beside(&self, byte: u8) -> (u8, OpaqueNodePtr)
        requires some { 0 < length (ref_view self.now).children }
        requires absent { child_at (ref_view self.now).children byte ≡ None }
        ensures beside { IsNextTo (ref_view self.now).children byte result }
        ensures few { length (ref_view self.now).children < 256 }
    {
        match *self {
            InnerRef::Node4(node) => node.table.beside(byte),
            InnerRef::Node16(node) => node.table.beside(byte),
            InnerRef::Node48(node) => node.table.beside(byte),
            InnerRef::Node256(node) => node.table.beside(byte),
        }
    }
}

// The nearest child on either side of a byte.
#[inline(always)]
pub(crate) fn nearest<T: Places>(table: &T, byte: u8) -> (u8, OpaqueNodePtr)
    requires { (other : ℕ) × (other < 256) × (other ≢ byte) ×
        IsSome (child_at (T.children_of table.now) other) }
    ensures { IsNextTo (T.children_of table.now) byte result }
{
    for distance in 1..=u8::MAX {
        if let Some(below) = child_below(table, byte, distance) {
            return below;
        }
        if let Some(above) = child_above(table, byte, distance) {
            return above;
        }
    }
    unreachable!()
}

// The child this far below a byte.
#[inline(always)]
fn child_below<T: Places>(table: &T, byte: u8, distance: u8) -> Option<(u8, OpaqueNodePtr)>
    ensures there { IfSome result (λ child.
        child_at (T.children_of table.now) child.0 ≡ Some child.1) }
    ensures place { IfSome result (λ child. child.0 + distance ≡ byte) }
    ensures none { IfNone result ((k : ℕ) → k + distance ≡ byte →
        child_at (T.children_of table.now) k ≡ None) }
{
    let below = byte.checked_sub(distance)?;
    let name = table.get(below)?;
    Some((below, name))
}

// The child this far above a byte.
#[inline(always)]
fn child_above<T: Places>(table: &T, byte: u8, distance: u8) -> Option<(u8, OpaqueNodePtr)>
    ensures there { IfSome result (λ child.
        child_at (T.children_of table.now) child.0 ≡ Some child.1) }
    ensures place { IfSome result (λ child. child.0 ≡ byte + distance) }
    ensures none { IfNone result ((k : ℕ) → k < 256 → k ≡ byte + distance →
        child_at (T.children_of table.now) k ≡ None) }
{
    let above = byte.checked_add(distance)?;
    let name = table.get(above)?;
    Some((above, name))
}
