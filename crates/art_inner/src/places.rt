//! Tables with a place for each byte, and cursors over them.
ghost use Rattle.std.specs.Prelude.{◌≡◌, ◌+◌, ◌<◌, ◌≤◌, length, [], IfNone, ◌++◌, Option, Some, None, min, max};
ghost use Rattle.std.specs.List.{cons_option};
ghost use Rattle.art_inner.specs.Inner.{IsRising, part_of, Children, child_at};
ghost use Rattle.art_inner.specs.Spans.{IsSpan, part_left};

use art_parts::names::OpaqueNodePtr;

/// A table in which the name under a byte is found by the byte.
pub(crate) trait Places {
    /// The children of the table.
    ghost children_of: { Self → Children };

    /// Returns the name under a byte.
    fn get(&self, byte: u8) -> Option<OpaqueNodePtr>
        ensures { result ≡ child_at (children_of self.now) byte };
}

// The bytes from `from` on, up to `to`, which is excluded, and how many children are under them.
#[derive(Clone, Copy)]
pub(crate) struct Span {
    pub(crate) from: usize,
    pub(crate) to: usize,
    pub(crate) left: usize,
}

pub(crate) fn next_in<T: Places>(table: &T, span: &mut Span) -> Option<(u8, OpaqueNodePtr)>
    requires rising { IsRising (T.children_of table.now) }
    requires within { IsSpan (T.children_of table.now) span.old }
    ensures within { IsSpan (T.children_of table.now) span.new }
    ensures gives { part_left (T.children_of table.now) span.old ≡
        cons_option result (part_left (T.children_of table.now) span.new) }
    ensures done { IfNone result (part_left (T.children_of table.now) span.new ≡ []) }
{
    while span.from < span.to {
        let byte = span.from as u8;
        span.from += 1;
        if let Some(name) = table.get(byte) {
            span.left -= 1;
            return Some((byte, name));
        }
    }
    None
}

pub(crate) fn next_back_in<T: Places>(table: &T, span: &mut Span) -> Option<(u8, OpaqueNodePtr)>
    requires rising { IsRising (T.children_of table.now) }
    requires within { IsSpan (T.children_of table.now) span.old }
    ensures within { IsSpan (T.children_of table.now) span.new }
    ensures gives { part_left (T.children_of table.now) span.old ≡
        part_left (T.children_of table.now) span.new ++ cons_option result [] }
    ensures done { IfNone result (part_left (T.children_of table.now) span.new ≡ []) }
{
    while span.from < span.to {
        span.to -= 1;
        let byte = span.to as u8;
        if let Some(name) = table.get(byte) {
            span.left -= 1;
            return Some((byte, name));
        }
    }
    None
}

// The part of a span from one byte to another.
pub(crate) fn between_in<T: Places>(table: &T, span: Span, first: u8, last: u8) -> Span
    requires rising { IsRising (T.children_of table.now) }
    requires within { IsSpan (T.children_of table.now) span }
    ensures within { IsSpan (T.children_of table.now) result }
    ensures from { result.from ≡ max span.from first }
    ensures to { result.to ≡ min span.to (last + 1) }
{
    let from = span.from.max(first as usize);
    let to = span.to.min(last as usize + 1);
    Span {
        from,
        to,
        left: count_in(table, from, to),
    }
}

// How many children are under these bytes.
fn count_in<T: Places>(table: &T, from: usize, to: usize) -> usize
    requires rising { IsRising (T.children_of table.now) }
    requires within { to ≤ 256 }
    ensures { result ≡ length (part_of from to (T.children_of table.now)) }
{
    let mut count = 0;
    for byte in from..to {
        if let Some(_) = table.get(byte as u8) {
            count += 1;
        }
    }
    count
}
