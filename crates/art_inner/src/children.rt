//! The children of an inner node, in order.
ghost use Rattle.std.specs.Prelude.{◌≡◌, ◌-◌, ◌<◌, ◌≤◌, length, slice_get, Some, IfSome, All, ⊤};
ghost use Rattle.std.specs.Iterator.{UpTo, YieldsFirst, YieldsLast, item_count};
ghost use Rattle.std.specs.Iterator.SizeHint.{IsWithinCount};
ghost use Rattle.art_inner.specs.Inner.{IsAbove, IsRising, children_between};
ghost use Rattle.art_inner.specs.Rows.{AreAligned, rows_of};

use crate::direct::Direct;
use crate::indexed::Indexed;
use crate::places::{Span, between_in, next_back_in, next_in};
use crate::rows::Rows;
use art_parts::names::OpaqueNodePtr;
use std::alloc::AllocError;
use std::iter::FusedIterator;
use std::marker::Model;

/// The children of an inner node by rising bytes, each with its byte, seen as the list of those not returned yet.
#[derive(Drop)]
pub struct Children<'a> {
    rest: Rest<'a>,
}

// What is left: rows, or the bytes of a table that are still to be visited.
#[derive(Clone, Copy)]
enum Rest<'a> {
    Sorted(Rows<'a>),
    Indexed(&'a Indexed, Span),
    Direct(&'a Direct, Span),
}

impl<'a> Model for Children<'a> {
    ghost use Rattle.art_inner.specs.Inner.{Children};
    ghost use Rattle.art_inner.specs.Rests.{IsRest, rest_list};

    ghost Value = { Children };

    ghost view = { λ c. rest_list c.rest };

    ghost invariant = { λ c. IsRest c.rest };
}

impl<'a> Clone for Children<'a> {
    ghost is_clone = { λ children copy. copy ≡ children };

    ghost is_infallible = { λ _. ⊤ };

    fn clone(&self) -> Result<Self, AllocError> {
        Ok(Children { rest: self.rest })
    }
}

impl<'a> Children<'a> {
    pub(crate) fn new(rest: Rows<'a>) -> Self
        requires aligned { AreAligned rest }
        requires rising { IsRising (rows_of rest) }
        ensures { result ≡ rows_of rest.entry }
    {
        Children {
            rest: Rest::Sorted(rest),
        }
    }

    pub(crate) fn of_indexed(table: &'a Indexed, left: usize) -> Self
        requires rising { IsRising table.now }
        requires bytes { IsAbove 256 table.now }
        requires count { left ≡ length table.now }
        ensures { result ≡ table.now }
    {
        let span = Span {
            from: 0,
            to: 256,
            left,
        };
        Children {
            rest: Rest::Indexed(table, span),
        }
    }

    pub(crate) fn of_direct(table: &'a Direct, left: usize) -> Self
        requires rising { IsRising table.now }
        requires bytes { IsAbove 256 table.now }
        requires count { left ≡ length table.now }
        ensures { result ≡ table.now }
    {
        let span = Span {
            from: 0,
            to: 256,
            left,
        };
        Children {
            rest: Rest::Direct(table, span),
        }
    }

    pub(crate) fn least(&self) -> (u8, OpaqueNodePtr)
        requires { 0 < length self.now }
        ensures first { slice_get self.now 0 ≡ Some result }
        ensures least { All (λ child. result.0 ≤ child.0) self.now }
    {
        match self.rest {
            Rest::Sorted(rows) => rows.entry(0),
            Rest::Indexed(table, span) => {
                let mut span = span;
                match next_in(table, &mut span) {
                    Some(first) => first,
                    None => unreachable!(),
                }
            }
            Rest::Direct(table, span) => {
                let mut span = span;
                match next_in(table, &mut span) {
                    Some(first) => first,
                    None => unreachable!(),
                }
            }
        }
    }

    pub(crate) fn greatest(&self) -> (u8, OpaqueNodePtr)
        requires { 0 < length self.now }
        ensures last { slice_get self.now (length self.now - 1) ≡ Some result }
        ensures greatest { All (λ child. child.0 ≤ result.0) self.now }
    {
        match self.rest {
            Rest::Sorted(rows) => rows.entry(rows.len() - 1),
            Rest::Indexed(table, span) => {
                let mut span = span;
                match next_back_in(table, &mut span) {
                    Some(last) => last,
                    None => unreachable!(),
                }
            }
            Rest::Direct(table, span) => {
                let mut span = span;
                match next_back_in(table, &mut span) {
                    Some(last) => last,
                    None => unreachable!(),
                }
            }
        }
    }

    // Those under the bytes from first to last.
    pub(crate) fn between(&self, first: u8, last: u8) -> Self
        ensures { result ≡ children_between first last self.now }
    {
        match self.rest {
            Rest::Sorted(rows) => Children {
                rest: Rest::Sorted(rows.between(first, last)),
            },
            Rest::Indexed(table, span) => Children {
                rest: Rest::Indexed(table, between_in(table, span, first, last)),
            },
            Rest::Direct(table, span) => Children {
                rest: Rest::Direct(table, between_in(table, span, first, last)),
            },
        }
    }
}

impl<'a> Iterator for Children<'a> {
    type Item = (u8, OpaqueNodePtr);

    ghost next_gives = { YieldsFirst (λ children. children) };

    ghost remaining = { item_count (λ children. children) };

    fn next(&mut self) -> Option<(u8, OpaqueNodePtr)> {
        match &mut self.rest {
            Rest::Sorted(rows) => rows.take_first(),
            Rest::Indexed(table, span) => next_in(*table, span),
            Rest::Direct(table, span) => next_in(*table, span),
        }
    }

    fn size_hint(&self) -> (usize, Option<usize>)
        ensures lower { IsWithinCount result.0 (item_count (λ children. children) self.now) }
        ensures upper { IfSome result.1 (UpTo (item_count (λ children. children) self.now)) }
        ensures exact { result ≡ (length self.now, Some (length self.now)) }
    {
        (self.len(), Some(self.len()))
    }
}

impl<'a> DoubleEndedIterator for Children<'a> {
    ghost next_back_gives = { YieldsLast (λ children. children) };

    fn next_back(&mut self) -> Option<(u8, OpaqueNodePtr)> {
        match &mut self.rest {
            Rest::Sorted(rows) => rows.take_last(),
            Rest::Indexed(table, span) => next_back_in(*table, span),
            Rest::Direct(table, span) => next_back_in(*table, span),
        }
    }
}

impl<'a> ExactSizeIterator for Children<'a> {
    fn len(&self) -> usize {
        match self.rest {
            Rest::Sorted(rows) => rows.len(),
            Rest::Indexed(_, span) => span.left,
            Rest::Direct(_, span) => span.left,
        }
    }
}

impl<'a> FusedIterator for Children<'a> {}
