//! Reads and writes that fail, each in its turn.

use super::in_memory::{Calls, Outcome, served};
use super::lines::EVERY_LINE;
use super::turns::{input_of, replies_of};
use art_node_support::expected::same;
use std::alloc::{AllocError, Global};
use std::test::Fail;

/// Which of the two fails.
#[derive(Clone, Copy)]
enum Failing {
    Reader,
    Writer,
}

/// The result of the text if the reader or the writer fails at its call of this number, and whether it was met. No call
/// takes more than a few bytes.
fn served_failing(alloc: Global, text: &[u8], which: Failing, number: u64) -> (Outcome, bool) {
    let (few, failing) = (Calls::of_at_most(5), Calls::failing_at(number, 5));
    match which {
        Failing::Reader => {
            let came = served(alloc, text, failing, few);
            let is_met = number <= came.reads;
            (came, is_met)
        }
        Failing::Writer => {
            let came = served(alloc, text, few, failing);
            let is_met = number <= came.writes;
            (came, is_met)
        }
    }
}

/// How a sweep over all calls ended.
#[derive(Clone, Copy, PartialEq, Eq, Debug)]
enum End {
    /// Each run that met its fault ended with status 1 after a beginning of the replies, and the last one met none and
    /// wrote them all.
    Right,
    /// This run was otherwise.
    WrongAt(u64),
    /// There were more runs, or fewer, than such a text can have.
    Unmet,
}

/// Serves a line of every kind with each call failing in turn, until a run meets no fault.
fn swept(alloc: Global, which: Failing) -> Result<End, AllocError> {
    let text = input_of(alloc, &EVERY_LINE)?;
    let replies = replies_of(alloc, &EVERY_LINE)?;
    for number in 1..1000 {
        let (came, is_met) = served_failing(alloc, &text, which, number);
        let is_whole = came.status == 0 && came.written == replies;
        if !is_met {
            return Ok(if !is_whole {
                End::WrongAt(number)
            } else if number < 20 {
                End::Unmet
            } else {
                End::Right
            });
        }
        if came.status != 1 || !replies.starts_with(&came.written) {
            return Ok(End::WrongAt(number));
        }
    }
    Ok(End::Unmet)
}

#[test]
fn a_read_that_fails_ends_with_status_1(rt: HostRuntime) -> Result<(), Fail> {
    same(swept(rt.alloc(), Failing::Reader)?, End::Right)
}

#[test]
fn a_write_that_fails_ends_with_status_1(rt: HostRuntime) -> Result<(), Fail> {
    same(swept(rt.alloc(), Failing::Writer)?, End::Right)
}
