//! Replies are written out before the engine waits for more of the input.

use art_engine::engine::serve;
use art_node_support::expected::same;
use std::alloc::Global;
use std::cell::Cell;
use std::io;
use std::io::{BufReader, BufWriter, Read, Write};
use std::test::Fail;

/// What each read returns, and how many bytes of replies should be written by then.
static READS: [(&[u8], usize); 6] = [
    (b"insert 1 2\n", 0),
    (b"find 1\nfind", 9),
    (b" 2\nfind 1\nfi", 13),
    (b"nd 2\n", 20),
    (b"find 1", 23),
    (b"", 23),
];

/// Returns parts of the input by each read, and notes whether the replies before it were written.
#[derive(Drop)]
struct Source<'a> {
    reads: u64,
    are_written: bool,
    written: &'a Cell<usize>,
}

impl Read for Source<'_> {
    fn read(&mut self, buf: &mut [u8]) -> io::Result<usize> {
        let Some(&(mut text, written)) = READS.get(self.reads as usize) else {
            return Ok(0);
        };
        self.reads = self.reads.saturating_add(1);
        if self.written.get() != written {
            self.are_written = false;
        }
        text.read(buf)
    }
}

/// Counts what is written.
#[derive(Drop)]
struct Sink<'a>(&'a Cell<usize>);

impl Write for Sink<'_> {
    fn write(&mut self, buf: &[u8]) -> io::Result<usize> {
        self.0.set(self.0.get().saturating_add(buf.len()));
        Ok(buf.len())
    }

    fn flush(&mut self) -> io::Result<()> {
        Ok(())
    }
}

// The status of an input that is served, 1 if that or the allocation of a buffer fails.
fn status_of(alloc: Global, input: &mut Source<'_>, output: Sink<'_>) -> u8 {
    let Ok(mut input) = BufReader::new(alloc, input) else {
        return 1;
    };
    let Ok(mut output) = BufWriter::new(alloc, output) else {
        return 1;
    };
    match serve(alloc, &mut input, &mut output) {
        Ok(ending) => ending.status(),
        Err(_) => 1,
    }
}

/// The status, how many reads there were, whether at each the replies to all lines before had been written, and how
/// many bytes were written at the end.
fn served(alloc: Global) -> (u8, u64, bool, usize) {
    let written = Cell::new(0);
    let mut input = Source {
        reads: 0,
        are_written: true,
        written: &written,
    };
    let status = status_of(alloc, &mut input, Sink(&written));
    (status, input.reads, input.are_written, written.get())
}

#[test]
fn replies_are_written_before_it_waits(rt: HostRuntime) -> Result<(), Fail> {
    same(served(rt.alloc()), (0, 6, true, 27))
}
