//! A reader and a writer over memory, each of which can fail at one call and take few bytes at the others.
ghost use Rattle.std.specs.Prelude.{◌≤◌, IfOk};

use art_engine::engine::serve;
use std::alloc::Global;
use std::io;
use std::io::{BufReader, BufWriter, ErrorKind, Read, Write};

/// The calls of a reader or of a writer: how many there were, which one fails, and how many bytes each of the others
/// takes at most.
#[derive(Clone, Copy)]
pub struct Calls {
    pub count: u64,
    pub failing: Option<u64>,
    pub most: usize,
}

impl Calls {
    /// Calls of which none fails.
    pub fn of_at_most(most: usize) -> Self {
        let failing = None;
        Calls {
            count: 0,
            failing,
            most,
        }
    }

    /// The same, but the call of this number fails. The first has number 1.
    pub fn failing_at(number: u64, most: usize) -> Self {
        let failing = Some(number);
        Calls {
            count: 0,
            failing,
            most,
        }
    }

    /// One further call, and how many of so many bytes it takes.
    fn take(&mut self, len: usize) -> io::Result<usize>
        ensures { IfOk result (λ count. count ≤ len) }
    {
        self.count = self.count.saturating_add(1);
        if self.failing == Some(self.count) {
            return Err(io::Error::from(ErrorKind::Other));
        }
        Ok(self.most.min(len))
    }
}

/// A text that is still to be read.
#[derive(Drop)]
struct Source<'a> {
    rest: &'a [u8],
    calls: Calls,
}

impl Read for Source<'_> {
    fn read(&mut self, buf: &mut [u8]) -> io::Result<usize> {
        let count = self.calls.take(buf.len())?;
        self.rest.read(&mut buf[..count])
    }
}

/// What was written.
#[derive(Drop)]
struct Sink {
    bytes: Vec<u8>,
    calls: Calls,
}

impl Write for Sink {
    fn write(&mut self, buf: &[u8]) -> io::Result<usize> {
        let count = self.calls.take(buf.len())?;
        self.bytes.extend_from_slice(&buf[..count])?;
        Ok(count)
    }

    fn flush(&mut self) -> io::Result<()> {
        self.calls.take(0)?;
        Ok(())
    }
}

/// The result of a text: the status, what was written, and how many calls there were of the reader and of the writer.
#[derive(Drop)]
pub struct Outcome {
    pub status: u8,
    pub written: Vec<u8>,
    pub reads: u64,
    pub writes: u64,
}

// The status of a text that is served, 1 if that or the allocation of a buffer fails.
fn status_of(alloc: Global, input: &mut Source<'_>, output: &mut Sink) -> u8 {
    let Ok(mut input) = BufReader::new(alloc, input) else {
        return 1;
    };
    let Ok(mut output) = BufWriter::new(alloc, output) else {
        return 1;
    };
    match serve(alloc, &mut input, &mut output) {
        Ok(ending) => ending.status(),
        Err(_) => 1,
    }
}

/// Serves a text.
pub fn served(alloc: Global, text: &[u8], reads: Calls, writes: Calls) -> Outcome {
    let mut input = Source {
        rest: text,
        calls: reads,
    };
    let mut output = Sink {
        bytes: Vec::new(alloc),
        calls: writes,
    };
    let status = status_of(alloc, &mut input, &mut output);
    Outcome {
        status,
        written: output.bytes,
        reads: input.calls.count,
        writes: output.calls.count,
    }
}
