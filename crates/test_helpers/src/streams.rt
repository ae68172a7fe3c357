//! A reader and a writer over memory that take few bytes in a call, are interrupted now and then, and may fail.
ghost use Rattle.std.specs.Prelude.{◌≤◌, IfOk};

use std::alloc::Global;
use std::io;
use std::io::{ErrorKind, Read, Write};

/// The bytes that are left, and how the calls that read them go.
#[derive(Drop)]
pub struct Pieces<'a> {
    rest: &'a [u8],
    most: usize,
    calls: u64,
    failing: u64,
}

impl<'a> Pieces<'a> {
    /// A call takes at most so many bytes. Each third call is interrupted.
    pub fn of_at_most(bytes: &'a [u8], most: usize) -> Self {
        Pieces {
            rest: bytes,
            most,
            calls: 0,
            failing: 0,
        }
    }

    /// The same, but the call of this number fails. The first has number 1.
    pub fn failing_at(bytes: &'a [u8], failing: u64) -> Self {
        Pieces {
            rest: bytes,
            most: 3,
            calls: 0,
            failing,
        }
    }
}

impl Read for Pieces<'_> {
    fn read(&mut self, buffer: &mut [u8]) -> io::Result<usize> {
        self.calls = self.calls.saturating_add(1);
        if self.calls == self.failing {
            return Err(io::Error::from(ErrorKind::Other));
        }
        if self.calls % 3 == 0 {
            return Err(io::Error::from(ErrorKind::Interrupted));
        }
        let room = buffer.len().min(self.most);
        self.rest.read(&mut buffer[..room])
    }
}

/// The bytes that were written. The call of this number fails; the first has number 1.
#[derive(Drop)]
pub struct Failing {
    pub bytes: Vec<u8>,
    pub calls: u64,
    pub failing: u64,
}

impl Failing {
    pub fn at(alloc: Global, failing: u64) -> Self {
        Failing {
            bytes: Vec::new(alloc),
            calls: 0,
            failing,
        }
    }
}

impl Write for Failing {
    fn write(&mut self, bytes: &[u8]) -> io::Result<usize> {
        self.calls = self.calls.saturating_add(1);
        if self.calls == self.failing {
            return Err(io::Error::from(ErrorKind::Other));
        }
        self.bytes.write(bytes)
    }

    fn flush(&mut self) -> io::Result<()> {
        Ok(())
    }
}
