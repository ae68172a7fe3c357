//! A writer that remembers whether its last call failed.
ghost use Rattle.std.specs.Prelude.{◌≡◌, ◌↔◌, IsErr, IsTrue, OnOk, false};
ghost use Rattle.std.specs.Io.{WritesAtMost};
ghost use Rattle.std.specs.Io.KnownBytes.{Appends, Keeps, WriteAppends};

use std::io;
use std::io::Write;

/// Passes each call on to another writer. So a caller that reads and writes can tell whose an error is.
#[derive(Drop)]
pub struct Watched<W> {
    inner: W,
    has_failed: bool,
}

impl<W> Watched<W> {
    ghost use Rattle.line_programs.specs.Watching.{has_failed, inner_writer};

    /// Returns a writer that has not been called.
    pub fn new(inner: W) -> Self
        ensures inner { inner_writer result ≡ inner }
        ensures failed { has_failed result ≡ false }
    {
        let has_failed = false;
        Watched { inner, has_failed }
    }

    /// Returns whether the last call failed.
    pub fn has_failed(&self) -> bool
        ensures { result ≡ has_failed self.now }
    {
        self.has_failed
    }
}

impl<W: Write> Write for Watched<W> {
    ghost use Rattle.line_programs.specs.Watching.{has_failed, inner_writer};

    ghost contents = { λ watched. W.contents (inner_writer watched) };

    fn write(&mut self, bytes: &[u8]) -> io::Result<usize>
        ensures bound { WritesAtMost result bytes.now }
        ensures bytes { WriteAppends (W.contents (inner_writer self.old)) (W.contents (inner_writer self.new)) result bytes.now }
        ensures failed { IsTrue (has_failed self.new) ↔ IsErr result }
    {
        let written = self.inner.write(bytes);
        self.has_failed = written.is_err();
        written
    }

    fn flush(&mut self) -> io::Result<()>
        ensures bytes { Keeps (W.contents (inner_writer self.old)) (W.contents (inner_writer self.new)) }
        ensures failed { IsTrue (has_failed self.new) ↔ IsErr result }
    {
        let flushed = self.inner.flush();
        self.has_failed = flushed.is_err();
        flushed
    }

    fn write_all(&mut self, bytes: &[u8]) -> io::Result<()>
        ensures bytes { OnOk result (Appends (W.contents (inner_writer self.old)) (W.contents (inner_writer self.new)) bytes.now) }
        ensures failed { IsTrue (has_failed self.new) ↔ IsErr result }
    {
        let written = self.inner.write_all(bytes);
        self.has_failed = written.is_err();
        written
    }
}
