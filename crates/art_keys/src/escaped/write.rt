//! The length of a key's string, and the string written to a buffer.
ghost use Rattle.std.specs.Prelude.{◌≡◌, ◌+◌, ◌<◌, ◌≤◌, ◌++◌, length, take, IfSome, MatchOption};

use super::{Escaped, first_escaped};

impl Escaped {
    /// Returns the length of the string. It reads all bytes of the key.
    pub fn text_len(&self) -> usize
        ensures { result ≡ length self.now }
    {
        let mut len = 0;
        let mut rest = self.bytes.as_slice();
        while let Some((_, others)) = first_escaped(rest) {
            len += 1;
            rest = others;
        }
        len
    }

    /// Writes the string to a buffer from index `at` on, and returns the index at which it ends. Returns `None` if the
    /// buffer is too short; the bytes from `at` on are then not specified. It allocates nothing.
    pub fn write_at(&self, at: usize, buffer: &mut [u8]) -> Option<usize>
        requires { at ≤ length buffer.old }
        ensures end { MatchOption result (length buffer.old < at + length self.now)
            (λ end. end ≡ at + length self.now) }
        ensures text { IfSome result (λ end. take end buffer.new ≡ take at buffer.old ++ self.now) }
        ensures before { take at buffer.new ≡ take at buffer.old }
        ensures len { length buffer.new ≡ length buffer.old }
    {
        let mut end = at;
        let mut rest = self.bytes.as_slice();
        while let Some((byte, others)) = first_escaped(rest) {
            if end >= buffer.len() {
                return None;
            }
            buffer[end] = byte;
            end += 1;
            rest = others;
        }
        Some(end)
    }
}
