//! Reads bytes, and computes the checksum of what is read.
ghost use Rattle.std.specs.Prelude.{◌≡◌, ◌≢◌, ◌<◌, ◌≤◌, ◌^◌, ◌++◌, ◌∷◌, [], IfErr, IfOk, IfSome, List, OnOk, Some, length, take, ℕ};
ghost use Rattle.std.specs.Io.KnownBytes.{IsAtEnd, ReadConsumes};
ghost use Rattle.std.specs.Io.{ReadsAtMost};
ghost use Rattle.snapshot_format.specs.Numbers.{FitsWithin, number_bytes, number_within};
ghost use Rattle.snapshot_format.specs.Snapshots.{sized};
ghost use Rattle.snapshot_format.specs.Faults.{Finds, IfMalformed, IsNot, NumberFault, SizedFault, WithinFault};
ghost use Rattle.snapshot_format.specs.declared.error.Fault.TheVariants as faults;
ghost use Rattle.snapshot_format.specs.Reading.{Appended, AppendedSized, IfFault, IsOutside, Reads};

use crate::error::{Fault, Malformed, ReadError};
use sha2::{Digest, Sha256};
use std::io;
use std::io::{ErrorKind, Read};

/// A reader, the checksum of what was read of it, and how many bytes that are. The number stops at `u64::MAX`.
#[derive(Drop)]
pub struct Source<R> {
    pub input: R,
    pub digest: Sha256,
    pub at: u64,
}

impl<R: Read> Source<R> {
    /// Reads some bytes; none only at the end of the input, or into an empty buffer.
    pub fn read(&mut self, buffer: &mut [u8]) -> Result<usize, ReadError>
        ensures bound { IfOk result (λ n. n ≤ length buffer.new) }
        ensures read { IfOk result (λ n. Reads R.remaining self.old self.new (take n buffer.new)) }
        ensures end { IfOk result (λ n. n ≡ 0 → 0 < length buffer.new →
            IsAtEnd (R.remaining self.new.input)) }
        ensures outside { IfErr result IsOutside }
    {
        let n = read_again(&mut self.input, buffer)?;
        self.digest.update(&buffer[..n]);
        self.at = self.at.saturating_add(n as u64);
        Ok(n)
    }

    /// Returns an error about what was read so far.
    pub fn malformed(&self, fault: Fault) -> ReadError
        ensures { result ≡ ReadError.Malformed (record { at = self.now.at; fault = fault }) }
    {
        ReadError::Malformed(Malformed { at: self.at, fault })
    }

    /// Reads a byte.
    pub fn byte(&mut self) -> Result<u8, ReadError>
        ensures read { IfOk result (λ byte. Reads R.remaining self.old self.new (byte ∷ [])) }
        ensures fault { IfErr result (λ error.
            IfFault error (IsAtEnd (R.remaining self.old.input))) }
        ensures why { IfErr result (λ error. IfMalformed error
            (Finds R.remaining self.old self.new (λ fault read. (fault ≡ faults.CutShort) × (read ≡ [])))) }
    {
        let mut byte = [0u8; 1];
        if self.read(&mut byte)? == 0 {
            return Err(self.malformed(Fault::CutShort));
        }
        Ok(byte[0])
    }

    /// Reads these bytes; other ones are this fault.
    pub fn expect(&mut self, wanted: &[u8], fault: Fault) -> Result<(), ReadError>
        ensures read { OnOk result (Reads R.remaining self.old self.new wanted.now) }
        ensures fault { IfErr result (λ error. IfFault error ((rest : List ℕ) →
            R.remaining self.old.input ≢ Some (wanted.now ++ rest))) }
        ensures why { fault ≢ faults.CutShort → IfErr result (λ error. IfMalformed error
            (Finds R.remaining self.old self.new (IsNot wanted.now fault))) }
    {
        for byte in wanted {
            if self.byte()? != *byte {
                return Err(self.malformed(fault));
            }
        }
        Ok(())
    }

    /// Reads a number.
    pub fn number(&mut self) -> Result<u64, ReadError>
        ensures read { IfOk result (λ n. Reads R.remaining self.old self.new (number_bytes n)) }
        ensures fault { IfErr result (λ error. IfFault error ((n : ℕ) (rest : List ℕ) →
            n < 2 ^ 64 → R.remaining self.old.input ≢ Some (number_bytes n ++ rest))) }
        ensures why { IfErr result (λ error. IfMalformed error
            (Finds R.remaining self.old self.new NumberFault)) }
    {
        self.number_within(9)
    }

    // Reads a number that has at most so many bytes after the first.
    fn number_within(&mut self, more: u8) -> Result<u64, ReadError>
        ensures read { IfOk result (λ n. Reads R.remaining self.old self.new (number_within more n)) }
        ensures fault { IfErr result (λ error. IfFault error ((n : ℕ) (rest : List ℕ) →
            FitsWithin more n → n < 2 ^ 64 →
            R.remaining self.old.input ≢ Some (number_within more n ++ rest))) }
        ensures why { IfErr result (λ error. IfMalformed error
            (Finds R.remaining self.old self.new (WithinFault more))) }
    {
        let byte = self.byte()?;
        if byte < 128 {
            return Ok(u64::from(byte));
        }
        if more == 0 {
            return Err(self.malformed(Fault::BadNumber));
        }
        let high = self.number_within(more - 1)?;
        if high == 0 || high >= 1 << 57 {
            return Err(self.malformed(Fault::BadNumber));
        }
        Ok(high * 128 + u64::from(byte - 128))
    }

    /// Appends so many bytes. It makes no room for bytes before they are read.
    pub fn append(&mut self, len: u64, into: &mut Vec<u8>) -> Result<(), ReadError>
        ensures read { OnOk result (Appended R.remaining self.old self.new into.old.items into.new.items len) }
        ensures fault { IfErr result (λ error. IfFault error (IfSome (R.remaining self.old.input) (λ left.
            length left < len))) }
        ensures why { IfErr result (λ error. IfMalformed error (Finds R.remaining self.old self.new
            (λ fault read. (fault ≡ faults.CutShort) × (length read < len)))) }
    {
        // No effect at run time. The proof reads from this use that the number is one of 64 bits.
        let _at = self.at;
        let mut chunk = [0u8; 64];
        let mut left = len;
        while left > 0 {
            let size = left.min(64) as usize;
            let n = self.read(&mut chunk[..size])?;
            if n == 0 {
                return Err(self.malformed(Fault::CutShort));
            }
            into.extend_from_slice(&chunk[..n])?;
            left -= n as u64;
        }
        Ok(())
    }

    /// Appends bytes that follow their number.
    pub fn append_sized(&mut self, into: &mut Vec<u8>) -> Result<(), ReadError>
        ensures read { OnOk result (AppendedSized R.remaining self.old self.new into.old.items into.new.items) }
        ensures fault { IfErr result (λ error. IfFault error ((bytes rest : List ℕ) →
            length bytes < 2 ^ 64 → R.remaining self.old.input ≢ Some (sized bytes ++ rest))) }
        ensures why { IfErr result (λ error. IfMalformed error
            (Finds R.remaining self.old self.new SizedFault)) }
    {
        let len = self.number()?;
        self.append(len, into)
    }

    /// Reads nothing, at the end of the input.
    pub fn end(&mut self) -> Result<(), ReadError>
        ensures end { OnOk result (IsAtEnd (R.remaining self.old.input)) }
        ensures fault { IfErr result (λ error. IfFault error (R.remaining self.old.input ≢ Some [])) }
        ensures why { IfErr result (λ error. IfMalformed error (Finds R.remaining self.old self.new
            (λ fault read. (fault ≡ faults.TrailingBytes) × (length read ≡ 1)))) }
    {
        if self.read(&mut [0u8; 1])? == 0 {
            return Ok(());
        }
        Err(self.malformed(Fault::TrailingBytes))
    }
}

// Reads some bytes, and tries again if the reader was interrupted.
fn read_again<R: Read>(input: &mut R, buffer: &mut [u8]) -> io::Result<usize>
    ensures bound { ReadsAtMost result buffer.new }
    ensures bytes { ReadConsumes (R.remaining input.old) (R.remaining input.new) result buffer.new }
{
    for _ in 0..u64::MAX {
        match input.read(buffer) {
            Ok(n) => return Ok(n),
            Err(error) => {
                if error.kind() != ErrorKind::Interrupted {
                    return Err(error);
                }
            }
        }
    }
    Err(io::Error::from(ErrorKind::Interrupted))
}
