//! Why a snapshot could not be read.
ghost use Rattle.std.specs.Prelude.{◌≡◌};
ghost use Rattle.snapshot_format.specs.declared.error.ReadError.TheVariants.{Memory, Reader};

use std::alloc::{AllocError, AllocFailed};
use std::error::Error;
use std::{fmt, io};

/// What is wrong with the bytes.
#[derive(Clone, Copy, Debug, PartialEq, Eq)]
pub enum Fault {
    /// The bytes do not start as a snapshot does.
    NotASnapshot,
    /// The snapshot is of this version, which is not known here.
    UnknownVersion(u8),
    /// The input ends inside the snapshot.
    CutShort,
    /// A number is not below 2^64, or is written with more bytes than it needs.
    BadNumber,
    /// A key does not come after the one before it, or shares more bytes with it than the snapshot says.
    OutOfOrder,
    /// The bytes of a key or of a value are not those of any key or value of its type.
    BadEntry,
    /// The checksum is not that of the bytes before it.
    WrongChecksum,
    /// Bytes follow the snapshot.
    TrailingBytes,
}

/// A fault, and how many bytes had been read when it was found. The number stops at `u64::MAX`.
#[derive(Clone, Copy, Debug, PartialEq, Eq)]
pub struct Malformed {
    pub at: u64,
    pub fault: Fault,
}

/// Why a snapshot could not be read.
#[derive(Debug, Drop)]
pub enum ReadError {
    /// The bytes are no snapshot.
    Malformed(Malformed),
    /// An allocation failed.
    Memory,
    /// The reader failed.
    Reader(io::Error),
}

impl fmt::Display for Fault {
    fn fmt<W: fmt::Write>(&self, f: &mut fmt::Formatter<W>) -> fmt::Result {
        f.write_str(match self {
            Fault::UnknownVersion(version) => return write!(f, "unknown version {version}"),
            Fault::NotASnapshot => "not a snapshot",
            Fault::CutShort => "the snapshot is cut short",
            Fault::BadNumber => "bad number",
            Fault::OutOfOrder => "the keys are out of order",
            Fault::BadEntry => "bad key or value",
            Fault::WrongChecksum => "wrong checksum",
            Fault::TrailingBytes => "bytes follow the snapshot",
        })
    }
}

impl fmt::Display for Malformed {
    fn fmt<W: fmt::Write>(&self, f: &mut fmt::Formatter<W>) -> fmt::Result {
        let Malformed { at, fault } = *self;
        write!(f, "{fault} (after {at} bytes)")
    }
}

impl fmt::Display for ReadError {
    fn fmt<W: fmt::Write>(&self, f: &mut fmt::Formatter<W>) -> fmt::Result {
        match self {
            ReadError::Malformed(malformed) => write!(f, "{malformed}"),
            ReadError::Memory => f.write_str("out of memory"),
            ReadError::Reader(error) => write!(f, "{error}"),
        }
    }
}

impl Error for Malformed {}

impl Error for ReadError {}

impl From<AllocError> for ReadError {
    ghost from_gives = { λ _ error. error ≡ Memory };

    fn from(_error: AllocError) -> ReadError {
        ReadError::Memory
    }
}

impl<T: Drop> From<AllocFailed<T>> for ReadError {
    ghost from_gives = { λ _ error. error ≡ Memory };

    fn from(_error: AllocFailed<T>) -> ReadError {
        ReadError::Memory
    }
}

impl From<io::Error> for ReadError {
    ghost from_gives = { λ given error. error ≡ Reader given };

    fn from(error: io::Error) -> ReadError {
        ReadError::Reader(error)
    }
}
