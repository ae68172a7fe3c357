//! Keys of a fixed length: arrays of bytes, and numbers.
ghost use Rattle.std.specs.Prelude.{◌≡◌, ◌≢◌, IfNone, IfSome, length};

use crate::traits::SnapshotKey;
use art_keys::laws::FixedBytes;
use art_keys::signed::Signed;
use art_keys::unsigned::Unsigned;
use std::alloc::{AllocError, Global};

// Returns the bytes as an array, or `None` if their number is not `N`.
pub(crate) fn all_of<const N: usize>(bytes: &[u8]) -> Option<[u8; N]>
    ensures all { IfSome result (λ all. all ≡ bytes.now) }
    ensures count { IfSome result (λ all. length all ≡ N) }
    ensures none { IfNone result (length bytes.now ≢ N) }
{
    if bytes.len() != N {
        return None;
    }
    let mut all = [0u8; N];
    all.copy_from_slice(bytes);
    Some(all)
}

/// Keys of `N` bytes each.
impl<const N: usize> SnapshotKey for [u8; N] {
    fn from_snapshot(alloc: Global, bytes: &[u8]) -> Result<Option<Self>, AllocError> {
        Ok(all_of(bytes))
    }
}

/// The bytes are those of the number, the highest first.
impl<const N: usize> SnapshotKey for Unsigned<N> {
    fn from_snapshot(alloc: Global, bytes: &[u8]) -> Result<Option<Self>, AllocError> {
        if bytes.len() != N {
            return Ok(None);
        }
        Ok(Some(Self::from_fixed_bytes(bytes)))
    }
}

/// The bytes are those of the number, the highest first, with the sign bit flipped. No number has no bytes.
impl<const N: usize> SnapshotKey for Signed<N> {
    fn from_snapshot(alloc: Global, bytes: &[u8]) -> Result<Option<Self>, AllocError> {
        if bytes.is_empty() {
            return Ok(None);
        }
        if bytes.len() != N {
            return Ok(None);
        }
        Ok(Some(Self::from_fixed_bytes(bytes)))
    }
}
