//! Values that are written to snapshots.
ghost use Rattle.std.specs.Prelude.{[], string_bytes};
ghost use Rattle.art_snapshots.specs.ValueBytes.{array_bytes};

use crate::fixed::all_of;
use crate::traits::SnapshotValue;
use std::alloc::{AllocError, Global};

/// No value, as those of a set. It has no bytes.
impl SnapshotValue for () {
    ghost value_bytes = { λ value. [] };

    fn append_bytes(&self, out: &mut Vec<u8>) -> Result<(), AllocError> {
        Ok(())
    }

    fn from_snapshot(alloc: Global, bytes: &[u8]) -> Result<Option<Self>, AllocError> {
        if bytes.is_empty() {
            return Ok(Some(()));
        }
        Ok(None)
    }
}

/// Any bytes.
impl SnapshotValue for Vec<u8> {
    ghost value_bytes = { λ value. value.items };

    fn append_bytes(&self, out: &mut Vec<u8>) -> Result<(), AllocError> {
        out.extend_from_slice(self)
    }

    fn from_snapshot(alloc: Global, bytes: &[u8]) -> Result<Option<Self>, AllocError> {
        let value = Vec::from_slice(alloc, bytes)?;
        Ok(Some(value))
    }
}

/// A text, in UTF-8.
impl SnapshotValue for String {
    ghost value_bytes = { λ value. string_bytes value };

    fn append_bytes(&self, out: &mut Vec<u8>) -> Result<(), AllocError> {
        out.extend_from_slice(self.as_bytes())
    }

    fn from_snapshot(alloc: Global, bytes: &[u8]) -> Result<Option<Self>, AllocError> {
        match str::from_utf8(bytes) {
            Ok(text) => Ok(Some(String::from_str(alloc, text)?)),
            Err(_) => Ok(None),
        }
    }
}

/// `N` bytes.
impl<const N: usize> SnapshotValue for [u8; N] {
    ghost value_bytes = { array_bytes N };

    fn append_bytes(&self, out: &mut Vec<u8>) -> Result<(), AllocError> {
        out.extend_from_slice(self)
    }

    fn from_snapshot(alloc: Global, bytes: &[u8]) -> Result<Option<Self>, AllocError> {
        Ok(all_of(bytes))
    }
}
