//! Numbers as values: their bytes, the highest first. A signed number is in two's complement.
ghost use Rattle.std.specs.Prelude.{[], ◌∷◌};
ghost use Rattle.std.specs.Int.{to_be_bytes, w8, w16, w32, w64, w128};
ghost use Rattle.art_snapshots.specs.ValueBytes.{twos_complement};

use crate::fixed::all_of;
use crate::traits::SnapshotValue;
use std::alloc::{AllocError, Global};

impl SnapshotValue for u8 {
    ghost value_bytes = { λ value. value ∷ [] };

    fn append_bytes(&self, out: &mut Vec<u8>) -> Result<(), AllocError> {
        out.extend_from_slice(&self.to_be_bytes())
    }

    fn from_snapshot(alloc: Global, bytes: &[u8]) -> Result<Option<Self>, AllocError> {
        Ok(all_of(bytes).map(u8::from_be_bytes))
    }
}

impl SnapshotValue for u16 {
    ghost value_bytes = { to_be_bytes w16 };

    fn append_bytes(&self, out: &mut Vec<u8>) -> Result<(), AllocError> {
        out.extend_from_slice(&self.to_be_bytes())
    }

    fn from_snapshot(alloc: Global, bytes: &[u8]) -> Result<Option<Self>, AllocError> {
        Ok(all_of(bytes).map(u16::from_be_bytes))
    }
}

impl SnapshotValue for u32 {
    ghost value_bytes = { to_be_bytes w32 };

    fn append_bytes(&self, out: &mut Vec<u8>) -> Result<(), AllocError> {
        out.extend_from_slice(&self.to_be_bytes())
    }

    fn from_snapshot(alloc: Global, bytes: &[u8]) -> Result<Option<Self>, AllocError> {
        Ok(all_of(bytes).map(u32::from_be_bytes))
    }
}

impl SnapshotValue for u64 {
    ghost value_bytes = { to_be_bytes w64 };

    fn append_bytes(&self, out: &mut Vec<u8>) -> Result<(), AllocError> {
        out.extend_from_slice(&self.to_be_bytes())
    }

    fn from_snapshot(alloc: Global, bytes: &[u8]) -> Result<Option<Self>, AllocError> {
        Ok(all_of(bytes).map(u64::from_be_bytes))
    }
}

impl SnapshotValue for u128 {
    ghost value_bytes = { to_be_bytes w128 };

    fn append_bytes(&self, out: &mut Vec<u8>) -> Result<(), AllocError> {
        out.extend_from_slice(&self.to_be_bytes())
    }

    fn from_snapshot(alloc: Global, bytes: &[u8]) -> Result<Option<Self>, AllocError> {
        Ok(all_of(bytes).map(u128::from_be_bytes))
    }
}

impl SnapshotValue for i8 {
    ghost value_bytes = { twos_complement w8 };

    fn append_bytes(&self, out: &mut Vec<u8>) -> Result<(), AllocError> {
        out.extend_from_slice(&self.to_be_bytes())
    }

    fn from_snapshot(alloc: Global, bytes: &[u8]) -> Result<Option<Self>, AllocError> {
        Ok(all_of(bytes).map(i8::from_be_bytes))
    }
}

impl SnapshotValue for i16 {
    ghost value_bytes = { twos_complement w16 };

    fn append_bytes(&self, out: &mut Vec<u8>) -> Result<(), AllocError> {
        out.extend_from_slice(&self.to_be_bytes())
    }

    fn from_snapshot(alloc: Global, bytes: &[u8]) -> Result<Option<Self>, AllocError> {
        Ok(all_of(bytes).map(i16::from_be_bytes))
    }
}

impl SnapshotValue for i32 {
    ghost value_bytes = { twos_complement w32 };

    fn append_bytes(&self, out: &mut Vec<u8>) -> Result<(), AllocError> {
        out.extend_from_slice(&self.to_be_bytes())
    }

    fn from_snapshot(alloc: Global, bytes: &[u8]) -> Result<Option<Self>, AllocError> {
        Ok(all_of(bytes).map(i32::from_be_bytes))
    }
}

impl SnapshotValue for i64 {
    ghost value_bytes = { twos_complement w64 };

    fn append_bytes(&self, out: &mut Vec<u8>) -> Result<(), AllocError> {
        out.extend_from_slice(&self.to_be_bytes())
    }

    fn from_snapshot(alloc: Global, bytes: &[u8]) -> Result<Option<Self>, AllocError> {
        Ok(all_of(bytes).map(i64::from_be_bytes))
    }
}

impl SnapshotValue for i128 {
    ghost value_bytes = { twos_complement w128 };

    fn append_bytes(&self, out: &mut Vec<u8>) -> Result<(), AllocError> {
        out.extend_from_slice(&self.to_be_bytes())
    }

    fn from_snapshot(alloc: Global, bytes: &[u8]) -> Result<Option<Self>, AllocError> {
        Ok(all_of(bytes).map(i128::from_be_bytes))
    }
}
