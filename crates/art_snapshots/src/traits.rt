//! Keys and values that snapshots have.
ghost use Rattle.std.specs.Prelude.{◌≡◌, ◌≢◌, ◌++◌, IfNone, IfOk, IfSome, List, OnOk, ℕ};

use art_keys::laws::NoPrefixesBytes;
use std::alloc::{AllocError, Global};

/// Keys that are read from snapshots. A snapshot has the bytes by which the tree finds the key.
pub trait SnapshotKey: NoPrefixesBytes {
    /// Returns the key with these bytes, or `None` if no key has them. Fails only if an allocation fails.
    fn from_snapshot(alloc: Global, bytes: &[u8]) -> Result<Option<Self>, AllocError>
        ensures key { IfOk result (λ found. IfSome found (λ key.
            Self.is_key key × (Self.bytes key ≡ bytes.now))) }
        ensures none { IfOk result (λ found. IfNone found ((key : Self) →
            Self.is_key key → Self.bytes key ≢ bytes.now)) };
}

/// Values that are written to snapshots, and read from them.
pub trait SnapshotValue {
    /// The bytes of a value.
    ghost value_bytes: { Self → List ℕ };

    /// Appends the bytes. Fails only if an allocation fails.
    fn append_bytes(&self, out: &mut Vec<u8>) -> Result<(), AllocError>
        ensures { OnOk result (out.new.items ≡ out.old.items ++ value_bytes self.now) };

    /// Returns the value with these bytes, or `None` if no value has them. Fails only if an allocation fails.
    fn from_snapshot(alloc: Global, bytes: &[u8]) -> Result<Option<Self>, AllocError>
        ensures value { IfOk result (λ found. IfSome found (λ value. value_bytes value ≡ bytes.now)) }
        ensures none { IfOk result (λ found. IfNone found ((value : Self) →
            value_bytes value ≢ bytes.now)) };
}
