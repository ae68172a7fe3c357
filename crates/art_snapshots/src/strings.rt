//! Strings as keys of snapshots.
ghost use Rattle.std.specs.Prelude.{◌≡◌, ◌↔◌, ◌<◌, [], ◌∷◌, IfNone, IfSome, length};
ghost use Rattle.std.specs.Bool.{OnFalse, OnTrue};
ghost use Rattle.art_keys.specs.Escapes.{IsEscape};

use crate::traits::SnapshotKey;
use art_keys::escaped::Escaped;
use art_keys::laws::DecodeBytes;
use art_keys::terminated::Terminated;
use std::alloc::{AllocError, Global};

/// The bytes are those of the string, and a zero.
impl SnapshotKey for Terminated {
    fn from_snapshot(alloc: Global, bytes: &[u8]) -> Result<Option<Self>, AllocError> {
        let Some((end, text)) = bytes.split_last() else {
            return Ok(None);
        };
        if *end != 0 {
            return Ok(None);
        }
        Terminated::encode(alloc, text)
    }
}

/// The bytes are those of the string, each escaped, and a zero.
impl SnapshotKey for Escaped {
    fn from_snapshot(alloc: Global, bytes: &[u8]) -> Result<Option<Self>, AllocError> {
        if !is_escape(bytes) {
            return Ok(None);
        }
        let key = Escaped::from_key_bytes(alloc, bytes)?;
        Ok(Some(key))
    }
}

// Returns whether the bytes are those of an escaped string.
fn is_escape(bytes: &[u8]) -> bool
    ensures yes { OnTrue result (IsEscape bytes.now) }
    ensures no { OnFalse result (¬ IsEscape bytes.now) }
{
    let mut rest = bytes;
    while let Some(others) = after_escaped_byte(rest) {
        rest = others;
    }
    matches!(rest, [0])
}

// Returns the bytes after the first escaped byte, or `None` if they start with none.
fn after_escaped_byte(bytes: &[u8]) -> Option<&[u8]>
    ensures rest { IfSome result (λ rest. IsEscape rest.now ↔ IsEscape bytes.now) }
    ensures shorter { IfSome result (λ rest. length rest.now < length bytes.now) }
    ensures none { IfNone result (IsEscape bytes.now → bytes.now ≡ 0 ∷ []) }
{
    match bytes {
        [1, 1 | 2, rest @ ..] => Some(rest),
        [2..=255, rest @ ..] => Some(rest),
        _ => None,
    }
}
