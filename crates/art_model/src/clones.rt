//! Clones of keys.

ghost use Rattle.art_parts.specs.Keys.{KeepBytes};

use art_nodes::node::AsBytes;
use std::boxed::BoxedSlice;

/// A clone of a key has the key's bytes, for the types of keys without conditions: `Vec<u8>`, `BoxedSlice<u8>`, `[u8;
/// N]` and `String`.
pub fn clones_have_the_same_bytes<const N: usize>()
    ensures vec { KeepBytes ⟦<Vec<u8> as AsBytes>⟧.bytes ⟦<Vec<u8> as Clone>⟧.is_clone }
    ensures boxed_slice { KeepBytes ⟦<BoxedSlice<u8> as AsBytes>⟧.bytes
        ⟦<BoxedSlice<u8> as Clone>⟧.is_clone }
    ensures array { KeepBytes ⟦<[u8; N] as AsBytes>⟧.bytes ⟦<[u8; N] as Clone>⟧.is_clone }
    ensures string { KeepBytes ⟦<String as AsBytes>⟧.bytes ⟦<String as Clone>⟧.is_clone }
{}
