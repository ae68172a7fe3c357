//! Types of keys of which none is a prefix of another.
pub use art_keys::escaped::Escaped;
pub use art_keys::joined::Joined;
pub use art_keys::joined_array::JoinedArray;
pub use art_keys::laws::{
    CloneBytes, DecodeBytes, FixedBytes, NoPrefixesBytes, OrderedBytes, StringBytes, compare,
};
pub use art_keys::short_bytes::ShortBytes;
pub use art_keys::signed::{I8Key, I16Key, I32Key, I64Key, I128Key, Signed};
pub use art_keys::terminated::{EndError, Terminated, has_zero};
pub use art_keys::unsigned::{U8Key, U16Key, U32Key, U64Key, U128Key, Unsigned};
