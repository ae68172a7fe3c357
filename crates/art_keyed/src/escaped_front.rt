//! The bytes with which the `Escaped` keys start whose strings start with a text.
ghost use Rattle.std.specs.Prelude.{◌≡◌};
ghost use Rattle.art_keys.specs.Escapes.{escape_inside};

use crate::escaped_bytes::EscapedBytes;
use art_reading::lookup::KeyBytes;

/// The bytes of the key of a text, but for the zero at its end. They are made from the text as they are read.
#[derive(Drop)]
pub(crate) struct EscapedFront<'t> {
    bytes: EscapedBytes<'t>,
}

impl<'t> EscapedFront<'t> {
    // Returns the bytes of the key of a text, but for the zero at its end.
    pub(crate) fn new(text: &'t [u8]) -> Self
        ensures { result.bytes ≡ text.now }
    {
        EscapedFront {
            bytes: EscapedBytes::new(text),
        }
    }
}

// The zero at the end of a key is the only one.
impl KeyBytes for EscapedFront<'_> {
    ghost key = { λ front. escape_inside front.bytes };

    fn again(&self) -> Self {
        EscapedFront {
            bytes: self.bytes.again(),
        }
    }

    fn byte_after(&mut self, place: usize, skipped: usize) -> Option<u8> {
        let byte = self.bytes.byte_after(place, skipped)?;
        if byte == 0 {
            return None;
        }
        Some(byte)
    }

    fn shared_after(&mut self, place: usize, bytes: &[u8]) -> usize {
        let shared = self.bytes.shared_after(place, bytes);
        if shared > 0 && bytes[shared - 1] == 0 {
            shared - 1
        } else {
            shared
        }
    }
}
