//! The bytes of the `Terminated` key of a text, which is made from it where it is new.
ghost use Rattle.std.specs.Prelude.{◌≡◌, ◌<◌, [], ◌∷◌, ◌++◌, length, refl};
ghost use Rattle.art_keys.specs.Ended.{HasNoZero};

use art_keys::terminated::Terminated;
use art_map::map::ToKey;
use art_reading::lookup::{EndedQuery, KeyBytes};
use std::alloc::{AllocError, Global};

/// The text of a key. Its bytes are those of the text, and then a zero.
#[derive(Clone, Copy)]
pub(crate) struct TerminatedText<'t> {
    pub(crate) text: &'t [u8],
}

impl KeyBytes for TerminatedText<'_> {
    ghost key = { λ source. source.text.now ++ 0 ∷ [] };

    #[inline(always)]
    fn again(&self) -> Self {
        *self
    }

    #[inline(always)]
    fn byte_after(&mut self, place: usize, skipped: usize) -> Option<u8> {
        EndedQuery {
            text: self.text,
            end: 0,
        }
        .byte_after(place, skipped)
    }

    #[inline(always)]
    fn shared_after(&mut self, place: usize, bytes: &[u8]) -> usize {
        EndedQuery {
            text: self.text,
            end: 0,
        }
        .shared_after(place, bytes)
    }
}

impl ToKey<Terminated> for TerminatedText<'_> {
    ghost made = { λ source. source.text.now };

    ghost same_bytes = { λ source. refl };

    ghost is_key = { λ source. HasNoZero source.text.now };

    ghost allocates_nothing = { λ source. length source.text.now < 30 };

    fn to_key(&self, alloc: Global) -> Result<Option<Terminated>, AllocError> {
        Terminated::encode(alloc, self.text)
    }
}
