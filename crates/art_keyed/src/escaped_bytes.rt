//! The bytes of the `Escaped` key of a text, made from the text as they are read.
ghost use Rattle.std.specs.Prelude.{◌≡◌, ◌+◌, ◌<◌, ◌≤◌, ◌^◌, [], ◌∷◌, ◌++◌, List, ℕ, drop, length, slice_get, IfSome, OnSome, Some, refl, ⊤};
ghost use Rattle.std.specs.Bool.{OnFalse, OnTrue};
ghost use Rattle.art_keys.specs.Escapes.{escape};
ghost use Rattle.art_reading.specs.Matching.{shared_len};
ghost use Rattle.art_keyed.specs.EscapedBytes.{left_of};

use art_keys::escaped::Escaped;
use art_map::map::ToKey;
use art_reading::lookup::{EndedQuery, KeyBytes};
use std::alloc::{AllocError, Global};
use std::marker::Model;

/// The bytes of the key of a text. In contracts it is the text.
#[derive(Drop)]
pub(crate) struct EscapedBytes<'t> {
    text: &'t [u8],
    // Whether no byte of the text is escaped.
    is_plain: bool,
    // How many bytes were passed over, and those after them.
    place: usize,
    left: Left<'t>,
}

impl<'t> Model for EscapedBytes<'t> {
    ghost use Rattle.std.specs.Prelude.{◌≡◌, List, ℕ, IsTrue, drop};
    ghost use Rattle.art_keys.specs.Escapes.{IsPlain, escape};
    ghost use Rattle.art_keyed.specs.EscapedBytes.{left_of};

    ghost Value = { List ℕ };

    ghost view = { λ bytes. bytes.text.now };

    ghost invariant = { λ bytes.
        (left_of bytes.left ≡ drop bytes.place (escape bytes.text.now))
        × (IsTrue bytes.is_plain → IsPlain bytes.text.now) };
}

impl<'t> EscapedBytes<'t> {
    // Returns the bytes of the key of a text.
    pub(crate) fn new(text: &'t [u8]) -> Self
        ensures { result ≡ text.now }
    {
        EscapedBytes {
            text,
            is_plain: Escaped::is_plain(text),
            place: 0,
            left: Left::new(text),
        }
    }

    // Returns the bytes as a slice and the zero after it, if no byte of the text is escaped.
    pub(crate) fn plain(&self) -> Option<EndedQuery<'t>>
        ensures { IfSome result (λ query.
            query.text.now ++ query.end ∷ [] ≡ escape self.now) }
    {
        if !self.is_plain {
            return None;
        }
        Some(EndedQuery {
            text: self.text,
            end: 0,
        })
    }

    // Returns what `byte_after` does, by escaping the text as it is read.
    fn escaped_byte_after(&mut self, place: usize, skipped: usize) -> Option<u8>
        requires { place ≤ length (escape self.old) }
        ensures byte { result ≡ slice_get (escape self.old) (place + skipped) }
        ensures within { OnSome result (place + skipped < length (escape self.old)) }
        ensures fits { length (escape self.old) < 2 ^ 64 }
        ensures same { self.new ≡ self.old }
    {
        self.text.len();
        let place = place.checked_add(skipped)?;
        let (mut at, mut left) = if place < self.place {
            (0, Left::new(self.text))
        } else {
            (self.place, self.left)
        };
        while at < place {
            if !left.pass() {
                return None;
            }
            at += 1;
        }
        self.place = at;
        self.left = left;
        Some(left.first())
    }

    // Returns what `shared_after` does, by escaping the text as it is read.
    fn escaped_shared_after(&mut self, place: usize, bytes: &[u8]) -> usize
        requires { place ≤ length (escape self.old) }
        ensures shared { result ≡ shared_len bytes.now (drop place (escape self.old)) }
        ensures same { self.new ≡ self.old }
    {
        let mut shared = 0;
        while shared < bytes.len()
            && self.escaped_byte_after(place, shared) == Some(bytes[shared])
        {
            shared += 1;
        }
        shared
    }
}

impl KeyBytes for EscapedBytes<'_> {
    ghost key = { λ text. escape text };

    fn again(&self) -> Self {
        EscapedBytes {
            text: self.text,
            is_plain: self.is_plain,
            place: self.place,
            left: self.left,
        }
    }

    fn byte_after(&mut self, place: usize, skipped: usize) -> Option<u8> {
        match self.plain() {
            Some(mut key) => key.byte_after(place, skipped),
            None => self.escaped_byte_after(place, skipped),
        }
    }

    fn shared_after(&mut self, place: usize, bytes: &[u8]) -> usize {
        match self.plain() {
            Some(mut key) => key.shared_after(place, bytes),
            None => self.escaped_shared_after(place, bytes),
        }
    }
}

impl ToKey<Escaped> for EscapedBytes<'_> {
    ghost made = { λ text. text };

    ghost same_bytes = { λ text. refl };

    ghost is_key = { λ text. ⊤ };

    ghost allocates_nothing = { λ text. length (escape text) ≤ 30 };

    fn to_key(&self, alloc: Global) -> Result<Option<Escaped>, AllocError> {
        let key = Escaped::encode(alloc, self.text)?;
        Ok(Some(key))
    }
}

// The bytes of a key from a place on: at least the zero at its end.
#[derive(Clone, Copy)]
struct Left<'t> {
    // The second byte of an escape whose first byte was passed over.
    half: Option<u8>,
    text: &'t [u8],
}

impl<'t> Left<'t> {
    // Returns all bytes of the key of a text.
    fn new(text: &'t [u8]) -> Self
        ensures { left_of result ≡ escape text.now }
    {
        Left { half: None, text }
    }

    // Returns the first byte.
    fn first(&self) -> u8
        ensures { slice_get (left_of self.now) 0 ≡ Some result }
    {
        if let Some(half) = self.half {
            return half;
        }
        match self.text {
            [] => 0,
            [0 | 1, ..] => 1,
            [byte, ..] => *byte,
        }
    }

    // Passes over the first byte, and returns whether it did: the last one is not passed over.
    fn pass(&mut self) -> bool
        ensures passed { OnTrue result (left_of self.new ≡ drop 1 (left_of self.old)) }
        ensures last { OnFalse result (length (left_of self.old) ≡ 1) }
    {
        if self.half.is_some() {
            self.half = None;
            return true;
        }
        match self.text {
            [] => return false,
            [0, rest @ ..] => *self = Left {
                half: Some(1),
                text: rest,
            },
            [1, rest @ ..] => *self = Left {
                half: Some(2),
                text: rest,
            },
            [_, rest @ ..] => *self = Left {
                half: None,
                text: rest,
            },
        }
        true
    }
}
