//! Keys to look up: one slice of bytes, a text and its end byte, or bytes that are made as they are read.
ghost use Rattle.std.specs.Prelude.{◌≡◌, ◌+◌, ◌<◌, ◌≤◌, ◌^◌, ◌↔◌, [], ◌∷◌, ◌++◌, drop, min, length, IsTrue, List, ℕ, slice_get, OnSome};
ghost use Rattle.std.specs.List.{cons_option};
ghost use Rattle.art_parts.specs.Keys.{IsFront, is_front};
ghost use Rattle.art_reading.specs.Descents.{IsAskedFor};
ghost use Rattle.art_reading.specs.Matching.{LeafKeyIsPrefix, MatchesLeafKey, shared_len};
ghost use Rattle.art_reading.specs.declared.lookup.matching.PrefixMatchBehavior.TheVariants.{Optimistic, Pessimistic};

use crate::lookup::matching::{Asked, PrefixMatchBehavior, are_equal, begins_with, shared_len};
use art_nodes::node::{AsBytes, LeafNode};

/// The bytes of a key, read one at a time: they need not stand in a slice.
pub trait KeyBytes {
    /// The bytes.
    ghost key: { Self → List ℕ };

    /// Returns the same bytes, to be read beside these.
    fn again(&self) -> Self
        ensures { key result ≡ key self.now };

    /// Returns the byte that stands `skipped` places after a place, or `None` if there are no more bytes there. A type
    /// may be slow where the places don't rise.
    fn byte_after(&mut self, place: usize, skipped: usize) -> Option<u8>
        requires { place ≤ length (key self.old) }
        ensures byte { result ≡ slice_get (key self.old) (place + skipped) }
        ensures within { OnSome result (place + skipped < length (key self.old)) }
        ensures fits { length (key self.old) < 2 ^ 64 }
        ensures same { key self.new ≡ key self.old };

    /// Returns the length of the longest common prefix of a slice and the bytes from a place on.
    fn shared_after(&mut self, place: usize, bytes: &[u8]) -> usize
        requires { place ≤ length (key self.old) }
        ensures shared { result ≡ shared_len bytes.now (drop place (key self.old)) }
        ensures same { key self.new ≡ key self.old };
}

impl KeyBytes for &[u8] {
    ghost key = { λ bytes. bytes.now };

    #[inline(always)]
    fn again(&self) -> Self {
        *self
    }

    #[inline(always)]
    fn byte_after(&mut self, place: usize, skipped: usize) -> Option<u8> {
        if skipped < self.len() - place {
            Some(self[place + skipped])
        } else {
            None
        }
    }

    #[inline(always)]
    fn shared_after(&mut self, place: usize, bytes: &[u8]) -> usize {
        shared_len(bytes, &self[place..])
    }
}

/// Returns whether a slice starts with these bytes.
#[inline(always)]
pub fn starts_with<B: KeyBytes>(slice: &[u8], bytes: &mut B) -> bool
    ensures starts { result ≡ is_front (B.key bytes.old) slice.now }
    ensures same { B.key bytes.new ≡ B.key bytes.old }
{
    let shared = bytes.shared_after(0, slice);
    bytes.byte_after(shared, 0).is_none()
}

/// The bytes of a key to look up.
pub trait KeyQuery: KeyBytes + Copy {
    /// Does nothing; its contract states that the number of bytes is a `usize`.
    fn fits(&self)
        ensures { length (Self.key self.now) + 1 < 2 ^ 64 };

    /// Returns the bytes that stand in a slice: all, or all but the last one, which it returns too.
    fn parts(&self) -> (&[u8], Option<u8>)
        ensures { Self.key self.now ≡ result.0.now ++ cons_option result.1 [] };

    /// Returns whether a leaf's key is asked for, as far as it is still to be compared from a depth on.
    fn finds<K: AsBytes, V>(
        &self,
        behavior: PrefixMatchBehavior,
        asked: Asked,
        leaf: &LeafNode<K, V>,
        depth: usize,
    ) -> bool
        ensures { IsTrue result ↔
            IsAskedFor asked behavior depth (K.bytes leaf.now.key) (Self.key self.now) };
}

impl KeyQuery for &[u8] {
    fn fits(&self) {}

    #[inline(always)]
    fn parts(&self) -> (&[u8], Option<u8>) {
        (*self, None)
    }

    #[inline(always)]
    fn finds<K: AsBytes, V>(
        &self,
        behavior: PrefixMatchBehavior,
        asked: Asked,
        leaf: &LeafNode<K, V>,
        depth: usize,
    ) -> bool {
        behavior.finds(asked, leaf, *self, depth)
    }
}

/// The key of a text: its bytes, and then the byte that ends each text. The key itself is not built.
#[derive(Clone, Copy)]
pub struct EndedQuery<'q> {
    pub text: &'q [u8],
    pub end: u8,
}

impl KeyBytes for EndedQuery<'_> {
    ghost key = { λ query. query.text.now ++ query.end ∷ [] };

    #[inline(always)]
    fn again(&self) -> Self {
        *self
    }

    #[inline(always)]
    fn byte_after(&mut self, place: usize, skipped: usize) -> Option<u8> {
        let rest = self.text.get(place..)?;
        if skipped == rest.len() {
            return Some(self.end);
        }
        rest.get(skipped).copied()
    }

    #[inline(always)]
    fn shared_after(&mut self, place: usize, bytes: &[u8]) -> usize {
        shared_with_ended(self.text, self.end, place, bytes)
    }
}

// The length of the longest common prefix of a slice and the bytes of a text and its end from a place on.
fn shared_with_ended(text: &[u8], end: u8, place: usize, bytes: &[u8]) -> usize
    ensures { result ≡ shared_len bytes.now (drop place (text.now ++ end ∷ [])) }
{
    let Some(rest) = text.get(place..) else {
        return 0;
    };
    let shared = shared_len(bytes, rest);
    if shared == rest.len() && shared < bytes.len() && bytes[shared] == end {
        return shared + 1;
    }
    shared
}

impl KeyQuery for EndedQuery<'_> {
    fn fits(&self) {
        self.text.len();
    }

    #[inline(always)]
    fn parts(&self) -> (&[u8], Option<u8>) {
        (self.text, Some(self.end))
    }

    #[inline(always)]
    fn finds<K: AsBytes, V>(
        &self,
        behavior: PrefixMatchBehavior,
        asked: Asked,
        leaf: &LeafNode<K, V>,
        depth: usize,
    ) -> bool {
        let key = leaf.key.as_bytes();
        finds_ended(self.text, self.end, behavior, asked, key, depth)
    }
}

// Whether the key of a leaf is that of a text, or a prefix of it, as far as it is still to be compared.
#[inline(always)]
fn finds_ended(
    text: &[u8],
    end: u8,
    behavior: PrefixMatchBehavior,
    asked: Asked,
    key: &[u8],
    depth: usize,
) -> bool
    ensures { IsTrue result ↔
        IsAskedFor asked behavior depth key.now (text.now ++ end ∷ []) }
{
    match asked {
        Asked::Same => is_same(text, end, behavior, key, depth),
        Asked::Front => is_front(text, end, behavior, key, depth),
    }
}

// Whether a key is a text and its end, as far as it is still to be compared.
#[inline(always)]
fn is_same(text: &[u8], end: u8, behavior: PrefixMatchBehavior, key: &[u8], depth: usize) -> bool
    ensures { IsTrue result ↔ MatchesLeafKey behavior depth key.now (text.now ++ end ∷ []) }
{
    let len = text.len();
    if key.len() != len + 1 {
        return false;
    }
    let from = passed_over(behavior, depth);
    if from > len {
        return true;
    }
    key[len] == end && are_equal(&key[from..len], &text[from..])
}

// How many of the first bytes are not compared, in a key that has so many.
#[inline(always)]
fn passed_over(behavior: PrefixMatchBehavior, depth: usize) -> usize
    ensures compared { behavior ≡ Pessimistic → result ≡ depth }
    ensures passed_over { behavior ≡ Optimistic → result ≡ 0 }
{
    match behavior {
        PrefixMatchBehavior::Pessimistic => depth,
        PrefixMatchBehavior::Optimistic => 0,
    }
}

// Whether a key is a prefix of a text and its end, or the whole, as far as it is still to be compared. A lookup asks for
// the whole alone, and is inlined as long as this is not.
fn is_front(text: &[u8], end: u8, behavior: PrefixMatchBehavior, key: &[u8], depth: usize) -> bool
    ensures { IsTrue result ↔ LeafKeyIsPrefix behavior depth key.now (text.now ++ end ∷ []) }
{
    let from = first_compared(behavior, key.len(), depth);
    if from > text.len() {
        return key.len() == text.len() + 1;
    }
    is_front_of_ended(&key[from..], &text[from..], end)
}

// Where the comparison with a key of this length begins, if the text is not shorter.
#[inline(always)]
fn first_compared(behavior: PrefixMatchBehavior, len: usize, depth: usize) -> usize
    ensures compared { behavior ≡ Pessimistic → result ≡ min depth len }
    ensures passed_over { behavior ≡ Optimistic → result ≡ 0 }
    ensures within { result ≤ len }
{
    match behavior {
        PrefixMatchBehavior::Pessimistic => depth.min(len),
        PrefixMatchBehavior::Optimistic => 0,
    }
}

// Whether the bytes are a text and its end.
#[inline(always)]
fn is_ended(bytes: &[u8], text: &[u8], end: u8) -> bool
    ensures { IsTrue result ↔ (bytes.now ≡ text.now ++ end ∷ []) }
{
    match bytes.split_last() {
        Some((last, front)) => *last == end && are_equal(front, text),
        None => false,
    }
}

// Whether the bytes are a prefix of a text and its end, or the whole.
fn is_front_of_ended(bytes: &[u8], text: &[u8], end: u8) -> bool
    ensures { IsTrue result ↔ IsFront bytes.now (text.now ++ end ∷ []) }
{
    begins_with(text, bytes) || is_ended(bytes, text, end)
}
