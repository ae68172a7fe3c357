//! Compressed prefixes.
ghost use Rattle.std.specs.Prelude.{◌≡◌, ◌+◌, ◌-◌, ◌^◌, ◌<◌, ◌≤◌, [], ◌++◌, length, take, drop, replicate, min};
ghost use Rattle.art_parts.specs.Halves.{whole_of};

use std::marker::Model;
use std::mem;

// A number in two halves, so that what holds it is aligned to four bytes.
#[derive(Clone, Copy)]
struct Halves {
    low: u32,
    high: u32,
}

impl Halves {
    #[inline(always)]
    fn of(number: usize) -> Self
        ensures whole { whole_of result ≡ number }
        ensures low { result.low < 2 ^ 32 }
    {
        Halves {
            low: (number % 4_294_967_296) as u32,
            high: (number / 4_294_967_296) as u32,
        }
    }

    #[inline(always)]
    fn number(self) -> usize
        ensures { result ≡ whole_of self }
    {
        self.high as usize * 4_294_967_296 + self.low as usize
    }
}

/// A compressed prefix: its length, and its first bytes, at most `P` of them.
#[derive(Clone, Copy)]
pub struct Header<const P: usize> {
    bytes: [u8; P],
    len: Halves,
}

impl<const P: usize> Model for Header<P> {
    ghost use Rattle.std.specs.Prelude.{◌≡◌, ◌+◌, ◌-◌, ◌<◌, ◌≤◌, ◌^◌, min, length, take, drop, replicate, ◌++◌};
    ghost use Rattle.art_parts.specs.Headers.{Prefix};

    ghost Value = { Prefix };

    ghost use Rattle.art_parts.specs.Halves.{whole_of, halves_of, halves_back};

    ghost view = { λ h. record {
      len = whole_of h.len;
      stored = take (min (whole_of h.len) P) h.bytes;
    } };

    ghost invariant = { λ h.
        (drop (min (whole_of h.len) P) h.bytes ≡ replicate (P - min (whole_of h.len) P) 0)
        × (h.len.low < 2 ^ 32) };

    ghost inverse = { λ v.
        record { len = halves_of v.len; bytes = v.stored ++ replicate (P - min v.len P) 0 } };

    ghost use Rattle.art_parts.specs.HeaderBack.{bytes_back};

    ghost inverse_ok = { λ a h i. record {
      len = halves_back a.len h.1 i;
      bytes = bytes_back P (whole_of a.len) a.bytes h.0 i;
    } };
}

impl<const P: usize> Header<P> {
    /// Returns the header of a prefix of this length, whose stored bytes are the first of these.
    pub fn new(bytes: &[u8], len: usize) -> Self
        requires { min len P ≤ length bytes.now }
        ensures { result ≡ record { len = len; stored = take (min len P) bytes.now } }
    {
        let count = len.min(P);
        let mut stored = [0; P];
        stored[..count].copy_from_slice(&bytes[..count]);
        Header {
            bytes: stored,
            len: Halves::of(len),
        }
    }

    /// Returns the length of the whole prefix, of which at most `P` bytes are stored.
    #[inline(always)]
    pub fn prefix_len(&self) -> usize
        ensures { result ≡ self.now.len }
    {
        self.len.number()
    }

    /// Returns the stored bytes.
    #[inline(always)]
    pub fn read_prefix(&self) -> &[u8]
        ensures stored { result.now ≡ self.now.stored }
        ensures count { length self.now.stored ≡ min self.now.len P }
    {
        &self.bytes[..self.len.number().min(P)]
    }

    /// Drops the first `n` bytes of a prefix that is stored whole.
    pub fn ltrim_by(&mut self, n: usize)
        requires within { n ≤ self.old.len }
        requires whole { self.old.len ≤ P }
        ensures len { self.new.len ≡ self.old.len - n }
        ensures stored { self.new.stored ≡ drop n self.old.stored }
    {
        let bytes = &self.bytes[..];
        *self = Header::new(&bytes[n..], self.len.number() - n);
    }

    /// Drops the first `n` bytes of a prefix. What is stored then is read from the bytes of a key that has the prefix
    /// at a depth.
    pub fn ltrim_by_with_leaf(&mut self, n: usize, depth: usize, leaf_bytes: &[u8])
        requires within { n ≤ self.old.len }
        requires given { depth + self.old.len ≤ length leaf_bytes.now }
        ensures len { self.new.len ≡ self.old.len - n }
        ensures stored { self.new.stored ≡
            take (min (self.old.len - n) P) (drop (depth + n) leaf_bytes.now) }
    {
        *self = Header::new(&leaf_bytes[depth + n..], self.len.number() - n);
    }

    /// Appends a prefix of this length, of which the first bytes are given.
    pub fn push_prefix(&mut self, bytes: &[u8], len: usize)
        requires given { min len P ≤ length bytes.now }
        requires fits { self.old.len + len < 2 ^ 64 }
        ensures len { self.new.len ≡ self.old.len + len }
        ensures stored { self.new.stored ≡ take P (self.old.stored ++ take len bytes.now) }
    {
        let old = self.len.number();
        let start = old.min(P);
        let end = (old + len).min(P);
        self.len = Halves::of(old + len);
        let stored = &mut self.bytes[..];
        stored[start..end].copy_from_slice(&bytes[..end - start]);
    }

    /// Empties the prefix. Returns its bytes with zeros after those that were stored, its length, and how
    /// many bytes were stored.
    pub fn clear_prefix(&mut self) -> ([u8; P], usize, usize)
        ensures bytes { result.0 ≡ self.old.stored ++ replicate (P - min self.old.len P) 0 }
        ensures len { result.1 ≡ self.old.len }
        ensures count { result.2 ≡ min self.old.len P }
        ensures cleared { self.new ≡ record { len = 0; stored = [] } }
    {
        let Header { bytes, len } = mem::replace(self, Header::new(&[], 0));
        let len = len.number();
        (bytes, len, len.min(P))
    }
}

/// A value made from a header. It is no part of `InnerNode`, since a trait with a constant parameter can't have such a
/// call.
pub trait FromHeader<H>: Drop {
    /// The relation between a header and the value made from it.
    ghost starts: { H → Self → Type 0 };

    fn from_header(header: H) -> Self
        ensures { starts header result };
}
