//! Hashes of keys that nobody can choose: they are made with two secret numbers.
ghost use Rattle.std.specs.Prelude.{◌+◌, ◌≤◌, length};

use std::hash::{BuildHasher, Hasher, RandomState};

/// The secret numbers. They are hashes by SipHash with the keys of a `RandomState`.
#[derive(Clone, Copy)]
pub(crate) struct Secret {
    first: u64,
    second: u64,
}

impl Secret {
    /// Returns the numbers that the keys of a `RandomState` make.
    pub(crate) fn new(state: RandomState) -> Self {
        Secret {
            first: drawn(state, 1),
            second: drawn(state, 2),
        }
    }

    /// Returns the hash of bytes and of one more. Of sixteen at a time it takes the product of two numbers, of 128 bits, and
    /// joins its halves.
    #[inline(always)]
    pub(crate) fn hash(self, front: &[u8], last: u8) -> u64 {
        let len = front.len();
        let mut state = self.first.wrapping_add(len as u64);
        let mut at = 0;
        while len - at > 16 {
            state = folded(
                read_u64(front, at) ^ state,
                read_u64(front, at + 8) ^ self.second,
            );
            at += 16;
        }
        let (low, high) = ends(front);
        folded(low ^ state, high ^ self.second ^ last as u64)
    }
}

fn drawn(state: RandomState, number: u64) -> u64 {
    let mut hasher = state.build_hasher();
    hasher.write_u64(number);
    hasher.finish()
}

// The last sixteen bytes as two numbers, or all if there are fewer. Bytes may be in both. From four to fifteen bytes take no
// branch, since lengths of words can't be foreseen.
#[inline(always)]
fn ends(bytes: &[u8]) -> (u64, u64) {
    let len = bytes.len();
    if len >= 16 {
        return (read_u64(bytes, len - 16), read_u64(bytes, len - 8));
    }
    if len >= 4 {
        let inner = len / 8 * 4;
        return (
            read_u32(bytes, 0) | read_u32(bytes, inner) << 32,
            read_u32(bytes, len - 4) | read_u32(bytes, len - 4 - inner) << 32,
        );
    }
    match bytes {
        [] => (0, 0),
        [first, ..] => (
            *first as u64 | (bytes[len / 2] as u64) << 8,
            bytes[len - 1] as u64,
        ),
    }
}

#[inline(always)]
fn folded(a: u64, b: u64) -> u64 {
    let product = a as u128 * b as u128;
    (product & 0xFFFF_FFFF_FFFF_FFFF) as u64 ^ (product >> 64) as u64
}

#[inline(always)]
fn read_u32(bytes: &[u8], at: usize) -> u64
    requires { at + 4 ≤ length bytes.now }
{
    u32::from_le_bytes([bytes[at], bytes[at + 1], bytes[at + 2], bytes[at + 3]]) as u64
}

#[inline(always)]
fn read_u64(bytes: &[u8], at: usize) -> u64
    requires { at + 8 ≤ length bytes.now }
{
    read_u32(bytes, at) | read_u32(bytes, at + 4) << 32
}
