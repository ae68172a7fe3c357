//! Bytes that are kept without an allocation where they are few.
ghost use Rattle.std.specs.Prelude.{◌≡◌, ◌+◌, ◌<◌, ◌≤◌, [], ◌∷◌, ◌++◌, length, IfErr, IfOk, IsOk, OnErr, OnOk, vec_capacity};
ghost use Rattle.std.specs.Cmp.Lexicographic.{slice_cmp};
ghost use Rattle.std.specs.Ordering.{nat_cmp, eq_by_cmp, as_partial_cmp};
ghost use Rattle.std.proofs.Common.{rules};
ghost use Rattle.std.specs.Cmp.Rules.{comparing};
ghost use Rattle.std.specs.Hash as fed;
ghost use Rattle.art_keys.specs.HashLaws.{strings_hash};

use art_parts::bytes::AsBytes;
use std::alloc::{AllocError, AllocFailed, Global};
use std::cmp::Ordering;
use std::fmt;
use std::hash::{Hash, Hasher};
use std::marker::Model;

/// The most bytes that are kept without an allocation.
pub const MOST_INLINE: usize = 30;

// The first bytes of an array. In contracts it is these.
#[derive(Drop)]
struct Room {
    len: u8,
    bytes: [u8; 30],
}

impl Model for Room {
    ghost use Rattle.std.specs.Prelude.{List, ℕ, ◌≤◌, take};

    ghost Value = { List ℕ };

    ghost view = { λ r. take r.len r.bytes };

    ghost invariant = { λ r. r.len ≤ 30 };
}

impl Room {
    // Returns a copy of these bytes.
    fn of(bytes: &[u8]) -> Self
        requires { length bytes.now ≤ 30 }
        ensures { result ≡ bytes.now }
    {
        let mut room = [0; 30];
        room[..bytes.len()].copy_from_slice(bytes);
        Room {
            len: bytes.len() as u8,
            bytes: room,
        }
    }

    // Returns a copy of the bytes of two slices.
    fn of_both(first: &[u8], second: &[u8]) -> Self
        requires { length first.now + length second.now ≤ 30 }
        ensures { result ≡ first.now ++ second.now }
    {
        let len = first.len() + second.len();
        let mut room = [0; 30];
        room[..first.len()].copy_from_slice(first);
        room[first.len()..len].copy_from_slice(second);
        Room {
            len: len as u8,
            bytes: room,
        }
    }

    #[inline]
    fn as_slice(&self) -> &[u8]
        ensures bytes { result.now ≡ self.now }
        ensures few { length self.now ≤ 30 }
    {
        &self.bytes[..self.len as usize]
    }

    // Appends a byte, for which there must be room.
    fn push(&mut self, byte: u8)
        requires { length self.old < 30 }
        ensures { self.new ≡ self.old ++ byte ∷ [] }
    {
        self.bytes[self.len as usize] = byte;
        self.len += 1;
    }
}

// Where the bytes are: in the value itself, or in an allocation.
#[derive(Drop)]
enum Kept {
    Inline { room: Room },
    Heap { bytes: Vec<u8> },
}

/// Bytes that the value itself keeps if there are up to 30, and else in an allocation. In contracts it is the bytes.
pub struct ShortBytes {
    kept: Kept,
    alloc: Global,
}

impl Model for ShortBytes {
    ghost use Rattle.std.specs.Prelude.{List, ℕ};
    ghost use Rattle.art_keys.specs.KeptBytes.{kept_bytes, IsSound};

    ghost Value = { List ℕ };

    ghost view = { λ b. kept_bytes b.kept };

    ghost invariant = { λ b. IsSound b.kept };
}

impl ShortBytes {
    /// Returns no bytes, with room for so many. Fails only if an allocation fails, which up to 30 bytes do not need.
    pub fn with_capacity(alloc: Global, capacity: usize) -> Result<Self, AllocError>
        ensures empty { IfOk result (λ made. made ≡ []) }
        ensures succeeds { capacity ≤ 30 → IsOk result }
    {
        let kept = if capacity > MOST_INLINE {
            Kept::Heap {
                bytes: Vec::with_capacity(alloc, capacity)?,
            }
        } else {
            Kept::Inline {
                room: Room::of(&[]),
            }
        };
        Ok(ShortBytes { kept, alloc })
    }

    /// Returns a copy of these bytes. Fails only if an allocation fails, which up to 30 bytes do not need.
    pub fn from_slice(alloc: Global, bytes: &[u8]) -> Result<Self, AllocError>
        ensures bytes { IfOk result (λ made. made ≡ bytes.now) }
        ensures succeeds { length bytes.now ≤ 30 → IsOk result }
    {
        if bytes.len() > MOST_INLINE {
            let bytes = Vec::from_slice(alloc, bytes)?;
            return Ok(ShortBytes {
                kept: Kept::Heap { bytes },
                alloc,
            });
        }
        Ok(inline(alloc, bytes))
    }

    /// Returns a copy of the bytes of two slices. Fails only if an allocation fails, which up to 30 bytes in all do not
    /// need.
    pub fn from_both(alloc: Global, first: &[u8], second: &[u8]) -> Result<Self, AllocError>
        ensures bytes { IfOk result (λ made. made ≡ first.now ++ second.now) }
        ensures succeeds { length first.now + length second.now ≤ 30 → IsOk result }
    {
        if first.len() + second.len() > MOST_INLINE {
            let mut bytes = Vec::with_capacity(alloc, first.len() + second.len())?;
            bytes.extend_from_slice(first)?;
            bytes.extend_from_slice(second)?;
            return Ok(ShortBytes {
                kept: Kept::Heap { bytes },
                alloc,
            });
        }
        Ok(inline_both(alloc, first, second))
    }

    /// Returns these bytes. It keeps the vector of more than 30, and frees that of fewer.
    pub fn from_vec(bytes: Vec<u8>) -> Self
        ensures { result ≡ bytes.items }
    {
        let alloc = *bytes.allocator();
        if bytes.len() > MOST_INLINE {
            return ShortBytes {
                kept: Kept::Heap { bytes },
                alloc,
            };
        }
        inline(alloc, &bytes)
    }

    /// Returns the bytes of a vector and one more. It keeps the vector of more than 29 bytes, which it gives room for
    /// the other one, and frees that of fewer. Fails only if an allocation fails, and returns the vector.
    pub fn from_vec_and(mut bytes: Vec<u8>, last: u8) -> Result<Self, AllocFailed<Vec<u8>>>
        ensures bytes { IfOk result (λ made. made ≡ bytes.items ++ last ∷ []) }
        ensures value_returned { IfErr result (λ failed. failed.value.items ≡ bytes.items) }
        ensures succeeds { length bytes.items < 30 → IsOk result }
        ensures has_room { length bytes.items < vec_capacity bytes → IsOk result }
    {
        let alloc = *bytes.allocator();
        if bytes.len() < MOST_INLINE {
            return Ok(inline_both(alloc, &bytes, &[last]));
        }
        match bytes.push(last) {
            Ok(()) => Ok(ShortBytes {
                kept: Kept::Heap { bytes },
                alloc,
            }),
            Err(_) => Err(AllocFailed { value: bytes }),
        }
    }

    /// Returns the bytes as a vector. More than 30 are in one already; fewer are copied. Fails only if an allocation
    /// fails, and returns the bytes.
    pub fn into_vec(self) -> Result<Vec<u8>, AllocFailed<Self>>
        ensures bytes { IfOk result (λ vec. vec.items ≡ self) }
        ensures value_returned { IfErr result (λ failed. failed.value ≡ self) }
        ensures succeeds { 30 < length self → IsOk result }
    {
        let ShortBytes { kept, alloc } = self;
        match kept {
            Kept::Heap { bytes } => Ok(bytes),
            Kept::Inline { room } => match Vec::from_slice(alloc, room.as_slice()) {
                Ok(bytes) => Ok(bytes),
                Err(_) => Err(AllocFailed {
                    value: ShortBytes {
                        kept: Kept::Inline { room },
                        alloc,
                    },
                }),
            },
        }
    }

    /// Returns the bytes.
    #[inline]
    pub fn as_slice(&self) -> &[u8]
        ensures { result.now ≡ self.now }
    {
        match &self.kept {
            Kept::Inline { room } => room.as_slice(),
            Kept::Heap { bytes } => bytes.as_slice(),
        }
    }

    /// Returns the number of bytes.
    pub fn len(&self) -> usize
        ensures { result ≡ length self.now }
    {
        self.as_slice().len()
    }

    /// Appends a byte. Fails only if an allocation fails, which up to 30 bytes do not need; the bytes then stay.
    pub fn push(&mut self, byte: u8) -> Result<(), AllocError>
        ensures ok { OnOk result (self.new ≡ self.old ++ byte ∷ []) }
        ensures err { OnErr result (self.new ≡ self.old) }
        ensures succeeds { length self.old < 30 → IsOk result }
    {
        match &mut self.kept {
            Kept::Heap { bytes } => bytes.push(byte)?,
            Kept::Inline { room } => {
                let inside = room.as_slice();
                if inside.len() < MOST_INLINE {
                    room.push(byte);
                } else {
                    let mut bytes = Vec::with_capacity(self.alloc, 2 * MOST_INLINE)?;
                    bytes.extend_from_slice(inside)?;
                    bytes.push(byte)?;
                    self.kept = Kept::Heap { bytes };
                }
            }
        }
        Ok(())
    }
}

// Returns these bytes without an allocation.
fn inline(alloc: Global, bytes: &[u8]) -> ShortBytes
    requires { length bytes.now ≤ 30 }
    ensures { result ≡ bytes.now }
{
    ShortBytes {
        kept: Kept::Inline {
            room: Room::of(bytes),
        },
        alloc,
    }
}

// Returns the bytes of two slices without an allocation.
fn inline_both(alloc: Global, first: &[u8], second: &[u8]) -> ShortBytes
    requires { length first.now + length second.now ≤ 30 }
    ensures { result ≡ first.now ++ second.now }
{
    ShortBytes {
        kept: Kept::Inline {
            room: Room::of_both(first, second),
        },
        alloc,
    }
}

/// Frees the allocation, if there is one. By hand, so that proofs of code that lets keys go do not see the two cases.
impl Drop for ShortBytes {
    fn drop(self) {
        let ShortBytes { kept, alloc: _ } = self;
        drop(kept);
    }
}

impl AsBytes for ShortBytes {
    ghost bytes = { λ bytes. bytes };

    #[inline]
    fn as_bytes(&self) -> &[u8] {
        self.as_slice()
    }
}

/// Writes the bytes in quotes, escaped as by `escape_ascii`.
impl fmt::Debug for ShortBytes {
    fn fmt<W: fmt::Write>(&self, f: &mut fmt::Formatter<W>) -> fmt::Result {
        write_quoted(f, self.as_slice())
    }
}

// Writes bytes in quotes, escaped as by `escape_ascii`.
pub(crate) fn write_quoted<W: fmt::Write>(f: &mut fmt::Formatter<W>, bytes: &[u8]) -> fmt::Result {
    let bytes = bytes.escape_ascii();
    write!(f, "\"{bytes}\"")
}

impl Clone for ShortBytes {
    ghost is_clone = { λ bytes copy. copy ≡ bytes };

    ghost is_infallible = { λ bytes. length bytes ≤ 30 };

    fn clone(&self) -> Result<Self, AllocError> {
        ShortBytes::from_slice(self.alloc, self.as_slice())
    }
}

impl PartialEq for ShortBytes {
    ghost eq = { eq_by_cmp (slice_cmp nat_cmp) };

    ghost laws = { Prim.search (comparing, rules) };

    fn eq(&self, other: &Self) -> bool {
        self.as_slice().cmp(other.as_slice()).is_eq()
    }
}

impl Eq for ShortBytes {
    ghost laws = { Prim.search (comparing, rules) };
}

impl PartialOrd for ShortBytes {
    ghost partial_cmp = { as_partial_cmp (slice_cmp nat_cmp) };

    ghost laws = { Prim.search (comparing, rules) };

    fn partial_cmp(&self, other: &Self) -> Option<Ordering> {
        Some(self.as_slice().cmp(other.as_slice()))
    }
}

/// The lexicographic order of the bytes.
impl Ord for ShortBytes {
    ghost cmp = { slice_cmp nat_cmp };

    ghost total = { Prim.search (comparing, rules) };

    ghost matches_partial_cmp = { Prim.search (comparing, rules) };

    ghost matches_eq = { Prim.search (comparing, rules) };

    fn cmp(&self, other: &Self) -> Ordering {
        self.as_slice().cmp(other.as_slice())
    }
}

impl Hash for ShortBytes {
    ghost hash_input = { λ bytes. fed.slice fed.u8 bytes };

    ghost respects_eq = { strings_hash (λ bytes. bytes) };

    fn hash<H: Hasher>(&self, state: &mut H) {
        self.as_slice().hash(state);
    }
}
