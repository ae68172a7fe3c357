//! Writes a snapshot.
ghost use Rattle.std.specs.Prelude.{◌≡◌, ◌<◌, ◌≤◌, ◌^◌, ◌++◌, ◌∷◌, [], OnOk, length, take};
ghost use Rattle.std.specs.List.{AllByRecursion as Each};
ghost use Rattle.std.specs.Io.KnownBytes.{Appends};
ghost use Rattle.snapshot_format.specs.Numbers.{FitsWithin, number_bytes, number_within};
ghost use Rattle.snapshot_format.specs.Writing.{Writes};
ghost use Rattle.snapshot_format.specs.Snapshots.{FitsEntry, IsRising, IsStorable, entries_bytes, entry, entry_bytes, head_bytes, shared_len, sized, snapshot_of};

use crate::entries::GiveEntries;
use crate::reading::{MAGIC, VERSION};
use sha2::{Digest, Sha256};
use std::alloc::{AllocError, Global};
use std::io::Write;
use std::{io, mem};

// Appends a number that has at most so many bytes after the first.
fn push_within(out: &mut Vec<u8>, more: u8, number: u64) -> Result<(), AllocError>
    requires { FitsWithin more number }
    ensures { OnOk result (out.new.items ≡ out.old.items ++ number_within more number) }
{
    if number < 128 {
        return push_byte(out, number as u8);
    }
    push_byte(out, 128 + (number % 128) as u8)?;
    push_within(out, more - 1, number / 128)
}

// Appends a byte.
fn push_byte(out: &mut Vec<u8>, byte: u8) -> Result<(), AllocError>
    ensures { OnOk result (out.new.items ≡ out.old.items ++ byte ∷ []) }
{
    out.push(byte)?;
    Ok(())
}

// Appends a number.
#[tactic(auto, using(crate::proofs::Numbers::fits_within))]
fn push_number(out: &mut Vec<u8>, number: u64) -> Result<(), AllocError>
    ensures { OnOk result (out.new.items ≡ out.old.items ++ number_bytes number) }
{
    push_within(out, 9, number)
}

// Appends bytes after their number.
fn push_sized(out: &mut Vec<u8>, bytes: &[u8]) -> Result<(), AllocError>
    ensures { OnOk result (out.new.items ≡ out.old.items ++ sized bytes.now) }
{
    push_number(out, bytes.len() as u64)?;
    out.extend_from_slice(bytes)
}

// Returns the number of bytes that two keys start with.
fn shared_len(key: &[u8], other: &[u8]) -> usize
    ensures shared { result ≡ shared_len key.now other.now }
    ensures within { result ≤ length other.now }
{
    let mut shared = 0;
    while shared < key.len() && shared < other.len() {
        if key[shared] != other[shared] {
            return shared;
        }
        shared += 1;
    }
    shared
}

// Appends an entry.
fn push_entry(out: &mut Vec<u8>, before: &[u8], key: &[u8], value: &[u8]) -> Result<(), AllocError>
    ensures { OnOk result (out.new.items ≡ out.old.items ++ entry_bytes before.now (entry key.now value.now)) }
{
    let shared = shared_len(before, key);
    push_number(out, shared as u64)?;
    push_sized(out, &key[shared..])?;
    push_sized(out, value)
}

// Appends what comes before the entries.
fn push_head(out: &mut Vec<u8>, count: u64) -> Result<(), AllocError>
    ensures { OnOk result (out.new.items ≡ out.old.items ++ head_bytes count) }
{
    out.extend_from_slice(&MAGIC)?;
    push_byte(out, VERSION)?;
    push_number(out, count)
}

// Writes bytes, and adds them to those of the checksum.
fn write_part<W: Write>(output: &mut W, digest: &mut Sha256, part: &[u8]) -> io::Result<()>
    ensures { OnOk result (Writes W.contents output.old output.new digest.old digest.new part.now) }
{
    digest.update(part);
    output.write_all(part)
}

// Writes an entry after the one with this key.
fn write_entry<W: Write>(
    output: &mut W,
    digest: &mut Sha256,
    line: &mut Vec<u8>,
    before: &[u8],
    key: &[u8],
    value: &[u8],
) -> io::Result<()>
    ensures written { OnOk result (Writes W.contents output.old output.new digest.old digest.new
        (entry_bytes before.now (entry key.now value.now))) }
    ensures key { length key.now < 2 ^ 64 }
    ensures value { length value.now < 2 ^ 64 }
{
    // No effect at run time. The proof reads from these calls that the lengths are numbers of 64 bits.
    let _key_len = key.len();
    let _value_len = value.len();
    line.clear();
    push_entry(line, before, key, value)?;
    write_part(output, digest, line)
}

// Writes so many entries.
fn write_entries<W: Write, G: GiveEntries>(
    alloc: Global,
    output: &mut W,
    digest: &mut Sha256,
    entries: &mut G,
    count: u64,
) -> io::Result<()>
    requires { count ≡ length (G.entries entries.old) }
    ensures written { OnOk result (Writes W.contents output.old output.new digest.old digest.new
        (entries_bytes [] (G.entries entries.old))) }
    ensures fits { OnOk result (Each FitsEntry (G.entries entries.old)) }
{
    let mut before = Vec::new(alloc);
    let mut key = Vec::new(alloc);
    let mut value = Vec::new(alloc);
    let mut line = Vec::new(alloc);
    for _ in 0..count {
        key.clear();
        value.clear();
        if !entries.give_entry(&mut key, &mut value)? {
            return Ok(());
        }
        write_entry(output, digest, &mut line, &before, &key, &value)?;
        mem::swap(&mut before, &mut key);
    }
    Ok(())
}

/// Writes the snapshot of the entries that are left. It writes an entry in one call of the writer: give it a
/// `BufWriter` for a file, and flush that. Fails if the writer fails, or an allocation does; some bytes may be written
/// then.
pub fn write_snapshot<W: Write, G: GiveEntries>(
    alloc: Global,
    output: &mut W,
    entries: &mut G,
) -> io::Result<()>
    ensures written { OnOk result (Appends (W.contents output.old) (W.contents output.new)
        (snapshot_of (G.entries entries.old))) }

    // It is read back if the keys rise.
    ensures storable { OnOk result (IsRising (G.entries entries.old) → IsStorable (G.entries entries.old)) }
{
    let mut digest = Sha256::new();
    let count = entries.count();
    let mut head = Vec::new(alloc);
    push_head(&mut head, count)?;
    write_part(output, &mut digest, &head)?;
    write_entries(alloc, output, &mut digest, entries, count)?;
    output.write_all(&digest.finalize())
}
