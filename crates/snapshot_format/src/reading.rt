//! Reads a snapshot.
ghost use Rattle.std.specs.Prelude.{◌≡◌, ◌≢◌, ◌<◌, ◌^◌, ◌++◌, ◌∷◌, [], IfErr, IfOk, IfSome, List, MatchResult, OnOk, Some, length, true, ℕ};
ghost use Rattle.std.specs.List.{AllByRecursion as Each, slice_get};
ghost use Rattle.snapshot_format.specs.Snapshots.{Entry, FitsEntry, IsAfter, IsNext, IsRising, IsStorable, entries_bytes, entry, entry_bytes, head_bytes, key_bytes, magic, snapshot_of};
ghost use Rattle.snapshot_format.specs.Faults.{EntryFault, Finds, HasEntries, HeadFault, IfMalformed, IsExplained, NextFault, TailFault};
ghost use Rattle.snapshot_format.specs.Reading.{IfFault, IsOutside, Reads, is_next};
ghost use Rattle.sha2.specs.Hashers.{Holds256};
ghost use Rattle.sha2.specs.Sha256.{sha256};

use crate::entries::{TakeEntries, TakeError};
use crate::error::{Fault, Malformed, ReadError};
use crate::source::Source;
use sha2::{Digest, Sha256};
use std::alloc::Global;
use std::io::Read;

/// What a snapshot starts with.
pub const MAGIC: [u8; 7] = *b"ARTSNAP";

/// The version that is written, and the only one that is read.
pub const VERSION: u8 = 1;

// Reads what comes before the entries. Returns how many there are.
fn read_head<R: Read>(source: &mut Source<R>) -> Result<u64, ReadError>
    ensures read { IfOk result (λ count. Reads R.remaining source.old source.new (head_bytes count)) }
    ensures fault { IfErr result (λ error. IfFault error ((count : ℕ) (rest : List ℕ) →
        count < 2 ^ 64 → R.remaining source.old.input ≢ Some (head_bytes count ++ rest))) }
    ensures why { IfErr result (λ error. IfMalformed error
        (Finds R.remaining source.old source.new HeadFault)) }
{
    source.expect(&MAGIC, Fault::NotASnapshot)?;
    let version = source.byte()?;
    if version != VERSION {
        return Err(source.malformed(Fault::UnknownVersion(version)));
    }
    source.number()
}

// Returns the byte in a place, if there is one.
fn byte_at(bytes: &[u8], place: usize) -> Option<u8>
    ensures { result ≡ slice_get bytes.now place }
{
    bytes.get(place).copied()
}

// Returns whether a key is the first one, or comes after the one before it: that has this byte, if any, in the place
// where the rest of the key starts.
fn is_next(is_first: bool, byte: Option<u8>, rest: &[u8]) -> bool
    ensures { result ≡ is_next is_first byte rest.now }
{
    if is_first {
        return true;
    }
    match (byte, rest.first()) {
        (_, None) => false,
        (None, Some(_)) => true,
        (Some(a), Some(b)) => a < *b,
    }
}

// Reads a key in place of the one before it.
fn read_key<R: Read>(
    source: &mut Source<R>,
    is_first: bool,
    key: &mut Vec<u8>,
) -> Result<(), ReadError>
    requires { is_first ≡ true → key.old.items ≡ [] }
    ensures read { OnOk result (Reads R.remaining source.old source.new (key_bytes key.old.items key.new.items)) }
    ensures after { OnOk result (IsAfter is_first key.old.items key.new.items) }
    ensures fault { IfErr result (λ error. IfFault error ((next rest : List ℕ) →
        length next < 2 ^ 64 → IsAfter is_first key.old.items next →
        R.remaining source.old.input ≢ Some (key_bytes key.old.items next ++ rest))) }
    ensures why { IfErr result (λ error. IfMalformed error
        (Finds R.remaining source.old source.new (EntryFault is_first key.old.items))) }
{
    let shared = source.number()?;
    if shared > key.len() as u64 {
        return Err(source.malformed(Fault::OutOfOrder));
    }
    let shared = shared as usize;
    let byte = byte_at(key, shared);
    key.truncate(shared);
    source.append_sized(key)?;
    if !is_next(is_first, byte, &key[shared..]) {
        return Err(source.malformed(Fault::OutOfOrder));
    }
    Ok(())
}

// Reads an entry in place of the one before it.
fn read_entry<R: Read>(
    source: &mut Source<R>,
    is_first: bool,
    key: &mut Vec<u8>,
    value: &mut Vec<u8>,
) -> Result<(), ReadError>
    requires { is_first ≡ true → key.old.items ≡ [] }
    ensures read { OnOk result (Reads R.remaining source.old source.new
        (entry_bytes key.old.items (entry key.new.items value.new.items))) }
    ensures after { OnOk result (IsAfter is_first key.old.items key.new.items) }
    ensures fault { IfErr result (λ error. IfFault error ((next : Entry) (rest : List ℕ) →
        FitsEntry next → IsAfter is_first key.old.items next.key →
        R.remaining source.old.input ≢ Some (entry_bytes key.old.items next ++ rest))) }
    ensures why { IfErr result (λ error. IfMalformed error
        (Finds R.remaining source.old source.new (EntryFault is_first key.old.items))) }
{
    read_key(source, is_first, key)?;
    value.clear();
    source.append_sized(value)
}

// Hands an entry on.
fn take_entry<T: TakeEntries>(
    malformed: Malformed,
    into: &mut T,
    key: &[u8],
    value: &[u8],
) -> Result<(), ReadError>
    requires rising { IsRising (T.entries into.old) }
    requires next { IsNext (T.entries into.old) key.now }
    ensures ok { OnOk result (T.entries into.new ≡ T.entries into.old ++ entry key.now value.now ∷ []) }
    ensures takes { OnOk result (T.takes (entry key.now value.now)) }
    ensures fault { IfErr result (λ error. IfFault error (T.takes (entry key.now value.now) → ⊥)) }
    ensures why { IfErr result (λ error. IfMalformed error (λ found. found ≡ malformed)) }
{
    match into.take_entry(key, value) {
        Ok(()) => Ok(()),
        Err(TakeError::BadEntry) => Err(ReadError::Malformed(malformed)),
        Err(TakeError::Memory) => Err(ReadError::Memory),
    }
}

// Reads so many entries, and hands each on.
fn read_entries<R: Read, T: TakeEntries>(
    alloc: Global,
    source: &mut Source<R>,
    count: u64,
    into: &mut T,
) -> Result<(), ReadError>
    requires { T.entries into.old ≡ [] }
    ensures count { OnOk result (length (T.entries into.new) ≡ count) }
    ensures read { OnOk result (Reads R.remaining source.old source.new (entries_bytes [] (T.entries into.new))) }
    ensures rising { OnOk result (IsRising (T.entries into.new)) }
    ensures takes { OnOk result (Each T.takes (T.entries into.new)) }
    ensures fault { IfErr result (λ error. IfFault error ((entries : List Entry) (rest : List ℕ) →
        length entries ≡ count → IsStorable entries → Each T.takes entries →
        R.remaining source.old.input ≢ Some (entries_bytes [] entries ++ rest))) }
    ensures why { IfErr result (λ error. IfMalformed error (Finds R.remaining source.old source.new
        (λ fault. HasEntries T.takes (NextFault T.takes fault) count))) }
{
    let mut key = Vec::new(alloc);
    let mut value = Vec::new(alloc);
    // No effect at run time. The proof reads from this use that the number is one of 64 bits.
    let _at = source.at;
    for place in 0..count {
        read_entry(source, place == 0, &mut key, &mut value)?;
        let malformed = Malformed {
            at: source.at,
            fault: Fault::BadEntry,
        };
        take_entry(malformed, into, &key, &value)?;
    }
    Ok(())
}

// Reads the checksum of what was read, and the end of the input.
fn read_tail<R: Read>(source: &mut Source<R>) -> Result<(), ReadError>
    ensures read { OnOk result ((body : List ℕ) → Holds256 source.old.digest body →
        IfSome (R.remaining source.old.input) (λ left. left ≡ sha256 body)) }
    ensures fault { IfErr result (λ error. IfFault error ((body : List ℕ) → Holds256 source.old.digest body →
        R.remaining source.old.input ≢ Some (sha256 body))) }
    ensures why { (body : List ℕ) → Holds256 source.old.digest body → IfErr result (λ error.
        IfMalformed error (Finds R.remaining source.old source.new (TailFault (sha256 body)))) }
{
    let sum = source.digest.finalize_reset();
    source.expect(&sum, Fault::WrongChecksum)?;
    source.end()
}

/// Reads a snapshot to the end of the reader, and hands each entry on. It reads some bytes at a time, and asks for no
/// memory for bytes that it has not read. It takes a small number of bytes in each call of the reader: give it a
/// `BufReader` for a file.
///
/// An error leaves what was taken before it.
pub fn read_snapshot<R: Read + Drop, T: TakeEntries>(
    alloc: Global,
    input: R,
    into: &mut T,
) -> Result<(), ReadError>
    requires { T.entries into.old ≡ [] }

    // What was read is the snapshot of the entries that were taken, whose keys rise strictly.
    ensures read { OnOk result (IfSome (R.remaining input)
        (λ bytes. bytes ≡ snapshot_of (T.entries into.new))) }
    ensures rising { OnOk result (IsRising (T.entries into.new)) }
    ensures takes { OnOk result (Each T.takes (T.entries into.new)) }

    // What was written is read: an error is about the bytes only if they are no snapshot of what can be taken.
    ensures reads_back { (entries : List Entry) → IsStorable entries → Each T.takes entries →
        R.remaining input ≡ Some (snapshot_of entries) →
        MatchResult result (λ _. T.entries into.new ≡ entries) IsOutside }

    // A fault is one of the bytes that were read, whose number the error has.
    ensures fault { IfErr result (λ error. IfMalformed error (λ malformed.
        IfSome (R.remaining input) (λ bytes. IsExplained T.takes bytes malformed))) }
{
    let mut source = Source {
        input,
        digest: Sha256::new(),
        at: 0,
    };
    let count = read_head(&mut source)?;
    read_entries(alloc, &mut source, count, into)?;
    read_tail(&mut source)
}
