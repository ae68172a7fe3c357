//! Sets.
ghost use Rattle.std.specs.Prelude.{◌≡◌, [], IfErr, IfOk, IfSome, List, MatchResult, OnOk, Some};
ghost use Rattle.std.specs.List.{AllByRecursion as Each};
ghost use Rattle.std.specs.Io.KnownBytes.{Appends};
ghost use Rattle.snapshot_format.specs.Faults.{IfMalformed, IsExplained};
ghost use Rattle.snapshot_format.specs.Reading.{IsOutside};
ghost use Rattle.snapshot_format.specs.Snapshots.{IsStorable, snapshot_of};
ghost use Rattle.art_snapshots.specs.MapEntries.{IsKeyEntry, key_entries};

use crate::giving::GivingKeys;
use crate::maps::read_map;
use crate::traits::SnapshotKey;
use art_keyed::map::TreeMap;
use art_keyed_sets::set::TreeSet;
use snapshot_format::{ReadError, write_snapshot};
use std::alloc::Global;
use std::io;
use std::io::{Read, Write};

/// Writes the snapshot of a set: that of a map without values. It writes a key in one call of the writer, and fails as
/// `write_map` does.
pub fn write_set<K: SnapshotKey + Drop, const P: usize, W: Write>(
    alloc: Global,
    set: &TreeSet<K, P>,
    output: &mut W,
) -> io::Result<()>
    ensures written { OnOk result (Appends (W.contents output.old) (W.contents output.new)
        (snapshot_of (key_entries K.bytes set.now))) }

    // So `read_set` reads it back.
    ensures storable { OnOk result (IsStorable (key_entries K.bytes set.now)) }
{
    let mut giving = GivingKeys { keys: set.iter() };
    write_snapshot(alloc, output, &mut giving)
}

/// Reads the set of a snapshot, to the end of the reader, as `read_map` does. A snapshot that has a value is none of a
/// set.
pub fn read_set<K: SnapshotKey + Drop, const P: usize, R: Read + Drop>(
    alloc: Global,
    input: R,
) -> Result<TreeSet<K, P>, ReadError>
    // What was read is the snapshot of the set.
    ensures read { IfOk result (λ set. IfSome (R.remaining input) (λ bytes.
        bytes ≡ snapshot_of (key_entries K.bytes set))) }

    // What was written is read: an error is about the bytes only if they are the snapshot of no set.
    ensures reads_back { (keys : List K) → Each K.is_key keys →
        IsStorable (key_entries K.bytes keys) →
        R.remaining input ≡ Some (snapshot_of (key_entries K.bytes keys)) →
        MatchResult result (λ set. set ≡ keys) IsOutside }

    // A fault is one of the bytes that were read, whose number the error has.
    ensures fault { IfErr result (λ error. IfMalformed error (λ malformed.
        IfSome (R.remaining input) (λ bytes.
        IsExplained (IsKeyEntry K.bytes K.is_key) bytes malformed))) }
{
    let map: TreeMap<K, (), P> = read_map(alloc, input)?;
    // No effect at run time. The proof reads from this call that the keys of the map are of the type.
    let _ = map.as_byte_map();
    Ok(TreeSet::from_map(map))
}
