//! Maps.
ghost use Rattle.std.specs.Prelude.{◌≡◌, IfErr, IfOk, IfSome, List, MatchResult, OnOk, Some};
ghost use Rattle.std.specs.Io.KnownBytes.{Appends};
ghost use Rattle.art_keyed.specs.KeyedPairs.{HaveKeys};
ghost use Rattle.snapshot_format.specs.Faults.{IfMalformed, IsExplained};
ghost use Rattle.snapshot_format.specs.Reading.{IsOutside};
ghost use Rattle.snapshot_format.specs.Snapshots.{IsStorable, snapshot_of};
ghost use Rattle.art_snapshots.specs.MapEntries.{IsEntry, entries_of};

use crate::giving::Giving;
use crate::taking::Taking;
use crate::traits::{SnapshotKey, SnapshotValue};
use art_building::tree_map::TreeMapBuilder;
use art_keyed::map::TreeMap;
use snapshot_format::{ReadError, read_snapshot, write_snapshot};
use std::alloc::Global;
use std::io;
use std::io::{Read, Write};

/// Writes the snapshot of a map. It writes a pair in one call of the writer: give it a `BufWriter` for a file, and flush
/// that. Fails if the writer fails, or an allocation does; some bytes may be written then.
pub fn write_map<K: SnapshotKey + Drop, V: SnapshotValue + Drop, const P: usize, W: Write>(
    alloc: Global,
    map: &TreeMap<K, V, P>,
    output: &mut W,
) -> io::Result<()>
    ensures written { OnOk result (Appends (W.contents output.old) (W.contents output.new)
        (snapshot_of (entries_of K.bytes V.value_bytes map.now))) }

    // So `read_map` reads it back.
    ensures storable { OnOk result (IsStorable (entries_of K.bytes V.value_bytes map.now)) }
{
    let mut giving = Giving { pairs: map.iter() };
    write_snapshot(alloc, output, &mut giving)
}

/// Reads the map of a snapshot, to the end of the reader: give it a `BufReader` for a file. It asks for no memory for
/// bytes that it has not read.
pub fn read_map<K: SnapshotKey + Drop, V: SnapshotValue + Drop, const P: usize, R: Read + Drop>(
    alloc: Global,
    input: R,
) -> Result<TreeMap<K, V, P>, ReadError>
    // What was read is the snapshot of the map.
    ensures read { IfOk result (λ map. IfSome (R.remaining input) (λ bytes.
        bytes ≡ snapshot_of (entries_of K.bytes V.value_bytes map))) }

    // What was written is read: an error is about the bytes only if they are the snapshot of no map.
    ensures reads_back { (pairs : List (K × V)) → HaveKeys K.is_key pairs →
        IsStorable (entries_of K.bytes V.value_bytes pairs) →
        R.remaining input ≡ Some (snapshot_of (entries_of K.bytes V.value_bytes pairs)) →
        MatchResult result (λ map. entries_of K.bytes V.value_bytes map ≡
        entries_of K.bytes V.value_bytes pairs) IsOutside }

    // A fault is one of the bytes that were read, whose number the error has.
    ensures fault { IfErr result (λ error. IfMalformed error (λ malformed.
        IfSome (R.remaining input) (λ bytes.
        IsExplained (IsEntry K.bytes V.value_bytes K.is_key) bytes malformed))) }
{
    let mut taking = Taking {
        builder: TreeMapBuilder::new(alloc),
        alloc,
    };
    read_snapshot(alloc, input, &mut taking)?;
    Ok(taking.builder.finish())
}
