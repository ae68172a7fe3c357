//! Maps, written and read.
use art_keyed::map::TreeMap;
use art_snapshots::{SnapshotKey, SnapshotValue, read_map, write_map};
use snapshot_format::{Fault, ReadError};
use std::alloc::Global;

/// Adds a pair to the map, which misses it if an allocation failed.
pub fn put<K: SnapshotKey + Drop, V: SnapshotValue + Drop>(
    map: &mut TreeMap<K, V, 10>,
    key: Option<K>,
    value: Option<V>,
) {
    if let (Some(key), Some(value)) = (key, value) {
        let _ = map.insert(key, value);
    }
}

/// Returns the bytes of the map's snapshot, or none if writing it failed.
pub fn written<K: SnapshotKey + Drop, V: SnapshotValue + Drop>(
    alloc: Global,
    map: &TreeMap<K, V, 10>,
) -> Vec<u8> {
    let mut bytes = Vec::new(alloc);
    if write_map(alloc, map, &mut bytes).is_err() {
        bytes.clear();
    }
    bytes
}

// Returns whether these are the bytes of the map's snapshot.
fn is_written<K: SnapshotKey + Drop, V: SnapshotValue + Drop>(
    alloc: Global,
    map: TreeMap<K, V, 10>,
    bytes: &[u8],
) -> bool {
    written(alloc, &map).as_slice() == bytes
}

/// Returns whether a map is read from the bytes, with as many pairs as their ninth says, and written as them again.
pub fn is_read<K: SnapshotKey + Drop, V: SnapshotValue + Drop>(
    alloc: Global,
    bytes: &[u8],
) -> bool {
    let read: Result<TreeMap<K, V, 10>, ReadError> = read_map(alloc, bytes);
    match (read, bytes.get(8)) {
        (Ok(map), Some(count)) => map.len() == *count as usize && is_written(alloc, map, bytes),
        _ => false,
    }
}

/// Returns whether bytes that are the snapshot of no such map have this fault.
pub fn has_fault<K: SnapshotKey + Drop, V: SnapshotValue + Drop>(
    alloc: Global,
    bytes: &[u8],
    fault: Fault,
) -> bool {
    let read: Result<TreeMap<K, V, 10>, ReadError> = read_map(alloc, bytes);
    match read {
        Err(ReadError::Malformed(malformed)) => malformed.fault == fault,
        _ => false,
    }
}

/// Returns whether the bytes have a key or a value that is none of its type.
pub fn has_bad_entry<K: SnapshotKey + Drop, V: SnapshotValue + Drop>(
    alloc: Global,
    bytes: &[u8],
) -> bool {
    has_fault::<K, V>(alloc, bytes, Fault::BadEntry)
}

/// Returns the bytes with a bit of one of them flipped.
pub fn flipped<const N: usize>(bytes: &[u8; N], place: usize, bit: u8) -> [u8; N] {
    let mut flipped = *bytes;
    if let Some(byte) = flipped.get_mut(place) {
        *byte ^= bit;
    }
    flipped
}

/// Returns whether the bytes are the map's snapshot, from which it is read, but not without the last byte, nor with a
/// bit flipped of a value in this place.
pub fn is_kept<K: SnapshotKey + Drop, V: SnapshotValue + Drop, const N: usize>(
    alloc: Global,
    map: TreeMap<K, V, 10>,
    bytes: &[u8; N],
    place: usize,
) -> bool {
    let other = flipped(bytes, place, 1);
    is_written(alloc, map, bytes)
        && is_read::<K, V>(alloc, bytes)
        && has_fault::<K, V>(alloc, &bytes[..N.saturating_sub(1)], Fault::CutShort)
        && has_fault::<K, V>(alloc, &other, Fault::WrongChecksum)
}
