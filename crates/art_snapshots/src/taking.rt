//! A map that takes the entries of a snapshot.
ghost use Rattle.std.specs.Prelude.{◌≡◌, ◌++◌, ◌∷◌, []};
ghost use Rattle.snapshot_format.specs.Snapshots.{entry};
ghost use Rattle.art_snapshots.specs.MapEntries.{IsEntry, entries_of};

use crate::traits::{SnapshotKey, SnapshotValue};
use art_building::tree_map::TreeMapBuilder;
use snapshot_format::{TakeEntries, TakeError};
use std::alloc::Global;

/// The map of the entries that were taken. It is built in the order of its keys, without a descent for each.
#[derive(Drop)]
pub struct Taking<K: SnapshotKey, V: SnapshotValue, const P: usize> {
    pub builder: TreeMapBuilder<K, V, P>,
    pub alloc: Global,
}

impl<K: SnapshotKey + Drop, V: SnapshotValue + Drop, const P: usize> TakeEntries
    for Taking<K, V, P> {
    ghost entries = { λ taking. entries_of K.bytes V.value_bytes taking.builder };

    ghost takes = { IsEntry K.bytes V.value_bytes K.is_key };

    fn take_entry(&mut self, key: &[u8], value: &[u8]) -> Result<(), TakeError> {
        let Ok(key) = K::from_snapshot(self.alloc, key) else {
            return Err(TakeError::Memory);
        };
        let Some(key) = key else {
            return Err(TakeError::BadEntry);
        };
        let Ok(value) = V::from_snapshot(self.alloc, value) else {
            return Err(TakeError::Memory);
        };
        let Some(value) = value else {
            return Err(TakeError::BadEntry);
        };
        let Ok(()) = self.builder.push(key, value) else {
            return Err(TakeError::Memory);
        };
        Ok(())
    }
}
