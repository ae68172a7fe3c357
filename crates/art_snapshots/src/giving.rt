//! The pairs of a map as the entries of a snapshot, and the keys of a set.
ghost use Rattle.art_snapshots.specs.MapEntries.{entries_of, key_entries};

use crate::traits::{SnapshotKey, SnapshotValue};
use art_map::map::{KeysOf, Leaves, MapIterOf};
use art_nodes::node::AsBytes;
use snapshot_format::GiveEntries;
use std::alloc::AllocError;

/// The pairs of a map that are left.
#[derive(Drop)]
pub struct Giving<'a, K: SnapshotKey, V: SnapshotValue, S: Leaves<K, V>> {
    pub pairs: MapIterOf<'a, K, V, S>,
}

impl<'a, K: SnapshotKey, V: SnapshotValue, S: Leaves<K, V>> GiveEntries for Giving<'a, K, V, S> {
    ghost entries = { λ giving. entries_of K.bytes V.value_bytes giving.pairs };

    fn count(&self) -> u64 {
        self.pairs.len() as u64
    }

    fn give_entry(&mut self, key: &mut Vec<u8>, value: &mut Vec<u8>) -> Result<bool, AllocError> {
        let Some((next_key, next_value)) = self.pairs.next() else {
            return Ok(false);
        };
        key.extend_from_slice(next_key.as_bytes())?;
        next_value.append_bytes(value)?;
        Ok(true)
    }
}

/// The keys of a set that are left.
#[derive(Drop)]
pub struct GivingKeys<'a, K: SnapshotKey, S: Leaves<K, ()>> {
    pub keys: KeysOf<'a, K, (), S>,
}

impl<'a, K: SnapshotKey, S: Leaves<K, ()>> GiveEntries for GivingKeys<'a, K, S> {
    ghost entries = { λ giving. key_entries K.bytes giving.keys };

    fn count(&self) -> u64 {
        self.keys.len() as u64
    }

    fn give_entry(&mut self, key: &mut Vec<u8>, value: &mut Vec<u8>) -> Result<bool, AllocError> {
        let Some(next_key) = self.keys.next() else {
            return Ok(false);
        };
        key.extend_from_slice(next_key.as_bytes())?;
        Ok(true)
    }
}
