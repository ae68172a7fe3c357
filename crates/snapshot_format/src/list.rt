//! Entries in memory.
ghost use Rattle.std.specs.Prelude.{◌≡◌, ◌++◌, ◌∷◌, [], OnOk, ⊤, map};
ghost use Rattle.snapshot_format.specs.Lists.{entry_of};
ghost use Rattle.snapshot_format.specs.Snapshots.{entry};

use crate::entries::{GiveEntries, TakeEntries, TakeError};
use std::alloc::AllocError;

/// The bytes of a key, and those of its value.
#[derive(Debug, Drop, PartialEq, Eq)]
pub struct OwnedEntry {
    pub key: Vec<u8>,
    pub value: Vec<u8>,
}

/// Gives the entries of a slice, which becomes what is left of it.
impl<'a> GiveEntries for &'a [OwnedEntry] {
    ghost entries = { λ list. map entry_of list.now };

    fn count(&self) -> u64 {
        self.len() as u64
    }

    fn give_entry(&mut self, key: &mut Vec<u8>, value: &mut Vec<u8>) -> Result<bool, AllocError> {
        let all: &'a [OwnedEntry] = *self;
        let Some((first, rest)) = all.split_first() else {
            return Ok(false);
        };
        key.extend_from_slice(&first.key)?;
        value.extend_from_slice(&first.value)?;
        *self = rest;
        Ok(true)
    }
}

/// Appends the entries. Any bytes are those of a key and of a value.
impl TakeEntries for Vec<OwnedEntry> {
    ghost entries = { λ list. map entry_of list.items };

    ghost takes = { λ taken. ⊤ };

    fn take_entry(&mut self, key: &[u8], value: &[u8]) -> Result<(), TakeError> {
        push_entry(self, key, value).map_err(|_| TakeError::Memory)
    }
}

// Appends an entry.
fn push_entry(list: &mut Vec<OwnedEntry>, key: &[u8], value: &[u8]) -> Result<(), AllocError>
    ensures { OnOk result (map entry_of list.new.items ≡ map entry_of list.old.items ++ entry key.now value.now ∷ []) }
{
    let alloc = *list.allocator();
    let key = Vec::from_slice(alloc, key)?;
    let value = Vec::from_slice(alloc, value)?;
    list.push(OwnedEntry { key, value })?;
    Ok(())
}
