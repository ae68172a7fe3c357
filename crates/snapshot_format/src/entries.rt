//! What gives the entries of a snapshot that is written, and what takes those of one that is read.
ghost use Rattle.std.specs.Prelude.{◌≡◌, ◌++◌, ◌∷◌, [], Err, IfOk, List, OnOk, length, ℕ};
ghost use Rattle.snapshot_format.specs.Snapshots.{Entry, IsNext, IsRising, entry};
ghost use Rattle.snapshot_format.specs.Entries.{IsGiven};

use std::alloc::AllocError;

/// Entries in the order of their keys, which are given one by one.
pub trait GiveEntries {
    /// The entries that are left.
    ghost entries: { Self → List Entry };

    /// Returns how many entries are left.
    fn count(&self) -> u64
        ensures { result ≡ length (entries self.now) };

    /// Appends the bytes of the next key, and those of its value. Returns whether there was one. Fails only if an
    /// allocation fails.
    fn give_entry(&mut self, key: &mut Vec<u8>, value: &mut Vec<u8>) -> Result<bool, AllocError>
        requires key { key.old.items ≡ [] }
        requires value { value.old.items ≡ [] }
        ensures { IfOk result (λ more. IsGiven more (entry key.new.items value.new.items)
            (entries self.old) (entries self.new)) };
}

/// Why an entry was not taken.
#[derive(Clone, Copy, Debug, PartialEq, Eq)]
pub enum TakeError {
    /// The bytes of the key or of the value are not those of any.
    BadEntry,
    /// An allocation failed.
    Memory,
}

/// Takes the entries of a snapshot, in the order of their keys.
pub trait TakeEntries {
    /// The entries that were taken.
    ghost entries: { Self → List Entry };

    /// These are the bytes of a key and of a value.
    ghost takes: { Entry → Type 0 };

    /// Takes an entry whose key comes after those that were taken.
    fn take_entry(&mut self, key: &[u8], value: &[u8]) -> Result<(), TakeError>
        requires rising { IsRising (entries self.old) }
        requires next { IsNext (entries self.old) key.now }
        ensures ok { OnOk result
            (entries self.new ≡ entries self.old ++ entry key.now value.now ∷ []) }
        ensures takes { OnOk result (takes (entry key.now value.now)) }
        ensures bad { result ≡ Err TakeError.BadEntry → takes (entry key.now value.now) → ⊥ };
}
