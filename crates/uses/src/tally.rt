//! Words, and how often each was added.
ghost use Rattle.std.specs.Prelude.{◌≡◌, ◌≢◌, ◌+◌, ◌-◌, ◌^◌, ℕ, List, min, OnErr, OnOk, Some};
ghost use Rattle.art_operations.specs.Escapes.{escape};
ghost use Rattle.art_operations.specs.KeyedValues.{value_of};
ghost use Rattle.uses.specs.Tally.{count_of};

use art_operations::keys::Escaped;
use art_operations::tree_map::TreeMap;
use std::alloc::{AllocError, Global};

/// How often each word was added. A word is any string of bytes.
pub type Tally = TreeMap<Escaped, u64, 16>;

/// Counts a word once more; a count stays at the greatest number. No other word is added. Fails only if an allocation
/// fails, and then nothing is counted.
pub fn add(tally: &mut Tally, alloc: Global, word: &[u8]) -> Result<(), AllocError>
    ensures counted { OnOk result (value_of escape word.now tally.new ≡
        Some (min (count_of word.now tally.old + 1) (2 ^ 64 - 1))) }
    ensures others { OnOk result ((other : List ℕ) → other ≢ word.now →
        value_of escape other tally.new ≡ value_of escape other tally.old) }
    ensures kept { OnErr result (tally.new ≡ tally.old) }
{
    let count = tally.get_text_or_insert(alloc, word, 0)?;
    *count = count.saturating_add(1);
    Ok(())
}

/// Returns how often a word was added.
pub fn count(tally: &Tally, word: &[u8]) -> u64
    ensures { result ≡ count_of word.now tally.now }
{
    tally.get_text(word).copied().unwrap_or(0)
}
