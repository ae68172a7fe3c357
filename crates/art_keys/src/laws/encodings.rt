//! What key types encode is recovered, and in order: functions that do nothing, each with a law as its contract.
ghost use Rattle.std.specs.Prelude.{◌≡◌, ℕ, ℤ, List};
ghost use Rattle.std.specs.Cmp.Lexicographic.{slice_cmp};
ghost use Rattle.std.specs.Int.{bytes_high_first};
ghost use Rattle.std.specs.Ordering.{int_cmp, nat_cmp};
ghost use Rattle.art_keys.specs.Escapes.{escape, unescape};
ghost use Rattle.art_keys.specs.Joins.{AreKeys, joined_bytes, pair_cmp};
ghost use Rattle.art_keys.specs.Numbers.{HasBytes, HasSignedBytes, lowered, number_of, signed_bytes};
ghost use Rattle.art_keys.specs.Prefixes.{KeepsOrder};
ghost use Rattle.art_parts.specs.Keys.{IsFront};

use super::OrderedBytes;

/// Strings are recovered from their escapes. Escapes are in the order of the strings, and none is a prefix of another
/// one.
pub fn escapes_come_back_in_order()
    ensures back { (text : List ℕ) → unescape (escape text) ≡ text }
    ensures order { (a b : List ℕ) →
        slice_cmp nat_cmp (escape a) (escape b) ≡ slice_cmp nat_cmp a b }
    ensures apart { (a b : List ℕ) → IsFront (escape a) (escape b) → a ≡ b }
{}

/// The bytes of joined keys are in the order of the first keys, and then of the second ones.
pub fn joined_keys_keep_order<A: OrderedBytes, B: OrderedBytes>()
    ensures { KeepsOrder (AreKeys A.is_key B.is_key) (joined_bytes A.bytes B.bytes)
        (pair_cmp A.order B.order) }
{}

/// Numbers are recovered from their bytes, which are in the order of the numbers.
pub fn unsigned_numbers_come_back_in_order()
    ensures back { (count n : ℕ) → HasBytes count n → number_of (bytes_high_first count n) ≡ n }
    ensures order { (count : ℕ) → KeepsOrder (HasBytes count) (bytes_high_first count) nat_cmp }
{}

/// Numbers are recovered from their bytes, which are in the order of the numbers.
pub fn signed_numbers_come_back_in_order()
    ensures back { (count : ℕ) (z : ℤ) → HasSignedBytes count z →
        lowered count (number_of (signed_bytes count z)) ≡ z }
    ensures order { (count : ℕ) →
        KeepsOrder (HasSignedBytes count) (signed_bytes count) int_cmp }
{}
