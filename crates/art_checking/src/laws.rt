//! Laws of the checker's types: functions that do nothing, each with a law as its contract.
ghost use Rattle.std.specs.Prelude.{◌≡◌};
ghost use Rattle.std.specs.Bool.{Decides};
ghost use Rattle.art_checking.specs.Checks.{prefix_bytes, prefix_cmp};

use crate::well_formed::{KeyPrefix, WellFormedTreeStats};

/// Prefixes are ordered by their bytes, and are equal if these are.
pub fn key_prefixes_are_in_order()
    ensures order { (a b : KeyPrefix) → ⟦<KeyPrefix as Ord>⟧.cmp a b ≡ prefix_cmp a b }
    ensures equal { (a b : KeyPrefix) →
        Decides (⟦<KeyPrefix as PartialEq>⟧.eq a b) (prefix_bytes a ≡ prefix_bytes b) }
{}

/// By default the numbers are 0.
pub fn stats_start_at_zero()
    ensures { (stats : WellFormedTreeStats) →
        ⟦<WellFormedTreeStats as Default>⟧.is_default stats →
        stats ≡ record { num_leaf = 0; num_inner = 0 } }
{}
