//! Laws of lookups and iterations: functions that do nothing, each with a law as its contract.
ghost use Rattle.std.specs.Prelude.{◌≡◌};
ghost use Rattle.art_reading.specs.Iterators.{GoesOn, WalksWhole};
ghost use Rattle.art_reading.specs.declared.lookup.matching.PrefixMatchBehavior.TheVariants.{Pessimistic};

use crate::lookup::descent::Visits;
use crate::lookup::matching::PrefixMatchBehavior;

/// By default a lookup has compared all bytes so far, and no node has been read.
pub fn look_ups_start_by_default()
    ensures behavior { (behavior : PrefixMatchBehavior) →
        ⟦<PrefixMatchBehavior as Default>⟧.is_default behavior → behavior ≡ Pessimistic }
    ensures visits { (visits : Visits) → ⟦<Visits as Default>⟧.is_default visits → visits ≡ 0 }
{}

/// An iterator stands for the same leaves in every store in which they have the same links. So a returned leaf may be
/// freed before the next call, and leaves that are not left of the iteration may change.
pub fn a_walk_goes_on<K, V>()
    ensures { GoesOn K V }
{}

/// From the first leaf of a canonical root to the last one an iterator returns all of its leaves, in order.
pub fn a_tree_is_walked_whole<K, V>()
    ensures { WalksWhole K V }
{}
