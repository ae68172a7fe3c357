//! Texts that may be prefixes of one another: which of those that are prefixes of a query is the longest, and which the
//! shortest.

ghost use Rattle.std.specs.Prelude.{ℕ, List};
ghost use Rattle.art_model.specs.Texts.{FirstIsShortest, LastHasAll, LastIsLongest};

/// In a sorted list of texts the last one that is a prefix of a query is the longest such text, and each
/// other one is a prefix of it.
pub fn the_last_match_is_the_longest<A>()
    ensures longest { (text : A → List ℕ) → LastIsLongest text }
    ensures has_all { (text : A → List ℕ) → LastHasAll text }
{}

/// In a sorted list of texts the first one that is a prefix of a query is the shortest such text.
pub fn the_first_match_is_the_shortest<A>()
    ensures { (text : A → List ℕ) → FirstIsShortest text }
{}
