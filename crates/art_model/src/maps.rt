//! Maps: what is found in them, what changes leave, and what replies report.

ghost use Rattle.std.specs.Prelude.{ℕ, List};
ghost use Rattle.art_model.specs.MapLaws.{KeysAreOnce, MatchesAreOne, MapsAreWhatIsFound, KeysAreDecided, ConflictsAreDecided, MapsStayMaps, PutIsFound, OverwriteIsFound, RemovedIsGone, FirstIsRemovedByKey, LastIsRemovedByKey, PutIsUndone, StoredKeyStays, NewKeyComes, PutKeepsKeys, OverwriteOfKeyIsPut, PutTells, OverwriteTells, RemovalTells, PutCounts, OverwriteCounts, RemovalCounts};

/// A map has each key once, and is determined by what is found under keys.
pub fn a_map_is_what_is_found<A>()
    ensures keys { (bytes : A → List ℕ) → KeysAreOnce bytes }
    ensures matches { (bytes : A → List ℕ) → MatchesAreOne bytes }
    ensures found { (bytes : A → List ℕ) → MapsAreWhatIsFound bytes }
{}

/// What the tests of a key among pairs return.
pub fn tests_of_pairs_are_right<A>()
    ensures keys { (bytes : A → List ℕ) → KeysAreDecided bytes }
    ensures conflicts { (bytes : A → List ℕ) → ConflictsAreDecided bytes }
{}

/// Every list of changes leaves a map if it starts with one.
pub fn changes_leave_a_map<K, V>()
    ensures { (bytes : K → List ℕ) → MapsStayMaps V bytes }
{}

/// What is found under any key after a change.
pub fn changes_are_found<K, V>()
    ensures put { (bytes : K → List ℕ) → PutIsFound V bytes }
    ensures overwrite { (bytes : K → List ℕ) → OverwriteIsFound V bytes }
    ensures removal { (bytes : K × V → List ℕ) → RemovedIsGone bytes }
{}

/// A key that is stored stays, and only its value changes.
pub fn a_stored_key_stays<K, V>()
    ensures stored { (bytes : K → List ℕ) → StoredKeyStays V bytes }
    ensures new { (bytes : K → List ℕ) → NewKeyComes V bytes }
    ensures keys { (bytes : K → List ℕ) → PutKeepsKeys V bytes }
    ensures overwrite { (bytes : K → List ℕ) → OverwriteOfKeyIsPut V bytes }
{}

/// Removing the first or the last pair is removing its key.
pub fn ends_are_removed_by_key<A>()
    ensures first { (bytes : A → List ℕ) → FirstIsRemovedByKey bytes }
    ensures last { (bytes : A → List ℕ) → LastIsRemovedByKey bytes }
{}

/// A put of a pair whose key is related to none, followed by the removal of the key, leaves the same pairs.
pub fn a_put_is_undone_by_a_removal<K, V>()
    ensures { (bytes : K → List ℕ) → PutIsUndone V bytes }
{}

/// A reply reports which pairs were removed, or which value was replaced.
pub fn replies_tell_what_went<K, V>()
    ensures put { (bytes : K → List ℕ) → PutTells V bytes }
    ensures overwrite { (bytes : K → List ℕ) → OverwriteTells V bytes }
    ensures removal { (bytes : K × V → List ℕ) → RemovalTells bytes }
{}

/// How many pairs there are after a change.
pub fn changes_count<K, V>()
    ensures put { (bytes : K → List ℕ) → PutCounts V bytes }
    ensures overwrite { (bytes : K → List ℕ) → OverwriteCounts V bytes }
    ensures removal { (bytes : K × V → List ℕ) → RemovalCounts bytes }
{}
