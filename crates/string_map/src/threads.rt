//! Which types may be used by other threads than the one that made them. That a type is `Send` and `Sync` is proved here.
ghost use base.Fml.{Lft};
ghost use base.Shift.{Keyless};
ghost use Rattle.std.specs.Prelude.{ℕ, List, Option};
ghost use Rattle.std.specs.Borrow.{full_share, lent_at};
ghost use Rattle.std.specs.Ptr.{Ptr, lies_at};
ghost use Rattle.std.specs.Thread.{IsSend, IsSync};
ghost use Rattle.string_map.specs.contracts.StringMap.{the_row as MapRow};
ghost use Rattle.string_map.specs.contracts.frozen.FrozenMap.{the_row as FrozenRow};

use super::StringMap;
use super::frozen::FrozenMap;

// What the two bounds say.
fn crosses<T: Send + Sync>()
    ensures { IsSend T.row × IsSync T.row }
{}

/// A handle of a frozen map may be passed to another thread, and read by many.
pub fn frozen_crosses()
    ensures { IsSend FrozenRow × IsSync FrozenRow }
{
    crosses::<FrozenMap>();
}

/// A map may be passed to another thread.
pub fn map_crosses()
    ensures { IsSend MapRow × IsSync MapRow }
{
    crosses::<StringMap>();
}

/// What lies at a pointer to a handle says the same to every thread, and so does what its owner has lent.
pub fn frozen_moves()
    ensures lies { (p : Ptr) (pairs : Option (List (List ℕ × ℕ))) →
        Keyless (lies_at FrozenRow full_share p pairs) }
    ensures lent { (p : Ptr) (pairs : Option (List (List ℕ × ℕ))) (κ : Lft) →
        Keyless (lent_at FrozenRow p pairs κ) }
{
    frozen_crosses();
}

/// What lies at a pointer to a map says the same to every thread, and so does what its owner has lent.
pub fn map_moves()
    ensures lies { (p : Ptr) (pairs : Option (List (List ℕ × ℕ))) →
        Keyless (lies_at MapRow full_share p pairs) }
    ensures lent { (p : Ptr) (pairs : Option (List (List ℕ × ℕ))) (κ : Lft) →
        Keyless (lent_at MapRow p pairs κ) }
{
    map_crosses();
}
