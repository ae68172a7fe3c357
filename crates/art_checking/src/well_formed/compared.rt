//! The comparison of keys.
ghost use Rattle.std.specs.Prelude.{◌≡◌};
ghost use Rattle.std.specs.Cmp.Lexicographic.{slice_cmp};
ghost use Rattle.std.specs.Ordering.{nat_cmp};

use art_reading::lookup::matching::shared_len;
use std::cmp::Ordering;

// The order of two keys, by the first byte in which they differ. A proper prefix comes first.
pub(super) fn order_of(a: &[u8], b: &[u8]) -> Ordering
    ensures { result ≡ slice_cmp nat_cmp a.now b.now }
{
    let shared = shared_len(a, b);
    a.get(shared).cmp(&b.get(shared))
}
