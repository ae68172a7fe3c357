//! Sixteen bytes compared at once.
ghost use Rattle.std.specs.Prelude.{◌≡◌};
ghost use Rattle.std.specs.List.{prefix_len};
ghost use lib.Dec.{eqb};
ghost use mathlib.Core.Bool.{not};

use std::simd::prelude::*;

// How many lanes come before the first that has the byte: 16 where none has.
#[inline(always)]
pub(crate) fn lanes_before(bytes: &[u8; 16], byte: u8) -> usize
    ensures { result ≡ prefix_len (λ x. not (eqb x byte)) bytes.now }
{
    let same = u8x16::from_array(*bytes).simd_eq(u8x16::splat(byte));
    let found = same.to_bitmask();
    if found == 0 {
        return 16;
    }
    found.trailing_zeros() as usize
}
