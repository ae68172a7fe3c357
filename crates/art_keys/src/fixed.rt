//! Arrays of bytes as keys: all keys of a type have one length.
ghost use Rattle.std.specs.Prelude.{◌≡◌, length, ⊤};
ghost use Rattle.art_keys.specs.FixedLaws.{fixed_no_prefixes, fixed_keeps_bytes, fixed_keeps_key, fixed_comes_back};
ghost use Rattle.art_keys.specs.InjectiveLaws.{fixed_injective};
ghost use Rattle.std.specs.Cmp.Lexicographic.{slice_cmp};
ghost use Rattle.std.specs.Ordering.{nat_cmp};
ghost use Rattle.std.proofs.Common.{refl};

use super::laws::{CloneBytes, DecodeBytes, FixedBytes, NoPrefixesBytes, OrderedBytes};
use std::alloc::{AllocError, Global};

impl<const N: usize> NoPrefixesBytes for [u8; N] {
    ghost is_key = { λ bytes. length bytes ≡ N };

    fn as_key(&self) {}

    ghost no_prefixes = { fixed_no_prefixes N };

    ghost injective = { fixed_injective N };
}

impl<const N: usize> OrderedBytes for [u8; N] {
    ghost order = { slice_cmp nat_cmp };

    ghost keeps_order = { λ a b of_a of_b. refl };
}

impl<const N: usize> CloneBytes for [u8; N] {
    ghost keeps_bytes = { fixed_keeps_bytes N };

    ghost keeps_key = { fixed_keeps_key N };
}

impl<const N: usize> DecodeBytes for [u8; N] {
    ghost key_of = { λ bytes. bytes };

    ghost length_of = { λ bytes. N };

    ghost allocates_nothing = { ⊤ };

    ghost comes_back = { fixed_comes_back N };

    fn key_len(bytes: &[u8]) -> usize {
        N
    }

    fn from_key_bytes(alloc: Global, bytes: &[u8]) -> Result<Self, AllocError> {
        Ok(Self::from_fixed_bytes(bytes))
    }
}

impl<const N: usize> FixedBytes for [u8; N] {
    ghost byte_count = { N };

    fn from_fixed_bytes(bytes: &[u8]) -> Self {
        all_of(bytes)
    }

    ghost has_count = { λ bytes of_bytes. of_bytes };
}

// Returns the bytes as an array. Their number must be `N`.
pub(crate) fn all_of<const N: usize>(bytes: &[u8]) -> [u8; N]
    requires { length bytes.now ≡ N }
    ensures { result ≡ bytes.now }
{
    match bytes.split_first_chunk::<N>() {
        Some((all, _)) => *all,
        None => unreachable!(),
    }
}
