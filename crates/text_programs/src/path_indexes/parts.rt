//! The parts of an index that lines ask for. None of these calls allocates.
ghost use Rattle.std.specs.Prelude.{◌≡◌, ◌<◌, ◌^◌, length, option_copied};
ghost use Rattle.art_operations.specs.Ended.{HasNoZero};
ghost use Rattle.art_operations.specs.MapItems.{keys_of};
ghost use Rattle.art_operations.specs.Pairs.{first_of, last_of};
ghost use Rattle.text_programs.specs.Paths.{below, between, is_stored};

use crate::path_indexes::index::Index;
use art_operations::keys::Terminated;
use art_operations::map::Range;

/// Consecutive paths of an index.
pub type Part<'a> = Range<'a, Terminated, (), 16>;

/// Returns the paths that start with a prefix, in order.
pub fn part_below<'a>(index: &'a Index, prefix: &[u8]) -> Part<'a>
    requires { HasNoZero prefix.now }
    ensures paths { keys_of result ≡ below prefix.now (keys_of index.now) }
    ensures fits { length result < 2 ^ 64 }
{
    index.as_byte_map().prefix(prefix)
}

/// Returns the paths from one up to but without another, in order; none if the other is before it.
pub fn part_between<'a>(index: &'a Index, from: &[u8], to: &[u8]) -> Part<'a>
    requires from { HasNoZero from.now }
    requires to { HasNoZero to.now }
    ensures { keys_of result ≡ between from.now to.now (keys_of index.now) }
{
    index.as_byte_map().range(from..to)
}

/// Returns whether a path is stored.
pub fn is_stored(index: &Index, path: &[u8]) -> bool
    ensures { result ≡ is_stored path.now (keys_of index.now) }
{
    index.get_text(path).is_some()
}

/// Returns the first path.
pub fn first(index: &Index) -> Option<&Terminated>
    ensures { option_copied result ≡ first_of (keys_of index.now) }
{
    match index.first_key_value() {
        Some((path, _)) => Some(path),
        None => None,
    }
}

/// Returns the last path.
pub fn last(index: &Index) -> Option<&Terminated>
    ensures { option_copied result ≡ last_of (keys_of index.now) }
{
    match index.last_key_value() {
        Some((path, _)) => Some(path),
        None => None,
    }
}

/// Returns how many paths start with a prefix.
pub fn count_below(index: &Index, prefix: &[u8]) -> usize
    requires { HasNoZero prefix.now }
    ensures { result ≡ length (below prefix.now (keys_of index.now)) }
{
    part_below(index, prefix).count()
}
