//! Many pairs at a time: a caller iterates over a range by one call for as many pairs as it has space for.
ghost use Rattle.std.specs.Prelude.{◌≡◌, ◌+◌, ◌≤◌, ◌<◌, ◌++◌, length, take};
ghost use Rattle.std.specs.Range.Bound.{bound_map};
ghost use Rattle.art_iterating.specs.MapItems.{TakesFirst};
ghost use Rattle.string_map.specs.Given.{Gives, GivesPairs, bound_at, in_direction, wanted_of};

use super::StringMap;
use super::codes::{DONE, FREED, FULL, INCLUDED, TOO_LONG, UNBOUNDED};
use art_keys::escaped::Escaped;
use art_map::map::Range;
use std::ops::Bound;

/// A pair whose key is in a buffer.
#[repr(C)]
#[derive(Clone, Copy)]
pub struct Pair {
    pub value: u64,
    pub key_len: usize,
}

/// How many pairs were written, and the length of the next key if that is too long for the space.
#[repr(C)]
#[derive(Clone, Copy)]
pub struct Given {
    pub count: usize,
    pub key_len: usize,
}

/// Writes the pairs whose keys are between two bounds, in ascending order, or in descending order if `is_backward`: as
/// many as there is space for. Their keys are one after another at the front of the buffer; what follows them there is
/// not specified.
///
/// A bound is a kind and a key: `UNBOUNDED` (the key is ignored), `INCLUDED` or `EXCLUDED`. Returns `DONE` when all
/// pairs are written, `FULL` when `pairs` is full, `TOO_LONG` when the next key is longer than the rest of the buffer,
/// and `FREED` if the map was freed; then nothing is written. To continue, call it again with the last key as an excluded
/// bound. It allocates nothing: the keys of the bounds are escaped as they are read.
pub fn next_pairs(
    map: &StringMap,
    from: &[u8],
    from_kind: u32,
    to: &[u8],
    to_kind: u32,
    is_backward: bool,
    buffer: &mut [u8],
    pairs: &mut [Pair],
    given: &mut Given,
) -> u32
    ensures { GivesPairs map.now
        (wanted_of (bound_at from_kind from.now) (bound_at to_kind to.now) is_backward)
        result buffer.old buffer.new pairs.old pairs.new given.old given.new }
{
    let Some(stored) = &map.pairs else {
        return FREED;
    };
    let range = stored.range_text(text_bound(from_kind, from), text_bound(to_kind, to));
    fill(range, is_backward, buffer, pairs, given)
}

// Returns the bound of this kind, at this text.
pub(crate) fn text_bound(kind: u32, text: &[u8]) -> Bound<&[u8]>
    ensures { bound_map (λ b. b.now) result ≡ bound_at kind text.now }
{
    match kind {
        UNBOUNDED => Bound::Unbounded,
        INCLUDED => Bound::Included(text),
        _ => Bound::Excluded(text),
    }
}

// Writes the pairs that are left, as many as there is space for.
pub(crate) fn fill(
    mut left: Range<'_, Escaped, u64, 16>,
    is_backward: bool,
    buffer: &mut [u8],
    pairs: &mut [Pair],
    given: &mut Given,
) -> u32
    ensures { Gives (in_direction is_backward left.entry) result buffer.new
        pairs.old pairs.new given.new }
{
    let mut count = 0;
    let mut end = 0;
    while count < pairs.len() {
        let Some((key, value)) = step(&mut left, is_backward) else {
            *given = Given { count, key_len: 0 };
            return DONE;
        };
        let Some(next_end) = key.write_at(end, buffer) else {
            let key_len = key.text_len();
            *given = Given { count, key_len };
            return TOO_LONG;
        };
        pairs[count] = Pair {
            value: *value,
            key_len: next_end - end,
        };
        count += 1;
        end = next_end;
    }
    *given = Given { count, key_len: 0 };
    FULL
}

// Returns the next pair in this direction, or `None` if none is left.
fn step<'a>(
    left: &mut Range<'a, Escaped, u64, 16>,
    is_backward: bool,
) -> Option<(&'a Escaped, &'a u64)>
    ensures { TakesFirst (in_direction is_backward left.old) result
        (in_direction is_backward left.new) }
{
    if is_backward {
        left.next_back()
    } else {
        left.next()
    }
}
