//! An index of events by user and time. None of its lookups allocates.
ghost use Rattle.std.specs.Prelude.{◌≡◌, ◌<◌, ◌^◌, length, OnErr, OnOk};
ghost use Rattle.std.specs.Int.{bytes_high_first};
ghost use Rattle.std.specs.Option.{option_map};
ghost use Rattle.std.specs.Ordering.{int_cmp, nat_cmp};
ghost use Rattle.std.specs.declared.ops.Bound.TheVariants.{Excluded, Included};
ghost use Rattle.art_model.specs.Pairs.{first_of, of_key, put};
ghost use Rattle.art_operations.specs.Joins.{pair_cmp};
ghost use Rattle.art_operations.specs.KeyedPairs.{keys_between};
ghost use Rattle.art_operations.specs.KeyedValues.{value_of};
ghost use Rattle.uses.specs.Events.{of_user, place_bytes};

use art_operations::keys::{I64Key, JoinedArray, U64Key};
use art_operations::map::Range;
use art_operations::tree_map::TreeMap;
use std::alloc::AllocError;

/// A user and a time, as a key.
pub type Place = JoinedArray<U64Key, I64Key, 16>;

/// What users did, by user and time. The events of one user stand together, in the order of their times.
pub type Events = TreeMap<Place, u32, 4>;

/// Returns the key of a user and a time.
pub fn place(user: u64, time: i64) -> Place
    ensures { result ≡ (user, time) }
{
    JoinedArray::join(&U64Key::from(user), &I64Key::from(time))
}

/// Inserts an event, or replaces the one of the user at that time. It fails only if an allocation fails, and then
/// nothing has changed.
pub fn put_event(events: &mut Events, at: Place, event: u32) -> Result<(), AllocError>
    ensures pairs { OnOk result (events.new ≡ put (of_key place_bytes) (at, event) events.old) }
    ensures kept { OnErr result (events.new ≡ events.old) }
{
    events.insert(at, event)?;
    Ok(())
}

/// Returns the event of a user at a time, if any.
pub fn event_at(events: &Events, at: Place) -> Option<u32>
    ensures { result ≡ value_of place_bytes at events.now }
{
    events.get(&at).copied()
}

/// Returns the events of a user, from both ends.
pub fn events_of(events: &Events, user: u64) -> Range<'_, Place, u32, 4>
    ensures pairs { result ≡ of_user user events.now }
    ensures fits { length result < 2 ^ 64 }
{
    events.with_first(&U64Key::from(user))
}

/// Returns the first event of a user, with its time.
pub fn first_event(events: &Events, user: u64) -> Option<(i64, u32)>
    ensures { result ≡
        option_map (λ event. (event.0.1, event.1)) (first_of (of_user user events.now)) }
{
    let (key, event) = events_of(events, user).next()?;
    Some((key.second().get(), *event))
}

/// Returns the events of a user from one time up to another, which is not one of them, from both ends.
pub fn events_between(events: &Events, user: u64, from: i64, to: i64) -> Range<'_, Place, u32, 4>
    ensures pairs { result ≡ keys_between (pair_cmp nat_cmp int_cmp)
        (Included (user, from)) (Excluded (user, to)) events.now }
    ensures fits { length result < 2 ^ 64 }
{
    events.range(place(user, from)..place(user, to))
}

/// Returns how many events a user has from one time up to another, which is not one of them.
pub fn count_between(events: &Events, user: u64, from: i64, to: i64) -> usize
    ensures { result ≡ length (keys_between (pair_cmp nat_cmp int_cmp)
        (Included (user, from)) (Excluded (user, to)) events.now) }
{
    events_between(events, user, from, to).count()
}
