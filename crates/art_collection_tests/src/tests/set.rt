//! Sets of keys that never conflict.
use art_keyed_sets::set::TreeSet;
use art_keys::joined::Joined;
use art_keys::signed::I16Key;
use art_keys::unsigned::U8Key;
use art_node_support::expected::same;
use std::alloc::Global;
use std::test::Fail;

type Numbers = TreeSet<I16Key, 2>;

type Times = TreeSet<Joined<U8Key, I16Key>, 2>;

// Which of four numbers, one of which is inserted twice, are new.
fn put_in(set: &mut Numbers) -> Option<[bool; 4]> {
    Some([
        set.insert(I16Key::from(3)).ok()?,
        set.insert(I16Key::from(-1)).ok()?,
        set.insert(I16Key::from(3)).ok()?,
        set.insert(I16Key::from(i16::MIN)).ok()?,
    ])
}

// The first number and the last one.
fn ends(set: &Numbers) -> Option<[i16; 2]> {
    Some([set.first()?.get(), set.last()?.get()])
}

// Whether a number that is stored is replaced, and one that is not.
fn replaced(set: &mut Numbers) -> Option<[bool; 2]> {
    Some([
        set.replace(I16Key::from(3)).ok()?.is_some(),
        set.replace(I16Key::from(2)).ok()?.is_some(),
    ])
}

#[test]
fn a_compact_set_has_each_number_once(rt: HostRuntime) -> Result<(), Fail> {
    let mut set = TreeSet::new(rt.alloc());
    let added = put_in(&mut set);
    let is_compact = set.compact().is_ok();
    let seen = (added, is_compact, ends(&set), replaced(&mut set), set.len());
    set.clear();
    same(
        (seen, set.is_empty()),
        (
            (
                Some([true, true, false, true]),
                true,
                Some([i16::MIN, 3]),
                Some([true, false]),
                4,
            ),
            true,
        ),
    )
}

// Inserts times of users.
fn put_times(times: &mut Times, alloc: Global) -> Option<()> {
    for (user, time) in [(1u8, -1i16), (3, 7), (1, 0), (3, i16::MIN), (1, i16::MAX)] {
        let key = Joined::join(alloc, &U8Key::from(user), &I16Key::from(time)).ok()?;
        times.insert(key).ok()?;
    }
    Some(())
}

#[test]
fn keys_with_a_first_key_are_a_part(rt: HostRuntime) -> Result<(), Fail> {
    let mut times = TreeSet::new(rt.alloc());
    let put = put_times(&mut times, rt.alloc());
    let counts = [
        times.with_first(&U8Key::from(0)).count(),
        times.with_first(&U8Key::from(1)).count(),
        times.with_first(&U8Key::from(3)).count(),
    ];
    same((put, counts), (Some(()), [0, 3, 2]))
}
