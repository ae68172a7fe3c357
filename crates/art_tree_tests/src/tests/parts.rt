//! Parts of maps: the pairs with a prefix, and those between two bounds, within a prefix that is not stored whole.
ghost use Rattle.std.specs.Prelude.{◌<◌};

use art_map::map::{ByteMap, Range};
use art_test_support::expected::same;
use art_test_support::trees::Key;
use std::alloc::Global;
use std::ops::Bound;
use std::test::Fail;

type Map<const P: usize> = ByteMap<Key, u32, P>;

/// What of a map is asked for.
#[derive(Clone, Copy)]
enum Part {
    Below(&'static [u8]),
    Between(Bound<&'static [u8]>, Bound<&'static [u8]>),
}

/// Keys that share twenty bytes, of which the node below the first byte stores four at most; and one more.
static PATHS: [&[u8]; 4] = [
    b"/srv/www/site/pages/1a",
    b"/srv/www/site/pages/1b",
    b"/srv/www/site/pages/2e",
    b"x",
];

// Inserts the keys, with the values 1 to 4. Returns whether all are new.
fn fill<const P: usize>(map: &mut Map<P>, alloc: Global) -> Option<()> {
    let mut value = 0u32;
    for path in &PATHS {
        value = value.wrapping_add(1);
        map.insert(path.to_vec(alloc).ok()?, value).ok()?;
    }
    Some(())
}

// The values of a part, as digits.
fn digits<const P: usize>(part: Range<'_, Key, u32, P>) -> u32 {
    let mut digits = 0u32;
    for (_, value) in part {
        digits = digits.wrapping_mul(10).wrapping_add(*value);
    }
    digits
}

fn digits_of<const P: usize>(map: &Map<P>, part: Part) -> u32 {
    match part {
        Part::Below(prefix) => digits(map.prefix(prefix)),
        Part::Between(from, to) => digits(map.range((from, to))),
    }
}

/// All of the first three.
const SHARED: u32 = 123;

/// Parts of their tree, and what these have.
static PARTS_OF_PATHS: [(Part, u32); 19] = [
    (Part::Below(b"/"), SHARED),
    (Part::Below(b"/sr"), SHARED),
    (Part::Below(b"/srv/www/site/pag"), SHARED),
    (Part::Below(b"/srv/www/site/pages/"), SHARED),
    (Part::Below(b"/srv/www/site/pages/1"), 12),
    (Part::Below(b"/x"), 0),
    (Part::Below(b"/srv/xww"), 0),
    (Part::Below(b"/srv/www/site/pagex"), 0),
    (Part::Below(b"/srv/www/site/pages/1ab"), 0),
    (
        Part::Between(Bound::Included(b"/srv/www/s"), Bound::Unbounded),
        1_234,
    ),
    (
        Part::Between(Bound::Excluded(b"/srv/www/t"), Bound::Unbounded),
        4,
    ),
    (
        Part::Between(Bound::Unbounded, Bound::Excluded(b"/srv/www/r")),
        0,
    ),
    (
        Part::Between(Bound::Unbounded, Bound::Included(b"/srv/www/site/pagesz")),
        SHARED,
    ),
    (
        Part::Between(
            Bound::Included(b"/srv/www/site/pages/1b"),
            Bound::Excluded(b"x"),
        ),
        23,
    ),
    (
        Part::Between(
            Bound::Excluded(b"/srv/www/site/pages/1a"),
            Bound::Included(b"/srv/www/site/pages/2e"),
        ),
        23,
    ),
    (
        Part::Between(
            Bound::Included(b"/srv/www/site/pages/1a/"),
            Bound::Unbounded,
        ),
        234,
    ),
    (Part::Between(Bound::Unbounded, Bound::Excluded(b"-")), 0),
    (Part::Between(Bound::Included(b"y"), Bound::Unbounded), 0),
    (
        Part::Between(Bound::Included(b"-"), Bound::Included(b"y")),
        1_234,
    ),
];

// How many parts are right.
fn count_right<const P: usize>(alloc: Global) -> Option<usize>
    requires { P < 256 }
{
    let mut map: Map<P> = ByteMap::new(alloc);
    fill(&mut map, alloc)?;
    let mut count = 0usize;
    for (part, wanted) in &PARTS_OF_PATHS {
        count = count.saturating_add((digits_of(&map, *part) == *wanted) as usize);
    }
    Some(count)
}

#[test]
fn parts_within_a_long_prefix_are_found(rt: HostRuntime) -> Result<(), Fail> {
    let alloc = rt.alloc();
    same(
        [count_right::<0>(alloc), count_right::<4>(alloc)],
        [Some(19); 2],
    )
}
