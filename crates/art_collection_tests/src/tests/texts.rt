//! Parts of a set of strings by texts.
use art_keyed_sets::set::TreeSet;
use art_keys::terminated::Terminated;
use art_node_support::expected::same;
use std::alloc::Global;
use std::ops::Bound;
use std::test::Fail;

// How many strings of a set are from "b" on, and how many start with "a".
fn parts_of_set(set: &mut TreeSet<Terminated, 2>, alloc: Global) -> Option<[usize; 2]> {
    for text in ["a", "ab", "b", "ba", "c"] {
        set.insert(Terminated::encode_str(alloc, text).ok()??).ok()?;
    }
    let prefix = Terminated::encode_str(alloc, "a").ok()??;
    Some([
        set.range_text(Bound::Included(b"b"), Bound::Unbounded)
            .count(),
        set.prefix(&prefix).count(),
    ])
}

#[test]
fn a_set_has_parts_by_texts(rt: HostRuntime) -> Result<(), Fail> {
    let seen = parts_of_set(&mut TreeSet::new(rt.alloc()), rt.alloc());
    same(seen, Some([3, 2]))
}
