//! A set of keys that can be told apart although they are equal.
use art_node_support::expected::same;
use art_node_support::tagged::Tagged;
use art_sets::set::ByteSet;
use std::alloc::Global;
use std::test::Fail;

// A key of one byte, the same one for each tag.
fn tagged(alloc: Global, tag: u32) -> Option<Tagged> {
    let bytes = [7u8].to_vec(alloc).ok()?;
    Some(Tagged { bytes, tag })
}

// The tag of the key that this one replaces, if it replaces one. None if an allocation fails.
fn replaced(set: &mut ByteSet<Tagged, 4>, key: Tagged) -> Option<Option<u32>> {
    match set.replace(key) {
        Ok(Some(old)) => Some(Some(old.tag)),
        Ok(None) => Some(None),
        Err(_) => None,
    }
}

// Whether a first key replaces none, the tag of the key that a second one replaces, and that of the stored key.
fn replaced_in(set: &mut ByteSet<Tagged, 4>, alloc: Global) -> Option<(bool, u32, u32)> {
    let first = replaced(set, tagged(alloc, 1)?)?;
    let second = replaced(set, tagged(alloc, 2)?)??;
    Some((first.is_none(), second, set.first()?.tag))
}

#[test]
fn a_key_replaces_an_equal_one(rt: HostRuntime) -> Result<(), Fail> {
    let alloc = rt.alloc();
    let mut set = ByteSet::new(alloc);
    let seen = replaced_in(&mut set, alloc);
    set.clear();
    same((seen, set.len()), (Some((true, 1, 2)), 0))
}
