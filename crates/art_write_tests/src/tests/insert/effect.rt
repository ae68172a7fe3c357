//! What is reported of an insertion.
ghost use Rattle.art_model.specs.Pairs.{of_key};
ghost use Rattle.art_model.specs.Roots.{IsCanonicalRoot};

use art_nodes::node::OpaqueNodePtr;
use art_nodes::store::NodeStore;
use art_test_support::memory::all_memory;
use art_test_support::points::{Put, Way, put};
use art_test_support::trees::{Key, planted_all};

/// The value of the replaced pair, and how many leaves were removed.
pub type Told = (Option<u32>, usize);

/// The same, where the key was inserted.
pub fn told(answer: Put<Key>) -> Option<Told> {
    match answer {
        Ok(done) => Some((
            done.insert_result.existing_leaf.map(|leaf| leaf.value),
            done.leafs_removed,
        )),
        Err(_) => None,
    }
}

/// What is reported of a key that is inserted while all memory is held.
pub fn put_without_memory<const P: usize>(
    way: Way,
    store: &mut NodeStore<Key, u32, P>,
    root: OpaqueNodePtr,
    key: &[u8],
) -> Option<Told>
    requires { IsCanonicalRoot (of_key (λ key. key.items)) P store.old root }
{
    let alloc = store.alloc();
    let copy = key.to_vec(alloc).ok()?;
    let held = all_memory(alloc).ok()?;
    let (_, answer) = put(way, store, root, copy, 9);
    drop(held);
    told(answer)
}

/// What is reported of the same in the tree of some others.
pub fn told_without_memory<const P: usize>(
    way: Way,
    store: &mut NodeStore<Key, u32, P>,
    slices: &[&[u8]],
    key: &[u8],
) -> Option<Told> {
    let root = planted_all(store, slices).ok()??;
    put_without_memory(way, store, root, key)
}
