//! An overwrite whose allocations tools/refusals makes fail, one at a time. A failure outside the call under test decides
//! nothing; after one within it the test reports that it asserted what holds then.
ghost use Rattle.art_model.specs.Pairs.{of_key};
ghost use Rattle.art_model.specs.Roots.{IsCanonicalRoot};

use art_nodes::node::OpaqueNodePtr;
use art_nodes::store::NodeStore;
use art_running::run::{Command, Reply, RunResult, run};
use art_test_support::expected::same;
use art_test_support::shapes::count_nodes;
use art_test_support::trees::{Key, planted_keys};
use std::alloc::{AllocError, Global};
use std::test::Fail;

/// The result of an overwrite of a whole tree.
#[derive(Clone, Copy, PartialEq, Eq, Debug)]
enum Overwrite {
    /// It failed; and whether the nodes are as many as before, under the same root.
    Refused(bool),
    /// It was made; and how many nodes are left.
    Made((usize, usize)),
    Other,
}

// The keys of one byte from 1 up to this one.
fn keys_up_to(alloc: Global, last: u8) -> Result<Vec<Key>, AllocError> {
    let mut keys = Vec::new(alloc);
    for byte in 1..=last {
        keys.push([byte].to_vec(alloc)?)?;
    }
    Ok(keys)
}

// The overwrite of all keys, with the value 7.
fn overwrite_alone(alloc: Global) -> Result<Vec<Command<Key, u32>>, AllocError> {
    let mut commands = Vec::new(alloc);
    commands.push(Command::InsertPrefix(Vec::new(alloc), 7))?;
    Ok(commands)
}

// The result of an overwrite by these replies. `is_kept` says whether there are as many nodes as before, under the same
// root; `left` is how many there are.
fn overwrite_told(replies: &[Reply<Key, u32>], is_kept: bool, left: (usize, usize)) -> Overwrite {
    match replies {
        [Reply::NoMemory(Some((_, 7)))] => Overwrite::Refused(is_kept),
        [Reply::Overwrote(..)] => Overwrite::Made(left),
        _ => Overwrite::Other,
    }
}

// The result of an overwrite that was run and left this, where there was this root and so many nodes.
fn overwrite_left<const P: usize>(
    store: &NodeStore<Key, u32, P>,
    done: &RunResult<Key, u32>,
    root: OpaqueNodePtr,
    before: (usize, usize),
) -> Overwrite {
    let after = count_nodes(store, 20);
    let is_kept = after == before && done.root == Some(root);
    overwrite_told(&done.replies, is_kept, after)
}

// Overwrites a whole tree, with the value 7. None where an allocation failed outside the run.
fn overwrite_all<const P: usize>(
    first: &mut NodeStore<Key, u32, P>,
    second: &mut NodeStore<Key, u32, P>,
    root: OpaqueNodePtr,
) -> Option<Overwrite>
    requires { IsCanonicalRoot (of_key (λ key. key.items)) P first.old root }
{
    let before = count_nodes(first, 20);
    let asked = overwrite_alone(first.alloc()).ok()?;
    match run(first, second, Some(root), asked) {
        Ok(done) => Some(overwrite_left(first, &done, root, before)),
        Err(_) => None,
    }
}

// The same of the tree of the keys up to this one. Its leaves leave no room in the store for one more.
fn overwrite_up_to<const P: usize>(
    first: &mut NodeStore<Key, u32, P>,
    second: &mut NodeStore<Key, u32, P>,
    last: u8,
) -> Option<Overwrite> {
    let keys = keys_up_to(first.alloc(), last).ok()?;
    let root = planted_keys(first, keys)?;
    overwrite_all(first, second, root)
}

#[test]
fn refused_overwrites_leave_the_tree(rt: HostRuntime) -> Result<(), Fail> {
    let alloc = rt.alloc();
    for last in [2u8, 16] {
        let left = overwrite_up_to::<4>(
            &mut NodeStore::new(alloc),
            &mut NodeStore::new(alloc),
            last,
        );
        match left {
            None => {}
            Some(Overwrite::Refused(is_kept)) => {
                assert!(rt; is_kept);
                println!(rt; "asserted")?;
            }
            Some(made) => same(made, Overwrite::Made((1, 0)))?,
        }
    }
    Ok(())
}
