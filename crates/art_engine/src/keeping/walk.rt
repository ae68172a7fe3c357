//! A traversal of the nodes of a tree, each before all that is below it. Its pending nodes are in a list, so that no
//! depth of the tree ends it.
ghost use Rattle.std.specs.Prelude.{◌≡◌, ◌≤◌, ◌+◌, ◌++◌, [], length, IfOk};
ghost use Rattle.std.specs.Vec.{vec_capacity};
ghost use Rattle.art_model.specs.Pairs.{last_of};
ghost use Rattle.art_engine.specs.NodeWalks.{HasRoom, below, reversed_children, pending_root, after_turn};

use art_nodes::node::{Children, NodePtr, OpaqueNodePtr};
use art_nodes::store::NodeStore;
use std::alloc::AllocError;

/// A pending node, with all that is below it: how many inner nodes are above it, and the byte under which it is a
/// child, which a root has not.
#[derive(Clone, Copy)]
pub struct Pending {
    pub depth: usize,
    pub byte: Option<u8>,
    pub name: OpaqueNodePtr,
}

impl Pending {
    /// Returns the root, all of which is pending.
    pub fn root(name: OpaqueNodePtr) -> Self
        ensures { result ≡ pending_root name }
    {
        Pending {
            depth: 0,
            byte: None,
            name,
        }
    }
}

/// Traverses the nodes below a root once, and returns an empty list with room for another traversal.
pub fn reserve_walk<const P: usize>(
    store: &NodeStore<Vec<u8>, u32, P>,
    root: OpaqueNodePtr,
) -> Result<Vec<Pending>, AllocError>
    ensures room { IfOk result (λ pending. HasRoom store.now root (vec_capacity pending)) }
    ensures empty { IfOk result (λ pending. pending.items ≡ []) }
{
    let mut pending = Vec::with_capacity(store.alloc(), 1)?;
    pending.push_reserved(Pending::root(root));
    for _ in 0..u64::MAX {
        let Some(next) = pending.pop() else {
            return Ok(pending);
        };
        pending.reserve(count_children(store, next))?;
        push_below(&mut pending, store, next);
    }
    Err(AllocError)
}

/// Removes the next node from the list, and pushes its children.
pub fn turn<const P: usize>(
    pending: &mut Vec<Pending>,
    store: &NodeStore<Vec<u8>, u32, P>,
) -> Option<Pending>
    requires { length (after_turn store.now pending.old.items) ≤ vec_capacity pending.old }
    ensures left { pending.new.items ≡ after_turn store.now pending.old.items }
    ensures next { result ≡ last_of pending.old.items }
    ensures capacity { vec_capacity pending.new ≡ vec_capacity pending.old }
{
    let next = pending.pop()?;
    push_below(pending, store, next);
    Some(next)
}

// How many children a node has.
fn count_children<const P: usize>(store: &NodeStore<Vec<u8>, u32, P>, parent: Pending) -> usize
    ensures { result ≡ length (below store.now parent) }
{
    let NodePtr::Inner(name) = parent.name.split() else {
        return 0;
    };
    match store.inner(name) {
        Some(node) => node.num_children(),
        None => 0,
    }
}

// Pushes the children of a node, the last one first, so that the first one comes next.
fn push_below<const P: usize>(
    pending: &mut Vec<Pending>,
    store: &NodeStore<Vec<u8>, u32, P>,
    parent: Pending,
)
    requires { length (pending.old.items ++ below store.now parent) ≤ vec_capacity pending.old }
    ensures items { pending.new.items ≡ pending.old.items ++ below store.now parent }
    ensures capacity { vec_capacity pending.new ≡ vec_capacity pending.old }
{
    let NodePtr::Inner(name) = parent.name.split() else {
        return;
    };
    let Some(node) = store.inner(name) else {
        return;
    };
    push_children(pending, node.iter(), parent.depth.saturating_add(1));
}

// Pushes children, the last one first.
fn push_children(pending: &mut Vec<Pending>, children: Children<'_>, depth: usize)
    requires { length pending.old.items + length children ≤ vec_capacity pending.old }
    ensures items { pending.new.items
        ≡ pending.old.items ++ reversed_children depth children.entry }
    ensures capacity { vec_capacity pending.new ≡ vec_capacity pending.old }
{
    for (byte, name) in children.rev() {
        let byte = Some(byte);
        pending.push_reserved(Pending { depth, byte, name });
    }
}
