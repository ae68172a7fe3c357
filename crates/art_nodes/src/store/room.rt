//! Room in the slabs.
ghost use Rattle.std.specs.Prelude.{◌≡◌, ◌+◌, ◌<◌, ◌≤◌, ◌^◌, Some, None, IsOk, IfOk, OnOk};
ghost use Rattle.slab.specs.Slab.{HasRoomFor, Updates, get, slab_len};
ghost use Rattle.art_nodes.specs.Replacing.{AreSame, IsOneMore, IsWider};

use crate::node::{InnerPtr, NodeType};
use slab::Slab;
use std::alloc::AllocError;

// A name has the number of a slot in four bytes, so nodes are placed only in slabs with at most so many slots.
pub(super) const MOST_SLOTS: usize = 4_294_967_296;

// Inserts a node into the slab of its kind.
pub(super) fn insert_in<N: Drop>(slab: &mut Slab<N>, kind: NodeType, node: N) -> InnerPtr
    requires room { HasRoomFor slab.old 1 }
    requires few { slab.old.capacity ≤ 2 ^ 32 }
    ensures kind { result.kind ≡ kind }
    ensures vacant { get slab.old result.slot ≡ None }
    ensures put { Updates slab.old slab.new result.slot (Some node) }
    ensures more { IsOneMore slab.old slab.new }
{
    InnerPtr {
        kind,
        slot: slab.insert_reserved(node) as u32,
    }
}

// Room for so many more leaves, in slots whose numbers fit a name.
#[inline(always)]
pub(super) fn make_leaf_room<T: Drop>(
    slab: &mut Slab<T>,
    additional: usize,
) -> Result<(), AllocError>
    ensures room { OnOk result (HasRoomFor slab.new additional) }
    ensures few { OnOk result (slab.new.capacity ≤ 2 ^ 32) }
    ensures wider { IsWider slab.old slab.new }
{
    if slab.capacity() - slab.len() >= additional && slab.capacity() <= MOST_SLOTS {
        return Ok(());
    }
    widen_leaves(slab, additional)
}

// Room for so many more leaves in a slab without it. The slab grows by half of its slots and 16, and by more only if
// more is requested.
#[inline(never)]
fn widen_leaves<T: Drop>(slab: &mut Slab<T>, additional: usize) -> Result<(), AllocError>
    ensures room { OnOk result (HasRoomFor slab.new additional) }
    ensures few { OnOk result (slab.new.capacity ≤ 2 ^ 32) }
    ensures wider { IsWider slab.old slab.new }
{
    if additional > MOST_SLOTS.saturating_sub(slab.len()) {
        return Err(AllocError);
    }
    slab.reserve_exact(additional.max(usual_growth(slab)))?;
    if slab.capacity() > MOST_SLOTS {
        return Err(AllocError);
    }
    Ok(())
}

// Room for so many more nodes.
#[inline(always)]
pub(super) fn make_room<T: Clone + Drop>(
    slab: &mut Slab<T>,
    additional: usize,
) -> Result<(), AllocError>
    requires few { slab.old.capacity ≤ 2 ^ 32 }
    requires same { AreSame T.is_clone }
    ensures room { OnOk result (HasRoomFor slab.new additional) }
    ensures succeeds { HasRoomFor slab.old additional → IsOk result }
    ensures wider { IsWider slab.old slab.new }
    ensures few { slab.new.capacity ≤ 2 ^ 32 }
{
    if slab.capacity() - slab.len() >= additional {
        return Ok(());
    }
    widen(slab, additional)
}

// Room for one more node, and for so many that may follow later.
#[inline(always)]
pub(super) fn make_room_beside<T: Clone + Drop>(
    slab: &mut Slab<T>,
    later: usize,
) -> Result<(), AllocError>
    requires few { slab.old.capacity ≤ 2 ^ 32 }
    requires same { AreSame T.is_clone }
    ensures room { OnOk result (HasRoomFor slab.new (later + 1)) }
    ensures succeeds { HasRoomFor slab.old (later + 1) → IsOk result }
    ensures wider { IsWider slab.old slab.new }
    ensures few { slab.new.capacity ≤ 2 ^ 32 }
{
    match later.checked_add(1) {
        Some(additional) => make_room(slab, additional),
        None => Err(AllocError),
    }
}

// Room for so many more nodes in a slab without it, which a copy replaces. Its contract does not bound what a slab grows
// to, and a copy that is too large is dropped.
#[inline(never)]
fn widen<T: Clone + Drop>(slab: &mut Slab<T>, additional: usize) -> Result<(), AllocError>
    requires few { slab.old.capacity ≤ 2 ^ 32 }
    requires same { AreSame T.is_clone }
    ensures room { OnOk result (HasRoomFor slab.new additional) }
    ensures wider { IsWider slab.old slab.new }
    ensures few { slab.new.capacity ≤ 2 ^ 32 }
{
    *slab = copy_beside(slab, additional.max(usual_growth(slab)))?;
    Ok(())
}

// Gives back the room that neither the nodes nor so many later ones need.
pub(super) fn narrow<T: Clone + Drop>(slab: &mut Slab<T>, later: usize) -> Result<(), AllocError>
    requires same { AreSame T.is_clone }
    ensures slots { slab.new.slots ≡ slab.old.slots }
    ensures room { HasRoomFor slab.old later → HasRoomFor slab.new later }
    ensures few { slab.old.capacity ≤ 2 ^ 32 → slab.new.capacity ≤ 2 ^ 32 }
{
    *slab = copy_beside(slab, later)?;
    Ok(())
}

// A slab with the same nodes, and with room for so many that may follow later.
pub(super) fn copy_beside<T: Clone + Drop>(
    slab: &Slab<T>,
    later: usize,
) -> Result<Slab<T>, AllocError>
    requires same { AreSame T.is_clone }
    ensures slots { IfOk result (λ copy. copy.slots ≡ slab.now.slots) }
    ensures len { IfOk result (λ copy. slab_len copy ≡ slab_len slab.now) }
    ensures room { IfOk result (λ copy. HasRoomFor copy later) }
    ensures few { IfOk result (λ copy. copy.capacity ≤ 2 ^ 32) }
{
    let mut copy = slab.clone()?;
    copy.reserve_exact(later)?;
    if copy.capacity() > MOST_SLOTS {
        return Err(AllocError);
    }
    Ok(copy)
}

// For how many more values a slab that grows is given room: it grows by half of its slots and 16, up to the limit.
fn usual_growth<T>(slab: &Slab<T>) -> usize
    ensures { slab.now.capacity ≤ 2 ^ 32 → slab.now.capacity ≤ slab_len slab.now + result }
{
    let free = slab.capacity() - slab.len();
    let most = MOST_SLOTS.saturating_sub(slab.len());
    free.saturating_add(slab.capacity() / 2 + 16).min(most)
}
