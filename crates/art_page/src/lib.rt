//! The calls of the page `play/index.html`: a tree that is kept from call to call. It lies in memory of the caller, behind
//! a pointer without a type. The caller has to meet each `requires`; nothing checks that.
#![tactic(auto)]

ghost use Rattle.std.specs.Prelude.{◌≡◌, None};
ghost use Rattle.std.specs.Borrow.{full_share, sem};
ghost use Rattle.std.specs.Ptr.{lies_at, room_at};
ghost use Rattle.art_engine.specs.KeptTrees.{state_of};
ghost use Rattle.art_engine.specs.declared.keeping.tree.KeptTree.{KeptTree};
ghost use Rattle.page_tree.specs.Answered.{AnswersText};
ghost use Rattle.page_tree.specs.contracts.PageTree.{the_row as TreeRow};

use page_tree::PageTree;
use std::alloc::Global;

/// Returns the size of a tree in bytes. It is aligned to eight bytes.
#[unsafe(no_mangle)]
pub extern "C" fn vokujin_tree_size() -> usize
    ensures { result ≡ 464 }
{
    std::mem::size_of::<PageTree>()
}

/// Makes an empty tree in the memory of the caller. It allocates nothing.
#[unsafe(no_mangle)]
pub unsafe extern "C" fn vokujin_tree_new(alloc: Global, tree: *mut u8)
    requires* { sem 𝓛 (room_at TreeRow tree) }
    ensures* { ∃ₛ λ (now : KeptTree). sem 𝓛 (lies_at TreeRow full_share tree now) ∗
        ⌜ (state_of now).root ≡ None ⌝ }
{
    let made = page_tree::calls::new(alloc);
    std::ptr::write(tree as *mut PageTree, made);
}

/// Frees all nodes, and leaves an empty tree. Returns 0.
#[unsafe(no_mangle)]
pub unsafe extern "C" fn vokujin_tree_clear(tree: *mut u8) -> u32
    ghost kept: { KeptTree }
    requires* { sem 𝓛 (lies_at TreeRow full_share tree kept) }
    ensures* { ∃ₛ λ (now : KeptTree). sem 𝓛 (lies_at TreeRow full_share tree now) ∗
        ⌜ (result ≡ 0) × ((state_of now).root ≡ None) ⌝ }
{
    page_tree::calls::clear(&mut *(tree as *mut PageTree))
}

/// Answers the lines of a text, each from the tree that the one before it left. Writes the replies to the start of a
/// buffer, and their length. Returns 0 after the last line, and 2 after a line that is no valid request. Returns 1 if an
/// allocation fails, and 3 if the replies don't fit into the buffer: lines may have been carried out then.
#[unsafe(no_mangle)]
pub unsafe extern "C" fn vokujin_tree_answer(
    tree: *mut u8,
    text: &[u8],
    replies: &mut [u8],
    len: &mut usize,
) -> u32
    ghost kept: { KeptTree }
    requires* { sem 𝓛 (lies_at TreeRow full_share tree kept) }
    ensures* { ∃ₛ λ (now : KeptTree). sem 𝓛 (lies_at TreeRow full_share tree now) ∗
        ⌜ AnswersText kept now text.now result len.new replies.new ⌝ }
{
    page_tree::calls::answer(&mut *(tree as *mut PageTree), text, replies, len)
}
