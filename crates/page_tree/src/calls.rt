//! The calls on a tree that is kept.
ghost use Rattle.std.specs.Prelude.{◌≡◌, ◌<◌, IsFalse, IsTrue, None, length, take};
ghost use Rattle.art_engine.specs.KeptTrees.{state_of};
ghost use Rattle.page_tree.specs.Answered.{AnswersText};

use super::PageTree;
use art_engine::engine::answer_lines;
use art_engine::keeping::status::Ending;
use art_engine::keeping::tree::KeptTree;
use std::alloc::Global;
use std::io::BufReader;

/// Returns an empty tree. It allocates nothing.
pub fn new(alloc: Global) -> PageTree
    ensures { (state_of result).root ≡ None }
{
    PageTree {
        kept: KeptTree::new(alloc),
        alloc,
    }
}

/// Frees all nodes, and leaves an empty tree. Returns 0.
pub fn clear(tree: &mut PageTree) -> u32
    ensures { (result ≡ 0) × ((state_of tree.new).root ≡ None) }
{
    tree.kept = KeptTree::new(tree.alloc);
    0
}

/// Answers the lines of a text, each from the tree that the one before it left. Writes the replies to the start of a
/// buffer, and their length. Returns 0 after the last line, and 2 after a line that is no valid request. Returns 1 if an
/// allocation fails, and 3 if the replies don't fit into the buffer: lines may have been carried out then.
pub fn answer(tree: &mut PageTree, text: &[u8], replies: &mut [u8], len: &mut usize) -> u32
    ensures { AnswersText tree.old tree.new text.now result len.new replies.new }
{
    let Ok(mut input) = BufReader::new(tree.alloc, text) else {
        return 1;
    };
    let mut output = Vec::new(tree.alloc);
    let end = answer_lines(tree.alloc, &mut tree.kept, &mut input, &mut output);
    *len = output.len();
    if !copy_to_start(&output, replies) {
        return 3;
    }
    match end {
        Ok(Ending::Input) => 0,
        Ok(Ending::BadLine) => 2,
        Err(_) => 1,
    }
}

// Copies bytes to the start of a buffer. Returns whether they fit into it.
fn copy_to_start(bytes: &[u8], buffer: &mut [u8]) -> bool
    ensures copied { IsTrue result → take (length bytes.now) buffer.new ≡ bytes.now }
    ensures long { IsFalse result → length buffer.new < length bytes.now }
{
    if buffer.len() < bytes.len() {
        return false;
    }
    buffer[..bytes.len()].copy_from_slice(bytes);
    true
}
