//! The right edge of a tree: its last leaf, and the nodes above it.
ghost use Rattle.std.specs.Prelude.{◌≡◌, ◌<◌, ◌≤◌, List, ◌++◌, ◌∷◌, MatchOption};
ghost use Rattle.std.specs.List.{AllByRecursion as Each};
ghost use Rattle.art_loading.specs.EdgeSteps.{IsReach, path_by};
ghost use Rattle.art_reading.specs.declared.path.TreePath.TheVariants.{Root};

use art_nodes::node::{InnerPtr, LeafPtr};
use art_reading::path::TreePath;

/// An inner node above the last leaf of a tree.
#[derive(Clone, Copy, PartialEq, Eq, Debug)]
pub struct Step {
    pub node: InnerPtr,
    /// The length of the node's place.
    pub depth: usize,
    /// The byte under which the node has the next one, or the leaf.
    pub byte: u8,
}

/// Returns the last of these steps whose node's place has at most so many bytes, and the steps before it.
#[inline(always)]
pub fn last_within(steps: &[Step], shared: usize) -> Option<(Step, &[Step])>
    ensures { MatchOption result (Each (λ step. shared < step.depth) steps.now) (λ found.
        IsReach shared steps.now found.1.now found.0) }
{
    let mut rest = steps;
    'up: loop {
        let Some((step, above)) = rest.split_last() else {
            return None;
        };
        if step.depth <= shared {
            return Some((*step, above));
        }
        rest = above;
    }
}

/// Returns the path down these steps.
#[inline(always)]
pub fn path_down(steps: &[Step]) -> TreePath
    ensures { result ≡ path_by Root steps.now }
{
    let Some((last, above)) = steps.split_last() else {
        return TreePath::Root;
    };
    let Some((upper, _)) = above.split_last() else {
        return TreePath::ChildOfRoot {
            parent: last.node,
            child_key_byte: last.byte,
        };
    };
    TreePath::Normal {
        parent: last.node,
        child_key_byte: last.byte,
        grandparent: upper.node,
        parent_key_byte: upper.byte,
    }
}
