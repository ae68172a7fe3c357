//! Paths down a tree: the nodes right above a node; prefixes that a key continues with, and prefixes that it differs
//! from.
ghost use Rattle.std.specs.Prelude.{◌≡◌, ◌≢◌};
ghost use Rattle.art_reading.specs.PathSteps.{last_step, up, step_down, path_after};
ghost use Rattle.art_reading.specs.declared.path.TreePath.TheVariants.{Root};
ghost use Rattle.art_parts.specs.declared.names.NodeType.TheVariants.{Leaf};

use art_nodes::node::{InnerPtr, NodeType, OptionalLeafPtr};

/// The inner nodes right above a node, and the bytes that lead down from them.
#[derive(Clone, Copy, PartialEq, Eq, Debug)]
pub enum TreePath {
    /// The node is the root.
    Root,
    /// The node is a child of the root.
    ChildOfRoot {
        parent: InnerPtr,
        /// The byte under which the parent has the node.
        child_key_byte: u8,
    },
    /// The node's parent is below another inner node.
    Normal {
        parent: InnerPtr,
        /// The byte under which the parent has the node.
        child_key_byte: u8,
        grandparent: InnerPtr,
        /// The byte under which the grandparent has the parent.
        parent_key_byte: u8,
    },
}

/// Returns the parent at the end of a path, with the byte under which it has the node; `None` if the node is the root.
#[inline(always)]
pub fn last_step(path: TreePath) -> Option<(InnerPtr, u8)>
    ensures { result ≡ last_step path }
{
    match path {
        TreePath::Root => None,
        TreePath::ChildOfRoot {
            parent,
            child_key_byte,
        }
        | TreePath::Normal {
            parent,
            child_key_byte,
            ..
        } => Some((parent, child_key_byte)),
    }
}

/// Returns the path one step up: that of the parent at the end of a path.
pub fn up(path: TreePath) -> TreePath
    ensures { result ≡ up path }
{
    match path {
        TreePath::Root | TreePath::ChildOfRoot { .. } => TreePath::Root,
        TreePath::Normal {
            grandparent,
            parent_key_byte,
            ..
        } => TreePath::ChildOfRoot {
            parent: grandparent,
            child_key_byte: parent_key_byte,
        },
    }
}

impl TreePath {
    /// Returns the path one step down: from this path's node to the child that it has under a byte.
    #[inline(always)]
    pub fn step_down(self, node: InnerPtr, byte: u8) -> TreePath
        ensures { result ≡ step_down self node byte }
    {
        match last_step(self) {
            None => TreePath::ChildOfRoot {
                parent: node,
                child_key_byte: byte,
            },
            Some((grandparent, parent_key_byte)) => TreePath::Normal {
                grandparent,
                parent_key_byte,
                parent: node,
                child_key_byte: byte,
            },
        }
    }
}

// The last steps of a descent, in plain fields: a loop keeps them in registers, and a caller that does not ask for the
// path keeps none of them. A parent or grandparent of kind `Leaf` means none.
#[derive(Clone, Copy)]
pub(crate) struct LastSteps {
    parent_kind: NodeType,
    parent_slot: u32,
    child_key_byte: u8,
    grandparent_kind: NodeType,
    grandparent_slot: u32,
    parent_key_byte: u8,
}

impl LastSteps {
    // At the root.
    #[inline(always)]
    pub(crate) fn new() -> Self
        ensures { path_after result ≡ Root }
    {
        LastSteps {
            parent_kind: NodeType::Leaf,
            parent_slot: 0,
            child_key_byte: 0,
            grandparent_kind: NodeType::Leaf,
            grandparent_slot: 0,
            parent_key_byte: 0,
        }
    }

    // Descends one step, to the child that a node has under a byte.
    #[inline(always)]
    pub(crate) fn step_down(&mut self, node: InnerPtr, byte: u8)
        requires { node.kind ≢ Leaf }
        ensures { path_after self.new ≡ step_down (path_after self.old) node byte }
    {
        self.grandparent_kind = self.parent_kind;
        self.grandparent_slot = self.parent_slot;
        self.parent_key_byte = self.child_key_byte;
        self.parent_kind = node.kind;
        self.parent_slot = node.slot;
        self.child_key_byte = byte;
    }

    #[inline(always)]
    pub(crate) fn path(&self) -> TreePath
        ensures { result ≡ path_after self.now }
    {
        let child_key_byte = self.child_key_byte;
        let parent = InnerPtr {
            kind: self.parent_kind,
            slot: self.parent_slot,
        };
        let grandparent = InnerPtr {
            kind: self.grandparent_kind,
            slot: self.grandparent_slot,
        };
        match (self.parent_kind, self.grandparent_kind) {
            (NodeType::Leaf, _) => TreePath::Root,
            (_, NodeType::Leaf) => TreePath::ChildOfRoot {
                parent,
                child_key_byte,
            },
            (_, _) => TreePath::Normal {
                grandparent,
                parent_key_byte: self.parent_key_byte,
                parent,
                child_key_byte,
            },
        }
    }
}

/// A prefix, compared whole, that the key continues with.
#[derive(Clone, Copy, PartialEq, Eq, Debug)]
pub struct PrefixMatch {
    /// The length of the prefix.
    pub matched_bytes: usize,
}

/// A prefix, compared whole, that the key differs from or ends in.
#[derive(Clone, Copy, PartialEq, Eq, Debug)]
pub struct ExplicitMismatch {
    /// How many bytes are the same before the two differ.
    pub matched_bytes: usize,
    /// The byte of the prefix after these.
    pub prefix_byte: u8,
    /// The least leaf below the node, if the node does not store the prefix whole.
    pub leaf_ptr: OptionalLeafPtr,
}

/// A prefix that the key continues with, as far as its bytes were compared.
#[derive(Clone, Copy, PartialEq, Eq, Debug)]
pub struct AttemptOptimisticPrefixMatch {
    /// The length of the prefix.
    pub matched_bytes: usize,
    /// Whether bytes of the prefix were skipped without a comparison.
    pub any_implicit_bytes: bool,
}

/// A prefix that the key doesn't continue with.
#[derive(Clone, Copy, PartialEq, Eq, Debug)]
pub struct PessimisticMismatch {
    /// How many of the stored bytes are the same before the two differ; once bytes were skipped, the length of the rest
    /// of the key.
    pub matched_bytes: usize,
    /// The stored byte after these, or `None` if there is none: the key ends before the prefix does.
    pub prefix_byte: Option<u8>,
}
