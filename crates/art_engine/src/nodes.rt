//! The text of the nodes of a tree.
ghost use Rattle.std.specs.Prelude.{IfSome, List, OnOk, Some, ℕ};
ghost use Rattle.std.specs.Io.KnownBytes.{Appends};
ghost use Rattle.art_model.specs.Canonical.{IsCanonical};
ghost use Rattle.art_model.specs.Pairs.{of_key};
ghost use Rattle.art_model.specs.Stores.{node_at};
ghost use Rattle.art_engine.specs.KeptKeys.{IsTreeIn, Key, key_bytes};
ghost use Rattle.art_engine.specs.NodeLines.{line_at, node_text, nodes_text, line_start};
ghost use Rattle.art_engine.specs.Shown.{AppendsUnlessNoMemory};

use crate::keeping::walk::{Pending, reserve_walk, turn};
use crate::key::ShownKey;
use crate::replies::write_no_memory;
use art_nodes::node::{NodePtr, OpaqueNodePtr};
use art_nodes::store::NodeStore;
use std::io::{ErrorKind, Write};
use std::{fmt, io};

/// The position of a node, displayed as the beginning of its line: two spaces for each inner node above it, and the
/// byte under which it is a child, or `*` for the root.
#[derive(Clone, Copy)]
struct LineStart {
    depth: usize,
    byte: Option<u8>,
}

impl fmt::Display for LineStart {
    ghost output = { λ place. Some (line_start place.depth place.byte) };

    fn fmt<W: fmt::Write>(&self, f: &mut fmt::Formatter<W>) -> fmt::Result {
        for _ in 0..self.depth {
            f.write_str("  ")?;
        }
        match self.byte {
            Some(byte) => write!(f, "{byte}: "),
            None => f.write_str("*: "),
        }
    }
}

/// Writes the nodes of a tree, a line each: the root, and after each inner node its children in the order of their
/// bytes, each with all that is below it. The list of pending nodes is allocated before anything is written; if that
/// fails, one line reports it.
pub fn write_nodes<W: Write, const P: usize>(
    output: &mut W,
    store: &NodeStore<Vec<u8>, u32, P>,
    root: Option<OpaqueNodePtr>,
) -> io::Result<()>
    requires { IfSome root (IsTreeIn store.now) }
    ensures { OnOk result ((pairs : List (Key × ℕ)) →
        IsCanonical (of_key key_bytes) P store.now root pairs →
        AppendsUnlessNoMemory (W.contents output.old) (W.contents output.new)
        (nodes_text P pairs)) }
{
    let Some(root) = root else {
        return writeln!(output, "empty");
    };
    let Ok(mut pending) = reserve_walk(store, root) else {
        return write_no_memory(output);
    };
    pending.push_reserved(Pending::root(root));
    for _ in 0..u64::MAX {
        let Some(next) = turn(&mut pending, store) else {
            return Ok(());
        };
        write_node(output, store, next)?;
    }
    Err(io::Error::from(ErrorKind::FileTooLarge))
}

// Writes the line of a node.
fn write_node<W: Write, const P: usize>(
    output: &mut W,
    store: &NodeStore<Vec<u8>, u32, P>,
    node: Pending,
) -> io::Result<()>
    requires { IsTreeIn store.now node.name }
    ensures { OnOk result (IfSome (node_at store.now node.name) (λ there.
        Appends (W.contents output.old) (W.contents output.new)
        (line_at node.depth node.byte (node_text there)))) }
{
    let place = LineStart {
        depth: node.depth,
        byte: node.byte,
    };
    match node.name.split() {
        NodePtr::Leaf(name) => {
            let leaf = store.leaf_at(name);
            writeln!(output, "{place}Leaf {}={}", ShownKey(&leaf.key), leaf.value)
        }
        NodePtr::Inner(name) => {
            let node = store.inner_at(name);
            let kind = node.node_type();
            let len = node.prefix_len();
            let stored = ShownKey(node.read_prefix());
            let count = node.num_children();
            writeln!(
                output,
                "{place}{kind} prefix {len} stored {stored} children {count}"
            )
        }
    }
}
