//! The text of the pairs of a tree.
ghost use Rattle.std.specs.Prelude.{◌++◌, IfSome, IsSome, List, ℕ, OnOk, codes};
ghost use Rattle.std.specs.FinMap as map;
ghost use Rattle.std.specs.Io.KnownBytes.{Appends};
ghost use Rattle.art_parts.specs.declared.names.OpaqueNodePtr.{OpaqueNodePtr};
ghost use Rattle.art_model.specs.Canonical.{IsCanonical};
ghost use Rattle.art_model.specs.Pairs.{of_key};
ghost use Rattle.art_model.specs.Stores.{pair_of};
ghost use Rattle.art_reading.specs.Iterators.{IsIteratorOf, TakesEnd};
ghost use Rattle.art_engine.specs.KeptKeys.{IsLinkedTreeIn, Key, key_bytes};
ghost use Rattle.art_engine.specs.Texts.{entry_text, gap_after, in_order, pairs_text, starting_end};

use crate::key::ShownKey;
use art_nodes::node::{LeafNode, LeafPtr, OpaqueNodePtr};
use art_nodes::store::NodeStore;
use art_reading::iterator::RawIterator;
use art_reading::minmax::{maximum_unchecked, minimum_unchecked};
use std::io;
use std::io::{ErrorKind, Write};

/// The order in which the pairs of a tree are written: by rising keys, or by falling ones.
#[derive(Clone, Copy)]
pub enum Order {
    Rising,
    Falling,
}

/// Writes the pairs of a tree in one line, by an iteration over its leaves.
pub fn write_pairs<W: Write, const P: usize>(
    output: &mut W,
    store: &NodeStore<Vec<u8>, u32, P>,
    root: Option<OpaqueNodePtr>,
    order: Order,
) -> io::Result<()>
    requires { IfSome root (IsLinkedTreeIn store.now) }
    ensures { OnOk result ((pairs : List (Key × ℕ)) →
        IsCanonical (of_key key_bytes) P store.now root pairs →
        Appends (W.contents output.old) (W.contents output.new)
        (pairs_text (in_order order pairs) ++ codes "\n")) }
{
    let Some(root) = root else {
        return writeln!(output, "empty");
    };
    let first = minimum_unchecked(store, root);
    let last = maximum_unchecked(store, root);
    let mut leaves = RawIterator::new(store, first, last);
    for written in 0..u64::MAX {
        let Some(name) = next_leaf(&mut leaves, store, order) else {
            return writeln!(output);
        };
        write_leaf(output, written, store.leaf_at(name))?;
    }
    Err(io::Error::from(ErrorKind::FileTooLarge))
}

// The next leaf.
fn next_leaf<const P: usize>(
    leaves: &mut RawIterator,
    store: &NodeStore<Vec<u8>, u32, P>,
    order: Order,
) -> Option<LeafPtr>
    requires { (names : List OpaqueNodePtr) × IsIteratorOf store.now leaves.old names }
    ensures there { IfSome result (λ leaf. IsSome (map.get store.now.leaves leaf)) }
    ensures rest { (names : List OpaqueNodePtr) × IsIteratorOf store.now leaves.new names }
    ensures taken { (names : List OpaqueNodePtr) → IsIteratorOf store.now leaves.old names →
        TakesEnd (starting_end order) store.now names result leaves.new }
{
    match order {
        Order::Rising => leaves.next(store),
        Order::Falling => leaves.next_back(store),
    }
}

// Writes a pair, with a space before it if so many pairs were written.
fn write_leaf<W: Write>(
    output: &mut W,
    written: u64,
    leaf: &LeafNode<Vec<u8>, u32>,
) -> io::Result<()>
    ensures { OnOk result (Appends (W.contents output.old) (W.contents output.new)
        (gap_after written ++ entry_text (pair_of leaf.now))) }
{
    let gap = if written == 0 { "" } else { " " };
    write!(output, "{gap}{}={}", ShownKey(&leaf.key), leaf.value)
}
