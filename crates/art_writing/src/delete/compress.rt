//! A node with two children is removed with one of them, a leaf, and is replaced by the other.
ghost use Rattle.std.specs.Prelude.{◌≡◌, ◌≢◌, ◌+◌, ◌≤◌, ℕ, List, ◌∷◌, ◌++◌, length, IsSome, IsSomeAnd, IfSome, Some, cond};
ghost use Rattle.std.specs.FinMap as map;
ghost use Rattle.art_inner.specs.InnerChanges.{with_header};
ghost use Rattle.art_inner.specs.Views.{ref_view};
ghost use Rattle.art_parts.specs.Headers.{header_of};
ghost use Rattle.art_nodes.specs.Nodes.{change};
ghost use Rattle.art_model.specs.Pairs.{of_key};
ghost use Rattle.art_model.specs.Writes.{as_inner};
ghost use Rattle.art_parts.specs.declared.names.NodeType.TheVariants.{Leaf};
ghost use Rattle.art_writing.specs.Deleted.{IsDeletePointIn, is_compressed, parent_change};
ghost use Rattle.art_writing.specs.TakenOut.{IsLetGo};
ghost use Rattle.art_reading.specs.PathSteps.{last_step};

use super::DeletePoint;
use crate::writes::replace_at;
use art_nodes::node::{AsBytes, Header, InnerPtr, InnerRef, LeafPtr, OpaqueNodePtr};
use art_nodes::store::NodeStore;
use art_reading::path::up;

impl DeletePoint {
    /// Removes a leaf's parent, which is replaced by its other child. Returns the root that is left.
    #[inline(always)]
    pub(super) fn compress_parent<K: AsBytes + Drop, V: Drop, const P: usize>(
        self,
        store: &mut NodeStore<K, V, P>,
        root: OpaqueNodePtr,
        parent: InnerPtr,
        byte: u8,
    ) -> OpaqueNodePtr
        requires parent { last_step self.path ≡ Some (parent, byte) }
        requires compressed { parent_change store.old self.path ≡ is_compressed }
        requires answers { IsDeletePointIn (of_key K.bytes) P store.old root self }
        ensures { IsLetGo (of_key K.bytes) P store.old store.new root self (Some result) }
    {
        let (header, other_byte, other) = store.take_other(parent, byte);
        let beside = leaf_beside(store, self.leaf_node_ptr, byte < other_byte);
        lengthen_prefix(store, other, header, other_byte, beside);
        replace_at(store, up(self.path), root, other)
    }
}

// The leaf right after a leaf, or the one right before it.
fn leaf_beside<K: AsBytes + Drop, V: Drop, const P: usize>(
    store: &NodeStore<K, V, P>,
    name: LeafPtr,
    after: bool,
) -> LeafPtr
    requires { IsSomeAnd (map.get store.now.leaves name) (λ leaf.
        IsSome (cond after leaf.next leaf.previous)) }
    ensures { IfSome (map.get store.now.leaves name) (λ leaf.
        cond after leaf.next leaf.previous ≡ Some result) }
{
    let leaf = store.leaf_at(name);
    let beside = if after { leaf.next } else { leaf.previous };
    beside.unwrap()
}

// Prepends a prefix and a byte to the prefix of a node, if it is an inner node. The lengths have a sum, since the key
// of a leaf below has all these bytes.
fn lengthen_prefix<K: AsBytes + Drop, V: Drop, const P: usize>(
    store: &mut NodeStore<K, V, P>,
    name: OpaqueNodePtr,
    front: Header<P>,
    byte: u8,
    below: LeafPtr,
)
    requires { name.kind ≢ Leaf → IsSomeAnd (map.get store.old.leaves below) (λ leaf.
        IsSomeAnd (map.get store.old.inners (as_inner name)) (λ node.
        front.len + 1 + node.prefix.len ≤ length (K.bytes leaf.key))) }
    ensures leaf { name.kind ≡ Leaf → store.new.inners ≡ store.old.inners }
    ensures inner { name.kind ≢ Leaf → (first rest : List ℕ) → front.entry ≡ header_of P first →
        IfSome (map.get store.old.inners (as_inner name)) (λ node. node.prefix ≡ header_of P rest) →
        store.new.inners ≡
        change store.old.inners (as_inner name) (with_header (header_of P (first ++ byte ∷ rest))) }
    ensures leaves { store.new.leaves ≡ store.old.leaves }
    ensures promise { store.new.promise ≡ store.old.promise }
{
    let Some(inner) = name.as_inner() else {
        return;
    };
    let node = store.inner_at(inner);
    let leaf = store.leaf_at(below);
    let header = header_below(front, byte, node, leaf.key.as_bytes());
    store.set_header(inner, header);
}

// The header of a prefix, a byte and the prefix of a node, concatenated. A key has all these bytes.
#[inline(always)]
fn header_below<const P: usize>(
    front: Header<P>,
    byte: u8,
    node: InnerRef<'_, P>,
    key: &[u8],
) -> Header<P>
    requires { front.len + 1 + (ref_view node).prefix.len ≤ length key.now }
    ensures { (first rest : List ℕ) → front.entry ≡ header_of P first →
        (ref_view node.entry).prefix ≡ header_of P rest →
        result ≡ header_of P (first ++ byte ∷ rest) }
{
    prove!(front.prefix_len() + 1 + node.prefix_len() <= key.len());
    let mut header = front;
    header.push_prefix(&[byte], 1);
    header.push_prefix(node.read_prefix(), node.prefix_len());
    header
}
