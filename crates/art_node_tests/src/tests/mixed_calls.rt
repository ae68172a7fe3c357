//! Mixed calls of a store, each compared with a plain list of names and nodes.
ghost use Rattle.std.specs.Prelude.{IsTrue, IsSomeAnd};
ghost use Rattle.std.specs.FinMap as map;
ghost use Rattle.art_inner.specs.Inner.{HasPlace};
ghost use Rattle.art_parts.specs.Kinds.{kind_capacity};

use art_node_support::expected::same;
use art_node_support::numbers::Numbers;
use art_node_support::shapes::count_nodes;
use art_nodes::node::{
    AnyInner, Header, InnerPtr, InnerRef, LeafNode, LeafPtr, NodeType, OpaqueNodePtr,
};
use art_nodes::store::NodeStore;
use std::alloc::{AllocError, Global};
use std::mem;
use std::test::Fail;

type Store = NodeStore<[u8; 2], u32, 3>;

const STEPS: usize = 10_000;

// No name has a slot past this one: there are never so many nodes at a time.
const LAST_SLOT: u32 = 400;

// A kind of inner nodes.
fn drawn_kind(numbers: &mut Numbers) -> NodeType {
    match numbers.below(4) {
        0 => NodeType::Node4,
        1 => NodeType::Node16,
        2 => NodeType::Node48,
        _ => NodeType::Node256,
    }
}

// A name, of some node or of none.
fn drawn_name(numbers: &mut Numbers) -> OpaqueNodePtr {
    let kind = if numbers.is_heads() {
        NodeType::Leaf
    } else {
        drawn_kind(numbers)
    };
    OpaqueNodePtr::from_parts(kind, numbers.below(LAST_SLOT as usize) as u32)
}

// The name of a leaf, of some leaf or of none, where one is drawn.
fn drawn_link(numbers: &mut Numbers) -> Option<LeafPtr> {
    drawn_name(numbers).as_leaf()
}

// A key and a value.
fn drawn_pair(numbers: &mut Numbers) -> ([u8; 2], u32) {
    ([numbers.byte(), numbers.byte()], numbers.value())
}

// A prefix: its first bytes, which are stored, and a length.
fn drawn_prefix(numbers: &mut Numbers) -> PlainPrefix {
    PlainPrefix {
        bytes: [numbers.byte(), numbers.byte(), numbers.byte()],
        len: numbers.below(6),
    }
}

/// What a leaf holds.
#[derive(Clone, Copy, PartialEq, Eq, Debug)]
struct PlainLeaf {
    pair: ([u8; 2], u32),
    links: (Option<LeafPtr>, Option<LeafPtr>),
}

impl PlainLeaf {
    /// What this leaf holds.
    fn of(leaf: &LeafNode<[u8; 2], u32>) -> Self {
        PlainLeaf {
            pair: (leaf.key, leaf.value),
            links: (leaf.previous, leaf.next),
        }
    }
}

/// A length, and bytes of which as many are stored as there is room for.
#[derive(Clone, Copy)]
struct PlainPrefix {
    bytes: [u8; 3],
    len: usize,
}

impl PlainPrefix {
    /// The header of it.
    fn header(self) -> Header<3> {
        Header::new(&self.bytes, self.len)
    }
}

/// What an inner node holds: its prefix, and the child under each byte.
#[derive(Drop)]
struct PlainInner {
    prefix: PlainPrefix,
    children: [Option<OpaqueNodePtr>; 256],
}

// No child under any byte.
fn no_children() -> [Option<OpaqueNodePtr>; 256] {
    [None; 256]
}

// One of a list, where it has any.
fn drawn_of<'a, T>(numbers: &mut Numbers, listed: &'a mut [T]) -> Option<&'a mut T> {
    let at = numbers.place_in(listed.len())?;
    Some(&mut listed[at])
}

// The name that a placement gave, or the error without the node.
fn placed<N, T: Drop>(answer: Result<N, (T, AllocError)>) -> Result<N, AllocError> {
    match answer {
        Ok(name) => Ok(name),
        Err((_node, error)) => Err(error),
    }
}

// Whether a name is on a list.
fn is_listed<N: PartialEq + Copy, T>(listed: &[(N, T)], name: N) -> bool {
    for entry in listed {
        if entry.0 == name {
            return true;
        }
    }
    false
}

// Whether a node holds this.
fn is_like(node: InnerRef<'_, 3>, want: &PlainInner) -> bool {
    let PlainPrefix { bytes, len } = want.prefix;
    let mut children = node.iter();
    for byte in 0..=255u8 {
        if let Some(child) = want.children[byte as usize]
            && children.next() != Some((byte, child))
        {
            return false;
        }
    }
    let stored = &bytes[..len.min(3)];
    children.next().is_none() && node.prefix_len() == len && node.read_prefix() == stored
}

// Whether a child can be put under a byte of a node.
fn has_place(store: &Store, name: InnerPtr, byte: u8) -> bool
    ensures { IsTrue result → IsSomeAnd (map.get store.now.inners name) (λ node.
        HasPlace (kind_capacity name.kind) node.children byte) }
{
    match store.inner(name) {
        Some(node) => !node.is_full() || node.lookup_child(byte).is_some(),
        None => false,
    }
}

/// A store, and a list of the names that it returned with what should be under them. Each call returns whether the
/// store did as the list says, or None if it needs a listed name and there is none.
#[derive(Drop)]
struct Trial {
    store: Store,
    leaves: Vec<(LeafPtr, PlainLeaf)>,
    inners: Vec<(InnerPtr, PlainInner)>,
    numbers: Numbers,
}

impl Trial {
    /// A store without a node.
    fn new(alloc: Global) -> Self {
        Trial {
            store: Store::new(alloc),
            leaves: Vec::new(alloc),
            inners: Vec::new(alloc),
            numbers: Numbers::new(1),
        }
    }

    /// Places a leaf, under a name that is not on the list.
    fn place_leaf(&mut self) -> Result<bool, AllocError> {
        let (key, value) = drawn_pair(&mut self.numbers);
        let (previous, next) = (drawn_link(&mut self.numbers), drawn_link(&mut self.numbers));
        let leaf = LeafNode {
            key,
            value,
            previous,
            next,
        };
        let want = PlainLeaf::of(&leaf);
        let name = placed(self.store.place_leaf(leaf))?;
        let is_new = !is_listed(&self.leaves, name);
        self.leaves.push((name, want))?;
        Ok(is_new)
    }

    /// Places an inner node with no child, under a name of its kind that is not on the list.
    fn place_inner(&mut self, kind: NodeType) -> Result<bool, AllocError> {
        let prefix = drawn_prefix(&mut self.numbers);
        if kind == NodeType::Leaf {
            return Ok(false);
        }
        let node = AnyInner::from_header(kind, prefix.header());
        let name = placed(self.store.place_inner(node))?;
        let is_new = !is_listed(&self.inners, name);
        let children = no_children();
        self.inners.push((name, PlainInner { prefix, children }))?;
        Ok(is_new && name.kind == kind)
    }

    /// Frees a leaf, and compares it.
    fn free_leaf(&mut self) -> Option<bool> {
        let at = self.numbers.place_in(self.leaves.len())?;
        let (name, want) = self.leaves.remove(at);
        if self.store.leaf(name).is_none() {
            return Some(false);
        }
        Some(PlainLeaf::of(&self.store.free_leaf(name)) == want)
    }

    /// Frees an inner node, and compares it.
    fn free_inner(&mut self) -> Option<bool> {
        let at = self.numbers.place_in(self.inners.len())?;
        let (name, want) = self.inners.remove(at);
        if self.store.inner(name).is_none() {
            return Some(false);
        }
        let node = self.store.free_inner(name);
        Some(node.node_type() == name.kind && is_like(node.as_ref(), &want))
    }

    /// Sets the links of a leaf.
    fn set_links(&mut self) -> Option<bool> {
        let links = (drawn_link(&mut self.numbers), drawn_link(&mut self.numbers));
        let (name, want) = drawn_of(&mut self.numbers, &mut self.leaves)?;
        if self.store.leaf(*name).is_none() {
            return Some(false);
        }
        want.links = links;
        self.store.set_links(*name, links.0, links.1);
        Some(true)
    }

    /// Replaces the pair of a leaf, and compares what was replaced.
    fn swap_pair(&mut self) -> Option<bool> {
        let (key, value) = drawn_pair(&mut self.numbers);
        let (name, want) = drawn_of(&mut self.numbers, &mut self.leaves)?;
        if self.store.leaf(*name).is_none() {
            return Some(false);
        }
        let old = mem::replace(&mut want.pair, (key, value));
        Some(self.store.swap_pair(*name, key, value) == old)
    }

    /// Replaces the value of a leaf, and compares what was replaced.
    fn swap_value(&mut self) -> Option<bool> {
        let value = self.numbers.value();
        let (name, want) = drawn_of(&mut self.numbers, &mut self.leaves)?;
        if self.store.leaf(*name).is_none() {
            return Some(false);
        }
        let old = mem::replace(&mut want.pair.1, value);
        Some(self.store.swap_value(*name, value) == old)
    }

    /// Replaces the header of an inner node.
    fn set_header(&mut self) -> Option<bool> {
        let (name, want) = drawn_of(&mut self.numbers, &mut self.inners)?;
        want.prefix = drawn_prefix(&mut self.numbers);
        if self.store.inner(*name).is_none() {
            return Some(false);
        }
        self.store.set_header(*name, want.prefix.header());
        Some(true)
    }

    /// Sets some children of a node, if there is a place for them.
    fn write_children(&mut self) -> Option<bool> {
        let (name, want) = drawn_of(&mut self.numbers, &mut self.inners)?;
        for _ in 0..self.numbers.below(12) {
            let (byte, child) = (self.numbers.byte(), drawn_name(&mut self.numbers));
            if has_place(&self.store, *name, byte) {
                self.store.write_child(*name, byte, child);
                want.children[byte as usize] = Some(child);
            }
        }
        Some(true)
    }

    /// Removes some children from a node.
    fn remove_children(&mut self) -> Option<bool> {
        let (name, want) = drawn_of(&mut self.numbers, &mut self.inners)?;
        for _ in 0..self.numbers.below(60) {
            let byte = self.numbers.byte();
            if self.store.inner(*name).is_none() {
                return Some(false);
            }
            let removed = self.store.remove_child(*name, byte);
            if removed != want.children[byte as usize] {
                return Some(false);
            }
            want.children[byte as usize] = None;
        }
        Some(true)
    }

    /// Asks for a promise, which changes no node.
    fn reserve(&mut self) -> Result<bool, AllocError> {
        let leaves = self.numbers.below(20);
        let kind = drawn_kind(&mut self.numbers);
        if kind == NodeType::Leaf {
            return Ok(false);
        }
        let inner = if self.numbers.is_heads() {
            Some(kind)
        } else {
            None
        };
        self.store.reserve(leaves, inner)?;
        Ok(true)
    }

    /// One call. While the store is being filled seven of eight placements and frees are placements, else one.
    fn step(&mut self, is_filled: bool) -> Result<bool, AllocError> {
        let is_rare = self.numbers.below(8) == 0;
        let is_placement = is_filled != is_rare;
        let is_right = match self.numbers.below(9) {
            0 if is_placement => Some(self.place_leaf()?),
            0 => self.free_leaf(),
            1 if is_placement => {
                let kind = drawn_kind(&mut self.numbers);
                Some(self.place_inner(kind)?)
            }
            1 => self.free_inner(),
            2 | 3 => self.write_children(),
            4 => self.remove_children(),
            5 => self.set_links(),
            6 if is_rare => self.swap_pair(),
            6 => self.swap_value(),
            7 => self.set_header(),
            _ => Some(self.reserve()?),
        };
        Ok(is_right.unwrap_or(true))
    }

    /// Whether each listed name has what should be under it, and no other name has anything.
    fn is_as_listed(&self) -> bool {
        for (name, want) in &self.leaves {
            if self.store.leaf(*name).map(PlainLeaf::of) != Some(*want) {
                return false;
            }
        }
        for (name, want) in &self.inners {
            let Some(node) = self.store.inner(*name) else {
                return false;
            };
            if node.node_type() != name.kind || !is_like(node, want) {
                return false;
            }
        }
        count_nodes(&self.store, LAST_SLOT) == (self.leaves.len(), self.inners.len())
    }

    /// Makes the calls, and returns the number of the first one after which something is wrong.
    fn first_wrong_call(&mut self) -> Result<Option<usize>, AllocError> {
        for step in 0..STEPS {
            let is_right = self.step(step / 1_000 % 2 == 0)?;
            if !is_right || (step % 20 == 0 && !self.is_as_listed()) {
                return Ok(Some(step));
            }
        }
        Ok(None)
    }

    /// Frees all nodes, and returns whether each was right, whether none is left in the store and on the
    /// lists.
    fn free_all(&mut self) -> [bool; 3] {
        let mut all_right = true;
        for _ in 0..=LAST_SLOT {
            let freed = [self.free_leaf(), self.free_inner()];
            all_right = all_right && !freed.contains(&Some(false));
        }
        let is_empty = self.leaves.is_empty() && self.inners.is_empty();
        [all_right, self.is_as_listed(), is_empty]
    }

    /// Makes the calls and then frees all nodes, and returns the results of both.
    fn outcome(&mut self) -> Result<(Option<usize>, [bool; 3]), AllocError> {
        let wrong = self.first_wrong_call()?;
        Ok((wrong, self.free_all()))
    }
}

#[test]
fn mixed_calls_change_what_they_name(rt: HostRuntime) -> Result<(), Fail> {
    let outcome = Trial::new(rt.alloc()).outcome()?;
    same(outcome, (None, [true; 3]))
}
