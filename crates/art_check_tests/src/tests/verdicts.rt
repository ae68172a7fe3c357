//! The flaws of a tree, found by a list of what is still to be looked at.

use art_nodes::node::{
    AsBytes, InnerPtr, InnerRef, LeafNode, LeafPtr, NodePtr, NodeType, OpaqueNodePtr,
    OptionalLeafPtr,
};
use art_nodes::store::NodeStore;
use std::alloc::{AllocError, Global};
use std::cmp::Ordering;

/// A flaw of a tree. The first bytes of each are those that lead to the node.
#[derive(Drop)]
pub enum Flaw {
    /// A name is met twice.
    Twice(OpaqueNodePtr, Vec<u8>, Vec<u8>),
    /// An inner node has so many children.
    Children(Vec<u8>, NodeType, usize),
    /// A leaf has another key than the bytes that lead to it.
    Key(Vec<u8>, Vec<u8>),
    /// The key of a sibling and that of a leaf are in another order than the first of these.
    Order(Vec<u8>, Vec<u8>, Ordering, Ordering),
    /// A leaf with this key should have the first links and has the second ones.
    Links(Vec<u8>, [OptionalLeafPtr; 2], [OptionalLeafPtr; 2]),
    /// There is no such node.
    NoNode(Vec<u8>, OpaqueNodePtr),
    /// A prefix can't be read.
    NoPrefix(Vec<u8>, OpaqueNodePtr),
    /// The first bytes are stored of a prefix that starts with the second ones.
    Stored(Vec<u8>, Vec<u8>, Vec<u8>),
}

/// What is found below a name.
#[derive(Drop)]
pub enum Verdict {
    /// A tree with so many leaves and inner nodes.
    Tree(usize, usize),
    /// The first flaw.
    Flawed(Flaw),
    /// The steps did not suffice.
    Unknown,
}

/// A pending step.
#[derive(Drop)]
enum Step {
    /// A look at the node that some bytes lead to.
    Look(OpaqueNodePtr, Vec<u8>),
    /// A look at how many children it has, once they were looked at.
    Count(Vec<u8>, NodeType, usize),
}

/// The traversal of a tree.
#[derive(Drop)]
struct Way {
    alloc: Global,
    most_steps: usize,
    // The next step is last.
    steps: Vec<Step>,
    met: Vec<(OpaqueNodePtr, Vec<u8>)>,
}

/// Looks for the first flaw below a name, in at most so many steps, of which each node takes two at most.
pub fn judge<K: AsBytes + Drop, V: Drop, const P: usize>(
    store: &NodeStore<K, V, P>,
    root: OpaqueNodePtr,
    most_steps: usize,
) -> Result<Verdict, AllocError> {
    let alloc = store.alloc();
    let mut way = Way {
        alloc,
        most_steps,
        steps: Vec::new(alloc),
        met: Vec::new(alloc),
    };
    way.steps.push(Step::Look(root, Vec::new(alloc)))?;
    way.go(store)
}

impl Way {
    /// Makes the steps, one after another, until a flaw is found.
    fn go<K: AsBytes + Drop, V: Drop, const P: usize>(
        &mut self,
        store: &NodeStore<K, V, P>,
    ) -> Result<Verdict, AllocError> {
        for _ in 0..self.most_steps {
            let Some(step) = self.steps.pop() else {
                return self.end(store);
            };
            if let Some(flaw) = self.make(store, step)? {
                return Ok(Verdict::Flawed(flaw));
            }
        }
        Ok(Verdict::Unknown)
    }

    /// Makes a step.
    fn make<K: AsBytes + Drop, V: Drop, const P: usize>(
        &mut self,
        store: &NodeStore<K, V, P>,
        step: Step,
    ) -> Result<Option<Flaw>, AllocError> {
        match step {
            Step::Look(name, place) => self.look(store, name, &place),
            Step::Count(place, kind, count) => Ok(count_flaw(place, kind, count)),
        }
    }

    /// Looks at the node that some bytes lead to.
    fn look<K: AsBytes + Drop, V: Drop, const P: usize>(
        &mut self,
        store: &NodeStore<K, V, P>,
        name: OpaqueNodePtr,
        place: &[u8],
    ) -> Result<Option<Flaw>, AllocError> {
        if let Some(first) = self.first_place(name) {
            let (first, later) = copies(self.alloc, first, place)?;
            return Ok(Some(Flaw::Twice(name, first, later)));
        }
        self.met.push((name, place.to_vec(self.alloc)?))?;
        self.look_at(store, name, place)
    }

    /// Returns the bytes that led to a name when it was met before.
    fn first_place(&self, name: OpaqueNodePtr) -> Option<&[u8]> {
        for (other, first) in &self.met {
            if *other == name {
                return Some(first.as_slice());
            }
        }
        None
    }

    /// Looks at the node under a name that was not met before.
    fn look_at<K: AsBytes + Drop, V: Drop, const P: usize>(
        &mut self,
        store: &NodeStore<K, V, P>,
        name: OpaqueNodePtr,
        place: &[u8],
    ) -> Result<Option<Flaw>, AllocError> {
        match name.split() {
            NodePtr::Leaf(leaf) => match store.leaf(leaf) {
                None => no_node(self.alloc, place, name),
                Some(node) => leaf_flaw(store, node, place),
            },
            NodePtr::Inner(inner) => match store.inner(inner) {
                None => no_node(self.alloc, place, name),
                Some(node) => self.look_below(store, inner, &node, place),
            },
        }
    }

    /// Reads the prefix of a node, and adds the steps below it.
    fn look_below<K: AsBytes + Drop, V: Drop, const P: usize>(
        &mut self,
        store: &NodeStore<K, V, P>,
        name: InnerPtr,
        node: &InnerRef<'_, P>,
        place: &[u8],
    ) -> Result<Option<Flaw>, AllocError> {
        let Some(prefix) = self.whole_prefix(store, name, node, place.len()) else {
            let place = place.to_vec(self.alloc)?;
            return Ok(Some(Flaw::NoPrefix(place, name.to_opaque())));
        };
        if let Some(flaw) = stored_flaw(self.alloc, place, node.read_prefix(), prefix)? {
            return Ok(Some(flaw));
        }
        self.add_steps(node, place, prefix)?;
        Ok(None)
    }

    /// Adds a step for each child of a node with this prefix, and one for their number.
    fn add_steps<const P: usize>(
        &mut self,
        node: &InnerRef<'_, P>,
        place: &[u8],
        prefix: &[u8],
    ) -> Result<(), AllocError> {
        let count = Step::Count(
            place.to_vec(self.alloc)?,
            node.node_type(),
            node.num_children(),
        );
        self.steps.push(count)?;
        for (byte, child) in node.iter().rev() {
            let way = way_below(self.alloc, place, prefix, byte)?;
            self.steps.push(Step::Look(child, way))?;
        }
        Ok(())
    }

    /// Returns the prefix of a node at a depth. None where it can't be read.
    fn whole_prefix<'a, K: AsBytes + Drop, V: Drop, const P: usize>(
        &self,
        store: &'a NodeStore<K, V, P>,
        name: InnerPtr,
        node: &'a InnerRef<'_, P>,
        depth: usize,
    ) -> Option<&'a [u8]> {
        let len = node.prefix_len();
        if len <= P {
            return Some(node.read_prefix());
        }
        bytes_of(store, self.least_leaf(store, name)?, depth, len)
    }

    /// Returns the least leaf below a node. None where the path to it ends, or takes too many steps.
    fn least_leaf<K: AsBytes + Drop, V: Drop, const P: usize>(
        &self,
        store: &NodeStore<K, V, P>,
        name: InnerPtr,
    ) -> Option<LeafPtr> {
        let mut name = name;
        for _ in 0..self.most_steps {
            let child = first_child(store, name)?;
            match child.split() {
                NodePtr::Leaf(leaf) => return Some(leaf),
                NodePtr::Inner(inner) => name = inner,
            }
        }
        None
    }

    /// Once each node was looked at: whether the leaves are linked in the order in which they were met.
    fn end<K: AsBytes + Drop, V: Drop, const P: usize>(
        &self,
        store: &NodeStore<K, V, P>,
    ) -> Result<Verdict, AllocError> {
        let leaves = self.leaves_met()?;
        let inners = self.met.len().saturating_sub(leaves.len());
        Ok(match links_flaw(store, &leaves)? {
            Some(flaw) => Verdict::Flawed(flaw),
            None => Verdict::Tree(leaves.len(), inners),
        })
    }

    /// Returns the leaves, in the order in which they were met.
    fn leaves_met(&self) -> Result<Vec<LeafPtr>, AllocError> {
        let mut leaves = Vec::new(self.alloc);
        for (name, _) in &self.met {
            if let NodePtr::Leaf(leaf) = name.split() {
                leaves.push(leaf)?;
            }
        }
        Ok(leaves)
    }
}

/// Returns the child under the least byte.
fn first_child<K: AsBytes + Drop, V: Drop, const P: usize>(
    store: &NodeStore<K, V, P>,
    name: InnerPtr,
) -> Option<OpaqueNodePtr> {
    let node = store.inner(name)?;
    if node.num_children() == 0 {
        return None;
    }
    Some(node.min().1)
}

/// Returns the bytes that lead to a child under a byte of a node with this prefix.
fn way_below(alloc: Global, place: &[u8], prefix: &[u8], byte: u8) -> Result<Vec<u8>, AllocError> {
    let mut way = place.to_vec(alloc)?;
    way.extend_from_slice(prefix)?;
    way.push(byte)?;
    Ok(way)
}

/// Returns the first bytes, so many or all.
fn front(bytes: &[u8], len: usize) -> &[u8] {
    match bytes.get(..len) {
        Some(part) => part,
        None => bytes,
    }
}

/// Returns so many bytes of a leaf's key from a depth on.
fn bytes_of<K: AsBytes + Drop, V: Drop, const P: usize>(
    store: &NodeStore<K, V, P>,
    leaf: LeafPtr,
    depth: usize,
    len: usize,
) -> Option<&[u8]> {
    let end = depth.checked_add(len)?;
    store.leaf(leaf)?.key.as_bytes().get(depth..end)
}

/// Returns whether a node has fewer or more children than its kind has.
fn count_flaw(place: Vec<u8>, kind: NodeType, count: usize) -> Option<Flaw> {
    let (least, most) = match kind {
        NodeType::Leaf => (0, 0),
        NodeType::Node4 => (2, 4),
        NodeType::Node16 => (5, 16),
        NodeType::Node48 => (17, 48),
        NodeType::Node256 => (49, 256),
    };
    if least <= count && count <= most {
        None
    } else {
        Some(Flaw::Children(place, kind, count))
    }
}

/// Returns copies of two lists of bytes.
fn copies(alloc: Global, first: &[u8], second: &[u8]) -> Result<(Vec<u8>, Vec<u8>), AllocError> {
    Ok((first.to_vec(alloc)?, second.to_vec(alloc)?))
}

/// That there is no node where these bytes lead to.
fn no_node(alloc: Global, place: &[u8], name: OpaqueNodePtr) -> Result<Option<Flaw>, AllocError> {
    Ok(Some(Flaw::NoNode(place.to_vec(alloc)?, name)))
}

/// Returns whether other bytes are stored of a prefix than those that it starts with.
fn stored_flaw(
    alloc: Global,
    place: &[u8],
    stored: &[u8],
    prefix: &[u8],
) -> Result<Option<Flaw>, AllocError> {
    let read = front(prefix, stored.len());
    if read == stored {
        return Ok(None);
    }
    let place = place.to_vec(alloc)?;
    let (stored, read) = copies(alloc, stored, read)?;
    Ok(Some(Flaw::Stored(place, stored, read)))
}

/// Returns whether a leaf has a key that starts with other bytes, or siblings that are not around it.
fn leaf_flaw<K: AsBytes + Drop, V: Drop, const P: usize>(
    store: &NodeStore<K, V, P>,
    node: &LeafNode<K, V>,
    place: &[u8],
) -> Result<Option<Flaw>, AllocError> {
    let key = node.key.as_bytes();
    if front(key, place.len()) != place {
        let (place, key) = copies(store.alloc(), place, key)?;
        return Ok(Some(Flaw::Key(place, key)));
    }
    let links = [
        (node.previous, Ordering::Less),
        (node.next, Ordering::Greater),
    ];
    for (link, wanted) in links {
        if let Some(name) = link
            && let Some(flaw) = sibling_flaw(store, (key, place), name, wanted)?
        {
            return Ok(Some(flaw));
        }
    }
    Ok(None)
}

/// Returns whether a leaf's sibling is missing, or is on the other side of it.
fn sibling_flaw<K: AsBytes + Drop, V: Drop, const P: usize>(
    store: &NodeStore<K, V, P>,
    (key, place): (&[u8], &[u8]),
    name: LeafPtr,
    wanted: Ordering,
) -> Result<Option<Flaw>, AllocError> {
    let Some(sibling) = store.leaf(name) else {
        return no_node(store.alloc(), place, name.to_opaque());
    };
    let other = sibling.key.as_bytes();
    let order = other.cmp(key);
    if order == wanted {
        return Ok(None);
    }
    let (other, key) = copies(store.alloc(), other, key)?;
    Ok(Some(Flaw::Order(other, key, wanted, order)))
}

/// Returns the first of these leaves that has other links than its neighbours here.
fn links_flaw<K: AsBytes + Drop, V: Drop, const P: usize>(
    store: &NodeStore<K, V, P>,
    leaves: &[LeafPtr],
) -> Result<Option<Flaw>, AllocError> {
    let mut previous = None;
    for at in 0..leaves.len() {
        let wanted = [previous, leaves.get(at + 1).copied()];
        if let Some(node) = store.leaf(leaves[at])
            && let Some(flaw) = link_flaw(store.alloc(), node, wanted)?
        {
            return Ok(Some(flaw));
        }
        previous = Some(leaves[at]);
    }
    Ok(None)
}

/// Returns whether a leaf has other links than these.
fn link_flaw<K: AsBytes + Drop, V: Drop>(
    alloc: Global,
    node: &LeafNode<K, V>,
    wanted: [OptionalLeafPtr; 2],
) -> Result<Option<Flaw>, AllocError> {
    let links = [node.previous, node.next];
    if links == wanted {
        return Ok(None);
    }
    let key = node.key.as_bytes().to_vec(alloc)?;
    Ok(Some(Flaw::Links(key, wanted, links)))
}
