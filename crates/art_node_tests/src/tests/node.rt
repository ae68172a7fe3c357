use art_node_support::expected::same;
use art_nodes::node::{
    AnyInner, AsBytes, Children, FromHeader, Header, InnerNode, InnerNode4, InnerNode16,
    InnerNode48, InnerNodeDirect, InnerPtr, InnerRef, LeafNode, LeafPtr, NodePtr, NodeType,
    OpaqueNodePtr,
};
use std::alloc::{AllocError, Global};
use std::test::Fail;

// The name under a byte.
fn name(byte: u8) -> OpaqueNodePtr {
    OpaqueNodePtr::from_parts(NodeType::Leaf, byte as u32)
}

// Whether a key has these bytes.
fn has_bytes<K: AsBytes + Drop>(key: K, bytes: &[u8]) -> bool {
    key.as_bytes() == bytes
}

#[test]
fn reads_key_bytes(rt: HostRuntime) -> Result<(), Fail> {
    let alloc = rt.alloc();
    let bytes: &[u8] = &[97, 98];
    let seen = [
        has_bytes(bytes.to_vec(alloc)?, bytes),
        has_bytes(bytes.to_vec(alloc)?.into_boxed_slice(), bytes),
        has_bytes([97, 98], bytes),
        has_bytes(String::from_str(alloc, "ab")?, bytes),
    ];
    same(seen, [true; 4])
}

// Whether a name prints so, and whether it does so after `split`.
fn prints_as(alloc: Global, name: OpaqueNodePtr, text: &str) -> Result<[bool; 2], AllocError> {
    let whole = name.to_string(alloc)?.as_str() == text;
    let part = match name.split() {
        NodePtr::Leaf(leaf) => leaf.to_string(alloc)?,
        NodePtr::Inner(inner) => inner.to_string(alloc)?,
    };
    Ok([whole, part.as_str() == text])
}

#[test]
fn prints_names(rt: HostRuntime) -> Result<(), Fail> {
    let wanted = [
        (NodeType::Leaf, 0, "Leaf#0"),
        (NodeType::Node4, 7, "Node4#7"),
        (NodeType::Node16, 3, "Node16#3"),
        (NodeType::Node48, 1, "Node48#1"),
        (NodeType::Node256, 2, "Node256#2"),
    ];
    for (kind, slot, text) in wanted {
        let name = OpaqueNodePtr::from_parts(kind, slot);
        same(
            (text, prints_as(rt.alloc(), name, text)?),
            (text, [true; 2]),
        )?;
    }
    Ok(())
}

// What the name of an inner node is, after `split`.
fn told_apart(name: InnerPtr) -> (Option<LeafPtr>, Option<InnerPtr>, bool) {
    let opaque = name.to_opaque();
    let is_same = opaque.split() == NodePtr::Inner(name);
    (opaque.as_leaf(), opaque.as_inner(), is_same)
}

#[test]
fn tells_inner_names_apart() -> Result<(), Fail> {
    let inner = InnerPtr::from_parts(NodeType::Node48, 5);
    let leaf = InnerPtr::from_parts(NodeType::Leaf, 5);
    same(
        (inner.map(told_apart), leaf.is_none()),
        (Some((None, inner, true)), true),
    )
}

#[test]
fn knows_each_range(rt: HostRuntime) -> Result<(), Fail> {
    let ranges = [
        NodeType::Node4.capacity_range(),
        NodeType::Node16.capacity_range(),
        NodeType::Node48.capacity_range(),
        NodeType::Node256.capacity_range(),
    ];
    same(ranges, [2..=4, 5..=16, 17..=48, 49..=256])
}

// The name of the leaf in a slot.
fn leaf_in(slot: u32) -> Option<LeafPtr> {
    Some(LeafPtr::from_slot(slot))
}

#[test]
fn makes_a_leaf() -> Result<(), Fail> {
    let mut leaf = LeafNode::with_no_siblings([1, 2, 3], 7u32);
    let matches = [
        leaf.matches_full_key(&[1, 2, 3]),
        leaf.matches_full_key(&[1, 2]),
        leaf.matches_full_key(&[1, 2, 4]),
    ];
    leaf.previous = leaf_in(1);
    leaf.next = leaf_in(2);
    let copied = match leaf.clone_without_siblings() {
        Ok(copy) => {
            let key = copy.key;
            Some((key, copy.value, copy.previous, copy.next))
        }
        Err(_) => None,
    };
    same(
        (leaf.key_ref()[2], *leaf.value_ref(), matches, copied),
        (3, 7, [true, false, false], Some(([1, 2, 3], 7, None, None))),
    )
}

// Whether a prefix has this length, and whether these of its bytes are stored.
fn reads_as<const P: usize>(header: Header<P>, len: usize, stored: &[u8]) -> [bool; 2] {
    [header.prefix_len() == len, header.read_prefix() == stored]
}

#[test]
fn stores_the_front_of_a_prefix(rt: HostRuntime) -> Result<(), Fail> {
    let bytes = [7, 1, 1, 1, 5];
    let seen = [
        reads_as(Header::<0>::new(&bytes, 5), 5, &[]),
        reads_as(Header::<2>::new(&bytes, 5), 5, &[7, 1]),
        reads_as(Header::<16>::new(&bytes, 5), 5, &bytes),
    ];
    same(seen, [[true; 2]; 3])
}

#[test]
fn trims_a_prefix_by_a_leaf(rt: HostRuntime) -> Result<(), Fail> {
    let key = [9, 7, 1, 1, 1, 5, 6, 0];
    let prefix = [7, 1, 1, 1, 5, 6];
    let mut nothing = Header::<0>::new(&prefix, 6);
    nothing.ltrim_by_with_leaf(2, 1, &key);
    let mut front = Header::<2>::new(&prefix, 6);
    front.ltrim_by_with_leaf(3, 1, &key);
    let seen = [reads_as(nothing, 4, &[]), reads_as(front, 3, &[1, 5])];
    same(seen, [[true; 2]; 2])
}

#[test]
fn changes_a_prefix() -> Result<(), Fail> {
    let mut header = Header::<2>::new(&[1, 2], 2);
    header.ltrim_by(1);
    let trimmed = (header.prefix_len(), header.read_prefix() == [2].as_slice());
    header.push_prefix(&[3, 4], 4);
    let pushed = (
        header.prefix_len(),
        header.read_prefix() == [2, 3].as_slice(),
    );
    let cleared = header.clear_prefix();
    same(
        (trimmed, pushed, cleared, header.prefix_len()),
        ((1, true), (5, true), ([2, 3], 5, 2), 0),
    )
}

// Whether these children are returned, each under its own name, and then none from either side.
fn are_children(mut children: Children<'_>, bytes: &[u8]) -> bool {
    let counts = (children.len(), children.size_hint());
    for byte in bytes {
        if children.next() != Some((*byte, name(*byte))) {
            return false;
        }
    }
    let rest = (children.next(), children.next_back());
    counts == (bytes.len(), (bytes.len(), Some(bytes.len()))) && rest == (None, None)
}

// Whether children are under the bytes from 0 on, each under its own name.
fn count_up(children: Children<'_>) -> bool {
    let mut next = Some(0u8);
    for (byte, child) in children {
        if (Some(byte), child) != (next, name(byte)) {
            return false;
        }
        next = byte.checked_add(1);
    }
    true
}

// Sets a child under each byte from a last one down to 0; returns whether the node was full too early.
fn fill<N: InnerNode<4>>(node: &mut N, last: u8) -> bool {
    for byte in (0..=last).rev() {
        if node.is_full() {
            return true;
        }
        node.write_child(byte, name(byte));
    }
    false
}

// The bytes of the least and the greatest child.
fn ends<N: InnerNode<4>>(node: &N) -> Option<[u8; 2]> {
    if node.num_children() == 0 {
        return None;
    }
    Some([node.min().0, node.max().0])
}

// Whether a node with a child under each byte up to this one is read so.
fn is_filled<N: InnerNode<4>>(node: &N, last: u8) -> bool {
    node.is_full()
        && ends(node) == Some([0, last])
        && node.lookup_child(last) == Some(name(last))
        && count_up(node.iter())
}

// Whether the ranges of such a node are right: in the middle, past the last, of none.
fn are_ranges<N: InnerNode<4>>(node: &N, last: u8) -> bool {
    are_children(node.range(1, 2), &[1, 2])
        && are_children(node.range(last, 255), &[last])
        && are_children(node.range(2, 1), &[])
}

// Sets another child under 0, and returns what is then there.
fn replace<N: InnerNode<4>>(node: &mut N) -> Option<OpaqueNodePtr> {
    node.lookup_child(0)?;
    node.write_child(0, name(7));
    node.lookup_child(0)
}

// Removes the child under 2 twice, and returns what each call returned, and how many there are.
fn remove_twice<N: InnerNode<4>>(node: &mut N) -> ([Option<OpaqueNodePtr>; 2], usize) {
    let removed = [node.remove_child(2), node.remove_child(2)];
    (removed, node.num_children())
}

// Whether a node of a kind, which has room for children up to this byte, returns what it should from its first child to
// its last, and as it changes.
fn live<N: InnerNode<4>>(last: u8) -> [bool; 6] {
    let mut node = N::from_header(Header::new(&[9], 1));
    [
        !fill(&mut node, last),
        is_filled(&node, last),
        are_ranges(&node, last),
        replace(&mut node) == Some(name(7)),
        remove_twice(&mut node) == ([Some(name(2)), None], last as usize),
        node.into_any().node_type() == N::TYPE,
    ]
}

#[test]
fn holds_as_many_as_its_kind() -> Result<(), Fail> {
    let lives = [
        live::<InnerNode4<4>>(3),
        live::<InnerNode16<4>>(15),
        live::<InnerNode48<4>>(47),
        live::<InnerNodeDirect<4>>(255),
    ];
    same(lives, [[true; 6]; 4])
}

// Whether a node of any kind with the children 0, 20 and 255 is read so.
fn is_read(node: InnerRef<'_, 4>) -> bool {
    node.num_children() == 3
        && (node.min().0, node.max().0) == (0, 255)
        && node.lookup_child(20) == Some(name(20))
        && are_children(node.range(1, 254), &[20])
}

// Adds three children to a node, unless it is full before.
fn put_three(any: &mut AnyInner<4>) -> bool {
    for byte in [20, 255, 0] {
        if any.as_ref().is_full() {
            return false;
        }
        any.write_child(byte, name(byte));
    }
    true
}

// Makes a node of a kind, and returns its kind, whether there was room for three, and whether these and another prefix
// are read then.
fn made(kind: NodeType) -> Option<(NodeType, bool, bool, [bool; 2])> {
    if kind == NodeType::Leaf {
        return None;
    }
    let mut any: AnyInner<4> = AnyInner::from_header(kind, Header::new(&[9], 1));
    let has_room = put_three(&mut any);
    any.set_header(Header::new(&[4, 5], 2));
    let prefix = reads_as(any.as_ref().header(), 2, &[4, 5]);
    Some((any.node_type(), has_room, is_read(any.as_ref()), prefix))
}

#[test]
fn reads_a_node_of_any_kind() -> Result<(), Fail> {
    let kinds = [
        NodeType::Node4,
        NodeType::Node16,
        NodeType::Node48,
        NodeType::Node256,
    ];
    for kind in kinds {
        same(made(kind), Some((kind, true, true, [true; 2])))?;
    }
    Ok(())
}

// A node of the next larger kind, where this one is full and not of the largest.
fn grow_where_full(any: AnyInner<4>) -> AnyInner<4> {
    if any.as_ref().is_full() && any.node_type() != NodeType::Node256 {
        any.grow()
    } else {
        any
    }
}

// A node of the next smaller kind, where the children fit into it.
fn shrink_where_it_fits(any: AnyInner<4>) -> AnyInner<4> {
    match any {
        AnyInner::Node16(node) if node.num_children() <= 4 => node.shrink(),
        AnyInner::Node48(node) if node.num_children() <= 16 => node.shrink(),
        AnyInner::Node256(node) if node.num_children() <= 48 => node.shrink(),
        any => any,
    }
}

// Whether a node with this number of children from 0 on is as it should be.
fn is_of_count(any: &AnyInner<4>, count: usize) -> bool {
    let kind = match count {
        0..=4 => NodeType::Node4,
        5..=16 => NodeType::Node16,
        17..=48 => NodeType::Node48,
        _ => NodeType::Node256,
    };
    let node = any.as_ref();
    let prefix = reads_as(node.header(), 1, &[9]);
    let seen = (any.node_type(), prefix, node.num_children());
    seen == (kind, [true; 2], count) && count_up(node.iter())
}

// Sets a child under each byte from 0 on, and returns the node and how often it was as it should be.
fn grown() -> (AnyInner<4>, usize) {
    let mut any: AnyInner<4> = AnyInner::from_header(NodeType::Node4, Header::new(&[9], 1));
    let mut right = 0usize;
    for byte in 0..=255 {
        any = grow_where_full(any);
        if any.as_ref().is_full() {
            break;
        }
        any.write_child(byte, name(byte));
        if is_of_count(&any, byte as usize + 1) {
            right = right.saturating_add(1);
        }
    }
    (any, right)
}

// Removes the children from the last one on, each once and then once more; returns how often the results and the node
// were as they should be.
fn emptied(full: AnyInner<4>) -> usize {
    let mut any = full;
    let mut right = 0usize;
    for byte in (0..=255).rev() {
        let removed = [any.remove_child(byte), any.remove_child(byte)];
        any = shrink_where_it_fits(any);
        if removed == [Some(name(byte)), None] && is_of_count(&any, byte as usize) {
            right = right.saturating_add(1);
        }
    }
    right
}

// A node with a child under each byte from 0 on grows when it is full, and shrinks once it fits.
#[test]
fn grows_and_shrinks_at_each_bound(rt: HostRuntime) -> Result<(), Fail> {
    let (full, growths) = grown();
    same((growths, emptied(full)), (256, 256))
}

// A node with a child under each of these bytes, as far as it has room.
fn node_with<N: InnerNode<4>>(node: N, bytes: &[u8]) -> N {
    let mut node = node;
    for byte in bytes {
        if node.is_full() {
            return node;
        }
        node.write_child(*byte, name(*byte));
    }
    node
}

// The child under a byte, by a search of all children.
fn searched<N: InnerNode<4>>(node: &N, byte: u8) -> Option<OpaqueNodePtr> {
    for (other, child) in node.iter() {
        if other == byte {
            return Some(child);
        }
    }
    None
}

// How many bytes a node looks up as that search does.
fn count_agreed<N: InnerNode<4>>(node: &N) -> usize {
    let mut agreed = 0usize;
    for byte in 0..=255u8 {
        if node.lookup_child(byte) == searched(node, byte) {
            agreed = agreed.saturating_add(1);
        }
    }
    agreed
}

// Rising bytes, with gaps.
static BYTES: [u8; 16] = [
    0, 1, 10, 20, 30, 40, 50, 60, 100, 127, 128, 129, 200, 201, 254, 255,
];

// The same of a Node16 with none of these children, with the first, and so on, all in all.
fn count_agreed_by_number() -> usize {
    let mut agreed = 0usize;
    for count in 0..=BYTES.len() {
        let node = InnerNode16::<4>::from_header(Header::new(&[], 0));
        agreed = agreed.saturating_add(count_agreed(&node_with(node, &BYTES[..count])));
    }
    agreed
}

// What a Node16 of six children has under the last byte, after that child was removed, under none of the bytes, and
// under the fifth.
fn looked_up_after_removal() -> [Option<OpaqueNodePtr>; 3] {
    let node = InnerNode16::<4>::from_header(Header::new(&[], 0));
    let mut node = node_with(node, &[10, 20, 30, 40, 50, 60]);
    node.remove_child(60);
    [
        node.lookup_child(60),
        node.lookup_child(0),
        node.lookup_child(50),
    ]
}

#[test]
fn looks_children_up_by_lanes() -> Result<(), Fail> {
    same(
        (looked_up_after_removal(), count_agreed_by_number()),
        ([None, None, Some(name(50))], 17 * 256),
    )
}

// Whether there is a child under 0, 5 and so on up to 235, each under its own name.
fn are_by_fives(children: Children<'_>) -> bool {
    let mut next = 0u8;
    for (byte, child) in children {
        if (byte, child) != (next, name(next)) {
            return false;
        }
        next = next.wrapping_add(5);
    }
    next == 240
}

// A Node48 with these children.
fn node_by_fives() -> InnerNode48<4> {
    let mut node = InnerNode48::<4>::from_header(Header::new(&[], 0));
    for number in 0..48u8 {
        if node.is_full() {
            return node;
        }
        let byte = number.wrapping_mul(5);
        node.write_child(byte, name(byte));
    }
    node
}

// Whether its children are right, before one is removed and after it is added again.
fn removed_and_added() -> [bool; 2] {
    let mut node = node_by_fives();
    let before = are_by_fives(node.iter());
    node.remove_child(100);
    if !node.is_full() {
        node.write_child(100, name(100));
    }
    [before, are_by_fives(node.iter())]
}

#[test]
fn a_child_comes_back_in_its_order() -> Result<(), Fail> {
    same(removed_and_added(), [true; 2])
}
