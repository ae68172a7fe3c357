//! The child next to a byte that has none, at a node of each kind.
use art_node_support::expected::same;
use art_nodes::node::{AnyInner, Header, InnerRef, NodeType, OpaqueNodePtr};
use std::test::Fail;

// The child that is set under a byte, with the byte.
fn child(byte: u8) -> (u8, OpaqueNodePtr) {
    (byte, OpaqueNodePtr::from_parts(NodeType::Leaf, byte as u32))
}

// The child next to a byte, if the node has children and none under the byte.
fn beside(node: InnerRef<'_, 4>, byte: u8) -> Option<(u8, OpaqueNodePtr)> {
    if node.num_children() == 0 || node.lookup_child(byte).is_some() {
        return None;
    }
    Some(node.beside(byte))
}

// What is next to the least byte, two between the children, and the greatest byte, at a node of a kind with children
// under 10, 20 and 200.
fn beside_each(kind: NodeType) -> [Option<(u8, OpaqueNodePtr)>; 4] {
    if kind == NodeType::Leaf {
        return [None; 4];
    }
    let mut any: AnyInner<4> = AnyInner::from_header(kind, Header::new(&[], 0));
    for byte in [200, 10, 20] {
        if any.as_ref().is_full() {
            return [None; 4];
        }
        any.write_child(byte, child(byte).1);
    }
    let node = any.as_ref();
    [
        beside(node, 0),
        beside(node, 15),
        beside(node, 22),
        beside(node, 255),
    ]
}

// The children that are set under these bytes.
fn children(bytes: [u8; 4]) -> [Option<(u8, OpaqueNodePtr)>; 4] {
    [
        Some(child(bytes[0])),
        Some(child(bytes[1])),
        Some(child(bytes[2])),
        Some(child(bytes[3])),
    ]
}

// A node that keeps its children in order returns the next one above, or else the last; one with a
// place for each byte the nearest, and the lower of two as near.
#[test]
fn finds_the_child_beside_a_byte(rt: HostRuntime) -> Result<(), Fail> {
    let found = [
        beside_each(NodeType::Node4),
        beside_each(NodeType::Node16),
        beside_each(NodeType::Node48),
        beside_each(NodeType::Node256),
    ];
    let in_order = children([10, 20, 200, 200]);
    let nearest = children([10, 10, 20, 200]);
    same(found, [in_order, in_order, nearest, nearest])
}
