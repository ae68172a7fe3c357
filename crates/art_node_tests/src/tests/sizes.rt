//! How many bytes a node takes in its slab.
use art_node_support::expected::same;
use art_nodes::node::{
    InnerNode4, InnerNode16, InnerNode48, InnerNodeDirect, LeafNode, OpaqueNodePtr, OptionalLeafPtr,
};
use std::mem::size_of;
use std::test::Fail;

// What a slab keeps in a slot: a value, or the number of the next free slot.
enum Slot<T> {
    Free(usize),
    Used(T),
}

#[test]
fn names_and_links_take_eight_bytes(_rt: HostRuntime) -> Result<(), Fail> {
    same(
        [size_of::<OpaqueNodePtr>(), size_of::<OptionalLeafPtr>()],
        [8, 8],
    )
}

#[test]
fn leaves_are_no_larger_than_their_pairs_and_links(_rt: HostRuntime) -> Result<(), Fail> {
    let sizes = [
        size_of::<Slot<LeafNode<Vec<u8>, u64>>>(),
        size_of::<Slot<LeafNode<[u8; 4], u32>>>(),
    ];
    same(sizes, [56, 32])
}

#[test]
fn inner_nodes_have_no_room_to_spare(_rt: HostRuntime) -> Result<(), Fail> {
    let sizes = [
        size_of::<Slot<InnerNode4<16>>>(),
        size_of::<Slot<InnerNode16<16>>>(),
        size_of::<Slot<InnerNode48<16>>>(),
        size_of::<Slot<InnerNodeDirect<16>>>(),
    ];
    same(sizes, [56, 128, 536, 1320])
}

#[test]
fn a_shorter_prefix_takes_fewer_bytes(_rt: HostRuntime) -> Result<(), Fail> {
    same(
        [
            size_of::<Slot<InnerNode4<4>>>(),
            size_of::<Slot<InnerNode16<4>>>(),
        ],
        [48, 120],
    )
}
