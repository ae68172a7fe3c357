//! Trees for tests, made by runs of insertions.
ghost use Rattle.std.specs.Prelude.{◌≢◌, IfOk, IfSome};
ghost use Rattle.art_parts.specs.declared.names.NodeType.TheVariants.{Leaf};
ghost use Rattle.art_parts.specs.Keys.{KeepBytes};
ghost use Rattle.art_model.specs.Pairs.{of_key};
ghost use Rattle.art_model.specs.Roots.{IsCanonicalRoot};

pub use art_node_support::nodes::Key;
use art_nodes::node::{AsBytes, LeafPtr, NodeType, OpaqueNodePtr};
use art_nodes::store::NodeStore;
use art_running::run::{Command, Side, run};
use std::alloc::{AllocError, Global};
use std::test::Fail;

/// Allocates room for leaves and an inner node outside a tree.
pub fn promise<K: AsBytes + Drop, const P: usize>(
    store: &mut NodeStore<K, u32, P>,
    root: OpaqueNodePtr,
    leaves: usize,
    kind: NodeType,
) -> Result<(), AllocError>
    requires inner { kind ≢ Leaf }
    requires canonical { IsCanonicalRoot (of_key K.bytes) P store.old root }
    ensures { IsCanonicalRoot (of_key K.bytes) P store.new root }
{
    store.reserve(leaves, Some(kind))
}

/// Returns the tree of these keys, with the place of each among them as its value, or `None` where there is no key. The
/// second store is for the run alone.
pub fn planted<K: AsBytes + Clone + Drop, const P: usize>(
    store: &mut NodeStore<K, u32, P>,
    second: &mut NodeStore<K, u32, P>,
    keys: Vec<K>,
) -> Result<Option<OpaqueNodePtr>, AllocError>
    requires { KeepBytes K.bytes K.is_clone }
    ensures { IfOk result (λ root.
        IfSome root (λ root. IsCanonicalRoot (of_key K.bytes) P store.new root)) }
{
    let asked = insertions(store.alloc(), keys)?;
    match run(store, second, None, asked) {
        Ok(done) => match done.side {
            Side::First => Ok(done.root),
            Side::Second => Err(AllocError),
        },
        Err((_, error)) => Err(error),
    }
}

// The insertions of these keys, with the place of each among them as its value.
fn insertions<K: Drop>(alloc: Global, keys: Vec<K>) -> Result<Vec<Command<K, u32>>, AllocError> {
    let mut commands = Vec::new(alloc);
    let mut value = 0u32;
    for key in keys {
        commands.push(Command::Insert(key, value))?;
        value = value.wrapping_add(1);
    }
    Ok(commands)
}

/// Returns copies of these keys.
pub fn keys(alloc: Global, slices: &[&[u8]]) -> Result<Vec<Key>, AllocError> {
    let mut keys = Vec::new(alloc);
    for slice in slices {
        keys.push(slice.to_vec(alloc)?)?;
    }
    Ok(keys)
}

/// Returns so many keys: some bytes and then one of 0, 1 and so on.
pub fn keys_after(alloc: Global, front: &[u8], count: u16) -> Result<Vec<Key>, AllocError> {
    let mut keys = Vec::new(alloc);
    for number in 0..count {
        let mut key = front.to_vec(alloc)?;
        key.push(number.to_le_bytes()[0])?;
        keys.push(key)?;
    }
    Ok(keys)
}

/// Twelve keys: so many zeros from none to eleven, and then 255.
pub fn keys_of_zeros(alloc: Global) -> Result<Vec<Key>, AllocError> {
    let mut keys = Vec::new(alloc);
    for count in 0..12usize {
        let mut key = Vec::new(alloc);
        for _ in 0..count {
            key.push(0)?;
        }
        key.push(255)?;
        keys.push(key)?;
    }
    Ok(keys)
}

/// The same as `planted`, with a second store of its own.
pub fn try_planted_keys<const P: usize>(
    store: &mut NodeStore<Key, u32, P>,
    all: Vec<Key>,
) -> Result<Option<OpaqueNodePtr>, AllocError>
    ensures { IfOk result (λ root.
        IfSome root (λ root. IsCanonicalRoot (of_key (λ key. key.items)) P store.new root)) }
{
    let alloc = store.alloc();
    planted(store, &mut NodeStore::new(alloc), all)
}

/// Returns the tree of these keys, or `None` if there is no key or an allocation fails.
pub fn planted_keys<const P: usize>(
    store: &mut NodeStore<Key, u32, P>,
    all: Vec<Key>,
) -> Option<OpaqueNodePtr>
    ensures { IfSome result (λ root. IsCanonicalRoot (of_key (λ key. key.items)) P store.new root) }
{
    try_planted_keys(store, all).ok()?
}

/// The same with copies of these keys.
pub fn planted_all<const P: usize>(
    store: &mut NodeStore<Key, u32, P>,
    slices: &[&[u8]],
) -> Result<Option<OpaqueNodePtr>, AllocError>
    ensures { IfOk result (λ root.
        IfSome root (λ root. IsCanonicalRoot (of_key (λ key. key.items)) P store.new root)) }
{
    let all = keys(store.alloc(), slices)?;
    try_planted_keys(store, all)
}

/// All keys of three bytes, each byte less than its limit.
pub fn keys_of_three(alloc: Global, limits: [u8; 3]) -> Result<Vec<Key>, Fail> {
    let mut keys = Vec::new(alloc);
    for a in 0..limits[0] {
        for b in 0..limits[1] {
            for c in 0..limits[2] {
                keys.push([a, b, c].to_vec(alloc)?)?;
            }
        }
    }
    Ok(keys)
}

/// Returns the child of an inner node under a byte.
pub fn child<K: AsBytes + Drop, const P: usize>(
    store: &NodeStore<K, u32, P>,
    node: OpaqueNodePtr,
    byte: u8,
) -> Option<OpaqueNodePtr> {
    store.inner(node.as_inner()?)?.lookup_child(byte)
}

/// Returns the value of a leaf.
pub fn value_of<K: AsBytes + Drop, const P: usize>(
    store: &NodeStore<K, u32, P>,
    leaf: LeafPtr,
) -> Option<u32> {
    Some(store.leaf(leaf)?.value)
}
