//! What the tests of insertions and of deletions share.
ghost use Rattle.std.specs.Prelude.{IfSome};
ghost use Rattle.art_model.specs.Pairs.{of_key};
ghost use Rattle.art_model.specs.Roots.{IsCanonicalRoot};

use crate::trees::{Key, keys_after, planted_keys};
use art_node_support::expected::as_expected;
use art_nodes::node::OpaqueNodePtr;
use art_nodes::store::NodeStore;
use std::fmt::Debug;
use std::test::Fail;

/// Returns the tree of so many keys of one byte: 0, 1 and so on, each with its byte as its value.
pub fn planted_bytes<const P: usize>(
    store: &mut NodeStore<Key, u32, P>,
    count: u16,
) -> Option<OpaqueNodePtr>
    ensures { IfSome result (λ root. IsCanonicalRoot (of_key (λ key. key.items)) P store.new root) }
{
    let all = keys_after(store.alloc(), &[], count).ok()?;
    planted_keys(store, all)
}

/// Four keys. The first two part at their third byte, these and the third at their second one.
pub static FOUR: [&[u8]; 4] = [&[1, 2, 3], &[1, 2, 4], &[1, 5], &[6]];

/// Returns a failure if an allocation failure left something else than was expected. If there was one, it is reported.
pub fn assert_where_refused<T: PartialEq + Debug + Copy>(
    rt: &impl Print,
    left: Option<T>,
    expected: T,
) -> Result<(), Fail> {
    if let Some(left) = left {
        as_expected(Some((left, expected)))?;
        println!(rt; "asserted")?;
    }
    Ok(())
}
