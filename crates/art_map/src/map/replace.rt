//! Replacing the pair with an equal key.
ghost use Rattle.std.specs.Prelude.{◌≡◌, false, IfErr, IfOk, OnErr, OnOk};
ghost use Rattle.art_model.specs.Pairs.{first_of, is_conflict, of_key, replace_key, with_key};
ghost use Rattle.art_changing.specs.MapAnswers.{IsRefusalOf};
ghost use Rattle.art_map.specs.MapChanges.{HasReplaced};
ghost use Rattle.art_changing.specs.MapPairs.{HoldsPairs, pairs_at};

use super::position::{Position, enter, position_of};
use super::{ByteMap, MapInsertError};
use art_nodes::node::{AsBytes, OpaqueNodePtr};
use art_nodes::store::NodeStore;

impl<K: AsBytes + Drop, V: Drop, const P: usize> ByteMap<K, V, P> {
    /// Inserts a pair in place of the one with an equal key, which is returned; `None` if there is none. Both keys have
    /// the same bytes. Errors and cost are those of `insert`.
    pub fn replace(&mut self, key: K, value: V) -> Result<Option<(K, V)>, MapInsertError<K, V>>
        ensures pairs { OnOk result
            (self.new ≡ replace_key (of_key K.bytes) (key, value) self.old) }
        ensures replaced { IfOk result (λ replaced.
            replaced ≡ first_of (with_key (of_key K.bytes) (K.bytes key) self.old)) }
        ensures accepted { OnOk result
            (is_conflict (of_key K.bytes) (K.bytes key) self.old ≡ false) }
        ensures refused { IfErr result (IsRefusalOf K.bytes key value self.old) }
        ensures kept { OnErr result (self.new ≡ self.old) }
    {
        replace_in(&mut self.store, &mut self.root, &mut self.len, key, value)
    }
}

// Inserts a pair into the tree, in place of the one with an equal key.
fn replace_in<K: AsBytes + Drop, V: Drop, const P: usize>(
    store: &mut NodeStore<K, V, P>,
    root: &mut Option<OpaqueNodePtr>,
    len: &mut usize,
    key: K,
    value: V,
) -> Result<Option<(K, V)>, MapInsertError<K, V>>
    requires { HoldsPairs (of_key K.bytes) P store.old root.old len.old
        (pairs_at store.old root.old) }
    ensures { HasReplaced K.bytes P (pairs_at store.old root.old) key value result
        store.new root.new len.new }
{
    let position = position_of(store, *root, key.as_bytes());
    if let Position::Leaf(leaf) = position {
        return Ok(Some(store.swap_pair(leaf, key, value)));
    }
    match enter(store, root, len, position, key, value) {
        Ok(_) => Ok(None),
        Err(error) => Err(error),
    }
}
