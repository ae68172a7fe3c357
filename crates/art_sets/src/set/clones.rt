//! Cloning a set.
ghost use Rattle.std.specs.Prelude.{IfOk};
ghost use Rattle.std.specs.List.{AllZip};
ghost use Rattle.art_parts.specs.Keys.{KeepBytes};

use super::ByteSet;
use art_nodes::node::AsBytes;
use std::alloc::{AllocError, Global};

impl<K: AsBytes + Clone + Drop, const P: usize> ByteSet<K, P> {
    /// Returns a set with clones of all keys, in a store of its own. It fails only if an allocation fails, such as that
    /// of a node or of the clone of a key. It costs what `clone` of a `ByteMap` does.
    pub fn clone(&self) -> Result<Self, AllocError>
        requires { KeepBytes K.bytes K.is_clone }
        ensures { IfOk result (AllZip K.is_clone self.now) }
    {
        let map = self.map.clone()?;
        Ok(ByteSet { map })
    }
}

impl<K: AsBytes + Drop, const P: usize> ByteSet<K, P> {
    /// Returns the allocator of the set.
    pub fn allocator(&self) -> Global {
        self.map.allocator()
    }
}
