//! Keys that can be distinguished although they are equal.
ghost use Rattle.std.specs.Prelude.{◌≡◌};

use art_nodes::node::AsBytes;
use std::alloc::AllocError;

/// A key with a tag that its bytes don't contain.
#[derive(PartialEq, Eq, Debug, Drop)]
pub struct Tagged {
    pub bytes: Vec<u8>,
    pub tag: u32,
}

impl AsBytes for Tagged {
    ghost bytes = { λ key. key.bytes.items };

    fn as_bytes(&self) -> &[u8] {
        self.bytes.as_slice()
    }
}

impl Clone for Tagged {
    ghost is_clone = { λ key copy. copy.bytes.items ≡ key.bytes.items };

    fn clone(&self) -> Result<Self, AllocError> {
        let bytes = self.bytes.clone()?;
        Ok(Tagged {
            bytes,
            tag: self.tag,
        })
    }
}
