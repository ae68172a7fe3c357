//! How a key is written.

ghost use Rattle.std.specs.Prelude.{Some};
ghost use Rattle.art_engine.specs.KeyTexts.{key_word};

use std::fmt;

/// A key, which is displayed as a line writes it: `-` for the empty one, or its bytes in decimal joined by dots.
#[derive(Clone, Copy)]
pub struct ShownKey<'a>(pub &'a [u8]);

impl fmt::Display for ShownKey<'_> {
    ghost output = { λ key. Some (key_word key.0.now) };

    fn fmt<W: fmt::Write>(&self, f: &mut fmt::Formatter<W>) -> fmt::Result {
        let Some((first, others)) = self.0.split_first() else {
            return f.write_str("-");
        };
        write!(f, "{first}")?;
        for byte in others {
            write!(f, ".{byte}")?;
        }
        Ok(())
    }
}
