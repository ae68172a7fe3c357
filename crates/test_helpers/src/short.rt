//! All strings of up to four of the bytes 0, 1, 2 and 255.
ghost use Rattle.std.specs.Prelude.{◌<◌};

/// How many there are.
pub const COUNT: usize = 341;

static BYTES: [u8; 4] = [0, 1, 2, 255];

/// One of them. The bytes after its length are zeros, so that two of them compare as their bytes do.
#[derive(Clone, Copy, PartialEq, Eq, PartialOrd, Ord, Debug)]
pub struct Short {
    bytes: [u8; 4],
    len: usize,
}

impl Short {
    /// The string of a number. The shorter ones come first.
    pub fn new(number: usize) -> Self {
        let (len, rest) = match number {
            0 => (0, 0),
            1..=4 => (1, number - 1),
            5..=20 => (2, number - 5),
            21..=84 => (3, number - 21),
            _ => (4, number.saturating_sub(85)),
        };
        let bytes = [
            BYTES[rest % 4],
            BYTES[rest / 4 % 4],
            BYTES[rest / 16 % 4],
            BYTES[rest / 64 % 4],
        ];
        Short { bytes, len }
    }

    /// Its bytes.
    pub fn as_slice(&self) -> &[u8] {
        match self.bytes.get(..self.len) {
            Some(bytes) => bytes,
            None => &self.bytes,
        }
    }

    /// Whether it starts with another one.
    pub fn starts_with(self, other: Short) -> bool {
        self.as_slice().starts_with(other.as_slice())
    }

    /// Whether a zero stands among its bytes.
    pub fn has_zero(self) -> bool {
        self.as_slice().contains(&0)
    }
}
