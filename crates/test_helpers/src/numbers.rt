//! Numbers from which tests draw what they do.
ghost use Rattle.std.specs.Prelude.{◌<◌, IfSome};

/// Numbers without an evident order. The same seed gives the same numbers.
#[derive(Drop)]
pub struct Numbers {
    state: u64,
}

impl Numbers {
    /// Returns the numbers of a seed.
    pub fn new(seed: u64) -> Self {
        Numbers { state: seed }
    }

    /// Returns a number below this one.
    pub fn below(&mut self, end: usize) -> usize
        requires { 0 < end }
        ensures { result < end }
    {
        self.state = self
            .state
            .wrapping_mul(6_364_136_223_846_793_005)
            .wrapping_add(1_442_695_040_888_963_407);
        (self.state >> 33) as usize % end
    }

    /// One of two.
    pub fn is_heads(&mut self) -> bool {
        self.below(2) == 0
    }

    /// Returns a byte.
    pub fn byte(&mut self) -> u8 {
        self.below(256) as u8
    }

    /// Returns a value, below a million.
    pub fn value(&mut self) -> u32 {
        self.below(1_000_000) as u32
    }

    /// Returns a place in a list of so many, if it has any.
    pub fn place_in(&mut self, count: usize) -> Option<usize>
        ensures { IfSome result (λ at. at < count) }
    {
        if count == 0 {
            None
        } else {
            Some(self.below(count))
        }
    }
}
