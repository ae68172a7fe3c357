//! Why no further line is read, and the status that the program ends with then.
ghost use Rattle.std.specs.Prelude.{◌≡◌};
ghost use Rattle.art_engine.specs.Endings.{status_of};

/// Why no further line is read.
#[derive(Drop)]
pub enum Ending {
    Input,
    BadLine,
}

impl Ending {
    /// Returns the exit status: 0 at the end of the input, 2 after a line that is no valid request.
    pub fn status(&self) -> u8
        ensures { result ≡ status_of self.now }
    {
        match self {
            Ending::Input => 0,
            Ending::BadLine => 2,
        }
    }
}
