//! Keys and commands that are drawn.

use art_running::run::Command;
use art_test_support::numbers::Numbers;
use art_test_support::tagged::Tagged;
use art_test_support::trees::Key;
use std::alloc::{AllocError, Global};

/// What keys are drawn.
#[derive(Clone, Copy, PartialEq, Eq, Debug)]
pub enum KeyShape {
    /// One byte, any.
    OneByte,
    /// Two bytes, the first of 12 and the second of 40.
    TwoBytes,
    /// None to five bytes, each of 7: many keys are related.
    Related,
    /// Mostly 60 bytes, of which the 20th, the 40th and the last are each of 6 and the others the same in most keys.
    LongFronts,
}

impl KeyShape {
    fn draw(self, alloc: Global, numbers: &mut Numbers) -> Result<Key, AllocError> {
        match self {
            KeyShape::OneByte => [numbers.byte()].to_vec(alloc),
            KeyShape::TwoBytes => [numbers.below(12) as u8, numbers.below(40) as u8].to_vec(alloc),
            KeyShape::Related => related_key(alloc, numbers),
            KeyShape::LongFronts => long_key(alloc, numbers),
        }
    }
}

fn related_key(alloc: Global, numbers: &mut Numbers) -> Result<Key, AllocError> {
    let mut key = Vec::new(alloc);
    for _ in 0..numbers.below(6) {
        key.push(numbers.below(7) as u8)?;
    }
    Ok(key)
}

fn long_key(alloc: Global, numbers: &mut Numbers) -> Result<Key, AllocError> {
    let mut key = Vec::new(alloc);
    for _ in 0..3 {
        for _ in 0..19 {
            key.push(7)?;
        }
        key.push(numbers.below(6) as u8)?;
    }
    if numbers.below(4) == 0 {
        if let Some(at) = numbers.place_in(key.len()) {
            key[at] = 8;
        }
    }
    if numbers.below(20) == 0 {
        key.truncate(numbers.below(60));
    }
    Ok(key)
}

/// How many commands of each kind were drawn.
#[derive(Clone, Copy)]
pub struct Drawn {
    counts: [usize; 8],
}

impl Drawn {
    pub fn new() -> Self {
        Drawn { counts: [0; 8] }
    }

    pub fn count(&mut self, command: &Command<Tagged, u32>) {
        if let Some(count) = self.counts.get_mut(kind_of(command)) {
            *count = count.saturating_add(1);
        }
    }

    /// Whether each kind was drawn.
    pub fn is_each(&self) -> bool {
        self.counts.iter().all(|count| *count > 0)
    }
}

/// A number for each kind of command.
fn kind_of(command: &Command<Tagged, u32>) -> usize {
    match command {
        Command::Insert(..) => 0,
        Command::InsertPrefix(..) => 1,
        Command::Delete(_) => 2,
        Command::DeleteMin => 3,
        Command::DeleteMax => 4,
        Command::Clone => 5,
        Command::Contains(_) => 6,
        Command::LongestMatch(_) => 7,
    }
}

/// Commands about keys of one shape.
#[derive(Drop)]
pub struct Drawer {
    alloc: Global,
    shape: KeyShape,
    numbers: Numbers,
    /// How many tags were given.
    tags: u32,
}

impl Drawer {
    pub fn new(alloc: Global, shape: KeyShape, seed: u64) -> Self {
        let numbers = Numbers::new(seed);
        Drawer {
            alloc,
            shape,
            numbers,
            tags: 0,
        }
    }

    pub fn alloc(&self) -> Global {
        self.alloc
    }

    /// The key of these bytes, with a tag that no other has.
    fn tagged(&mut self, bytes: Key) -> Tagged {
        self.tags = self.tags.wrapping_add(1);
        Tagged {
            bytes,
            tag: self.tags,
        }
    }

    /// The bytes of a key that is stored, or of any where none is.
    fn known_key(&mut self, pairs: &[(Tagged, u32)]) -> Result<Key, AllocError> {
        match self.numbers.place_in(pairs.len()) {
            Some(at) => pairs[at].0.bytes.clone(),
            None => self.shape.draw(self.alloc, &mut self.numbers),
        }
    }

    /// The bytes of a key that may be stored, or a prefix of one, or one with a further byte.
    fn query(&mut self, pairs: &[(Tagged, u32)]) -> Result<Key, AllocError> {
        let mut key = if self.numbers.is_heads() {
            self.known_key(pairs)?
        } else {
            self.shape.draw(self.alloc, &mut self.numbers)?
        };
        match self.numbers.below(6) {
            0 => key.push(self.numbers.byte())?,
            1 => {
                key.pop();
            }
            _ => {}
        }
        Ok(key)
    }

    fn insertion(&mut self, pairs: &[(Tagged, u32)]) -> Result<Command<Tagged, u32>, AllocError> {
        let key = if self.numbers.below(8) == 0 {
            self.known_key(pairs)?
        } else {
            self.shape.draw(self.alloc, &mut self.numbers)?
        };
        Ok(Command::Insert(self.tagged(key), self.numbers.value()))
    }

    /// A command, where these pairs are stored. While their number should grow more than half of all are insertions,
    /// else half are deletions that find a pair.
    pub fn command(
        &mut self,
        pairs: &[(Tagged, u32)],
        is_growing: bool,
    ) -> Result<Command<Tagged, u32>, AllocError> {
        match self.numbers.below(256) {
            0 => {
                let key = self.query(pairs)?;
                return Ok(Command::InsertPrefix(self.tagged(key), self.numbers.value()));
            }
            1 => return Ok(Command::Clone),
            _ => {}
        }
        match self.numbers.below(16) {
            0 | 1 => Ok(Command::Contains(self.query(pairs)?)),
            2 | 3 => Ok(Command::LongestMatch(self.query(pairs)?)),
            4 => Ok(Command::Delete(self.query(pairs)?)),
            5 => Ok(Command::DeleteMin),
            6 => Ok(Command::DeleteMax),
            7 => self.insertion(pairs),
            _ if is_growing => self.insertion(pairs),
            8..=11 => Ok(Command::Delete(self.known_key(pairs)?)),
            12 | 13 => Ok(Command::DeleteMin),
            _ => Ok(Command::DeleteMax),
        }
    }
}
