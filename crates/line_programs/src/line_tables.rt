//! Tables that are read from the lines of a text, and that answer those of another.
ghost use Rattle.std.specs.Prelude.{◌≡◌, ◌↔◌, [], false, IfErr, IfOk, OnErr, OnOk, ℕ, List, Option, ◌∷◌, ◌++◌, codes};
ghost use Rattle.std.specs.Io.KnownBytes.{Appends};
ghost use Rattle.std.specs.Option.{option_map};
ghost use Rattle.text_lines.specs.Lines.{lines};
ghost use Rattle.line_programs.specs.LineTables.{AreLookedUp, IsFaultIn, IsTried};
ghost use Rattle.line_programs.specs.Outcomes.{outcome_of, status, worse};

use std::alloc::Global;
use std::io;
use std::io::Write;

/// How a line was answered.
#[derive(Clone, Copy, PartialEq, Eq, Debug, Drop)]
pub enum Outcome {
    /// The reply tells what the table has.
    Found,
    /// The reply tells that the table has nothing.
    NotFound,
    /// The line asks for nothing, and gets no reply.
    Invalid,
}

impl Outcome {
    /// Returns the worse of two outcomes: `Invalid` is worse than `NotFound`, and that is worse than `Found`.
    pub fn worse(self, other: Outcome) -> Outcome
        ensures { result ≡ worse self other }
    {
        match (self, other) {
            (Outcome::Found, _) => other,
            (Outcome::NotFound, Outcome::Invalid) | (Outcome::Invalid, _) => Outcome::Invalid,
            (Outcome::NotFound, _) => Outcome::NotFound,
        }
    }

    /// Returns the exit status of a program whose worst outcome is this one, as of `grep`.
    pub fn status(self) -> u8
        ensures { result ≡ status self }
    {
        match self {
            Outcome::Found => 0,
            Outcome::NotFound => 1,
            Outcome::Invalid => 2,
        }
    }
}

/// A reply that was looked up, and is not yet written.
#[derive(Clone, Copy)]
pub struct Reply<'a> {
    /// The bytes of the reply, without the line feed at its end.
    pub text: &'a [u8],
    /// Whether the table has something for the line.
    pub is_found: bool,
}

impl Reply<'_> {
    /// Returns whether the table has something for the line.
    pub fn outcome(self) -> Outcome
        ensures { result ≡ outcome_of self.entry.is_found }
    {
        if self.is_found {
            Outcome::Found
        } else {
            Outcome::NotFound
        }
    }

    /// Writes the reply, and returns whether the table has something for the line.
    pub fn write<W: Write>(self, output: &mut W) -> io::Result<Outcome>
        ensures written { OnOk result (Appends (W.contents output.old) (W.contents output.new)
            (self.entry.text.now ++ codes "\n")) }
        ensures outcome { IfOk result (λ outcome. outcome ≡ outcome_of self.entry.is_found) }
    {
        output.write_all(self.text)?;
        output.write_all(b"\n")?;
        Ok(self.outcome())
    }
}

/// A table that is read from the lines of a text, and that answers those of another.
///
/// Contracts see what was read as entries: each is the number of a line, and what `entry` returns for it.
pub trait LineTable {
    /// Why an entry was not added.
    type Fault;

    /// The entry of a line, if it has one.
    ghost entry_of: { List ℕ → Option (List ℕ) };

    /// The table has these entries, so far.
    ghost HasLines: { Self → List (ℕ × List ℕ) → Type 0 };

    /// What the table has of a text, all entries of which were added.
    ghost IsRead: { Self → List (ℕ × List ℕ) → Type 0 };

    /// Why an entry can't follow these ones.
    ghost IsFaultAfter: { List (ℕ × List ℕ) → List ℕ → Self.Fault → Type 0 };

    /// The fault is that an allocation failed.
    ghost IsOutOfMemory: { Self.Fault → Type 0 };

    /// The bytes are the reply to a line.
    ghost IsReplyTo: { Self → List ℕ → List ℕ → Type 0 };

    /// The table has something for a line.
    ghost Finds: { Self → List ℕ → Type 0 };

    /// The line gets no reply, whatever the table has.
    ghost AsksForNothing: { List ℕ → Type 0 };

    /// Returns the entry of a line of the table; `None` if it has none, as a blank line or a comment.
    fn entry(line: &[u8]) -> Option<&[u8]>
        ensures { option_map (λ entry. entry.now) result ≡ entry_of line.now };

    /// Returns a table without an entry, without an allocation.
    fn start(alloc: Global) -> Self
        ensures { HasLines result [] };

    /// Adds an entry, which is that of the line of a number.
    fn add(&mut self, alloc: Global, line: &[u8], number: u64) -> Result<(), Self::Fault>
        ensures added { OnOk result ((before : List (ℕ × List ℕ)) →
            HasLines self.old before → HasLines self.new (before ++ (number, line.now) ∷ [])) }
        ensures fault { IfErr result (λ fault. (before : List (ℕ × List ℕ)) →
            HasLines self.old before → IsFaultAfter before line.now fault) }
        ensures kept { OnErr result ((before : List (ℕ × List ℕ)) →
            HasLines self.old before → HasLines self.new before) };

    /// Makes a table ready to answer lines, after its last entry was added. An error has the number of the line that is
    /// at fault, and why; of a failed allocation the number means nothing.
    fn finish(&mut self, alloc: Global) -> Result<(), (u64, Self::Fault)>
        ensures finished { OnOk result ((added : List (ℕ × List ℕ)) →
            HasLines self.old added → IsRead self.new added) }
        ensures fault { IfErr result (λ refused. (added : List (ℕ × List ℕ)) →
            HasLines self.old added → IsFaultIn IsFaultAfter IsOutOfMemory added refused) };

    /// Writes the reply to a line, and returns whether the table has something for it. Writes nothing if the line asks
    /// for nothing.
    fn answer<W: Write>(&self, line: &[u8], output: &mut W) -> io::Result<Outcome>
        ensures { IfOk result (λ outcome. IsTried (IsReplyTo self.now) (Finds self.now) AsksForNothing
            line.now outcome (W.contents output.old) (W.contents output.new)) };

    /// Looks up replies to the first lines of a text, so that the memory of several replies is read at once: at most to
    /// the lines that a line feed ends, and up to the first one that asks for nothing. The text goes on with bytes that are
    /// not read yet. By default there are none.
    fn look_up(&self, alloc: Global, text: &[u8]) -> Vec<Reply<'_>>
        ensures { (more : List ℕ) →
            AreLookedUp (IsReplyTo self.now) (Finds self.now) result.items (lines (text.now ++ more)) }
    {
        let _text = text;
        Vec::new(alloc)
    }

    /// Returns whether an entry is at fault, and not an allocation.
    fn is_of_line(fault: &Self::Fault) -> bool
        ensures { (result ≡ false) ↔ IsOutOfMemory fault.now };
}
