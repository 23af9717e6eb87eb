// Lines whose end has not been read yet.
ghost use Rattle.std.specs.Prelude.{◌≡◌, ◌+◌, ◌-◌, ◌^◌, min, [], ◌∷◌, ◌++◌, ℕ, List, OnOk, IfErr};
ghost use Rattle.play_script.specs.declared.errors.PlayError.TheVariants.{Memory};
ghost use Rattle.play_script.specs.inner.Pending.{Keeps, IsShownOf, ended_by, without_last_return};

use crate::PlayError;
use std::alloc::Global;

/// How many bytes a line may have, without its end.
pub const MOST_LINE_BYTES: usize = 1_048_576;

/// How many bytes of a line are kept, at most: so many that it is too long, even without a carriage return at its end.
const MOST_KEPT_BYTES: usize = 1_048_578;

/// A line whose end has not been read yet: its number and its first bytes.
#[derive(Drop)]
pub struct Pending {
    number: u64,
    first: Vec<u8>,
}

impl Pending {
    /// The first line of a script, of which nothing was read.
    pub fn new(alloc: Global) -> Pending
        ensures kept { Keeps result [] }
        ensures number { result.number ≡ 1 }
    {
        Pending {
            number: 1,
            first: Vec::new(alloc),
        }
    }

    /// The number of the line, from 1.
    pub fn number(&self) -> u64
        ensures { result ≡ self.now.number }
    {
        self.number
    }

    /// Adds a byte to the line.
    pub fn push(&mut self, byte: u8) -> Result<(), PlayError>
        ensures ok { OnOk result ((line : List ℕ) → Keeps self.old line → Keeps self.new (line ++ byte ∷ [])) }
        ensures memory { IfErr result (λ cause. cause ≡ Memory) }
        ensures number { self.new.number ≡ self.old.number }
    {
        if self.first.len() < MOST_KEPT_BYTES {
            self.first.push(byte)?;
        }
        Ok(())
    }

    /// Begins the next line.
    pub fn next(&mut self)
        ensures kept { Keeps self.new [] }
        ensures number { self.new.number ≡ min (self.old.number + 1) (2 ^ 64 - 1) }
    {
        self.number = self.number.saturating_add(1);
        self.first.clear();
    }

    /// The line as far as a reply needs it: all of it, without the carriage return before a line feed, or so many of its first bytes
    /// that it is seen to be too long.
    pub fn shown(&self, feed: bool) -> &[u8]
        ensures { (line : List ℕ) → Keeps self.now line → IsShownOf (ended_by feed line) result.now }
    {
        let first = self.first.as_slice();
        if feed { without_return(first) } else { first }
    }
}

// A line without a carriage return at its end.
fn without_return(line: &[u8]) -> &[u8]
    ensures { result.now ≡ without_last_return line.now }
{
    match line {
        [front @ .., last] if *last == b'\r' => front,
        _ => line,
    }
}
