// A count of steps.
ghost use Rattle.std.specs.Prelude.{◌≡◌, ◌≤◌, ◌+◌, ◌-◌, ◌^◌, min};

use std::marker::Model;
use std::sync::ledger::{Blank, Book, Ledger};

/// How many steps were taken. There is one counter at most for each ledger, since it holds the ledger's
/// book: code that is handed a counter can't make a second one of the same type.
#[derive(Drop)]
pub struct Steps<L: Ledger> {
    count: u64,
    book: Book<L>,
}

impl<L: Ledger> Model for Steps<L> {
    ghost use Rattle.std.specs.Prelude.{ℕ};

    ghost Value = { ℕ };

    ghost view = { λ steps. steps.count };
}

impl<L: Ledger> Steps<L> {
    /// A counter of no steps, from the ledger's blank.
    pub fn open(blank: Blank) -> Steps<L>
        requires name { blank.name ≡ L.name }
        requires parts { blank.parts ≡ L.parts }
        ensures { result ≡ 0 }
    {
        let (book, _) = blank.open::<L>();
        Steps { count: 0, book }
    }

    /// Counts one step more. The greatest count stays, and no count falls.
    pub fn tick(&mut self)
        ensures never_falls { self.old ≤ self.new }
        ensures counted { self.new ≡ min (self.old + 1) (2 ^ 64 - 1) }
    {
        self.count = self.count.saturating_add(1);
    }

    /// How many steps were counted.
    pub fn count(&self) -> u64
        ensures { result ≡ self.now }
    {
        self.count
    }
}
