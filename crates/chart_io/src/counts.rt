ghost use Rattle.std.specs.Prelude.{◌≡◌, ◌≤◌};
ghost use Rattle.chart_io.specs.Counts.{no_calls, next_fails, after_call};

use std::marker::Model;

/// The calls of an object: the numbers of those that fail, from 1, and how many were made and have
/// failed. Both counts stand still at `u64::MAX`.
#[derive(Drop)]
pub struct Calls {
    fails: Vec<u64>,
    made: u64,
    failed: u64,
}

impl Model for Calls {
    ghost use Rattle.chart_io.specs.Counts.{CallCounts};

    ghost Value = { CallCounts };

    ghost view = { λ calls. record { fails = calls.fails.items; made = calls.made; failed = calls.failed } };
}

impl Calls {
    /// None was made yet.
    pub fn of(fails: Vec<u64>) -> Calls
        ensures { result ≡ no_calls fails.items }
    {
        Calls {
            fails,
            made: 0,
            failed: 0,
        }
    }

    /// Whether the next call fails.
    pub fn next_fails(&self) -> bool
        ensures { result ≡ next_fails self.now }
    {
        let number = self.made.saturating_add(1);
        self.fails.contains(&number)
    }

    /// Counts one more call.
    pub fn count(&mut self, fails: bool)
        ensures after { self.new ≡ after_call self.old fails }
        ensures counted { self.old.failed ≤ self.new.failed }
    {
        self.made = self.made.saturating_add(1);
        if fails {
            self.failed = self.failed.saturating_add(1);
        }
    }
}
