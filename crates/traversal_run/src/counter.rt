ghost use Rattle.std.specs.Prelude.{◌≡◌, ◌<◌, ◌+◌, false, pos, true};

use std::marker::Model;

/// The greatest number of a value.
const GREATEST_COUNT: u64 = 9_223_372_036_854_775_807;

/// A count that a value can say. Contracts see the number.
#[derive(Drop)]
pub(crate) struct Counter {
    count: u64,
}

impl Model for Counter {
    ghost use Rattle.std.specs.Prelude.{ℕ, ◌≤◌};

    ghost Value = { ℕ };

    ghost view = { λ c. c.count };

    ghost invariant = { λ c. c.count ≤ 9223372036854775807 };
}

impl Counter {
    /// Nothing was counted.
    pub(crate) fn new() -> Counter
        ensures { result ≡ 0 }
    {
        Counter { count: 0 }
    }

    /// Counts so many more. It tells whether a value can say it; else the count stays.
    pub(crate) fn add(&mut self, more: usize) -> bool
        ensures counted { result ≡ true → self.new ≡ self.old + more }
        ensures past { result ≡ false → 9223372036854775807 < self.old + more }
        ensures stays { result ≡ false → self.new ≡ self.old }
    {
        if more as u64 > GREATEST_COUNT - self.count {
            return false;
        }
        self.count += more as u64;
        true
    }

    /// The same count once more.
    pub(crate) fn copy(&self) -> Counter
        ensures { result ≡ self.now }
    {
        Counter { count: self.count }
    }

    /// The count as a number of a value.
    pub(crate) fn number(&self) -> i64
        ensures { result ≡ pos self.now }
    {
        self.count as i64
    }
}
