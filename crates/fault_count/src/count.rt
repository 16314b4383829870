ghost use Rattle.std.specs.Prelude.{◌≡◌, ◌≤◌};
ghost use Rattle.fault_count.specs.Cause.{raised};

use std::marker::Model;

/// A number that only rises, by one a call, and stands still at 2^64 - 1. Contracts see the number.
#[derive(Drop)]
pub struct Count {
    number: u64,
}

impl Model for Count {
    ghost use Rattle.std.specs.Prelude.{ℕ};

    ghost Value = { ℕ };

    ghost view = { λ c. c.number };
}

impl Count {
    /// A count of nothing so far.
    pub fn new() -> Count
        ensures { result ≡ 0 }
    {
        Count { number: 0 }
    }

    /// The number.
    pub fn get(&self) -> u64
        ensures { result ≡ self.now }
    {
        self.number
    }

    /// Adds one.
    pub fn raise(&mut self)
        ensures number { self.new ≡ raised self.old }
        ensures later { self.old ≤ self.new }
    {
        self.number = self.number.saturating_add(1);
    }
}
