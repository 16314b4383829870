ghost use Rattle.std.specs.Prelude.{◌≡◌};

use std::marker::Model;

/// Numbers of calls. Contracts see the list of them.
#[derive(Drop)]
pub struct Calls {
    numbers: Vec<u64>,
}

impl Model for Calls {
    ghost use Rattle.std.specs.Prelude.{List, ℕ};

    ghost Value = { List ℕ };

    ghost view = { λ c. c.numbers.items };
}

impl Calls {
    /// The calls of these numbers.
    pub fn new(numbers: Vec<u64>) -> Calls
        ensures { result ≡ numbers.items }
    {
        Calls { numbers }
    }

    /// The numbers.
    pub fn as_slice(&self) -> &[u64]
        ensures { result.now ≡ self.now }
    {
        &self.numbers
    }
}
