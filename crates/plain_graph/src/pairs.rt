ghost use Rattle.std.specs.Prelude.{◌≡◌};

use crate::{Text, Value};
use std::marker::Model;

/// A key with its value.
#[derive(Drop)]
pub struct Pair {
    pub key: Text,
    pub value: Value,
}

/// Pairs in the order in which they are written. Contracts see the list of pairs.
#[derive(Drop)]
pub struct Pairs {
    pairs: Vec<Pair>,
}

impl Model for Pairs {
    ghost use Rattle.std.specs.Prelude.{List};
    ghost use Rattle.plain_graph.specs.declared.pairs.Pair.{Pair};

    ghost Value = { List Pair };

    ghost view = { λ p. p.pairs.items };
}

impl Pairs {
    /// These pairs.
    pub fn new(pairs: Vec<Pair>) -> Pairs
        ensures { result ≡ pairs.items }
    {
        Pairs { pairs }
    }

    /// The pairs, the first one first.
    pub fn as_slice(&self) -> &[Pair]
        ensures { result.now ≡ self.now }
    {
        &self.pairs
    }
}
