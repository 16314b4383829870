ghost use Rattle.std.specs.Prelude.{◌≡◌};
ghost use Rattle.plain_graph.specs.Forms.{IsKept};
ghost use Rattle.plain_graph.specs.declared.item.Item.TheVariants as items;

use crate::shown::Shown;
use plain_graph::Value;
use std::marker::Model;

/// A value that a store may keep. Contracts see the value.
#[derive(Drop)]
pub(crate) struct KeptValue {
    value: Value,
}

impl Model for KeptValue {
    ghost use Rattle.plain_graph.specs.Forms.{IsKept};
    ghost use Rattle.plain_graph.specs.declared.value.Value.{Value as AValue};

    ghost Value = { AValue };

    ghost view = { λ k. k.value };

    ghost invariant = { λ k. IsKept k.value };
}

impl KeptValue {
    /// This value.
    pub(crate) fn new(value: Value) -> KeptValue
        requires { IsKept value }
        ensures { result ≡ value }
    {
        KeptValue { value }
    }

    /// Gives the value back.
    pub(crate) fn into_value(self) -> Value
        ensures is { result ≡ self }
        ensures kept { IsKept result }
    {
        self.value
    }

    /// Gives the value as a result.
    pub(crate) fn into_shown(self) -> Shown
        ensures { result ≡ items.Value self }
    {
        Shown::value(self.value)
    }
}
