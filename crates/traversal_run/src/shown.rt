ghost use Rattle.std.specs.Prelude.{◌≡◌, ◌≤◌, length};
ghost use Rattle.plain_graph.specs.Forms.{IsKept, IsShown};
ghost use Rattle.plain_graph.specs.declared.item.Item.TheVariants as items;
ghost use Rattle.plain_graph.specs.declared.value.Value.TheVariants as values;
ghost use Rattle.traversal_run.specs.Held.{is_element};

use plain_graph::{Item, Text, Value};
use std::marker::Model;

/// A result that has a line: its texts are no longer than those of a store. Contracts see the item.
#[derive(Drop)]
pub(crate) struct Shown {
    item: Item,
}

impl Model for Shown {
    ghost use Rattle.plain_graph.specs.Forms.{IsShown};
    ghost use Rattle.plain_graph.specs.declared.item.Item.{Item};

    ghost Value = { Item };

    ghost view = { λ s. s.item };

    ghost invariant = { λ s. IsShown s.item };
}

impl Shown {
    /// A vertex.
    pub(crate) fn vertex(id: u32) -> Shown
        ensures { result ≡ items.Vertex id }
    {
        Shown {
            item: Item::Vertex(id),
        }
    }

    /// An edge, whose type is a name.
    pub(crate) fn edge(id: u32, label: Text, from: u32, to: u32) -> Shown
        requires { length label ≤ 48 }
        ensures { result ≡ items.Edge id label from to }
    {
        Shown {
            item: Item::Edge {
                id,
                label,
                from,
                to,
            },
        }
    }

    /// A value that a store may keep.
    pub(crate) fn value(value: Value) -> Shown
        requires { IsKept value }
        ensures { result ≡ items.Value value }
    {
        Shown {
            item: Item::Value(value),
        }
    }

    /// A number.
    pub(crate) fn number(number: i64) -> Shown
        ensures { result ≡ items.Value (values.Int number) }
    {
        Shown {
            item: Item::Value(Value::Int(number)),
        }
    }

    /// The item.
    pub(crate) fn as_item(&self) -> &Item
        ensures is { result.now ≡ self.now }
        ensures shown { IsShown result.now }
    {
        &self.item
    }

    /// Whether it is a vertex or an edge.
    pub(crate) fn is_element(&self) -> bool
        ensures { result ≡ is_element self.now }
    {
        !matches!(self.item, Item::Value(_))
    }

    /// Gives the item back.
    pub(crate) fn into_item(self) -> Item
        ensures is { result ≡ self }
        ensures shown { IsShown result }
    {
        self.item
    }
}
