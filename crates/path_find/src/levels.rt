ghost use Rattle.std.specs.Prelude.{◌≡◌};

use plain_graph::NodeLevel;
use std::marker::Model;

/// Nodes with their levels. Contracts see the list.
#[derive(Drop)]
pub struct Levels {
    rows: Vec<NodeLevel>,
}

impl Model for Levels {
    ghost use Rattle.std.specs.Prelude.{List};
    ghost use Rattle.plain_graph.specs.declared.node_level.NodeLevel.{NodeLevel};

    ghost Value = { List NodeLevel };

    ghost view = { λ l. l.rows.items };
}

impl Levels {
    /// These levels.
    pub fn new(rows: Vec<NodeLevel>) -> Levels
        ensures { result ≡ rows.items }
    {
        Levels { rows }
    }

    /// The rows, the first one first.
    pub fn as_slice(&self) -> &[NodeLevel]
        ensures { result.now ≡ self.now }
    {
        &self.rows
    }
}
