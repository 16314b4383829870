//! The rows of a search grow by the neighbours of a node.

ghost use Rattle.std.specs.Prelude.{◌<◌, ◌+◌, ◌^◌, OnOk};
ghost use Rattle.std.specs.List.Sorted.{IsNonDecreasing};
ghost use Rattle.plain_graph.specs.Adjacency.{Adjacency};
ghost use Rattle.path_find.specs.Growing.{Extends};
ghost use Rattle.path_find.specs.Tree.{AreNeighbours, IsTree, Spans, node_at, row_count};

use crate::tree::Tree;
use std::alloc::AllocError;

/// Adds those of the neighbours of a row's node that are not found yet. They are given by ascending
/// identifier.
pub(crate) fn spread(tree: &mut Tree, row: usize, ends: &[u32]) -> Result<(), AllocError>
    requires low { row < row_count tree.old }
    requires room { row + 1 < 2 ^ 64 }
    requires tree { IsTree tree.old row }
    requires ascending { IsNonDecreasing ends.now }
    ensures extends { OnOk result (Extends tree.old tree.new row) }
    ensures tree { OnOk result (IsTree tree.new (row + 1)) }
    ensures spans { OnOk result ((near : Adjacency) → Spans near tree.old row
        → AreNeighbours near (node_at tree.old row) ends.now → Spans near tree.new (row + 1)) }
{
    let level = tree.level(row) + 1;
    for end in ends {
        tree.add(*end, row, level)?;
    }
    Ok(())
}
