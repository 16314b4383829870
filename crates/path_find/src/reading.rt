//! What the rows of a search say.

ghost use Rattle.std.specs.Prelude.{◌≡◌, ◌<◌, ◌∷◌, IfOk, IsPermutation, OnOk};
ghost use Rattle.std.specs.List.Sorted.{IsNonDecreasingBy};
ghost use Rattle.path_find.specs.Reading.{AreLevelsOf, IsSomeTree, node_of};
ghost use Rattle.path_find.specs.Tree.{level_at, node_at, row_count, way_to};

use crate::tree::Tree;
use plain_graph::NodeLevel;
use std::alloc::{AllocError, Global};

/// The nodes from the first one to the node of a row, in order.
pub(crate) fn walk_to(alloc: Global, tree: &Tree, row: usize) -> Result<Vec<u32>, AllocError>
    requires low { row < row_count tree.now }
    requires tree { IsSomeTree tree.now }
    ensures { IfOk result (λ walk.
        walk.items ≡ node_at tree.now 0 ∷ way_to tree.now (level_at tree.now row) row) }
{
    let mut walk = Vec::new(alloc);
    let mut at = row;
    for _ in 0..tree.level(row) {
        walk.push(tree.node(at))?;
        at = tree.parent(at);
    }
    walk.push(tree.node(at))?;
    walk.reverse();
    Ok(walk)
}

/// The level of each node, by ascending identifier.
pub(crate) fn levels_of(alloc: Global, tree: &Tree) -> Result<Vec<NodeLevel>, AllocError>
    requires { IsSomeTree tree.now }
    ensures { IfOk result (λ levels. AreLevelsOf tree.now levels.items) }
{
    let mut levels = Vec::new(alloc);
    for row in 0..tree.len() {
        levels.push(NodeLevel {
            node: tree.node(row),
            level: tree.level(row) as u32,
        })?;
    }
    put_in_order(&mut levels)?;
    Ok(levels)
}

/// Puts the rows into ascending order of their nodes.
fn put_in_order(levels: &mut Vec<NodeLevel>) -> Result<(), AllocError>
    ensures moved { IsPermutation levels.old.items levels.new.items }
    ensures sorted { OnOk result (IsNonDecreasingBy node_of levels.new.items) }
{
    levels.sort_by_key(|row| row.node)?;
    Ok(())
}
