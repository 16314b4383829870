//! The way on from a node to the one that a search went back from.

ghost use Rattle.std.specs.Prelude.{◌≡◌, ◌<◌, ℕ, IfErr, IfNone, IfOk, IfSome, length};
ghost use Rattle.rec_bytes.specs.Fault.{HasFaultCause};
ghost use Rattle.rec_bytes.specs.Frame.{IsRead};
ghost use Rattle.chain_edit.specs.Walking.{ReadsAtMost};
ghost use Rattle.expand.specs.Costs.{most_reads};
ghost use Rattle.path_find.specs.Costs.{but_last, nodes_reads};
ghost use Rattle.path_find.specs.Damage.{BlamesBroken};
ghost use Rattle.path_find.specs.Meeting.{
  CanDescend,
  HasNearer,
  IsAtLevel,
  IsDescent,
  IsFirstAtLevel,
  IsNextRow,
  SomeAtLevel,
};
ghost use Rattle.path_find.specs.Reading.{IsSomeTree};
ghost use Rattle.path_find.specs.Tree.{level_at, node_at, row_count};
ghost use Rattle.path_find.specs.WalkSearch.{neighbours_for};
ghost use Rattle.store_rules.specs.Rules.{IsWhole};

use crate::WalkSearch;
use crate::neighbours::neighbours;
use crate::tree::Tree;
use rec_bytes::{Fault, Reads};
use std::alloc::Global;

/// The nodes after a row's up to the first one's, each the least neighbour that is a level lower.
pub(crate) fn descend<R: Reads>(
    alloc: Global,
    space: &mut R,
    tree: &Tree,
    row: usize,
    sought: &WalkSearch,
) -> Result<Vec<u32>, Fault>
    requires low { row < row_count tree.now }
    requires tree { IsSomeTree tree.now }
    ensures descends { R.tells → IsWhole (R.state space.old)
        → CanDescend (neighbours_for (R.state space.old) sought.now) tree.now
        → IfOk result (λ way.
        IsDescent (neighbours_for (R.state space.old) sought.now) tree.now row way.items) }
    ensures long { R.tells → IsWhole (R.state space.old)
        → CanDescend (neighbours_for (R.state space.old) sought.now) tree.now
        → IfOk result (λ way. length way.items ≡ level_at tree.now row) }
    ensures cost { R.tells → IsWhole (R.state space.old) → IfOk result (λ way. ReadsAtMost
        (nodes_reads (R.state space.old) sought.now.direction sought.now.labels.now
        (but_last (node_at tree.now row) way.items)) (R.state space.old) (R.state space.new)) }
    ensures damaged { R.tells → IfErr result (BlamesBroken (R.state space.old)) }
    ensures read { IsRead R.Reads space.old space.new }
    ensures cause { HasFaultCause (R.faults space.old) (R.faults space.new) result }
{
    let mut way = Vec::new(alloc);
    let mut at = row;
    let mut level = tree.level(row);
    while level > 0 {
        level -= 1;
        let next = next_row(alloc, space, tree, at, level, sought)?;
        way.push(tree.node(next))?;
        at = next;
    }
    Ok(way)
}

/// Of the neighbours of a row's node that have a level, the row of the least; the row itself where
/// there is none.
fn next_row<R: Reads>(
    alloc: Global,
    space: &mut R,
    tree: &Tree,
    at: usize,
    level: usize,
    sought: &WalkSearch,
) -> Result<usize, Fault>
    requires low { at < row_count tree.now }
    requires tree { IsSomeTree tree.now }
    ensures low { IfOk result (λ row. row < row_count tree.now) }
    ensures next { R.tells → IsWhole (R.state space.old) → IfOk result (λ row.
        HasNearer (neighbours_for (R.state space.old) sought.now) tree.now at level
        → IsNextRow (neighbours_for (R.state space.old) sought.now) tree.now at level
        row) }
    ensures cost { R.tells → IsWhole (R.state space.old)
        → ReadsAtMost (most_reads (R.state space.old) sought.now.direction sought.now.labels.now
        (node_at tree.now at)) (R.state space.old) (R.state space.new) }
    ensures damaged { R.tells → IfErr result (BlamesBroken (R.state space.old)) }
    ensures read { IsRead R.Reads space.old space.new }
    ensures cause { HasFaultCause (R.faults space.old) (R.faults space.new) result }
{
    let node = tree.node(at);
    let found = neighbours(alloc, space, node, sought.direction, sought.labels)?;
    match found {
        Some(ends) => Ok(first_at_level(tree, at, level, &ends)),
        None => Ok(at),
    }
}

/// Of these nodes the row of the first that has a level, or another row where there is none.
fn first_at_level(tree: &Tree, at: usize, level: usize, ends: &[u32]) -> usize
    requires low { at < row_count tree.now }
    requires tree { IsSomeTree tree.now }
    ensures low { result < row_count tree.now }
    ensures is { SomeAtLevel tree.now level ends.now
        → IsFirstAtLevel tree.now level ends.now result }
{
    for end in ends {
        if let Some(row) = row_at_level(tree, level, *end) {
            return row;
        }
    }
    at
}

/// The row of a node, if it has a level.
fn row_at_level(tree: &Tree, level: usize, node: u32) -> Option<usize>
    requires { IsSomeTree tree.now }
    ensures some { IfSome result (IsAtLevel tree.now level node) }
    ensures none { IfNone result ((row : ℕ) → ¬ IsAtLevel tree.now level node row) }
{
    let row = tree.find(node)?;
    if tree.level(row) == level {
        Some(row)
    } else {
        None
    }
}
