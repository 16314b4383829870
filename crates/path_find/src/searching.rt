//! A search by breadth: the nearest nodes first.

ghost use Rattle.std.specs.Prelude.{◌≡◌, ◌<◌, IfErr, IfOk, ℕ, true};
ghost use Rattle.std.specs.Bool.{OnTrue, OnFalse};
ghost use Rattle.plain_graph.specs.Graph.{has_node};
ghost use Rattle.rec_bytes.specs.Fault.{HasFaultCause};
ghost use Rattle.rec_bytes.specs.Frame.{IsRead};
ghost use Rattle.chain_edit.specs.Walking.{ReadsAtMost};
ghost use Rattle.path_find.specs.Costs.{rows_reads};
ghost use Rattle.path_find.specs.Damage.{BlamesBroken};
ghost use Rattle.path_find.specs.Reads.{neighbours_at};
ghost use Rattle.path_find.specs.Reading.{IsSomeTree};
ghost use Rattle.path_find.specs.Search.{HasSearched, IsFoundWithin, IsSearched};
ghost use Rattle.path_find.specs.Tree.{level_at, node_at, row_count};
ghost use Rattle.store_rules.specs.Rules.{IsWhole};
ghost use Rattle.store_rules.specs.Graph.{graph_in};

use crate::growing::spread;
use crate::neighbours::neighbours;
use crate::tree::Tree;
use plain_graph::Direction;
use rec_bytes::{Fault, Reads};
use std::alloc::Global;

/// Finds nodes from one on, the neighbours of each in turn, until all are found that are no farther
/// than the target.
pub(crate) fn search<R: Reads>(
    alloc: Global,
    space: &mut R,
    from: u32,
    to: u32,
    direction: Direction,
    labels: &[u32],
) -> Result<Tree, Fault>
    ensures searched { IfOk result (λ tree. IsSearched tree from to) }
    ensures spans { R.tells → IsWhole (R.state space.old)
        → has_node (graph_in (R.state space.old)) from ≡ true → IfOk result (λ tree.
        HasSearched (neighbours_at (R.state space.old) direction labels.now) tree from to) }
    // each node is read once, and none as far as the target
    ensures cost { R.tells → IsWhole (R.state space.old) → IfOk result (λ tree.
        (searched : IsSearched tree from to) × ReadsAtMost
        (rows_reads (R.state space.old) direction labels.now tree searched.done)
        (R.state space.old) (R.state space.new)) }
    ensures damaged { R.tells → IfErr result (BlamesBroken (R.state space.old)) }
    ensures read { IsRead R.Reads space.old space.new }
    ensures cause { HasFaultCause (R.faults space.old) (R.faults space.new) result }
{
    let mut tree = Tree::new(alloc, from)?;
    let mut row = 0;
    while row < tree.len() {
        if reaches(&tree, to, row) {
            return Ok(tree);
        }
        let node = tree.node(row);
        let found = neighbours(alloc, space, node, direction, labels)?;
        if let Some(ends) = found {
            spread(&mut tree, row, &ends)?;
        }
        row += 1;
    }
    Ok(tree)
}

/// Whether the target is found, no farther than the node of a row.
fn reaches(tree: &Tree, to: u32, row: usize) -> bool
    requires low { row < row_count tree.now }
    requires tree { IsSomeTree tree.now }
    ensures yes { OnTrue result (IsFoundWithin tree.now to (level_at tree.now row)) }
    ensures no { OnFalse result ((target : ℕ) → target < row_count tree.now
        → node_at tree.now target ≡ to → level_at tree.now row < level_at tree.now target) }
{
    match tree.find(to) {
        Some(target) => tree.level(target) <= tree.level(row),
        None => false,
    }
}
