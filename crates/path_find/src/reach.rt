//! A search by breadth that goes on by a whole level.

ghost use Rattle.std.specs.Prelude.{◌≡◌, ◌<◌, ◌≤◌, ◌⊎◌, ◌-◌, ◌^◌, IfErr, IfOk, OnOk};
ghost use Rattle.std.specs.Bool.{OnFalse, OnTrue};
ghost use Rattle.rec_bytes.specs.Fault.{HasFaultCause};
ghost use Rattle.rec_bytes.specs.Frame.{IsRead};
ghost use Rattle.path_find.specs.Costs.{ReadsBetween, rows_reads};
ghost use Rattle.path_find.specs.Damage.{BlamesBroken};
ghost use Rattle.path_find.specs.Reach.{GrowsFrom, begun};
ghost use Rattle.path_find.specs.Reads.{neighbours_at};
ghost use Rattle.path_find.specs.Tree.{IsTree, Spans, row_count};
ghost use Rattle.store_rules.specs.Rules.{IsWhole};

use crate::growing::spread;
use crate::neighbours::neighbours;
use crate::tree::Tree;
use plain_graph::Direction;
use rec_bytes::{Fault, Reads};
use std::alloc::{AllocError, Global};

/// The nodes that at most so many edges reach from one.
#[derive(Drop)]
pub(crate) struct Reach {
    pub(crate) tree: Tree,
    /// How many of them have given their neighbours: all but those that are farthest.
    pub(crate) done: usize,
}

impl Reach {
    /// A node alone, which has not given its neighbours.
    pub(crate) fn new(alloc: Global, node: u32) -> Result<Reach, AllocError>
        ensures { IfOk result (λ reach. reach ≡ begun node) }
    {
        let tree = Tree::new(alloc, node)?;
        Ok(Reach { tree, done: 0 })
    }
}

/// Whether one of two searches has no node left that has not given its neighbours.
pub(crate) fn is_over(ahead: &Reach, behind: &Reach) -> bool
    requires ahead { ahead.now.done ≤ row_count ahead.now.tree }
    requires behind { behind.now.done ≤ row_count behind.now.tree }
    ensures yes { OnTrue result ((ahead.now.done ≡ row_count ahead.now.tree)
        ⊎ (behind.now.done ≡ row_count behind.now.tree)) }
    ensures ahead { OnFalse result (ahead.now.done < row_count ahead.now.tree) }
    ensures behind { OnFalse result (behind.now.done < row_count behind.now.tree) }
    ensures few { row_count ahead.now.tree ≤ 2 ^ 32 }
    ensures few_behind { row_count behind.now.tree ≤ 2 ^ 32 }
{
    let ahead_count = ahead.tree.len();
    let behind_count = behind.tree.len();
    if ahead.done == ahead_count {
        return true;
    }
    if behind.done == behind_count {
        return true;
    }
    false
}

/// How many nodes are farthest.
pub(crate) fn width_of(reach: &Reach) -> usize
    requires { reach.now.done ≤ row_count reach.now.tree }
    ensures { result ≡ row_count reach.now.tree - reach.now.done }
{
    reach.tree.len() - reach.done
}

/// Finds the nodes that one edge more reaches.
pub(crate) fn grow<R: Reads>(
    alloc: Global,
    space: &mut R,
    reach: &mut Reach,
    direction: Direction,
    labels: &[u32],
) -> Result<(), Fault>
    requires tree { IsTree reach.old.tree reach.old.done }
    requires low { reach.old.done ≤ row_count reach.old.tree }
    ensures done { OnOk result (reach.new.done ≡ row_count reach.old.tree) }
    ensures tree { OnOk result (IsTree reach.new.tree (row_count reach.old.tree)) }
    ensures grows { OnOk result (GrowsFrom reach.old.tree reach.new.tree reach.old.done) }
    ensures spans { R.tells → IsWhole (R.state space.old) → OnOk result (
        Spans (neighbours_at (R.state space.old) direction labels.now) reach.old.tree reach.old.done
        → Spans (neighbours_at (R.state space.old) direction labels.now) reach.new.tree
        (row_count reach.old.tree)) }
    ensures cost { R.tells → IsWhole (R.state space.old) → OnOk result (ReadsBetween
        (rows_reads (R.state space.old) direction labels.now reach.old.tree reach.old.done)
        (rows_reads (R.state space.old) direction labels.now reach.new.tree reach.new.done)
        (R.state space.old) (R.state space.new)) }
    ensures damaged { R.tells → IfErr result (BlamesBroken (R.state space.old)) }
    ensures read { IsRead R.Reads space.old space.new }
    ensures cause { HasFaultCause (R.faults space.old) (R.faults space.new) result }
{
    let count = reach.tree.len();
    for row in reach.done..count {
        let node = reach.tree.node(row);
        let found = neighbours(alloc, space, node, direction, labels)?;
        if let Some(ends) = found {
            spread(&mut reach.tree, row, &ends)?;
        }
    }
    reach.done = count;
    Ok(())
}
