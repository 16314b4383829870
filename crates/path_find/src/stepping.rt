//! Whether nodes are a walk.

ghost use Rattle.std.specs.Prelude.{◌+◌, Contains, IfErr, IfOk};
ghost use Rattle.std.specs.Bool.{OnFalse, OnTrue};
ghost use Rattle.rec_bytes.specs.Fault.{HasFaultCause};
ghost use Rattle.rec_bytes.specs.Frame.{IsRead};
ghost use Rattle.path_find.specs.Checking.{IsStep, IsWalkOrNone};
ghost use Rattle.chain_edit.specs.Walking.{ReadsAtMost};
ghost use Rattle.expand.specs.Costs.{most_reads};
ghost use Rattle.path_find.specs.Costs.{left_nodes, nodes_reads};
ghost use Rattle.path_find.specs.Damage.{BlamesBroken};
ghost use Rattle.path_find.specs.WalkSearch.{neighbours_for};
ghost use Rattle.store_rules.specs.Rules.{IsWhole};

use crate::WalkSearch;
use crate::neighbours::neighbours;
use crate::node_test::is_node;
use rec_bytes::{Fault, Reads};
use std::alloc::Global;

/// Whether these nodes are a walk that is sought. No nodes pass as well.
pub(crate) fn is_walk<R: Reads>(
    alloc: Global,
    reads: &mut R,
    walk: &[u32],
    sought: &WalkSearch,
) -> Result<bool, Fault>
    ensures yes { R.tells → IsWhole (R.state reads.old) → IfOk result (λ yes. OnTrue yes
        (IsWalkOrNone (neighbours_for (R.state reads.old) sought.now)
        sought.now.from sought.now.to walk.now)) }
    ensures no { R.tells → IsWhole (R.state reads.old) → IfOk result (λ yes. OnFalse yes
        (¬ IsWalkOrNone (neighbours_for (R.state reads.old) sought.now)
        sought.now.from sought.now.to walk.now)) }
    ensures cost { R.tells → IsWhole (R.state reads.old) → ReadsAtMost
        (nodes_reads (R.state reads.old) sought.now.direction sought.now.labels.now
        (left_nodes walk.now) + 1) (R.state reads.old) (R.state reads.new) }
    ensures damaged { R.tells → IfErr result (BlamesBroken (R.state reads.old)) }
    ensures read { IsRead R.Reads reads.old reads.new }
    ensures cause { HasFaultCause (R.faults reads.old) (R.faults reads.new) result }
{
    if walk.is_empty() {
        return Ok(true);
    }
    let last = walk.len() - 1;
    if walk[0] != sought.from {
        return Ok(false);
    }
    if walk[last] != sought.to {
        return Ok(false);
    }
    for row in 0..last {
        let steps = is_step(alloc, reads, walk[row], walk[row + 1], sought)?;
        if !steps {
            return Ok(false);
        }
    }
    let there = is_node(reads, sought.to)?;
    Ok(there)
}

/// Whether a node is there and has another as a neighbour.
fn is_step<R: Reads>(
    alloc: Global,
    reads: &mut R,
    node: u32,
    next: u32,
    sought: &WalkSearch,
) -> Result<bool, Fault>
    ensures yes { R.tells → IsWhole (R.state reads.old) → IfOk result (λ yes. OnTrue yes
        (IsStep (neighbours_for (R.state reads.old) sought.now) node next)) }
    ensures no { R.tells → IsWhole (R.state reads.old) → IfOk result (λ yes. OnFalse yes
        (¬ IsStep (neighbours_for (R.state reads.old) sought.now) node next)) }
    ensures cost { R.tells → IsWhole (R.state reads.old) → ReadsAtMost
        (most_reads (R.state reads.old) sought.now.direction sought.now.labels.now node)
        (R.state reads.old) (R.state reads.new) }
    ensures damaged { R.tells → IfErr result (BlamesBroken (R.state reads.old)) }
    ensures read { IsRead R.Reads reads.old reads.new }
    ensures cause { HasFaultCause (R.faults reads.old) (R.faults reads.new) result }
{
    let found = neighbours(alloc, reads, node, sought.direction, sought.labels)?;
    match found {
        Some(ends) => Ok(has_node(&ends, next)),
        None => Ok(false),
    }
}

/// Whether a node is among others.
fn has_node(nodes: &[u32], node: u32) -> bool
    ensures yes { OnTrue result (Contains nodes.now node) }
    ensures no { OnFalse result (¬ Contains nodes.now node) }
{
    nodes.contains(&node)
}
