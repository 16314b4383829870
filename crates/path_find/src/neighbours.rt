//! The neighbours of a node.

ghost use Rattle.std.specs.Prelude.{◌≡◌, IfErr, IfNone, IfOk, IfSome, false, true};
ghost use Rattle.std.specs.List.Sorted.{IsNonDecreasing};
ghost use Rattle.plain_graph.specs.Graph.{has_node};
ghost use Rattle.rec_bytes.specs.Fault.{HasFaultCause};
ghost use Rattle.rec_bytes.specs.Frame.{IsRead};
ghost use Rattle.chain_edit.specs.Walking.{ReadsAtMost};
ghost use Rattle.expand.specs.Costs.{most_reads};
ghost use Rattle.path_find.specs.Damage.{BlamesBroken};
ghost use Rattle.path_find.specs.Reads.{neighbours_at};
ghost use Rattle.path_find.specs.Tree.{AreNeighbours};
ghost use Rattle.store_rules.specs.Rules.{IsWhole};
ghost use Rattle.store_rules.specs.Graph.{graph_in};

use crate::ends::ends_of;
use expand::{ExpandFault, expand};
use plain_graph::Direction;
use rec_bytes::{Fault, Reads};
use std::alloc::Global;

/// The neighbours of a node by ascending identifier, one for each edge, and none where there is no
/// such node.
pub(crate) fn neighbours<R: Reads>(
    alloc: Global,
    space: &mut R,
    node: u32,
    direction: Direction,
    labels: &[u32],
) -> Result<Option<Vec<u32>>, Fault>
    ensures some { R.tells → IsWhole (R.state space.old) → IfOk result (λ found.
        IfSome found (λ ends. AreNeighbours (neighbours_at (R.state space.old) direction labels.now)
        node ends.items)) }
    ensures none { R.tells → IsWhole (R.state space.old) → IfOk result (λ found.
        IfNone found (has_node (graph_in (R.state space.old)) node ≡ false)) }
    ensures there { R.tells → IsWhole (R.state space.old) → IfOk result (λ found. IfSome found
        (λ ends. has_node (graph_in (R.state space.old)) node ≡ true)) }
    ensures ascending { IfOk result (λ found. IfSome found (λ ends. IsNonDecreasing ends.items)) }
    // whatever is found, what `expand` reads
    ensures cost { R.tells → IsWhole (R.state space.old)
        → ReadsAtMost (most_reads (R.state space.old) direction labels.now node)
        (R.state space.old) (R.state space.new) }
    ensures damaged { R.tells → IfErr result (BlamesBroken (R.state space.old)) }
    ensures read { IsRead R.Reads space.old space.new }
    ensures cause { HasFaultCause (R.faults space.old) (R.faults space.new) result }
{
    match expand(alloc, space, node, direction, labels) {
        Ok(rows) => {
            let ends = ends_of(alloc, &rows, node)?;
            Ok(Some(ends))
        }
        Err(ExpandFault::NoNode { .. }) => Ok(None),
        Err(ExpandFault::Memory) => Err(Fault::Memory),
        Err(ExpandFault::Disk) => Err(Fault::Disk),
        Err(ExpandFault::Damaged(damage)) => Err(Fault::Damaged(damage)),
    }
}
