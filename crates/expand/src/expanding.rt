ghost use Rattle.std.specs.Prelude.{◌≡◌, ◌+◌, ◌<◌, IfErr, IfOk, map, true};
ghost use Rattle.plain_graph.specs.Graph.{degree_in, has_node};
ghost use Rattle.plain_graph.specs.Meaning.{edges_at};
ghost use Rattle.rel_store.specs.Loading.{rel_mark};
ghost use Rattle.chain_edit.specs.Walking.{ReadsAtMost};
ghost use Rattle.group_store.specs.Loading.{group_mark};
ghost use Rattle.expand.specs.Costs.{are_no_names, dense_reads, most_reads};
ghost use Rattle.expand.specs.ExpandFault.{HasExpandCause};
ghost use Rattle.expand.specs.Expanding.{
  AreNameNumbers,
  AreRowsOf,
  IsExpandFault,
  TellsNode,
  name_of,
  rows_of,
};
ghost use Rattle.expand.specs.Matching.{rows_at};
ghost use Rattle.store_rules.specs.Rules.{IsWhole};
ghost use Rattle.store_rules.specs.Graph.{graph_in};

use crate::ExpandFault;
use crate::loading::load_rows;
use crate::matching::rows_at;
use crate::unknown_types::{are_no_names, find_node};
use plain_graph::Direction;
use rec_bytes::Reads;
use rel_store::EdgeRow;
use std::alloc::Global;

/// The edges at a node in a direction, of the types with these numbers, or of all types where none
/// is given. They come by ascending identifier. In both directions those that leave the node come
/// before those that enter it, and a loop is met twice. A number that is no name's matches no edge.
///
/// It costs a read for the node. A sparse node costs one more for each relationship at it in any
/// direction, a dense one for each type that it has, and for each relationship that is met. Where
/// no number is a name's, it costs the read for the node alone.
pub fn expand<R: Reads>(
    alloc: Global,
    space: &mut R,
    node: u32,
    direction: Direction,
    labels: &[u32],
) -> Result<Vec<EdgeRow>, ExpandFault>
    ensures edges { R.tells → IfOk result (λ rows. IsWhole (R.state space.old)
        → AreNameNumbers (R.state space.old).records labels.now
        → AreRowsOf (R.state space.old).records rows.items
        (edges_at (graph_in (R.state space.old)) direction
        (map (name_of (R.state space.old).records) labels.now) node)) }
    // so for any numbers
    ensures rows { R.tells → IfOk result (λ rows. IsWhole (R.state space.old)
        → rows.items ≡ rows_at direction labels.now node (rows_of (R.state space.old).records)) }
    ensures missing { R.tells → IsWhole (R.state space.old)
        → TellsNode result node (has_node (graph_in (R.state space.old)) node) }
    ensures damaged { R.tells → IfErr result (IsExpandFault (R.state space.old) node) }
    // whatever is answered
    ensures reads { R.tells → IsWhole (R.state space.old)
        → ReadsAtMost (most_reads (R.state space.old) direction labels.now node)
        (R.state space.old) (R.state space.new) }
    // so where a node has more edges than a sparse one may have
    ensures dense_reads { R.tells → IsWhole (R.state space.old)
        → (R.state space.old).shape.threshold < degree_in (graph_in (R.state space.old)) node
        → ReadsAtMost (dense_reads (R.state space.old) direction labels.now node)
        (R.state space.old) (R.state space.new) }
    // where no number is a name's, the node alone is read
    ensures unknown { are_no_names (R.state space.old).records labels.now ≡ true
        → ReadsAtMost 1 (R.state space.old) (R.state space.new) }
    ensures at_most { ReadsAtMost
        (group_mark (R.state space.old) + rel_mark (R.state space.old) + 1)
        (R.state space.old) (R.state space.new) }
    ensures onward { R.onward space.old space.new }
    ensures cause { HasExpandCause (R.faults space.old) (R.faults space.new) result }
{
    if are_no_names(space, labels) {
        find_node(space, node)?;
        return Ok(Vec::new(alloc));
    }
    rows_met(alloc, space, node, direction, labels)
}

/// The same, by the rows of the relationships at the node.
fn rows_met<R: Reads>(
    alloc: Global,
    space: &mut R,
    node: u32,
    direction: Direction,
    labels: &[u32],
) -> Result<Vec<EdgeRow>, ExpandFault>
    ensures rows { R.tells → IfOk result (λ rows. IsWhole (R.state space.old)
        → rows.items ≡ rows_at direction labels.now node (rows_of (R.state space.old).records)) }
    ensures missing { R.tells → IsWhole (R.state space.old)
        → TellsNode result node (has_node (graph_in (R.state space.old)) node) }
    ensures damaged { R.tells → IfErr result (IsExpandFault (R.state space.old) node) }
    ensures reads { R.tells → IsWhole (R.state space.old)
        → ReadsAtMost (most_reads (R.state space.old) direction labels.now node)
        (R.state space.old) (R.state space.new) }
    ensures at_most { ReadsAtMost
        (group_mark (R.state space.old) + rel_mark (R.state space.old) + 1)
        (R.state space.old) (R.state space.new) }
    ensures onward { R.onward space.old space.new }
    ensures cause { HasExpandCause (R.faults space.old) (R.faults space.new) result }
{
    let rows = load_rows(alloc, space, node, direction, labels)?;
    let found = rows_at(alloc, rows, node, direction, labels)?;
    Ok(found)
}
