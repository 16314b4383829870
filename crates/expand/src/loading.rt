//! Where the rows of the relationships at a node come from.

ghost use Rattle.std.specs.Prelude.{◌+◌, ℕ, List, IfErr, IfOk, length};
ghost use Rattle.plain_graph.specs.Graph.{has_node};
ghost use Rattle.rel_store.specs.Loading.{rel_mark};
ghost use Rattle.chain_edit.specs.Walking.{ReadsAtMost};
ghost use Rattle.group_store.specs.Loading.{group_mark};
ghost use Rattle.expand.specs.Costs.{most_reads};
ghost use Rattle.expand.specs.ExpandFault.{HasExpandCause};
ghost use Rattle.expand.specs.Expanding.{
  Blames,
  CanWalkGroups,
  HasDenseRows,
  IsDenseRow,
  IsExpandFault,
  TellsNode,
  rows_of,
};
ghost use Rattle.expand.specs.Matching.{IsPart, is_met};
ghost use Rattle.store_rules.specs.Rules.{IsWhole};
ghost use Rattle.store_rules.specs.Graph.{graph_in};

use crate::ExpandFault;
use crate::first_links::first_links;
use crate::walking::walk_all;
use chain_edit::{Chain, walk};
use group_store::groups;
use node_store::{NodeRow, load};
use plain_graph::Direction;
use rec_bytes::{Key, NODES, RELATIONSHIPS, Reads};
use rel_store::EdgeRow;
use std::alloc::Global;

/// Reads rows of relationships at a node, a loop once, in the order of its chains: all of a sparse
/// node's, and of a dense one's those of a direction and of these types.
pub(crate) fn load_rows<R: Reads>(
    alloc: Global,
    space: &mut R,
    node: u32,
    direction: Direction,
    labels: &[u32],
) -> Result<Vec<EdgeRow>, ExpandFault>
    ensures part { R.tells → IfOk result (λ rows. IsWhole (R.state space.old)
        → IsPart (is_met direction labels.now node) rows.items
        (rows_of (R.state space.old).records)) }
    ensures missing { R.tells → IsWhole (R.state space.old)
        → TellsNode result node (has_node (graph_in (R.state space.old)) node) }
    ensures damaged { R.tells → IfErr result (IsExpandFault (R.state space.old) node) }
    ensures reads { R.tells → IsWhole (R.state space.old)
        → ReadsAtMost (most_reads (R.state space.old) direction labels.now node)
        (R.state space.old) (R.state space.new) }
    ensures at_most { ReadsAtMost
        (group_mark (R.state space.old) + rel_mark (R.state space.old) + 1)
        (R.state space.old) (R.state space.new) }
    ensures onward { R.onward space.old space.new }
    ensures cause { HasExpandCause (R.faults space.old) (R.faults space.new) result }
{
    let mark = space.meta(RELATIONSHIPS).high;
    let Some(row) = load(space, node)? else {
        return Err(ExpandFault::NoNode { id: node });
    };
    if row.dense {
        return dense_rows(alloc, space, &row, direction, labels);
    }
    let chain = Chain {
        owner: Key {
            file: NODES,
            id: node,
        },
        node,
        first: row.first,
    };
    let rows = walk(alloc, space, &chain, mark)?;
    Ok(rows)
}

/// Those of the dense node of a row. It reads the groups, and then the chains that can have some.
fn dense_rows<R: Reads>(
    alloc: Global,
    space: &mut R,
    row: &NodeRow,
    direction: Direction,
    labels: &[u32],
) -> Result<Vec<EdgeRow>, ExpandFault>
    ensures rows { R.tells → IfOk result (λ rows. HasDenseRows (R.state space.old)
        (R.state space.new) row.now direction labels.now rows.items) }
    ensures at_most { ReadsAtMost (group_mark (R.state space.old) + rel_mark (R.state space.old))
        (R.state space.old) (R.state space.new) }
    ensures few_reads { R.tells → (groups members : List ℕ)
        → CanWalkGroups (R.state space.old) row.now direction labels.now groups members
        → ReadsAtMost (length groups + length members) (R.state space.old) (R.state space.new) }
    ensures damaged { R.tells → IsDenseRow (R.state space.old) row.now
        → IfErr result (Blames (R.state space.old)) }
    ensures onward { R.onward space.old space.new }
    ensures cause { HasExpandCause (R.faults space.old) (R.faults space.new) result }
{
    let groups = groups(alloc, space, row)?;
    let links = first_links(alloc, &groups, direction, labels)?;
    let rows = walk_all(alloc, space, row.id, &links)?;
    Ok(rows)
}
