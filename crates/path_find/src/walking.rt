ghost use Rattle.std.specs.Prelude.{◌+◌, ℕ, List, IfErr, IfOk};
ghost use Rattle.plain_graph.specs.Graph.{has_node};
ghost use Rattle.plain_graph.specs.Reached.{IsLeastOrNone};
ghost use Rattle.rec_bytes.specs.Frame.{IsRead};
ghost use Rattle.expand.specs.ExpandFault.{HasExpandCause};
ghost use Rattle.chain_edit.specs.Walking.{ReadsAtMost};
ghost use Rattle.path_find.specs.Costs.{ReadsEnds, TwoSearches, searches_reads};
ghost use Rattle.path_find.specs.Finding.{IsPathFault, TellsEnds};
ghost use Rattle.path_find.specs.Meeting.{reversed};
ghost use Rattle.path_find.specs.Reads.{StandFor, adjacency_of};
ghost use Rattle.store_rules.specs.Rules.{IsWhole};
ghost use Rattle.store_rules.specs.Graph.{graph_in};

use crate::meeting::meet;
use crate::node_test::is_node;
use crate::{Walk, WalkSearch};
use expand::ExpandFault;
use plain_graph::Direction;
use rec_bytes::Reads;
use std::alloc::Global;

/// The walk that `find_path` finds, without levels. It searches from both nodes, so it mostly reads
/// far less.
///
/// It costs a read for each of the two nodes; what `expand` reads at the nodes that fewer than some
/// edges lead to from the first, or against the direction from the last, once at each; and once
/// more at each node of the walk from where the two searches met, but the last. The two numbers of
/// edges are together as many as the walk has.
pub fn find_walk<R: Reads>(
    alloc: Global,
    reads: &mut R,
    from: u32,
    to: u32,
    direction: Direction,
    labels: &[u32],
) -> Result<Walk, ExpandFault>
    ensures found { R.tells → IsWhole (R.state reads.old) → (types : List (List ℕ))
        → StandFor (R.state reads.old).records labels.now types → IfOk result (λ walk.
        IsLeastOrNone (adjacency_of (R.state reads.old) direction types) from to walk) }
    // where there is no walk, there is no way on
    ensures cost { R.tells → IsWhole (R.state reads.old) → (types : List (List ℕ))
        → StandFor (R.state reads.old).records labels.now types → IfOk result (λ walk.
        (searches : TwoSearches (adjacency_of (R.state reads.old) direction types)
        (adjacency_of (R.state reads.old) (reversed direction) types) from to walk)
        × ReadsAtMost (searches_reads (R.state reads.old) direction labels.now searches + 2)
        (R.state reads.old) (R.state reads.new)) }
    ensures missing_cost { IfErr result (ReadsEnds (R.state reads.old) (R.state reads.new)) }
    ensures missing { R.tells → IsWhole (R.state reads.old)
        → TellsEnds result from to (has_node (graph_in (R.state reads.old)) from)
        (has_node (graph_in (R.state reads.old)) to) }
    ensures damaged { R.tells → IfErr result (IsPathFault (R.state reads.old) from to) }
    ensures read { IsRead R.Reads reads.old reads.new }
    ensures cause { HasExpandCause (R.faults reads.old) (R.faults reads.new) result }
{
    let from_there = is_node(reads, from)?;
    if !from_there {
        return Err(ExpandFault::NoNode { id: from });
    }
    let to_there = is_node(reads, to)?;
    if !to_there {
        return Err(ExpandFault::NoNode { id: to });
    }
    let sought = WalkSearch {
        from,
        to,
        direction,
        labels,
    };
    let walk = meet(alloc, reads, &sought)?;
    Ok(Walk::new(walk))
}
