ghost use Rattle.std.specs.Prelude.{◌<◌, ℕ, List, Contains, IfErr, IfOk};
ghost use Rattle.plain_graph.specs.Graph.{has_node};
ghost use Rattle.rec_bytes.specs.Frame.{IsRead};
ghost use Rattle.expand.specs.ExpandFault.{HasExpandCause};
ghost use Rattle.plain_graph.specs.Adjacency.{Adjacency};
ghost use Rattle.plain_graph.specs.Reached.{IsAnswer};
ghost use Rattle.chain_edit.specs.Walking.{ReadsAtMost};
ghost use Rattle.path_find.specs.Costs.{ReadsEnds, nearer_nodes, path_reads};
ghost use Rattle.path_find.specs.Finding.{IsPathFault, TellsEnds};
ghost use Rattle.plain_graph.specs.Levels.{IsCertified, IsShortestOrNone};
ghost use Rattle.path_find.specs.Reading.{IsSomeTree};
ghost use Rattle.path_find.specs.Reads.{StandFor, adjacency_of};
ghost use Rattle.path_find.specs.Search.{AreNearer, HasSearched};
ghost use Rattle.path_find.specs.Tree.{node_at, row_count};
ghost use Rattle.store_rules.specs.Rules.{IsWhole};
ghost use Rattle.store_rules.specs.Graph.{graph_in};

use crate::node_test::is_node;
use crate::reading::{levels_of, walk_to};
use crate::searching::search;
use crate::tree::Tree;
use crate::{Answer, Levels, Walk};
use expand::ExpandFault;
use plain_graph::Direction;
use rec_bytes::Reads;
use std::alloc::{AllocError, Global};

/// A shortest walk from a node to another, by edges of a direction and of the types with these
/// numbers, or of all types where none is given. Of the shortest walks it is the one whose list of
/// identifiers is least; it is empty where there is none. The levels hold the nodes that no more
/// edges reach, or without a walk all that any number of edges reaches.
///
/// It costs a read for each of the two nodes, and what `expand` reads at each node that is nearer
/// than the target, once.
pub fn find_path<R: Reads>(
    alloc: Global,
    reads: &mut R,
    from: u32,
    to: u32,
    direction: Direction,
    labels: &[u32],
) -> Result<Answer, ExpandFault>
    ensures found { R.tells → IsWhole (R.state reads.old) → (types : List (List ℕ))
        → StandFor (R.state reads.old).records labels.now types → IfOk result (λ answer.
        IsAnswer (adjacency_of (R.state reads.old) direction types) from to
        answer.walk answer.levels) }
    // so no walk has fewer edges, or there is none
    ensures shortest { R.tells → IsWhole (R.state reads.old) → (types : List (List ℕ))
        → StandFor (R.state reads.old).records labels.now types → IfOk result (λ answer.
        IsShortestOrNone (adjacency_of (R.state reads.old) direction types) from to answer.walk) }
    // and the levels prove it
    ensures certified { R.tells → IsWhole (R.state reads.old) → (types : List (List ℕ))
        → StandFor (R.state reads.old).records labels.now types → IfOk result (λ answer.
        IsCertified (adjacency_of (R.state reads.old) direction types) from to
        answer.walk answer.levels) }
    // a node that is nearer than the target is read once, and no other but the two
    ensures cost { R.tells → IsWhole (R.state reads.old) → IfOk result (λ answer. ReadsAtMost
        (path_reads (R.state reads.old) direction labels.now answer.walk answer.levels)
        (R.state reads.old) (R.state reads.new)) }
    ensures missing_cost { IfErr result (ReadsEnds (R.state reads.old) (R.state reads.new)) }
    ensures missing { R.tells → IsWhole (R.state reads.old)
        → TellsEnds result from to (has_node (graph_in (R.state reads.old)) from)
        (has_node (graph_in (R.state reads.old)) to) }
    ensures damaged { R.tells → IfErr result (IsPathFault (R.state reads.old) from to) }
    ensures read { IsRead R.Reads reads.old reads.new }
    ensures cause { HasExpandCause (R.faults reads.old) (R.faults reads.new) result }
{
    let from_there = is_node(reads, from)?;
    if !from_there {
        return Err(ExpandFault::NoNode { id: from });
    }
    let to_there = is_node(reads, to)?;
    if !to_there {
        return Err(ExpandFault::NoNode { id: to });
    }
    let tree = search(alloc, reads, from, to, direction, labels)?;
    let answer = answer_of(alloc, &tree, to)?;
    Ok(answer)
}

/// What a search of the target found.
fn answer_of(alloc: Global, tree: &Tree, to: u32) -> Result<Answer, AllocError>
    requires { IsSomeTree tree.now }
    ensures is { (near : Adjacency) (from : ℕ) → HasSearched near tree.now from to
        → IfOk result (λ answer. IsAnswer near from to answer.walk answer.levels) }
    // the nodes of rows that are nearer are told as such
    ensures nearer { (done : ℕ) → AreNearer tree.now done to → IfOk result (λ answer.
        (i : ℕ) → i < done → i < row_count tree.now
        → Contains (nearer_nodes answer.walk answer.levels) (node_at tree.now i)) }
{
    let walk = match tree.find(to) {
        Some(row) => walk_to(alloc, tree, row)?,
        None => Vec::new(alloc),
    };
    let levels = levels_of(alloc, tree)?;
    Ok(Answer {
        walk: Walk::new(walk),
        levels: Levels::new(levels),
    })
}
