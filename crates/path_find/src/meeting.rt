//! A least walk, by searches from both of its ends.

ghost use Rattle.std.specs.Prelude.{◌≡◌, ◌<◌, ◌+◌, ℕ, IfErr, IfOk, OnOk, true};
ghost use Rattle.std.specs.Bool.{OnFalse, OnTrue};
ghost use Rattle.plain_graph.specs.Graph.{has_node};
ghost use Rattle.rec_bytes.specs.Fault.{HasFaultCause};
ghost use Rattle.rec_bytes.specs.Frame.{IsRead};
ghost use Rattle.chain_edit.specs.Walking.{ReadsAtMost};
ghost use Rattle.path_find.specs.Costs.{
  ReadsBetween,
  TwoSearches,
  but_last,
  nodes_reads,
  reach_reads,
  searches_reads,
};
ghost use Rattle.path_find.specs.Damage.{BlamesBroken};
ghost use Rattle.plain_graph.specs.Reached.{IsLeastOrNone};
ghost use Rattle.path_find.specs.Meeting.{
  AreApart,
  AreCloser,
  AreJoined,
  CanDescend,
  HaveMet,
  reversed,
};
ghost use Rattle.path_find.specs.Reach.{AreLayers, begun};
ghost use Rattle.path_find.specs.Reading.{IsSomeTree};
ghost use Rattle.path_find.specs.Tree.{IsTree, Spans, node_at, row_count};
ghost use Rattle.path_find.specs.WalkSearch.{neighbours_back, neighbours_for};
ghost use Rattle.store_rules.specs.Rules.{IsWhole};
ghost use Rattle.store_rules.specs.Graph.{graph_in};

use crate::WalkSearch;
use crate::descending::descend;
use crate::reach::{Reach, grow, is_over, width_of};
use crate::reading::walk_to;
use crate::sharing::{first_shared, has_shared};
use crate::tree::Tree;
use plain_graph::Direction;
use rec_bytes::{Fault, Reads};
use std::alloc::Global;

/// The least of the shortest walks that are sought, or none where there is none. Of the two
/// searches the one goes on that has fewer farthest nodes, until both have found a node.
pub(crate) fn meet<R: Reads>(
    alloc: Global,
    space: &mut R,
    sought: &WalkSearch,
) -> Result<Vec<u32>, Fault>
    ensures found { R.tells → IsWhole (R.state space.old)
        → has_node (graph_in (R.state space.old)) sought.now.from ≡ true
        → has_node (graph_in (R.state space.old)) sought.now.to ≡ true → IfOk result (λ walk.
        IsLeastOrNone (neighbours_for (R.state space.old) sought.now)
        sought.now.from sought.now.to walk.items) }
    ensures cost { R.tells → IsWhole (R.state space.old)
        → has_node (graph_in (R.state space.old)) sought.now.from ≡ true
        → has_node (graph_in (R.state space.old)) sought.now.to ≡ true → IfOk result (λ walk.
        (searches : TwoSearches (neighbours_for (R.state space.old) sought.now)
        (neighbours_back (R.state space.old) sought.now)
        sought.now.from sought.now.to walk.items)
        × ReadsAtMost (searches_reads (R.state space.old) sought.now.direction
        sought.now.labels.now searches) (R.state space.old) (R.state space.new)) }
    ensures damaged { R.tells → IfErr result (BlamesBroken (R.state space.old)) }
    ensures read { IsRead R.Reads space.old space.new }
    ensures cause { HasFaultCause (R.faults space.old) (R.faults space.new) result }
{
    let mut ahead = Reach::new(alloc, sought.from)?;
    let mut behind = Reach::new(alloc, sought.to)?;
    meet_between(alloc, space, &mut ahead, &mut behind, sought)
}

/// The same by two searches that begin at these nodes.
fn meet_between<R: Reads>(
    alloc: Global,
    space: &mut R,
    ahead: &mut Reach,
    behind: &mut Reach,
    sought: &WalkSearch,
) -> Result<Vec<u32>, Fault>
    requires ahead { ahead.old ≡ begun sought.now.from }
    requires behind { behind.old ≡ begun sought.now.to }
    ensures found { R.tells → IsWhole (R.state space.old)
        → has_node (graph_in (R.state space.old)) sought.now.from ≡ true
        → has_node (graph_in (R.state space.old)) sought.now.to ≡ true → IfOk result (λ walk.
        IsLeastOrNone (neighbours_for (R.state space.old) sought.now)
        sought.now.from sought.now.to walk.items) }
    ensures cost { R.tells → IsWhole (R.state space.old)
        → has_node (graph_in (R.state space.old)) sought.now.from ≡ true
        → has_node (graph_in (R.state space.old)) sought.now.to ≡ true → IfOk result (λ walk.
        (searches : TwoSearches (neighbours_for (R.state space.old) sought.now)
        (neighbours_back (R.state space.old) sought.now)
        sought.now.from sought.now.to walk.items)
        × ReadsAtMost (searches_reads (R.state space.old) sought.now.direction
        sought.now.labels.now searches) (R.state space.old) (R.state space.new)) }
    ensures damaged { R.tells → IfErr result (BlamesBroken (R.state space.old)) }
    ensures read { IsRead R.Reads space.old space.new }
    ensures cause { HasFaultCause (R.faults space.old) (R.faults space.new) result }
{
    let mut has_met = sought.from == sought.to;
    while !has_met {
        let over = is_over(ahead, behind);
        if over {
            let none = Vec::new(alloc);
            return Ok(none);
        }
        let met = approach(alloc, space, ahead, behind, sought)?;
        has_met = met;
    }
    join(alloc, space, &ahead.tree, &behind.tree, sought)
}

/// Lets the search with fewer farthest nodes go on by a level, and tells whether both have found a
/// node then.
fn approach<R: Reads>(
    alloc: Global,
    space: &mut R,
    ahead: &mut Reach,
    behind: &mut Reach,
    sought: &WalkSearch,
) -> Result<bool, Fault>
    requires ahead { IsTree ahead.old.tree ahead.old.done }
    requires behind { IsTree behind.old.tree behind.old.done }
    requires ahead_left { ahead.old.done < row_count ahead.old.tree }
    requires behind_left { behind.old.done < row_count behind.old.tree }
    ensures met { IfOk result (λ met. OnTrue met (HaveMet ahead.new.tree behind.new.tree)) }
    ensures apart { IfOk result (λ met. OnFalse met (AreApart ahead.old.tree behind.old.tree
        → AreApart ahead.new.tree behind.new.tree)) }
    ensures closer { OnOk result ((ahead_depth behind_depth : ℕ)
        → AreLayers ahead.old.tree ahead.old.done ahead_depth
        → AreLayers behind.old.tree behind.old.done behind_depth
        → AreCloser ahead.old.tree behind.old.tree ahead.new.tree behind.new.tree
        ahead.new.done behind.new.done (ahead_depth + behind_depth)) }
    ensures more { OnOk result (ahead.old.done + behind.old.done
        < ahead.new.done + behind.new.done) }
    ensures ahead_spans { R.tells → IsWhole (R.state space.old) → OnOk result (
        Spans (neighbours_for (R.state space.old) sought.now) ahead.old.tree ahead.old.done
        → Spans (neighbours_for (R.state space.old) sought.now)
        ahead.new.tree ahead.new.done) }
    ensures behind_spans { R.tells → IsWhole (R.state space.old) → OnOk result (
        Spans (neighbours_back (R.state space.old) sought.now)
        behind.old.tree behind.old.done
        → Spans (neighbours_back (R.state space.old) sought.now)
        behind.new.tree behind.new.done) }
    ensures cost { R.tells → IsWhole (R.state space.old) → OnOk result (ReadsBetween
        (reach_reads (R.state space.old) sought.now ahead.old behind.old)
        (reach_reads (R.state space.old) sought.now ahead.new behind.new)
        (R.state space.old) (R.state space.new)) }
    ensures damaged { R.tells → IfErr result (BlamesBroken (R.state space.old)) }
    ensures read { IsRead R.Reads space.old space.new }
    ensures cause { HasFaultCause (R.faults space.old) (R.faults space.new) result }
{
    if width_of(ahead) <= width_of(behind) {
        grow(alloc, space, ahead, sought.direction, sought.labels)?;
        Ok(has_shared(&ahead.tree, ahead.done, &behind.tree))
    } else {
        grow(
            alloc,
            space,
            behind,
            reversed(sought.direction),
            sought.labels,
        )?;
        Ok(has_shared(&behind.tree, behind.done, &ahead.tree))
    }
}

/// The edges of a direction, seen from their other ends.
fn reversed(direction: Direction) -> Direction
    ensures { result ≡ reversed direction }
{
    match direction {
        Direction::Outgoing => Direction::Incoming,
        Direction::Incoming => Direction::Outgoing,
        Direction::Both => Direction::Both,
    }
}

/// The way to the first node that both have found, and from there the way on.
fn join<R: Reads>(
    alloc: Global,
    space: &mut R,
    ahead: &Tree,
    behind: &Tree,
    sought: &WalkSearch,
) -> Result<Vec<u32>, Fault>
    requires ahead { IsSomeTree ahead.now }
    requires behind { IsSomeTree behind.now }
    requires met { HaveMet ahead.now behind.now }
    ensures joins { R.tells → IsWhole (R.state space.old) → IfOk result (λ walk.
        CanDescend (neighbours_for (R.state space.old) sought.now) behind.now
        → AreJoined (neighbours_for (R.state space.old) sought.now) ahead.now behind.now
        walk.items) }
    ensures cost { R.tells → IsWhole (R.state space.old) → IfOk result (λ walk.
        CanDescend (neighbours_for (R.state space.old) sought.now) behind.now
        → (joined : AreJoined (neighbours_for (R.state space.old) sought.now)
        ahead.now behind.now walk.items) × ReadsAtMost (nodes_reads (R.state space.old)
        sought.now.direction sought.now.labels.now
        (but_last (node_at ahead.now joined.row) joined.way))
        (R.state space.old) (R.state space.new)) }
    ensures damaged { R.tells → IfErr result (BlamesBroken (R.state space.old)) }
    ensures read { IsRead R.Reads space.old space.new }
    ensures cause { HasFaultCause (R.faults space.old) (R.faults space.new) result }
{
    let Some(row) = first_shared(ahead, 0, behind) else {
        unreachable!();
    };
    let Some(last) = behind.find(ahead.node(row)) else {
        unreachable!();
    };
    let mut walk = walk_to(alloc, ahead, row)?;
    let mut way = descend(alloc, space, behind, last, sought)?;
    walk.append(&mut way)?;
    Ok(walk)
}
