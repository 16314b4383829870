//! How many edges a node has.

ghost use Rattle.std.specs.Prelude.{◌≡◌, ◌+◌, ℕ, List, IfErr, IfOk, false, filter, length, map};
ghost use Rattle.std.specs.Prelude.{true};
ghost use Rattle.plain_graph.specs.Graph.{has_node};
ghost use Rattle.plain_graph.specs.Meaning.{edges_at};
ghost use Rattle.rel_store.specs.Loading.{rel_mark};
ghost use Rattle.store_rules.specs.Rows.{option_list};
ghost use Rattle.chain_edit.specs.Walking.{ReadsAtMost};
ghost use Rattle.group_store.specs.GroupChain.{IsDense};
ghost use Rattle.group_store.specs.Loading.{group_mark};
ghost use Rattle.group_store.specs.Spreading.{HasCountedGroups};
ghost use Rattle.group_store.specs.Walking.{IsWalkable, group_row_at};
ghost use Rattle.expand.specs.Costs.{are_no_names, most_reads, type_count};
ghost use Rattle.expand.specs.Degrees.{
  IsDenseDegree,
  as_number,
  count_on,
  counted_sum,
  lacks_counts,
  rows_count,
};
ghost use Rattle.expand.specs.ExpandFault.{HasExpandCause};
ghost use Rattle.expand.specs.Expanding.{
  AreNameNumbers,
  Blames,
  CanWalkGroups,
  IsDenseRow,
  IsExpandFault,
  TellsNode,
  name_of,
  rows_of,
};
ghost use Rattle.expand.specs.Matching.{is_met_at, rows_at};
ghost use Rattle.store_rules.specs.Rules.{IsWhole};
ghost use Rattle.store_rules.specs.Graph.{graph_in};

use crate::ExpandFault;
use crate::first_links::first_links;
use crate::matching::{End, end_of, is_wanted};
use crate::unknown_types::{are_no_names, find_node};
use crate::walking::walk_all;
use chain_edit::{Chain, walk};
use group_store::{GroupRow, groups};
use node_store::{NodeRow, load};
use plain_graph::Direction;
use rec_bytes::{Key, NODES, RELATIONSHIPS, Reads};
use rel_store::EdgeRow;
use std::alloc::Global;

/// How many edges `expand` gives: those at a node in a direction, of the type with this number, or
/// of all types where none is given. In both directions a loop counts twice.
///
/// It costs a read for the node. A sparse node costs one more for each relationship at it, a dense
/// one for each type that it has, where its groups of these types are counted. Where one isn't, it
/// costs as many besides as relationships are met. Where the number is no name's, it costs the read
/// for the node alone.
pub fn degree<R: Reads>(
    alloc: Global,
    space: &mut R,
    node: u32,
    direction: Direction,
    label: Option<u32>,
) -> Result<u64, ExpandFault>
    ensures edges { R.tells → IfOk result (λ count. IsWhole (R.state space.old)
        → AreNameNumbers (R.state space.old).records (option_list label)
        → count ≡ length (edges_at (graph_in (R.state space.old)) direction
        (map (name_of (R.state space.old).records) (option_list label)) node)) }
    // so for any number
    ensures rows { R.tells → IfOk result (λ count. IsWhole (R.state space.old)
        → count ≡ length (rows_at direction (option_list label) node
        (rows_of (R.state space.old).records))) }
    ensures missing { R.tells → IsWhole (R.state space.old)
        → TellsNode result node (has_node (graph_in (R.state space.old)) node) }
    ensures damaged { R.tells → IfErr result (IsExpandFault (R.state space.old) node) }
    ensures reads { R.tells → IsWhole (R.state space.old)
        → ReadsAtMost (most_reads (R.state space.old) direction (option_list label) node)
        (R.state space.old) (R.state space.new) }
    // a dense node's groups, where they are counted
    ensures counted_reads { R.tells → IsWhole (R.state space.old)
        → IsDense (R.state space.old).records node
        → HasCountedGroups (R.state space.old).records node
        → ReadsAtMost (1 + type_count (graph_in (R.state space.old)) node)
        (R.state space.old) (R.state space.new) }
    // where the number is no name's, the node alone is read
    ensures unknown { are_no_names (R.state space.old).records (option_list label) ≡ true
        → ReadsAtMost 1 (R.state space.old) (R.state space.new) }
    ensures at_most { ReadsAtMost
        (group_mark (R.state space.old) + rel_mark (R.state space.old) + 1)
        (R.state space.old) (R.state space.new) }
    ensures onward { R.onward space.old space.new }
    ensures cause { HasExpandCause (R.faults space.old) (R.faults space.new) result }
{
    match label {
        Some(label) => degree_of(alloc, space, node, direction, &[label]),
        None => degree_of(alloc, space, node, direction, &[]),
    }
}

/// So many edges of these types, or of all types where none is given.
fn degree_of<R: Reads>(
    alloc: Global,
    space: &mut R,
    node: u32,
    direction: Direction,
    labels: &[u32],
) -> Result<u64, ExpandFault>
    ensures rows { R.tells → IfOk result (λ count. IsWhole (R.state space.old)
        → count ≡ rows_count direction labels.now node (rows_of (R.state space.old).records)) }
    ensures missing { R.tells → IsWhole (R.state space.old)
        → TellsNode result node (has_node (graph_in (R.state space.old)) node) }
    ensures damaged { R.tells → IfErr result (IsExpandFault (R.state space.old) node) }
    ensures reads { R.tells → IsWhole (R.state space.old)
        → ReadsAtMost (most_reads (R.state space.old) direction labels.now node)
        (R.state space.old) (R.state space.new) }
    ensures counted_reads { R.tells → IsWhole (R.state space.old)
        → IsDense (R.state space.old).records node
        → HasCountedGroups (R.state space.old).records node
        → ReadsAtMost (1 + type_count (graph_in (R.state space.old)) node)
        (R.state space.old) (R.state space.new) }
    ensures unknown { are_no_names (R.state space.old).records labels.now ≡ true
        → ReadsAtMost 1 (R.state space.old) (R.state space.new) }
    ensures at_most { ReadsAtMost
        (group_mark (R.state space.old) + rel_mark (R.state space.old) + 1)
        (R.state space.old) (R.state space.new) }
    ensures onward { R.onward space.old space.new }
    ensures cause { HasExpandCause (R.faults space.old) (R.faults space.new) result }
{
    if are_no_names(space, labels) {
        find_node(space, node)?;
        return Ok(0);
    }
    met_count(alloc, space, node, direction, labels)
}

/// The same, by the rows of the relationships or of the groups.
fn met_count<R: Reads>(
    alloc: Global,
    space: &mut R,
    node: u32,
    direction: Direction,
    labels: &[u32],
) -> Result<u64, ExpandFault>
    ensures rows { R.tells → IfOk result (λ count. IsWhole (R.state space.old)
        → count ≡ rows_count direction labels.now node (rows_of (R.state space.old).records)) }
    ensures missing { R.tells → IsWhole (R.state space.old)
        → TellsNode result node (has_node (graph_in (R.state space.old)) node) }
    ensures damaged { R.tells → IfErr result (IsExpandFault (R.state space.old) node) }
    ensures reads { R.tells → IsWhole (R.state space.old)
        → ReadsAtMost (most_reads (R.state space.old) direction labels.now node)
        (R.state space.old) (R.state space.new) }
    ensures counted_reads { R.tells → IsWhole (R.state space.old)
        → IsDense (R.state space.old).records node
        → HasCountedGroups (R.state space.old).records node
        → ReadsAtMost (1 + type_count (graph_in (R.state space.old)) node)
        (R.state space.old) (R.state space.new) }
    ensures at_most { ReadsAtMost
        (group_mark (R.state space.old) + rel_mark (R.state space.old) + 1)
        (R.state space.old) (R.state space.new) }
    ensures onward { R.onward space.old space.new }
    ensures cause { HasExpandCause (R.faults space.old) (R.faults space.new) result }
{
    let mark = space.meta(RELATIONSHIPS).high;
    let Some(row) = load(space, node)? else {
        return Err(ExpandFault::NoNode { id: node });
    };
    if row.dense {
        return dense_degree(alloc, space, &row, direction, labels);
    }
    let chain = Chain {
        owner: Key {
            file: NODES,
            id: node,
        },
        node,
        first: row.first,
    };
    let rows = walk(alloc, space, &chain, mark)?;
    Ok(count_rows(&rows, node, direction, labels))
}

/// Those of the dense node of a row. It reads the groups, and their relationships only where the
/// number of one isn't known.
fn dense_degree<R: Reads>(
    alloc: Global,
    space: &mut R,
    row: &NodeRow,
    direction: Direction,
    labels: &[u32],
) -> Result<u64, ExpandFault>
    ensures count { R.tells → IfOk result (IsDenseDegree (R.state space.old)
        (R.state space.new) row.now direction labels.now) }
    ensures at_most { ReadsAtMost (group_mark (R.state space.old) + rel_mark (R.state space.old))
        (R.state space.old) (R.state space.new) }
    ensures few_reads { R.tells → (groups members : List ℕ)
        → CanWalkGroups (R.state space.old) row.now direction labels.now groups members
        → ReadsAtMost (length groups + length members) (R.state space.old) (R.state space.new) }
    // those of the groups alone, where these are counted
    ensures counted_reads { R.tells → (groups : List ℕ)
        → IsWalkable (R.state space.old) row.now.id row.now.first groups
        → lacks_counts labels.now (map (group_row_at (R.state space.old).records) groups) ≡ false
        → ReadsAtMost (length groups) (R.state space.old) (R.state space.new) }
    ensures damaged { R.tells → IsDenseRow (R.state space.old) row.now
        → IfErr result (Blames (R.state space.old)) }
    ensures onward { R.onward space.old space.new }
    ensures cause { HasExpandCause (R.faults space.old) (R.faults space.new) result }
{
    let groups = groups(alloc, space, row)?;
    if !lacks_counts(&groups, labels) {
        return Ok(counted_sum(&groups, direction, labels));
    }
    let links = first_links(alloc, &groups, direction, labels)?;
    let rows = walk_all(alloc, space, row.id, &links)?;
    Ok(count_rows(&rows, row.id, direction, labels))
}

/// Whether a group of these types is without the numbers of its relationships.
fn lacks_counts(groups: &[GroupRow], labels: &[u32]) -> bool
    ensures { result ≡ lacks_counts labels.now groups.now }
{
    groups
        .iter()
        .any(|group| is_wanted(labels, group.label) && !group.counted)
}

/// The number of relationships of counted groups that are met, of these types.
fn counted_sum(groups: &[GroupRow], direction: Direction, labels: &[u32]) -> u64
    ensures { result ≡ as_number (counted_sum direction labels.now groups.now) }
{
    let mut sum: u64 = 0;
    for group in groups {
        if is_wanted(labels, group.label) {
            sum = sum.saturating_add(count_on(group, direction));
        }
    }
    sum
}

/// The number of one group.
fn count_on(group: &GroupRow, direction: Direction) -> u64
    ensures { result ≡ count_on direction group.now }
{
    let leaving = group.out_count as u64 + group.loop_count as u64;
    let entering = group.in_count as u64 + group.loop_count as u64;
    match direction {
        Direction::Outgoing => leaving,
        Direction::Incoming => entering,
        Direction::Both => leaving + entering,
    }
}

/// How many of these rows are met.
fn count_rows(rows: &[EdgeRow], node: u32, direction: Direction, labels: &[u32]) -> u64
    ensures { result ≡ as_number (rows_count direction labels.now node rows.now) }
{
    match direction {
        Direction::Outgoing => count_end(rows, node, End::Source, labels),
        Direction::Incoming => count_end(rows, node, End::Target, labels),
        Direction::Both => count_end(rows, node, End::Source, labels).saturating_add(count_end(
            rows,
            node,
            End::Target,
            labels,
        )),
    }
}

/// How many of these rows have the node at an end, of these types.
fn count_end(rows: &[EdgeRow], node: u32, end: End, labels: &[u32]) -> u64
    ensures { result ≡ as_number (length (filter (is_met_at end labels.now node) rows.now)) }
{
    count_met(rows, node, end, labels) as u64
}

fn count_met(rows: &[EdgeRow], node: u32, end: End, labels: &[u32]) -> usize
    ensures { result ≡ length (filter (is_met_at end labels.now node) rows.now) }
{
    rows.iter()
        .filter(|row| end_of(end, row) == node && is_wanted(labels, row.label))
        .count()
}
