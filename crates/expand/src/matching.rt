//! Rows of relationships at a node, picked and put into order, whatever they come from.

ghost use Rattle.std.specs.Prelude.{◌≡◌, IfOk, IsPermutation, List, OnOk, filter, nat_eq};
ghost use Rattle.std.specs.List.{list_any};
ghost use Rattle.std.specs.List.Sorted.{IsNonDecreasingBy};
ghost use Rattle.rel_store.specs.declared.edge_row.EdgeRow.{EdgeRow};
ghost use Rattle.expand.specs.Matching.{
  IsPart,
  end_of,
  id_of,
  is_met,
  is_met_at,
  is_wanted,
  rows_at,
};

use plain_graph::Direction;
use rel_store::EdgeRow;
use std::alloc::{AllocError, Global};

/// An end of a relationship.
#[derive(Clone, Copy)]
pub(crate) enum End {
    /// The node that it leaves.
    Source,
    /// The node that it enters.
    Target,
}

/// Of these rows, those at a node in a direction and of these types, all types where none is given,
/// by ascending identifier. In both directions those that leave the node come first, and a loop is
/// met twice. In one direction no second list is made.
pub(crate) fn rows_at(
    alloc: Global,
    rows: Vec<EdgeRow>,
    node: u32,
    direction: Direction,
    labels: &[u32],
) -> Result<Vec<EdgeRow>, AllocError>
    ensures { IfOk result (λ found. (edges : List EdgeRow)
        → IsPart (is_met direction labels.now node) rows.items edges
        → found.items ≡ rows_at direction labels.now node edges) }
{
    match direction {
        Direction::Outgoing => {
            let found = rows_on(rows, node, End::Source, labels)?;
            Ok(found)
        }
        Direction::Incoming => {
            let found = rows_on(rows, node, End::Target, labels)?;
            Ok(found)
        }
        Direction::Both => {
            let leaving = picked(alloc, &rows, node, End::Source, labels)?;
            let mut found = in_order(leaving)?;
            let entering = rows_on(rows, node, End::Target, labels)?;
            found.extend_from_slice(&entering)?;
            Ok(found)
        }
    }
}

/// Those of which the node is this end, by ascending identifier.
fn rows_on(
    rows: Vec<EdgeRow>,
    node: u32,
    end: End,
    labels: &[u32],
) -> Result<Vec<EdgeRow>, AllocError>
    ensures moved { IfOk result (λ found.
        IsPermutation (filter (is_met_at end labels.now node) rows.items) found.items) }
    ensures sorted { IfOk result (λ found. IsNonDecreasingBy id_of found.items) }
{
    let found = kept(rows, node, end, labels);
    in_order(found)
}

/// Those of which the node is this end, in the order of the rows and in their memory.
fn kept(rows: Vec<EdgeRow>, node: u32, end: End, labels: &[u32]) -> Vec<EdgeRow>
    ensures { result.items ≡ filter (is_met_at end labels.now node) rows.items }
{
    let mut found = rows;
    found.retain(|row| end_of(end, row) == node && is_wanted(labels, row.label));
    found
}

/// Those of which the node is this end, in the order of the rows.
fn picked(
    alloc: Global,
    rows: &[EdgeRow],
    node: u32,
    end: End,
    labels: &[u32],
) -> Result<Vec<EdgeRow>, AllocError>
    ensures { IfOk result (λ found.
        found.items ≡ filter (is_met_at end labels.now node) rows.now) }
{
    rows.iter()
        .copied()
        .filter(|row| end_of(end, row) == node && is_wanted(labels, row.label))
        .collect(alloc)
}

/// The node at an end.
pub(crate) fn end_of(end: End, row: &EdgeRow) -> u32
    ensures { result ≡ end_of end row.now }
{
    match end {
        End::Source => row.from,
        End::Target => row.to,
    }
}

/// Whether the type is one of these, or none is given.
pub(crate) fn is_wanted(labels: &[u32], label: u32) -> bool
    ensures { result ≡ is_wanted labels.now label }
{
    labels.is_empty() || is_among(labels, label)
}

fn is_among(labels: &[u32], label: u32) -> bool
    ensures { result ≡ list_any (nat_eq label) labels.now }
{
    labels.iter().any(|other| label == *other)
}

/// The rows in ascending order of their identifiers. A chain begins with its newest edge, so they
/// are turned round first.
fn in_order(rows: Vec<EdgeRow>) -> Result<Vec<EdgeRow>, AllocError>
    ensures moved { IfOk result (λ found. IsPermutation rows.items found.items) }
    ensures sorted { IfOk result (λ found. IsNonDecreasingBy id_of found.items) }
{
    let mut found = rows;
    found.reverse();
    found.sort_by_key(|row| row.id)?;
    Ok(found)
}
