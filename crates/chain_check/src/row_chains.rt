//! The chains of nodes in the rows of relationships, followed in memory.

ghost use Rattle.std.specs.Prelude.{◌≡◌, ◌*◌, ◌<◌, ◌≤◌, IfNone, IfOk, IfSome, List, length, map, ℕ};
ghost use Rattle.std.specs.List.{All};
ghost use Rattle.rec_bytes.specs.Format.{most_ids};
ghost use Rattle.record_lists.specs.Heads.{FoundBelow};
ghost use Rattle.chain_check.specs.LinkRows.{IsRowChain, RowEndsFound, row_at, row_end};

use crate::link_rows::{LinkRow, row_at};
use rec_bytes::NIL;
use record_lists::Found;
use std::alloc::{AllocError, Global};

/// The chain of a node from a relationship on, or none where there is no such chain. It looks at
/// each row of the chain once, and at most at as many as there are.
fn follow_rows(
    alloc: Global,
    rows: &[LinkRow],
    node: u32,
    first: u32,
) -> Result<Option<Vec<u32>>, AllocError>
    requires { length rows.now ≤ most_ids }
    ensures found { IfOk result
        (λ found. IfSome found (λ ids. IsRowChain rows.now node first ids.items)) }
    ensures none { IfOk result (λ found. IfNone found
        ((xs : List ℕ) → ¬ IsRowChain rows.now node first xs)) }
    ensures low { IfOk result
        (λ found. IfSome found (λ ids. All (λ x. x < length rows.now) ids.items)) }
{
    let mut ids = Vec::new(alloc);
    let mut before = NIL;
    let mut at = first;
    for _ in 0..rows.len() {
        if at == NIL {
            return Ok(Some(ids));
        }
        if at as usize >= rows.len() {
            return Ok(None);
        }
        let row = row_at(rows, at);
        if !row.fits(node, before) {
            return Ok(None);
        }
        ids.push(at)?;
        before = at;
        at = row.next(node);
    }
    if at == NIL { Ok(Some(ids)) } else { Ok(None) }
}

/// The ends at a node of these relationships.
fn ends_of_rows(
    alloc: Global,
    rows: &[LinkRow],
    node: u32,
    ids: &[u32],
) -> Result<Vec<u32>, AllocError>
    requires few { length rows.now ≤ most_ids }
    requires low { All (λ x. x < length rows.now) ids.now }
    ensures ends { IfOk result
        (λ ends. ends.items ≡ map (λ x. row_end node x (row_at rows.now x)) ids.now) }
    ensures low { IfOk result (λ ends. All (λ x. x < 2 * length rows.now) ends.items) }
{
    let mut ends = Vec::with_capacity(alloc, ids.len())?;
    for id in ids {
        ends.push(row_at(rows, *id).end(node, *id))?;
    }
    Ok(ends)
}

/// The ends in the chain of a node from a relationship on, if there is such a chain.
pub(crate) fn row_chain_ends(
    alloc: Global,
    rows: &[LinkRow],
    node: u32,
    first: u32,
) -> Result<Found, AllocError>
    requires { length rows.now ≤ most_ids }
    ensures found { IfOk result (RowEndsFound rows.now node first) }
    ensures low { IfOk result (FoundBelow (2 * length rows.now)) }
{
    let Some(ids) = follow_rows(alloc, rows, node, first)? else {
        return Ok(Found::Missing);
    };
    let ends = ends_of_rows(alloc, rows, node, &ids)?;
    Ok(Found::Items(ends))
}
