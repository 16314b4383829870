//! The items of edges whose rows were read.

ghost use Rattle.std.specs.Prelude.{◌≡◌, ◌≤◌, IfOk, length, map};
ghost use Rattle.plain_graph.specs.declared.item.Item.TheVariants as items;
ghost use Rattle.traversal_run.specs.EdgeItems.{end_item, other_end};

use crate::shown::Shown;
use crate::waiting::Waiting;
use plain_graph::Text;
use rel_store::EdgeRow;
use std::alloc::{AllocError, Global};

/// The edge of a row, of a type with this name.
pub(crate) fn edge_item(alloc: Global, name: &[u8], row: &EdgeRow) -> Result<Shown, AllocError>
    requires { length name.now ≤ 48 }
    ensures { IfOk result (λ item. item
        ≡ items.Edge row.now.id name.now row.now.from row.now.to) }
{
    let label = Text::new(Vec::from_slice(alloc, name)?);
    Ok(Shown::edge(row.id, label, row.from, row.to))
}

/// The vertices at the other ends of edges at a vertex. They wait as numbers, and a single one
/// takes no memory.
pub(crate) fn end_items(alloc: Global, rows: &[EdgeRow], id: u32) -> Result<Waiting, AllocError>
    ensures { IfOk result (λ items. items ≡ map (end_item id) rows.now) }
{
    if let [row] = rows {
        return Ok(Waiting::one(alloc, Shown::vertex(other_end(row, id))));
    }
    let ends = ends_of(alloc, rows, id)?;
    Ok(Waiting::of_vertices(alloc, ends))
}

/// Their identifiers.
fn ends_of(alloc: Global, rows: &[EdgeRow], id: u32) -> Result<Vec<u32>, AllocError>
    ensures { IfOk result (λ ends. ends.items ≡ map (other_end id) rows.now) }
{
    rows.iter().map(|row| other_end(row, id)).collect(alloc)
}

/// The vertex at the other end.
fn other_end(row: &EdgeRow, id: u32) -> u32
    ensures { result ≡ other_end id row.now }
{
    if row.from == id { row.to } else { row.from }
}
