//! Elements that are read by their identifiers.

ghost use Rattle.std.specs.Prelude.{◌≡◌, ◌≤◌, ◌<◌, ◌+◌, IfErr, IfOk, IfSome, false, is_some};
ghost use Rattle.std.specs.Prelude.{true};
ghost use Rattle.plain_graph.specs.declared.item.Item.TheVariants as items;
ghost use Rattle.prop_store.specs.Reading.{ReadsAtMost};
ghost use Rattle.rec_bytes.specs.Key.{IsKey};
ghost use Rattle.rec_bytes.specs.declared.shape.Shape.{Shape};
ghost use Rattle.rel_store.specs.Loading.{row_at};
ghost use Rattle.rel_store.specs.RelRecord.{rel_key};
ghost use Rattle.store_rules.specs.Views.{Records};
ghost use Rattle.traversal_run.specs.Finding.{element_at, element_mark, typed_edge, vertex_if};
ghost use Rattle.traversal_run.specs.Naming.{name_count};
ghost use Rattle.traversal_run.specs.Elements.{IsRowOf};
ghost use Rattle.rec_bytes.specs.Fault.{HasFaultCause};
ghost use Rattle.prop_store.specs.Fault.{BlamesBroken};
ghost use Rattle.traversal_run.specs.Reading.{IsNamedStore, IsRead};

use crate::edge_items::edge_item;
use crate::naming::{name_mark, text_of, unnamed};
use crate::shown::Shown;
use name_store::Names;
use node_store::NodeRow;
use rec_bytes::{Fault, NODES, RELATIONSHIPS, Reads};
use rel_store::{EdgeRow, RelRow};
use std::alloc::{AllocError, Global};

/// How many vertices or edges were given out.
pub(crate) fn mark_of<R: Reads>(space: &R, edges: bool) -> u32
    ensures { result ≡ element_mark (R.state space.now).records edges }
{
    if edges {
        space.meta(RELATIONSHIPS).high
    } else {
        space.meta(NODES).high
    }
}

/// The vertex or the edge of an identifier, where it is in use. It costs a read.
pub(crate) fn element_at<R: Reads>(
    alloc: Global,
    space: &mut R,
    names: &Names,
    edges: bool,
    id: u32,
) -> Result<Option<Shown>, Fault>
    ensures is { R.tells
        → IsNamedStore (R.state space.old).records (R.state space.old).shape names.now.names
        → IfOk result (λ item. item ≡ element_at (R.state space.old).records edges id) }
    ensures vertex { edges ≡ false
        → IfOk result (λ item. IfSome item (λ found. found ≡ items.Vertex id)) }
    ensures reads { (R.state space.new).reads ≤ (R.state space.old).reads + 1 }
    ensures damaged { R.tells → IfErr result
        (BlamesBroken (R.state space.old).records (R.state space.old).shape) }
    ensures read { IsRead R.Reads space.old space.new }
    ensures cause { HasFaultCause (R.faults space.old) (R.faults space.new) result }
{
    if edges {
        edge_at(alloc, space, names, id)
    } else {
        vertex_at(space, id)
    }
}

/// Whether the vertex or the edge of an identifier is in use. No name is looked up. It costs a
/// read.
pub(crate) fn is_in_use<R: Reads>(space: &mut R, edges: bool, id: u32) -> Result<bool, Fault>
    ensures is { R.tells → IfOk result (λ used. used
        ≡ is_some (element_at (R.state space.old).records edges id)) }
    ensures reads { (R.state space.new).reads ≤ (R.state space.old).reads + 1 }
    ensures damaged { R.tells → IfErr result
        (BlamesBroken (R.state space.old).records (R.state space.old).shape) }
    ensures read { IsRead R.Reads space.old space.new }
    ensures cause { HasFaultCause (R.faults space.old) (R.faults space.new) result }
{
    if edges {
        let row = rel_store::load(space, id)?;
        Ok(row.is_some())
    } else {
        let row = vertex_row(space, id)?;
        Ok(row.is_some())
    }
}

fn vertex_at<R: Reads>(space: &mut R, id: u32) -> Result<Option<Shown>, Fault>
    ensures is { R.tells
        → IfOk result (λ item. item ≡ element_at (R.state space.old).records false id) }
    ensures vertex { IfOk result (λ item. IfSome item (λ found. found ≡ items.Vertex id)) }
    ensures reads { (R.state space.new).reads ≤ (R.state space.old).reads + 1 }
    ensures damaged { R.tells → IfErr result
        (BlamesBroken (R.state space.old).records (R.state space.old).shape) }
    ensures read { IsRead R.Reads space.old space.new }
    ensures cause { HasFaultCause (R.faults space.old) (R.faults space.new) result }
{
    match vertex_row(space, id)? {
        Some(_) => Ok(Some(Shown::vertex(id))),
        None => Ok(None),
    }
}

/// The row of a vertex, where it is in use. It costs a read.
#[inline(always)]
pub(crate) fn vertex_row<R: Reads>(space: &mut R, id: u32) -> Result<Option<NodeRow>, Fault>
    ensures is { R.tells → IfOk result (λ row.
        element_at (R.state space.old).records false id ≡ vertex_if id row) }
    ensures row { IfOk result (λ row.
        IsRowOf R.tells (R.state space.new).records (items.Vertex id) row) }
    ensures reads { (R.state space.new).reads ≤ (R.state space.old).reads + 1 }
    ensures gets { ReadsAtMost 1 (R.state space.old) (R.state space.new) }
    ensures damaged { R.tells → IfErr result
        (BlamesBroken (R.state space.old).records (R.state space.old).shape) }
    ensures read { IsRead R.Reads space.old space.new }
    ensures cause { HasFaultCause (R.faults space.old) (R.faults space.new) result }
{
    let row = node_store::load(space, id)?;
    Ok(row)
}

/// The edge of an identifier, where it is in use. It costs a read.
pub(crate) fn edge_at<R: Reads>(
    alloc: Global,
    space: &mut R,
    names: &Names,
    id: u32,
) -> Result<Option<Shown>, Fault>
    ensures is { R.tells
        → IsNamedStore (R.state space.old).records (R.state space.old).shape names.now.names
        → IfOk result (λ item. item ≡ element_at (R.state space.old).records true id) }
    ensures reads { (R.state space.new).reads ≤ (R.state space.old).reads + 1 }
    ensures damaged { R.tells → IfErr result
        (BlamesBroken (R.state space.old).records (R.state space.old).shape) }
    ensures read { IsRead R.Reads space.old space.new }
    ensures cause { HasFaultCause (R.faults space.old) (R.faults space.new) result }
{
    let Some(row) = edge_row(space, id)? else {
        return Ok(None);
    };
    let item = typed_edge(alloc, names, &row)?;
    Ok(Some(item))
}

/// The row of an edge, where it is in use, with the number of a name. It costs a read.
pub(crate) fn edge_row<R: Reads>(space: &mut R, id: u32) -> Result<Option<RelRow>, Fault>
    ensures found { R.tells → IfOk result (λ row. row ≡ row_at (R.state space.old).records id) }
    ensures typed { IfOk result (λ row. IfSome row (λ edge.
        edge.label < name_count (R.state space.old).records)) }
    ensures key { IfOk result (λ row. IfSome row (λ _. IsKey (rel_key id))) }
    ensures reads { (R.state space.new).reads ≤ (R.state space.old).reads + 1 }
    ensures gets { ReadsAtMost 1 (R.state space.old) (R.state space.new) }
    ensures damaged { R.tells → IfErr result
        (BlamesBroken (R.state space.old).records (R.state space.old).shape) }
    ensures read { IsRead R.Reads space.old space.new }
    ensures cause { HasFaultCause (R.faults space.old) (R.faults space.new) result }
{
    let mark = name_mark(space);
    let Some(row) = rel_store::load(space, id)? else {
        return Ok(None);
    };
    if row.label >= mark {
        return Err(unnamed(RELATIONSHIPS, id));
    }
    Ok(Some(row))
}

/// The edge of a row, with the name of its type.
pub(crate) fn typed_edge(alloc: Global, names: &Names, row: &RelRow) -> Result<Shown, AllocError>
    ensures { (records : Records) (shape : Shape) → IsNamedStore records shape names.now.names
        → row.now.label < name_count records
        → IfOk result (λ item. item ≡ typed_edge records row.now) }
{
    let edge = EdgeRow {
        id: row.id,
        label: row.label,
        from: row.from,
        to: row.to,
    };
    edge_item(alloc, text_of(names, row.label), &edge)
}
