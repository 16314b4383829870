ghost use Rattle.std.specs.Prelude.{◌≡◌, ◌++◌, ◌∷◌, [], IfErr, IfOk, OnOk, map};
ghost use Rattle.expand.specs.Expanding.{AreRowsOf};
ghost use Rattle.plain_graph.specs.Meaning.{edges_at, incident, neighbours};
ghost use Rattle.store_rules.specs.Graph.{graph_of};
ghost use Rattle.store_rules.specs.Rules.{IsWellFormed};
ghost use Rattle.rec_bytes.specs.Fault.{HasFaultCause};
ghost use Rattle.prop_store.specs.Fault.{BlamesBroken};
ghost use Rattle.prop_store.specs.Reading.{ReadsAtMost};
ghost use Rattle.expand.specs.Costs.{most_reads};
ghost use Rattle.traversal_run.specs.EdgeItems.{AreTyped, IsTyped, row_item};
ghost use Rattle.traversal_run.specs.Hopping.{AreTypeNumbers, hop_reads, reads_at_vertex};
ghost use Rattle.traversal_run.specs.Reading.{IsNamedStore, IsRead};

use crate::edge_items::{edge_item, end_items};
use crate::finding::edge_at;
use crate::naming::{name_mark, number_of, numbers_of, text_of};
use crate::sought::{Sought, SoughtName};
use crate::waiting::Waiting;
use expand::{ExpandFault, expand};
use name_store::Names;
use plain_graph::{Hop, Item, Text};
use rec_bytes::{Fault, Reads};
use rel_store::EdgeRow;
use std::alloc::Global;

/// The vertices at the other ends of edges at an item.
pub(crate) fn neighbours<R: Reads>(
    alloc: Global,
    space: &mut R,
    names: &Names,
    hop: &Sought<Hop>,
    item: &Item,
) -> Result<Waiting, Fault>
    ensures found { R.tells
        → IsNamedStore (R.state space.old).records (R.state space.old).shape names.now.names
        → IfOk result (λ items. items
        ≡ neighbours (graph_of (R.state space.old).records) hop.now item.now) }
    ensures damaged { R.tells → IfErr result
        (BlamesBroken (R.state space.old).records (R.state space.old).shape) }
    ensures reads { R.tells
        → IsNamedStore (R.state space.old).records (R.state space.old).shape names.now.names
        → ReadsAtMost (hop_reads (R.state space.old).records hop.now item.now)
        (R.state space.old) (R.state space.new) }
    ensures read { IsRead R.Reads space.old space.new }
    ensures cause { HasFaultCause (R.faults space.old) (R.faults space.new) result }
{
    let Item::Vertex(id) = item else {
        return Ok(Waiting::new(alloc));
    };
    let rows = rows_of(alloc, space, names, hop, *id)?;
    let items = end_items(alloc, &rows, *id)?;
    Ok(items)
}

/// The edges at an item.
pub(crate) fn incident<R: Reads>(
    alloc: Global,
    space: &mut R,
    names: &Names,
    hop: &Sought<Hop>,
    item: &Item,
) -> Result<Waiting, Fault>
    ensures found { R.tells
        → IsNamedStore (R.state space.old).records (R.state space.old).shape names.now.names
        → IfOk result (λ value. value
        ≡ incident (graph_of (R.state space.old).records) hop.now item.now) }
    ensures damaged { R.tells → IfErr result
        (BlamesBroken (R.state space.old).records (R.state space.old).shape) }
    ensures reads { R.tells
        → IsNamedStore (R.state space.old).records (R.state space.old).shape names.now.names
        → ReadsAtMost (hop_reads (R.state space.old).records hop.now item.now)
        (R.state space.old) (R.state space.new) }
    ensures read { IsRead R.Reads space.old space.new }
    ensures cause { HasFaultCause (R.faults space.old) (R.faults space.new) result }
{
    let Item::Vertex(id) = item else {
        return Ok(Waiting::new(alloc));
    };
    let rows = rows_of(alloc, space, names, hop, *id)?;
    edge_items(alloc, space, names, &rows)
}

/// The edges of rows, in their order.
fn edge_items<R: Reads>(
    alloc: Global,
    space: &mut R,
    names: &Names,
    rows: &[EdgeRow],
) -> Result<Waiting, Fault>
    ensures are { R.tells
        → IsNamedStore (R.state space.old).records (R.state space.old).shape names.now.names
        → AreTyped (R.state space.old).records rows.now
        → IfOk result (λ items. items ≡ map (row_item (R.state space.old).records) rows.now) }
    ensures damaged { R.tells → IfErr result
        (BlamesBroken (R.state space.old).records (R.state space.old).shape) }
    ensures no_read { R.tells
        → IsNamedStore (R.state space.old).records (R.state space.old).shape names.now.names
        → AreTyped (R.state space.old).records rows.now → space.new ≡ space.old }
    ensures read { IsRead R.Reads space.old space.new }
    ensures cause { HasFaultCause (R.faults space.old) (R.faults space.new) result }
{
    let mut items = Waiting::new(alloc);
    for row in rows {
        push_edge(alloc, space, names, row, &mut items)?;
    }
    Ok(items)
}

/// Puts the edge of a row after the others. Where its type is no name, the record is read again, so
/// that it is the record that is said to be damaged.
fn push_edge<R: Reads>(
    alloc: Global,
    space: &mut R,
    names: &Names,
    row: &EdgeRow,
    items: &mut Waiting,
) -> Result<(), Fault>
    ensures is { R.tells
        → IsNamedStore (R.state space.old).records (R.state space.old).shape names.now.names
        → IsTyped (R.state space.old).records row.now → OnOk result
        (items.new ≡ items.old ++ row_item (R.state space.old).records row.now ∷ []) }
    ensures damaged { R.tells → IfErr result
        (BlamesBroken (R.state space.old).records (R.state space.old).shape) }
    ensures no_read { R.tells
        → IsNamedStore (R.state space.old).records (R.state space.old).shape names.now.names
        → IsTyped (R.state space.old).records row.now → space.new ≡ space.old }
    ensures read { IsRead R.Reads space.old space.new }
    ensures cause { HasFaultCause (R.faults space.old) (R.faults space.new) result }
{
    let mark = name_mark(space);
    if row.label < mark {
        let item = edge_item(alloc, text_of(names, row.label), row)?;
        items.push(item)?;
        return Ok(());
    }
    if let Some(item) = edge_at(alloc, space, names, row.id)? {
        items.push(item)?;
    }
    Ok(())
}

/// The rows of the edges that a hop takes at a vertex. It reads what `expand` does, and nothing
/// where no type of the hop is a name.
fn rows_of<R: Reads>(
    alloc: Global,
    space: &mut R,
    names: &Names,
    hop: &Sought<Hop>,
    id: u32,
) -> Result<Vec<EdgeRow>, Fault>
    ensures found { R.tells
        → IsNamedStore (R.state space.old).records (R.state space.old).shape names.now.names
        → IfOk result (λ rows. AreRowsOf (R.state space.old).records rows.items
        (edges_at (graph_of (R.state space.old).records) hop.now.direction hop.now.labels id)) }
    ensures damaged { R.tells → IfErr result
        (BlamesBroken (R.state space.old).records (R.state space.old).shape) }
    ensures reads { R.tells
        → IsNamedStore (R.state space.old).records (R.state space.old).shape names.now.names
        → ReadsAtMost (reads_at_vertex (R.state space.old).records hop.now id)
        (R.state space.old) (R.state space.new) }
    ensures read { IsRead R.Reads space.old space.new }
    ensures cause { HasFaultCause (R.faults space.old) (R.faults space.new) result }
{
    match hop.what.labels.as_slice() {
        [label] => {
            let name = SoughtName {
                text: label.as_bytes(),
                guess: &hop.guess,
            };
            rows_of_type(alloc, space, names, &hop.what, &name, id)
        }
        labels => rows_of_types(alloc, space, names, &hop.what, labels, id),
    }
}

/// The same of a hop of one type. No list of numbers is made.
fn rows_of_type<R: Reads>(
    alloc: Global,
    space: &mut R,
    names: &Names,
    hop: &Hop,
    label: &SoughtName,
    id: u32,
) -> Result<Vec<EdgeRow>, Fault>
    requires { hop.now.labels ≡ label.now.text.now ∷ [] }
    ensures found { R.tells
        → IsNamedStore (R.state space.old).records (R.state space.old).shape names.now.names
        → IfOk result (λ rows. AreRowsOf (R.state space.old).records rows.items
        (edges_at (graph_of (R.state space.old).records) hop.now.direction hop.now.labels id)) }
    ensures damaged { R.tells → IfErr result
        (BlamesBroken (R.state space.old).records (R.state space.old).shape) }
    ensures reads { R.tells
        → IsNamedStore (R.state space.old).records (R.state space.old).shape names.now.names
        → ReadsAtMost (reads_at_vertex (R.state space.old).records hop.now id)
        (R.state space.old) (R.state space.new) }
    ensures read { IsRead R.Reads space.old space.new }
    ensures cause { HasFaultCause (R.faults space.old) (R.faults space.new) result }
{
    match number_of(space, names, label.guess, label.text) {
        Some(number) => rows_by(alloc, space, hop, id, &[number]),
        None => Ok(Vec::new(alloc)),
    }
}

/// The same of a hop of any types.
fn rows_of_types<R: Reads>(
    alloc: Global,
    space: &mut R,
    names: &Names,
    hop: &Hop,
    labels: &[Text],
    id: u32,
) -> Result<Vec<EdgeRow>, Fault>
    requires { hop.now.labels ≡ labels.now }
    ensures found { R.tells
        → IsNamedStore (R.state space.old).records (R.state space.old).shape names.now.names
        → IfOk result (λ rows. AreRowsOf (R.state space.old).records rows.items
        (edges_at (graph_of (R.state space.old).records) hop.now.direction hop.now.labels id)) }
    ensures damaged { R.tells → IfErr result
        (BlamesBroken (R.state space.old).records (R.state space.old).shape) }
    ensures reads { R.tells
        → IsNamedStore (R.state space.old).records (R.state space.old).shape names.now.names
        → ReadsAtMost (reads_at_vertex (R.state space.old).records hop.now id)
        (R.state space.old) (R.state space.new) }
    ensures read { IsRead R.Reads space.old space.new }
    ensures cause { HasFaultCause (R.faults space.old) (R.faults space.new) result }
{
    let numbers = numbers_of(alloc, space, names, labels)?;
    // No number stands for all types.
    if numbers.is_empty() && !labels.is_empty() {
        return Ok(Vec::new(alloc));
    }
    rows_by(alloc, space, hop, id, &numbers)
}

/// The rows of the edges that a hop takes at a vertex, where these are the numbers of its types.
fn rows_by<R: Reads>(
    alloc: Global,
    space: &mut R,
    hop: &Hop,
    id: u32,
    numbers: &[u32],
) -> Result<Vec<EdgeRow>, Fault>
    ensures found { R.tells → IsWellFormed (R.state space.old).records (R.state space.old).shape
        → AreTypeNumbers (R.state space.old).records numbers.now hop.now.labels
        → IfOk result (λ rows. AreRowsOf (R.state space.old).records rows.items
        (edges_at (graph_of (R.state space.old).records) hop.now.direction hop.now.labels id)) }
    ensures damaged { R.tells → IfErr result
        (BlamesBroken (R.state space.old).records (R.state space.old).shape) }
    ensures reads { R.tells → IsWellFormed (R.state space.old).records (R.state space.old).shape
        → ReadsAtMost (most_reads (R.state space.old) hop.now.direction numbers.now id)
        (R.state space.old) (R.state space.new) }
    ensures read { IsRead R.Reads space.old space.new }
    ensures cause { HasFaultCause (R.faults space.old) (R.faults space.new) result }
{
    match expand(alloc, space, id, hop.direction, numbers) {
        Ok(rows) => Ok(rows),
        Err(ExpandFault::NoNode { .. }) => Ok(Vec::new(alloc)),
        Err(ExpandFault::Memory) => Err(Fault::Memory),
        Err(ExpandFault::Disk) => Err(Fault::Disk),
        Err(ExpandFault::Damaged(damage)) => Err(Fault::Damaged(damage)),
    }
}
