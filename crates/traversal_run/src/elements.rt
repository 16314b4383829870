ghost use Rattle.std.specs.Prelude.{ℕ, ◌≡◌, ◌<◌, ◌≤◌, IfErr, IfOk, IfSome, List, length};
ghost use Rattle.std.specs.Borrow.{Bor};
ghost use Rattle.std.specs.Option.{option_map};
ghost use Rattle.std.specs.FinMap as maps;
ghost use Rattle.plain_graph.specs.Forms.{IsKept, IsShown};
ghost use Rattle.plain_graph.specs.Meaning.{label_of, properties_of};
ghost use Rattle.prop_store.specs.Owner.{IsOwner};
ghost use Rattle.prop_store.specs.Reading.{ReadsAtMost};
ghost use Rattle.rel_store.specs.RelRecord.{rel_key};
ghost use Rattle.store_rules.specs.Graph.{graph_of};
ghost use Rattle.store_rules.specs.Rules.{IsWellFormed};
ghost use Rattle.plain_graph.specs.declared.item.Item.TheVariants as items;
ghost use Rattle.rec_bytes.specs.Key.{IsKey};
ghost use Rattle.node_store.specs.NodeRecord.{node_key};
ghost use Rattle.node_store.specs.Loading.{IsNodeFault, row_at};
ghost use Rattle.rec_bytes.specs.RowFault.{HasRowCause};
ghost use Rattle.traversal_run.specs.Elements.{IsLoaded, IsOwnerOf, IsRowOf, owned_edge};
ghost use Rattle.traversal_run.specs.Elements.{owner_reads};
ghost use Rattle.rec_bytes.specs.Fault.{HasFaultCause};
ghost use Rattle.prop_store.specs.Fault.{BlamesBroken};
ghost use Rattle.traversal_run.specs.Naming.{name_at, name_count};
ghost use Rattle.traversal_run.specs.NumberedFilter.{HasNumber};
ghost use Rattle.traversal_run.specs.Reading.{IsNamedStore, IsRead};
ghost use Rattle.traversal_run.specs.Owing.{key_reads};

use crate::naming::{name_mark, number_of, text_of, unnamed};
use crate::sought::SoughtName;
use name_store::Names;
use node_store::NodeRow;
use plain_graph::{Item, Value};
use prop_store::{Owner, read_key_from};
use rec_bytes::{
    Fault, Key, NODE_FIRST_PROPERTY, NODES, RELATIONSHIP_FIRST_PROPERTY, RELATIONSHIPS, Reads,
    RowFault,
};
use rel_store::RelRow;
use std::alloc::Global;

/// The owner of an item's properties, and the first of them, or `NIL`.
#[derive(Clone, Copy)]
pub(crate) struct Owned {
    pub(crate) owner: Owner,
    pub(crate) first: u32,
}

/// The row of a vertex, which is read where it is not known.
#[inline(always)]
fn row_of<R: Reads>(
    space: &mut R,
    id: u32,
    row: &Option<NodeRow>,
) -> Result<Option<NodeRow>, RowFault>
    requires row { IsRowOf R.tells (R.state space.old).records (items.Vertex id) row.now }
    ensures found { R.tells → IfOk result (λ row. row ≡ row_at (R.state space.old).records id) }
    ensures damaged { R.tells → IfErr result (IsNodeFault (R.state space.old) id) }
    ensures key { IfOk result (λ row. IfSome row (λ _. IsKey (node_key id))) }
    ensures reads { ReadsAtMost (owner_reads row.now) (R.state space.old) (R.state space.new) }
    ensures no_read { IsLoaded (items.Vertex id) row.now
        → R.state space.new ≡ R.state space.old }
    ensures read { IsRead R.Reads space.old space.new }
    ensures cause { HasRowCause (R.faults space.old) (R.faults space.new) result }
{
    match row {
        Some(row) => Ok(Some(*row)),
        None => node_store::load(space, id),
    }
}

/// The owner of an item's properties; none where it has no properties, as it is a value or an
/// element that isn't in use. The element is read once.
#[inline(always)]
pub(crate) fn owner_of<R: Reads>(
    space: &mut R,
    item: &Item,
    row: &Option<NodeRow>,
) -> Result<Option<Owned>, Fault>
    requires row { IsRowOf R.tells (R.state space.old).records item.now row.now }
    ensures found { R.tells
        → IfOk result (λ owned. IsOwnerOf (R.state space.old) item.now owned) }
    ensures damaged { R.tells → IfErr result
        (BlamesBroken (R.state space.old).records (R.state space.old).shape) }
    ensures reads { ReadsAtMost (owner_reads row.now) (R.state space.old) (R.state space.new) }
    ensures owner { IfOk result (λ owned. IfSome owned (λ found. IsOwner found.owner)) }
    ensures read { IsRead R.Reads space.old space.new }
    ensures cause { HasFaultCause (R.faults space.old) (R.faults space.new) result }
{
    match item {
        Item::Vertex(id) => match row_of(space, *id, row)? {
            Some(row) => Ok(Some(Owned {
                owner: Owner {
                    key: Key {
                        file: NODES,
                        id: *id,
                    },
                    field: NODE_FIRST_PROPERTY,
                },
                first: row.props,
            })),
            None => Ok(None),
        },
        Item::Edge { id, .. } => match rel_store::load(space, *id)? {
            Some(row) => Ok(Some(edge_owner(*id, &row))),
            None => Ok(None),
        },
        Item::Value(_) => Ok(None),
    }
}

/// The owner of the properties of an edge, by its row.
pub(crate) fn edge_owner(id: u32, row: &RelRow) -> Owned
    requires { IsKey (rel_key id) }
    ensures is { result ≡ owned_edge id row.now }
    ensures owner { IsOwner result.owner }
{
    Owned {
        owner: Owner {
            key: Key {
                file: RELATIONSHIPS,
                id,
            },
            field: RELATIONSHIP_FIRST_PROPERTY,
        },
        first: row.property,
    }
}

/// The label of an item; none where it is a value or a vertex that isn't in use.
pub(crate) fn label_of<'a, R: Reads>(
    space: &mut R,
    names: &'a Names,
    item: &'a Item,
    row: &Option<NodeRow>,
) -> Result<Option<&'a [u8]>, Fault>
    requires row { IsRowOf R.tells (R.state space.old).records item.now row.now }
    ensures found { R.tells
        → IsNamedStore (R.state space.old).records (R.state space.old).shape names.now.names
        → IfOk result (λ label. option_map (λ (text : Bor (List ℕ)). text.now) label
        ≡ label_of (graph_of (R.state space.old).records) item.now) }
    ensures damaged { R.tells → IfErr result
        (BlamesBroken (R.state space.old).records (R.state space.old).shape) }
    ensures no_read { IsLoaded item.now row.now → R.state space.new ≡ R.state space.old }
    ensures short { IsShown item.now
        → IfOk result (λ label. IfSome label (λ text. length text.now ≤ 48)) }
    ensures at_most { ReadsAtMost 1 (R.state space.old) (R.state space.new) }
    ensures read { IsRead R.Reads space.old space.new }
    ensures cause { HasFaultCause (R.faults space.old) (R.faults space.new) result }
{
    match item {
        Item::Vertex(id) => vertex_label(space, names, *id, row),
        Item::Edge { label, .. } => Ok(Some(label.as_bytes())),
        Item::Value(_) => Ok(None),
    }
}

/// The label of a vertex; none where it isn't in use.
fn vertex_label<'a, R: Reads>(
    space: &mut R,
    names: &'a Names,
    id: u32,
    row: &Option<NodeRow>,
) -> Result<Option<&'a [u8]>, Fault>
    requires row { IsRowOf R.tells (R.state space.old).records (items.Vertex id) row.now }
    ensures found { R.tells
        → IsNamedStore (R.state space.old).records (R.state space.old).shape names.now.names
        → IfOk result (λ label. option_map (λ (text : Bor (List ℕ)). text.now) label
        ≡ label_of (graph_of (R.state space.old).records) (items.Vertex id)) }
    ensures damaged { R.tells → IfErr result
        (BlamesBroken (R.state space.old).records (R.state space.old).shape) }
    ensures no_read { IsLoaded (items.Vertex id) row.now
        → R.state space.new ≡ R.state space.old }
    ensures short { IfOk result (λ label. IfSome label (λ text. length text.now ≤ 48)) }
    ensures at_most { ReadsAtMost 1 (R.state space.old) (R.state space.new) }
    ensures read { IsRead R.Reads space.old space.new }
    ensures cause { HasFaultCause (R.faults space.old) (R.faults space.new) result }
{
    match label_number(space, id, row)? {
        Some(number) => Ok(Some(text_of(names, number))),
        None => Ok(None),
    }
}

/// The number of the label of a vertex; none where it isn't in use. A label that is no name is
/// damage.
pub(crate) fn label_number<R: Reads>(
    space: &mut R,
    id: u32,
    row: &Option<NodeRow>,
) -> Result<Option<u32>, Fault>
    requires row { IsRowOf R.tells (R.state space.old).records (items.Vertex id) row.now }
    ensures found { R.tells → IfOk result (λ number.
        option_map (name_at (R.state space.old).records) number
        ≡ label_of (graph_of (R.state space.old).records) (items.Vertex id)) }
    ensures below { IfOk result (λ number.
        IfSome number (λ found. found < name_count (R.state space.old).records)) }
    ensures damaged { R.tells → IfErr result
        (BlamesBroken (R.state space.old).records (R.state space.old).shape) }
    ensures no_read { IsLoaded (items.Vertex id) row.now
        → R.state space.new ≡ R.state space.old }
    ensures at_most { ReadsAtMost 1 (R.state space.old) (R.state space.new) }
    ensures read { IsRead R.Reads space.old space.new }
    ensures cause { HasFaultCause (R.faults space.old) (R.faults space.new) result }
{
    let mark = name_mark(space);
    let Some(row) = row_of(space, id, row)? else {
        return Ok(None);
    };
    if row.label >= mark {
        return Err(unnamed(NODES, id));
    }
    Ok(Some(row.label))
}

/// The value of a key of an item. A key that is no name of the store has none.
pub(crate) fn value_of<R: Reads>(
    alloc: Global,
    space: &mut R,
    names: &Names,
    key: &SoughtName,
    item: &Item,
    row: &Option<NodeRow>,
) -> Result<Option<Value>, Fault>
    requires row { IsRowOf R.tells (R.state space.old).records item.now row.now }
    ensures found { R.tells
        → IsNamedStore (R.state space.old).records (R.state space.old).shape names.now.names
        → IfOk result (λ value. value
        ≡ maps.get (properties_of (graph_of (R.state space.old).records) item.now)
        key.now.text.now) }
    ensures damaged { R.tells → IfErr result
        (BlamesBroken (R.state space.old).records (R.state space.old).shape) }
    ensures kept { IfOk result (λ value. IfSome value IsKept) }
    ensures at_most { ReadsAtMost key_reads (R.state space.old) (R.state space.new) }
    ensures read { IsRead R.Reads space.old space.new }
    ensures cause { HasFaultCause (R.faults space.old) (R.faults space.new) result }
{
    let number = number_of(space, names, key.guess, key.text);
    numbered_value(alloc, space, number, item, row)
}

/// The value of the key of this number of an item; none where there is no number.
pub(crate) fn numbered_value<R: Reads>(
    alloc: Global,
    space: &mut R,
    number: Option<u32>,
    item: &Item,
    row: &Option<NodeRow>,
) -> Result<Option<Value>, Fault>
    requires row { IsRowOf R.tells (R.state space.old).records item.now row.now }
    ensures found { R.tells → IsWellFormed (R.state space.old).records (R.state space.old).shape
        → (key : List ℕ) → HasNumber (R.state space.old).records number key
        → IfOk result (λ value. value
        ≡ maps.get (properties_of (graph_of (R.state space.old).records) item.now) key) }
    ensures damaged { R.tells → IfErr result
        (BlamesBroken (R.state space.old).records (R.state space.old).shape) }
    ensures kept { IfOk result (λ value. IfSome value IsKept) }
    ensures at_most { ReadsAtMost key_reads (R.state space.old) (R.state space.new) }
    ensures read { IsRead R.Reads space.old space.new }
    ensures cause { HasFaultCause (R.faults space.old) (R.faults space.new) result }
{
    let Some(number) = number else {
        return Ok(None);
    };
    let Some(owned) = owner_of(space, item, row)? else {
        return Ok(None);
    };
    read_key_from(alloc, space, owned.owner, owned.first, number)
}
