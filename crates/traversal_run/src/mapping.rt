ghost use Rattle.std.specs.Prelude.{◌≡◌, IfErr, IfOk};
ghost use Rattle.plain_graph.specs.Meaning.{identifier, in_vertex, out_vertex};
ghost use Rattle.store_rules.specs.Graph.{graph_of};
ghost use Rattle.rec_bytes.specs.Fault.{HasFaultCause};
ghost use Rattle.prop_store.specs.Fault.{BlamesBroken};
ghost use Rattle.traversal_run.specs.Elements.{IsRowOf};
ghost use Rattle.traversal_run.specs.Mapping.{filtered, mapped};
ghost use Rattle.traversal_run.specs.Reading.{IsNamedStore, IsRead};
ghost use Rattle.traversal_run.specs.Owing.{filter_reads, mapping_reads};
ghost use Rattle.prop_store.specs.Reading.{ReadsAtMost};

use crate::hopping::{incident, neighbours};
use crate::lookups::{distinct_values, label_value, passes};
use crate::shown::Shown;
use crate::sought::Sought;
use crate::waiting::Waiting;
use name_store::Names;
use node_store::NodeRow;
use plain_graph::{Filter, Hop, Item, Texts};
use rec_bytes::{Fault, Reads};
use std::alloc::Global;

/// A step that makes of each item what that item alone gives, whatever came before it.
#[derive(Drop)]
pub(crate) enum Mapping {
    Neighbours(Sought<Hop>),
    Incident(Sought<Hop>),
    OutV,
    InV,
    Filter(Sought<Filter>),
    /// Each key once.
    Values(Sought<Texts>),
    Id,
    Label,
}

/// What the step makes of an item.
#[inline(always)]
pub(crate) fn mapped<R: Reads>(
    alloc: Global,
    space: &mut R,
    names: &Names,
    mapping: &Mapping,
    item: Shown,
    row: &Option<NodeRow>,
) -> Result<Waiting, Fault>
    requires row { IsRowOf R.tells (R.state space.old).records item row.now }
    ensures found { R.tells
        → IsNamedStore (R.state space.old).records (R.state space.old).shape names.now.names
        → IfOk result (λ outs. outs
        ≡ mapped (graph_of (R.state space.old).records) mapping.now item) }
    ensures damaged { R.tells → IfErr result
        (BlamesBroken (R.state space.old).records (R.state space.old).shape) }
    ensures reads { R.tells
        → IsNamedStore (R.state space.old).records (R.state space.old).shape names.now.names
        → ReadsAtMost (mapping_reads (R.state space.old).records mapping.now item)
        (R.state space.old) (R.state space.new) }
    ensures read { IsRead R.Reads space.old space.new }
    ensures cause { HasFaultCause (R.faults space.old) (R.faults space.new) result }
{
    match mapping {
        Mapping::Neighbours(hop) => neighbours(alloc, space, names, hop, item.as_item()),
        Mapping::Incident(hop) => incident(alloc, space, names, hop, item.as_item()),
        Mapping::Filter(filter) => filtered(alloc, space, names, filter, item, row),
        Mapping::Values(keys) => distinct_values(alloc, space, names, keys, item.as_item(), row),
        Mapping::Label => label_value(alloc, space, names, &item, row),
        Mapping::Id => Ok(identifier(alloc, item.as_item())),
        Mapping::OutV => Ok(out_vertex(alloc, item.as_item())),
        Mapping::InV => Ok(in_vertex(alloc, item.as_item())),
    }
}

/// The item, where it passes a filter.
fn filtered<R: Reads>(
    alloc: Global,
    space: &mut R,
    names: &Names,
    filter: &Sought<Filter>,
    item: Shown,
    row: &Option<NodeRow>,
) -> Result<Waiting, Fault>
    requires row { IsRowOf R.tells (R.state space.old).records item row.now }
    ensures found { R.tells
        → IsNamedStore (R.state space.old).records (R.state space.old).shape names.now.names
        → IfOk result (λ outs. outs
        ≡ filtered (graph_of (R.state space.old).records) filter.now item) }
    ensures damaged { R.tells → IfErr result
        (BlamesBroken (R.state space.old).records (R.state space.old).shape) }
    ensures at_most { ReadsAtMost (filter_reads filter.now)
        (R.state space.old) (R.state space.new) }
    ensures read { IsRead R.Reads space.old space.new }
    ensures cause { HasFaultCause (R.faults space.old) (R.faults space.new) result }
{
    if passes(alloc, space, names, filter, item.as_item(), row)? {
        Ok(Waiting::one(alloc, item))
    } else {
        Ok(Waiting::new(alloc))
    }
}

/// The identifier of an item.
fn identifier(alloc: Global, item: &Item) -> Waiting
    ensures { result ≡ identifier item.now }
{
    match item {
        Item::Vertex(id) => Waiting::one(alloc, Shown::number(i64::from(*id))),
        Item::Edge { id, .. } => Waiting::one(alloc, Shown::number(i64::from(*id))),
        Item::Value(_) => Waiting::new(alloc),
    }
}

/// The vertex that an edge leaves.
fn out_vertex(alloc: Global, item: &Item) -> Waiting
    ensures { result ≡ out_vertex item.now }
{
    match item {
        Item::Edge { from, .. } => Waiting::one(alloc, Shown::vertex(*from)),
        _ => Waiting::new(alloc),
    }
}

/// The vertex that an edge enters.
fn in_vertex(alloc: Global, item: &Item) -> Waiting
    ensures { result ≡ in_vertex item.now }
{
    match item {
        Item::Edge { to, .. } => Waiting::one(alloc, Shown::vertex(*to)),
        _ => Waiting::new(alloc),
    }
}
