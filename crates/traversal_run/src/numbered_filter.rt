//! Filters with the numbers of their names, so that no text is compared for each vertex.

ghost use Rattle.std.specs.Prelude.{◌≡◌, All, IfErr, IfOk, nat_eq};
ghost use Rattle.std.specs.List.{filter, list_any};
ghost use Rattle.plain_graph.specs.Graph.{Graph};
ghost use Rattle.plain_graph.specs.Meaning.{passes};
ghost use Rattle.plain_graph.specs.declared.item.Item.{Item};
ghost use Rattle.plain_graph.specs.declared.item.Item.TheVariants as items;
ghost use Rattle.store_rules.specs.Graph.{graph_of};
ghost use Rattle.store_rules.specs.Rules.{IsWellFormed};
ghost use Rattle.rec_bytes.specs.Fault.{HasFaultCause};
ghost use Rattle.prop_store.specs.Fault.{BlamesBroken};
ghost use Rattle.traversal_run.specs.Elements.{IsRowOf};
ghost use Rattle.traversal_run.specs.Feeding.{is_filter, passes_rows};
ghost use Rattle.traversal_run.specs.NumberedFilter.{IsNumbered, passes_numbered, stages_numbered};
ghost use Rattle.traversal_run.specs.Row.{stages_of};
ghost use Rattle.traversal_run.specs.Reading.{IsNamedStore, IsRead};
ghost use Rattle.traversal_run.specs.Owing.{filter_reads, numbered_reads};
ghost use Rattle.prop_store.specs.Reading.{ReadsAtMost};

use crate::elements::{label_number, numbered_value};
use crate::lookups::passes_value;
use crate::naming::{number_of, numbers_of};
use crate::row::Row;
use crate::shown::Shown;
use crate::sought::Sought;
use crate::stage::as_filter;
use name_store::Names;
use node_store::NodeRow;
use plain_graph::Filter;
use rec_bytes::{Fault, Reads};
use std::alloc::{AllocError, Global};

/// A filter with the numbers of its key, or of its labels. They are right while the names of the
/// store stay as they are.
#[derive(Drop)]
pub(crate) struct NumberedFilter<'a> {
    filter: &'a Filter,
    /// The number of its key, where that is a name.
    key: Option<u32>,
    /// The numbers of those of its labels that are names.
    labels: Vec<u32>,
}

impl<'a> NumberedFilter<'a> {
    /// The numbers are sought once.
    fn new<R: Reads>(
        alloc: Global,
        space: &R,
        names: &Names,
        filter: &'a Sought<Filter>,
    ) -> Result<NumberedFilter<'a>, AllocError>
        ensures filter { IfOk result (λ numbered. numbered.filter.now ≡ filter.now) }
        ensures numbered { IsNamedStore (R.state space.now).records (R.state space.now).shape
            names.now.names
            → IfOk result (IsNumbered (R.state space.now).records) }
    {
        match &filter.what {
            Filter::Has(key) | Filter::HasValue { key, .. } => Ok(NumberedFilter {
                filter: &filter.what,
                key: number_of(space, names, &filter.guess, key.as_bytes()),
                labels: Vec::new(alloc),
            }),
            Filter::HasLabel(labels) => Ok(NumberedFilter {
                filter: &filter.what,
                key: None,
                labels: numbers_of(alloc, space, names, labels.as_slice())?,
            }),
        }
    }

    /// Whether a vertex passes it.
    fn passes<R: Reads>(
        &self,
        alloc: Global,
        space: &mut R,
        id: u32,
        row: &Option<NodeRow>,
    ) -> Result<bool, Fault>
        requires row { IsRowOf R.tells (R.state space.old).records (items.Vertex id) row.now }
        ensures found { R.tells → IsWellFormed (R.state space.old).records (R.state space.old).shape
            → IsNumbered (R.state space.old).records self.now → IfOk result (λ value. value
            ≡ passes (graph_of (R.state space.old).records) self.now.filter.now (items.Vertex id)) }
        ensures damaged { R.tells → IfErr result
            (BlamesBroken (R.state space.old).records (R.state space.old).shape) }
        ensures at_most { ReadsAtMost (filter_reads self.now.filter.now)
            (R.state space.old) (R.state space.new) }
        ensures read { IsRead R.Reads space.old space.new }
        ensures cause { HasFaultCause (R.faults space.old) (R.faults space.new) result }
    {
        if let Filter::HasLabel(_) = self.filter {
            return match label_number(space, id, row)? {
                Some(label) => Ok(is_among(label, &self.labels)),
                None => Ok(false),
            };
        }
        let vertex = Shown::vertex(id);
        let value = numbered_value(alloc, space, self.key, vertex.as_item(), row)?;
        Ok(passes_value(self.filter, &value))
    }
}

/// Whether a number is one of these.
fn is_among(number: u32, numbers: &[u32]) -> bool
    ensures { result ≡ list_any (nat_eq number) numbers.now }
{
    numbers.iter().any(|other| number == *other)
}

/// Those of these rows that are filters, with their numbers.
pub(crate) fn numbered_filters<'a, R: Reads>(
    alloc: Global,
    space: &R,
    names: &Names,
    rows: &'a [Row],
) -> Result<Vec<NumberedFilter<'a>>, AllocError>
    ensures same { IfOk result (λ filters. (graph : Graph) (item : Item)
        → passes_numbered graph filters.items item ≡ passes_rows graph rows.now item) }
    // Those rows that are filters, in their order.
    ensures stages { IfOk result (λ filters.
        stages_numbered filters.items ≡ filter is_filter (stages_of rows.now)) }
    ensures numbered { IsNamedStore (R.state space.now).records (R.state space.now).shape
        names.now.names
        → IfOk result (λ filters. All (IsNumbered (R.state space.now).records) filters.items) }
{
    let mut filters = Vec::new(alloc);
    for row in rows {
        if let Some(filter) = as_filter(&row.stage) {
            let numbered = NumberedFilter::new(alloc, space, names, filter)?;
            filters.push(numbered)?;
        }
    }
    Ok(filters)
}

/// Whether a vertex passes each of these filters.
pub(crate) fn passes_each<R: Reads>(
    alloc: Global,
    space: &mut R,
    filters: &[NumberedFilter],
    id: u32,
    row: &Option<NodeRow>,
) -> Result<bool, Fault>
    requires row { IsRowOf R.tells (R.state space.old).records (items.Vertex id) row.now }
    ensures found { R.tells → IsWellFormed (R.state space.old).records (R.state space.old).shape
        → All (IsNumbered (R.state space.old).records) filters.now → IfOk result (λ value. value
        ≡ passes_numbered (graph_of (R.state space.old).records) filters.now (items.Vertex id)) }
    ensures damaged { R.tells → IfErr result
        (BlamesBroken (R.state space.old).records (R.state space.old).shape) }
    ensures reads { R.tells → IsWellFormed (R.state space.old).records (R.state space.old).shape
        → All (IsNumbered (R.state space.old).records) filters.now → ReadsAtMost (numbered_reads
        (graph_of (R.state space.old).records) filters.now (items.Vertex id))
        (R.state space.old) (R.state space.new) }
    ensures read { IsRead R.Reads space.old space.new }
    ensures cause { HasFaultCause (R.faults space.old) (R.faults space.new) result }
{
    for filter in filters {
        if !filter.passes(alloc, space, id, row)? {
            return Ok(false);
        }
    }
    Ok(true)
}
