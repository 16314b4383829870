//! What the source still has, given to the first step item by item, with none that waits.

ghost use Rattle.std.specs.Prelude.{◌≡◌, ◌<◌, ◌≤◌, ℕ, [], All, IfErr, IfOk, IfSome, OnOk, false};
ghost use Rattle.std.specs.Prelude.{get_or, length, take, true};
ghost use Rattle.std.specs.List.{filter};
ghost use Rattle.store_rules.specs.Graph.{graph_of};
ghost use Rattle.rec_bytes.specs.Fault.{HasFaultCause};
ghost use Rattle.prop_store.specs.Fault.{BlamesBroken};
ghost use Rattle.traversal_run.specs.Feeding.{
  Feeds,
  IsCountOf,
  are_filters,
  filter_stage,
  passing,
};
ghost use Rattle.traversal_run.specs.Finding.{element_at};
ghost use Rattle.traversal_run.specs.NumberedFilter.{IsNumbered, passes_numbered};
ghost use Rattle.store_rules.specs.Rules.{IsWellFormed};
ghost use Rattle.traversal_run.specs.Elements.{IsRowOf};
ghost use Rattle.plain_graph.specs.Meaning.{is_some_and, passes};
ghost use Rattle.plain_graph.specs.declared.item.Item.TheVariants as items;
ghost use Rattle.traversal_run.specs.Held.{HasDegreesUpTo, IsBatch, is_hop, is_plain};
ghost use Rattle.traversal_run.specs.HopRun.{FeedsHop};
ghost use Rattle.traversal_run.specs.Reading.{IsNamedStore, IsRead};
ghost use Rattle.traversal_run.specs.Source.{left_of};
ghost use Rattle.plain_graph.specs.Graph.{Graph};
ghost use Rattle.traversal_run.specs.Stage.{counts_past, is_count, limit_left, with_more};
ghost use Rattle.traversal_run.specs.Stop.{HasStopCause, MayStop, StopsAtBroken};
ghost use Rattle.traversal_run.specs.Owing.{Spends, SpendsIf, count_owes, feed_owes, filter_reads};
ghost use Rattle.traversal_run.specs.Owing.{rows_owe, stage_reads, vertex_reads};
ghost use Rattle.prop_store.specs.Reading.{ReadsAtMost};
ghost use Rattle.store_rules.specs.Views.{Records};
ghost use Rattle.plain_graph.specs.declared.item.Item.{Item};
ghost use Rattle.traversal_run.specs.Row.{AreIdle};

use crate::counter::Counter;
use crate::finding::vertex_row;
use crate::lookups::passes;
use crate::mapping::Mapping;
use crate::numbered_filter::{NumberedFilter, numbered_filters, passes_each};
use crate::row::Row;
use crate::shown::Shown;
use crate::sought::Sought;
use crate::source::Source;
use crate::stage::Stage;
use crate::stop::Stop;
use crate::waiting::Waiting;
use name_store::Names;
use node_store::NodeRow;
use plain_graph::Filter;
use rec_bytes::{Fault, Reads};
use std::alloc::Global;

/// What a step gives for the first of the items of the source that it gives something for. Where
/// there is none, it gives nothing, and the source is over. A count takes all items.
pub(crate) fn feed<R: Reads>(
    alloc: Global,
    space: &mut R,
    names: &Names,
    source: &mut Source,
    stage: &mut Stage,
) -> Result<Waiting, Stop>
    ensures feeds { R.tells
        → IsNamedStore (R.state space.old).records (R.state space.old).shape names.now.names
        → IfOk result (λ outs. Feeds (graph_of (R.state space.old).records)
        source.old stage.old outs source.new stage.new) }
    ensures stops { R.tells
        → IsNamedStore (R.state space.old).records (R.state space.old).shape names.now.names
        → IfErr result (MayStop ⊥ (counts_past stage.old
        (left_of (graph_of (R.state space.old).records) source.old) ≡ true)) }
    ensures damaged { R.tells → IfErr result
        (StopsAtBroken (R.state space.old).records (R.state space.old).shape) }
    ensures limits { IfOk result (λ outs.
        with_more (limit_left stage.new) (length outs) ≡ limit_left stage.old) }
    ensures counts { is_count stage.new ≡ is_count stage.old }
    ensures hops { is_hop stage.new ≡ is_hop stage.old }
    ensures plain { is_plain stage.new ≡ is_plain stage.old }
    ensures few { R.tells
        → IsNamedStore (R.state space.old).records (R.state space.old).shape names.now.names
        → (d : ℕ) → HasDegreesUpTo (graph_of (R.state space.old).records) d
        → is_plain stage.old ≡ true → IfOk result (IsBatch d (is_hop stage.old)) }
    ensures hop { source.old.edges ≡ false → is_hop stage.old ≡ true → FeedsHop R.Reads
        names.now.names stage.old space.old space.new source.old source.new }
    ensures asks { (records : Records) (item : Item)
        → stage_reads records stage.new item ≡ stage_reads records stage.old item }
    ensures owes { R.tells
        → IsNamedStore (R.state space.old).records (R.state space.old).shape names.now.names
        → SpendsIf result (R.state space.old) (R.state space.new)
        (feed_owes (R.state space.old).records source.old stage.old)
        (feed_owes (R.state space.old).records source.new stage.new) }
    ensures read { IsRead R.Reads space.old space.new }
    ensures cause { HasStopCause (R.faults space.old) (R.faults space.new) result }
{
    if let Stage::Count { so_far, given } = stage {
        let fits = source.count(space, so_far)?;
        return if fits || *given {
            Ok(Waiting::new(alloc))
        } else {
            Err(Stop::PastCount)
        };
    }
    if source.edges {
        let outs = feed_edges(alloc, space, names, source, stage)?;
        return Ok(outs);
    }
    if let Stage::Mapped(Mapping::Filter(filter)) = stage {
        let outs = first_passing(alloc, space, names, source, filter)?;
        return Ok(outs);
    }
    let outs = feed_vertices(alloc, space, names, source, stage)?;
    Ok(outs)
}

/// The first of the vertices of the source that pass a filter.
fn first_passing<R: Reads>(
    alloc: Global,
    space: &mut R,
    names: &Names,
    source: &mut Source,
    filter: &Sought<Filter>,
) -> Result<Waiting, Fault>
    requires { source.old.edges ≡ false }
    ensures feeds { R.tells
        → IsNamedStore (R.state space.old).records (R.state space.old).shape names.now.names
        → IfOk result (λ outs. Feeds (graph_of (R.state space.old).records) source.old
        (filter_stage filter.now) outs source.new (filter_stage filter.now)) }
    ensures damaged { R.tells → IfErr result
        (BlamesBroken (R.state space.old).records (R.state space.old).shape) }
    ensures few { IfOk result (λ outs. length outs ≤ 1) }
    ensures owes { R.tells
        → IsNamedStore (R.state space.old).records (R.state space.old).shape names.now.names
        → SpendsIf result (R.state space.old) (R.state space.new)
        (feed_owes (R.state space.old).records source.old (filter_stage filter.now))
        (feed_owes (R.state space.old).records source.new (filter_stage filter.now)) }
    ensures read { IsRead R.Reads space.old space.new }
    ensures cause { HasFaultCause (R.faults space.old) (R.faults space.new) result }
{
    let mark = source.mark(space);
    while let Some(id) = source.left.take_first(mark) {
        let row = vertex_row(space, id)?;
        if row.is_some() {
            let passed = passes_at(alloc, space, names, filter, id, &row)?;
            if passed {
                return Ok(Waiting::one(alloc, Shown::vertex(id)));
            }
        }
    }
    source.end();
    Ok(Waiting::new(alloc))
}

/// What another step that doesn't count gives for the first of the vertices of the source that it
/// gives something for. The record of each is read once.
fn feed_vertices<R: Reads>(
    alloc: Global,
    space: &mut R,
    names: &Names,
    source: &mut Source,
    stage: &mut Stage,
) -> Result<Waiting, Fault>
    requires vertices { source.old.edges ≡ false }
    requires counts { is_count stage.old ≡ false }
    ensures feeds { R.tells
        → IsNamedStore (R.state space.old).records (R.state space.old).shape names.now.names
        → IfOk result (λ outs. Feeds (graph_of (R.state space.old).records)
        source.old stage.old outs source.new stage.new) }
    ensures damaged { R.tells → IfErr result
        (BlamesBroken (R.state space.old).records (R.state space.old).shape) }
    ensures limits { IfOk result (λ outs.
        with_more (limit_left stage.new) (length outs) ≡ limit_left stage.old) }
    ensures counts { is_count stage.new ≡ is_count stage.old }
    ensures hops { is_hop stage.new ≡ is_hop stage.old }
    ensures plain { is_plain stage.new ≡ is_plain stage.old }
    ensures few { R.tells
        → IsNamedStore (R.state space.old).records (R.state space.old).shape names.now.names
        → (d : ℕ) → HasDegreesUpTo (graph_of (R.state space.old).records) d
        → is_plain stage.old ≡ true → IfOk result (IsBatch d (is_hop stage.old)) }
    ensures hop { FeedsHop R.Reads
        names.now.names stage.old space.old space.new source.old source.new }
    ensures asks { (records : Records) (item : Item)
        → stage_reads records stage.new item ≡ stage_reads records stage.old item }
    ensures owes { R.tells
        → IsNamedStore (R.state space.old).records (R.state space.old).shape names.now.names
        → SpendsIf result (R.state space.old) (R.state space.new)
        (feed_owes (R.state space.old).records source.old stage.old)
        (feed_owes (R.state space.old).records source.new stage.new) }
    ensures read { IsRead R.Reads space.old space.new }
    ensures cause { HasFaultCause (R.faults space.old) (R.faults space.new) result }
{
    let mark = source.mark(space);
    while let Some(id) = source.left.take_first(mark) {
        let row = vertex_row(space, id)?;
        if row.is_some() {
            let outs = stage.take(alloc, space, names, Shown::vertex(id), &row)?;
            if !outs.is_empty() {
                return Ok(outs);
            }
        }
    }
    source.end();
    Ok(Waiting::new(alloc))
}

/// The same of edges.
fn feed_edges<R: Reads>(
    alloc: Global,
    space: &mut R,
    names: &Names,
    source: &mut Source,
    stage: &mut Stage,
) -> Result<Waiting, Fault>
    requires { is_count stage.old ≡ false }
    ensures feeds { R.tells
        → IsNamedStore (R.state space.old).records (R.state space.old).shape names.now.names
        → IfOk result (λ outs. Feeds (graph_of (R.state space.old).records)
        source.old stage.old outs source.new stage.new) }
    ensures damaged { R.tells → IfErr result
        (BlamesBroken (R.state space.old).records (R.state space.old).shape) }
    ensures limits { IfOk result (λ outs.
        with_more (limit_left stage.new) (length outs) ≡ limit_left stage.old) }
    ensures counts { is_count stage.new ≡ is_count stage.old }
    ensures hops { is_hop stage.new ≡ is_hop stage.old }
    ensures plain { is_plain stage.new ≡ is_plain stage.old }
    ensures few { R.tells
        → IsNamedStore (R.state space.old).records (R.state space.old).shape names.now.names
        → (d : ℕ) → HasDegreesUpTo (graph_of (R.state space.old).records) d
        → is_plain stage.old ≡ true → IfOk result (IsBatch d (is_hop stage.old)) }
    ensures asks { (records : Records) (item : Item)
        → stage_reads records stage.new item ≡ stage_reads records stage.old item }
    ensures owes { R.tells
        → IsNamedStore (R.state space.old).records (R.state space.old).shape names.now.names
        → SpendsIf result (R.state space.old) (R.state space.new)
        (feed_owes (R.state space.old).records source.old stage.old)
        (feed_owes (R.state space.old).records source.new stage.new) }
    ensures read { IsRead R.Reads space.old space.new }
    ensures cause { HasFaultCause (R.faults space.old) (R.faults space.new) result }
{
    let mark = source.mark(space);
    for _ in 0..u64::MAX {
        let Some(item) = source.next(alloc, space, names, mark)? else {
            source.end();
            return Ok(Waiting::new(alloc));
        };
        let outs = stage.take(alloc, space, names, item, &None)?;
        if !outs.is_empty() {
            return Ok(outs);
        }
    }
    Err(Fault::Memory)
}

/// Counts the vertices of the source that pass those of these rows that are filters, and leaves
/// nothing to come. It tells whether a value can say the count. The names are sought once.
pub(crate) fn count_passing<R: Reads>(
    alloc: Global,
    space: &mut R,
    names: &Names,
    source: &mut Source,
    rows: &[Row],
    so_far: &mut Counter,
) -> Result<bool, Fault>
    requires { source.old.edges ≡ false }
    ensures counts { R.tells
        → IsNamedStore (R.state space.old).records (R.state space.old).shape names.now.names
        → IfOk result (λ fits. IsCountOf
        (passing (graph_of (R.state space.old).records) rows.now source.old)
        so_far.old fits so_far.new) }
    ensures over { OnOk result ((graph : Graph) → left_of graph source.new ≡ []) }
    ensures damaged { R.tells → IfErr result
        (BlamesBroken (R.state space.old).records (R.state space.old).shape) }
    ensures owes { R.tells
        → IsNamedStore (R.state space.old).records (R.state space.old).shape names.now.names
        → are_filters rows.now ≡ true → AreIdle rows.now
        → Spends (R.state space.old) (R.state space.new)
        (rows_owe (R.state space.old).records source.old rows.now) 0 }
    ensures read { IsRead R.Reads space.old space.new }
    ensures cause { HasFaultCause (R.faults space.old) (R.faults space.new) result }
{
    let filters = numbered_filters(alloc, space, names, rows)?;
    count_numbered(alloc, space, source, &filters, so_far)
}

/// The same of filters with the numbers of their names.
fn count_numbered<R: Reads>(
    alloc: Global,
    space: &mut R,
    source: &mut Source,
    filters: &[NumberedFilter],
    so_far: &mut Counter,
) -> Result<bool, Fault>
    requires { source.old.edges ≡ false }
    ensures counts { R.tells → IsWellFormed (R.state space.old).records (R.state space.old).shape
        → All (IsNumbered (R.state space.old).records) filters.now → IfOk result (λ fits. IsCountOf
        (filter (passes_numbered (graph_of (R.state space.old).records) filters.now)
        (left_of (graph_of (R.state space.old).records) source.old))
        so_far.old fits so_far.new) }
    ensures over { OnOk result ((graph : Graph) → left_of graph source.new ≡ []) }
    ensures damaged { R.tells → IfErr result
        (BlamesBroken (R.state space.old).records (R.state space.old).shape) }
    ensures owes { R.tells → IsWellFormed (R.state space.old).records (R.state space.old).shape
        → All (IsNumbered (R.state space.old).records) filters.now
        → Spends (R.state space.old) (R.state space.new)
        (count_owes (R.state space.old).records filters.now source.old) 0 }
    ensures read { IsRead R.Reads space.old space.new }
    ensures cause { HasFaultCause (R.faults space.old) (R.faults space.new) result }
{
    let mark = source.mark(space);
    while let Some(id) = source.left.take_first(mark) {
        let passed = vertex_passes(alloc, space, filters, id)?;
        if !so_far.add(usize::from(passed)) {
            source.end();
            return Ok(false);
        }
    }
    source.end();
    Ok(true)
}

/// Whether an identifier is that of a vertex that passes each of these filters.
fn vertex_passes<R: Reads>(
    alloc: Global,
    space: &mut R,
    filters: &[NumberedFilter],
    id: u32,
) -> Result<bool, Fault>
    ensures found { R.tells → IsWellFormed (R.state space.old).records (R.state space.old).shape
        → All (IsNumbered (R.state space.old).records) filters.now → IfOk result (λ value. value
        ≡ is_some_and (element_at (R.state space.old).records false id)
        (passes_numbered (graph_of (R.state space.old).records) filters.now)) }
    ensures damaged { R.tells → IfErr result
        (BlamesBroken (R.state space.old).records (R.state space.old).shape) }
    ensures reads { R.tells → IsWellFormed (R.state space.old).records (R.state space.old).shape
        → All (IsNumbered (R.state space.old).records) filters.now
        → ReadsAtMost (vertex_reads (R.state space.old).records filters.now id)
        (R.state space.old) (R.state space.new) }
    ensures read { IsRead R.Reads space.old space.new }
    ensures cause { HasFaultCause (R.faults space.old) (R.faults space.new) result }
{
    let row = vertex_row(space, id)?;
    if row.is_some() {
        passes_each(alloc, space, filters, id, &row)
    } else {
        Ok(false)
    }
}

/// Whether the vertex of an identifier passes a filter.
fn passes_at<R: Reads>(
    alloc: Global,
    space: &mut R,
    names: &Names,
    filter: &Sought<Filter>,
    id: u32,
    row: &Option<NodeRow>,
) -> Result<bool, Fault>
    requires row { IsRowOf R.tells (R.state space.old).records (items.Vertex id) row.now }
    ensures found { R.tells
        → IsNamedStore (R.state space.old).records (R.state space.old).shape names.now.names
        → IfOk result (λ value. value
        ≡ passes (graph_of (R.state space.old).records) filter.now (items.Vertex id)) }
    ensures damaged { R.tells → IfErr result
        (BlamesBroken (R.state space.old).records (R.state space.old).shape) }
    ensures at_most { ReadsAtMost (filter_reads filter.now)
        (R.state space.old) (R.state space.new) }
    ensures read { IsRead R.Reads space.old space.new }
    ensures cause { HasFaultCause (R.faults space.old) (R.faults space.new) result }
{
    let vertex = Shown::vertex(id);
    passes(alloc, space, names, filter, vertex.as_item(), row)
}

/// A row that counts, with a filter before it and nothing else: its place, and what it has counted.
#[derive(Drop)]
pub(crate) struct FilteredCount {
    pub(crate) at: usize,
    pub(crate) so_far: Counter,
    pub(crate) given: bool,
}

/// The count that takes what comes through filters alone, if there is one.
#[tactic(auto, using(crate::proofs::FilteredCounts::filters_more))]
pub(crate) fn filtered_count(rows: &[Row]) -> Option<FilteredCount>
    ensures some { IfSome result (λ count. (0 < count.at) × (count.at < length rows.now)) }
    ensures filters { IfSome result (λ count. are_filters (take count.at rows.now) ≡ true) }
    ensures counts { IfSome result (λ count. (any : Row)
        → (get_or rows.now count.at any).stage ≡ Stage.Count count.so_far count.given) }
{
    for (at, row) in rows.iter().enumerate() {
        if !row.stage.is_filter() {
            return count_at(at, &row.stage);
        }
    }
    None
}

/// The step at this place, where it counts and another is before it.
fn count_at(at: usize, stage: &Stage) -> Option<FilteredCount>
    ensures at { IfSome result (λ count. (count.at ≡ at) × (0 < at)) }
    ensures counts { IfSome result (λ count. stage.now ≡ Stage.Count count.so_far count.given) }
{
    match stage {
        Stage::Count { so_far, given } if at > 0 => Some(FilteredCount {
            at,
            so_far: so_far.copy(),
            given: *given,
        }),
        _ => None,
    }
}
