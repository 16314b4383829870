ghost use Rattle.std.specs.Prelude.{◌≡◌, ◌↔◌, ℕ, Bool, IsTrue, [], ◌∷◌, ◌+◌, ◌<◌, ◌≤◌};
ghost use Rattle.std.specs.Prelude.{length, take, drop, true, vec_len, None, Some, Ok, Err, IfErr};
ghost use Rattle.std.specs.Prelude.{IfOk, List, OnOk, get_or};
ghost use Rattle.plain_graph.specs.Forms.{IsShown};
ghost use Rattle.plain_graph.specs.Graph.{Graph};
ghost use Rattle.plain_graph.specs.Lines.{index_of_source};
ghost use Rattle.store_rules.specs.Graph.{graph_of};
ghost use Rattle.std.specs.Prelude.{◌⊎◌, ◌-◌, false};
ghost use Rattle.plain_graph.specs.declared.query.Source.TheVariants as sources;
ghost use Rattle.plain_graph.specs.declared.query.Step.TheVariants as steps;
ghost use Rattle.plain_graph.specs.declared.query.Hop.{Hop};
ghost use Rattle.prop_index.specs.Looking.{BlamesBroken, HasLookupCause};
ghost use Rattle.prop_store.specs.Reading.{ReadsAtMost};
ghost use Rattle.traversal_run.specs.Feeding.{are_filters};
ghost use Rattle.traversal_run.specs.FoundNodes.{HasIndexOf, IsSourceRefusal, ReadsToBegin};
ghost use Rattle.traversal_run.specs.Held.{
  ArePlainSteps,
  HasDegreesUpTo,
  IsNear,
  IsWithin,
  as_size,
  held,
  hops_of,
};
ghost use Rattle.traversal_run.specs.HopRun.{
  FeedsHop,
  IsHop,
  IsHopAlone,
  IsHopQuery,
  IsReady,
  reads_for_hop,
};
ghost use Rattle.traversal_run.specs.Reading.{IsNamedStore, IsRead};
ghost use Rattle.traversal_run.specs.Row.{AreIdle, AreQuiet, Stream, have_no_count, stages_of};
ghost use Rattle.traversal_run.specs.Row.{stream, through, with_first};
ghost use Rattle.rec_bytes.specs.declared.damage.Damage.{Damage};
ghost use Rattle.fault_count.specs.Cause.{Rose};
ghost use Rattle.traversal_run.specs.Run.{
  IfDamaged,
  IfItem,
  IsStopOf,
  allowed_by,
  answer_of,
  meant,
  still_allowed,
  stop_in,
  stopped_by,
  to_come,
};
ghost use Rattle.traversal_run.specs.Scan.{
  IsScan,
  IsScanReady,
  IsScanWith,
  IsScanned,
  TakesVertex,
  limit_row,
};
ghost use Rattle.traversal_run.specs.Source.{is_over, left_of};
ghost use Rattle.traversal_run.specs.Stage.{with_more};
ghost use Rattle.traversal_run.specs.Starting.{limit_of};
ghost use Rattle.traversal_run.specs.Stop.{HasStopCause, MayStop, StopsAtBroken};
ghost use Rattle.traversal_run.specs.Owing.{
  Spends,
  SpendsIf,
  owed,
  query_reads,
  rows_owe,
  steps_owe,
};
ghost use Rattle.store_rules.specs.Breaking.{Breaks};
ghost use Rattle.store_rules.specs.Views.{Records};

use crate::feeding::{FilteredCount, count_passing, feed, filtered_count};
use crate::row::{Row, first_open, have_no_count, is_fed, last_waiting, put};
use crate::source::Source;
use crate::stage::Stage;
use crate::starting::rows_of;
use crate::stop::Stop;
use crate::waiting::Waiting;
use name_store::Names;
use plain_graph::{Item, Query};
use prop_index::LookupFault;
use rec_bytes::{Damage, Reads};
use std::alloc::{AllocError, Global};

/// What a run gives next.
#[derive(Drop)]
pub enum Next {
    /// A result.
    Item(Item),
    /// Nothing: all results were given.
    End,
    /// There was no memory for a result.
    Memory,
    /// The disk failed.
    Disk,
    /// A record breaks a rule of the store.
    Damaged(Damage),
    /// A count would pass the greatest number of a value.
    PastCount,
}

/// A run of a query.
#[derive(Drop)]
pub struct Run {
    alloc: Global,
    source: Source,
    rows: Vec<Row>,
    ready: Waiting,
    stopped: Option<Stop>,
}

/// Gives what the row at this place makes of the first item that waits for it to the next row.
fn advance_row<R: Reads>(
    alloc: Global,
    space: &mut R,
    names: &Names,
    rows: &mut [Row],
    ready: &mut Waiting,
    at: usize,
) -> Result<(), Stop>
    requires within { at < length rows.old }
    requires idle { AreIdle (drop (at + 1) rows.old) }
    requires none { ready.old ≡ [] }
    ensures same { R.tells
        → IsNamedStore (R.state space.old).records (R.state space.old).shape names.now.names
        → OnOk result ((coming : Stream)
        → with_first ready.new (through (graph_of (R.state space.old).records) rows.new coming)
        ≡ through (graph_of (R.state space.old).records) rows.old coming) }
    ensures stops { R.tells
        → IsNamedStore (R.state space.old).records (R.state space.old).shape names.now.names
        → IfErr result (MayStop ⊥ ((coming : Stream)
        → (through (graph_of (R.state space.old).records) rows.old coming).past ≡ true)) }
    ensures damaged { R.tells → IfErr result
        (StopsAtBroken (R.state space.old).records (R.state space.old).shape) }
    ensures near { R.tells
        → IsNamedStore (R.state space.old).records (R.state space.old).shape names.now.names
        → (d most : ℕ) → HasDegreesUpTo (graph_of (R.state space.old).records) d
        → IsNear d most rows.old ready.old → OnOk result (IsNear d most rows.new ready.new) }
    ensures limit { (most : ℕ) (item : Item) → rows.old ≡ limit_row most (item ∷ []) ∷ []
        → OnOk result ((rows.new ≡ limit_row (most - 1) [] ∷ [])
        × (ready.new ≡ take most (item ∷ [])) × (space.new ≡ space.old)) }
    ensures allowed { OnOk result ((over : Bool)
        → allowed_by over (stages_of rows.new) (length ready.new)
        ≡ allowed_by over (stages_of rows.old) 0) }
    ensures owes { R.tells
        → IsNamedStore (R.state space.old).records (R.state space.old).shape names.now.names
        → (coming : List Item) → SpendsIf result (R.state space.old) (R.state space.new)
        (steps_owe (R.state space.old).records rows.old coming)
        (steps_owe (R.state space.old).records rows.new coming) }
    ensures read { IsRead R.Reads space.old space.new }
    ensures cause { HasStopCause (R.faults space.old) (R.faults space.new) result }
{
    let outs = rows[at].advance(alloc, space, names)?;
    put(rows, ready, at + 1, outs);
    Ok(())
}

/// Gives the first row what the source still has until it gives something, and that to the next
/// row.
fn feed_step<R: Reads>(
    alloc: Global,
    space: &mut R,
    names: &Names,
    source: &mut Source,
    rows: &mut [Row],
    ready: &mut Waiting,
) -> Result<(), Stop>
    requires some { 0 < length rows.old }
    requires idle { AreIdle rows.old }
    requires none { ready.old ≡ [] }
    ensures same { R.tells
        → IsNamedStore (R.state space.old).records (R.state space.old).shape names.now.names
        → OnOk result (with_first ready.new (through (graph_of (R.state space.old).records)
        rows.new (stream (left_of (graph_of (R.state space.old).records) source.new)))
        ≡ through (graph_of (R.state space.old).records)
        rows.old (stream (left_of (graph_of (R.state space.old).records) source.old))) }
    ensures stops { R.tells
        → IsNamedStore (R.state space.old).records (R.state space.old).shape names.now.names
        → IfErr result (MayStop ⊥ ((through (graph_of (R.state space.old).records)
        rows.old (stream (left_of (graph_of (R.state space.old).records) source.old))).past
        ≡ true)) }
    ensures damaged { R.tells → IfErr result
        (StopsAtBroken (R.state space.old).records (R.state space.old).shape) }
    ensures near { R.tells
        → IsNamedStore (R.state space.old).records (R.state space.old).shape names.now.names
        → (d most : ℕ) → HasDegreesUpTo (graph_of (R.state space.old).records) d
        → IsNear d most rows.old ready.old → OnOk result (IsNear d most rows.new ready.new) }
    ensures allowed { OnOk result ((before after : Bool)
        → allowed_by after (stages_of rows.new) (length ready.new)
        ≡ allowed_by before (stages_of rows.old) 0) }
    ensures hop { (alone : IsHopAlone rows.old) → source.old.edges ≡ false
        → FeedsHop R.Reads names.now.names alone.row.stage space.old space.new
        source.old source.new × OnOk result (IsHopAlone rows.new) }
    ensures owes { R.tells
        → IsNamedStore (R.state space.old).records (R.state space.old).shape names.now.names
        → SpendsIf result (R.state space.old) (R.state space.new)
        (rows_owe (R.state space.old).records source.old rows.old)
        (rows_owe (R.state space.old).records source.new rows.new) }
    ensures read { IsRead R.Reads space.old space.new }
    ensures cause { HasStopCause (R.faults space.old) (R.faults space.new) result }
{
    let outs = feed(alloc, space, names, source, &mut rows[0].stage)?;
    put(rows, ready, 1, outs);
    Ok(())
}

/// Gives a count all that comes to it from the source through the filters before it.
fn feed_count<R: Reads>(
    alloc: Global,
    space: &mut R,
    names: &Names,
    source: &mut Source,
    rows: &mut [Row],
    count: FilteredCount,
) -> Result<(), Stop>
    requires vertices { source.old.edges ≡ false }
    requires within { count.at < length rows.old }
    requires idle { AreIdle rows.old }
    requires filters { are_filters (take count.at rows.old) ≡ true }
    requires counts { (any : Row)
        → (get_or rows.old count.at any).stage ≡ Stage.Count count.so_far count.given }
    ensures same { R.tells
        → IsNamedStore (R.state space.old).records (R.state space.old).shape names.now.names
        → OnOk result (through (graph_of (R.state space.old).records)
        rows.new (stream (left_of (graph_of (R.state space.old).records) source.new))
        ≡ through (graph_of (R.state space.old).records)
        rows.old (stream (left_of (graph_of (R.state space.old).records) source.old))) }
    ensures counts { OnOk result ((have_no_count (stages_of rows.old) ≡ false)
        × (have_no_count (stages_of rows.new) ≡ false)) }
    ensures stops { R.tells
        → IsNamedStore (R.state space.old).records (R.state space.old).shape names.now.names
        → IfErr result (MayStop ⊥ ((through (graph_of (R.state space.old).records)
        rows.old (stream (left_of (graph_of (R.state space.old).records) source.old))).past
        ≡ true)) }
    ensures damaged { R.tells → IfErr result
        (StopsAtBroken (R.state space.old).records (R.state space.old).shape) }
    ensures owes { R.tells
        → IsNamedStore (R.state space.old).records (R.state space.old).shape names.now.names
        → SpendsIf result (R.state space.old) (R.state space.new)
        (rows_owe (R.state space.old).records source.old rows.old)
        (rows_owe (R.state space.old).records source.new rows.new) }
    ensures read { IsRead R.Reads space.old space.new }
    ensures cause { HasStopCause (R.faults space.old) (R.faults space.new) result }
{
    let at = count.at;
    let given = count.given;
    let mut so_far = count.so_far;
    let fits = count_passing(alloc, space, names, source, &rows[..at], &mut so_far)?;
    rows[at].stage = Stage::Count { so_far, given };
    if fits | given {
        Ok(())
    } else {
        Err(Stop::PastCount)
    }
}

/// Gives the first row what the source still has, and what that gives to the next row. A count
/// with filters of vertices alone before it takes all at once.
fn feed_rows<R: Reads>(
    alloc: Global,
    space: &mut R,
    names: &Names,
    source: &mut Source,
    rows: &mut [Row],
    ready: &mut Waiting,
) -> Result<(), Stop>
    requires some { 0 < length rows.old }
    requires idle { AreIdle rows.old }
    requires none { ready.old ≡ [] }
    ensures same { R.tells
        → IsNamedStore (R.state space.old).records (R.state space.old).shape names.now.names
        → OnOk result (with_first ready.new (through (graph_of (R.state space.old).records)
        rows.new (stream (left_of (graph_of (R.state space.old).records) source.new)))
        ≡ through (graph_of (R.state space.old).records)
        rows.old (stream (left_of (graph_of (R.state space.old).records) source.old))) }
    ensures stops { R.tells
        → IsNamedStore (R.state space.old).records (R.state space.old).shape names.now.names
        → IfErr result (MayStop ⊥ ((through (graph_of (R.state space.old).records)
        rows.old (stream (left_of (graph_of (R.state space.old).records) source.old))).past
        ≡ true)) }
    ensures damaged { R.tells → IfErr result
        (StopsAtBroken (R.state space.old).records (R.state space.old).shape) }
    ensures near { R.tells
        → IsNamedStore (R.state space.old).records (R.state space.old).shape names.now.names
        → (d most : ℕ) → HasDegreesUpTo (graph_of (R.state space.old).records) d
        → IsNear d most rows.old ready.old → OnOk result (IsNear d most rows.new ready.new) }
    ensures allowed { OnOk result ((before after : Bool)
        → allowed_by after (stages_of rows.new) (length ready.new)
        ≡ allowed_by before (stages_of rows.old) 0) }
    ensures hop { (alone : IsHopAlone rows.old) → source.old.edges ≡ false
        → FeedsHop R.Reads names.now.names alone.row.stage space.old space.new
        source.old source.new × OnOk result (IsHopAlone rows.new) }
    ensures owes { R.tells
        → IsNamedStore (R.state space.old).records (R.state space.old).shape names.now.names
        → SpendsIf result (R.state space.old) (R.state space.new)
        (rows_owe (R.state space.old).records source.old rows.old)
        (rows_owe (R.state space.old).records source.new rows.new) }
    ensures read { IsRead R.Reads space.old space.new }
    ensures cause { HasStopCause (R.faults space.old) (R.faults space.new) result }
{
    if !source.edges
        && let Some(count) = filtered_count(rows)
    {
        return feed_count(alloc, space, names, source, rows, count);
    }
    feed_step(alloc, space, names, source, rows, ready)
}

/// Gives what the first open row has at the end of what comes to it to the next row.
#[tactic(auto, using(crate::proofs::Rows::idle_behind))]
fn finish_row(
    alloc: Global,
    rows: &mut [Row],
    ready: &mut Waiting,
    at: usize,
) -> Result<(), AllocError>
    requires within { at < length rows.old }
    requires idle { AreIdle rows.old }
    requires quiet { AreQuiet (take at rows.old) }
    requires none { ready.old ≡ [] }
    ensures same { OnOk result ((graph : Graph)
        → with_first ready.new (through graph rows.new (stream []))
        ≡ through graph rows.old (stream [])) }
    ensures allowed { OnOk result ((over : Bool)
        → allowed_by over (stages_of rows.new) (length ready.new)
        ≡ allowed_by over (stages_of rows.old) 0) }
    ensures owes { OnOk result ((records : Records)
        → steps_owe records rows.new [] ≡ steps_owe records rows.old []) }
{
    let outs = rows[at].stage.finish(alloc)?;
    put(rows, ready, at + 1, outs);
    Ok(())
}

/// Leaves out so many of the first rows.
fn drop_rows(rows: &mut Vec<Row>, count: usize)
    requires { count ≤ vec_len rows.old }
    ensures { rows.new.items ≡ drop count rows.old.items }
{
    rows.drain(..count);
}

impl Run {
    /// A run of a query. It reads nothing, but where the query begins with nodes that an index
    /// finds: they are looked up.
    pub fn new<R: Reads>(
        alloc: Global,
        space: &mut R,
        names: &Names,
        query: &Query,
    ) -> Result<Run, LookupFault>
        // What is to come is what the query means: over any graph where it begins with no index,
        // and else over that of the store.
        ensures begins { index_of_source query.now.source ≡ None → IfOk result (λ run.
            (graph : Graph) → to_come graph run ≡ meant graph query.now) }
        ensures found { R.tells
            → IsNamedStore (R.state space.old).records (R.state space.old).shape names.now.names
            → IfOk result (λ run. to_come (graph_of (R.state space.old).records) run
            ≡ meant (graph_of (R.state space.old).records) query.now) }
        // The graph has the index that the query begins with, and lacks it where that is said.
        ensures there { R.tells
            → IsNamedStore (R.state space.old).records (R.state space.old).shape names.now.names
            → IfOk result (λ run.
            HasIndexOf (graph_of (R.state space.old).records) query.now.source) }
        ensures refused { R.tells
            → IsNamedStore (R.state space.old).records (R.state space.old).shape names.now.names
            → IfErr result (IsSourceRefusal
            (graph_of (R.state space.old).records) query.now.source) }
        // Where it begins with no index, it is refused for want of memory alone.
        ensures memory { index_of_source query.now.source ≡ None
            → IfErr result (λ fault. fault ≡ LookupFault.Memory) }
        // A record that is said to be damaged breaks a rule, in whatever store.
        ensures damaged { R.tells → IfErr result
            (BlamesBroken (R.state space.old).records (R.state space.old).shape) }
        ensures no_read { index_of_source query.now.source ≡ None → space.new ≡ space.old }
        ensures cost { R.tells
            → IsNamedStore (R.state space.old).records (R.state space.old).shape names.now.names
            → ReadsToBegin query.now.source (R.state space.old) (R.state space.new) }
        // It may read no more than its query says: one record for each identifier that it comes
        // to, and for each item what each step reads that the item comes to.
        ensures owes { R.tells
            → IsNamedStore (R.state space.old).records (R.state space.old).shape names.now.names
            → IfOk result (λ run. owed (R.state space.old).records run
            ≤ query_reads (R.state space.old).records query.now) }
        ensures read { IsRead R.Reads space.old space.new }
        ensures cause { HasLookupCause (R.faults space.old) (R.faults space.new) result }
        ensures allowed { IfOk result (λ run. (most : ℕ)
            → limit_of query.now.steps ≡ Some most → still_allowed run ≡ Some most) }
        ensures stopped { IfOk result (λ run. stopped_by run ≡ None) }
        // Where no step is an order, a dedup or a count, it is within a bound that `next` keeps:
        // for each step that gives neighbours or edges twice the greatest degree.
        ensures within { ArePlainSteps query.now.steps
            → IfOk result (λ run. (d : ℕ) → IsWithin d (hops_of query.now.steps) run) }
        // A limit over all vertices begins before the first.
        ensures scan { query.now.source ≡ sources.Vertices [] → (most : ℕ)
            → query.now.steps ≡ steps.Limit most ∷ [] → IfOk result (λ run. IsScan run 0) }
        // A hop at one vertex, alone, is still to be made.
        ensures hop { (id : ℕ) (hop : Hop) → IsHopQuery query.now id hop
            → IfOk result (λ run. IsHop run id hop) }
    {
        let source = Source::new(alloc, space, names, &query.source)?;
        let Ok(rows) = rows_of(alloc, query.steps.as_slice()) else {
            return Err(LookupFault::Memory);
        };
        Ok(Run {
            alloc,
            source,
            rows,
            ready: Waiting::new(alloc),
            stopped: None,
        })
    }

    /// How many vertices and edges it holds: those that wait for each step, and those that are
    /// ready. It takes no memory.
    pub fn held(&self) -> usize
        ensures { result ≡ as_size (held self.now) }
    {
        let mut count = self.ready.elements();
        for row in &self.rows {
            count = count.saturating_add(row.waiting.elements());
        }
        count
    }

    /// Whether no result is left, since the last step is a limit that has let all of its items
    /// through and none counts, or since that is how the last steps were left.
    fn is_spent(&self) -> bool
        ensures { IsTrue result ↔ (still_allowed self.now ≡ Some 0) }
    {
        if !self.ready.is_empty() {
            return false;
        }
        match self.rows.last() {
            Some(row) => row.stage.is_spent() && have_no_count(&self.rows),
            None => self.source.is_over(),
        }
    }

    /// Leaves out a limit that lets nothing more through, and what is before it, unless a step
    /// there counts.
    fn cut(&mut self, at: usize)
        requires { at < vec_len self.old.rows }
        ensures same { (graph : Graph) → to_come graph self.new ≡ to_come graph self.old }
        ensures allowed { still_allowed self.new ≡ still_allowed self.old }
        ensures near { (d most : ℕ) → IsNear d most self.old.rows.items self.old.ready
            → IsNear d most self.new.rows.items self.new.ready }
        ensures either { (self.new ≡ self.old)
            ⊎ ((self.new.rows.items ≡ drop (at + 1) self.old.rows.items)
            × (is_over self.new.source.left ≡ true) × (self.new.ready ≡ self.old.ready)) }
        ensures owes { (records : Records) → owed records self.new ≤ owed records self.old }
        ensures stopped { self.new.stopped ≡ self.old.stopped }
    {
        if self.rows[at].stage.is_spent() && have_no_count(&self.rows[..at]) {
            drop_rows(&mut self.rows, at + 1);
            self.source.end();
        }
    }

    /// Goes on by one item of one step, where no result is ready.
    fn turn<R: Reads>(&mut self, space: &mut R, names: &Names) -> Result<(), Stop>
        requires { self.old.ready ≡ [] }
        ensures same { R.tells
            → IsNamedStore (R.state space.old).records (R.state space.old).shape names.now.names
            → OnOk result (to_come (graph_of (R.state space.old).records) self.new
            ≡ to_come (graph_of (R.state space.old).records) self.old) }
        ensures stops { R.tells
            → IsNamedStore (R.state space.old).records (R.state space.old).shape names.now.names
            → IfErr result (IsStopOf (to_come (graph_of (R.state space.old).records) self.old)) }
        ensures damaged { R.tells → IfErr result
            (StopsAtBroken (R.state space.old).records (R.state space.old).shape) }
        ensures allowed { OnOk result (still_allowed self.new ≡ still_allowed self.old) }
        ensures near { R.tells
            → IsNamedStore (R.state space.old).records (R.state space.old).shape names.now.names
            → (d most : ℕ) → HasDegreesUpTo (graph_of (R.state space.old).records) d
            → IsNear d most self.old.rows.items self.old.ready
            → OnOk result (IsNear d most self.new.rows.items self.new.ready) }
        ensures scan { (at most : ℕ) → IsScanWith self.old at most [] []
            → OnOk result ((item : Item) × TakesVertex at (R.state space.old).reads
            (R.state space.new).reads item self.new.source
            × (self.new.rows.items ≡ limit_row most (item ∷ []) ∷ []) × (self.new.ready ≡ [])) }
        ensures limit { (from most : ℕ) (item : Item)
            → IsScanWith self.old from (most + 1) (item ∷ []) []
            → OnOk result ((space.new ≡ space.old) × IsScanReady self.new from most item) }
        ensures hop { (alone : IsHopAlone self.old.rows.items)
            → self.old.source.edges ≡ false
            → FeedsHop R.Reads names.now.names alone.row.stage space.old space.new
            self.old.source self.new.source × OnOk result (IsHopAlone self.new.rows.items) }
        ensures stopped { self.new.stopped ≡ self.old.stopped }
        ensures owes { R.tells
            → IsNamedStore (R.state space.old).records (R.state space.old).shape names.now.names
            → SpendsIf result (R.state space.old) (R.state space.new)
            (owed (R.state space.old).records self.old)
            (owed (R.state space.old).records self.new) }
        ensures read { IsRead R.Reads space.old space.new }
        ensures cause { HasStopCause (R.faults space.old) (R.faults space.new) result }
    {
        if let Some(at) = last_waiting(&self.rows) {
            advance_row(
                self.alloc,
                space,
                names,
                &mut self.rows,
                &mut self.ready,
                at,
            )?;
            self.cut(at);
            return Ok(());
        }
        if !self.source.is_over() && is_fed(&self.rows) {
            feed_rows(
                self.alloc,
                space,
                names,
                &mut self.source,
                &mut self.rows,
                &mut self.ready,
            )?;
            return Ok(());
        }
        let mark = self.source.mark(space);
        if let Some(item) = self.source.next(self.alloc, space, names, mark)? {
            let outs = Waiting::one(self.alloc, item);
            put(&mut self.rows, &mut self.ready, 0, outs);
            return Ok(());
        }
        if let Some(at) = first_open(&self.rows) {
            finish_row(self.alloc, &mut self.rows, &mut self.ready, at)?;
            return Ok(());
        }
        Err(Stop::End)
    }
}

impl From<Stop> for Next {
    ghost use Rattle.std.specs.Prelude.{◌≡◌};
    ghost use Rattle.traversal_run.specs.Run.{answer_of};

    ghost from_gives = { λ stop result. result ≡ answer_of stop };

    fn from(stop: Stop) -> Next {
        match stop {
            Stop::End => Next::End,
            Stop::Memory => Next::Memory,
            Stop::Disk => Next::Disk,
            Stop::Damaged(damage) => Next::Damaged(damage),
            Stop::PastCount => Next::PastCount,
        }
    }
}

impl Run {
    /// Goes on to the next result.
    fn go_on<R: Reads>(&mut self, space: &mut R, names: &Names) -> Result<Item, Stop>
        ensures item { R.tells
            → IsNamedStore (R.state space.old).records (R.state space.old).shape names.now.names
            → IfOk result (λ item. to_come (graph_of (R.state space.old).records) self.old
            ≡ with_first (item ∷ []) (to_come (graph_of (R.state space.old).records) self.new)) }
        ensures stops { R.tells
            → IsNamedStore (R.state space.old).records (R.state space.old).shape names.now.names
            → IfErr result (IsStopOf (to_come (graph_of (R.state space.old).records) self.old)) }
        ensures damaged { R.tells → IfErr result
            (StopsAtBroken (R.state space.old).records (R.state space.old).shape) }
        ensures shown { IfOk result IsShown }
        ensures within { R.tells
            → IsNamedStore (R.state space.old).records (R.state space.old).shape names.now.names
            → (d most : ℕ) → HasDegreesUpTo (graph_of (R.state space.old).records) d
            → IsWithin d most self.old → OnOk result (IsWithin d most self.new) }
        ensures scan { (at : ℕ) → IsScan self.old at → IfOk result (λ item.
            IsScanned at (R.state space.old).reads (R.state space.new).reads item self.new) }
        ensures hop { (id : ℕ) (hop : Hop) → IsHop self.old id hop
            → (R.tells
            → IsNamedStore (R.state space.old).records (R.state space.old).shape names.now.names
            → ReadsAtMost (reads_for_hop (R.state space.old).records hop id)
            (R.state space.old) (R.state space.new)) × IfOk result (λ _. IsReady self.new) }
        ensures ready { IsReady self.old
            → (space.new ≡ space.old) × IfOk result (λ _. IsReady self.new) }
        ensures allowed { OnOk result (still_allowed self.old
            ≡ with_more (still_allowed self.new) 1) }
        ensures no_read { still_allowed self.old ≡ Some 0
            → (result ≡ Err Stop.End) × (space.new ≡ space.old) }
        ensures stopped { self.new.stopped ≡ self.old.stopped }
        ensures owes { R.tells
            → IsNamedStore (R.state space.old).records (R.state space.old).shape names.now.names
            → SpendsIf result (R.state space.old) (R.state space.new)
            (owed (R.state space.old).records self.old)
            (owed (R.state space.old).records self.new) }
        ensures read { IsRead R.Reads space.old space.new }
        ensures cause { HasStopCause (R.faults space.old) (R.faults space.new) result }
    {
        if self.is_spent() {
            return Err(Stop::End);
        }
        for _ in 0..u64::MAX {
            if let Some(item) = self.ready.take_first() {
                return Ok(item.into_item());
            }
            self.turn(space, names)?;
        }
        Err(Stop::Memory)
    }

    /// Leaves nothing to come, and gives this answer from now on.
    fn stop(&mut self, stop: Stop) -> Next
        ensures answer { result ≡ answer_of stop }
        ensures stopped { self.new.stopped ≡ Some stop }
        ensures nothing { (graph : Graph) → to_come graph self.new ≡ stream [] }
        ensures owes { (records : Records) → owed records self.new ≡ 0 }
        ensures within { (d most : ℕ) → IsWithin d most self.new }
    {
        self.source.end();
        self.rows.clear();
        self.ready = Waiting::new(self.alloc);
        self.stopped = Some(stop);
        Next::from(stop)
    }

    /// The next result. After any other answer the run gives that answer again, with no read.
    pub fn next<R: Reads>(&mut self, space: &mut R, names: &Names) -> Next
        // A result is the first of those to come, and the others are still to come.
        ensures item { R.tells
            → IsNamedStore (R.state space.old).records (R.state space.old).shape names.now.names
            → IfItem result (λ item. to_come (graph_of (R.state space.old).records) self.old
            ≡ with_first (item ∷ []) (to_come (graph_of (R.state space.old).records) self.new)) }
        // It has a line.
        ensures shown { IfItem result IsShown }

        // The end comes where nothing is to come, and no count passes.
        ensures end { R.tells
            → IsNamedStore (R.state space.old).records (R.state space.old).shape names.now.names
            → stopped_by self.old ≡ None → result ≡ Next.End
            → to_come (graph_of (R.state space.old).records) self.old ≡ stream [] }
        ensures past { R.tells
            → IsNamedStore (R.state space.old).records (R.state space.old).shape names.now.names
            → stopped_by self.old ≡ None → result ≡ Next.PastCount
            → (to_come (graph_of (R.state space.old).records) self.old).past ≡ true }
        // A record that is said to be damaged breaks the rule that is named, in whatever store.
        ensures damaged { R.tells → stopped_by self.old ≡ None → IfDamaged result
            (Breaks (R.state space.old).records (R.state space.old).shape) }
        ensures cause { stopped_by self.old ≡ None → result ≡ Next.Disk
            → Rose (R.faults space.old) (R.faults space.new) }

        // Each answer but a result is given for good, with no read.
        ensures stops { stopped_by self.new ≡ stop_in result }
        ensures again { (answer : Next) → stopped_by self.old ≡ Some answer
            → (result ≡ answer) × (self.new ≡ self.old) × (space.new ≡ space.old) }

        // Where a limit is the last step and none counts, each result is one of those that it lets
        // through, and after them the end needs no read.
        ensures allowed { IfItem result (λ _.
            still_allowed self.old ≡ with_more (still_allowed self.new) 1) }
        ensures no_read { stopped_by self.old ≡ None → still_allowed self.old ≡ Some 0
            → (result ≡ Next.End) × (space.new ≡ space.old) }

        // Where no node has more than d edges, the bound on what it holds stays, whatever is
        // answered.
        ensures within { R.tells
            → IsNamedStore (R.state space.old).records (R.state space.old).shape names.now.names
            → (d most : ℕ) → HasDegreesUpTo (graph_of (R.state space.old).records) d
            → IsWithin d most self.old → IsWithin d most self.new }
        // A limit over all vertices reads no more than each identifier up to that of its result.
        ensures scan { (at : ℕ) → IsScan self.old at → IfItem result (λ item.
            IsScanned at (R.state space.old).reads (R.state space.new).reads item self.new) }
        // A hop at one vertex reads the vertex and what the edges of its types cost, before its
        // first result. The others are then ready.
        ensures hop { (id : ℕ) (hop : Hop) → IsHop self.old id hop
            → (R.tells
            → IsNamedStore (R.state space.old).records (R.state space.old).shape names.now.names
            → ReadsAtMost (reads_for_hop (R.state space.old).records hop id)
            (R.state space.old) (R.state space.new)) × IfItem result (λ _. IsReady self.new) }
        ensures ready { IsReady self.old
            → (space.new ≡ space.old) × IfItem result (λ _. IsReady self.new) }

        // What it reads comes off what may still be read, whatever is answered.
        ensures owes { R.tells
            → IsNamedStore (R.state space.old).records (R.state space.old).shape names.now.names
            → Spends (R.state space.old) (R.state space.new)
            (owed (R.state space.old).records self.old)
            (owed (R.state space.old).records self.new) }

        ensures read { IsRead R.Reads space.old space.new }
    {
        if let Some(stop) = self.stopped {
            return Next::from(stop);
        }
        match self.go_on(space, names) {
            Ok(item) => Next::Item(item),
            Err(stop) => self.stop(stop),
        }
    }
}
