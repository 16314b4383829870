ghost use Rattle.std.specs.Prelude.{◌≡◌, [], ◌++◌, ◌+◌, ◌<◌, ◌≤◌, List, length, take, drop, IfErr};
ghost use Rattle.std.specs.Prelude.{IfNone, IfOk, IfSome, not};
ghost use Rattle.std.specs.Prelude.{◌-◌, ◌∷◌, ℕ, cond, false, get_or, set, true};
ghost use Rattle.std.specs.List.{list_all};
ghost use Rattle.plain_graph.specs.Graph.{Graph};
ghost use Rattle.plain_graph.specs.declared.item.Item.{Item};
ghost use Rattle.store_rules.specs.Graph.{graph_of};
ghost use Rattle.traversal_run.specs.Held.{HasDegreesUpTo, IsBatch, is_hop, is_plain};
ghost use Rattle.traversal_run.specs.HopRun.{IsHopAlone};
ghost use Rattle.traversal_run.specs.Reading.{IsNamedStore, IsRead};
ghost use Rattle.traversal_run.specs.Row.{
  Advances,
  AreIdle,
  AreQuiet,
  PassesAt,
  Stream,
  stages_of,
  through,
  with_first,
};
ghost use Rattle.traversal_run.specs.Scan.{limit_row};
ghost use Rattle.traversal_run.specs.Stage.{is_count, is_open, limit_left, with_more};
ghost use Rattle.traversal_run.specs.Stop.{HasStopCause, MayStop, StopsAtBroken};
ghost use Rattle.traversal_run.specs.Owing.{SpendsIf, row_owes, steps_owe};
ghost use Rattle.store_rules.specs.Views.{Records};

use crate::counter::Counter;
use crate::stage::Stage;
use crate::stop::Stop;
use crate::waiting::Waiting;
use name_store::Names;
use rec_bytes::Reads;
use std::alloc::Global;

/// A step under way, with the items that wait for it.
#[derive(Drop)]
pub(crate) struct Row {
    pub(crate) stage: Stage,
    pub(crate) waiting: Waiting,
}

impl Row {
    /// What the step gives for the first of the items that wait, or a count for all of them.
    pub(crate) fn advance<R: Reads>(
        &mut self,
        alloc: Global,
        space: &mut R,
        names: &Names,
    ) -> Result<Waiting, Stop>
        ensures advances { R.tells
            → IsNamedStore (R.state space.old).records (R.state space.old).shape names.now.names
            → IfOk result (λ outs. (coming : List Item)
            → Advances (graph_of (R.state space.old).records) self.old coming outs self.new) }
        ensures stops { R.tells
            → IsNamedStore (R.state space.old).records (R.state space.old).shape names.now.names
            → IfErr result (MayStop ⊥ (PassesAt self.old)) }
        ensures damaged { R.tells → IfErr result
            (StopsAtBroken (R.state space.old).records (R.state space.old).shape) }
        ensures limits { IfOk result (λ outs.
            with_more (limit_left self.new.stage) (length outs) ≡ limit_left self.old.stage) }
        ensures counts { is_count self.new.stage ≡ is_count self.old.stage }
        ensures hops { is_hop self.new.stage ≡ is_hop self.old.stage }
        ensures plain { is_plain self.new.stage ≡ is_plain self.old.stage }
        // A count takes all that wait, each other step the first.
        ensures rest { self.new.waiting
            ≡ cond (is_count self.old.stage) [] (drop 1 self.old.waiting) }
        ensures idle { self.old.waiting ≡ [] → IfOk result (λ outs. outs ≡ []) }
        ensures few { R.tells
            → IsNamedStore (R.state space.old).records (R.state space.old).shape names.now.names
            → (d : ℕ) → HasDegreesUpTo (graph_of (R.state space.old).records) d
            → is_plain self.old.stage ≡ true
            → IfOk result (λ outs. IsBatch d (is_hop self.old.stage) outs) }
        ensures limit { (most : ℕ) (item : Item) → self.old ≡ limit_row most (item ∷ [])
            → IfOk result (λ outs. (outs ≡ take most (item ∷ []))
            × (self.new ≡ limit_row (most - 1) []) × (space.new ≡ space.old)) }
        ensures owes { R.tells
            → IsNamedStore (R.state space.old).records (R.state space.old).shape names.now.names
            → (coming : List Item) → SpendsIf result (R.state space.old) (R.state space.new)
            (row_owes (R.state space.old).records self.old coming)
            (row_owes (R.state space.old).records self.new coming) }
        ensures read { IsRead R.Reads space.old space.new }
        ensures cause { HasStopCause (R.faults space.old) (R.faults space.new) result }
    {
        if let Stage::Count { so_far, given } = &mut self.stage {
            return if count_all(alloc, so_far, *given, &mut self.waiting) {
                Ok(Waiting::new(alloc))
            } else {
                Err(Stop::PastCount)
            };
        }
        match self.waiting.take_first() {
            Some(item) => {
                let outs = self.stage.take(alloc, space, names, item, &None)?;
                Ok(outs)
            }
            None => Ok(Waiting::new(alloc)),
        }
    }
}

/// Counts all that wait, unless the count was given. It tells whether a value can say the count.
fn count_all(alloc: Global, so_far: &mut Counter, given: bool, waiting: &mut Waiting) -> bool
    ensures counted { result ≡ true → given ≡ false
        → so_far.new ≡ so_far.old + length waiting.old }
    ensures past { result ≡ false → (given ≡ false)
        × (9223372036854775807 < so_far.old + length waiting.old) }
    ensures none { waiting.new ≡ [] }
{
    let fits = given || so_far.add(waiting.len());
    *waiting = Waiting::new(alloc);
    fits
}

/// The last row with items that wait.
#[tactic(auto, using(crate::proofs::Rows::idle_more))]
pub(crate) fn last_waiting(rows: &[Row]) -> Option<usize>
    ensures some { IfSome result (λ at. (at < length rows.now) × AreIdle (drop (at + 1) rows.now)) }
    ensures waits { IfSome result (λ at. (any : Row) → ¬ ((get_or rows.now at any).waiting ≡ [])) }
    ensures none { IfNone result (AreIdle rows.now) }
{
    let mut at = rows.len();
    while at > 0 {
        at -= 1;
        if !rows[at].waiting.is_empty() {
            return Some(at);
        }
    }
    None
}

/// The first row whose step gives more once nothing more comes to it.
#[tactic(auto, using(crate::proofs::Rows::quiet_more))]
pub(crate) fn first_open(rows: &[Row]) -> Option<usize>
    ensures some { IfSome result (λ at. (at < length rows.now) × AreQuiet (take at rows.now)) }
    ensures opens { IfSome result (λ at. (any : Row)
        → is_open (get_or rows.now at any).stage ≡ true) }
    ensures none { IfNone result (AreQuiet rows.now) }
{
    for (at, row) in rows.iter().enumerate() {
        if row.stage.is_open() {
            return Some(at);
        }
    }
    None
}

/// Whether the first row takes the items of the source with none that waits: it has to be there,
/// and no limit.
pub(crate) fn is_fed(rows: &[Row]) -> bool
    ensures some { result ≡ true → 0 < length rows.now }
    ensures limit { (most : ℕ) (waiting : List Item)
        → rows.now ≡ limit_row most waiting ∷ [] → result ≡ false }
    ensures hop { IsHopAlone rows.now → result ≡ true }
{
    match rows {
        [row, ..] => !matches!(row.stage, Stage::Limit { .. }),
        [] => false,
    }
}

/// Whether no step counts.
pub(crate) fn have_no_count(rows: &[Row]) -> bool
    ensures { result ≡ list_all (λ row. not (is_count row.stage)) rows.now }
{
    rows.iter().all(|row| !row.stage.is_count())
}

/// Gives items to the row at this place, or to the end of the run where there is none.
pub(crate) fn put(rows: &mut [Row], ready: &mut Waiting, at: usize, outs: Waiting)
    requires idle { AreIdle (drop at rows.old) }
    requires none { ready.old ≡ [] }
    ensures rows { (any : Row)
        → rows.new ≡ set rows.old at (record (get_or rows.old at any) { waiting = outs }) }
    ensures stages { stages_of rows.new ≡ stages_of rows.old }
    ensures passed { at < length rows.old → ready.new ≡ [] }
    ensures given { length rows.old ≤ at → ready.new ≡ outs }
    ensures earlier { take at rows.new ≡ take at rows.old }
    ensures later { (graph : Graph) (coming : Stream)
        → with_first ready.new (through graph (drop at rows.new) coming)
        ≡ through graph (drop at rows.old) (with_first outs coming) }
    ensures owes { (records : Records) (coming : List Item)
        → steps_owe records (drop at rows.new) coming
        ≡ steps_owe records (drop at rows.old) (outs ++ coming) }
{
    if at < rows.len() {
        rows[at].waiting = outs;
    } else {
        *ready = outs;
    }
}
