ghost use Rattle.std.specs.Prelude.{◌≡◌, [], ◌++◌, IfErr, IfOk, false, length};
ghost use Rattle.std.specs.Prelude.{◌+◌, ◌-◌, ◌∷◌, ℕ, IfNone, IfSome, List, take};
ghost use Rattle.plain_graph.specs.Graph.{Graph};
ghost use Rattle.plain_graph.specs.Meaning.{unseen};
ghost use Rattle.plain_graph.specs.declared.item.Item.{Item};
ghost use Rattle.store_rules.specs.Graph.{graph_of};
ghost use Rattle.rec_bytes.specs.Fault.{HasFaultCause};
ghost use Rattle.prop_store.specs.Fault.{BlamesBroken};
ghost use Rattle.traversal_run.specs.Elements.{IsRowOf};
ghost use Rattle.traversal_run.specs.Feeding.{filter_stage, is_filter};
ghost use Rattle.traversal_run.specs.Held.{is_hop, is_plain};
ghost use Rattle.traversal_run.specs.Reading.{IsNamedStore, IsRead};
ghost use Rattle.traversal_run.specs.Owing.{stage_reads};
ghost use Rattle.prop_store.specs.Reading.{ReadsAtMost};
ghost use Rattle.store_rules.specs.Views.{Records};
ghost use Rattle.traversal_run.specs.Stage.{
  Finishes,
  Takes,
  is_count,
  is_open,
  is_spent,
  limit_left,
  with_more,
};

use crate::counter::Counter;
use crate::kept::Kept;
use crate::lookups::rank;
use crate::mapping::{Mapping, mapped};
use crate::seen::Seen;
use crate::shown::Shown;
use crate::sought::Sought;
use crate::waiting::Waiting;
use name_store::Names;
use node_store::NodeRow;
use plain_graph::{Filter, Text};
use rec_bytes::{Fault, Reads};
use std::alloc::{AllocError, Global};

/// A step under way.
#[derive(Drop)]
pub(crate) enum Stage {
    Mapped(Mapping),
    Dedup {
        seen: Seen,
    },
    /// How many items came, and whether that was given.
    Count {
        so_far: Counter,
        given: bool,
    },
    /// How many items it still lets through.
    Limit {
        left: u32,
    },
    /// The items that came, and whether they were given.
    Order {
        key: Sought<Option<Text>>,
        descending: bool,
        kept: Kept,
        given: bool,
    },
}

impl Stage {
    /// What the step gives for one more item. A count takes all that wait at once.
    #[inline(always)]
    pub(crate) fn take<R: Reads>(
        &mut self,
        alloc: Global,
        space: &mut R,
        names: &Names,
        item: Shown,
        row: &Option<NodeRow>,
    ) -> Result<Waiting, Fault>
        requires row { IsRowOf R.tells (R.state space.old).records item row.now }
        requires counts { is_count self.old ≡ false }
        ensures takes { R.tells
            → IsNamedStore (R.state space.old).records (R.state space.old).shape names.now.names
            → IfOk result
            (λ outs. Takes (graph_of (R.state space.old).records) self.old item outs self.new) }
        ensures damaged { R.tells → IfErr result
            (BlamesBroken (R.state space.old).records (R.state space.old).shape) }
        ensures limits { IfOk result (λ outs.
            with_more (limit_left self.new) (length outs) ≡ limit_left self.old) }
        ensures counts { is_count self.new ≡ is_count self.old }
        ensures hops { is_hop self.new ≡ is_hop self.old }
        ensures plain { is_plain self.new ≡ is_plain self.old }
        ensures asks { (records : Records) (other : Item)
            → stage_reads records self.new other ≡ stage_reads records self.old other }
        // A limit reads nothing.
        ensures limit { (most : ℕ) → self.old ≡ Stage.Limit most → IfOk result (λ outs.
            (outs ≡ take most (item ∷ [])) × (self.new ≡ Stage.Limit (most - 1))
            × (space.new ≡ space.old)) }
        ensures reads { R.tells
            → IsNamedStore (R.state space.old).records (R.state space.old).shape names.now.names
            → ReadsAtMost (stage_reads (R.state space.old).records self.old item)
            (R.state space.old) (R.state space.new) }
        ensures read { IsRead R.Reads space.old space.new }
        ensures cause { HasFaultCause (R.faults space.old) (R.faults space.new) result }
    {
        match self {
            Stage::Mapped(mapping) => mapped(alloc, space, names, mapping, item, row),
            Stage::Dedup { seen } => {
                let outs = unseen(alloc, seen, item)?;
                Ok(outs)
            }
            Stage::Count { .. } => unreachable!(),
            Stage::Limit { left } => Ok(let_through(alloc, left, item)),
            Stage::Order { key, kept, .. } => {
                let rank = rank(alloc, space, names, key, item.as_item(), row)?;
                kept.keep(rank, item)?;
                Ok(Waiting::new(alloc))
            }
        }
    }
}

/// The item, where none that was seen is the same.
fn unseen(alloc: Global, seen: &mut Seen, item: Shown) -> Result<Waiting, AllocError>
    ensures { IfOk result (λ outs. (later : List Item)
        → unseen seen.old (item ∷ later) ≡ outs ++ unseen seen.new later) }
{
    if seen.add(alloc, item.as_item())? {
        Ok(Waiting::one(alloc, item))
    } else {
        Ok(Waiting::new(alloc))
    }
}

/// The item, where a limit lets one more through.
fn let_through(alloc: Global, left: &mut u32, item: Shown) -> Waiting
    ensures gives { result ≡ take left.old (item ∷ []) }
    ensures left { left.new ≡ left.old - 1 }
    ensures through { (later : List Item)
        → take left.old (item ∷ later) ≡ result ++ take left.new later }
    ensures fewer { left.new + length result ≡ left.old }
{
    if *left == 0 {
        return Waiting::new(alloc);
    }
    *left -= 1;
    Waiting::one(alloc, item)
}

impl Stage {
    /// Whether it gives more once nothing more comes to it.
    pub(crate) fn is_open(&self) -> bool
        ensures { result ≡ is_open self.now }
    {
        match self {
            Stage::Count { given, .. } | Stage::Order { given, .. } => !*given,
            _ => false,
        }
    }

    /// Whether it is a limit that lets nothing more through.
    pub(crate) fn is_spent(&self) -> bool
        ensures { result ≡ is_spent self.now }
    {
        matches!(self, Stage::Limit { left: 0 })
    }

    /// Whether it counts.
    pub(crate) fn is_count(&self) -> bool
        ensures { result ≡ is_count self.now }
    {
        matches!(self, Stage::Count { .. })
    }

    /// Whether it is a filter.
    pub(crate) fn is_filter(&self) -> bool
        ensures { result ≡ is_filter self.now }
    {
        matches!(self, Stage::Mapped(Mapping::Filter(_)))
    }

    /// What it gives at the end of what comes to it.
    pub(crate) fn finish(&mut self, alloc: Global) -> Result<Waiting, AllocError>
        ensures finishes { IfOk result (λ outs. (graph : Graph)
            → Finishes graph self.old outs self.new) }
        ensures limits { IfOk result (λ outs.
            with_more (limit_left self.new) (length outs) ≡ limit_left self.old) }
        ensures counts { is_count self.new ≡ is_count self.old }
    {
        match self {
            Stage::Count { so_far, given } if !*given => {
                *given = true;
                let number = so_far.number();
                Ok(Waiting::one(alloc, Shown::number(number)))
            }
            Stage::Order {
                descending,
                kept,
                given,
                ..
            } if !*given => {
                *given = true;
                let outs = kept.take_ordered(alloc, *descending)?;
                Ok(outs)
            }
            _ => Ok(Waiting::new(alloc)),
        }
    }
}

/// The filter that a step is, if it is one.
pub(crate) fn as_filter(stage: &Stage) -> Option<&Sought<Filter>>
    ensures some { IfSome result (λ filter. stage.now ≡ filter_stage filter.now) }
    ensures none { IfNone result (is_filter stage.now ≡ false) }
{
    match stage {
        Stage::Mapped(Mapping::Filter(filter)) => Some(filter),
        _ => None,
    }
}
