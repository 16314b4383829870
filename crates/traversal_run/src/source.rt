ghost use Rattle.std.specs.Prelude.{◌≡◌, ◌<◌, ◌≤◌, ◌+◌, ◌∷◌, ℕ, [], IfErr, IfNone, IfOk, IfSome};
ghost use Rattle.std.specs.Prelude.{None, false, length, nat_eq, true};
ghost use Rattle.std.specs.List.{list_any};
ghost use Rattle.plain_graph.specs.Graph.{Graph};
ghost use Rattle.plain_graph.specs.Lines.{index_of_source};
ghost use Rattle.plain_graph.specs.Meaning.{is_asked, source_of};
ghost use Rattle.plain_graph.specs.declared.query.Source.TheVariants as sources;
ghost use Rattle.prop_index.specs.Looking as looking;
ghost use Rattle.prop_index.specs.declared.lookup_fault.LookupFault.TheVariants as faults;
ghost use Rattle.store_rules.specs.Graph.{graph_of};
ghost use Rattle.rec_bytes.specs.Fault.{HasFaultCause};
ghost use Rattle.prop_store.specs.Fault.{BlamesBroken};
ghost use Rattle.traversal_run.specs.FoundNodes.{HasIndexOf, IsSourceRefusal, ReadsToBegin};
ghost use Rattle.traversal_run.specs.HopRun.{HasOnly};
ghost use Rattle.traversal_run.specs.Reading.{IsNamedStore, IsRead};
ghost use Rattle.traversal_run.specs.Scan.{TakesVertex, vertices_from};
ghost use Rattle.traversal_run.specs.Feeding.{Counts};
ghost use Rattle.traversal_run.specs.Finding.{element_mark};
ghost use Rattle.traversal_run.specs.Owing.{SpendsIf, asked_reads, source_owes};
ghost use Rattle.traversal_run.specs.Source.{
  GivesFirst,
  HasNoneBelow,
  TakesId,
  asked_count,
  is_left,
  is_over,
  left_count,
  left_of,
};

use crate::asked_ids::AskedIds;
use crate::counter::Counter;
use crate::finding::{element_at, is_in_use, mark_of};
use crate::found_nodes::find_nodes;
use crate::shown::Shown;
use name_store::Names;
use plain_graph::Source as AskedSource;
use prop_index::LookupFault;
use rec_bytes::{Fault, Reads};
use std::alloc::Global;

/// The identifiers that are still to come.
#[derive(Drop)]
pub(crate) enum Left {
    /// All from this one on.
    From(u32),
    /// These.
    Among(AskedIds),
    /// None.
    Nothing,
}

impl Left {
    /// All, or those of these identifiers where some are written.
    fn asked(alloc: Global, ids: &[u32]) -> Result<Left, Fault>
        ensures asked { IfOk result (λ left. (id : ℕ) → is_left left id ≡ is_asked ids.now id) }
        ensures from { ids.now ≡ [] → IfOk result (λ left. left ≡ Left.From 0) }
        ensures over { IfOk result (λ left. is_over left ≡ false) }
        ensures few { IfOk result (λ left. (mark : ℕ)
            → left_count mark left ≤ asked_count mark ids.now) }
        ensures memory { IfErr result (λ fault. fault ≡ Fault.Memory) }
    {
        if ids.is_empty() {
            return Ok(Left::From(0));
        }
        Left::among(alloc, ids)
    }

    /// Those of these identifiers; none where there is none.
    fn among(alloc: Global, ids: &[u32]) -> Result<Left, Fault>
        ensures among { IfOk result (λ left. (id : ℕ)
            → is_left left id ≡ list_any (nat_eq id) ids.now) }
        ensures over { IfOk result (λ left. is_over left ≡ false) }
        ensures few { IfOk result (λ left. (mark : ℕ) → left_count mark left ≤ length ids.now) }
        ensures memory { IfErr result (λ fault. fault ≡ Fault.Memory) }
    {
        let ids = AskedIds::new(alloc, ids)?;
        Ok(Left::Among(ids))
    }

    /// Takes the first, where one may be below the mark.
    pub(crate) fn take_first(&mut self, mark: u32) -> Option<u32>
        ensures some { IfSome result (λ id. TakesId self.old id self.new) }
        ensures none { IfNone result (HasNoneBelow mark self.old × (self.new ≡ self.old)) }
        ensures from { (at : ℕ) → self.old ≡ Left.From at
            → IfSome result (λ id. (id ≡ at) × (self.new ≡ Left.From (at + 1))) }
        ensures over { is_over self.new ≡ is_over self.old }
        ensures nothing { is_over self.old ≡ true → result ≡ None }
        ensures fewer { IfSome result (λ id. left_count mark self.new < left_count mark self.old) }
    {
        match self {
            Left::From(from) => {
                let id = *from;
                if id < mark {
                    *from = id + 1;
                    Some(id)
                } else {
                    None
                }
            }
            Left::Among(ids) => ids.take_first(),
            Left::Nothing => None,
        }
    }
}

/// The vertices or the edges that a query begins with, as far as they are still to come.
#[derive(Drop)]
pub(crate) struct Source {
    pub(crate) edges: bool,
    pub(crate) left: Left,
}

impl Source {
    /// What a query begins with. It reads nothing, but for nodes that are found.
    pub(crate) fn new<R: Reads>(
        alloc: Global,
        space: &mut R,
        names: &Names,
        asked: &AskedSource,
    ) -> Result<Source, LookupFault>
        ensures all { index_of_source asked.now ≡ None → IfOk result (λ source.
            (graph : Graph) → left_of graph source ≡ source_of graph asked.now) }
        ensures found { R.tells
            → IsNamedStore (R.state space.old).records (R.state space.old).shape names.now.names
            → IfOk result (λ source. left_of (graph_of (R.state space.old).records) source
            ≡ source_of (graph_of (R.state space.old).records) asked.now) }
        ensures from { asked.now ≡ sources.Vertices []
            → IfOk result (λ source. source ≡ vertices_from 0) }
        ensures one { (id : ℕ) → asked.now ≡ sources.Vertices (id ∷ [])
            → IfOk result (λ source. (source.edges ≡ false) × HasOnly source.left id) }
        ensures over { IfOk result (λ source. is_over source.left ≡ false) }
        ensures there { R.tells
            → IsNamedStore (R.state space.old).records (R.state space.old).shape names.now.names
            → IfOk result (λ source.
            HasIndexOf (graph_of (R.state space.old).records) asked.now) }
        ensures refused { R.tells
            → IsNamedStore (R.state space.old).records (R.state space.old).shape names.now.names
            → IfErr result (IsSourceRefusal (graph_of (R.state space.old).records) asked.now) }
        ensures memory { index_of_source asked.now ≡ None
            → IfErr result (λ fault. fault ≡ faults.Memory) }
        ensures damaged { R.tells → IfErr result
            (looking.BlamesBroken (R.state space.old).records (R.state space.old).shape) }
        ensures no_read { index_of_source asked.now ≡ None → space.new ≡ space.old }
        ensures cost { R.tells
            → IsNamedStore (R.state space.old).records (R.state space.old).shape names.now.names
            → ReadsToBegin asked.now (R.state space.old) (R.state space.new) }
        ensures owes { R.tells
            → IsNamedStore (R.state space.old).records (R.state space.old).shape names.now.names
            → IfOk result (λ source. source_owes (R.state space.old).records source
            ≤ asked_reads (R.state space.old).records asked.now) }
        ensures read { IsRead R.Reads space.old space.new }
        ensures cause { looking.HasLookupCause
            (R.faults space.old) (R.faults space.new) result }
    {
        match asked {
            AskedSource::Vertices(ids) => {
                let left = Left::asked(alloc, ids.as_slice())?;
                Ok(Source { edges: false, left })
            }
            AskedSource::Edges(ids) => {
                let left = Left::asked(alloc, ids.as_slice())?;
                Ok(Source { edges: true, left })
            }
            AskedSource::Found { label, key, value } => {
                let nodes = find_nodes(alloc, space, names, label, key, value)?;
                let left = Left::among(alloc, &nodes)?;
                Ok(Source { edges: false, left })
            }
        }
    }

    /// How many of its elements were given out.
    pub(crate) fn mark<R: Reads>(&self, space: &R) -> u32
        ensures { result ≡ element_mark (R.state space.now).records self.now.edges }
    {
        mark_of(space, self.edges)
    }

    /// The first element in use that is still to come, where this is the mark. It costs a read for
    /// each identifier up to that of the element, and no more than one for each that was given out.
    #[inline(always)]
    pub(crate) fn next<R: Reads>(
        &mut self,
        alloc: Global,
        space: &mut R,
        names: &Names,
        mark: u32,
    ) -> Result<Option<Shown>, Fault>
        requires { mark ≡ element_mark (R.state space.old).records self.old.edges }
        ensures first { R.tells
            → IsNamedStore (R.state space.old).records (R.state space.old).shape names.now.names
            → IfOk result (λ item.
            GivesFirst (graph_of (R.state space.old).records) self.old item self.new) }
        ensures damaged { R.tells → IfErr result
            (BlamesBroken (R.state space.old).records (R.state space.old).shape) }
        // Of all vertices it costs a read for each identifier up to that of the one it gives.
        ensures vertex { (at : ℕ) → self.old ≡ vertices_from at
            → IfOk result (λ item. IfSome item (λ found. TakesVertex at
            (R.state space.old).reads (R.state space.new).reads found self.new)) }
        ensures edges { self.new.edges ≡ self.old.edges }
        ensures over { is_over self.new.left ≡ is_over self.old.left }
        ensures none { is_over self.old.left ≡ true → IfOk result (λ item. item ≡ None) }
        ensures unread { is_over self.old.left ≡ true → space.new ≡ space.old }
        ensures owes { SpendsIf result (R.state space.old) (R.state space.new)
            (source_owes (R.state space.old).records self.old)
            (source_owes (R.state space.old).records self.new) }
        ensures read { IsRead R.Reads space.old space.new }
        ensures cause { HasFaultCause (R.faults space.old) (R.faults space.new) result }
    {
        while let Some(id) = self.left.take_first(mark) {
            let item = element_at(alloc, space, names, self.edges, id)?;
            if item.is_some() {
                return Ok(item);
            }
        }
        Ok(None)
    }

    /// Counts the elements in use that are still to come, and leaves nothing to come. It tells
    /// whether a value can say the count. No name is looked up.
    pub(crate) fn count<R: Reads>(
        &mut self,
        space: &mut R,
        so_far: &mut Counter,
    ) -> Result<bool, Fault>
        ensures counts { R.tells → IfOk result (λ fits. Counts
            (graph_of (R.state space.old).records) self.old so_far.old fits self.new so_far.new) }
        ensures damaged { R.tells → IfErr result
            (BlamesBroken (R.state space.old).records (R.state space.old).shape) }
        ensures owes { SpendsIf result (R.state space.old) (R.state space.new)
            (source_owes (R.state space.old).records self.old)
            (source_owes (R.state space.old).records self.new) }
        ensures read { IsRead R.Reads space.old space.new }
        ensures cause { HasFaultCause (R.faults space.old) (R.faults space.new) result }
    {
        let mark = self.mark(space);
        while let Some(id) = self.left.take_first(mark) {
            let used = is_in_use(space, self.edges, id)?;
            if !so_far.add(usize::from(used)) {
                return Ok(false);
            }
        }
        self.end();
        Ok(true)
    }

    /// Whether nothing is left to come, as is known with no read.
    pub(crate) fn is_over(&self) -> bool
        ensures { result ≡ is_over self.now.left }
    {
        matches!(self.left, Left::Nothing)
    }

    /// Leaves nothing to come.
    pub(crate) fn end(&mut self)
        ensures { self.new ≡ record self.old { left = Left.Nothing } }
    {
        self.left = Left::Nothing;
    }
}
