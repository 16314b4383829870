ghost use Rattle.std.specs.Prelude.{◌≡◌, ◌↔◌, [], IfErr, IfOk, IsTrue, OnErr, OnOk, false, true};
ghost use Rattle.std.specs.List.{AllByRecursion};
ghost use Rattle.plain_graph.specs.Forms.{IsShown};
ghost use Rattle.plain_graph.specs.LineChanges.{read_items};
ghost use Rattle.plain_graph.specs.Lines.{HasForm};
ghost use Rattle.graph_session.specs.Jobs.{change_command};
ghost use Rattle.plain_graph.specs.declared.command.Command.TheVariants as commands;
ghost use Rattle.plain_graph.specs.declared.mutation.Mutation.{Mutation as AMutation};
ghost use Rattle.plain_graph.proofs.LineLaws.{HasIndexOf};
ghost use Rattle.rec_bytes.specs.Pairs.{merged};
ghost use Rattle.rec_bytes.specs.Space.{HasCause, SameButReads};
ghost use Rattle.txn_core.specs.Base.{SameBeneath};
ghost use Rattle.txn_core.specs.Shipped.{AllShip};
ghost use Rattle.txn_core.specs.Store.{drafted, working};
ghost use Rattle.change_parts.specs.Damage.{IsOfIndex};
ghost use Rattle.graph_session.specs.Answering.{reply_of};
ghost use Rattle.graph_session.specs.ChangeDamage.{IsNameOrMet, IsToldAsFound, MayMeetNames};
ghost use Rattle.graph_session.specs.ChangeDamage.{TellsAsFound};
ghost use Rattle.graph_session.specs.Drafting.{drafted_done, drafted_edge, drafted_node};
ghost use Rattle.graph_session.specs.Settling.{SettlesCommand};
ghost use Rattle.graph_session.specs.SnapshotEffects.{KeepsOlds};
ghost use Rattle.graph_session.specs.Tapping.{HasRoom, Takes, TapsCommand};
ghost use Rattle.graph_session.specs.declared.health.Health.TheVariants as healths;
ghost use Rattle.store_rules.specs.Graph.{graph_in};

use crate::answer::Answer;
use crate::change::Change;
use crate::results::Results;
use crate::tapping::forget;
use crate::{Health, Session};
use disk_model::Disk;
use fault_count::Failed;
use graph_ops::{
    Added, ChangeFault, Mutated, add_edge, add_node, delete_edge, delete_node, index, mutate, set,
    unset,
};
use name_store::Names;
use plain_graph::{Item, MOST_WEIGHT, Mutation, Query, Refusal, START_WEIGHT, Target};
use rec_bytes::{Damage, Fault, INDEX, META, Reads, RowFault, SpaceFault, WriteSet};
use std::alloc::AllocError;
use store_check::{Verdict, check};
use traversal_run::items_of;
use txn_core::Store;

/// A change that stands in the store's draft: its answer, and what it weighs, or 4,096 where that
/// is less.
#[derive(Drop)]
struct Drafted {
    answer: Answer,
    weight: u32,
}

/// How a change begins.
#[derive(Clone, Copy)]
struct Begun {
    /// It is a transaction by itself.
    alone: bool,
    /// So many names there were.
    names: u32,
}

impl<'d, D: Disk> Session<'d, D> {
    ghost use Rattle.txn_core.specs.Store.{state_of};
    ghost use Rattle.graph_session.specs.Drafting.{
      BeginsChange,
      BlamesFound,
      BlamesSeen,
      Discards,
      Drafts,
      DraftsChanged,
      DropsAlone,
      DropsUnchanged,
      EndsChange,
      Finishes,
      FinishesAlone,
      HasStore,
      IsBrokenBeneath,
      IsStopped,
      IsUnkept,
      KeepsDraft,
      OnlyDrafts,
      ReadsBeneath,
      TriesCommit,
    };
    ghost use Rattle.graph_session.specs.Session.{HaveSameDisk, shared_view, view};
    ghost use Rattle.graph_session.specs.TapEnds.{TapsAlone, TapsChange, TapsCommit};

    /// Makes a change, in the open transaction or else as a transaction by itself.
    pub(crate) fn change(&mut self, change: Change<'_>, tap: &mut Option<WriteSet>) -> Answer
        requires form { HasForm (change_command change) }
        requires room { HasRoom tap.old }
        requires live { self.old.health ≡ healths.Live }
        ensures settles { SettlesCommand D.Disk (change_command change.entry)
            (view self.old) (view self.new) (reply_of result) }
        ensures keeps { KeepsOlds D.Disk (change_command change.entry)
            (shared_view self.old) (reply_of result) (shared_view self.new) }
        ensures taps { Takes (TapsCommand D.Disk (change_command change.entry)
            (view self.old) (reply_of result) (view self.new)) tap.old tap.new }
        ensures same_disk { HaveSameDisk self.old self.new }
    {
        let begun = self.begin_change();
        let drafted = self.draft_begun(begun, change);
        self.end_change(begun, drafted, tap)
    }

    // Begins a transaction for a change where none is open.
    fn begin_change(&mut self) -> Begun
        requires { self.old.health ≡ healths.Live }
        ensures { BeginsChange self.old self.new result }
    {
        let names = self.names.count();
        let alone = !self.store.in_transaction();
        if alone {
            self.store.begin();
        }
        Begun { alone, names }
    }

    // Takes a drafted change into the transaction, or commits it where it is one by itself.
    fn end_change(
        &mut self,
        begun: Begun,
        drafted: Result<Drafted, Answer>,
        tap: &mut Option<WriteSet>,
    ) -> Answer
        requires opened { IsTrue self.old.store.base.in_transaction }
        requires live { IsTrue self.old.store.base.live }
        requires room { HasRoom tap.old }
        ensures ends { EndsChange begun drafted self.old self.new result }
        ensures taps { TapsChange D.Disk begun drafted (view self.old) (view self.new) result
            tap.old tap.new }
    {
        if begun.alone {
            self.finish_alone(drafted, begun.names, tap)
        } else {
            self.finish(drafted, begun.names)
        }
    }

    // The change in the draft. Where it is a transaction by itself, the draft has the changed
    // records alone.
    fn draft_begun(&mut self, begun: Begun, change: Change<'_>) -> Result<Drafted, Answer>
        requires { HasForm (change_command change) }
        ensures only { OnlyDrafts self.old self.new }
        ensures drafts { Drafts (change_command change.entry) self.old self.new result }
        ensures blames { IfErr result (BlamesSeen (change_command change.entry) self.old) }
        ensures changed { begun.alone ≡ true → DraftsChanged result self.new }
    {
        if begun.alone {
            self.draft_changed(change)
        } else {
            self.draft(change)
        }
    }

    // The change in the draft, which has the changed records alone, unless it weighs more than a
    // change by itself may.
    fn draft_changed(&mut self, change: Change<'_>) -> Result<Drafted, Answer>
        requires { HasForm (change_command change) }
        ensures only { OnlyDrafts self.old self.new }
        ensures drafts { Drafts (change_command change.entry) self.old self.new result }
        ensures blames { IfErr result (BlamesSeen (change_command change.entry) self.old) }
        ensures changed { DraftsChanged result self.new }
    {
        match self.draft(change) {
            Ok(drafted) => {
                if drafted.weight > MOST_WEIGHT - START_WEIGHT {
                    return Ok(drafted);
                }
                self.drop_unchanged(drafted)
            }
            Err(answer) => Err(answer),
        }
    }

    // Drops the records that the draft leaves as they were.
    fn drop_unchanged(&mut self, drafted: Drafted) -> Result<Drafted, Answer>
        ensures only { OnlyDrafts self.old self.new }
        ensures drops { DropsUnchanged drafted self.old self.new result }
    {
        match self.store.drop_unchanged() {
            Ok(()) => Ok(drafted),
            Err(SpaceFault::Memory) => Err(Answer::Fault(Fault::Memory)),
            Err(SpaceFault::Disk) => Err(Answer::Fault(Fault::Disk)),
        }
    }

    // The change in the draft. Where a damaged record stops it, another one may be blamed: one that
    // breaks a rule in what the line sees.
    fn draft(&mut self, change: Change<'_>) -> Result<Drafted, Answer>
        requires { HasForm (change_command change) }
        ensures only { OnlyDrafts self.old self.new }
        ensures drafts { Drafts (change_command change.entry) self.old self.new result }
        ensures blames { IfErr result (BlamesSeen (change_command change.entry) self.old) }
    {
        let names = self.names.count();
        match self.draft_any(change) {
            Ok(drafted) => Ok(drafted),
            Err(Answer::Fault(Fault::Damaged(met))) => match self.broken_record(
                change, met, names,
            ) {
                Ok(damage) => Err(Answer::Fault(Fault::Damaged(damage))),
                Err(SpaceFault::Memory) => Err(Answer::Fault(Fault::Memory)),
                Err(SpaceFault::Disk) => Err(Answer::Fault(Fault::Disk)),
            },
            Err(answer) => Err(answer),
        }
    }

    // A record that breaks a rule beneath the draft, which is dropped with the names that it
    // brought: so many there were. It is the one that was met where the call told that as it found
    // it. Where all rules hold, it is that of a name that isn't the one in memory.
    fn broken_record(
        &mut self,
        change: Change<'_>,
        met: Damage,
        count: u32,
    ) -> Result<Damage, SpaceFault>
        ensures drops { ReadsBeneath count self.old self.new }
        ensures broken { D.tells_reads → IfOk result (IsBrokenBeneath
            (change_command change.entry) self.new.names.names self.old met) }
        ensures cause { HasCause (D.faults self.old.store.base.disk.now)
            (D.faults self.new.store.base.disk.now) result }
    {
        self.drop_draft(count);
        if is_told_as_found(change, &self.names, met) {
            return Ok(met);
        }
        match check(self.alloc, &mut self.store)? {
            Verdict::Sound => other_name(&self.names, &mut self.store, met),
            Verdict::Broken(damage) => Ok(damage),
        }
    }

    // The change in the draft, by the call that makes it.
    fn draft_any(&mut self, change: Change<'_>) -> Result<Drafted, Answer>
        requires { HasForm (change_command change) }
        ensures only { OnlyDrafts self.old self.new }
        ensures drafts { Drafts (change_command change.entry) self.old self.new result }
        ensures found { IfErr result (BlamesFound (change_command change.entry) self.old) }
    {
        match change {
            Change::Node { label, pairs } => {
                drafted_node(add_node(self.alloc, &mut self.store, &mut self.names, label, pairs))
            }
            Change::Edge {
                from,
                label,
                to,
                pairs,
            } => drafted_edge(add_edge(&mut self.store, &mut self.names, from, label, to, pairs)),
            Change::Set { target, key, value } => drafted_done(set(
                self.alloc,
                &mut self.store,
                &mut self.names,
                target,
                key,
                value,
            )),
            Change::Unset { target, key } => {
                drafted_done(unset(self.alloc, &mut self.store, &self.names, target, key))
            }
            Change::Delete(target) => self.draft_deletion(target),
            Change::Index { label, key } => {
                drafted_done(index(self.alloc, &mut self.store, &mut self.names, label, key))
            }
            Change::Mutate { reading, mutation } => self.draft_mutation(reading, mutation),
        }
    }

    // A deleted element in the draft.
    fn draft_deletion(&mut self, target: Target) -> Result<Drafted, Answer>
        ensures only { OnlyDrafts self.old self.new }
        ensures drafts { Drafts (commands.Delete target) self.old self.new result }
        ensures found { IfErr result (BlamesFound (commands.Delete target) self.old) }
    {
        match target {
            Target::Node(id) => {
                drafted_done(delete_node(self.alloc, &mut self.store, &self.names, id))
            }
            Target::Edge(id) => drafted_done(delete_edge(&mut self.store, &self.names, id)),
        }
    }

    // The changes of a mutating query in the draft. Its reading part is made whole before them. A
    // damaged record that they meet isn't named yet.
    fn draft_mutation(
        &mut self,
        reading: &Option<Query>,
        mutation: &Mutation,
    ) -> Result<Drafted, Answer>
        requires { HasForm (commands.Mutate reading.now mutation.now) }
        ensures only { OnlyDrafts self.old self.new }
        ensures drafts { Drafts (commands.Mutate reading.now mutation.now)
            self.old self.new result }
    {
        let items = self.read_items(reading)?;
        match mutate(
            self.alloc,
            &mut self.store,
            &mut self.names,
            items,
            mutation,
        ) {
            Ok(Mutated { items, weight }) => Ok(Drafted {
                answer: Answer::Results(Results::new(items)),
                weight,
            }),
            Err(fault) => Err(Answer::from(fault)),
        }
    }

    // The results of the reading part, in the graph that the line sees.
    fn read_items(&mut self, reading: &Option<Query>) -> Result<Vec<Item>, Answer>
        ensures only { OnlyDrafts self.old self.new }
        ensures names { self.new.names.names ≡ self.old.names.names }
        ensures same { SameButReads (state_of self.old.store) (state_of self.new.store) }
        ensures items { D.tells_reads → HasStore self.old
            → IfOk result (λ items. items.items
            ≡ read_items (graph_in (state_of self.old.store)) reading.now) }
        ensures shown { IfOk result (λ items. AllByRecursion IsShown items.items) }
        ensures there { D.tells_reads → HasStore self.old
            → OnOk result (HasIndexOf (graph_in (state_of self.old.store)) reading.now) }
        ensures stopped { IfErr result (λ why. (mutation : AMutation)
            → IsStopped (commands.Mutate reading.now mutation) self.old
            self.new.store.base.disk.now why) }
    {
        match reading {
            None => Ok(Vec::new(self.alloc)),
            Some(query) => match items_of(self.alloc, &mut self.store, &self.names, query) {
                Ok(items) => Ok(items),
                Err(fault) => Err(Answer::from(fault)),
            },
        }
    }

    // Takes a drafted change into the open transaction, or drops it with the names that it brought.
    fn finish(&mut self, drafted: Result<Drafted, Answer>, names: u32) -> Answer
        requires { IsTrue self.old.store.base.in_transaction }
        ensures { Finishes drafted names self.old self.new result }
    {
        match drafted {
            Ok(Drafted { answer, weight }) => match self.keep_draft(weight, names) {
                Ok(()) => answer,
                Err(refusal) => refusal,
            },
            Err(answer) => {
                self.drop_draft(names);
                answer
            }
        }
    }

    // Takes the draft into the open transaction where that has room for its weight, and else
    // drops it.
    fn keep_draft(&mut self, weight: u32, names: u32) -> Result<(), Answer>
        requires { IsTrue self.old.store.base.in_transaction }
        ensures kept { OnOk result (KeepsDraft weight self.old self.new) }
        ensures unkept { IfErr result (IsUnkept weight self.old) }
        ensures dropped { OnErr result (Discards names self.old self.new) }
    {
        if weight > MOST_WEIGHT - self.weight {
            self.drop_draft(names);
            return Err(Answer::Refused(Refusal::TransactionFull));
        }
        match keep(&mut self.store) {
            Ok(()) => {
                self.weight += weight;
                Ok(())
            }
            Err(_) => {
                self.drop_draft(names);
                Err(Answer::Fault(Fault::Memory))
            }
        }
    }

    // Drops the draft with the names that it brought.
    fn drop_draft(&mut self, names: u32)
        ensures discards { Discards names self.old self.new }
        ensures base { self.new.store.base ≡ self.old.store.base }
    {
        self.store.discard();
        self.names.cut(names);
    }

    // Commits a drafted change that is a transaction by itself, unless it weighs more than one may.
    fn finish_alone(
        &mut self,
        drafted: Result<Drafted, Answer>,
        names: u32,
        tap: &mut Option<WriteSet>,
    ) -> Answer
        requires opened { IsTrue self.old.store.base.in_transaction }
        requires live { IsTrue self.old.store.base.live }
        requires room { HasRoom tap.old }
        ensures finishes { FinishesAlone drafted names self.old self.new result }
        ensures taps { TapsAlone D.Disk drafted (view self.old) (view self.new) result
            tap.old tap.new }
    {
        match drafted {
            Ok(Drafted { answer, weight }) => {
                if weight > MOST_WEIGHT - START_WEIGHT {
                    return self.drop_alone(Answer::Refused(Refusal::TransactionFull), names);
                }
                match keep(&mut self.store) {
                    Ok(()) => self.commit_alone(answer, tap),
                    Err(_) => self.drop_alone(Answer::Fault(Fault::Memory), names),
                }
            }
            Err(answer) => self.drop_alone(answer, names),
        }
    }

    // Commits the change, or leaves open whether it is on the disk. What it replaces is kept for
    // the snapshots first; where that can't be read, nothing is committed.
    fn commit_alone(&mut self, answer: Answer, tap: &mut Option<WriteSet>) -> Answer
        requires opened { IsTrue self.old.store.base.in_transaction }
        requires live { IsTrue self.old.store.base.live }
        requires room { HasRoom tap.old }
        ensures tries { TriesCommit (working self.old.store) self.old.store.base.own.pairs
            self.old self.new answer result }
        ensures taps { TapsCommit D.Disk (view self.old) (view self.new)
            (view self.old).console.written answer result tap.old tap.new }
    {
        self.fill(tap);
        match self.store.commit_kept(&mut self.snaps) {
            Ok(()) => answer,
            Err(Failed) => {
                forget(tap);
                self.health = Health::Failed;
                Answer::Fault(Fault::Disk)
            }
        }
    }

    // Drops the change. Where the disk failed in it, the session is failed.
    fn drop_alone(&mut self, answer: Answer, names: u32) -> Answer
        requires { IsTrue self.old.store.base.in_transaction }
        ensures answer { result ≡ answer }
        ensures drops { DropsAlone names self.old self.new answer }
    {
        self.drop_draft(names);
        self.store.rollback();
        if matches!(answer, Answer::Fault(Fault::Disk)) {
            self.health = Health::Failed;
        }
        answer
    }
}

// Takes the draft into the open transaction, where a shipment may have each of its records. Another
// one is refused like a lack of memory.
fn keep<D: Disk>(store: &mut Store<'_, D>) -> Result<(), AllocError>
    requires in_transaction { IsTrue store.old.base.in_transaction }
    requires ships { AllShip store.old.base.shape store.old.base.own.pairs }
    ensures own { OnOk result (store.new.base.own.pairs
        ≡ merged store.old.base.own.pairs store.old.draft.pairs) }
    ensures working { OnOk result (working store.new ≡ drafted store.old) }
    ensures draft { OnOk result (store.new.draft.pairs ≡ []) }
    ensures refused { OnErr result (store.new.base.own.pairs ≡ store.old.base.own.pairs) }
    ensures ships { AllShip store.new.base.shape store.new.base.own.pairs }
    ensures in_transaction { IsTrue store.new.base.in_transaction }
    ensures same { SameBeneath store.old.base store.new.base }
{
    if !store.draft_ships() {
        return Err(AllocError);
    }
    store.keep()
}

// The record of a name that isn't the one in memory, or the names' meta record; or else the one
// that was met.
fn other_name<R: Reads>(names: &Names, space: &mut R, met: Damage) -> Result<Damage, SpaceFault>
    ensures other { R.tells → IfOk result
        (IsNameOrMet (R.state space.old).records names.now.names met) }
    ensures onward { R.onward space.old space.new }
    ensures cause { HasCause (R.faults space.old) (R.faults space.new) result }
{
    match names.test(space) {
        Ok(()) => Ok(met),
        Err(RowFault::Disk) => Err(SpaceFault::Disk),
        Err(RowFault::Damaged(damage)) => Ok(damage),
    }
}

// Whether the call that makes a change, where these are the names, blames such a record only if it
// breaks a rule in what the call found.
fn is_told_as_found(change: Change<'_>, names: &Names, damage: Damage) -> bool
    ensures told { IsTrue result
        → IsToldAsFound (change_command change.entry) names.now.names damage }
    ensures meets { result ≡ false → MayMeetNames (change_command change.entry) }
{
    !may_meet_names(change) || (!is_of_index(damage) && tells_as_found(change, names))
}

// Whether it may blame a record for its name.
fn may_meet_names(change: Change<'_>) -> bool
    ensures { IsTrue result ↔ MayMeetNames (change_command change.entry) }
{
    match change {
        Change::Delete(Target::Edge(_)) => false,
        Change::Delete(Target::Node(_)) => true,
        Change::Node { .. } | Change::Edge { .. } | Change::Set { .. } => true,
        Change::Unset { .. } | Change::Index { .. } | Change::Mutate { .. } => true,
    }
}

// Whether it blames nothing else but records of the indexes.
fn tells_as_found(change: Change<'_>, names: &Names) -> bool
    ensures { IsTrue result → TellsAsFound (change_command change.entry) names.now.names }
{
    match change {
        Change::Node { .. } | Change::Unset { .. } | Change::Delete(_) => true,
        Change::Set { key, .. } => names.find(key.as_bytes()).is_some(),
        Change::Edge { .. } | Change::Index { .. } | Change::Mutate { .. } => false,
    }
}

// Whether the record is one of the indexes, or their meta record.
fn is_of_index(damage: Damage) -> bool
    ensures { IsTrue result ↔ IsOfIndex damage }
{
    damage.file == INDEX || (damage.file == META && damage.id == INDEX as u32)
}

// A new node that is drafted, or why it isn't.
fn drafted_node(outcome: Result<Added, ChangeFault>) -> Result<Drafted, Answer>
    ensures { result ≡ drafted_node outcome }
{
    match outcome {
        Ok(Added { id, weight }) => Ok(Drafted {
            answer: Answer::NodeMade(id),
            weight,
        }),
        Err(fault) => Err(Answer::from(fault)),
    }
}

// The same of a new edge.
fn drafted_edge(outcome: Result<Added, ChangeFault>) -> Result<Drafted, Answer>
    ensures { result ≡ drafted_edge outcome }
{
    match outcome {
        Ok(Added { id, weight }) => Ok(Drafted {
            answer: Answer::EdgeMade(id),
            weight,
        }),
        Err(fault) => Err(Answer::from(fault)),
    }
}

// The same of a change whose answer has nothing of its own.
fn drafted_done(outcome: Result<u32, ChangeFault>) -> Result<Drafted, Answer>
    ensures { result ≡ drafted_done outcome }
{
    match outcome {
        Ok(weight) => Ok(Drafted {
            answer: Answer::Done,
            weight,
        }),
        Err(fault) => Err(Answer::from(fault)),
    }
}
