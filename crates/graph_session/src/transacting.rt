ghost use Rattle.std.specs.Prelude.{◌≡◌};
ghost use Rattle.plain_graph.specs.declared.command.Command.TheVariants as commands;
ghost use Rattle.graph_session.specs.Answering.{reply_of};
ghost use Rattle.graph_session.specs.Settling.{SettlesCommand};
ghost use Rattle.graph_session.specs.SnapshotEffects.{KeepsOlds};
ghost use Rattle.graph_session.specs.Tapping.{HasRoom, Takes, TapsCommand};
ghost use Rattle.graph_session.specs.declared.health.Health.TheVariants as healths;

use crate::answer::Answer;
use crate::tapping::forget;
use crate::{Health, Session};
use disk_model::Disk;
use fault_count::Failed;
use plain_graph::{Refusal, START_WEIGHT};
use rec_bytes::{Fault, NAMES, Reads, WriteSet};

impl<'d, D: Disk> Session<'d, D> {
    ghost use Rattle.graph_session.specs.Session.{HaveSameDisk, shared_view, view};

    /// Begins a transaction. It makes no call of the disk.
    pub(crate) fn begin(&mut self) -> Answer
        requires live { self.old.health ≡ healths.Live }
        ensures settles { SettlesCommand D.Disk commands.Begin
            (view self.old) (view self.new) (reply_of result) }
        ensures keeps { KeepsOlds D.Disk commands.Begin
            (shared_view self.old) (reply_of result) (shared_view self.new) }
        ensures same_disk { HaveSameDisk self.old self.new }
    {
        if self.store.in_transaction() {
            return Answer::Refused(Refusal::TransactionOpen);
        }
        self.store.begin();
        self.weight = START_WEIGHT;
        Answer::Done
    }

    /// Commits the open transaction, or leaves open whether it is on the disk. What it replaces is
    /// kept for the snapshots first; where that can't be read, nothing is committed.
    pub(crate) fn commit(&mut self, tap: &mut Option<WriteSet>) -> Answer
        requires room { HasRoom tap.old }
        requires live { self.old.health ≡ healths.Live }
        ensures settles { SettlesCommand D.Disk commands.Commit
            (view self.old) (view self.new) (reply_of result) }
        ensures keeps { KeepsOlds D.Disk commands.Commit
            (shared_view self.old) (reply_of result) (shared_view self.new) }
        ensures taps { Takes (TapsCommand D.Disk commands.Commit
            (view self.old) (reply_of result) (view self.new)) tap.old tap.new }
        ensures same_disk { HaveSameDisk self.old self.new }
    {
        if !self.store.in_transaction() {
            return Answer::Refused(Refusal::NoTransaction);
        }
        self.fill(tap);
        match self.store.commit_kept(&mut self.snaps) {
            Ok(()) => Answer::Done,
            Err(Failed) => {
                forget(tap);
                self.health = Health::Failed;
                Answer::Fault(Fault::Disk)
            }
        }
    }

    /// Drops the open transaction, with the names that it brought. It makes no call of the disk.
    pub(crate) fn rollback(&mut self) -> Answer
        requires live { self.old.health ≡ healths.Live }
        ensures settles { SettlesCommand D.Disk commands.Rollback
            (view self.old) (view self.new) (reply_of result) }
        ensures keeps { KeepsOlds D.Disk commands.Rollback
            (shared_view self.old) (reply_of result) (shared_view self.new) }
        ensures same_disk { HaveSameDisk self.old self.new }
    {
        if !self.store.in_transaction() {
            return Answer::Refused(Refusal::NoTransaction);
        }
        self.store.rollback();
        self.names.cut(self.store.meta(NAMES).high);
        Answer::Done
    }
}
