ghost use Rattle.std.specs.Prelude.{◌≡◌, ◌≤◌, [], IsTrue};
ghost use Rattle.recovery.specs.Finding.{IsCareful};
ghost use Rattle.txn_core.specs.Base.{OnlyReadsBase};
ghost use Rattle.plain_graph.specs.declared.command.Command.TheVariants as commands;
ghost use Rattle.graph_session.specs.Answering.{reply_of};
ghost use Rattle.graph_session.specs.Naming.{TakesNames};
ghost use Rattle.graph_session.specs.Settling.{SettlesCommand};
ghost use Rattle.graph_session.specs.SnapshotEffects.{KeepsOlds};
ghost use Rattle.graph_session.specs.declared.health.Health.TheVariants as healths;

use crate::answer::Answer;
use crate::{Health, Session};
use disk_model::Disk;
use fault_count::Failed;
use plain_graph::Refusal;
use rec_bytes::{Fault, RowFault};
use txn_core::AgainFault;

impl<'d, D: Disk> Session<'d, D> {
    ghost use Rattle.graph_session.specs.Session.{HaveSameDisk, shared_view, view};

    /// Brings all records into their files, and empties the log.
    pub(crate) fn checkpoint(&mut self) -> Answer
        requires live { self.old.health ≡ healths.Live }
        ensures settles { SettlesCommand D.Disk commands.Checkpoint
            (view self.old) (view self.new) (reply_of result) }
        ensures keeps { KeepsOlds D.Disk commands.Checkpoint
            (shared_view self.old) (reply_of result) (shared_view self.new) }
        ensures same_disk { HaveSameDisk self.old self.new }
    {
        if self.store.in_transaction() {
            return Answer::Refused(Refusal::TransactionOpen);
        }
        match self.store.checkpoint() {
            Ok(()) => Answer::Done,
            Err(Failed) => {
                self.health = Health::Failed;
                Answer::Fault(Fault::Disk)
            }
        }
    }

    /// Finds what the disk has, and serves it again.
    pub(crate) fn reopen(&mut self) -> Answer
        ensures settles { SettlesCommand D.Disk commands.Reopen
            (view self.old) (view self.new) (reply_of result) }
        ensures keeps { KeepsOlds D.Disk commands.Reopen
            (shared_view self.old) (reply_of result) (shared_view self.new) }
        ensures careful { IsCareful D.Disk (view self.old).disk (view self.new).disk }
        ensures same_disk { HaveSameDisk self.old self.new }
    {
        if self.store.in_transaction() {
            return Answer::Refused(Refusal::TransactionOpen);
        }
        self.health = Health::Failed;
        match self.store.recover_again() {
            Ok(()) => self.name_again(),
            Err(AgainFault::Disk) => Answer::Fault(Fault::Disk),
            Err(AgainFault::Damaged(damage)) => Answer::Fault(Fault::Damaged(damage)),
        }
    }

    // Takes the names of the store that was found, and is live again.
    fn name_again(&mut self) -> Answer
        requires live { IsTrue self.old.store.base.live }
        requires failed { self.old.health ≡ healths.Failed }
        requires draft { self.old.store.draft.pairs ≡ [] }
        ensures takes { TakesNames self.old.store self.new.store
            self.old.names.names self.new.names.names self.new.health result }
        ensures reads { OnlyReadsBase self.old.store.base self.new.store.base }
        ensures draft { self.new.store.draft.pairs ≡ [] }
        ensures snaps { self.new.snaps ≡ self.old.snaps }
        ensures later { D.faults self.old.store.base.disk.now
            ≤ D.faults self.new.store.base.disk.now }
    {
        match self.names.again(&mut self.store) {
            Ok(()) => {
                self.health = Health::Live;
                Answer::Done
            }
            Err(RowFault::Disk) => Answer::Fault(Fault::Disk),
            Err(RowFault::Damaged(damage)) => Answer::Fault(Fault::Damaged(damage)),
        }
    }
}
