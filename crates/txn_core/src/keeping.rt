//! A commit that keeps what it replaces.

ghost use Rattle.std.specs.Prelude.{◌≡◌, ◌≤◌, ◌⊎◌, [], IsOk, IsTrue, OnErr, OnOk, false, length, ℕ};
ghost use Rattle.fault_count.specs.Cause.{HasCause};
ghost use Rattle.disk_model.specs.Spans.{AtEachMoment};
ghost use Rattle.record_file.specs.Redone.{Redoes};
ghost use Rattle.redo_log.specs.Appending.{SameButEntry};
ghost use Rattle.snap_store.specs.Keeping.{EndsFor, KeepsHeld};

use crate::Store;
use disk_model::Disk;
use rec_bytes::DiskFault;
use snap_store::{Snaps, keep_old};

impl<'d, D: Disk> Store<'d, D> {
    ghost use Rattle.txn_core.specs.Base.{SameStore};
    ghost use Rattle.txn_core.specs.Kept.{FitsCommit, IsOnDisk};
    ghost use Rattle.txn_core.specs.Outcomes.{HasFailedCommit, IsWritten};
    ghost use Rattle.txn_core.specs.Sights.{KeepsSights};
    ghost use Rattle.txn_core.specs.Store.{committed, content, working};

    /// Keeps for the open snapshots what the open transaction replaces, and ends it as `commit`
    /// does. Where an old record can't be read, the transaction is dropped, and the disk has what
    /// was committed, alone.
    pub fn commit_kept(&mut self, snaps: &mut Snaps) -> Result<(), DiskFault>
        requires live { IsTrue self.old.base.live }
        requires in_transaction { IsTrue self.old.base.in_transaction }

        // Whatever comes of it, each snapshot that is still open sees what it saw.
        ensures sights { KeepsSights D.Disk (committed self.old) self.new.base.disk.now
            snaps.old snaps.new }
        ensures held { (weight : ℕ) → length self.old.base.own.pairs ≤ weight
            → KeepsHeld weight snaps.old snaps.new }

        // The oldest snapshots end exactly where the old records that the youngest lacks have no
        // room beside those that are kept.
        ensures ended { EndsFor self.old.base.own.pairs snaps.old snaps.new }

        // The rest is that of a commit.
        ensures crash { D.tells_reads → D.tells_images
            → AtEachMoment D.Disk self.old.base.disk.now self.new.base.disk.now
            (λ left. Redoes left (committed self.old) ⊎ Redoes left (working self.old)) }
        ensures done { OnOk result (IsWritten self.old.base self.new.base) }
        ensures failed { OnErr result (HasFailedCommit self.old.base self.new.base) }
        ensures empty { length self.old.base.own.pairs ≡ 0
            → IsOk result × (self.new.base.disk.now ≡ self.old.base.disk.now) }

        // Where it fits, its entry is all that is written.
        ensures checkpoints { D.tells_reads
            → FitsCommit self.old.base.tail self.old.base.changed.pairs self.old.base.own.pairs
            → SameButEntry self.old.base.tail self.old.base.own.pairs (content self.old)
            (content self.new) }
        ensures closed { self.new.base.in_transaction ≡ false }
        ensures own { self.new.base.own.pairs ≡ [] }
        ensures draft { self.new.draft.pairs ≡ [] }
        ensures same { SameStore self.old.base self.new.base }
        ensures cause { HasCause (D.faults self.old.base.disk.now)
            (D.faults self.new.base.disk.now) result }
    {
        let _stored = self.health(); // Its contract says what a live store has on the disk.
        match keep_old(snaps, self) {
            Ok(()) => self.commit(),
            Err(fault) => {
                self.drop_transaction();
                Err(fault)
            }
        }
    }

    // Drops the open transaction of a live store, whose disk has what was committed.
    fn drop_transaction(&mut self)
        requires live { IsTrue self.old.base.live }
        requires in_transaction { IsTrue self.old.base.in_transaction }
        ensures stored { IsOnDisk D.Disk self.new.base.disk.now
            (λ left. Redoes left (committed self.old)) }
        ensures live { IsTrue self.new.base.live }
        ensures committed { committed self.new ≡ committed self.old }
        ensures same_disk { self.new.base.disk.now ≡ self.old.base.disk.now }
        ensures closed { self.new.base.in_transaction ≡ false }
        ensures own { self.new.base.own.pairs ≡ [] }
        ensures draft { self.new.draft.pairs ≡ [] }
        ensures same { SameStore self.old.base self.new.base }
    {
        let _stored = self.health();
        self.rollback();
    }
}
