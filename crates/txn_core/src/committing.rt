ghost use Rattle.std.specs.Prelude.{
  ◌≡◌,
  ◌⊎◌,
  ◌↔◌,
  ◌-◌,
  ◌<◌,
  ◌≤◌,
  [],
  IsOk,
  IsTrue,
  OnErr,
  OnOk,
  false,
  length,
};
ghost use Rattle.fault_count.specs.Cause.{HasCause};
ghost use Rattle.disk_model.specs.Spans.{AtEachMoment};
ghost use Rattle.rec_bytes.specs.Format.{most_changed};
ghost use Rattle.rec_bytes.specs.Pairs.{growth_by, merged};
ghost use Rattle.redo_log.specs.Appending.{SameButEntry};
ghost use Rattle.redo_log.specs.Entries.{Fits, IsEntryOf};
ghost use Rattle.record_file.specs.Redone.{Redoes};
ghost use Rattle.txn_core.specs.Base.{SameBeneath, SameStore, committed, content, working};
ghost use Rattle.txn_core.specs.Kept.{FitsCommit};
ghost use Rattle.txn_core.specs.Outcomes.{IsInDoubt, IsWritten};

use crate::base::Base;
use disk_model::Disk;
use rec_bytes::{DiskFault, MOST_CHANGED};
use redo_log::{append, fits};

impl<'d, D: Disk> Base<'d, D> {
    // Brings what the open transaction has written onto the disk, all of it or nothing, and ends
    // it.
    pub(crate) fn commit(&mut self) -> Result<(), DiskFault>
        requires live { IsTrue self.old.live }
        requires in_transaction { IsTrue self.old.in_transaction }
        ensures crash { D.tells_reads → D.tells_images
            → AtEachMoment D.Disk self.old.disk.now self.new.disk.now
            (λ left. Redoes left (committed self.old) ⊎ Redoes left (working self.old)) }
        ensures done { OnOk result (IsWritten self.old self.new) }
        ensures failed { OnErr result (IsInDoubt self.old self.new) }
        ensures empty { length self.old.own.pairs ≡ 0
            → IsOk result × (self.new.disk.now ≡ self.old.disk.now) }
        ensures checkpoints { D.tells_reads
            → FitsCommit self.old.tail self.old.changed.pairs self.old.own.pairs
            → SameButEntry self.old.tail self.old.own.pairs (content self.old) (content self.new) }
        ensures own { self.new.own.pairs ≡ [] }
        ensures closed { self.new.in_transaction ≡ false }
        ensures same { SameStore self.old self.new }
        ensures cause { HasCause (D.faults self.old.disk.now) (D.faults self.new.disk.now) result }
    {
        let written = self.write_own();
        self.end();
        written
    }

    // Brings what the open transaction has written onto the disk.
    fn write_own(&mut self) -> Result<(), DiskFault>
        requires live { IsTrue self.old.live }
        ensures crash { D.tells_reads → D.tells_images
            → AtEachMoment D.Disk self.old.disk.now self.new.disk.now
            (λ left. Redoes left (committed self.old) ⊎ Redoes left (working self.old)) }
        ensures done { OnOk result (IsWritten self.old self.new) }
        ensures failed { OnErr result (IsInDoubt self.old self.new) }
        ensures empty { length self.old.own.pairs ≡ 0
            → IsOk result × (self.new.disk.now ≡ self.old.disk.now) }
        ensures checkpoints { D.tells_reads
            → FitsCommit self.old.tail self.old.changed.pairs self.old.own.pairs
            → SameButEntry self.old.tail self.old.own.pairs (content self.old) (content self.new) }
        ensures same { SameStore self.old self.new }
        ensures cause { HasCause (D.faults self.old.disk.now) (D.faults self.new.disk.now) result }
    {
        if self.own.len() == 0 {
            return Ok(());
        }
        self.make_room()?;
        self.append_own()
    }

    // Makes room for the entry and its records, by a checkpoint where there is none.
    fn make_room(&mut self) -> Result<(), DiskFault>
        requires live { IsTrue self.old.live }
        ensures fits { OnOk result (Fits self.new.tail (length self.new.own.pairs)) }
        ensures room { OnOk result (growth_by self.new.changed.pairs self.new.own.pairs
            ≤ self.new.changed.room) }
        ensures few { OnOk result (length (merged self.new.changed.pairs self.new.own.pairs)
            ≤ most_changed) }
        ensures crash { D.tells_reads → D.tells_images
            → AtEachMoment D.Disk self.old.disk.now self.new.disk.now
            (λ left. Redoes left (committed self.old)) }
        ensures done { OnOk result (D.tells_reads → committed self.new ≡ committed self.old) }
        ensures live { OnOk result (IsTrue self.new.live) }
        ensures failed { OnErr result (IsInDoubt self.old self.new) }
        ensures unneeded { FitsCommit self.old.tail self.old.changed.pairs self.old.own.pairs
            → SameBeneath self.old self.new }
        ensures own { self.new.own ≡ self.old.own }
        ensures in_transaction { self.new.in_transaction ≡ self.old.in_transaction }
        ensures same { SameStore self.old self.new }
        ensures cause { HasCause (D.faults self.old.disk.now) (D.faults self.new.disk.now) result }
    {
        if self.has_room() {
            return Ok(());
        }
        self.checkpoint()
    }

    // Whether the entry fits in the log, and its records among the changed ones.
    fn has_room(&self) -> bool
        ensures has { IsTrue result
            ↔ FitsCommit self.now.tail self.now.changed.pairs self.now.own.pairs }
        ensures fits { IsTrue result → Fits self.now.tail (length self.now.own.pairs) }
        ensures room { IsTrue result
            → growth_by self.now.changed.pairs self.now.own.pairs
            ≤ most_changed - length self.now.changed.pairs }
        ensures few { IsTrue result → length (merged self.now.changed.pairs self.now.own.pairs)
            ≤ most_changed }
    {
        let free = MOST_CHANGED - self.changed.len();
        fits(self.tail, self.own.len()) && self.changed.growth_by(&self.own) <= free
    }

    // Appends the records that the transaction has written, as one entry.
    fn append_own(&mut self) -> Result<(), DiskFault>
        requires live { IsTrue self.old.live }
        requires form { IsEntryOf self.old.own.pairs }
        requires fits { Fits self.old.tail (length self.old.own.pairs) }
        requires room { growth_by self.old.changed.pairs self.old.own.pairs
            ≤ self.old.changed.room }
        requires few { length (merged self.old.changed.pairs self.old.own.pairs) ≤ most_changed }
        ensures crash { D.tells_reads → D.tells_images
            → AtEachMoment D.Disk self.old.disk.now self.new.disk.now
            (λ left. Redoes left (committed self.old) ⊎ Redoes left (working self.old)) }
        ensures done { OnOk result (IsWritten self.old self.new) }
        ensures failed { OnErr result (IsInDoubt self.old self.new) }
        ensures checkpoints { D.tells_reads
            → SameButEntry self.old.tail self.old.own.pairs (content self.old) (content self.new) }
        ensures own { self.new.own ≡ self.old.own }
        ensures in_transaction { self.new.in_transaction ≡ self.old.in_transaction }
        ensures same { SameStore self.old self.new }
        ensures cause { HasCause (D.faults self.old.disk.now) (D.faults self.new.disk.now) result }
    {
        self.live = false;
        self.tail = append(self.disk, self.tail, &self.own)?;
        self.changed.merge(&self.own);
        self.live = true;
        Ok(())
    }
}
