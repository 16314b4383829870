ghost use Rattle.std.specs.Prelude.{◌≡◌, IsTrue, OnErr, OnOk, false};
ghost use Rattle.fault_count.specs.Cause.{HasCause};
ghost use Rattle.disk_model.specs.Spans.{AtEachMoment};
ghost use Rattle.record_file.specs.Redone.{Redoes};
ghost use Rattle.txn_core.specs.Base.{SameStore, committed};
ghost use Rattle.txn_core.specs.Outcomes.{HasFailed, IsCheckpointed};

use crate::base::Base;
use crate::marks::Marks;
use disk_model::Disk;
use rec_bytes::DiskFault;

impl<'d, D: Disk> Base<'d, D> {
    // Brings the changed records into their files, and takes the log's entries away.
    pub(crate) fn checkpoint(&mut self) -> Result<(), DiskFault>
        requires live { IsTrue self.old.live }
        ensures crash { D.tells_reads → D.tells_images
            → AtEachMoment D.Disk self.old.disk.now self.new.disk.now
            (λ left. Redoes left (committed self.old)) }
        ensures done { OnOk result (IsCheckpointed self.old self.new) }
        ensures failed { OnErr result (HasFailed self.old self.new) }
        ensures own { self.new.own ≡ self.old.own }
        ensures in_transaction { self.new.in_transaction ≡ self.old.in_transaction }
        ensures same { SameStore self.old self.new }
        ensures cause { HasCause (D.faults self.old.disk.now) (D.faults self.new.disk.now) result }
    {
        self.live = false;
        self.cache.forget_all(&self.changed); // Their pages are to be read anew.
        recovery::checkpoint(self.disk, &self.changed)?;
        self.metas.refresh(&self.changed);
        self.changed.clear();
        self.marks = Marks::over(&self.metas, &self.changed, &self.own);
        self.tail = 0;
        self.live = true;
        Ok(())
    }
}
