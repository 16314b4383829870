ghost use Rattle.std.specs.Prelude.{OnOk};
ghost use Rattle.fault_count.specs.Cause.{HasCause};
ghost use Rattle.disk_model.specs.Spans.{IsAllSettled, OnlyReads};
ghost use Rattle.recovery.specs.Syncing.{AreRecordsSettled};

use disk_model::Disk;
use rec_bytes::{DiskFault, LOG, RecordFile};

/// Syncs the files of records.
pub fn sync_record_files<D: Disk>(disk: &mut D) -> Result<(), DiskFault>
    ensures settled { D.tells_reads → D.tells_images
        → OnOk result (AreRecordsSettled D.Disk disk.new) }
    ensures only_reads { OnlyReads D.Disk disk.old disk.new }
    ensures cause { HasCause (D.faults disk.old) (D.faults disk.new) result }
{
    for entry in RecordFile::all() {
        disk.sync(entry.file)?;
    }
    Ok(())
}

/// Syncs all files: those of records and the log.
pub fn sync_files<D: Disk>(disk: &mut D) -> Result<(), DiskFault>
    ensures settled { D.tells_reads → D.tells_images → OnOk result (IsAllSettled D.Disk disk.new) }
    ensures only_reads { OnlyReads D.Disk disk.old disk.new }
    ensures cause { HasCause (D.faults disk.old) (D.faults disk.new) result }
{
    sync_record_files(disk)?;
    disk.sync(LOG)
}
