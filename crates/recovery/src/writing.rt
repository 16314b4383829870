ghost use Rattle.std.specs.Prelude.{◌≡◌, OnOk};
ghost use Rattle.fault_count.specs.Cause.{HasCause};
ghost use Rattle.disk_model.specs.Spans.{AtEachMoment};
ghost use Rattle.rec_bytes.specs.Space.{laid_over};
ghost use Rattle.record_file.specs.Records.{IsTornInRecords, SameButRecords, record_at};

use disk_model::Disk;
use rec_bytes::{DiskFault, WriteSet};
use record_file::Run;

/// Writes each of these records in its file, those that stand one behind the other in one call of
/// the disk.
pub fn write_records<D: Disk>(disk: &mut D, written: &WriteSet) -> Result<(), DiskFault>
    ensures written { D.tells_reads
        → OnOk result (record_at (D.reads disk.new)
        ≡ laid_over (record_at (D.reads disk.old)) written.now.pairs) }
    ensures elsewhere { SameButRecords written.now.pairs (D.reads disk.old) (D.reads disk.new) }
    ensures crash { D.tells_images
        → AtEachMoment D.Disk disk.old disk.new
        (IsTornInRecords (D.may_leave disk.old) written.now.pairs) }
    ensures cause { HasCause (D.faults disk.old) (D.faults disk.new) result }
{
    let mut run = Run::new();
    for i in 0..written.len() {
        let (key, rec) = written.at(i);
        run.put(disk, key, rec)?;
    }
    run.write(disk)
}
