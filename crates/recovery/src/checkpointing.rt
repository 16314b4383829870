ghost use Rattle.std.specs.Prelude.{◌≡◌, [], ℕ, OnOk};
ghost use Rattle.fault_count.specs.Cause.{HasCause};
ghost use Rattle.disk_model.specs.Spans.{AtEachMoment, IsAllSettled};
ghost use Rattle.rec_bytes.specs.Space.{laid_over};
ghost use Rattle.redo_log.specs.Entries.{HasEntries};
ghost use Rattle.record_file.specs.Records.{KeepsOthers, record_at};
ghost use Rattle.record_file.specs.Redone.{AreAlike, IsLogged, Redoes};

use crate::syncing::sync_record_files;
use crate::writing::write_records;
use disk_model::Disk;
use rec_bytes::{DiskFault, WriteSet};
use redo_log::reset;

/// Brings the changed records of a store into their files, and takes the entries of the log away.
/// The order of the calls matters: while a record may be torn an entry has it, and no entry goes
/// before all records are stable.
pub fn checkpoint<D: Disk>(disk: &mut D, changed: &WriteSet) -> Result<(), DiskFault>
    // A stop at any moment leaves a content that redoes to the space of the store.
    ensures crash { D.tells_reads → D.tells_images → (tail : ℕ)
        → IsLogged (D.reads disk.old) changed.now.pairs tail
        → AreAlike (D.reads disk.old) changed.now.pairs (D.may_leave disk.old)
        → AtEachMoment D.Disk disk.old disk.new
        (λ content. Redoes content (laid_over (record_at (D.reads disk.old)) changed.now.pairs)) }

    // So does what is read, also after a failure. After success it is the space itself, with no
    // entry, and nothing is pending.
    ensures read { D.tells_reads → (tail : ℕ) → IsLogged (D.reads disk.old) changed.now.pairs tail
        → Redoes (D.reads disk.new) (laid_over (record_at (D.reads disk.old)) changed.now.pairs) }
    ensures space { D.tells_reads
        → OnOk result (record_at (D.reads disk.new)
        ≡ laid_over (record_at (D.reads disk.old)) changed.now.pairs) }
    ensures emptied { D.tells_reads → OnOk result (HasEntries (D.reads disk.new) [] 0) }
    ensures settled { D.tells_reads → D.tells_images → OnOk result (IsAllSettled D.Disk disk.new) }

    // No other record is written.
    ensures elsewhere { KeepsOthers changed.now.pairs (D.reads disk.old) (D.reads disk.new) }

    ensures cause { HasCause (D.faults disk.old) (D.faults disk.new) result }
{
    write_records(disk, changed)?;
    sync_record_files(disk)?; // All records are stable.
    reset(disk)
}
