ghost use Rattle.std.specs.Prelude.{◌≢◌, [], List, ℕ, OnOk};
ghost use Rattle.fault_count.specs.Cause.{HasCause};
ghost use Rattle.disk_model.specs.Disk.{Settled, TornIn};
ghost use Rattle.disk_model.specs.Spans.{AtEachMoment, OnlyReads};
ghost use Rattle.rec_bytes.specs.Format.{log_file};
ghost use Rattle.rec_bytes.specs.Pairs.{Pairs};
ghost use Rattle.redo_log.specs.Entries.{AllHaveEntries, HasEntries, open_byte};
ghost use Rattle.redo_log.specs.Resetting.{HasEntriesOrNone, IsReset, SameButGate};

use crate::entry::{CLOSED, OPEN};
use disk_model::Disk;
use rec_bytes::{DiskFault, LOG};

/// Takes all entries away, by one byte: the first gate is closed where a read finds it open. Then
/// the log is synced, so after success no image has an entry. It makes at most three calls of the
/// disk, whatever the log holds.
pub fn reset<D: Disk>(disk: &mut D) -> Result<(), DiskFault>
    // A stop at any moment leaves the old entries or none.
    ensures crash { D.tells_reads → D.tells_images → (entries : List Pairs) (tail : ℕ)
        → AllHaveEntries (D.may_leave disk.old) entries tail
        → AtEachMoment D.Disk disk.old disk.new (IsReset (D.may_leave disk.old) entries tail) }
    ensures torn { D.tells_images
        → TornIn log_file 0 1 (D.may_leave disk.old) (D.may_leave disk.new) }
    ensures durable { D.tells_reads → D.tells_images
        → OnOk result (AllHaveEntries (D.may_leave disk.new) [] 0) }
    ensures settled { D.tells_reads → D.tells_images
        → OnOk result (Settled log_file (D.reads disk.new) (D.may_leave disk.new)) }

    // So does a read, and after success it has none.
    ensures read { D.tells_reads → (entries : List Pairs) (tail : ℕ)
        → HasEntries (D.reads disk.old) entries tail
        → HasEntriesOrNone (D.reads disk.new) entries tail }
    ensures emptied { D.tells_reads → OnOk result (HasEntries (D.reads disk.new) [] 0) }
    ensures elsewhere { SameButGate (D.reads disk.old) (D.reads disk.new) }

    // A closed gate is never written: a torn write might open it over what an older entry left.
    ensures closed { D.tells_reads → D.reads disk.old log_file 0 ≢ open_byte
        → OnlyReads D.Disk disk.old disk.new }

    ensures cause { HasCause (D.faults disk.old) (D.faults disk.new) result }
{
    close_first_gate(disk)?;
    disk.sync(LOG)
}

// Closes the first gate where a read finds it open.
fn close_first_gate<D: Disk>(disk: &mut D) -> Result<(), DiskFault>
    ensures crash { D.tells_reads → D.tells_images → (entries : List Pairs) (tail : ℕ)
        → AllHaveEntries (D.may_leave disk.old) entries tail
        → AtEachMoment D.Disk disk.old disk.new (IsReset (D.may_leave disk.old) entries tail) }
    ensures torn { D.tells_images
        → TornIn log_file 0 1 (D.may_leave disk.old) (D.may_leave disk.new) }
    ensures read { D.tells_reads → (entries : List Pairs) (tail : ℕ)
        → HasEntries (D.reads disk.old) entries tail
        → HasEntriesOrNone (D.reads disk.new) entries tail }
    ensures emptied { D.tells_reads → OnOk result (HasEntries (D.reads disk.new) [] 0) }
    ensures elsewhere { SameButGate (D.reads disk.old) (D.reads disk.new) }
    ensures closed { D.tells_reads → D.reads disk.old log_file 0 ≢ open_byte
        → OnlyReads D.Disk disk.old disk.new }
    ensures cause { HasCause (D.faults disk.old) (D.faults disk.new) result }
{
    let mut gate = [CLOSED];
    disk.read(LOG, 0, &mut gate)?;
    if gate[0] != OPEN {
        return Ok(());
    }
    disk.write(LOG, 0, &[CLOSED])
}
