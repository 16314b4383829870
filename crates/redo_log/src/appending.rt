ghost use Rattle.std.specs.Prelude.{◌≡◌, ◌+◌, ◌++◌, ◌∷◌, [], List, length, IfOk, OnOk};
ghost use Rattle.fault_count.specs.Cause.{HasCause};
ghost use Rattle.disk_model.specs.Disk.{Settled};
ghost use Rattle.disk_model.specs.Spans.{AtEachMoment};
ghost use Rattle.rec_bytes.specs.Format.{log_file};
ghost use Rattle.rec_bytes.specs.Pairs.{Pairs};
ghost use Rattle.redo_log.specs.Entries.{AllHaveEntries, Fits, HasEntries, IsEntryOf, entry_bytes};
ghost use Rattle.redo_log.specs.Appending.{HasAtMostOneMore, HasOneMore, IsAppended, SameButEntry};

use crate::entry::{HEAD_BYTES, OPEN, WRITE_BYTES};
use crate::payload::write_payload;
use disk_model::Disk;
use rec_bytes::{DiskFault, LOG, WriteSet};

/// Appends an entry of these records at the tail of the log, and gives the new tail. It makes two
/// syncs, whatever the number of records, and takes no memory. The order of the calls matters:
/// while the gate at the tail is closed, what stands after it is nothing, so a stop there leaves
/// the old entries. Once the records and the closed gate after them are stable, the one byte of the
/// gate makes the entry, whole or not at all.
pub fn append<D: Disk>(disk: &mut D, tail: u64, writes: &WriteSet) -> Result<u64, DiskFault>
    requires form { IsEntryOf writes.now.pairs }
    requires fits { Fits tail (length writes.now.pairs) }

    // A stop at any moment leaves the old entries or one more, and after success one more.
    ensures crash { D.tells_reads → D.tells_images → (entries : List Pairs)
        → AllHaveEntries (D.may_leave disk.old) entries tail
        → AtEachMoment D.Disk disk.old disk.new
        (IsAppended (D.may_leave disk.old) entries writes.now.pairs tail) }
    ensures durable { D.tells_reads → D.tells_images → (entries : List Pairs)
        → AllHaveEntries (D.may_leave disk.old) entries tail
        → OnOk result (AllHaveEntries (D.may_leave disk.new) (entries ++ writes.now.pairs ∷ [])
        (tail + entry_bytes (length writes.now.pairs))) }
    ensures settled { D.tells_reads → D.tells_images
        → OnOk result (Settled log_file (D.reads disk.new) (D.may_leave disk.new)) }

    // So does a read.
    ensures read { D.tells_reads → (entries : List Pairs)
        → HasEntries (D.reads disk.old) entries tail
        → HasAtMostOneMore (D.reads disk.new) entries writes.now.pairs tail }
    ensures appended { D.tells_reads → (entries : List Pairs)
        → HasEntries (D.reads disk.old) entries tail
        → OnOk result (HasOneMore (D.reads disk.new) entries writes.now.pairs tail) }
    ensures elsewhere { D.tells_reads
        → SameButEntry tail writes.now.pairs (D.reads disk.old) (D.reads disk.new) }

    ensures next { IfOk result (λ next. next ≡ tail + entry_bytes (length writes.now.pairs)) }
    ensures cause { HasCause (D.faults disk.old) (D.faults disk.new) result }
{
    write_payload(disk, tail + 1, writes)?;
    disk.sync(LOG)?; // The records and the closed gate after them are stable.
    disk.write(LOG, tail, &[OPEN])?;
    disk.sync(LOG)?; // So is the open gate.
    Ok(tail + HEAD_BYTES + (WRITE_BYTES * writes.len()) as u64)
}
