ghost use Rattle.std.specs.Prelude.{◌≡◌, ◌≤◌, ◌<◌, IfOk, Some};
ghost use Rattle.std.specs.List.{slice_get};
ghost use Rattle.fault_count.specs.Cause.{HasCause, Rose};
ghost use Rattle.disk_model.specs.Spans.{OnlyReads};
ghost use Rattle.redo_log.specs.Entries.{count_at, entry_at, write_at, write_place};
ghost use Rattle.redo_log.specs.Reading.{IsInLog, Tells};

use crate::decoding::write_of;
use crate::entry::{WRITE_BYTES, place_of_write};
use crate::entry_answer::EntryAnswer;
use crate::log_reader::LogReader;
use disk_model::Disk;
use rec_bytes::{DiskFault, Key, LOG, Rec};

/// What stands at a place of the log. Who reads entry after entry makes one `LogReader` for all of
/// them.
pub fn entry_at<D: Disk>(disk: &mut D, place: u64) -> EntryAnswer
    requires { place ≤ 1048575 }
    ensures tells { D.tells_reads → Tells (D.reads disk.old) place result }
    ensures in_log { IsInLog place result }
    ensures only_reads { OnlyReads D.Disk disk.old disk.new }
    ensures cause { result ≡ EntryAnswer.Disk → Rose (D.faults disk.old) (D.faults disk.new) }
    ensures later { D.faults disk.old ≤ D.faults disk.new }
{
    LogReader::new().entry_at(disk, place)
}

/// The record of this index in the entry at a place, with its key. It reads that record alone.
pub fn write_at<D: Disk>(disk: &mut D, place: u64, index: u16) -> Result<(Key, Rec), DiskFault>
    requires { place ≤ 1048575 }
    ensures bytes { D.tells_reads
        → IfOk result (λ write. write ≡ write_at (D.reads disk.old) (write_place place index)) }
    ensures of_entry { D.tells_reads → index < count_at (D.reads disk.old) place
        → IfOk result (λ write. slice_get (entry_at (D.reads disk.old) place) index ≡ Some write) }
    ensures only_reads { OnlyReads D.Disk disk.old disk.new }
    ensures cause { HasCause (D.faults disk.old) (D.faults disk.new) result }
{
    let mut bytes = [0; WRITE_BYTES];
    disk.read(LOG, place_of_write(place, index), &mut bytes)?;
    Ok(write_of(&bytes))
}
