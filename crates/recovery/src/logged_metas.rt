ghost use Rattle.std.specs.Prelude.{◌≤◌, IfErr, IfOk, OnOk};
ghost use Rattle.fault_count.specs.Cause as disk_cause;
ghost use Rattle.disk_model.specs.Spans.{OnlyReads};
ghost use Rattle.rec_bytes.specs.declared.key.Key.{Key as AKey};
ghost use Rattle.rec_bytes.specs.declared.record.Rec.{Rec as ARec};
ghost use Rattle.rec_bytes.specs.Space.{laid_over};
ghost use Rattle.redo_log.specs.Entries.{entry_at, last_place};
ghost use Rattle.redo_log.specs.Reading.{IsPieceOf};
ghost use Rattle.record_file.specs.MetaFile.{AreMetasOf};
ghost use Rattle.recovery.specs.LoggedMetas.{HasMetas, IsLogFault};
ghost use Rattle.recovery.specs.RecoverFault.{HasCause};
ghost use Rattle.recovery.specs.Redoing.{IsAtEntry};

use crate::recover_fault::RecoverFault;
use crate::redoing::damaged_entry;
use disk_model::Disk;
use rec_bytes::DiskFault;
use record_file::MetaFile;
use redo_log::{EntryAnswer, LogReader};

/// The records of the meta file as the log's entries leave them, and the place after the entries.
#[derive(Clone, Copy)]
pub(crate) struct LoggedMetas {
    pub(crate) metas: MetaFile,
    pub(crate) tail: u64,
}

/// Reads the meta file and the log, and tests the form of the log's entries. It only reads.
pub(crate) fn find_metas<D: Disk>(disk: &mut D) -> Result<LoggedMetas, RecoverFault>
    ensures found { D.tells_reads → IfOk result (HasMetas (D.reads disk.old)) }
    ensures refused { D.tells_reads → IfErr result (IsLogFault (D.reads disk.old)) }
    ensures only_reads { OnlyReads D.Disk disk.old disk.new }
    ensures cause { HasCause (D.faults disk.old) (D.faults disk.new) result }
{
    let mut metas = MetaFile::read(disk)?;
    let mut reader = LogReader::new();
    let mut place = 0;
    loop {
        match reader.entry_at(disk, place) {
            EntryAnswer::Entry { count, next } => {
                take_entry(disk, &mut reader, place, count, &mut metas)?;
                place = next;
            }
            EntryAnswer::End => {
                return Ok(LoggedMetas { metas, tail: place });
            }
            EntryAnswer::Disk => return Err(RecoverFault::Disk),
            EntryAnswer::Damaged { place } => return Err(damaged_entry(place)),
        }
    }
}

// Takes over the records of the meta file that the entry at a place has.
fn take_entry<D: Disk>(
    disk: &mut D,
    reader: &mut LogReader,
    place: u64,
    count: u16,
    metas: &mut MetaFile,
) -> Result<(), DiskFault>
    requires { place ≤ last_place }
    ensures taken { D.tells_reads → IsAtEntry (D.reads disk.old) reader.old place count
        → (space : AKey → ARec) → AreMetasOf space metas.old.records
        → OnOk result (AreMetasOf (laid_over space (entry_at (D.reads disk.old) place))
        metas.new.records) }
    ensures keeps { D.tells_reads → IsPieceOf (D.reads disk.old) reader.old
        → IsPieceOf (D.reads disk.new) reader.new }
    ensures only_reads { OnlyReads D.Disk disk.old disk.new }
    ensures cause { disk_cause.HasCause (D.faults disk.old) (D.faults disk.new) result }
{
    for index in 0..count {
        let (key, rec) = reader.write_at(disk, place, index)?;
        metas.put(key, rec);
    }
    Ok(())
}
