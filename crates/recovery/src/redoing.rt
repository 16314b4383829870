ghost use Rattle.std.specs.Prelude.{◌≡◌, ◌≢◌, ◌≤◌, [], List, ℕ, IfOk, OnOk, false};
ghost use Rattle.disk_model.specs.Spans.{AtEachMoment, IsAllSettled, OnlyReads};
ghost use Rattle.rec_bytes.specs.declared.key.Key.{Key as AKey};
ghost use Rattle.rec_bytes.specs.declared.record.Rec.{Rec as ARec};
ghost use Rattle.rec_bytes.specs.Format.{log_file};
ghost use Rattle.rec_bytes.specs.Pairs.{Pairs};
ghost use Rattle.rec_bytes.specs.Space.{laid_over};
ghost use Rattle.redo_log.specs.Entries.{HasEntries, entry_at, last_place, open_byte};
ghost use Rattle.redo_log.specs.Reading.{IsPieceOf};
ghost use Rattle.redo_log.specs.Redo.{redone};
ghost use Rattle.record_file.specs.Records.{IsTornInRecords, IsUnmade, SameButRecords, record_at};
ghost use Rattle.record_file.specs.Redone.{Redoes};
ghost use Rattle.recovery.specs.RecoverFault.{BlamesDisk, HasCause, log_rule};
ghost use Rattle.recovery.specs.Redoing.{IsAtEntry, IsTornInLogged, SameButLogged};

use crate::recover_fault::RecoverFault;
use crate::syncing::sync_record_files;
use disk_model::Disk;
use rec_bytes::{Damage, LOG};
use record_file::Run;
use redo_log::{EntryAnswer, LogReader, reset};

/// The rule of the log: an open gate stands over an entry.
pub(crate) const ENTRY_RULE: u8 = 0;

/// Brings what the log says into the files of records, and takes its entries away. The disk must be
/// settled, so that each image is what is read. Where the log has no entry, the disk is only read,
/// and no file is synced again.
pub(crate) fn redo<D: Disk>(disk: &mut D) -> Result<(), RecoverFault>
    // A stop at any moment leaves a content that redoes to the same.
    ensures crash { D.tells_reads → D.tells_images → IsAllSettled D.Disk disk.old
        → (space : AKey → ARec) → Redoes (D.reads disk.old) space
        → AtEachMoment D.Disk disk.old disk.new (λ content. Redoes content space) }
    ensures unmade { D.tells_reads → D.tells_images → IsAllSettled D.Disk disk.old
        → IsUnmade (D.reads disk.old) → AtEachMoment D.Disk disk.old disk.new IsUnmade }
    ensures read { D.tells_reads → (space : AKey → ARec) → Redoes (D.reads disk.old) space
        → Redoes (D.reads disk.new) space }
    ensures space { D.tells_reads → (space : AKey → ARec) → Redoes (D.reads disk.old) space
        → OnOk result (record_at (D.reads disk.new) ≡ space) }
    ensures emptied { D.tells_reads → OnOk result (HasEntries (D.reads disk.new) [] 0) }
    ensures settled { D.tells_reads → D.tells_images → IsAllSettled D.Disk disk.old
        → OnOk result (IsAllSettled D.Disk disk.new) }
    ensures sound { D.tells_reads → (space : AKey → ARec) → Redoes (D.reads disk.old) space
        → BlamesDisk result }

    // A log with no entry is left as it is, and so is the rest of the disk.
    ensures closed { D.tells_reads → D.reads disk.old log_file 0 ≢ open_byte
        → OnlyReads D.Disk disk.old disk.new }

    ensures cause { HasCause (D.faults disk.old) (D.faults disk.new) result }
{
    if !redo_entries(disk)? {
        return Ok(());
    }
    sync_record_files(disk)?; // All records are stable.
    reset(disk)?;
    Ok(())
}

// Writes the records of the log's entries in their files, one entry after the other, and says
// whether there is one.
fn redo_entries<D: Disk>(disk: &mut D) -> Result<bool, RecoverFault>
    ensures redone { D.tells_reads → (entries : List Pairs) (tail : ℕ)
        → HasEntries (D.reads disk.old) entries tail
        → OnOk result (record_at (D.reads disk.new)
        ≡ redone (record_at (D.reads disk.old)) entries) }
    ensures elsewhere { D.tells_reads → (entries : List Pairs) (tail : ℕ)
        → HasEntries (D.reads disk.old) entries tail
        → SameButLogged entries (D.reads disk.old) (D.reads disk.new) }
    ensures crash { D.tells_reads → D.tells_images → (entries : List Pairs) (tail : ℕ)
        → HasEntries (D.reads disk.old) entries tail
        → AtEachMoment D.Disk disk.old disk.new (IsTornInLogged (D.may_leave disk.old) entries) }
    ensures sound { D.tells_reads → (entries : List Pairs) (tail : ℕ)
        → HasEntries (D.reads disk.old) entries tail → BlamesDisk result }
    ensures closed { D.tells_reads → D.reads disk.old log_file 0 ≢ open_byte
        → OnlyReads D.Disk disk.old disk.new }
    ensures untouched { IfOk result (λ some. some ≡ false → OnlyReads D.Disk disk.old disk.new) }
    ensures none { D.tells_reads
        → IfOk result (λ some. some ≡ false → D.reads disk.old log_file 0 ≢ open_byte) }
    ensures cause { HasCause (D.faults disk.old) (D.faults disk.new) result }
{
    let mut reader = LogReader::new();
    let mut place = 0;
    let mut some = false;
    loop {
        match reader.entry_at(disk, place) {
            EntryAnswer::Entry { count, next } => {
                redo_entry(disk, &mut reader, place, count)?;
                place = next;
                some = true;
            }
            EntryAnswer::End => return Ok(some),
            EntryAnswer::Disk => return Err(RecoverFault::Disk),
            EntryAnswer::Damaged { place } => return Err(damaged_entry(place)),
        }
    }
}

// Writes the records of the entry at a place in their files. A key is tested once more, since a
// disk that doesn't tell its reads may read otherwise than before.
fn redo_entry<D: Disk>(
    disk: &mut D,
    reader: &mut LogReader,
    place: u64,
    count: u16,
) -> Result<(), RecoverFault>
    requires { place ≤ last_place }
    ensures written { D.tells_reads → IsAtEntry (D.reads disk.old) reader.old place count
        → OnOk result (record_at (D.reads disk.new)
        ≡ laid_over (record_at (D.reads disk.old)) (entry_at (D.reads disk.old) place)) }
    ensures elsewhere { D.tells_reads → IsAtEntry (D.reads disk.old) reader.old place count
        → SameButRecords (entry_at (D.reads disk.old) place) (D.reads disk.old) (D.reads disk.new) }
    ensures keeps { D.tells_reads → IsAtEntry (D.reads disk.old) reader.old place count
        → IsPieceOf (D.reads disk.new) reader.new }
    ensures crash { D.tells_reads → D.tells_images
        → IsAtEntry (D.reads disk.old) reader.old place count
        → AtEachMoment D.Disk disk.old disk.new
        (IsTornInRecords (D.may_leave disk.old) (entry_at (D.reads disk.old) place)) }
    ensures sound { D.tells_reads → IsAtEntry (D.reads disk.old) reader.old place count
        → BlamesDisk result }
    ensures cause { HasCause (D.faults disk.old) (D.faults disk.new) result }
{
    let mut run = Run::new();
    for index in 0..count {
        let (key, rec) = reader.write_at(disk, place, index)?;
        if !key.is_valid() {
            return Err(damaged_entry(place));
        }
        run.put(disk, key, rec)?;
    }
    run.write(disk)?;
    Ok(())
}

/// No entry stands at a place of the log whose gate is open.
pub(crate) fn damaged_entry(place: u64) -> RecoverFault
    requires { place ≤ last_place }
    ensures { result ≡ RecoverFault.Damaged
        (record { file = log_file; id = place; rule = log_rule }) }
{
    RecoverFault::Damaged(Damage {
        file: LOG,
        id: place as u32,
        rule: ENTRY_RULE,
    })
}
