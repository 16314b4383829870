ghost use Rattle.std.specs.Prelude.{◌≡◌, ◌≢◌, ◌⊎◌, [], IfErr, IfOk, OnOk};
ghost use Rattle.disk_model.specs.Spans.{AtEachMoment, IsAllSettled, OnlyReads};
ghost use Rattle.rec_bytes.specs.declared.key.Key.{Key as AKey};
ghost use Rattle.rec_bytes.specs.declared.record.Rec.{Rec as ARec};
ghost use Rattle.rec_bytes.specs.Format.{log_file};
ghost use Rattle.redo_log.specs.Entries.{HasEntries, open_byte};
ghost use Rattle.record_file.specs.Records.{IsUnmade, record_at};
ghost use Rattle.record_file.specs.Redone.{Redoes};
ghost use Rattle.recovery.specs.Finding.{IsAllowed, IsCareful, IsFound, IsIntact, Refuses, Stands};
ghost use Rattle.recovery.specs.RecoverFault.{BlamesDisk, HasCause};

use crate::finding::find_store;
use crate::found::Found;
use crate::recover_fault::RecoverFault;
use crate::redoing::redo;
use disk_model::Disk;

/// Brings a disk into order after a stop: tests the log and the meta records, and then brings what
/// the log's entries say into the files of records and takes the entries away. All files are synced
/// before the tests, and again only where the log has an entry. It takes no memory, may be stopped
/// at any moment and run again, and writes nothing where it refuses the disk.
pub fn recover<D: Disk>(disk: &mut D) -> Result<Found, RecoverFault>
    // A stop at any moment leaves an image from before, or a content that redoes to what was read
    // at the start.
    ensures crash { D.tells_reads → D.tells_images → (space : AKey → ARec)
        → Redoes (D.reads disk.old) space
        → AtEachMoment D.Disk disk.old disk.new
        (λ content. D.may_leave disk.old content ⊎ Redoes content space) }
    ensures unmade { D.tells_reads → D.tells_images → IsUnmade (D.reads disk.old)
        → AtEachMoment D.Disk disk.old disk.new
        (λ content. D.may_leave disk.old content ⊎ IsUnmade content) }

    // What is read redoes to the same, also after a failure. After success it is the space itself,
    // with no entry, and nothing is pending.
    ensures read { D.tells_reads → (space : AKey → ARec) → Redoes (D.reads disk.old) space
        → Redoes (D.reads disk.new) space }
    ensures space { D.tells_reads → (space : AKey → ARec) → Redoes (D.reads disk.old) space
        → OnOk result (record_at (D.reads disk.new) ≡ space) }
    ensures emptied { D.tells_reads → OnOk result (HasEntries (D.reads disk.new) [] 0) }
    ensures settled { D.tells_reads → D.tells_images → OnOk result (IsAllSettled D.Disk disk.new) }

    // What is found is what stands there, and it succeeds only over a log of the right form.
    ensures found { D.tells_reads → (space : AKey → ARec) → Redoes (D.reads disk.old) space
        → IfOk result (IsFound (D.reads disk.old) space) }
    ensures allowed { IfOk result IsAllowed }
    ensures intact { D.tells_reads → OnOk result (IsIntact (D.reads disk.old)) }

    // A refusal has its cause in what is read, and changes nothing. A store, or a disk where none
    // was made, is never refused.
    ensures refused { D.tells_reads → IfErr result (Refuses (D.reads disk.old)) }
    ensures untouched { D.tells_reads
        → IfErr result (λ fault. fault ≢ RecoverFault.Disk → OnlyReads D.Disk disk.old disk.new) }
    ensures sound { D.tells_reads → (space : AKey → ARec) → Redoes (D.reads disk.old) space
        → Stands (D.reads disk.old) space → BlamesDisk result }

    // Also where the disk fails, it writes only over a store or where none was made, and only where
    // the log has an entry.
    ensures careful { IsCareful D.Disk disk.old disk.new }
    ensures closed { D.tells_reads → D.reads disk.old log_file 0 ≢ open_byte
        → OnlyReads D.Disk disk.old disk.new }

    ensures cause { HasCause (D.faults disk.old) (D.faults disk.new) result }
{
    let found = find_store(disk)?;
    redo(disk)?;
    Ok(found)
}
