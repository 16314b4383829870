ghost use Rattle.std.specs.Prelude.{
  ◌≡◌,
  ◌≢◌,
  ◌↔◌,
  Err,
  IfErr,
  IfOk,
  IsTrue,
  OnOk,
  Some,
};
ghost use Rattle.disk_model.specs.Contents.{Files};
ghost use Rattle.disk_model.specs.Spans.{IsAllSettled, OnlyReads};
ghost use Rattle.rec_bytes.specs.Creation.{own_key};
ghost use Rattle.rec_bytes.specs.Shape.{shape_of_record};
ghost use Rattle.rec_bytes.specs.declared.key.Key.{Key as AKey};
ghost use Rattle.rec_bytes.specs.declared.record.Rec.{Rec as ARec};
ghost use Rattle.redo_log.specs.Redo.{redone};
ghost use Rattle.record_file.specs.MetaFile.{AreMetasOf};
ghost use Rattle.record_file.specs.Records.{IsUnmade, record_at};
ghost use Rattle.record_file.specs.Redone.{Redoes};
ghost use Rattle.recovery.specs.Finding.{
  HasMetasRight,
  IsAllowed,
  IsFound,
  IsIntact,
  Refuses,
  RefusesRecords,
};
ghost use Rattle.recovery.specs.LoggedMetas.{HasMetas};
ghost use Rattle.recovery.specs.RecoverFault.{HasCause};

use crate::found::Found;
use crate::logged_metas::{LoggedMetas, find_metas};
use crate::recover_fault::RecoverFault;
use crate::syncing::sync_files;
use disk_model::Disk;
use rec_bytes::{Damage, META, META_RECORDS, RANGE_RULE, Shape, is_meta_right, version_of};
use record_file::MetaFile;

/// Syncs all files, reads the meta file and the log, and tells what is found. It only reads.
pub(crate) fn find_store<D: Disk>(disk: &mut D) -> Result<Found, RecoverFault>
    ensures found { D.tells_reads → (space : AKey → ARec) → Redoes (D.reads disk.old) space
        → IfOk result (IsFound (D.reads disk.old) space) }
    ensures allowed { IfOk result IsAllowed }
    ensures intact { D.tells_reads → OnOk result (IsIntact (D.reads disk.old)) }
    ensures refused { D.tells_reads → IfErr result (Refuses (D.reads disk.old)) }
    ensures settled { D.tells_reads → D.tells_images → OnOk result (IsAllSettled D.Disk disk.new) }
    ensures only_reads { OnlyReads D.Disk disk.old disk.new }
    ensures cause { HasCause (D.faults disk.old) (D.faults disk.new) result }
{
    sync_files(disk)?; // Each image is what is read.
    let logged = find_metas(disk)?;
    found_of(&logged)
}

// What the records of the meta file stand for.
fn found_of(logged: &LoggedMetas) -> Result<Found, RecoverFault>
    ensures allowed { IfOk result IsAllowed }
    ensures found { (content : Files) (has : HasMetas content logged.now)
        → IfOk result (IsFound content (redone (record_at content) has.entries)) }
    ensures refused { (content : Files) (has : HasMetas content logged.now)
        → IfErr result (RefusesRecords content (redone (record_at content) has.entries)) }
    ensures no_fault { result ≢ Err RecoverFault.Disk }
{
    if let Some(shape) = Shape::of(&logged.metas.own()) {
        check_metas(&logged.metas, shape)?;
        return Ok(Found::Made(shape));
    }
    if is_unmade(logged) {
        return Ok(Found::Unmade);
    }
    Err(RecoverFault::NotAStore)
}

// Whether no entry stands in the log, and nothing in the meta file.
fn is_unmade(logged: &LoggedMetas) -> bool
    ensures { (content : Files) → HasMetas content logged.now → IsTrue result ↔ IsUnmade content }
{
    logged.tail == 0 && logged.metas.is_blank()
}

// Whether the records of the meta file may stand there in a store of this shape, by ascending
// number.
fn check_metas(metas: &MetaFile, shape: Shape) -> Result<(), RecoverFault>
    ensures right { (space : AKey → ARec) → AreMetasOf space metas.now.records
        → OnOk result (HasMetasRight space shape) }
    ensures wrong { (space : AKey → ARec) → AreMetasOf space metas.now.records
        → shape_of_record (space own_key) ≡ Some shape → (content : Files)
        → IfErr result (RefusesRecords content space) }
    ensures no_fault { result ≢ Err RecoverFault.Disk }
{
    let version = version_of(&metas.own());
    for id in 0..META_RECORDS {
        if !is_meta_right(&metas.at(id), id, version, shape) {
            return Err(RecoverFault::Damaged(Damage {
                file: META,
                id,
                rule: RANGE_RULE,
            }));
        }
    }
    Ok(())
}
