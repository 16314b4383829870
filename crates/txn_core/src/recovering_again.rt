ghost use Rattle.std.specs.Prelude.{
  ◌≡◌,
  ◌≢◌,
  ◌⊎◌,
  ◌≤◌,
  [],
  Err,
  IfErr,
  IfOk,
  OnErr,
  OnOk,
  false,
};
ghost use Rattle.fault_count.specs.Cause.{Rose};
ghost use Rattle.disk_model.specs.Spans.{AtEachMoment, IsAllSettled, OnlyReads};
ghost use Rattle.rec_bytes.specs.declared.key.Key.{Key as AKey};
ghost use Rattle.rec_bytes.specs.declared.record.Rec.{Rec as ARec};
ghost use Rattle.rec_bytes.specs.Format.{log_file};
ghost use Rattle.redo_log.specs.Entries.{HasEntries, open_byte};
ghost use Rattle.record_file.specs.Records.{record_at};
ghost use Rattle.record_file.specs.Redone.{Redoes};
ghost use Rattle.recovery.specs.Finding.{IsCareful, IsMade};
ghost use Rattle.txn_core.specs.Again.{IsOld, IsRecovered, RefusesAgain, own_damage};
ghost use Rattle.txn_core.specs.Base.{SameStore, content};
ghost use Rattle.record_file.specs.MetaFile.{AreMetasOf};
ghost use Rattle.txn_core.specs.Opening.{HoldsStore};

use crate::AgainFault;
use crate::base::Base;
use crate::marks::Marks;
use disk_model::Disk;
use rec_bytes::{Damage, META, RANGE_RULE, Shape, VERSION, version_of};
use record_file::MetaFile;
use recovery::{Found, RecoverFault, recover};

/// The store's own record isn't that of this store: it breaks the rule of the meta records.
const OWN_DAMAGE: Damage = Damage {
    file: META,
    id: 0,
    rule: RANGE_RULE,
};

impl<'d, D: Disk> Base<'d, D> {
    // Finds what the disk has, and serves it again.
    pub(crate) fn recover_again(&mut self) -> Result<(), AgainFault>
        ensures crash { D.tells_reads → D.tells_images → (space : AKey → ARec)
            → Redoes (content self.old) space
            → AtEachMoment D.Disk self.old.disk.now self.new.disk.now
            (λ left. D.may_leave self.old.disk.now left ⊎ Redoes left space) }
        ensures done { OnOk result (IsRecovered self.old self.new) }
        ensures read { D.tells_reads → (space : AKey → ARec) → Redoes (content self.old) space
            → Redoes (content self.new) space }
        ensures failed { OnErr result (self.new.live ≡ false) }
        ensures careful { IsCareful D.Disk self.old.disk.now self.new.disk.now }
        ensures clean { D.tells_reads → content self.old log_file 0 ≢ open_byte
            → OnlyReads D.Disk self.old.disk.now self.new.disk.now }
        ensures refused { D.tells_reads
            → IfErr result (RefusesAgain (content self.old) self.old.shape) }
        ensures sound { D.tells_reads → (space : AKey → ARec) → Redoes (content self.old) space
            → IsMade space self.old.shape → ¬ IsOld space
            → IfErr result (λ fault. fault ≡ AgainFault.Disk) }
        ensures own { self.new.own ≡ self.old.own }
        ensures in_transaction { self.new.in_transaction ≡ self.old.in_transaction }
        ensures same { SameStore self.old self.new }
        ensures cause { result ≡ Err AgainFault.Disk
            → Rose (D.faults self.old.disk.now) (D.faults self.new.disk.now) }
        ensures later { D.faults self.old.disk.now ≤ D.faults self.new.disk.now }
    {
        self.live = false;
        self.cache.clear();
        self.metas = find_again(self.disk, self.shape)?;
        self.changed.clear();
        self.marks = Marks::over(&self.metas, &self.changed, &self.own);
        self.tail = 0;
        self.live = true;
        Ok(())
    }
}

// Recovers the disk of a store of this shape, and reads its meta records.
fn find_again<D: Disk>(disk: &mut D, shape: Shape) -> Result<MetaFile, AgainFault>
    ensures crash { D.tells_reads → D.tells_images → (space : AKey → ARec)
        → Redoes (D.reads disk.old) space
        → AtEachMoment D.Disk disk.old disk.new
        (λ left. D.may_leave disk.old left ⊎ Redoes left space) }
    ensures read { D.tells_reads → (space : AKey → ARec) → Redoes (D.reads disk.old) space
        → Redoes (D.reads disk.new) space }
    ensures space { D.tells_reads → (space : AKey → ARec) → Redoes (D.reads disk.old) space
        → OnOk result (record_at (D.reads disk.new) ≡ space) }
    ensures emptied { D.tells_reads → OnOk result (HasEntries (D.reads disk.new) [] 0) }
    ensures settled { D.tells_reads → D.tells_images → OnOk result (IsAllSettled D.Disk disk.new) }
    ensures store { D.tells_reads → OnOk result (HoldsStore (D.reads disk.old) shape) }
    ensures newest { D.tells_reads → OnOk result (¬ IsOld (record_at (D.reads disk.new))) }
    ensures metas { D.tells_reads
        → IfOk result (λ metas. AreMetasOf (record_at (D.reads disk.new)) metas.records) }
    ensures careful { IsCareful D.Disk disk.old disk.new }
    ensures clean { D.tells_reads → D.reads disk.old log_file 0 ≢ open_byte
        → OnlyReads D.Disk disk.old disk.new }
    ensures refused { D.tells_reads → IfErr result (RefusesAgain (D.reads disk.old) shape) }
    ensures sound { D.tells_reads → (space : AKey → ARec) → Redoes (D.reads disk.old) space
        → IsMade space shape → ¬ IsOld space → IfErr result (λ fault. fault ≡ AgainFault.Disk) }
    ensures cause { result ≡ Err AgainFault.Disk → Rose (D.faults disk.old) (D.faults disk.new) }
    ensures later { D.faults disk.old ≤ D.faults disk.new }
{
    match recover(disk) {
        Ok(Found::Made(found)) => read_same(disk, found, shape),
        Ok(Found::Unmade) => Err(AgainFault::Damaged(OWN_DAMAGE)),
        Err(RecoverFault::NotAStore) => Err(AgainFault::Damaged(OWN_DAMAGE)),
        Err(RecoverFault::Damaged(damage)) => Err(AgainFault::Damaged(damage)),
        Err(RecoverFault::Disk) => Err(AgainFault::Disk),
    }
}

// Reads the meta records of a store that was found, if it is of this shape and of the newest
// version.
fn read_same<D: Disk>(disk: &mut D, found: Shape, shape: Shape) -> Result<MetaFile, AgainFault>
    ensures same { OnOk result (found ≡ shape) }
    ensures other { D.tells_reads
        → IfErr result (λ fault. (fault ≡ AgainFault.Disk)
        ⊎ ((fault ≡ AgainFault.Damaged own_damage)
        × ((¬ (found ≡ shape)) ⊎ IsOld (record_at (D.reads disk.old))))) }
    ensures newest { D.tells_reads → OnOk result (¬ IsOld (record_at (D.reads disk.old))) }
    ensures metas { D.tells_reads
        → IfOk result (λ metas. AreMetasOf (record_at (D.reads disk.old)) metas.records) }
    ensures only_reads { OnlyReads D.Disk disk.old disk.new }
    ensures cause { result ≡ Err AgainFault.Disk → Rose (D.faults disk.old) (D.faults disk.new) }
    ensures later { D.faults disk.old ≤ D.faults disk.new }
{
    if found != shape {
        return Err(AgainFault::Damaged(OWN_DAMAGE));
    }
    let Ok(metas) = MetaFile::read(disk) else {
        return Err(AgainFault::Disk);
    };
    if version_of(&metas.own()) < VERSION {
        return Err(AgainFault::Damaged(OWN_DAMAGE));
    }
    Ok(metas)
}
