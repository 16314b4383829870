//! The draft without the records that it leaves as they were.

ghost use Rattle.std.specs.Prelude.{◌≡◌, ◌+◌, ◌<◌, ◌≤◌, ◌↔◌, [], IfOk, IsTrue, OnErr, OnOk, length};
ghost use Rattle.fault_count.specs.Cause.{HasCause};
ghost use Rattle.rec_bytes.specs.Key.{IsKey};
ghost use Rattle.rec_bytes.specs.Pairs.{IsOrdered};
ghost use Rattle.rec_bytes.specs.Space.{HasCause as HasSpaceCause};
ghost use Rattle.txn_core.specs.Base.{OnlyReadsBase, working};
ghost use Rattle.txn_core.specs.Changed.{HasChanged, PutsChanged};

use crate::Store;
use crate::base::Base;
use disk_model::Disk;
use rec_bytes::{DiskFault, Key, Rec, SpaceFault, WriteSet};
use std::mem::swap;

impl<'d, D: Disk> Store<'d, D> {
    /// Drops the draft's records that the open transaction has as they are. It reads the record
    /// beneath each once, through the kept pages. An error leaves the draft as it was.
    pub fn drop_unchanged(&mut self) -> Result<(), SpaceFault>
        ensures changed { OnOk result (HasChanged D.tells_reads (working self.old.base)
            self.old.draft.pairs self.new.draft.pairs) }
        ensures rising { OnOk result (IsOrdered self.new.draft.pairs) }
        ensures refused { OnErr result (self.new.draft.pairs ≡ self.old.draft.pairs) }
        ensures reads { self.new.reads ≡ self.old.reads }
        ensures onward { OnlyReadsBase self.old.base self.new.base }
        ensures cause { HasSpaceCause (D.faults self.old.base.disk.now)
            (D.faults self.new.base.disk.now) result }
    {
        self.spare.clear();
        if self.spare.reserve(self.draft.len()).is_err() {
            return Err(SpaceFault::Memory);
        }
        match put_all_changed(&mut self.base, &self.draft, &mut self.spare) {
            Ok(()) => {
                swap(&mut self.draft, &mut self.spare);
                let _count = self.draft.len(); // Its contract says that the keys rise.
                Ok(())
            }
            Err(_) => Err(SpaceFault::Disk),
        }
    }
}

impl<'d, D: Disk> Base<'d, D> {
    // Whether the open transaction has this record at the key.
    fn has(&mut self, key: Key, rec: &Rec) -> Result<bool, DiskFault>
        requires { IsKey key }
        ensures is { D.tells_reads
            → IfOk result (λ has. IsTrue has ↔ (rec.now ≡ working self.old key)) }
        ensures onward { OnlyReadsBase self.old self.new }
        ensures cause { HasCause (D.faults self.old.disk.now) (D.faults self.new.disk.now) result }
    {
        let mut beneath = Rec::ZEROS;
        match self.fetch_into(key, &mut beneath) {
            Ok(_) => Ok(*rec == beneath),
            Err(fault) => Err(fault),
        }
    }
}

// Puts each record of a draft that differs from the one beneath it into an empty set.
fn put_all_changed<D: Disk>(
    base: &mut Base<'_, D>,
    draft: &WriteSet,
    changed: &mut WriteSet,
) -> Result<(), DiskFault>
    requires empty { changed.old.pairs ≡ [] }
    requires room { length draft.now.pairs ≤ changed.old.room }
    ensures changed { OnOk result (HasChanged D.tells_reads (working base.old) draft.now.pairs
        changed.new.pairs) }
    ensures onward { OnlyReadsBase base.old base.new }
    ensures cause { HasCause (D.faults base.old.disk.now) (D.faults base.new.disk.now) result }
{
    for i in 0..draft.len() {
        let (key, rec) = draft.at(i);
        put_changed(base, key, rec, changed)?;
    }
    Ok(())
}

// Puts the record, if it differs from the one beneath it.
fn put_changed<D: Disk>(
    base: &mut Base<'_, D>,
    key: Key,
    rec: Rec,
    changed: &mut WriteSet,
) -> Result<(), DiskFault>
    requires key { IsKey key }
    requires room { 0 < changed.old.room }
    ensures puts { OnOk result (PutsChanged D.tells_reads (working base.old) key rec
        changed.old.pairs changed.new.pairs) }
    ensures room { changed.old.room ≤ changed.new.room + 1 }
    ensures onward { OnlyReadsBase base.old base.new }
    ensures cause { HasCause (D.faults base.old.disk.now) (D.faults base.new.disk.now) result }
{
    match base.has(key, &rec) {
        Ok(true) => Ok(()),
        Ok(false) => {
            changed.put_reserved(key, rec);
            Ok(())
        }
        Err(fault) => Err(fault),
    }
}
