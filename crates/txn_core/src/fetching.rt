ghost use Rattle.std.specs.Prelude.{◌≡◌, IfOk, OnErr, OnOk, is_ok, is_some, true};
ghost use Rattle.fault_count.specs.Cause.{HasCause};
ghost use Rattle.rec_bytes.specs.Key.{IsKey};
ghost use Rattle.rec_bytes.specs.Pairs.{find_pair, held_at};
ghost use Rattle.rec_bytes.specs.RecordFiles.{is_meta_file, meta_key_of};
ghost use Rattle.rec_bytes.specs.Space.{meta_in};
ghost use Rattle.txn_core.specs.Base.{OnlyReadsBase, committed, working};
ghost use Rattle.txn_core.specs.Through.{ReadsThrough, at_hand, holds_committed, holds_working};

use crate::base::Base;
use disk_model::Disk;
use rec_bytes::{DiskFault, Key, Meta, Rec, WriteSet, meta_key};

impl<'d, D: Disk> Base<'d, D> {
    // Reads the record at a key, as the open transaction has it, into the caller's, which an error
    // leaves as it was, and says whether it is at hand from now on. If it was, the disk isn't
    // called; else it is called once.
    pub(crate) fn fetch_into(&mut self, key: Key, rec: &mut Rec) -> Result<bool, DiskFault>
        requires { IsKey key }
        ensures got { D.tells_reads → OnOk result (rec.new ≡ working self.old key) }
        ensures err { OnErr result (rec.new ≡ rec.old) }
        ensures through { ReadsThrough (holds_working self.old key) key self.old self.new
            (is_ok result) }
        ensures told { IfOk result
            (λ held. held ≡ at_hand (holds_working self.new key) key self.new) }
        ensures records { working self.new ≡ working self.old }
        ensures onward { OnlyReadsBase self.old self.new }
        ensures cause { HasCause (D.faults self.old.disk.now) (D.faults self.new.disk.now) result }
    {
        if found_into(&self.own, key, rec) {
            return Ok(true);
        }
        self.fetch_committed_into(key, rec)
    }

    // Reads the record at a key, as it is committed, into the caller's, which an error leaves as it
    // was, and says whether it is at hand from now on. If it was, the disk isn't called; else it is
    // called once.
    pub(crate) fn fetch_committed_into(
        &mut self,
        key: Key,
        rec: &mut Rec,
    ) -> Result<bool, DiskFault>
        requires { IsKey key }
        ensures got { D.tells_reads → OnOk result (rec.new ≡ committed self.old key) }
        ensures err { OnErr result (rec.new ≡ rec.old) }
        ensures through { ReadsThrough (holds_committed self.old key) key self.old self.new
            (is_ok result) }
        ensures told { IfOk result
            (λ held. held ≡ at_hand (holds_committed self.new key) key self.new) }
        ensures records { committed self.new ≡ committed self.old }
        ensures onward { OnlyReadsBase self.old self.new }
        ensures cause { HasCause (D.faults self.old.disk.now) (D.faults self.new.disk.now) result }
    {
        if found_into(&self.changed, key, rec) {
            return Ok(true);
        }
        if let Some(meta) = self.metas.find(key) {
            *rec = meta;
            return Ok(true);
        }
        self.cache.get_into(self.disk, key, rec)
    }

    // What the meta record of a file says, as the open transaction has it. It is one of the numbers
    // in memory.
    pub(crate) fn meta(&self, file: u8) -> Meta
        requires { is_meta_file file ≡ true }
        ensures { result ≡ meta_in (working self.now) file }
    {
        self.marks.of_file(file)
    }

    // The meta record of a file as it is committed.
    pub(crate) fn committed_meta(&self, file: u8) -> Rec
        requires { is_meta_file file ≡ true }
        ensures { result ≡ committed self.now (meta_key_of file) }
    {
        let mut rec = self.metas.of_file(file);
        found_into(&self.changed, meta_key(file), &mut rec);
        rec
    }
}

/// Reads the record of a set at a key into the caller's, which stays where there is none, and says
/// whether there is one. A set that has none costs a compare.
pub(crate) fn found_into(set: &WriteSet, key: Key, rec: &mut Rec) -> bool
    ensures found { result ≡ is_some (find_pair set.now.pairs key) }
    ensures rec { rec.new ≡ held_at set.now.pairs key rec.old }
{
    set.len() > 0 && set.find_into(key, rec)
}
