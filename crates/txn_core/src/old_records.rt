//! What a commit replaces: the committed records, and those that it is to write.

ghost use Rattle.std.specs.Prelude.{◌≡◌, ◌≤◌, ◌<◌, IfOk, OnErr, OnOk, is_ok, length, true};
ghost use Rattle.fault_count.specs.Cause.{HasCause, raised};
ghost use Rattle.rec_bytes.specs.Format.{most_writes};
ghost use Rattle.rec_bytes.specs.Key.{IsKey};
ghost use Rattle.rec_bytes.specs.Pairs.{IsOrdered};
ghost use Rattle.rec_bytes.specs.RecordFiles.{is_meta_file, meta_key_of};

use crate::Store;
use crate::base::Base;
use crate::space::copy_of;
use disk_model::Disk;
use rec_bytes::{DiskFault, Key, Rec};
use snap_store::Pending;

impl<'d, D: Disk> Base<'d, D> {
    // How many records the open transaction has written.
    fn own_len(&self) -> usize
        ensures value { result ≡ length self.now.own.pairs }
        ensures rising { IsOrdered self.now.own.pairs }
        ensures few { result ≤ most_writes }
    {
        self.own.len()
    }
}

impl<'d, D: Disk> Store<'d, D> {
    ghost use Rattle.txn_core.specs.Committed.{OnlyReadsStore};
    ghost use Rattle.txn_core.specs.Store.{committed};
    ghost use Rattle.txn_core.specs.Through.{ReadsThrough, at_hand, holds_committed};

    /// The committed record at a key, whatever the open transaction has written.
    pub fn old(&mut self, key: Key) -> Result<Rec, DiskFault>
        requires { IsKey key }
        ensures got { D.tells_reads → IfOk result (λ rec. rec ≡ committed self.old key) }
        ensures whole { IfOk result (λ rec. length rec.bytes ≡ 64) }
        ensures through { ReadsThrough (holds_committed self.old.base key) key self.old.base
            self.new.base (is_ok result) }
        ensures committed { committed self.new ≡ committed self.old }
        ensures reads { self.new.reads ≡ raised self.old.reads }
        ensures onward { OnlyReadsStore self.old self.new }
        ensures cause { HasCause (D.faults self.old.base.disk.now)
            (D.faults self.new.base.disk.now) result }
    {
        let mut rec = Rec::ZEROS;
        match self.old_into(key, &mut rec) {
            Ok(_) => Ok(copy_of(&rec)),
            Err(fault) => Err(fault),
        }
    }

    /// Reads the committed record at a key into the caller's, which an error leaves as it was, and
    /// says whether it is at hand from now on. If it isn't, there was no memory for its page. If it
    /// was, the disk isn't called; else it is called once.
    pub fn old_into(&mut self, key: Key, rec: &mut Rec) -> Result<bool, DiskFault>
        requires { IsKey key }
        ensures got { D.tells_reads → OnOk result (rec.new ≡ committed self.old key) }
        ensures err { OnErr result (rec.new ≡ rec.old) }
        ensures through { ReadsThrough (holds_committed self.old.base key) key self.old.base
            self.new.base (is_ok result) }
        ensures told { IfOk result
            (λ held. held ≡ at_hand (holds_committed self.new.base key) key self.new.base) }
        ensures committed { committed self.new ≡ committed self.old }
        ensures reads { self.new.reads ≡ raised self.old.reads }
        ensures onward { OnlyReadsStore self.old self.new }
        ensures cause { HasCause (D.faults self.old.base.disk.now)
            (D.faults self.new.base.disk.now) result }
    {
        self.reads = self.reads.saturating_add(1);
        self.base.fetch_committed_into(key, rec)
    }

    // The meta record of a file as it is committed.
    pub(crate) fn committed_meta(&self, file: u8) -> Rec
        requires { is_meta_file file ≡ true }
        ensures { result ≡ committed self.now (meta_key_of file) }
    {
        self.base.committed_meta(file)
    }
}

impl<'d, D: Disk> Pending for Store<'d, D> {
    ghost use Rattle.txn_core.specs.Committed.{OnlyReadsStore, store_more, store_none};
    ghost use Rattle.txn_core.specs.Store as stores;

    ghost tells = { D.tells_reads };

    ghost committed = { λ s. stores.committed s };

    ghost pending = { λ s. s.base.own.pairs };

    ghost faults = { λ s. D.faults s.base.disk.now };

    ghost onward = { λ a b. OnlyReadsStore a b };

    ghost stays_onward = { λ a. store_none D.only_now a };

    ghost further_onward = { λ a b c first more. store_more first more };

    fn pending_len(&self) -> usize {
        self.base.own_len()
    }

    fn pending_at(&self, i: usize) -> (Key, Rec) {
        self.base.own.at(i)
    }

    fn old(&mut self, key: Key) -> Result<Rec, DiskFault> {
        Store::old(self, key)
    }
}
