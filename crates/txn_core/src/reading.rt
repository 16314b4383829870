//! Reads of one record, through the kept pages.

ghost use Rattle.std.specs.Prelude.{◌≡◌, ◌≤◌, IfOk, OnErr, OnOk, is_ok, length};
ghost use Rattle.fault_count.specs.Cause.{HasCause};
ghost use Rattle.rec_bytes.specs.Key.{IsKey};
ghost use Rattle.rec_bytes.specs.Space.{after_get};
ghost use Rattle.txn_core.specs.Kept.{kept_pages};

use crate::Store;
use crate::base::Base;
use crate::fetching::found_into;
use disk_model::Disk;
use rec_bytes::{DiskFault, Key, Rec};

impl<'d, D: Disk> Base<'d, D> {
    // How many pages of records are kept.
    fn pages(&self) -> usize
        ensures value { result ≡ length self.now.cache.entries }
        ensures few { result ≤ kept_pages }
    {
        self.cache.len()
    }
}

impl<'d, D: Disk> Store<'d, D> {
    ghost use Rattle.txn_core.specs.Committed.{OnlyReadsStore};
    ghost use Rattle.txn_core.specs.Store.{drafted, state_of};
    ghost use Rattle.txn_core.specs.Through.{ReadsThrough, at_hand, holds_drafted};

    /// Reads the record at a key, with the draft, into the caller's, which an error leaves as it
    /// was, and says whether it is at hand from now on. If it isn't, there was no memory for its
    /// page. If it was, the disk isn't called; else it is called once.
    pub fn read_into(&mut self, key: Key, rec: &mut Rec) -> Result<bool, DiskFault>
        requires { IsKey key }
        ensures got { D.tells_reads → OnOk result (rec.new ≡ drafted self.old key) }
        ensures err { OnErr result (rec.new ≡ rec.old) }
        ensures through { ReadsThrough (holds_drafted self.old key) key self.old.base
            self.new.base (is_ok result) }
        ensures told { IfOk result
            (λ held. held ≡ at_hand (holds_drafted self.new key) key self.new.base) }
        ensures state { state_of self.new ≡ after_get (state_of self.old) }
        ensures onward { OnlyReadsStore self.old self.new }
        ensures cause { HasCause (D.faults self.old.base.disk.now)
            (D.faults self.new.base.disk.now) result }
    {
        self.reads = self.reads.saturating_add(1);
        if found_into(&self.draft, key, rec) {
            return Ok(true);
        }
        self.base.fetch_into(key, rec)
    }

    /// How many pages of records are kept.
    pub fn pages(&self) -> usize
        ensures value { result ≡ length self.now.base.cache.entries }
        ensures few { result ≤ kept_pages }
    {
        self.base.pages()
    }
}
