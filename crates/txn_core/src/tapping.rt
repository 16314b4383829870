//! What a commit hands to followers.

ghost use Rattle.std.specs.Prelude.{◌≡◌, ◌≤◌, ◌↔◌, [], IsTrue, length};
ghost use Rattle.rec_bytes.specs.Format.{most_writes};
ghost use Rattle.rec_bytes.specs.Pairs.{IsOrdered};
ghost use Rattle.redo_log.specs.Appending.{AreWhole};
ghost use Rattle.txn_core.specs.Shipped.{AllShip, is_kept_back, is_shipped};

use crate::Store;
use disk_model::Disk;
use rec_bytes::{Key, META, OWN_KEY, Shape, TAKEN, WriteSet, room_of};

/// The key of the record that has the number of the last transaction that was taken over.
pub const TAKEN_KEY: Key = Key {
    file: META,
    id: TAKEN,
};

/// Whether a shipment may have the record of this key, in a store of this shape.
pub fn is_shipped(shape: Shape, key: Key) -> bool
    ensures { result ≡ is_shipped shape key }
{
    (key.id as u64) < room_of(key.file, shape) && !is_kept_back(key.file, key.id as u64)
}

/// Whether it is the key of the store's own record, or of the one with the number.
pub fn is_kept_back(file: u8, id: u64) -> bool
    ensures { result ≡ is_kept_back (record { file = file; id = id }) }
{
    file == META && (id == OWN_KEY.id as u64 || id == TAKEN as u64)
}

impl<'d, D: Disk> Store<'d, D> {
    /// Puts what the open transaction has written into an empty set. It takes no memory.
    pub fn tap(&self, tap: &mut WriteSet)
        requires empty { tap.old.pairs ≡ [] }
        requires room { most_writes ≤ tap.old.room }
        ensures pairs { tap.new.pairs ≡ self.now.base.own.pairs }
        ensures few { length tap.new.pairs ≤ most_writes }
        ensures rising { IsOrdered tap.new.pairs }
        ensures whole { AreWhole tap.new.pairs }
    {
        copy_into(&self.base.own, tap);
    }

    /// Whether a shipment may have each record of the draft.
    pub fn draft_ships(&self) -> bool
        ensures { IsTrue result ↔ AllShip self.now.base.shape self.now.draft.pairs }
    {
        all_ship(self.base.shape, &self.draft)
    }
}

// Puts these records into an empty set that has room for them.
fn copy_into(writes: &WriteSet, copy: &mut WriteSet)
    requires empty { copy.old.pairs ≡ [] }
    requires room { length writes.now.pairs ≤ copy.old.room }
    ensures pairs { copy.new.pairs ≡ writes.now.pairs }
    ensures rising { IsOrdered copy.new.pairs }
    ensures whole { AreWhole copy.new.pairs }
{
    for i in 0..writes.len() {
        let (key, rec) = writes.at(i);
        copy.put_reserved(key, rec);
    }
}

// Whether a shipment may have each of these records.
fn all_ship(shape: Shape, writes: &WriteSet) -> bool
    ensures { IsTrue result ↔ AllShip shape writes.now.pairs }
{
    for i in 0..writes.len() {
        if !is_shipped(shape, writes.at(i).0) {
            return false;
        }
    }
    true
}
