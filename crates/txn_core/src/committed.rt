ghost use Rattle.std.specs.Prelude.{◌≡◌, IfErr, IfOk, OnErr, OnOk, is_ok, length};
ghost use Rattle.rec_bytes.specs.Key.{IsKey};
ghost use Rattle.rec_bytes.specs.Space.{HasCause, after_get};
ghost use Rattle.rec_bytes.specs.declared.space.SpaceFault.TheVariants as faults;
ghost use Rattle.txn_core.specs.Store.{committed_state};
ghost use Rattle.txn_core.specs.Through.{ReadsThrough, holds_committed};

use crate::Store;
use disk_model::Disk;
use rec_bytes::{Key, Meta, Reads, Rec, Shape, SpaceFault};

/// What a store has committed, as a space that is read. It is written as a literal in the function
/// that uses it: a call that handed it out would leave its caller without what is known of the
/// store.
#[derive(Drop)]
pub struct Committed<'s, 'd, D: Disk> {
    pub store: &'s mut Store<'d, D>,
}

impl<'s, 'd, D: Disk> Reads for Committed<'s, 'd, D> {
    ghost use Rattle.txn_core.specs.Committed.{OnwardCommitted, committed_more, committed_none};

    ghost tells = { D.tells_reads };

    ghost state = { λ c. committed_state c.store.now };

    ghost faults = { λ c. D.faults c.store.now.base.disk.now };

    ghost onward = { λ a b. OnwardCommitted a b };

    ghost stays_onward = { λ a. committed_none D.only_now a };

    ghost further_onward = { λ a b c first more. committed_more a b c first more };

    ghost onward_shape = { λ a b only. only.reads.base.shape };

    /// Reads as `Store::old`: through the kept pages.
    fn get(&mut self, key: Key) -> Result<Rec, SpaceFault>
        requires { IsKey key }
        ensures got { D.tells_reads
            → IfOk result (λ rec. rec ≡ (committed_state self.old.store.now).records key) }
        ensures whole { IfOk result (λ rec. length rec.bytes ≡ 64) }
        ensures state { committed_state self.new.store.now
            ≡ after_get (committed_state self.old.store.now) }
        ensures refused { IfErr result (λ fault. fault ≡ faults.Disk) }
        ensures onward { OnwardCommitted self.old self.new }
        ensures cause { HasCause (D.faults self.old.store.now.base.disk.now)
            (D.faults self.new.store.now.base.disk.now) result }
        ensures through { ReadsThrough (holds_committed self.old.store.now.base key) key
            self.old.store.now.base self.new.store.now.base (is_ok result) }
    {
        match self.store.old(key) {
            Ok(rec) => Ok(rec),
            Err(_) => Err(SpaceFault::Disk),
        }
    }

    /// Reads as `Store::old_into`: through the kept pages.
    fn get_into(&mut self, key: Key, rec: &mut Rec) -> Result<(), SpaceFault>
        requires { IsKey key }
        ensures got { D.tells_reads
            → OnOk result (rec.new ≡ (committed_state self.old.store.now).records key) }
        ensures err { OnErr result (rec.new ≡ rec.old) }
        ensures state { committed_state self.new.store.now
            ≡ after_get (committed_state self.old.store.now) }
        ensures refused { IfErr result (λ fault. fault ≡ faults.Disk) }
        ensures onward { OnwardCommitted self.old self.new }
        ensures cause { HasCause (D.faults self.old.store.now.base.disk.now)
            (D.faults self.new.store.now.base.disk.now) result }
        ensures through { ReadsThrough (holds_committed self.old.store.now.base key) key
            self.old.store.now.base self.new.store.now.base (is_ok result) }
    {
        match self.store.old_into(key, rec) {
            Ok(_) => Ok(()),
            Err(_) => Err(SpaceFault::Disk),
        }
    }

    fn meta(&self, file: u8) -> Meta {
        Meta::of(&self.store.committed_meta(file))
    }

    fn shape(&self) -> Shape {
        self.store.base.shape
    }
}
