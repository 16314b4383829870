ghost use Rattle.std.specs.Prelude.{◌≡◌, IfErr, IfOk, OnErr, OnOk, is_ok, length};
ghost use Rattle.rec_bytes.specs.Key.{IsKey};
ghost use Rattle.rec_bytes.specs.Space.{HasCause, after_get};
ghost use Rattle.rec_bytes.specs.declared.space.SpaceFault.TheVariants as faults;
ghost use Rattle.txn_core.specs.Base.{OnlyReadsBase};
ghost use Rattle.txn_core.specs.OnlyReading.{only_reads_base_none, only_reads_base_on};
ghost use Rattle.txn_core.specs.Store.{state_of};
ghost use Rattle.txn_core.specs.Through.{ReadsThrough, holds_drafted};

use crate::Store;
use crate::fetching::found_into;
use disk_model::Disk;
use rec_bytes::{Key, Meta, Reads, Rec, Shape, Space, SpaceFault, meta_key};

impl<'d, D: Disk> Reads for Store<'d, D> {
    ghost tells = { D.tells_reads };

    ghost state = { λ s. state_of s };

    ghost faults = { λ s. D.faults s.base.disk.now };

    ghost onward = { λ a b. OnlyReadsBase a.base b.base };

    ghost stays_onward = { λ a. only_reads_base_none D.only_now a.base };

    ghost further_onward = { λ a b c first more. only_reads_base_on first more };

    ghost onward_shape = { λ a b only. only.shape };

    /// Reads as `read_into`: through the kept pages.
    fn get(&mut self, key: Key) -> Result<Rec, SpaceFault>
        requires { IsKey key }
        ensures got { D.tells_reads → IfOk result (λ rec. rec ≡ (state_of self.old).records key) }
        ensures whole { IfOk result (λ rec. length rec.bytes ≡ 64) }
        ensures state { state_of self.new ≡ after_get (state_of self.old) }
        ensures refused { IfErr result (λ fault. fault ≡ faults.Disk) }
        ensures onward { OnlyReadsBase self.old.base self.new.base }
        ensures cause { HasCause (D.faults self.old.base.disk.now)
            (D.faults self.new.base.disk.now) result }
        ensures through { ReadsThrough (holds_drafted self.old key) key self.old.base
            self.new.base (is_ok result) }
    {
        let mut rec = Rec::ZEROS;
        self.get_into(key, &mut rec)?;
        Ok(copy_of(&rec))
    }

    /// Reads as `read_into`: through the kept pages.
    fn get_into(&mut self, key: Key, rec: &mut Rec) -> Result<(), SpaceFault>
        requires { IsKey key }
        ensures got { D.tells_reads → OnOk result (rec.new ≡ (state_of self.old).records key) }
        ensures err { OnErr result (rec.new ≡ rec.old) }
        ensures state { state_of self.new ≡ after_get (state_of self.old) }
        ensures refused { IfErr result (λ fault. fault ≡ faults.Disk) }
        ensures onward { OnlyReadsBase self.old.base self.new.base }
        ensures cause { HasCause (D.faults self.old.base.disk.now)
            (D.faults self.new.base.disk.now) result }
        ensures through { ReadsThrough (holds_drafted self.old key) key self.old.base
            self.new.base (is_ok result) }
    {
        match self.read_into(key, rec) {
            Ok(_) => Ok(()),
            Err(_) => Err(SpaceFault::Disk),
        }
    }

    fn meta(&self, file: u8) -> Meta {
        let mut rec = Rec::ZEROS;
        if found_into(&self.draft, meta_key(file), &mut rec) {
            return Meta::of(&rec);
        }
        self.base.meta(file)
    }

    fn shape(&self) -> Shape {
        self.base.shape
    }
}

impl<'d, D: Disk> Space for Store<'d, D> {
    fn put(&mut self, key: Key, rec: Rec) -> Result<(), SpaceFault> {
        match self.draft.put(key, rec) {
            Ok(()) => Ok(()),
            Err(_) => Err(SpaceFault::Memory),
        }
    }

    fn edit(&mut self, key: Key) -> Result<&mut Rec, SpaceFault> {
        match self.get(key) {
            Ok(below) => match self.draft.edit(key, below) {
                Ok(rec) => Ok(rec),
                Err(_) => Err(SpaceFault::Memory),
            },
            Err(fault) => Err(fault),
        }
    }
}

// A copy of a record. The type of what a call gives says that it is whole.
pub(crate) fn copy_of(rec: &Rec) -> Rec
    ensures { result ≡ rec.now }
{
    *rec
}
