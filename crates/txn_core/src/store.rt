ghost use Rattle.std.specs.Prelude.{
  ◌≡◌,
  ◌≢◌,
  ◌≤◌,
  ◌⊎◌,
  ◌↔◌,
  [],
  Err,
  IsOk,
  IsTrue,
  IfErr,
  IfOk,
  OnErr,
  OnOk,
  false,
  length,
  true,
};
ghost use Rattle.fault_count.specs.Cause.{HasCause, Rose};
ghost use Rattle.disk_model.specs.Spans.{AtEachMoment, IsAllSettled, OnlyReads};
ghost use Rattle.rec_bytes.specs.Format.{log_file, most_changed};
ghost use Rattle.rec_bytes.specs.Pairs.{growth_by, merged};
ghost use Rattle.rec_bytes.specs.Shape.{is_allowed};
ghost use Rattle.rec_bytes.specs.declared.key.Key.{Key as AKey};
ghost use Rattle.rec_bytes.specs.declared.record.Rec.{Rec as ARec};
ghost use Rattle.rec_bytes.specs.declared.shape.Shape.{Shape as AShape};
ghost use Rattle.redo_log.specs.Appending.{SameButEntry};
ghost use Rattle.redo_log.specs.Entries.{open_byte};
ghost use Rattle.record_file.specs.Records.{IsUnmade};
ghost use Rattle.record_file.specs.Redone.{Redoes};
ghost use Rattle.recovery.specs.Finding.{IsCareful, IsMade};
ghost use Rattle.txn_core.specs.Config.{Suits, shape_of};
ghost use Rattle.txn_core.specs.Kept.{FitsCommit, FitsTransaction, IsKept, IsOnDisk, kept_pages};
ghost use Rattle.txn_core.specs.Opening.{
  HasOpeningEntry,
  IsAskedOther,
  IsClean,
  IsOldOrNew,
  IsOldOrRaised,
  IsRefusal,
  IsWant,
  OnlyDiffers,
  Opens,
  RefusesOpening,
  StaysAsItWas,
};
ghost use Rattle.txn_core.specs.declared.health.Health.TheVariants as healths;

use crate::base::Base;
use crate::{AgainFault, Config, Health, NotOpened, OpenFault};
use disk_model::Disk;
use rec_bytes::{DiskFault, WriteSet};
use std::alloc::{AllocError, Global};

/// A store over a disk, with an open transaction and the draft of one change. As a space of records
/// it is the draft over the transaction over what is committed.
#[derive(Drop)]
pub struct Store<'d, D: Disk> {
    pub(crate) base: Base<'d, D>,
    pub(crate) draft: WriteSet,
    /// Room for the records of a draft that are changed.
    pub(crate) spare: WriteSet,
    /// How many records were asked for.
    pub(crate) reads: u64,
}

impl<'d, D: Disk> Store<'d, D> {
    ghost use Rattle.txn_core.specs.Again.{IsOld, IsRecovered, RefusesAgain};
    ghost use Rattle.txn_core.specs.Base.{SameBeneath, SameStore};
    ghost use Rattle.txn_core.specs.Outcomes.{HasFailed, IsCheckpointed, IsInDoubt, IsWritten};
    ghost use Rattle.txn_core.specs.Store.{committed, content, drafted, working};

    /// Opens the store of the disk, or makes one where there is none. Where it can't, the disk is
    /// handed back with the reason.
    pub fn open(
        alloc: Global,
        disk: &'d mut D,
        config: Config,
    ) -> Result<Store<'d, D>, NotOpened<'d, D>>
        requires allowed { is_allowed (shape_of config) ≡ true }

        // What is read is what the store has committed, and no transaction is open.
        ensures opened { D.tells_reads
            → IfOk result (λ store. Opens (D.reads disk.old) config store.base.shape
            (committed store)) }
        ensures suits { IfOk result (λ store. Suits config store.base.shape) }
        ensures live { IfOk result (λ store. IsTrue store.base.live) }
        ensures closed { IfOk result (λ store. store.base.in_transaction ≡ false) }
        ensures own { IfOk result (λ store. store.base.own.pairs ≡ []) }
        ensures draft { IfOk result (λ store. store.draft.pairs ≡ []) }
        ensures stored { IfOk result
            (λ store. IsOnDisk D.Disk store.base.disk.now (λ left. Redoes left (committed store))) }
        ensures crash { D.tells_reads → D.tells_images → (space : AKey → ARec) (shape : AShape)
            → Redoes (D.reads disk.old) space → IsMade space shape
            → IfOk result (λ store. AtEachMoment D.Disk disk.old store.base.disk.now
            (λ left. D.may_leave disk.old left ⊎ IsOldOrRaised shape space left)) }
        ensures crash_new { D.tells_reads → D.tells_images → IsUnmade (D.reads disk.old)
            → IfOk result (λ store. AtEachMoment D.Disk disk.old store.base.disk.now
            (λ left. D.may_leave disk.old left
            ⊎ IsOldOrNew (D.reads disk.old) (shape_of config) left)) }

        // Nothing is pending, and the log has no entry but a new store's or the one that brings an
        // older store to this version.
        ensures settled { D.tells_reads → D.tells_images
            → IfOk result (λ store. IsAllSettled D.Disk store.base.disk.now) }
        ensures log { D.tells_reads → IfOk result
            (λ store. HasOpeningEntry (D.reads disk.old) store.base.shape
            (D.reads store.base.disk.now)) }

        // There is room for so many pages of records, also after later calls.
        ensures pages { IfOk result (λ store. store.base.cache.cap ≡ kept_pages) }

        ensures same_disk { IfOk result
            (λ store. store.base.disk.ghost_name ≡ disk.entry.ghost_name) }
        ensures later { IfOk result (λ store. D.faults disk.old ≤ D.faults store.base.disk.now) }

        // Why it is refused, and what that leaves. All memory is taken before the disk is called.
        ensures no_memory { IfErr result
            (λ refusal. refusal.why ≡ OpenFault.Memory → refusal.disk.now ≡ disk.old) }
        ensures refused { D.tells_reads
            → IfErr result (λ refusal. RefusesOpening (D.reads disk.old) config refusal.why) }
        ensures sound { D.tells_reads → (space : AKey → ARec) (shape : AShape)
            → Redoes (D.reads disk.old) space → IsMade space shape
            → IfErr result (λ refusal. OnlyDiffers shape config refusal.why) }
        ensures unmade { D.tells_reads → IsUnmade (D.reads disk.old)
            → IfErr result (λ refusal. IsWant refusal.why) }
        ensures left { D.tells_reads → D.tells_images → (space : AKey → ARec) (shape : AShape)
            → Redoes (D.reads disk.old) space → IsMade space shape
            → IfErr result (λ refusal. AtEachMoment D.Disk disk.old refusal.disk.now
            (λ left. D.may_leave disk.old left ⊎ IsOldOrRaised shape space left)) }
        ensures left_new { D.tells_reads → D.tells_images → IsUnmade (D.reads disk.old)
            → IfErr result (λ refusal. AtEachMoment D.Disk disk.old refusal.disk.now
            (λ left. D.may_leave disk.old left
            ⊎ IsOldOrNew (D.reads disk.old) (shape_of config) left)) }
        ensures untouched { D.tells_reads
            → IfErr result (λ refusal. IsRefusal refusal.why
            → OnlyReads D.Disk disk.old refusal.disk.now) }

        // Where another shape is asked for, the store isn't brought to the newest version.
        ensures differs { D.tells_reads → (space : AKey → ARec) → Redoes (D.reads disk.old) space
            → IfErr result (λ refusal. IsAskedOther refusal.why
            → StaysAsItWas D.Disk disk.old refusal.disk.now space) }

        // A clean store is only read.
        ensures clean { D.tells_reads → IsClean (D.reads disk.old)
            → IfOk result (λ store. OnlyReads D.Disk disk.old store.base.disk.now) }
        ensures clean_refused { D.tells_reads → IsClean (D.reads disk.old)
            → IfErr result (λ refusal. OnlyReads D.Disk disk.old refusal.disk.now) }
        ensures careful { IfErr result (λ refusal. IsCareful D.Disk disk.old refusal.disk.now) }
        ensures handed_back { IfErr result
            (λ refusal. refusal.disk.ghost_name ≡ disk.entry.ghost_name) }
        ensures later_refused { IfErr result
            (λ refusal. D.faults disk.old ≤ D.faults refusal.disk.now) }
        ensures cause { IfErr result
            (λ refusal. refusal.why ≡ OpenFault.Disk
            → Rose (D.faults disk.old) (D.faults refusal.disk.now)) }
    {
        match Base::open(alloc, disk, config) {
            Ok(base) => Ok(Store {
                base,
                draft: WriteSet::new(alloc),
                spare: WriteSet::new(alloc),
                reads: 0,
            }),
            Err(refusal) => Err(refusal),
        }
    }

    /// Begins a transaction.
    pub fn begin(&mut self)
        requires live { IsTrue self.old.base.live }
        requires closed { self.old.base.in_transaction ≡ false }
        ensures in_transaction { IsTrue self.new.base.in_transaction }
        ensures own { self.new.base.own.pairs ≡ [] }
        ensures draft { self.new.draft.pairs ≡ [] }
        ensures same { SameBeneath self.old.base self.new.base }
        ensures reads { self.new.reads ≡ self.old.reads }

        // The same is committed, and is what is read.
        ensures committed { committed self.new ≡ committed self.old }
        ensures read { drafted self.new ≡ committed self.old }
    {
        self.discard();
        self.base.begin();
    }

    /// Takes the draft's records into the open transaction. A refusal leaves both as they were; it
    /// is for want of memory, or where the transaction would write more than 2,048 records.
    pub fn keep(&mut self) -> Result<(), AllocError>
        requires { IsTrue self.old.base.in_transaction }
        ensures own { OnOk result (self.new.base.own.pairs
            ≡ merged self.old.base.own.pairs self.old.draft.pairs) }
        ensures working { OnOk result (working self.new ≡ drafted self.old) }
        ensures draft { OnOk result (self.new.draft.pairs ≡ []) }
        ensures refused { OnErr result (self.new.base.own.pairs ≡ self.old.base.own.pairs) }
        ensures refused_draft { OnErr result (self.new.draft.pairs ≡ self.old.draft.pairs) }
        ensures in_transaction { IsTrue self.new.base.in_transaction }
        ensures same { SameBeneath self.old.base self.new.base }
        ensures reads { self.new.reads ≡ self.old.reads }

        // It succeeds only where the transaction may have them, and then, unless it lacks memory,
        // always.
        ensures fits { OnOk result (FitsTransaction self.old.base.own.pairs self.old.draft.pairs) }
        ensures succeeds { FitsTransaction self.old.base.own.pairs self.old.draft.pairs
            → growth_by self.old.base.own.pairs self.old.draft.pairs ≤ self.old.base.own.room
            → IsOk result }

        // Either way the same is committed, and the same is read.
        ensures committed { committed self.new ≡ committed self.old }
        ensures read { drafted self.new ≡ drafted self.old }
    {
        self.base.keep(&self.draft)?;
        self.discard();
        Ok(())
    }

    /// Drops the draft.
    pub fn discard(&mut self)
        ensures draft { self.new.draft.pairs ≡ [] }
        ensures base { self.new.base ≡ self.old.base }
        ensures reads { self.new.reads ≡ self.old.reads }
        ensures read { drafted self.new ≡ working self.old }
    {
        self.draft.clear();
    }

    /// Ends the open transaction: what it has written is on the disk, all of it or nothing. After a
    /// fault of the disk it is known again which, once the store is recovered.
    pub fn commit(&mut self) -> Result<(), DiskFault>
        requires live { IsTrue self.old.base.live }
        requires in_transaction { IsTrue self.old.base.in_transaction }

        // A stop at any moment leaves what was committed before, or what the transaction has.
        ensures crash { D.tells_reads → D.tells_images
            → AtEachMoment D.Disk self.old.base.disk.now self.new.base.disk.now
            (λ left. Redoes left (committed self.old) ⊎ Redoes left (working self.old)) }
        ensures done { OnOk result (IsWritten self.old.base self.new.base) }
        ensures failed { OnErr result (IsInDoubt self.old.base self.new.base) }
        ensures empty { length self.old.base.own.pairs ≡ 0
            → IsOk result × (self.new.base.disk.now ≡ self.old.base.disk.now) }

        // Where it fits, its entry is all that is written.
        ensures checkpoints { D.tells_reads
            → FitsCommit self.old.base.tail self.old.base.changed.pairs self.old.base.own.pairs
            → SameButEntry self.old.base.tail self.old.base.own.pairs (content self.old)
            (content self.new) }

        ensures closed { self.new.base.in_transaction ≡ false }
        ensures own { self.new.base.own.pairs ≡ [] }
        ensures draft { self.new.draft.pairs ≡ [] }
        ensures same { SameStore self.old.base self.new.base }
        ensures reads { self.new.reads ≡ self.old.reads }
        ensures cause { HasCause (D.faults self.old.base.disk.now)
            (D.faults self.new.base.disk.now) result }
        ensures read { D.tells_reads → OnOk result (drafted self.new ≡ working self.old) }
        ensures few { length self.new.base.changed.pairs ≤ most_changed }
    {
        self.discard();
        self.base.commit()
    }

    /// Ends the open transaction; what it has written is dropped.
    pub fn rollback(&mut self)
        requires { IsTrue self.old.base.in_transaction }
        ensures closed { self.new.base.in_transaction ≡ false }
        ensures own { self.new.base.own.pairs ≡ [] }
        ensures draft { self.new.draft.pairs ≡ [] }
        ensures same { SameBeneath self.old.base self.new.base }
        ensures reads { self.new.reads ≡ self.old.reads }

        // The same is committed, and is what is read.
        ensures committed { committed self.new ≡ committed self.old }
        ensures read { drafted self.new ≡ committed self.old }
    {
        self.discard();
        self.base.end();
    }

    /// Brings all that is committed into the files, and takes the log's entries away.
    pub fn checkpoint(&mut self) -> Result<(), DiskFault>
        requires live { IsTrue self.old.base.live }
        requires closed { self.old.base.in_transaction ≡ false }
        ensures crash { D.tells_reads → D.tells_images
            → AtEachMoment D.Disk self.old.base.disk.now self.new.base.disk.now
            (λ left. Redoes left (committed self.old)) }
        ensures done { OnOk result (IsCheckpointed self.old.base self.new.base) }
        ensures failed { OnErr result (HasFailed self.old.base self.new.base) }
        ensures own { self.new.base.own ≡ self.old.base.own }
        ensures closed { self.new.base.in_transaction ≡ false }
        ensures draft { self.new.draft ≡ self.old.draft }
        ensures same { SameStore self.old.base self.new.base }
        ensures reads { self.new.reads ≡ self.old.reads }
        ensures cause { HasCause (D.faults self.old.base.disk.now)
            (D.faults self.new.base.disk.now) result }
    {
        self.base.checkpoint()
    }

    /// Finds what the disk has, as an opening does, and serves it again.
    pub fn recover_again(&mut self) -> Result<(), AgainFault>
        requires closed { self.old.base.in_transaction ≡ false }
        ensures crash { D.tells_reads → D.tells_images → (space : AKey → ARec)
            → Redoes (content self.old) space
            → AtEachMoment D.Disk self.old.base.disk.now self.new.base.disk.now
            (λ left. D.may_leave self.old.base.disk.now left ⊎ Redoes left space) }
        ensures done { OnOk result (IsRecovered self.old.base self.new.base) }
        ensures read { D.tells_reads → (space : AKey → ARec) → Redoes (content self.old) space
            → Redoes (content self.new) space }
        ensures failed { OnErr result (self.new.base.live ≡ false) }

        // Files that are no store, or a broken one, are left as they were.
        ensures careful { IsCareful D.Disk self.old.base.disk.now self.new.base.disk.now }

        // Where the log has no entry, the disk is only read.
        ensures clean { D.tells_reads → content self.old log_file 0 ≢ open_byte
            → OnlyReads D.Disk self.old.base.disk.now self.new.base.disk.now }
        ensures refused { D.tells_reads
            → IfErr result (RefusesAgain (content self.old) self.old.base.shape) }
        ensures sound { D.tells_reads → (space : AKey → ARec) → Redoes (content self.old) space
            → IsMade space self.old.base.shape → ¬ IsOld space
            → IfErr result (λ fault. fault ≡ AgainFault.Disk) }
        ensures own { self.new.base.own ≡ self.old.base.own }
        ensures closed { self.new.base.in_transaction ≡ false }
        ensures draft { self.new.draft.pairs ≡ [] }
        ensures same { SameStore self.old.base self.new.base }
        ensures reads { self.new.reads ≡ self.old.reads }
        ensures cause { result ≡ Err AgainFault.Disk
            → Rose (D.faults self.old.base.disk.now) (D.faults self.new.base.disk.now) }
        ensures later { D.faults self.old.base.disk.now ≤ D.faults self.new.base.disk.now }
    {
        self.discard();
        self.base.recover_again()
    }

    /// Whether it serves commits. While it does, what is read and each image redo to what is
    /// committed.
    pub fn health(&self) -> Health
        ensures live { result ≡ healths.Live ↔ IsTrue self.now.base.live }
        ensures stored { IsTrue self.now.base.live
            → IsOnDisk D.Disk self.now.base.disk.now (λ left. Redoes left (committed self.now)) }

        // More than that: the log has the same entries up to the tail in each image, the changed
        // records are those of the entries, and nothing else is pending.
        ensures kept { IsTrue self.now.base.live
            → IsKept D.Disk self.now.base.disk.now self.now.base.metas.records
            self.now.base.changed.pairs self.now.base.tail }
        ensures few { length self.now.base.changed.pairs ≤ most_changed }
    {
        if self.base.live {
            Health::Live
        } else {
            Health::Failed
        }
    }

    /// Whether a transaction is open.
    pub fn in_transaction(&self) -> bool
        ensures is { result ≡ self.now.base.in_transaction }
        ensures none { self.now.base.in_transaction ≡ false → length self.now.base.own.pairs ≡ 0 }
    {
        self.base.in_transaction
    }

    /// Ends the store and hands the disk back. What is not committed is dropped.
    pub fn close(self) -> &'d mut D
        ensures same_disk { result.ghost_name ≡ self.entry.base.disk.ghost_name }
        ensures disk { result.now ≡ self.entry.base.disk.now }
    {
        let Store {
            base,
            draft: _,
            spare: _,
            reads: _,
        } = self;
        base.into_disk()
    }
}
