ghost use Rattle.std.specs.Prelude.{
  ◌≡◌,
  ◌⊎◌,
  ◌≤◌,
  ◌+◌,
  [],
  ◌∷◌,
  Err,
  IsTrue,
  IfErr,
  IfOk,
  OnOk,
  false,
  true,
  length,
};
ghost use Rattle.fault_count.specs.Cause.{HasCause, Rose};
ghost use Rattle.disk_model.specs.Contents.{Files};
ghost use Rattle.disk_model.specs.Spans.{AtEachMoment, IsAllSettled, OnlyReads};
ghost use Rattle.page_cache.specs.Pages.{Agrees};
ghost use Rattle.rec_bytes.specs.Creation.{creation_pairs, own_key, raised};
ghost use Rattle.rec_bytes.specs.Format.{most_changed, newest_version};
ghost use Rattle.rec_bytes.specs.Shape.{is_allowed, version_of};
ghost use Rattle.rec_bytes.specs.Space.{laid_over};
ghost use Rattle.rec_bytes.specs.declared.key.Key.{Key as AKey};
ghost use Rattle.rec_bytes.specs.declared.record.Rec.{Rec as ARec};
ghost use Rattle.rec_bytes.specs.declared.shape.Shape.{Shape as AShape};
ghost use Rattle.redo_log.specs.Entries.{HasEntries};
ghost use Rattle.record_file.specs.Records.{IsUnmade, record_at};
ghost use Rattle.record_file.specs.Redone.{Redoes};
ghost use Rattle.recovery.specs.Finding.{IsCareful, IsMade};
ghost use Rattle.txn_core.specs.Base.{committed};
ghost use Rattle.txn_core.specs.Config.{Suits, shape_of};
ghost use Rattle.txn_core.specs.Kept.{IsKept, kept_pages};
ghost use Rattle.record_file.specs.MetaFile.{AreMetasOf, with_metas};
ghost use Rattle.txn_core.specs.Opening.{
  HasOnly,
  HasOpeningEntry,
  IsAskedOther,
  IsClean,
  IsOldOrNew,
  IsOldOrRaised,
  IsRefusal,
  IsWant,
  OnlyDiffers,
  Opens,
  RefusesOpening,
  StaysAsItWas,
  made_over,
  raising_entries,
};

use crate::base::{Base, KEPT_PAGES};
use crate::marks::Marks;
use crate::{Config, NotOpened, OpenFault};
use disk_model::Disk;
use page_cache::PageCache;
use rec_bytes::{
    DiskFault, MOST_CHANGED, Shape, VERSION, WriteSet, creation, put_raising, version_of,
};
use record_file::MetaFile;
use recovery::{Found, RecoverFault, recover};
use redo_log::append;
use std::alloc::{AllocError, Global};

// What a store begins with.
#[derive(Clone, Copy)]
struct Start {
    shape: Shape,
    metas: MetaFile,
    tail: u64,
}

// What a store takes memory for while it is opened.
#[derive(Drop)]
struct Sets {
    changed: WriteSet,
    creation: WriteSet,
    cache: PageCache,
}

impl<'d, D: Disk> Base<'d, D> {
    // Opens the store of the disk, or makes one where there is none.
    pub(crate) fn open(
        alloc: Global,
        disk: &'d mut D,
        config: Config,
    ) -> Result<Base<'d, D>, NotOpened<'d, D>>
        requires allowed { is_allowed (shape_of config) ≡ true }
        ensures opened { D.tells_reads
            → IfOk result (λ base. Opens (D.reads disk.old) config base.shape (committed base)) }
        ensures suits { IfOk result (λ base. Suits config base.shape) }
        ensures settled { D.tells_reads → D.tells_images
            → IfOk result (λ base. IsAllSettled D.Disk base.disk.now) }
        ensures log { D.tells_reads → IfOk result
            (λ base. HasOpeningEntry (D.reads disk.old) base.shape (D.reads base.disk.now)) }
        ensures no_memory { IfErr result
            (λ refusal. refusal.why ≡ OpenFault.Memory → refusal.disk.now ≡ disk.old) }
        ensures live { IfOk result (λ base. IsTrue base.live) }
        ensures closed { IfOk result (λ base. base.in_transaction ≡ false) }
        ensures own { IfOk result (λ base. base.own.pairs ≡ []) }
        ensures crash { D.tells_reads → D.tells_images → (space : AKey → ARec) (shape : AShape)
            → Redoes (D.reads disk.old) space → IsMade space shape
            → IfOk result (λ base. AtEachMoment D.Disk disk.old base.disk.now
            (λ left. D.may_leave disk.old left ⊎ IsOldOrRaised shape space left)) }
        ensures crash_new { D.tells_reads → D.tells_images → IsUnmade (D.reads disk.old)
            → IfOk result (λ base. AtEachMoment D.Disk disk.old base.disk.now
            (λ left. D.may_leave disk.old left
            ⊎ IsOldOrNew (D.reads disk.old) (shape_of config) left)) }
        ensures same_disk { IfOk result (λ base. base.disk.ghost_name ≡ disk.entry.ghost_name) }
        ensures later { IfOk result (λ base. D.faults disk.old ≤ D.faults base.disk.now) }
        ensures refused { D.tells_reads
            → IfErr result (λ refusal. RefusesOpening (D.reads disk.old) config refusal.why) }
        ensures sound { D.tells_reads → (space : AKey → ARec) (shape : AShape)
            → Redoes (D.reads disk.old) space → IsMade space shape
            → IfErr result (λ refusal. OnlyDiffers shape config refusal.why) }
        ensures unmade { D.tells_reads → IsUnmade (D.reads disk.old)
            → IfErr result (λ refusal. IsWant refusal.why) }
        ensures left { D.tells_reads → D.tells_images → (space : AKey → ARec) (shape : AShape)
            → Redoes (D.reads disk.old) space → IsMade space shape
            → IfErr result (λ refusal. AtEachMoment D.Disk disk.old refusal.disk.now
            (λ left. D.may_leave disk.old left ⊎ IsOldOrRaised shape space left)) }
        ensures left_new { D.tells_reads → D.tells_images → IsUnmade (D.reads disk.old)
            → IfErr result (λ refusal. AtEachMoment D.Disk disk.old refusal.disk.now
            (λ left. D.may_leave disk.old left
            ⊎ IsOldOrNew (D.reads disk.old) (shape_of config) left)) }
        ensures untouched { D.tells_reads
            → IfErr result (λ refusal. IsRefusal refusal.why
            → OnlyReads D.Disk disk.old refusal.disk.now) }
        ensures differs { D.tells_reads → (space : AKey → ARec) → Redoes (D.reads disk.old) space
            → IfErr result (λ refusal. IsAskedOther refusal.why
            → StaysAsItWas D.Disk disk.old refusal.disk.now space) }
        ensures clean { D.tells_reads → IsClean (D.reads disk.old)
            → IfOk result (λ base. OnlyReads D.Disk disk.old base.disk.now) }
        ensures clean_refused { D.tells_reads → IsClean (D.reads disk.old)
            → IfErr result (λ refusal. OnlyReads D.Disk disk.old refusal.disk.now) }
        ensures careful { IfErr result (λ refusal. IsCareful D.Disk disk.old refusal.disk.now) }
        ensures handed_back { IfErr result
            (λ refusal. refusal.disk.ghost_name ≡ disk.entry.ghost_name) }
        ensures later_refused { IfErr result
            (λ refusal. D.faults disk.old ≤ D.faults refusal.disk.now) }
        ensures cause { IfErr result
            (λ refusal. refusal.why ≡ OpenFault.Disk
            → Rose (D.faults disk.old) (D.faults refusal.disk.now)) }
    {
        let Ok(
            Sets {
                mut changed,
                creation,
                cache,
            },
        ) = Sets::new(alloc, config)
        else {
            return Err(NotOpened {
                why: OpenFault::Memory,
                disk,
            });
        };
        match find_or_make(disk, config, &creation, &mut changed) {
            Ok(Start { shape, metas, tail }) => {
                let own = WriteSet::new(alloc);
                let marks = Marks::over(&metas, &changed, &own);
                Ok(Base {
                    disk,
                    cache,
                    shape,
                    metas,
                    changed,
                    own,
                    marks,
                    tail,
                    live: true,
                    in_transaction: false,
                })
            }
            Err(why) => Err(NotOpened { why, disk }),
        }
    }
}

impl Sets {
    // All memory of an opening, with the records of a new store as it is asked for.
    fn new(alloc: Global, config: Config) -> Result<Sets, AllocError>
        ensures changed { IfOk result (λ sets. sets.changed.pairs ≡ []) }
        ensures room { IfOk result (λ sets. most_changed ≤ sets.changed.room) }
        ensures creation { IfOk result
            (λ sets. sets.creation.pairs ≡ creation_pairs (shape_of config)) }
        ensures cache { IfOk result (λ sets. (content : Files) → Agrees content sets.cache) }
        ensures pages { IfOk result (λ sets. sets.cache.cap ≡ kept_pages) }
    {
        let mut changed = WriteSet::new(alloc);
        changed.reserve(MOST_CHANGED)?;
        Ok(Sets {
            changed,
            creation: creation(alloc, config.shape())?,
            cache: PageCache::new(alloc, KEPT_PAGES)?,
        })
    }
}

// Recovers the disk and reads the meta records of its store, or makes one where there is none.
fn find_or_make<D: Disk>(
    disk: &mut D,
    config: Config,
    creation: &WriteSet,
    changed: &mut WriteSet,
) -> Result<Start, OpenFault>
    requires allowed { is_allowed (shape_of config) ≡ true }
    requires creation { creation.now.pairs ≡ creation_pairs (shape_of config) }
    requires changed { changed.old.pairs ≡ [] }
    requires room { most_changed ≤ changed.old.room }
    ensures opened { D.tells_reads
        → IfOk result (λ s. Opens (D.reads disk.old) config s.shape
        (laid_over (with_metas s.metas.records (record_at (D.reads disk.new))) changed.new.pairs)) }
    ensures suits { IfOk result (λ s. Suits config s.shape) }
    ensures settled { D.tells_reads → D.tells_images → OnOk result (IsAllSettled D.Disk disk.new) }
    ensures log { D.tells_reads → IfOk result
        (λ s. HasOpeningEntry (D.reads disk.old) s.shape (D.reads disk.new)) }
    ensures no_memory { IfErr result (λ fault. ¬ (fault ≡ OpenFault.Memory)) }
    ensures allowed { IfOk result (λ s. is_allowed s.shape ≡ true) }
    ensures room { most_changed ≤ length changed.new.pairs + changed.new.room }
    ensures few { length changed.new.pairs ≤ most_changed }
    ensures kept { IfOk result (λ s.
        IsKept D.Disk disk.new s.metas.records changed.new.pairs s.tail) }
    ensures crash { D.tells_reads → D.tells_images → (space : AKey → ARec) (shape : AShape)
        → Redoes (D.reads disk.old) space → IsMade space shape
        → AtEachMoment D.Disk disk.old disk.new
        (λ left. D.may_leave disk.old left ⊎ IsOldOrRaised shape space left) }
    ensures crash_new { D.tells_reads → D.tells_images → IsUnmade (D.reads disk.old)
        → AtEachMoment D.Disk disk.old disk.new
        (λ left. D.may_leave disk.old left ⊎ IsOldOrNew (D.reads disk.old) (shape_of config) left) }
    ensures untouched { D.tells_reads
        → IfErr result (λ fault. IsRefusal fault → OnlyReads D.Disk disk.old disk.new) }
    ensures differs { D.tells_reads → (space : AKey → ARec) → Redoes (D.reads disk.old) space
        → IfErr result (λ fault. IsAskedOther fault → StaysAsItWas D.Disk disk.old disk.new space) }
    ensures clean { D.tells_reads → IsClean (D.reads disk.old)
        → OnlyReads D.Disk disk.old disk.new }
    ensures careful { IsCareful D.Disk disk.old disk.new }
    ensures refused { D.tells_reads → IfErr result (RefusesOpening (D.reads disk.old) config) }
    ensures sound { D.tells_reads → (space : AKey → ARec) (shape : AShape)
        → Redoes (D.reads disk.old) space → IsMade space shape
        → IfErr result (OnlyDiffers shape config) }
    ensures unmade { D.tells_reads → IsUnmade (D.reads disk.old) → IfErr result IsWant }
    ensures cause { result ≡ Err OpenFault.Disk → Rose (D.faults disk.old) (D.faults disk.new) }
    ensures later { D.faults disk.old ≤ D.faults disk.new }
{
    match recover(disk) {
        Ok(Found::Made(shape)) => open_made(disk, config, shape, changed),
        Ok(Found::Unmade) => Ok(make_new(disk, config.shape(), creation, changed)?),
        Err(RecoverFault::NotAStore) => Err(OpenFault::NotAStore),
        Err(RecoverFault::Damaged(damage)) => Err(OpenFault::Damaged(damage)),
        Err(RecoverFault::Disk) => Err(OpenFault::Disk),
    }
}

// Reads the meta records of a store of this shape, whose log has no entry, and brings it to the
// newest version.
fn open_made<D: Disk>(
    disk: &mut D,
    config: Config,
    shape: Shape,
    changed: &mut WriteSet,
) -> Result<Start, OpenFault>
    requires changed { changed.old.pairs ≡ [] }
    requires room { most_changed ≤ changed.old.room }
    ensures shape { IfOk result (λ s. s.shape ≡ shape) }
    ensures suits { IfOk result (λ s. Suits config shape) }
    ensures kept { (D.tells_reads → HasEntries (D.reads disk.old) [] 0)
        → (D.tells_reads → D.tells_images → IsAllSettled D.Disk disk.old)
        → IfOk result (λ s. IsKept D.Disk disk.new s.metas.records changed.new.pairs s.tail) }
    ensures space { D.tells_reads → HasEntries (D.reads disk.old) [] 0
        → (D.tells_images → IsAllSettled D.Disk disk.old)
        → IfOk result (λ s. laid_over
        (with_metas s.metas.records (record_at (D.reads disk.new))) changed.new.pairs
        ≡ raised shape (record_at (D.reads disk.old))) }
    ensures log { D.tells_reads → HasEntries (D.reads disk.old) [] 0
        → OnOk result (HasOnly (D.reads disk.new)
        (raising_entries shape (record_at (D.reads disk.old)))) }
    ensures crash { D.tells_reads → D.tells_images → HasEntries (D.reads disk.old) [] 0
        → IsAllSettled D.Disk disk.old
        → AtEachMoment D.Disk disk.old disk.new
        (IsOldOrRaised shape (record_at (D.reads disk.old))) }
    ensures settled { D.tells_reads → D.tells_images → HasEntries (D.reads disk.old) [] 0
        → IsAllSettled D.Disk disk.old → OnOk result (IsAllSettled D.Disk disk.new) }
    ensures refused { IfErr result (OnlyDiffers shape config) }
    ensures differs { IfErr result (λ fault. IsAskedOther fault
        → OnlyReads D.Disk disk.old disk.new) }
    ensures newest { D.tells_reads
        → newest_version ≤ version_of (record_at (D.reads disk.old) own_key)
        → OnlyReads D.Disk disk.old disk.new }
    ensures no_memory { IfErr result (λ fault. ¬ (fault ≡ OpenFault.Memory)) }
    ensures room { most_changed ≤ length changed.new.pairs + changed.new.room }
    ensures few { length changed.new.pairs ≤ most_changed }
    ensures cause { result ≡ Err OpenFault.Disk → Rose (D.faults disk.old) (D.faults disk.new) }
    ensures later { D.faults disk.old ≤ D.faults disk.new }
{
    let start = read_made(disk, config, shape)?;
    Ok(raise(disk, start, changed)?)
}

// Brings a store of an older version to the newest one, by the first entry of the log.
fn raise<D: Disk>(disk: &mut D, start: Start, changed: &mut WriteSet) -> Result<Start, DiskFault>
    requires tail { start.tail ≡ 0 }
    requires changed { changed.old.pairs ≡ [] }
    requires room { most_changed ≤ changed.old.room }
    ensures shape { IfOk result (λ s. s.shape ≡ start.shape) }
    ensures kept { IsKept D.Disk disk.old start.metas.records [] 0
        → IfOk result (λ s. IsKept D.Disk disk.new s.metas.records changed.new.pairs s.tail) }
    ensures space { D.tells_reads → IsKept D.Disk disk.old start.metas.records [] 0
        → IfOk result (λ s. laid_over
        (with_metas s.metas.records (record_at (D.reads disk.new))) changed.new.pairs
        ≡ raised start.shape (with_metas start.metas.records (record_at (D.reads disk.old)))) }
    ensures log { D.tells_reads → HasEntries (D.reads disk.old) [] 0
        → OnOk result (HasOnly (D.reads disk.new)
        (raising_entries start.shape
        (with_metas start.metas.records (record_at (D.reads disk.old))))) }
    ensures crash { D.tells_reads → D.tells_images → IsKept D.Disk disk.old start.metas.records [] 0
        → AtEachMoment D.Disk disk.old disk.new
        (IsOldOrRaised start.shape (with_metas start.metas.records
        (record_at (D.reads disk.old)))) }
    ensures settled { D.tells_reads → D.tells_images → HasEntries (D.reads disk.old) [] 0
        → IsAllSettled D.Disk disk.old → OnOk result (IsAllSettled D.Disk disk.new) }
    ensures newest { (records : AKey → ARec) → newest_version
        ≤ version_of (with_metas start.metas.records records own_key) → disk.new ≡ disk.old }
    ensures room { most_changed ≤ length changed.new.pairs + changed.new.room }
    ensures few { length changed.new.pairs ≤ most_changed }
    ensures cause { HasCause (D.faults disk.old) (D.faults disk.new) result }
{
    if version_of(&start.metas.own()) >= VERSION {
        return Ok(start);
    }
    put_raising(changed, start.shape);
    let tail = append(disk, 0, changed)?;
    Ok(Start {
        shape: start.shape,
        metas: start.metas,
        tail,
    })
}

// Reads the meta records of a store of this shape, whose log has no entry.
fn read_made<D: Disk>(disk: &mut D, config: Config, shape: Shape) -> Result<Start, OpenFault>
    ensures shape { IfOk result (λ s. s.shape ≡ shape) }
    ensures tail { IfOk result (λ s. s.tail ≡ 0) }
    ensures metas { D.tells_reads
        → IfOk result (λ s. AreMetasOf (record_at (D.reads disk.old)) s.metas.records) }
    ensures suits { IfOk result (λ s. Suits config shape) }
    ensures refused { IfErr result (OnlyDiffers shape config) }
    ensures no_memory { IfErr result (λ fault. ¬ (fault ≡ OpenFault.Memory)) }
    ensures only_reads { OnlyReads D.Disk disk.old disk.new }
    ensures cause { result ≡ Err OpenFault.Disk → Rose (D.faults disk.old) (D.faults disk.new) }
    ensures later { D.faults disk.old ≤ D.faults disk.new }
{
    if !config.suits(shape) {
        return Err(OpenFault::ConfigDiffers {
            stored: shape,
            asked: config,
        });
    }
    Ok(Start {
        shape,
        metas: MetaFile::read(disk)?,
        tail: 0,
    })
}

// Makes a store of this shape, by the first entry of the log.
fn make_new<D: Disk>(
    disk: &mut D,
    shape: Shape,
    creation: &WriteSet,
    changed: &mut WriteSet,
) -> Result<Start, DiskFault>
    requires creation { creation.now.pairs ≡ creation_pairs shape }
    requires changed { changed.old.pairs ≡ [] }
    requires room { most_changed ≤ changed.old.room }
    ensures shape { IfOk result (λ s. s.shape ≡ shape) }
    ensures kept { (D.tells_reads → IsUnmade (D.reads disk.old))
        → (D.tells_reads → D.tells_images → IsAllSettled D.Disk disk.old)
        → IfOk result (λ s. IsKept D.Disk disk.new s.metas.records changed.new.pairs s.tail) }
    ensures space { D.tells_reads → IsUnmade (D.reads disk.old)
        → IfOk result (λ s. laid_over
        (with_metas s.metas.records (record_at (D.reads disk.new))) changed.new.pairs
        ≡ made_over (D.reads disk.old) shape) }
    ensures crash { D.tells_reads → D.tells_images → IsUnmade (D.reads disk.old)
        → IsAllSettled D.Disk disk.old
        → AtEachMoment D.Disk disk.old disk.new (IsOldOrNew (D.reads disk.old) shape) }
    ensures settled { D.tells_reads → D.tells_images → HasEntries (D.reads disk.old) [] 0
        → IsAllSettled D.Disk disk.old → OnOk result (IsAllSettled D.Disk disk.new) }
    ensures log { D.tells_reads → HasEntries (D.reads disk.old) [] 0
        → OnOk result (HasOnly (D.reads disk.new) (creation_pairs shape ∷ [])) }
    ensures room { most_changed ≤ length changed.new.pairs + changed.new.room }
    ensures few { length changed.new.pairs ≤ most_changed }
    ensures cause { HasCause (D.faults disk.old) (D.faults disk.new) result }
{
    let tail = append(disk, 0, creation)?;
    changed.merge(creation);
    Ok(Start {
        shape,
        metas: MetaFile::blank(),
        tail,
    })
}
