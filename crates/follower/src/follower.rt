ghost use Rattle.std.specs.Prelude.{◌≡◌, ◌↔◌, IfErr, IfOk, IsTrue, false, true};
ghost use Rattle.rec_bytes.specs.Shape.{is_allowed};
ghost use Rattle.txn_core.specs.Config.{shape_of};
ghost use Rattle.txn_core.specs.Kept.{kept_pages};
ghost use Rattle.txn_core.specs.Store.{committed};
ghost use Rattle.txn_core.specs.declared.health.Health.TheVariants as healths;
ghost use Rattle.follower.specs.Follower.{Accepts, IsNextFor, IsOpened, IsUnopened, Reopens};
ghost use Rattle.follower.specs.Taken.{number_in};

use crate::Accept;
use crate::applying::apply_shipment;
use crate::shipment::{check_shipment, number_of};
use disk_model::Disk;
use rec_bytes::{Reads, Shape, SpaceFault, TAKEN_NUMBER};
use std::alloc::Global;
use txn_core::{AgainFault, Config, Health, NotOpened, OpenFault, Store, TAKEN_KEY};

/// How far the number of the next shipment lies above that of the last one.
const STEP: u64 = 1;

/// A store that takes over the transactions that were shipped from another one, in the order of
/// their numbers. The number of the last one is in the store, put there by the same transaction as
/// its records.
#[derive(Drop)]
pub struct Follower<'d, D: Disk> {
    pub(crate) store: Store<'d, D>,
    pub(crate) have: u64,
    pub(crate) live: bool,
    ghost idle: { store.base.in_transaction ≡ false },
    ghost standing: { live ≡ true → IsTrue store.base.live },
    ghost numbered: { D.tells_reads → live ≡ true → have ≡ number_in (committed store) },
}

impl<'d, D: Disk> Follower<'d, D> {
    ghost use Rattle.follower.specs.Viewing.{HaveSameDisk, view};

    /// Opens the follower of the disk, or makes one where there is none. Where it can't, the disk
    /// is handed back with the reason.
    pub fn open(
        alloc: Global,
        disk: &'d mut D,
        config: Config,
    ) -> Result<Follower<'d, D>, NotOpened<'d, D>>
        requires { is_allowed (shape_of config) ≡ true }
        ensures opened { IfOk result (λ follower. IsOpened D.Disk config disk.old (view follower)) }
        ensures unopened { IfErr result
            (λ refusal. IsUnopened D.Disk config disk.old refusal.disk.now refusal.why) }
        ensures same_disk { IfOk result
            (λ follower. follower.store.base.disk.ghost_name ≡ disk.entry.ghost_name) }

        // There is room for so many pages of records, as in a store.
        ensures pages { IfOk result (λ follower. follower.store.base.cache.cap ≡ kept_pages) }
        ensures handed_back { IfErr result
            (λ refusal. refusal.disk.ghost_name ≡ disk.entry.ghost_name) }
    {
        let mut store = match Store::open(alloc, disk, config) {
            Ok(store) => store,
            Err(refusal) => return Err(refusal),
        };
        match store.get(TAKEN_KEY) {
            Ok(rec) => Ok(Follower {
                store,
                have: rec.wide(TAKEN_NUMBER),
                live: true,
            }),
            Err(_) => Err(NotOpened {
                why: OpenFault::Disk,
                disk: store.close(),
            }),
        }
    }

    /// Takes a shipment. It is applied where it is the next one, as one transaction.
    pub fn accept(&mut self, bytes: &[u8]) -> Accept
        requires { (view self.old).live ≡ true }
        ensures accepts { Accepts D.Disk bytes.now (view self.old) (view self.new) result }
        ensures same_disk { HaveSameDisk self.old self.new }
    {
        let shape = self.store.shape();
        if let Err(at) = check_shipment(bytes, shape) {
            return Accept::Bad { at };
        }
        let number = number_of(bytes);
        if number <= self.have {
            return Accept::Old { have: self.have };
        }
        if number - self.have > STEP {
            return Accept::Gap { have: self.have };
        }
        self.apply(shape, bytes)
    }

    /// Finds what the disk has, and takes shipments again.
    pub fn reopen(&mut self) -> Result<(), AgainFault>
        ensures reopens { Reopens D.Disk (view self.old) (view self.new) result }
        ensures same_disk { HaveSameDisk self.old self.new }
    {
        self.live = false;
        self.store.recover_again()?;
        match self.store.get(TAKEN_KEY) {
            Ok(rec) => {
                self.have = rec.wide(TAKEN_NUMBER);
                self.live = true;
                Ok(())
            }
            Err(_) => Err(AgainFault::Disk),
        }
    }

    /// The number of the last shipment that it has, 0 where it has none.
    pub fn have(&self) -> u64
        ensures { result ≡ (view self.now).have }
    {
        self.have
    }

    /// Whether it takes shipments.
    pub fn health(&self) -> Health
        ensures { result ≡ healths.Live ↔ (view self.now).live ≡ true }
    {
        if self.live {
            Health::Live
        } else {
            Health::Failed
        }
    }

    /// Ends the follower and hands the disk back.
    pub fn close(self) -> &'d mut D
        ensures same_disk { result.ghost_name ≡ self.entry.store.base.disk.ghost_name }
        ensures disk { result.now ≡ self.entry.store.base.disk.now }
    {
        let Follower { store, .. } = self;
        store.close()
    }

    // Applies the next shipment.
    fn apply(&mut self, shape: Shape, bytes: &[u8]) -> Accept
        requires live { (view self.old).live ≡ true }
        requires shape { shape ≡ (view self.old).shape }
        requires allowed { is_allowed shape ≡ true }
        requires next { IsNextFor (view self.old) bytes.now }
        ensures accepts { Accepts D.Disk bytes.now (view self.old) (view self.new) result }
        ensures same_disk { HaveSameDisk self.old self.new }
    {
        self.live = false;
        match apply_shipment(&mut self.store, shape, bytes) {
            Ok(()) => {
                self.have = number_of(bytes);
                self.live = true;
                Accept::Applied { number: self.have }
            }
            Err(SpaceFault::Memory) => {
                self.live = true;
                Accept::Memory
            }
            Err(SpaceFault::Disk) => Accept::Disk,
        }
    }
}
