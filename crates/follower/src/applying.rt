ghost use Rattle.std.specs.Prelude.{◌≡◌, IsTrue, OnOk, false, true};
ghost use Rattle.rec_bytes.specs.Shape.{is_allowed};
ghost use Rattle.txn_core.specs.Base.{SameStore};
ghost use Rattle.txn_core.specs.Store.{drafted, working};
ghost use Rattle.follower.specs.Applying.{Applies, OnlyReadsBeneath};
ghost use Rattle.follower.specs.Shipment.{IsShipment};
ghost use Rattle.follower.specs.Taken.{taken};

use crate::taken::put_shipment;
use disk_model::Disk;
use rec_bytes::{Shape, SpaceFault};
use txn_core::Store;

/// Applies a shipment to a store, as one transaction.
pub(crate) fn apply_shipment<D: Disk>(
    store: &mut Store<'_, D>,
    shape: Shape,
    bytes: &[u8],
) -> Result<(), SpaceFault>
    requires live { IsTrue store.old.base.live }
    requires closed { store.old.base.in_transaction ≡ false }
    requires allowed { is_allowed shape ≡ true }
    requires shipment { IsShipment shape bytes.now }
    ensures applies { Applies D.Disk bytes.now store.old store.new result }
    ensures closed { store.new.base.in_transaction ≡ false }
    ensures same { SameStore store.old.base store.new.base }
{
    store.begin();
    match put_and_keep(store, shape, bytes) {
        Ok(()) => match store.commit() {
            Ok(()) => Ok(()),
            Err(_) => Err(SpaceFault::Disk),
        },
        Err(_) => {
            store.rollback();
            Err(SpaceFault::Memory)
        }
    }
}

// Takes the records of a shipment, and its number, into the open transaction.
fn put_and_keep<D: Disk>(
    store: &mut Store<'_, D>,
    shape: Shape,
    bytes: &[u8],
) -> Result<(), SpaceFault>
    requires in_transaction { IsTrue store.old.base.in_transaction }
    requires allowed { is_allowed shape ≡ true }
    requires shipment { IsShipment shape bytes.now }
    ensures working { OnOk result (working store.new ≡ taken (drafted store.old) bytes.now) }
    ensures beneath { OnlyReadsBeneath D.Disk store.old.base store.new.base }
    ensures in_transaction { IsTrue store.new.base.in_transaction }
{
    put_shipment(store, shape, bytes)?;
    match store.keep() {
        Ok(()) => Ok(()),
        Err(_) => Err(SpaceFault::Memory),
    }
}
