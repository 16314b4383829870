ghost use Rattle.std.specs.Prelude.{◌≡◌, IfErr, OnOk, true};
ghost use Rattle.rec_bytes.specs.Shape.{is_allowed};
ghost use Rattle.rec_bytes.specs.Space.{HasCause};
ghost use Rattle.follower.specs.Shipment.{IsShipment};
ghost use Rattle.follower.specs.Taken.{number_record, taken};

use crate::shipment::{count_of, number_of, place_of, write_in};
use rec_bytes::{Rec, Shape, Space, SpaceFault, TAKEN_NUMBER};
use txn_core::TAKEN_KEY;

/// Puts the records of a shipment into a space, and its number.
pub(crate) fn put_shipment<S: Space>(
    space: &mut S,
    shape: Shape,
    bytes: &[u8],
) -> Result<(), SpaceFault>
    requires allowed { is_allowed shape ≡ true }
    requires shipment { IsShipment shape bytes.now }
    ensures ok { OnOk result
        ((S.state space.new).records ≡ taken (S.state space.old).records bytes.now) }
    ensures refused { IfErr result (λ fault. fault ≡ SpaceFault.Memory) }
    ensures onward { S.onward space.old space.new }
    ensures cause { HasCause (S.faults space.old) (S.faults space.new) result }
{
    for index in 0..count_of(bytes) {
        let (key, rec) = write_in(bytes, place_of(index));
        space.put(key, rec)?;
    }
    space.put(TAKEN_KEY, number_record(number_of(bytes)))
}

// The record with a follower's number.
fn number_record(number: u64) -> Rec
    ensures { result ≡ number_record number }
{
    let mut rec = Rec::ZEROS;
    rec.set_wide(TAKEN_NUMBER, number);
    rec
}
