ghost use Rattle.std.specs.Prelude.{
  ◌≡◌,
  ◌+◌,
  ◌*◌,
  ◌≤◌,
  ◌<◌,
  ◌^◌,
  ◌++◌,
  ℕ,
  OnErr,
  OnOk,
  flat_map,
  length,
  true,
  vec_capacity,
  vec_len,
};
ghost use Rattle.byteorder.specs.Endian.{little_bytes};
ghost use Rattle.rec_bytes.specs.Pairs.{Pairs};
ghost use Rattle.rec_bytes.specs.Shape.{is_allowed};
ghost use Rattle.rec_bytes.specs.declared.shape.Shape.{Shape as AShape};
ghost use Rattle.redo_log.specs.Appending.{AreWhole, write_bytes};
ghost use Rattle.follower.specs.Shipment.{IsShipment, most_shipped, number_of, writes_of};
ghost use Rattle.follower.specs.Shipping.{AreShipped, shipment_bytes};

use crate::shipment::place_of;
use byteorder::{ByteOrder, LittleEndian};
use rec_bytes::{Key, Rec, WriteSet};
use std::alloc::AllocError;

/// Puts the bytes of a shipment behind others: that of a transaction's records, under a number. All
/// memory is taken before the first of them is put.
pub fn write_shipment(number: u64, writes: &WriteSet, bytes: &mut Vec<u8>) -> Result<(), AllocError>
    requires few { length writes.now.pairs ≤ most_shipped }
    ensures written { OnOk result
        (bytes.new.items ≡ bytes.old.items ++ shipment_bytes number writes.now.pairs) }
    ensures whole { OnOk result (AreWhole writes.now.pairs) }
    ensures refused { OnErr result (bytes.new.items ≡ bytes.old.items) }
{
    let count = writes.len() as u16;
    bytes.reserve(place_of(count))?;
    add_head(bytes, number, count);
    add_writes(bytes, writes);
    Ok(())
}

// Adds the number of a shipment, and how many records it has.
fn add_head(bytes: &mut Vec<u8>, number: u64, count: u16)
    requires room { vec_len bytes.old + 10 ≤ vec_capacity bytes.old }
    ensures items { bytes.new.items
        ≡ bytes.old.items ++ (little_bytes 8 number ++ little_bytes 2 count) }
    ensures len { vec_len bytes.new ≡ vec_len bytes.old + 10 }
    ensures capacity { vec_capacity bytes.old ≤ vec_capacity bytes.new }
{
    let mut first = [0; 8];
    LittleEndian::write_u64(&mut first, number);
    add(bytes, &first);
    let mut second = [0; 2];
    LittleEndian::write_u16(&mut second, count);
    add(bytes, &second);
}

// Adds the records, one after the other.
fn add_writes(bytes: &mut Vec<u8>, writes: &WriteSet)
    requires room { vec_len bytes.old + 69 * length writes.now.pairs ≤ vec_capacity bytes.old }
    ensures items { bytes.new.items ≡ bytes.old.items ++ flat_map write_bytes writes.now.pairs }
    ensures whole { AreWhole writes.now.pairs }
{
    for i in 0..writes.len() {
        let write = writes.at(i);
        add_write(bytes, &write);
    }
}

// Adds a record: its file, its number in the file, and its 64 bytes.
fn add_write(bytes: &mut Vec<u8>, write: &(Key, Rec))
    requires room { vec_len bytes.old + 69 ≤ vec_capacity bytes.old }
    ensures items { bytes.new.items ≡ bytes.old.items ++ write_bytes write.now }
    ensures len { vec_len bytes.new ≡ vec_len bytes.old + 69 }
    ensures capacity { vec_capacity bytes.old ≤ vec_capacity bytes.new }
{
    let mut number = [0; 4];
    LittleEndian::write_u32(&mut number, write.0.id);
    add(bytes, &[write.0.file]);
    add(bytes, &number);
    add(bytes, &write.1.bytes);
}

// Adds bytes that there is room for.
fn add(bytes: &mut Vec<u8>, more: &[u8])
    requires room { vec_len bytes.old + length more.now ≤ vec_capacity bytes.old }
    ensures items { bytes.new.items ≡ bytes.old.items ++ more.now }
    ensures len { vec_len bytes.new ≡ vec_len bytes.old + length more.now }
    ensures capacity { vec_capacity bytes.old ≤ vec_capacity bytes.new }
{
    if bytes.extend_from_slice(more).is_err() {
        unreachable!();
    }
}

/// The bytes that a sender makes of a transaction's records are a shipment of them.
pub fn reads_back()
    ensures shipment { (shape : AShape) (number : ℕ) (writes : Pairs) → is_allowed shape ≡ true
        → number < 2 ^ 64 → AreShipped shape writes
        → IsShipment shape (shipment_bytes number writes) }
    ensures number { (shape : AShape) (number : ℕ) (writes : Pairs) → is_allowed shape ≡ true
        → number < 2 ^ 64 → AreShipped shape writes
        → number_of (shipment_bytes number writes) ≡ number }
    ensures writes { (shape : AShape) (number : ℕ) (writes : Pairs) → is_allowed shape ≡ true
        → number < 2 ^ 64 → AreShipped shape writes
        → writes_of (shipment_bytes number writes) ≡ writes }
{}
