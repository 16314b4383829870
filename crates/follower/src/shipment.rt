ghost use Rattle.std.specs.Prelude.{◌≡◌, ◌+◌, ◌*◌, ◌≤◌, ◌<◌, IfErr, IfOk, OnOk, length, true};
ghost use Rattle.rec_bytes.specs.Shape.{is_allowed};
ghost use Rattle.follower.specs.Shipment.{
  IsNoShipment,
  IsShipment,
  StopsInHead,
  count_of,
  key_at,
  most_shipped,
  number_of,
  write_in,
};
ghost use Rattle.follower.specs.Slot.{MayStand, StopsInRecord};

use crate::slot::Slot;
use byteorder::{ByteOrder, LittleEndian};
use rec_bytes::{Key, RECORD_BYTES, Rec, Shape};

/// How many records a shipment may have.
const MOST_SHIPPED: u16 = 2_047;

/// How many bytes stand before the records: the number of the shipment, and how many there are.
const HEAD_BYTES: usize = 10;

/// How many bytes a record takes: its file, its number in the file, and its 64 bytes.
const WRITE_BYTES: usize = 69;

/// How many of them are its file and its number.
const KEY_BYTES: usize = 5;

/// How many of these are its number.
const ID_BYTES: usize = 4;

// The number of a shipment.
pub(crate) fn number_of(bytes: &[u8]) -> u64
    requires { 10 ≤ length bytes.now }
    ensures { result ≡ number_of bytes.now }
{
    LittleEndian::read_u64(bytes)
}

// How many records it has.
pub(crate) fn count_of(bytes: &[u8]) -> u16
    requires { 10 ≤ length bytes.now }
    ensures { result ≡ count_of bytes.now }
{
    LittleEndian::read_u16(&bytes[8..])
}

// The record at a place, with its key.
pub(crate) fn write_in(bytes: &[u8], place: usize) -> (Key, Rec)
    requires { place + 69 ≤ length bytes.now }
    ensures { result ≡ write_in bytes.now place }
{
    let key = Key {
        file: bytes[place],
        id: LittleEndian::read_u32(&bytes[place + 1..]),
    };
    let mut record = [0; RECORD_BYTES];
    record.copy_from_slice(&bytes[place + KEY_BYTES..place + WRITE_BYTES]);
    (key, Rec { bytes: record })
}

// The place of the record of this index.
pub(crate) fn place_of(index: u16) -> usize
    ensures { result ≡ 10 + 69 * index }
{
    HEAD_BYTES + WRITE_BYTES * index as usize
}

/// Tests whether the bytes are a shipment for a store of this shape. If they are none, answers how
/// long their longest prefix is that begins one.
pub(crate) fn check_shipment(bytes: &[u8], shape: Shape) -> Result<(), usize>
    requires { is_allowed shape ≡ true }
    ensures good { OnOk result (IsShipment shape bytes.now) }
    ensures bad { IfErr result (IsNoShipment shape bytes.now) }
{
    let count = match check_head(bytes) {
        Ok(count) => count,
        Err(at) => return Err(at),
    };
    let mut last = None;
    for index in 0..count {
        let slot = Slot {
            shape,
            last,
            more: count - index - 1,
        };
        match check_write(bytes, place_of(index), &slot) {
            Ok(key) => last = Some(key),
            Err(at) => return Err(at),
        }
    }
    let end = place_of(count);
    if bytes.len() > end {
        return Err(end);
    }
    Ok(())
}

// How many records there are, where the bytes begin as a shipment does.
fn check_head(bytes: &[u8]) -> Result<u16, usize>
    ensures head { OnOk result (10 ≤ length bytes.now) }
    ensures count { IfOk result (λ count. count ≡ count_of bytes.now) }
    ensures few { IfOk result (λ count. count ≤ most_shipped) }
    ensures stops { IfErr result (StopsInHead bytes.now) }
{
    if bytes.len() < HEAD_BYTES {
        return Err(bytes.len());
    }
    let count = count_of(bytes);
    if count > MOST_SHIPPED {
        return Err(HEAD_BYTES - 1);
    }
    Ok(count)
}

// The key of the record at a place, where the record is whole and its key may stand in the slot.
fn check_write(bytes: &[u8], place: usize, slot: &Slot) -> Result<Key, usize>
    requires allowed { is_allowed slot.now.shape ≡ true }
    requires within { place ≤ length bytes.now }
    ensures key { IfOk result (λ key. key ≡ key_at bytes.now place) }
    ensures stands { IfOk result (MayStand slot.now) }
    ensures whole { OnOk result (place + 69 ≤ length bytes.now) }
    ensures stops { IfErr result (StopsInRecord slot.now bytes.now place) }
{
    match check_key(bytes, place, slot) {
        Ok(key) => {
            if bytes.len() - place < WRITE_BYTES {
                Err(bytes.len())
            } else {
                Ok(key)
            }
        }
        Err(at) => Err(at),
    }
}

// The key at a place, where it may stand in the slot. It is tested byte by byte, since its first
// bytes may already leave no key that may stand there.
fn check_key(bytes: &[u8], place: usize, slot: &Slot) -> Result<Key, usize>
    requires allowed { is_allowed slot.now.shape ≡ true }
    requires within { place ≤ length bytes.now }
    ensures key { IfOk result (λ key. key ≡ key_at bytes.now place) }
    ensures stands { IfOk result (MayStand slot.now) }
    ensures whole { OnOk result (place + 5 ≤ length bytes.now) }
    ensures stops { IfErr result (StopsInRecord slot.now bytes.now place) }
{
    if place == bytes.len() {
        return Err(place);
    }
    let file = bytes[place];
    let mut low: u64 = 0;
    let mut power: u64 = 1;
    if !slot.may_begin(file, low, power) {
        return Err(place);
    }
    for known in 0..ID_BYTES {
        let at = place + 1 + known;
        if at == bytes.len() {
            return Err(at);
        }
        low += power * bytes[at] as u64;
        power *= 256;
        if !slot.may_begin(file, low, power) {
            return Err(at);
        }
    }
    Ok(Key {
        file,
        id: low as u32,
    })
}
