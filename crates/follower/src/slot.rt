ghost use Rattle.std.specs.Prelude.{◌≡◌, ◌≤◌, ◌<◌, ◌^◌, ◌↔◌, IsTrue, true};
ghost use Rattle.rec_bytes.specs.Format.{most_ids};
ghost use Rattle.rec_bytes.specs.Shape.{is_allowed};
ghost use Rattle.follower.specs.Shipment.{IsNext};
ghost use Rattle.follower.specs.Slot.{
  BeginsIn,
  IsLeastFrom,
  IsPower,
  MayStand,
  least_above,
  least_next,
  keys_after,
  keys_in_after,
};

use rec_bytes::{INDEX, Key, NAMES, Shape, room_of};
use txn_core::{is_kept_back, is_shipped};

/// The slot of a key in a shipment: the key before it, and how many records come after it.
#[derive(Drop)]
pub(crate) struct Slot {
    pub(crate) shape: Shape,
    pub(crate) last: Option<Key>,
    pub(crate) more: u16,
}

impl Slot {
    /// Whether a key of this file may stand here whose id is `low` and a multiple of `power`.
    pub(crate) fn may_begin(&self, file: u8, low: u64, power: u64) -> bool
        requires allowed { is_allowed self.now.shape ≡ true }
        requires is_power { IsPower power }
        requires below { low < power }
        ensures { IsTrue result ↔ BeginsIn self.now file low power }
    {
        let id = least_from(least_next(self.last, file), low, power);
        if id > u32::MAX as u64 {
            return false;
        }
        self.may_have(Key {
            file,
            id: id as u32,
        })
    }

    // Whether this key may.
    fn may_have(&self, key: Key) -> bool
        requires { is_allowed self.now.shape ≡ true }
        ensures { IsTrue result ↔ MayStand self.now key }
    {
        is_next(self.shape, self.last, key) && self.more as u64 <= keys_after(self.shape, key)
    }
}

// Whether a shipment may have the key after that of the last one.
fn is_next(shape: Shape, last: Option<Key>, key: Key) -> bool
    ensures { IsTrue result ↔ IsNext shape last key }
{
    is_shipped(shape, key) && last.is_none_or(|last| last < key)
}

// How many keys of the names and of the index come after the key.
fn keys_after(shape: Shape, key: Key) -> u64
    requires { is_allowed shape ≡ true }
    ensures { result ≡ keys_after shape key }
{
    keys_in_after(shape, NAMES, key) + keys_in_after(shape, INDEX, key)
}

// How many keys of this file do.
fn keys_in_after(shape: Shape, file: u8, key: Key) -> u64
    requires { is_allowed shape ≡ true }
    ensures is { result ≡ keys_in_after shape file key }
    ensures few { result ≤ most_ids }
{
    if key.file < file {
        room_of(file, shape)
    } else if key.file == file {
        room_of(file, shape).saturating_sub(key.id as u64 + 1)
    } else {
        0
    }
}

// The least id in this file that may come after the last key, unless that is in a later file.
fn least_next(last: Option<Key>, file: u8) -> u64
    ensures is { result ≡ least_next last file }
    ensures small { result ≤ 2 ^ 33 }
{
    let first = least_above(last, file);
    if is_kept_back(file, first) {
        first + 1
    } else {
        first
    }
}

// The least id in this file whose key is above the last one, unless that is in a later file.
fn least_above(last: Option<Key>, file: u8) -> u64
    ensures is { result ≡ least_above last file }
    ensures small { result ≤ 2 ^ 32 }
{
    match last {
        None => 0,
        Some(last) => {
            if last.file == file {
                last.id as u64 + 1
            } else {
                0
            }
        }
    }
}

// The least id from the first one on that is `low` and a multiple of `power`.
fn least_from(first: u64, low: u64, power: u64) -> u64
    requires is_power { IsPower power }
    requires below { low < power }
    requires small { first ≤ 2 ^ 33 }
    ensures { IsLeastFrom first low power result }
{
    let gap = first.saturating_sub(low);
    low + (gap + (power - 1)) / power * power
}
