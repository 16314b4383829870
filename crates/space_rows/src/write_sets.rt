ghost use Rattle.std.specs.Prelude.{◌<◌};

use crate::call::{Call, key_of};
use crate::error::RowError;
use crate::spaces::record_in;
use crate::spelling::{done, spell};
use rec_bytes::{Key, Rec, WriteSet};
use std::alloc::Global;

/// Two sets of written records.
#[derive(Drop)]
pub(crate) struct Sets {
    pub(crate) set: WriteSet,
    pub(crate) other: WriteSet,
}

/// The calls of the first set, and those that bring the other's records into it.
pub(crate) fn answer(alloc: Global, sets: &mut Sets, call: &Call) -> Result<String, RowError> {
    let Sets { set, other } = sets;
    match (call.verb, call.count()) {
        (b"put", _) => put(alloc, set, call),
        (b"edit", 3) => edit(alloc, set, call),
        (b"put_reserved", _) => put_reserved(alloc, other, call),
        (b"merge", 0) => merge(alloc, set, other),
        (b"len", 0) => spell(alloc, &set.len()),
        (b"at", 1) => at(alloc, set, call),
        (b"get", 1) => get(alloc, set, call),
        (b"find", 2) => find(alloc, set, call),
        (b"clear", 0) => clear(alloc, set),
        _ => Err(RowError::Malformed),
    }
}

fn put(alloc: Global, set: &mut WriteSet, call: &Call) -> Result<String, RowError> {
    let key = key_of(call.byte(0), call.at(1))?;
    spell(alloc, &set.put(key, record_in(call, 2)))
}

/// Sets the first byte of the record, which is one of zeros where there is none.
fn edit(alloc: Global, set: &mut WriteSet, call: &Call) -> Result<String, RowError> {
    let key = key_of(call.byte(0), call.at(1))?;
    set.edit(key, Rec::ZEROS)?.set_byte(0, call.byte(2));
    done(alloc)
}

fn put_reserved(alloc: Global, set: &mut WriteSet, call: &Call) -> Result<String, RowError> {
    let key = key_of(call.byte(0), call.at(1))?;
    set.reserve(1)?;
    set.put_reserved(key, record_in(call, 2));
    done(alloc)
}

/// Says how many keys are new.
fn merge(alloc: Global, set: &mut WriteSet, other: &WriteSet) -> Result<String, RowError> {
    let more = set.growth_by(other);
    set.reserve(more)?;
    set.merge(other);
    spell(alloc, &more)
}

fn clear(alloc: Global, set: &mut WriteSet) -> Result<String, RowError> {
    set.clear();
    done(alloc)
}

fn at(alloc: Global, set: &WriteSet, call: &Call) -> Result<String, RowError> {
    let place = call.at(0) as usize;
    if place < set.len() {
        let (key, rec) = set.at(place);
        spell_pair(alloc, key, &rec)
    } else {
        Err(RowError::Malformed)
    }
}

fn get(alloc: Global, set: &WriteSet, call: &Call) -> Result<String, RowError> {
    match set.get(call.at(0) as usize) {
        Some((key, rec)) => spell_pair(alloc, key, &rec),
        None => spell(alloc, &None::<u8>),
    }
}

fn find(alloc: Global, set: &WriteSet, call: &Call) -> Result<String, RowError> {
    let key = key_of(call.byte(0), call.at(1))?;
    match set.find(key) {
        Some(rec) => spell_pair(alloc, key, &rec),
        None => spell(alloc, &None::<u8>),
    }
}

/// Spells the key, and whether the record is the one that begins so and goes on with zeros.
fn spell_pair(alloc: Global, key: Key, rec: &Rec) -> Result<String, RowError> {
    let rest = rec.is_zero_from(1);
    spell(alloc, &(key.file, key.id, rec.byte(0), rest))
}
