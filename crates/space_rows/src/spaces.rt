ghost use Rattle.std.specs.Prelude.{◌≡◌, IfOk, true};
ghost use Rattle.rec_bytes.specs.RecordFiles.{is_meta_file};

use crate::call::{Call, key_of};
use crate::error::RowError;
use crate::spelling::{spell, spell_fault, spell_record};
use rec_bytes::{
    MapSpace, Meta, Reads, Rec, Shape, Space, change_meta, is_meta_file, set_byte, set_number,
};
use std::alloc::Global;

/// The calls of a space.
pub(crate) fn answer(alloc: Global, space: &mut MapSpace, call: &Call) -> Result<String, RowError> {
    match (call.verb, call.count()) {
        (b"get", 2) => get(alloc, space, call),
        (b"number", 3) => number(alloc, space, call),
        (b"put", _) => put(alloc, space, call),
        (b"set_number", 4) => put_number(alloc, space, call),
        (b"set_byte", 4) => put_byte(alloc, space, call),
        (b"change_meta", 4) => put_meta(alloc, space, call),
        (b"meta", 1) => meta(alloc, space, call),
        (b"live", 1) => live(alloc, space, call),
        (b"shape", 0) => spell(alloc, &space.shape()),
        _ => Err(RowError::Malformed),
    }
}

/// A new space of the shape.
pub(crate) fn new_space(alloc: Global, call: &Call) -> Result<MapSpace, RowError> {
    let shape = shape_in(call, 0);
    if shape.is_allowed() {
        Ok(MapSpace::new(alloc, shape)?)
    } else {
        Err(RowError::Malformed)
    }
}

/// The shape that a call has from this place on.
pub(crate) fn shape_in(call: &Call, place: usize) -> Shape {
    let later = call.after(place);
    Shape {
        threshold: later.first().copied().unwrap_or(0).min(65_535) as u16,
        limit: later.get(1).copied().unwrap_or(0),
    }
}

/// The record that begins with the numbers that a call has from this place on.
pub(crate) fn record_in(call: &Call, place: usize) -> Rec {
    let mut rec = Rec::ZEROS;
    for (byte, number) in rec.bytes.iter_mut().zip(call.after(place)) {
        *byte = (*number).min(255) as u8;
    }
    rec
}

/// The meta record that a call has from this place on.
pub(crate) fn meta_in(call: &Call, place: usize) -> Meta {
    let later = call.after(place);
    Meta {
        high: later.first().copied().unwrap_or(0),
        free: later.get(1).copied().unwrap_or(0),
        live: later.get(2).copied().unwrap_or(0),
    }
}

/// The file at this place, which has a meta record.
pub(crate) fn meta_file_in(call: &Call, place: usize) -> Result<u8, RowError>
    ensures { IfOk result (λ file. is_meta_file file ≡ true) }
{
    let file = call.byte(place);
    if is_meta_file(file) {
        Ok(file)
    } else {
        Err(RowError::Malformed)
    }
}

fn get(alloc: Global, space: &mut MapSpace, call: &Call) -> Result<String, RowError> {
    let key = key_of(call.byte(0), call.at(1))?;
    match space.get(key) {
        Ok(rec) => spell_record(alloc, &rec),
        Err(fault) => spell_fault(alloc, &fault),
    }
}

/// The number in the four bytes of a record from a place on.
fn number(alloc: Global, space: &mut MapSpace, call: &Call) -> Result<String, RowError> {
    let key = key_of(call.byte(0), call.at(1))?;
    let place = call.byte(2);
    if place > 60 {
        return Err(RowError::Malformed);
    }
    match space.get(key) {
        Ok(rec) => spell(alloc, &rec.number(place)),
        Err(fault) => spell_fault(alloc, &fault),
    }
}

fn put(alloc: Global, space: &mut MapSpace, call: &Call) -> Result<String, RowError> {
    let key = key_of(call.byte(0), call.at(1))?;
    spell(alloc, &space.put(key, record_in(call, 2)))
}

fn put_number(alloc: Global, space: &mut MapSpace, call: &Call) -> Result<String, RowError> {
    let key = key_of(call.byte(0), call.at(1))?;
    let place = call.byte(2);
    if place > 60 {
        return Err(RowError::Malformed);
    }
    spell(alloc, &set_number(space, key, place, call.at(3)))
}

fn put_byte(alloc: Global, space: &mut MapSpace, call: &Call) -> Result<String, RowError> {
    let key = key_of(call.byte(0), call.at(1))?;
    let place = call.byte(2);
    if place > 63 {
        return Err(RowError::Malformed);
    }
    spell(alloc, &set_byte(space, key, place, call.byte(3)))
}

fn put_meta(alloc: Global, space: &mut MapSpace, call: &Call) -> Result<String, RowError> {
    let file = meta_file_in(call, 0)?;
    spell(alloc, &change_meta(space, file, meta_in(call, 1)))
}

fn meta(alloc: Global, space: &mut MapSpace, call: &Call) -> Result<String, RowError> {
    let file = meta_file_in(call, 0)?;
    spell(alloc, &space.meta(file))
}

/// How many records of a file are in use.
fn live(alloc: Global, space: &mut MapSpace, call: &Call) -> Result<String, RowError> {
    let file = meta_file_in(call, 0)?;
    spell(alloc, &space.meta(file).live)
}
