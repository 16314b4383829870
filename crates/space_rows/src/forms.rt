ghost use Rattle.std.specs.Prelude.{◌<◌};

use crate::call::Call;
use crate::error::RowError;
use crate::spaces::{meta_in, shape_in};
use crate::spelling::{spell, spell_record};
use rec_bytes::{
    Meta, Rec, Shape, first_meta, is_meta_file, is_meta_right, is_record_file, meta_key, room_of,
};
use std::alloc::Global;

/// The calls about the form of the record at hand, and of files.
pub(crate) fn answer(alloc: Global, rec: &mut Rec, call: &Call) -> Result<String, RowError> {
    match (call.verb, call.count()) {
        (b"file", 1) => return file(alloc, call),
        (b"meta", 0) => return spell(alloc, &Meta::of(rec)),
        (b"is_in_range", 3) => return is_in_range(alloc, rec, call),
        (b"is_meta_right", 3) => return is_right(alloc, rec, call),
        (b"shape", 0) => return spell(alloc, &Shape::of(rec)),
        (b"write_meta", 3) => meta_in(call, 0).write(rec),
        (b"to_record", 3) => *rec = meta_in(call, 0).to_record(),
        (b"first_meta", 1) => *rec = first_meta(call.byte(0)),
        (b"write_shape", 2) => shape_in(call, 0).write(rec),
        _ => return Err(RowError::Malformed),
    }
    spell_record(alloc, rec)
}

fn is_in_range(alloc: Global, rec: &Rec, call: &Call) -> Result<String, RowError> {
    spell(
        alloc,
        &Meta::is_in_range(rec, call.byte(0), shape_in(call, 1)),
    )
}

/// Whether the record is right in the versions 1, 2 and 3.
fn is_right(alloc: Global, rec: &Rec, call: &Call) -> Result<String, RowError> {
    let (id, shape) = (call.at(0), shape_in(call, 1));
    if id >= 9 {
        return Err(RowError::Malformed);
    }
    let first = is_meta_right(rec, id, 1, shape);
    let second = is_meta_right(rec, id, 2, shape);
    spell(alloc, &[first, second, is_meta_right(rec, id, 3, shape)])
}

/// Whether a file has records and a meta record, its room in the largest store, and the key of its
/// meta record.
fn file(alloc: Global, call: &Call) -> Result<String, RowError> {
    let file = call.byte(0);
    let shape = Shape {
        threshold: 50,
        limit: u32::MAX,
    };
    let (has_records, has_meta) = (is_record_file(file), is_meta_file(file));
    let (room, key) = (room_of(file, shape), meta_key(file));
    spell(alloc, &(has_records, has_meta, room, key))
}
