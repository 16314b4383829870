ghost use Rattle.std.specs.Prelude.{◌+◌, ◌≤◌, IfOk};

use crate::call::Call;
use crate::error::RowError;
use crate::spaces::record_in;
use crate::spelling::{spell, spell_record};
use rec_bytes::Rec;
use std::alloc::Global;

/// The calls of the record at hand.
pub(crate) fn answer(alloc: Global, rec: &mut Rec, call: &Call) -> Result<String, RowError> {
    match (call.verb, call.count()) {
        (b"of", _) => *rec = record_in(call, 0),
        (b"set_byte", 2) => set_byte(rec, call)?,
        (b"set_short", 2) => set_short(rec, call)?,
        (b"set_number", 2) => set_number(rec, call)?,
        (b"set_wide", 3) => set_wide(rec, call)?,
        (b"numbers", 1) => return numbers(alloc, rec, call),
        _ => return Err(RowError::Malformed),
    }
    spell_record(alloc, rec)
}

/// A place in a record from which on there are so many bytes.
fn place_before(call: &Call, bytes: u8) -> Result<u8, RowError>
    requires { bytes ≤ 64 }
    ensures { IfOk result (λ place. place + bytes ≤ 64) }
{
    let place = call.byte(0);
    if place <= 64 - bytes {
        Ok(place)
    } else {
        Err(RowError::Malformed)
    }
}

fn set_byte(rec: &mut Rec, call: &Call) -> Result<(), RowError> {
    let place = place_before(call, 1)?;
    rec.set_byte(place, call.byte(1));
    Ok(())
}

fn set_short(rec: &mut Rec, call: &Call) -> Result<(), RowError> {
    let place = place_before(call, 2)?;
    rec.set_short(place, call.at(1).min(65_535) as u16);
    Ok(())
}

fn set_number(rec: &mut Rec, call: &Call) -> Result<(), RowError> {
    let place = place_before(call, 4)?;
    rec.set_number(place, call.at(1));
    Ok(())
}

/// The lower half of the number stands first.
fn set_wide(rec: &mut Rec, call: &Call) -> Result<(), RowError> {
    let place = place_before(call, 8)?;
    rec.set_wide(place, call.at(1) as u64 + call.at(2) as u64 * 4_294_967_296);
    Ok(())
}

/// The numbers of one, two, four and eight bytes from a place on.
fn numbers(alloc: Global, rec: &Rec, call: &Call) -> Result<String, RowError> {
    let place = place_before(call, 8)?;
    let (byte, short) = (rec.byte(place), rec.short(place));
    let (number, wide) = (rec.number(place), rec.wide(place));
    spell(alloc, &(byte, short, number, wide))
}
