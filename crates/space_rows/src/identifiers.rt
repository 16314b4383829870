ghost use Rattle.std.specs.Prelude.{◌≡◌, IfOk, true};
ghost use Rattle.store_rules.specs.Ranges.{is_reused};

use crate::call::{Call, key_of};
use crate::error::RowError;
use crate::spelling::spell;
use id_freelist::{give, take};
use rec_bytes::{MapSpace, NAMES, is_meta_file};
use std::alloc::Global;

/// The calls of `id_freelist`.
pub(crate) fn answer(alloc: Global, space: &mut MapSpace, call: &Call) -> Result<String, RowError> {
    match (call.verb, call.count()) {
        (b"take", 1) => take_one(alloc, space, call),
        (b"give", 2) => give_one(alloc, space, call),
        _ => Err(RowError::Malformed),
    }
}

/// The file at the first place, whose identifiers are used again.
fn reused_in(call: &Call) -> Result<u8, RowError>
    ensures { IfOk result (λ file. is_reused file ≡ true) }
{
    let file = call.byte(0);
    if is_meta_file(file) && file != NAMES {
        Ok(file)
    } else {
        Err(RowError::Malformed)
    }
}

fn take_one(alloc: Global, space: &mut MapSpace, call: &Call) -> Result<String, RowError> {
    let file = reused_in(call)?;
    spell(alloc, &take(space, file))
}

fn give_one(alloc: Global, space: &mut MapSpace, call: &Call) -> Result<String, RowError> {
    let file = reused_in(call)?;
    let key = key_of(file, call.at(1))?;
    spell(alloc, &give(space, file, key.id))
}
