use crate::call::Call;
use crate::error::RowError;
use crate::properties::value_in;
use crate::spelling::spell;
use prop_index::{lookup, make};
use rec_bytes::MapSpace;
use std::alloc::Global;

/// The calls of `prop_index`. A label and a key are numbers of names.
pub(crate) fn answer(alloc: Global, space: &mut MapSpace, call: &Call) -> Result<String, RowError> {
    match (call.verb, call.count()) {
        (b"make", 2) => spell(alloc, &make(alloc, space, call.at(0), call.at(1))),
        (b"lookup", 2) => look_up(alloc, space, call),
        _ => Err(RowError::Malformed),
    }
}

/// The nodes of a label whose key has the value of the call.
fn look_up(alloc: Global, space: &mut MapSpace, call: &Call) -> Result<String, RowError> {
    let value = value_in(alloc, call)?;
    spell(alloc, &lookup(alloc, space, call.at(0), call.at(1), &value))
}
