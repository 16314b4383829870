use crate::call::{Call, key_of};
use crate::error::RowError;
use crate::spelling::spell;
use node_store::{NodeRow, load, save};
use rec_bytes::{MapSpace, NODES};
use std::alloc::Global;

/// The calls of `node_store`.
pub(crate) fn answer(alloc: Global, space: &mut MapSpace, call: &Call) -> Result<String, RowError> {
    match (call.verb, call.count()) {
        (b"save", 6) => save_row(alloc, space, call),
        (b"load", 1) => spell(alloc, &load(space, call.at(0))),
        (b"change", 6) => change(alloc, space, call),
        _ => Err(RowError::Malformed),
    }
}

fn save_row(alloc: Global, space: &mut MapSpace, call: &Call) -> Result<String, RowError> {
    let row = NodeRow {
        id: call.at(0),
        label: call.at(1),
        dense: call.is(2),
        first: call.at(3),
        props: call.at(4),
        degree: call.at(5),
    };
    let _key = key_of(NODES, row.id)?;
    spell(alloc, &save(space, &row))
}

/// The row that is loaded with all of its fields set anew.
fn change(alloc: Global, space: &mut MapSpace, call: &Call) -> Result<String, RowError> {
    let Ok(Some(mut row)) = load(space, call.at(0)) else {
        return Err(RowError::Malformed);
    };
    row.set_label(call.at(1));
    row.set_dense(call.is(2));
    row.set_first(call.at(3));
    row.set_props(call.at(4));
    row.set_degree(call.at(5));
    spell(alloc, &row)
}
