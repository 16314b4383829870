use crate::call::{Call, key_of};
use crate::error::RowError;
use crate::spelling::spell;
use rec_bytes::{MapSpace, RELATIONSHIPS, Reads};
use rel_store::{EdgeRow, Linked, RelRow, end_links, load, place_of, save};
use std::alloc::Global;

/// The calls of `rel_store`.
pub(crate) fn answer(alloc: Global, space: &mut MapSpace, call: &Call) -> Result<String, RowError> {
    match (call.verb, call.count()) {
        (b"save", 9) => save_row(alloc, space, call),
        (b"load", 1) => spell(alloc, &load(space, call.at(0))),
        (b"edge", 1) => edge(alloc, space, call),
        (b"place_of", 2) => place(alloc, space, call),
        (b"end_links", 2) => end(alloc, &loaded(space, call)?, call),
        (b"links", 1) => links(alloc, &loaded(space, call)?),
        (b"set_links", 5) => set_links(alloc, loaded(space, call)?, call),
        (b"change", 9) => change(alloc, loaded(space, call)?, call),
        _ => Err(RowError::Malformed),
    }
}

fn save_row(alloc: Global, space: &mut MapSpace, call: &Call) -> Result<String, RowError> {
    let row = RelRow {
        id: call.at(0),
        label: call.at(1),
        from: call.at(2),
        to: call.at(3),
        source_previous: call.at(4),
        source_next: call.at(5),
        target_previous: call.at(6),
        target_next: call.at(7),
        property: call.at(8),
    };
    let _key = key_of(RELATIONSHIPS, row.id)?;
    spell(alloc, &save(space, &row))
}

fn loaded(space: &mut MapSpace, call: &Call) -> Result<RelRow, RowError> {
    match load(space, call.at(0)) {
        Ok(Some(row)) => Ok(row),
        _ => Err(RowError::Malformed),
    }
}

fn edge(alloc: Global, space: &mut MapSpace, call: &Call) -> Result<String, RowError> {
    let key = key_of(RELATIONSHIPS, call.at(0))?;
    spell(alloc, &space.get(key).map(|rec| EdgeRow::of(&rec, key.id)))
}

fn place(alloc: Global, space: &mut MapSpace, call: &Call) -> Result<String, RowError> {
    let key = key_of(RELATIONSHIPS, call.at(0))?;
    spell(alloc, &space.get(key).map(|rec| place_of(&rec, call.at(1))))
}

fn end(alloc: Global, row: &RelRow, call: &Call) -> Result<String, RowError> {
    spell(alloc, &end_links(row, call.at(1)))
}

fn links(alloc: Global, row: &RelRow) -> Result<String, RowError> {
    let links = [row.link(16), row.link(20), row.link(24), row.link(28)];
    spell(alloc, &links)
}

/// The links of the row with all of them set anew.
fn set_links(alloc: Global, mut row: RelRow, call: &Call) -> Result<String, RowError> {
    row.set_link(16, call.at(1));
    row.set_link(20, call.at(2));
    row.set_link(24, call.at(3));
    row.set_link(28, call.at(4));
    links(alloc, &row)
}

/// The row with all of its fields set anew.
fn change(alloc: Global, mut row: RelRow, call: &Call) -> Result<String, RowError> {
    row.set_label(call.at(1));
    row.set_from(call.at(2));
    row.set_to(call.at(3));
    row.set_source_previous(call.at(4));
    row.set_source_next(call.at(5));
    row.set_target_previous(call.at(6));
    row.set_target_next(call.at(7));
    row.set_property(call.at(8));
    spell(alloc, &row)
}
