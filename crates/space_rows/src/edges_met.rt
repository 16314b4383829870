use crate::call::Call;
use crate::counted::Counted;
use crate::error::RowError;
use crate::spelling::{spell, spell_edges, spell_fault};
use expand::{degree, expand};
use plain_graph::Direction;
use std::alloc::Global;

/// The calls of `expand`, and what reads of the space there were since the last question for them.
pub(crate) fn answer(alloc: Global, space: &mut Counted, call: &Call) -> Result<String, RowError> {
    match call.verb {
        b"expand" => list(alloc, space, call),
        b"degree" => count(alloc, space, call),
        b"group" => spell(alloc, &group_store::load(space, call.at(0))),
        b"reads" => reads(alloc, space),
        _ => Err(RowError::Malformed),
    }
}

/// The direction at a place: out, in or both.
pub(crate) fn direction_in(call: &Call, place: usize) -> Direction {
    match call.at(place) {
        0 => Direction::Outgoing,
        1 => Direction::Incoming,
        _ => Direction::Both,
    }
}

fn list(alloc: Global, space: &mut Counted, call: &Call) -> Result<String, RowError> {
    let direction = direction_in(call, 1);
    match expand(alloc, space, call.at(0), direction, call.after(2)) {
        Ok(rows) => spell_edges(alloc, &rows),
        Err(fault) => spell_fault(alloc, &fault),
    }
}

fn count(alloc: Global, space: &mut Counted, call: &Call) -> Result<String, RowError> {
    let direction = direction_in(call, 1);
    let label = call.after(2).first().copied();
    spell(alloc, &degree(alloc, space, call.at(0), direction, label))
}

fn reads(alloc: Global, space: &mut Counted) -> Result<String, RowError> {
    let reads = space.reads;
    space.reads = 0;
    spell(alloc, &reads)
}
