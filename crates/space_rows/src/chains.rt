ghost use Rattle.std.specs.Prelude.{IfOk};
ghost use Rattle.chain_edit.specs.Heads.{head_of, IsHead};

use crate::call::{Call, key_of};
use crate::error::RowError;
use crate::spelling::{spell, spell_edges, spell_fault};
use chain_edit::{Chain, Head, Members, chain_length, push_front, unlink, walk};
use rec_bytes::{Key, MapSpace, RELATIONSHIPS};
use std::alloc::Global;

/// The calls of `chain_edit`.
pub(crate) fn answer(alloc: Global, space: &mut MapSpace, call: &Call) -> Result<String, RowError> {
    match (call.verb, call.count()) {
        (b"push_front", 5) => push(alloc, space, call),
        (b"unlink", 5) => take_out(alloc, space, call),
        (b"walk", 5) => walk_on(alloc, space, call),
        (b"chain_length", 8) => length(alloc, space, call),
        _ => Err(RowError::Malformed),
    }
}

/// The head whose file, number and field a call has first.
pub(crate) fn head_in(call: &Call) -> Result<Head, RowError>
    ensures { IfOk result (λ head. IsHead (head_of head)) }
{
    let key = key_of(call.byte(0), call.at(1))?;
    let field = call.byte(2);
    if key.file != RELATIONSHIPS && field % 4 == 0 && field <= 60 {
        Ok(Head { key, field })
    } else {
        Err(RowError::Malformed)
    }
}

fn push(alloc: Global, space: &mut MapSpace, call: &Call) -> Result<String, RowError> {
    let head = head_in(call)?;
    let rel = key_of(RELATIONSHIPS, call.at(4))?;
    spell(alloc, &push_front(space, head, call.at(3), rel.id))
}

fn take_out(alloc: Global, space: &mut MapSpace, call: &Call) -> Result<String, RowError> {
    let head = head_in(call)?;
    let rel = key_of(RELATIONSHIPS, call.at(4))?;
    spell(alloc, &unlink(space, head, call.at(3), rel.id))
}

/// The chain of a node from a relationship on, which the record of this file and number has.
fn chain_in(call: &Call) -> Chain {
    let owner = Key {
        file: call.byte(0),
        id: call.at(1),
    };
    Chain {
        owner,
        node: call.at(2),
        first: call.at(3),
    }
}

fn walk_on(alloc: Global, space: &mut MapSpace, call: &Call) -> Result<String, RowError> {
    match walk(alloc, space, &chain_in(call), call.at(4)) {
        Ok(rows) => spell_edges(alloc, &rows),
        Err(fault) => spell_fault(alloc, &fault),
    }
}

fn length(alloc: Global, space: &mut MapSpace, call: &Call) -> Result<String, RowError> {
    let members = Members {
        label: call.at(4),
        leaves: call.is(5),
        enters: call.is(6),
    };
    spell(
        alloc,
        &chain_length(space, &chain_in(call), members, call.at(7)),
    )
}
