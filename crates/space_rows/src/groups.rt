use crate::call::{Call, key_of};
use crate::chains::head_in;
use crate::error::RowError;
use crate::spelling::spell;
use group_store::{
    drop_if_empty, find_group, groups, make_dense, make_group, push_counted, unlink_counted,
};
use rec_bytes::{MapSpace, NODES, RELATIONSHIPS};
use std::alloc::Global;

/// The calls of `group_store`.
pub(crate) fn answer(alloc: Global, space: &mut MapSpace, call: &Call) -> Result<String, RowError> {
    match (call.verb, call.count()) {
        (b"make_group", 2) => make(alloc, space, call),
        (b"find_group", 2) => find(alloc, space, call),
        (b"groups", 1) => list(alloc, space, call),
        (b"drop_if_empty", 2) => drop_one(alloc, space, call),
        (b"make_dense", 2) => densen(alloc, space, call),
        (b"push_counted", 5) => push(alloc, space, call),
        (b"unlink_counted", 5) => take_out(alloc, space, call),
        _ => Err(RowError::Malformed),
    }
}

fn make(alloc: Global, space: &mut MapSpace, call: &Call) -> Result<String, RowError> {
    spell(alloc, &make_group(space, call.at(0), call.at(1)))
}

fn find(alloc: Global, space: &mut MapSpace, call: &Call) -> Result<String, RowError> {
    spell(alloc, &find_group(space, call.at(0), call.at(1)))
}

/// The groups of a node, from its row on.
fn list(alloc: Global, space: &mut MapSpace, call: &Call) -> Result<String, RowError> {
    let Ok(Some(row)) = node_store::load(space, call.at(0)) else {
        return Err(RowError::Malformed);
    };
    spell(alloc, &groups(alloc, space, &row))
}

fn drop_one(alloc: Global, space: &mut MapSpace, call: &Call) -> Result<String, RowError> {
    let node = key_of(NODES, call.at(0))?;
    spell(alloc, &drop_if_empty(space, node.id, call.at(1)))
}

fn densen(alloc: Global, space: &mut MapSpace, call: &Call) -> Result<String, RowError> {
    let threshold = call.at(1);
    if threshold > 200 {
        return Err(RowError::Malformed);
    }
    spell(alloc, &make_dense(space, call.at(0), threshold))
}

fn push(alloc: Global, space: &mut MapSpace, call: &Call) -> Result<String, RowError> {
    let head = head_in(call)?;
    let rel = key_of(RELATIONSHIPS, call.at(4))?;
    spell(alloc, &push_counted(space, head, call.at(3), rel.id))
}

fn take_out(alloc: Global, space: &mut MapSpace, call: &Call) -> Result<String, RowError> {
    let head = head_in(call)?;
    let rel = key_of(RELATIONSHIPS, call.at(4))?;
    spell(alloc, &unlink_counted(space, head, call.at(3), rel.id))
}
