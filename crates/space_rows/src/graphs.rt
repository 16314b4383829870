use crate::call::Call;
use crate::error::RowError;
use crate::mutations;
use crate::names::name_in;
use crate::properties::value_in;
use crate::spelling::spell;
use graph_ops::{add_edge, add_node, delete_edge, delete_node, set, unset};
use name_store::Names;
use plain_graph::{Pairs, Target, Text};
use rec_bytes::MapSpace;
use std::alloc::Global;

/// The calls of `graph_ops`.
pub(crate) fn answer(
    alloc: Global,
    space: &mut MapSpace,
    names: &mut Names,
    call: &Call,
) -> Result<String, RowError> {
    match (call.verb, call.count()) {
        (b"add_node", 0) => node(alloc, space, names, call),
        (b"add_nodes", 1) => nodes(alloc, space, names, call),
        (b"add_edge", 2) => edge(alloc, space, names, call),
        (b"delete_node", 1) => spell(alloc, &delete_node(alloc, space, names, call.at(0))),
        (b"delete_edge", 1) => spell(alloc, &delete_edge(space, names, call.at(0))),
        (b"set", 2) => set_one(alloc, space, names, call),
        (b"unset", 2) => unset_one(alloc, space, names, call),
        _ => mutations::answer(alloc, space, names, call),
    }
}

/// Adds a node without properties.
fn node(
    alloc: Global,
    space: &mut MapSpace,
    names: &mut Names,
    call: &Call,
) -> Result<String, RowError> {
    let label = Text::new(Vec::from_slice(alloc, name_in(call)?)?);
    let no_pairs = Pairs::new(Vec::new(alloc));
    spell(alloc, &add_node(alloc, space, names, &label, &no_pairs))
}

/// Adds so many nodes without properties. Their number is answered.
fn nodes(
    alloc: Global,
    space: &mut MapSpace,
    names: &mut Names,
    call: &Call,
) -> Result<String, RowError> {
    for _ in 0..call.at(0) {
        let label = Text::new(Vec::from_slice(alloc, name_in(call)?)?);
        let no_pairs = Pairs::new(Vec::new(alloc));
        if add_node(alloc, space, names, &label, &no_pairs).is_err() {
            return Err(RowError::Malformed);
        }
    }
    spell(alloc, &call.at(0))
}

/// Adds an edge without properties from one node to another.
fn edge(
    alloc: Global,
    space: &mut MapSpace,
    names: &mut Names,
    call: &Call,
) -> Result<String, RowError> {
    let label = Text::new(Vec::from_slice(alloc, name_in(call)?)?);
    let no_pairs = Pairs::new(Vec::new(alloc));
    let (from, to) = (call.at(0), call.at(1));
    spell(alloc, &add_edge(space, names, from, &label, to, &no_pairs))
}

/// A node where the first number is 1, and an edge where it is 2.
fn target_in(call: &Call) -> Target {
    if call.at(0) == 1 {
        Target::Node(call.at(1))
    } else {
        Target::Edge(call.at(1))
    }
}

fn set_one(
    alloc: Global,
    space: &mut MapSpace,
    names: &mut Names,
    call: &Call,
) -> Result<String, RowError> {
    let key = Text::new(Vec::from_slice(alloc, name_in(call)?)?);
    let value = value_in(alloc, call)?;
    spell(
        alloc,
        &set(alloc, space, names, target_in(call), &key, &value),
    )
}

fn unset_one(
    alloc: Global,
    space: &mut MapSpace,
    names: &Names,
    call: &Call,
) -> Result<String, RowError> {
    let key = Text::new(Vec::from_slice(alloc, name_in(call)?)?);
    spell(alloc, &unset(alloc, space, names, target_in(call), &key))
}
