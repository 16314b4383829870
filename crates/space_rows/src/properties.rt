ghost use Rattle.std.specs.Prelude.{IfOk};
ghost use Rattle.plain_graph.specs.Forms.{IsKept};
ghost use Rattle.prop_store.specs.Owner.{IsOwner};

use crate::call::{Call, key_of};
use crate::error::RowError;
use crate::reading::number_in;
use crate::spelling::{spell, spell_fault, spell_value};
use plain_graph::{Text, Value};
use prop_store::{Owner, add, drop_all, read_all, read_key, set, unset};
use rec_bytes::{MapSpace, NODE_FIRST_PROPERTY, NODES, RELATIONSHIP_FIRST_PROPERTY, RELATIONSHIPS};
use std::alloc::Global;

/// The calls of `prop_store`.
pub(crate) fn answer(alloc: Global, space: &mut MapSpace, call: &Call) -> Result<String, RowError> {
    let owner = owner_in(call)?;
    match (call.verb, call.count()) {
        (b"add", 3) => add_one(alloc, space, owner, call),
        (b"set", 3) => set_one(alloc, space, owner, call),
        (b"read_key", 3) => read_one(alloc, space, owner, call),
        (b"read_all", 2) => count_all(alloc, space, owner),
        (b"unset", 3) => spell(alloc, &unset(space, owner, call.at(2))),
        (b"drop_all", 2) => drop_each(alloc, space, owner),
        _ => Err(RowError::Malformed),
    }
}

/// The node or relationship whose file and number a call has first.
fn owner_in(call: &Call) -> Result<Owner, RowError>
    ensures { IfOk result (λ owner. IsOwner owner) }
{
    let key = key_of(call.byte(0), call.at(1))?;
    let field = match key.file {
        NODES => NODE_FIRST_PROPERTY,
        RELATIONSHIPS => RELATIONSHIP_FIRST_PROPERTY,
        _ => return Err(RowError::Malformed),
    };
    Ok(Owner { key, field })
}

/// The value of a call: `true`, `false`, a text of so many equal letters as `97x`, or a number.
pub(crate) fn value_in(alloc: Global, call: &Call) -> Result<Value, RowError>
    ensures { IfOk result (λ value. IsKept value) }
{
    match call.value {
        b"true" => Ok(Value::Bool(true)),
        b"false" => Ok(Value::Bool(false)),
        value => match value.split_last() {
            Some((letter, count)) if letter.is_ascii_alphabetic() => {
                long_text(alloc, *letter, count)
            }
            _ => whole_number(value),
        },
    }
}

fn long_text(alloc: Global, letter: u8, count: &[u8]) -> Result<Value, RowError>
    ensures { IfOk result (λ value. IsKept value) }
{
    let count = number_in(count)?;
    if count > 1024 {
        return Err(RowError::Malformed);
    }
    let bytes = vec![in alloc; letter; count as usize]?;
    Ok(Value::Text(Text::new(bytes)))
}

fn whole_number(text: &[u8]) -> Result<Value, RowError>
    ensures { IfOk result (λ value. IsKept value) }
{
    let Ok(text) = str::from_utf8(text) else {
        return Err(RowError::Malformed);
    };
    match text.parse::<i64>() {
        Ok(number) => Ok(Value::Int(number)),
        Err(_) => Err(RowError::Malformed),
    }
}

fn add_one(
    alloc: Global,
    space: &mut MapSpace,
    owner: Owner,
    call: &Call,
) -> Result<String, RowError>
    requires { IsOwner owner }
{
    let value = value_in(alloc, call)?;
    spell(alloc, &add(space, owner, call.at(2), &value))
}

fn set_one(
    alloc: Global,
    space: &mut MapSpace,
    owner: Owner,
    call: &Call,
) -> Result<String, RowError>
    requires { IsOwner owner }
{
    let value = value_in(alloc, call)?;
    spell(alloc, &set(space, owner, call.at(2), &value))
}

fn read_one(
    alloc: Global,
    space: &mut MapSpace,
    owner: Owner,
    call: &Call,
) -> Result<String, RowError>
    requires { IsOwner owner }
{
    match read_key(alloc, space, owner, call.at(2)) {
        Ok(Some(value)) => spell_value(alloc, &value),
        Ok(None) => spell(alloc, &None::<u8>),
        Err(fault) => spell_fault(alloc, &fault),
    }
}

/// How many properties there are.
fn count_all(alloc: Global, space: &mut MapSpace, owner: Owner) -> Result<String, RowError>
    requires { IsOwner owner }
{
    match read_all(alloc, space, owner) {
        Ok(found) => spell(alloc, &found.len()),
        Err(fault) => spell_fault(alloc, &fault),
    }
}

/// How many properties and blocks went.
fn drop_each(alloc: Global, space: &mut MapSpace, owner: Owner) -> Result<String, RowError>
    requires { IsOwner owner }
{
    match drop_all(space, owner) {
        Ok(gone) => spell(alloc, &(gone.properties, gone.blocks)),
        Err(fault) => spell_fault(alloc, &fault),
    }
}
