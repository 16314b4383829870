ghost use Rattle.std.specs.Prelude.{◌<◌, IfOk};
ghost use Rattle.plain_graph.specs.Names.{IsShortName};

use crate::call::Call;
use crate::error::RowError;
use crate::spelling::{spell, spell_fault};
use name_store::{Names, load};
use plain_graph::is_short_name;
use rec_bytes::MapSpace;
use std::alloc::Global;

/// The calls of `name_store`.
pub(crate) fn answer(
    alloc: Global,
    space: &mut MapSpace,
    names: &mut Names,
    call: &Call,
) -> Result<String, RowError> {
    match (call.verb, call.count()) {
        (b"load", 0) => reload(alloc, space, names),
        (b"intern", 0) => intern(alloc, space, names, call),
        (b"intern_many", 1) => intern_many(alloc, space, names, call),
        (b"hold", 0) => hold(alloc, names, call),
        (b"find", 0) => spell(alloc, &names.find(call.text)),
        (b"text", 1) => text(alloc, names, call),
        (b"count", 0) => spell(alloc, &names.count()),
        (b"cut", 1) => cut(alloc, names, call),
        (b"again", 0) => spell(alloc, &names.again(space)),
        _ => Err(RowError::Malformed),
    }
}

/// The names of the space come in place of those at hand. Their number is answered.
fn reload(alloc: Global, space: &mut MapSpace, names: &mut Names) -> Result<String, RowError> {
    match load(alloc, space) {
        Ok(found) => *names = found,
        Err(fault) => return spell_fault(alloc, &fault),
    }
    Ok(format!(in alloc; "Ok({})", names.count())?)
}

/// A name that a store may have.
pub(crate) fn name_in<'a>(call: &Call<'a>) -> Result<&'a [u8], RowError>
    ensures { IfOk result (λ name. IsShortName name.now) }
{
    if is_short_name(call.text) {
        Ok(call.text)
    } else {
        Err(RowError::Malformed)
    }
}

fn intern(
    alloc: Global,
    space: &mut MapSpace,
    names: &mut Names,
    call: &Call,
) -> Result<String, RowError> {
    let name = name_in(call)?;
    spell(alloc, &names.intern(space, name))
}

fn hold(alloc: Global, names: &mut Names, call: &Call) -> Result<String, RowError> {
    let name = name_in(call)?;
    spell(alloc, &names.hold(name))
}

fn text(alloc: Global, names: &Names, call: &Call) -> Result<String, RowError> {
    let id = call.at(0);
    if id >= names.count() {
        return Err(RowError::Malformed);
    }
    match str::from_utf8(names.text(id)) {
        Ok(text) => spell(alloc, &text),
        Err(_) => Err(RowError::Malformed),
    }
}

fn cut(alloc: Global, names: &mut Names, call: &Call) -> Result<String, RowError> {
    names.cut(call.at(0));
    spell(alloc, &names.count())
}

/// A name of four letters, another for each number below 4,096.
fn numbered(number: u32) -> [u8; 4] {
    [
        b'n',
        b'a' + (number / 256 % 16) as u8,
        b'a' + (number / 16 % 16) as u8,
        b'a' + (number % 16) as u8,
    ]
}

/// So many new names of four letters. Their number with that of the others is answered.
fn intern_many(
    alloc: Global,
    space: &mut MapSpace,
    names: &mut Names,
    call: &Call,
) -> Result<String, RowError> {
    for number in 0..call.at(0) {
        let text = numbered(number);
        if is_short_name(&text) && names.intern(space, &text).is_err() {
            return Err(RowError::Malformed);
        }
    }
    spell(alloc, &names.count())
}
