ghost use Rattle.std.specs.Prelude.{◌≡◌, ◌≢◌, ◌<◌, ◌++◌, ◌∷◌, [], length, Bool, Some};
ghost use Rattle.std.specs.Prelude.{IfOk, IfErr, OnOk};
ghost use Rattle.gremlin_parse.specs.Grammar.{most_id};
ghost use Rattle.gremlin_parse.specs.Reading.{first_byte};
ghost use Rattle.gremlin_parse.specs.Queries.{Start, SourceName, Opening, FirstId, Quote, Steps};
ghost use Rattle.gremlin_parse.specs.Queries.{FoundLabel, LeadsTo, StopsFrom, opened_source};
ghost use Rattle.gremlin_parse.specs.Queries.{elements_of, query_from};
ghost use Rattle.gremlin_parse.specs.Symbols.{ReadsId, Leaves, AnyNumber};

use crate::comparison::later;
use crate::mutation::read_pair;
use crate::number::read_number;
use crate::parts::{copy_name, read_token, skip_blanks};
use crate::quoted_name::{read_close, read_comma, read_first, read_quoted_name};
use crate::stop::Stop;
use crate::value::value_of;
use plain_graph::{Ids, Source};
use std::alloc::Global;

/// What a query begins with.
#[derive(Clone, Copy)]
pub(crate) enum SourceKind {
    Vertices,
    Edges,
    /// A new vertex: `addV`.
    NewVertex,
    /// The nodes that an index finds: `find`.
    Found,
}

/// What the query begins with, and the bytes after the opening parenthesis.
///
/// # Errors
/// A fault of syntax if no query goes on so.
pub(crate) fn read_source(bytes: &[u8]) -> Result<(SourceKind, &[u8]), Stop>
    ensures ok { IfOk result (λ r. LeadsTo Start bytes.now (opened_source r.0) r.1.now) }
    ensures err { IfErr result (StopsFrom Start bytes.now) }
{
    let at_kind = read_token(bytes, b".")?;
    let (kind, at_open) = read_kind(at_kind)?;
    let rest = read_token(at_open, b"(")?;
    Ok((kind, rest))
}

/// The word for what a query begins with, and the bytes after it and any blanks.
fn read_kind(bytes: &[u8]) -> Result<(SourceKind, &[u8]), Stop>
    ensures ok { IfOk result (λ r. LeadsTo SourceName bytes.now (Opening r.0) r.1.now) }
    ensures err { IfErr result (StopsFrom SourceName bytes.now) }
{
    if let Some(rest) = read_first(bytes, b'V') {
        return Ok((SourceKind::Vertices, rest));
    }
    if let Some(rest) = read_first(bytes, b'E') {
        return Ok((SourceKind::Edges, rest));
    }
    match read_token(bytes, b"find") {
        Ok(rest) => Ok((SourceKind::Found, rest)),
        Err(no_find) => match read_token(bytes, b"addV") {
            Ok(rest) => Ok((SourceKind::NewVertex, rest)),
            Err(no_vertex) => Err(later(no_find, no_vertex)),
        },
    }
}

/// The nodes that an index finds, from their label up to the closing parenthesis, and the bytes
/// after it.
///
/// # Errors
/// A fault of syntax if they don't go on so, another fault of their names and value, or `Memory`.
pub(crate) fn read_found(alloc: Global, bytes: &[u8]) -> Result<(Source, &[u8]), Stop>
    ensures ok { IfOk result (λ r.
        LeadsTo (Quote FoundLabel) bytes.now (Steps (query_from r.0)) r.1.now) }
    ensures err { IfErr result (StopsFrom (Quote FoundLabel) bytes.now) }
{
    let (label, at_comma) = read_quoted_name(bytes)?;
    let at_key = read_token(at_comma, b",")?;
    let (key, written, rest) = read_pair(at_key)?;
    let label = copy_name(alloc, label)?;
    let key = copy_name(alloc, key)?;
    let value = value_of(alloc, written)?;
    Ok((Source::Found { label, key, value }, rest))
}

/// The identifiers up to the closing parenthesis, and the bytes after it.
///
/// # Errors
/// A fault of syntax if they don't go on so, `WideNumber`, or `Memory`.
pub(crate) fn read_ids(alloc: Global, bytes: &[u8]) -> Result<(Ids, &[u8]), Stop>
    ensures ok { IfOk result (λ r. (edges : Bool) →
        LeadsTo (FirstId edges) bytes.now (Steps (query_from (elements_of edges r.0))) r.1.now) }
    ensures err { IfErr result (λ stop. (edges : Bool) → StopsFrom (FirstId edges) bytes.now stop) }
{
    match read_close(bytes) {
        Some(rest) => Ok((Ids::new(Vec::new(alloc)), rest)),
        None => read_some_ids(alloc, bytes),
    }
}

/// One identifier or more, up to the closing parenthesis, and the bytes after it.
fn read_some_ids(alloc: Global, bytes: &[u8]) -> Result<(Ids, &[u8]), Stop>
    requires { first_byte bytes.now ≢ Some 41 }
    ensures ok { IfOk result (λ r. (edges : Bool) →
        LeadsTo (FirstId edges) bytes.now (Steps (query_from (elements_of edges r.0))) r.1.now) }
    ensures err { IfErr result (λ stop. (edges : Bool) → StopsFrom (FirstId edges) bytes.now stop) }
{
    let mut ids = Vec::new(alloc);
    let (first, after_first) = read_id(bytes)?;
    push_id(&mut ids, first)?;
    let (mut more, mut rest) = read_comma(after_first)?;
    while more {
        let (id, after_id) = read_id(rest)?;
        push_id(&mut ids, id)?;
        let (again, after) = read_comma(after_id)?;
        more = again;
        rest = after;
    }
    Ok((Ids::new(ids), rest))
}

/// The identifier at the head, and the bytes after it and any blanks.
///
/// # Errors
/// A fault of syntax if no number begins here, and `WideNumber`.
pub(crate) fn read_id(bytes: &[u8]) -> Result<(u32, &[u8]), Stop>
    ensures ok { IfOk result (λ r. ReadsId r.0 bytes.now r.1.now) }
    ensures less { IfOk result (λ r. length r.1.now < length bytes.now) }
    ensures err { IfErr result (Leaves (AnyNumber most_id) bytes.now) }
{
    let (id, rest) = read_number(bytes)?;
    Ok((id, skip_blanks(rest)))
}

/// Adds the identifier after the others.
fn push_id(ids: &mut Vec<u32>, id: u32) -> Result<(), Stop>
    ensures ok { OnOk result (ids.new.items ≡ ids.old.items ++ id ∷ []) }
    ensures err { IfErr result (λ stop. stop ≡ Stop.Memory) }
{
    ids.push(id)?;
    Ok(())
}
