ghost use Rattle.std.specs.Prelude.{◌≡◌, ◌≢◌, ◌≤◌, List, ℕ, Some, length, IfOk, IfErr};
ghost use Rattle.plain_graph.specs.declared.filter.Relation.{Relation};
ghost use Rattle.gremlin_parse.specs.Comparisons.{ReadsRelation, later};
ghost use Rattle.gremlin_parse.specs.Queries.{Into, ValueOf, OpensValue, LeadsTo, StopsFrom};
ghost use Rattle.gremlin_parse.specs.Queries.{relation_names, relation_filter};
ghost use Rattle.gremlin_parse.specs.Queries.{after_filter};
ghost use Rattle.gremlin_parse.specs.Reading.{first_byte};
ghost use Rattle.gremlin_parse.specs.Symbols.{OneWord, Leaves};
ghost use Rattle.gremlin_parse.specs.Values.{value_of};

use crate::keyword::read_keyword;
use crate::parts::{read_token, skip_blanks};
use crate::quoted_name::read_first;
use crate::stop::Stop;
use crate::value::{WrittenValue, read_value};
use plain_graph::Relation;

const RELATIONS: [(&[u8], Relation); 6] = [
    (b"eq", Relation::Eq),
    (b"neq", Relation::Neq),
    (b"gt", Relation::Gt),
    (b"gte", Relation::Gte),
    (b"lt", Relation::Lt),
    (b"lte", Relation::Lte),
];

/// How the value of a key compares and with what, up to the closing parenthesis of `has`, and the
/// bytes after it.
///
/// # Errors
/// A fault of syntax if no argument goes on so, and another fault of its value.
pub(crate) fn read_comparison(bytes: &[u8]) -> Result<(Relation, WrittenValue<'_>, &[u8]), Stop>
    ensures ok { IfOk result (λ r. (into : Into) (key : List ℕ) →
        LeadsTo (ValueOf into key) bytes.now
        (after_filter into (relation_filter key r.0 (value_of r.1))) r.2.now) }
    ensures within { IfOk result (λ r. length r.2.now ≤ length bytes.now) }
    ensures err { IfErr result (λ stop. (into : Into) (key : List ℕ) →
        StopsFrom (ValueOf into key) bytes.now stop) }
{
    if let Some(at_dot) = read_first(bytes, b'P') {
        let at_relation = read_token(at_dot, b".")?;
        let (relation, at_open) = read_relation(at_relation)?;
        return read_compared(relation, at_open);
    }
    match read_relation(bytes) {
        Ok((relation, at_open)) => read_compared(relation, at_open),
        Err(no_relation) => read_plain(no_relation, bytes),
    }
}

/// The word for a relation, and the bytes after it and any blanks.
fn read_relation(bytes: &[u8]) -> Result<(Relation, &[u8]), Stop>
    ensures ok { IfOk result (λ r. ReadsRelation r.0 bytes.now r.1.now) }
    ensures err { IfErr result (Leaves (OneWord relation_names) bytes.now) }
{
    let (relation, after) = read_keyword(bytes, &RELATIONS)?;
    Ok((relation, skip_blanks(after)))
}

/// The relation with the value of its predicate between parentheses, and the bytes after the
/// closing one of `has`.
fn read_compared(
    relation: Relation,
    bytes: &[u8],
) -> Result<(Relation, WrittenValue<'_>, &[u8]), Stop>
    ensures ok { IfOk result (λ r. (into : Into) (key : List ℕ) →
        LeadsTo (OpensValue into key relation) bytes.now
        (after_filter into (relation_filter key r.0 (value_of r.1))) r.2.now) }
    ensures within { IfOk result (λ r. length r.2.now ≤ length bytes.now) }
    ensures err { IfErr result (λ stop. (into : Into) (key : List ℕ) →
        StopsFrom (OpensValue into key relation) bytes.now stop) }
{
    let at_value = read_token(bytes, b"(")?;
    let (written, after) = read_value(at_value)?;
    let at_close = skip_blanks(after);
    let at_end = read_token(at_close, b")")?;
    let rest = read_token(at_end, b")")?;
    Ok((relation, written, rest))
}

/// Equality with the value where no predicate stands, and the bytes after the closing parenthesis.
fn read_plain(no_relation: Stop, bytes: &[u8]) -> Result<(Relation, WrittenValue<'_>, &[u8]), Stop>
    requires no_p { first_byte bytes.now ≢ Some 80 }
    requires no_relation { Leaves (OneWord relation_names) bytes.now no_relation }
    ensures ok { IfOk result (λ r. (into : Into) (key : List ℕ) →
        LeadsTo (ValueOf into key) bytes.now
        (after_filter into (relation_filter key r.0 (value_of r.1))) r.2.now) }
    ensures within { IfOk result (λ r. length r.2.now ≤ length bytes.now) }
    ensures err { IfErr result (λ stop. (into : Into) (key : List ℕ) →
        StopsFrom (ValueOf into key) bytes.now stop) }
{
    match read_value(bytes) {
        Ok((written, after)) => {
            let at_close = skip_blanks(after);
            let rest = read_token(at_close, b")")?;
            Ok((Relation::Eq, written, rest))
        }
        Err(no_value) => Err(later(no_relation, no_value)),
    }
}

/// Of two stops the one that is later in the line, if both are faults of syntax, or the second one.
pub(crate) fn later(one: Stop, two: Stop) -> Stop
    ensures { result ≡ later one two }
{
    match (one, two) {
        (Stop::Syntax { left }, Stop::Syntax { left: other }) => Stop::Syntax {
            left: left.min(other),
        },
        _ => two,
    }
}
