ghost use Rattle.std.specs.Prelude.{◌≡◌, ◌≢◌, ◌≤◌, ◌<◌, ◌+◌, [], List, ℕ, None, Some, length};
ghost use Rattle.std.specs.Prelude.{IfOk, IfErr};
ghost use Rattle.plain_graph.specs.declared.command.Command.TheVariants as commands;
ghost use Rattle.plain_graph.specs.declared.pairs.Pair.{Pair};
ghost use Rattle.plain_graph.specs.declared.query.Query.{Query};
ghost use Rattle.gremlin_parse.specs.Keywords.{TakesWord};
ghost use Rattle.gremlin_parse.specs.Queries.{AfterType, Changed, NewEdges, OpensId};
ghost use Rattle.gremlin_parse.specs.Queries.{OfChange, PairFor, PairKey, Quote, Subject, ToFirst};
ghost use Rattle.gremlin_parse.specs.Queries.{VertexLabel, after_pair};
ghost use Rattle.gremlin_parse.specs.Queries.{LeadsTo, StopsFrom, changed, is_loose, opened};
ghost use Rattle.gremlin_parse.specs.Queries.{property_words, steps_before, turn};
ghost use Rattle.gremlin_parse.specs.Stages.{late_fault, steps_of};
ghost use Rattle.gremlin_parse.specs.Turns.{KeptFrom, LeavesWords};
ghost use Rattle.gremlin_parse.specs.Values.{value_of};
ghost use Rattle.gremlin_parse.specs.declared.step_word.ChangeWord.TheVariants as changes;
ghost use Rattle.gremlin_parse.specs.declared.step_word.StepWord.TheVariants as words;

use crate::keyword::read_keyword;
use crate::pair::push_pair;
use crate::parts::{copy_name, read_end, read_token, skip_blanks};
use crate::quoted_name::{read_either, read_quoted_name};
use crate::source::read_id;
use crate::stage::late_word_fault;
use crate::step_word::{ChangeWord, StepWord};
use crate::stop::Stop;
use crate::value::{WrittenValue, read_value};
use plain_graph::{Mutation, Pair, Pairs};
use std::alloc::Global;

/// The name of the only step that may follow one that changes the graph.
const PROPERTY: [(&[u8], StepWord); 1] = [(b"property", StepWord::Change(ChangeWord::Property))];

/// A new vertex, from its label to the line's end.
///
/// # Errors
/// The leftmost fault, or `Memory`.
pub(crate) fn read_new_vertex(alloc: Global, bytes: &[u8]) -> Result<Mutation, Stop>
    ensures ok { IfOk result (λ mutation.
        KeptFrom turn is_loose (commands.Mutate None mutation) (Quote VertexLabel) bytes.now) }
    ensures err { IfErr result (StopsFrom (Quote VertexLabel) bytes.now) }
{
    let (name, at_close) = read_quoted_name(bytes)?;
    let rest = read_token(at_close, b")")?;
    let label = copy_name(alloc, name)?;
    let pairs = read_properties(alloc, 0, Vec::new(alloc), rest)?;
    Ok(Mutation::AddV { label, pairs })
}

/// What a step makes of the elements of a query, from its arguments to the line's end. So many
/// steps stand before it.
///
/// # Errors
/// The leftmost fault, or `Memory`.
pub(crate) fn read_change(
    alloc: Global,
    change: ChangeWord,
    before: usize,
    bytes: &[u8],
) -> Result<Mutation, Stop>
    requires { before < 32 }
    ensures ok { IfOk result (λ mutation. (query : Query) → steps_of query ≡ before →
        KeptFrom turn is_loose (commands.Mutate (Some query) mutation)
        (opened query (words.Change change)) bytes.now) }
    ensures err { IfErr result (λ stop. (query : Query) → steps_of query ≡ before →
        StopsFrom (opened query (words.Change change)) bytes.now stop) }
{
    match change {
        ChangeWord::AddE => read_new_edges(alloc, before, bytes),
        ChangeWord::Property => read_values(alloc, before, bytes),
        ChangeWord::Drop => read_drop(bytes),
    }
}

/// New edges, from their type to the line's end.
fn read_new_edges(alloc: Global, before: usize, bytes: &[u8]) -> Result<Mutation, Stop>
    requires { before < 32 }
    ensures ok { IfOk result (λ mutation. (query : Query) → steps_of query ≡ before →
        KeptFrom turn is_loose (commands.Mutate (Some query) mutation)
        (opened query (words.Change changes.AddE)) bytes.now) }
    ensures err { IfErr result (λ stop. (query : Query) → steps_of query ≡ before →
        StopsFrom (opened query (words.Change changes.AddE)) bytes.now stop) }
{
    let (name, at_close) = read_quoted_name(bytes)?;
    let at_dot = read_token(at_close, b")")?;
    let (to, rest) = read_to(at_dot)?;
    let label = copy_name(alloc, name)?;
    let pairs = read_properties(alloc, before + 1, Vec::new(alloc), rest)?;
    Ok(Mutation::AddE { label, to, pairs })
}

/// New values, from the first key to the line's end.
fn read_values(alloc: Global, before: usize, bytes: &[u8]) -> Result<Mutation, Stop>
    requires { before < 32 }
    ensures ok { IfOk result (λ mutation. (query : Query) → steps_of query ≡ before →
        KeptFrom turn is_loose (commands.Mutate (Some query) mutation)
        (opened query (words.Change changes.Property)) bytes.now) }
    ensures err { IfErr result (λ stop. (query : Query) → steps_of query ≡ before →
        StopsFrom (opened query (words.Change changes.Property)) bytes.now stop) }
{
    let (key, value, rest) = read_pair(bytes)?;
    let mut first = Vec::new(alloc);
    push_pair(alloc, &mut first, key, value)?;
    let pairs = read_properties(alloc, before + 1, first, rest)?;
    Ok(Mutation::Property(pairs))
}

/// The end of a line that drops elements.
fn read_drop(bytes: &[u8]) -> Result<Mutation, Stop>
    ensures ok { IfOk result (λ mutation. (query : Query) →
        KeptFrom turn is_loose (commands.Mutate (Some query) mutation)
        (opened query (words.Change changes.Drop)) bytes.now) }
    ensures err { IfErr result (λ stop. (query : Query) →
        StopsFrom (opened query (words.Change changes.Drop)) bytes.now stop) }
{
    let rest = read_token(bytes, b")")?;
    read_end(rest)?;
    Ok(Mutation::Drop)
}

/// The vertex to which new edges lead, from the dot after their type to the parenthesis that closes
/// `to`, and the bytes after it.
fn read_to(bytes: &[u8]) -> Result<(u32, &[u8]), Stop>
    ensures ok { IfOk result (λ r. (query : Query) (label : List ℕ) →
        LeadsTo (AfterType query label) bytes.now (Changed (NewEdges query label r.0) [])
        r.1.now) }
    ensures err { IfErr result (λ stop. (query : Query) (label : List ℕ) →
        StopsFrom (AfterType query label) bytes.now stop) }
{
    let at_word = read_token(bytes, b".")?;
    let at_open = read_token(at_word, b"to")?;
    let at_vertex = read_token(at_open, b"(")?;
    let at_id = read_vertex(at_vertex)?;
    read_vertex_id(at_id)
}

/// The bytes after `V` and any blanks; before it may stand `__` and a dot.
fn read_vertex(bytes: &[u8]) -> Result<&[u8], Stop>
    ensures ok { IfOk result (λ rest. (query : Query) (label : List ℕ) →
        LeadsTo (ToFirst query label) bytes.now (OpensId query label) rest.now) }
    ensures err { IfErr result (λ stop. (query : Query) (label : List ℕ) →
        StopsFrom (ToFirst query label) bytes.now stop) }
{
    let (anonymous, after) = read_either(bytes, b'_', b'V')?;
    if !anonymous {
        return Ok(skip_blanks(after));
    }
    let at_dot = read_token(after, b"_")?;
    let at_vertex = read_token(at_dot, b".")?;
    read_token(at_vertex, b"V")
}

/// The identifier between parentheses, and the bytes after the closing one of `to`.
fn read_vertex_id(bytes: &[u8]) -> Result<(u32, &[u8]), Stop>
    ensures ok { IfOk result (λ r. (query : Query) (label : List ℕ) →
        LeadsTo (OpensId query label) bytes.now (Changed (NewEdges query label r.0) []) r.1.now) }
    ensures err { IfErr result (λ stop. (query : Query) (label : List ℕ) →
        StopsFrom (OpensId query label) bytes.now stop) }
{
    let at_id = read_token(bytes, b"(")?;
    let (to, at_close) = read_id(at_id)?;
    let at_end = read_token(at_close, b")")?;
    let rest = read_token(at_end, b")")?;
    Ok((to, rest))
}

/// The pairs with those before them, to the line's end. So many steps are before the next one.
fn read_properties(
    alloc: Global,
    before: usize,
    first: Vec<Pair>,
    bytes: &[u8],
) -> Result<Pairs, Stop>
    requires { before ≤ 32 }
    ensures ok { IfOk result (λ pairs. (subject : Subject) →
        steps_before subject + length first.items ≡ before →
        KeptFrom turn is_loose (changed subject pairs) (Changed subject first.items)
        bytes.now) }
    ensures err { IfErr result (λ stop. (subject : Subject) →
        steps_before subject + length first.items ≡ before →
        StopsFrom (Changed subject first.items) bytes.now stop) }
{
    let mut pairs = first;
    let mut count = before;
    let mut rest = bytes;
    while !rest.is_empty() {
        let at_key = read_property_name(count, rest)?;
        let (key, value, after) = read_pair(at_key)?;
        push_pair(alloc, &mut pairs, key, value)?;
        count += 1;
        rest = after;
    }
    Ok(Pairs::new(pairs))
}

/// The name of a step `property` after its dot, with so many steps before it, and the bytes after
/// the opening parenthesis.
fn read_property_name(before: usize, bytes: &[u8]) -> Result<&[u8], Stop>
    requires { bytes.now ≢ [] }
    ensures ok { IfOk result (λ rest. (subject : Subject) (pairs : List Pair) →
        steps_before subject + length pairs ≡ before →
        LeadsTo (Changed subject pairs) bytes.now (Quote (PairKey (OfChange subject pairs)))
        rest.now) }
    ensures early { IfOk result (λ rest. before < 32) }
    ensures less { IfOk result (λ rest. length rest.now < length bytes.now) }
    ensures err { IfErr result (λ stop. (subject : Subject) (pairs : List Pair) →
        steps_before subject + length pairs ≡ before →
        StopsFrom (Changed subject pairs) bytes.now stop) }
{
    let at_name = read_token(bytes, b".")?;
    let named = read_property_word(before, at_name)?;
    let at_open = skip_blanks(named.1);
    read_token(at_open, b"(")
}

/// The word `property`, with so many steps before it, and the bytes after it.
fn read_property_word(before: usize, bytes: &[u8]) -> Result<(StepWord, &[u8]), Stop>
    ensures ok { IfOk result (λ r. TakesWord property_words bytes.now r.0 r.1.now) }
    ensures no_fault { IfOk result (λ r. late_fault before ≡ None) }
    ensures err { IfErr result (LeavesWords property_words (λ _ _. late_fault before) bytes.now) }
{
    if let Some(token) = late_word_fault(before, bytes, &PROPERTY) {
        return Err(Stop::Bad {
            token,
            left: bytes.len(),
        });
    }
    read_keyword(bytes, &PROPERTY)
}

/// A key between quotes and its value up to the closing parenthesis, and the bytes after it.
pub(crate) fn read_pair(bytes: &[u8]) -> Result<(&[u8], WrittenValue<'_>, &[u8]), Stop>
    ensures ok { IfOk result (λ r. (purpose : PairFor) →
        LeadsTo (Quote (PairKey purpose)) bytes.now
        (after_pair purpose r.0.now (value_of r.1)) r.2.now) }
    ensures within { IfOk result (λ r. length r.2.now ≤ length bytes.now) }
    ensures err { IfErr result (λ stop. (purpose : PairFor) →
        StopsFrom (Quote (PairKey purpose)) bytes.now stop) }
{
    let (key, at_comma) = read_quoted_name(bytes)?;
    let at_value = read_token(at_comma, b",")?;
    let (value, after_value) = read_value(at_value)?;
    let at_close = skip_blanks(after_value);
    let rest = read_token(at_close, b")")?;
    Ok((key, value, rest))
}
