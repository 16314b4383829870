ghost use Rattle.std.specs.Prelude.{◌≡◌, ◌≢◌, ◌≤◌, ◌<◌, ◌+◌, ◌++◌, ◌∷◌, [], length};
ghost use Rattle.std.specs.Prelude.{List, ℕ, cond, false, true};
ghost use Rattle.std.specs.Prelude.{IfOk, IfErr, OnOk};
ghost use Rattle.plain_graph.specs.declared.query.Query.{Query};
ghost use Rattle.plain_graph.specs.declared.query.Step.TheVariants as steps;
ghost use Rattle.gremlin_parse.specs.Queries.{Into, NamesFor, Steps, Quote, Most, Key, OneName};
ghost use Rattle.gremlin_parse.specs.Queries.{LeadsTo, StopsFrom, opened, opened_body};
ghost use Rattle.gremlin_parse.specs.Queries.{opened_names, after_filter, after_names, after_step};
ghost use Rattle.gremlin_parse.specs.Queries.{steps_place, after_word, plain_order, IsOrderStep};
ghost use Rattle.gremlin_parse.specs.Queries.{with_step, bare_step, names_step, step_of};
ghost use Rattle.gremlin_parse.specs.Queries.{needs_name, QuotesAt, Place, is_step};
ghost use Rattle.gremlin_parse.specs.Queries.{relation_filter};
ghost use Rattle.gremlin_parse.specs.Stages.{stage_of, name_count, added_count};
ghost use Rattle.gremlin_parse.specs.Values.{value_of};
ghost use Rattle.gremlin_parse.specs.declared.step_word.StepWord.TheVariants as words;

use crate::comparison::read_comparison;
use crate::number::read_limit;
use crate::order::read_by;
use crate::parts::{copy_name, read_token, skip_blanks};
use crate::quoted_name::{read_close, read_comma, read_quoted_name};
use crate::repeat::read_repeat;
use crate::stage::Stage;
use crate::step_word::{BareStep, BodyWord, NamesStep, StepWord, read_step_word};
use crate::stop::Stop;
use crate::value::{WrittenValue, value_of};
use plain_graph::{BodyStep, Filter, Hop, Relation, Step, Text, Texts};
use std::alloc::Global;

/// The name of a step after its dot, and the bytes after the opening parenthesis.
///
/// # Errors
/// A fault of syntax if no step goes on so, `UnfitStep` and `LateStep`.
pub(crate) fn read_opening(
    stage: Stage,
    is_ordered: bool,
    bytes: &[u8],
) -> Result<(StepWord, &[u8]), Stop>
    requires some { bytes.now ≢ [] }
    requires early { stage.steps ≤ 32 }
    ensures ok { IfOk result (λ r. (query : Query) → stage_of query ≡ stage →
        LeadsTo (steps_place is_ordered query) bytes.now (opened query r.0) r.1.now) }
    ensures by { IfOk result (λ r. r.0 ≡ words.By → is_ordered ≡ true) }
    ensures few { IfOk result (λ r. stage.steps + name_count r.0 ≤ 32) }
    ensures less { IfOk result (λ r. length r.1.now < length bytes.now) }
    ensures err { IfErr result (λ stop. (query : Query) → stage_of query ≡ stage →
        StopsFrom (steps_place is_ordered query) bytes.now stop) }
{
    let at_name = read_token(bytes, b".")?;
    let (word, after_name) = read_step_word(stage, is_ordered, at_name)?;
    let at_open = skip_blanks(after_name);
    let rest = read_token(at_open, b"(")?;
    Ok((word, rest))
}

/// The step of the word with its arguments up to the closing parenthesis, and the bytes after it. A
/// `by` gives the order that stands before it, with its key and its direction.
///
/// # Errors
/// A fault of syntax if no step of the word goes on so, another fault of its names and values, or
/// `Memory`.
pub(crate) fn read_arguments(
    alloc: Global,
    stage: Stage,
    word: StepWord,
    bytes: &[u8],
) -> Result<(Step, &[u8]), Stop>
    requires few { stage.steps + name_count word ≤ 32 }
    requires step { is_step word ≡ true }
    ensures ok { IfOk result (λ r. (query : Query) → stage_of query ≡ stage →
        LeadsTo (opened query word) bytes.now (after_word word query r.0) r.1.now) }
    ensures order { IfOk result (λ r. IsOrderStep word r.0) }
    ensures few { IfOk result (λ r. stage.steps + added_count word r.0 ≤ 32) }
    ensures within { IfOk result (λ r. length r.1.now ≤ length bytes.now) }
    ensures err { IfErr result (λ stop. (query : Query) → stage_of query ≡ stage →
        StopsFrom (opened query word) bytes.now stop) }
{
    match word {
        StepWord::Bare(bare) => {
            let rest = read_token(bytes, b")")?;
            Ok((bare_step(bare), rest))
        }
        StepWord::Names(step) => {
            let (names, rest) = read_names(alloc, false, bytes)?;
            Ok((names_step(step, names), rest))
        }
        StepWord::Body(word) => {
            let (step, rest) = read_body_arguments(alloc, word, bytes)?;
            Ok((step_of(step), rest))
        }
        StepWord::Limit => {
            let (most, rest) = read_most(bytes)?;
            Ok((Step::Limit(most), rest))
        }
        StepWord::Order => {
            let rest = read_token(bytes, b")")?;
            Ok((plain_order(), rest))
        }
        StepWord::By => {
            let (key, descending, rest) = read_by(alloc, bytes)?;
            Ok((Step::Order { key, descending }, rest))
        }
        StepWord::Repeat => read_repeat(alloc, stage.steps, bytes),
        StepWord::ElementMap | StepWord::Change(_) => unreachable!(),
    }
}

/// An order without a `by`.
fn plain_order() -> Step
    ensures { result ≡ plain_order }
{
    Step::Order {
        key: None,
        descending: false,
    }
}

/// The step of a query or of a body with its arguments up to the closing parenthesis, and the
/// bytes after it.
pub(crate) fn read_body_arguments(
    alloc: Global,
    word: BodyWord,
    bytes: &[u8],
) -> Result<(BodyStep, &[u8]), Stop>
    ensures ok { IfOk result (λ r. (into : Into) →
        LeadsTo (opened_body into word) bytes.now (after_step into r.0) r.1.now) }
    ensures within { IfOk result (λ r. length r.1.now ≤ length bytes.now) }
    ensures err { IfErr result (λ stop. (into : Into) →
        StopsFrom (opened_body into word) bytes.now stop) }
{
    match word {
        BodyWord::Neighbours(direction) => {
            let (labels, rest) = read_names(alloc, false, bytes)?;
            Ok((BodyStep::Neighbours(Hop { direction, labels }), rest))
        }
        BodyWord::HasLabel => {
            let (labels, rest) = read_names(alloc, true, bytes)?;
            Ok((BodyStep::Filter(Filter::HasLabel(labels)), rest))
        }
        BodyWord::Has => {
            let (filter, rest) = read_has(alloc, bytes)?;
            Ok((BodyStep::Filter(filter), rest))
        }
    }
}

/// The step without an argument.
fn bare_step(bare: BareStep) -> Step
    ensures { result ≡ bare_step bare }
{
    match bare {
        BareStep::OutV => Step::OutV,
        BareStep::InV => Step::InV,
        BareStep::Id => Step::Id,
        BareStep::Label => Step::Label,
        BareStep::Dedup => Step::Dedup,
        BareStep::Count => Step::Count,
    }
}

/// The step with these names.
fn names_step(step: NamesStep, names: Texts) -> Step
    ensures { result ≡ names_step step names }
{
    match step {
        NamesStep::Incident(direction) => Step::Incident(Hop {
            direction,
            labels: names,
        }),
        NamesStep::Values => Step::Values(names),
    }
}

/// The step as one of a query.
fn step_of(step: BodyStep) -> Step
    ensures { result ≡ step_of step }
{
    match step {
        BodyStep::Neighbours(hop) => Step::Neighbours(hop),
        BodyStep::Filter(filter) => Step::Filter(filter),
    }
}

/// The names of a step up to the closing parenthesis, and the bytes after it. There may be none
/// but where one is needed.
pub(crate) fn read_names(
    alloc: Global,
    is_needed: bool,
    bytes: &[u8],
) -> Result<(Texts, &[u8]), Stop>
    ensures ok { IfOk result (λ r. (purpose : NamesFor) → needs_name purpose ≡ is_needed →
        LeadsTo (opened_names purpose) bytes.now (after_names purpose r.0) r.1.now) }
    ensures within { IfOk result (λ r. length r.1.now ≤ length bytes.now) }
    ensures err { IfErr result (λ stop. (purpose : NamesFor) → needs_name purpose ≡ is_needed →
        StopsFrom (opened_names purpose) bytes.now stop) }
{
    if is_needed {
        return read_some_names(alloc, bytes);
    }
    match read_close(bytes) {
        Some(rest) => Ok((Texts::new(Vec::new(alloc)), rest)),
        None => read_some_names(alloc, bytes),
    }
}

/// One name or more of a step, up to the closing parenthesis, and the bytes after it.
fn read_some_names(alloc: Global, bytes: &[u8]) -> Result<(Texts, &[u8]), Stop>
    ensures ok { IfOk result (λ r. (purpose : NamesFor) (place : Place) →
        QuotesAt place (OneName purpose []) bytes.now →
        LeadsTo place bytes.now (after_names purpose r.0) r.1.now) }
    ensures within { IfOk result (λ r. length r.1.now ≤ length bytes.now) }
    ensures err { IfErr result (λ stop. (purpose : NamesFor) (place : Place) →
        QuotesAt place (OneName purpose []) bytes.now → StopsFrom place bytes.now stop) }
{
    let mut names = Vec::new(alloc);
    let mut more = true;
    let mut rest = bytes;
    while more {
        let (name, again, after) = read_listed_name(rest)?;
        push_name(alloc, &mut names, name)?;
        more = again;
        rest = after;
    }
    Ok((Texts::new(names), rest))
}

/// A name between quotes, whether a comma stands after it and no closing parenthesis, and the bytes
/// after that.
fn read_listed_name(bytes: &[u8]) -> Result<(&[u8], bool, &[u8]), Stop>
    ensures ok { IfOk result (λ r. (purpose : NamesFor) (names : List (List ℕ)) (place : Place) →
        QuotesAt place (OneName purpose names) bytes.now →
        LeadsTo place bytes.now (cond r.1 (Quote (OneName purpose (names ++ r.0.now ∷ [])))
        (after_names purpose (names ++ r.0.now ∷ []))) r.2.now) }
    ensures less { IfOk result (λ r. length r.2.now < length bytes.now) }
    ensures err { IfErr result (λ stop. (purpose : NamesFor) (names : List (List ℕ))
        (place : Place) → QuotesAt place (OneName purpose names) bytes.now →
        StopsFrom place bytes.now stop) }
{
    let (name, after_name) = read_quoted_name(bytes)?;
    let (more, rest) = read_comma(after_name)?;
    Ok((name, more, rest))
}

/// Adds the name after the others.
fn push_name(alloc: Global, names: &mut Vec<Text>, name: &[u8]) -> Result<(), Stop>
    ensures ok { OnOk result (names.new.items ≡ names.old.items ++ name.now ∷ []) }
    ensures err { IfErr result (λ stop. stop ≡ Stop.Memory) }
{
    let name = copy_name(alloc, name)?;
    names.push(name)?;
    Ok(())
}

/// The key and the value of `has` up to the closing parenthesis, and the bytes after it.
fn read_has(alloc: Global, bytes: &[u8]) -> Result<(Filter, &[u8]), Stop>
    ensures ok { IfOk result (λ r. (into : Into) →
        LeadsTo (Quote (Key into)) bytes.now (after_filter into r.0) r.1.now) }
    ensures within { IfOk result (λ r. length r.1.now ≤ length bytes.now) }
    ensures err { IfErr result (λ stop. (into : Into) →
        StopsFrom (Quote (Key into)) bytes.now stop) }
{
    let (name, after_name) = read_quoted_name(bytes)?;
    let (more, at_value) = read_comma(after_name)?;
    if !more {
        let key = copy_name(alloc, name)?;
        return Ok((Filter::Has(key), at_value));
    }
    let (relation, written, rest) = read_comparison(at_value)?;
    let filter = relation_filter(alloc, name, relation, written)?;
    Ok((filter, rest))
}

/// The filter of the key, the relation and the value, with texts of its own.
fn relation_filter(
    alloc: Global,
    key: &[u8],
    relation: Relation,
    value: WrittenValue,
) -> Result<Filter, Stop>
    ensures ok { IfOk result (λ filter.
        filter ≡ relation_filter key.now relation (value_of value.entry)) }
    ensures err { IfErr result (λ stop. stop ≡ Stop.Memory) }
{
    let key = copy_name(alloc, key)?;
    let value = value_of(alloc, value)?;
    Ok(Filter::HasValue {
        key,
        relation,
        value,
    })
}

/// The number of `limit` up to the closing parenthesis, and the bytes after it.
fn read_most(bytes: &[u8]) -> Result<(u32, &[u8]), Stop>
    ensures ok { IfOk result (λ r. (query : Query) →
        LeadsTo (Most query) bytes.now (Steps (with_step query (steps.Limit r.0))) r.1.now) }
    ensures within { IfOk result (λ r. length r.1.now ≤ length bytes.now) }
    ensures err { IfErr result (λ stop. (query : Query) → StopsFrom (Most query) bytes.now stop) }
{
    let (most, after_most) = read_limit(bytes)?;
    let at_close = skip_blanks(after_most);
    let rest = read_token(at_close, b")")?;
    Ok((most, rest))
}
